//! Catalogues, read from files.

ghost use Rattle.std.specs.Prelude.{◌≡◌, IfErr, IfOk, IfSome};
ghost use Rattle.catalog.specs.Catalogue.{IsValidCatalogue};
ghost use Rattle.catalog.specs.Relation.{catalogue_of};
ghost use Rattle.lines.specs.CatalogFile.{IsCatalogueFile, IsFaultOf, IsNoText, IsTextOf, fault_of_refusal};

use crate::fault::ProgramFault;
use crate::input::read_up_to;
use catalog::catalogue::Catalog;
use catalog::fault::{CatFault, Rule};
use std::alloc::Global;
use std::io::Read;
use terms::memory::Memory;

/// How many bytes a catalogue may have.
pub const CATALOG_LIMIT: usize = 65_536;

/// Why a file gives no catalogue.
#[derive(Drop)]
pub enum CatalogFault<'a> {
    /// The file was not read to its end.
    Program(ProgramFault<'a>),
    /// What was read is refused, and not for want of memory.
    Refused(CatFault),
}

impl<'a> From<ProgramFault<'a>> for CatalogFault<'a> {
    ghost use Rattle.lines.specs.declared.catalog_file.CatalogFault.TheVariants.{Program};

    ghost from_gives = { λ program fault. fault ≡ Program program };

    fn from(fault: ProgramFault<'a>) -> CatalogFault<'a> {
        CatalogFault::Program(fault)
    }
}

impl From<CatFault> for CatalogFault<'_> {
    ghost from_gives = { λ refusal fault. fault ≡ fault_of_refusal refusal };

    fn from(fault: CatFault) -> Self {
        match fault.rule() {
            Rule::Memory => CatalogFault::Program(ProgramFault::Memory),
            _ => CatalogFault::Refused(fault),
        }
    }
}

impl From<Memory> for CatalogFault<'_> {
    ghost use Rattle.lines.specs.declared.catalog_file.CatalogFault.TheVariants.{Program};
    ghost use Rattle.lines.specs.declared.fault.ProgramFault.TheVariants.{Memory};

    ghost from_gives = { λ _ fault. fault ≡ Program Memory };

    fn from(_error: Memory) -> Self {
        CatalogFault::Program(ProgramFault::Memory)
    }
}

/// The catalogue that `input` gives. `file` names it in a fault.
pub fn read_catalog<'a, R: Read + Drop>(
    alloc: Global,
    file: &'a str,
    input: R,
) -> Result<Catalog, CatalogFault<'a>>
    ensures found { IfOk result (λ catalog. IfSome (R.remaining input) (λ bytes. IsCatalogueFile bytes (catalogue_of catalog))) }
    ensures valid { IfOk result (λ catalog. IsValidCatalogue (catalogue_of catalog)) }
    ensures faults { IfErr result (λ fault. IfSome (R.remaining input) (λ bytes. IsFaultOf file.entry bytes fault)) }
{
    // One byte more than there may be shows that there are too many.
    let bytes = read_up_to(alloc, file, input, CATALOG_LIMIT as u64 + 1)?;
    let text = text_of(bytes.as_slice())?;
    Ok(Catalog::read(alloc, text)?)
}

/// The text that these bytes are, if they are few enough.
pub fn text_of(bytes: &[u8]) -> Result<&str, CatFault>
    ensures text { IfOk result (λ text. IsTextOf bytes.now text.now) }
    ensures none { IfErr result (λ fault. IsNoText bytes.now fault.rule) }
{
    if bytes.len() > CATALOG_LIMIT {
        return Err(CatFault::new(Rule::Limit));
    }
    str::from_utf8(bytes).map_err(|_error| CatFault::new(Rule::Toml))
}
