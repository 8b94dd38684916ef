//! The catalogues that the program is given one after another, each the text of a file.

ghost use Rattle.std.specs.Prelude.{◌≡◌, [], ◌∷◌, IfErr, IfOk, IfSome};
ghost use Rattle.catalog.specs.Relation.{catalogue_of};
ghost use Rattle.databases.specs.CatalogFiles as spec;
ghost use Rattle.databases.specs.CatalogFiles.{GivesCatalogues, GivesChain, IsFaultOf, IsOfCatalogues, IsSourceOf};

use catalog::catalogue::Catalog;
use catalog::chain::Chain;
use catalog::fault::CatFault;
use lines::catalog_file::{CatalogFault, read_catalog};
use lines::fault::ProgramFault;
use lines::script::ScriptFault;
use std::alloc::{AllocFailed, Global};
use std::io;
use std::io::Read;
use terms::memory::Memory;

/// A file that is to give a catalogue.
#[derive(Drop)]
pub struct Source<'a, C> {
    /// What a fault calls it.
    pub file: &'a str,
    /// Its text, if it could be opened.
    pub catalog: io::Result<C>,
}

/// Why a command over a chain of catalogues doesn't come to its end.
#[derive(Drop)]
pub enum ChainFault<'a> {
    /// The program stops.
    Program(ProgramFault<'a>),
    /// One of the catalogues is refused.
    Refused(CatFault),
    /// The catalogues are no chain, or the coordinator's store keeps the number of none of them.
    Unchained,
    /// A machine of a database that was closed can't be had back.
    Closed,
}

impl<'a> From<ProgramFault<'a>> for ChainFault<'a> {
    ghost use Rattle.databases.specs.declared.catalog_files.ChainFault.TheVariants.{Program};

    ghost from_gives = { λ program fault. fault ≡ Program program };

    fn from(fault: ProgramFault<'a>) -> ChainFault<'a> {
        ChainFault::Program(fault)
    }
}

impl<'a> From<CatalogFault<'a>> for ChainFault<'a> {
    ghost from_gives = { λ told fault. fault ≡ spec.fault_of_catalogue told };

    fn from(fault: CatalogFault<'a>) -> ChainFault<'a> {
        match fault {
            CatalogFault::Program(fault) => ChainFault::Program(fault),
            CatalogFault::Refused(fault) => ChainFault::Refused(fault),
        }
    }
}

impl From<Memory> for ChainFault<'_> {
    ghost use Rattle.databases.specs.declared.catalog_files.ChainFault.TheVariants.{Program};
    ghost use Rattle.lines.specs.declared.fault.ProgramFault.TheVariants as program;

    ghost from_gives = { λ _ fault. fault ≡ Program program.Memory };

    fn from(_error: Memory) -> Self {
        ChainFault::Program(ProgramFault::Memory)
    }
}

impl From<ScriptFault> for ChainFault<'_> {
    ghost use Rattle.databases.specs.declared.catalog_files.ChainFault.TheVariants.{Program};
    ghost use Rattle.lines.specs.Fault.{fault_of_script};

    ghost from_gives = { λ script fault. fault ≡ Program (fault_of_script script) };

    fn from(fault: ScriptFault) -> Self {
        ChainFault::Program(ProgramFault::from(fault))
    }
}

impl<T: Drop> From<AllocFailed<T>> for ChainFault<'_> {
    ghost use Rattle.databases.specs.declared.catalog_files.ChainFault.TheVariants.{Program};
    ghost use Rattle.lines.specs.declared.fault.ProgramFault.TheVariants as program;

    ghost from_gives = { λ _ fault. fault ≡ Program program.Memory };

    fn from(_error: AllocFailed<T>) -> Self {
        ChainFault::Program(ProgramFault::Memory)
    }
}

/// The chain of the catalogue that `catalog` gives, which `file` names in a fault, and of those that the sources give, in their
/// order. The first one at fault ends it; that they are no chain is found last.
pub fn read_catalogs<'a, C: Read + Drop, N: Read + Drop>(
    alloc: Global,
    file: &'a str,
    catalog: C,
    next: Vec<Source<'a, N>>,
) -> Result<Chain, ChainFault<'a>>
    ensures gives { IfSome (C.remaining catalog) (λ bytes. GivesCatalogues N.remaining file.entry bytes next.entry.items result) }
    ensures faults { IfErr result (IsOfCatalogues next.entry.items) }
{
    let first = read_catalog(alloc, file, catalog)?;
    read_chain(alloc, first, next)
}

/// The chain of a first catalogue and of those that the sources give.
pub fn read_chain<'a, C: Read + Drop>(
    alloc: Global,
    first: Catalog,
    next: Vec<Source<'a, C>>,
) -> Result<Chain, ChainFault<'a>>
    ensures { GivesChain C.remaining (catalogue_of first ∷ []) next.entry.items result }
{
    let mut catalogs = Vec::new(alloc);
    catalogs.push(first)?;
    for source in next {
        let catalog = read_source(alloc, source)?;
        catalogs.push(catalog)?;
    }
    match Chain::new(catalogs) {
        Ok(chain) => Ok(chain),
        Err(_) => Err(ChainFault::Unchained),
    }
}

/// The catalogue that a source gives.
fn read_source<'a, C: Read + Drop>(
    alloc: Global,
    source: Source<'a, C>,
) -> Result<Catalog, ChainFault<'a>>
    ensures ok { IfOk result (λ catalog. IsSourceOf C.remaining source.entry (catalogue_of catalog)) }
    ensures err { IfErr result (IsFaultOf C.remaining source.entry) }
{
    let Source { file, catalog } = source;
    match catalog {
        Ok(catalog) => Ok(read_catalog(alloc, file, catalog)?),
        Err(error) => Err(ChainFault::Program(ProgramFault::reading(file, &error))),
    }
}
