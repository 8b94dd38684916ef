//! The command `plan`: which fragments a statement reads.

ghost use Rattle.std.specs.Prelude.{◌≡◌, ◌++◌, ◌≢◌, false, IfErr, IfNone, IfOk, IfSome, OnOk, string_bytes};
ghost use Rattle.catalog.specs.FragmentLeaf.{catalogue_leaves, leaf_named, schemas_of};
ghost use Rattle.catalog.specs.Relation.{catalogue_of};
ghost use Rattle.meaning.specs.declared.statement.Statement.{Statement as StatementValue};
ghost use Rattle.meaning.specs.Statement.{IsStatementOf, is_refragment};
ghost use Rattle.catalog.specs.Catalogue.{IsValidCatalogue};
ghost use Rattle.reader.specs.declared.command.Command.TheVariants.{Run};
ghost use Rattle.reader.specs.Command.{IsTextOf};
ghost use Rattle.std.specs.Io.KnownBytes.{Appends};
ghost use Rattle.lines.specs.CatalogFile.{IsCatalogueFile};
ghost use Rattle.lines.specs.Plan.{IsOpenFault, IsPlanOf, IsPlanText, IsPlanWriteFault, IsReadFault, IsShownPlan, PlansFile, count_line, fault_of_catalogue, fault_of_reading, fetch_line, site_text};

use crate::catalog_file::{CatalogFault, read_catalog};
use crate::check::{columns_of, put_site, put_where, write_text};
use crate::fault::ProgramFault;
use crate::plan_tree::tree_text;
use catalog::catalogue::Catalog;
use catalog::fault::CatFault;
use meaning::listed::listed;
use meaning::schema::Schema;
use meaning::statement::Statement;
use plan::fetch::Fetch;
use plan::fetches::statement_fetches;
use reader::command::Command;
use reader::fault::{ReadFault, Rule};
use reader::read::{one_command, read};
use std::alloc::Global;
use std::io::{Read, Write};
use terms::leaf::Leaf;
use terms::memory::Memory;

/// Why a plan isn't shown.
#[derive(Drop)]
pub enum PlanFault<'a> {
    /// Something stopped the command.
    Program(ProgramFault<'a>),
    /// The catalogue is refused.
    Catalogue(CatFault),
    /// The statement is refused.
    Statement(ReadFault),
}

impl<'a> From<CatalogFault<'a>> for PlanFault<'a> {
    ghost from_gives = { λ fault other. other ≡ fault_of_catalogue fault };

    fn from(fault: CatalogFault<'a>) -> PlanFault<'a> {
        match fault {
            CatalogFault::Program(fault) => PlanFault::Program(fault),
            CatalogFault::Refused(fault) => PlanFault::Catalogue(fault),
        }
    }
}

impl From<Memory> for PlanFault<'_> {
    ghost use Rattle.lines.specs.declared.plan_text.PlanFault.TheVariants.{Program};
    ghost use Rattle.lines.specs.declared.fault.ProgramFault.TheVariants.{Memory};

    ghost from_gives = { λ _ fault. fault ≡ Program Memory };

    fn from(_error: Memory) -> Self {
        PlanFault::Program(ProgramFault::Memory)
    }
}

/// Plans a statement over the catalogue that `input` gives, which `file` names in a fault: writes to
/// `output` which fragments it reads, each with its site and the conditions that the read carries, as lines or at
/// the tips of its plan's tree, and how many. Nothing is written where the catalogue or the statement is refused.
pub fn plan<'a, R: Read + Drop, W: Write>(
    alloc: Global,
    file: &'a str,
    statement: &str,
    tree: bool,
    input: R,
    output: &mut W,
) -> Result<(), PlanFault<'a>>
    ensures { IfSome (R.remaining input) (λ bytes. PlansFile tree file.entry statement.now bytes (W.contents output.old) (W.contents output.new) result) }
{
    let catalog = open_catalog(alloc, file, input)?;
    let text = shown_of_text(alloc, tree, &catalog, statement);
    drop(catalog);
    let text = text?;
    write_plan(output, text.as_str())
}

/// What is shown of the plan of a statement of this text.
pub fn plan_typed<'a>(alloc: Global, catalog: &Catalog, text: &str) -> Result<String, PlanFault<'a>>
    ensures { IfOk result (λ shown. IsPlanOf (catalogue_of catalog.now) text.now (string_bytes shown)) }
{
    shown_of_text(alloc, false, catalog, text)
}

/// What is shown of the plan of a statement of this text, its fetches or its tree.
fn shown_of_text<'a>(
    alloc: Global,
    tree: bool,
    catalog: &Catalog,
    text: &str,
) -> Result<String, PlanFault<'a>>
    ensures shown { IfOk result (λ shown. (statement : StatementValue) × IsTextOf (schemas_of (catalogue_of catalog.now)) text.now (Run statement) × IsShownPlan tree (catalogue_of catalog.now) statement (string_bytes shown)) }
    ensures faults { IfErr result (IsReadFault (schemas_of (catalogue_of catalog.now)) text.now) }
{
    let statement = read_statement(alloc, catalog.schema(), text)?;
    let shown = shown_plan(alloc, tree, catalog, &statement);
    drop(statement);
    shown
}

/// The catalogue that `input` gives.
fn open_catalog<'a, R: Read + Drop>(
    alloc: Global,
    file: &'a str,
    input: R,
) -> Result<Catalog, PlanFault<'a>>
    ensures found { IfOk result (λ catalog. IfSome (R.remaining input) (λ bytes. IsCatalogueFile bytes (catalogue_of catalog))) }
    ensures valid { IfOk result (λ catalog. IsValidCatalogue (catalogue_of catalog)) }
    ensures faults { IfErr result (λ fault. IfSome (R.remaining input) (λ bytes. IsOpenFault file.entry bytes fault)) }
{
    Ok(read_catalog(alloc, file, input)?)
}

/// The statement of a text; BEGIN, COMMIT and ROLLBACK are none, and a REFRAGMENT has no plan.
fn read_statement<'a>(
    alloc: Global,
    schema: &Schema,
    text: &str,
) -> Result<Statement, PlanFault<'a>>
    ensures found { IfOk result (λ statement. IsTextOf schema.now.relations text.now (Run statement)) }
    ensures fits { IfOk result (λ statement. IsStatementOf schema.now.relations statement) }
    ensures ordinary { IfOk result (λ statement. is_refragment statement ≡ false) }
    ensures faults { IfErr result (IsReadFault schema.now.relations text.now) }
{
    one_command();
    let command = match read(alloc, text, schema) {
        Ok(command) => command,
        Err(fault) => return Err(refusal(fault)),
    };
    match statement_of(command) {
        Some(statement) => Ok(statement),
        None => Err(PlanFault::Statement(ReadFault::new(Rule::Syntax, 0))),
    }
}

/// The statement that a command runs, if it runs one that has a plan.
fn statement_of(command: Command) -> Option<Statement>
    ensures some { IfSome result (λ statement. command ≡ Run statement) }
    ensures ordinary { IfSome result (λ statement. is_refragment statement ≡ false) }
    ensures none { IfNone result ((statement : StatementValue) → is_refragment statement ≡ false → command ≢ Run statement) }
{
    match command {
        Command::Run(Statement::Refragment(_)) => None,
        Command::Run(statement) => Some(statement),
        Command::Begin => None,
        Command::Commit => None,
        Command::Rollback => None,
    }
}

/// Why a text is no statement. That memory ran out is no refusal.
fn refusal<'a>(fault: ReadFault) -> PlanFault<'a>
    ensures { result ≡ fault_of_reading fault }
{
    match fault.rule() {
        Rule::Memory => PlanFault::Program(ProgramFault::Memory),
        _ => PlanFault::Statement(fault),
    }
}

/// What is shown of a statement's plan, its fetches or its tree, if there is memory for it.
fn shown_plan<'a>(
    alloc: Global,
    tree: bool,
    catalog: &Catalog,
    statement: &Statement,
) -> Result<String, PlanFault<'a>>
    requires { IsStatementOf (schemas_of (catalogue_of catalog.now)) statement.now }
    ensures text { IfOk result (λ text. IsShownPlan tree (catalogue_of catalog.now) statement.now (string_bytes text)) }
    ensures faults { IfErr result (λ fault. fault ≡ PlanFault.Program ProgramFault.Memory) }
{
    if tree {
        Ok(tree_text(alloc, catalog, statement)?)
    } else {
        Ok(planned(alloc, catalog, statement)?)
    }
}

/// What is shown of a statement's plan.
fn planned(alloc: Global, catalog: &Catalog, statement: &Statement) -> Result<String, Memory>
    requires { IsStatementOf (schemas_of (catalogue_of catalog.now)) statement.now }
    ensures { IfOk result (λ text. IsPlanText (catalogue_of catalog.now) statement.now (string_bytes text)) }
{
    let fetches = statement_fetches(alloc, catalog, statement)?;
    let mut text = String::new(alloc);
    for fetch in fetches.as_slice() {
        put_fetch(&mut text, catalog, fetch)?;
    }
    put_count(&mut text, fetches.len())?;
    Ok(text)
}

/// A fetch's line: its leaf, the leaf's site, and the conditions that it carries, if there are any.
pub fn put_fetch(out: &mut String, catalog: &Catalog, fetch: &Fetch) -> Result<(), Memory>
    ensures { OnOk result (string_bytes out.new ≡ string_bytes out.old ++ fetch_line (catalogue_of catalog.now) fetch.now) }
{
    let columns = columns_of(catalog.schema(), &fetch.leaf.relation);
    let columns = listed(*out.allocator(), fetch.columns.as_slice(), columns)?;
    write!(out, "{} ", fetch.leaf)?;
    put_site_of(out, catalog, &fetch.leaf)?;
    put_where(out, columns.as_slice(), &fetch.conds)?;
    out.push('\n')?;
    Ok(())
}

/// The name of a leaf's site, nothing where the leaf is not there.
fn put_site_of(out: &mut String, catalog: &Catalog, leaf: &Leaf) -> Result<(), Memory>
    ensures { OnOk result (string_bytes out.new ≡ string_bytes out.old
        ++ site_text (catalogue_of catalog.now).sites (leaf_named leaf.now (catalogue_leaves (catalogue_of catalog.now)))) }
{
    match catalog.leaf(leaf) {
        Some(leaf) => put_site(out, catalog.sites(), leaf.site),
        None => Ok(()),
    }
}

/// How many fetches there are, in a line.
pub fn put_count(out: &mut String, count: usize) -> Result<(), Memory>
    ensures { OnOk result (string_bytes out.new ≡ string_bytes out.old ++ count_line count) }
{
    match count {
        1 => writeln!(out, "1 fetch")?,
        _ => writeln!(out, "{count} fetches")?,
    }
    Ok(())
}

fn write_plan<'a, W: Write>(output: &mut W, text: &str) -> Result<(), PlanFault<'a>>
    ensures written { OnOk result (Appends (W.contents output.old) (W.contents output.new) text.now) }
    ensures faults { IfErr result IsPlanWriteFault }
{
    write_text(output, text)?;
    Ok(())
}
