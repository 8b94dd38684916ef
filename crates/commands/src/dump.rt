//! Relations as statements that make their rows anew.

ghost use Rattle.std.specs.Prelude.{◌≡◌, ℕ, Bool, IfErr, IfOk, IfSome, List, OnOk, map, option_map};
ghost use Rattle.std.specs.Io.KnownBytes.{Appends};
ghost use Rattle.catalog.specs.Relation.{catalogue_of};
ghost use Rattle.commands.specs.Dump.{DumpsFile, HasDumped, dumps_of};
ghost use Rattle.commands.specs.Dump as spec;
ghost use Rattle.lines.specs.Script.{DumpsRelation, task_of};
ghost use Rattle.commands.specs.Session.{Talks};
ghost use Rattle.databases.specs.Solo.{IsOfRun, IsRun, Stretches};

use crate::play::send_out;
use crate::session_word::Turn;
use catalog::catalogue::Catalog;
use databases::database::Database;
use databases::opener::{Opens, open_alone};
use databases::solo::run_items;
use forms::mode::Mode;
use lines::catalog_file::{CatalogFault, read_catalog};
use lines::fault::ProgramFault;
use lines::script::Item;
use meaning::schema::Schema;
use std::alloc::Global;
use std::io::{Read, Write};
use terms::memory::Memory;
use terms::text::Text;
use world::laws::moves_follow;

/// Writes the relation of this name as statements, or each where none is named, of the database of the catalogue that `catalog`
/// gives, which `catalog_file` names in a fault. In another mode than tabs the rows of the relation that is named are shown.
/// Answers whether there is no relation of this name; then that is written.
pub fn dump_files<'a, B: Database + Drop, O: Opens<B>, C: Read + Drop, W: Write>(
    alloc: Global,
    opener: &O,
    catalog_file: &'a str,
    catalog: C,
    relation: Option<&str>,
    mode: Mode,
    output: &mut W,
) -> Result<bool, CatalogFault<'a>>
    ensures { IfSome (C.remaining catalog) (λ bytes. DumpsFile B.seen O.origin mode (option_map (λ name. name.now) relation.entry) catalog_file.entry bytes (W.contents output.old) (W.contents output.new) result) }
{
    match read_catalog(alloc, catalog_file, catalog) {
        Ok(catalog) => match dump_over(alloc, opener, &catalog, relation, mode, output) {
            Ok(is_missing) => Ok(is_missing),
            Err(fault) => Err(CatalogFault::Program(fault)),
        },
        Err(fault) => Err(fault),
    }
}

/// Writes what is asked for of the database of this catalogue. It writes often, and flushes once: give it an output with a buffer.
fn dump_over<'a, B: Database + Drop, O: Opens<B>, W: Write>(
    alloc: Global,
    opener: &O,
    catalog: &Catalog,
    relation: Option<&str>,
    mode: Mode,
    output: &mut W,
) -> Result<bool, ProgramFault<'a>>
    ensures ok { IfOk result (HasDumped B.seen O.origin mode (option_map (λ name. name.now) relation.entry) (catalogue_of catalog.now) (W.contents output.old) (W.contents output.new)) }
    ensures err { IfErr result IsOfRun }
{
    let names = names_of(alloc, catalog.schema())?;
    let items = items_asked(alloc, mode, relation, names.as_slice())?;
    let outcome = answer_items(alloc, opener, catalog, mode, items.as_slice(), output);
    // What was written before a fault goes out too.
    let sent = send_out(output);
    outcome?;
    sent?;
    Ok(is_missing(relation, catalog.schema()))
}

/// Answers these items over a new database of this catalogue.
fn answer_items<'a, B: Database + Drop, O: Opens<B>, W: Write>(
    alloc: Global,
    opener: &O,
    catalog: &Catalog,
    mode: Mode,
    items: &[Item<'_>],
    output: &mut W,
) -> Result<(), ProgramFault<'a>>
    ensures ok { OnOk result ((written : List ℕ) × (any_refused : Bool) × Appends (W.contents output.old) (W.contents output.new) written × IsRun B.seen O.origin mode (catalogue_of catalog.now) (map task_of items.now) written any_refused) }
    ensures err { IfErr result IsOfRun }
{
    moves_follow(catalog);
    let mut database = open_alone(alloc, opener, catalog)?;
    run_items(alloc, mode, &mut database, items, output)?;
    Ok(())
}

/// Whether there is no relation of the name that is asked for.
fn is_missing(relation: Option<&str>, schema: &Schema) -> bool
    ensures { result ≡ spec.is_missing (option_map (λ name. name.now) relation.entry) schema.now.relations }
{
    match relation {
        Some(name) => schema.relation(name.as_bytes()).is_none(),
        None => false,
    }
}

/// An item for the relation that is asked for, or for each of these where none is.
fn items_asked<'n>(
    alloc: Global,
    mode: Mode,
    relation: Option<&'n str>,
    names: &'n [Text],
) -> Result<Vec<Item<'n>>, Memory>
    ensures { IfOk result (λ items. map task_of items.items ≡ spec.tasks_asked mode (option_map (λ name. name.now) relation.entry) names.entry.now) }
{
    match relation {
        Some(name) => {
            let mut items = Vec::new(alloc);
            items.push(item_in(mode, name))?;
            Ok(items)
        }
        None => items_of(alloc, names),
    }
}

/// A relation as statements, unless its rows are to be shown in a way.
fn item_in(mode: Mode, name: &str) -> Item<'_>
    ensures { task_of result ≡ spec.task_in mode name.entry.now }
{
    match mode {
        Mode::Tabs => Item::Dump(name),
        Mode::Columns | Mode::Csv | Mode::Json => Item::Show(name),
    }
}

/// Writes each relation as statements, in the catalogue's order, and answers whether one was refused; none is.
pub fn dump_all<'a, B: Database, W: Write>(
    alloc: Global,
    mode: Mode,
    database: &mut B,
    output: &mut W,
) -> Result<bool, ProgramFault<'a>>
    ensures clean { B.seen.is_clean database.new → B.seen.is_clean database.old }
    ensures ok { IfOk result (λ any_refused. Stretches B.seen mode (dumps_of (B.seen.catalogue database.old)) (W.contents output.old) (W.contents output.new) database.old database.new any_refused) }
    ensures err { IfErr result IsOfRun }
{
    let names = names_of(alloc, database.catalog().schema())?;
    let items = items_of(alloc, names.as_slice())?;
    run_items(alloc, mode, database, items.as_slice(), output)
}

/// The names of the relations.
fn names_of(alloc: Global, schema: &Schema) -> Result<Vec<Text>, Memory>
    ensures { IfOk result (λ names. names.items ≡ map (λ relation. relation.name) schema.now.relations) }
{
    let mut names = Vec::new(alloc);
    for relation in schema.relations.as_slice() {
        names.push(Text::copy_of(alloc, relation.name.as_str())?)?;
    }
    Ok(names)
}

/// An item for each of these relations.
fn items_of(alloc: Global, names: &[Text]) -> Result<Vec<Item<'_>>, Memory>
    ensures { IfOk result (λ items. map task_of items.items ≡ map DumpsRelation names.entry.now) }
{
    let mut items = Vec::new(alloc);
    for name in names {
        items.push(Item::Dump(name.as_str()))?;
    }
    Ok(items)
}

/// Writes each relation as statements, as a stretch of a session.
pub fn take_dump<'a, B: Database, W: Write>(
    alloc: Global,
    mode: Mode,
    database: &mut B,
    output: &mut W,
) -> Result<Turn, ProgramFault<'a>>
    ensures ok { OnOk result (Talks B.seen (W.contents output.old) (W.contents output.new) database.old database.new) }
    ensures err { IfErr result IsOfRun }
{
    dump_all(alloc, mode, database, output)?;
    Ok(Turn::Answered)
}
