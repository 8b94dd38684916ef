//! The leaves of a catalogue, each with how many rows it has.

ghost use Rattle.std.specs.Prelude.{◌≡◌, ◌++◌, IfErr, IfOk, OnOk, map, string_bytes};
ghost use Rattle.catalog.specs.Relation.{catalogue_of};
ghost use Rattle.commands.specs.Leaves as spec;
ghost use Rattle.commands.specs.Leaves.{counts_asked, names_of};
ghost use Rattle.commands.specs.Session.{Talks};
ghost use Rattle.databases.specs.Solo.{IsOfRun, Stretches};
ghost use Rattle.lines.specs.Script.{CountsLeaf, task_of};

use crate::session_word::Turn;
use catalog::catalogue::Catalog;
use catalog::fragment_leaf::FragmentLeaf;
use databases::database::Database;
use databases::solo::run_items;
use forms::mode::Mode;
use lines::fault::ProgramFault;
use lines::listing::is_asked;
use lines::script::Item;
use std::alloc::Global;
use std::io::Write;
use terms::memory::Memory;

/// Tells of the leaves of the relation of this name, or of each relation where none is named, with how many rows each has. Answers
/// whether one was refused; none is.
pub fn count_leaves<'a, B: Database, W: Write>(
    alloc: Global,
    database: &mut B,
    asked: &str,
    output: &mut W,
) -> Result<bool, ProgramFault<'a>>
    ensures clean { B.seen.is_clean database.new → B.seen.is_clean database.old }
    ensures ok { IfOk result (λ any_refused. Stretches B.seen Mode.Tabs (counts_asked asked.now (B.seen.catalogue database.old)) (W.contents output.old) (W.contents output.new) database.old database.new any_refused) }
    ensures err { IfErr result IsOfRun }
{
    let names = leaf_names(alloc, database.catalog(), asked)?;
    let items = counts_of(alloc, names.as_slice())?;
    run_items(alloc, Mode::Tabs, database, items.as_slice(), output)
}

/// The names of the leaves that are asked for, in the catalogue's order.
pub fn leaf_names(alloc: Global, catalog: &Catalog, asked: &str) -> Result<Vec<String>, Memory>
    ensures { IfOk result (λ names. map (λ name. string_bytes name) names.items ≡ spec.leaf_names asked.now (catalogue_of catalog.now)) }
{
    let mut names = Vec::new(alloc);
    for leaf in catalog.leaves() {
        push_asked(&mut names, asked, leaf)?;
    }
    Ok(names)
}

/// A leaf's name, where its relation is asked for.
fn push_asked(names: &mut Vec<String>, asked: &str, leaf: &FragmentLeaf) -> Result<(), Memory>
    ensures { OnOk result (map (λ name. string_bytes name) names.new.items ≡ map (λ name. string_bytes name) names.old.items ++ names_of asked.now leaf.now) }
{
    if is_asked(asked, leaf.name.relation.as_str()) {
        let name = format!(in *names.allocator(); "{}", leaf.name)?;
        names.push(name)?;
    }
    Ok(())
}

/// An item for each of these leaves.
fn counts_of(alloc: Global, names: &[String]) -> Result<Vec<Item<'_>>, Memory>
    ensures { IfOk result (λ items. map task_of items.items ≡ map CountsLeaf (map (λ name. string_bytes name) names.entry.now)) }
{
    let mut items = Vec::new(alloc);
    for name in names {
        items.push(Item::Count(name.as_str()))?;
    }
    Ok(items)
}

/// Tells of leaves, as a stretch of a session.
pub fn take_leaves<'a, B: Database, W: Write>(
    alloc: Global,
    database: &mut B,
    asked: &str,
    output: &mut W,
) -> Result<Turn, ProgramFault<'a>>
    ensures ok { OnOk result (Talks B.seen (W.contents output.old) (W.contents output.new) database.old database.new) }
    ensures err { IfErr result IsOfRun }
{
    count_leaves(alloc, database, asked, output)?;
    Ok(Turn::Answered)
}
