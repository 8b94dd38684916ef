//! The whole relations that a script of schedules loads.

ghost use Rattle.std.specs.Prelude.{◌≡◌, ◌≢◌, ℕ, true, false, Some, None, Err, IfNone, IfOk, IfSome, OnOk};
ghost use Rattle.meaning.specs.declared.statement.Insert.{Insert as InsertValue};
ghost use Rattle.meaning.specs.declared.statement.Statement.TheVariants as inserts;
ghost use Rattle.reader.specs.declared.command.Command.TheVariants.{Run};
ghost use Rattle.reader.specs.Command.{IsTextOf};
ghost use Rattle.lines.specs.PlayLoad as spec;
ghost use Rattle.std.specs.FinMap as finite;
ghost use Rattle.lines.specs.PlayLoad.{FailsItem, IsLoaded, IsMalformedAt, Loads, LoadsAll, LoadsItem, LoadsNothing, StopsAt, emptied};

use crate::play_items::{Placed, Script};
use crate::play_script::Item;
use crate::script::ScriptFault;
use meaning::answer::Answer;
use meaning::relation::Relation;
use meaning::run::run;
use meaning::schema::{RelationSchema, Schema};
use meaning::statement::{Insert, Statement};
use meaning::whole::Whole;
use reader::command::Command;
use reader::fault::Rule;
use reader::read::{one_command, read};
use std::alloc::Global;
use terms::copy::TryCopy;
use terms::memory::Memory;

/// The relations of the schema with the rows that the script loads, if no line of it is malformed.
pub fn loaded(alloc: Global, schema: &Schema, script: &Script) -> Result<Whole, ScriptFault>
    ensures loaded { IfOk result (λ whole. IsLoaded schema.now.relations (script.now.items.items, script.now.malformed) whole) }
    ensures malformed { (line : ℕ) → result ≡ Err (ScriptFault.Malformed line) → IsMalformedAt schema.now.relations (script.now.items.items, script.now.malformed) line }
{
    let mut whole = empty_relations(alloc, schema)?;
    match load_all(alloc, schema, script.items.as_slice(), &mut whole)? {
        Some(line) => Err(ScriptFault::Malformed { line }),
        None => match script.malformed {
            Some(line) => Err(ScriptFault::Malformed { line }),
            None => Ok(whole),
        },
    }
}

/// The relations of the schema, with no row.
pub fn empty_relations(alloc: Global, schema: &Schema) -> Result<Whole, Memory>
    ensures { IfOk result (λ whole. whole ≡ emptied schema.now.relations finite.empty) }
{
    let mut whole = Whole::new(alloc);
    put_relations(alloc, schema.relations.as_slice(), &mut whole)?;
    Ok(whole)
}

fn put_relations(
    alloc: Global,
    relations: &[RelationSchema],
    whole: &mut Whole,
) -> Result<(), Memory>
    ensures { OnOk result (whole.new ≡ emptied relations.now whole.old) }
{
    for relation in relations {
        whole.put(relation.name.copy()?, Relation::new(alloc))?;
    }
    Ok(())
}

/// Loads what items load, in order. Answers the line of the first that fails, if one does.
fn load_all(
    alloc: Global,
    schema: &Schema,
    items: &[Placed],
    whole: &mut Whole,
) -> Result<Option<usize>, Memory>
    ensures all { IfOk result (λ bad. bad ≡ None → LoadsAll schema.now.relations items.now whole.old whole.new) }
    ensures stops { IfOk result (λ bad. (line : ℕ) → bad ≡ Some line → StopsAt schema.now.relations items.now whole.old line) }
{
    for placed in items {
        if !load_item(alloc, schema, &placed.item, whole)? {
            return Ok(Some(placed.line));
        }
    }
    Ok(None)
}

/// Loads what an item loads. Answers whether it may; else nothing has changed.
fn load_item(alloc: Global, schema: &Schema, item: &Item, whole: &mut Whole) -> Result<bool, Memory>
    ensures loaded { IfOk result (λ loaded. loaded ≡ true → LoadsItem schema.now.relations item.now whole.old whole.new) }
    ensures fails { IfOk result (λ loaded. loaded ≡ false → FailsItem schema.now.relations item.now whole.old) }
{
    match item {
        Item::Load(text) => load(alloc, schema, text.as_str(), whole),
        _ => Ok(true),
    }
}

/// Runs a text that is an INSERT of a new row. Answers whether it is one; else nothing has changed.
fn load(alloc: Global, schema: &Schema, text: &str, whole: &mut Whole) -> Result<bool, Memory>
    ensures loaded { IfOk result (λ loaded. loaded ≡ true → Loads schema.now.relations text.now whole.old whole.new) }
    ensures nothing { IfOk result (λ loaded. loaded ≡ false → LoadsNothing schema.now.relations text.now whole.old) }
    ensures same { IfOk result (λ loaded. loaded ≡ false → whole.new ≡ whole.old) }
{
    one_command();
    match read_insert(alloc, text, schema)? {
        Some(insert) => {
            let statement = Statement::Insert(insert);
            let answer = run(alloc, whole, &statement);
            drop(statement);
            Ok(is_changed(answer?))
        }
        None => Ok(false),
    }
}

/// The INSERT that a text is, if it is one.
fn read_insert(alloc: Global, text: &str, schema: &Schema) -> Result<Option<Insert>, Memory>
    ensures some { IfOk result (λ found. (insert : InsertValue) → found ≡ Some insert → IsTextOf schema.now.relations text.now (Run (inserts.Insert insert))) }
    ensures none { IfOk result (λ found. found ≡ None → (insert : InsertValue) → ¬ (IsTextOf schema.now.relations text.now (Run (inserts.Insert insert)))) }
{
    one_command();
    match read(alloc, text, schema) {
        Ok(command) => Ok(insert_of(command)),
        Err(fault) => match fault.rule() {
            Rule::Memory => Err(Memory),
            _ => Ok(None),
        },
    }
}

/// The INSERT that a command runs, if it runs one.
fn insert_of(command: Command) -> Option<Insert>
    ensures some { IfSome result (λ insert. command ≡ Run (inserts.Insert insert)) }
    ensures none { IfNone result ((insert : InsertValue) → command ≢ Run (inserts.Insert insert)) }
{
    match command {
        Command::Run(Statement::Insert(insert)) => Some(insert),
        other => {
            drop(other);
            None
        }
    }
}

fn is_changed(answer: Answer) -> bool
    ensures { result ≡ spec.is_changed answer }
{
    matches!(answer, Answer::Changed(_))
}
