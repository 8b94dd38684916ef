//! UPDATE, over whole relations.

ghost use Rattle.std.specs.Prelude.{◌≡◌, IfOk, OnOk, OnErr};
ghost use Rattle.std.specs.Option.{option_map, option_copied};
ghost use Rattle.meaning.specs.Meaning.{after_update};
ghost use Rattle.meaning.specs.Updated.{sum_of, right_side, put_value, assign, updated_row, updated};

use crate::answer::Answer;
use crate::matched::matched;
use crate::relation::Relation;
use crate::statement::{Assigned, Assignment, Update};
use crate::whole::Whole;
use std::alloc::Global;
use terms::copy::{TryCopy, copy_all};
use terms::memory::Memory;
use terms::row::Row;
use terms::value::Value;

/// Runs an UPDATE. All changed rows are made first, and then put in at once.
pub fn run_update(alloc: Global, whole: &mut Whole, update: &Update) -> Result<Answer, Memory>
    ensures answer { IfOk result (λ answer. answer ≡ (after_update update.now whole.old).0) }
    ensures whole { OnOk result (whole.new ≡ (after_update update.now whole.old).1) }
    ensures err { OnErr result (whole.new ≡ whole.old) }
{
    let rows = whole.rows(&update.relation.name);
    match updated(alloc, update, rows)? {
        Some(changed) => {
            let count = matched(&update.conds, rows);
            whole.replace(&update.relation.name, Relation::of_rows(changed));
            Ok(Answer::Changed(count))
        }
        None => Ok(Answer::Overflow),
    }
}

/// The rows after an UPDATE, or none where a sum of a matched row leaves 64 bits.
fn updated(alloc: Global, update: &Update, rows: &[Row]) -> Result<Option<Vec<Row>>, Memory>
    ensures { IfOk result (λ found. option_map (λ changed. changed.items) found ≡ updated update.now rows.now) }
{
    let mut changed = Vec::new(alloc);
    for row in rows {
        match updated_row(alloc, update, row)? {
            Some(row) => changed.push(row)?,
            None => return Ok(None),
        }
    }
    Ok(Some(changed))
}

fn updated_row(alloc: Global, update: &Update, row: &Row) -> Result<Option<Row>, Memory>
    ensures { IfOk result (λ found. found ≡ updated_row update.now row.now) }
{
    if update.conds.hold(row) {
        assign(alloc, update.sets.as_slice(), row)
    } else {
        Ok(Some(row.copy()?))
    }
}

/// A row with all assignments made, each right side taken from the row before; none where a sum leaves
/// 64 bits.
pub fn assign(alloc: Global, sets: &[Assignment], row: &Row) -> Result<Option<Row>, Memory>
    ensures { IfOk result (λ found. found ≡ assign row.now sets.now row.now) }
{
    let mut values = copy_all(alloc, row.values())?;
    for set in sets {
        match right_side(row.values(), &set.value)? {
            Some(value) => put_value(&mut values, set.col, value),
            None => return Ok(None),
        }
    }
    Ok(Some(Row::new(values)?))
}

/// What an assignment sets its column to, by the values before the change.
fn right_side(before: &[Value], value: &Assigned) -> Result<Option<Value>, Memory>
    ensures { IfOk result (λ found. found ≡ right_side before.now value.now) }
{
    match value {
        Assigned::Constant(value) => Ok(Some(value.copy()?)),
        Assigned::Sum { col, number } => Ok(sum_of(before.get(*col), *number)),
    }
}

/// A value plus a number, unless the sum leaves 64 bits or the value is no integer.
#[tactic(auto, unfolding(crate::specs::Updated::sum_of))]
fn sum_of(value: Option<&Value>, number: i64) -> Option<Value>
    ensures { result ≡ sum_of (option_copied value.entry) number }
{
    match value {
        Some(Value::Int(n)) => match n.checked_add(number) {
            Some(sum) => Some(Value::Int(sum)),
            None => None,
        },
        _ => None,
    }
}

/// Puts a value in a column. The key stays as it is, and so do values that lack the column.
fn put_value(values: &mut Vec<Value>, col: usize, value: Value)
    ensures { values.new.items ≡ put_value values.old.items col value }
{
    if col != 0 && col < values.len() {
        values[col] = value;
    }
}
