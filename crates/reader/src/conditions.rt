//! Conditions and lists of columns, over a scope.

ghost use Rattle.std.specs.Prelude.{◌≡◌, ◌≢◌, IfErr, Some, None, length, map, nat_le, if◌then◌else◌};
ghost use Rattle.std.specs.List.{range_with_len};
ghost use Rattle.reader.specs.declared.fault.Rule.TheVariants as rules;
ghost use Rattle.reader.specs.Breaks.{Refuses, ListedBreaks, ComparedBreaks, ConditionsBreak};
ghost use Rattle.reader.specs.Names.{all_of, place_in, places_of, cond_on, conds_of};
ghost use Rattle.reader.specs.Resolving.{Resolves};
ghost use Rattle.reader.specs.Tree.{columns as these_columns, column_tree, condition_tree, listed_tree};

use crate::constants::compared;
use crate::fault::{ReadFault, Rule};
use crate::scope::{Found, Scope, find, width};
use crate::tree::{Column, Condition, Listed};
use std::alloc::Global;
use terms::cond::Cond;

/// The most columns that a SELECT lists.
pub const LIST_LIMIT: usize = 32;

/// The most conditions that a statement has.
pub const COND_LIMIT: usize = 8;

/// The places of the listed columns.
pub fn places(
    alloc: Global,
    scope: &Scope<'_>,
    listed: &Listed<'_>,
) -> Result<Vec<usize>, ReadFault>
    ensures exact { Resolves (λ places. places.items) result (places_of scope.now (listed_tree listed.now)) }
    ensures rule { Refuses result (λ rule. ListedBreaks rule scope.now (listed_tree listed.now)) }
{
    match listed {
        Listed::All { offset } => {
            let count = width(scope);
            if count > LIST_LIMIT {
                return Err(ReadFault::new(Rule::Limit, *offset));
            }
            every_place(alloc, count)
        }
        Listed::Columns(columns) => listed_places(alloc, scope, columns.as_slice()),
    }
}

fn every_place(alloc: Global, count: usize) -> Result<Vec<usize>, ReadFault>
    ensures exact { Resolves (λ places. places.items) result (Some (range_with_len 0 count)) }
    ensures rule { Refuses result (λ rule. ⊥) }
{
    let mut places = Vec::new(alloc);
    for place in 0..count {
        places.push(place)?;
    }
    Ok(places)
}

fn listed_places(
    alloc: Global,
    scope: &Scope<'_>,
    columns: &[Column<'_>],
) -> Result<Vec<usize>, ReadFault>
    ensures exact { Resolves (λ places. places.items) result (if nat_le (length columns.now) 32 then all_of (place_in scope.now) (map column_tree columns.now) else None) }
    ensures rule { Refuses result (λ rule. ListedBreaks rule scope.now (these_columns (map column_tree columns.now))) }
{
    let mut places = Vec::new(alloc);
    for column in columns {
        let found = find(scope, column)?;
        if places.len() == LIST_LIMIT {
            return Err(ReadFault::new(Rule::Limit, column.offset));
        }
        places.push(found.place)?;
    }
    Ok(places)
}

/// The conditions, each on its column.
pub fn conds(
    alloc: Global,
    scope: &Scope<'_>,
    conditions: &[Condition<'_>],
) -> Result<Vec<Cond>, ReadFault>
    ensures exact { Resolves (λ conds. conds.items) result (conds_of scope.now (map condition_tree conditions.now)) }
    ensures rule { Refuses result (λ rule. ConditionsBreak rule scope.now (map condition_tree conditions.now)) }
{
    let mut conds = Vec::new(alloc);
    for condition in conditions {
        let found = find(scope, &condition.column)?;
        if conds.len() == COND_LIMIT {
            return Err(ReadFault::new(Rule::Limit, condition.column.offset));
        }
        conds.push(cond(alloc, found, condition)?)?;
    }
    Ok(conds)
}

/// A condition on a column that was found.
fn cond(alloc: Global, found: Found, condition: &Condition<'_>) -> Result<Cond, ReadFault>
    ensures exact { Resolves (λ c. c) result (cond_on found (condition_tree condition.now)) }
    ensures rule { Refuses result (λ rule. ComparedBreaks rule found.kind (condition_tree condition.now).constant) }
{
    let value = compared(alloc, found.kind, &condition.constant)?;
    Ok(Cond {
        col: found.place,
        cmp: condition.comparison,
        value,
    })
}
