//! What an update sets, and to what.

ghost use Rattle.std.specs.Prelude.{◌≡◌, ◌≢◌, map, IfErr};
ghost use Rattle.reader.specs.declared.fault.Rule.TheVariants as rules;
ghost use Rattle.reader.specs.Breaks.{Refuses, NameBreaks, SettableBreaks, AddendBreaks, AssignedBreaks, AssignmentsBreak};
ghost use Rattle.reader.specs.Names.{settable, addend, assigned_of, is_set, sets_of};
ghost use Rattle.reader.specs.Resolving.{Resolves};
ghost use Rattle.reader.specs.Scope.{column_named};
ghost use Rattle.reader.specs.Tree.{assignment_tree, assigned_tree};

use crate::constants::{number, value};
use crate::fault::{ReadFault, Rule};
use crate::scope::{Found, find_named};
use crate::tree::{Assigned, Assignment, Named};
use meaning::schema::Column;
use meaning::statement;
use std::alloc::Global;
use terms::value::Kind;

/// The assignments of an update.
pub fn assignments(
    alloc: Global,
    columns: &[Column],
    written: &[Assignment<'_>],
) -> Result<Vec<statement::Assignment>, ReadFault>
    ensures exact { Resolves (λ sets. sets.items) result (sets_of columns.now (map assignment_tree written.now)) }
    ensures rule { Refuses result (λ rule. AssignmentsBreak rule columns.now (map assignment_tree written.now)) }
{
    let mut sets = Vec::new(alloc);
    for assignment in written {
        let found = settable_column(columns, &assignment.column)?;
        if sets_column(sets.as_slice(), found.place) {
            return Err(ReadFault::new(Rule::Limit, assignment.column.offset));
        }
        let value = assigned(alloc, columns, found.kind, &assignment.value)?;
        sets.push(statement::Assignment {
            col: found.place,
            value,
        })?;
    }
    Ok(sets)
}

fn named(columns: &[Column], named: &Named<'_>) -> Result<Found, ReadFault>
    ensures exact { Resolves (λ found. found) result (column_named columns.now named.now.name.now) }
    ensures rule { IfErr result (λ fault. NameBreaks fault.rule columns.now named.now.name.now) }
{
    match find_named(columns, named.name) {
        Some(found) => Ok(found),
        None => Err(ReadFault::new(Rule::NoColumn, named.offset)),
    }
}

/// A column that an update may set.
fn settable_column(columns: &[Column], column: &Named<'_>) -> Result<Found, ReadFault>
    ensures exact { Resolves (λ found. found) result (settable columns.now column.now.name.now) }
    ensures rule { IfErr result (λ fault. SettableBreaks fault.rule columns.now column.now.name.now) }
{
    let found = named(columns, column)?;
    if found.place == 0 {
        return Err(ReadFault::new(Rule::KeyColumn, column.offset));
    }
    Ok(found)
}

fn sets_column(sets: &[statement::Assignment], column: usize) -> bool
    ensures { result ≡ is_set column sets.now }
{
    sets.iter().any(|set| set.col == column)
}

/// What a column of this type is set to.
fn assigned(
    alloc: Global,
    columns: &[Column],
    kind: Kind,
    written: &Assigned<'_>,
) -> Result<statement::Assigned, ReadFault>
    ensures exact { Resolves (λ a. a) result (assigned_of columns.now kind (assigned_tree written.now)) }
    ensures rule { Refuses result (λ rule. AssignedBreaks rule columns.now kind (assigned_tree written.now)) }
{
    match written {
        Assigned::Constant(constant) => Ok(statement::Assigned::Constant(value(
            alloc, kind, constant,
        )?)),
        Assigned::Sum {
            column,
            is_negative,
            magnitude,
            digits,
        } => {
            let found = added_to(columns, kind, column)?;
            let number = number(*is_negative, *magnitude, *digits)?;
            Ok(statement::Assigned::Sum {
                col: found.place,
                number,
            })
        }
    }
}

/// The column to which a sum adds, for a column of this type.
fn added_to(columns: &[Column], kind: Kind, column: &Named<'_>) -> Result<Found, ReadFault>
    ensures exact { Resolves (λ found. found) result (addend columns.now kind column.now.name.now) }
    ensures rule { IfErr result (λ fault. AddendBreaks fault.rule columns.now kind column.now.name.now) }
{
    let found = named(columns, column)?;
    if kind != Kind::Int || found.kind != Kind::Int {
        return Err(ReadFault::new(Rule::WrongType, column.offset));
    }
    Ok(found)
}
