//! Whether the groups of a column split share out its columns.

ghost use Rattle.std.specs.Prelude.{◌≡◌, ◌≢◌, ◌++◌, not, true, List, [], IfOk, OnOk, IfSome, IfNone, find};
ghost use Rattle.std.specs.List.{AllByRecursion};
ghost use Rattle.std.specs.Option.{option_copied};
ghost use Rattle.catalog.specs.Counts.{has};
ghost use Rattle.catalog.specs.Parts.{named, AreApart, IsFirstAgain, IsPartAnswer};

use std::alloc::Global;
use terms::memory::Memory;
use terms::seq::Seq;

/// A fault of a column split, with the place of its column.
#[derive(Clone, Copy, Debug, PartialEq, Eq)]
pub enum PartFault {
    /// The first column that is named again, in the order of the groups.
    Twice(usize),
    /// The first column that no group names, in the order of the columns.
    Lost(usize),
}

/// The first fault of groups of these columns, which leave out the key. There is none exactly where
/// each column is named once.
pub fn part_fault(
    alloc: Global,
    columns: &[usize],
    groups: &[Seq<usize>],
) -> Result<Option<PartFault>, Memory>
    requires some { groups.now ≢ [] }
    requires among { AllByRecursion (λ col. has columns.now col ≡ true) (named groups.now) }
    ensures { IfOk result (λ found. IsPartAnswer columns.now groups.now found) }
{
    let named = named(alloc, groups)?;
    match first_again(named.as_slice()) {
        Some(col) => Ok(Some(PartFault::Twice(col))),
        None => match first_absent(named.as_slice(), columns) {
            Some(col) => Ok(Some(PartFault::Lost(*col))),
            None => Ok(None),
        },
    }
}

/// The columns that groups name, in order.
fn named(alloc: Global, groups: &[Seq<usize>]) -> Result<Vec<usize>, Memory>
    ensures { IfOk result (λ columns. columns.items ≡ named groups.now) }
{
    let mut columns = Vec::new(alloc);
    for group in groups {
        columns.extend_from_slice(group.as_slice())?;
    }
    Ok(columns)
}

/// The first column that stands among those before it, if there is one.
pub fn first_again(columns: &[usize]) -> Option<usize>
    ensures some { IfSome result (λ col. IsFirstAgain columns.now col) }
    ensures none { IfNone result (AreApart columns.now) }
{
    for place in 0..columns.len() {
        if columns[..place].contains(&columns[place]) {
            return Some(columns[place]);
        }
    }
    None
}

/// The first of the columns that isn't among the others, if there is one.
fn first_absent<'a>(others: &[usize], columns: &'a [usize]) -> Option<&'a usize>
    ensures { option_copied result ≡ find (λ col. not (has others.now col)) columns.now }
{
    columns.iter().find(|col| !others.contains(col))
}
