//! Rows by whether they meet conditions.

ghost use Rattle.std.specs.Prelude.{◌≡◌, IfOk};
ghost use Rattle.meaning.specs.Matched.{matched, unmatched};

use std::alloc::Global;
use terms::cond::Conds;
use terms::copy::TryCopy;
use terms::memory::Memory;
use terms::row::Row;

/// How many rows meet all conditions.
pub fn matched(conds: &Conds, rows: &[Row]) -> u64
    ensures { result ≡ matched conds.now rows.now }
{
    rows.iter().filter(|row| conds.hold(row)).count() as u64
}

/// The rows that don't meet all conditions.
pub fn unmatched(alloc: Global, conds: &Conds, rows: &[Row]) -> Result<Vec<Row>, Memory>
    ensures { IfOk result (λ left. left.items ≡ unmatched conds.now rows.now) }
{
    let mut left = Vec::new(alloc);
    for row in rows {
        if !conds.hold(row) {
            left.push(row.copy()?)?;
        }
    }
    Ok(left)
}
