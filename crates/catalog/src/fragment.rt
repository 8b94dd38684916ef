//! Parts of rows.

ghost use Rattle.std.specs.Prelude.{◌≡◌, IfOk};
ghost use Rattle.catalog.specs.Fragment.{part};

use meaning::listed::listed;
use std::alloc::Global;
use terms::cond::{Cond, all_hold};
use terms::memory::Memory;
use terms::row::Row;

/// The row's part in the content of a leaf with these conditions and columns: the values in the
/// columns, or none where the conditions don't hold.
pub fn place(
    alloc: Global,
    conds: &[Cond],
    columns: &[usize],
    row: &Row,
) -> Result<Option<Row>, Memory>
    ensures { IfOk result (λ placed. placed ≡ part (record { conds = conds.now; columns = columns.now }) row.now) }
{
    if !all_hold(conds, row.values()) {
        return Ok(None);
    }
    let values = listed(alloc, columns, row.values())?;
    Ok(Some(Row::new(values)?))
}
