//! Plans as lists of their nodes. A list holds no plan in a plan, so that it may be handed from thread to thread.

use crate::fetch::Fetch;
use catalog::column_list::ColumnList;
use terms::cond::Conds;

/// A node of a plan. The plans that it is made of stand before it.
#[derive(Debug, Drop)]
pub enum Node {
    /// No row.
    Empty,
    /// The parts of a leaf that meet the conditions.
    Fetch(Fetch),
    /// The rows of one plan that meet the conditions.
    Filter(Conds),
    /// The rows of one plan cut to these columns, beside the key.
    Project(ColumnList),
    /// The rows of two plans.
    Union,
    /// Rows of two plans that have one key, put together.
    KeyJoin,
    /// Each row of the first of two plans with that row of the second whose key is the value in the column.
    Lookup { col: usize, width: usize },
}
