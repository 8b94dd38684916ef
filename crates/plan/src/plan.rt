//! Plans of statements over fragments.

ghost use Rattle.std.specs.Prelude.{◌≡◌, IfOk};

use crate::fetch::Fetch;
use terms::cond::Conds;
use terms::seq::Seq;

/// How the rows of a statement are put together from the leaves' parts.
#[derive(Debug, Drop)]
pub enum Plan {
    /// No row.
    Empty,
    /// The parts of a leaf that meet the conditions.
    Fetch(Fetch),
    /// The rows that meet the conditions.
    Filter(Conds, Box<Plan>),
    /// The rows cut to these columns, beside the key.
    Project(Seq<usize>, Box<Plan>),
    /// The rows of both.
    Union(Box<Plan>, Box<Plan>),
    /// Rows of both that have one key, put together.
    KeyJoin(Box<Plan>, Box<Plan>),
    /// Each row of the left side with that row of the right whose key is the value in the column; the
    /// columns of the right side are counted on from the width.
    Lookup {
        col: usize,
        width: usize,
        left: Box<Plan>,
        right: Box<Plan>,
    },
}
