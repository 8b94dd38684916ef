//! Conditions on rows.

ghost use Rattle.std.specs.Prelude.{◌≡◌, List, IfOk};
ghost use Rattle.std.specs.Arc.{arc_slice_items};
ghost use Rattle.terms.specs.Cond.{compares, cond_holds, conds_hold};

use crate::copy::TryCopy;
use crate::memory::Memory;
use crate::row::Row;
use crate::same::{Same, same_all};
use crate::value::Value;
use std::alloc::Global;
use std::marker::Model;
use std::sync::ArcSlice;

/// A comparison.
#[derive(Clone, Copy, Debug, PartialEq, Eq)]
pub enum Cmp {
    Eq,
    Ne,
    Lt,
    Le,
    Gt,
    Ge,
}

impl Cmp {
    /// Whether the comparison holds between two values. Between values of two types none does.
    pub fn compares(self, left: &Value, right: &Value) -> bool
        ensures { result ≡ compares self left.now right.now }
    {
        if left.kind() != right.kind() {
            return false;
        }
        let order = left.cmp(right);
        match self {
            Cmp::Eq => order.is_eq(),
            Cmp::Ne => order.is_ne(),
            Cmp::Lt => order.is_lt(),
            Cmp::Le => order.is_le(),
            Cmp::Gt => order.is_gt(),
            Cmp::Ge => order.is_ge(),
        }
    }
}

/// A condition: a comparison of the value in a column with a constant.
#[derive(Debug, Drop)]
pub struct Cond {
    /// The column, counted from 0.
    pub col: usize,
    /// The comparison.
    pub cmp: Cmp,
    /// The constant.
    pub value: Value,
}

impl Cond {
    /// Whether the condition holds of a row's values. On a column that they lack it doesn't.
    pub fn holds(&self, values: &[Value]) -> bool
        ensures { result ≡ cond_holds self.now values.now }
    {
        match values.get(self.col) {
            Some(value) => self.cmp.compares(value, &self.value),
            None => false,
        }
    }
}

impl Same for Cmp {
    fn same(&self, other: &Cmp) -> bool {
        *self == *other
    }
}

impl Same for Cond {
    fn same(&self, other: &Cond) -> bool {
        self.col.same(&other.col) && self.cmp.same(&other.cmp) && self.value.same(&other.value)
    }
}

impl TryCopy for Cond {
    fn copy(&self) -> Result<Cond, Memory> {
        Ok(Cond {
            col: self.col,
            cmp: self.cmp,
            value: self.value.copy()?,
        })
    }
}

/// Conditions that are to hold together. Contracts see the list of them. Their copies share them, so that a copy takes no memory.
#[derive(Debug, Drop)]
pub struct Conds {
    alloc: Global,
    conds: ArcSlice<Cond>,
}

impl Model for Conds {
    ghost use Rattle.std.specs.Prelude.{List};
    ghost use Rattle.std.specs.Arc.{arc_slice_items};
    ghost use Rattle.terms.specs.declared.cond.Cond.{Cond};

    ghost Value = { List Cond };

    ghost view = { λ c. arc_slice_items c.conds };
}

impl Conds {
    pub fn new(conds: Vec<Cond>) -> Result<Conds, Memory>
        ensures { IfOk result (λ made. made ≡ conds.items) }
    {
        let alloc = *conds.allocator();
        let conds = ArcSlice::from_vec(conds)?;
        Ok(Conds { alloc, conds })
    }

    pub fn as_slice(&self) -> &[Cond]
        ensures { result.now ≡ self.now }
    {
        self.conds.as_slice()
    }

    /// The allocator that these conditions stand on.
    pub(crate) fn allocator(&self) -> Global {
        self.alloc
    }

    /// Whether all conditions hold of a row.
    pub fn hold(&self, row: &Row) -> bool
        ensures { result ≡ conds_hold self.now row.now }
    {
        all_hold(self.as_slice(), row.values())
    }
}

/// Whether all conditions hold of these values.
#[inline(always)]
pub fn all_hold(conds: &[Cond], values: &[Value]) -> bool
    ensures { result ≡ conds_hold conds.now values.now }
{
    conds.iter().all(|cond| cond.holds(values))
}

impl TryCopy for Conds {
    fn copy(&self) -> Result<Conds, Memory> {
        let conds = self.conds.clone()?;
        Ok(Conds {
            alloc: self.alloc,
            conds,
        })
    }
}

impl Same for Conds {
    fn same(&self, other: &Conds) -> bool {
        same_all(self.as_slice(), other.as_slice())
    }
}
