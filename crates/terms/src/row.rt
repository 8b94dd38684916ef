//! Rows.

ghost use Rattle.std.specs.Prelude.{◌≡◌, List, IfOk};
ghost use Rattle.std.specs.Arc.{arc_slice_items};
ghost use Rattle.std.specs.Ordering.{int_cmp};
ghost use Rattle.terms.specs.Row.{key_of};

use crate::copy::TryCopy;
use crate::memory::Memory;
use crate::part::Part;
use crate::same::{Same, same_all};
use crate::value::Value;
use std::cmp::Ordering;
use std::marker::Model;
use std::sync::ArcSlice;

/// A row: a value for each column, the key first. Contracts see it as the list of its values. Its copies share them, so that a
/// copy takes no memory.
#[derive(Debug, Drop)]
pub struct Row {
    pub(crate) values: ArcSlice<Value>,
}

impl Model for Row {
    ghost use Rattle.std.specs.Prelude.{List};
    ghost use Rattle.std.specs.Arc.{arc_slice_items};
    ghost use Rattle.terms.specs.declared.value.Value.{Value as Cell};

    ghost Value = { List Cell };

    ghost view = { λ r. arc_slice_items r.values };
}

impl Row {
    pub fn new(values: Vec<Value>) -> Result<Row, Memory>
        ensures { IfOk result (λ row. row ≡ values.items) }
    {
        let values = ArcSlice::from_vec(values)?;
        Ok(Row { values })
    }

    /// The row of a part's values, which it shares.
    pub fn of_part(part: &Part) -> Result<Row, Memory>
        ensures { IfOk result (λ row. row ≡ part.now) }
    {
        let values = part.values.clone()?;
        Ok(Row { values })
    }

    pub fn values(&self) -> &[Value]
        ensures { result.now ≡ self.now }
    {
        self.values.as_slice()
    }

    /// The key: the integer in the first column. A row that fits a relation has one; any other
    /// counts as having 0.
    pub fn key(&self) -> i64
        ensures { result ≡ key_of self.now }
    {
        match self.values().first() {
            Some(Value::Int(key)) => *key,
            _ => 0,
        }
    }

    /// How this row's key compares with another row's.
    pub fn compare_keys(&self, other: &Row) -> Ordering
        ensures { result ≡ int_cmp (key_of self.now) (key_of other.now) }
    {
        self.key().cmp(&other.key())
    }
}

impl TryCopy for Row {
    fn copy(&self) -> Result<Row, Memory> {
        let values = self.values.clone()?;
        Ok(Row { values })
    }
}

impl Same for Row {
    fn same(&self, other: &Row) -> bool {
        same_all(self.values(), other.values())
    }
}
