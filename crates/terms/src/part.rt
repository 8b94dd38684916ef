//! Parts: the values that a fragment keeps of a row.

ghost use Rattle.std.specs.Prelude.{◌≡◌, List, IfOk, IfSome, IsSome, IsTrue, ◌↔◌};
ghost use Rattle.std.specs.Arc.{arc_slice_items};
ghost use Rattle.terms.specs.Row.{key_of};
ghost use Rattle.terms.specs.Cond.{conds_hold};
ghost use Rattle.terms.specs.Stored.{IsStorable};

use crate::cond::{Cond, all_hold};
use crate::copy::TryCopy;
use crate::memory::Memory;
use crate::row::Row;
use crate::same::{Same, same_all};
use crate::value::Value;
use std::marker::Model;
use std::sync::ArcSlice;

/// The most values that a part has.
pub(crate) const VALUE_LIMIT: usize = 16;

/// A part of a row: the values of some columns, the key first. It has 1 to `VALUE_LIMIT` values that a database holds, the first
/// an integer. Contracts see the list of its values. Its copies share them, so that a copy takes no memory.
#[derive(Debug, Drop)]
pub struct Part {
    pub(crate) values: ArcSlice<Value>,
}

impl Model for Part {
    ghost use Rattle.std.specs.Prelude.{List};
    ghost use Rattle.std.specs.Arc.{arc_slice_items};
    ghost use Rattle.terms.specs.declared.value.Value.{Value as Cell};
    ghost use Rattle.terms.specs.Stored.{IsStorable};

    ghost Value = { List Cell };

    ghost view = { λ p. arc_slice_items p.values };

    ghost invariant = { λ p. IsStorable (arc_slice_items p.values) };
}

impl Part {
    /// The part that has these values; none where a part can't have them.
    pub fn new(values: Vec<Value>) -> Result<Option<Part>, Memory>
        ensures found { IfOk result (λ found. IfSome found (λ part. part ≡ values.items)) }
        ensures storable { IfOk result (λ found. IsSome found ↔ IsStorable values.items) }
    {
        if !is_storable(values.as_slice()) {
            return Ok(None);
        }
        let values = ArcSlice::from_vec(values)?;
        Ok(Some(Part { values }))
    }

    /// The part that has a row's values, which it shares; none where a part can't have them.
    pub fn of_row(row: &Row) -> Result<Option<Part>, Memory>
        ensures found { IfOk result (λ found. IfSome found (λ part. part ≡ row.now)) }
        ensures storable { IfOk result (λ found. IsSome found ↔ IsStorable row.now) }
    {
        if !is_storable(row.values()) {
            return Ok(None);
        }
        let values = row.values.clone()?;
        Ok(Some(Part { values }))
    }

    pub fn values(&self) -> &[Value]
        ensures values { result.now ≡ self.now }
        ensures storable { IsStorable self.now }
    {
        self.values.as_slice()
    }

    /// The key: the integer in the first column.
    pub fn key(&self) -> i64
        ensures { result ≡ key_of self.now }
    {
        match self.values().first() {
            Some(Value::Int(key)) => *key,
            _ => 0,
        }
    }

    /// Whether all of these conditions, on places of the part, hold of it.
    #[inline(always)]
    pub fn meets(&self, conds: &[Cond]) -> bool
        ensures { result ≡ conds_hold conds.now self.now }
    {
        all_hold(conds, self.values())
    }
}

impl TryCopy for Part {
    fn copy(&self) -> Result<Part, Memory> {
        let values = self.values.clone()?;
        Ok(Part { values })
    }
}

impl Same for Part {
    fn same(&self, other: &Part) -> bool {
        same_all(self.values(), other.values())
    }
}

/// Whether a part can have these values: 1 to `VALUE_LIMIT` that a database holds, the first an integer.
fn is_storable(values: &[Value]) -> bool
    ensures { IsTrue result ↔ IsStorable values.now }
{
    let Some(Value::Int(_)) = values.first() else {
        return false;
    };
    values.len() <= VALUE_LIMIT && values.iter().all(|value| value.fits())
}
