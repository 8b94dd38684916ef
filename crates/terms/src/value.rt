//! Values: integers and texts.

ghost use Rattle.std.specs.Prelude.{◌≡◌, IfOk, IsTrue, ◌↔◌, Some, refl};
ghost use Rattle.std.specs.Ordering.{eq_by_cmp};
ghost use Rattle.std.specs.Cmp.{po, eq_by_cmp_equiv, partial_equiv_from_equiv};
ghost use Rattle.terms.specs.Value.{Fits, kind_of, value_cmp};
ghost use Rattle.terms.specs.Order.{EqualValuesAreOne, value_cmp_total};

use crate::copy::TryCopy;
use crate::memory::Memory;
use crate::same::Same;
use crate::text::{Text, is_text_up_to};
use std::cmp::Ordering;

/// The most bytes that a text has.
pub const TEXT_LIMIT: usize = 200;

/// The two types of values, `int` and `text`.
#[derive(Clone, Copy, Debug, PartialEq, Eq)]
pub enum Kind {
    Int,
    Text,
}

/// An integer of 64 bits or a text. Integers come first, as numbers; texts are ordered by their bytes.
#[derive(Debug, Drop)]
pub enum Value {
    Int(i64),
    Text(Text),
}

impl Value {
    /// Whether the value is one that a database holds: an integer, or a text of at most `TEXT_LIMIT`
    /// bytes with no control character.
    pub fn fits(&self) -> bool
        ensures { IsTrue result ↔ Fits self.now }
    {
        match self {
            Value::Int(n) => {
                // The read shows that the number is in its type's range.
                let _number = *n;
                true
            }
            Value::Text(text) => is_text_up_to(TEXT_LIMIT, text.as_str()),
        }
    }

    pub fn kind(&self) -> Kind
        ensures { result ≡ kind_of self.now }
    {
        match self {
            Value::Int(_) => Kind::Int,
            Value::Text(_) => Kind::Text,
        }
    }
}

/// Values that compare as equal are the same, so that an order of values never ties two of them.
pub fn equal_values_are_one()
    ensures { EqualValuesAreOne }
{}

impl TryCopy for Value {
    fn copy(&self) -> Result<Value, Memory> {
        match self {
            Value::Int(n) => Ok(Value::Int(*n)),
            Value::Text(text) => Ok(Value::Text(text.copy()?)),
        }
    }
}

impl Same for Value {
    fn same(&self, other: &Value) -> bool {
        match self {
            Value::Int(m) => match other {
                Value::Int(n) => m.same(n),
                Value::Text(_) => false,
            },
            Value::Text(s) => match other {
                Value::Int(_) => false,
                Value::Text(t) => s.same(t),
            },
        }
    }
}

impl PartialEq for Value {
    ghost eq = { eq_by_cmp value_cmp };

    ghost laws = { partial_equiv_from_equiv (eq_by_cmp_equiv value_cmp_total) };

    fn eq(&self, other: &Value) -> bool {
        self.cmp(other) == Ordering::Equal
    }
}

impl Eq for Value {
    ghost laws = { eq_by_cmp_equiv value_cmp_total };
}

impl PartialOrd for Value {
    ghost partial_cmp = { λ a b. Some (value_cmp a b) };

    ghost laws = { po value_cmp_total (λ a b. refl) };

    fn partial_cmp(&self, other: &Value) -> Option<Ordering> {
        Some(self.cmp(other))
    }
}

impl Ord for Value {
    ghost cmp = { value_cmp };

    ghost total = { value_cmp_total };

    ghost matches_partial_cmp = { λ a b. refl };

    ghost matches_eq = { λ a b. refl };

    fn cmp(&self, other: &Value) -> Ordering {
        match (self, other) {
            (Value::Int(m), Value::Int(n)) => m.cmp(n),
            (Value::Int(_), Value::Text(_)) => Ordering::Less,
            (Value::Text(_), Value::Int(_)) => Ordering::Greater,
            (Value::Text(s), Value::Text(t)) => s.cmp(t),
        }
    }
}
