//! Whether some row meets conditions, and the least row of test values that does.

ghost use Rattle.std.specs.Prelude.{◌≡◌, true, List, IfOk, IfSome, IfNone};
ghost use Rattle.std.specs.List.{AllByRecursion, fold};
ghost use Rattle.terms.specs.declared.value.Value.{Value as Cell};
ghost use Rattle.terms.specs.Row.{FitsKinds};
ghost use Rattle.terms.specs.Cond.{IsCondOf, conds_hold};
ghost use Rattle.terms.specs.TestValues.{least, with_after, IsLeastTest, HasLeastTests};
ghost use Rattle.terms.specs.Search.{is_below, better, tried_all, HasNoTest, AreLeast, SomeHasNoTest};

use crate::cond::{Cond, Conds};
use crate::copy::TryCopy;
use crate::memory::Memory;
use crate::row::Row;
use crate::test_values::{after, column_holds, least};
use crate::value::{Kind, Value};
use std::alloc::Global;

fn is_below(value: &Value, best: &Option<Value>) -> bool
    ensures { result ≡ is_below value.now best.now }
{
    match best {
        Some(best) => value.cmp(best).is_lt(),
        None => true,
    }
}

/// The best so far after a value is tried.
#[tactic(auto, unfolding(crate::specs::Search::better))]
fn better(conds: &[Cond], col: usize, best: Option<Value>, value: Value) -> Option<Value>
    ensures { result ≡ better conds.now col best value }
{
    if is_below(&value, &best) && column_holds(conds, col, &value) {
        Some(value)
    } else {
        best
    }
}

/// The best so far after a constant and its successor are tried.
fn better_of_two(
    alloc: Global,
    conds: &[Cond],
    col: usize,
    best: Option<Value>,
    constant: &Value,
) -> Result<Option<Value>, Memory>
    ensures { IfOk result (λ found. found ≡ fold (better conds.now col) best (with_after constant.now)) }
{
    let best = better(conds, col, best, constant.copy()?);
    match after(alloc, constant)? {
        Some(next) => Ok(better(conds, col, best, next)),
        None => Ok(best),
    }
}

/// The best of all test values, each of which is tried once.
fn search(alloc: Global, kind: Kind, conds: &[Cond], col: usize) -> Result<Option<Value>, Memory>
    ensures { IfOk result (λ found. found ≡ tried_all conds.now col (better conds.now col None (least kind)) conds.now) }
{
    let mut best = better(conds, col, None, least(alloc, kind)?);
    for cond in conds {
        if cond.col == col {
            best = better_of_two(alloc, conds, col, best, &cond.value)?;
        }
    }
    Ok(best)
}

/// The least test value that meets the conditions on a column, if one does.
fn least_test(
    alloc: Global,
    kind: Kind,
    conds: &[Cond],
    col: usize,
) -> Result<Option<Value>, Memory>
    ensures some { IfOk result (λ found. IfSome found (λ value. IsLeastTest kind conds.now col value)) }
    ensures none { IfOk result (λ found. IfNone found (HasNoTest kind conds.now col)) }
{
    search(alloc, kind, conds, col)
}

/// In each column the least test value that meets the conditions, if in each column one does.
fn least_row(alloc: Global, kinds: &[Kind], conds: &[Cond]) -> Result<Option<Row>, Memory>
    ensures some { IfOk result (λ found. IfSome found (λ row. AreLeast conds.now 0 kinds.now row)) }
    ensures none { IfOk result (λ found. IfNone found (SomeHasNoTest kinds.now conds.now)) }
{
    let mut values = Vec::new(alloc);
    for col in 0..kinds.len() {
        match least_test(alloc, kinds[col], conds, col)? {
            Some(value) => values.push(value)?,
            None => return Ok(None),
        }
    }
    Ok(Some(Row::new(values)?))
}

impl Conds {
    /// A row of these types that meets all conditions, if there is one: in each column it has the
    /// least test value that meets them.
    pub fn satisfiable(&self, kinds: &[Kind]) -> Result<Option<Row>, Memory>
        requires { AllByRecursion (IsCondOf kinds.now) self.now }

        ensures fits { IfOk result (λ found. IfSome found (λ row. FitsKinds kinds.now row)) }
        ensures holds { IfOk result (λ found. IfSome found (λ row. conds_hold self.now row ≡ true)) }
        ensures least { IfOk result (λ found. IfSome found (λ row. HasLeastTests kinds.now self.now row)) }

        ensures none { IfOk result (λ found. IfNone found
            ((row : List Cell) → FitsKinds kinds.now row → conds_hold self.now row ≡ true → ⊥)) }
    {
        least_row(self.allocator(), kinds, self.as_slice())
    }
}
