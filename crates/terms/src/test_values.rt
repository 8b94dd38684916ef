//! Test values: few enough to try all, and enough to show whatever conditions can tell apart.

ghost use Rattle.std.specs.Prelude.{◌≡◌, IfOk, OnOk, ◌↔◌, ◌++◌, Contains};
ghost use Rattle.std.specs.List.Sorted.{IsStrictlySortedBy};
ghost use Rattle.terms.specs.Value.{value_cmp};
ghost use Rattle.terms.specs.TestValues.{least, after, test_values, constants, with_after, column_holds, TestRowsSuffice, TestValuesFit};

use crate::cond::Cond;
use crate::copy::TryCopy;
use crate::memory::Memory;
use crate::text::Text;
use crate::value::{Kind, Value};
use std::alloc::Global;

/// The least value of a type.
pub fn least(alloc: Global, kind: Kind) -> Result<Value, Memory>
    ensures { IfOk result (λ value. value ≡ least kind) }
{
    match kind {
        Kind::Int => Ok(Value::Int(i64::MIN)),
        Kind::Text => Ok(Value::Text(Text::new(String::new(alloc))?)),
    }
}

/// The least value that fits above another, if there is one. Texts have no control characters, so a
/// space is the least that can follow one.
pub fn after(alloc: Global, value: &Value) -> Result<Option<Value>, Memory>
    ensures { IfOk result (λ next. next ≡ after value.now) }
{
    match value {
        Value::Int(n) => Ok(after_int(*n)),
        Value::Text(text) => {
            let mut longer = String::from_str(alloc, text.as_str())?;
            longer.push(' ')?;
            Ok(Some(Value::Text(Text::new(longer)?)))
        }
    }
}

fn after_int(n: i64) -> Option<Value>
    ensures { result ≡ after (Value.Int n) }
{
    match n.checked_add(1) {
        Some(next) => Some(Value::Int(next)),
        None => None,
    }
}

/// Whether a value meets the conditions on a column.
pub fn column_holds(conds: &[Cond], col: usize, value: &Value) -> bool
    ensures { result ≡ column_holds conds.now col value.now }
{
    conds.iter().all(|cond| cond.col != col || cond.cmp.compares(value, &cond.value))
}

/// For every row that fits, there is a row of test values that fits and compares alike with every
/// constant. A caller that writes this call knows so.
#[tactic(auto, using(crate::proofs::Rows::test_row))]
pub fn test_rows_suffice()
    ensures { TestRowsSuffice }
{}

/// Where conditions fit, every test value of a column is of the column's type and fits.
pub fn test_values_fit()
    ensures { TestValuesFit }
{}

/// The test values of a column for these conditions, ascending, without repeats.
pub fn test_values(
    alloc: Global,
    kind: Kind,
    conds: &[Cond],
    col: usize,
) -> Result<Vec<Value>, Memory>
    ensures ascending { IfOk result (λ values. IsStrictlySortedBy value_cmp values.items) }
    ensures members { IfOk result (λ values. (value : Value) →
        Contains values.items value ↔ Contains (test_values kind (constants conds.now col)) value) }
{
    let mut values = unsorted(alloc, kind, conds, col)?;
    values.sort_unstable();
    values.dedup();
    Ok(values)
}

/// The test values of a column in the order of the conditions.
fn unsorted(alloc: Global, kind: Kind, conds: &[Cond], col: usize) -> Result<Vec<Value>, Memory>
    ensures { IfOk result (λ values. values.items ≡ test_values kind (constants conds.now col)) }
{
    let mut values = Vec::new(alloc);
    values.push(least(alloc, kind)?)?;
    for cond in conds {
        if cond.col == col {
            push_with_after(alloc, &mut values, &cond.value)?;
        }
    }
    Ok(values)
}

fn push_with_after(alloc: Global, values: &mut Vec<Value>, constant: &Value) -> Result<(), Memory>
    ensures { OnOk result (values.new.items ≡ values.old.items ++ with_after constant.now) }
{
    values.push(constant.copy()?)?;
    if let Some(next) = after(alloc, constant)? {
        values.push(next)?;
    }
    Ok(())
}
