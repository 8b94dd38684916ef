//! Values and conditions as statements write them.

ghost use Rattle.std.specs.Prelude.{◌≡◌, ◌++◌, OnOk, string_bytes};
ghost use Rattle.terms.specs.Print.{doubled, value_text, values_text, cond_text, conds_text, column_name, cmp_text};

use crate::cond::{Cmp, Cond};
use crate::memory::Memory;
use crate::text::Text;
use crate::value::Value;
use std::fmt::Write;

/// Puts a value: an integer in decimal, a text in quotes with each quote in it doubled.
pub fn print_value(out: &mut String, value: &Value) -> Result<(), Memory>
    ensures { OnOk result (string_bytes out.new ≡ string_bytes out.old ++ value_text value.now) }
{
    match value {
        Value::Int(number) => write!(out, "{number}")?,
        Value::Text(text) => {
            out.push_str("'")?;
            print_doubled(out, text.as_str())?;
            out.push_str("'")?;
        }
    }
    Ok(())
}

/// Puts a text, each quote doubled.
fn print_doubled(out: &mut String, text: &str) -> Result<(), Memory>
    ensures { OnOk result (string_bytes out.new ≡ string_bytes out.old ++ doubled text.now) }
{
    let mut rest = text;
    while let Some((before, behind)) = rest.split_once('\'') {
        out.push_str(before)?;
        out.push_str("''")?;
        rest = behind;
    }
    out.push_str(rest)?;
    Ok(())
}

/// Puts values, with a comma and a blank between them.
pub fn print_values(out: &mut String, values: &[Value]) -> Result<(), Memory>
    ensures { OnOk result (string_bytes out.new ≡ string_bytes out.old ++ values_text values.now) }
{
    let Some((first, others)) = values.split_first() else {
        return Ok(());
    };
    print_value(out, first)?;
    for value in others {
        out.push_str(", ")?;
        print_value(out, value)?;
    }
    Ok(())
}

impl Cmp {
    /// The comparison's sign in statements.
    pub fn sign(self) -> &'static str
        ensures { result.now ≡ cmp_text self }
    {
        match self {
            Cmp::Eq => "=",
            Cmp::Ne => "<>",
            Cmp::Lt => "<",
            Cmp::Le => "<=",
            Cmp::Gt => ">",
            Cmp::Ge => ">=",
        }
    }
}

/// A column's name; nothing where there is no such column.
fn column_name(columns: &[Text], col: usize) -> &str
    ensures { result.now ≡ column_name columns.now col }
{
    match columns.get(col) {
        Some(name) => name.as_str(),
        None => "",
    }
}

/// Puts a condition on columns of these names.
fn print_cond(out: &mut String, cond: &Cond, columns: &[Text]) -> Result<(), Memory>
    ensures { OnOk result (string_bytes out.new ≡ string_bytes out.old ++ cond_text columns.now cond.now) }
{
    out.push_str(column_name(columns, cond.col))?;
    out.push_str(" ")?;
    out.push_str(cond.cmp.sign())?;
    out.push_str(" ")?;
    print_value(out, &cond.value)
}

/// Puts conditions on columns of these names, joined by AND.
pub fn print_conds(out: &mut String, conds: &[Cond], columns: &[Text]) -> Result<(), Memory>
    ensures { OnOk result (string_bytes out.new ≡ string_bytes out.old ++ conds_text columns.now conds.now) }
{
    let Some((first, others)) = conds.split_first() else {
        return Ok(());
    };
    print_cond(out, first, columns)?;
    for cond in others {
        out.push_str(" AND ")?;
        print_cond(out, cond, columns)?;
    }
    Ok(())
}
