//! The text of answers.

ghost use Rattle.std.specs.Prelude.{◌≡◌, ◌∷◌, ◌++◌, length, map, IfOk, OnOk, string_bytes};
ghost use Rattle.std.specs.List.{flat_map};
ghost use Rattle.reader.specs.PrintAnswer.{value_text, fields_text, row_text, count_text, answer_text};

use crate::separated::{Printer, put_separated};
use meaning::answer::Answer;
use std::alloc::Global;
use terms::memory::Memory;
use terms::row::Row;
use terms::text::Text;
use terms::value::Value;

/// An answer, as a person reads it, with no line feed at its end.
pub fn print_answer(alloc: Global, answer: &Answer) -> Result<String, Memory>
    ensures { IfOk result (λ text. string_bytes text ≡ answer_text answer.now) }
{
    let mut out = String::new(alloc);
    match answer {
        Answer::Rows(header, rows) => {
            put_header(&mut out, header.as_slice())?;
            put_rows(&mut out, rows.as_slice())?;
            out.push('\n')?;
            put_count(&mut out, rows.as_slice().len())?;
        }
        Answer::Changed(count) => write!(out, "changed {count}")?,
        Answer::Exists => out.push_str("exists")?,
        Answer::Overflow => out.push_str("overflow")?,
    }
    Ok(out)
}

fn put_count(out: &mut String, count: usize) -> Result<(), Memory>
    ensures { OnOk result (string_bytes out.new ≡ string_bytes out.old ++ count_text count) }
{
    if count == 1 {
        out.push_str("1 row")?;
    } else {
        write!(out, "{count} rows")?;
    }
    Ok(())
}

/// The names of columns.
#[derive(Clone, Copy)]
struct Names;

impl Printer<Text> for Names {
    ghost bytes = { λ _ name. name };

    fn put(&self, out: &mut String, name: &Text) -> Result<(), Memory> {
        out.push_str(name.as_str())?;
        Ok(())
    }
}

/// The values of a row.
#[derive(Clone, Copy)]
struct Fields;

impl Printer<Value> for Fields {
    ghost bytes = { λ _ value. value_text value };

    fn put(&self, out: &mut String, value: &Value) -> Result<(), Memory> {
        put_value(out, value)
    }
}

fn put_header(out: &mut String, names: &[Text]) -> Result<(), Memory>
    ensures { OnOk result (string_bytes out.new ≡ string_bytes out.old ++ fields_text names.now) }
{
    put_separated(out, &Names, "\t", names)
}

fn put_rows(out: &mut String, rows: &[Row]) -> Result<(), Memory>
    ensures { OnOk result (string_bytes out.new ≡ string_bytes out.old ++ flat_map (λ row. 10 ∷ row_text row) rows.now) }
{
    for row in rows {
        out.push('\n')?;
        put_row(out, row.values())?;
    }
    Ok(())
}

fn put_row(out: &mut String, values: &[Value]) -> Result<(), Memory>
    ensures { OnOk result (string_bytes out.new ≡ string_bytes out.old ++ row_text values.now) }
{
    put_separated(out, &Fields, "\t", values)
}

fn put_value(out: &mut String, value: &Value) -> Result<(), Memory>
    ensures { OnOk result (string_bytes out.new ≡ string_bytes out.old ++ value_text value.now) }
{
    match value {
        Value::Int(number) => write!(out, "{number}")?,
        Value::Text(text) => out.push_str(text.as_str())?,
    }
    Ok(())
}
