//! Rows as comma-separated values.

ghost use Rattle.std.specs.Prelude.{◌≡◌, ◌++◌, ◌∷◌, [], ℕ, List, OnOk, chars, string_bytes};
ghost use Rattle.std.specs.List.{flat_map, list_any};
ghost use Rattle.forms.specs.Csv as spec;
ghost use Rattle.forms.specs.Csv.{csv, csv_line, csv_text, csv_value, doubled};
ghost use Rattle.forms.specs.Separated.{separated};

use std::alloc::AllocError;
use terms::row::Row;
use terms::text::Text;
use terms::value::Value;

/// Puts rows under the names of their columns.
pub fn put_csv(out: &mut String, header: &[Text], rows: &[Row]) -> Result<(), AllocError>
    ensures { OnOk result (string_bytes out.new ≡ string_bytes out.old ++ csv header.now rows.now) }
{
    put_fields(out, header)?;
    for row in rows {
        put_fields(out, row.values())?;
    }
    Ok(())
}

/// Puts a line that is no row, as the one field of a line.
pub fn put_csv_line(out: &mut String, text: &str) -> Result<(), AllocError>
    ensures { OnOk result (string_bytes out.new ≡ string_bytes out.old ++ csv_line text.now) }
{
    put_text(out, text)?;
    out.push('\n')
}

/// How a field is put at the end of a line.
trait Field {
    ghost bytes: { Self → List ℕ };

    fn put(&self, out: &mut String) -> Result<(), AllocError>
        ensures { OnOk result (string_bytes out.new ≡ string_bytes out.old ++ bytes self.now) };
}

impl Field for Text {
    ghost bytes = { λ name. csv_text name };

    fn put(&self, out: &mut String) -> Result<(), AllocError> {
        put_text(out, self.as_str())
    }
}

impl Field for Value {
    ghost bytes = { λ value. csv_value value };

    fn put(&self, out: &mut String) -> Result<(), AllocError> {
        match self {
            Value::Int(number) => write!(out, "{number}"),
            Value::Text(text) => put_text(out, text.as_str()),
        }
    }
}

/// Puts the fields in a line, with a comma between each two.
fn put_fields<T: Field>(out: &mut String, fields: &[T]) -> Result<(), AllocError>
    ensures { OnOk result (string_bytes out.new ≡ string_bytes out.old ++ separated (λ field. T.bytes field) 44 fields.now ++ 10 ∷ []) }
{
    let Some((first, others)) = fields.split_first() else {
        return out.push('\n');
    };
    first.put(out)?;
    for field in others {
        out.push(',')?;
        field.put(out)?;
    }
    out.push('\n')
}

/// Puts a text, in quotes where it has to stand in them.
fn put_text(out: &mut String, text: &str) -> Result<(), AllocError>
    ensures { OnOk result (string_bytes out.new ≡ string_bytes out.old ++ csv_text text.now) }
{
    if text.is_empty() || has_special(text.as_bytes()) {
        put_quoted(out, text)
    } else {
        out.push_str(text)
    }
}

fn has_special(bytes: &[u8]) -> bool
    ensures { result ≡ list_any spec.is_special bytes.now }
{
    bytes.iter().any(|byte| *byte == b',' || *byte == b'"' || *byte == b'\r' || *byte == b'\n')
}

/// Puts a text in quotes, each quote in it doubled.
fn put_quoted(out: &mut String, text: &str) -> Result<(), AllocError>
    ensures { OnOk result (string_bytes out.new ≡ string_bytes out.old ++ (34 ∷ flat_map doubled (chars text.now) ++ 34 ∷ [])) }
{
    out.push_str("\"")?;
    for character in text.chars() {
        match character {
            '"' => out.push_str("\"\"")?,
            other => out.push(other)?,
        }
    }
    out.push_str("\"")
}
