//! Rows in columns, aligned by the places of a line that texts take in a terminal.

ghost use Rattle.std.specs.Prelude.{◌≡◌, ◌<◌, ◌++◌, IfOk, OnOk, replicate, slice_get, string_bytes};
ghost use Rattle.std.specs.List.{flat_map};
ghost use Rattle.forms.specs.Columns as spec;
ghost use Rattle.forms.specs.Columns.{aligned, at_left, field, gap, line_of, names_line, row_line, rule_line, shown_character, shown_text, widths_from};

use std::alloc::{AllocError, Global};
use terms::row::Row;
use terms::text::Text;
use terms::value::Value;
use unicode_width::{UnicodeWidthChar, UnicodeWidthStr};

/// Puts rows under the names of their columns, of which each is as wide as its widest value.
pub fn put_columns(out: &mut String, names: &[Text], rows: &[Row]) -> Result<(), AllocError>
    ensures { OnOk result (string_bytes out.new ≡ string_bytes out.old ++ spec.columns names.now rows.now) }
{
    let made = widths(*out.allocator(), names, rows)?;
    let widths = made.as_slice();
    put_names(out, widths, names)?;
    put_rule(out, widths)?;
    for row in rows {
        put_row(out, widths, row.values())?;
    }
    Ok(())
}

/// The width of each column.
fn widths(alloc: Global, names: &[Text], rows: &[Row]) -> Result<Vec<usize>, AllocError>
    ensures { IfOk result (λ widths. widths.items ≡ widths_from rows.now 0 names.now) }
{
    let mut widths = Vec::new(alloc);
    for (place, name) in names.iter().enumerate() {
        widths.push(width_at(alloc, rows, place, name)?)?;
    }
    Ok(widths)
}

/// The width of the column at a place.
fn width_at(alloc: Global, rows: &[Row], place: usize, name: &Text) -> Result<usize, AllocError>
    ensures { IfOk result (λ width. width ≡ spec.column_width rows.now place name.now) }
{
    let mut width = name.as_str().width();
    for row in rows {
        width = width.max(field_width(alloc, row.values(), place)?);
    }
    Ok(width)
}

/// How many places the value at a place of a row takes, none where there is none.
fn field_width(alloc: Global, values: &[Value], place: usize) -> Result<usize, AllocError>
    ensures { IfOk result (λ width. width ≡ spec.field_width (slice_get values.now place)) }
{
    match values.get(place) {
        Some(value) => Ok(field_of(alloc, value)?.as_str().width()),
        None => Ok(0),
    }
}

fn put_names(out: &mut String, widths: &[usize], names: &[Text]) -> Result<(), AllocError>
    ensures { OnOk result (string_bytes out.new ≡ string_bytes out.old ++ names_line widths.now names.now) }
{
    let mut line = String::new(*out.allocator());
    for (width, name) in widths.iter().zip(names.iter()) {
        put_left(&mut line, *width, name.as_str())?;
    }
    put_line(out, line.as_str())
}

fn put_rule(out: &mut String, widths: &[usize]) -> Result<(), AllocError>
    ensures { OnOk result (string_bytes out.new ≡ string_bytes out.old ++ rule_line widths.now) }
{
    let mut line = String::new(*out.allocator());
    for width in widths {
        put_repeated(&mut line, *width, '-')?;
        line.push_str("  ")?;
    }
    put_line(out, line.as_str())
}

fn put_row(out: &mut String, widths: &[usize], values: &[Value]) -> Result<(), AllocError>
    ensures { OnOk result (string_bytes out.new ≡ string_bytes out.old ++ row_line widths.now values.now) }
{
    let mut line = String::new(*out.allocator());
    for (width, value) in widths.iter().zip(values.iter()) {
        put_aligned(&mut line, *width, value)?;
    }
    put_line(out, line.as_str())
}

/// Puts a line without the blanks at its end.
fn put_line(out: &mut String, line: &str) -> Result<(), AllocError>
    ensures { OnOk result (string_bytes out.new ≡ string_bytes out.old ++ line_of line.now) }
{
    out.push_str(line.trim_end())?;
    out.push('\n')
}

/// Puts an integer at the right of its column, and a text at the left.
fn put_aligned(out: &mut String, width: usize, value: &Value) -> Result<(), AllocError>
    ensures { OnOk result (string_bytes out.new ≡ string_bytes out.old ++ aligned width value.now) }
{
    let text = field_of(*out.allocator(), value)?;
    match value {
        Value::Int(_) => {
            put_repeated(out, width.saturating_sub(text.as_str().width()), ' ')?;
            out.push_str(text.as_str())?;
            out.push_str("  ")
        }
        Value::Text(_) => put_left(out, width, text.as_str()),
    }
}

fn put_left(out: &mut String, width: usize, text: &str) -> Result<(), AllocError>
    ensures { OnOk result (string_bytes out.new ≡ string_bytes out.old ++ at_left width text.now) }
{
    out.push_str(text)?;
    put_repeated(out, width.saturating_sub(text.width()), ' ')?;
    out.push_str("  ")
}

/// Puts a character of ASCII so many times.
fn put_repeated(out: &mut String, count: usize, character: char) -> Result<(), AllocError>
    requires { character < 128 }
    ensures { OnOk result (string_bytes out.new ≡ string_bytes out.old ++ replicate count character) }
{
    for index in 0..count {
        let _ = index;
        out.push(character)?;
    }
    Ok(())
}

/// A value as it is shown: of a text each character, or a space where it has no width.
fn field_of(alloc: Global, value: &Value) -> Result<String, AllocError>
    ensures { IfOk result (λ text. string_bytes text ≡ field value.now) }
{
    let mut text = String::new(alloc);
    match value {
        Value::Int(number) => write!(text, "{number}")?,
        Value::Text(bytes) => put_shown(&mut text, bytes.as_str())?,
    }
    Ok(text)
}

fn put_shown(out: &mut String, text: &str) -> Result<(), AllocError>
    ensures { OnOk result (string_bytes out.new ≡ string_bytes out.old ++ shown_text text.now) }
{
    for character in text.chars() {
        match character.width() {
            Some(_) => out.push(character)?,
            None => out.push(' ')?,
        }
    }
    Ok(())
}
