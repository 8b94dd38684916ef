//! Rows as JSON, an object in each line.

ghost use Rattle.std.specs.Prelude.{◌≡◌, ◌<◌, ◌++◌, ◌∷◌, OnOk, chars, string_bytes};
ghost use Rattle.std.specs.List.{flat_map, zip};
ghost use Rattle.forms.specs.Json.{control_code, json, json_character, json_line, json_member, json_row, json_text, json_value};
ghost use Rattle.forms.specs.Separated.{separated};

use std::alloc::AllocError;
use terms::row::Row;
use terms::text::Text;
use terms::value::Value;

/// Puts an object for each row, with the names of the columns as keys.
pub fn put_json(out: &mut String, header: &[Text], rows: &[Row]) -> Result<(), AllocError>
    ensures { OnOk result (string_bytes out.new ≡ string_bytes out.old ++ json header.now rows.now) }
{
    for row in rows {
        put_row(out, header, row.values())?;
    }
    Ok(())
}

/// Puts an object for a line that is no row.
pub fn put_json_line(out: &mut String, text: &str) -> Result<(), AllocError>
    ensures { OnOk result (string_bytes out.new ≡ string_bytes out.old ++ json_line text.now) }
{
    out.push_str("{\"Told\":")?;
    put_text(out, text)?;
    out.push_str("}\n")
}

fn put_row(out: &mut String, header: &[Text], values: &[Value]) -> Result<(), AllocError>
    ensures { OnOk result (string_bytes out.new ≡ string_bytes out.old ++ json_row header.now values.now) }
{
    out.push_str("{")?;
    let mut between = "";
    for (name, value) in header.iter().zip(values.iter()) {
        out.push_str(between)?;
        put_member(out, name, value)?;
        between = ",";
    }
    out.push_str("}\n")
}

fn put_member(out: &mut String, name: &Text, value: &Value) -> Result<(), AllocError>
    ensures { OnOk result (string_bytes out.new ≡ string_bytes out.old ++ json_member (name.now, value.now)) }
{
    put_text(out, name.as_str())?;
    out.push(':')?;
    match value {
        Value::Int(number) => write!(out, "{number}"),
        Value::Text(text) => put_text(out, text.as_str()),
    }
}

/// Puts a text in quotes.
fn put_text(out: &mut String, text: &str) -> Result<(), AllocError>
    ensures { OnOk result (string_bytes out.new ≡ string_bytes out.old ++ json_text text.now) }
{
    out.push_str("\"")?;
    for character in text.chars() {
        match character {
            '"' => out.push_str("\\\"")?,
            '\\' => out.push_str("\\\\")?,
            control if control < ' ' => put_control(out, control as u8)?,
            other => out.push(other)?,
        }
    }
    out.push_str("\"")
}

/// Puts the code of a control character.
fn put_control(out: &mut String, character: u8) -> Result<(), AllocError>
    ensures { OnOk result (string_bytes out.new ≡ string_bytes out.old ++ control_code character) }
{
    write!(out, "\\u00{character:02x}")
}
