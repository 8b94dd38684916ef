//! How answers are shown.

ghost use Rattle.std.specs.Prelude.{◌≡◌, ◌++◌, IfOk, OnOk, string_bytes};
ghost use Rattle.reader.specs.PrintAnswer.{answer_text};
ghost use Rattle.forms.specs.Mode.{answer_in, line_in};

use crate::columns::put_columns;
use crate::csv::{put_csv, put_csv_line};
use crate::json::{put_json, put_json_line};
use meaning::answer::Answer;
use reader::print_answer::print_answer;
use std::alloc::Global;
use terms::memory::Memory;

/// How answers are shown.
#[derive(Clone, Copy, Debug, PartialEq, Eq)]
pub enum Mode {
    /// Fields are parted by tabs, and the rows are counted.
    Tabs,
    /// Fields stand below one another.
    Columns,
    /// Comma-separated values.
    Csv,
    /// An object of JSON in each line.
    Json,
}

/// Puts a line that is no row of a table.
pub fn put_line(out: &mut String, mode: Mode, text: &str) -> Result<(), Memory>
    ensures { OnOk result (string_bytes out.new ≡ string_bytes out.old ++ line_in mode text.now) }
{
    match mode {
        Mode::Tabs | Mode::Columns => {
            out.push_str(text)?;
            out.push('\n')?;
        }
        Mode::Csv => put_csv_line(out, text)?,
        Mode::Json => put_json_line(out, text)?,
    }
    Ok(())
}

/// A line that is no row of a table, with a line feed at its end.
pub fn show_line(alloc: Global, mode: Mode, text: &str) -> Result<String, Memory>
    ensures { IfOk result (λ line. string_bytes line ≡ line_in mode text.now) }
{
    let mut line = String::new(alloc);
    put_line(&mut line, mode, text)?;
    Ok(line)
}

/// An answer, with a line feed at its end.
pub fn show(alloc: Global, mode: Mode, answer: &Answer) -> Result<String, Memory>
    ensures { IfOk result (λ text. string_bytes text ≡ answer_in mode answer.now) }
{
    let mut text = String::new(alloc);
    put_answer(&mut text, mode, answer)?;
    Ok(text)
}

/// Puts an answer, with a line feed at its end.
pub fn put_answer(out: &mut String, mode: Mode, answer: &Answer) -> Result<(), Memory>
    ensures { OnOk result (string_bytes out.new ≡ string_bytes out.old ++ answer_in mode answer.now) }
{
    match (mode, answer) {
        (Mode::Columns, Answer::Rows(header, rows)) => {
            put_columns(out, header.as_slice(), rows.as_slice())?;
        }
        (Mode::Csv, Answer::Rows(header, rows)) => {
            put_csv(out, header.as_slice(), rows.as_slice())?;
        }
        (Mode::Json, Answer::Rows(header, rows)) => {
            put_json(out, header.as_slice(), rows.as_slice())?;
        }
        (mode, answer) => {
            let text = print_answer(*out.allocator(), answer)?;
            put_line(out, mode, text.as_str())?;
        }
    }
    Ok(())
}
