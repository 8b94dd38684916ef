//! What is typed: a line at a time, and whether a statement ends where its text does.

ghost use Rattle.std.specs.Prelude.{◌≡◌, ◌≤◌, ◌<◌, IfErr, IfOk, IfSome, length};
ghost use Rattle.lines.specs.Input.{IsOfInput};
ghost use Rattle.databases.specs.Solo.{IsOfRun};

use lines::fault::ProgramFault;
use meaning::schema::Schema;
use reader::fault::Rule;
use reader::read::read;
use std::alloc::{AllocFailed, Global};
use std::io::BufRead;

/// The byte that drops a line: what Ctrl-C gives at a terminal that does not end programs by it.
const DROP: u8 = 3;

/// What is typed up to the end of a line.
#[derive(Drop)]
pub enum Typed {
    /// A line, without its end.
    Line(Vec<u8>),
    /// A line that was dropped.
    Dropped,
    /// Nothing more comes.
    End,
}

/// How much of what has come is of a line.
#[derive(Clone, Copy)]
enum Front {
    /// All of it, and the line goes on.
    All,
    /// So many bytes, with a line feed behind them.
    Whole(usize),
    /// So many bytes, and they are dropped with the byte behind them.
    Dropped(usize),
}

/// The next line that is typed. It ends at a line feed, or is dropped at its other end, or ends with the input.
pub fn next_line<'a, R: BufRead>(
    alloc: Global,
    file: &'a str,
    input: &mut R,
) -> Result<Typed, ProgramFault<'a>>
    ensures { IfErr result (IsOfInput file.entry) }
{
    let mut line = Vec::new(alloc);
    for _ in 0..u64::MAX {
        let buffer = input
            .fill_buf()
            .map_err(|error| ProgramFault::reading(file, &error))?;
        let came = buffer.len();
        if came == 0 {
            return Ok(if line.is_empty() {
                Typed::End
            } else {
                Typed::Line(line)
            });
        }
        let front = front_of(buffer);
        if let Err(_failed) = line.extend_from_slice(kept_of(buffer, front)) {
            return Err(ProgramFault::Memory);
        }
        input.consume(used_of(came, front));
        match front {
            Front::All => {}
            Front::Whole(_) => return Ok(Typed::Line(line)),
            Front::Dropped(_) => return Ok(Typed::Dropped),
        }
    }
    Ok(Typed::End)
}

/// How much of these bytes is of the line.
fn front_of(bytes: &[u8]) -> Front {
    match bytes
        .iter()
        .position(|byte| *byte == b'\n' || *byte == DROP)
    {
        Some(place) => match bytes.get(place) {
            Some(3) => Front::Dropped(place),
            _ => Front::Whole(place),
        },
        None => Front::All,
    }
}

/// The bytes that are kept.
fn kept_of(bytes: &[u8], front: Front) -> &[u8] {
    match front {
        Front::All => bytes,
        Front::Whole(place) | Front::Dropped(place) => bytes.get(..place).unwrap_or(bytes),
    }
}

/// How many bytes are used up, of so many that came.
fn used_of(came: usize, front: Front) -> usize {
    match front {
        Front::All => came,
        Front::Whole(place) | Front::Dropped(place) => place.saturating_add(1),
    }
}

/// The first statement of a line, with the semicolon that ends it, and what stands behind it, if something does.
pub fn first_of(line: &str) -> Option<(&str, &str)>
    ensures shorter { IfSome result (λ parts. length parts.1.now < length line.now) }
{
    let length = length_of_first(line.as_bytes())?;
    let (first, rest) = (line.get(..length)?, line.get(length..)?);
    let rest = rest.trim_ascii_start();
    if rest.is_empty() {
        None
    } else {
        Some((first, rest))
    }
}

/// How many bytes are up to the first semicolon outside a text, and of it.
fn length_of_first(line: &[u8]) -> Option<usize>
    ensures { IfSome result (λ length. 0 < length) }
{
    let mut is_in_text = false;
    for (place, byte) in line.iter().enumerate() {
        match byte {
            b'\'' => is_in_text = !is_in_text,
            b';' if !is_in_text => return Some(place.saturating_add(1)),
            _ => {}
        }
    }
    None
}

/// Whether a statement ends where its text does: at a semicolon, or since it is one, or is none whatever follows.
pub fn is_whole<'a>(alloc: Global, schema: &Schema, text: &str) -> Result<bool, ProgramFault<'a>>
    ensures { IfErr result IsOfRun }
{
    if text.ends_with(';') {
        return Ok(true);
    }
    let Some(fault) = read(alloc, text, schema).err() else {
        return Ok(true);
    };
    match fault.rule() {
        Rule::Memory => Err(ProgramFault::Memory),
        Rule::Syntax => Ok(fault.offset() < text.len()),
        _ => Ok(true),
    }
}
