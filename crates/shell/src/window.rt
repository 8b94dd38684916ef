//! The part of a text that is shown around a place, with a caret below it.

ghost use Rattle.std.specs.Prelude.{◌≡◌, ◌++◌, true, length, min, replicate, IfOk, OnOk, string_bytes};
ghost use Rattle.std.specs.List.{list_all};
ghost use Rattle.shell.specs.Lines.{is_plain, is_short, pointed};

use crate::Made;
use std::alloc::Global;
use unicode_width::{UnicodeWidthChar, UnicodeWidthStr};

/// The most columns of a text that is shown whole.
const WHOLE: usize = 72;

/// The most columns of each of its halves where it isn't, without the dots.
const HALF: usize = 33;

/// Puts a line, and below it one with a caret at a column.
pub(crate) fn put_line(out: &mut String, line: &str, column: usize) -> Made<()>
    ensures { OnOk result (string_bytes out.new ≡ string_bytes out.old ++ pointed line.now column) }
{
    out.push_str(line)?;
    out.push('\n')?;
    put_spaces(out, column)?;
    out.push_str("^\n")
}

fn put_spaces(out: &mut String, count: usize) -> Made<()>
    ensures { OnOk result (string_bytes out.new ≡ string_bytes out.old ++ replicate count 32) }
{
    for index in 0..count {
        let _ = index;
        out.push(' ')?;
    }
    Ok(())
}

/// A text, or what of it is near an offset, and the column of that place in it.
pub(crate) fn line_at(alloc: Global, text: &str, offset: usize) -> Made<(String, usize)>
    ensures whole { IfOk result (λ line. is_short text.now ≡ true → string_bytes line.0 ≡ text.now) }
    ensures below { IfOk result (λ line. is_short text.now ≡ true → line.1 ≡ min offset (length text.now)) }
{
    if is_short(text) {
        return Ok((String::from_str(alloc, text)?, offset.min(text.len())));
    }
    let room = if text.width() <= WHOLE { WHOLE } else { HALF };
    let (before, behind) = split_at(text, offset);
    let before: Vec<char> = before.chars().rev().collect(alloc)?;
    let behind: Vec<char> = behind.chars().collect(alloc)?;
    let (mut near, column) = front_within(alloc, before.as_slice(), room)?;
    let (front, _) = front_within(alloc, behind.as_slice(), room)?;
    near.reverse();
    near.extend_from_slice(front.as_slice())?;
    Ok((near.iter().copied().collect(alloc)?, column))
}

/// Whether a text is shown whole, and has a column for each byte.
fn is_short(text: &str) -> bool
    ensures { result ≡ is_short text.now }
{
    text.len() <= WHOLE && are_plain(text.as_bytes())
}

fn are_plain(bytes: &[u8]) -> bool
    ensures { result ≡ list_all is_plain bytes.now }
{
    bytes.iter().all(|byte| *byte >= b' ' && *byte <= b'~')
}

/// What stands before an offset, and the rest. An offset inside of a character or beyond the text is its end.
pub(crate) fn split_at(text: &str, offset: usize) -> (&str, &str) {
    text.split_at_checked(offset).unwrap_or((text, ""))
}

/// The front of the characters with at most so many columns, dots where it isn't all, and the columns of both; a space
/// stands for a character that has no width, as a tab.
fn front_within(alloc: Global, characters: &[char], room: usize) -> Made<(Vec<char>, usize)> {
    let mut front = Vec::new(alloc);
    let mut wide: usize = 0;
    for character in characters {
        let (shown, width) = match character.width() {
            Some(width) => (*character, width),
            None => (' ', 1),
        };
        if wide.saturating_add(width) > room {
            front.extend_from_slice(&['.', '.', '.'])?;
            return Ok((front, wide.saturating_add(3)));
        }
        front.push(shown)?;
        wide = wide.saturating_add(width);
    }
    Ok((front, wide))
}
