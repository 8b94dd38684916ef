//! Texts, cut at a character.

ghost use Rattle.std.specs.Prelude.{◌≡◌, ◌<◌, ◌==◌, IfOk, map, option_map};
ghost use Rattle.std.specs.List.{slice_split};
ghost use Rattle.lines.specs.Cut as spec;

use std::alloc::{AllocError, Global};

/// What stands before the first such character and what stands after it, if there is one.
pub fn cut(text: &str, mark: char) -> Option<(&str, &str)>
    requires { mark < 128 }
    ensures { option_map (λ parts. (parts.0.now, parts.1.now)) result ≡ spec.cut mark text.now }
{
    text.split_once(mark)
}

/// The pieces of a text between such characters.
pub fn pieces<'a>(alloc: Global, text: &'a str, mark: char) -> Result<Vec<&'a str>, AllocError>
    requires { mark < 128 }
    ensures { IfOk result (λ pieces. map (λ piece. piece.now) pieces.items ≡ slice_split (λ byte. byte == mark) text.entry.now) }
{
    text.split(mark).collect(alloc)
}
