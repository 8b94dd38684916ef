//! The name that a word was likely meant to be, and names in a sentence.

ghost use Rattle.std.specs.Prelude.{IfOk};
ghost use Rattle.shell.specs.Nearest.{IsLikely};

use crate::Made;
use std::alloc::Global;
use strsim::levenshtein;

/// The first of the names with the fewest edits that lead to it from the word, if these are at most two and
/// fewer than the word has bytes.
pub fn nearest<'a>(alloc: Global, word: &str, names: &[&'a str]) -> Made<Option<&'a str>>
    ensures { IfOk result (λ found. IsLikely word.now names.now found) }
{
    let mut limit = word.len().min(3);
    let mut found = None;
    for name in names {
        let edits = levenshtein(alloc, word, name)?;
        if edits < limit {
            limit = edits;
            found = Some(*name);
        }
    }
    Ok(found)
}

/// Names with commas between.
pub(crate) fn listed(alloc: Global, names: &[&str]) -> Made<String> {
    match names {
        [] => String::from_str(alloc, "none"),
        _ => joined(alloc, names, ", "),
    }
}

/// Names with a text between each two.
pub(crate) fn joined(alloc: Global, names: &[&str], between: &str) -> Made<String> {
    let mut out = String::new(alloc);
    for (index, name) in names.iter().enumerate() {
        if index > 0 {
            out.push_str(between)?;
        }
        out.push_str(name)?;
    }
    Ok(out)
}

/// Puts which of these names a word was likely meant to be, between marks, if it was one.
pub(crate) fn put_meant(out: &mut String, mark: &str, word: &str, names: &[&str]) -> Made<()> {
    match nearest(*out.allocator(), word, names)? {
        Some(near) => write!(out, "; did you mean {mark}{near}{mark}?"),
        None => Ok(()),
    }
}

/// Puts the names that there are, and which of them a word was likely meant to be.
pub(crate) fn put_choices(out: &mut String, word: &str, names: &[&str]) -> Made<()> {
    out.push_str(listed(*out.allocator(), names)?.as_str())?;
    put_meant(out, "`", word, names)
}
