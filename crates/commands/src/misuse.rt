//! What is told of the shell's words where they are not typed as is wanted.

use crate::session_word::tell;
use catalog::catalogue::Catalog;
use lines::dot::{WORDS, Word};
use shell::nearest::nearest;
use std::alloc::{AllocError, Global};
use std::io::Write;

/// How a word is to be typed.
fn usage_of(word: Word) -> &'static str {
    match word {
        Word::Help => ".help",
        Word::Tables => ".tables",
        Word::Schema => ".schema [RELATION]",
        Word::Leaves => ".leaves [RELATION]",
        Word::Catalog => ".catalog",
        Word::Show => ".show RELATION",
        Word::Leaf => ".leaf LEAF",
        Word::Plan => ".plan STATEMENT",
        Word::Dump => ".dump [RELATION]",
        Word::Read => ".read FILE",
        Word::Import => ".import FILE RELATION [ROWS]",
        Word::Stats => ".stats",
        Word::Timer => ".timer on|off",
        Word::Mode => ".mode tabs|columns|csv|json",
        Word::Quit => ".quit",
    }
}

/// Tells how a word is to be typed. Nothing is claimed of what stands on the standard error.
pub fn tell_wanted<E: Write>(alloc: Global, word: Word, errors: &mut E) -> Result<(), AllocError> {
    let text = format!(in alloc; "wanted: {}\n", usage_of(word))?;
    tell(errors, text.as_str());
    Ok(())
}

/// Tells that the shell has no such word, and which one was likely meant. Nothing is claimed of what stands on the standard error.
pub fn tell_unknown<E: Write>(alloc: Global, line: &str, errors: &mut E) -> Result<(), AllocError> {
    let word = match line.split_once(' ') {
        Some((front, _)) => front,
        None => line,
    };
    let text = match nearest(alloc, word, &WORDS)? {
        Some(name) => format!(in alloc; "no command {word}; did you mean {name}?\n")?,
        None => format!(in alloc; "no command {word}; .help lists them\n")?,
    };
    tell(errors, text.as_str());
    Ok(())
}

/// Tells that there is no such relation, and which one was likely meant. Nothing is claimed of what stands on the standard error.
pub fn tell_no_relation<E: Write>(
    alloc: Global,
    catalog: &Catalog,
    asked: &str,
    errors: &mut E,
) -> Result<(), AllocError> {
    let mut names = Vec::new(alloc);
    for relation in catalog.schema().relations.as_slice() {
        names.push(relation.name.as_str())?;
    }
    let text = match nearest(alloc, asked, names.as_slice())? {
        Some(name) => format!(in alloc; "no relation {asked}; did you mean {name}?\n")?,
        None => format!(in alloc; "no relation {asked}; .tables lists them\n")?,
    };
    tell(errors, text.as_str());
    Ok(())
}
