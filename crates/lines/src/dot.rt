//! The shell's own commands: lines that begin with a dot.

ghost use Rattle.std.specs.Prelude.{◌≡◌};
ghost use Rattle.lines.specs.Dot as spec;

use crate::cut::cut;
use forms::mode::Mode;

/// The word that a command of the shell begins with.
#[derive(Clone, Copy)]
pub enum Word {
    /// To tell what can be asked for.
    Help,
    /// To list the relations.
    Tables,
    /// To list the columns of a relation, or of each.
    Schema,
    /// To list the leaves of a relation, or of each.
    Leaves,
    /// To tell which catalogue is in force.
    Catalog,
    /// To show a relation.
    Show,
    /// To show a leaf.
    Leaf,
    /// To show which leaves a statement reads.
    Plan,
    /// To write relations as statements.
    Dump,
    /// To answer the lines of a file.
    Read,
    /// To insert the rows of a file.
    Import,
    /// To tell what the session has cost so far.
    Stats,
    /// To tell from now on how long answers take, or no longer.
    Timer,
    /// To say how answers are shown.
    Mode,
    /// To end.
    Quit,
}

/// The words, in the order in which help tells them.
pub const WORDS: [&str; 15] = [
    ".help", ".tables", ".schema", ".leaves", ".catalog", ".show", ".leaf", ".plan", ".dump",
    ".read", ".import", ".stats", ".timer", ".mode", ".quit",
];

/// The word of a line, if it is one of the shell's, and what stands behind it and its space.
pub fn read(line: &str) -> (Option<Word>, &str)
    ensures { (result.0, result.1.now) ≡ spec.read line.now }
{
    match cut(line, ' ') {
        Some((front, rest)) => (known_word(front), rest),
        None => (known_word(line), ""),
    }
}

fn known_word(text: &str) -> Option<Word>
    ensures { result ≡ spec.word_of text.now }
{
    match text {
        ".help" => Some(Word::Help),
        ".quit" => Some(Word::Quit),
        ".timer" => Some(Word::Timer),
        ".mode" => Some(Word::Mode),
        _ => telling_word(text),
    }
}

/// A word that tells of the database.
fn telling_word(text: &str) -> Option<Word>
    ensures { result ≡ spec.telling_word text.now }
{
    match text {
        ".tables" => Some(Word::Tables),
        ".schema" => Some(Word::Schema),
        ".leaves" => Some(Word::Leaves),
        ".catalog" => Some(Word::Catalog),
        ".stats" => Some(Word::Stats),
        _ => showing_word(text),
    }
}

/// A word that shows something by its name, or a plan.
fn showing_word(text: &str) -> Option<Word>
    ensures { result ≡ spec.showing_word text.now }
{
    match text {
        ".show" => Some(Word::Show),
        ".leaf" => Some(Word::Leaf),
        ".plan" => Some(Word::Plan),
        _ => filing_word(text),
    }
}

/// A word that answers a file's lines, inserts its rows, or writes what makes one.
fn filing_word(text: &str) -> Option<Word>
    ensures { result ≡ spec.filing_word text.now }
{
    match text {
        ".dump" => Some(Word::Dump),
        ".read" => Some(Word::Read),
        ".import" => Some(Word::Import),
        _ => None,
    }
}

/// The mode of this name.
pub fn mode_named(name: &str) -> Option<Mode>
    ensures { result ≡ spec.mode_named name.now }
{
    match name {
        "tabs" => Some(Mode::Tabs),
        "columns" => Some(Mode::Columns),
        "csv" => Some(Mode::Csv),
        "json" => Some(Mode::Json),
        _ => None,
    }
}

/// Whether a word says on or off.
pub fn switch_named(name: &str) -> Option<bool>
    ensures { result ≡ spec.switch_named name.now }
{
    match name {
        "on" => Some(true),
        "off" => Some(false),
        _ => None,
    }
}
