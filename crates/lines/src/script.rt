//! The lines of a script, and what each of them asks for.

ghost use Rattle.std.specs.Prelude.{◌≡◌, ℕ, Some, None, map, IfOk, OnOk, option_map};
ghost use Rattle.lines.specs.Script as spec;
ghost use Rattle.lines.specs.Script.{argument_of, first_unreadable, lines_of, reading_of, reading_of_command, reading_of_line, task_of, tasks_of_lines};
ghost use Rattle.lines.specs.declared.script.ScriptFault.TheVariants.{Memory};

use std::alloc::{AllocFailed, Global};
use terms::memory::Memory as OutOfMemory;

/// One thing that a script asks for.
#[derive(Clone, Copy)]
pub enum Item<'a> {
    /// To execute a command: a statement, or one that begins or ends a transaction.
    Statement(&'a str),
    /// To show a relation.
    Show(&'a str),
    /// To show a leaf.
    Leaf(&'a str),
    /// To write a relation as statements that make it anew.
    Dump(&'a str),
    /// To tell of a leaf, and how many rows it has.
    Count(&'a str),
}

/// Why a script has no items.
#[derive(Clone, Copy)]
pub enum ScriptFault {
    /// This line, counted from 1, is the first that cannot be read.
    Malformed { line: usize },
    Memory,
}

impl<T: Drop> From<AllocFailed<T>> for ScriptFault {
    ghost from_gives = { λ _ fault. fault ≡ Memory };

    fn from(_error: AllocFailed<T>) -> ScriptFault {
        ScriptFault::Memory
    }
}

impl From<OutOfMemory> for ScriptFault {
    ghost from_gives = { λ _ fault. fault ≡ Memory };

    fn from(_error: OutOfMemory) -> ScriptFault {
        ScriptFault::Memory
    }
}

/// What one line says.
#[derive(Clone, Copy)]
pub enum Line<'a> {
    PassedOver,
    Asks(Item<'a>),
    Malformed,
}

/// The items of a script, in the order of its lines.
pub fn items<'a>(alloc: Global, script: &'a [u8]) -> Result<Vec<Item<'a>>, ScriptFault>
    ensures items { IfOk result (λ items. map task_of items.items ≡ tasks_of_lines (lines_of script.entry.now)) }
    ensures all_read { OnOk result (first_unreadable (lines_of script.entry.now) ≡ None) }
    ensures malformed { (line : ℕ) → result ≡ Err (ScriptFault.Malformed line)
        → first_unreadable (lines_of script.entry.now) ≡ Some line }
{
    let mut items = Vec::new(alloc);
    for (index, line) in script.split(|byte| *byte == b'\n').enumerate() {
        match read_line(line) {
            Line::PassedOver => {}
            Line::Asks(item) => items.push(item)?,
            Line::Malformed => return Err(ScriptFault::Malformed { line: index + 1 }),
        }
    }
    Ok(items)
}

/// What a line says, which is given without its line feed.
pub fn read_line(line: &[u8]) -> Line<'_>
    ensures { reading_of_line result ≡ reading_of line.now }
{
    let Ok(text) = str::from_utf8(line) else {
        return Line::Malformed;
    };
    match line.first() {
        None | Some(b'#') => Line::PassedOver,
        Some(b'.') => read_command(text),
        Some(_) => Line::Asks(Item::Statement(text)),
    }
}

/// A line that begins with a dot.
fn read_command(line: &str) -> Line<'_>
    ensures { reading_of_line result ≡ reading_of_command line.now }
{
    if let Some(relation) = argument(line, ".show ") {
        Line::Asks(Item::Show(relation))
    } else if let Some(leaf) = argument(line, ".leaf ") {
        Line::Asks(Item::Leaf(leaf))
    } else {
        Line::Malformed
    }
}

/// The word after a command, where the line is that command with one word.
fn argument<'a>(line: &'a str, command: &str) -> Option<&'a str>
    ensures { option_map (λ word. word.now) result ≡ argument_of line.entry.now command.now }
{
    let word = line.strip_prefix(command)?;
    if is_word(word) { Some(word) } else { None }
}

/// Whether the text is not empty and has no blank.
pub fn is_word(text: &str) -> bool
    ensures { result ≡ spec.is_word text.now }
{
    !text.is_empty()
        && !text
            .bytes()
            .any(|byte| matches!(byte, b' ' | b'\t' | b'\n' | b'\r'))
}
