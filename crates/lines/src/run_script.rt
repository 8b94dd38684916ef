//! The lines of a script of many sessions, and what each session is to do.

ghost use Rattle.std.specs.Prelude.{◌≡◌, ◌∷◌, ◌++◌, [], ℕ, List, Some, None, map, IfOk, OnOk};
ghost use Rattle.lines.specs.Cut as split;
ghost use Rattle.lines.specs.Script.{lines_of};
ghost use Rattle.lines.specs.RunScript.{Given, first_malformed, part_of, reading_of, reading_of_line, reading_of_words, session_in, sessions_given, sessions_of};

use crate::cut::cut;
use crate::play_script::is_name;
use crate::script::ScriptFault;
use indexmap::IndexMap;
use std::alloc::Global;
use terms::memory::Memory;

/// The commands of one session, in the order of its lines.
#[derive(Drop)]
pub struct Part<'a> {
    pub session: &'a str,
    pub commands: Vec<&'a str>,
}

/// What one line says.
#[derive(Clone, Copy)]
pub enum Line<'a> {
    PassedOver,
    /// A session's name, and a command for it.
    Gives(&'a str, &'a str),
    Malformed,
}

/// The sessions of a script, in the order in which they first appear.
pub fn parts<'a>(alloc: Global, script: &'a [u8]) -> Result<Vec<Part<'a>>, ScriptFault>
    ensures parts { IfOk result (λ parts. map part_of parts.items ≡ sessions_of (lines_of script.entry.now)) }
    ensures all_read { OnOk result (first_malformed (lines_of script.entry.now) ≡ None) }
    ensures malformed { (line : ℕ) → result ≡ Err (ScriptFault.Malformed line)
        → first_malformed (lines_of script.entry.now) ≡ Some line }
{
    let mut sessions = IndexMap::new(alloc);
    for (index, line) in script.split(|byte| *byte == b'\n').enumerate() {
        match read_line(line) {
            Line::PassedOver => {}
            Line::Gives(session, command) => give(alloc, &mut sessions, session, command)?,
            Line::Malformed => return Err(ScriptFault::Malformed { line: index + 1 }),
        }
    }
    Ok(in_parts(alloc, sessions)?)
}

/// Puts a command behind those of its session, or begins that session with it.
fn give<'a>(
    alloc: Global,
    sessions: &mut IndexMap<&'a str, Vec<&'a str>>,
    session: &'a str,
    command: &'a str,
) -> Result<(), Memory>
    ensures { (given : List Given) → map session_in sessions.old.entries ≡ sessions_given given → OnOk result (map session_in sessions.new.entries ≡ sessions_given (given ++ (session.entry.now, command.entry.now) ∷ [])) }
{
    if let Some(commands) = sessions.get_mut(session) {
        commands.push(command)?;
        return Ok(());
    }
    let mut begun = Vec::new(alloc);
    begun.push(command)?;
    sessions.insert(session, begun)?;
    Ok(())
}

/// The sessions, each as a part.
fn in_parts<'a>(
    alloc: Global,
    sessions: IndexMap<&'a str, Vec<&'a str>>,
) -> Result<Vec<Part<'a>>, Memory>
    ensures { IfOk result (λ parts. map part_of parts.items ≡ map session_in sessions.entry.entries) }
{
    let mut parts = Vec::new(alloc);
    for (session, commands) in sessions {
        parts.push(Part { session, commands })?;
    }
    Ok(parts)
}

/// What a line says, which is given without its line feed.
pub fn read_line(line: &[u8]) -> Line<'_>
    ensures { reading_of_line result ≡ reading_of line.now }
{
    let Ok(text) = str::from_utf8(line) else {
        return Line::Malformed;
    };
    match line.first() {
        None | Some(b'#') => Line::PassedOver,
        Some(_) => read_words(text),
    }
}

/// A line of text that is not empty and no comment.
fn read_words(text: &str) -> Line<'_>
    ensures { reading_of_line result ≡ reading_of_words (split.cut 32 text.now) }
{
    match cut(text, ' ') {
        Some((session, command)) if is_name(session) && !command.is_empty() => {
            Line::Gives(session, command)
        }
        _ => Line::Malformed,
    }
}
