//! A script that is named in a session.

ghost use Rattle.std.specs.Prelude.{IfErr, IfOk, OnOk};
ghost use Rattle.commands.specs.ScriptFile.{AnswersScript};
ghost use Rattle.commands.specs.Session.{Talks};
ghost use Rattle.databases.specs.Solo.{IsOfRun};

use crate::session_word::{Turn, tell};
use crate::texts::OpensText;
use databases::database::Database;
use databases::solo::{read_script, run_items};
use forms::mode::Mode;
use lines::fault::ProgramFault;
use lines::script::{ScriptFault, items};
use std::alloc::{AllocError, Global};
use std::io::{Read, Write};

/// Answers the lines of the script of this name, as `solo` answers them. Why it can't be read is told, and costs nothing but that.
pub fn take_script<'a, B: Database, K: OpensText<T>, T: Read + Drop, W: Write, E: Write>(
    alloc: Global,
    host: &K,
    mode: Mode,
    database: &mut B,
    name: &str,
    output: &mut W,
    errors: &mut E,
) -> Result<Turn, ProgramFault<'a>>
    ensures ok { OnOk result (Talks B.seen (W.contents output.old) (W.contents output.new) database.old database.new) }
    ensures err { IfErr result IsOfRun }
{
    match script_named(alloc, host, name) {
        Ok(script) => {
            let answered = answer_script(alloc, mode, database, script.as_slice(), output)?;
            tell_answered(alloc, name, answered, errors)?;
            Ok(Turn::Answered)
        }
        Err(ProgramFault::Memory) => Err(ProgramFault::Memory),
        Err(fault) => {
            let text = format!(in alloc; "{fault}\n")?;
            tell(errors, text.as_str());
            Ok(Turn::GoesOn)
        }
    }
}

/// The bytes of the script of this name.
fn script_named<'n, K: OpensText<T>, T: Read + Drop>(
    alloc: Global,
    host: &K,
    name: &'n str,
) -> Result<Vec<u8>, ProgramFault<'n>> {
    let text = host
        .open_text(name)
        .map_err(|error| ProgramFault::reading(name, &error))?;
    read_script(alloc, name, text)
}

/// What came of the lines of a script.
#[derive(Clone, Copy)]
pub enum Answered {
    /// All were answered, and whether one was refused.
    All { any_refused: bool },
    /// None was, as this line, counted from 1, is the first that can't be read.
    Malformed { line: usize },
}

/// Answers the lines of a script in their order, or none where one can't be read.
fn answer_script<'a, B: Database, W: Write>(
    alloc: Global,
    mode: Mode,
    database: &mut B,
    script: &[u8],
    output: &mut W,
) -> Result<Answered, ProgramFault<'a>>
    ensures clean { B.seen.is_clean database.new → B.seen.is_clean database.old }
    ensures ok { IfOk result (AnswersScript B.seen mode script.now (W.contents output.old) (W.contents output.new) database.old database.new) }
    ensures err { IfErr result IsOfRun }
{
    match items(alloc, script) {
        Ok(items) => {
            let any_refused = run_items(alloc, mode, database, items.as_slice(), output)?;
            Ok(Answered::All { any_refused })
        }
        Err(ScriptFault::Malformed { line }) => Ok(Answered::Malformed { line }),
        Err(ScriptFault::Memory) => Err(ProgramFault::Memory),
    }
}

/// Tells what is wrong with a script, if something is. Nothing is claimed of what stands on the standard error.
fn tell_answered<E: Write>(
    alloc: Global,
    name: &str,
    answered: Answered,
    errors: &mut E,
) -> Result<(), AllocError> {
    let text = match answered {
        Answered::All { any_refused: false } => return Ok(()),
        Answered::All { any_refused: true } => format!(in alloc; "{name}: a line was refused\n")?,
        Answered::Malformed { line } => format!(in alloc;
            "{name}: line {line} can't be read, so none was answered\n"
        )?,
    };
    tell(errors, text.as_str());
    Ok(())
}
