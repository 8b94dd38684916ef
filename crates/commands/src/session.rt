//! A session: what a person types is answered at once.

ghost use Rattle.std.specs.Prelude.{◌≡◌, IfErr, IfOk, OnOk, map};
ghost use Rattle.std.specs.Str.{IsUtf8};
ghost use Rattle.catalog.specs.Relation.{catalogue_of};
ghost use Rattle.commands.specs.Session.{IsOfSession, RunsSession, Talks};
ghost use Rattle.commands.specs.Session as spec;
ghost use Rattle.databases.specs.Solo.{IsOfRun};

use crate::session_word::{State, Turn, take_item, take_plan, take_word, tell};
use crate::texts::OpensText;
use crate::typed::{Typed, first_of, is_whole, next_line};
use catalog::catalogue::Catalog;
use catalog::chain::Chain;
use databases::catalog_files::ChainFault;
use databases::database::Database;
use databases::opener::Opens;
use forms::mode::Mode;
use lines::explaining::explain_text;
use lines::fault::ProgramFault;
use lines::script::Item;
use lines::written::write_text;
use meaning::statement::Statement;
use reader::command::Command;
use reader::read::read;
use std::alloc::Global;
use std::io;
use std::io::{BufRead, Read, Write};
use std::time::{Clock, Instant};
use world::laws::{chain_is_listed, list_served_is_serial, moves_follow};

/// What a session begins with.
const GREETING: &str =
    "fragdb 0.1.0, a relational database in fragments; .help tells what can be typed\n";

/// Answers what is typed, line by line, over a new database of this chain, until the input ends or the end is asked for. What is
/// wrong with a line is told to `errors`, and costs that line alone. `names` are what the catalogues are called.
pub fn session<
    'a,
    B: Database + Drop,
    O: Opens<B>,
    K: Clock + OpensText<T>,
    T: Read + Drop,
    R: BufRead,
    W: Write,
    E: Write,
>(
    alloc: Global,
    opener: &O,
    host: &K,
    mode: Mode,
    chain: &Chain,
    names: &[&str],
    file: &'a str,
    input: &mut R,
    output: &mut W,
    errors: &mut E,
) -> Result<(), ChainFault<'a>>
    ensures { RunsSession B.seen O.origin file.entry (W.contents output.old) (W.contents output.new) (map catalogue_of chain.now) result }
{
    chain_is_listed(chain);
    list_served_is_serial();
    let found = opener.found(alloc, world::chain::first_of(chain))?;
    let mut database = opener.open(alloc, chain)?;
    moves_follow(database.catalog());
    let mut state = State::new(alloc, mode, names);
    talk(
        alloc,
        host,
        found.as_str(),
        &mut database,
        &mut state,
        file,
        input,
        output,
        errors,
    )?;
    Ok(())
}

/// Greets, tells what was found, and answers line by line.
fn talk<'a, B: Database, K: Clock + OpensText<T>, T: Read + Drop, R: BufRead, W: Write, E: Write>(
    alloc: Global,
    host: &K,
    found: &str,
    database: &mut B,
    state: &mut State<'_>,
    file: &'a str,
    input: &mut R,
    output: &mut W,
    errors: &mut E,
) -> Result<(), ProgramFault<'a>>
    ensures ok { OnOk result (Talks B.seen (W.contents output.old) (W.contents output.new) database.old database.new) }
    ensures err { IfErr result (IsOfSession file.entry) }
{
    write_text(output, GREETING)?;
    tell(errors, found);
    for number in 0..u64::MAX {
        let _ = number;
        let turn = take_turn(alloc, host, database, state, file, input, output, errors)?;
        if turn == Turn::Ends {
            return Ok(());
        }
    }
    Ok(())
}

/// Asks for a line, and answers it.
fn take_turn<
    'a,
    B: Database,
    K: Clock + OpensText<T>,
    T: Read + Drop,
    R: BufRead,
    W: Write,
    E: Write,
>(
    alloc: Global,
    host: &K,
    database: &mut B,
    state: &mut State<'_>,
    file: &'a str,
    input: &mut R,
    output: &mut W,
    errors: &mut E,
) -> Result<Turn, ProgramFault<'a>>
    ensures ok { OnOk result (Talks B.seen (W.contents output.old) (W.contents output.new) database.old database.new) }
    ensures err { IfErr result (IsOfSession file.entry) }
{
    write_text(output, prompt(!state.typed.is_empty(), database.is_open()))?;
    match next_line(alloc, file, input)? {
        Typed::Line(line) => {
            let begun = Instant::now(host);
            let turn = take_bytes(
                alloc,
                host,
                database,
                state,
                line.as_slice(),
                output,
                errors,
            )?;
            if turn == Turn::Answered && state.is_timed {
                tell_time(alloc, host, begun, errors);
            }
            Ok(turn)
        }
        Typed::Dropped => {
            state.typed.clear();
            write_text(output, "\n")?;
            Ok(Turn::GoesOn)
        }
        Typed::End => {
            write_text(output, "\n")?;
            Ok(Turn::Ends)
        }
    }
}

/// What asks for a line.
fn prompt(is_more: bool, is_open: bool) -> &'static str
    ensures { result.now ≡ spec.prompt_text is_more is_open }
{
    if is_more {
        "   ...> "
    } else if is_open {
        "fragdb*> "
    } else {
        "fragdb> "
    }
}

/// Tells how long an answer took, if the clock could be read.
fn tell_time<K: Clock, E: Write>(
    alloc: Global,
    host: &K,
    begun: io::Result<Instant>,
    errors: &mut E,
) {
    if let Ok(begun) = begun
        && let Ok(took) = begun.elapsed(host)
        && let Ok(text) = format!(in alloc;
            "time {}.{:06} s\n",
            took.as_secs(),
            took.subsec_micros()
        )
    {
        tell(errors, text.as_str());
    }
}

/// Answers a line, which is given without its end. One that is no text changes nothing.
fn take_bytes<'a, B: Database, K: OpensText<T>, T: Read + Drop, W: Write, E: Write>(
    alloc: Global,
    host: &K,
    database: &mut B,
    state: &mut State<'_>,
    line: &[u8],
    output: &mut W,
    errors: &mut E,
) -> Result<Turn, ProgramFault<'a>>
    ensures ok { OnOk result (Talks B.seen (W.contents output.old) (W.contents output.new) database.old database.new) }
    ensures malformed { ¬ (IsUtf8 line.now) → IfOk result (λ turn. (turn ≡ Turn.GoesOn) × (database.new ≡ database.old) × (W.contents output.new ≡ W.contents output.old)) }
    ensures err { IfErr result IsOfRun }
{
    match str::from_utf8(line) {
        Ok(text) => take_line(
            alloc,
            host,
            database,
            state,
            text.trim_ascii_end(),
            output,
            errors,
        ),
        Err(_) => {
            tell(errors, "the line is no UTF-8\n");
            Ok(Turn::GoesOn)
        }
    }
}

/// Answers a line, or keeps it where it begins a statement that isn't whole.
fn take_line<'a, B: Database, K: OpensText<T>, T: Read + Drop, W: Write, E: Write>(
    alloc: Global,
    host: &K,
    database: &mut B,
    state: &mut State<'_>,
    line: &str,
    output: &mut W,
    errors: &mut E,
) -> Result<Turn, ProgramFault<'a>>
    ensures ok { OnOk result (Talks B.seen (W.contents output.old) (W.contents output.new) database.old database.new) }
    ensures err { IfErr result IsOfRun }
{
    if state.typed.is_empty() {
        match line.as_bytes().first() {
            None | Some(b'#') => Ok(Turn::GoesOn),
            Some(b'.') => take_word(alloc, host, database, state, line, output, errors),
            Some(_) => match explained(line) {
                Some(statement) => take_plan(alloc, database, statement, output, errors),
                None => take_parts(alloc, database, state, line, output, errors),
            },
        }
    } else {
        state.typed.push('\n')?;
        take_parts(alloc, database, state, line, output, errors)
    }
}

/// The statement behind the word EXPLAIN, without a semicolon at its end, where a line begins with that word.
fn explained(line: &str) -> Option<&str> {
    let (word, statement) = line.split_once(' ')?;
    if word.eq_ignore_ascii_case("explain") {
        Some(statement.trim_end_matches(';').trim_ascii())
    } else {
        None
    }
}

/// Answers the statements of a line, one after another. The last one is kept where it isn't whole.
fn take_parts<'a, B: Database, W: Write, E: Write>(
    alloc: Global,
    database: &mut B,
    state: &mut State<'_>,
    line: &str,
    output: &mut W,
    errors: &mut E,
) -> Result<Turn, ProgramFault<'a>>
    ensures ok { OnOk result (Talks B.seen (W.contents output.old) (W.contents output.new) database.old database.new) }
    ensures err { IfErr result IsOfRun }
{
    match first_of(line) {
        Some((first, rest)) => {
            take_part(alloc, database, state, first, output, errors)?;
            take_parts(alloc, database, state, rest, output, errors)
        }
        None => take_part(alloc, database, state, line, output, errors),
    }
}

/// Answers the statement that has been typed with this line, if it is whole. An empty line ends one too.
fn take_part<'a, B: Database, W: Write, E: Write>(
    alloc: Global,
    database: &mut B,
    state: &mut State<'_>,
    line: &str,
    output: &mut W,
    errors: &mut E,
) -> Result<Turn, ProgramFault<'a>>
    ensures ok { OnOk result (Talks B.seen (W.contents output.old) (W.contents output.new) database.old database.new) }
    ensures err { IfErr result IsOfRun }
{
    state.typed.push_str(line)?;
    let ends = line.is_empty()
        || is_whole(alloc, database.catalog().schema(), state.typed.as_str())?;
    if !ends {
        return Ok(Turn::GoesOn);
    }
    let was_open = database.is_open();
    let is_refused = take_item(
        alloc,
        state.mode,
        database,
        Item::Statement(state.typed.as_str()),
        output,
    )?;
    state.stats = state.stats.with_answer(is_refused);
    if is_refused {
        explain_answer(alloc, database, was_open, state.typed.as_str(), errors);
    }
    state.typed.clear();
    Ok(Turn::Answered)
}

/// Explains why a text was refused: for what it says, or since a transaction was open, or none was, or no catalogue gives its relation
/// another split next. Nothing is claimed of what stands on the standard error.
fn explain_answer<B: Database, E: Write>(
    alloc: Global,
    database: &B,
    was_open: bool,
    text: &str,
    errors: &mut E,
) {
    let schema = database.catalog().schema();
    let _ = explain_text(alloc, schema, text, errors);
    match read(alloc, text, schema) {
        Ok(command) => {
            explain_command(&command, was_open, database.later(), errors);
            drop(command);
        }
        Err(_) => tell_word(text, errors),
    }
}

/// Explains why a command that can be read was refused, before catalogues that come later.
fn explain_command<E: Write>(command: &Command, was_open: bool, later: &[Catalog], errors: &mut E) {
    match command {
        Command::Begin | Command::Run(Statement::Refragment(_)) if was_open => {
            tell(
                errors,
                "a transaction is open; COMMIT or ROLLBACK ends it\n",
            );
        }
        Command::Run(Statement::Refragment(_)) => tell_no_next(later, errors),
        Command::Commit | Command::Rollback if !was_open => {
            tell(errors, "no transaction is open; BEGIN begins one\n");
        }
        _ => {}
    }
}

/// Tells why a relation gets no other split.
fn tell_no_next<E: Write>(later: &[Catalog], errors: &mut E) {
    let text = if later.is_empty() {
        "no catalogue comes after the one in force, so each relation stays as it is split\n"
    } else {
        "the catalogue that comes next splits another relation\n"
    };
    tell(errors, text);
}

/// Tells the shell's word for what other shells take without a dot.
fn tell_word<E: Write>(text: &str, errors: &mut E) {
    match text.trim_end_matches(';') {
        "exit" | "quit" => tell(errors, ".quit ends the session\n"),
        "help" => tell(errors, ".help tells what can be typed\n"),
        _ => {}
    }
}
