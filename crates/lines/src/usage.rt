//! The words of the command line.

ghost use Rattle.std.specs.Prelude.{true, is_none, ◌≡◌, ◌≢◌, ◌≤◌, ◌<◌, ◌⊎◌, ◌∷◌, [], IfErr, IfOk, IfSome, IsOkAnd, List, Some, bytes_eq, codes, length, map, option_map};
ghost use Rattle.std.specs.Io.KnownBytes.{Keeps};
ghost use Rattle.std.specs.List.{AllByRecursion};
ghost use Rattle.std.specs.IoError.{error_kind};
ghost use Rattle.clap.specs.Matches.{first_value};
ghost use Rattle.clap.specs.Words.{Text, app_of, found_of, kind_of, subcommand_of, subcommand_rows_of};
ghost use Rattle.lines.specs.Grammar.{usage};
ghost use Rattle.lines.specs.NextFiles.{Gives};
ghost use Rattle.lines.specs.Usage.{Asks, AsksFor, AsksForInput, IsMisuse, IsNoNumber, asked, asked_dump, asked_sessions, flags_of, flags_of_mode, is_columns, is_csv, is_interactive, is_json, mode_of_flags, retry_of, script_of, stores_in, usage_status};
ghost use Rattle.lines.specs.Usage as spec;

use crate::fault::ProgramFault;
use crate::grammar::command;
use crate::help::{NO_RELATION, NO_SCRIPT, TWO_MODES};
use crate::next_files::next_given;
use crate::outcome::{Outcome, Status, exit};
use crate::play_script::number;
use crate::transfer::{Dump, Import, Suggest, import_given, suggest_given};
use clap::error::ErrorKind;
use clap::{ArgMatches, Command, Error};
use forms::mode::Mode;
use std::alloc::{AllocError, Global};
use std::convert::AsStr;
use std::io;
use std::io::{ErrorKind as IoErrorKind, Write};

/// How often a statement may be run again.
const RETRY_LIMIT: u64 = 1_000_000;

/// What the command line asks for, and the catalogues that come after the first: names of files, in their order, at most 15.
#[derive(Drop)]
pub struct Given<'a> {
    pub asked: Asked<'a>,
    pub next: Vec<&'a str>,
}

/// What the command line asks for.
#[derive(Clone, Copy)]
pub enum Asked<'a> {
    /// What one client does, or none.
    Alone(Request<'a>),
    /// To run the sessions of a script.
    Sessions(Sessions<'a>),
    /// To write a database as statements.
    Dump(Dump<'a>),
    /// To insert the rows of a file.
    Import(Import<'a>),
    /// To suggest a catalogue for a file.
    Suggest(Suggest<'a>),
}

/// A script of sessions to run, a file's name, or `-` for standard input, over a database of this catalogue, a
/// file's name, or over one of the built-in catalogue.
#[derive(Clone, Copy)]
pub struct Sessions<'a> {
    pub catalog: Option<&'a str>,
    pub script: &'a str,
    /// Whether its stores are to be in SQLite, in memory.
    pub sqlite: bool,
    /// The folder of its stores, which are files of SQLite then.
    pub dir: Option<&'a str>,
    /// How often a statement outside BEGIN is run again after an abort, at most.
    pub retry: u32,
}

impl<'a> Sessions<'a> {
    /// Where the stores of its database are.
    pub fn stores(&self) -> Stores<'a>
        ensures { result ≡ stores_in self.now.sqlite self.now.dir }
    {
        match (self.sqlite, self.dir) {
            (_, Some(dir)) => Stores::Folder(dir),
            (true, None) => Stores::InMemory,
            (false, None) => Stores::Lists,
        }
    }

    /// Whether its script is read from standard input.
    pub fn is_of_input(&self) -> bool
        ensures { result ≡ bytes_eq self.now.script.now (codes "-") }
    {
        self.script == "-"
    }
}

/// What one client is to do, or what is to be told.
#[derive(Clone, Copy)]
pub enum Request<'a> {
    /// To run this script, a file's name, or `-` for standard input, over a database of this catalogue, a
    /// file's name, or over one of the built-in catalogue.
    Solo {
        catalog: Option<&'a str>,
        script: &'a str,
        /// Whether it is to be explained why lines are refused.
        explain: bool,
        /// Whether each line is to be asked for and answered at once, wherever it comes from.
        interactive: bool,
        /// How answers are shown.
        mode: Mode,
        /// Whether its stores are to be in SQLite, in memory.
        sqlite: bool,
        /// The folder of its stores, which are files of SQLite then.
        dir: Option<&'a str>,
    },
    /// To check this catalogue, a file's name.
    Check {
        catalog: &'a str,
        /// Whether it is to be explained why it is refused.
        explain: bool,
        /// Whether its fragments are shown as trees.
        tree: bool,
    },
    /// To plan this statement over the relations of this catalogue, a file's name.
    Plan {
        catalog: &'a str,
        statement: &'a str,
        /// Whether the plan is shown as a tree.
        tree: bool,
    },
    /// To play this script of schedules, a file's name, or `-` for standard input, over a world of this
    /// catalogue, a file's name, or over one of the built-in catalogue.
    Play {
        catalog: Option<&'a str>,
        script: &'a str,
        /// Whether its stores are to be in SQLite, in memory.
        sqlite: bool,
    },
}

/// Where the stores of a database are.
#[derive(Clone, Copy)]
pub enum Stores<'a> {
    /// In lists, which are gone at the end.
    Lists,
    /// In SQLite, in memory.
    InMemory,
    /// In SQLite, in the files of this folder.
    Folder(&'a str),
}

/// What the words ask for, of which the first names the program. With no other word that is `solo -`. At a terminal
/// the script may be left out.
pub fn read_words<'a, S: AsStr>(
    alloc: Global,
    words: &'a [S],
    is_at_terminal: bool,
) -> Result<Given<'a>, Error>
    ensures alone { length words.entry.now ≤ 1 → IsOkAnd result (λ given. AsksForInput given.asked × (given.next.items ≡ [])) }
    ensures given { IfOk result (λ given. 1 < length words.entry.now → Gives (map S.text words.entry.now) is_at_terminal given) }
{
    if words.len() <= 1 {
        return Ok(Given {
            asked: Asked::Alone(Request::Solo {
                catalog: None,
                script: "-",
                explain: false,
                interactive: false,
                mode: Mode::Tabs,
                sqlite: false,
                dir: None,
            }),
            next: Vec::new(alloc),
        });
    }
    read_given(alloc, words, is_at_terminal)
}

/// What the words ask for, of which the first names the program.
fn read_given<'a, S: AsStr>(
    alloc: Global,
    words: &'a [S],
    is_at_terminal: bool,
) -> Result<Given<'a>, Error>
    ensures { IfOk result (λ given. Gives (map S.text words.entry.now) is_at_terminal given) }
{
    let mut command = command(alloc)?;
    let given = given_to(alloc, &mut command, words, is_at_terminal);
    drop(command);
    given
}

/// What the words ask this command for.
fn given_to<'a, S: AsStr>(
    alloc: Global,
    command: &mut Command<'a>,
    words: &'a [S],
    is_at_terminal: bool,
) -> Result<Given<'a>, Error>
    ensures { app_of command.old ≡ usage → IfOk result (λ given. Gives (map S.text words.entry.now) is_at_terminal given) }
{
    let matches = command.try_get_matches_from_mut(words)?;
    let given = given_in(alloc, command, &matches, is_at_terminal);
    drop(matches);
    given
}

/// What these matches ask for, and the files that they name.
fn given_in<'a>(
    alloc: Global,
    command: &mut Command<'_>,
    matches: &ArgMatches<'a>,
    is_at_terminal: bool,
) -> Result<Given<'a>, Error>
    ensures { (words : List Text) → subcommand_rows_of matches.entry.now ≡ subcommand_of usage words → IfOk result (λ given. Gives words is_at_terminal given) }
{
    let next = next_given(alloc, command, matches)?;
    let asked = asked_given(alloc, command, matches, is_at_terminal)?;
    Ok(Given { asked, next })
}

/// What these matches ask for.
fn asked_given<'a>(
    alloc: Global,
    command: &mut Command<'_>,
    matches: &ArgMatches<'a>,
    is_at_terminal: bool,
) -> Result<Asked<'a>, Error>
    ensures { (words : List Text) → subcommand_rows_of matches.entry.now ≡ subcommand_of usage words → IfOk result (λ asked. AsksFor words is_at_terminal asked) }
{
    if let Some(("run", run)) = matches.subcommand()
        && let Some(script) = run.get_str("SCRIPT")
    {
        let sessions = sessions_given(alloc, command, run, script)?;
        return Ok(Asked::Sessions(sessions));
    }
    if let Some(("dump", dump)) = matches.subcommand() {
        let dump = dump_given(command, dump)?;
        return Ok(Asked::Dump(dump));
    }
    if let Some(("import", import)) = matches.subcommand()
        && let Some(relation) = import.get_str("RELATION")
        && let Some(file) = import.get_str("FILE")
    {
        let import = import_given(alloc, command, import, relation, file)?;
        return Ok(Asked::Import(import));
    }
    if let Some(("suggest", suggest)) = matches.subcommand()
        && let Some(file) = suggest.get_str("FILE")
        && let Some(key) = suggest.get_str("KEY")
        && let Some(rows) = suggest.get_str("COLUMN")
    {
        let suggest = suggest_given(alloc, command, suggest, file, key, rows)?;
        return Ok(Asked::Suggest(suggest));
    }
    let request = request_given(command, matches, is_at_terminal)?;
    Ok(Asked::Alone(request))
}

/// What these matches ask for, which are of no sessions.
fn request_given<'a>(
    command: &mut Command<'_>,
    matches: &ArgMatches<'a>,
    is_at_terminal: bool,
) -> Result<Request<'a>, Error>
    ensures { (words : List Text) → subcommand_rows_of matches.entry.now ≡ subcommand_of usage words → IfOk result (λ request. Asks words is_at_terminal request) }
{
    if let Some(("solo", solo)) = matches.subcommand() {
        return solo_given(command, solo, is_at_terminal);
    }
    if let Some(("check", check)) = matches.subcommand()
        && let Some(catalog) = check.get_str("CATALOG")
    {
        let explain = is_set(check.get_str("EXPLAIN"));
        let tree = is_set(check.get_str("TREE"));
        return Ok(Request::Check {
            catalog,
            explain,
            tree,
        });
    }
    if let Some(("plan", plan)) = matches.subcommand()
        && let Some(catalog) = plan.get_str("CATALOG")
        && let Some(statement) = plan.get_str("STATEMENT")
    {
        let tree = is_set(plan.get_str("TREE"));
        return Ok(Request::Plan {
            catalog,
            statement,
            tree,
        });
    }
    if let Some(("play", play)) = matches.subcommand()
        && let Some(script) = play.get_str("SCRIPT")
    {
        let catalog = play.get_str("CATALOG");
        let sqlite = is_set(play.get_str("SQLITE"));
        return Ok(Request::Play {
            catalog,
            script,
            sqlite,
        });
    }
    Err(command.error(ErrorKind::MissingSubcommand, "a command is missing")?)
}

/// What the words after `dump` ask for. Rows are shown of one relation alone.
fn dump_given<'a>(command: &mut Command<'_>, dump: &ArgMatches<'a>) -> Result<Dump<'a>, Error>
    ensures asks { IfOk result (λ asked. asked_dump asked ≡ (codes "dump", (codes "CATALOG", first_value (found_of dump.entry.now) (codes "CATALOG")) ∷ (codes "RELATION", first_value (found_of dump.entry.now) (codes "RELATION")) ∷ (codes "DIR", first_value (found_of dump.entry.now) (codes "DIR")) ∷ [])) }
    ensures flags { IfOk result (λ asked. AllByRecursion (λ flag. spec.is_set (first_value (found_of dump.entry.now) flag.0) ≡ flag.1) (flags_of_mode asked.mode)) }
    ensures named { IfOk result (λ asked. is_none asked.relation ≡ true → asked.mode ≡ Mode.Tabs) }
{
    let Some(mode) = mode_given(dump) else {
        return Err(command.error(ErrorKind::ArgumentConflict, TWO_MODES)?);
    };
    let relation = dump.get_str("RELATION");
    if relation.is_none() && !is_plain(mode) {
        return Err(command.error(ErrorKind::MissingRequiredArgument, NO_RELATION)?);
    }
    Ok(Dump {
        catalog: dump.get_str("CATALOG"),
        relation,
        dir: dump.get_str("DIR"),
        mode,
    })
}

/// Whether no form of rows is asked for.
fn is_plain(mode: Mode) -> bool
    ensures { result ≡ true → mode ≡ Mode.Tabs }
{
    matches!(mode, Mode::Tabs)
}

/// What the words after `run` ask for, which name this script.
fn sessions_given<'a>(
    alloc: Global,
    command: &mut Command<'_>,
    run: &ArgMatches<'a>,
    script: &'a str,
) -> Result<Sessions<'a>, Error>
    ensures asks { IfOk result (λ sessions. asked_sessions sessions ≡ (codes "run", (codes "CATALOG", first_value (found_of run.entry.now) (codes "CATALOG")) ∷ (codes "SCRIPT", Some script.entry.now) ∷ (codes "DIR", first_value (found_of run.entry.now) (codes "DIR")) ∷ [])) }
    ensures sqlite { IfOk result (λ sessions. spec.is_set (first_value (found_of run.entry.now) (codes "SQLITE")) ≡ sessions.sqlite) }
    ensures retry { IfOk result (λ sessions. retry_of (first_value (found_of run.entry.now) (codes "N")) ≡ Some sessions.retry) }
    ensures misuse { IfErr result (λ error. IsNoNumber (found_of run.entry.now) (kind_of error)) }
{
    let word = run.get_str("N");
    let Some(retry) = retry_given(word) else {
        return Err(no_number(alloc, command, word)?);
    };
    Ok(Sessions {
        catalog: run.get_str("CATALOG"),
        script,
        sqlite: is_set(run.get_str("SQLITE")),
        dir: run.get_str("DIR"),
        retry,
    })
}

/// How often a statement is run again, by the word for it; never, where there is none.
fn retry_given(word: Option<&str>) -> Option<u32>
    ensures { result ≡ retry_of (option_map (λ word. word.now) word.entry) }
{
    let Some(word) = word else {
        return Some(0);
    };
    let retry = number(word)?;
    if retry <= RETRY_LIMIT {
        Some(retry as u32)
    } else {
        None
    }
}

/// The fault of a word that is no number of retries.
fn no_number(
    alloc: Global,
    command: &mut Command<'_>,
    word: Option<&str>,
) -> Result<Error, AllocError>
    ensures { IfOk result (λ error. kind_of error ≡ ErrorKind.InvalidValue) }
{
    let word = word.unwrap_or("");
    let message = format!(in alloc;
        "invalid value '{word}' for '--retry <N>': not a number from 0 to {RETRY_LIMIT}"
    )?;
    command.error(ErrorKind::InvalidValue, message.as_str())
}

/// What the words after `solo` ask for.
fn solo_given<'a>(
    command: &mut Command<'_>,
    solo: &ArgMatches<'a>,
    is_at_terminal: bool,
) -> Result<Request<'a>, Error>
    ensures asks { IfOk result (λ request. asked request ≡ (codes "solo", (codes "CATALOG", first_value (found_of solo.entry.now) (codes "CATALOG")) ∷ (codes "SCRIPT", script_of (first_value (found_of solo.entry.now) (codes "SCRIPT")) (is_interactive request) is_at_terminal) ∷ (codes "DIR", first_value (found_of solo.entry.now) (codes "DIR")) ∷ [])) }
    ensures flags { IfOk result (λ request. AllByRecursion (λ flag. spec.is_set (first_value (found_of solo.entry.now) flag.0) ≡ flag.1) (flags_of request)) }
    ensures misuse { IfErr result (λ error. IsMisuse (found_of solo.entry.now) is_at_terminal (kind_of error)) }
{
    let interactive = is_set(solo.get_str("INTERACTIVE"));
    let Some(script) = script_given(solo, interactive, is_at_terminal) else {
        return Err(command.error(ErrorKind::MissingRequiredArgument, NO_SCRIPT)?);
    };
    let Some(mode) = mode_given(solo) else {
        return Err(command.error(ErrorKind::ArgumentConflict, TWO_MODES)?);
    };
    Ok(Request::Solo {
        catalog: solo.get_str("CATALOG"),
        script,
        explain: is_set(solo.get_str("EXPLAIN")),
        interactive,
        mode,
        sqlite: is_set(solo.get_str("SQLITE")),
        dir: solo.get_str("DIR"),
    })
}

/// The script that the words after `solo` name. Where each line is to be asked for, it may be left out, and is standard
/// input then.
fn script_given<'a>(
    solo: &ArgMatches<'a>,
    interactive: bool,
    is_at_terminal: bool,
) -> Option<&'a str>
    ensures { option_map (λ script. script.now) result ≡ script_of (first_value (found_of solo.entry.now) (codes "SCRIPT")) interactive is_at_terminal }
{
    match solo.get_str("SCRIPT") {
        Some(script) => Some(script),
        None if interactive || is_at_terminal => Some("-"),
        None => None,
    }
}

/// How answers are to be shown, unless the words after `solo` ask for two ways.
fn mode_given(solo: &ArgMatches<'_>) -> Option<Mode>
    ensures mode { result ≡ mode_of_flags (spec.is_set (first_value (found_of solo.now) (codes "COLUMNS"))) (spec.is_set (first_value (found_of solo.now) (codes "CSV"))) (spec.is_set (first_value (found_of solo.now) (codes "JSON"))) }
    ensures columns { IfSome result (λ mode. is_columns mode ≡ spec.is_set (first_value (found_of solo.now) (codes "COLUMNS"))) }
    ensures csv { IfSome result (λ mode. is_csv mode ≡ spec.is_set (first_value (found_of solo.now) (codes "CSV"))) }
    ensures json { IfSome result (λ mode. is_json mode ≡ spec.is_set (first_value (found_of solo.now) (codes "JSON"))) }
{
    let columns = is_set(solo.get_str("COLUMNS"));
    let csv = is_set(solo.get_str("CSV"));
    let json = is_set(solo.get_str("JSON"));
    match (columns, csv, json) {
        (false, false, false) => Some(Mode::Tabs),
        (true, false, false) => Some(Mode::Columns),
        (false, true, false) => Some(Mode::Csv),
        (false, false, true) => Some(Mode::Json),
        _ => None,
    }
}

/// Whether a flag's value says that it is set.
fn is_set(value: Option<&str>) -> bool
    ensures { result ≡ spec.is_set (option_map (λ word. word.now) value.entry) }
{
    match value {
        Some(word) => word == "true",
        None => false,
    }
}

/// The fault of a command line that could not be read.
pub fn unreadable_words(alloc: Global, error: &io::Error) -> Error
    ensures memory { error_kind error.now ≡ IoErrorKind.OutOfMemory → kind_of result ≡ ErrorKind.OutOfMemory }
    ensures kind { (kind_of result ≡ ErrorKind.InvalidValue) ⊎ (kind_of result ≡ ErrorKind.OutOfMemory) }
{
    if error.kind() == IoErrorKind::OutOfMemory {
        return Error::from(AllocError);
    }
    not_text(alloc).unwrap_or_else(Error::from)
}

fn not_text(alloc: Global) -> Result<Error, AllocError>
    ensures { IfOk result (λ error. kind_of error ≡ ErrorKind.InvalidValue) }
{
    let message = "invalid UTF-8 was detected in one or more arguments";
    let mut command = command(alloc)?;
    let error = command.error(ErrorKind::InvalidValue, message);
    drop(command);
    error
}

/// Writes clap's text where it belongs, help to the output and a mistake to the errors, and answers the
/// exit status.
pub fn show_usage<W: Write, E: Write>(error: &Error, output: &mut W, errors: &mut E) -> Status
    ensures status { result ≡ usage_status (kind_of error.now) }
    ensures asked_for { result ≡ Status.Done → Keeps (E.contents errors.old) (E.contents errors.new) }
    ensures mistake { result ≢ Status.Done → Keeps (W.contents output.old) (W.contents output.new) }
{
    match error.kind() {
        ErrorKind::OutOfMemory => exit(errors, &Outcome::Stopped(ProgramFault::Memory)),
        ErrorKind::DisplayHelp | ErrorKind::DisplayVersion => {
            let _ = write!(output, "{error}").and_then(|()| output.flush());
            Status::Done
        }
        _ => {
            let _ = write!(errors, "{error}");
            Status::Usage
        }
    }
}
