//! The shell's own commands in a session.

ghost use Rattle.std.specs.Prelude.{◌≡◌, ◌≢◌, ℕ, List, [], false, IfErr, IfOk, OnOk, string_bytes};
ghost use Rattle.catalog.specs.Relation.{catalogue_of};
ghost use Rattle.commands.specs.Session.{Talks};
ghost use Rattle.databases.specs.Solo.{IsOfRun};

use crate::catalog_word::take_catalog;
use crate::dump::take_dump;
use crate::import_word::{Asked, take_import};
use crate::leaves::take_leaves;
use crate::misuse::{tell_no_relation, tell_unknown, tell_wanted};
use crate::script_file::take_script;
use crate::stats::{Stats, stats_text};
use crate::texts::OpensText;
use databases::database::Database;
use forms::mode::Mode;
use lines::dot::{Word, mode_named, read, switch_named};
use lines::explaining::explain_fault;
use lines::fault::ProgramFault;
use lines::listing::{schema_text, tables_text};
use lines::plan_text::{PlanFault, plan_typed};
use lines::script::{Item, is_word};
use lines::written::write_text;
use meaning::schema::Schema;
use reader::fault::ReadFault;
use std::alloc::Global;
use std::io::{Read, Write};
use terms::memory::Memory;

/// What help tells.
const HELP: &str =
    "A statement, BEGIN, COMMIT or ROLLBACK ends with its line where it is whole, or at a semicolon.
.help               this text
.tables             the relations
.schema [RELATION]  their columns
.leaves [RELATION]  their fragments, with sites, columns, conditions and rows
.catalog            which catalogue is in force, of how many
.show RELATION      the rows of a relation, rebuilt
.leaf LEAF          the rows of a fragment
.plan STATEMENT     which fragments a statement reads; EXPLAIN tells it too
.dump [RELATION]    statements that make the rows of relations anew
.read FILE          answers the lines of a script
.import FILE RELATION [ROWS]
                    inserts the rows of a CSV file, so many in a transaction
.stats              what this session has done, and what that cost
.timer on|off       tells how long each answer takes
.mode MODE          shows answers in tabs, columns, csv or json
.quit               the end, as Ctrl-D
rlwrap fragdb has a history, and lines that can be edited.
";

/// What a session keeps besides its database.
#[derive(Drop)]
pub struct State<'n> {
    /// What the catalogues are called, in their order.
    pub names: &'n [&'n str],
    /// How answers are shown.
    pub mode: Mode,
    /// Whether it is told how long answers take.
    pub is_timed: bool,
    /// What was stated so far.
    pub stats: Stats,
    /// The lines of a statement that isn't whole.
    pub typed: String,
}

impl<'n> State<'n> {
    /// A session in which nothing has been typed.
    pub fn new(alloc: Global, mode: Mode, names: &'n [&'n str]) -> State<'n>
        ensures names { result.names ≡ names.entry }
        ensures mode { result.mode ≡ mode }
        ensures untimed { result.is_timed ≡ false }
        ensures nothing { string_bytes result.typed ≡ [] }
    {
        State {
            names,
            mode,
            is_timed: false,
            stats: Stats::none(),
            typed: String::new(alloc),
        }
    }
}

/// What comes of a line.
#[derive(Clone, Copy, PartialEq, Eq)]
pub enum Turn {
    /// Something was answered.
    Answered,
    /// Nothing was asked of the database.
    GoesOn,
    /// The session ends.
    Ends,
}

/// Does what a line asks for that begins with a dot.
pub fn take_word<'a, B: Database, K: OpensText<T>, T: Read + Drop, W: Write, E: Write>(
    alloc: Global,
    host: &K,
    database: &mut B,
    state: &mut State<'_>,
    line: &str,
    output: &mut W,
    errors: &mut E,
) -> Result<Turn, ProgramFault<'a>>
    ensures ok { OnOk result (Talks B.seen (W.contents output.old) (W.contents output.new) database.old database.new) }
    ensures err { IfErr result IsOfRun }
{
    match read(line) {
        (Some(word), rest) => {
            take_known(
                alloc,
                host,
                database,
                state,
                word,
                rest.trim_ascii(),
                output,
                errors,
            )
        }
        (None, _) => {
            tell_unknown(alloc, line, errors)?;
            Ok(Turn::GoesOn)
        }
    }
}

/// Does what this word asks for, with what stands behind it.
fn take_known<'a, B: Database, K: OpensText<T>, T: Read + Drop, W: Write, E: Write>(
    alloc: Global,
    host: &K,
    database: &mut B,
    state: &mut State<'_>,
    word: Word,
    rest: &str,
    output: &mut W,
    errors: &mut E,
) -> Result<Turn, ProgramFault<'a>>
    ensures ok { OnOk result (Talks B.seen (W.contents output.old) (W.contents output.new) database.old database.new) }
    ensures err { IfErr result IsOfRun }
{
    match word {
        Word::Help | Word::Tables | Word::Catalog | Word::Stats | Word::Quit => {
            take_lone(alloc, database, state, word, rest, output, errors)
        }
        Word::Schema | Word::Leaves => take_listing(alloc, database, word, rest, output, errors),
        Word::Show | Word::Leaf | Word::Dump => {
            take_rows(alloc, state.mode, database, word, rest, output, errors)
        }
        Word::Plan => take_plan(alloc, database, rest, output, errors),
        Word::Read => take_file(alloc, host, state.mode, database, rest, output, errors),
        Word::Import => take_rows_of(alloc, host, database, rest, output, errors),
        Word::Timer | Word::Mode => {
            if !set(state, word, rest) {
                tell_wanted(alloc, word, errors)?;
            }
            Ok(Turn::GoesOn)
        }
    }
}

/// Does what a word asks for that stands alone.
fn take_lone<'a, B: Database, W: Write, E: Write>(
    alloc: Global,
    database: &mut B,
    state: &State<'_>,
    word: Word,
    rest: &str,
    output: &mut W,
    errors: &mut E,
) -> Result<Turn, ProgramFault<'a>>
    ensures ok { OnOk result (Talks B.seen (W.contents output.old) (W.contents output.new) database.old database.new) }
    ensures err { IfErr result IsOfRun }
{
    if !rest.is_empty() {
        tell_wanted(alloc, word, errors)?;
        return Ok(Turn::GoesOn);
    }
    match word {
        Word::Quit => Ok(Turn::Ends),
        Word::Catalog => take_catalog(alloc, database, state.names, output),
        Word::Tables => {
            let text = tables_text(alloc, database.catalog())?;
            write_text(output, text.as_str())?;
            Ok(Turn::GoesOn)
        }
        Word::Stats => {
            let text = stats_text(alloc, state.stats, database.traffic())?;
            write_text(output, text.as_str())?;
            Ok(Turn::GoesOn)
        }
        _ => {
            write_text(output, HELP)?;
            Ok(Turn::GoesOn)
        }
    }
}

/// Lists columns, or leaves with their rows, of each relation or of the one of this name.
fn take_listing<'a, B: Database, W: Write, E: Write>(
    alloc: Global,
    database: &mut B,
    word: Word,
    asked: &str,
    output: &mut W,
    errors: &mut E,
) -> Result<Turn, ProgramFault<'a>>
    ensures ok { OnOk result (Talks B.seen (W.contents output.old) (W.contents output.new) database.old database.new) }
    ensures err { IfErr result IsOfRun }
{
    if !asked.is_empty() && !is_word(asked) {
        tell_wanted(alloc, word, errors)?;
        return Ok(Turn::GoesOn);
    }
    if !asked.is_empty()
        && database
            .catalog()
            .schema()
            .relation(asked.as_bytes())
            .is_none()
    {
        tell_no_relation(alloc, database.catalog(), asked, errors)?;
        return Ok(Turn::GoesOn);
    }
    match word {
        Word::Leaves => take_leaves(alloc, database, asked, output),
        _ => take_schema(alloc, database, asked, output),
    }
}

/// Lists columns.
fn take_schema<'a, B: Database, W: Write>(
    alloc: Global,
    database: &mut B,
    asked: &str,
    output: &mut W,
) -> Result<Turn, ProgramFault<'a>>
    ensures ok { OnOk result (Talks B.seen (W.contents output.old) (W.contents output.new) database.old database.new) }
    ensures err { IfErr result IsOfRun }
{
    let text = schema_text(alloc, database.catalog(), asked)?;
    write_text(output, text.as_str())?;
    Ok(Turn::GoesOn)
}

/// Shows or writes the rows of what is named; where no name is given, writes those of each relation.
fn take_rows<'a, B: Database, W: Write, E: Write>(
    alloc: Global,
    mode: Mode,
    database: &mut B,
    word: Word,
    name: &str,
    output: &mut W,
    errors: &mut E,
) -> Result<Turn, ProgramFault<'a>>
    ensures ok { OnOk result (Talks B.seen (W.contents output.old) (W.contents output.new) database.old database.new) }
    ensures err { IfErr result IsOfRun }
{
    match word {
        Word::Show => take_named(
            alloc,
            mode,
            database,
            word,
            Item::Show(name),
            name,
            output,
            errors,
        ),
        Word::Leaf => take_named(
            alloc,
            mode,
            database,
            word,
            Item::Leaf(name),
            name,
            output,
            errors,
        ),
        _ if name.is_empty() => take_dump(alloc, mode, database, output),
        _ => take_named(
            alloc,
            mode,
            database,
            word,
            Item::Dump(name),
            name,
            output,
            errors,
        ),
    }
}

/// Answers the lines of the file of this name, where one is given.
fn take_file<'a, B: Database, K: OpensText<T>, T: Read + Drop, W: Write, E: Write>(
    alloc: Global,
    host: &K,
    mode: Mode,
    database: &mut B,
    name: &str,
    output: &mut W,
    errors: &mut E,
) -> Result<Turn, ProgramFault<'a>>
    ensures ok { OnOk result (Talks B.seen (W.contents output.old) (W.contents output.new) database.old database.new) }
    ensures err { IfErr result IsOfRun }
{
    if name.is_empty() {
        tell_wanted(alloc, Word::Read, errors)?;
        return Ok(Turn::GoesOn);
    }
    take_script(alloc, host, mode, database, name, output, errors)
}

/// Inserts the rows of the file that is named, where one is, and a relation.
fn take_rows_of<'a, B: Database, K: OpensText<T>, T: Read + Drop, W: Write, E: Write>(
    alloc: Global,
    host: &K,
    database: &mut B,
    rest: &str,
    output: &mut W,
    errors: &mut E,
) -> Result<Turn, ProgramFault<'a>>
    ensures ok { OnOk result (Talks B.seen (W.contents output.old) (W.contents output.new) database.old database.new) }
    ensures err { IfErr result IsOfRun }
{
    let Some(asked) = Asked::read(rest) else {
        tell_wanted(alloc, Word::Import, errors)?;
        return Ok(Turn::GoesOn);
    };
    take_import(alloc, host, database, asked, output, errors)
}

/// Shows what is named, where a name is given.
fn take_named<'a, B: Database, W: Write, E: Write>(
    alloc: Global,
    mode: Mode,
    database: &mut B,
    word: Word,
    item: Item<'_>,
    name: &str,
    output: &mut W,
    errors: &mut E,
) -> Result<Turn, ProgramFault<'a>>
    ensures ok { OnOk result (Talks B.seen (W.contents output.old) (W.contents output.new) database.old database.new) }
    ensures err { IfErr result IsOfRun }
{
    if !is_word(name) {
        tell_wanted(alloc, word, errors)?;
        return Ok(Turn::GoesOn);
    }
    take_item(alloc, mode, database, item, output)?;
    Ok(Turn::Answered)
}

/// Answers one thing that is asked for, and says whether it was refused.
pub fn take_item<'a, B: Database, W: Write>(
    alloc: Global,
    mode: Mode,
    database: &mut B,
    item: Item<'_>,
    output: &mut W,
) -> Result<bool, ProgramFault<'a>>
    ensures ok { OnOk result (Talks B.seen (W.contents output.old) (W.contents output.new) database.old database.new) }
    ensures err { IfErr result IsOfRun }
{
    let reply = database.answer(alloc, mode, item)?;
    write_text(output, reply.text())?;
    Ok(reply.is_refusal())
}

/// Shows which leaves a statement reads.
pub fn take_plan<'a, B: Database, W: Write, E: Write>(
    alloc: Global,
    database: &mut B,
    statement: &str,
    output: &mut W,
    errors: &mut E,
) -> Result<Turn, ProgramFault<'a>>
    ensures ok { OnOk result (Talks B.seen (W.contents output.old) (W.contents output.new) database.old database.new) }
    ensures err { IfErr result IsOfRun }
{
    if statement.is_empty() {
        tell_wanted(alloc, Word::Plan, errors)?;
        return Ok(Turn::GoesOn);
    }
    match plan_typed(alloc, database.catalog(), statement) {
        Ok(text) => {
            write_text(output, text.as_str())?;
            Ok(Turn::GoesOn)
        }
        Err(fault) => {
            tell_unplanned(alloc, database.catalog().schema(), statement, fault, errors)?;
            Ok(Turn::GoesOn)
        }
    }
}

/// Tells why a statement has no plan.
fn tell_unplanned<'a, E: Write>(
    alloc: Global,
    schema: &Schema,
    statement: &str,
    fault: PlanFault<'_>,
    errors: &mut E,
) -> Result<(), ProgramFault<'a>>
    ensures { IfErr result IsOfRun }
{
    let Some(fault) = refusal_in(fault) else {
        return Err(ProgramFault::Memory);
    };
    let text = format!(in alloc; "refused read {fault}\n")?;
    tell(errors, text.as_str());
    let _ = explain_fault(alloc, schema, statement, &fault, errors);
    Ok(())
}

/// The refusal of a statement, if its plan was refused for that.
fn refusal_in(fault: PlanFault<'_>) -> Option<ReadFault> {
    match fault {
        PlanFault::Statement(fault) => Some(fault),
        PlanFault::Catalogue(_fault) => None,
        PlanFault::Program(_fault) => None,
    }
}

/// Sets how answers are shown, or whether it is told how long they take; whether what is asked for is known.
fn set(state: &mut State<'_>, word: Word, rest: &str) -> bool {
    match (word, mode_named(rest), switch_named(rest)) {
        (Word::Mode, Some(mode), _) => {
            state.mode = mode;
            true
        }
        (Word::Timer, _, Some(switch)) => {
            state.is_timed = switch;
            true
        }
        _ => false,
    }
}

/// Tells what was wrong with a line. Where the standard error is closed nobody can be told; so nothing is claimed of what
/// stands there.
pub fn tell<E: Write>(errors: &mut E, text: &str) {
    let _ = errors.write_all(text.as_bytes());
}
