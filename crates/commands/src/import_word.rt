//! A file of comma-separated values that is named in a session, whose rows are inserted into a relation.

ghost use Rattle.std.specs.Prelude.{◌≡◌, IfErr, OnOk, option_map};
ghost use Rattle.commands.specs.ImportWord as spec;
ghost use Rattle.commands.specs.Session.{Talks};
ghost use Rattle.databases.specs.Solo.{IsOfRun};

use crate::import::{Imported, import};
use crate::import_file::{many_of, tell_count, tell_line, tell_row};
use crate::row_progress::RowProgress;
use crate::session_word::{Turn, tell};
use crate::texts::OpensText;
use databases::database::Database;
use exchange::file::rows;
use exchange::line_fault::{LineFault, LineWhat};
use lines::cut::cut;
use lines::fault::ProgramFault;
use lines::play_script::number;
use meaning::schema::RelationSchema;
use std::alloc::Global;
use std::io;
use std::io::{Read, Write};
use terms::copy::TryCopy;
use terms::memory::Memory;
use terms::row::Row;

/// What `.import` asks for.
#[derive(Clone, Copy)]
pub struct Asked<'a> {
    /// The file of comma-separated values.
    pub file: &'a str,
    /// The relation's name.
    pub relation: &'a str,
    /// How many rows a transaction has; all where nothing is said.
    pub many: Option<u64>,
}

impl<'a> Asked<'a> {
    /// A file, a relation, and perhaps a number of rows from 1 to 1,000,000.
    pub fn read(words: &'a str) -> Option<Asked<'a>>
        ensures { option_map spec.asked_of result ≡ spec.asked_in words.entry.now }
    {
        let (file, rest) = cut(words, ' ')?;
        let (relation, many) = relation_in(trimmed(rest))?;
        if relation.is_empty() {
            return None;
        }
        Some(Asked {
            file,
            relation,
            many,
        })
    }
}

/// A relation, and the number of rows behind it, where one is said.
fn relation_in(text: &str) -> Option<(&str, Option<u64>)>
    ensures { option_map (λ parts. (parts.0.now, parts.1)) result ≡ spec.relation_in text.now }
{
    match cut(text, ' ') {
        None => Some((text, None)),
        Some((relation, word)) => Some((relation, Some(rows_in(trimmed(word))?))),
    }
}

/// The number of rows that a word says.
fn rows_in(word: &str) -> Option<u64>
    ensures { result ≡ spec.rows_in word.now }
{
    let many = number(word)?;
    if many == 0 || many > 1_000_000 {
        return None;
    }
    Some(many)
}

/// A text without the blanks at its ends.
fn trimmed(text: &str) -> &str
    ensures { result.now ≡ spec.trimmed text.now }
{
    text.trim_ascii()
}

/// Inserts the rows of the file that is named, as `fragdb import` does. What can't be read, or is no row, is told, and costs nothing
/// but that; so is a transaction that is open.
pub fn take_import<'a, B: Database, K: OpensText<T>, T: Read + Drop, W: Write, E: Write>(
    alloc: Global,
    host: &K,
    database: &mut B,
    asked: Asked<'_>,
    output: &mut W,
    errors: &mut E,
) -> Result<Turn, ProgramFault<'a>>
    ensures ok { OnOk result (Talks B.seen (W.contents output.old) (W.contents output.new) database.old database.new) }
    ensures err { IfErr result IsOfRun }
{
    if database.is_open() {
        tell(
            errors,
            "a transaction is open; COMMIT or ROLLBACK ends it\n",
        );
        return Ok(Turn::GoesOn);
    }
    let Some(relation) = relation_named(database, asked.relation)? else {
        let text = format!(in alloc; "no relation {}\n", asked.relation)?;
        tell(errors, text.as_str());
        return Ok(Turn::GoesOn);
    };
    take_rows(alloc, host, database, &relation, asked, output, errors)
}

/// Inserts the rows of the file that is named into a relation, or tells why there are none.
fn take_rows<'a, B: Database, K: OpensText<T>, T: Read + Drop, W: Write, E: Write>(
    alloc: Global,
    host: &K,
    database: &mut B,
    relation: &RelationSchema,
    asked: Asked<'_>,
    output: &mut W,
    errors: &mut E,
) -> Result<Turn, ProgramFault<'a>>
    ensures ok { OnOk result (Talks B.seen (W.contents output.old) (W.contents output.new) database.old database.new) }
    ensures err { IfErr result IsOfRun }
{
    match rows_named(alloc, host, relation, asked.file) {
        Ok(rows) => {
            let mut progress = host.row_progress();
            bring_in(
                alloc,
                database,
                relation,
                rows.as_slice(),
                asked.many,
                &mut progress,
                output,
                errors,
            )?;
            Ok(Turn::Answered)
        }
        Err(fault) => {
            tell_unread(alloc, relation, asked.file, &fault, errors)?;
            Ok(Turn::GoesOn)
        }
    }
}

/// A copy of the relation of this name, if there is one: rows are inserted while the database changes.
fn relation_named<B: Database>(database: &B, name: &str) -> Result<Option<RelationSchema>, Memory> {
    match database.catalog().schema().relation(name.as_bytes()) {
        Some(relation) => Ok(Some(relation.copy()?)),
        None => Ok(None),
    }
}

/// The rows of the file of this name.
fn rows_named<K: OpensText<T>, T: Read + Drop>(
    alloc: Global,
    host: &K,
    relation: &RelationSchema,
    file: &str,
) -> Result<Vec<Row>, LineFault> {
    let text = host.open_text(file).map_err(unopened)?;
    rows(alloc, relation, text)
}

/// Why a file could not be opened.
fn unopened(error: io::Error) -> LineFault {
    LineFault {
        line: 0,
        what: LineWhat::Io(error),
        refused: None,
    }
}

/// Inserts these rows, and tells how many are committed.
fn bring_in<'a, B: Database, W: Write, E: Write>(
    alloc: Global,
    database: &mut B,
    relation: &RelationSchema,
    rows: &[Row],
    many: Option<u64>,
    progress: &mut RowProgress<'_>,
    output: &mut W,
    errors: &mut E,
) -> Result<(), ProgramFault<'a>>
    ensures ok { OnOk result (Talks B.seen (W.contents output.old) (W.contents output.new) database.old database.new) }
    ensures err { IfErr result IsOfRun }
{
    let many = many_of(many, rows);
    match import(alloc, database, relation, rows, many, progress)? {
        Imported::All => tell_count(alloc, rows.len(), output),
        Imported::Until {
            row,
            committed,
            reply,
        } => {
            tell_count(alloc, committed, output)?;
            tell_row(alloc, rows, row, reply.text(), errors)?;
            Ok(())
        }
    }
}

/// Tells why a file has no rows; that memory ran out is the program's fault.
fn tell_unread<'a, E: Write>(
    alloc: Global,
    relation: &RelationSchema,
    file: &str,
    fault: &LineFault,
    errors: &mut E,
) -> Result<(), ProgramFault<'a>>
    ensures err { IfErr result IsOfRun }
{
    match tell_line(alloc, relation, file, fault, errors) {
        Ok(()) => Ok(()),
        Err(ProgramFault::Memory) => Err(ProgramFault::Memory),
        Err(fault) => {
            let text = format!(in alloc; "{fault}\n")?;
            tell(errors, text.as_str());
            Ok(())
        }
    }
}
