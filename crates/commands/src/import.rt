//! Rows that are inserted, so many in a transaction.

ghost use Rattle.std.specs.Prelude.{◌≡◌, ◌≢◌, ◌<◌, ◌==◌, ◌%◌, ◌∷◌, ℕ, [], true, false, if◌then◌else◌, None, IfErr, IfOk, IfSome, OnOk, Ok};
ghost use Rattle.databases.specs.Client.{IsOfClient};
ghost use Rattle.databases.specs.Serves.{Serves};
ghost use Rattle.commands.specs.Import.{Comes, IsCutShort, RollsBack, StopsAt, StopsBefore, before_row, begins, commits, ending, import_of, insert_says};
ghost use Rattle.lines.specs.Reply.{Answered, told_by};
ghost use Rattle.lines.specs.declared.reply.Reply.{Reply as ReplyNow};
ghost use Rattle.lines.specs.Script.{Runs};
ghost use Rattle.commands.specs.declared.import.Imported.TheVariants as imported;
ghost use Rattle.forms.specs.declared.mode.Mode.TheVariants.{Tabs};

use crate::row_progress::RowProgress;
use databases::database::Database;
use exchange::insert::insert_text;
use forms::mode::Mode;
use lines::fault::ProgramFault;
use lines::reply::Reply;
use lines::script::Item;
use meaning::schema::RelationSchema;
use std::alloc::Global;
use terms::row::Row;

/// What came of rows that were to be inserted.
#[derive(Drop)]
pub enum Imported {
    /// All of them are committed.
    All,
    /// This reply came in place of the one that was wanted: at the row of this place, or as the transaction before it was to be
    /// committed, or its own to begin. So many rows are committed, in whole transactions, and no transaction is open.
    Until {
        row: usize,
        committed: usize,
        reply: Reply,
    },
}

/// Inserts rows into a relation, so many in a transaction, and commits. It ends where a reply is another one than is wanted; what is
/// open then is rolled back.
pub fn import<'a, B: Database>(
    alloc: Global,
    database: &mut B,
    relation: &RelationSchema,
    rows: &[Row],
    many: usize,
    progress: &mut RowProgress<'_>,
) -> Result<Imported, ProgramFault<'a>>
    requires some { 0 < many }
    ensures all { result ≡ Ok imported.All → Comes B.seen (import_of many relation.now.name rows.now) database.old database.new }
    ensures until { (row committed : ℕ) (reply : ReplyNow) → result ≡ Ok (imported.Until row committed reply) → IsCutShort B.seen many relation.now.name rows.now database.old database.new committed (told_by reply) }
    ensures err { IfErr result IsOfClient }
{
    let mut committed = 0;
    for (number, row) in rows.iter().enumerate() {
        if let Some(reply) = turn_over(alloc, database, many, number, &mut committed)? {
            return until(alloc, database, number, committed, reply);
        }
        if let Some(reply) = insert_row(alloc, database, relation, row)? {
            return until(alloc, database, number, committed, reply);
        }
        progress.inserted(number, rows.len());
    }
    match end(alloc, database, rows.len())? {
        Some(reply) => until(alloc, database, rows.len(), committed, reply),
        None => Ok(Imported::All),
    }
}

/// Rolls back what is open, and says how far it came.
fn until<'a, B: Database>(
    alloc: Global,
    database: &mut B,
    row: usize,
    committed: usize,
    reply: Reply,
) -> Result<Imported, ProgramFault<'a>>
    ensures until { IfOk result (λ made. made ≡ imported.Until row committed reply) }
    ensures ends { OnOk result (RollsBack B.seen database.old database.new) }
    ensures err { IfErr result IsOfClient }
{
    roll_back_open(alloc, database)?;
    Ok(Imported::Until {
        row,
        committed,
        reply,
    })
}

/// Rolls back what is open, if something is.
fn roll_back_open<'a, B: Database>(alloc: Global, database: &mut B) -> Result<(), ProgramFault<'a>>
    ensures ends { OnOk result (RollsBack B.seen database.old database.new) }
    ensures err { IfErr result IsOfClient }
{
    if !database.is_open() {
        return Ok(());
    }
    let _rolled_back = ask(alloc, database, "ROLLBACK")?;
    Ok(())
}

/// Does what comes before the row of this number: where a transaction is full it is committed, and another one begins. Counts in
/// `committed` the rows that are committed: all before this one, once that COMMIT has come.
fn turn_over<'a, B: Database>(
    alloc: Global,
    database: &mut B,
    many: usize,
    number: usize,
    committed: &mut usize,
) -> Result<Option<Reply>, ProgramFault<'a>>
    requires some { 0 < many }
    ensures all { result ≡ Ok None → Comes B.seen (before_row many number) database.old database.new }
    ensures committed { result ≡ Ok None → committed.new ≡ (if number % many == 0 then number else committed.old) }
    ensures stops { IfOk result (λ told. IfSome told (λ reply. StopsBefore B.seen many number committed.old committed.new database.old database.new (told_by reply))) }
    ensures err { IfErr result IsOfClient }
{
    if !is_first(many, number) {
        return Ok(None);
    }
    if let Some(reply) = end(alloc, database, number)? {
        return Ok(Some(reply));
    }
    *committed = number;
    begin(alloc, database)
}

/// Whether a row of this number is the first of a transaction.
fn is_first(many: usize, number: usize) -> bool
    requires some { 0 < many }
    ensures { result ≡ (number % many == 0) }
{
    number % many == 0
}

/// Commits the transaction before the row of this number. Before the first row there is none.
fn end<'a, B: Database>(
    alloc: Global,
    database: &mut B,
    number: usize,
) -> Result<Option<Reply>, ProgramFault<'a>>
    ensures all { result ≡ Ok None → Comes B.seen (ending number) database.old database.new }
    ensures stops { IfOk result (λ told. IfSome told (λ reply. StopsAt B.seen [] (ending number) database.old database.new (told_by reply))) }
    ensures err { IfErr result IsOfClient }
{
    if number == 0 {
        return Ok(None);
    }
    commit(alloc, database)
}

fn begin<'a, B: Database>(
    alloc: Global,
    database: &mut B,
) -> Result<Option<Reply>, ProgramFault<'a>>
    ensures all { result ≡ Ok None → Comes B.seen (begins ∷ []) database.old database.new }
    ensures stops { IfOk result (λ told. IfSome told (λ reply. StopsAt B.seen [] (begins ∷ []) database.old database.new (told_by reply))) }
    ensures err { IfErr result IsOfClient }
{
    unless_told(alloc, database, "BEGIN", "begun\n")
}

fn commit<'a, B: Database>(
    alloc: Global,
    database: &mut B,
) -> Result<Option<Reply>, ProgramFault<'a>>
    ensures all { result ≡ Ok None → Comes B.seen (commits ∷ []) database.old database.new }
    ensures stops { IfOk result (λ told. IfSome told (λ reply. StopsAt B.seen [] (commits ∷ []) database.old database.new (told_by reply))) }
    ensures err { IfErr result IsOfClient }
{
    unless_told(alloc, database, "COMMIT", "committed\n")
}

/// Inserts a row. Answers the reply, unless one row was changed.
fn insert_row<'a, B: Database>(
    alloc: Global,
    database: &mut B,
    relation: &RelationSchema,
    row: &Row,
) -> Result<Option<Reply>, ProgramFault<'a>>
    ensures all { result ≡ Ok None → Comes B.seen (insert_says relation.now.name row.now ∷ []) database.old database.new }
    ensures stops { IfOk result (λ told. IfSome told (λ reply. StopsAt B.seen [] (insert_says relation.now.name row.now ∷ []) database.old database.new (told_by reply))) }
    ensures err { IfErr result IsOfClient }
{
    let text = insert_text(alloc, relation, row)?;
    unless_told(alloc, database, text.as_str(), "changed 1\n")
}

/// Executes a command, and answers its reply unless that is the one that is wanted.
fn unless_told<'a, B: Database>(
    alloc: Global,
    database: &mut B,
    command: &str,
    wanted: &str,
) -> Result<Option<Reply>, ProgramFault<'a>>
    ensures all { result ≡ Ok None → Comes B.seen ((Runs command.now, Answered wanted.now) ∷ []) database.old database.new }
    ensures stops { IfOk result (λ told. IfSome told (λ reply. StopsAt B.seen [] ((Runs command.now, Answered wanted.now) ∷ []) database.old database.new (told_by reply))) }
    ensures err { IfErr result IsOfClient }
{
    let reply = ask(alloc, database, command)?;
    if is_told(&reply, wanted) {
        Ok(None)
    } else {
        Ok(Some(reply))
    }
}

/// Whether a reply is this answer.
fn is_told(reply: &Reply, wanted: &str) -> bool
    ensures told { result ≡ true → told_by reply.now ≡ Answered wanted.now }
    ensures other { result ≡ false → told_by reply.now ≢ Answered wanted.now }
{
    match reply {
        Reply::Answer(text) => text.as_str() == wanted,
        Reply::Refusal(_) => false,
    }
}

/// Executes a command.
fn ask<'a, B: Database>(
    alloc: Global,
    database: &mut B,
    command: &str,
) -> Result<Reply, ProgramFault<'a>>
    ensures { Serves B.seen Tabs (Runs command.now) told_by database.old database.new result }
{
    database.answer(alloc, Mode::Tabs, Item::Statement(command))
}
