//! The incarnation and the catalogue's version, which stand in one row.

ghost use Rattle.std.specs.Prelude.{◌≡◌, IfOk, false, FitsSigned};
ghost use Rattle.std.specs.Int.{w64};
ghost use Rattle.sqlite.specs.Held.{state};
ghost use Rattle.sqlstore.specs.DeskQuery.{HasDeskSchema, AreEpochs, BeginsSome, first_version, BeginsIf};
ghost use Rattle.sqlstore.specs.DeskStep.{MovesTo};
ghost use Rattle.sqlstore.specs.DeskTables.{desk_schema};
ghost use Rattle.sqlstore.specs.Query.{first_life};
ghost use Rattle.sqlstore.specs.Rows.{AreTablesOf};
ghost use Rattle.sqlstore.specs.Frame.{Asks, Commits, LooksAndCommits, RunsWithin};

use crate::life::{after, first_life};
use crate::param::number;
use sqlite::{Alter, Connection, Error, Row, Transaction};

/// Puts an incarnation and a version in place of others.
pub fn move_to<S: Alter>(
    tx: &mut Transaction<'_, S>,
    life: &i64,
    version: &i64,
) -> Result<usize, Error>
    ensures { RunsWithin S.Store (AreTablesOf desk_schema) (MovesTo life.now version.now) tx.old.conn tx.new.conn result }
{
    tx.execute("DELETE FROM state", &[])?;
    tx.execute(
        "INSERT INTO state (one, life, version) VALUES (1, ?1, ?2)",
        &[number(life), number(version)],
    )
}

/// What the table of state says.
pub fn epochs<S: Alter>(conn: &mut Connection<S>) -> Result<Vec<Row>, Error>
    ensures { Asks HasDeskSchema (λ db rows. AreEpochs (db.trees 2) rows.items) (state S.Store conn.old) (state S.Store conn.new) result }
{
    conn.query_all("SELECT life, version FROM state", &[])
}

/// The incarnation that rows of the query say.
pub fn kept_life(rows: &[Row]) -> Result<i64, Error>
    ensures { IfOk result (λ life. (first_life rows.now ≡ life) × FitsSigned w64 life) }
{
    match rows.first() {
        Some(row) => row.get(0),
        None => Ok(0),
    }
}

/// The version that rows of the query say.
fn kept_version(rows: &[Row]) -> Result<i64, Error>
    ensures { IfOk result (λ version. (first_version rows.now ≡ version) × FitsSigned w64 version) }
{
    match rows.first() {
        Some(row) => row.get(1),
        None => Ok(1),
    }
}

/// Keeps an incarnation and a version in place of others.
fn keep_epoch<S: Alter>(conn: &mut Connection<S>, life: &i64, version: &i64) -> Result<(), Error>
    requires { conn.old.in_transaction ≡ false }
    ensures { Commits desk_schema (MovesTo life.now version.now) (state S.Store conn.old) (state S.Store conn.new) result }
{
    let _settled = conn.is_autocommit();
    let mut tx = conn.transaction();
    move_to(&mut tx, life, version)?;
    tx.commit()
}

/// Begins the incarnation after the one that is kept, and answers it, if a table holds it. The version stays.
pub fn begin_next<S: Alter>(conn: &mut Connection<S>) -> Result<Option<u64>, Error>
    requires { conn.old.in_transaction ≡ false }
    ensures { LooksAndCommits desk_schema BeginsIf BeginsSome (state S.Store conn.old) (state S.Store conn.new) result }
{
    let _settled = conn.is_autocommit();
    let rows = epochs(conn)?;
    let life = first_life(&rows)?;
    let version = kept_version(&rows)?;
    let Some(next) = after(life) else {
        return Ok(None);
    };
    keep_epoch(conn, &next, &version)?;
    Ok(Some(life + 1))
}
