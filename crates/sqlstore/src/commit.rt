//! A transaction is committed in one change of the coordinator's tables, and its voters are dropped in another.

ghost use Rattle.std.specs.Prelude.{◌≡◌, false, string_bytes};
ghost use Rattle.sqlite.specs.Held.{state};
ghost use Rattle.sqlstore.specs.DeskQuery.{DecidesNow};
ghost use Rattle.sqlstore.specs.DeskStep.{Decides, Undecides, Votes};
ghost use Rattle.sqlstore.specs.DeskTables.{desk_schema};
ghost use Rattle.sqlstore.specs.Rows.{AreTablesOf};
ghost use Rattle.sqlstore.specs.Frame.{Commits, RunsWithin};

use crate::decision::Decision;
use crate::epoch::{epochs, kept_life, move_to};
use crate::param::{number, text};
use crate::visit::Visit;
use sqlite::{Alter, Connection, Error, Transaction};

/// Puts in a voter of a transaction.
fn vote<S: Alter>(
    tx: &mut Transaction<'_, S>,
    txn: &Visit,
    site: &String,
    ticket: &Visit,
) -> Result<usize, Error>
    ensures { RunsWithin S.Store (AreTablesOf desk_schema) (Votes txn.now (string_bytes site.now) ticket.now) tx.old.conn tx.new.conn result }
{
    tx.execute(
        "INSERT INTO decided (tlife, tnumber, site, life, visit) VALUES (?1, ?2, ?3, ?4, ?5)",
        &[
            number(&txn.life),
            number(&txn.visit),
            text(site),
            number(&ticket.life),
            number(&ticket.visit),
        ],
    )
}

/// Puts the version beside an incarnation, and puts in the voters.
fn keep_rows<S: Alter>(
    tx: &mut Transaction<'_, S>,
    decision: &Decision,
    life: &i64,
) -> Result<(), Error>
    ensures { RunsWithin S.Store (AreTablesOf desk_schema) (Decides decision.now.txn decision.now.votes.items life.now decision.now.version) tx.old.conn tx.new.conn result }
{
    move_to(tx, life, &decision.version)?;
    let votes = decision.votes.as_slice();
    'votes: for kept in votes {
        vote(tx, &decision.txn, &kept.site, &kept.ticket)?;
    }
    Ok(())
}

/// Keeps voters of a transaction, and a version beside an incarnation.
fn decide_in<S: Alter>(
    conn: &mut Connection<S>,
    decision: &Decision,
    life: &i64,
) -> Result<(), Error>
    requires { conn.old.in_transaction ≡ false }
    ensures { Commits desk_schema (Decides decision.now.txn decision.now.votes.items life.now decision.now.version) (state S.Store conn.old) (state S.Store conn.new) result }
{
    let _settled = conn.is_autocommit();
    let mut tx = conn.transaction();
    keep_rows(&mut tx, decision, life)?;
    tx.commit()
}

/// Keeps that a transaction is committed, who voted for it, and the catalogue's version. The incarnation stays.
pub fn decide<S: Alter>(conn: &mut Connection<S>, decision: &Decision) -> Result<(), Error>
    requires { conn.old.in_transaction ≡ false }
    ensures { Commits desk_schema (DecidesNow decision.now) (state S.Store conn.old) (state S.Store conn.new) result }
{
    let _settled = conn.is_autocommit();
    let rows = epochs(conn)?;
    let life = kept_life(&rows)?;
    decide_in(conn, decision, &life)
}

/// Drops the voters of a transaction.
pub fn undecide<S: Alter>(conn: &mut Connection<S>, txn: &Visit) -> Result<(), Error>
    requires { conn.old.in_transaction ≡ false }
    ensures { Commits desk_schema (Undecides txn.now) (state S.Store conn.old) (state S.Store conn.new) result }
{
    let _settled = conn.is_autocommit();
    let mut tx = conn.transaction();
    tx.execute(
        "DELETE FROM decided WHERE tlife = ?1 AND tnumber = ?2",
        &[number(&txn.life), number(&txn.visit)],
    )?;
    tx.commit()
}
