//! Calls of a site's store, each one transaction.

ghost use Rattle.std.specs.Prelude.{◌≡◌, false};
ghost use Rattle.sqlite.specs.Held.{state};
ghost use Rattle.sqlstore.specs.Query.{Makes};
ghost use Rattle.sqlstore.specs.Rows.{AreTables};
ghost use Rattle.sqlstore.specs.Step.{Empties, Fills, Drops, Follows};
ghost use Rattle.sqlstore.specs.Frame.{Commits, RunsWithin};
ghost use Rattle.sqlstore.specs.Tables.{site_schema};

use crate::reading::slots_of;
use crate::steps::{clear, forget, give, take};
use crate::visit::Visit;
use sqlite::{Alter, Connection, Error, Row, Transaction};

/// Takes out a ticket's prepared row and the parts at these slots.
fn empty<S: Alter>(tx: &mut Transaction<'_, S>, visit: &Visit, slots: &[Row]) -> Result<(), Error>
    ensures { RunsWithin S.Store AreTables (Empties visit.now slots.now) tx.old.conn tx.new.conn result }
{
    forget(tx, visit)?;
    'slots: for slot in slots {
        take(tx, slot)?;
    }
    Ok(())
}

/// Takes out a ticket's prepared row and its intents.
fn drop_visit<S: Alter>(tx: &mut Transaction<'_, S>, visit: &Visit) -> Result<usize, Error>
    ensures { RunsWithin S.Store AreTables (Drops visit.now) tx.old.conn tx.new.conn result }
{
    forget(tx, visit)?;
    clear(tx, visit)
}

/// Drops a ticket's prepared row and its intents.
pub fn discard<S: Alter>(conn: &mut Connection<S>, visit: &Visit) -> Result<(), Error>
    requires { conn.old.in_transaction ≡ false }
    ensures { Commits site_schema (Drops visit.now) (state S.Store conn.old) (state S.Store conn.new) result }
{
    let _settled = conn.is_autocommit();
    let mut tx = conn.transaction();
    drop_visit(&mut tx, visit)?;
    tx.commit()
}

/// Makes a ticket's changes within a transaction, and takes out its rows.
fn make<S: Alter>(tx: &mut Transaction<'_, S>, visit: &Visit, slots: &[Row]) -> Result<usize, Error>
    ensures { RunsWithin S.Store AreTables (Follows (Empties visit.now slots.now) (Fills visit.now)) tx.old.conn tx.new.conn result }
{
    empty(tx, visit, slots)?;
    give(tx, visit)?;
    clear(tx, visit)
}

/// Makes a ticket's changes, with the parts at these slots taken out, and drops its prepared row and its intents.
fn make_at<S: Alter>(conn: &mut Connection<S>, visit: &Visit, slots: &[Row]) -> Result<(), Error>
    requires { conn.old.in_transaction ≡ false }
    ensures { Commits site_schema (Follows (Empties visit.now slots.now) (Fills visit.now)) (state S.Store conn.old) (state S.Store conn.new) result }
{
    let _settled = conn.is_autocommit();
    let mut tx = conn.transaction();
    make(&mut tx, visit, slots)?;
    tx.commit()
}

/// Makes a ticket's changes, and drops its prepared row and its intents.
pub fn apply<S: Alter>(conn: &mut Connection<S>, visit: &Visit) -> Result<(), Error>
    requires { conn.old.in_transaction ≡ false }
    ensures { Commits site_schema (Makes visit.now) (state S.Store conn.old) (state S.Store conn.new) result }
{
    let _settled = conn.is_autocommit();
    let slots = slots_of(conn, visit)?;
    make_at(conn, visit, &slots)
}
