//! A ticket is prepared in one transaction.

ghost use Rattle.std.specs.Prelude.{◌≡◌, false};
ghost use Rattle.sqlite.specs.Held.{state};
ghost use Rattle.sqlstore.specs.Rows.{AreTables};
ghost use Rattle.sqlstore.specs.Step.{Keeps};
ghost use Rattle.sqlstore.specs.Frame.{Commits, RunsWithin};
ghost use Rattle.sqlstore.specs.Tables.{site_schema};

use crate::intent::Intent;
use crate::steps::{intend, promise};
use crate::visit::Visit;
use sqlite::{Alter, Connection, Error, Transaction};

/// Puts in a ticket's prepared row and its intents.
fn keep_rows<S: Alter>(
    tx: &mut Transaction<'_, S>,
    visit: &Visit,
    txn: &Visit,
    intents: &[Intent],
) -> Result<(), Error>
    ensures { RunsWithin S.Store AreTables (Keeps visit.now txn.now intents.now) tx.old.conn tx.new.conn result }
{
    promise(tx, visit, txn)?;
    'intents: for intent in intents {
        intend(tx, visit, &intent.leaf, &intent.key, &intent.body)?;
    }
    Ok(())
}

/// Keeps that a ticket is prepared for a transaction, and what it intends.
pub fn keep<S: Alter>(
    conn: &mut Connection<S>,
    visit: &Visit,
    txn: &Visit,
    intents: &[Intent],
) -> Result<(), Error>
    requires { conn.old.in_transaction ≡ false }
    ensures { Commits site_schema (Keeps visit.now txn.now intents.now) (state S.Store conn.old) (state S.Store conn.new) result }
{
    let _settled = conn.is_autocommit();
    let mut tx = conn.transaction();
    keep_rows(&mut tx, visit, txn, intents)?;
    tx.commit()
}
