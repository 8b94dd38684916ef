//! Statements within a transaction, each by itself.

ghost use Rattle.std.specs.Prelude.{string_bytes};
ghost use Rattle.sqlstore.specs.Step.{Takes, Gives, Clears, Forgets, Promises, Intends, EndsLife, StartsLife};
ghost use Rattle.sqlstore.specs.Frame.{RunsWithin};
ghost use Rattle.sqlstore.specs.Rows.{AreTables};

use crate::param::{blob, number, text};
use crate::visit::Visit;
use sqlite::{Alter, Error, Row, Transaction};

/// Takes out the part at a slot, whose leaf and key a query showed.
pub fn take<S: Alter>(tx: &mut Transaction<'_, S>, slot: &Row) -> Result<usize, Error>
    ensures { RunsWithin S.Store AreTables (Takes slot.now) tx.old.conn tx.new.conn result }
{
    let leaf = slot.get_ref(0)?;
    let key = slot.get_ref(1)?;
    tx.execute("DELETE FROM part WHERE leaf = ?1 AND id = ?2", &[leaf, key])
}

/// Puts in the parts that a ticket's intents put.
pub fn give<S: Alter>(tx: &mut Transaction<'_, S>, visit: &Visit) -> Result<usize, Error>
    ensures { RunsWithin S.Store AreTables (Gives visit.now) tx.old.conn tx.new.conn result }
{
    tx.execute(
        "INSERT INTO part (leaf, id, body) SELECT leaf, id, body FROM intent WHERE life = ?1 AND visit = ?2 AND body <> x''",
        &[number(&visit.life), number(&visit.visit)],
    )
}

/// Takes out a ticket's intents.
pub fn clear<S: Alter>(tx: &mut Transaction<'_, S>, visit: &Visit) -> Result<usize, Error>
    ensures { RunsWithin S.Store AreTables (Clears visit.now) tx.old.conn tx.new.conn result }
{
    tx.execute(
        "DELETE FROM intent WHERE life = ?1 AND visit = ?2",
        &[number(&visit.life), number(&visit.visit)],
    )
}

/// Takes out a ticket's prepared row.
pub fn forget<S: Alter>(tx: &mut Transaction<'_, S>, visit: &Visit) -> Result<usize, Error>
    ensures { RunsWithin S.Store AreTables (Forgets visit.now) tx.old.conn tx.new.conn result }
{
    tx.execute(
        "DELETE FROM prepared WHERE life = ?1 AND visit = ?2",
        &[number(&visit.life), number(&visit.visit)],
    )
}

/// Puts in a ticket's prepared row.
pub fn promise<S: Alter>(
    tx: &mut Transaction<'_, S>,
    visit: &Visit,
    txn: &Visit,
) -> Result<usize, Error>
    ensures { RunsWithin S.Store AreTables (Promises visit.now txn.now) tx.old.conn tx.new.conn result }
{
    tx.execute(
        "INSERT INTO prepared (life, visit, tlife, tnumber) VALUES (?1, ?2, ?3, ?4)",
        &[
            number(&visit.life),
            number(&visit.visit),
            number(&txn.life),
            number(&txn.visit),
        ],
    )
}

/// Puts in an intent of a ticket.
pub fn intend<S: Alter>(
    tx: &mut Transaction<'_, S>,
    visit: &Visit,
    leaf: &String,
    key: &i64,
    body: &Vec<u8>,
) -> Result<usize, Error>
    ensures { RunsWithin S.Store AreTables (Intends visit.now (string_bytes leaf.now) key.now body.now.items) tx.old.conn tx.new.conn result }
{
    tx.execute(
        "INSERT INTO intent (life, visit, leaf, id, body) VALUES (?1, ?2, ?3, ?4, ?5)",
        &[
            number(&visit.life),
            number(&visit.visit),
            text(leaf),
            number(key),
            blob(body),
        ],
    )
}

/// Takes out the incarnation.
pub fn end_life<S: Alter>(tx: &mut Transaction<'_, S>) -> Result<usize, Error>
    ensures { RunsWithin S.Store AreTables EndsLife tx.old.conn tx.new.conn result }
{
    tx.execute("DELETE FROM state", &[])
}

/// Puts in an incarnation.
pub fn begin_life<S: Alter>(tx: &mut Transaction<'_, S>, life: &i64) -> Result<usize, Error>
    ensures { RunsWithin S.Store AreTables (StartsLife life.now) tx.old.conn tx.new.conn result }
{
    tx.execute(
        "INSERT INTO state (one, life) VALUES (1, ?1)",
        &[number(life)],
    )
}
