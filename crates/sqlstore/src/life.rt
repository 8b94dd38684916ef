//! The incarnation changes in one transaction.

ghost use Rattle.std.specs.Prelude.{◌≡◌, ◌+◌, ◌<◌, ◌^◌, pos, IfOk, IfSome, false, FitsSigned};
ghost use Rattle.std.specs.Int.{w64};
ghost use Rattle.sqlstore.specs.Query.{first_life, LivesSome, LivesIf};
ghost use Rattle.sqlite.specs.Held.{state};
ghost use Rattle.sqlstore.specs.Rows.{AreTables};
ghost use Rattle.sqlstore.specs.Step.{LivesOn};
ghost use Rattle.sqlstore.specs.Frame.{Commits, LooksAndCommits, RunsWithin};
ghost use Rattle.sqlstore.specs.Tables.{site_schema};

use crate::reading::lives;
use crate::steps::{begin_life, end_life};
use crate::visit::GREATEST;
use sqlite::{Alter, Connection, Error, Row, Transaction};

/// Puts an incarnation in place of another.
fn live_on<S: Alter>(tx: &mut Transaction<'_, S>, life: &i64) -> Result<usize, Error>
    ensures { RunsWithin S.Store AreTables (LivesOn life.now) tx.old.conn tx.new.conn result }
{
    end_life(tx)?;
    begin_life(tx, life)
}

/// Keeps an incarnation in place of another.
pub fn live<S: Alter>(conn: &mut Connection<S>, life: &i64) -> Result<(), Error>
    requires { conn.old.in_transaction ≡ false }
    ensures { Commits site_schema (LivesOn life.now) (state S.Store conn.old) (state S.Store conn.new) result }
{
    let _settled = conn.is_autocommit();
    let mut tx = conn.transaction();
    live_on(&mut tx, life)?;
    tx.commit()
}

/// The incarnation that rows of the query for it say.
pub fn first_life(rows: &[Row]) -> Result<u64, Error>
    ensures { IfOk result (λ life. first_life rows.now ≡ pos life) }
{
    match rows.first() {
        Some(row) => row.get(0),
        None => Ok(0),
    }
}

/// The incarnation after this one, if a table holds it.
pub fn after(life: u64) -> Option<i64>
    ensures { IfSome result (λ next. (next ≡ pos (life + 1)) × FitsSigned w64 next × (life + 1 < 2 ^ 64)) }
{
    if life < GREATEST {
        Some((life + 1) as i64)
    } else {
        None
    }
}

/// Begins the incarnation after the one that is kept, and answers it, if a table holds it.
pub fn live_next<S: Alter>(conn: &mut Connection<S>) -> Result<Option<u64>, Error>
    requires { conn.old.in_transaction ≡ false }
    ensures { LooksAndCommits site_schema LivesIf LivesSome (state S.Store conn.old) (state S.Store conn.new) result }
{
    let _settled = conn.is_autocommit();
    let rows = lives(conn)?;
    let life = first_life(&rows)?;
    let Some(next) = after(life) else {
        return Ok(None);
    };
    live(conn, &next)?;
    Ok(Some(life + 1))
}
