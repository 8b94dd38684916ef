//! The tables of the coordinator are made.

ghost use Rattle.std.specs.Prelude.{◌≡◌, false};
ghost use Rattle.sqlite.specs.Held.{state};
ghost use Rattle.sqlstore.specs.DeskFresh.{IsFresh, MakesBoth};
ghost use Rattle.sqlstore.specs.Tables.{no_schema};
ghost use Rattle.sqlstore.specs.Frame.{CreatesTables, RunsWithin};
ghost use Rattle.sqlstore.specs.Rows.{HasSchema};

use sqlite::{Alter, Connection, Error, Transaction};

/// Makes the table of voters, and that of the incarnation and the version.
fn make_both<S: Alter>(tx: &mut Transaction<'_, S>) -> Result<usize, Error>
    ensures { RunsWithin S.Store (HasSchema no_schema) MakesBoth tx.old.conn tx.new.conn result }
{
    tx.execute(
        "CREATE TABLE decided (tlife INTEGER NOT NULL, tnumber INTEGER NOT NULL, site TEXT NOT NULL, life INTEGER NOT NULL, visit INTEGER NOT NULL, PRIMARY KEY (tlife, tnumber, site)) STRICT",
        &[],
    )?;
    tx.execute(
        "CREATE TABLE state (one INTEGER NOT NULL PRIMARY KEY CHECK (one = 1), life INTEGER NOT NULL, version INTEGER NOT NULL) STRICT",
        &[],
    )
}

/// Makes the tables of the coordinator in an empty database.
pub fn create<S: Alter>(conn: &mut Connection<S>) -> Result<(), Error>
    requires { conn.old.in_transaction ≡ false }
    ensures { CreatesTables IsFresh (state S.Store conn.old) (state S.Store conn.new) result }
{
    let _settled = conn.is_autocommit();
    let mut tx = conn.transaction();
    make_both(&mut tx)?;
    tx.commit()
}
