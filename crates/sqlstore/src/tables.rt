//! The tables of a site are made, in one transaction.

ghost use Rattle.std.specs.Prelude.{◌≡◌, false};
ghost use Rattle.sqlite.specs.Held.{state};
ghost use Rattle.sqlstore.specs.Fresh.{AreFresh, MakesAll};
ghost use Rattle.sqlstore.specs.Tables.{no_schema};
ghost use Rattle.sqlstore.specs.Frame.{CreatesTables, RunsWithin};
ghost use Rattle.sqlstore.specs.Rows.{HasSchema};

use sqlite::{Alter, Connection, Error, Transaction};

/// Makes the tables of parts, prepared rows, intents and the incarnation.
fn make_all<S: Alter>(tx: &mut Transaction<'_, S>) -> Result<usize, Error>
    ensures { RunsWithin S.Store (HasSchema no_schema) MakesAll tx.old.conn tx.new.conn result }
{
    tx.execute(
        "CREATE TABLE part (leaf TEXT NOT NULL, id INTEGER NOT NULL, body BLOB NOT NULL, PRIMARY KEY (leaf, id)) STRICT",
        &[],
    )?;
    tx.execute(
        "CREATE TABLE prepared (life INTEGER NOT NULL, visit INTEGER NOT NULL, tlife INTEGER NOT NULL, tnumber INTEGER NOT NULL, PRIMARY KEY (life, visit)) STRICT",
        &[],
    )?;
    tx.execute(
        "CREATE TABLE intent (life INTEGER NOT NULL, visit INTEGER NOT NULL, leaf TEXT NOT NULL, id INTEGER NOT NULL, body BLOB NOT NULL, PRIMARY KEY (life, visit, leaf, id)) STRICT",
        &[],
    )?;
    tx.execute(
        "CREATE TABLE state (one INTEGER NOT NULL PRIMARY KEY CHECK (one = 1), life INTEGER NOT NULL) STRICT",
        &[],
    )
}

/// Makes the tables of a site in an empty database.
pub fn create<S: Alter>(conn: &mut Connection<S>) -> Result<(), Error>
    requires { conn.old.in_transaction ≡ false }
    ensures { CreatesTables AreFresh (state S.Store conn.old) (state S.Store conn.new) result }
{
    let _settled = conn.is_autocommit();
    let mut tx = conn.transaction();
    make_all(&mut tx)?;
    tx.commit()
}
