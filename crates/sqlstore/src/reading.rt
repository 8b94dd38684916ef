//! Queries, outside of a transaction.

ghost use Rattle.std.specs.Prelude.{◌≡◌, false, string_bytes};
ghost use Rattle.sqlite.specs.Held.{state};
ghost use Rattle.sqlstore.specs.Listed.{AreRowsOf};
ghost use Rattle.sqlstore.specs.Rows.{AreTables};
ghost use Rattle.sqlstore.specs.Query.{AreSlots, AreLives, AreBodies};
ghost use Rattle.sqlstore.specs.Frame.{Asks, LooksAt};

use crate::param::{number, text};
use crate::visit::Visit;
use sqlite::{Alter, Connection, Error, Row};

/// The slots of a ticket's intents: for each its leaf and its key.
pub fn slots_of<S: Alter>(conn: &mut Connection<S>, visit: &Visit) -> Result<Vec<Row>, Error>
    ensures { Asks AreTables (λ db rows. AreSlots visit.now (db.trees 4) rows.items) (state S.Store conn.old) (state S.Store conn.new) result }
{
    conn.query_all(
        "SELECT leaf, id FROM intent WHERE life = ?1 AND visit = ?2",
        &[number(&visit.life), number(&visit.visit)],
    )
}

/// What the table of incarnations says.
pub fn lives<S: Alter>(conn: &mut Connection<S>) -> Result<Vec<Row>, Error>
    ensures { Asks AreTables (λ db rows. AreLives (db.trees 6) rows.items) (state S.Store conn.old) (state S.Store conn.new) result }
{
    conn.query_all("SELECT life FROM state", &[])
}

/// The body of the part at a leaf and a key, in one row, if there is one.
pub fn bodies_at<S: Alter>(
    conn: &mut Connection<S>,
    name: &String,
    key: &i64,
) -> Result<Vec<Row>, Error>
    ensures { Asks AreTables (λ db rows. AreBodies (string_bytes name.now) key.now (db.trees 0) rows.items) (state S.Store conn.old) (state S.Store conn.new) result }
{
    conn.query_all(
        "SELECT body FROM part WHERE leaf = ?1 AND id = ?2",
        &[text(name), number(key)],
    )
}

/// So, of what is committed.
pub fn committed_at<S: Alter>(
    conn: &mut Connection<S>,
    name: &String,
    key: &i64,
) -> Result<Vec<Row>, Error>
    requires { conn.old.in_transaction ≡ false }
    ensures { LooksAt AreTables (λ db rows. AreBodies (string_bytes name.now) key.now (db.trees 0) rows.items) (state S.Store conn.old) (state S.Store conn.new) result }
{
    let _settled = conn.is_autocommit();
    bodies_at(conn, name, key)
}

/// The rows of a leaf's parts.
pub fn rows_of<S: Alter>(conn: &mut Connection<S>, name: &String) -> Result<Vec<Row>, Error>
    ensures { Asks AreTables (λ db rows. AreRowsOf (string_bytes name.now) (db.trees 0) rows.items) (state S.Store conn.old) (state S.Store conn.new) result }
{
    conn.query_all(
        "SELECT rowid, leaf, id, body FROM part WHERE leaf = ?1",
        &[text(name)],
    )
}

/// So, of what is committed.
pub fn committed_of<S: Alter>(conn: &mut Connection<S>, name: &String) -> Result<Vec<Row>, Error>
    requires { conn.old.in_transaction ≡ false }
    ensures { LooksAt AreTables (λ db rows. AreRowsOf (string_bytes name.now) (db.trees 0) rows.items) (state S.Store conn.old) (state S.Store conn.new) result }
{
    let _settled = conn.is_autocommit();
    rows_of(conn, name)
}
