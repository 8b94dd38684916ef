//! All rows of a site's tables.

ghost use Rattle.std.specs.Prelude.{◌≡◌, false};
ghost use Rattle.sqlite.specs.Held.{state};
ghost use Rattle.sqlstore.specs.Gathered.{ShowsAll, ShowsTables};
ghost use Rattle.sqlstore.specs.Frame.{LooksAt};
ghost use Rattle.sqlstore.specs.Tables.{site_schema};
ghost use Rattle.sqlstore.specs.Rows.{HasSchema};

use sqlite::{Alter, Connection, Error, Row};

/// The rows of each table but that of parts.
#[derive(Debug, Drop)]
pub struct Gathered {
    pub prepared: Vec<Row>,
    pub intents: Vec<Row>,
    pub state: Vec<Row>,
}

fn prepared_rows<S: Alter>(conn: &mut Connection<S>) -> Result<Vec<Row>, Error>
    requires { conn.old.in_transaction ≡ false }
    ensures { LooksAt (HasSchema site_schema) (λ db rows. ShowsAll (db.trees 2) rows.items) (state S.Store conn.old) (state S.Store conn.new) result }
{
    let _live = conn.schema();
    let _settled = conn.is_autocommit();
    conn.query_all(
        "SELECT rowid, life, visit, tlife, tnumber FROM prepared ORDER BY rowid",
        &[],
    )
}

fn intent_rows<S: Alter>(conn: &mut Connection<S>) -> Result<Vec<Row>, Error>
    requires { conn.old.in_transaction ≡ false }
    ensures { LooksAt (HasSchema site_schema) (λ db rows. ShowsAll (db.trees 4) rows.items) (state S.Store conn.old) (state S.Store conn.new) result }
{
    let _live = conn.schema();
    let _settled = conn.is_autocommit();
    conn.query_all(
        "SELECT rowid, life, visit, leaf, id, body FROM intent ORDER BY rowid",
        &[],
    )
}

fn state_rows<S: Alter>(conn: &mut Connection<S>) -> Result<Vec<Row>, Error>
    requires { conn.old.in_transaction ≡ false }
    ensures { LooksAt (HasSchema site_schema) (λ db rows. ShowsAll (db.trees 6) rows.items) (state S.Store conn.old) (state S.Store conn.new) result }
{
    let _live = conn.schema();
    let _settled = conn.is_autocommit();
    conn.query_all("SELECT one, NULL, life FROM state ORDER BY one", &[])
}

/// The rows of each table but that of parts.
pub fn gather<S: Alter>(conn: &mut Connection<S>) -> Result<Gathered, Error>
    requires { conn.old.in_transaction ≡ false }
    ensures { LooksAt (HasSchema site_schema) ShowsTables (state S.Store conn.old) (state S.Store conn.new) result }
{
    let prepared = prepared_rows(conn)?;
    let intents = intent_rows(conn)?;
    let state = state_rows(conn)?;
    Ok(Gathered {
        prepared,
        intents,
        state,
    })
}
