//! All rows of the coordinator's tables.

ghost use Rattle.std.specs.Prelude.{◌≡◌, false};
ghost use Rattle.sqlite.specs.Held.{state};
ghost use Rattle.sqlstore.specs.DeskRows.{ShowsDesk};
ghost use Rattle.sqlstore.specs.DeskTables.{desk_schema};
ghost use Rattle.sqlstore.specs.Gathered.{ShowsAll};
ghost use Rattle.sqlstore.specs.Frame.{LooksAt};
ghost use Rattle.sqlstore.specs.Rows.{HasSchema};

use sqlite::{Alter, Connection, Error, Row};

/// The rows of the voters, and those of the incarnation and the version.
#[derive(Debug, Drop)]
pub struct DeskRows {
    pub votes: Vec<Row>,
    pub epoch: Vec<Row>,
}

fn vote_rows<S: Alter>(conn: &mut Connection<S>) -> Result<Vec<Row>, Error>
    requires { conn.old.in_transaction ≡ false }
    ensures { LooksAt (HasSchema desk_schema) (λ db rows. ShowsAll (db.trees 0) rows.items) (state S.Store conn.old) (state S.Store conn.new) result }
{
    let _live = conn.schema();
    let _settled = conn.is_autocommit();
    conn.query_all(
        "SELECT rowid, tlife, tnumber, site, life, visit FROM decided ORDER BY rowid",
        &[],
    )
}

fn epoch_rows<S: Alter>(conn: &mut Connection<S>) -> Result<Vec<Row>, Error>
    requires { conn.old.in_transaction ≡ false }
    ensures { LooksAt (HasSchema desk_schema) (λ db rows. ShowsAll (db.trees 2) rows.items) (state S.Store conn.old) (state S.Store conn.new) result }
{
    let _live = conn.schema();
    let _settled = conn.is_autocommit();
    conn.query_all(
        "SELECT one, NULL, life, version FROM state ORDER BY one",
        &[],
    )
}

/// The rows of both tables.
pub fn desk_rows<S: Alter>(conn: &mut Connection<S>) -> Result<DeskRows, Error>
    requires { conn.old.in_transaction ≡ false }
    ensures { LooksAt (HasSchema desk_schema) ShowsDesk (state S.Store conn.old) (state S.Store conn.new) result }
{
    let votes = vote_rows(conn)?;
    let epoch = epoch_rows(conn)?;
    Ok(DeskRows { votes, epoch })
}
