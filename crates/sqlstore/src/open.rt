//! Stores are opened.

ghost use Rattle.std.specs.Prelude.{◌≡◌, ◌≢◌, ◌⊎◌, IfOk, IfErr, Err, IsTrue, false};
ghost use Rattle.std.specs.Bool.{Decides};
ghost use Rattle.sqlite.specs.Files.{file_state};
ghost use Rattle.sqlite.specs.Held.{state};
ghost use Rattle.sqlite.specs.State.{HasCleanDisk};
ghost use Rattle.sqlite.specs.Steps.{over_memory};
ghost use Rattle.store.specs.declared.fault.StoreFault.TheVariants.{Damaged};
ghost use Rattle.sqlstore.specs.Fresh.{Founds, KeepsNothing};
ghost use Rattle.sqlstore.specs.Site.{IsClean, IsSound, kept_by};
ghost use Rattle.sqlstore.specs.Sound.{IsStored};
ghost use Rattle.sqlstore.specs.Tables.{no_schema, site_schema};
ghost use Rattle.sqlstore.specs.Frame.{FoundsTables};

use crate::blame::{cause, opening_fault};
use crate::schema::is_site_schema;
use crate::site::SqlSite;
use crate::small_pages::make_small;
use crate::tables::create;
use sqlite::{Alter, Connection, File, FileStore, MemStore};
use sqlite_schema::schema::Schema;
use std::alloc::Global;
use std::rt::HostRuntime;
use store::fault::StoreFault;
use terms::leaf::Leaf;

/// Whether a schema has nothing.
pub fn is_empty(schema: &Schema) -> bool
    ensures { Decides result (schema.now ≡ no_schema) }
{
    schema.tables.is_empty() && schema.indexes.is_empty() && schema.views.is_empty()
}

/// Makes the tables of a site, where there is nothing. Tables that are a site's are left as they are.
fn found<S: Alter>(alloc: Global, conn: &mut Connection<S>) -> Result<(), StoreFault>
    requires { conn.old.in_transaction ≡ false }
    ensures { FoundsTables site_schema Founds (state S.Store conn.old) (state S.Store conn.new) result }
{
    let _settled = conn.is_autocommit();
    match is_site_schema(alloc, conn.schema()) {
        Ok(true) => return Ok(()),
        Ok(false) => {}
        Err(_) => return Err(StoreFault::Memory),
    }
    if !is_empty(conn.schema()) {
        return Err(StoreFault::Damaged);
    }
    match create(conn) {
        Ok(()) => Ok(()),
        Err(error) => Err(cause(error)),
    }
}

impl<S: Alter> SqlSite<S> {
    /// A store over a connection outside of a transaction, which has these leaves. In an empty database the tables
    /// are made, and in a site's what is committed stays. Any other is refused as damaged, and comes back as it was.
    pub fn adopt(
        mut conn: Connection<S>,
        leaves: Vec<Leaf>,
    ) -> Result<SqlSite<S>, (StoreFault, Connection<S>)>
        requires { conn.in_transaction ≡ false }
        ensures leaves { IfOk result (λ site. site.leaves ≡ leaves) }
        ensures clean { IfOk result (λ site. IsClean S.Store site.conn → IsClean S.Store conn) }
        ensures founds { IfOk result (λ site. IsClean S.Store site.conn → Founds (state S.Store conn).committed (state S.Store site.conn).committed) }
        ensures fresh { IfOk result (λ site. IsClean S.Store site.conn → (state S.Store conn).committed.schema ≡ no_schema → IsSound S.Store leaves.items site.conn × KeepsNothing (kept_by S.Store leaves.items site.conn)) }
        ensures back { IfErr result (λ e. IsClean S.Store e.1 → (state S.Store e.1).committed ≡ (state S.Store conn).committed) }
        ensures intact { IfErr result (λ e. IsClean S.Store e.1 → ((state S.Store conn).committed.schema ≡ site_schema) ⊎ ((state S.Store conn).committed.schema ≡ no_schema) → e.0 ≢ Damaged) }
    {
        match found(*leaves.allocator(), &mut conn) {
            Ok(()) => Ok(SqlSite::over(conn, leaves)),
            Err(fault) => Err((fault, conn)),
        }
    }
}

impl<S: Alter + Drop> SqlSite<S> {
    /// A store over such a connection, of which nothing is left where it is refused.
    fn hold(conn: Connection<S>, leaves: Vec<Leaf>) -> Result<SqlSite<S>, StoreFault>
        requires { conn.in_transaction ≡ false }
        ensures { IfOk result (λ site. site.leaves ≡ leaves) }
    {
        match SqlSite::adopt(conn, leaves) {
            Ok(site) => Ok(site),
            Err((fault, _)) => Err(fault),
        }
    }

    /// The same, where all that its tables keep is as a store leaves it.
    fn hold_sound(conn: Connection<S>, leaves: Vec<Leaf>) -> Result<SqlSite<S>, StoreFault>
        requires { conn.in_transaction ≡ false }
        ensures leaves { IfOk result (λ site. site.leaves ≡ leaves) }
        ensures sound { IfOk result (λ site. HasCleanDisk (state S.Store site.conn) → IsTrue (state S.Store site.conn).is_open → IsStored leaves.items (state S.Store site.conn).committed) }
    {
        let mut site = SqlSite::hold(conn, leaves)?;
        match site.sound_rows() {
            Ok(_rows) => Ok(site),
            Err(fault) => Err(fault),
        }
    }
}

impl SqlSite<MemStore> {
    /// A new store in memory, which has these leaves.
    pub fn memory(leaves: Vec<Leaf>) -> Result<SqlSite<MemStore>, StoreFault>
        ensures leaves { IfOk result (λ site. site.leaves ≡ leaves) }
        ensures clean { IfOk result (λ site. IsClean over_memory site.conn) }
        ensures sound { IfOk result (λ site. IsSound over_memory leaves.items site.conn) }
        ensures kept { IfOk result (λ site. KeepsNothing (kept_by over_memory leaves.items site.conn)) }
        ensures intact { result ≢ Err Damaged }
    {
        let Ok(conn) = Connection::open_in_memory(*leaves.allocator()) else {
            return Err(StoreFault::Memory);
        };
        match SqlSite::adopt(conn, leaves) {
            Ok(site) => Ok(site),
            Err((fault, _)) => Err(fault),
        }
    }
}

impl SqlSite<FileStore<File>> {
    /// The store that a file has already, with these leaves. A file that has nothing is damaged, and so is one that keeps what no
    /// store has left.
    pub fn kept_file(
        rt: &HostRuntime,
        path: &str,
        leaves: Vec<Leaf>,
    ) -> Result<SqlSite<FileStore<File>>, StoreFault>
        ensures leaves { IfOk result (λ site. site.leaves ≡ leaves) }
        ensures sound { IfOk result (λ site. HasCleanDisk (file_state site.conn) → IsTrue (file_state site.conn).is_open → IsStored leaves.items (file_state site.conn).committed) }
    {
        let conn = match Connection::open(rt, path) {
            Ok(conn) => conn,
            Err(error) => return Err(opening_fault(error)),
        };
        if is_empty(conn.schema()) {
            return Err(StoreFault::Damaged);
        }
        SqlSite::hold_sound(conn, leaves)
    }

    /// A store in a file, which has these leaves. A file that isn't there is made.
    pub fn file(
        rt: &HostRuntime,
        path: &str,
        leaves: Vec<Leaf>,
    ) -> Result<SqlSite<FileStore<File>>, StoreFault>
        ensures leaves { IfOk result (λ site. site.leaves ≡ leaves) }
    {
        make_small(rt, path)?;
        let conn = match Connection::open(rt, path) {
            Ok(conn) => conn,
            Err(error) => return Err(opening_fault(error)),
        };
        SqlSite::hold(conn, leaves)
    }
}
