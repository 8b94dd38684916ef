//! The coordinator's store is opened.

ghost use Rattle.std.specs.Prelude.{◌≡◌, ◌≢◌, ◌⊎◌, IfOk, IfErr, Err, IsTrue, false};
ghost use Rattle.sqlite.specs.Files.{file_state};
ghost use Rattle.sqlite.specs.Held.{state};
ghost use Rattle.sqlite.specs.State.{HasCleanDisk};
ghost use Rattle.sqlite.specs.Steps.{over_memory};
ghost use Rattle.store.specs.declared.fault.StoreFault.TheVariants.{Damaged};
ghost use Rattle.sqlstore.specs.Desk.{IsSoundDesk, desk_kept};
ghost use Rattle.sqlstore.specs.DeskFresh.{FoundsDesk, KeepsNoCommit};
ghost use Rattle.sqlstore.specs.DeskSound.{IsDecided};
ghost use Rattle.sqlstore.specs.DeskTables.{desk_schema};
ghost use Rattle.sqlstore.specs.Rows.{HasSchema};
ghost use Rattle.sqlstore.specs.Site.{IsClean};
ghost use Rattle.sqlstore.specs.Tables.{no_schema};
ghost use Rattle.sqlstore.specs.Frame.{FoundsTables};

use crate::blame::{cause, opening_fault};
use crate::desk::SqlDesk;
use crate::desk_schema::is_desk_schema;
use crate::desk_tables::create;
use crate::open::is_empty;
use crate::small_pages::make_small;
use sqlite::{Alter, Connection, File, FileStore, MemStore};
use std::alloc::Global;
use std::rt::HostRuntime;
use store::desk_store::DeskStore;
use store::fault::StoreFault;

/// Makes the tables of the coordinator, where there is nothing. Tables that are the coordinator's are left as they
/// are.
fn found<S: Alter>(alloc: Global, conn: &mut Connection<S>) -> Result<(), StoreFault>
    requires { conn.old.in_transaction ≡ false }
    ensures { FoundsTables desk_schema FoundsDesk (state S.Store conn.old) (state S.Store conn.new) result }
{
    let _settled = conn.is_autocommit();
    match is_desk_schema(alloc, conn.schema()) {
        Ok(true) => return Ok(()),
        Ok(false) => {}
        Err(_) => return Err(StoreFault::Memory),
    }
    if !is_empty(conn.schema()) {
        return Err(StoreFault::Damaged);
    }
    match create(conn) {
        Ok(()) => Ok(()),
        Err(error) => Err(cause(error)),
    }
}

impl<S: Alter> SqlDesk<S> {
    /// A store over a connection outside of a transaction. In an empty database the tables are made, and in a
    /// coordinator's what is committed stays. Any other is refused as damaged, and comes back as it was.
    pub fn adopt(
        alloc: Global,
        mut conn: Connection<S>,
    ) -> Result<SqlDesk<S>, (StoreFault, Connection<S>)>
        requires { conn.in_transaction ≡ false }
        ensures clean { IfOk result (λ desk. IsClean S.Store desk.conn → IsClean S.Store conn) }
        ensures founds { IfOk result (λ desk. IsClean S.Store desk.conn → FoundsDesk (state S.Store conn).committed (state S.Store desk.conn).committed) }
        ensures fresh { IfOk result (λ desk. IsClean S.Store desk.conn → (state S.Store conn).committed.schema ≡ no_schema → IsSoundDesk S.Store desk.conn × KeepsNoCommit (desk_kept S.Store desk.conn)) }
        ensures back { IfErr result (λ e. IsClean S.Store e.1 → (state S.Store e.1).committed ≡ (state S.Store conn).committed) }
        ensures intact { IfErr result (λ e. IsClean S.Store e.1 → ((state S.Store conn).committed.schema ≡ desk_schema) ⊎ ((state S.Store conn).committed.schema ≡ no_schema) → e.0 ≢ Damaged) }
    {
        match found(alloc, &mut conn) {
            Ok(()) => Ok(SqlDesk::over(alloc, conn)),
            Err(fault) => Err((fault, conn)),
        }
    }
}

impl<S: Alter + Drop> SqlDesk<S> {
    /// A store over such a connection, of which nothing is left where it is refused.
    fn hold(alloc: Global, conn: Connection<S>) -> Result<SqlDesk<S>, StoreFault>
        requires { conn.in_transaction ≡ false }
        ensures { IfOk result (λ desk. HasCleanDisk (state S.Store desk.conn) → IsTrue (state S.Store desk.conn).is_open → HasSchema desk_schema (state S.Store desk.conn).committed) }
    {
        match SqlDesk::adopt(alloc, conn) {
            Ok(desk) => Ok(desk),
            Err((fault, _)) => Err(fault),
        }
    }

    /// The same, where all that its tables keep is as a store leaves it.
    fn hold_sound(alloc: Global, conn: Connection<S>) -> Result<SqlDesk<S>, StoreFault>
        requires { conn.in_transaction ≡ false }
        ensures tables { IfOk result (λ desk. HasCleanDisk (state S.Store desk.conn) → IsTrue (state S.Store desk.conn).is_open → (state S.Store desk.conn).committed.schema ≡ desk_schema) }
        ensures sound { IfOk result (λ desk. HasCleanDisk (state S.Store desk.conn) → IsTrue (state S.Store desk.conn).is_open → IsDecided (state S.Store desk.conn).committed) }
    {
        let mut desk = SqlDesk::hold(alloc, conn)?;
        match desk.load() {
            Ok(_kept) => Ok(desk),
            Err(fault) => Err(fault),
        }
    }
}

impl SqlDesk<MemStore> {
    /// A new store in memory.
    pub fn memory(alloc: Global) -> Result<SqlDesk<MemStore>, StoreFault>
        ensures clean { IfOk result (λ desk. IsClean over_memory desk.conn) }
        ensures sound { IfOk result (λ desk. IsSoundDesk over_memory desk.conn) }
        ensures kept { IfOk result (λ desk. KeepsNoCommit (desk_kept over_memory desk.conn)) }
        ensures intact { result ≢ Err Damaged }
    {
        let Ok(conn) = Connection::open_in_memory(alloc) else {
            return Err(StoreFault::Memory);
        };
        match SqlDesk::adopt(alloc, conn) {
            Ok(desk) => Ok(desk),
            Err((fault, _)) => Err(fault),
        }
    }
}

impl SqlDesk<FileStore<File>> {
    /// The store that a file has already. A file that has nothing is damaged, and so is one that keeps what no store has left.
    pub fn kept_file(rt: &HostRuntime, path: &str) -> Result<SqlDesk<FileStore<File>>, StoreFault>
        ensures tables { IfOk result (λ desk. HasCleanDisk (file_state desk.conn) → IsTrue (file_state desk.conn).is_open → (file_state desk.conn).committed.schema ≡ desk_schema) }
        ensures sound { IfOk result (λ desk. HasCleanDisk (file_state desk.conn) → IsTrue (file_state desk.conn).is_open → IsDecided (file_state desk.conn).committed) }
    {
        let alloc = rt.alloc();
        let conn = match Connection::open(rt, path) {
            Ok(conn) => conn,
            Err(error) => return Err(opening_fault(error)),
        };
        if is_empty(conn.schema()) {
            return Err(StoreFault::Damaged);
        }
        SqlDesk::hold_sound(alloc, conn)
    }

    /// A store in a file. A file that isn't there is made.
    pub fn file(rt: &HostRuntime, path: &str) -> Result<SqlDesk<FileStore<File>>, StoreFault>
        ensures { IfOk result (λ desk. HasCleanDisk (file_state desk.conn) → IsTrue (file_state desk.conn).is_open → (file_state desk.conn).committed.schema ≡ desk_schema) }
    {
        make_small(rt, path)?;
        let conn = match Connection::open(rt, path) {
            Ok(conn) => conn,
            Err(error) => return Err(opening_fault(error)),
        };
        SqlDesk::hold(rt.alloc(), conn)
    }
}
