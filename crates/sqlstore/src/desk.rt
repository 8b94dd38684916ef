//! The coordinator's store in SQLite.

ghost use Rattle.std.specs.Prelude.{◌≡◌, false, IfOk, IsTrue};
ghost use Rattle.std.specs.Bool.{Decides};
ghost use Rattle.sqlite.specs.Held.{state};
ghost use Rattle.sqlstore.specs.DeskTables.{desk_schema};

use crate::blame::{blame, refuse};
use crate::commit::{decide, undecide};
use crate::commit_rows::kept_of;
use crate::decision::decision_of;
use crate::desk_rows::desk_rows;
use crate::desk_schema::is_desk_schema;
use crate::epoch::begin_next;
use crate::visit::txn_of;
use sqlite::{Alter, Connection};
use std::alloc::Global;
use store::commit::{DeskKept, Voter};
use store::desk_store::DeskStore;
use store::fault::StoreFault;
use store::name::Txn;
use terms::memory::Memory;

/// The coordinator's store in a SQLite database of its own.
#[derive(Drop)]
pub struct SqlDesk<S: Alter> {
    alloc: Global,
    conn: Connection<S>,
    refusals: u64,
    ghost settled: { conn.in_transaction ≡ false },
}

/// Whether the tables are a coordinator's.
fn is_ours<S: Alter>(alloc: Global, conn: &Connection<S>) -> Result<bool, Memory>
    requires { conn.now.in_transaction ≡ false }
    ensures { IfOk result (λ is. IsTrue (state S.Store conn.now).is_open → Decides is ((state S.Store conn.now).committed.schema ≡ desk_schema)) }
{
    let _settled = conn.is_autocommit();
    is_desk_schema(alloc, conn.schema())
}

impl<S: Alter> SqlDesk<S> {
    /// A store over a connection to the tables of a coordinator.
    pub(crate) fn over(alloc: Global, conn: Connection<S>) -> SqlDesk<S>
        requires { conn.in_transaction ≡ false }
        ensures { result.conn ≡ conn }
    {
        SqlDesk {
            alloc,
            conn,
            refusals: 0,
        }
    }
}

impl<S: Alter> DeskStore for SqlDesk<S> {
    ghost use Rattle.sqlstore.specs.Desk.{IsSoundDesk, desk_kept};
    ghost use Rattle.sqlstore.specs.Site.{IsClean};

    ghost is_clean = { λ desk. IsClean S.Store desk.conn };

    ghost is_sound = { λ desk. IsSoundDesk S.Store desk.conn };

    ghost kept = { λ desk. desk_kept S.Store desk.conn };

    ghost refused = { λ desk. desk.refusals };

    fn keep_commit(&mut self, txn: Txn, voters: &[Voter], version: u64) -> Result<(), StoreFault> {
        let _live = self.conn.schema();
        let decision = match decision_of(self.alloc, txn, voters, version) {
            Ok(Some(decision)) => decision,
            Ok(None) => return Err(refuse(&mut self.refusals)),
            Err(_) => return Err(StoreFault::Memory),
        };
        match decide(&mut self.conn, &decision) {
            Ok(()) => Ok(()),
            Err(error) => Err(blame(&mut self.refusals, error)),
        }
    }

    fn drop_commit(&mut self, txn: Txn) -> Result<(), StoreFault> {
        let _live = self.conn.schema();
        let Some(numbers) = txn_of(txn) else {
            return Err(refuse(&mut self.refusals));
        };
        match undecide(&mut self.conn, &numbers) {
            Ok(()) => Ok(()),
            Err(error) => Err(blame(&mut self.refusals, error)),
        }
    }

    fn next_incarnation(&mut self) -> Result<u64, StoreFault> {
        let _live = self.conn.schema();
        match begin_next(&mut self.conn) {
            Ok(Some(life)) => Ok(life),
            Ok(None) => Err(refuse(&mut self.refusals)),
            Err(error) => Err(blame(&mut self.refusals, error)),
        }
    }

    fn load(&mut self) -> Result<DeskKept, StoreFault> {
        match is_ours(self.alloc, &self.conn) {
            Ok(true) => {}
            Ok(false) => return Err(StoreFault::Damaged),
            Err(_) => return Err(StoreFault::Memory),
        }
        let _live = self.conn.schema();
        match desk_rows(&mut self.conn) {
            Ok(rows) => kept_of(self.alloc, &rows),
            Err(error) => Err(blame(&mut self.refusals, error)),
        }
    }

    fn refusals(&self) -> u64 {
        self.refusals
    }
}
