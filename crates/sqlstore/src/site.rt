//! A site's store in SQLite.

ghost use Rattle.std.specs.Prelude.{◌≡◌, false, IfOk, OnOk};
ghost use Rattle.sqlite.specs.Held.{state};
ghost use Rattle.store.specs.Frame.{LeavesStore, Reads, ChangesOrFails};
ghost use Rattle.store.specs.SiteContent.{IsUnchanged, ListsRows, MayPrepare, Prepares};
ghost use Rattle.sqlstore.specs.Content.{AreNamed};
ghost use Rattle.sqlstore.specs.Gathered.{ShowsTables};
ghost use Rattle.sqlstore.specs.Site.{IsClean, IsSound, kept_by};
ghost use Rattle.sqlstore.specs.Tables.{site_schema};

use crate::blame::{blame, refuse};
use crate::calls;
use crate::find::{has, name_of, part_in, read_numbers};
use crate::gathered::{Gathered, gather};
use crate::keep::keep;
use crate::life::live_next;
use crate::listing::parts_meeting;
use crate::prepared_rows::site_rows;
use crate::promise::promise_of;
use crate::reading::{committed_at, committed_of};
use crate::schema::test_schema;
use crate::visit::visit_of;
use crate::walk::{check_parts, load_parts};
use sqlite::{Alter, Connection};
use store::changes::Changes;
use store::fault::StoreFault;
use store::name::{Ticket, Txn};
use store::prepared::{SiteKept, SiteRows, Unkept};
use store::site_store::SiteStore;
use terms::cond::Conds;
use terms::leaf::Leaf;
use terms::part::Part;

/// A store of a site in a SQLite database of its own.
#[derive(Drop)]
pub struct SqlSite<S: Alter> {
    conn: Connection<S>,
    leaves: Vec<Leaf>,
    refusals: u64,
    ghost settled: { conn.in_transaction ≡ false },
    ghost named: { AreNamed leaves.items },
}

impl<S: Alter> SqlSite<S> {
    /// A store over a connection to the tables of a site, which has these leaves.
    pub fn over(conn: Connection<S>, leaves: Vec<Leaf>) -> SqlSite<S>
        requires { conn.in_transaction ≡ false }
        ensures conn { result.conn ≡ conn }
        ensures leaves { result.leaves ≡ leaves }
    {
        read_numbers(leaves.as_slice());
        SqlSite {
            conn,
            leaves,
            refusals: 0,
        }
    }

    /// Gives the connection back, with no call of it.
    pub fn into_connection(self) -> Connection<S>
        ensures { result ≡ self.conn }
    {
        self.conn
    }

    /// Keeps what a visit is to do, until it is made or dropped.
    fn keep(&mut self, txn: Txn, ticket: Ticket, changes: &Changes) -> Result<(), StoreFault>
        ensures leaves { LeavesStore (λ s. IsClean S.Store s.conn) (λ s. IsSound S.Store s.leaves.items s.conn) (λ s. s.refusals) self.old self.new }
        ensures ok { IsClean S.Store self.new.conn → IsSound S.Store self.old.leaves.items self.old.conn → MayPrepare ticket changes.now (kept_by S.Store self.old.leaves.items self.old.conn)
            → OnOk result (Prepares ticket (record { txn = txn; changes = changes.now }) (kept_by S.Store self.old.leaves.items self.old.conn) (kept_by S.Store self.new.leaves.items self.new.conn)) }
        ensures fails { ChangesOrFails (λ s. IsClean S.Store s.conn) (λ s. IsSound S.Store s.leaves.items s.conn) (λ s. kept_by S.Store s.leaves.items s.conn) IsUnchanged (λ s. s.refusals) self.old self.new result }
    {
        let _live = self.conn.schema();
        let _keyed = changes.len();
        let alloc = *self.leaves.allocator();
        let promise = match promise_of(alloc, self.leaves.as_slice(), txn, ticket, changes) {
            Ok(Some(promise)) => promise,
            Ok(None) => return Err(refuse(&mut self.refusals)),
            Err(_) => return Err(StoreFault::Memory),
        };
        match keep(
            &mut self.conn,
            &promise.visit,
            &promise.txn,
            &promise.intents,
        ) {
            Ok(()) => Ok(()),
            Err(error) => Err(blame(&mut self.refusals, error)),
        }
    }

    /// The rows of each table but that of parts, where the tables are a site's.
    fn gather(&mut self) -> Result<Gathered, StoreFault>
        ensures leaves { LeavesStore (λ s. IsClean S.Store s.conn) (λ s. IsSound S.Store s.leaves.items s.conn) (λ s. s.refusals) self.old self.new }
        ensures shows { IsClean S.Store self.new.conn
            → IfOk result (λ tables. ShowsTables (state S.Store self.old.conn).committed tables × ((state S.Store self.old.conn).committed.schema ≡ site_schema)) }
        ensures same { IsClean S.Store self.new.conn → OnOk result ((state S.Store self.new.conn).committed ≡ (state S.Store self.old.conn).committed) }
        ensures site { self.new.leaves ≡ self.old.leaves }
        ensures reads { Reads (λ s. IsClean S.Store s.conn) (λ s. IsSound S.Store s.leaves.items s.conn) (λ s. kept_by S.Store s.leaves.items s.conn) IsUnchanged (λ s. s.refusals) self.old self.new result }
    {
        test_schema(*self.leaves.allocator(), &self.conn)?;
        match gather(&mut self.conn) {
            Ok(all) => Ok(all),
            Err(error) => Err(blame(&mut self.refusals, error)),
        }
    }

    /// What is kept beside the fragments, where all is as a store leaves it.
    pub(crate) fn sound_rows(&mut self) -> Result<SiteRows, StoreFault>
        ensures leaves { LeavesStore (λ s. IsClean S.Store s.conn) (λ s. IsSound S.Store s.leaves.items s.conn) (λ s. s.refusals) self.old self.new }
        ensures learnt { IsClean S.Store self.new.conn → OnOk result (IsSound S.Store self.old.leaves.items self.old.conn) }
        ensures all { IsClean S.Store self.new.conn → IfOk result (ListsRows (kept_by S.Store self.new.leaves.items self.new.conn)) }
        ensures site { self.new.leaves ≡ self.old.leaves }
        ensures reads { Reads (λ s. IsClean S.Store s.conn) (λ s. IsSound S.Store s.leaves.items s.conn) (λ s. kept_by S.Store s.leaves.items s.conn) IsUnchanged (λ s. s.refusals) self.old self.new result }
    {
        let _live = self.conn.schema();
        let tables = self.gather()?;
        let alloc = *self.leaves.allocator();
        let leaves = self.leaves.as_slice();
        let rows = site_rows(alloc, leaves, &tables)?;
        check_parts(&mut self.conn, &mut self.refusals, alloc, leaves)?;
        Ok(rows)
    }
}

impl<S: Alter> SiteStore for SqlSite<S> {
    ghost use Rattle.sqlstore.specs.Site.{IsClean, IsSound, kept_by};
    ghost use Rattle.sqlstore.specs.Keyed.{stored_keyed};

    ghost is_clean = { λ site. IsClean S.Store site.conn };

    ghost is_sound = { λ site. IsSound S.Store site.leaves.items site.conn };

    ghost kept = { λ site. kept_by S.Store site.leaves.items site.conn };

    ghost refused = { λ site. site.refusals };

    ghost keyed = { λ site clean sound leaf. stored_keyed site.leaves.items _ sound leaf };

    fn scan(&mut self, leaf: &Leaf, conds: &Conds) -> Result<Vec<Part>, StoreFault> {
        let alloc = *self.leaves.allocator();
        let Ok(name) = name_of(alloc, leaf) else {
            return Err(StoreFault::Memory);
        };
        let _live = self.conn.schema();
        match committed_of(&mut self.conn, &name) {
            Ok(rows) => parts_meeting(alloc, self.leaves.as_slice(), leaf, conds, &rows),
            Err(error) => Err(blame(&mut self.refusals, error)),
        }
    }

    fn find(&mut self, leaf: &Leaf, key: i64) -> Result<Option<Part>, StoreFault> {
        if !has(self.leaves.as_slice(), leaf) {
            return Ok(None);
        }
        let alloc = *self.leaves.allocator();
        let Ok(name) = name_of(alloc, leaf) else {
            return Err(StoreFault::Memory);
        };
        let _live = self.conn.schema();
        match committed_at(&mut self.conn, &name, &key) {
            Ok(rows) => part_in(alloc, &rows),
            Err(error) => Err(blame(&mut self.refusals, error)),
        }
    }

    fn keep_prepared(&mut self, txn: Txn, ticket: Ticket, changes: Changes) -> Result<(), Unkept> {
        match self.keep(txn, ticket, &changes) {
            Ok(()) => Ok(()),
            Err(fault) => Err(Unkept { fault, changes }),
        }
    }

    fn apply(&mut self, ticket: Ticket) -> Result<(), StoreFault> {
        let _live = self.conn.schema();
        let Some(visit) = visit_of(ticket) else {
            return Err(refuse(&mut self.refusals));
        };
        match calls::apply(&mut self.conn, &visit) {
            Ok(()) => Ok(()),
            Err(error) => Err(blame(&mut self.refusals, error)),
        }
    }

    fn discard(&mut self, ticket: Ticket) -> Result<(), StoreFault> {
        let _live = self.conn.schema();
        let Some(visit) = visit_of(ticket) else {
            return Err(refuse(&mut self.refusals));
        };
        match calls::discard(&mut self.conn, &visit) {
            Ok(()) => Ok(()),
            Err(error) => Err(blame(&mut self.refusals, error)),
        }
    }

    fn next_incarnation(&mut self) -> Result<u64, StoreFault> {
        let _live = self.conn.schema();
        match live_next(&mut self.conn) {
            Ok(Some(life)) => Ok(life),
            Ok(None) => Err(refuse(&mut self.refusals)),
            Err(error) => Err(blame(&mut self.refusals, error)),
        }
    }

    fn rows(&mut self) -> Result<SiteRows, StoreFault> {
        self.sound_rows()
    }

    fn load(&mut self) -> Result<SiteKept, StoreFault> {
        let _live = self.conn.schema();
        let tables = self.gather()?;
        let alloc = *self.leaves.allocator();
        let leaves = self.leaves.as_slice();
        let rows = site_rows(alloc, leaves, &tables)?;
        let parts = load_parts(&mut self.conn, &mut self.refusals, alloc, leaves)?;
        Ok(SiteKept { parts, rows })
    }

    fn refusals(&self) -> u64 {
        self.refusals
    }
}
