//! What waits in the tests of threads: a store for another one, and the letters of a site for those of another.

use crate::site_stores::OpensSites;
use catalog::chain::Chain;
use std::alloc::Global;
use std::sync::Arc;
use std::sync::atomic::{AtomicU64, Ordering};
use std::thread;
use std::time::{Clock, Duration};
use store::changes::Changes;
use store::fault::StoreFault;
use store::letter::{Body, Letter};
use store::name::{Ticket, Txn};
use store::order::Order;
use store::plain_site::PlainSite;
use store::prepared::{SiteKept, SiteRows, Unkept};
use store::site_store::SiteStore;
use terms::cond::Conds;
use terms::leaf::Leaf;
use terms::memory::Memory;
use terms::part::Part;
use terms::text::Text;
use wire::gate::Gate;
use world::chain::first_of;

/// How often a store looks whether the other one is read too.
const TURNS: u64 = 1_000_000;

/// A number that stores share.
pub(crate) type Shared = Arc<AtomicU64, Global>;

/// A number that stores share, which is 0.
pub(crate) fn shared(alloc: Global) -> Result<Shared, Memory> {
    Ok(Arc::new(alloc, AtomicU64::new(0))?)
}

/// A store in memory whose first read waits until the first one of another store has begun.
#[derive(Drop)]
pub(crate) struct Meeting<R> {
    store: PlainSite,
    rt: R,
    /// Counts the reads of this store.
    here: Shared,
    /// Counts the reads of the other one.
    there: Shared,
    /// Counts the waits that ran out.
    missed: Shared,
}

impl<R> Meeting<R> {
    /// A store that keeps nothing yet.
    pub(crate) fn new(
        alloc: Global,
        rt: R,
        here: &Shared,
        there: &Shared,
        missed: &Shared,
    ) -> Result<Meeting<R>, Memory>
    where
        R: Drop,
    {
        Ok(Meeting {
            store: PlainSite::new(alloc),
            rt,
            here: Arc::try_clone(here)?,
            there: Arc::try_clone(there)?,
            missed: Arc::try_clone(missed)?,
        })
    }
}

/// A read begins. The first one waits for one of the other store.
fn meet<R: Clock>(rt: &R, here: &Shared, there: &Shared, missed: &Shared) {
    if here.fetch_add(1, Ordering::SeqCst) > 0 {
        return;
    }
    for _ in 0..TURNS {
        if there.load(Ordering::SeqCst) > 0 {
            return;
        }
        thread::sleep(rt, Duration::from_micros(10));
    }
    missed.fetch_add(1, Ordering::SeqCst);
}

impl<R: Clock> SiteStore for Meeting<R> {
    ghost use Rattle.std.specs.Prelude.{ℕ};
    ghost use Rattle.store.specs.ContentLaws.{IsKeyed-made_by};
    ghost use Rattle.store.specs.PlainSite.{kept_of, IsSound};

    ghost is_clean = { λ _. Unit {0} };

    ghost is_sound = { λ s. IsSound s.store };

    ghost kept = { λ s. kept_of s.store };

    ghost refused = { λ s. 0 };

    ghost keyed = { λ s clean sound leaf. IsKeyed-made_by s.store.parts sound leaf };

    fn scan(&mut self, leaf: &Leaf, conds: &Conds) -> Result<Vec<Part>, StoreFault> {
        meet(&self.rt, &self.here, &self.there, &self.missed);
        self.store.scan(leaf, conds)
    }

    fn find(&mut self, leaf: &Leaf, key: i64) -> Result<Option<Part>, StoreFault> {
        meet(&self.rt, &self.here, &self.there, &self.missed);
        self.store.find(leaf, key)
    }

    fn keep_prepared(&mut self, txn: Txn, ticket: Ticket, changes: Changes) -> Result<(), Unkept> {
        self.store.keep_prepared(txn, ticket, changes)
    }

    fn apply(&mut self, ticket: Ticket) -> Result<(), StoreFault> {
        self.store.apply(ticket)
    }

    fn discard(&mut self, ticket: Ticket) -> Result<(), StoreFault> {
        self.store.discard(ticket)
    }

    fn next_incarnation(&mut self) -> Result<u64, StoreFault> {
        self.store.next_incarnation()
    }

    fn rows(&mut self) -> Result<SiteRows, StoreFault> {
        self.store.rows()
    }

    fn load(&mut self) -> Result<SiteKept, StoreFault> {
        self.store.load()
    }

    fn refusals(&self) -> u64 {
        self.store.refusals()
    }
}

/// Opens two stores that wait for each other.
#[derive(Drop)]
pub(crate) struct Meetings<R> {
    pub(crate) rt: R,
    /// Counts the reads of the first store.
    pub(crate) here: Shared,
    /// Counts the reads of the second one.
    pub(crate) there: Shared,
    /// Counts the waits that ran out.
    pub(crate) missed: Shared,
}

impl<R: Clock + Copy + Drop> OpensSites<Meeting<R>> for Meetings<R> {
    fn stores(&self, alloc: Global, chain: &Chain) -> Result<Vec<Meeting<R>>, Memory> {
        if first_of(chain).sites().len() != 2 {
            return Err(Memory);
        }
        let north = Meeting::new(alloc, self.rt, &self.here, &self.there, &self.missed)?;
        let south = Meeting::new(alloc, self.rt, &self.there, &self.here, &self.missed)?;
        let mut stores = Vec::with_capacity(alloc, 2)?;
        stores.push(north)?;
        stores.push(south)?;
        Ok(stores)
    }
}

/// A gate at which the north's fetches wait until the south has taken one.
#[derive(Drop)]
pub(crate) struct SouthFirst<R> {
    rt: R,
    /// Counts the south's fetches.
    south: AtomicU64,
}

impl<R> SouthFirst<R> {
    /// A gate that nothing has passed yet.
    pub(crate) fn new(rt: R) -> SouthFirst<R> {
        SouthFirst {
            rt,
            south: AtomicU64::new(0),
        }
    }
}

fn is_fetch(letter: &Letter) -> bool {
    matches!(&letter.body, Body::Order(Order::Fetch(_)))
}

impl<R: Clock> Gate for SouthFirst<R> {
    fn ready(&self, site: &Text, letter: &Letter) -> bool {
        if !is_fetch(letter) || site.as_str() == "south" || self.south.load(Ordering::SeqCst) > 0 {
            return true;
        }
        thread::sleep(&self.rt, Duration::from_micros(10));
        false
    }

    fn done(&self, site: &Text, letter: &Letter) {
        if is_fetch(letter) && site.as_str() == "south" {
            self.south.fetch_add(1, Ordering::SeqCst);
        }
    }
}
