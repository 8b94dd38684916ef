//! A site's store whose medium refuses one call, and what counts the calls.

ghost use Rattle.std.specs.Prelude.{◌≡◌, ◌≤◌, true, false};
ghost use Rattle.store.specs.Fault.{HasRefused};

use store::changes::Changes;
use store::fault::StoreFault;
use store::name::{Ticket, Txn};
use store::plain_site::PlainSite;
use store::prepared::{SiteKept, SiteRows, Unkept};
use store::site_store::SiteStore;
use terms::cond::Conds;
use terms::leaf::Leaf;
use terms::part::Part;

/// Counts the calls of a store, and refuses the one of a number, counted from 1.
#[derive(Drop)]
pub(crate) struct Refuser {
    wanted: u64,
    calls: u64,
    refusals: u64,
    /// The call that was refused, or `none`.
    met: &'static str,
}

impl Refuser {
    /// One that refuses the call of this number; with 0, none.
    pub(crate) fn new(wanted: u64) -> Refuser {
        Refuser {
            wanted,
            calls: 0,
            refusals: 0,
            met: "none",
        }
    }

    /// Counts this call, and says whether it is refused.
    pub(crate) fn refuses(&mut self, call: &'static str) -> bool
        ensures refused { result ≡ true → HasRefused self.old.refusals self.new.refusals }
        ensures counts { self.old.refusals ≤ self.new.refusals }
        ensures same { result ≡ false → self.new.refusals ≡ self.old.refusals }
    {
        let _before = self.refusals;
        self.calls = self.calls.saturating_add(1);
        if self.calls != self.wanted {
            return false;
        }
        self.refusals = self.refusals.saturating_add(1);
        self.met = call;
        true
    }

    /// How many calls were refused.
    pub(crate) fn refusals(&self) -> u64
        ensures { result ≡ self.now.refusals }
    {
        self.refusals
    }

    /// The call that was refused, or `none`.
    pub(crate) fn met(&self) -> &'static str {
        self.met
    }
}

/// A store in memory that refuses one of its calls.
#[derive(Drop)]
pub(crate) struct Refusing {
    pub(crate) store: PlainSite,
    pub(crate) refuser: Refuser,
}

impl SiteStore for Refusing {
    ghost use Rattle.std.specs.Prelude.{ℕ};
    ghost use Rattle.store.specs.ContentLaws.{IsKeyed-made_by};
    ghost use Rattle.store.specs.PlainSite.{kept_of, IsSound};

    ghost is_clean = { λ _. Unit {0} };

    ghost is_sound = { λ s. IsSound s.store };

    ghost kept = { λ s. kept_of s.store };

    ghost refused = { λ s. s.refuser.refusals };

    ghost keyed = { λ s clean sound leaf. IsKeyed-made_by s.store.parts sound leaf };

    fn scan(&mut self, leaf: &Leaf, conds: &Conds) -> Result<Vec<Part>, StoreFault> {
        if self.refuser.refuses("scan") {
            return Err(StoreFault::Refused);
        }
        self.store.scan(leaf, conds)
    }

    fn find(&mut self, leaf: &Leaf, key: i64) -> Result<Option<Part>, StoreFault> {
        if self.refuser.refuses("find") {
            return Err(StoreFault::Refused);
        }
        self.store.find(leaf, key)
    }

    fn keep_prepared(&mut self, txn: Txn, ticket: Ticket, changes: Changes) -> Result<(), Unkept> {
        if self.refuser.refuses("keep_prepared") {
            return Err(Unkept {
                fault: StoreFault::Refused,
                changes,
            });
        }
        self.store.keep_prepared(txn, ticket, changes)
    }

    fn apply(&mut self, ticket: Ticket) -> Result<(), StoreFault> {
        if self.refuser.refuses("apply") {
            return Err(StoreFault::Refused);
        }
        self.store.apply(ticket)
    }

    fn discard(&mut self, ticket: Ticket) -> Result<(), StoreFault> {
        if self.refuser.refuses("discard") {
            return Err(StoreFault::Refused);
        }
        self.store.discard(ticket)
    }

    fn next_incarnation(&mut self) -> Result<u64, StoreFault> {
        if self.refuser.refuses("next_incarnation") {
            return Err(StoreFault::Refused);
        }
        self.store.next_incarnation()
    }

    fn rows(&mut self) -> Result<SiteRows, StoreFault> {
        if self.refuser.refuses("rows") {
            return Err(StoreFault::Refused);
        }
        self.store.rows()
    }

    fn load(&mut self) -> Result<SiteKept, StoreFault> {
        if self.refuser.refuses("load") {
            return Err(StoreFault::Refused);
        }
        self.store.load()
    }

    fn refusals(&self) -> u64 {
        self.refuser.refusals()
    }
}
