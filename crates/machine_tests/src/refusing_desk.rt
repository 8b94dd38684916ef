//! A coordinator's store whose medium refuses one call.

use crate::refusing::Refuser;
use store::commit::{DeskKept, Voter};
use store::desk_store::DeskStore;
use store::fault::StoreFault;
use store::name::Txn;
use store::plain_desk::PlainDesk;

/// A store in memory that refuses one of its calls.
#[derive(Drop)]
pub(crate) struct RefusingDesk {
    pub(crate) store: PlainDesk,
    pub(crate) refuser: Refuser,
}

impl DeskStore for RefusingDesk {
    ghost use Rattle.std.specs.Prelude.{ℕ};
    ghost use Rattle.store.specs.PlainDesk.{kept_of};

    ghost is_clean = { λ _. Unit {0} };

    ghost is_sound = { λ _. Unit {0} };

    ghost kept = { λ s. kept_of s.store };

    ghost refused = { λ s. s.refuser.refusals };

    fn keep_commit(&mut self, txn: Txn, voters: &[Voter], version: u64) -> Result<(), StoreFault> {
        if self.refuser.refuses("keep_commit") {
            return Err(StoreFault::Refused);
        }
        self.store.keep_commit(txn, voters, version)
    }

    fn drop_commit(&mut self, txn: Txn) -> Result<(), StoreFault> {
        if self.refuser.refuses("drop_commit") {
            return Err(StoreFault::Refused);
        }
        self.store.drop_commit(txn)
    }

    fn next_incarnation(&mut self) -> Result<u64, StoreFault> {
        if self.refuser.refuses("next_incarnation") {
            return Err(StoreFault::Refused);
        }
        self.store.next_incarnation()
    }

    fn load(&mut self) -> Result<DeskKept, StoreFault> {
        if self.refuser.refuses("load") {
            return Err(StoreFault::Refused);
        }
        self.store.load()
    }

    fn refusals(&self) -> u64 {
        self.refuser.refusals()
    }
}
