//! Stores of the coordinator: commit rows, an incarnation and the catalogue's version.

ghost use Rattle.std.specs.Prelude.{◌≡◌, ◌≢◌, ◌≤◌, ◌<◌, ◌+◌, ◌^◌, ℕ, None, Err, IfOk, OnOk, OnErr};
ghost use Rattle.store.specs.DeskContent.{DeskContent, AreVoters, IsUnchanged, KeepsCommit, DropsCommit, BeginsLife, Lists};
ghost use Rattle.store.specs.Frame.{LeavesStore, Reads, ChangesOrFails};

use crate::commit::{DeskKept, Voter};
use crate::fault::StoreFault;
use crate::name::Txn;

/// A store of the coordinator. What its clauses say holds where the store is clean as the call ends.
/// That it is sound is learned from `load`, and kept by the other calls.
pub trait DeskStore {
    /// No wrong answer of the medium was taken, and it still answers.
    ghost is_clean: { Self → Type 0 };

    /// What is kept is as stores leave it.
    ghost is_sound: { Self → Type 0 };

    ghost kept: { Self → DeskContent };

    /// How often the medium has refused.
    ghost refused: { Self → ℕ };

    /// Keeps that a transaction is committed, until the row is dropped, and which version of the catalogue is in
    /// force from then on, in one change. It has no commit row yet; without voters it gets none.
    fn keep_commit(&mut self, txn: Txn, voters: &[Voter], version: u64) -> Result<(), StoreFault>
        ensures leaves { LeavesStore is_clean is_sound refused self.old self.new }
        ensures ok { is_clean self.new → is_sound self.old → (kept self.old).commits txn ≡ None → AreVoters voters.now
            → OnOk result (KeepsCommit txn voters.now version (kept self.old) (kept self.new)) }
        ensures fails { ChangesOrFails is_clean is_sound kept IsUnchanged refused self.old self.new result };

    /// Drops a transaction's commit row, if it has one.
    fn drop_commit(&mut self, txn: Txn) -> Result<(), StoreFault>
        ensures leaves { LeavesStore is_clean is_sound refused self.old self.new }
        ensures ok { is_clean self.new → is_sound self.old → OnOk result (DropsCommit txn (kept self.old) (kept self.new)) }
        ensures fails { ChangesOrFails is_clean is_sound kept IsUnchanged refused self.old self.new result };

    /// Begins the next incarnation, and answers it. The caller knows from `load` that it stays below the
    /// limit.
    fn next_incarnation(&mut self) -> Result<u64, StoreFault>
        ensures leaves { LeavesStore is_clean is_sound refused self.old self.new }
        ensures ok { is_clean self.new → is_sound self.old → (kept self.old).life + 1 < 2 ^ 63 → OnOk result (BeginsLife (kept self.old) (kept self.new)) }
        ensures life { is_clean self.new → is_sound self.old → IfOk result (λ life. life ≡ (kept self.new).life) }
        ensures fails { ChangesOrFails is_clean is_sound kept IsUnchanged refused self.old self.new result };

    /// All that is kept. A store that answers it is sound.
    fn load(&mut self) -> Result<DeskKept, StoreFault>
        ensures leaves { LeavesStore is_clean is_sound refused self.old self.new }
        ensures learnt { is_clean self.new → OnOk result (is_sound self.old) }
        ensures all { is_clean self.new → IfOk result (Lists (kept self.new)) }
        ensures reads { Reads is_clean is_sound kept IsUnchanged refused self.old self.new result };

    /// How often the medium has refused.
    fn refusals(&self) -> u64
        ensures { result ≡ refused self.now };
}
