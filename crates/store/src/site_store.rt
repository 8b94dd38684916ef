//! Stores of sites: fragments, prepared rows and an incarnation.

ghost use Rattle.std.specs.Prelude.{◌≡◌, ◌≢◌, ◌≤◌, ◌<◌, ◌+◌, ◌^◌, ℕ, Some, None, Ok, Err, IfOk, IfErr, OnOk, OnErr};
ghost use Rattle.std.specs.FinMap as map;
ghost use Rattle.terms.specs.declared.leaf.Leaf.{Leaf as LeafName};
ghost use Rattle.store.specs.declared.prepared.Prepared.{Prepared as Row};
ghost use Rattle.store.specs.Content.{IsKeyed, parts};
ghost use Rattle.store.specs.Fault.{HasRefused};
ghost use Rattle.store.specs.Frame.{LeavesStore, Reads, ChangesOrFails};
ghost use Rattle.store.specs.SiteContent.{SiteContent, IsUnchanged, MayPrepare, Prepares, Applies, Discards, BeginsLife, Lists, ListsRows};

use crate::changes::Changes;
use crate::fault::StoreFault;
use crate::name::{Ticket, Txn};
use crate::prepared::{SiteKept, SiteRows, Unkept};
use terms::cond::Conds;
use terms::leaf::Leaf;
use terms::part::Part;

/// A store of a site. What its clauses say holds where the store is clean as the call ends. That it is
/// sound is learned from `rows` or `load`, and kept by the other calls.
pub trait SiteStore {
    /// No wrong answer of the medium was taken, and it still answers.
    ghost is_clean: { Self → Type 0 };

    /// What is kept is as stores leave it.
    ghost is_sound: { Self → Type 0 };

    ghost kept: { Self → SiteContent };

    /// How often the medium has refused.
    ghost refused: { Self → ℕ };

    /// The parts of a leaf that meet conditions, in the order of their keys. A condition is on a place of the
    /// part, the key at 0.
    fn scan(&mut self, leaf: &Leaf, conds: &Conds) -> Result<Vec<Part>, StoreFault>
        ensures leaves { LeavesStore is_clean is_sound refused self.old self.new }
        ensures parts { is_clean self.new → is_sound self.old → IfOk result (λ found. found.items ≡ parts conds.now ((kept self.old).content leaf.now)) }
        ensures reads { Reads is_clean is_sound kept IsUnchanged refused self.old self.new result };

    /// The part at a key of a leaf, if there is one.
    fn find(&mut self, leaf: &Leaf, key: i64) -> Result<Option<Part>, StoreFault>
        ensures leaves { LeavesStore is_clean is_sound refused self.old self.new }
        ensures part { is_clean self.new → is_sound self.old → IfOk result (λ found. found ≡ map.get ((kept self.old).content leaf.now) key) }
        ensures reads { Reads is_clean is_sound kept IsUnchanged refused self.old self.new result };

    /// Keeps what a visit is to do, until it is applied or discarded. The ticket has no row yet, and there are
    /// changes, of leaves that the store has alone. Changes that were not kept come back.
    fn keep_prepared(&mut self, txn: Txn, ticket: Ticket, changes: Changes) -> Result<(), Unkept>
        ensures leaves { LeavesStore is_clean is_sound refused self.old self.new }
        ensures ok { is_clean self.new → is_sound self.old → MayPrepare ticket changes (kept self.old)
            → OnOk result (Prepares ticket (record { txn = txn; changes = changes }) (kept self.old) (kept self.new)) }
        ensures err { is_clean self.new → is_sound self.old → OnErr result (IsUnchanged (kept self.old) (kept self.new)) }
        ensures back { IfErr result (λ unkept. unkept.changes ≡ changes) }
        ensures refusal { IfErr result (λ unkept. unkept.fault ≡ StoreFault.Refused → HasRefused (refused self.old) (refused self.new)) }
        ensures intact { IfErr result (λ unkept. unkept.fault ≢ StoreFault.Damaged) };

    /// Makes the changes of a ticket's row, which goes. Without a row nothing is changed.
    fn apply(&mut self, ticket: Ticket) -> Result<(), StoreFault>
        ensures leaves { LeavesStore is_clean is_sound refused self.old self.new }
        ensures ok { is_clean self.new → is_sound self.old → (row : Row) → (kept self.old).prepared ticket ≡ Some row
            → OnOk result (Applies ticket row.changes (kept self.old) (kept self.new)) }
        ensures none { is_clean self.new → is_sound self.old → (kept self.old).prepared ticket ≡ None → IsUnchanged (kept self.old) (kept self.new) }
        ensures fails { ChangesOrFails is_clean is_sound kept IsUnchanged refused self.old self.new result };

    /// Drops a ticket's row, if it has one.
    fn discard(&mut self, ticket: Ticket) -> Result<(), StoreFault>
        ensures leaves { LeavesStore is_clean is_sound refused self.old self.new }
        ensures ok { is_clean self.new → is_sound self.old → OnOk result (Discards ticket (kept self.old) (kept self.new)) }
        ensures fails { ChangesOrFails is_clean is_sound kept IsUnchanged refused self.old self.new result };

    /// Begins the next incarnation, and answers it. The caller knows from `rows` that it stays below the
    /// limit.
    fn next_incarnation(&mut self) -> Result<u64, StoreFault>
        ensures leaves { LeavesStore is_clean is_sound refused self.old self.new }
        ensures ok { is_clean self.new → is_sound self.old → (kept self.old).life + 1 < 2 ^ 63 → OnOk result (BeginsLife (kept self.old) (kept self.new)) }
        ensures life { is_clean self.new → is_sound self.old → IfOk result (λ life. life ≡ (kept self.new).life) }
        ensures fails { ChangesOrFails is_clean is_sound kept IsUnchanged refused self.old self.new result };

    /// The prepared rows and the incarnation, without the fragments. A store that answers them is sound.
    fn rows(&mut self) -> Result<SiteRows, StoreFault>
        ensures leaves { LeavesStore is_clean is_sound refused self.old self.new }
        ensures learnt { is_clean self.new → OnOk result (is_sound self.old) }
        ensures all { is_clean self.new → IfOk result (ListsRows (kept self.new)) }
        ensures reads { Reads is_clean is_sound kept IsUnchanged refused self.old self.new result };

    /// All that is kept. A store that answers it is sound.
    fn load(&mut self) -> Result<SiteKept, StoreFault>
        ensures leaves { LeavesStore is_clean is_sound refused self.old self.new }
        ensures learnt { is_clean self.new → OnOk result (is_sound self.old) }
        ensures all { is_clean self.new → IfOk result (Lists (kept self.new)) }
        ensures reads { Reads is_clean is_sound kept IsUnchanged refused self.old self.new result };

    /// How often the medium has refused.
    fn refusals(&self) -> u64
        ensures { result ≡ refused self.now };

    /// Each part stands under its own key.
    ghost keyed: { (store : Self) → is_clean store → is_sound store → (leaf : LeafName) → IsKeyed ((kept store).content leaf) };
}
