//! What the coordinator has in memory, and a restart loses.

ghost use Rattle.std.specs.Prelude.{◌≡◌, ◌≢◌, ◌+◌, ◌-◌, ◌^◌, ◌<◌, ◌≤◌, suc, true, false, [], ◌⊎◌, ◌&&◌, Some, IfOk, IfErr, OnOk, OnErr, if◌then◌else◌, map};
ghost use Rattle.std.specs.BTreeMap as tree;
ghost use Rattle.std.specs.BTreeMap.{insert_entry, is_at, IsOrdered};
ghost use Rattle.std.specs.Map.{set_value, remove_entry};
ghost use Rattle.std.specs.Option.{option_copied};
ghost use Rattle.store.specs.Name.{txn_cmp};
ghost use Rattle.desk.specs.declared.refusal.Refusal.TheVariants as refusals;
ghost use Rattle.desk.specs.declared.transaction.TxnState.TheVariants as standing;
ghost use Rattle.desk.specs.declared.transaction.TxnState.{TxnState as TxnStateNow};
ghost use Rattle.desk.specs.declared.transition.After.TheVariants as afters;
ghost use Rattle.desk.specs.State.{closes, is_open, settled, volatile_from, volatile_of};
ghost use Rattle.desk.specs.declared.transaction.Undecided.{Undecided as UndecidedNow};
ghost use Rattle.desk.specs.Begun.{first_of, next_of};
ghost use Rattle.desk.specs.Commit.{with_counted};
ghost use Rattle.desk.specs.Transition.{is_moving};
ghost use Rattle.std.specs.List.{list_any};

use crate::commit::count_in;
use crate::participant::Participant;
use crate::refusal::Refusal;
use crate::transaction::{Stage, TxnState, TxnStates, Undecided};
use crate::transition::After;
use std::alloc::Global;
use std::collections::BTreeMap;
use std::mem;
use store::name::Txn;
use store::reply::Vote;
use terms::seq::Seq;
use terms::text::Text;

/// How many transactions may be undecided.
const UNDECIDED: u64 = 256;

/// The greatest number of a transaction, or of an operation in a visit.
pub(crate) const LAST: u64 = 0x7fff_ffff_ffff_ffff;

/// What the coordinator has in memory.
#[derive(Drop)]
pub(crate) struct Volatile {
    pub(crate) alloc: Global,
    pub(crate) standings: TxnStates,
    /// How many transactions are undecided.
    pub(crate) undecided: u64,
    pub(crate) life: u64,
    /// The number of the last transaction that was begun in this life.
    pub(crate) number: u64,
    /// The catalogue's version, as the store keeps it.
    pub(crate) version: u64,
}

/// Whether a transaction is undecided.
fn is_open(standing: &TxnState) -> bool
    ensures { result ≡ is_open (Some standing.now) }
{
    match standing {
        TxnState::Undecided(_) => true,
        TxnState::Committed(_) => false,
    }
}

/// Whether an undecided transaction stands there that gives a relation another split.
fn is_moving(standing: &TxnState) -> bool
    ensures { result ≡ is_moving (Some standing.now) }
{
    match standing {
        TxnState::Undecided(undecided) => undecided.moves,
        TxnState::Committed(_) => false,
    }
}

/// Whether what stands after a step is undecided no longer.
fn closes(after: &After) -> bool
    ensures { result ≡ closes after.now }
{
    match after {
        After::Stays => false,
        After::Ends => true,
        After::Becomes(standing) => !is_open(standing),
    }
}

/// Something else stands behind a transaction.
fn put(standings: &mut TxnStates, txn: &Txn, standing: TxnState)
    ensures { (now : TxnStateNow) → tree.get txn_cmp standings.old txn.now ≡ Some now
        → standings.new.entries ≡ set_value (is_at (txn_cmp txn.now)) standings.old.entries standing }
{
    match standings.get_mut(txn) {
        Some(old) => drop(mem::replace(old, standing)),
        None => drop(standing),
    }
}

/// Something stands behind a transaction, from now on.
pub(crate) fn add(standings: &mut TxnStates, txn: Txn, standing: TxnState) -> Result<(), Refusal>
    ensures ok { OnOk result (standings.new.entries ≡ insert_entry txn_cmp standings.old.entries txn standing) }
    ensures err { OnErr result (standings.new.entries ≡ standings.old.entries) }
    ensures ordered { IsOrdered txn_cmp standings.old }
    ensures refusal { IfErr result (λ refusal. refusal ≡ refusals.Memory) }
{
    let _count = standings.len();
    drop(standings.insert(txn, standing)?);
    Ok(())
}

/// Nothing stands behind a transaction any more.
fn forget(standings: &mut TxnStates, txn: &Txn)
    ensures gone { standings.new.entries ≡ remove_entry (is_at (txn_cmp txn.now)) standings.old.entries }
    ensures ordered { IsOrdered txn_cmp standings.old }
{
    let _count = standings.len();
    drop(standings.remove(txn));
}

/// A vote is counted of an undecided transaction.
fn count_at(standings: &mut TxnStates, alloc: Global, txn: &Txn, site: &Text, vote: Vote)
    ensures { (old : UndecidedNow) → tree.get txn_cmp standings.old txn.now ≡ Some (standing.Undecided old)
        → standings.new.entries ≡ set_value (is_at (txn_cmp txn.now)) standings.old.entries (standing.Undecided (with_counted site.now vote old)) }
{
    if let Some(standing) = standings.get_mut(txn) {
        count_in(alloc, standing, site, vote);
    }
}

impl Volatile {
    /// What stands behind a transaction.
    pub(crate) fn standing(&self, txn: &Txn) -> Option<&TxnState>
        ensures { option_copied result ≡ (volatile_of self.now).standing txn.now }
    {
        self.standings.get(txn)
    }

    /// Whether a transaction is undecided.
    pub(crate) fn is_open(&self, txn: &Txn) -> bool
        ensures { result ≡ is_open ((volatile_of self.now).standing txn.now) }
    {
        match self.standing(txn) {
            Some(standing) => is_open(standing),
            None => false,
        }
    }

    /// The name of the next transaction of this life, where the limits allow one more.
    pub(crate) fn next(&self) -> Result<Txn, Refusal>
        ensures txn { IfOk result (λ txn. txn ≡ next_of (volatile_of self.now)) }
        ensures few { OnOk result (self.now.undecided + 1 ≤ 256) }
        ensures low { OnOk result (self.now.number + 2 ≤ 2 ^ 63) }
        ensures full { IfErr result (λ refusal. (refusal ≡ refusals.Full) × ((256 ≤ self.now.undecided) ⊎ (2 ^ 63 ≤ self.now.number + 1))) }
    {
        if self.undecided >= UNDECIDED || self.number >= LAST {
            return Err(Refusal::Full);
        }
        Ok(Txn {
            life: self.life,
            number: self.number + 1,
        })
    }

    /// The next transaction of this life begins, and this stands behind it. The limits allow one more.
    pub(crate) fn begin(&mut self, txn: Txn, standing: TxnState) -> Result<(), Refusal>
        requires txn { txn ≡ next_of (volatile_of self.old) }
        requires few { self.old.undecided + 1 ≤ 256 }
        requires low { self.old.number + 2 ≤ 2 ^ 63 }
        ensures ok { OnOk result (volatile_of self.new ≡ volatile_from (insert_entry txn_cmp self.old.standings.entries (next_of (volatile_of self.old)) standing) (self.old.undecided + 1) self.old.life (self.old.number + 1) self.old.version) }
        ensures err { OnErr result (volatile_of self.new ≡ volatile_of self.old) }
        ensures ordered { IsOrdered txn_cmp self.old.standings }
        ensures refusal { IfErr result (λ refusal. refusal ≡ refusals.Memory) }
    {
        let _count = self.standings.len();
        add(&mut self.standings, txn, standing)?;
        self.undecided += 1;
        self.number += 1;
        Ok(())
    }

    /// Whether nothing stands: no transaction is undecided, and there is no commit row.
    pub(crate) fn is_alone(&self) -> bool
        ensures yes { result ≡ true → self.now.standings.entries ≡ [] }
        ensures no { result ≡ false → self.now.standings.entries ≢ [] }
    {
        self.standings.is_empty()
    }

    /// Whether an undecided transaction gives a relation another split.
    pub(crate) fn moves(&self) -> bool
        ensures moves { result ≡ list_any (λ entry. is_moving (Some entry.1)) self.now.standings.entries }
        ensures ordered { IsOrdered txn_cmp self.now.standings }
    {
        let _count = self.standings.len();
        let mut moves = false;
        for (txn, standing) in &self.standings {
            let _name = txn;
            moves = moves || is_moving(standing);
        }
        moves
    }

    /// With the commit of a transaction that gives a relation another split the next catalogue is in force.
    pub(crate) fn raise(&mut self, raises: bool)
        ensures raised { (raises ≡ true → self.old.version + 1 < 2 ^ 64) → volatile_of self.new ≡ volatile_from self.old.standings.entries self.old.undecided self.old.life self.old.number (if raises then suc self.old.version else self.old.version) }
        ensures ordered { IsOrdered txn_cmp self.old.standings }
    {
        let _count = self.standings.len();
        if raises {
            self.version = self.version.saturating_add(1);
        }
    }

    /// Whether the transaction is undecided, and gives a relation another split.
    pub(crate) fn is_moving(&self, txn: &Txn) -> bool
        ensures { result ≡ is_moving ((volatile_of self.now).standing txn.now) }
    {
        match self.standing(txn) {
            Some(standing) => is_moving(standing),
            None => false,
        }
    }

    /// A transaction has made a step.
    #[inline(always)]
    pub(crate) fn settle(&mut self, txn: &Txn, after: After)
        ensures settled { (now : TxnStateNow) → (volatile_of self.old).standing txn.now ≡ Some now
            → volatile_of self.new ≡ volatile_from (settled txn.now after self.old.standings.entries) (if is_open (Some now) && closes after then self.old.undecided - 1 else self.old.undecided) self.old.life self.old.number self.old.version }
        ensures still { after ≡ afters.Stays → volatile_of self.new ≡ volatile_of self.old }
        ensures ordered { IsOrdered txn_cmp self.old.standings }
    {
        let _count = self.standings.len();
        if self.is_open(txn) && closes(&after) {
            self.undecided = self.undecided.saturating_sub(1);
        }
        match after {
            After::Stays => {}
            After::Ends => forget(&mut self.standings, txn),
            After::Becomes(standing) => put(&mut self.standings, txn, standing),
        }
    }

    /// A vote is counted of an undecided transaction.
    pub(crate) fn count(&mut self, txn: &Txn, site: &Text, vote: Vote)
        ensures counted { (old : UndecidedNow) → (volatile_of self.old).standing txn.now ≡ Some (standing.Undecided old)
            → volatile_of self.new ≡ volatile_from (set_value (is_at (txn_cmp txn.now)) self.old.standings.entries (standing.Undecided (with_counted site.now vote old))) self.old.undecided self.old.life self.old.number self.old.version }
        ensures ordered { IsOrdered txn_cmp self.old.standings }
    {
        let _count = self.standings.len();
        count_at(&mut self.standings, self.alloc, txn, site, vote);
    }

    /// What was in memory is lost, and another life has begun: what stands now are decided transactions.
    pub(crate) fn restart(&mut self, rows: TxnStates, life: u64, version: u64)
        ensures begun { volatile_of self.new ≡ volatile_from rows.entries 0 life 0 version }
        ensures ordered { IsOrdered txn_cmp self.old.standings }
    {
        let _count = self.standings.len();
        self.standings = rows;
        self.undecided = 0;
        self.life = life;
        self.number = 0;
        self.version = version;
    }
}

/// What stands behind a transaction that begins; `moves`: whether it is to give a relation another split.
pub(crate) fn begun(participants: Vec<Participant>, moves: bool) -> Undecided
    ensures { standing.Undecided result ≡ first_of moves participants.items }
{
    Undecided {
        participants: Seq::new(participants),
        stage: Stage::Idle,
        moves,
    }
}
