//! The subordinate's machine.

ghost use Rattle.std.specs.Prelude.{◌≡◌, ◌≢◌, ◌<◌, ◌≤◌, ◌+◌, ◌^◌, [], None, Err, IfOk, IfErr, OnOk, OnErr, map, vec_len, ◌⊎◌, false, true};
ghost use Rattle.store.specs.Fault.{HasRefused};
ghost use Rattle.store.specs.Frame.{LeavesStore};
ghost use Rattle.store.specs.declared.fault.StoreFault.{StoreFault as StoreFaultName};
ghost use Rattle.store.specs.declared.fault.StoreFault.TheVariants as store_faults;
ghost use Rattle.site.specs.declared.fault.SiteFault.TheVariants as faults;
ghost use Rattle.std.specs.Vec.{vec_capacity};
ghost use Rattle.protocol.specs.Site.{on_letter, on_give_up, inquiries};
ghost use Rattle.store.specs.SiteContent.{IsUnchanged, BeginsLife, Lists};
ghost use Rattle.protocol.specs.Letters.{name_of, letter_of, order_body, txn_name, kept_by, kept_in, letters_of};
ghost use Rattle.site.specs.Refusals.{IsElsewhere, IsToKeep, IsBeyond, CallsStore, IsPastLimits, AsksElsewhere, AsksToKeep};
ghost use Rattle.site.specs.Fault.{StopsStart};
ghost use Rattle.site.specs.Frame.{LeavesVolatile, TurnsAway, StepsBy, Reads, ChangesOrFails, RestartsOrFails};
ghost use Rattle.site.specs.Locks.{leaves_in};
ghost use Rattle.site.specs.Recovery.{Begins, IsStrange};
ghost use Rattle.site.specs.Settled.{AreSettled};
ghost use Rattle.site.specs.State.{AreHad, Fits, Steps, Takes, state_of, volatile_of};

use crate::fault::{SiteFault, site_fault};
use crate::lock_table::LockTable;
use crate::operations::{fetch, intend, open};
use crate::phases::{abort, commit, give_up, prepare};
use crate::recovery::{begin, leaves_of, settle};
use crate::verdict::is_elsewhere;
use crate::volatile::Volatile;
use std::alloc::Global;
use store::changes::Changes;
use store::fault::StoreFault;
use store::letter::{Body, Letter};
use store::name::{Ticket, Txn};
use store::order::Order;
use store::prepared::SiteKept;
use store::reply::Reply;
use store::site_store::SiteStore;
use terms::leaf::Leaf;
use terms::memory::Memory;
use terms::same::Same;
use terms::text::Text;

/// A site: its store, and what it has in memory. What its clauses say holds where the store is clean as
/// the call ends, and was sound, and where what is in memory fitted it as the call began.
#[derive(Drop)]
pub struct Site<S: SiteStore> {
    store: S,
    volatile: Volatile,
}

/// A store whose site didn't start, and why.
#[derive(Drop)]
pub struct Unstarted<S> {
    pub fault: SiteFault,
    pub store: S,
}

impl<S: SiteStore> Site<S> {
    /// Starts the site of this name that has these leaves, which the store has too: the next life begins. On a
    /// fault the store is as it was.
    pub fn start(
        alloc: Global,
        name: Text,
        store: S,
        leaves: &[Leaf],
    ) -> Result<Site<S>, Unstarted<S>>
        ensures leaves_store { IfOk result (λ site. LeavesStore S.is_clean S.is_sound S.refused store site.store) }
        ensures leaves_still { IfErr result (λ unstarted. LeavesStore S.is_clean S.is_sound S.refused store unstarted.store) }
        ensures learnt { IfOk result (λ site. S.is_clean site.store → S.is_sound store) }
        ensures ok { AreHad leaves.now (S.kept store) → IfOk result (λ site. S.is_clean site.store → Begins (S.kept site.store) (volatile_of site.volatile)) }
        ensures life { IfOk result (λ site. S.is_clean site.store → BeginsLife (S.kept store) (S.kept site.store)) }
        ensures name { IfOk result (λ site. site.volatile.name ≡ name) }
        ensures leaves { IfOk result (λ site. leaves_in site.volatile.locks.items ≡ leaves.now) }
        ensures same { IfErr result (λ unstarted. S.is_clean unstarted.store → S.is_sound store → IsUnchanged (S.kept store) (S.kept unstarted.store)) }
        ensures refusal { IfErr result (λ unstarted. unstarted.fault ≡ faults.Store store_faults.Refused → HasRefused (S.refused store) (S.refused unstarted.store)) }
        ensures full { IfErr result (λ unstarted. S.is_clean unstarted.store → unstarted.fault ≡ faults.Full → 2 ^ 63 ≤ (S.kept unstarted.store).life + 1) }
        ensures damaged { IfErr result (λ unstarted. S.is_clean unstarted.store → S.is_sound store → unstarted.fault ≡ faults.Store store_faults.Damaged → IsStrange leaves.now (S.kept unstarted.store)) }
        ensures own { IfErr result (λ unstarted. StopsStart unstarted.fault) }
    {
        let mut store = store;
        match begin(&mut store, alloc, leaves) {
            Ok(begun) => Ok(Site {
                store,
                volatile: Volatile {
                    alloc,
                    name,
                    locks: begun.resting.locks,
                    standings: begun.resting.standings,
                    active: 0,
                    life: begun.life,
                    number: 0,
                },
            }),
            Err(fault) => Err(Unstarted { fault, store }),
        }
    }

    /// Restarts: visits and their locks are lost, and the next life begins. On a fault nothing has changed.
    pub fn restart(&mut self) -> Result<(), SiteFault>
        ensures restarts { RestartsOrFails S.is_clean S.is_sound S.kept S.refused true self.old.store self.new.store self.old.volatile self.new.volatile result }
    {
        self.restart_kept(true)
    }

    /// So, but where `kept` is false the store isn't called, and counts as having refused.
    pub fn restart_kept(&mut self, kept: bool) -> Result<(), SiteFault>
        ensures restarts { RestartsOrFails S.is_clean S.is_sound S.kept S.refused kept self.old.store self.new.store self.old.volatile self.new.volatile result }
    {
        if !kept {
            return Err(SiteFault::Store(StoreFault::Refused));
        }
        let alloc = self.volatile.alloc;
        let leaves = leaves_of(alloc, self.volatile.locks.as_slice())?;
        let begun = begin(&mut self.store, alloc, leaves.as_slice())?;
        self.volatile.restart(begun);
        Ok(())
    }

    /// The site's inquiries, one about each prepared row, by ticket: what is in memory fits with the tickets
    /// in ascending order.
    pub fn inquire(&self) -> Result<Vec<Letter>, Memory>
        ensures { Fits (S.kept self.now.store) (volatile_of self.now.volatile)
            → IfOk result (λ letters. map letter_of letters.items ≡ inquiries self.now.volatile.name (state_of (S.kept self.now.store) (volatile_of self.now.volatile))) }
    {
        self.volatile
            .standings
            .inquire(self.volatile.alloc, &self.volatile.name)
    }

    /// All that the store keeps.
    pub fn kept(&mut self) -> Result<SiteKept, SiteFault>
        ensures learnt { S.is_clean self.new.store → OnOk result (S.is_sound self.old.store) }
        ensures all { S.is_clean self.new.store → IfOk result (Lists (S.kept self.new.store)) }
        ensures reads { Reads S.is_clean S.is_sound S.kept S.refused self.old.store self.new.store result }
        ensures memory { self.new.volatile ≡ self.old.volatile }
    {
        match self.store.load() {
            Ok(all) => Ok(all),
            Err(fault) => Err(site_fault(fault)),
        }
    }

    /// The fragments with the intentions of those prepared rows whose transactions are decided: the changes
    /// that make them of nothing. Nothing is changed by this.
    pub fn settled(&mut self, decided: &[Txn]) -> Result<Changes, SiteFault>
        ensures ok { S.is_clean self.new.store → Fits (S.kept self.old.store) (volatile_of self.old.volatile)
            → IfOk result (AreSettled decided.now (S.kept self.old.store) (volatile_of self.old.volatile).tickets) }
        ensures reads { Reads S.is_clean S.is_sound S.kept S.refused self.old.store self.new.store result }
        ensures memory { self.new.volatile ≡ self.old.volatile }
    {
        let _tickets = self.volatile.standings.len();
        let all = self.kept()?;
        Ok(settle(all, decided)?)
    }

    /// Takes a letter, and answers the letters that the site puts out. On a fault nothing has changed.
    pub fn take(&mut self, letter: Letter) -> Result<Vec<Letter>, SiteFault>
        ensures turns { TurnsAway self.old.volatile letter result }
        ensures full { Fits (S.kept self.old.store) (volatile_of self.old.volatile) → result ≡ Err faults.Full → IsPastLimits (S.kept self.old.store) (volatile_of self.old.volatile) letter }
        ensures ok { S.is_clean self.new.store → S.is_sound self.old.store → Fits (S.kept self.old.store) (volatile_of self.old.volatile)
            → IfOk result (λ letters. Takes (S.kept self.old.store) (volatile_of self.old.volatile) (S.kept self.new.store) (volatile_of self.new.volatile) letter letters.items) }
        ensures fails { ChangesOrFails S.is_clean S.is_sound S.kept S.refused true self.old.store self.new.store self.old.volatile self.new.volatile result }
        ensures vote { AsksToKeep (volatile_of self.old.volatile) letter.body → IfOk result (λ letters. kept_in letters.items ≡ false → HasRefused (S.refused self.old.store) (S.refused self.new.store)) }
    {
        self.take_kept(letter, true)
    }

    /// So, but where `kept` is false the store isn't called, and counts as having refused.
    pub fn take_kept(&mut self, letter: Letter, kept: bool) -> Result<Vec<Letter>, SiteFault>
        ensures turns { TurnsAway self.old.volatile letter result }
        ensures full { Fits (S.kept self.old.store) (volatile_of self.old.volatile) → result ≡ Err faults.Full → IsPastLimits (S.kept self.old.store) (volatile_of self.old.volatile) letter }
        ensures ok { S.is_clean self.new.store → S.is_sound self.old.store → Fits (S.kept self.old.store) (volatile_of self.old.volatile)
            → IfOk result (λ letters. Takes (S.kept self.old.store) (volatile_of self.old.volatile) (S.kept self.new.store) (volatile_of self.new.volatile) letter letters.items) }
        ensures fails { ChangesOrFails S.is_clean S.is_sound S.kept S.refused kept self.old.store self.new.store self.old.volatile self.new.volatile result }
        ensures vote { AsksToKeep (volatile_of self.old.volatile) letter.body → IfOk result (λ letters. kept_in letters.items ≡ false → (kept ≡ false) ⊎ HasRefused (S.refused self.old.store) (S.refused self.new.store)) }
    {
        if !letter.site.same(&self.volatile.name) {
            return Err(SiteFault::Stranger);
        }
        let Ok(letters) = room(self.volatile.alloc) else {
            return Err(unanswered(&self.volatile.locks, &letter.body));
        };
        let Letter { site, txn, body } = letter;
        let order = match body {
            Body::Order(order) => order,
            Body::Reply(_) => return Ok(letters),
        };
        let reply = obey(&mut self.store, &mut self.volatile, txn, order, kept)?;
        Ok(addressed(letters, site, txn, reply))
    }

    /// Ends a visit that isn't prepared, and does nothing else.
    pub fn give_up(&mut self, ticket: &Ticket)
        ensures volatile { LeavesVolatile self.old.volatile self.new.volatile }
        ensures ok { Fits (S.kept self.old.store) (volatile_of self.old.volatile) → Steps (S.kept self.old.store) (volatile_of self.old.volatile) (S.kept self.new.store) (volatile_of self.new.volatile)
            (on_give_up (name_of ticket.now) ((state_of (S.kept self.old.store) (volatile_of self.old.volatile)).status (name_of ticket.now))) None }
        ensures store { self.new.store ≡ self.old.store }
    {
        give_up(&mut self.volatile, ticket);
    }

    /// The site's name.
    pub fn name(&self) -> &Text
        ensures { result.now ≡ self.now.volatile.name }
    {
        &self.volatile.name
    }

    /// The store.
    pub fn into_store(self) -> S
    where
        S: Drop,
        ensures { result ≡ self.store }
    {
        self.store
    }
}

/// Room for one letter.
fn room(alloc: Global) -> Result<Vec<Letter>, Memory>
    ensures empty { IfOk result (λ letters. letters.items ≡ []) }
    ensures room { IfOk result (λ letters. vec_len letters < vec_capacity letters) }
{
    Ok(Vec::with_capacity(alloc, 1)?)
}

/// Why a site with these locks doesn't take a letter that it has no room to answer: what goes elsewhere is
/// turned away all the same.
fn unanswered(locks: &LockTable, body: &Body) -> SiteFault
    ensures elsewhere { AsksElsewhere locks.now.items body.now → result ≡ faults.Stranger }
    ensures stranger { result ≡ faults.Stranger → AsksElsewhere locks.now.items body.now }
    ensures fault { (result ≡ faults.Stranger) ⊎ (result ≡ faults.Memory) }
{
    match body {
        Body::Order(order) if is_elsewhere(locks, order) => SiteFault::Stranger,
        _ => SiteFault::Memory,
    }
}

/// The letter of a reply, if there is one. There is room for it.
fn addressed(letters: Vec<Letter>, site: Text, txn: Txn, reply: Option<Reply>) -> Vec<Letter>
    requires { vec_len letters < vec_capacity letters }
    ensures { letters.items ≡ [] → result.items ≡ letters_of site txn reply }
{
    let mut letters = letters;
    if let Some(reply) = reply {
        letters.push_reserved(Letter {
            site,
            txn,
            body: Body::Reply(reply),
        });
    }
    letters
}

/// What a site does with an order about a transaction, and what it answers. Where `kept` is false, the
/// store isn't called, and counts as having refused.
fn obey<S: SiteStore>(
    store: &mut S,
    volatile: &mut Volatile,
    txn: Txn,
    order: Order,
    kept: bool,
) -> Result<Option<Reply>, SiteFault>
    ensures elsewhere { IsElsewhere volatile.old.locks.items order → result ≡ Err faults.Stranger }
    ensures vote { IsToKeep (volatile_of volatile.old) order → IfOk result (λ reply. kept_by reply ≡ false → (kept ≡ false) ⊎ HasRefused (S.refused store.old) (S.refused store.new)) }
    ensures stranger { result ≡ Err faults.Stranger → IsElsewhere volatile.old.locks.items order }
    ensures full { result ≡ Err faults.Full → IsBeyond (volatile_of volatile.old) order }
    ensures calls { (fault : StoreFaultName) → result ≡ Err (faults.Store fault) → CallsStore (volatile_of volatile.old) order }
    ensures beyond { IsBeyond (volatile_of volatile.old) order → (result ≡ Err faults.Full) ⊎ ((result ≡ Err faults.Memory) ⊎ (result ≡ Err faults.Stranger)) }
    ensures ok { StepsBy S.is_clean S.is_sound S.kept store.old store.new volatile.old volatile.new result (λ reply. on_letter (state_of (S.kept store.old) (volatile_of volatile.old)) (txn_name txn) (kept_by reply) (order_body order)) }
    ensures fails { ChangesOrFails S.is_clean S.is_sound S.kept S.refused kept store.old store.new volatile.old volatile.new result }
{
    match order {
        Order::Open => open(volatile),
        Order::Fetch(order) => fetch(store, volatile, order, kept),
        Order::Intend(intention) => intend(volatile, intention),
        Order::Prepare(order) => prepare(store, volatile, txn, order, kept),
        Order::Commit(ticket) => commit(store, volatile, ticket, kept),
        Order::Abort(ticket) => abort(store, volatile, ticket, kept),
    }
}
