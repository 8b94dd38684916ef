//! An incarnation of a site begins: locks come back with prepared rows, and the site inquires after them.

ghost use Rattle.std.specs.Prelude.{◌≡◌, ◌⊎◌, [], map, true, false, IfOk, IfErr, OnOk};
ghost use Rattle.std.specs.List.Sorted.{IsStrictlySortedBy};
ghost use Rattle.std.specs.Map.{keys_of};
ghost use Rattle.store.specs.Name.{ticket_cmp};
ghost use Rattle.store.specs.declared.fault.StoreFault.TheVariants as store_faults;
ghost use Rattle.site.specs.declared.fault.SiteFault.TheVariants as faults;
ghost use Rattle.site.specs.Fault.{StopsStart};
ghost use Rattle.site.specs.Frame.{BeginsOrFails};
ghost use Rattle.site.specs.Locks.{free, leaves_in};
ghost use Rattle.site.specs.Recovery.{Begins, granted, stood_by, may_stand, all_may_stand};
ghost use Rattle.site.specs.State.{AreHad, volatile_from};
ghost use Rattle.site.specs.Inquiries.{inquiries_of};
ghost use Rattle.site.specs.Youngest.{from_oldest};
ghost use Rattle.terms.specs.declared.leaf.Leaf.{Leaf};
ghost use Rattle.store.specs.Content.{changed, made_by};
ghost use Rattle.site.specs.Settled.{with_rows};

use crate::fault::{SiteFault, site_fault};
use crate::lock_table::{LockTable, is_open};
use crate::locks::Locks;
use crate::tickets::{TicketState, Tickets, YoungestFirst};
use crate::volatile::LAST;
use std::alloc::Global;
use store::changes::Changes;
use store::fault::StoreFault;
use store::letter::{Body, Letter};
use store::name::Txn;
use store::prepared::{PreparedRow, SiteKept};
use store::reply::Reply;
use store::site_store::SiteStore;
use terms::copy::TryCopy;
use terms::leaf::Leaf;
use terms::memory::Memory;
use terms::text::Text;

/// What stands as a life begins: the prepared rows, and their locks.
#[derive(Drop)]
pub(crate) struct Resting {
    pub(crate) standings: Tickets,
    pub(crate) locks: LockTable,
}

/// The same, and the life.
#[derive(Drop)]
pub(crate) struct Beginning {
    pub(crate) resting: Resting,
    pub(crate) life: u64,
}

/// Reads the rows that the store keeps, and begins the next life. On a fault nothing has changed.
pub(crate) fn begin<S: SiteStore>(
    store: &mut S,
    alloc: Global,
    leaves: &[Leaf],
) -> Result<Beginning, SiteFault>
    ensures ok { S.is_clean store.new → AreHad leaves.now (S.kept store.old) → IfOk result (λ begun. Begins (S.kept store.new) (volatile_from begun.resting.standings begun.resting.locks.items 0 begun.life 0)) }
    ensures leaves { IfOk result (λ begun. leaves_in begun.resting.locks.items ≡ leaves.now) }
    ensures fails { BeginsOrFails S.is_clean S.is_sound S.kept S.refused true leaves.now store.old store.new result }
    ensures own { IfErr result StopsStart }
{
    let all = match store.rows() {
        Ok(all) => all,
        Err(fault) => return Err(site_fault(fault)),
    };
    if all.life >= LAST {
        return Err(SiteFault::Full);
    }
    let resting = rest(alloc, leaves, all.life, all.prepared.as_slice())?;
    match store.next_incarnation() {
        Ok(life) => Ok(Beginning { resting, life }),
        Err(fault) => Err(site_fault(fault)),
    }
}

/// The rows stand, if they can be a site's that has these leaves.
fn rest(
    alloc: Global,
    leaves: &[Leaf],
    life: u64,
    rows: &[PreparedRow],
) -> Result<Resting, SiteFault>
    ensures standings { IfOk result (λ resting. resting.standings ≡ stood_by rows.now []) }
    ensures locks { IfOk result (λ resting. resting.locks.items ≡ granted rows.now (map free leaves.now)) }
    ensures right { OnOk result (all_may_stand leaves.now life rows.now (map free leaves.now) ≡ true) }
    ensures ordered { IfOk result (λ resting. IsStrictlySortedBy ticket_cmp (keys_of resting.standings)) }
    ensures fault { IfErr result (λ fault. (fault ≡ faults.Memory) ⊎ ((fault ≡ faults.Store store_faults.Damaged) × (all_may_stand leaves.now life rows.now (map free leaves.now) ≡ false))) }
{
    let mut locks = LockTable::new(alloc, leaves)?;
    let mut standings = Tickets::new(alloc);
    for row in rows {
        if !may_stand(leaves, life, row, locks.as_slice()) {
            return Err(SiteFault::Store(StoreFault::Damaged));
        }
        locks.lock_touched(row.ticket, &row.prepared.changes)?;
        standings.insert(row.ticket, TicketState::Prepared(row.prepared.txn))?;
    }
    let _count = standings.len();
    Ok(Resting { standings, locks })
}

/// The leaves of locks.
pub(crate) fn leaves_of(alloc: Global, locks: &[Locks]) -> Result<Vec<Leaf>, Memory>
    ensures { IfOk result (λ leaves. leaves.items ≡ leaves_in locks.now) }
{
    let mut leaves = Vec::new(alloc);
    for locks in locks {
        leaves.push(locks.leaf.copy()?)?;
    }
    Ok(leaves)
}

/// Whether a row can be a site's that has these leaves, beside the rows that have these locks.
fn may_stand(leaves: &[Leaf], life: u64, row: &PreparedRow, locks: &[Locks]) -> bool
    ensures { result ≡ may_stand leaves.now life row.now locks.now }
{
    row.ticket.life <= life
        && row.prepared.changes.is_within(leaves)
        && is_open(locks, &row.prepared.changes)
}

/// A site's inquiry about each prepared row, from the oldest ticket on.
pub(crate) fn inquire_all(
    alloc: Global,
    site: &Text,
    standings: &YoungestFirst,
) -> Result<Vec<Letter>, Memory>
    ensures { IfOk result (λ letters. letters.items ≡ inquiries_of site.now (from_oldest standings.now.entries)) }
{
    let mut letters = Vec::new(alloc);
    for (ticket, standing) in standings {
        if let TicketState::Prepared(txn) = standing {
            letters.push(Letter {
                site: site.copy()?,
                txn: *txn,
                body: Body::Reply(Reply::Inquire(ticket.0)),
            })?;
        }
    }
    letters.reverse();
    Ok(letters)
}

/// Changes are made to fragments that are kept as changes. Where there is no memory for them, the parts are as
/// they were.
fn make(parts: &mut Changes, changes: Changes) -> Result<(), Memory>
    ensures ok { (leaf : Leaf) → OnOk result (made_by parts.new leaf ≡ changed leaf changes (made_by parts.old leaf)) }
{
    parts.make_rooms(&changes)?;
    parts.make(changes);
    Ok(())
}

/// What is kept, with the intentions of the rows whose transactions are decided: the changes that make the
/// fragments of nothing.
pub(crate) fn settle(kept: SiteKept, decided: &[Txn]) -> Result<Changes, Memory>
    ensures { (leaf : Leaf) → IfOk result (λ made. made_by made leaf ≡ with_rows decided.now leaf kept.rows.prepared (made_by kept.parts leaf)) }
{
    let SiteKept { parts, rows } = kept;
    let mut parts = parts;
    for row in rows.prepared.into_vec() {
        let prepared = row.prepared;
        if decided.contains(&prepared.txn) {
            make(&mut parts, prepared.changes)?;
        }
    }
    Ok(parts)
}
