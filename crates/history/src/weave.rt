//! Histories are woven into one run.

ghost use Rattle.std.specs.Prelude.{◌≡◌, ◌∷◌, [], ℕ, Err, IfErr, IfOk, map};
ghost use Rattle.std.specs.Bool.{Decides};
ghost use Rattle.std.specs.List.{AllByRecursion};
ghost use Rattle.catalog.specs.FragmentLeaf.{schemas_of};
ghost use Rattle.catalog.specs.Relation.{catalogue_of};
ghost use Rattle.desk.specs.CatalogueDatabase.{database};
ghost use Rattle.desk.specs.Database.{Database};
ghost use Rattle.world.specs.Contents.{OfStores};
ghost use Rattle.world.specs.Listed.{IsListed};
ghost use Rattle.history.specs.Catalogues.{IsOfCatalogues};
ghost use Rattle.history.specs.DeskHistory.{desk_from};
ghost use Rattle.history.specs.Picks.{rows_of};
ghost use Rattle.history.specs.Records.{AreRecords, pasts_in};
ghost use Rattle.history.specs.Told.{IsNotTold};
ghost use Rattle.history.specs.Woven.{ArePutTogether, IsNotARun, IsOfOrder, IsSettled, IsWoven, WeavesRun, weave_number};

use crate::brought::{Unbrought, happened};
use crate::entry::Entry;
use crate::laws::{woven_are_runs, woven_are_serial};
use crate::merge::{Unmerged, merge};
use crate::records::{Past, Records};
use crate::told::{NotStanding, Told, stand};
use std::alloc::Global;
use std::fmt;
use store::commit::DeskKept;
use store::desk_store::DeskStore;
use store::site_store::SiteStore;
use terms::memory::Memory;
use terms::text::Text;
use world::event::{self, Event};

/// Why records were not woven.
#[derive(Clone, Copy, Debug, PartialEq, Eq)]
pub enum WeaveFault {
    /// The call of this number is out of order, or took a letter that no earlier call had put out or that is another
    /// machine's.
    NotARun(u64),
    /// A transaction was in doubt or decided as the database was opened.
    NotSettled,
    /// Memory ran out.
    Memory,
    /// What a session was told under this number doesn't stand in the coordinator's history.
    NotTold(u64),
}

impl WeaveFault {
    /// The fault's number in messages.
    pub fn number(self) -> u8
        ensures { result ≡ weave_number self }
    {
        match self {
            WeaveFault::NotARun(_) => 1,
            WeaveFault::NotSettled => 2,
            WeaveFault::Memory => 3,
            WeaveFault::NotTold(_) => 4,
        }
    }
}

impl fmt::Display for WeaveFault {
    ghost use Rattle.std.specs.Prelude.{Some};
    ghost use Rattle.history.specs.Woven.{weave_name};

    ghost output = { λ fault. Some (weave_name fault) };

    fn fmt<W: fmt::Write>(&self, f: &mut fmt::Formatter<W>) -> fmt::Result {
        f.write_str(match self {
            WeaveFault::NotARun(_) => "NotARun",
            WeaveFault::NotSettled => "NotSettled",
            WeaveFault::Memory => "Memory",
            WeaveFault::NotTold(_) => "NotTold",
        })
    }
}

impl From<Memory> for WeaveFault {
    ghost use Rattle.std.specs.Prelude.{◌≡◌};
    ghost use Rattle.history.specs.declared.weave.WeaveFault.TheVariants as why;

    ghost from_gives = { λ _ fault. fault ≡ why.Memory };

    fn from(_error: Memory) -> WeaveFault {
        WeaveFault::Memory
    }
}

impl From<Unmerged> for WeaveFault {
    ghost use Rattle.std.specs.Prelude.{◌≡◌};
    ghost use Rattle.history.specs.Woven.{out_of_order};

    ghost from_gives = { λ why fault. fault ≡ out_of_order why };

    fn from(why: Unmerged) -> WeaveFault {
        match why {
            Unmerged::Memory => WeaveFault::Memory,
            Unmerged::OutOfOrder(number) => WeaveFault::NotARun(number),
        }
    }
}

impl From<Unbrought> for WeaveFault {
    ghost use Rattle.std.specs.Prelude.{◌≡◌};
    ghost use Rattle.history.specs.Woven.{not_brought};

    ghost from_gives = { λ why fault. fault ≡ not_brought why };

    fn from(why: Unbrought) -> WeaveFault {
        match why {
            Unbrought::Memory => WeaveFault::Memory,
            Unbrought::NotBrought(number) => WeaveFault::NotARun(number),
        }
    }
}

impl From<NotStanding> for WeaveFault {
    ghost use Rattle.std.specs.Prelude.{◌≡◌};
    ghost use Rattle.history.specs.Woven.{not_standing};

    ghost from_gives = { λ why fault. fault ≡ not_standing why };

    fn from(why: NotStanding) -> WeaveFault {
        match why {
            NotStanding::Memory => WeaveFault::Memory,
            NotStanding::NotTold(number) => WeaveFault::NotTold(number),
        }
    }
}

/// Whether nothing was decided or in doubt at the opening.
fn is_settled(opening: &DeskKept, pasts: &[Past]) -> bool
    ensures { Decides result (IsSettled opening.now (map (λ past. past.opening) pasts.now)) }
{
    opening.commits.as_slice().is_empty() && are_settled(pasts)
}

/// Whether no ticket was prepared at the opening.
fn are_settled(pasts: &[Past]) -> bool
    ensures { Decides result (AllByRecursion (λ opening. opening.rows.prepared ≡ []) (map (λ past. past.opening) pasts.now)) }
{
    let Some((past, pasts)) = pasts.split_first() else {
        return true;
    };
    past.opening.rows.prepared.as_slice().is_empty() && are_settled(pasts)
}

/// The histories of a database, the coordinator's first.
fn histories<'a>(
    alloc: Global,
    entries: &'a [Entry],
    pasts: &'a [Past],
) -> Result<Vec<&'a [Entry]>, Memory>
    ensures { IfOk result (λ rows. rows_of rows.items ≡ entries.entry.now ∷ map (λ past. past.entries.items) pasts.entry.now) }
{
    let mut rows = Vec::new(alloc);
    rows.push(entries)?;
    for past in pasts {
        rows.push(past.entries.as_slice())?;
    }
    Ok(rows)
}

/// The events of what happened.
fn events_of(alloc: Global, happened: Vec<event::Entry>) -> Result<Vec<Event>, Memory>
    ensures { IfOk result (λ events. events.items ≡ map (λ entry. entry.event) happened.items) }
{
    let mut events = Vec::new(alloc);
    for entry in happened {
        events.push(entry.event)?;
    }
    Ok(events)
}

/// What happened to the world of these histories, put together by their numbers.
fn put_together(
    alloc: Global,
    sites: &[Text],
    rows: &[&[Entry]],
) -> Result<Vec<event::Entry>, WeaveFault>
    ensures ok { IfOk result (λ happened. ArePutTogether sites.now (rows_of rows.now) happened.items) }
    ensures why { (k : ℕ) → result ≡ Err (WeaveFault.NotARun k) → IsNotARun sites.now (rows_of rows.now) k }
    ensures own { IfErr result IsOfOrder }
{
    let acts = merge(alloc, rows)?;
    Ok(happened(alloc, sites, acts.as_slice())?)
}

/// Weaves the histories of records into the events of one run, if they are one, and what sessions were told stands in the
/// coordinator's: the calls of all machines that were accepted, by their numbers. They are a run of the protocol, in each
/// database of a list that has the catalogues of the opening.
pub fn weave<D: DeskStore + Drop, S: SiteStore + Drop>(
    alloc: Global,
    records: &Records<D, S>,
    told: &[&[Told]],
) -> Result<Vec<Event>, WeaveFault>
    ensures woven { IfOk result (λ events. IsWoven (database (catalogue_of records.now.machines.desk.catalog)) records.now.entries.items (map (λ past. past.entries.items) records.now.pasts.items) (rows_of told.now) events.items) }
    ensures run { (db : Database) → IsListed db → IsOfCatalogues db records.now.opening.version (map catalogue_of records.now.catalogs.items) → OfStores D.is_clean S.is_clean records.now.machines → AreRecords D.is_clean D.is_sound D.kept S.is_clean S.is_sound S.kept records.now.machines records.now.catalogs.items records.now.opening records.now.entries.items records.now.pasts.items
        → IfOk result (λ events. WeavesRun db records.now.opening records.now.entries.items (desk_from D.kept records.now.machines.desk) (pasts_in S.kept records.now.machines.sites.items records.now.pasts.items) records.now.machines.desk.later.items (rows_of told.now) events.items) }
    ensures not_a_run { (k : ℕ) → result ≡ Err (WeaveFault.NotARun k) → IsNotARun records.now.machines.desk.catalog.0 (records.now.entries.items ∷ map (λ past. past.entries.items) records.now.pasts.items) k }
    ensures not_settled { result ≡ Err WeaveFault.NotSettled → IsSettled records.now.opening (map (λ past. past.opening) records.now.pasts.items) → ⊥ }
    ensures not_told { (k : ℕ) → result ≡ Err (WeaveFault.NotTold k) → IsNotTold (schemas_of (catalogue_of records.now.machines.desk.catalog)) records.now.entries.items (rows_of told.now) k }
{
    let (opening, entries, pasts) = (records.opening(), records.entries(), records.pasts());
    if !is_settled(opening, pasts) {
        return Err(WeaveFault::NotSettled);
    }
    let catalog = records.catalog();
    let rows = histories(alloc, entries, pasts)?;
    let happened = put_together(alloc, catalog.sites(), rows.as_slice())?;
    stand(alloc, catalog.schema(), entries, told)?;
    woven_are_runs();
    woven_are_serial();
    Ok(events_of(alloc, happened)?)
}
