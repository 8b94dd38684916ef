//! The records of a database that has come to rest: its machines as they are now, and what each has done.

ghost use Rattle.std.specs.Prelude.{◌≡◌, ◌+◌, ◌<◌, Err, IfOk, List, map};
ghost use Rattle.std.specs.Bool.{Decides};
ghost use Rattle.std.specs.List.{AllByRecursion};
ghost use Rattle.std.specs.Option.{option_map as mapped};
ghost use Rattle.meaning.specs.Whole.{Relations};
ghost use Rattle.catalog.specs.Relation.{catalogue_of};
ghost use Rattle.protocol.specs.Desk.{Deed};
ghost use Rattle.site.specs.Seat.{seat_from};
ghost use Rattle.desk.specs.Database.{Database, language};
ghost use Rattle.world.specs.declared.event.Entry.{Entry as EntryNow};
ghost use Rattle.world.specs.Contents.{OfStores, held};
ghost use Rattle.world.specs.Frame.{LeavesMachines, StaysAsItIs};
ghost use Rattle.world.specs.Listed.{IsListed, StandsIn};
ghost use Rattle.world.specs.Runs.{IsRun};
ghost use Rattle.world.specs.Settled.{ShowsSerial};
ghost use Rattle.history.specs.Records.{AreRecords, AreSitesOf, AreTaken};

use crate::desk_cell::{DeskCell, DeskParts};
use crate::entry::Entry;
use crate::site_cell::{SiteCell, SiteParts};
use catalog::catalogue::Catalog;
use site::site::Site;
use std::alloc::Global;
use store::commit::DeskKept;
use store::desk_store::DeskStore;
use store::prepared::SiteKept;
use store::site_store::SiteStore;
use terms::memory::Memory;
use terms::row::Row;
use terms::same::{Same, same_all};
use terms::text::Text;
use world::fault::Fault;
use world::laws::{database_is_of_catalogue, runs_are_serial};
use world::machines::Machines;
use world::rebuild::rebuilt;
use world::site_leaves::known_leaves;
use world::traffic::Traffic;

/// What a site's store kept as its cell was made, and what the site has done since, oldest first.
#[derive(Drop)]
pub struct Past {
    pub opening: SiteKept,
    pub entries: Vec<Entry>,
}

/// The machines of a database as they are now, their catalogues and what their stores kept at the opening, and their histories.
#[derive(Drop)]
pub struct Records<D: DeskStore, S: SiteStore> {
    machines: Machines<D, S>,
    catalogs: Vec<Catalog>,
    opening: DeskKept,
    entries: Vec<Entry>,
    pasts: Vec<Past>,
}

/// Why cells make no records.
#[derive(Clone, Copy, Debug, PartialEq, Eq)]
pub enum RecordsFault {
    /// Memory ran out.
    Memory,
    /// The sites are not those of the coordinator's catalogue, in its order, each knowing the leaves that its relations can have.
    Strangers,
}

impl From<Memory> for RecordsFault {
    ghost use Rattle.std.specs.Prelude.{◌≡◌};
    ghost use Rattle.history.specs.declared.records.RecordsFault.TheVariants as why;

    ghost from_gives = { λ _ fault. fault ≡ why.Memory };

    fn from(_error: Memory) -> RecordsFault {
        RecordsFault::Memory
    }
}

/// Sites, and what each has done.
#[derive(Drop)]
struct Gathered<S: SiteStore> {
    sites: Vec<Site<S>>,
    pasts: Vec<Past>,
}

/// Cells are taken apart.
fn gather<S: SiteStore + Drop>(
    alloc: Global,
    cells: Vec<SiteCell<S>>,
) -> Result<Gathered<S>, Memory>
    ensures { IfOk result (λ gathered. AreTaken S.is_clean S.is_sound S.kept cells.items gathered.sites.items gathered.pasts.items) }
{
    let mut sites = Vec::new(alloc);
    let mut pasts = Vec::new(alloc);
    for cell in cells {
        let SiteParts {
            opening,
            leaves: _,
            entries,
            site,
        } = cell.into_parts();
        sites.push(site)?;
        pasts.push(Past { opening, entries })?;
    }
    Ok(Gathered { sites, pasts })
}

/// Whether cells are those of sites of these names, in their order, each knowing the leaves that the relations of a
/// catalogue can have.
fn are_sites_of<S: SiteStore>(
    alloc: Global,
    catalog: &Catalog,
    names: &[Text],
    cells: &[SiteCell<S>],
) -> Result<bool, Memory>
    ensures { AllByRecursion (λ site. S.is_clean site.store) (map (λ cell. cell.site) cells.now) → IfOk result (λ yes. Decides yes (AreSitesOf (catalogue_of catalog.now) names.now (map (seat_from S.kept) (map (λ cell. cell.site) cells.now)))) }
{
    let Some((name, names)) = names.split_first() else {
        return Ok(cells.is_empty());
    };
    let Some((cell, cells)) = cells.split_first() else {
        return Ok(false);
    };
    let leaves = known_leaves(alloc, catalog)?;
    if !cell.name().same(name) || !same_all(cell.leaves(), leaves.as_slice()) {
        return Ok(false);
    }
    are_sites_of(alloc, catalog, names, cells)
}

impl<D: DeskStore + Drop, S: SiteStore + Drop> Records<D, S> {
    /// The records of these cells, the coordinator's and those of its sites in the catalogue's order. On a fault they
    /// are let go.
    pub fn new(
        alloc: Global,
        desk: DeskCell<D>,
        sites: Vec<SiteCell<S>>,
    ) -> Result<Records<D, S>, RecordsFault>
        ensures records { IfOk result (λ records. AreRecords D.is_clean D.is_sound D.kept S.is_clean S.is_sound S.kept records.machines records.catalogs.items records.opening records.entries.items records.pasts.items) }
        ensures strangers { result ≡ Err RecordsFault.Strangers → AllByRecursion (λ site. S.is_clean site.store) (map (λ cell. cell.site) sites.items) → AreSitesOf (catalogue_of desk.desk.catalog) desk.desk.catalog.0 (map (seat_from S.kept) (map (λ cell. cell.site) sites.items)) → ⊥ }
    {
        let catalog = desk.catalog();
        if !are_sites_of(alloc, catalog, catalog.sites(), sites.as_slice())? {
            return Err(RecordsFault::Strangers);
        }
        database_is_of_catalogue(catalog);
        let DeskParts {
            catalogs,
            opening,
            entries,
            desk,
        } = desk.into_parts();
        let Gathered { sites, pasts } = gather(alloc, sites)?;
        let machines = Machines {
            alloc,
            desk,
            sites,
            traffic: Traffic::none(),
        };
        Ok(Records {
            machines,
            catalogs,
            opening,
            entries,
            pasts,
        })
    }

    /// The catalogue in force.
    pub fn catalog(&self) -> &Catalog
        ensures { result.now ≡ self.now.machines.desk.catalog }
    {
        self.machines.desk.catalog()
    }

    /// The catalogues at the opening: the one in force then, and those that come after it.
    pub fn catalogs(&self) -> &[Catalog]
        ensures { result.now ≡ self.now.catalogs.items }
    {
        self.catalogs.as_slice()
    }

    /// What the coordinator's store kept at the opening.
    pub fn opening(&self) -> &DeskKept
        ensures { result.now ≡ self.now.opening }
    {
        &self.opening
    }

    /// The coordinator's entries, oldest first.
    pub fn entries(&self) -> &[Entry]
        ensures { result.now ≡ self.now.entries.items }
    {
        self.entries.as_slice()
    }

    /// What the sites have done, in the catalogue's order.
    pub fn pasts(&self) -> &[Past]
        ensures { result.now ≡ self.now.pasts.items }
    {
        self.pasts.as_slice()
    }

    /// The rows of a relation, rebuilt from the fragments with the intentions of decided transactions; none of a
    /// relation that there isn't. Nothing is changed by this.
    pub fn rebuilt(&mut self, relation: &Text) -> Result<Option<Vec<Row>>, Fault>
        ensures leaves { LeavesMachines D.is_clean S.is_clean D.is_sound S.is_sound D.refused S.refused self.old.machines self.new.machines }
        ensures same { StaysAsItIs (OfStores D.is_clean S.is_clean) (OfStores D.is_sound S.is_sound) (held D.kept S.kept) self.old.machines self.new.machines }
        ensures serial { (db : Database) (whole : Relations) (happened : List EntryNow) (past : List (Deed (language db))) → IsListed db → StandsIn db self.old.machines.desk → OfStores D.is_clean S.is_clean self.new.machines → OfStores D.is_sound S.is_sound self.old.machines
            → IsRun db whole (held D.kept S.kept self.old.machines) happened past
            → IfOk result (λ shown. ShowsSerial db whole happened relation.now (mapped (λ rows. rows.items) shown)) }
    {
        runs_are_serial();
        database_is_of_catalogue(self.machines.desk.catalog());
        rebuilt(&mut self.machines, relation)
    }
}
