//! The cells that a database begins with: its machines start over their stores.

ghost use Rattle.std.specs.Prelude.{◌≡◌, ◌∷◌, [], IfOk, length, map};
ghost use Rattle.catalog.specs.Catalogue.{Catalogue};
ghost use Rattle.catalog.specs.FragmentLeaf.{schemas_of};
ghost use Rattle.catalog.specs.Relation.{catalogue_of};
ghost use Rattle.site.specs.State.{AreHad};
ghost use Rattle.desk.specs.OfCatalogue.{from_number};
ghost use Rattle.world.specs.Leaves.{known_leaves};
ghost use Rattle.history.specs.Catalogues.{catalogues_of};
ghost use Rattle.wire.specs.Opening.{AreFresh, HaveLeaves, IsFresh};

use catalog::catalogue::Catalog;
use catalog::chain::Chain;
use desk::desk::Desk;
use history::desk_cell::DeskCell;
use history::site_cell::SiteCell;
use site::fault::SiteFault;
use site::site::Site;
use std::alloc::Global;
use store::desk_store::DeskStore;
use store::site_store::SiteStore;
use terms::copy::TryCopy;
use terms::text::Text;
use world::fault::Fault;
use world::site_leaves::known_leaves;

/// The cells of sites that start over these stores, in the catalogue's order.
#[tactic(auto, using(crate::proofs::SiteCells::next_fresh, crate::proofs::SiteCells::next_has))]
pub(crate) fn site_cells<S: SiteStore + Drop>(
    alloc: Global,
    catalog: &Catalog,
    stores: Vec<S>,
) -> Result<Vec<SiteCell<S>>, SiteFault>
    requires one_each { length stores.items ≡ length catalog.now.0 }
    requires leaves { HaveLeaves S.is_clean S.kept (catalogue_of catalog.now) stores.items }
    ensures { IfOk result (λ cells. AreFresh (catalogue_of catalog.now) catalog.now.0 cells.items) }
{
    let names = catalog.sites();
    let mut cells = Vec::new(alloc);
    for store in stores {
        let place = cells.len();
        let cell = site_cell(alloc, catalog, store, &names[place])?;
        cells.push(cell)?;
    }
    Ok(cells)
}

/// The cell of the site of this name, which starts over its store.
fn site_cell<S: SiteStore + Drop>(
    alloc: Global,
    catalog: &Catalog,
    store: S,
    name: &Text,
) -> Result<SiteCell<S>, SiteFault>
    requires { S.is_clean store → AreHad (known_leaves (schemas_of (catalogue_of catalog.now))) (S.kept store) }
    ensures { IfOk result (IsFresh (catalogue_of catalog.now) name.now) }
{
    let leaves = known_leaves(alloc, catalog)?;
    let own = name.copy()?;
    let site = match Site::start(alloc, own, store, leaves.as_slice()) {
        Ok(site) => site,
        Err(unstarted) => return Err(unstarted.fault),
    };
    match SiteCell::new(alloc, site, leaves) {
        Ok(cell) => Ok(cell),
        Err(unrecorded) => Err(unrecorded.fault),
    }
}

/// The cell of the coordinator of a chain, which starts over its store: in force is the catalogue whose number that keeps.
pub(crate) fn desk_cell<D: DeskStore + Drop>(
    alloc: Global,
    chain: &Chain,
    store: D,
) -> Result<DeskCell<D>, Fault>
    ensures entries { IfOk result (λ cell. cell.entries ≡ []) }
    ensures catalogs { IfOk result (λ cell. map catalogue_of cell.catalogs ≡ catalogues_of cell.desk) }
    ensures in_force { IfOk result (λ cell. catalogues_of cell.desk ≡ from_number cell.desk.volatile.version (map catalogue_of chain.now)) }
    ensures single { (catalogue : Catalogue) → map catalogue_of chain.now ≡ catalogue ∷ [] → IfOk result (λ cell. catalogue_of cell.desk.catalog ≡ catalogue) }
{
    let desk = match Desk::start(alloc, chain, store) {
        Ok(desk) => desk,
        Err(unstarted) => return Err(Fault::Desk(unstarted.refusal)),
    };
    match DeskCell::new(alloc, desk) {
        Ok(cell) => Ok(cell),
        Err(unrecorded) => Err(Fault::Desk(unrecorded.refusal)),
    }
}
