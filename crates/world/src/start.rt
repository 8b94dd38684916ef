//! The machines of a database start, and their sites keep the parts of whole relations.

ghost use Rattle.std.specs.Prelude.{◌≡◌, true, IfOk, IfErr, ◌∷◌, List, [], None, OnOk, length, map, IsSome, ◌⊎◌};
ghost use Rattle.std.specs.List.{AllByRecursion};
ghost use Rattle.catalog.specs.Catalogue.{Catalogue};
ghost use Rattle.catalog.specs.Relation.{catalogue_of};
ghost use Rattle.meaning.specs.Whole.{FitsSchema};
ghost use Rattle.desk.specs.CatalogueDatabase.{databases};
ghost use Rattle.desk.specs.Database.{Database};
ghost use Rattle.desk.specs.Recovery.{Rises};
ghost use Rattle.desk.specs.Request.{IsOver};
ghost use Rattle.desk.specs.State.{volatile_of};
ghost use Rattle.world.specs.Chain.{StandsAt, sites_of};
ghost use Rattle.store.specs.PlainDesk.{kept_of as desk_kept};
ghost use Rattle.store.specs.PlainSite.{IsSound, kept_of};
ghost use Rattle.site.specs.declared.fault.SiteFault.TheVariants as site_faults;
ghost use Rattle.world.specs.Fault.{is_memory};
ghost use Rattle.world.specs.Contents.{OfGiven, OfStores, held};
ghost use Rattle.world.specs.Listed.{StandsIn};
ghost use Rattle.world.specs.Placed.{IsPlaced, ListOpens, Opens};
ghost use Rattle.world.specs.Recovery.{StopsOpening};
ghost use Rattle.world.specs.Start.{AllFilled, AllStarted, AreNew, Fills, IsStarted};
ghost use Rattle.site.specs.Fault.{StopsStart, fault_of};
ghost use Rattle.protocol.specs.Parts.{In};
ghost use Rattle.store.specs.Frame.{LeavesStore};
ghost use Rattle.store.specs.SiteContent.{Applies, MayPrepare};
ghost use Rattle.store.specs.declared.name.Ticket.{Ticket as TicketName};
ghost use Rattle.store.specs.declared.name.Txn.{Txn as TxnName};
ghost use Rattle.store.specs.declared.slot.Slot.{Slot as Place};
ghost use Rattle.world.specs.Seated.{seat_from, seats_in};
ghost use Rattle.std.specs.FinMap as fin;
ghost use Rattle.terms.specs.declared.leaf.Leaf.{Leaf as LeafName};
ghost use Rattle.catalog.specs.FragmentLeaf.{catalogue_leaves, schemas_of};
ghost use Rattle.store.specs.Content.{made_by};
ghost use Rattle.world.specs.Filling.{filled, kept_with};
ghost use Rattle.world.specs.Leaves.{known_leaves};

use crate::fault::Fault;
use crate::laws::are_formed;
use crate::machines::Machines;
use crate::recovery::{desk_up, sites_up};
use crate::site_leaves::known_leaves;
use crate::traffic::Traffic;
use catalog::catalogue::Catalog;
use catalog::chain::Chain;
use catalog::fragment::place;
use catalog::fragment_leaf::FragmentLeaf;
use desk::desk::Desk;
use meaning::whole::Whole;
use site::fault::SiteFault;
use site::site::Site;
use std::alloc::Global;
use store::changes::Changes;
use store::desk_store::DeskStore;
use store::fault::StoreFault;
use store::laws::{nothing_changes, one_change_more};
use store::name::{Ticket, Txn};
use store::plain_desk::PlainDesk;
use store::plain_site::PlainSite;
use store::site_store::SiteStore;
use terms::copy::TryCopy;
use terms::memory::Memory;
use terms::part::Part;
use terms::row::Row;
use terms::text::Text;

/// The site of this name and number starts, over the parts that whole relations have there.
fn start_site(
    alloc: Global,
    catalog: &Catalog,
    whole: &Whole,
    name: &Text,
    place: usize,
) -> Result<Site<PlainSite>, SiteFault>
    ensures started { IfOk result (λ site. IsStarted (catalogue_of catalog.now) whole.now place name.now (seat_from kept_of site)) }
    ensures sound { IfOk result (λ site. IsSound site.store) }
    ensures err { IfErr result (λ fault. fault ≡ site_faults.Memory) }
{
    let parts = parts_at(alloc, catalog, whole, place)?;
    let leaves = known_leaves(alloc, catalog)?;
    let store = PlainSite::with_parts(alloc, parts)?;
    match Site::start(alloc, name.copy()?, store, leaves.as_slice()) {
        Ok(site) => Ok(site),
        Err(unstarted) => Err(unstarted.fault),
    }
}

/// The sites of a catalogue start, in its order.
pub(crate) fn start_sites(
    alloc: Global,
    catalog: &Catalog,
    whole: &Whole,
) -> Result<Vec<Site<PlainSite>>, SiteFault>
    ensures started { IfOk result (λ sites. AllStarted (catalogue_of catalog.now) whole.now 0 catalog.now.0 (seats_in kept_of sites.items)) }
    ensures sound { IfOk result (λ sites. AllByRecursion (λ site. IsSound site.store) sites.items) }
    ensures err { IfErr result (λ fault. fault ≡ site_faults.Memory) }
{
    let names = catalog.sites();
    let mut sites = Vec::new(alloc);
    for place in 0..names.len() {
        let site = start_site(alloc, catalog, whole, &names[place], place)?;
        sites.push(site)?;
    }
    Ok(sites)
}

/// The coordinator of a chain starts over lists: the first catalogue is in force.
fn start_desk(alloc: Global, chain: &Chain) -> Result<Desk<PlainDesk>, Fault>
    ensures rises { (db : Database) → IfOk result (λ desk. IsOver db desk.catalog.0 → Rises db (desk_kept desk.store) (volatile_of desk.volatile)) }
    ensures commits { (txn : TxnName) → IfOk result (λ desk. (desk_kept desk.store).commits txn ≡ None) }
    ensures catalogs { IfOk result (λ desk. StandsAt 1 (map catalogue_of chain.now) desk) }
    ensures version { IfOk result (λ desk. desk.volatile.version ≡ 1) }
    ensures err { IfErr result (λ fault. is_memory fault ≡ true) }
{
    let _catalogs = chain.as_slice();
    match Desk::start(alloc, chain, PlainDesk::new(alloc)) {
        Ok(desk) => {
            desk.catalog().relations();
            Ok(desk)
        }
        Err(unstarted) => Err(Fault::Desk(unstarted.refusal)),
    }
}

/// The machines of a database over lists start: whole relations stand in its fragments. Only want of memory is a
/// fault.
pub(crate) fn start(
    alloc: Global,
    chain: &Chain,
    whole: &Whole,
) -> Result<Machines<PlainDesk, PlainSite>, Fault>
    ensures opens { IfOk result (λ machines. machines.desk.later.items ≡ [] → (db : Database) → IsPlaced db machines.desk.volatile.version (catalogue_of machines.desk.catalog) whole.now → Opens db whole.now (held desk_kept kept_of machines)) }
    ensures lists { (first : Catalogue) (rest : List Catalogue) → map catalogue_of chain.now ≡ first ∷ rest → FitsSchema (schemas_of first) whole.now
        → IfOk result (λ machines. ListOpens (databases first rest) whole.now (held desk_kept kept_of machines) × StandsIn (databases first rest) machines.desk) }
    ensures catalogs { IfOk result (λ machines. StandsAt 1 (map catalogue_of chain.now) machines.desk) }
    ensures sound { IfOk result (λ machines. OfStores (λ _. Unit {0}) IsSound machines) }
    ensures err { IfErr result (λ fault. is_memory fault ≡ true) }
{
    are_formed(chain.as_slice());
    let desk = start_desk(alloc, chain)?;
    let catalog = desk.catalog();
    let _relations = catalog.relations();
    let sites = start_sites(alloc, catalog, whole)?;
    Ok(Machines {
        alloc,
        desk,
        sites,
        traffic: Traffic::none(),
    })
}

/// A store's fault as the site's.
fn site_fault(fault: StoreFault) -> SiteFault
    ensures { result ≡ fault_of fault }
{
    match fault {
        StoreFault::Memory => SiteFault::Memory,
        _ => SiteFault::Store(fault),
    }
}

/// The changes are made in a store that has no prepared row: they are prepared under a ticket of their own, and
/// applied.
fn make_all<S: SiteStore>(store: &mut S, changes: Changes) -> Result<(), StoreFault>
    ensures leaves { LeavesStore S.is_clean S.is_sound S.refused store.old store.new }
    ensures ok { S.is_clean store.new → S.is_sound store.old → ((ticket : TicketName) → MayPrepare ticket changes (S.kept store.old))
        → OnOk result ((ticket : TicketName) × Applies ticket changes (S.kept store.old) (S.kept store.new)) }
{
    let txn = Txn { life: 0, number: 0 };
    let ticket = Ticket { life: 0, visit: 0 };
    match store.keep_prepared(txn, ticket, changes) {
        Ok(()) => store.apply(ticket),
        Err(unkept) => Err(unkept.fault),
    }
}

/// The parts that whole relations have at the site of this number are put into its store, which keeps nothing yet.
fn fill<S: SiteStore>(
    alloc: Global,
    catalog: &Catalog,
    whole: &Whole,
    place: usize,
    store: &mut S,
) -> Result<(), SiteFault>
    ensures fills { OnOk result (Fills S.is_clean S.is_sound S.kept S.refused (catalogue_of catalog.now) whole.now place store.old store.new) }
    ensures own { IfErr result StopsStart }
{
    nothing_changes();
    let parts = parts_at(alloc, catalog, whole, place)?;
    if parts.is_empty() {
        return Ok(());
    }
    match make_all(store, parts) {
        Ok(()) => Ok(()),
        Err(fault) => Err(site_fault(fault)),
    }
}

/// So at each site, in the catalogue's order.
fn fill_all<S: SiteStore + Drop>(
    alloc: Global,
    catalog: &Catalog,
    whole: &Whole,
    stores: Vec<S>,
) -> Result<Vec<S>, SiteFault>
    ensures fills { IfOk result (λ filled. AllFilled S.is_clean S.is_sound S.kept S.refused (catalogue_of catalog.now) whole.now 0 stores.items filled.items) }
    ensures own { IfErr result StopsStart }
{
    let mut filled = Vec::new(alloc);
    for given in stores {
        let mut store = given;
        fill(alloc, catalog, whole, filled.len(), &mut store)?;
        filled.push(store)?;
    }
    Ok(filled)
}

/// The machines of a database start over these stores, those of its sites in the catalogue's order: where the stores
/// are new, whole relations stand in its fragments.
pub(crate) fn start_on<D: DeskStore + Drop, S: SiteStore + Drop>(
    alloc: Global,
    chain: &Chain,
    whole: &Whole,
    sites: Vec<S>,
    desk: D,
) -> Result<Machines<D, S>, Fault>
    requires { length sites.items ≡ length (sites_of chain.now) }
    ensures opens { IfOk result (λ machines. OfStores D.is_clean S.is_clean machines → AreNew D.is_sound D.kept S.is_sound S.kept (catalogue_of machines.desk.catalog) desk sites.items
        → machines.desk.later.items ≡ [] → (db : Database) → IsPlaced db machines.desk.volatile.version (catalogue_of machines.desk.catalog) whole.now → Opens db whole.now (held D.kept S.kept machines)) }
    ensures lists { (first : Catalogue) (rest : List Catalogue) → map catalogue_of chain.now ≡ first ∷ rest → FitsSchema (schemas_of first) whole.now → (D.kept desk).version ≡ 1
        → IfOk result (λ machines. OfStores D.is_clean S.is_clean machines → AreNew D.is_sound D.kept S.is_sound S.kept first desk sites.items → ListOpens (databases first rest) whole.now (held D.kept S.kept machines) × StandsIn (databases first rest) machines.desk) }
    ensures clean { IfOk result (λ machines. OfStores D.is_clean S.is_clean machines → OfGiven D.is_clean S.is_clean desk sites.items) }
    ensures sound { IfOk result (λ machines. OfStores D.is_clean S.is_clean machines → OfStores D.is_sound S.is_sound machines) }
    ensures catalogs { IfOk result (λ machines. StandsAt machines.desk.volatile.version (map catalogue_of chain.now) machines.desk) }
    ensures own { IfErr result StopsOpening }
{
    are_formed(chain.as_slice());
    let desk = desk_up(alloc, chain, desk)?;
    let catalog = desk.catalog();
    let _relations = catalog.relations();
    let filled = fill_all(alloc, catalog, whole, sites)?;
    let sites = sites_up(alloc, catalog, filled)?;
    Ok(Machines {
        alloc,
        desk,
        sites,
        traffic: Traffic::none(),
    })
}

/// A part is put, if there is one.
fn put_part(
    alloc: Global,
    parts: &mut Changes,
    leaf: &FragmentLeaf,
    row: &Row,
) -> Result<(), Memory>
    ensures kept { (name : LeafName) → OnOk result (made_by parts.new name ≡ kept_with leaf.now (row.now ∷ []) name (made_by parts.old name)) }
    ensures within { (slot : Place) → OnOk result (IsSome (fin.get parts.new slot) → (slot.leaf ≡ leaf.now.name) ⊎ IsSome (fin.get parts.old slot)) }
{
    one_change_more();
    let Some(placed) = place(alloc, leaf.conds.as_slice(), leaf.columns.as_slice(), row)? else {
        return Ok(());
    };
    // A row that fits its relation has values that parts can have, so nothing is turned away here.
    let Some(part) = Part::of_row(&placed)? else {
        return Err(Memory);
    };
    parts.put(leaf.name.copy()?, part)
}

/// The parts of rows in a leaf are put.
#[tactic(auto, using(crate::proofs::Filled::one_row_then, crate::proofs::Filled::no_row))]
fn put_parts(
    alloc: Global,
    parts: &mut Changes,
    leaf: &FragmentLeaf,
    rows: &[Row],
) -> Result<(), Memory>
    ensures kept { (name : LeafName) → OnOk result (made_by parts.new name ≡ kept_with leaf.now rows.now name (made_by parts.old name)) }
    ensures within { (slot : Place) → OnOk result (IsSome (fin.get parts.new slot) → (slot.leaf ≡ leaf.now.name) ⊎ IsSome (fin.get parts.old slot)) }
{
    for row in rows {
        put_part(alloc, parts, leaf, row)?;
    }
    Ok(())
}

/// The parts that whole relations have at the site of this number.
pub(crate) fn parts_at(
    alloc: Global,
    catalog: &Catalog,
    whole: &Whole,
    site: usize,
) -> Result<Changes, Memory>
    ensures kept { (name : LeafName) → IfOk result (λ parts. made_by parts name ≡ filled whole.now site (catalogue_leaves (catalogue_of catalog.now)) name fin.empty) }
    ensures within { IfOk result (λ parts. (slot : Place) → IsSome (fin.get parts slot) → In slot.leaf (known_leaves (schemas_of (catalogue_of catalog.now)))) }
{
    nothing_changes();
    let _relations = catalog.relations();
    let mut parts = Changes::new(alloc);
    for leaf in catalog.leaves() {
        if leaf.site == site {
            put_parts(alloc, &mut parts, leaf, whole.rows(&leaf.name.relation))?;
        }
    }
    Ok(parts)
}
