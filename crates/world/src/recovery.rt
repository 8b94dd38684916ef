//! A database comes up over stores that are given: over new ones it is empty, and over those of an earlier run it
//! goes on from what they kept.

ghost use Rattle.std.specs.Prelude.{◌≡◌, [], ◌∷◌, List, length, map, IfOk, IfErr, OnOk};
ghost use Rattle.catalog.specs.Catalogue.{Catalogue};
ghost use Rattle.catalog.specs.FragmentLeaf.{schemas_of};
ghost use Rattle.std.specs.List.{AllByRecursion};
ghost use Rattle.catalog.specs.Relation.{catalogue_of};
ghost use Rattle.site.specs.Fault.{StopsStart};
ghost use Rattle.desk.specs.Database.{Database};
ghost use Rattle.world.specs.Chain.{StandsAt, sites_of};
ghost use Rattle.world.specs.Contents.{OfStores, counted, held};
ghost use Rattle.world.specs.Frame.{LeavesDatabase, LeavesMachines, OverDatabase, OverLists, StaysAsItIs};
ghost use Rattle.world.specs.Listed.{FitsList, IsListed, StandsIn};
ghost use Rattle.world.specs.ListServed.{IsListServedOn};
ghost use Rattle.world.specs.Machines.{AreFit};
ghost use Rattle.world.specs.Recovery.{AreUp, Inquires, IsDeskUp, IsUp, ListRecovers, Recovers, StopsOpening};
ghost use Rattle.world.specs.Seated.{seats_in};
ghost use Rattle.world.specs.Settled.{AreDecided};
ghost use Rattle.world.specs.Sites.{IsSeated};

use crate::fault::Fault;
use crate::machines::Machines;
use crate::mailbox::deliver_all;
use crate::rebuild::decided;
use crate::site_leaves::known_leaves;
use catalog::catalogue::Catalog;
use catalog::chain::Chain;
use desk::desk::Desk;
use desk::refusal::Refusal;
use desk::reply::Out;
use site::fault::SiteFault;
use site::site::Site;
use std::alloc::Global;
use store::desk_store::DeskStore;
use store::fault::StoreFault;
use store::letter::Letter;
use store::site_store::SiteStore;
use terms::copy::TryCopy;
use terms::memory::Memory;
use terms::seq::Seq;
use terms::text::Text;

/// The site of this name comes up over its store.
fn site_up<S: SiteStore + Drop>(
    alloc: Global,
    catalog: &Catalog,
    store: S,
    name: &Text,
) -> Result<Site<S>, SiteFault>
    ensures up { IfOk result (λ site. IsUp S.is_clean S.is_sound S.kept S.refused (catalogue_of catalog.now) name.now store site) }
    ensures own { IfErr result StopsStart }
{
    let leaves = known_leaves(alloc, catalog)?;
    let own = name.copy()?;
    match Site::start(alloc, own, store, leaves.as_slice()) {
        Ok(site) => Ok(site),
        Err(unstarted) => Err(unstarted.fault),
    }
}

/// The sites of a catalogue come up over their stores, in its order.
pub(crate) fn sites_up<S: SiteStore + Drop>(
    alloc: Global,
    catalog: &Catalog,
    stores: Vec<S>,
) -> Result<Vec<Site<S>>, SiteFault>
    requires { length stores.items ≡ length catalog.now.0 }
    ensures up { IfOk result (λ sites. AreUp S.is_clean S.is_sound S.kept S.refused (catalogue_of catalog.now) catalog.now.0 stores.items sites.items) }
    ensures own { IfErr result StopsStart }
{
    let names = catalog.sites();
    let mut sites = Vec::new(alloc);
    for store in stores {
        let place = sites.len();
        let site = site_up(alloc, catalog, store, &names[place])?;
        sites.push(site)?;
    }
    Ok(sites)
}

/// The coordinator of a chain comes up over its store: in force is the catalogue whose number that keeps.
pub(crate) fn desk_up<D: DeskStore + Drop>(
    alloc: Global,
    chain: &Chain,
    store: D,
) -> Result<Desk<D>, Fault>
    ensures up { IfOk result (IsDeskUp D.is_clean D.is_sound D.kept D.refused store) }
    ensures catalogs { IfOk result (λ desk. StandsAt desk.volatile.version (map catalogue_of chain.now) desk) }
    ensures sites { IfOk result (λ desk. desk.catalog.0 ≡ sites_of chain.now) }
    ensures schemas { (first : Catalogue) (rest : List Catalogue) → map catalogue_of chain.now ≡ first ∷ rest → IfOk result (λ desk. schemas_of (catalogue_of desk.catalog) ≡ schemas_of first) }
    ensures own { IfErr result StopsOpening }
{
    let _catalogs = chain.as_slice();
    match Desk::start(alloc, chain, store) {
        Ok(desk) => Ok(desk),
        Err(unstarted) => Err(Fault::Desk(unstarted.refusal)),
    }
}

/// Each site asks about its prepared rows, behind the letters that are put out.
fn inquire_all<S: SiteStore>(sites: &[Site<S>], letters: &mut Vec<Letter>) -> Result<(), Memory>
    ensures { AllByRecursion IsSeated (seats_in S.kept sites.now) → OnOk result (Inquires S.kept sites.now letters.old.items letters.new.items) }
{
    for site in sites {
        let mut asked = site.inquire()?;
        letters.append(&mut asked)?;
    }
    Ok(())
}

/// Machines that have come up recover: the coordinator sends its commits again, each site asks about its prepared
/// rows, and all letters come, each once, the oldest first. Then no ticket is prepared any more.
pub(crate) fn recover<D: DeskStore, S: SiteStore>(
    machines: &mut Machines<D, S>,
) -> Result<(), Fault>
    ensures leaves { LeavesDatabase D.is_clean S.is_clean D.is_sound S.is_sound D.refused S.refused machines.old machines.new }
    ensures ok { OverDatabase (OfStores D.is_clean S.is_clean) (OfStores D.is_sound S.is_sound) (counted D.kept S.kept D.refused S.refused) machines.old machines.new (λ db before after. OnOk result (Recovers db before after)) }
    ensures lists { OverLists (OfStores D.is_clean S.is_clean) (OfStores D.is_sound S.is_sound) (counted D.kept S.kept D.refused S.refused) machines.old machines.new (λ db whole past. IsListServedOn db whole (counted D.kept S.kept D.refused S.refused machines.new) past) }
    ensures recovers { (db : Database) → IsListed db → StandsIn db machines.old.desk → OfStores D.is_clean S.is_clean machines.new → OfStores D.is_sound S.is_sound machines.old
        → OnOk result (ListRecovers db (counted D.kept S.kept D.refused S.refused machines.old) (counted D.kept S.kept D.refused S.refused machines.new)) }
    ensures own { IfErr result StopsOpening }
{
    let commits = machines.restart(true)?;
    let mut letters = commits.letters.into_vec();
    inquire_all(machines.sites.as_slice(), &mut letters)?;
    let put_out = Out {
        letters: Seq::new(letters),
        replies: commits.replies,
        kept: true,
    };
    let _heard = deliver_all(machines, put_out)?;
    Ok(())
}

/// No commit row is left. One that all its voters have acknowledged is left only where the store refused to drop it,
/// and that is the fault then.
pub(crate) fn ensure_no_commit_row<D: DeskStore, S: SiteStore>(
    machines: &mut Machines<D, S>,
) -> Result<(), Fault>
    ensures leaves { LeavesMachines D.is_clean S.is_clean D.is_sound S.is_sound D.refused S.refused machines.old machines.new }
    ensures same { StaysAsItIs (OfStores D.is_clean S.is_clean) (OfStores D.is_sound S.is_sound) (held D.kept S.kept) machines.old machines.new }
    ensures none { (db : Database) → OfStores D.is_clean S.is_clean machines.new → OfStores D.is_sound S.is_sound machines.old → AreFit db (held D.kept S.kept machines.old)
        → OnOk result (AreDecided (held D.kept S.kept machines.old).table []) }
    ensures lists { (db : Database) → OfStores D.is_clean S.is_clean machines.new → OfStores D.is_sound S.is_sound machines.old → FitsList db (held D.kept S.kept machines.old)
        → OnOk result (AreDecided (held D.kept S.kept machines.old).table []) }
    ensures own { IfErr result StopsOpening }
{
    if decided(machines)?.is_empty() {
        Ok(())
    } else {
        Err(Fault::Desk(Refusal::Store(StoreFault::Refused)))
    }
}

/// The stores of sites, in their order, as they are.
pub(crate) fn stores_of<S: SiteStore + Drop>(
    alloc: Global,
    sites: Vec<Site<S>>,
) -> Result<Vec<S>, Memory>
    ensures { IfOk result (λ stores. stores.items ≡ map (λ site. site.store) sites.items) }
{
    let mut stores = Vec::new(alloc);
    for site in sites {
        stores.push(site.into_store())?;
    }
    Ok(stores)
}
