//! How the world of a chain of catalogues is opened.

ghost use Rattle.std.specs.Prelude.{⊤, ◌≡◌, ◌∷◌, [], List, IfErr, IfOk, map};
ghost use Rattle.catalog.specs.Catalogue.{Catalogue};
ghost use Rattle.catalog.specs.FragmentLeaf.{schemas_of};
ghost use Rattle.catalog.specs.Relation.{catalogue_of};
ghost use Rattle.meaning.specs.Whole.{FitsSchema};
ghost use Rattle.store.specs.declared.fault.StoreFault.{StoreFault as StoreFaultNow};
ghost use Rattle.databases.specs.Schedule.{world_over};
ghost use Rattle.databases.specs.WorldOpener.{IsChainOpened, IsOpenedOver, StopsOpening};

use crate::opener::{InMemory, Lists, unopened};
use crate::sql_stores::{memory_desk, memory_sites};
use catalog::chain::Chain;
use lines::fault::ProgramFault;
use meaning::whole::Whole;
use sqlite::MemStore;
use sqlstore::desk::SqlDesk;
use sqlstore::site::SqlSite;
use std::alloc::Global;
use store::desk_store::DeskStore;
use store::plain_desk::PlainDesk;
use store::plain_site::PlainSite;
use store::site_store::SiteStore;
use world::chain::first_of;
use world::world::{World, open, open_on};

/// Opens worlds over stores of some kind.
pub trait OpensWorld<D: DeskStore, S: SiteStore> {
    /// Why a store may fail as a world is opened.
    ghost fails_for: { StoreFaultNow → Type 0 };

    /// Opens a world of a chain of catalogues, whose fragments rebuild these whole relations. Over new stores the first one
    /// is in force.
    fn open<'a>(
        &self,
        alloc: Global,
        chain: &Chain,
        whole: &Whole,
    ) -> Result<World<D, S>, ProgramFault<'a>>
        requires { (first : Catalogue) (rest : List Catalogue) → map catalogue_of chain.now ≡ first ∷ rest → FitsSchema (schemas_of first) whole.now }
        ensures none { IfOk result (λ world. world.entries.items ≡ []) }
        ensures ok { (catalogue : Catalogue) → map catalogue_of chain.now ≡ catalogue ∷ [] → IfOk result (IsOpenedOver (world_over D.is_clean S.is_clean D.is_sound S.is_sound D.kept S.kept D.refused S.refused) catalogue whole.now) }
        ensures lists { (first : Catalogue) (rest : List Catalogue) → map catalogue_of chain.now ≡ first ∷ rest → IfOk result (IsChainOpened (world_over D.is_clean S.is_clean D.is_sound S.is_sound D.kept S.kept D.refused S.refused) first rest whole.now) }
        ensures err { IfErr result (StopsOpening fails_for) };
}

impl OpensWorld<PlainDesk, PlainSite> for Lists {
    ghost fails_for = { λ why. ⊥ };

    fn open<'a>(
        &self,
        alloc: Global,
        chain: &Chain,
        whole: &Whole,
    ) -> Result<World<PlainDesk, PlainSite>, ProgramFault<'a>> {
        // Lists refuse for want of memory alone.
        match open(alloc, chain, whole) {
            Ok(world) => Ok(world),
            Err(_) => Err(ProgramFault::Memory),
        }
    }
}

impl OpensWorld<SqlDesk<MemStore>, SqlSite<MemStore>> for InMemory {
    ghost fails_for = { λ why. ⊤ };

    fn open<'a>(
        &self,
        alloc: Global,
        chain: &Chain,
        whole: &Whole,
    ) -> Result<World<SqlDesk<MemStore>, SqlSite<MemStore>>, ProgramFault<'a>> {
        let sites = memory_sites(alloc, first_of(chain))?;
        let desk = memory_desk(alloc)?;
        match open_on(alloc, chain, whole, sites, desk) {
            Ok(world) => Ok(world),
            Err(fault) => Err(unopened(fault)),
        }
    }
}
