//! How the stores of a chain of catalogues are opened, for a database whose sites work in threads.

ghost use Rattle.std.specs.Prelude.{◌≡◌, ◌∷◌, IfErr, IfOk, List, length, map};
ghost use Rattle.catalog.specs.Catalogue.{Catalogue};
ghost use Rattle.catalog.specs.Relation.{catalogue_of};
ghost use Rattle.wire.specs.Opening.{HaveLeaves};
ghost use Rattle.world.specs.Chain.{sites_of};
ghost use Rattle.databases.specs.CatalogFiles.{IsOfOpening};

use catalog::catalogue::Catalog;
use catalog::chain::Chain;
use databases::catalog_files::ChainFault;
use databases::database::Database;
use databases::folder::Standing;
use databases::opener::{Folder, InMemory, Lists, Opens, open_files};
use databases::sql_stores::{OpenStores, OpensFiles, memory_desk, memory_sites};
use sqlite::{Alter, MemStore};
use sqlstore::desk::SqlDesk;
use sqlstore::site::SqlSite;
use std::alloc::Global;
use store::desk_store::DeskStore;
use store::plain_desk::PlainDesk;
use store::plain_site::PlainSite;
use store::site_store::SiteStore;
use terms::memory::Memory;
use world::chain::first_of;
use world::solo::Solo;

/// Opens stores of some kind.
pub trait OpensStores<D: DeskStore, S: SiteStore> {
    /// Opens the stores of this chain. No transaction is in doubt in them, and none is decided that isn't done.
    fn open<'a>(&self, alloc: Global, chain: &Chain) -> Result<OpenStores<D, S>, ChainFault<'a>>
        ensures one_each { IfOk result (λ stores. length stores.sites.items ≡ length (sites_of chain.now)) }
        ensures leaves { IfOk result (λ stores. (first : Catalogue) (rest : List Catalogue) → map catalogue_of chain.now ≡ first ∷ rest → HaveLeaves S.is_clean S.kept first stores.sites.items) }
        ensures err { IfErr result (IsOfOpening (map catalogue_of chain.now)) };
}

impl OpensStores<PlainDesk, PlainSite> for Lists {
    fn open<'a>(
        &self,
        alloc: Global,
        chain: &Chain,
    ) -> Result<OpenStores<PlainDesk, PlainSite>, ChainFault<'a>> {
        let sites = plain_sites(alloc, first_of(chain))?;
        let desk = PlainDesk::new(alloc);
        Ok(OpenStores { sites, desk })
    }
}

/// Lists for each site.
fn plain_sites(alloc: Global, catalog: &Catalog) -> Result<Vec<PlainSite>, Memory>
    ensures { IfOk result (λ sites. length sites.items ≡ length catalog.now.0) }
{
    let mut sites = Vec::new(alloc);
    for _place in 0..catalog.sites().len() {
        sites.push(PlainSite::new(alloc))?;
    }
    Ok(sites)
}

impl OpensStores<SqlDesk<MemStore>, SqlSite<MemStore>> for InMemory {
    fn open<'a>(
        &self,
        alloc: Global,
        chain: &Chain,
    ) -> Result<OpenStores<SqlDesk<MemStore>, SqlSite<MemStore>>, ChainFault<'a>> {
        let sites = memory_sites(alloc, first_of(chain))?;
        let desk = memory_desk(alloc)?;
        Ok(OpenStores { sites, desk })
    }
}

/// What an earlier run left undecided in a folder comes to its end first, as it does for one client. Then the files are
/// opened anew.
impl<M: Alter + Drop, F: OpensFiles<M>> OpensStores<SqlDesk<M>, SqlSite<M>> for Folder<'_, F> {
    fn open<'a>(
        &self,
        alloc: Global,
        chain: &Chain,
    ) -> Result<OpenStores<SqlDesk<M>, SqlSite<M>>, ChainFault<'a>> {
        settle::<Solo<SqlDesk<M>, SqlSite<M>>, Self>(alloc, self, chain)?;
        Ok(open_files(alloc, self, first_of(chain), Standing::Kept)?)
    }
}

/// Opens a database for one client, which brings to its end what an earlier run left undecided, and lets it go.
fn settle<'a, B: Database + Drop, O: Opens<B>>(
    alloc: Global,
    opener: &O,
    chain: &Chain,
) -> Result<(), ChainFault<'a>>
    ensures err { IfErr result (IsOfOpening (map catalogue_of chain.now)) }
{
    let _settled = opener.open(alloc, chain)?;
    Ok(())
}
