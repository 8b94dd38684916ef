//! Stores for the sites of a database whose sites work in threads.

ghost use Rattle.std.specs.Prelude.{◌≡◌, ◌∷◌, IfOk, List, length, map};
ghost use Rattle.catalog.specs.Catalogue.{Catalogue};
ghost use Rattle.catalog.specs.Relation.{catalogue_of};
ghost use Rattle.wire.specs.Opening.{HaveLeaves};
ghost use Rattle.world.specs.Chain.{sites_of};

use catalog::catalogue::Catalog;
use catalog::chain::Chain;
use std::alloc::Global;
use store::plain_site::PlainSite;
use store::site_store::SiteStore;
use terms::memory::Memory;
use world::chain::first_of;

/// Opens stores of some kind, one for each site of a chain of catalogues, that keep nothing yet.
pub(crate) trait OpensSites<S: SiteStore> {
    fn stores(&self, alloc: Global, chain: &Chain) -> Result<Vec<S>, Memory>
        ensures one_each { IfOk result (λ stores. length stores.items ≡ length (sites_of chain.now)) }
        ensures leaves { IfOk result (λ stores. (first : Catalogue) (rest : List Catalogue) → map catalogue_of chain.now ≡ first ∷ rest → HaveLeaves S.is_clean S.kept first stores.items) };
}

/// Stores in memory.
pub(crate) struct Plain;

impl OpensSites<PlainSite> for Plain {
    fn stores(&self, alloc: Global, chain: &Chain) -> Result<Vec<PlainSite>, Memory> {
        plain_sites(alloc, first_of(chain))
    }
}

/// A store in memory for each site.
fn plain_sites(alloc: Global, catalog: &Catalog) -> Result<Vec<PlainSite>, Memory>
    ensures { IfOk result (λ sites. length sites.items ≡ length catalog.now.0) }
{
    let mut sites = Vec::new(alloc);
    for _place in 0..catalog.sites().len() {
        sites.push(PlainSite::new(alloc))?;
    }
    Ok(sites)
}
