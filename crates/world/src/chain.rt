//! The first catalogue of a chain, and the chain of a database that has one catalogue.

ghost use Rattle.std.specs.Prelude.{◌≡◌, [], ◌∷◌, ℕ, List, IfOk, map};
ghost use Rattle.catalog.specs.declared.relation.SplitRelation.{SplitRelation};
ghost use Rattle.catalog.specs.Relation.{catalogue_of};
ghost use Rattle.world.specs.Chain.{sites_of};

use catalog::catalogue::Catalog;
use catalog::chain::Chain;
use std::alloc::Global;
use terms::memory::Memory;

/// The first catalogue of a chain.
pub fn first_of(chain: &Chain) -> &Catalog
    ensures { (rest : List (List (List ℕ) × List SplitRelation)) × (chain.now ≡ result.now ∷ rest) }
{
    match chain.as_slice().split_first() {
        Some((first, _)) => first,
        None => unreachable!(),
    }
}

/// The chain of this catalogue alone.
pub fn alone(alloc: Global, catalog: &Catalog) -> Result<Chain, Memory>
    ensures one { IfOk result (λ chain. map catalogue_of chain ≡ catalogue_of catalog.now ∷ []) }
    ensures sites { IfOk result (λ chain. sites_of chain ≡ catalog.now.0) }
{
    let mut catalogs = Vec::new(alloc);
    catalogs.push(catalog.copy()?)?;
    match Chain::new(catalogs) {
        Ok(chain) => Ok(chain),
        Err(_) => unreachable!(),
    }
}
