//! The catalogues of texts, and a chain of two.

ghost use Rattle.std.specs.Prelude.{◌≡◌, IfOk, length};
ghost use Rattle.catalog.specs.Relation.{catalogue_of};
ghost use Rattle.catalog.specs.Catalogue.{IsCatalogueText};

use crate::catalogues::{EMP_AND_DEPT, EMP_BY_ROWS};
use catalog::catalogue::Catalog;
use catalog::chain::Chain;
use std::alloc::Global;
use terms::memory::Memory;

/// The catalogue of a text that is accepted.
pub fn catalog(alloc: Global, text: &str) -> Result<Catalog, Memory>
    ensures { IfOk result (λ catalog. IsCatalogueText text.now (catalogue_of catalog)) }
{
    Catalog::read(alloc, text).map_err(|_| Memory)
}

/// The chain of two catalogues, in which both relations get another split.
pub fn chain(alloc: Global) -> Result<Chain, Memory>
    ensures { IfOk result (λ chain. length chain ≡ 2) }
{
    let mut catalogs = Vec::new(alloc);
    catalogs.push(catalog(alloc, EMP_AND_DEPT)?)?;
    catalogs.push(catalog(alloc, EMP_BY_ROWS)?)?;
    Chain::new(catalogs).map_err(|_| Memory)
}
