//! The coordinator's store is opened under the catalogue whose number it keeps.

ghost use Rattle.std.specs.Prelude.{◌≡◌, ◌⊎◌, ◌+◌, ◌^◌, ◌≤◌, ◌∷◌, [], List, Err, IfOk, IfErr, OnOk, OnErr, map};
ghost use Rattle.std.specs.BTreeMap.{IsOrdered};
ghost use Rattle.catalog.specs.Catalogue.{Catalogue};
ghost use Rattle.catalog.specs.Relation.{catalogue_of};
ghost use Rattle.store.specs.DeskContent.{BeginsLife, IsUnchanged};
ghost use Rattle.store.specs.Fault.{HasRefused};
ghost use Rattle.store.specs.Frame.{LeavesStore, Soundly};
ghost use Rattle.store.specs.Name.{txn_cmp};
ghost use Rattle.store.specs.declared.fault.StoreFault.TheVariants as store_faults;
ghost use Rattle.desk.specs.declared.refusal.Refusal.TheVariants as refusals;
ghost use Rattle.desk.specs.Database.{Database};
ghost use Rattle.desk.specs.OfCatalogue.{from_number};
ghost use Rattle.desk.specs.Recovery.{IsStrange, Rises};
ghost use Rattle.desk.specs.State.{volatile_from};

use crate::recovery::{Beginning, begin};
use crate::refusal::{Refusal, store_refusal};
use catalog::catalogue::Catalog;
use std::alloc::Global;
use store::desk_store::DeskStore;
use terms::memory::Memory;

/// The catalogue in force, and those that come after it.
#[derive(Drop)]
pub(crate) struct Catalogs {
    pub(crate) in_force: Catalog,
    pub(crate) later: Vec<Catalog>,
}

/// What a coordinator begins with: its catalogues, and the life that has begun.
#[derive(Drop)]
pub(crate) struct Opened {
    pub(crate) catalogs: Catalogs,
    pub(crate) begun: Beginning,
}

/// Copies of catalogues.
fn copies(alloc: Global, catalogs: &[Catalog]) -> Result<Vec<Catalog>, Memory>
    ensures { IfOk result (λ copies. map catalogue_of copies.items ≡ map catalogue_of catalogs.now) }
{
    let mut copies = Vec::new(alloc);
    for catalog in catalogs {
        copies.push(catalog.copy()?)?;
    }
    Ok(copies)
}

/// The catalogue of this number and those behind it, numbered from 1.
fn numbered(alloc: Global, catalogs: &[Catalog], number: u64) -> Result<Catalogs, Refusal>
    ensures ok { IfOk result (λ those. catalogue_of those.in_force ∷ map catalogue_of those.later.items ≡ from_number number (map catalogue_of catalogs.now)) }
    ensures chain { result ≡ Err refusals.Chain → from_number number (map catalogue_of catalogs.now) ≡ [] }
    ensures own { IfErr result (λ told. (told ≡ refusals.Memory) ⊎ (told ≡ refusals.Chain)) }
{
    let Some((catalog, later)) = catalogs.split_first() else {
        return Err(Refusal::Chain);
    };
    match number {
        0 => Err(Refusal::Chain),
        1 => Ok(Catalogs {
            in_force: catalog.copy()?,
            later: copies(alloc, later)?,
        }),
        _ => numbered(alloc, later, number - 1),
    }
}

/// The next life begins under the catalogue whose number the store keeps. Where none of these has it, or on another refusal,
/// nothing has changed.
pub(crate) fn open<S: DeskStore>(
    store: &mut S,
    alloc: Global,
    catalogs: &[Catalog],
) -> Result<Opened, Refusal>
    ensures leaves { LeavesStore S.is_clean S.is_sound S.refused store.old store.new }
    ensures learnt { S.is_clean store.new → OnOk result (S.is_sound store.old) }
    ensures rises { (db : Database) → IfOk result (λ opened. db.sites ≡ opened.catalogs.in_force.0 → S.is_clean store.new → Rises db (S.kept store.new) (volatile_from opened.begun.standings.entries 0 opened.begun.life 0 opened.begun.version)) }
    ensures life { S.is_clean store.new → OnOk result (BeginsLife (S.kept store.old) (S.kept store.new)) }
    ensures ordered { IfOk result (λ opened. IsOrdered txn_cmp opened.begun.standings) }
    ensures in_force { IfOk result (λ opened. catalogue_of opened.catalogs.in_force ∷ map catalogue_of opened.catalogs.later.items ≡ from_number opened.begun.version (map catalogue_of catalogs.now)) }
    ensures same { Soundly S.is_clean S.is_sound store.old store.new (OnErr result (IsUnchanged (S.kept store.old) (S.kept store.new))) }
    ensures refusal { result ≡ Err (refusals.Store store_faults.Refused) → HasRefused (S.refused store.old) (S.refused store.new) }
    ensures full { S.is_clean store.new → result ≡ Err refusals.Full → 2 ^ 63 ≤ (S.kept store.new).life + 1 }
    ensures damaged { Soundly S.is_clean S.is_sound store.old store.new (result ≡ Err (refusals.Store store_faults.Damaged)
        → (catalogue : Catalogue) (later : List Catalogue) → from_number (S.kept store.new).version (map catalogue_of catalogs.now) ≡ catalogue ∷ later → IsStrange catalogue.sites (S.kept store.new)) }
    ensures chain { Soundly S.is_clean S.is_sound store.old store.new (result ≡ Err refusals.Chain → from_number (S.kept store.new).version (map catalogue_of catalogs.now) ≡ []) }
    ensures own { IfErr result (λ told. (told ≡ refusals.Memory) ⊎ (told ≡ refusals.Full) ⊎ (told ≡ refusals.Chain) ⊎ (told ≡ refusals.Store store_faults.Refused) ⊎ (told ≡ refusals.Store store_faults.Damaged)) }
{
    let version = match store.load() {
        Ok(all) => all.version,
        Err(fault) => return Err(store_refusal(fault)),
    };
    let catalogs = numbered(alloc, catalogs, version)?;
    match begin(store, alloc, catalogs.in_force.sites()) {
        Ok(begun) => Ok(Opened {
            catalogs,
            begun: Beginning { version, ..begun },
        }),
        Err(refusal) => Err(refusal),
    }
}
