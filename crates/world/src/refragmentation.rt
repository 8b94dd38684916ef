//! A relation gets the split that the next catalogue has for it, in a transaction of its own.

ghost use Rattle.std.specs.Prelude.{◌≡◌, ◌≢◌, ◌⊎◌, ◌∷◌, [], Err, IfOk, Some, slice_get};
ghost use Rattle.std.specs.Option.{option_map};
ghost use Rattle.catalog.specs.FragmentLeaf.{schemas_of};
ghost use Rattle.catalog.specs.Relation.{catalogue_of};
ghost use Rattle.desk.specs.OfCatalogue.{first_in};
ghost use Rattle.desk.specs.Refragmented.{FindsNoNext};
ghost use Rattle.store.specs.declared.name.Txn.{Txn as TxnNow};
ghost use Rattle.world.specs.Commands.{IsDecided, IsRefragmented, heard_in};
ghost use Rattle.world.specs.Course.{Refragments};
ghost use Rattle.desk.specs.declared.refusal.Refusal.TheVariants as refusals;
ghost use Rattle.world.specs.Contents.{OfStores, counted};
ghost use Rattle.world.specs.Counted.{counts};
ghost use Rattle.world.specs.Frame.{Blames, FindsNone, LeavesDatabase, ListMakes, OverLists};

use crate::autocommit::decide;
use crate::client::named;
use crate::machines::Machines;
use crate::mailbox::deliver_all;
use desk::refusal::Refusal;
use desk::reply::Notice;
use store::desk_store::DeskStore;
use store::site_store::SiteStore;

/// The transaction begins, and states the REFRAGMENT of this text. Its client hears of both.
fn announce<D: DeskStore, S: SiteStore>(
    machines: &mut Machines<D, S>,
    text: &str,
) -> Result<Vec<Notice>, Refusal>
    ensures leaves { LeavesDatabase D.is_clean S.is_clean D.is_sound S.is_sound D.refused S.refused machines.old machines.new }
    ensures blames { Blames (OfStores D.is_clean S.is_clean) (OfStores D.is_sound S.is_sound) (counts D.refused S.refused) machines.old machines.new result }
    ensures lists { OverLists (OfStores D.is_clean S.is_clean) (OfStores D.is_sound S.is_sound) (counted D.kept S.kept D.refused S.refused) machines.old machines.new
        (λ db whole past. ListMakes db whole (counted D.kept S.kept D.refused S.refused machines.new) past result (λ done moves. (moves ≡ Refragments text.now (heard_in (λ heard. heard.items) done) ∷ []) × IfOk done (λ heard. heard.items ≢ []))) }
    ensures finds_none { result ≡ Err refusals.NoNext → (machines.old.desk.later.items ≡ []) ⊎ FindsNoNext (catalogue_of machines.old.desk.catalog) (schemas_of (catalogue_of machines.old.desk.catalog)) (first_in machines.old.desk.later.items) text.now }
{
    match machines.refragment(text) {
        Ok(out) => deliver_all(machines, out),
        Err(refusal) => Err(refusal),
    }
}

/// Of the transaction this was heard: its commit is asked for, unless it has ended by itself.
fn conclude<D: DeskStore, S: SiteStore>(
    machines: &mut Machines<D, S>,
    heard: Vec<Notice>,
) -> Result<Vec<Notice>, Refusal>
    ensures leaves { LeavesDatabase D.is_clean S.is_clean D.is_sound S.is_sound D.refused S.refused machines.old machines.new }
    ensures blames { Blames (OfStores D.is_clean S.is_clean) (OfStores D.is_sound S.is_sound) (counts D.refused S.refused) machines.old machines.new result }
    ensures lists { heard.items ≢ [] → OverLists (OfStores D.is_clean S.is_clean) (OfStores D.is_sound S.is_sound) (counted D.kept S.kept D.refused S.refused) machines.old machines.new
        (λ db whole past. ListMakes db whole (counted D.kept S.kept D.refused S.refused machines.new) past result (λ done moves. (txn : TxnNow) × (option_map (λ notice. notice.txn) (slice_get heard.items 0) ≡ Some txn) × IsDecided txn heard.items moves (heard_in (λ heard. heard.items) done))) }
{
    match named(heard) {
        Ok(begun) => decide(machines, begun.txn, begun.heard),
        Err(refusal) => Err(refusal),
    }
}

/// Runs the REFRAGMENT of this text. Its client hears the answer where it was committed, and else why not. Where no catalogue comes
/// later it finds none that is next.
pub(crate) fn run_refragment<D: DeskStore, S: SiteStore>(
    machines: &mut Machines<D, S>,
    text: &str,
) -> Result<Vec<Notice>, Refusal>
    ensures none { machines.old.desk.later.items ≡ [] → (result ≡ Err refusals.NoNext) × (machines.new ≡ machines.old) }
    ensures leaves { LeavesDatabase D.is_clean S.is_clean D.is_sound S.is_sound D.refused S.refused machines.old machines.new }
    ensures blames { Blames (OfStores D.is_clean S.is_clean) (OfStores D.is_sound S.is_sound) (counts D.refused S.refused) machines.old machines.new result }
    ensures lists { machines.old.desk.later.items ≢ [] → OverLists (OfStores D.is_clean S.is_clean) (OfStores D.is_sound S.is_sound) (counted D.kept S.kept D.refused S.refused) machines.old machines.new
        (λ db whole past. ListMakes db whole (counted D.kept S.kept D.refused S.refused machines.new) past result (λ done moves. IsRefragmented text.now moves (heard_in (λ heard. heard.items) done))) }
    ensures finds_none { FindsNone (OfStores D.is_clean S.is_clean) (OfStores D.is_sound S.is_sound) (counted D.kept S.kept D.refused S.refused) machines.old machines.new result text.now }
{
    if machines.desk.later().is_empty() {
        return Err(Refusal::NoNext);
    }
    match announce(machines, text) {
        Ok(heard) => conclude(machines, heard),
        Err(refusal) => Err(refusal),
    }
}
