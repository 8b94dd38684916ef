//! Calls of one client, each with all letters that it brings about.

ghost use Rattle.std.specs.Prelude.{◌≡◌, ◌≢◌, [], Some, slice_get, IfErr, IfOk, IfSome, OnErr};
ghost use Rattle.std.specs.Option.{option_map};
ghost use Rattle.catalog.specs.FragmentLeaf.{schemas_of};
ghost use Rattle.catalog.specs.Relation.{catalogue_of};
ghost use Rattle.desk.specs.Does.{IsReadAs};
ghost use Rattle.desk.specs.declared.refusal.Refusal.TheVariants as refusals;
ghost use Rattle.world.specs.declared.event.Call.TheVariants as call;
ghost use Rattle.world.specs.Counted.{counts};
ghost use Rattle.world.specs.Course.{Begins, Commits, IsOne, IsTurnedDown, Rolls_back, States};
ghost use Rattle.world.specs.Mailbox.{Serves, To_begin};
ghost use Rattle.world.specs.Frame.{Blames, ComesTo, LeavesDatabase, ListMakes, OverDatabase, OverLists, StaysServed};
ghost use Rattle.store.specs.declared.name.Txn.{Txn as TxnNow};
ghost use Rattle.world.specs.Contents.{OfStores, counted};

use crate::machines::Machines;
use crate::mailbox::deliver_all;
use desk::refusal::Refusal;
use desk::reply::Notice;
use meaning::statement::Statement;
use store::desk_store::DeskStore;
use store::name::Txn;
use store::site_store::SiteStore;

/// A transaction that has begun, and what its client heard.
#[derive(Drop)]
pub(crate) struct Begun {
    pub(crate) txn: Txn,
    pub(crate) heard: Vec<Notice>,
}

/// The transaction that the first notice names. None has begun where there is no notice, since the coordinator is at a limit.
pub(crate) fn named(heard: Vec<Notice>) -> Result<Begun, Refusal>
    ensures same { IfOk result (λ begun. begun.heard.items ≡ heard.items) }
    ensures first { IfOk result (λ begun. option_map (λ notice. notice.txn) (slice_get heard.items 0) ≡ Some begun.txn) }
    ensures none { OnErr result (heard.items ≡ []) }
    ensures full { IfErr result (λ refusal. refusal ≡ refusals.Full) }
{
    match heard.first() {
        Some(first) => Ok(Begun {
            txn: first.txn,
            heard,
        }),
        None => Err(Refusal::Full),
    }
}

/// A transaction begins. Its client hears of it.
fn greet<D: DeskStore, S: SiteStore>(machines: &mut Machines<D, S>) -> Result<Vec<Notice>, Refusal>
    ensures leaves { LeavesDatabase D.is_clean S.is_clean D.is_sound S.is_sound D.refused S.refused machines.old machines.new }
    ensures blames { Blames (OfStores D.is_clean S.is_clean) (OfStores D.is_sound S.is_sound) (counts D.refused S.refused) machines.old machines.new result }
    ensures ok { OverDatabase (OfStores D.is_clean S.is_clean) (OfStores D.is_sound S.is_sound) (counted D.kept S.kept D.refused S.refused) machines.old machines.new
        (λ db before after. IfOk result (λ heard. Serves db To_begin before after heard.items)) }
    ensures denied { OverDatabase (OfStores D.is_clean S.is_clean) (OfStores D.is_sound S.is_sound) (counted D.kept S.kept D.refused S.refused) machines.old machines.new
        (λ db before after. IfErr result (IsTurnedDown db call.Begin before after)) }
    ensures lists { (txn : TxnNow) → OverLists (OfStores D.is_clean S.is_clean) (OfStores D.is_sound S.is_sound) (counted D.kept S.kept D.refused S.refused) machines.old machines.new
        (λ db whole past. ListMakes db whole (counted D.kept S.kept D.refused S.refused machines.new) past result (λ done moves. IsOne (λ heard. Begins txn heard.items) call.Begin done moves × IfOk done (λ heard. heard.items ≢ []))) }
    ensures served { StaysServed (OfStores D.is_clean S.is_clean) (OfStores D.is_sound S.is_sound) (counted D.kept S.kept D.refused S.refused) machines.old machines.new }
{
    match machines.begin() {
        Ok(out) => deliver_all(machines, out),
        Err(refusal) => Err(refusal),
    }
}

/// A transaction begins.
pub(crate) fn begin<D: DeskStore, S: SiteStore>(
    machines: &mut Machines<D, S>,
) -> Result<Begun, Refusal>
    ensures { ComesTo (OfStores D.is_clean S.is_clean) (OfStores D.is_sound S.is_sound) (counted D.kept S.kept D.refused S.refused) machines.old machines.new result (λ db. IsOne (λ begun. Begins begun.txn begun.heard.items) call.Begin) }
{
    match greet(machines) {
        Ok(heard) => named(heard),
        Err(refusal) => Err(refusal),
    }
}

/// A statement of a transaction is stated, by its text. One that it is known to be read as isn't read again.
pub(crate) fn state<D: DeskStore, S: SiteStore>(
    machines: &mut Machines<D, S>,
    txn: Txn,
    text: &str,
    known: Option<Statement>,
) -> Result<Vec<Notice>, Refusal>
    requires { IfSome known (IsReadAs (schemas_of (catalogue_of machines.old.desk.catalog)) text.now) }
    ensures { ComesTo (OfStores D.is_clean S.is_clean) (OfStores D.is_sound S.is_sound) (counted D.kept S.kept D.refused S.refused) machines.old machines.new result (λ db. IsOne (λ heard. States txn text.now heard.items) (call.State txn text.now)) }
{
    match machines.statement(txn, text, known) {
        Ok(out) => deliver_all(machines, out),
        Err(refusal) => Err(refusal),
    }
}

/// The commit of a transaction is asked for.
pub(crate) fn commit<D: DeskStore, S: SiteStore>(
    machines: &mut Machines<D, S>,
    txn: Txn,
) -> Result<Vec<Notice>, Refusal>
    ensures { ComesTo (OfStores D.is_clean S.is_clean) (OfStores D.is_sound S.is_sound) (counted D.kept S.kept D.refused S.refused) machines.old machines.new result (λ db. IsOne (λ heard. Commits txn heard.items) (call.Commit txn)) }
{
    match machines.commit(txn) {
        Ok(out) => deliver_all(machines, out),
        Err(refusal) => Err(refusal),
    }
}

/// A transaction is rolled back.
pub(crate) fn roll_back<D: DeskStore, S: SiteStore>(
    machines: &mut Machines<D, S>,
    txn: Txn,
) -> Result<Vec<Notice>, Refusal>
    ensures { ComesTo (OfStores D.is_clean S.is_clean) (OfStores D.is_sound S.is_sound) (counted D.kept S.kept D.refused S.refused) machines.old machines.new result (λ db. IsOne (λ heard. Rolls_back txn heard.items) (call.Rollback txn)) }
{
    match machines.rollback(txn) {
        Ok(out) => deliver_all(machines, out),
        Err(refusal) => Err(refusal),
    }
}
