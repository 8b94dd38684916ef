//! Transactions that a client hands over, one after another.

ghost use Rattle.std.specs.Prelude.{◌≡◌, ◌⊎◌, ◌<◌, ◌++◌, ◌∷◌, ℕ, vec_len, vec_capacity, List, Bool, [], true, false, map, Err, Ok, IfErr, IfOk, OnErr, OnOk};
ghost use Rattle.protocol.specs.Client.{ReachedLaw};
ghost use Rattle.desk.specs.Database.{language};
ghost use Rattle.desk.specs.declared.refusal.Refusal.TheVariants as refusals;
ghost use Rattle.world.specs.declared.event.Call.TheVariants as call;
ghost use Rattle.store.specs.declared.name.Txn.{Txn as TxnNow};
ghost use Rattle.world.specs.declared.transaction.End.TheVariants as end;
ghost use Rattle.world.specs.declared.transaction.Came.TheVariants.{Heard, Refused};
ghost use Rattle.world.specs.Batch.{Makes, MakesMore, RunsAll, RunsOne, StopsAt, calls_of, calls_of_end, has_ended};
ghost use Rattle.world.specs.Counted.{counts};
ghost use Rattle.world.specs.Frame.{HasMade, LeavesDatabase, OverDatabase, OverLists, RunsTo, StaysServed};
ghost use Rattle.world.specs.ListServed.{IsListServedOn, ListMade};
ghost use Rattle.world.specs.Contents.{OfStores, counted};
ghost use Rattle.world.specs.Stopping.{StopsFor, is_stop};

use crate::autocommit::{is_stop, tells_end};
use crate::client::{Begun, begin, commit, roll_back, state};
use crate::machines::Machines;
use crate::transaction::{Came, Course, End, Outcome, Stop, Transaction};
use desk::refusal::Refusal;
use desk::reply::Notice;
use store::desk_store::DeskStore;
use store::name::Txn;
use store::site_store::SiteStore;
use terms::seq::Seq;
use terms::text::Text;

/// What came of the texts of a transaction, and whether it has ended by one of them.
#[derive(Drop)]
struct Stated {
    came: Vec<Came>,
    ended: bool,
}

/// What came of a call, unless it stops the database.
fn told(done: Result<Vec<Notice>, Refusal>) -> Result<Came, Refusal>
    ensures heard { IfOk done (λ heard. result ≡ Ok (Heard heard.items)) }
    ensures refused { IfErr done (λ refusal. ((is_stop refusal ≡ true) × (result ≡ Err refusal)) ⊎ ((is_stop refusal ≡ false) × (result ≡ Ok (Refused refusal)))) }
    ensures own { IfErr result (λ refusal. is_stop refusal ≡ true) }
{
    match done {
        Ok(heard) => Ok(Came::Heard(Seq::new(heard))),
        Err(refusal) => {
            if is_stop(&refusal) {
                Err(refusal)
            } else {
                Ok(Came::Refused(refusal))
            }
        }
    }
}

/// Room for one more item. The items stay.
fn make_room<T: Drop>(items: &mut Vec<T>) -> Result<(), Refusal>
    ensures items { items.new.items ≡ items.old.items }
    ensures ok { OnOk result (vec_len items.new < vec_capacity items.new) }
    ensures memory { IfErr result (λ refusal. refusal ≡ refusals.Memory) }
    ensures own { IfErr result (λ refusal. is_stop refusal ≡ true) }
{
    match items.try_reserve(1) {
        Ok(()) => Ok(()),
        Err(_) => Err(Refusal::Memory),
    }
}

/// Whether what came of a statement tells that its transaction has ended.
fn has_ended(came: &Came) -> bool
    ensures { (txn : TxnNow) (text : List ℕ) → result ≡ has_ended (call.State txn text) came.now }
{
    match came {
        Came::Heard(heard) => tells_end(heard.as_slice()),
        Came::Refused(_) => false,
    }
}

/// Whether the commit of which this came was refused, so that its transaction is still open.
fn is_refused(came: &Came) -> bool
    ensures refused { (txn : TxnNow) → result ≡ true → has_ended (call.Commit txn) came.now ≡ false }
    ensures done { (txn : TxnNow) → result ≡ false → has_ended (call.Commit txn) came.now ≡ true }
{
    matches!(came, Came::Refused(_))
}

/// What stopped a transaction, after these were run.
fn stop(done: Vec<Outcome>, refusal: Refusal) -> Stop
    ensures { (result.done ≡ done.items) × (result.refusal ≡ refusal) }
{
    Stop {
        done: Seq::new(done),
        refusal,
    }
}

/// The texts of a transaction are stated, one after another while it is open.
fn state_all<D: DeskStore, S: SiteStore>(
    machines: &mut Machines<D, S>,
    txn: Txn,
    texts: &[Text],
) -> Result<Stated, Refusal>
    ensures { RunsTo (OfStores D.is_clean S.is_clean) (OfStores D.is_sound S.is_sound) (counted D.kept S.kept D.refused S.refused) machines.old machines.new result (λ db stated moves. Makes (map (λ text. call.State txn text) texts.now) stated.came.items stated.ended moves) }
{
    let mut came = Vec::new(machines.alloc);
    for text in texts {
        make_room(&mut came)?;
        let one = told(state(machines, txn, text.as_str(), None))?;
        let ended = has_ended(&one);
        came.push_reserved(one);
        if ended {
            return Ok(Stated { came, ended: true });
        }
    }
    Ok(Stated { came, ended: false })
}

/// An open transaction is rolled back.
fn ask_rollback<D: DeskStore, S: SiteStore>(
    machines: &mut Machines<D, S>,
    txn: Txn,
    came: Vec<Came>,
) -> Result<Vec<Came>, Refusal>
    ensures { RunsTo (OfStores D.is_clean S.is_clean) (OfStores D.is_sound S.is_sound) (counted D.kept S.kept D.refused S.refused) machines.old machines.new result (λ db all moves. MakesMore (calls_of_end end.Rollback txn) came.items all.items moves) }
{
    let mut came = came;
    make_room(&mut came)?;
    let one = told(roll_back(machines, txn))?;
    came.push_reserved(one);
    Ok(came)
}

/// The commit of an open transaction is asked for; where that is refused, it is rolled back.
fn ask_commit<D: DeskStore, S: SiteStore>(
    machines: &mut Machines<D, S>,
    txn: Txn,
    came: Vec<Came>,
) -> Result<Vec<Came>, Refusal>
    ensures { RunsTo (OfStores D.is_clean S.is_clean) (OfStores D.is_sound S.is_sound) (counted D.kept S.kept D.refused S.refused) machines.old machines.new result (λ db all moves. MakesMore (calls_of_end end.Commit txn) came.items all.items moves) }
{
    let mut came = came;
    make_room(&mut came)?;
    let one = told(commit(machines, txn))?;
    let refused = is_refused(&one);
    came.push_reserved(one);
    if refused {
        ask_rollback(machines, txn, came)
    } else {
        Ok(came)
    }
}

/// The end of a transaction is asked for, if it is open.
fn finish<D: DeskStore, S: SiteStore>(
    machines: &mut Machines<D, S>,
    txn: Txn,
    stated: Stated,
    end: End,
) -> Result<Vec<Came>, Refusal>
    ensures { RunsTo (OfStores D.is_clean S.is_clean) (OfStores D.is_sound S.is_sound) (counted D.kept S.kept D.refused S.refused) machines.old machines.new result (λ db all moves. (stated.ended ≡ false → MakesMore (calls_of_end end txn) stated.came.items all.items moves) × (stated.ended ≡ true → (all.items ≡ stated.came.items) × (moves ≡ []))) }
{
    let Stated { came, ended } = stated;
    if ended {
        return Ok(came);
    }
    match end {
        End::Commit => ask_commit(machines, txn, came),
        End::Rollback => ask_rollback(machines, txn, came),
    }
}

/// A transaction that has begun is run to its end.
fn run_course<D: DeskStore, S: SiteStore>(
    machines: &mut Machines<D, S>,
    begun: Begun,
    transaction: &Transaction,
) -> Result<Course, Refusal>
    ensures { RunsTo (OfStores D.is_clean S.is_clean) (OfStores D.is_sound S.is_sound) (counted D.kept S.kept D.refused S.refused) machines.old machines.new result (λ db course moves. (course.txn ≡ begun.txn) × (course.greeted ≡ begun.heard.items) × ((ended : Bool) × Makes (calls_of transaction.now begun.txn) course.came ended moves)) }
{
    let Begun { txn, heard } = begun;
    let stated = state_all(machines, txn, transaction.texts.as_slice())?;
    let came = finish(machines, txn, stated, transaction.end)?;
    Ok(Course {
        txn,
        greeted: Seq::new(heard),
        came: Seq::new(came),
    })
}

/// A transaction is run.
fn run_one<D: DeskStore, S: SiteStore>(
    machines: &mut Machines<D, S>,
    transaction: &Transaction,
) -> Result<Outcome, Refusal>
    ensures { RunsTo (OfStores D.is_clean S.is_clean) (OfStores D.is_sound S.is_sound) (counted D.kept S.kept D.refused S.refused) machines.old machines.new result (λ db outcome moves. RunsOne transaction.now outcome moves) }
{
    match begin(machines) {
        Ok(begun) => match run_course(machines, begun, transaction) {
            Ok(course) => Ok(Outcome::Ran(course)),
            Err(refusal) => Err(refusal),
        },
        Err(refusal) => {
            if is_stop(&refusal) {
                Err(refusal)
            } else {
                Ok(Outcome::Unbegun(refusal))
            }
        }
    }
}

/// Transactions are run, one after another.
pub(crate) fn run_all<D: DeskStore, S: SiteStore>(
    machines: &mut Machines<D, S>,
    transactions: &[Transaction],
) -> Result<Vec<Outcome>, Stop>
    ensures leaves { LeavesDatabase D.is_clean S.is_clean D.is_sound S.is_sound D.refused S.refused machines.old machines.new }
    ensures blames { OfStores D.is_clean S.is_clean machines.new → OfStores D.is_sound S.is_sound machines.old → IfErr result (λ stop. StopsFor (counts D.refused S.refused machines.old) (counts D.refused S.refused machines.new) stop.refusal) }
    ensures own { IfErr result (λ stop. is_stop stop.refusal ≡ true) }
    ensures ok { OverDatabase (OfStores D.is_clean S.is_clean) (OfStores D.is_sound S.is_sound) (counted D.kept S.kept D.refused S.refused) machines.old machines.new
        (λ db before after. IfOk result (λ outcomes. HasMade db before after (RunsAll transactions.now outcomes.items))) }
    ensures stops { OverDatabase (OfStores D.is_clean S.is_clean) (OfStores D.is_sound S.is_sound) (counted D.kept S.kept D.refused S.refused) machines.old machines.new
        (λ db before after. ReachedLaw (language db) → IfErr result (λ stop. StopsAt db transactions.now stop.done before after)) }
    ensures lists { OverLists (OfStores D.is_clean S.is_clean) (OfStores D.is_sound S.is_sound) (counted D.kept S.kept D.refused S.refused) machines.old machines.new
        (λ db whole past. IfOk result (λ outcomes. ListMade db whole (counted D.kept S.kept D.refused S.refused machines.new) past (RunsAll transactions.now outcomes.items)) × OnErr result (IsListServedOn db whole (counted D.kept S.kept D.refused S.refused machines.new) past)) }
    ensures served { StaysServed (OfStores D.is_clean S.is_clean) (OfStores D.is_sound S.is_sound) (counted D.kept S.kept D.refused S.refused) machines.old machines.new }
{
    let mut outcomes = Vec::new(machines.alloc);
    for transaction in transactions {
        if let Err(refusal) = make_room(&mut outcomes) {
            return Err(stop(outcomes, refusal));
        }
        match run_one(machines, transaction) {
            Ok(outcome) => outcomes.push_reserved(outcome),
            Err(refusal) => return Err(stop(outcomes, refusal)),
        }
    }
    Ok(outcomes)
}
