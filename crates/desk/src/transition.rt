//! What becomes of a transaction, and how a step is made.

ghost use Rattle.std.specs.Prelude.{◌≡◌, [], ◌∷◌, Option, None, Some, true, false, suc, IfOk, ◌<◌, ◌+◌, ◌-◌, ◌^◌, ◌&&◌, if◌then◌else◌, vec_len};
ghost use Rattle.protocol.specs.Desk.{stays};
ghost use Rattle.desk.specs.declared.transition.After.TheVariants as after;
ghost use Rattle.desk.specs.Database.{Database, sent};
ghost use Rattle.desk.specs.Frame.{LeavesStanding};
ghost use Rattle.desk.specs.Orders.{ordered};
ghost use Rattle.desk.specs.Transaction.{txn_of};
ghost use Rattle.desk.specs.Transition.{IsTransition, raises, says_committed};
ghost use Rattle.std.specs.BTreeMap.{IsOrdered};
ghost use Rattle.std.specs.Vec.{vec_capacity};
ghost use Rattle.store.specs.Name.{txn_cmp};
ghost use Rattle.desk.specs.declared.transaction.TxnState.{TxnState as TxnStateNow};
ghost use Rattle.desk.specs.Request.{notices};
ghost use Rattle.desk.specs.State.{closes, is_open, settled, volatile_from, volatile_of};

use crate::reply::{Notice, Out, Reply};
use crate::send::put_order;
use crate::transaction::TxnState;
use crate::volatile::Volatile;
use std::alloc::Global;
use store::letter::Letter;
use store::name::Txn;
use store::order::Order;
use terms::memory::Memory;
use terms::seq::Seq;
use terms::text::Text;

/// What stands behind a transaction after a step.
#[derive(Drop)]
pub(crate) enum After {
    /// What stood there.
    Stays,
    /// Nothing.
    Ends,
    /// This.
    Becomes(TxnState),
}

/// What a step makes of a transaction, the letters put out, and what its client hears.
#[derive(Drop)]
pub(crate) struct Transition {
    pub(crate) after: After,
    pub(crate) letters: Vec<Letter>,
    pub(crate) reply: Option<Reply>,
    /// Whether the store did not refuse.
    pub(crate) kept: bool,
}

/// Nothing happens.
pub(crate) fn stays(alloc: Global, kept: bool) -> Transition
    ensures turn { (db : Database) (txn : Txn) (old : Option TxnState) → IsTransition db txn old result (stays (txn_of db old)) }
    ensures kept { result.kept ≡ kept }
    ensures after { result.after ≡ after.Stays }
    ensures reply { result.reply ≡ None }
{
    Transition {
        after: After::Stays,
        letters: Vec::new(alloc),
        reply: None,
        kept,
    }
}

/// Something stands behind the transaction, and nothing else happens.
pub(crate) fn becomes(alloc: Global, standing: TxnState) -> Transition
    ensures turn { (db : Database) (txn : Txn) (old : Option TxnState) → IsTransition db txn old result (stays (txn_of db (Some standing))) }
    ensures after { result.after ≡ after.Becomes standing }
    ensures kept { result.kept ≡ true }
    ensures reply { result.reply ≡ None }
{
    Transition {
        after: After::Becomes(standing),
        letters: Vec::new(alloc),
        reply: None,
        kept: true,
    }
}

/// A visit hears an order, and nothing else happens.
pub(crate) fn tells(
    alloc: Global,
    txn: Txn,
    site: &Text,
    order: Order,
) -> Result<Transition, Memory>
    ensures turn { (db : Database) (old : Option TxnState) → IfOk result (λ turn. IsTransition db txn old turn (record { txn = txn_of db old; letters = sent db (ordered txn site.now order) ∷ []; deeds = [] })) }
    ensures leaves { LeavesStanding result }
{
    let mut letters = Vec::new(alloc);
    put_order(&mut letters, txn, site, order)?;
    Ok(Transition {
        after: After::Stays,
        letters,
        reply: None,
        kept: true,
    })
}

/// Room for one reply.
pub(crate) fn room(alloc: Global) -> Result<Vec<Notice>, Memory>
    ensures empty { IfOk result (λ room. room.items ≡ []) }
    ensures room { IfOk result (λ room. vec_len room < vec_capacity room) }
{
    Ok(Vec::with_capacity(alloc, 1)?)
}

/// A reply to a transaction's client, if there is one. There is room for it.
pub(crate) fn noticed(room: Vec<Notice>, txn: Txn, reply: Option<Reply>) -> Vec<Notice>
    requires { vec_len room < vec_capacity room }
    ensures { room.items ≡ [] → result.items ≡ notices txn reply }
{
    let mut notices = room;
    if let Some(reply) = reply {
        notices.push_reserved(Notice { txn, reply });
    }
    notices
}

/// This is what a transaction's client hears.
pub(crate) fn heard(alloc: Global, txn: Txn, reply: Reply) -> Result<Vec<Notice>, Memory>
    ensures { IfOk result (λ heard. heard.items ≡ notices txn (Some reply)) }
{
    let room = room(alloc)?;
    Ok(noticed(room, txn, Some(reply)))
}

/// Whether a client hears that its transaction is committed.
fn says_committed(reply: &Option<Reply>) -> bool
    ensures { result ≡ says_committed reply.now }
{
    matches!(reply, Some(Reply::Committed))
}

/// A transaction makes a step. There is room for its reply. Where the step commits one that gives a relation another split,
/// the next catalogue is in force.
#[inline(always)]
pub(crate) fn make(volatile: &mut Volatile, txn: Txn, turn: Transition, room: Vec<Notice>) -> Out
    requires { vec_len room < vec_capacity room }
    ensures letters { result.letters ≡ turn.letters.items }
    ensures replies { room.items ≡ [] → result.replies ≡ notices txn turn.reply }
    ensures kept { result.kept ≡ turn.kept }
    ensures settled { (now : TxnStateNow) → (volatile_of volatile.old).standing txn ≡ Some now → (raises (Some now) turn.reply ≡ true → volatile.old.version + 1 < 2 ^ 64)
        → volatile_of volatile.new ≡ volatile_from (settled txn turn.after volatile.old.standings.entries) (if is_open (Some now) && closes turn.after then volatile.old.undecided - 1 else volatile.old.undecided) volatile.old.life volatile.old.number
        (if raises (Some now) turn.reply then suc volatile.old.version else volatile.old.version) }
    ensures still { turn.after ≡ after.Stays → raises ((volatile_of volatile.old).standing txn) turn.reply ≡ false → volatile_of volatile.new ≡ volatile_of volatile.old }
    ensures ordered { IsOrdered txn_cmp volatile.old.standings }
{
    let Transition {
        after,
        letters,
        reply,
        kept,
    } = turn;
    let raises = volatile.is_moving(&txn) && says_committed(&reply);
    volatile.settle(&txn, after);
    volatile.raise(raises);
    Out {
        letters: Seq::new(letters),
        replies: Seq::new(noticed(room, txn, reply)),
        kept,
    }
}
