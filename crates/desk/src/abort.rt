//! Transactions end without a commit: rolled back, refused or given up.

ghost use Rattle.std.specs.Prelude.{◌≡◌, Bool, Option, Some, IfOk, None, true, false};
ghost use Rattle.protocol.specs.Desk.{Deed, ends_by, Choice, Given_up, on_known, on_refused, on_rollback};
ghost use Rattle.protocol.specs.Letters.{txn_name};
ghost use Rattle.desk.specs.declared.transaction.TxnState.TheVariants as standing;
ghost use Rattle.desk.specs.declared.transaction.TxnState.{TxnState};
ghost use Rattle.desk.specs.declared.transition.After.TheVariants.{Ends};
ghost use Rattle.desk.specs.declared.transaction.Stage.{Stage as StageNow};
ghost use Rattle.desk.specs.Database.{Database, language, replied};
ghost use Rattle.desk.specs.Frame.{LeavesNoRow};
ghost use Rattle.desk.specs.Orders.{abort_broadcast, is_voting};
ghost use Rattle.desk.specs.Transaction.{undecided_of, stage_of};
ghost use Rattle.desk.specs.Transition.{AreParticipants, IsTransition, told, AtSites, after_of, raises};
ghost use Rattle.protocol.specs.Desk as protocol;
ghost use Rattle.store.specs.declared.reply.Reply.TheVariants as reply;
ghost use Rattle.desk.specs.Participants.{sites_of};
ghost use Rattle.desk.specs.Acknowledge.{kept_voters};

use crate::commit::gave_first;
use crate::participant::Participant;
use crate::reply::{Reply, Why};
use crate::send::{Broadcast, broadcast_letters};
use crate::transaction::{Stage, Undecided};
use crate::transition::{After, Transition, stays};
use std::alloc::Global;
use store::name::Txn;
use store::reply::Refusal;
use terms::memory::Memory;
use terms::text::Text;

/// The word to the sites of a transaction that ends without a commit.
pub(crate) fn abort_broadcast(stage: &Stage) -> Broadcast
    ensures { result ≡ abort_broadcast stage.now }
{
    match stage {
        Stage::Voting => Broadcast::AbortVoting,
        _ => Broadcast::Abort,
    }
}

/// A transaction ends without a commit, and whoever may hold locks hears Abort by this word.
pub(crate) fn ends(
    alloc: Global,
    txn: Txn,
    participants: &[Participant],
    word: Broadcast,
    reply: Reply,
    kept: bool,
) -> Result<Transition, Memory>
    ensures turn { (db : Database) (old : Option TxnState) (stage : StageNow) (moves : Bool) (deed : Deed (language db)) → AreParticipants db participants.now → word ≡ abort_broadcast stage → told db deed ≡ Some (txn_name txn, reply)
        → IfOk result (λ turn. IsTransition db txn old turn (ends_by (txn_name txn) (undecided_of db (record { participants = participants.now; stage = stage; moves = moves })) deed)) }
    ensures kept { IfOk result (λ turn. turn.kept ≡ kept) }
    ensures after { IfOk result (λ turn. turn.after ≡ Ends) }
    ensures reply { IfOk result (λ turn. turn.reply ≡ Some reply) }
{
    let letters = broadcast_letters(alloc, txn, word, participants)?;
    Ok(Transition {
        after: After::Ends,
        letters,
        reply: Some(reply),
        kept,
    })
}

/// Whether the first phase has begun.
pub(crate) fn is_voting(stage: &Stage) -> bool
    ensures { result ≡ is_voting stage.now }
{
    matches!(stage, Stage::Voting)
}

/// A transaction is given up.
pub(crate) fn give_up(alloc: Global, txn: Txn, undecided: &Undecided) -> Result<Transition, Memory>
    ensures turn { (db : Database) → AreParticipants db undecided.now.participants
        → IfOk result (λ turn. IsTransition db txn (Some (standing.Undecided undecided.now)) turn (ends_by (txn_name txn) (undecided_of db undecided.now) (protocol.Aborted (txn_name txn) Given_up))) }
    ensures leaves { LeavesNoRow undecided.now result }
{
    let word = abort_broadcast(&undecided.stage);
    let participants = undecided.participants.as_slice();
    ends(
        alloc,
        txn,
        participants,
        word,
        Reply::Aborted(Why::GivenUp),
        true,
    )
}

/// A transaction is rolled back, unless its first phase has begun.
pub(crate) fn roll_back(
    alloc: Global,
    txn: Txn,
    undecided: &Undecided,
) -> Result<Transition, Memory>
    ensures turn { (db : Database) → AreParticipants db undecided.now.participants
        → IfOk result (λ turn. IsTransition db txn (Some (standing.Undecided undecided.now)) turn (on_rollback (txn_name txn) (undecided_of db undecided.now) (stage_of db undecided.now.participants undecided.now.stage))) }
    ensures leaves { LeavesNoRow undecided.now result }
{
    if is_voting(&undecided.stage) {
        return Ok(stays(alloc, true));
    }
    let word = abort_broadcast(&undecided.stage);
    let participants = undecided.participants.as_slice();
    ends(alloc, txn, participants, word, Reply::RolledBack, true)
}

/// A site refused an operation of a transaction, which ends it, unless its first phase has begun.
pub(crate) fn refused(alloc: Global, txn: Txn, undecided: &Undecided) -> Result<Transition, Memory>
    ensures turn { (db : Database) → AreParticipants db undecided.now.participants
        → IfOk result (λ turn. IsTransition db txn (Some (standing.Undecided undecided.now)) turn (on_refused (txn_name txn) (undecided_of db undecided.now) (stage_of db undecided.now.participants undecided.now.stage))) }
    ensures leaves { LeavesNoRow undecided.now result }
{
    if is_voting(&undecided.stage) {
        return Ok(stays(alloc, true));
    }
    let word = abort_broadcast(&undecided.stage);
    let participants = undecided.participants.as_slice();
    ends(
        alloc,
        txn,
        participants,
        word,
        Reply::Aborted(Why::Refused),
        true,
    )
}

/// A site says that it refused an operation. It counts under the ticket that the site gave first.
pub(crate) fn on_refusal(
    alloc: Global,
    txn: Txn,
    undecided: &Undecided,
    site: &Text,
    refusal: Refusal,
) -> Result<Transition, Memory>
    ensures turn { (db : Database) (choice : Choice (language db)) → AreParticipants db undecided.now.participants
        → IfOk result (λ turn. IsTransition db txn (Some (standing.Undecided undecided.now)) turn (on_known (txn_name txn) (undecided_of db undecided.now) site.now turn.kept choice (replied db site.now (reply.Refused refusal)))) }
    ensures sites { IfOk result (λ turn. AtSites (sites_of undecided.now.participants) turn.after) }
    ensures keeps { IfOk result (λ turn. kept_voters (after_of (Some (standing.Undecided undecided.now)) turn.after) ≡ None) }
    ensures kept { IfOk result (λ turn. turn.kept ≡ true) }
    ensures quiet { IfOk result (λ turn. raises (Some (standing.Undecided undecided.now)) turn.reply ≡ false) }
{
    if gave_first(undecided.participants.as_slice(), site, &refusal.ticket) {
        refused(alloc, txn, undecided)
    } else {
        Ok(stays(alloc, true))
    }
}
