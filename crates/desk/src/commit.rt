//! The commit of a transaction: it is asked for, votes come, and it is decided.

ghost use Rattle.std.specs.Prelude.{◌≡◌, None, Some, true, IfOk, IfSome, OnOk, ⊤, ℕ, suc, Bool, List, ◌==◌, ◌<◌, ◌+◌, ◌^◌, ◌⊎◌, length, map, false, Option, if◌then◌else◌};
ghost use Rattle.protocol.specs.Desk.{on_commit_call, Choice, Known, on_known, By_store, decides, ends_by, votes_go};
ghost use Rattle.protocol.specs.Letters.{txn_name, is_no};
ghost use Rattle.desk.specs.declared.transaction.TxnState.TheVariants as standing;
ghost use Rattle.desk.specs.declared.transaction.TxnState.{TxnState as TxnStateNow};
ghost use Rattle.desk.specs.Commit.{is_idle, awaits_vote, counts_vote, has_read_beside, is_early, is_first, is_read, leaves_open, only_reads, with_counted};
ghost use Rattle.std.specs.List.{list_all};
ghost use Rattle.desk.specs.Database.{Database, language, replied};
ghost use Rattle.desk.specs.Participants.{sites_of, participant_in};
ghost use Rattle.desk.specs.Orders.{broadcast_letters};
ghost use Rattle.desk.specs.declared.participant.Participant.{Participant as ParticipantNow};
ghost use Rattle.desk.specs.declared.send.Broadcast.TheVariants.{AbortVoting};
ghost use Rattle.desk.specs.Transaction.{stage_of, undecided_of, voter_of, votes_of};
ghost use Rattle.desk.specs.Transition.{AreParticipants, AtSites, IsTransition, after_of, commits_now, raises, voting};
ghost use Rattle.desk.specs.Commit.{committed_by};
ghost use Rattle.desk.specs.declared.transaction.Undecided.{Undecided as UndecidedNow};
ghost use Rattle.desk.specs.declared.reply.Reply.TheVariants as replies;
ghost use Rattle.desk.specs.declared.reply.Why.TheVariants as whys;
ghost use Rattle.desk.specs.Acknowledge.{AreInOrder, kept_voters, Keeps};
ghost use Rattle.reader.specs.Printable.{AreDistinct};
ghost use Rattle.std.specs.Option.{option_copied};
ghost use Rattle.store.specs.declared.reply.Reply.TheVariants as reply;
ghost use Rattle.desk.specs.Called.{CallsStore, Decides};
ghost use Rattle.desk.specs.Frame.{LeavesNoRow, StepsStore};
ghost use Rattle.protocol.specs.Desk as protocol;
ghost use Rattle.store.specs.DeskContent.{AreVoters};
ghost use Rattle.desk.specs.declared.transition.After.TheVariants.{Ends};

use crate::abort::{ends, is_voting};
use crate::acknowledge::{commit_letters, voters_among};
use crate::participant::{
    Participant, are_all_in, are_others_in, find_participant, is_at, set_vote, with_vote,
    without_votes,
};
use crate::reply::{Reply, Why};
use crate::send::{Broadcast, broadcast_letters};
use crate::transaction::{Committed, Stage, TxnState, Undecided};
use crate::transition::{After, Transition, becomes, stays};
use std::alloc::Global;
use std::mem;
use store::commit::Voter;
use store::desk_store::DeskStore;
use store::fault::StoreFault;
use store::letter::Letter;
use store::name::{Ticket, Txn};
use store::reply::{Reply as Said, Vote, Voted};
use terms::memory::Memory;
use terms::seq::Seq;
use terms::text::Text;

/// Whether a transaction stands between two statements.
pub(crate) fn is_idle(stage: &Stage) -> bool
    ensures { result ≡ is_idle stage.now }
{
    matches!(stage, Stage::Idle)
}

/// The first phase of a transaction begins, if it stands between two statements: each visited site is asked
/// to prepare what was sent to it. One that visited no site is committed at once.
#[inline(always)]
pub(crate) fn commit(alloc: Global, txn: Txn, undecided: &Undecided) -> Result<Transition, Memory>
    ensures turn { (db : Database) → AreParticipants db undecided.now.participants
        → IfOk result (λ turn. IsTransition db txn (Some (standing.Undecided undecided.now)) turn (on_commit_call (txn_name txn) (undecided_of db undecided.now) (stage_of db undecided.now.participants undecided.now.stage))) }
    ensures leaves { LeavesNoRow undecided.now result }
{
    if !is_idle(&undecided.stage) {
        return Ok(stays(alloc, true));
    }
    let participants = without_votes(alloc, undecided.participants.as_slice())?;
    if are_all_in(&participants) {
        // Who gives a relation another split has visited the sites of its leaves, so nothing is turned away here.
        if undecided.moves {
            return Err(Memory);
        }
        return Ok(commits_at_once(alloc));
    }
    let letters = broadcast_letters(
        alloc,
        txn,
        Broadcast::Prepare,
        undecided.participants.as_slice(),
    )?;
    Ok(Transition {
        after: After::Becomes(TxnState::Undecided(voting(participants, undecided.moves))),
        letters,
        reply: None,
        kept: true,
    })
}

/// Whether this is the ticket that a site gave first.
pub(crate) fn is_first(first: Option<Ticket>, ticket: &Ticket) -> bool
    ensures { result ≡ is_first ticket.now first }
{
    match first {
        Some(first) => first.cmp(ticket).is_eq(),
        None => false,
    }
}

/// Whether this is the ticket that the site of this name gave first.
pub(crate) fn gave_first(participants: &[Participant], site: &Text, ticket: &Ticket) -> bool
    ensures { result ≡ is_first ticket.now (participant_in site.now participants.now).ticket }
{
    match find_participant(participants, site) {
        Some(participant) => is_first(participant.ticket, ticket),
        None => false,
    }
}

/// Whether a site's vote under this ticket is still to come.
fn awaits_vote(participant: &Participant, ticket: &Ticket) -> bool
    ensures { result ≡ awaits_vote ticket.now participant.now }
{
    is_first(participant.ticket, ticket) && participant.vote.is_none()
}

/// Whether the vote of the site of this name is.
fn awaits_vote_of(participants: &[Participant], site: &Text, ticket: &Ticket) -> bool
    ensures { result ≡ awaits_vote ticket.now (participant_in site.now participants.now) }
{
    match find_participant(participants, site) {
        Some(participant) => awaits_vote(participant, ticket),
        None => false,
    }
}

/// Whether a vote counts: in the first phase, the first one of its site, under the site's first ticket.
fn counts(undecided: &Undecided, site: &Text, ticket: &Ticket) -> bool
    ensures { result ≡ counts_vote undecided.now site.now ticket.now }
{
    is_voting(&undecided.stage) && awaits_vote_of(undecided.participants.as_slice(), site, ticket)
}

/// Whether a vote is NO.
fn is_no(vote: Vote) -> bool
    ensures { result ≡ is_no vote }
{
    matches!(vote, Vote::No)
}

/// Whether a vote counts by which its transaction isn't decided yet: it isn't NO, and another one is still to come.
fn leaves_open(undecided: &Undecided, site: &Text, voted: Voted) -> bool
    ensures { result ≡ leaves_open undecided.now site.now voted }
{
    if !counts(undecided, site, &voted.ticket) || is_no(voted.vote) {
        return false;
    }
    !are_others_in(undecided.participants.as_slice(), site)
}

/// The vote that a letter of a site is, if its transaction isn't decided yet by it.
#[inline(always)]
pub(crate) fn early_vote(found: Option<&TxnState>, site: &Text, said: &Said) -> Option<Voted>
    ensures { IfSome result (λ voted. (said.now ≡ reply.Voted voted) × (is_early (option_copied found.entry) site.now voted ≡ true)) }
{
    let (Some(TxnState::Undecided(undecided)), Said::Voted(voted)) = (found, said) else {
        return None;
    };
    if leaves_open(undecided, site, *voted) {
        Some(*voted)
    } else {
        None
    }
}

/// A vote is counted.
pub(crate) fn count_in(alloc: Global, state: &mut TxnState, site: &Text, vote: Vote)
    ensures { (old : UndecidedNow) → state.old ≡ standing.Undecided old → state.new ≡ standing.Undecided (with_counted site.now vote old) }
{
    if let TxnState::Undecided(undecided) = state {
        let none = Seq::new(Vec::new(alloc));
        let mut participants = mem::replace(&mut undecided.participants, none).into_vec();
        set_vote(participants.as_mut_slice(), site, vote);
        undecided.participants = Seq::new(participants);
    }
}

/// Whether a vote was READ.
fn is_read(vote: Option<Vote>) -> bool
    ensures { result ≡ is_read vote }
{
    matches!(vote, Some(Vote::Read))
}

/// Whether a site isn't visited, has voted READ, or is this one.
fn has_read_beside(participant: &Participant, site: &Text) -> bool
    ensures { result ≡ has_read_beside site.now participant.now }
{
    is_at(participant, site) || !participant.visited || is_read(participant.vote)
}

/// Whether each visited site beside this one has voted READ.
fn have_others_read(participants: &[Participant], site: &Text) -> bool
    ensures { result ≡ list_all (has_read_beside site.now) participants.now }
{
    participants
        .iter()
        .all(|participant| has_read_beside(participant, site))
}

/// Whether a transaction that gives no relation another split has only READ votes, with this one.
fn only_reads(undecided: &Undecided, site: &Text, vote: Vote) -> bool
    ensures { result ≡ only_reads undecided.now site.now vote }
{
    if undecided.moves || !is_read(Some(vote)) {
        return false;
    }
    have_others_read(undecided.participants.as_slice(), site)
}

/// A vote comes. One NO aborts at once; with the last vote the transaction is decided, and committed at once where all are READ. Where `kept` is
/// false, the store isn't called, and counts as having refused.
pub(crate) fn on_vote<S: DeskStore>(
    store: &mut S,
    alloc: Global,
    txn: Txn,
    undecided: &Undecided,
    site: &Text,
    voted: Voted,
    version: u64,
    kept: bool,
) -> Result<Transition, Memory>
    ensures store { StepsStore S.is_clean S.is_sound S.kept S.refused store.old store.new kept result (λ turn. turn.kept) ((db : Database) → AreParticipants db undecided.now.participants → CallsStore {L = language db} site.now (replied db site.now (reply.Voted voted)) (Known (undecided_of db undecided.now))) }
    ensures turn { (db : Database) (choice : Choice (language db)) → AreParticipants db undecided.now.participants
        → IfOk result (λ turn. IsTransition db txn (Some (standing.Undecided undecided.now)) turn
        (on_known (txn_name txn) (undecided_of db undecided.now) site.now turn.kept choice (replied db site.now (reply.Voted voted)))) }
    ensures sites { AreDistinct (sites_of undecided.now.participants) → IfOk result (λ turn. AtSites (sites_of undecided.now.participants) turn.after) }
    ensures keeps { (db : Database) → AreParticipants db undecided.now.participants → S.is_clean store.new → S.is_sound store.old → (S.kept store.old).commits txn ≡ None → version ≡ (S.kept store.old).version
        → IfOk result (λ turn. Keeps txn (kept_voters (after_of (Some (standing.Undecided undecided.now)) turn.after)) (raises (Some (standing.Undecided undecided.now)) turn.reply) (S.kept store.old) (S.kept store.new)) }
    ensures below { IfOk result (λ turn. raises (Some (standing.Undecided undecided.now)) turn.reply ≡ true → version + 1 < 2 ^ 64) }
{
    if !counts(undecided, site, &voted.ticket) {
        return Ok(stays(alloc, true));
    }
    if only_reads(undecided, site, voted.vote) {
        return Ok(commits_at_once(alloc));
    }
    let participants = with_vote(alloc, undecided.participants.as_slice(), site, voted.vote)?;
    if is_no(voted.vote) {
        return ends(
            alloc,
            txn,
            &participants,
            Broadcast::AbortVoting,
            Reply::Aborted(Why::Vote),
            true,
        );
    }
    votes_go(
        store,
        alloc,
        txn,
        participants,
        undecided.moves,
        version,
        kept,
    )
}

/// The first phase goes on with these votes. With all of them in, none NO, the transaction is decided:
/// committed at once where none is YES, else where the commit row is kept. One that gives a relation another split is
/// committed only where the next catalogue's number is kept, also where none is YES. Where `kept` is false, the
/// store isn't called, and counts as having refused.
pub(crate) fn votes_go<S: DeskStore>(
    store: &mut S,
    alloc: Global,
    txn: Txn,
    participants: Vec<Participant>,
    moves: bool,
    version: u64,
    kept: bool,
) -> Result<Transition, Memory>
    ensures store { StepsStore S.is_clean S.is_sound S.kept S.refused store.old store.new kept result (λ turn. turn.kept) ((db : Database) → AreParticipants db participants.items → Decides (undecided_of db (voting moves participants.items)) (votes_of participants.items)) }
    ensures turn { (db : Database) (old : Option TxnStateNow) → AreParticipants db participants.items
        → IfOk result (λ turn. IsTransition db txn old turn (votes_go (txn_name txn) (undecided_of db (voting moves participants.items)) (votes_of participants.items) turn.kept)) }
    ensures sites { AreDistinct (sites_of participants.items) → IfOk result (λ turn. AtSites (sites_of participants.items) turn.after) }
    ensures keeps { (db : Database) (old : UndecidedNow) → AreParticipants db participants.items → old.moves ≡ moves → S.is_clean store.new → S.is_sound store.old → (S.kept store.old).commits txn ≡ None → version ≡ (S.kept store.old).version
        → IfOk result (λ turn. Keeps txn (kept_voters (after_of (Some (standing.Undecided old)) turn.after)) (raises (Some (standing.Undecided old)) turn.reply) (S.kept store.old) (S.kept store.new)) }
    ensures below { (old : UndecidedNow) → old.moves ≡ moves → IfOk result (λ turn. raises (Some (standing.Undecided old)) turn.reply ≡ true → version + 1 < 2 ^ 64) }
{
    if !are_all_in(&participants) {
        return Ok(becomes(alloc, TxnState::Undecided(voting(participants, moves))));
    }
    let voters = voters_among(alloc, &participants)?;
    if moves {
        return raises(store, alloc, txn, &participants, voters, version, kept);
    }
    if are_none(&voters) {
        return Ok(commits_at_once(alloc));
    }
    decides(store, alloc, txn, &participants, voters, version, kept)
}

/// Whether nobody is to be told.
fn are_none(voters: &[Voter]) -> bool
    ensures { result ≡ (length voters.now == 0) }
{
    voters.is_empty()
}

/// A transaction in its first phase; `moves`: whether it gives a relation another split.
pub(crate) fn voting(participants: Vec<Participant>, moves: bool) -> Undecided
    ensures { result ≡ voting moves participants.items }
{
    Undecided {
        participants: Seq::new(participants),
        stage: Stage::Voting,
        moves,
    }
}

/// Committed without a row.
pub(crate) fn commits_at_once(alloc: Global) -> Transition
    ensures turn { (db : Database) (txn : Txn) (old : Option TxnStateNow) → IsTransition db txn old result (commits_now db (txn_name txn)) }
    ensures after { result.after ≡ Ends }
    ensures kept { result.kept ≡ true }
{
    Transition {
        after: After::Ends,
        letters: Vec::new(alloc),
        reply: Some(Reply::Committed),
        kept: true,
    }
}

/// What a decided transaction becomes of which the store kept the commit row, or has none to keep: each voter hears Commit.
fn committed(alloc: Global, voters: Vec<Voter>, letters: Vec<Letter>) -> Transition
    ensures after { result.after ≡ committed_by voters.items }
    ensures letters { result.letters ≡ letters }
    ensures reply { result.reply ≡ Some replies.Committed }
    ensures kept { result.kept ≡ true }
{
    let after = if voters.is_empty() {
        After::Ends
    } else {
        After::Becomes(TxnState::Committed(Committed {
            voters: Seq::new(voters),
            acked: Seq::new(Vec::new(alloc)),
        }))
    };
    Transition {
        after,
        letters,
        reply: Some(Reply::Committed),
        kept: true,
    }
}

/// Keeps the commit row beside the number of the catalogue that is in force from then on, and then each voter hears Commit; a
/// transaction for which the store refuses that aborts. The letters are made before the store is called.
fn decides<S: DeskStore>(
    store: &mut S,
    alloc: Global,
    txn: Txn,
    participants: &[Participant],
    voters: Vec<Voter>,
    in_force: u64,
    kept: bool,
) -> Result<Transition, Memory>
    ensures store { StepsStore S.is_clean S.is_sound S.kept S.refused store.old store.new kept result (λ turn. turn.kept) (⊤) }
    ensures turn { (db : Database) (old : Option TxnStateNow) (moves : Bool) → AreParticipants db participants.now → (0 < length voters.items) ⊎ (moves ≡ true)
        → IfOk result (λ turn. IsTransition db txn old turn (decides (txn_name txn) (undecided_of db (voting moves participants.now)) turn.kept (map voter_of voters.items))) }
    ensures sites { (sites : List (List ℕ)) → AreInOrder sites voters.items → IfOk result (λ turn. AtSites sites turn.after) }
    ensures keeps { (old : UndecidedNow) → AreVoters voters.items → S.is_clean store.new → S.is_sound store.old → (S.kept store.old).commits txn ≡ None
        → in_force ≡ (if old.moves then suc (S.kept store.old).version else (S.kept store.old).version)
        → IfOk result (λ turn. Keeps txn (kept_voters (after_of (Some (standing.Undecided old)) turn.after)) (raises (Some (standing.Undecided old)) turn.reply) (S.kept store.old) (S.kept store.new)) }
{
    let aborts = broadcast_letters(alloc, txn, Broadcast::AbortVoting, participants)?;
    if !kept {
        return Ok(unkept(aborts));
    }
    let letters = commit_letters(alloc, txn, &voters)?;
    match store.keep_commit(txn, &voters, in_force) {
        Ok(()) => Ok(committed(alloc, voters, letters)),
        Err(StoreFault::Memory) => Err(Memory),
        Err(_) => Ok(unkept(aborts)),
    }
}

/// So of one that gives a relation another split: the next catalogue is in force from then on, also where there is no voter.
fn raises<S: DeskStore>(
    store: &mut S,
    alloc: Global,
    txn: Txn,
    participants: &[Participant],
    voters: Vec<Voter>,
    version: u64,
    kept: bool,
) -> Result<Transition, Memory>
    ensures store { StepsStore S.is_clean S.is_sound S.kept S.refused store.old store.new kept result (λ turn. turn.kept) (⊤) }
    ensures turn { (db : Database) (old : Option TxnStateNow) → AreParticipants db participants.now
        → IfOk result (λ turn. IsTransition db txn old turn (decides (txn_name txn) (undecided_of db (voting true participants.now)) turn.kept (map voter_of voters.items))) }
    ensures sites { (sites : List (List ℕ)) → AreInOrder sites voters.items → IfOk result (λ turn. AtSites sites turn.after) }
    ensures keeps { (old : UndecidedNow) → old.moves ≡ true → AreVoters voters.items → S.is_clean store.new → S.is_sound store.old → (S.kept store.old).commits txn ≡ None → version ≡ (S.kept store.old).version
        → IfOk result (λ turn. Keeps txn (kept_voters (after_of (Some (standing.Undecided old)) turn.after)) (raises (Some (standing.Undecided old)) turn.reply) (S.kept store.old) (S.kept store.new)) }
    ensures below { OnOk result (version + 1 < 2 ^ 64) }
{
    // A list of catalogues is never as long as that, so nothing is turned away here.
    let Some(next) = version.checked_add(1) else {
        return Err(Memory);
    };
    decides(store, alloc, txn, participants, voters, next, kept)
}

/// The commit row could not be kept: the transaction aborts, as these letters say.
fn unkept(letters: Vec<Letter>) -> Transition
    ensures turn { (db : Database) (txn : Txn) (old : Option TxnStateNow) (moves : Bool) (participants : List ParticipantNow) → AreParticipants db participants → letters.items ≡ broadcast_letters txn AbortVoting participants
        → IsTransition db txn old result (ends_by (txn_name txn) (undecided_of db (voting moves participants)) (protocol.Aborted (txn_name txn) By_store)) }
    ensures kept { result.kept ≡ false }
    ensures after { result.after ≡ Ends }
    ensures reply { result.reply ≡ Some (replies.Aborted whys.Store) }
{
    Transition {
        after: After::Ends,
        letters,
        reply: Some(Reply::Aborted(Why::Store)),
        kept: false,
    }
}
