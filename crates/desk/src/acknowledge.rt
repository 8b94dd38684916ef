//! Who is to commit, and who has acknowledged.

ghost use Rattle.std.specs.Prelude.{false, ◌≡◌, IfOk, OnOk, map, ◌++◌, ◌∷◌, [], ℕ, List, Some};
ghost use Rattle.store.specs.DeskContent.{by_site};
ghost use Rattle.desk.specs.Acknowledge.{AreInOrder, are_acked, commit_letters, has_voter, is_voter, is_yes, voter_at, voter_with, voters_among, Keeps, is_new_ack, kept_voters, with_ack};
ghost use Rattle.protocol.specs.Desk.{Row, on_row, on_ack};
ghost use Rattle.protocol.specs.Letters.{txn_name, name_of};
ghost use Rattle.desk.specs.declared.transaction.TxnState.TheVariants as standing;
ghost use Rattle.desk.specs.Called.{CallsStore, IsLastAck};
ghost use Rattle.desk.specs.Database.{Database, language, replied};
ghost use Rattle.desk.specs.Frame.{StepsStore};
ghost use Rattle.desk.specs.Transaction.{voter_of};
ghost use Rattle.desk.specs.Transition.{AtSites, IsTransition, after_of};

use crate::participant::Participant;
use crate::send::put_order;
use crate::transaction::{Committed, TxnState};
use crate::transition::{After, Transition, becomes, stays, tells};
use std::alloc::Global;
use store::commit::Voter;
use store::desk_store::DeskStore;
use store::fault::StoreFault;
use store::letter::Letter;
use store::name::{Ticket, Txn};
use store::order::Order;
use store::reply::{Reply, Vote};
use terms::copy::{TryCopy, copy_all};
use terms::memory::Memory;
use terms::seq::Seq;
use terms::text::Text;

/// Whether a vote was YES.
fn is_yes(vote: Option<Vote>) -> bool
    ensures { result ≡ is_yes vote }
{
    match vote {
        None => false,
        Some(Vote::Yes) => true,
        Some(Vote::No) => false,
        Some(Vote::Read) => false,
    }
}

/// The voter at a site, if the site was visited and voted YES.
fn voter_at(participant: &Participant) -> Result<Option<Voter>, Memory>
    ensures { IfOk result (λ voter. voter ≡ voter_at participant.now) }
{
    if !participant.visited || !is_yes(participant.vote) {
        return Ok(None);
    }
    match participant.ticket {
        Some(ticket) => Ok(Some(Voter {
            site: participant.site.copy()?,
            ticket,
        })),
        None => Ok(None),
    }
}

/// The voters, in the order of their sites.
pub(crate) fn voters_among(
    alloc: Global,
    participants: &[Participant],
) -> Result<Vec<Voter>, Memory>
    ensures { IfOk result (λ voters. voters.items ≡ voters_among participants.now) }
{
    let mut voters = Vec::new(alloc);
    for participant in participants {
        if let Some(voter) = voter_at(participant)? {
            voters.push(voter)?;
        }
    }
    Ok(voters)
}

/// A Commit more to each voter.
pub(crate) fn add_commits(
    letters: &mut Vec<Letter>,
    txn: Txn,
    voters: &[Voter],
) -> Result<(), Memory>
    ensures { OnOk result (letters.new.items ≡ letters.old.items ++ commit_letters txn voters.now) }
{
    for voter in voters {
        put_order(letters, txn, &voter.site, Order::Commit(voter.ticket))?;
    }
    Ok(())
}

/// A Commit to each voter.
pub(crate) fn commit_letters(
    alloc: Global,
    txn: Txn,
    voters: &[Voter],
) -> Result<Vec<Letter>, Memory>
    ensures { IfOk result (λ letters. letters.items ≡ commit_letters txn voters.now) }
{
    let mut letters = Vec::new(alloc);
    add_commits(&mut letters, txn, voters)?;
    Ok(letters)
}

/// Whether it is this ticket of this site.
fn is_voter(voter: &Voter, site: &Text, ticket: &Ticket) -> bool
    ensures { result ≡ is_voter site.now ticket.now voter.now }
{
    voter.site == *site && voter.ticket.cmp(ticket).is_eq()
}

/// Whether it is among these.
pub(crate) fn has_voter(voters: &[Voter], site: &Text, ticket: &Ticket) -> bool
    ensures { result ≡ has_voter voters.now site.now ticket.now }
{
    voters.iter().any(|voter| is_voter(voter, site, ticket))
}

/// Whether each voter has acknowledged.
pub(crate) fn are_acked(voters: &[Voter], acked: &[Voter]) -> bool
    ensures { result ≡ are_acked voters.now acked.now }
{
    voters
        .iter()
        .all(|voter| has_voter(acked, &voter.site, &voter.ticket))
}

/// These, and one more.
pub(crate) fn with_voter(
    alloc: Global,
    voters: &[Voter],
    site: &Text,
    ticket: Ticket,
) -> Result<Vec<Voter>, Memory>
    ensures { IfOk result (λ others. others.items ≡ voters.now ++ voter_with site.now ticket ∷ []) }
{
    let mut others = copy_all(alloc, voters)?;
    others.push(Voter {
        site: site.copy()?,
        ticket,
    })?;
    Ok(others)
}

/// A committed transaction answers acknowledgements and inquiries. Where `kept` is false, the store isn't
/// called, and counts as having refused.
pub(crate) fn on_row<S: DeskStore>(
    store: &mut S,
    alloc: Global,
    txn: Txn,
    committed: &Committed,
    site: &Text,
    reply: &Reply,
    kept: bool,
) -> Result<Transition, Memory>
    ensures store { StepsStore S.is_clean S.is_sound S.kept S.refused store.old store.new kept result (λ turn. turn.kept) ((db : Database) → CallsStore {L = language db} site.now (replied db site.now reply.now) (Row (map voter_of committed.now.voters) (map voter_of committed.now.acked))) }
    ensures turn { (db : Database) → IfOk result (λ turn. IsTransition db txn (Some (standing.Committed committed.now)) turn
        (on_row (txn_name txn) (map voter_of committed.now.voters) (map voter_of committed.now.acked) site.now turn.kept (replied db site.now reply.now))) }
    ensures sites { (sites : List (List ℕ)) → AreInOrder sites committed.now.voters → IfOk result (λ turn. AtSites sites turn.after) }
    ensures keeps { S.is_clean store.new → S.is_sound store.old → (S.kept store.old).commits txn ≡ Some (by_site committed.now.voters)
        → IfOk result (λ turn. Keeps txn (kept_voters (after_of (Some (standing.Committed committed.now)) turn.after)) false (S.kept store.old) (S.kept store.new)) }
{
    match reply {
        Reply::Ack(ticket) => on_ack(store, alloc, txn, committed, site, *ticket, kept),
        Reply::Inquire(ticket) => tells(alloc, txn, site, Order::Commit(*ticket)),
        Reply::Ticket(_) => Ok(stays(alloc, true)),
        Reply::Rows(_) => Ok(stays(alloc, true)),
        Reply::Refused(_) => Ok(stays(alloc, true)),
        Reply::Voted(_) => Ok(stays(alloc, true)),
    }
}

/// Whether a voter has not acknowledged yet.
fn is_new(committed: &Committed, site: &Text, ticket: &Ticket) -> bool
    ensures { result ≡ is_new_ack committed.now.voters committed.now.acked site.now ticket.now }
{
    has_voter(committed.voters.as_slice(), site, ticket)
        && !has_voter(committed.acked.as_slice(), site, ticket)
}

/// A voter has acknowledged.
fn acknowledged(
    alloc: Global,
    committed: &Committed,
    site: &Text,
    ticket: Ticket,
) -> Result<Committed, Memory>
    ensures { IfOk result (λ more. more ≡ with_ack committed.now site.now ticket) }
{
    Ok(Committed {
        voters: committed.voters.copy()?,
        acked: Seq::new(with_voter(alloc, committed.acked.as_slice(), site, ticket)?),
    })
}

/// Whether each voter has acknowledged.
fn is_done(committed: &Committed) -> bool
    ensures { result ≡ are_acked committed.now.voters committed.now.acked }
{
    are_acked(committed.voters.as_slice(), committed.acked.as_slice())
}

/// With the last acknowledgement the commit row goes; if the store refuses that, the acknowledgement is as
/// good as lost. One that comes again changes nothing.
fn on_ack<S: DeskStore>(
    store: &mut S,
    alloc: Global,
    txn: Txn,
    committed: &Committed,
    site: &Text,
    ticket: Ticket,
    kept: bool,
) -> Result<Transition, Memory>
    ensures store { StepsStore S.is_clean S.is_sound S.kept S.refused store.old store.new kept result (λ turn. turn.kept) ((db : Database) → IsLastAck (language db) (map voter_of committed.now.voters) (map voter_of committed.now.acked) (site.now, name_of ticket)) }
    ensures turn { (db : Database) → IfOk result (λ turn. IsTransition db txn (Some (standing.Committed committed.now)) turn
        (on_ack {L = language db} (map voter_of committed.now.voters) (map voter_of committed.now.acked) (site.now, name_of ticket) turn.kept)) }
    ensures sites { (sites : List (List ℕ)) → AreInOrder sites committed.now.voters → IfOk result (λ turn. AtSites sites turn.after) }
    ensures keeps { S.is_clean store.new → S.is_sound store.old → (S.kept store.old).commits txn ≡ Some (by_site committed.now.voters)
        → IfOk result (λ turn. Keeps txn (kept_voters (after_of (Some (standing.Committed committed.now)) turn.after)) false (S.kept store.old) (S.kept store.new)) }
{
    if !is_new(committed, site, &ticket) {
        return Ok(stays(alloc, true));
    }
    let more = acknowledged(alloc, committed, site, ticket)?;
    if !is_done(&more) {
        return Ok(becomes(alloc, TxnState::Committed(more)));
    }
    if !kept {
        return Ok(stays(alloc, false));
    }
    match store.drop_commit(txn) {
        Ok(()) => Ok(Transition {
            after: After::Ends,
            letters: Vec::new(alloc),
            reply: None,
            kept: true,
        }),
        Err(StoreFault::Memory) => Err(Memory),
        Err(_) => Ok(stays(alloc, false)),
    }
}
