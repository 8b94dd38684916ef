//! What a transaction has to do with each site.

ghost use Rattle.std.specs.Prelude.{◌≡◌, IfOk, find, map, Some, None};
ghost use Rattle.std.specs.List.{list_all};
ghost use Rattle.std.specs.Option.{option_copied};
ghost use Rattle.desk.specs.Participants.{changed_at, is_at, is_in, is_in_beside, with_ticket, with_vote};

use std::alloc::Global;
use store::name::Ticket;
use store::reply::Vote;
use terms::copy::{TryCopy, copy_all};
use terms::memory::Memory;
use terms::text::Text;

/// What a transaction has to do with one site.
#[derive(Drop)]
pub(crate) struct Participant {
    pub(crate) site: Text,
    /// The first ticket that came.
    pub(crate) ticket: Option<Ticket>,
    /// How many operations were sent there.
    pub(crate) sent: u64,
    /// In the first phase: the vote that was counted.
    pub(crate) vote: Option<Vote>,
    /// Whether an Open was sent there.
    pub(crate) visited: bool,
}

impl TryCopy for Participant {
    fn copy(&self) -> Result<Participant, Memory> {
        Ok(Participant {
            site: self.site.copy()?,
            visited: self.visited,
            ticket: self.ticket,
            sent: self.sent,
            vote: self.vote,
        })
    }
}

/// Whether it is the participant of a site.
pub(crate) fn is_at(participant: &Participant, site: &Text) -> bool
    ensures { result ≡ is_at site.now participant.now }
{
    participant.site == *site
}

/// The participant of a site, if the site is among these.
pub(crate) fn find_participant<'a>(
    participants: &'a [Participant],
    site: &Text,
) -> Option<&'a Participant>
    ensures { option_copied result ≡ find (is_at site.now) participants.now }
{
    for participant in participants {
        if is_at(participant, site) {
            return Some(participant);
        }
    }
    None
}

/// Whether a site isn't visited, or has voted.
fn is_in(participant: &Participant) -> bool
    ensures { result ≡ is_in participant.now }
{
    !participant.visited || participant.vote.is_some()
}

/// Whether each visited site has voted.
pub(crate) fn are_all_in(participants: &[Participant]) -> bool
    ensures { result ≡ list_all is_in participants.now }
{
    participants.iter().all(|participant| is_in(participant))
}

/// Whether it is this site's, isn't visited, or has voted. Names are compared last, since most have voted.
fn is_in_beside(participant: &Participant, site: &Text) -> bool
    ensures { result ≡ is_in_beside site.now participant.now }
{
    is_in(participant) || is_at(participant, site)
}

/// Whether each visited site beside this one has voted.
pub(crate) fn are_others_in(participants: &[Participant], site: &Text) -> bool
    ensures { result ≡ list_all (is_in_beside site.now) participants.now }
{
    participants
        .iter()
        .all(|participant| is_in_beside(participant, site))
}

/// The vote of a site is counted.
pub(crate) fn set_vote(participants: &mut [Participant], site: &Text, vote: Vote)
    ensures { participants.new ≡ map (changed_at site.now (with_vote (Some vote))) participants.old }
{
    let Some((participant, rest)) = participants.split_first_mut() else {
        return;
    };
    if is_at(participant, site) {
        participant.vote = Some(vote);
    }
    set_vote(rest, site, vote);
}

/// Participants, with the vote of one site counted.
pub(crate) fn with_vote(
    alloc: Global,
    participants: &[Participant],
    site: &Text,
    vote: Vote,
) -> Result<Vec<Participant>, Memory>
    ensures { IfOk result (λ others. others.items ≡ map (changed_at site.now (with_vote (Some vote))) participants.now) }
{
    let mut others = copy_all(alloc, participants)?;
    set_vote(others.as_mut_slice(), site, vote);
    Ok(others)
}

/// Participants without votes.
pub(crate) fn without_votes(
    alloc: Global,
    participants: &[Participant],
) -> Result<Vec<Participant>, Memory>
    ensures { IfOk result (λ others. others.items ≡ map (with_vote None) participants.now) }
{
    let mut others = Vec::new(alloc);
    for participant in participants {
        let mut other = participant.copy()?;
        other.vote = None;
        others.push(other)?;
    }
    Ok(others)
}

/// The ticket of a site has come.
fn set_ticket(participants: &mut [Participant], site: &Text, ticket: Ticket)
    ensures { participants.new ≡ map (changed_at site.now (with_ticket (Some ticket))) participants.old }
{
    let Some((participant, rest)) = participants.split_first_mut() else {
        return;
    };
    if is_at(participant, site) {
        participant.ticket = Some(ticket);
    }
    set_ticket(rest, site, ticket);
}

/// Participants, with the ticket of one site.
pub(crate) fn with_ticket(
    alloc: Global,
    participants: &[Participant],
    site: &Text,
    ticket: Ticket,
) -> Result<Vec<Participant>, Memory>
    ensures { IfOk result (λ others. others.items ≡ map (changed_at site.now (with_ticket (Some ticket))) participants.now) }
{
    let mut others = copy_all(alloc, participants)?;
    set_ticket(others.as_mut_slice(), site, ticket);
    Ok(others)
}
