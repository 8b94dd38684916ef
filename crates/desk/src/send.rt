//! Letters to sites: visits begin, operations go out as tickets come, and orders end them.

ghost use Rattle.std.specs.Prelude.{◌≡◌, ◌<◌, ◌≤◌, ◌^◌, ◌∷◌, ◌++◌, [], None, Err, filter, map, IfOk, IfSome, OnOk, OnErr, length, nat_eq};
ghost use Rattle.desk.specs.declared.refusal.Refusal.TheVariants as refusals;
ghost use Rattle.desk.specs.Send.{AreShort, IsPast, asks_go, counted, goes_now, next_number, waits_in, writes_go};
ghost use Rattle.desk.specs.Participants.{participant_in};
ghost use Rattle.std.specs.Cmp.Lexicographic.{pointwise};
ghost use Rattle.std.specs.List.{list_any, position_or_len};
ghost use Rattle.desk.specs.Opening.{is_new, opens, opens_if, visited_if, visits};
ghost use Rattle.desk.specs.Statement.{ask_sites, write_sites};
ghost use Rattle.desk.specs.Orders.{is_for, broadcast_letters, may_hold, order_at, order_of, ordered};

use crate::fetches::Ask;
use crate::participant::{Participant, find_participant, is_at};
use crate::refusal::Refusal;
use crate::transaction::Unsent;
use std::alloc::Global;
use store::letter::{Body, Letter};
use store::name::{Ticket, Txn};
use store::order::{Fetch, Intention, Order, Prepare};
use store::reply::Vote;
use terms::copy::TryCopy;
use terms::memory::Memory;
use terms::text::Text;

/// Operations of a visit have numbers below this.
const NUMBERS: u64 = 1 << 63;

/// So many operations were sent to a site.
fn set_sent(participants: &mut [Participant], site: &Text, count: u64)
    ensures { participants.new ≡ counted site.now count participants.old }
{
    let Some((participant, rest)) = participants.split_first_mut() else {
        return;
    };
    if is_at(participant, site) {
        participant.sent = count;
    }
    set_sent(rest, site, count);
}

/// The ticket of a site, if it has given one.
pub(crate) fn ticket_of(participants: &[Participant], site: &Text) -> Option<Ticket>
    ensures { result ≡ (participant_in site.now participants.now).ticket }
{
    match find_participant(participants, site) {
        Some(participant) => participant.ticket,
        None => None,
    }
}

/// How many operations were sent to a site.
fn sent_to(participants: &[Participant], site: &Text) -> u64
    ensures { result ≡ (participant_in site.now participants.now).sent }
{
    match find_participant(participants, site) {
        Some(participant) => participant.sent,
        None => 0,
    }
}

/// The number of the next operation to a site, unless it is past the limit.
fn next_number(participants: &[Participant], site: &Text) -> Option<u64>
    ensures some { IfSome result (λ number. number ≡ next_number site.now participants.now) }
    ensures few { IfSome result (λ number. number < 2 ^ 63) }
    ensures none { result ≡ None → 2 ^ 63 ≤ next_number site.now participants.now }
{
    let sent = sent_to(participants, site);
    if sent < NUMBERS - 1 {
        Some(sent + 1)
    } else {
        None
    }
}

/// One letter more: an order to a site.
#[inline(always)]
pub(crate) fn put_order(
    letters: &mut Vec<Letter>,
    txn: Txn,
    site: &Text,
    order: Order,
) -> Result<(), Memory>
    ensures { OnOk result (letters.new.items ≡ letters.old.items ++ ordered txn site.now order ∷ []) }
{
    letters.push(Letter {
        site: site.copy()?,
        txn,
        body: Body::Order(order),
    })?;
    Ok(())
}

/// The number of a fetch: a new one where it goes out now.
#[inline(always)]
fn ask_out(
    letters: &mut Vec<Letter>,
    participants: &mut [Participant],
    txn: Txn,
    ask: &Ask,
) -> Result<Option<u64>, Refusal>
    ensures number { IfOk result (λ number. map (λ left. left.number) (asks_go txn (ask.now ∷ []) participants.old).left ≡ number ∷ []) }
    ensures participants { IfOk result (λ _. participants.new ≡ (asks_go txn (ask.now ∷ []) participants.old).participants) }
    ensures letters { IfOk result (λ _. letters.new.items ≡ letters.old.items ++ (asks_go txn (ask.now ∷ []) participants.old).letters) }
    ensures short { AreShort participants.old → OnOk result (AreShort participants.new) }
    ensures full { result ≡ Err refusals.Full → IsPast (asks_go txn (ask.now ∷ []) participants.old).participants }
{
    if ask.number.is_some() {
        return Ok(ask.number);
    }
    let Some(ticket) = ticket_of(participants, &ask.site) else {
        return Ok(None);
    };
    let Some(number) = next_number(participants, &ask.site) else {
        return Err(Refusal::Full);
    };
    let fetch = Fetch {
        ticket,
        op: number,
        leaf: ask.leaf.copy()?,
        conds: ask.conds.copy()?,
    };
    put_order(letters, txn, &ask.site, Order::Fetch(fetch))?;
    set_sent(participants, &ask.site, number);
    Ok(Some(number))
}

/// Whether a fetch goes out now: it hasn't yet, and its site has given a ticket.
fn goes_now(participants: &[Participant], ask: &Ask) -> bool
    ensures { result ≡ goes_now participants.now ask.now }
{
    ask.number.is_none() && ticket_of(participants, &ask.site).is_some()
}

/// How many fetches stand before the first that goes out now; all of them, where none does.
fn before_going(participants: &[Participant], asks: &[Ask]) -> usize
    ensures first { result ≡ position_or_len (goes_now participants.now) asks.now }
    ensures within { result ≤ length asks.now }
{
    let Some((ask, rest)) = asks.split_first() else {
        return 0;
    };
    if goes_now(participants, ask) {
        return 0;
    }
    before_going(participants, rest) + 1
}

/// Fetches go out in order, their letters behind others. Full where an operation's number would be past the limit. A fetch gets
/// its number once all have gone out, so on an error none has one. Those that stay are passed over at once.
fn asks_out(
    letters: &mut Vec<Letter>,
    participants: &mut [Participant],
    txn: Txn,
    asks: &mut [Ask],
) -> Result<(), Refusal>
    ensures participants { OnOk result (participants.new ≡ (asks_go txn asks.old participants.old).participants) }
    ensures letters { OnOk result (letters.new.items ≡ letters.old.items ++ (asks_go txn asks.old participants.old).letters) }
    ensures left { OnOk result (asks.new ≡ (asks_go txn asks.old participants.old).left) }
    ensures short { AreShort participants.old → OnOk result (AreShort participants.new) }
    ensures full { result ≡ Err refusals.Full → IsPast (asks_go txn asks.old participants.old).participants }
    ensures same { OnErr result (asks.new ≡ asks.old) }
{
    let before = before_going(participants, asks);
    let (_, going) = asks.split_at_mut(before);
    let Some((ask, rest)) = going.split_first_mut() else {
        return Ok(());
    };
    let number = ask_out(letters, participants, txn, ask)?;
    asks_out(letters, participants, txn, rest)?;
    ask.number = number;
    Ok(())
}

/// A write goes out, if its site has given a ticket.
fn write_out(
    letters: &mut Vec<Letter>,
    participants: &mut [Participant],
    txn: Txn,
    unsent: &Unsent,
) -> Result<(), Refusal>
    ensures participants { IfOk result (λ _. participants.new ≡ (writes_go txn (unsent.now ∷ []) participants.old).participants) }
    ensures letters { IfOk result (λ _. letters.new.items ≡ letters.old.items ++ (writes_go txn (unsent.now ∷ []) participants.old).letters) }
    ensures short { AreShort participants.old → OnOk result (AreShort participants.new) }
    ensures full { result ≡ Err refusals.Full → IsPast (writes_go txn (unsent.now ∷ []) participants.old).participants }
{
    let Some(ticket) = ticket_of(participants, &unsent.site) else {
        return Ok(());
    };
    let Some(number) = next_number(participants, &unsent.site) else {
        return Err(Refusal::Full);
    };
    let intention = Intention {
        ticket,
        op: number,
        write: unsent.write.copy()?,
    };
    put_order(letters, txn, &unsent.site, Order::Intend(intention))?;
    set_sent(participants, &unsent.site, number);
    Ok(())
}

/// Writes go out in order. Full where an operation's number would be past the limit.
pub(crate) fn writes_out(
    alloc: Global,
    txn: Txn,
    writes: &[Unsent],
    participants: &mut [Participant],
) -> Result<Vec<Letter>, Refusal>
    ensures letters { IfOk result (λ letters. letters.items ≡ (writes_go txn writes.now participants.old).letters) }
    ensures participants { IfOk result (λ _. participants.new ≡ (writes_go txn writes.now participants.old).participants) }
    ensures short { AreShort participants.old → OnOk result (AreShort participants.new) }
    ensures full { result ≡ Err refusals.Full → IsPast (writes_go txn writes.now participants.old).participants }
{
    let mut letters = Vec::new(alloc);
    for unsent in writes {
        write_out(&mut letters, participants, txn, unsent)?;
    }
    Ok(letters)
}

/// Letters that go out, and the participants after it.
#[derive(Drop)]
pub(crate) struct SentOut {
    pub(crate) participants: Vec<Participant>,
    pub(crate) letters: Vec<Letter>,
}

impl SentOut {
    /// No letters, and no participants yet.
    fn new(alloc: Global) -> SentOut
        ensures participants { result.participants.items ≡ [] }
        ensures letters { result.letters.items ≡ [] }
    {
        SentOut {
            participants: Vec::new(alloc),
            letters: Vec::new(alloc),
        }
    }
}

/// The fetches whose sites have given a ticket go out.
#[inline(always)]
pub(crate) fn asks_step(
    alloc: Global,
    txn: Txn,
    participants: &mut [Participant],
    asks: &mut Vec<Ask>,
) -> Result<Vec<Letter>, Refusal>
    ensures participants { OnOk result (participants.new ≡ (asks_go txn asks.old.items participants.old).participants) }
    ensures letters { IfOk result (λ letters. letters.items ≡ (asks_go txn asks.old.items participants.old).letters) }
    ensures left { OnOk result (asks.new.items ≡ (asks_go txn asks.old.items participants.old).left) }
    ensures short { AreShort participants.old → OnOk result (AreShort participants.new) }
    ensures full { result ≡ Err refusals.Full → IsPast (asks_go txn asks.old.items participants.old).participants }
    ensures same { OnErr result (asks.new ≡ asks.old) }
{
    let mut letters = Vec::new(alloc);
    asks_out(&mut letters, participants, txn, asks.as_mut_slice())?;
    Ok(letters)
}

/// The writes whose sites have given a ticket go out.
pub(crate) fn writes_step(
    alloc: Global,
    txn: Txn,
    participants: &mut [Participant],
    unsent: &mut Vec<Unsent>,
) -> Result<Vec<Letter>, Refusal>
    ensures participants { OnOk result (participants.new ≡ (writes_go txn unsent.old.items participants.old).participants) }
    ensures letters { IfOk result (λ letters. letters.items ≡ (writes_go txn unsent.old.items participants.old).letters) }
    ensures left { OnOk result (unsent.new.items ≡ (writes_go txn unsent.old.items participants.old).left) }
    ensures short { AreShort participants.old → OnOk result (AreShort participants.new) }
    ensures full { result ≡ Err refusals.Full → IsPast (writes_go txn unsent.old.items participants.old).participants }
    ensures same { OnErr result (unsent.new ≡ unsent.old) }
{
    let letters = writes_out(alloc, txn, unsent.as_slice(), participants)?;
    keep_waiting(unsent, participants);
    Ok(letters)
}

/// Whether a write waits for a ticket.
pub(crate) fn is_any_waiting(unsent: &[Unsent], participants: &[Participant]) -> bool
    ensures { result ≡ list_any (waits_in participants.now) unsent.now }
{
    unsent
        .iter()
        .any(|write| ticket_of(participants, &write.site).is_none())
}

/// The writes are left whose sites have given no ticket.
fn keep_waiting(unsent: &mut Vec<Unsent>, participants: &[Participant])
    ensures { unsent.new.items ≡ filter (waits_in participants.now) unsent.old.items }
{
    unsent.retain(|write| ticket_of(participants, &write.site).is_none());
}

/// Whether a site is one of these.
pub(crate) fn is_among(site: &Text, sites: &[Text]) -> bool
    ensures { result ≡ list_any (λ other. pointwise nat_eq other site.now) sites.now }
{
    for other in sites {
        if *other == *site {
            return true;
        }
    }
    false
}

/// Whether a fetch is for a site.
fn has_ask_at(asks: &[Ask], site: &Text) -> bool
    ensures { result ≡ list_any (λ other. pointwise nat_eq other site.now) (ask_sites asks.now) }
{
    for ask in asks {
        if ask.site == *site {
            return true;
        }
    }
    false
}

/// Whether a write is for a site.
fn has_write_at(writes: &[Unsent], site: &Text) -> bool
    ensures { result ≡ list_any (λ other. pointwise nat_eq other site.now) (write_sites writes.now) }
{
    for unsent in writes {
        if unsent.site == *site {
            return true;
        }
    }
    false
}

/// Whether a fetch is for a site that isn't visited yet.
fn is_new_to_asks(participant: &Participant, asks: &[Ask]) -> bool
    ensures { result ≡ is_new (ask_sites asks.now) participant.now }
{
    !participant.visited && has_ask_at(asks, &participant.site)
}

/// Whether a write is for a site that isn't visited yet.
fn is_new_to_writes(participant: &Participant, writes: &[Unsent]) -> bool
    ensures { result ≡ is_new (write_sites writes.now) participant.now }
{
    !participant.visited && has_write_at(writes, &participant.site)
}

/// One participant more. A new site hears Open, and is visited from now on.
fn visit(
    going: &mut SentOut,
    txn: Txn,
    participant: &Participant,
    is_new: bool,
) -> Result<(), Memory>
    ensures participants { OnOk result (going.new.participants.items ≡ going.old.participants.items ++ visited_if is_new participant.now ∷ []) }
    ensures letters { OnOk result (going.new.letters.items ≡ going.old.letters.items ++ opens_if txn is_new participant.now) }
{
    let mut other = participant.copy()?;
    other.visited = participant.visited || is_new;
    going.participants.push(other)?;
    if !is_new {
        return Ok(());
    }
    put_order(&mut going.letters, txn, &participant.site, Order::Open)
}

/// The Opens to those sites of fetches that aren't visited yet, in the order of the sites, and the participants after them.
pub(crate) fn open_for_asks(
    alloc: Global,
    txn: Txn,
    participants: &[Participant],
    asks: &[Ask],
) -> Result<SentOut, Memory>
    ensures participants { IfOk result (λ going. going.participants.items ≡ visits (ask_sites asks.now) participants.now) }
    ensures letters { IfOk result (λ going. going.letters.items ≡ opens txn (ask_sites asks.now) participants.now) }
{
    let mut going = SentOut::new(alloc);
    for participant in participants {
        let is_new = is_new_to_asks(participant, asks);
        visit(&mut going, txn, participant, is_new)?;
    }
    Ok(going)
}

/// So those to the sites of writes.
pub(crate) fn open_for_writes(
    alloc: Global,
    txn: Txn,
    participants: &[Participant],
    writes: &[Unsent],
) -> Result<SentOut, Memory>
    ensures participants { IfOk result (λ going. going.participants.items ≡ visits (write_sites writes.now) participants.now) }
    ensures letters { IfOk result (λ going. going.letters.items ≡ opens txn (write_sites writes.now) participants.now) }
{
    let mut going = SentOut::new(alloc);
    for participant in participants {
        let is_new = is_new_to_writes(participant, writes);
        visit(&mut going, txn, participant, is_new)?;
    }
    Ok(going)
}

/// What is said to the sites of a transaction.
#[derive(Clone, Copy)]
pub(crate) enum Broadcast {
    /// The first phase begins.
    Prepare,
    /// It ended before its first phase.
    Abort,
    /// It ended in its first phase: who voted NO or READ has let go.
    AbortVoting,
}

/// Whether a site with this vote may hold locks.
fn may_hold(vote: Option<Vote>) -> bool
    ensures { result ≡ may_hold vote }
{
    match vote {
        None => true,
        Some(Vote::Yes) => true,
        Some(Vote::No) => false,
        Some(Vote::Read) => false,
    }
}

/// Whether a word is for a site.
fn is_for(word: Broadcast, participant: &Participant) -> bool
    ensures { result ≡ is_for word participant.now }
{
    match word {
        Broadcast::Prepare => participant.visited,
        Broadcast::Abort => participant.visited,
        Broadcast::AbortVoting => participant.visited && may_hold(participant.vote),
    }
}

/// The order of a word to a visit, to which so many operations were sent.
fn order_of(word: Broadcast, sent: u64, ticket: Ticket) -> Order
    ensures { result ≡ order_of word sent ticket }
{
    match word {
        Broadcast::Prepare => Order::Prepare(Prepare {
            ticket,
            count: sent,
        }),
        Broadcast::Abort => Order::Abort(ticket),
        Broadcast::AbortVoting => Order::Abort(ticket),
    }
}

/// The order to a site, if there is one: one that has given no ticket hears nothing.
fn order_at(word: Broadcast, participant: &Participant) -> Option<Order>
    ensures { result ≡ order_at word participant.now }
{
    if !is_for(word, participant) {
        return None;
    }
    match participant.ticket {
        Some(ticket) => Some(order_of(word, participant.sent, ticket)),
        None => None,
    }
}

/// The letters to the sites, in their order.
pub(crate) fn broadcast_letters(
    alloc: Global,
    txn: Txn,
    word: Broadcast,
    participants: &[Participant],
) -> Result<Vec<Letter>, Memory>
    ensures { IfOk result (λ letters. letters.items ≡ broadcast_letters txn word participants.now) }
{
    let mut letters = Vec::new(alloc);
    for participant in participants {
        if let Some(order) = order_at(word, participant) {
            put_order(&mut letters, txn, &participant.site, order)?;
        }
    }
    Ok(letters)
}
