//! A site's letter, by what stands behind its transaction.

ghost use Rattle.std.specs.Prelude.{◌≡◌, ℕ, ◌≢◌, ◌⊎◌, ◌+◌, ◌<◌, ◌^◌, true, false, Option, None, Some, is_some, IfOk, IfErr, OnErr, [], Err, nat_eq, OnOk};
ghost use Rattle.std.specs.Option.{option_copied};
ghost use Rattle.reader.specs.Printable.{AreDistinct};
ghost use Rattle.protocol.specs.Desk.{Choice, Known, on_desk_letter, on_known, stays as unchanged, on_unknown};
ghost use Rattle.protocol.specs.Letters.{txn_name};
ghost use Rattle.store.specs.declared.reply.Reply.TheVariants as replies;
ghost use Rattle.desk.specs.declared.refusal.Refusal.TheVariants as refusals;
ghost use Rattle.desk.specs.declared.transaction.TxnState.TheVariants as standings;
ghost use Rattle.desk.specs.declared.transaction.TxnState.{TxnState as TxnStateNow};
ghost use Rattle.desk.specs.declared.transition.After.TheVariants as after;
ghost use Rattle.desk.specs.Called.{CallsStore};
ghost use Rattle.desk.specs.Commit.{is_early};
ghost use Rattle.desk.specs.Request.{IsAt, txn_in};
ghost use Rattle.desk.specs.Database.{Database, language, replied};
ghost use Rattle.desk.specs.Frame.{GoesOnOrStays, LeavesStanding, PutsOut, StepsBelowLimits, StepsStore};
ghost use Rattle.desk.specs.Participants.{sites_of, participant_in, is_at};
ghost use Rattle.desk.specs.Transaction.{txn_of, undecided_of};
ghost use Rattle.desk.specs.State.{Fits, Steps, volatile_of, IsIn};
ghost use Rattle.desk.specs.Receive.{goes_on, may_send};
ghost use Rattle.desk.specs.Transition.{AreParticipants, AtSites, IsTransition, after_of, raises};
ghost use Rattle.desk.specs.Acknowledge.{Keeps, kept_voters};
ghost use Rattle.desk.specs.declared.transition.After.TheVariants.{Stays};
ghost use Rattle.std.specs.Cmp.Lexicographic.{pointwise};
ghost use Rattle.std.specs.BTreeMap.{IsOrdered};
ghost use Rattle.std.specs.List.{list_any};
ghost use Rattle.store.specs.DeskContent.{DeskContent};
ghost use Rattle.store.specs.Name.{txn_cmp};
ghost use Rattle.desk.specs.declared.transaction.Undecided.{Undecided as UndecidedNow};
ghost use Rattle.desk.specs.Does.{Does, DoesIn, GoesOn, IsLong, IsPastLimits, IsShort, Takes};
ghost use Rattle.desk.specs.OfCatalogue.{InForce, IsNextOf, IsOfCatalogue};

use crate::abort::on_refusal;
use crate::acknowledge::on_row;
use crate::commit::{early_vote, gave_first, is_first, on_vote};
use crate::fetches::{are_in_with, bring};
use crate::refusal::Refusal;
use crate::reply::Out;
use crate::request::{limit_or_memory, put_out};
use crate::send::ticket_of;
use crate::statement::{Progress, Worked, no_progress, ticket_goes, worked_out, works};
use crate::transaction::{Stage, TxnState, Undecided};
use crate::transition::{Transition, make, room, stays, tells};
use crate::volatile::Volatile;
use catalog::catalogue::Catalog;
use catalog::laws::leaf_names_are_unique;
use std::alloc::Global;
use store::desk_store::DeskStore;
use store::name::{Ticket, Txn};
use store::order::Order;
use store::reply::{Reply, Rows, Voted};
use terms::memory::Memory;
use terms::seq::Seq;
use terms::text::Text;

/// Whether a statement goes on by what a site says that has given this ticket so far.
fn goes_on(first: Option<Ticket>, reply: &Reply) -> bool
    ensures { result ≡ goes_on first reply.now }
{
    match reply {
        Reply::Ticket(_) => first.is_none(),
        Reply::Rows(_) => true,
        _ => false,
    }
}

/// Whether operations of a transaction may go out by a reply.
pub(crate) fn may_send(standing: Option<&TxnState>, site: &Text, reply: &Reply) -> bool
    ensures { result ≡ may_send (option_copied standing.entry) site.now reply.now }
{
    match standing {
        Some(TxnState::Undecided(undecided)) => {
            goes_on(ticket_of(undecided.participants.as_slice(), site), reply)
        }
        _ => false,
    }
}

/// One ticket of a site is enough: a further one hears Abort.
fn on_another(
    alloc: Global,
    txn: Txn,
    undecided: &Undecided,
    site: &Text,
    ticket: Ticket,
) -> Result<Transition, Memory>
    ensures turn { (db : Database) (choice : Choice (language db)) → (participant_in site.now undecided.now.participants).ticket ≢ None
        → IfOk result (λ turn. IsTransition db txn (Some (standings.Undecided undecided.now)) turn
        (on_known (txn_name txn) (undecided_of db undecided.now) site.now turn.kept choice (replied db site.now (replies.Ticket ticket)))) }
    ensures leaves { LeavesStanding result }
{
    let first = ticket_of(undecided.participants.as_slice(), site);
    if is_first(first, &ticket) {
        return Ok(stays(alloc, true));
    }
    tells(alloc, txn, site, Order::Abort(ticket))
}

/// An undecided transaction may still go either way: who inquires after it hears nothing.
fn unanswered(alloc: Global) -> Result<Transition, Memory>
    ensures turn { (db : Database) (txn : Txn) (old : Option TxnStateNow) → IfOk result (λ turn. IsTransition db txn old turn (unchanged (txn_of db old))) }
    ensures leaves { LeavesStanding result }
{
    Ok(stays(alloc, true))
}

/// A letter of a site comes for an undecided transaction, by which no statement goes on.
fn on_open<S: DeskStore>(
    store: &mut S,
    alloc: Global,
    txn: Txn,
    undecided: &Undecided,
    site: &Text,
    reply: &Reply,
    version: u64,
    kept: bool,
) -> Result<Transition, Memory>
    requires { goes_on (participant_in site.now undecided.now.participants).ticket reply.now ≡ false }
    ensures store { StepsStore S.is_clean S.is_sound S.kept S.refused store.old store.new kept result (λ turn. turn.kept) ((db : Database) → AreParticipants db undecided.now.participants → CallsStore {L = language db} site.now (replied db site.now reply.now) (Known (undecided_of db undecided.now))) }
    ensures turn { (db : Database) (choice : Choice (language db)) → AreParticipants db undecided.now.participants
        → IfOk result (λ turn. IsTransition db txn (Some (standings.Undecided undecided.now)) turn
        (on_known (txn_name txn) (undecided_of db undecided.now) site.now turn.kept choice (replied db site.now reply.now))) }
    ensures sites { AreDistinct (sites_of undecided.now.participants) → IfOk result (λ turn. AtSites (sites_of undecided.now.participants) turn.after) }
    ensures keeps { (db : Database) → AreParticipants db undecided.now.participants → S.is_clean store.new → S.is_sound store.old → (S.kept store.old).commits txn ≡ None → version ≡ (S.kept store.old).version
        → IfOk result (λ turn. Keeps txn (kept_voters (after_of (Some (standings.Undecided undecided.now)) turn.after)) (raises (Some (standings.Undecided undecided.now)) turn.reply) (S.kept store.old) (S.kept store.new)) }
    ensures below { IfOk result (λ turn. raises (Some (standings.Undecided undecided.now)) turn.reply ≡ true → version + 1 < 2 ^ 64) }
{
    match reply {
        Reply::Voted(voted) => on_vote(store, alloc, txn, undecided, site, *voted, version, kept),
        Reply::Refused(refusal) => on_refusal(alloc, txn, undecided, site, *refusal),
        Reply::Ticket(ticket) => on_another(alloc, txn, undecided, site, *ticket),
        Reply::Rows(_) => Ok(stays(alloc, true)),
        Reply::Ack(_) => Ok(stays(alloc, true)),
        Reply::Inquire(_) => unanswered(alloc),
    }
}

/// The step that a letter of a site makes of a transaction, where no statement goes on by it.
fn step<S: DeskStore>(
    store: &mut S,
    volatile: &Volatile,
    txn: Txn,
    site: &Text,
    reply: &Reply,
    kept: bool,
) -> Result<Transition, Memory>
    requires { may_send ((volatile_of volatile.now).standing txn) site.now reply.now ≡ false }
    ensures store { StepsStore S.is_clean S.is_sound S.kept S.refused store.old store.new kept result (λ turn. turn.kept) ((db : Database) → IsAt db ((volatile_of volatile.now).standing txn) → CallsStore {L = language db} site.now (replied db site.now reply.now) (txn_in db (volatile_of volatile.now) txn)) }
    ensures turn { (db : Database) (choice : Choice (language db)) → IsAt db ((volatile_of volatile.now).standing txn)
        → IfOk result (λ turn. IsTransition db txn ((volatile_of volatile.now).standing txn) turn (on_desk_letter (txn_name txn) site.now turn.kept choice (replied db site.now reply.now) (txn_in db (volatile_of volatile.now) txn))) }
    ensures sites { (db : Database) → IsAt db ((volatile_of volatile.now).standing txn) → IfOk result (λ turn. AtSites db.sites turn.after) }
    ensures keeps { (db : Database) → IsAt db ((volatile_of volatile.now).standing txn) → S.is_clean store.new → S.is_sound store.old → (S.kept store.old).commits txn ≡ kept_voters ((volatile_of volatile.now).standing txn) → (volatile_of volatile.now).version ≡ (S.kept store.old).version
        → IfOk result (λ turn. Keeps txn (kept_voters (after_of ((volatile_of volatile.now).standing txn) turn.after)) (raises ((volatile_of volatile.now).standing txn) turn.reply) (S.kept store.old) (S.kept store.new)) }
    ensures below { IfOk result (λ turn. raises ((volatile_of volatile.now).standing txn) turn.reply ≡ true → volatile.now.version + 1 < 2 ^ 64) }
    ensures stands { IfOk result (λ turn. (is_some ((volatile_of volatile.now).standing txn) ≡ true) ⊎ (turn.after ≡ after.Stays)) }
{
    let alloc = volatile.alloc;
    match volatile.standing(&txn) {
        None => on_unknown(alloc, txn, site, reply),
        Some(TxnState::Undecided(undecided)) => {
            let version = volatile.version;
            on_open(store, alloc, txn, undecided, site, reply, version, kept)
        }
        Some(TxnState::Committed(committed)) => {
            on_row(store, alloc, txn, committed, site, reply, kept)
        }
    }
}

/// A vote comes by which its transaction isn't decided yet.
#[inline(always)]
fn take_vote(volatile: &mut Volatile, txn: Txn, site: &Text, voted: Voted) -> Out
    requires { is_early ((volatile_of volatile.old).standing txn) site.now voted ≡ true }
    ensures ok { (db : Database) (choice : Choice (language db)) (kept : DeskContent) → AreDistinct db.sites → Fits db kept (volatile_of volatile.old)
        → Steps db (volatile_of volatile.old) kept (volatile_of volatile.new) txn (on_desk_letter (txn_name txn) site.now true choice (replied db site.now (replies.Voted voted)) (txn_in db (volatile_of volatile.old) txn)) result.letters result.replies }
    ensures kept { result.kept ≡ true }
{
    volatile.count(&txn, site, voted.vote);
    let letters = Vec::new(volatile.alloc);
    Out {
        letters: Seq::new(letters),
        replies: Seq::new(Vec::new(volatile.alloc)),
        kept: true,
    }
}

/// A letter of a site comes, by which no statement goes on.
pub(crate) fn take<S: DeskStore>(
    store: &mut S,
    volatile: &mut Volatile,
    txn: Txn,
    site: &Text,
    reply: &Reply,
    kept: bool,
) -> Result<Out, Refusal>
    requires { may_send ((volatile_of volatile.old).standing txn) site.now reply.now ≡ false }
    ensures store { StepsStore S.is_clean S.is_sound S.kept S.refused store.old store.new kept result (λ out. out.kept) ((db : Database) → AreDistinct db.sites → Fits db (S.kept store.old) (volatile_of volatile.old) → CallsStore {L = language db} site.now (replied db site.now reply.now) (txn_in db (volatile_of volatile.old) txn)) }
    ensures ok { (db : Database) (choice : Choice (language db)) → AreDistinct db.sites → S.is_clean store.new → S.is_sound store.old → Fits db (S.kept store.old) (volatile_of volatile.old)
        → IfOk result (λ out. Steps db (volatile_of volatile.old) (S.kept store.new) (volatile_of volatile.new) txn (on_desk_letter (txn_name txn) site.now out.kept choice (replied db site.now reply.now) (txn_in db (volatile_of volatile.old) txn)) out.letters out.replies) }
    ensures own { IfErr result (λ told. told ≡ refusals.Memory) }
    ensures err { OnErr result (volatile_of volatile.new ≡ volatile_of volatile.old) }
{
    if let Some(voted) = early_vote(volatile.standing(&txn), site, reply) {
        return Ok(take_vote(volatile, txn, site, voted));
    }
    let room = room(volatile.alloc)?;
    let turn = step(store, volatile, txn, site, reply, kept)?;
    Ok(make(volatile, txn, turn, room))
}

/// An unknown transaction is presumed aborted.
pub(crate) fn on_unknown(
    alloc: Global,
    txn: Txn,
    site: &Text,
    reply: &Reply,
) -> Result<Transition, Memory>
    ensures turn { (db : Database) → IfOk result (λ turn. IsTransition db txn None turn (on_unknown (txn_name txn) site.now (replied db site.now reply.now))) }
    ensures leaves { LeavesStanding result }
{
    match reply {
        Reply::Ticket(ticket) => tells(alloc, txn, site, Order::Abort(*ticket)),
        Reply::Inquire(ticket) => tells(alloc, txn, site, Order::Abort(*ticket)),
        Reply::Rows(_) => Ok(stays(alloc, true)),
        Reply::Refused(_) => Ok(stays(alloc, true)),
        Reply::Voted(_) => Ok(stays(alloc, true)),
        Reply::Ack(_) => Ok(stays(alloc, true)),
    }
}

/// Rows of a site come. Those that a fetch waits for are kept until all are in; then the statement is evaluated.
fn rows_come(
    alloc: Global,
    catalog: &Catalog,
    next: Option<&Catalog>,
    txn: Txn,
    undecided: &mut Undecided,
    site: &Text,
    rows: &Rows,
) -> Result<Progress, Refusal>
    ensures does { (db : Database) (n : ℕ) → IsOfCatalogue db → InForce db n catalog.now → IsNextOf db n (option_copied next.entry) → AreParticipants db undecided.old.participants → IsIn db n (standings.Undecided undecided.old)
        → IfOk result (λ step. Does db n txn undecided.new step (λ choice. on_known (txn_name txn) (undecided_of db undecided.old) site.now true choice (replied db site.now (replies.Rows rows.now)))) }
    ensures goes { GoesOnOrStays undecided.old undecided.new result }
    ensures full { (db : Database) (n : ℕ) → IsOfCatalogue db → InForce db n catalog.now → IsNextOf db n (option_copied next.entry) → AreParticipants db undecided.old.participants → IsIn db n (standings.Undecided undecided.old) → result ≡ Err refusals.Full
        → IsLong db (λ choice. on_known (txn_name txn) (undecided_of db undecided.old) site.now true choice (replied db site.now (replies.Rows rows.now))) }
{
    leaf_names_are_unique();
    if !gave_first(undecided.participants.as_slice(), site, &rows.ticket) {
        return Ok(no_progress(alloc));
    }
    let Stage::Reading(reading) = &mut undecided.stage else {
        return Ok(no_progress(alloc));
    };
    if !are_in_with(catalog, site, rows, reading.asks.as_slice()) {
        bring(catalog, site, rows, &mut reading.asks)?;
        return Ok(no_progress(alloc));
    }
    let worked = worked_out(
        alloc,
        catalog,
        next,
        &reading.statement,
        &reading.plan,
        reading.asks.as_slice(),
        rows,
    )?;
    let Worked { answer, unsent } = worked;
    works(alloc, txn, undecided, answer, unsent)
}

/// A statement goes on by what a site says.
#[inline(always)]
fn resume_on(
    alloc: Global,
    catalog: &Catalog,
    next: Option<&Catalog>,
    txn: Txn,
    undecided: &mut Undecided,
    site: &Text,
    reply: &Reply,
) -> Result<Progress, Refusal>
    requires { goes_on (participant_in site.now undecided.old.participants).ticket reply.now ≡ true }
    ensures does { (db : Database) (n : ℕ) → IsOfCatalogue db → InForce db n catalog.now → IsNextOf db n (option_copied next.entry) → list_any (is_at site.now) undecided.old.participants ≡ true → AreParticipants db undecided.old.participants → IsIn db n (standings.Undecided undecided.old)
        → IfOk result (λ step. Does db n txn undecided.new step (λ choice. on_known (txn_name txn) (undecided_of db undecided.old) site.now true choice (replied db site.now reply.now))) }
    ensures goes { GoesOnOrStays undecided.old undecided.new result }
    ensures full { (db : Database) (n : ℕ) → IsOfCatalogue db → InForce db n catalog.now → IsNextOf db n (option_copied next.entry) → list_any (is_at site.now) undecided.old.participants ≡ true → AreParticipants db undecided.old.participants → IsIn db n (standings.Undecided undecided.old) → result ≡ Err refusals.Full
        → IsLong db (λ choice. on_known (txn_name txn) (undecided_of db undecided.old) site.now true choice (replied db site.now reply.now)) }
{
    match reply {
        Reply::Ticket(ticket) => ticket_goes(alloc, txn, undecided, site, *ticket),
        Reply::Rows(rows) => rows_come(alloc, catalog, next, txn, undecided, site, rows),
        _ => Ok(no_progress(alloc)),
    }
}

/// The statement of what stands behind a transaction goes on.
#[inline(always)]
fn resume_in(
    alloc: Global,
    catalog: &Catalog,
    next: Option<&Catalog>,
    txn: Txn,
    standing: &mut TxnState,
    site: &Text,
    reply: &Reply,
) -> Result<Progress, Refusal>
    requires { may_send (Some standing.old) site.now reply.now ≡ true }
    ensures does { (db : Database) (n : ℕ) (old : UndecidedNow) → IsOfCatalogue db → InForce db n catalog.now → IsNextOf db n (option_copied next.entry) → standing.old ≡ standings.Undecided old → list_any (is_at site.now) old.participants ≡ true → AreParticipants db old.participants → IsIn db n (standings.Undecided old)
        → IfOk result (λ step. DoesIn db n txn standing.new step (λ choice. on_known (txn_name txn) (undecided_of db old) site.now true choice (replied db site.now reply.now))) }
    ensures short { IsShort standing.old → OnOk result (IsShort standing.new) }
    ensures full { (db : Database) (n : ℕ) (old : UndecidedNow) → IsOfCatalogue db → InForce db n catalog.now → IsNextOf db n (option_copied next.entry) → standing.old ≡ standings.Undecided old → list_any (is_at site.now) old.participants ≡ true → AreParticipants db old.participants → IsIn db n (standings.Undecided old) → result ≡ Err refusals.Full
        → IsLong db (λ choice. on_known (txn_name txn) (undecided_of db old) site.now true choice (replied db site.now reply.now)) }
    ensures same { OnErr result (standing.new ≡ standing.old) }
{
    match standing {
        TxnState::Undecided(undecided) => resume_on(
            alloc, catalog, next, txn, undecided, site, reply,
        ),
        TxnState::Committed(_) => Err(Refusal::NoTransaction),
    }
}

/// A statement of a transaction in memory goes on.
#[inline(always)]
fn resume(
    volatile: &mut Volatile,
    catalog: &Catalog,
    next: Option<&Catalog>,
    txn: Txn,
    site: &Text,
    reply: &Reply,
) -> Result<Progress, Refusal>
    requires { may_send ((volatile_of volatile.old).standing txn) site.now reply.now ≡ true }
    ensures resume_on { (db : Database) (kept : DeskContent) (old : UndecidedNow) → IsOfCatalogue db → InForce db volatile.old.version catalog.now → IsNextOf db volatile.old.version (option_copied next.entry) → Fits db kept (volatile_of volatile.old)
        → (volatile_of volatile.old).standing txn ≡ Some (standings.Undecided old) → list_any (is_at site.now) old.participants ≡ true
        → IfOk result (λ step. GoesOn db volatile.old (volatile_of volatile.new) txn step (λ choice. on_desk_letter (txn_name txn) site.now true choice (replied db site.now reply.now) (txn_in db (volatile_of volatile.old) txn))) }
    ensures full { (db : Database) (kept : DeskContent) (old : UndecidedNow) → IsOfCatalogue db → InForce db volatile.old.version catalog.now → IsNextOf db volatile.old.version (option_copied next.entry) → Fits db kept (volatile_of volatile.old)
        → (volatile_of volatile.old).standing txn ≡ Some (standings.Undecided old) → list_any (is_at site.now) old.participants ≡ true → result ≡ Err refusals.Full
        → IsLong db (λ choice. on_desk_letter (txn_name txn) site.now true choice (replied db site.now reply.now) (txn_in db (volatile_of volatile.old) txn)) }
    ensures err { OnErr result (volatile_of volatile.new ≡ volatile_of volatile.old) }
    ensures version { volatile.new.version ≡ volatile.old.version }
    ensures ordered { IsOrdered txn_cmp volatile.old.standings }
{
    let alloc = volatile.alloc;
    let _count = volatile.standings.len();
    match volatile.standings.get_mut(&txn) {
        Some(standing) => resume_in(alloc, catalog, next, txn, standing, site, reply),
        None => Err(Refusal::NoTransaction),
    }
}

/// Nothing is put out.
pub(crate) fn passed_over(alloc: Global) -> Out
    ensures { PutsOut result [] [] }
{
    Out {
        letters: Seq::new(Vec::new(alloc)),
        replies: Seq::new(Vec::new(alloc)),
        kept: true,
    }
}

/// A letter of a site comes, by which a statement goes on.
#[inline(always)]
pub(crate) fn on_reply(
    volatile: &mut Volatile,
    catalog: &Catalog,
    next: Option<&Catalog>,
    txn: Txn,
    site: &Text,
    reply: &Reply,
) -> Result<Out, Refusal>
    requires { may_send ((volatile_of volatile.old).standing txn) site.now reply.now ≡ true }
    ensures ok { (db : Database) (kept : DeskContent) → IsOfCatalogue db → InForce db volatile.old.version catalog.now → IsNextOf db volatile.old.version (option_copied next.entry) → Fits db kept (volatile_of volatile.old) → list_any (λ other. pointwise nat_eq other site.now) db.sites ≡ true
        → IfOk result (λ out. Takes db (volatile_of volatile.old) kept (volatile_of volatile.new) txn (λ choice. on_desk_letter (txn_name txn) site.now true choice (replied db site.now reply.now) (txn_in db (volatile_of volatile.old) txn)) out.letters out.replies) }
    ensures steps { StepsBelowLimits volatile.old volatile.new result }
    ensures version { volatile.new.version ≡ volatile.old.version }
    ensures full { (db : Database) (kept : DeskContent) → IsOfCatalogue db → InForce db volatile.old.version catalog.now → IsNextOf db volatile.old.version (option_copied next.entry) → Fits db kept (volatile_of volatile.old) → list_any (λ other. pointwise nat_eq other site.now) db.sites ≡ true → result ≡ Err refusals.Full
        → IsPastLimits db (volatile_of volatile.old) txn (λ choice. on_desk_letter (txn_name txn) site.now true choice (replied db site.now reply.now) (txn_in db (volatile_of volatile.old) txn)) }
{
    match resume(volatile, catalog, next, txn, site, reply) {
        Ok(step) => Ok(put_out(step)),
        Err(refusal) => Err(limit_or_memory(refusal)),
    }
}
