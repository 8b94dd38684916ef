//! What clients ask: a transaction begins, states a statement, and ends.

ghost use Rattle.std.specs.Prelude.{◌≡◌, ℕ, ◌<◌, ◌⊎◌, [], vec_len, false, None, Some, true, IfOk, IfErr, IfSome, OnOk, OnErr, ◌≢◌, Err, map};
ghost use Rattle.std.specs.Vec.{vec_capacity};
ghost use Rattle.std.specs.Option.{option_copied, option_map};
ghost use Rattle.reader.specs.Printable.{AreDistinct};
ghost use Rattle.protocol.specs.Desk.{Choice, Commit_call, Give_up, Rollback, desk_began, is_desk_within, on_request, refusal, Known, State};
ghost use Rattle.protocol.specs.Letters.{txn_name};
ghost use Rattle.store.specs.DeskContent.{DeskContent};
ghost use Rattle.desk.specs.declared.refusal.Refusal.TheVariants as refusals;
ghost use Rattle.desk.specs.declared.reply.Reply.TheVariants as replies;
ghost use Rattle.desk.specs.Begun.{nowhere_yet};
ghost use Rattle.desk.specs.Request.{IsAt, IsOver, WhyNotStated, notices, open_in, refused_as, txn_in};
ghost use Rattle.desk.specs.Database.{Database, language};
ghost use Rattle.desk.specs.Frame.{GoesOnOrStays, LeavesRows, PutsOut, StatesInMemory, StepsBelowLimits, StepsInMemory};
ghost use Rattle.desk.specs.State.{Begins, Fits, Steps, anyone_moves, desk_of, volatile_of};
ghost use Rattle.desk.specs.Transition.{IsTransition, AreParticipants, is_moving};
ghost use Rattle.std.specs.BTreeMap.{IsOrdered};
ghost use Rattle.meaning.specs.declared.statement.Refragment.{Refragment as RefragmentNow};
ghost use Rattle.meaning.specs.declared.statement.Statement.{Statement as StatementNow};
ghost use Rattle.meaning.specs.declared.statement.Statement.TheVariants as statements;
ghost use Rattle.meaning.specs.Statement.{IsStatementOf, is_refragment};
ghost use Rattle.reader.specs.declared.command.Command.TheVariants as commands;
ghost use Rattle.reader.specs.declared.fault.Rule.TheVariants as rules;
ghost use Rattle.reader.specs.Command.{IsTextOf};
ghost use Rattle.catalog.specs.FragmentLeaf.{schemas_of};
ghost use Rattle.catalog.specs.Relation.{catalogue_of};
ghost use Rattle.store.specs.Name.{txn_cmp};
ghost use Rattle.desk.specs.declared.transaction.TxnState.TheVariants as standings;
ghost use Rattle.desk.specs.declared.transaction.Stage.TheVariants as stages;
ghost use Rattle.desk.specs.declared.transaction.Undecided.{Undecided as UndecidedNow};
ghost use Rattle.desk.specs.Does.{Does, DoesIn, GoesOn, IsLong, IsNoStatement, IsReadAs, IsShort, Runs, RunsPastLimits, States, StatesPastLimits};
ghost use Rattle.desk.specs.OfCatalogue.{InForce, IsOfCatalogue};
ghost use Rattle.desk.specs.Planned.{IsOfPlan, ask_from};
ghost use Rattle.desk.specs.Transaction.{undecided_of};

use crate::abort::{give_up, is_voting, roll_back};
use crate::commit::commit;
use crate::fetches::{Ask, Ready, ready_for};
use crate::participant::Participant;
use crate::refusal::Refusal;
use crate::reply::{Notice, Out, Reply};
use crate::statement::{Progress, Worked, evaluate, reads, works};
use crate::transaction::{Planned, Stage, TxnState, Undecided};
use crate::transition::{Transition, make, noticed, room, stays};
use crate::volatile::{Volatile, begun};
use catalog::catalogue::Catalog;
use catalog::laws::leaf_names_are_unique;
use meaning::statement::Statement;
use reader::command::Command;
use reader::fault::{ReadFault, Rule};
use reader::read::read;
use std::alloc::Global;
use store::letter::Letter;
use store::name::Txn;
use terms::copy::TryCopy;
use terms::memory::Memory;
use terms::seq::Seq;
use terms::text::Text;

/// Participants of which none is visited.
pub(crate) fn nowhere_yet(alloc: Global, sites: &[Text]) -> Result<Vec<Participant>, Memory>
    ensures { IfOk result (λ participants. participants.items ≡ nowhere_yet sites.now) }
{
    let mut participants = Vec::new(alloc);
    for site in sites {
        participants.push(Participant {
            site: site.copy()?,
            visited: false,
            ticket: None,
            sent: 0,
            vote: None,
        })?;
    }
    Ok(participants)
}

/// A transaction begins at these sites.
pub(crate) fn call_begin(volatile: &mut Volatile, sites: &[Text]) -> Result<Out, Refusal>
    ensures ok { (db : Database) (kept : DeskContent) → IsOver db sites.now → Fits db kept (volatile_of volatile.old)
        → IfOk result (λ out. Begins db false (volatile_of volatile.old) kept (volatile_of volatile.new) out.letters out.replies) }
    ensures steps { StepsInMemory volatile.old volatile.new result }
    ensures accepted { OnOk result (anyone_moves (volatile_of volatile.old) ≡ false) }
    ensures own { IfErr result (λ told. (told ≡ refusals.Memory) ⊎ (told ≡ refusals.Full) ⊎ (told ≡ refusals.NotAlone)) }
    ensures full { (db : Database) (kept : DeskContent) → IsOver db sites.now → Fits db kept (volatile_of volatile.old) → result ≡ Err refusals.Full
        → is_desk_within (desk_began (desk_of db (volatile_of volatile.old))) ≡ false }
    ensures alone { result ≡ Err refusals.NotAlone → anyone_moves (volatile_of volatile.old) ≡ true }
{
    let room = room(volatile.alloc)?;
    let participants = nowhere_yet(volatile.alloc, sites)?;
    let txn = volatile.next()?;
    if volatile.moves() {
        return Err(Refusal::NotAlone);
    }
    volatile.begin(txn, TxnState::Undecided(begun(participants, false)))?;
    Ok(out_of_begin(room, txn, Vec::new(volatile.alloc)))
}

/// A transaction's client hears that it has begun, and these letters go out. There is room for its reply.
pub(crate) fn out_of_begin(room: Vec<Notice>, txn: Txn, letters: Vec<Letter>) -> Out
    requires { vec_len room < vec_capacity room }
    ensures letters { result.letters ≡ letters.items }
    ensures replies { room.items ≡ [] → result.replies ≡ notices txn (Some replies.Begun) }
    ensures kept { result.kept ≡ true }
{
    Out {
        letters: Seq::new(letters),
        replies: Seq::new(noticed(room, txn, Some(Reply::Begun))),
        kept: true,
    }
}

/// An undecided transaction.
pub(crate) fn undecided_of<'a>(volatile: &'a Volatile, txn: &Txn) -> Option<&'a Undecided>
    ensures { option_copied result ≡ open_in ((volatile_of volatile.now).standing txn.now) }
{
    match volatile.standing(txn) {
        Some(TxnState::Undecided(undecided)) => Some(undecided),
        _ => None,
    }
}

/// The step of a transaction whose commit is asked for.
fn commit_step(volatile: &Volatile, txn: Txn) -> Result<Transition, Refusal>
    ensures turn { (db : Database) (choice : Choice (language db)) → IsAt db ((volatile_of volatile.now).standing txn)
        → IfOk result (λ turn. IsTransition db txn ((volatile_of volatile.now).standing txn) turn (on_request (txn_name txn) choice Commit_call (txn_in db (volatile_of volatile.now) txn))) }
    ensures leaves { LeavesRows volatile.now txn result }
    ensures accepted { (db : Database) → OnOk result (refusal Commit_call (txn_in db (volatile_of volatile.now) txn) ≡ None) }
    ensures told { (db : Database) → IfErr result (λ told. (told ≡ refusals.Memory) ⊎ (option_map refused_as (refusal Commit_call (txn_in db (volatile_of volatile.now) txn)) ≡ Some told)) }
{
    let Some(undecided) = undecided_of(volatile, &txn) else {
        return Err(Refusal::NoTransaction);
    };
    match &undecided.stage {
        Stage::Idle => Ok(commit(volatile.alloc, txn, undecided)?),
        Stage::Voting => Err(Refusal::Ended),
        _ => Err(Refusal::Busy),
    }
}

/// The step of a transaction that is rolled back.
fn rollback_step(volatile: &Volatile, txn: Txn) -> Result<Transition, Refusal>
    ensures turn { (db : Database) (choice : Choice (language db)) → IsAt db ((volatile_of volatile.now).standing txn)
        → IfOk result (λ turn. IsTransition db txn ((volatile_of volatile.now).standing txn) turn (on_request (txn_name txn) choice Rollback (txn_in db (volatile_of volatile.now) txn))) }
    ensures leaves { LeavesRows volatile.now txn result }
    ensures accepted { (db : Database) → OnOk result (refusal Rollback (txn_in db (volatile_of volatile.now) txn) ≡ None) }
    ensures told { (db : Database) → IfErr result (λ told. (told ≡ refusals.Memory) ⊎ (option_map refused_as (refusal Rollback (txn_in db (volatile_of volatile.now) txn)) ≡ Some told)) }
{
    let Some(undecided) = undecided_of(volatile, &txn) else {
        return Err(Refusal::NoTransaction);
    };
    if is_voting(&undecided.stage) {
        return Err(Refusal::Ended);
    }
    Ok(roll_back(volatile.alloc, txn, undecided)?)
}

/// The step of a transaction that is given up. One that isn't undecided stays as it is.
fn give_up_step(volatile: &Volatile, txn: Txn) -> Result<Transition, Refusal>
    ensures turn { (db : Database) (choice : Choice (language db)) → IsAt db ((volatile_of volatile.now).standing txn)
        → IfOk result (λ turn. IsTransition db txn ((volatile_of volatile.now).standing txn) turn (on_request (txn_name txn) choice Give_up (txn_in db (volatile_of volatile.now) txn))) }
    ensures leaves { LeavesRows volatile.now txn result }
    ensures own { IfErr result (λ told. told ≡ refusals.Memory) }
{
    match undecided_of(volatile, &txn) {
        Some(undecided) => Ok(give_up(volatile.alloc, txn, undecided)?),
        None => Ok(stays(volatile.alloc, true)),
    }
}

/// The commit of a transaction is asked for.
#[inline(always)]
pub(crate) fn call_commit(volatile: &mut Volatile, txn: Txn) -> Result<Out, Refusal>
    ensures ok { (db : Database) (choice : Choice (language db)) (kept : DeskContent) → AreDistinct db.sites → Fits db kept (volatile_of volatile.old)
        → IfOk result (λ out. Steps db (volatile_of volatile.old) kept (volatile_of volatile.new) txn (on_request (txn_name txn) choice Commit_call (txn_in db (volatile_of volatile.old) txn)) out.letters out.replies) }
    ensures steps { StepsInMemory volatile.old volatile.new result }
    ensures accepted { (db : Database) → OnOk result (refusal Commit_call (txn_in db (volatile_of volatile.old) txn) ≡ None) }
    ensures told { (db : Database) → IfErr result (λ told. (told ≡ refusals.Memory) ⊎ (option_map refused_as (refusal Commit_call (txn_in db (volatile_of volatile.old) txn)) ≡ Some told)) }
{
    let room = room(volatile.alloc)?;
    let turn = commit_step(volatile, txn)?;
    Ok(make(volatile, txn, turn, room))
}

/// A transaction is to be rolled back.
pub(crate) fn call_rollback(volatile: &mut Volatile, txn: Txn) -> Result<Out, Refusal>
    ensures ok { (db : Database) (choice : Choice (language db)) (kept : DeskContent) → AreDistinct db.sites → Fits db kept (volatile_of volatile.old)
        → IfOk result (λ out. Steps db (volatile_of volatile.old) kept (volatile_of volatile.new) txn (on_request (txn_name txn) choice Rollback (txn_in db (volatile_of volatile.old) txn)) out.letters out.replies) }
    ensures steps { StepsInMemory volatile.old volatile.new result }
    ensures accepted { (db : Database) → OnOk result (refusal Rollback (txn_in db (volatile_of volatile.old) txn) ≡ None) }
    ensures told { (db : Database) → IfErr result (λ told. (told ≡ refusals.Memory) ⊎ (option_map refused_as (refusal Rollback (txn_in db (volatile_of volatile.old) txn)) ≡ Some told)) }
{
    let room = room(volatile.alloc)?;
    let turn = rollback_step(volatile, txn)?;
    Ok(make(volatile, txn, turn, room))
}

/// A transaction is to be given up.
pub(crate) fn call_give_up(volatile: &mut Volatile, txn: Txn) -> Result<Out, Refusal>
    ensures ok { (db : Database) (choice : Choice (language db)) (kept : DeskContent) → AreDistinct db.sites → Fits db kept (volatile_of volatile.old)
        → IfOk result (λ out. Steps db (volatile_of volatile.old) kept (volatile_of volatile.new) txn (on_request (txn_name txn) choice Give_up (txn_in db (volatile_of volatile.old) txn)) out.letters out.replies) }
    ensures steps { StepsInMemory volatile.old volatile.new result }
    ensures own { IfErr result (λ told. told ≡ refusals.Memory) }
{
    let room = room(volatile.alloc)?;
    let turn = give_up_step(volatile, txn)?;
    Ok(make(volatile, txn, turn, room))
}

/// A statement without fetches is evaluated at once.
fn run_at_once(
    alloc: Global,
    catalog: &Catalog,
    txn: Txn,
    undecided: &mut Undecided,
    statement: &Statement,
    plan: &Planned,
) -> Result<Progress, Refusal>
    ensures does { (db : Database) (n : ℕ) → IsOfCatalogue db → InForce db n catalog.now → AreParticipants db undecided.old.participants → undecided.old.stage ≡ stages.Idle
        → IsOfPlan db n statement.now plan.now [] → [] ≡ map (ask_from (db.catalogue n)) plan.now.fetches
        → IfOk result (λ step. Does db n txn undecided.new step (λ choice. on_request (txn_name txn) choice (State (n, statement.now)) (Known (undecided_of db undecided.old)))) }
    ensures goes { GoesOnOrStays undecided.old undecided.new result }
    ensures full { (db : Database) (n : ℕ) → IsOfCatalogue db → InForce db n catalog.now → AreParticipants db undecided.old.participants → undecided.old.stage ≡ stages.Idle
        → IsOfPlan db n statement.now plan.now [] → [] ≡ map (ask_from (db.catalogue n)) plan.now.fetches → result ≡ Err refusals.Full
        → IsLong db (λ choice. on_request (txn_name txn) choice (State (n, statement.now)) (Known (undecided_of db undecided.old))) }
{
    let fetched = Vec::new(alloc);
    let worked = evaluate(alloc, catalog, None, statement, plan, fetched.as_slice())?;
    let Worked { answer, unsent } = worked;
    works(alloc, txn, undecided, answer, unsent)
}

/// An idle transaction has a statement done.
fn start_reading(
    alloc: Global,
    catalog: &Catalog,
    txn: Txn,
    undecided: &mut Undecided,
    statement: Statement,
    plan: Planned,
    asks: Vec<Ask>,
    version: u64,
) -> Result<Progress, Refusal>
    ensures does { (db : Database) → IsOfCatalogue db → InForce db version catalog.now → AreParticipants db undecided.old.participants → undecided.old.stage ≡ stages.Idle
        → IsOfPlan db version statement plan asks.items → asks.items ≡ map (ask_from (db.catalogue version)) plan.fetches
        → IfOk result (λ step. Does db version txn undecided.new step (λ choice. on_request (txn_name txn) choice (State (version, statement)) (Known (undecided_of db undecided.old)))) }
    ensures goes { GoesOnOrStays undecided.old undecided.new result }
    ensures full { (db : Database) → IsOfCatalogue db → InForce db version catalog.now → AreParticipants db undecided.old.participants → undecided.old.stage ≡ stages.Idle
        → IsOfPlan db version statement plan asks.items → asks.items ≡ map (ask_from (db.catalogue version)) plan.fetches → result ≡ Err refusals.Full
        → IsLong db (λ choice. on_request (txn_name txn) choice (State (version, statement)) (Known (undecided_of db undecided.old))) }
{
    leaf_names_are_unique();
    if asks.is_empty() {
        return run_at_once(alloc, catalog, txn, undecided, &statement, &plan);
    }
    reads(alloc, txn, undecided, statement, plan, asks, version)
}

/// What stands behind a transaction has a statement done.
fn start_in(
    alloc: Global,
    catalog: &Catalog,
    txn: Txn,
    standing: &mut TxnState,
    statement: Statement,
    plan: Planned,
    asks: Vec<Ask>,
    version: u64,
) -> Result<Progress, Refusal>
    ensures does { (db : Database) (old : UndecidedNow) → IsOfCatalogue db → InForce db version catalog.now → standing.old ≡ standings.Undecided old → AreParticipants db old.participants → old.stage ≡ stages.Idle
        → IsOfPlan db version statement plan asks.items → asks.items ≡ map (ask_from (db.catalogue version)) plan.fetches
        → IfOk result (λ step. DoesIn db version txn standing.new step (λ choice. on_request (txn_name txn) choice (State (version, statement)) (Known (undecided_of db old)))) }
    ensures short { IsShort standing.old → OnOk result (IsShort standing.new) }
    ensures full { (db : Database) (old : UndecidedNow) → IsOfCatalogue db → InForce db version catalog.now → standing.old ≡ standings.Undecided old → AreParticipants db old.participants → old.stage ≡ stages.Idle
        → IsOfPlan db version statement plan asks.items → asks.items ≡ map (ask_from (db.catalogue version)) plan.fetches → result ≡ Err refusals.Full
        → IsLong db (λ choice. on_request (txn_name txn) choice (State (version, statement)) (Known (undecided_of db old))) }
    ensures same { OnErr result (standing.new ≡ standing.old) }
{
    match standing {
        TxnState::Undecided(undecided) => {
            start_reading(
                alloc, catalog, txn, undecided, statement, plan, asks, version,
            )
        }
        TxnState::Committed(_) => Err(Refusal::NoTransaction),
    }
}

/// A transaction in memory has a statement done.
fn start(
    volatile: &mut Volatile,
    catalog: &Catalog,
    txn: Txn,
    statement: Statement,
    plan: Planned,
    asks: Vec<Ask>,
) -> Result<Progress, Refusal>
    ensures goes { (db : Database) (kept : DeskContent) (old : UndecidedNow) → IsOfCatalogue db → InForce db volatile.old.version catalog.now → Fits db kept (volatile_of volatile.old)
        → (volatile_of volatile.old).standing txn ≡ Some (standings.Undecided old) → old.stage ≡ stages.Idle → IsOfPlan db volatile.old.version statement plan asks.items → asks.items ≡ map (ask_from (db.catalogue volatile.old.version)) plan.fetches
        → IfOk result (λ step. GoesOn db volatile.old (volatile_of volatile.new) txn step (λ choice. on_request (txn_name txn) choice (State (volatile.old.version, statement)) (txn_in db (volatile_of volatile.old) txn))) }
    ensures full { (db : Database) (kept : DeskContent) (old : UndecidedNow) → IsOfCatalogue db → InForce db volatile.old.version catalog.now → Fits db kept (volatile_of volatile.old)
        → (volatile_of volatile.old).standing txn ≡ Some (standings.Undecided old) → old.stage ≡ stages.Idle → IsOfPlan db volatile.old.version statement plan asks.items → asks.items ≡ map (ask_from (db.catalogue volatile.old.version)) plan.fetches → result ≡ Err refusals.Full
        → IsLong db (λ choice. on_request (txn_name txn) choice (State (volatile.old.version, statement)) (txn_in db (volatile_of volatile.old) txn)) }
    ensures err { OnErr result (volatile_of volatile.new ≡ volatile_of volatile.old) }
    ensures ordered { IsOrdered txn_cmp volatile.old.standings }
{
    let alloc = volatile.alloc;
    let version = volatile.version;
    let _count = volatile.standings.len();
    match volatile.standings.get_mut(&txn) {
        Some(standing) => start_in(
            alloc, catalog, txn, standing, statement, plan, asks, version,
        ),
        None => Err(Refusal::NoTransaction),
    }
}

/// Whether a transaction may state something: it is undecided, and between two statements.
fn may_state(volatile: &Volatile, txn: &Txn) -> Result<(), Refusal>
    ensures accepted { (db : Database) (statement : StatementNow) → OnOk result (refusal (State (volatile.now.version, statement)) (txn_in db (volatile_of volatile.now) txn.now) ≡ None) }
    ensures still { OnOk result (is_moving ((volatile_of volatile.now).standing txn.now) ≡ false) }
    ensures idle { OnOk result (option_map (λ found. found.stage) (open_in ((volatile_of volatile.now).standing txn.now)) ≡ Some stages.Idle) }
    ensures told { (db : Database) (statement : StatementNow) → IfErr result (λ told. WhyNotStated db (volatile_of volatile.now) txn.now statement told) }
    ensures own { result ≢ Err refusals.Full }
{
    let Some(undecided) = undecided_of(volatile, txn) else {
        return Err(Refusal::NoTransaction);
    };
    if undecided.moves {
        return Err(Refusal::Busy);
    }
    match &undecided.stage {
        Stage::Idle => Ok(()),
        Stage::Voting => Err(Refusal::Ended),
        _ => Err(Refusal::Busy),
    }
}

/// What the reader says of a text.
pub(crate) fn reader_refusal(fault: ReadFault) -> Refusal
    ensures { (result ≡ refusals.Memory) ⊎ ((fault.rule ≢ Rule.Memory) × (result ≡ refusals.Read fault)) }
{
    if fault.rule() == Rule::Memory {
        Refusal::Memory
    } else {
        Refusal::Read(fault)
    }
}

/// The statement that a command runs. BEGIN, COMMIT and ROLLBACK run none, and a REFRAGMENT is none of a transaction that
/// a client has begun.
fn run_by(command: Command) -> Result<Statement, Refusal>
    ensures run { IfOk result (λ statement. command ≡ commands.Run statement) }
    ensures ordinary { IfOk result (λ statement. is_refragment statement ≡ false) }
    ensures none { IfErr result (λ told. ((told ≡ refusals.Read (record { rule = rules.Syntax; offset = 0 })) × ((command ≡ commands.Begin) ⊎ ((command ≡ commands.Commit) ⊎ (command ≡ commands.Rollback))))
        ⊎ ((told ≡ refusals.Busy) × (refragment : RefragmentNow) × (command ≡ commands.Run (statements.Refragment refragment)))) }
{
    match command {
        Command::Run(Statement::Refragment(_)) => Err(Refusal::Busy),
        Command::Run(statement) => Ok(statement),
        Command::Begin => Err(Refusal::Read(ReadFault::new(Rule::Syntax, 0))),
        Command::Commit => Err(Refusal::Read(ReadFault::new(Rule::Syntax, 0))),
        Command::Rollback => Err(Refusal::Read(ReadFault::new(Rule::Syntax, 0))),
    }
}

/// The statement of a text, under the catalogue's schema.
fn statement_of(alloc: Global, catalog: &Catalog, text: &str) -> Result<Statement, Refusal>
    ensures spelled { IfOk result (λ statement. IsTextOf (schemas_of (catalogue_of catalog.now)) text.now (commands.Run statement)) }
    ensures fits { IfOk result (λ statement. IsStatementOf (schemas_of (catalogue_of catalog.now)) statement) }
    ensures ordinary { IfOk result (λ statement. is_refragment statement ≡ false) }
    ensures told { IfErr result (λ told. (told ≡ refusals.Memory) ⊎ IsNoStatement (schemas_of (catalogue_of catalog.now)) text.now told) }
{
    match read(alloc, text, catalog.schema()) {
        Ok(command) => run_by(command),
        Err(fault) => Err(reader_refusal(fault)),
    }
}

/// The statement of a text, under the catalogue's schema. One that it was read as before isn't read again.
fn statement_or_read(
    alloc: Global,
    catalog: &Catalog,
    text: &str,
    known: Option<Statement>,
) -> Result<Statement, Refusal>
    requires { IfSome known (IsReadAs (schemas_of (catalogue_of catalog.now)) text.now) }
    ensures read { IfOk result (IsReadAs (schemas_of (catalogue_of catalog.now)) text.now) }
    ensures told { IfErr result (λ told. (told ≡ refusals.Memory) ⊎ IsNoStatement (schemas_of (catalogue_of catalog.now)) text.now told) }
{
    match known {
        Some(statement) => Ok(statement),
        None => statement_of(alloc, catalog, text),
    }
}

/// Why a step of a statement could not be made: a limit is reached, or memory ran out.
pub(crate) fn limit_or_memory(refusal: Refusal) -> Refusal
    ensures own { (result ≡ refusals.Memory) ⊎ (result ≡ refusals.Full) }
    ensures full { result ≡ refusals.Full → refusal ≡ refusals.Full }
{
    match refusal {
        Refusal::Full => Refusal::Full,
        _ => Refusal::Memory,
    }
}

/// What a step of a statement puts out.
pub(crate) fn put_out(step: Progress) -> Out
    ensures { PutsOut result step.letters.items step.replies.items }
{
    Out {
        letters: Seq::new(step.letters),
        replies: Seq::new(step.replies),
        kept: true,
    }
}

/// What a statement begins with, where its transaction may state it. A REFRAGMENT it may not.
fn ready_to_run(
    volatile: &Volatile,
    catalog: &Catalog,
    txn: &Txn,
    statement: &Statement,
) -> Result<Ready, Refusal>
    requires { IsStatementOf (schemas_of (catalogue_of catalog.now)) statement.now }
    ensures of_plan { (db : Database) → IsOfCatalogue db → InForce db volatile.now.version catalog.now
        → IfOk result (λ ready. IsOfPlan db volatile.now.version statement.now ready.plan ready.asks.items) }
    ensures asks { IfOk result (λ ready. ready.asks.items ≡ map (ask_from (catalogue_of catalog.now)) ready.plan.fetches) }
    ensures accepted { (db : Database) (other : StatementNow) → OnOk result (refusal (State (volatile.now.version, other)) (txn_in db (volatile_of volatile.now) txn.now) ≡ None) }
    ensures still { OnOk result (is_moving ((volatile_of volatile.now).standing txn.now) ≡ false) }
    ensures idle { OnOk result (option_map (λ found. found.stage) (open_in ((volatile_of volatile.now).standing txn.now)) ≡ Some stages.Idle) }
    ensures ordinary { OnOk result (is_refragment statement.now ≡ false) }
    ensures told { (db : Database) → IfErr result (λ told. (told ≡ refusals.Memory) ⊎ WhyNotStated db (volatile_of volatile.now) txn.now statement.now told
        ⊎ ((refusal (State (volatile.now.version, statement.now)) (txn_in db (volatile_of volatile.now) txn.now) ≡ None) × ((is_refragment statement.now ≡ true) × (told ≡ refusals.Busy)))) }
    ensures own { result ≢ Err refusals.Full }
{
    may_state(volatile, txn)?;
    if statement.is_refragment() {
        return Err(Refusal::Busy);
    }
    Ok(ready_for(volatile.alloc, catalog, statement)?)
}

/// A statement of a transaction.
pub(crate) fn call_run(
    volatile: &mut Volatile,
    catalog: &Catalog,
    txn: Txn,
    statement: Statement,
) -> Result<Out, Refusal>
    requires { IsStatementOf (schemas_of (catalogue_of catalog.now)) statement }
    ensures ok { (db : Database) (kept : DeskContent) → IsOfCatalogue db → InForce db volatile.old.version catalog.now → Fits db kept (volatile_of volatile.old)
        → IfOk result (λ out. Runs db (volatile_of volatile.old) kept (volatile_of volatile.new) txn statement out.letters out.replies) }
    ensures states { StatesInMemory volatile.old volatile.new txn result }
    ensures told { (db : Database) → IfErr result (λ told. (told ≡ refusals.Memory) ⊎ WhyNotStated db (volatile_of volatile.old) txn statement told
        ⊎ ((refusal (State (volatile.old.version, statement)) (txn_in db (volatile_of volatile.old) txn) ≡ None) × (((is_refragment statement ≡ true) × (told ≡ refusals.Busy)) ⊎ (told ≡ refusals.Full)))) }
    ensures full { (db : Database) (kept : DeskContent) → IsOfCatalogue db → InForce db volatile.old.version catalog.now → Fits db kept (volatile_of volatile.old) → result ≡ Err refusals.Full
        → RunsPastLimits db (volatile_of volatile.old) txn statement }
{
    let ready = ready_to_run(volatile, catalog, &txn, &statement)?;
    match start(volatile, catalog, txn, statement, ready.plan, ready.asks) {
        Ok(step) => Ok(put_out(step)),
        Err(refusal) => Err(limit_or_memory(refusal)),
    }
}

/// A statement of a transaction, by its text, which is read only where the transaction may state something, and only where it isn't
/// known what it was read as before.
pub(crate) fn call_statement(
    volatile: &mut Volatile,
    catalog: &Catalog,
    txn: Txn,
    text: &str,
    known: Option<Statement>,
) -> Result<Out, Refusal>
    requires { IfSome known (IsReadAs (schemas_of (catalogue_of catalog.now)) text.now) }
    ensures ok { (db : Database) (kept : DeskContent) → IsOfCatalogue db → InForce db volatile.old.version catalog.now → Fits db kept (volatile_of volatile.old)
        → IfOk result (λ out. States db (volatile_of volatile.old) kept (volatile_of volatile.new) txn text.now out.letters out.replies) }
    ensures states { StatesInMemory volatile.old volatile.new txn result }
    ensures told { (db : Database) (statement : StatementNow) → IfErr result (λ told. (told ≡ refusals.Memory) ⊎ WhyNotStated db (volatile_of volatile.old) txn statement told
        ⊎ ((refusal (State (volatile.old.version, statement)) (txn_in db (volatile_of volatile.old) txn) ≡ None) × (IsNoStatement (schemas_of (catalogue_of catalog.now)) text.now told ⊎ (told ≡ refusals.Full)))) }
    ensures full { (db : Database) (kept : DeskContent) → IsOfCatalogue db → InForce db volatile.old.version catalog.now → Fits db kept (volatile_of volatile.old) → result ≡ Err refusals.Full
        → StatesPastLimits db (volatile_of volatile.old) txn text.now }
{
    may_state(volatile, &txn)?;
    let statement = statement_or_read(volatile.alloc, catalog, text, known)?;
    call_run(volatile, catalog, txn, statement)
}
