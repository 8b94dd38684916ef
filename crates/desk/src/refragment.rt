//! A relation gets the split that the next catalogue has for it: a transaction of its own, with one statement.

ghost use Rattle.std.specs.Prelude.{◌≡◌, ◌≢◌, ◌⊎◌, ℕ, nat_eq, length, map, List, [], None, Some, true, false, IfOk, IfErr, OnOk, Err};
ghost use Rattle.std.specs.Option.{option_copied};
ghost use Rattle.meaning.specs.Statement.{IsStatementOf};
ghost use Rattle.meaning.specs.declared.statement.Statement.TheVariants as statements;
ghost use Rattle.reader.specs.declared.command.Command.TheVariants as commands;
ghost use Rattle.reader.specs.declared.fault.Rule.TheVariants as rules;
ghost use Rattle.reader.specs.Command.{IsTextOf};
ghost use Rattle.catalog.specs.Chain.{IsNext};
ghost use Rattle.catalog.specs.FragmentLeaf.{schemas_of};
ghost use Rattle.catalog.specs.Relation.{catalogue_of};
ghost use Rattle.store.specs.DeskContent.{DeskContent};
ghost use Rattle.desk.specs.declared.refusal.Refusal.TheVariants as refusals;
ghost use Rattle.desk.specs.declared.transaction.Stage.TheVariants as stages;
ghost use Rattle.protocol.specs.Desk.{Known, State, began_as, is_desk_within, on_request};
ghost use Rattle.protocol.specs.Letters.{txn_name};
ghost use Rattle.catalog.specs.declared.relation.SplitRelation.{SplitRelation as Relation};
ghost use Rattle.desk.specs.Database.{Database, IsStated};
ghost use Rattle.desk.specs.Does.{Does};
ghost use Rattle.desk.specs.Frame.{StepsInMemory};
ghost use Rattle.desk.specs.Planned.{IsOfPlan, ask_from};
ghost use Rattle.desk.specs.Send.{AreShort};
ghost use Rattle.desk.specs.Transaction.{undecided_of};
ghost use Rattle.desk.specs.Transition.{AreParticipants};
ghost use Rattle.desk.specs.OfCatalogue.{InForce, IsNextOf, IsOfCatalogue};
ghost use Rattle.desk.specs.Refragmented.{IsNoNext, IsNoRefragment, Refragments, is_refragment_command};
ghost use Rattle.desk.specs.State.{Fits, desk_of, volatile_of};

use crate::fetches::{Ready, ready_for};
use crate::refusal::Refusal;
use crate::reply::Out;
use crate::request::{nowhere_yet, out_of_begin, reader_refusal};
use crate::statement::{Progress, reads};
use crate::transaction::{TxnState, Undecided};
use crate::transition::room;
use crate::volatile::{Volatile, begun};
use catalog::catalogue::Catalog;
use catalog::laws::leaf_names_are_unique;
use meaning::statement::{Refragment, Statement};
use reader::command::Command;
use reader::fault::{ReadFault, Rule};
use reader::read::read;
use std::alloc::Global;
use store::name::Txn;
use terms::copy::TryCopy;
use terms::memory::Memory;
use terms::text::Text;

/// The REFRAGMENT that a command is. No other command is one.
fn refragment_by(command: Command) -> Result<Refragment, Refusal>
    ensures run { IfOk result (λ refragment. command ≡ commands.Run (statements.Refragment refragment)) }
    ensures none { IfErr result (λ told. (told ≡ refusals.Read (record { rule = rules.Syntax; offset = 0 })) × (is_refragment_command command ≡ false)) }
{
    match command {
        Command::Run(Statement::Refragment(refragment)) => Ok(refragment),
        _ => Err(Refusal::Read(ReadFault::new(Rule::Syntax, 0))),
    }
}

/// The REFRAGMENT of a text, under the catalogue's schema.
pub(crate) fn refragment_of(
    alloc: Global,
    catalog: &Catalog,
    text: &str,
) -> Result<Refragment, Refusal>
    ensures spelled { IfOk result (λ refragment. IsTextOf (schemas_of (catalogue_of catalog.now)) text.now (commands.Run (statements.Refragment refragment))) }
    ensures fits { IfOk result (λ refragment. IsStatementOf (schemas_of (catalogue_of catalog.now)) (statements.Refragment refragment)) }
    ensures told { IfErr result (λ told. (told ≡ refusals.Memory) ⊎ IsNoRefragment (schemas_of (catalogue_of catalog.now)) text.now told) }
{
    match read(alloc, text, catalog.schema()) {
        Ok(command) => refragment_by(command),
        Err(fault) => Err(reader_refusal(fault)),
    }
}

/// Whether the next catalogue, if there is one, splits this relation otherwise.
fn is_next(catalog: &Catalog, next: Option<&Catalog>, relation: &Text) -> bool
    ensures yes { result ≡ true → (other : List (List ℕ) × List Relation) × (option_copied next.entry ≡ Some other) × IsNext (catalogue_of catalog.now) (catalogue_of other) relation.now }
    ensures no { result ≡ false → IsNoNext (catalogue_of catalog.now) (option_copied next.entry) relation.now }
{
    match next {
        Some(next) => match catalog.changed(next) {
            Some(name) => name == relation.as_str(),
            None => false,
        },
        None => false,
    }
}

/// What a statement that reads begins with.
fn ready_to_read(alloc: Global, catalog: &Catalog, statement: &Statement) -> Result<Ready, Memory>
    requires { IsStatementOf (schemas_of (catalogue_of catalog.now)) statement.now }
    ensures of_plan { (db : Database) (n : ℕ) → IsOfCatalogue db → InForce db n catalog.now → IsStated db n statement.now
        → IfOk result (λ ready. IsOfPlan db n statement.now ready.plan ready.asks.items) }
    ensures asks { IfOk result (λ ready. ready.asks.items ≡ map (ask_from (catalogue_of catalog.now)) ready.plan.fetches) }
    ensures some { IfOk result (λ ready. nat_eq (length ready.asks.items) 0 ≡ false) }
{
    let ready = ready_for(alloc, catalog, statement)?;
    // Each relation has a leaf, so nothing is turned away here.
    if ready.asks.is_empty() {
        return Err(Memory);
    }
    Ok(ready)
}

/// The statement of a transaction that has just begun reads. No site has given a ticket yet, so nothing but Opens goes out,
/// and no limit is passed.
fn start(
    alloc: Global,
    catalog: &Catalog,
    txn: Txn,
    undecided: &mut Undecided,
    statement: Statement,
    version: u64,
) -> Result<Progress, Memory>
    requires { IsStatementOf (schemas_of (catalogue_of catalog.now)) statement }
    ensures does { (db : Database) → IsOfCatalogue db → InForce db version catalog.now → AreParticipants db undecided.old.participants → undecided.old.stage ≡ stages.Idle → IsStated db version statement
        → IfOk result (λ step. Does db version txn undecided.new step (λ choice. on_request (txn_name txn) choice (State (version, statement)) (Known (undecided_of db undecided.old)))) }
    ensures short { AreShort undecided.old.participants → OnOk result (AreShort undecided.new.participants) }
    ensures moves { OnOk result (undecided.new.moves ≡ undecided.old.moves) }
    ensures quiet { IfOk result (λ step. step.replies.items ≡ []) }
{
    leaf_names_are_unique();
    let ready = ready_to_read(alloc, catalog, &statement)?;
    let Ready { plan, asks } = ready;
    match reads(alloc, txn, undecided, statement, plan, asks, version) {
        Ok(step) => Ok(step),
        Err(_) => Err(Memory),
    }
}

/// A relation gets the split that the next catalogue has for it: a transaction begins and states that. Nothing else may stand
/// then. After a refusal nothing has changed.
pub(crate) fn call_refragment(
    volatile: &mut Volatile,
    catalog: &Catalog,
    next: Option<&Catalog>,
    refragment: &Refragment,
) -> Result<Out, Refusal>
    requires { IsStatementOf (schemas_of (catalogue_of catalog.now)) (statements.Refragment refragment.now) }
    ensures ok { (db : Database) (kept : DeskContent) → IsOfCatalogue db → InForce db volatile.old.version catalog.now → IsNextOf db volatile.old.version (option_copied next.entry) → Fits db kept (volatile_of volatile.old)
        → IfOk result (λ out. Refragments db (volatile_of volatile.old) kept (volatile_of volatile.new) refragment.now out.letters out.replies) }
    ensures steps { StepsInMemory volatile.old volatile.new result }
    ensures next { OnOk result (option_copied next.entry ≢ None) }
    ensures own { IfErr result (λ told. (told ≡ refusals.Memory) ⊎ (told ≡ refusals.Full) ⊎ (told ≡ refusals.NotAlone) ⊎ (told ≡ refusals.NoNext)) }
    ensures full { (db : Database) (kept : DeskContent) → Fits db kept (volatile_of volatile.old) → result ≡ Err refusals.Full
        → is_desk_within (began_as true (desk_of db (volatile_of volatile.old))) ≡ false }
    ensures alone { result ≡ Err refusals.NotAlone → (volatile_of volatile.old).txns ≢ [] }
    ensures none { result ≡ Err refusals.NoNext → IsNoNext (catalogue_of catalog.now) (option_copied next.entry) refragment.now.relation.name }
{
    let alloc = volatile.alloc;
    let txn = volatile.next()?;
    if !volatile.is_alone() {
        return Err(Refusal::NotAlone);
    }
    if !is_next(catalog, next, &refragment.relation.name) {
        return Err(Refusal::NoNext);
    }
    let room = room(alloc)?;
    let participants = nowhere_yet(alloc, catalog.sites())?;
    let copy = refragment.copy()?;
    let mut undecided = begun(participants, true);
    let statement = Statement::Refragment(copy);
    let step = start(
        alloc,
        catalog,
        txn,
        &mut undecided,
        statement,
        volatile.version,
    )?;
    volatile.begin(txn, TxnState::Undecided(undecided))?;
    Ok(out_of_begin(room, txn, step.letters))
}
