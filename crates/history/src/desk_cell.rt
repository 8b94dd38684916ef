//! The coordinator with its history: each call of it adds one entry.

ghost use Rattle.std.specs.Borrow.{follows_so, sem};
ghost use mathlib.Core.Option.{none};
ghost use Rattle.std.specs.Prelude.{◌≡◌, ◌≢◌, ⊤, ℕ, List, [], IfErr, IfOk, None, OnErr, OnOk, map};
ghost use Rattle.catalog.specs.Relation.{catalogue_of};
ghost use Rattle.store.specs.Frame.{LeavesStore};
ghost use Rattle.desk.specs.Database.{Database};
ghost use Rattle.desk.specs.OfCatalogue.{InForce, IsNextOf, IsOfCatalogue, first_in};
ghost use Rattle.desk.specs.Recovery.{Rises};
ghost use Rattle.desk.specs.Request.{IsOver};
ghost use Rattle.desk.specs.State.{volatile_of};
ghost use Rattle.world.specs.declared.event.Call.TheVariants as calls;
ghost use Rattle.world.specs.EventApplied.{told_by_desk};
ghost use Rattle.history.specs.declared.entry.Input.TheVariants as inputs;
ghost use Rattle.history.specs.Called.{DeskCalled};
ghost use Rattle.history.specs.Catalogues.{catalogs_after, catalogues_of};
ghost use Rattle.history.specs.DeskHistory.{DeskAccepts, DeskHolds, DeskMoves, IsFit, desk_from};
ghost use Rattle.history.specs.Entries.{accepted};
ghost use Rattle.history.specs.contracts.desk_cell.DeskCell.{the_row};

use crate::entry::{Entry, Input};
use catalog::catalogue::Catalog;
use desk::desk::Desk;
use desk::refusal::Refusal;
use desk::reply::Out;
use std::alloc::Global;
use std::marker::Model;
use std::sync::atomic::AtomicU64;
use store::commit::DeskKept;
use store::desk_store::DeskStore;
use store::letter::Letter;
use store::name::Txn;
use terms::copy::TryCopy;
use terms::memory::Memory;
use terms::text::Text;
use world::event::Call;
use world::fault::Fault;

/// The coordinator, its catalogues and what its store kept when the cell was made, and an entry for each call since, oldest first.
#[derive(Drop)]
pub struct DeskCell<D: DeskStore> {
    alloc: Global,
    catalogs: Vec<Catalog>,
    opening: DeskKept,
    history: Vec<Entry>,
    desk: Desk<D>,
}

impl<D: DeskStore> Model for DeskCell<D> {
    ghost use Rattle.std.specs.Coded.{codes};
    ghost use Rattle.history.specs.DeskHistory.{DeskHistory};
    ghost use Rattle.catalog.specs.contracts.split.Split as split;
    ghost use Rattle.store.specs.contracts.commit.DeskKept as kept_row;
    ghost use Rattle.history.specs.Codes.{desk_code};

    ghost Value = { DeskHistory D };

    ghost coded = { Prim.hlevel (codes, split.the_row.coded, kept_row.the_row.coded, desk_code) };

    ghost use Rattle.history.specs.DeskHistory.{DeskHolds};

    ghost view = { λ c. record { catalogs = c.catalogs.items; opening = c.opening; entries = c.history.items; desk = c.desk } };

    ghost invariant = { λ c. DeskHolds D.is_clean D.is_sound D.kept c.catalogs.items c.opening c.history.items c.desk };
}

/// A coordinator of which no cell was made, and why.
#[derive(Drop)]
pub struct Unrecorded<D: DeskStore> {
    pub refusal: Refusal,
    pub desk: Desk<D>,
}

/// What a cell of the coordinator is made of.
#[derive(Drop)]
pub struct DeskParts<D: DeskStore> {
    pub catalogs: Vec<Catalog>,
    pub opening: DeskKept,
    pub entries: Vec<Entry>,
    pub desk: Desk<D>,
}

impl<D: DeskStore> DeskCell<D> {
    /// The cell of a coordinator that has just started: no call has been made. On a refusal the coordinator is as it was.
    pub fn new(alloc: Global, desk: Desk<D>) -> Result<DeskCell<D>, Unrecorded<D>>
        requires { (db : Database) → IsOver db desk.catalog.0 → D.is_clean desk.store → Rises db (D.kept desk.store) (volatile_of desk.volatile) }
        ensures entries { IfOk result (λ cell. cell.entries ≡ []) }
        ensures catalogs { IfOk result (λ cell. map catalogue_of cell.catalogs ≡ catalogues_of desk) }
        ensures leaves_store { IfOk result (λ cell. LeavesStore D.is_clean D.is_sound D.refused desk.store cell.desk.store) }
        ensures memory { IfOk result (λ cell. cell.desk.volatile ≡ desk.volatile) }
        ensures catalog { IfOk result (λ cell. cell.desk.catalog ≡ desk.catalog) }
        ensures later { IfOk result (λ cell. cell.desk.later.items ≡ desk.later.items) }
        ensures leaves_still { IfErr result (λ unrecorded. LeavesStore D.is_clean D.is_sound D.refused desk.store unrecorded.desk.store) }
        ensures catalog_still { IfErr result (λ unrecorded. unrecorded.desk.catalog ≡ desk.catalog) }
        ensures later_still { IfErr result (λ unrecorded. unrecorded.desk.later.items ≡ desk.later.items) }
        ensures same { IfErr result (λ unrecorded. D.is_clean unrecorded.desk.store → D.is_sound desk.store → desk_from D.kept unrecorded.desk ≡ desk_from D.kept desk) }
    {
        let mut desk = desk;
        let Ok(catalogs) = catalogs_of(alloc, &desk) else {
            let refusal = Refusal::Memory;
            return Err(Unrecorded { refusal, desk });
        };
        match desk.kept() {
            Ok(opening) => Ok(DeskCell {
                alloc,
                catalogs,
                opening,
                history: Vec::new(alloc),
                desk,
            }),
            Err(refusal) => Err(Unrecorded { refusal, desk }),
        }
    }

    /// A transaction begins. Answers the call's entry; where memory runs out there is none, and the coordinator is as it was.
    pub fn begin(&mut self, counter: &AtomicU64) -> Result<&Entry, Memory>
        ensures* after { sem 𝓛 (follows_so (the_row D.row D.DeskStore) (the_row D.row D.DeskStore) self.entry.ghost_name none (λ _ _. ⊤)
            (DeskCalled D.is_clean D.kept (inputs.Call calls.Begin) result self.old)) }
    {
        self.record_call(Input::Call(Call::Begin), counter)
    }

    /// A transaction's client states something, by its text. Answers the call's entry; where memory runs out there is none, and the coordinator is as it was.
    pub fn statement(&mut self, txn: Txn, text: &str, counter: &AtomicU64) -> Result<&Entry, Memory>
        ensures* after { sem 𝓛 (follows_so (the_row D.row D.DeskStore) (the_row D.row D.DeskStore) self.entry.ghost_name none (λ _ _. ⊤)
            (DeskCalled D.is_clean D.kept (inputs.Call (calls.State txn text.now)) result self.old)) }
    {
        let text = Text::copy_of(self.alloc, text)?;
        self.record_call(Input::Call(Call::State(txn, text)), counter)
    }

    /// A relation gets another split, by the text of the REFRAGMENT: a transaction of its own begins and states it. Answers the
    /// call's entry; where memory runs out there is none, and the coordinator is as it was.
    pub fn refragment(&mut self, text: &str, counter: &AtomicU64) -> Result<&Entry, Memory>
        ensures* after { sem 𝓛 (follows_so (the_row D.row D.DeskStore) (the_row D.row D.DeskStore) self.entry.ghost_name none (λ _ _. ⊤)
            (DeskCalled D.is_clean D.kept (inputs.Call (calls.Refragment text.now)) result self.old)) }
    {
        let text = Text::copy_of(self.alloc, text)?;
        self.record_call(Input::Call(Call::Refragment(text)), counter)
    }

    /// The commit of a transaction is asked for. Answers the call's entry; where memory runs out there is none, and the coordinator is as it was.
    pub fn commit(&mut self, txn: Txn, counter: &AtomicU64) -> Result<&Entry, Memory>
        ensures* after { sem 𝓛 (follows_so (the_row D.row D.DeskStore) (the_row D.row D.DeskStore) self.entry.ghost_name none (λ _ _. ⊤)
            (DeskCalled D.is_clean D.kept (inputs.Call (calls.Commit txn)) result self.old)) }
    {
        self.record_call(Input::Call(Call::Commit(txn)), counter)
    }

    /// A transaction is rolled back. Answers the call's entry; where memory runs out there is none, and the coordinator is as it was.
    pub fn rollback(&mut self, txn: Txn, counter: &AtomicU64) -> Result<&Entry, Memory>
        ensures* after { sem 𝓛 (follows_so (the_row D.row D.DeskStore) (the_row D.row D.DeskStore) self.entry.ghost_name none (λ _ _. ⊤)
            (DeskCalled D.is_clean D.kept (inputs.Call (calls.Rollback txn)) result self.old)) }
    {
        self.record_call(Input::Call(Call::Rollback(txn)), counter)
    }

    /// A transaction is given up. Answers the call's entry; where memory runs out there is none, and the coordinator is as it was.
    pub fn give_up(&mut self, txn: Txn, counter: &AtomicU64) -> Result<&Entry, Memory>
        ensures* after { sem 𝓛 (follows_so (the_row D.row D.DeskStore) (the_row D.row D.DeskStore) self.entry.ghost_name none (λ _ _. ⊤)
            (DeskCalled D.is_clean D.kept (inputs.Call (calls.GiveUp txn)) result self.old)) }
    {
        self.record_call(Input::Call(Call::GiveUp(txn)), counter)
    }

    /// The coordinator takes a letter. Answers the call's entry; where memory runs out there is none, and the coordinator is as it was.
    pub fn take(&mut self, letter: &Letter, counter: &AtomicU64) -> Result<&Entry, Memory>
        ensures* after { sem 𝓛 (follows_so (the_row D.row D.DeskStore) (the_row D.row D.DeskStore) self.entry.ghost_name none (λ _ _. ⊤)
            (DeskCalled D.is_clean D.kept (inputs.Take letter.now) result self.old)) }
    {
        let letter = letter.copy()?;
        self.record_call(Input::Take(letter), counter)
    }

    /// The coordinator restarts. Answers the call's entry; where memory runs out there is none, and the coordinator is as it was.
    pub fn restart(&mut self, counter: &AtomicU64) -> Result<&Entry, Memory>
        ensures* after { sem 𝓛 (follows_so (the_row D.row D.DeskStore) (the_row D.row D.DeskStore) self.entry.ghost_name none (λ _ _. ⊤)
            (DeskCalled D.is_clean D.kept inputs.Restart result self.old)) }
    {
        self.record_call(Input::Restart, counter)
    }

    /// The coordinator is called for this.
    fn record_call(&mut self, input: Input, counter: &AtomicU64) -> Result<&Entry, Memory>
        ensures* after { sem 𝓛 (follows_so (the_row D.row D.DeskStore) (the_row D.row D.DeskStore) self.entry.ghost_name none (λ _ _. ⊤)
            (DeskCalled D.is_clean D.kept input result self.old)) }
    {
        let at = self.history.len();
        self.history.try_reserve(1)?;
        let entry = called(self.alloc, &mut self.desk, input, counter)?;
        self.history.push_reserved(entry);
        Ok(&self.history[at])
    }

    /// The catalogue in force.
    pub fn catalog(&self) -> &Catalog
        ensures { result.now ≡ self.now.desk.catalog }
    {
        self.desk.catalog()
    }

    /// The catalogues when the cell was made: the one in force, and those that come after it.
    pub fn catalogs(&self) -> &[Catalog]
        ensures { result.now ≡ self.now.catalogs }
    {
        self.catalogs.as_slice()
    }

    /// The entries, oldest first.
    pub fn entries(&self) -> &[Entry]
        ensures { result.now ≡ self.now.entries }
    {
        self.history.as_slice()
    }

    /// What the coordinator's store kept when the cell was made.
    pub fn opening(&self) -> &DeskKept
        ensures { result.now ≡ self.now.opening }
    {
        &self.opening
    }

    /// The history replays, from the opening to what the coordinator is now.
    pub fn replays(&self)
        ensures { DeskHolds D.is_clean D.is_sound D.kept self.now.catalogs self.now.opening self.now.entries self.now.desk }
    {
        let _ = &self.opening;
    }

    /// The parts of the cell. The history replays.
    pub fn into_parts(self) -> DeskParts<D>
        ensures catalogs { result.catalogs.items ≡ self.catalogs }
        ensures opening { result.opening ≡ self.opening }
        ensures entries { result.entries.items ≡ self.entries }
        ensures desk { result.desk ≡ self.desk }
        ensures replays { DeskHolds D.is_clean D.is_sound D.kept result.catalogs.items result.opening result.entries.items result.desk }
    {
        let DeskCell {
            alloc: _,
            catalogs,
            opening,
            history,
            desk,
        } = self;
        DeskParts {
            catalogs,
            opening,
            entries: history,
            desk,
        }
    }
}

/// Copies of a coordinator's catalogues: of the one in force, and of those that come after it.
fn catalogs_of<D: DeskStore>(alloc: Global, desk: &Desk<D>) -> Result<Vec<Catalog>, Memory>
    ensures { IfOk result (λ catalogs. map catalogue_of catalogs.items ≡ catalogues_of desk.now) }
{
    let mut catalogs = Vec::new(alloc);
    catalogs.push(desk.catalog().copy()?)?;
    for catalog in desk.later() {
        catalogs.push(catalog.copy()?)?;
    }
    Ok(catalogs)
}

/// The coordinator is called for this: the entry of the call. Where memory runs out there is none, and the coordinator is as it was.
fn called<D: DeskStore>(
    alloc: Global,
    desk: &mut Desk<D>,
    input: Input,
    counter: &AtomicU64,
) -> Result<Entry, Memory>
    ensures store { LeavesStore D.is_clean D.is_sound D.refused desk.old.store desk.new.store }
    ensures catalogs { (desk.new.catalog, desk.new.later.items) ≡ catalogs_after input desk.old desk.new.volatile.version }
    ensures still { OnErr result ((desk.new.catalog ≡ desk.old.catalog) × (desk.new.later.items ≡ desk.old.later.items)) }
    ensures input { IfOk result (λ entry. entry.input ≡ input) }
    ensures next { (text : List ℕ) → IfOk result (λ entry. entry.input ≡ inputs.Call (calls.Refragment text) → entry.fault ≡ None → desk.old.later.items ≢ []) }
    ensures moves { (db : Database) → IsOfCatalogue db → InForce db desk.old.volatile.version desk.old.catalog → IsNextOf db desk.old.volatile.version (first_in desk.old.later.items) → D.is_clean desk.new.store → D.is_sound desk.old.store → IsFit db (desk_from D.kept desk.old)
        → IfOk result (λ entry. DeskMoves db (desk_from D.kept desk.old) entry (desk_from D.kept desk.new)) }
    ensures err { D.is_clean desk.new.store → D.is_sound desk.old.store → OnErr result (desk_from D.kept desk.new ≡ desk_from D.kept desk.old) }
{
    match act(desk, &input) {
        Ok(out) => Ok(Entry::accepted(counter, input, out)),
        Err(Fault::Desk(Refusal::Memory)) => Err(Memory),
        Err(fault) => Ok(Entry::refused(alloc, counter, input, fault)),
    }
}

/// The coordinator does what it is called for. For visits and inquiries it has no place.
fn act<D: DeskStore>(desk: &mut Desk<D>, input: &Input) -> Result<Out, Fault>
    ensures store { LeavesStore D.is_clean D.is_sound D.refused desk.old.store desk.new.store }
    ensures catalogs { (desk.new.catalog, desk.new.later.items) ≡ catalogs_after input.now desk.old desk.new.volatile.version }
    ensures still { OnErr result ((desk.new.catalog ≡ desk.old.catalog) × (desk.new.later.items ≡ desk.old.later.items)) }
    ensures next { (text : List ℕ) → input.now ≡ inputs.Call (calls.Refragment text) → OnOk result (desk.old.later.items ≢ []) }
    ensures ok { (db : Database) → IsOfCatalogue db → InForce db desk.old.volatile.version desk.old.catalog → IsNextOf db desk.old.volatile.version (first_in desk.old.later.items) → D.is_clean desk.new.store → D.is_sound desk.old.store → IsFit db (desk_from D.kept desk.old)
        → IfOk result (λ out. (number : ℕ) → DeskAccepts db (desk_from D.kept desk.old) (accepted number input.now out) (desk_from D.kept desk.new)) }
    ensures err { D.is_clean desk.new.store → D.is_sound desk.old.store → OnErr result (desk_from D.kept desk.new ≡ desk_from D.kept desk.old) }
{
    match input {
        Input::Call(call) => by_desk(ask(desk, call)),
        Input::Take(letter) => by_desk(desk.take(letter)),
        Input::GiveUp(_) | Input::Inquire => Err(Fault::Unsent),
        Input::Restart => by_desk(desk.restart()),
    }
}

/// The coordinator does what a client asks for.
fn ask<D: DeskStore>(desk: &mut Desk<D>, call: &Call) -> Result<Out, Refusal>
    ensures store { desk.new.store ≡ desk.old.store }
    ensures catalog { desk.new.catalog ≡ desk.old.catalog }
    ensures later { desk.new.later.items ≡ desk.old.later.items }
    ensures next { (text : List ℕ) → call.now ≡ calls.Refragment text → OnOk result (desk.old.later.items ≢ []) }
    ensures ok { (db : Database) → IsOfCatalogue db → InForce db desk.old.volatile.version desk.old.catalog → IsNextOf db desk.old.volatile.version (first_in desk.old.later.items) → IsFit db (desk_from D.kept desk.old)
        → IfOk result (λ out. (number : ℕ) → DeskAccepts db (desk_from D.kept desk.old) (accepted number (inputs.Call call.now) out) (desk_from D.kept desk.new)) }
    ensures err { OnErr result (volatile_of desk.new.volatile ≡ volatile_of desk.old.volatile) }
{
    match call {
        Call::Begin => desk.begin(),
        Call::State(txn, text) => desk.statement(*txn, text.as_str()),
        Call::Commit(txn) => desk.commit(*txn),
        Call::Rollback(txn) => desk.rollback(*txn),
        Call::GiveUp(txn) => desk.give_up(*txn),
        Call::Refragment(text) => desk.refragment(text.as_str()),
    }
}

/// A refusal of the coordinator as a fault.
fn by_desk(done: Result<Out, Refusal>) -> Result<Out, Fault>
    ensures { result ≡ told_by_desk done }
{
    match done {
        Ok(out) => Ok(out),
        Err(refusal) => Err(Fault::Desk(refusal)),
    }
}
