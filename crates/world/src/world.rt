//! Worlds: the machines of a database, and every event that has happened with the letters that it put out.

ghost use Rattle.std.specs.Borrow.{follows_so, sem};
ghost use mathlib.Core.Option.{none};
ghost use Rattle.std.specs.Prelude.{⊤, ◌≡◌, ◌≢◌, ◌⊎◌, ◌++◌, ◌∷◌, [], ℕ, Bool, true, false, List, Err, OnOk, OnErr, IfOk, IfErr, length, map, slice_get, take, ◌<◌};
ghost use Rattle.std.specs.Option.{option_copied, option_map};
ghost use Rattle.std.specs.Result.{result_copied};
ghost use Rattle.meaning.specs.Whole.{FitsSchema, Relations};
ghost use Rattle.catalog.specs.Catalogue.{Catalogue};
ghost use Rattle.catalog.specs.FragmentLeaf.{schemas_of};
ghost use Rattle.catalog.specs.Relation.{catalogue_of};
ghost use Rattle.protocol.specs.Desk.{Deed};
ghost use Rattle.protocol.specs.Letters.{txn_name};
ghost use Rattle.protocol.specs.Serial.{committed};
ghost use Rattle.store.specs.PlainDesk.{kept_of as desk_kept};
ghost use Rattle.store.specs.PlainSite.{IsSound, kept_of};
ghost use Rattle.desk.specs.Database.{Database, language, sent};
ghost use Rattle.desk.specs.CatalogueDatabase.{database, databases};
ghost use Rattle.desk.specs.declared.refusal.Refusal.TheVariants as refusals;
ghost use Rattle.world.specs.declared.event.Entry.{Entry as EntryNow};
ghost use Rattle.world.specs.declared.event.Event.TheVariants as events;
ghost use Rattle.world.specs.declared.fault.Fault.TheVariants as faults;
ghost use Rattle.world.specs.EventApplied.{may_call};
ghost use Rattle.world.specs.Events.{is_unsent};
ghost use Rattle.world.specs.Counted.{HaveRefused, counts};
ghost use Rattle.world.specs.Fault.{FailsFor, is_memory};
ghost use Rattle.world.specs.Following.{Follows, FollowsAtLeast, Happens};
ghost use Rattle.world.specs.Frame.{CallsNoStore, LeavesDatabase, LeavesMachines, StaysAsItIs, StaysInForce, StaysOnErr, StaysOrFollows};
ghost use Rattle.world.specs.Listed.{FitsList, IsListed, StandsIn};
ghost use Rattle.world.specs.Chain.{IsLast, StandsAt, sites_of};
ghost use Rattle.world.specs.Contents.{OfGiven, OfStores, counted, held};
ghost use Rattle.world.specs.Committed.{AnswerInTurn, committed_of};
ghost use Rattle.world.specs.Posted.{letters_in};
ghost use Rattle.world.specs.Refused.{IsRefusedFor};
ghost use Rattle.world.specs.Runs.{GoesOn, IsRun, IsSerialRun, IsSpared, RunsOn};
ghost use Rattle.world.specs.Steps.{Steps};
ghost use Rattle.world.specs.contracts.world.World.{the_row};
ghost use Rattle.world.specs.Settled.{AreThoseOf, ShowsSerial, parts_kept, rows_shown};
ghost use Rattle.world.specs.Recovery.{StopsOpening};
ghost use Rattle.world.specs.Replies.{committed_in};
ghost use Rattle.world.specs.Start.{AreNew};

use crate::committed::{Committed, committed_in};
use crate::event::{Entry, Event};
use crate::fault::Fault;
use crate::laws::{database_is_of_catalogue, runs_are_serial};
use crate::log::Log;
use crate::machines::{Machines, apply_event};
use crate::rebuild::{kept_parts, rebuilt};
use crate::start::{start, start_on};
use catalog::catalogue::Catalog;
use catalog::chain::Chain;
use desk::refusal::Refusal;
use meaning::whole::Whole;
use std::alloc::Global;
use store::desk_store::DeskStore;
use store::letter::Letter;
use store::plain_desk::PlainDesk;
use store::plain_site::PlainSite;
use store::site_store::SiteStore;
use terms::copy::TryCopy;
use terms::leaf::Leaf;
use terms::memory::Memory;
use terms::part::Part;
use terms::row::Row;
use terms::text::Text;

/// A coordinator, its sites, and what has happened, oldest first.
#[derive(Drop)]
pub struct World<D: DeskStore, S: SiteStore> {
    machines: Machines<D, S>,
    entries: Log,
    /// Why the last event that was refused was so; `Unsent` until one is.
    refusal: Fault,
}

/// A world over lists is opened, under the first catalogue of a chain: the fragments rebuild these whole relations, and nothing
/// has happened. Only want of memory is a fault. Where none comes later, the list may be the one in force alone, under every number
/// (`alone`).
pub fn open(
    alloc: Global,
    chain: &Chain,
    whole: &Whole,
) -> Result<World<PlainDesk, PlainSite>, Fault>
    ensures alone { (catalogue : Catalogue) → FitsSchema (schemas_of catalogue) whole.now
        → IfOk result (λ world. IsLast catalogue world.machines.desk → IsRun (database catalogue) whole.now (held desk_kept kept_of world.machines) [] [] × StandsIn (database catalogue) world.machines.desk) }
    ensures ok { (first : Catalogue) (rest : List Catalogue) → map catalogue_of chain.now ≡ first ∷ rest → FitsSchema (schemas_of first) whole.now
        → IfOk result (λ world. IsRun (databases first rest) whole.now (held desk_kept kept_of world.machines) [] [] × StandsIn (databases first rest) world.machines.desk) }
    ensures none { IfOk result (λ world. world.entries.items ≡ []) }
    ensures catalogs { IfOk result (λ world. StandsAt 1 (map catalogue_of chain.now) world.machines.desk) }
    ensures single { (catalogue : Catalogue) → map catalogue_of chain.now ≡ catalogue ∷ [] → IfOk result (λ world. IsLast catalogue world.machines.desk) }
    ensures sound { IfOk result (λ world. OfStores (λ _. Unit {0}) IsSound world.machines) }
    ensures err { IfErr result (λ fault. is_memory fault ≡ true) }
{
    let machines = start(alloc, chain, whole)?;
    database_is_of_catalogue(machines.desk.catalog());
    Ok(World {
        machines,
        entries: Log::new(alloc),
        refusal: Fault::Unsent,
    })
}

/// A world over new stores is opened, those of its sites in the order of the chain: the fragments rebuild these whole
/// relations, and nothing has happened. In force is the catalogue whose number the coordinator's store keeps. On a fault the
/// stores are let go.
pub fn open_on<D: DeskStore + Drop, S: SiteStore + Drop>(
    alloc: Global,
    chain: &Chain,
    whole: &Whole,
    sites: Vec<S>,
    desk: D,
) -> Result<World<D, S>, Fault>
    requires { length sites.items ≡ length (sites_of chain.now) }
    ensures alone { (catalogue : Catalogue) → IfOk result (λ world. IsLast catalogue world.machines.desk → OfStores D.is_clean S.is_clean world.machines → AreNew D.is_sound D.kept S.is_sound S.kept catalogue desk sites.items → FitsSchema (schemas_of catalogue) whole.now
        → IsRun (database catalogue) whole.now (held D.kept S.kept world.machines) [] [] × StandsIn (database catalogue) world.machines.desk) }
    ensures ok { (first : Catalogue) (rest : List Catalogue) → map catalogue_of chain.now ≡ first ∷ rest → FitsSchema (schemas_of first) whole.now → (D.kept desk).version ≡ 1
        → IfOk result (λ world. OfStores D.is_clean S.is_clean world.machines → AreNew D.is_sound D.kept S.is_sound S.kept first desk sites.items → IsRun (databases first rest) whole.now (held D.kept S.kept world.machines) [] [] × StandsIn (databases first rest) world.machines.desk) }
    ensures none { IfOk result (λ world. world.entries.items ≡ []) }
    ensures clean { IfOk result (λ world. OfStores D.is_clean S.is_clean world.machines → OfGiven D.is_clean S.is_clean desk sites.items) }
    ensures sound { IfOk result (λ world. OfStores D.is_clean S.is_clean world.machines → OfStores D.is_sound S.is_sound world.machines) }
    ensures catalogs { IfOk result (λ world. StandsAt world.machines.desk.volatile.version (map catalogue_of chain.now) world.machines.desk) }
    ensures single { (catalogue : Catalogue) → map catalogue_of chain.now ≡ catalogue ∷ [] → IfOk result (λ world. IsLast catalogue world.machines.desk) }
    ensures own { IfErr result StopsOpening }
{
    let machines = start_on(alloc, chain, whole, sites, desk)?;
    database_is_of_catalogue(machines.desk.catalog());
    Ok(World {
        machines,
        entries: Log::new(alloc),
        refusal: Fault::Unsent,
    })
}

impl<D: DeskStore, S: SiteStore> World<D, S> {
    /// An event happens, where it is accepted. Answers its entry, the last one from now on, with the letters that were
    /// put out and what clients heard. A committed transaction stays applied whole and once. On a fault nothing has
    /// changed: `Unsent` where no letter has the number, or no site the name; else why the machine refused, or want of
    /// memory.
    pub fn step(&mut self, event: Event) -> Result<&Entry, &Fault>
        ensures* steps { sem 𝓛 (follows_so (the_row D.row S.row) (the_row D.row S.row) self.entry.ghost_name none (λ _ _. ⊤)
            (λ new. Steps (OfStores D.is_clean S.is_clean) (OfStores D.is_sound S.is_sound) (held D.kept S.kept) (counted D.kept S.kept D.refused S.refused) event (result_copied result) self.old new)) }
        ensures event { IfOk result (λ entry. entry.now.event ≡ event) }
    {
        match self.happens(event) {
            Ok(()) => Ok(self.entries.newest()),
            Err(fault) => {
                self.refusal = fault;
                Err(&self.refusal)
            }
        }
    }

    /// An event happens, and has an entry, the last one from now on.
    fn happens(&mut self, event: Event) -> Result<(), Fault>
        ensures leaves { LeavesDatabase D.is_clean S.is_clean D.is_sound S.is_sound D.refused S.refused self.old.machines self.new.machines }
        ensures goes_on { (db : Database) (whole : Relations) (past : List (Deed (language db))) → IsListed db → StandsIn db self.old.machines.desk → OfStores D.is_clean S.is_clean self.new.machines → OfStores D.is_sound S.is_sound self.old.machines
            → IsRun db whole (held D.kept S.kept self.old.machines) self.old.entries.items past → OnOk result (GoesOn db whole (held D.kept S.kept self.old.machines) (held D.kept S.kept self.new.machines) self.old.entries.items self.new.entries.items past × StandsIn db self.new.machines.desk) }
        ensures follows { StaysOrFollows self.old.machines self.new.machines }
        ensures stays { OnErr result (StaysInForce self.old.machines self.new.machines) }
        ensures spared { (db : Database) (past : List (Deed (language db))) → IsListed db → StandsIn db self.old.machines.desk → OfStores D.is_clean S.is_clean self.new.machines → OfStores D.is_sound S.is_sound self.old.machines
            → FitsList db (held D.kept S.kept self.old.machines) → OnOk result ((number : ℕ) (whether : Bool) → event ≡ events.Deliver number whether → IsSpared (HaveRefused (counts D.refused S.refused self.old.machines) (counts D.refused S.refused self.new.machines)) db (held D.kept S.kept self.old.machines) (held D.kept S.kept self.new.machines) self.old.entries.items self.new.entries.items past number whether) }
        ensures entry { OnOk result ((entry : EntryNow) × ((entry.event ≡ event) × (self.new.entries.items ≡ self.old.entries.items ++ entry ∷ []))) }
        ensures uncalled { may_call event ≡ false → CallsNoStore self.old.machines self.new.machines }
        ensures unsent { result ≡ Err faults.Unsent → is_unsent self.old.machines.desk.catalog.0 self.old.entries.items event ≡ true }
        ensures nowhere { is_unsent self.old.machines.desk.catalog.0 self.old.entries.items event ≡ true → (result ≡ Err faults.Unsent) ⊎ (result ≡ Err (faults.Desk refusals.Memory)) }
        ensures refused { (db : Database) → IsListed db → StandsIn db self.old.machines.desk → FitsList db (held D.kept S.kept self.old.machines)
            → IfErr result (IsRefusedFor (OfStores D.is_clean S.is_clean self.new.machines × OfStores D.is_sound S.is_sound self.old.machines) db (counted D.kept S.kept D.refused S.refused self.old.machines) (counted D.kept S.kept D.refused S.refused self.new.machines) self.old.entries.items event) }
        ensures err { StaysOnErr (OfStores D.is_clean S.is_clean) (OfStores D.is_sound S.is_sound) (held D.kept S.kept) self.old.machines self.new.machines result }
        ensures same { OnErr result (self.new.entries.items ≡ self.old.entries.items) }
    {
        self.entries.make_room()?;
        match apply_event(&mut self.machines, &self.entries, &event) {
            Ok(out) => {
                self.entries.push(Entry { event, out });
                Ok(())
            }
            Err(fault) => Err(fault),
        }
    }

    /// Events apply_event one after another; one that is refused is passed over. Want of memory ends it: the answer is
    /// then how many events came before.
    pub fn run(&mut self, events: &[Event]) -> Result<(), usize>
        ensures leaves { LeavesDatabase D.is_clean S.is_clean D.is_sound S.is_sound D.refused S.refused self.old.machines self.new.machines }
        ensures runs { (db : Database) (whole : Relations) (past : List (Deed (language db))) → IsListed db → StandsIn db self.old.machines.desk → OfStores D.is_clean S.is_clean self.new.machines → OfStores D.is_sound S.is_sound self.old.machines
            → IsRun db whole (held D.kept S.kept self.old.machines) self.old.entries.items past → RunsOn db whole (held D.kept S.kept self.new.machines) self.new.entries.items past × StandsIn db self.new.machines.desk }
        ensures all { (db : Database) (whole : Relations) (past : List (Deed (language db))) → IsListed db → StandsIn db self.old.machines.desk → OfStores D.is_clean S.is_clean self.new.machines → OfStores D.is_sound S.is_sound self.old.machines
            → IsRun db whole (held D.kept S.kept self.old.machines) self.old.entries.items past → OnOk result (Follows db events.now (counted D.kept S.kept D.refused S.refused self.old.machines) self.old.entries.items (counted D.kept S.kept D.refused S.refused self.new.machines) self.new.entries.items) }
        ensures some { (db : Database) (whole : Relations) (past : List (Deed (language db))) → IsListed db → StandsIn db self.old.machines.desk → OfStores D.is_clean S.is_clean self.new.machines → OfStores D.is_sound S.is_sound self.old.machines
            → IsRun db whole (held D.kept S.kept self.old.machines) self.old.entries.items past → IfErr result (λ done. FollowsAtLeast db (take done events.now) (counted D.kept S.kept D.refused S.refused self.old.machines) self.old.entries.items (counted D.kept S.kept D.refused S.refused self.new.machines) self.new.entries.items) }
        ensures few { IfErr result (λ done. done < length events.now) }
    {
        let mut done = 0;
        for event in events {
            match self.pass(event) {
                Ok(()) => done += 1,
                Err(_) => return Err(done),
            }
        }
        Ok(())
    }

    /// An event happens, or is refused. Without memory nothing has changed.
    fn pass(&mut self, event: &Event) -> Result<(), Memory>
        ensures leaves { LeavesDatabase D.is_clean S.is_clean D.is_sound S.is_sound D.refused S.refused self.old.machines self.new.machines }
        ensures runs { (db : Database) (whole : Relations) (past : List (Deed (language db))) → IsListed db → StandsIn db self.old.machines.desk → OfStores D.is_clean S.is_clean self.new.machines → OfStores D.is_sound S.is_sound self.old.machines
            → IsRun db whole (held D.kept S.kept self.old.machines) self.old.entries.items past → OnOk result (RunsOn db whole (held D.kept S.kept self.new.machines) self.new.entries.items past × StandsIn db self.new.machines.desk) }
        ensures stays { OnErr result (StaysInForce self.old.machines self.new.machines) }
        ensures happens { (db : Database) → IsListed db → StandsIn db self.old.machines.desk → OfStores D.is_clean S.is_clean self.new.machines → OfStores D.is_sound S.is_sound self.old.machines → FitsList db (held D.kept S.kept self.old.machines)
            → OnOk result (Happens db event.now (counted D.kept S.kept D.refused S.refused self.old.machines) self.old.entries.items (counted D.kept S.kept D.refused S.refused self.new.machines) self.new.entries.items) }
        ensures err { StaysOnErr (OfStores D.is_clean S.is_clean) (OfStores D.is_sound S.is_sound) (held D.kept S.kept) self.old.machines self.new.machines result }
        ensures same { OnErr result (self.new.entries.items ≡ self.old.entries.items) }
    {
        let again = event.copy()?;
        match self.happens(again) {
            Ok(()) => Ok(()),
            Err(fault) => {
                if fault.is_memory() {
                    return Err(Memory);
                }
                Ok(())
            }
        }
    }

    /// The committed transactions, in the order in which their commits were asked for, each with the texts of its
    /// statements and what they answered. They are those that the coordinator decided to commit.
    pub fn committed(&self) -> Result<Vec<Committed>, Memory>
        ensures all { IfOk result (λ all. all.items ≡ map (committed_of self.now.entries.items) (committed_in self.now.entries.items)) }
        ensures decided { (db : Database) (whole : Relations) (past : List (Deed (language db)))
            → IsRun db whole (held D.kept S.kept self.now.machines) self.now.entries.items past → IfOk result (λ all. map (λ one. txn_name one.txn) all.items ≡ committed past) }
        ensures serial { (db : Database) (whole : Relations) (past : List (Deed (language db))) → IsListed db
            → IsRun db whole (held D.kept S.kept self.now.machines) self.now.entries.items past → IfOk result (λ all. AnswerInTurn db whole all.items × IsSerialRun db whole (held D.kept S.kept self.now.machines) self.now.entries.items) }
    {
        committed_in(self.machines.alloc, self.entries.entries())
    }

    /// The letter of this number, counted from 0 in the order in which letters were sent, if so many were.
    pub fn letter(&self, number: usize) -> Option<&Letter>
        ensures { option_copied result ≡ slice_get (letters_in self.now.entries.items) number }
    {
        self.entries.letter(number)
    }

    /// The parts that are kept of a leaf, by their keys; none of a leaf that the catalogue doesn't have. Nothing
    /// has changed by this. A fault is want of memory, or a store whose medium has refused meanwhile.
    pub fn parts(&mut self, leaf: &Leaf) -> Result<Option<Vec<Part>>, Fault>
        ensures sent { result ≢ Err faults.Unsent }
        ensures leaves { LeavesMachines D.is_clean S.is_clean D.is_sound S.is_sound D.refused S.refused self.old.machines self.new.machines }
        ensures parts { (db : Database) → IsListed db → StandsIn db self.old.machines.desk → OfStores D.is_clean S.is_clean self.new.machines → OfStores D.is_sound S.is_sound self.old.machines → FitsList db (held D.kept S.kept self.old.machines)
            → IfOk result (λ shown. option_map (λ parts. parts.items) shown ≡ parts_kept db (held D.kept S.kept self.old.machines) leaf.now) }
        ensures same { StaysAsItIs (OfStores D.is_clean S.is_clean) (OfStores D.is_sound S.is_sound) (held D.kept S.kept) self.old.machines self.new.machines }
        ensures entries { self.new.entries.items ≡ self.old.entries.items }
        ensures fails { (db : Database) → IsListed db → StandsIn db self.old.machines.desk → OfStores D.is_clean S.is_clean self.new.machines → OfStores D.is_sound S.is_sound self.old.machines → FitsList db (held D.kept S.kept self.old.machines)
            → IfErr result (FailsFor (counts D.refused S.refused self.old.machines) (counts D.refused S.refused self.new.machines)) }
    {
        kept_parts(&mut self.machines, leaf)
    }

    /// The rows of a relation, by their keys, as the fragments rebuild it with the intentions of committed
    /// transactions; none of a relation that there isn't. They are what the committed transactions make of it,
    /// one after another. Nothing has changed by this. A fault is want of memory, or a store whose medium has
    /// refused meanwhile.
    pub fn rebuilt(&mut self, relation: &Text) -> Result<Option<Vec<Row>>, Fault>
        ensures sent { result ≢ Err faults.Unsent }
        ensures leaves { LeavesMachines D.is_clean S.is_clean D.is_sound S.is_sound D.refused S.refused self.old.machines self.new.machines }
        ensures rows { (db : Database) (whole : Relations) → IsListed db → StandsIn db self.old.machines.desk → OfStores D.is_clean S.is_clean self.new.machines → OfStores D.is_sound S.is_sound self.old.machines → FitsList db (held D.kept S.kept self.old.machines)
            → AreThoseOf db (held D.kept S.kept self.old.machines) whole → FitsSchema db.schemas whole
            → IfOk result (λ shown. option_map (λ rows. rows.items) shown ≡ rows_shown db whole relation.now) }
        ensures serial { (db : Database) (whole : Relations) (past : List (Deed (language db))) → IsListed db → StandsIn db self.old.machines.desk → OfStores D.is_clean S.is_clean self.new.machines → OfStores D.is_sound S.is_sound self.old.machines
            → IsRun db whole (held D.kept S.kept self.old.machines) self.old.entries.items past
            → IfOk result (λ shown. ShowsSerial db whole self.old.entries.items relation.now (option_map (λ rows. rows.items) shown)) }
        ensures same { StaysAsItIs (OfStores D.is_clean S.is_clean) (OfStores D.is_sound S.is_sound) (held D.kept S.kept) self.old.machines self.new.machines }
        ensures entries { self.new.entries.items ≡ self.old.entries.items }
        ensures fails { (db : Database) (whole : Relations) → IsListed db → StandsIn db self.old.machines.desk → OfStores D.is_clean S.is_clean self.new.machines → OfStores D.is_sound S.is_sound self.old.machines → FitsList db (held D.kept S.kept self.old.machines)
            → AreThoseOf db (held D.kept S.kept self.old.machines) whole → FitsSchema db.schemas whole
            → IfErr result (FailsFor (counts D.refused S.refused self.old.machines) (counts D.refused S.refused self.new.machines)) }
        ensures fails_after { (db : Database) (whole : Relations) (past : List (Deed (language db))) → IsListed db → StandsIn db self.old.machines.desk → OfStores D.is_clean S.is_clean self.new.machines → OfStores D.is_sound S.is_sound self.old.machines
            → IsRun db whole (held D.kept S.kept self.old.machines) self.old.entries.items past
            → IfErr result (FailsFor (counts D.refused S.refused self.old.machines) (counts D.refused S.refused self.new.machines)) }
    {
        runs_are_serial();
        database_is_of_catalogue(self.machines.desk.catalog());
        rebuilt(&mut self.machines, relation)
    }

    /// What has happened, oldest first.
    pub fn entries(&self) -> &[Entry]
        ensures { result.now ≡ self.now.entries.items }
    {
        self.entries.entries()
    }

    /// The catalogue in force.
    pub fn catalog(&self) -> &Catalog
        ensures { result.now ≡ self.now.machines.desk.catalog }
    {
        self.machines.desk.catalog()
    }

    /// The catalogues that come after it, in their order.
    pub fn later(&self) -> &[Catalog]
        ensures { result.now ≡ self.now.machines.desk.later.items }
    {
        self.machines.desk.later()
    }

    /// The number of the catalogue in force, counted from 1.
    pub fn version(&self) -> u64
        ensures { result ≡ self.now.machines.desk.volatile.version }
    {
        self.machines.desk.version()
    }
}
