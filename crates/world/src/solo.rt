//! A database for one client at a time.

ghost use Rattle.std.specs.Prelude.{◌≡◌, ◌≢◌, ◌⊎◌, ◌∷◌, ℕ, false, true, List, [], None, Some, Err, IfErr, IfOk, OnErr, OnOk, ◌++◌, is_some, if◌then◌else◌, length, map};
ghost use Rattle.std.specs.Option.{option_map};
ghost use Rattle.meaning.specs.declared.statement.Statement.{Statement as StatementNow};
ghost use Rattle.meaning.specs.Statement.{IsStatementOf, is_refragment};
ghost use Rattle.meaning.specs.Whole.{FitsSchema, Relations};
ghost use Rattle.catalog.specs.Catalogue.{Catalogue};
ghost use Rattle.catalog.specs.FragmentLeaf.{schemas_of};
ghost use Rattle.catalog.specs.Relation.{catalogue_of};
ghost use Rattle.reader.specs.declared.command.Command.TheVariants.{Begin, Commit, Rollback, Run};
ghost use Rattle.reader.specs.declared.command.Command.{Command as CommandNow};
ghost use Rattle.store.specs.declared.name.Txn.{Txn as TxnNow};
ghost use Rattle.world.specs.Commands.{Executes, IsCommand, IsNoCommand, IsUnreadable, heard_in};
ghost use Rattle.reader.specs.Command.{IsCommandOf, IsTextOf};
ghost use Rattle.protocol.specs.Desk.{Deed};
ghost use Rattle.store.specs.PlainDesk.{kept_of as desk_kept};
ghost use Rattle.store.specs.PlainSite.{IsSound, kept_of};
ghost use Rattle.desk.specs.Database.{language};
ghost use Rattle.desk.specs.declared.refusal.Refusal.{Refusal as RefusalNow};
ghost use Rattle.desk.specs.declared.refusal.Refusal.TheVariants as refusals;
ghost use Rattle.world.specs.declared.fault.Fault.TheVariants as faults;
ghost use Rattle.desk.specs.CatalogueDatabase.{database, databases, fits};
ghost use Rattle.world.specs.Counted.{counts};
ghost use Rattle.world.specs.BatchRuns.{HasRun, WasStopped};
ghost use Rattle.world.specs.Fault.{FailsFor, is_memory};
ghost use Rattle.world.specs.Frame.{ComesTo, EndsIn, FindsNone, LeavesDatabase, LeavesMachines, OverFit, OverFitting, OverListServed, OverLists, OverServed, StaysAsItIs};
ghost use Rattle.world.specs.Batch.{RunsAll};
ghost use Rattle.world.specs.Course.{CommitsNone};
ghost use Rattle.world.specs.Listed.{StandsIn};
ghost use Rattle.world.specs.ListServed.{IsListServed, IsListServedOn, ListMade};
ghost use Rattle.world.specs.Chain.{IsLast, StandsAt, StandsLast, sites_of};
ghost use Rattle.world.specs.Contents.{OfGiven, OfStores, counted, held, unrefused};
ghost use Rattle.world.specs.Machines.{AreFit};
ghost use Rattle.world.specs.Executed.{Stands};
ghost use Rattle.world.specs.Client.{IsServed};
ghost use Rattle.world.specs.Settled.{AreThoseOf, after_committed, parts_kept, rows_shown};
ghost use Rattle.world.specs.Stopping.{StopsFor, is_stop};
ghost use Rattle.world.specs.Recovery.{BeginsAnewOver, GoesOnOver, ListGoesOnOver, StopsOpening};
ghost use Rattle.world.specs.Replies.{Tells};
ghost use Rattle.world.specs.Start.{AreNew, BeginsWithoutRows, ListBeginsWithoutRows};
ghost use Rattle.world.specs.declared.event.Entry.{Entry as EntryNow};
ghost use Rattle.world.specs.declared.transaction.Stop.{Stop as StopNow};
ghost use Rattle.world.specs.declared.transaction.Unfinished.TheVariants.{Stopped, Unstarted};

use crate::autocommit::run_autocommit;
use crate::batch::run_all;
use crate::chain::first_of;
use crate::client::{begin, commit, roll_back, state};
use crate::command::{command_of, ordinary, still_open, stopped_by};
use crate::fault::Fault;
use crate::laws::{
    begins_anew, chain_is_listed, commands_follow, database_is_of_catalogue, grows_quiet,
    lists_come_up, machines_come_up, moves_follow, new_stores_were_served, obeyed_unless_refused,
    one_client_is_a_run, restarts_recover, served_is_serial,
};
use crate::machines::Machines;
use crate::rebuild::{kept_parts, rebuilt};
use crate::recovery::{desk_up, ensure_no_commit_row, recover, sites_up, stores_of};
use crate::refragmentation::run_refragment;
use crate::start::{start, start_on};
use crate::traffic::Traffic;
use crate::transaction::{Outcome, Transaction, Unfinished};
use catalog::catalogue::Catalog;
use catalog::chain::Chain;
use desk::refusal::Refusal;
use desk::reply::Notice;
use meaning::statement::Statement;
use meaning::whole::Whole;
use reader::command::Command;
use reader::read::one_command;
use std::alloc::Global;
use store::desk_store::DeskStore;
use store::name::Txn;
use store::plain_desk::PlainDesk;
use store::plain_site::PlainSite;
use store::site_store::SiteStore;
use terms::leaf::Leaf;
use terms::memory::Memory;
use terms::part::Part;
use terms::row::Row;
use terms::text::Text;

/// A coordinator and its sites, which serve one client: each letter comes once, the oldest first, before the next command.
#[derive(Drop)]
pub struct Solo<D: DeskStore, S: SiteStore> {
    machines: Machines<D, S>,
    /// The transaction that the client has begun, and that has not ended.
    current: Option<Txn>,
    /// What has stopped it: memory ran out, or a store failed.
    stopped: Option<Refusal>,
}

/// A database over lists is opened, under the first catalogue of a chain: the fragments rebuild these whole relations. Only want of memory
/// is a fault. The clauses `lists` of one client's database, here and below, speak of every chain, the others where no catalogue comes later.
pub fn open(
    alloc: Global,
    chain: &Chain,
    whole: &Whole,
) -> Result<Solo<PlainDesk, PlainSite>, Fault>
    ensures served { (catalogue : Catalogue) → FitsSchema (schemas_of catalogue) whole.now
        → IfOk result (λ solo. IsLast catalogue solo.machines.desk → IsServed (database catalogue) whole.now (unrefused desk_kept kept_of solo.machines) []) }
    ensures stands { (catalogue : Catalogue) → FitsSchema (schemas_of catalogue) whole.now
        → IfOk result (λ solo. IsLast catalogue solo.machines.desk → Stands (database catalogue) (fits catalogue) solo.current (unrefused desk_kept kept_of solo.machines) []) }
    ensures lists { (first : Catalogue) (rest : List Catalogue) → map catalogue_of chain.now ≡ first ∷ rest → FitsSchema (schemas_of first) whole.now
        → IfOk result (λ solo. IsListServed (databases first rest) whole.now (unrefused desk_kept kept_of solo.machines) [] × StandsIn (databases first rest) solo.machines.desk) }
    ensures catalogs { IfOk result (λ solo. StandsAt 1 (map catalogue_of chain.now) solo.machines.desk) }
    ensures single { (catalogue : Catalogue) → map catalogue_of chain.now ≡ catalogue ∷ [] → IfOk result (λ solo. IsLast catalogue solo.machines.desk) }
    ensures sound { IfOk result (λ solo. OfStores (λ _. Unit {0}) IsSound solo.machines) }
    ensures idle { IfOk result (λ solo. (solo.current ≡ None) × (solo.stopped ≡ None)) }
    ensures err { IfErr result (λ fault. is_memory fault ≡ true) }
{
    let machines = start(alloc, chain, whole)?;
    database_is_of_catalogue(machines.desk.catalog());
    Ok(Solo {
        machines,
        current: None,
        stopped: None,
    })
}

/// A database over new stores is opened, those of its sites in the order of the chain: the fragments rebuild these whole
/// relations. In force is the catalogue whose number the coordinator's store keeps. On a fault the stores are let go.
pub fn open_on<D: DeskStore + Drop, S: SiteStore + Drop>(
    alloc: Global,
    chain: &Chain,
    whole: &Whole,
    sites: Vec<S>,
    desk: D,
) -> Result<Solo<D, S>, Fault>
    requires { length sites.items ≡ length (sites_of chain.now) }
    ensures served { (catalogue : Catalogue) → IfOk result (λ solo. IsLast catalogue solo.machines.desk → OfStores D.is_clean S.is_clean solo.machines → AreNew D.is_sound D.kept S.is_sound S.kept catalogue desk sites.items → FitsSchema (schemas_of catalogue) whole.now
        → IsServed (database catalogue) whole.now (counted D.kept S.kept D.refused S.refused solo.machines) []) }
    ensures stands { (catalogue : Catalogue) → IfOk result (λ solo. IsLast catalogue solo.machines.desk → OfStores D.is_clean S.is_clean solo.machines → AreNew D.is_sound D.kept S.is_sound S.kept catalogue desk sites.items → FitsSchema (schemas_of catalogue) whole.now
        → Stands (database catalogue) (fits catalogue) solo.current (counted D.kept S.kept D.refused S.refused solo.machines) []) }
    ensures lists { (first : Catalogue) (rest : List Catalogue) → map catalogue_of chain.now ≡ first ∷ rest → FitsSchema (schemas_of first) whole.now → (D.kept desk).version ≡ 1
        → IfOk result (λ solo. OfStores D.is_clean S.is_clean solo.machines → AreNew D.is_sound D.kept S.is_sound S.kept first desk sites.items
        → IsListServed (databases first rest) whole.now (counted D.kept S.kept D.refused S.refused solo.machines) [] × StandsIn (databases first rest) solo.machines.desk) }
    ensures clean { IfOk result (λ solo. OfStores D.is_clean S.is_clean solo.machines → OfGiven D.is_clean S.is_clean desk sites.items) }
    ensures sound { IfOk result (λ solo. OfStores D.is_clean S.is_clean solo.machines → OfStores D.is_sound S.is_sound solo.machines) }
    ensures catalogs { IfOk result (λ solo. StandsAt solo.machines.desk.volatile.version (map catalogue_of chain.now) solo.machines.desk) }
    ensures single { (catalogue : Catalogue) → map catalogue_of chain.now ≡ catalogue ∷ [] → IfOk result (λ solo. IsLast catalogue solo.machines.desk) }
    ensures idle { IfOk result (λ solo. (solo.current ≡ None) × (solo.stopped ≡ None)) }
    ensures own { IfErr result StopsOpening }
{
    let machines = start_on(alloc, chain, whole, sites, desk)?;
    database_is_of_catalogue(machines.desk.catalog());
    Ok(Solo {
        machines,
        current: None,
        stopped: None,
    })
}

impl<D: DeskStore + Drop, S: SiteStore + Drop> Solo<D, S> {
    /// Opens a database over these stores: those of its sites, in the order of the chain, and the coordinator's, whose number says which
    /// catalogue is in force; all behind it come later. Over the stores of an earlier run, wherever that was stopped, it goes on: what was
    /// committed is there, what was prepared has come to its end, and nothing else has been done. So it begins anew over the whole relations
    /// that the committed transactions have made, and over new stores without rows. On a fault the stores are let go.
    pub fn open_stores(
        alloc: Global,
        chain: &Chain,
        sites: Vec<S>,
        desk: D,
    ) -> Result<Solo<D, S>, Fault>
        requires { length sites.items ≡ length (sites_of chain.now) }
        ensures goes_on { (catalogue : Catalogue) → StandsLast (D.kept desk).version (map catalogue_of chain.now) catalogue → IfOk result (λ solo. OfStores D.is_clean S.is_clean solo.machines → GoesOnOver catalogue (D.kept desk) (map S.kept sites.items) (counted D.kept S.kept D.refused S.refused solo.machines)) }
        ensures anew { (catalogue : Catalogue) → StandsLast (D.kept desk).version (map catalogue_of chain.now) catalogue → IfOk result (λ solo. OfStores D.is_clean S.is_clean solo.machines → BeginsAnewOver catalogue (D.kept desk) (map S.kept sites.items) (counted D.kept S.kept D.refused S.refused solo.machines)) }
        ensures without_rows { (catalogue : Catalogue) → StandsLast (D.kept desk).version (map catalogue_of chain.now) catalogue → IfOk result (λ solo. OfStores D.is_clean S.is_clean solo.machines → BeginsWithoutRows catalogue (D.kept desk) (map S.kept sites.items) (counted D.kept S.kept D.refused S.refused solo.machines)) }
        ensures lists { (first : Catalogue) (rest : List Catalogue) → map catalogue_of chain.now ≡ first ∷ rest → IfOk result (λ solo. OfStores D.is_clean S.is_clean solo.machines → ListGoesOnOver first rest (D.kept desk) (map S.kept sites.items) solo.machines.desk (counted D.kept S.kept D.refused S.refused solo.machines)) }
        ensures lists_without_rows { (first : Catalogue) (rest : List Catalogue) → map catalogue_of chain.now ≡ first ∷ rest → IfOk result (λ solo. OfStores D.is_clean S.is_clean solo.machines → ListBeginsWithoutRows first rest (D.kept desk) (map S.kept sites.items) solo.machines.desk (counted D.kept S.kept D.refused S.refused solo.machines)) }
        ensures clean { IfOk result (λ solo. OfStores D.is_clean S.is_clean solo.machines → OfGiven D.is_clean S.is_clean desk sites.items) }
        ensures sound { IfOk result (λ solo. OfStores D.is_clean S.is_clean solo.machines → OfStores D.is_sound S.is_sound solo.machines) }
        ensures catalogs { IfOk result (λ solo. EndsIn (map catalogue_of chain.now) (catalogue_of solo.machines.desk.catalog ∷ map catalogue_of solo.machines.desk.later.items)) }
        ensures single { (catalogue : Catalogue) → map catalogue_of chain.now ≡ catalogue ∷ [] → IfOk result (λ solo. IsLast catalogue solo.machines.desk) }
        ensures last { (catalogue : Catalogue) → StandsLast (D.kept desk).version (map catalogue_of chain.now) catalogue → IfOk result (λ solo. OfStores D.is_clean S.is_clean solo.machines → IsLast catalogue solo.machines.desk) }
        ensures idle { IfOk result (λ solo. (solo.current ≡ None) × (solo.stopped ≡ None)) }
        ensures own { IfErr result StopsOpening }
    {
        // A site's damage is found before the coordinator's store is changed.
        let sites = sites_up(alloc, first_of(chain), sites)?;
        let desk = desk_up(alloc, chain, desk)?;
        let catalog = desk.catalog();
        database_is_of_catalogue(catalog);
        one_client_is_a_run(catalog);
        machines_come_up(catalog);
        restarts_recover(catalog);
        begins_anew(catalog);
        new_stores_were_served(catalog);
        chain_is_listed(chain);
        lists_come_up();
        let mut machines = Machines {
            alloc,
            desk,
            sites,
            traffic: Traffic::none(),
        };
        recover(&mut machines)?;
        ensure_no_commit_row(&mut machines)?;
        machines.traffic = Traffic::none();
        Ok(Solo {
            machines,
            current: None,
            stopped: None,
        })
    }

    /// The database is closed: the stores of its sites, in the catalogue's order, and the coordinator's, as they are.
    /// A transaction that is open is not committed. Where memory runs out the stores are let go.
    pub fn into_stores(self) -> Result<(Vec<S>, D), Memory>
        ensures { IfOk result (λ stores. (stores.0.items ≡ map (λ site. site.store) self.machines.sites.items) × (stores.1 ≡ self.machines.desk.store)) }
    {
        let Machines {
            alloc,
            desk,
            sites,
            ..
        } = self.machines;
        Ok((stores_of(alloc, sites)?, desk.into_store()))
    }
}

impl<D: DeskStore, S: SiteStore> Solo<D, S> {
    /// BEGIN: a transaction begins, if none is open.
    fn begins(&mut self) -> Result<Vec<Notice>, Refusal>
        ensures comes { ComesTo (OfStores D.is_clean S.is_clean) (OfStores D.is_sound S.is_sound) (counted D.kept S.kept D.refused S.refused) self.old.machines self.new.machines result
            (λ db done moves. (text : List ℕ) → IsTextOf db.schemas text Begin → IsCommand db.schemas text self.old.current self.new.current moves (heard_in (λ heard. heard.items) done)) }
        ensures inside { (txn : TxnNow) → self.old.current ≡ Some txn → result ≡ Err refusals.Busy }
        ensures still { OnErr result (self.new.current ≡ self.old.current) }
    {
        match self.current {
            None => match begin(&mut self.machines) {
                Ok(begun) => {
                    self.current = Some(begun.txn);
                    Ok(begun.heard)
                }
                Err(refusal) => Err(refusal),
            },
            Some(_) => Err(Refusal::Busy),
        }
    }

    /// COMMIT: the commit of the open transaction is asked for.
    fn commits(&mut self) -> Result<Vec<Notice>, Refusal>
        ensures comes { ComesTo (OfStores D.is_clean S.is_clean) (OfStores D.is_sound S.is_sound) (counted D.kept S.kept D.refused S.refused) self.old.machines self.new.machines result
            (λ db done moves. (text : List ℕ) → IsTextOf db.schemas text Commit → IsCommand db.schemas text self.old.current self.new.current moves (heard_in (λ heard. heard.items) done)) }
        ensures outside { self.old.current ≡ None → result ≡ Err refusals.NoTransaction }
        ensures still { OnErr result (self.new.current ≡ self.old.current) }
    {
        let Some(txn) = self.current else {
            return Err(Refusal::NoTransaction);
        };
        match commit(&mut self.machines, txn) {
            Ok(heard) => {
                self.current = None;
                Ok(heard)
            }
            Err(refusal) => Err(refusal),
        }
    }

    /// ROLLBACK: the open transaction is rolled back.
    fn rolls_back(&mut self) -> Result<Vec<Notice>, Refusal>
        ensures comes { ComesTo (OfStores D.is_clean S.is_clean) (OfStores D.is_sound S.is_sound) (counted D.kept S.kept D.refused S.refused) self.old.machines self.new.machines result
            (λ db done moves. (text : List ℕ) → IsTextOf db.schemas text Rollback → IsCommand db.schemas text self.old.current self.new.current moves (heard_in (λ heard. heard.items) done)) }
        ensures outside { self.old.current ≡ None → result ≡ Err refusals.NoTransaction }
        ensures still { OnErr result (self.new.current ≡ self.old.current) }
    {
        let Some(txn) = self.current else {
            return Err(Refusal::NoTransaction);
        };
        match roll_back(&mut self.machines, txn) {
            Ok(heard) => {
                self.current = None;
                Ok(heard)
            }
            Err(refusal) => Err(refusal),
        }
    }

    /// A statement: of the open transaction, or a transaction of its own.
    fn states(&mut self, statement: Statement, text: &str) -> Result<Vec<Notice>, Refusal>
        requires spelled { IsTextOf (schemas_of (catalogue_of self.old.machines.desk.catalog)) text.now (Run statement) }
        requires fits { IsStatementOf (schemas_of (catalogue_of self.old.machines.desk.catalog)) statement }
        ensures comes { ComesTo (OfStores D.is_clean S.is_clean) (OfStores D.is_sound S.is_sound) (counted D.kept S.kept D.refused S.refused) self.old.machines self.new.machines result
            (λ db done moves. IsTextOf db.schemas text.now (Run statement) → IsCommand db.schemas text.now self.old.current self.new.current moves (heard_in (λ heard. heard.items) done)) }
        ensures finds_none { self.old.current ≡ None → is_refragment statement ≡ true → FindsNone (OfStores D.is_clean S.is_clean) (OfStores D.is_sound S.is_sound) (counted D.kept S.kept D.refused S.refused) self.old.machines self.new.machines result text.now }
        ensures still { OnErr result (self.new.current ≡ self.old.current) }
    {
        let Some(txn) = self.current else {
            if statement.is_refragment() {
                return run_refragment(&mut self.machines, text);
            }
            return run_autocommit(&mut self.machines, text, statement);
        };
        match state(&mut self.machines, txn, text, ordinary(statement)) {
            Ok(heard) => {
                self.current = still_open(txn, heard.as_slice());
                Ok(heard)
            }
            Err(refusal) => Err(refusal),
        }
    }

    /// This is the command of the text.
    fn obey(&mut self, command: Command, text: &str) -> Result<Vec<Notice>, Refusal>
        requires spelled { IsTextOf (schemas_of (catalogue_of self.old.machines.desk.catalog)) text.now command }
        requires fits { IsCommandOf (schemas_of (catalogue_of self.old.machines.desk.catalog)) command }
        ensures comes { ComesTo (OfStores D.is_clean S.is_clean) (OfStores D.is_sound S.is_sound) (counted D.kept S.kept D.refused S.refused) self.old.machines self.new.machines result
            (λ db done moves. IsTextOf db.schemas text.now command → IsCommand db.schemas text.now self.old.current self.new.current moves (heard_in (λ heard. heard.items) done)) }
        ensures inside { (txn : TxnNow) → self.old.current ≡ Some txn → command ≡ Begin → result ≡ Err refusals.Busy }
        ensures outside { self.old.current ≡ None → (command ≡ Commit) ⊎ (command ≡ Rollback) → result ≡ Err refusals.NoTransaction }
        ensures finds_none { (statement : StatementNow) → self.old.current ≡ None → command ≡ Run statement → is_refragment statement ≡ true → FindsNone (OfStores D.is_clean S.is_clean) (OfStores D.is_sound S.is_sound) (counted D.kept S.kept D.refused S.refused) self.old.machines self.new.machines result text.now }
        ensures still { OnErr result (self.new.current ≡ self.old.current) }
    {
        match command {
            Command::Begin => self.begins(),
            Command::Commit => self.commits(),
            Command::Rollback => self.rolls_back(),
            Command::Run(statement) => self.states(statement, text),
        }
    }

    /// The command of a text.
    fn command(&mut self, text: &str) -> Result<Vec<Notice>, Refusal>
        ensures comes { ComesTo (OfStores D.is_clean S.is_clean) (OfStores D.is_sound S.is_sound) (counted D.kept S.kept D.refused S.refused) self.old.machines self.new.machines result
            (λ db done moves. IsCommand db.schemas text.now self.old.current self.new.current moves (heard_in (λ heard. heard.items) done)) }
        ensures inside { (txn : TxnNow) → self.old.current ≡ Some txn → IsTextOf (schemas_of (catalogue_of self.old.machines.desk.catalog)) text.now Begin → (result ≡ Err refusals.Busy) ⊎ (result ≡ Err refusals.Memory) }
        ensures outside { self.old.current ≡ None → IsTextOf (schemas_of (catalogue_of self.old.machines.desk.catalog)) text.now Commit ⊎ IsTextOf (schemas_of (catalogue_of self.old.machines.desk.catalog)) text.now Rollback → (result ≡ Err refusals.NoTransaction) ⊎ (result ≡ Err refusals.Memory) }
        ensures finds_none { (statement : StatementNow) → self.old.current ≡ None → IsTextOf (schemas_of (catalogue_of self.old.machines.desk.catalog)) text.now (Run statement) → is_refragment statement ≡ true → FindsNone (OfStores D.is_clean S.is_clean) (OfStores D.is_sound S.is_sound) (counted D.kept S.kept D.refused S.refused) self.old.machines self.new.machines result text.now }
        ensures reader_refusal { ((given : CommandNow) → IsTextOf (schemas_of (catalogue_of self.old.machines.desk.catalog)) text.now given → ⊥) → OnOk result ⊥ × IfErr result (IsUnreadable (schemas_of (catalogue_of self.old.machines.desk.catalog)) text.now) }
        ensures still { OnErr result (self.new.current ≡ self.old.current) }
    {
        one_command();
        match command_of(self.machines.alloc, self.machines.desk.catalog(), text) {
            Ok(command) => self.obey(command, text),
            Err(refusal) => Err(refusal),
        }
    }

    /// A command is executed: BEGIN, COMMIT, ROLLBACK or a statement, which outside BEGIN is a transaction of its own. All letters that it
    /// brings about come, each once, the oldest first. Says what the client hears: unless something is refused on the way, the answer of a
    /// statement, or that its transaction has begun, was committed, or was rolled back. What was heard so far is what the committed
    /// transactions answer, one after another over whole relations. What is refused is a letter, whose step leads past a limit, a write,
    /// by a full visit, or a store call, and that only where the medium of a store has refused meanwhile. Whatever was refused, the command
    /// itself too, the next one finds all quiet or the open transaction ready. A refusal that stops the database, since memory ran out or
    /// the medium of a store has refused meanwhile, is the answer of every later command.
    pub fn execute(&mut self, text: &str) -> Result<Vec<Notice>, Refusal>
        ensures leaves { LeavesDatabase D.is_clean S.is_clean D.is_sound S.is_sound D.refused S.refused self.old.machines self.new.machines }
        ensures executes { (whole : Relations) (past : List (Deed (language (database (catalogue_of self.old.machines.desk.catalog))))) → self.old.stopped ≡ None → OfStores D.is_clean S.is_clean self.new.machines → OfStores D.is_sound S.is_sound self.old.machines
            → self.old.machines.desk.later.items ≡ [] → IsListServed (database (catalogue_of self.old.machines.desk.catalog)) whole (counted D.kept S.kept D.refused S.refused self.old.machines) past
            → IfErr result (λ told. is_stop told ≡ false) → Executes (database (catalogue_of self.old.machines.desk.catalog)) (fits (catalogue_of self.old.machines.desk.catalog)) whole text.now self.old.current (counted D.kept S.kept D.refused S.refused self.old.machines) self.new.current (counted D.kept S.kept D.refused S.refused self.new.machines) past (heard_in (λ heard. heard.items) result) }
        ensures lists { self.old.stopped ≡ None → OverLists (OfStores D.is_clean S.is_clean) (OfStores D.is_sound S.is_sound) (counted D.kept S.kept D.refused S.refused) self.old.machines self.new.machines
            (λ db whole past. IfErr result (λ told. is_stop told ≡ false) → ListMade db whole (counted D.kept S.kept D.refused S.refused self.new.machines) past (λ moves. IsCommand db.schemas text.now self.old.current self.new.current moves (heard_in (λ heard. heard.items) result) × OnErr result (CommitsNone moves))) }
        ensures served_lists { OverLists (OfStores D.is_clean S.is_clean) (OfStores D.is_sound S.is_sound) (counted D.kept S.kept D.refused S.refused) self.old.machines self.new.machines (λ db whole past. IsListServedOn db whole (counted D.kept S.kept D.refused S.refused self.new.machines) past) }
        ensures blames { self.old.stopped ≡ None → OfStores D.is_clean S.is_clean self.new.machines → OfStores D.is_sound S.is_sound self.old.machines → IfErr result (StopsFor (counted D.kept S.kept D.refused S.refused self.old.machines).refused (counted D.kept S.kept D.refused S.refused self.new.machines).refused) }
        ensures inside { (txn : TxnNow) → self.old.stopped ≡ None → self.old.current ≡ Some txn → IsTextOf (schemas_of (catalogue_of self.old.machines.desk.catalog)) text.now Begin → (result ≡ Err refusals.Busy) ⊎ (result ≡ Err refusals.Memory) }
        ensures outside { self.old.stopped ≡ None → self.old.current ≡ None → IsTextOf (schemas_of (catalogue_of self.old.machines.desk.catalog)) text.now Commit ⊎ IsTextOf (schemas_of (catalogue_of self.old.machines.desk.catalog)) text.now Rollback → (result ≡ Err refusals.NoTransaction) ⊎ (result ≡ Err refusals.Memory) }
        ensures finds_none { (statement : StatementNow) → self.old.stopped ≡ None → self.old.current ≡ None → IsTextOf (schemas_of (catalogue_of self.old.machines.desk.catalog)) text.now (Run statement) → is_refragment statement ≡ true → FindsNone (OfStores D.is_clean S.is_clean) (OfStores D.is_sound S.is_sound) (counted D.kept S.kept D.refused S.refused) self.old.machines self.new.machines result text.now }
        ensures reader_refusal { self.old.stopped ≡ None → ((given : CommandNow) → IsTextOf (schemas_of (catalogue_of self.old.machines.desk.catalog)) text.now given → ⊥)
            → OnOk result ⊥ × IfErr result (λ told. (told ≡ refusals.Memory) ⊎ IsNoCommand (schemas_of (catalogue_of self.old.machines.desk.catalog)) text.now told) }
        ensures still { OnErr result (self.new.current ≡ self.old.current) }
        ensures stops { self.old.stopped ≡ None → OnOk result (self.new.stopped ≡ None) × IfErr result (λ told. self.new.stopped ≡ (if is_stop told then Some told else None)) }
        ensures stopped { (refusal : RefusalNow) → self.old.stopped ≡ Some refusal → (result ≡ Err refusal) × (self.new ≡ self.old) }
    {
        if let Some(refusal) = self.stopped {
            return Err(refusal);
        }
        database_is_of_catalogue(self.machines.desk.catalog());
        one_client_is_a_run(self.machines.desk.catalog());
        commands_follow(self.machines.desk.catalog());
        let done = self.command(text);
        self.stopped = stopped_by(&done);
        done
    }

    /// Transactions are run, one after another: each begins, its texts are stated while it is open, and its end is asked for. A text that is
    /// refused is passed over. Unless something is refused on the way each ends as its client asks for, and the committed ones answer as
    /// they do one after another over whole relations. Where memory runs out or a store fails, the transaction at that place and the
    /// database are stopped, and that is the answer of every later command. None is run while one of the client is open.
    pub fn run(&mut self, transactions: &[Transaction]) -> Result<Vec<Outcome>, Unfinished>
        ensures leaves { LeavesDatabase D.is_clean S.is_clean D.is_sound S.is_sound D.refused S.refused self.old.machines self.new.machines }
        ensures ran { (whole : Relations) (entries : List EntryNow) (past : List (Deed (language (database (catalogue_of self.old.machines.desk.catalog))))) → OfStores D.is_clean S.is_clean self.new.machines → OfStores D.is_sound S.is_sound self.old.machines
            → IsServed (database (catalogue_of self.old.machines.desk.catalog)) whole (counted D.kept S.kept D.refused S.refused self.old.machines) past → Tells (database (catalogue_of self.old.machines.desk.catalog)) entries past
            → IfOk result (λ outcomes. HasRun (database (catalogue_of self.old.machines.desk.catalog)) (fits (catalogue_of self.old.machines.desk.catalog)) whole transactions.now outcomes.items (counted D.kept S.kept D.refused S.refused self.old.machines) (counted D.kept S.kept D.refused S.refused self.new.machines) entries past) }
        ensures broke { (whole : Relations) (entries : List EntryNow) (past : List (Deed (language (database (catalogue_of self.old.machines.desk.catalog))))) (stop : StopNow) → OfStores D.is_clean S.is_clean self.new.machines → OfStores D.is_sound S.is_sound self.old.machines
            → IsServed (database (catalogue_of self.old.machines.desk.catalog)) whole (counted D.kept S.kept D.refused S.refused self.old.machines) past → Tells (database (catalogue_of self.old.machines.desk.catalog)) entries past → result ≡ Err (Stopped stop)
            → WasStopped (database (catalogue_of self.old.machines.desk.catalog)) (fits (catalogue_of self.old.machines.desk.catalog)) whole transactions.now stop.done (counted D.kept S.kept D.refused S.refused self.old.machines) (counted D.kept S.kept D.refused S.refused self.new.machines) entries past }
        ensures blames { (stop : StopNow) → OfStores D.is_clean S.is_clean self.new.machines → OfStores D.is_sound S.is_sound self.old.machines → result ≡ Err (Stopped stop) → StopsFor (counts D.refused S.refused self.old.machines) (counts D.refused S.refused self.new.machines) stop.refusal }
        ensures served { OverServed (OfStores D.is_clean S.is_clean) (OfStores D.is_sound S.is_sound) (counted D.kept S.kept D.refused S.refused) self.old.machines self.new.machines
            (λ db whole past. (deeds : List (Deed (language db))) × IsServed db whole (counted D.kept S.kept D.refused S.refused self.new.machines) (past ++ deeds)) }
        ensures lists { OverLists (OfStores D.is_clean S.is_clean) (OfStores D.is_sound S.is_sound) (counted D.kept S.kept D.refused S.refused) self.old.machines self.new.machines
            (λ db whole past. IfOk result (λ outcomes. ListMade db whole (counted D.kept S.kept D.refused S.refused self.new.machines) past (RunsAll transactions.now outcomes.items)) × OnErr result (IsListServedOn db whole (counted D.kept S.kept D.refused S.refused self.new.machines) past)) }
        ensures busy { (txn : TxnNow) → self.old.stopped ≡ None → self.old.current ≡ Some txn → (result ≡ Err (Unstarted refusals.Busy)) × (self.new ≡ self.old) }
        ensures stopped { (refusal : RefusalNow) → self.old.stopped ≡ Some refusal → (result ≡ Err (Unstarted refusal)) × (self.new ≡ self.old) }
        ensures starts { self.old.stopped ≡ None → self.old.current ≡ None → IfErr result (λ told. (stop : StopNow) × (told ≡ Stopped stop) × (is_stop stop.refusal ≡ true) × (self.new.stopped ≡ Some stop.refusal)) }
        ensures goes_on { OnOk result ((self.new.stopped ≡ None) × (self.new.current ≡ None)) }
        ensures still { self.new.current ≡ self.old.current }
    {
        if let Some(refusal) = self.stopped {
            return Err(Unfinished::Unstarted(refusal));
        }
        if self.current.is_some() {
            return Err(Unfinished::Unstarted(Refusal::Busy));
        }
        database_is_of_catalogue(self.machines.desk.catalog());
        one_client_is_a_run(self.machines.desk.catalog());
        moves_follow(self.machines.desk.catalog());
        served_is_serial(self.machines.desk.catalog());
        obeyed_unless_refused(self.machines.desk.catalog());
        grows_quiet(self.machines.desk.catalog());
        match run_all(&mut self.machines, transactions) {
            Ok(outcomes) => Ok(outcomes),
            Err(stop) => {
                self.stopped = Some(stop.refusal);
                Err(Unfinished::Stopped(stop))
            }
        }
    }

    /// The catalogue in force.
    pub fn catalog(&self) -> &Catalog
        ensures { result.now ≡ self.now.machines.desk.catalog }
    {
        self.machines.desk.catalog()
    }

    /// The catalogues that come after it, in their order.
    pub fn later(&self) -> &[Catalog]
        ensures { result.now ≡ self.now.machines.desk.later.items }
    {
        self.machines.desk.later()
    }

    /// The number of the catalogue in force, counted from 1.
    pub fn version(&self) -> u64
        ensures { result ≡ self.now.machines.desk.volatile.version }
    {
        self.machines.desk.version()
    }

    /// Whether the client has begun a transaction that has not ended.
    pub fn is_open(&self) -> bool
        ensures { result ≡ is_some self.now.current }
    {
        self.current.is_some()
    }

    /// What its commands have done and cost since it was opened. That these are the counts is tested only.
    pub fn traffic(&self) -> Traffic
        ensures { result ≡ self.now.machines.traffic }
    {
        self.machines.traffic
    }

    /// The parts that are kept of a leaf, by their keys; none of a leaf that the catalogue doesn't have. Nothing
    /// has changed by this. A fault is want of memory, or a store whose medium has refused meanwhile.
    pub fn parts(&mut self, leaf: &Leaf) -> Result<Option<Vec<Part>>, Fault>
        ensures sent { result ≢ Err faults.Unsent }
        ensures leaves { LeavesMachines D.is_clean S.is_clean D.is_sound S.is_sound D.refused S.refused self.old.machines self.new.machines }
        ensures parts { OverFit (OfStores D.is_clean S.is_clean) (OfStores D.is_sound S.is_sound) (counted D.kept S.kept D.refused S.refused) self.old.machines self.new.machines (λ db before _. IfOk result (λ shown. option_map (λ parts. parts.items) shown ≡ parts_kept db before leaf.now)) }
        ensures lists { OverFitting (OfStores D.is_clean S.is_clean) (OfStores D.is_sound S.is_sound) (counted D.kept S.kept D.refused S.refused) self.old.machines self.new.machines
            (λ db before _. IfOk result (λ shown. option_map (λ parts. parts.items) shown ≡ parts_kept db before leaf.now) × IfErr result (FailsFor (counts D.refused S.refused self.old.machines) (counts D.refused S.refused self.new.machines))) }
        ensures same { StaysAsItIs (OfStores D.is_clean S.is_clean) (OfStores D.is_sound S.is_sound) (held D.kept S.kept) self.old.machines self.new.machines }
        ensures still { (self.new.current ≡ self.old.current) × (self.new.stopped ≡ self.old.stopped) }
        ensures fails { OverFit (OfStores D.is_clean S.is_clean) (OfStores D.is_sound S.is_sound) (counted D.kept S.kept D.refused S.refused) self.old.machines self.new.machines (λ db _ _. IfErr result (FailsFor (counts D.refused S.refused self.old.machines) (counts D.refused S.refused self.new.machines))) }
    {
        kept_parts(&mut self.machines, leaf)
    }

    /// The rows of a relation, by their keys, as the fragments rebuild it with the intentions of committed transactions;
    /// none of a relation that there isn't. They are what the committed transactions make of it, one after another.
    /// Nothing has changed by this. A fault is want of memory, or a store whose medium has refused meanwhile.
    pub fn rebuilt(&mut self, relation: &Text) -> Result<Option<Vec<Row>>, Fault>
        ensures sent { result ≢ Err faults.Unsent }
        ensures leaves { LeavesMachines D.is_clean S.is_clean D.is_sound S.is_sound D.refused S.refused self.old.machines self.new.machines }
        ensures rows { (whole : Relations) → OfStores D.is_clean S.is_clean self.new.machines → OfStores D.is_sound S.is_sound self.old.machines → AreFit (database (catalogue_of self.old.machines.desk.catalog)) (counted D.kept S.kept D.refused S.refused self.old.machines)
            → AreThoseOf (database (catalogue_of self.old.machines.desk.catalog)) (counted D.kept S.kept D.refused S.refused self.old.machines) whole → FitsSchema (schemas_of (catalogue_of self.old.machines.desk.catalog)) whole
            → IfOk result (λ shown. option_map (λ rows. rows.items) shown ≡ rows_shown (database (catalogue_of self.old.machines.desk.catalog)) whole relation.now) }
        ensures served { OverServed (OfStores D.is_clean S.is_clean) (OfStores D.is_sound S.is_sound) (counted D.kept S.kept D.refused S.refused) self.old.machines self.new.machines (λ db whole past. IfOk result (λ shown. option_map (λ rows. rows.items) shown ≡ rows_shown db (after_committed db past whole) relation.now)) }
        ensures lists { OverListServed (OfStores D.is_clean S.is_clean) (OfStores D.is_sound S.is_sound) (counted D.kept S.kept D.refused S.refused) self.old.machines self.new.machines
            (λ db whole past. IfOk result (λ shown. option_map (λ rows. rows.items) shown ≡ rows_shown db (after_committed db past whole) relation.now) × IfErr result (FailsFor (counts D.refused S.refused self.old.machines) (counts D.refused S.refused self.new.machines))) }
        ensures same { StaysAsItIs (OfStores D.is_clean S.is_clean) (OfStores D.is_sound S.is_sound) (held D.kept S.kept) self.old.machines self.new.machines }
        ensures still { (self.new.current ≡ self.old.current) × (self.new.stopped ≡ self.old.stopped) }
        ensures fails_after { OverServed (OfStores D.is_clean S.is_clean) (OfStores D.is_sound S.is_sound) (counted D.kept S.kept D.refused S.refused) self.old.machines self.new.machines (λ db whole past. IfErr result (FailsFor (counts D.refused S.refused self.old.machines) (counts D.refused S.refused self.new.machines))) }
        ensures fails { (whole : Relations) → OfStores D.is_clean S.is_clean self.new.machines → OfStores D.is_sound S.is_sound self.old.machines → AreFit (database (catalogue_of self.old.machines.desk.catalog)) (counted D.kept S.kept D.refused S.refused self.old.machines)
            → AreThoseOf (database (catalogue_of self.old.machines.desk.catalog)) (counted D.kept S.kept D.refused S.refused self.old.machines) whole → FitsSchema (schemas_of (catalogue_of self.old.machines.desk.catalog)) whole
            → IfErr result (FailsFor (counts D.refused S.refused self.old.machines) (counts D.refused S.refused self.new.machines)) }
    {
        database_is_of_catalogue(self.machines.desk.catalog());
        one_client_is_a_run(self.machines.desk.catalog());
        rebuilt(&mut self.machines, relation)
    }
}
