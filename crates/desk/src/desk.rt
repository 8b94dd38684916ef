//! The coordinator's machine.

ghost use Rattle.std.specs.Prelude.{◌≡◌, ◌≢◌, ◌⊎◌, ◌+◌, ◌≤◌, ◌^◌, ◌==◌, ◌∷◌, [], List, map, None, Some, true, false, Err, IfOk, IfErr, IfSome, OnOk, if◌then◌else◌};
ghost use Rattle.std.specs.BTreeMap.{IsOrdered};
ghost use Rattle.std.specs.Option.{option_copied, option_map};
ghost use Rattle.meaning.specs.Statement.{IsStatementOf, is_refragment};
ghost use Rattle.catalog.specs.Catalogue.{Catalogue};
ghost use Rattle.catalog.specs.FragmentLeaf.{schemas_of};
ghost use Rattle.catalog.specs.Relation.{catalogue_of};
ghost use Rattle.protocol.specs.Desk.{Choice, Commit_call, Give_up, Rollback, State, desk_began, is_desk_within, on_request, refusal};
ghost use Rattle.protocol.specs.Letters.{txn_name};
ghost use Rattle.store.specs.DeskContent.{BeginsLife, IsUnchanged, Lists};
ghost use Rattle.store.specs.Fault.{HasRefused};
ghost use Rattle.store.specs.Frame.{LeavesStore};
ghost use Rattle.store.specs.Name.{txn_cmp};
ghost use Rattle.store.specs.declared.fault.StoreFault.TheVariants as store_faults;
ghost use Rattle.store.specs.declared.reply.Reply.{Reply};
ghost use Rattle.desk.specs.declared.refusal.Refusal.TheVariants as refusals;
ghost use Rattle.desk.specs.Request.{IsOver, WhyNotStated, refused_as, txn_in};
ghost use Rattle.desk.specs.Database.{Database, language};
ghost use Rattle.desk.specs.Does.{IsReadAs, Runs, RunsPastLimits};
ghost use Rattle.desk.specs.Frame.{RefragmentsDesk, RestartsDesk, StatesDesk, StatesPlainly, StepsPlainly, TakesLetter, TakesUnder};
ghost use Rattle.desk.specs.OfCatalogue.{InForce, IsOfCatalogue, first_in, follow, from_number};
ghost use Rattle.desk.specs.Recovery.{IsStrange, Rises};
ghost use Rattle.desk.specs.State.{Begins, Fits, Steps, anyone_moves, desk_of, volatile_from, volatile_of};

use crate::opening::{Catalogs, Opened, open};
use crate::receive::{may_send, on_reply, passed_over, take};
use crate::recovery::{Beginning, restart};
use crate::refragment::{call_refragment, refragment_of};
use crate::refusal::{Refusal, store_refusal};
use crate::reply::Out;
use crate::request::{
    call_begin, call_commit, call_give_up, call_rollback, call_run, call_statement,
};
use crate::send::is_among;
use crate::volatile::Volatile;
use catalog::catalogue::Catalog;
use catalog::chain::Chain;
use meaning::statement::Statement;
use std::alloc::Global;
use store::commit::DeskKept;
use store::desk_store::DeskStore;
use store::fault::StoreFault;
use store::letter::{Body, Letter};
use store::name::Txn;
use terms::copy::TryCopy;

/// A coordinator: its store, the catalogue in force and those that come after it, and what it has in memory. What its clauses say
/// holds where the store is clean as the call ends, and was sound, and where what is in memory fitted it as the call began.
#[derive(Drop)]
pub struct Desk<S: DeskStore> {
    store: S,
    catalog: Catalog,
    later: Vec<Catalog>,
    volatile: Volatile,
}

/// A store whose coordinator didn't start, and why.
#[derive(Drop)]
pub struct Unstarted<S> {
    pub refusal: Refusal,
    pub store: S,
}

/// The first of these, if there is one.
fn first_in(catalogs: &[Catalog]) -> Option<&Catalog>
    ensures { option_copied result ≡ first_in catalogs.now }
{
    catalogs.first()
}

/// The coordinator that begins so.
fn begun_under<S: DeskStore>(alloc: Global, opened: Opened, store: S) -> Desk<S>
    ensures store { result.store ≡ store }
    ensures catalog { result.catalog ≡ opened.catalogs.in_force }
    ensures later { result.later ≡ opened.catalogs.later }
    ensures standings { result.volatile.standings ≡ opened.begun.standings }
    ensures memory { volatile_of result.volatile ≡ volatile_from opened.begun.standings.entries 0 opened.begun.life 0 opened.begun.version }
    ensures version { result.volatile.version ≡ opened.begun.version }
{
    let Opened { catalogs, begun } = opened;
    let Catalogs { in_force, later } = catalogs;
    let Beginning {
        standings,
        letters: _,
        life,
        version,
    } = begun;
    Desk {
        store,
        catalog: in_force,
        later,
        volatile: Volatile {
            alloc,
            standings,
            undecided: 0,
            life,
            number: 0,
            version,
        },
    }
}

impl<S: DeskStore> Desk<S> {
    /// Starts the coordinator of this chain of catalogues: the next life begins, and the catalogue whose number the store keeps is in
    /// force; Chain where there is none of it. On a refusal the store is as it was.
    pub fn start(alloc: Global, chain: &Chain, store: S) -> Result<Desk<S>, Unstarted<S>>
        ensures leaves_store { IfOk result (λ desk. LeavesStore S.is_clean S.is_sound S.refused store desk.store) }
        ensures learnt { IfOk result (λ desk. S.is_clean desk.store → S.is_sound store) }
        ensures ok { (db : Database) → IfOk result (λ desk. IsOver db desk.catalog.0 → S.is_clean desk.store → Rises db (S.kept desk.store) (volatile_of desk.volatile)) }
        ensures life { IfOk result (λ desk. S.is_clean desk.store → BeginsLife (S.kept store) (S.kept desk.store)) }
        ensures ordered { IfOk result (λ desk. IsOrdered txn_cmp desk.volatile.standings) }
        ensures catalogs { IfOk result (λ desk. catalogue_of desk.catalog ∷ map catalogue_of desk.later.items ≡ from_number desk.volatile.version (map catalogue_of chain.now)) }
        ensures leaves_still { IfErr result (λ unstarted. LeavesStore S.is_clean S.is_sound S.refused store unstarted.store) }
        ensures same { IfErr result (λ unstarted. S.is_clean unstarted.store → S.is_sound store → IsUnchanged (S.kept store) (S.kept unstarted.store)) }
        ensures refusal { IfErr result (λ unstarted. unstarted.refusal ≡ refusals.Store store_faults.Refused → HasRefused (S.refused store) (S.refused unstarted.store)) }
        ensures full { IfErr result (λ unstarted. S.is_clean unstarted.store → unstarted.refusal ≡ refusals.Full → 2 ^ 63 ≤ (S.kept unstarted.store).life + 1) }
        ensures damaged { (catalogue : Catalogue) (later : List Catalogue) → IfErr result (λ unstarted. S.is_clean unstarted.store → S.is_sound store → unstarted.refusal ≡ refusals.Store store_faults.Damaged
            → from_number (S.kept unstarted.store).version (map catalogue_of chain.now) ≡ catalogue ∷ later → IsStrange catalogue.sites (S.kept unstarted.store)) }
        ensures chain { IfErr result (λ unstarted. S.is_clean unstarted.store → S.is_sound store → unstarted.refusal ≡ refusals.Chain → from_number (S.kept unstarted.store).version (map catalogue_of chain.now) ≡ []) }
        ensures own { IfErr result (λ unstarted. (unstarted.refusal ≡ refusals.Memory) ⊎ (unstarted.refusal ≡ refusals.Full) ⊎ (unstarted.refusal ≡ refusals.Chain) ⊎ (unstarted.refusal ≡ refusals.Store store_faults.Refused) ⊎ (unstarted.refusal ≡ refusals.Store store_faults.Damaged)) }
    {
        let mut store = store;
        match open(&mut store, alloc, chain.as_slice()) {
            Ok(opened) => Ok(begun_under(alloc, opened, store)),
            Err(refusal) => Err(Unstarted { refusal, store }),
        }
    }

    /// A transaction begins. The reply names it.
    pub fn begin(&mut self) -> Result<Out, Refusal>
        ensures ok { (db : Database) → IsOver db self.old.catalog.0 → Fits db (S.kept self.old.store) (volatile_of self.old.volatile)
            → IfOk result (λ out. Begins db false (volatile_of self.old.volatile) (S.kept self.new.store) (volatile_of self.new.volatile) out.letters out.replies) }
        ensures plainly { StepsPlainly self.old self.new result }
        ensures accepted { OnOk result (anyone_moves (volatile_of self.old.volatile) ≡ false) }
        ensures own { IfErr result (λ told. (told ≡ refusals.Memory) ⊎ (told ≡ refusals.Full) ⊎ (told ≡ refusals.NotAlone)) }
        ensures full { (db : Database) → IsOver db self.old.catalog.0 → Fits db (S.kept self.old.store) (volatile_of self.old.volatile) → result ≡ Err refusals.Full
            → is_desk_within (desk_began (desk_of db (volatile_of self.old.volatile))) ≡ false }
        ensures alone { result ≡ Err refusals.NotAlone → anyone_moves (volatile_of self.old.volatile) ≡ true }
    {
        call_begin(&mut self.volatile, self.catalog.sites())
    }

    /// A relation gets the split that the next catalogue has for it, by the text of the REFRAGMENT: a transaction of its own begins
    /// and states that; its commit goes as any other's. NotAlone where another transaction is undecided, or has a commit row; NoNext where no catalogue comes
    /// next, or the one that does splits another relation otherwise. After a refusal nothing has changed.
    pub fn refragment(&mut self, text: &str) -> Result<Out, Refusal>
        ensures refragments { RefragmentsDesk S.kept self.old self.new text.now result }
    {
        let refragment = refragment_of(self.volatile.alloc, &self.catalog, text)?;
        let next = first_in(self.later.as_slice());
        call_refragment(&mut self.volatile, &self.catalog, next, &refragment)
    }

    /// The commit of a transaction is asked for: its first phase begins.
    pub fn commit(&mut self, txn: Txn) -> Result<Out, Refusal>
        ensures ok { (db : Database) (choice : Choice (language db)) → IsOver db self.old.catalog.0 → Fits db (S.kept self.old.store) (volatile_of self.old.volatile)
            → IfOk result (λ out. Steps db (volatile_of self.old.volatile) (S.kept self.new.store) (volatile_of self.new.volatile) txn (on_request (txn_name txn) choice Commit_call (txn_in db (volatile_of self.old.volatile) txn)) out.letters out.replies) }
        ensures plainly { StepsPlainly self.old self.new result }
        ensures accepted { (db : Database) → OnOk result (refusal Commit_call (txn_in db (volatile_of self.old.volatile) txn) ≡ None) }
        ensures told { (db : Database) → IfErr result (λ told. (told ≡ refusals.Memory) ⊎ (option_map refused_as (refusal Commit_call (txn_in db (volatile_of self.old.volatile) txn)) ≡ Some told)) }
    {
        call_commit(&mut self.volatile, txn)
    }

    /// A transaction is rolled back.
    pub fn rollback(&mut self, txn: Txn) -> Result<Out, Refusal>
        ensures ok { (db : Database) (choice : Choice (language db)) → IsOver db self.old.catalog.0 → Fits db (S.kept self.old.store) (volatile_of self.old.volatile)
            → IfOk result (λ out. Steps db (volatile_of self.old.volatile) (S.kept self.new.store) (volatile_of self.new.volatile) txn (on_request (txn_name txn) choice Rollback (txn_in db (volatile_of self.old.volatile) txn)) out.letters out.replies) }
        ensures plainly { StepsPlainly self.old self.new result }
        ensures accepted { (db : Database) → OnOk result (refusal Rollback (txn_in db (volatile_of self.old.volatile) txn) ≡ None) }
        ensures told { (db : Database) → IfErr result (λ told. (told ≡ refusals.Memory) ⊎ (option_map refused_as (refusal Rollback (txn_in db (volatile_of self.old.volatile) txn)) ≡ Some told)) }
    {
        call_rollback(&mut self.volatile, txn)
    }

    /// A transaction is given up. One that isn't undecided stays as it is.
    pub fn give_up(&mut self, txn: Txn) -> Result<Out, Refusal>
        ensures ok { (db : Database) (choice : Choice (language db)) → IsOver db self.old.catalog.0 → Fits db (S.kept self.old.store) (volatile_of self.old.volatile)
            → IfOk result (λ out. Steps db (volatile_of self.old.volatile) (S.kept self.new.store) (volatile_of self.new.volatile) txn (on_request (txn_name txn) choice Give_up (txn_in db (volatile_of self.old.volatile) txn)) out.letters out.replies) }
        ensures plainly { StepsPlainly self.old self.new result }
        ensures own { IfErr result (λ told. told ≡ refusals.Memory) }
    {
        call_give_up(&mut self.volatile, txn)
    }

    /// A statement of a transaction, by its text. The text is read under the catalogue's schema; one of BEGIN, COMMIT or ROLLBACK
    /// is no statement's, and for a REFRAGMENT the transaction is too busy. After a refusal nothing has changed.
    pub fn statement(&mut self, txn: Txn, text: &str) -> Result<Out, Refusal>
        ensures { StatesDesk S.kept self.old self.new txn text.now result }
    {
        self.state(txn, text, None)
    }

    /// So where it may be known what the text was read as before under this catalogue's schema: then it isn't read again.
    pub fn state(&mut self, txn: Txn, text: &str, known: Option<Statement>) -> Result<Out, Refusal>
        requires { IfSome known (IsReadAs (schemas_of (catalogue_of self.old.catalog)) text.now) }
        ensures { StatesDesk S.kept self.old self.new txn text.now result }
    {
        call_statement(&mut self.volatile, &self.catalog, txn, text, known)
    }

    /// A statement of a transaction, as the reader has it under the catalogue's schema. After a refusal nothing has changed.
    pub fn run(&mut self, txn: Txn, statement: &Statement) -> Result<Out, Refusal>
        requires { IsStatementOf (schemas_of (catalogue_of self.old.catalog)) statement.now }
        ensures ok { (db : Database) → IsOfCatalogue db → InForce db self.old.volatile.version self.old.catalog → Fits db (S.kept self.old.store) (volatile_of self.old.volatile)
            → IfOk result (λ out. Runs db (volatile_of self.old.volatile) (S.kept self.new.store) (volatile_of self.new.volatile) txn statement.now out.letters out.replies) }
        ensures states { StatesPlainly self.old self.new txn result }
        ensures told { (db : Database) → IfErr result (λ told. (told ≡ refusals.Memory) ⊎ WhyNotStated db (volatile_of self.old.volatile) txn statement.now told
            ⊎ ((refusal (State (self.old.volatile.version, statement.now)) (txn_in db (volatile_of self.old.volatile) txn) ≡ None) × (((is_refragment statement.now ≡ true) × (told ≡ refusals.Busy)) ⊎ (told ≡ refusals.Full)))) }
        ensures full { (db : Database) → IsOfCatalogue db → InForce db self.old.volatile.version self.old.catalog → Fits db (S.kept self.old.store) (volatile_of self.old.volatile) → result ≡ Err refusals.Full
            → RunsPastLimits db (volatile_of self.old.volatile) txn statement.now }
    {
        let copy = statement.copy()?;
        call_run(&mut self.volatile, &self.catalog, txn, copy)
    }

    /// A letter comes. One of a site that the catalogue doesn't have, and one that no site sends, are passed over. Where the letter
    /// decides that a relation gets another split, the next catalogue is in force from then on.
    pub fn take(&mut self, letter: &Letter) -> Result<Out, Refusal>
        ensures takes { TakesLetter S.is_clean S.is_sound S.kept S.refused self.old self.new letter.now true result }
        ensures refusal { IfOk result (λ out. out.kept ≡ false → HasRefused (S.refused self.old.store) (S.refused self.new.store)) }
    {
        self.take_kept(letter, true)
    }

    /// So, but where `kept` is false the store isn't called, and counts as having refused.
    pub fn take_kept(&mut self, letter: &Letter, kept: bool) -> Result<Out, Refusal>
        ensures takes { TakesLetter S.is_clean S.is_sound S.kept S.refused self.old self.new letter.now kept result }
    {
        let version = self.volatile.version;
        let out = self.take_by(letter, kept);
        self.follow(version);
        out
    }

    /// A letter comes, and the catalogues stay as they are.
    #[inline(always)]
    fn take_by(&mut self, letter: &Letter, kept: bool) -> Result<Out, Refusal>
        ensures takes { TakesUnder S.is_clean S.is_sound S.kept S.refused self.old self.new letter.now kept (first_in self.old.later.items) result }
    {
        let Body::Reply(reply) = &letter.body else {
            return Ok(passed_over(self.volatile.alloc));
        };
        if !is_among(&letter.site, self.catalog.sites()) {
            return Ok(passed_over(self.volatile.alloc));
        }
        let (txn, site) = (letter.txn, &letter.site);
        let next = first_in(self.later.as_slice());
        if may_send(self.volatile.standing(&txn), site, reply) {
            return on_reply(&mut self.volatile, &self.catalog, next, txn, site, reply);
        }
        take(&mut self.store, &mut self.volatile, txn, site, reply, kept)
    }

    /// Where the version is no longer this one, the next catalogue is in force, if there is one.
    fn follow(&mut self, version: u64)
        ensures catalogs { (self.new.catalog, self.new.later.items) ≡ (if self.old.volatile.version == version then (self.old.catalog, self.old.later.items) else follow self.old.catalog self.old.later.items) }
        ensures store { self.new.store ≡ self.old.store }
        ensures volatile { self.new.volatile ≡ self.old.volatile }
    {
        if self.volatile.version == version || self.later.is_empty() {
            return;
        }
        self.catalog = self.later.remove(0);
    }

    /// The number of the catalogue in force, as the store keeps it.
    pub fn version(&self) -> u64
        ensures { result ≡ self.now.volatile.version }
    {
        self.volatile.version
    }

    /// Restarts: undecided transactions abort and acknowledgements are lost, the next life begins, and who
    /// voted YES of a decided transaction hears Commit again. On a refusal nothing has changed.
    pub fn restart(&mut self) -> Result<Out, Refusal>
        ensures restarts { RestartsDesk S.is_clean S.is_sound S.kept S.refused self.old self.new result }
        ensures refusal { result ≡ Err (refusals.Store store_faults.Refused) → HasRefused (S.refused self.old.store) (S.refused self.new.store) }
    {
        self.restart_kept(true)
    }

    /// So, but where `kept` is false the store isn't called, and counts as having refused.
    pub fn restart_kept(&mut self, kept: bool) -> Result<Out, Refusal>
        ensures restarts { RestartsDesk S.is_clean S.is_sound S.kept S.refused self.old self.new result }
        ensures uncalled { kept ≡ false → self.new.store ≡ self.old.store }
        ensures called { OnOk result (kept ≡ true) }
        ensures refusal { result ≡ Err (refusals.Store store_faults.Refused) → (kept ≡ false) ⊎ HasRefused (S.refused self.old.store) (S.refused self.new.store) }
    {
        if !kept {
            return Err(Refusal::Store(StoreFault::Refused));
        }
        restart(&mut self.store, &mut self.volatile, self.catalog.sites())
    }

    /// All that the store keeps.
    pub fn kept(&mut self) -> Result<DeskKept, Refusal>
        ensures leaves_store { LeavesStore S.is_clean S.is_sound S.refused self.old.store self.new.store }
        ensures learnt { S.is_clean self.new.store → OnOk result (S.is_sound self.old.store) }
        ensures all { S.is_clean self.new.store → IfOk result (Lists (S.kept self.new.store)) }
        ensures same { S.is_clean self.new.store → S.is_sound self.old.store → IsUnchanged (S.kept self.old.store) (S.kept self.new.store) }
        ensures memory { self.new.volatile ≡ self.old.volatile }
        ensures refusal { result ≡ Err (refusals.Store store_faults.Refused) → HasRefused (S.refused self.old.store) (S.refused self.new.store) }
        ensures intact { S.is_clean self.new.store → S.is_sound self.old.store → result ≢ Err (refusals.Store store_faults.Damaged) }
        ensures own { IfErr result (λ told. (told ≡ refusals.Memory) ⊎ (told ≡ refusals.Store store_faults.Refused) ⊎ (told ≡ refusals.Store store_faults.Damaged)) }
        ensures catalog { self.new.catalog ≡ self.old.catalog }
        ensures later { self.new.later.items ≡ self.old.later.items }
    {
        match self.store.load() {
            Ok(all) => Ok(all),
            Err(fault) => Err(store_refusal(fault)),
        }
    }

    /// The catalogue in force.
    pub fn catalog(&self) -> &Catalog
        ensures { result.now ≡ self.now.catalog }
    {
        &self.catalog
    }

    /// The catalogues that come after it, in their order.
    pub fn later(&self) -> &[Catalog]
        ensures { result.now ≡ self.now.later.items }
    {
        self.later.as_slice()
    }

    /// The store, as it is.
    pub fn into_store(self) -> S
        ensures { result ≡ self.store }
    {
        self.store
    }
}
