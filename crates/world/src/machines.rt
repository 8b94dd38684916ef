//! The machines of a database, its coordinator and its sites, and what an event does to them.

ghost use Rattle.std.specs.Prelude.{◌≡◌, [], not, ◌≢◌, ◌⊎◌, ◌++◌, ◌∷◌, false, true, List, Err, IfOk, IfErr, IfSome, OnErr, nat_eq};
ghost use Rattle.protocol.specs.Letters.{kept_in};
ghost use Rattle.world.specs.Machines.{is_order, is_letter};
ghost use Rattle.std.specs.Cmp.Lexicographic.{pointwise};
ghost use Rattle.std.specs.List.{list_any};
ghost use Rattle.meaning.specs.Whole.{Relations};
ghost use Rattle.catalog.specs.FragmentLeaf.{schemas_of};
ghost use Rattle.catalog.specs.Relation.{catalogue_of};
ghost use Rattle.protocol.specs.Desk.{Deed};
ghost use Rattle.desk.specs.Database.{Database, language};
ghost use Rattle.desk.specs.Does.{IsReadAs};
ghost use Rattle.desk.specs.OfCatalogue.{InForce, IsOfCatalogue};
ghost use Rattle.world.specs.Frame.{CallsNoStore, LeavesDatabase, LeavesMachines, StaysInForce, StaysOnErr, StaysOrFollows};
ghost use Rattle.world.specs.Listed.{FitsList, StandsIn};
ghost use Rattle.world.specs.Contents.{OfStores, counted, held};
ghost use Rattle.desk.specs.State.{Fits, volatile_of};
ghost use Rattle.world.specs.Counted.{HaveRefused, counts};
ghost use Rattle.desk.specs.declared.refusal.Refusal.TheVariants as refusals;
ghost use Rattle.world.specs.declared.event.Entry.{Entry as EntryNow};
ghost use Rattle.world.specs.declared.event.Event.TheVariants as events;
ghost use Rattle.world.specs.declared.event.Event.{Event as EventNow};
ghost use Rattle.world.specs.declared.fault.Fault.TheVariants as faults;
ghost use Rattle.world.specs.Events.{is_unsent};
ghost use Rattle.world.specs.Sites.{has_site};
ghost use Rattle.world.specs.EventApplied.{IsAtSite, may_call, may_call_at, told_by_desk};
ghost use Rattle.world.specs.Refused.{IsRefused, IsRefusedFor};
ghost use Rattle.world.specs.Runs.{IsRun, IsSpared, Spares, StepsOn, entry_of};
ghost use Rattle.world.specs.Seated.{place_of};

use crate::event::{Call, Entry, Event};
use crate::fault::Fault;
use crate::log::Log;
use crate::sites::{SiteAction, act_among};
use crate::traffic::Traffic;
use catalog::catalogue::Catalog;
use desk::desk::Desk;
use desk::refusal::Refusal;
use desk::reply::Out;
use meaning::statement::Statement;
use site::fault::SiteFault;
use site::site::Site;
use std::alloc::Global;
use store::desk_store::DeskStore;
use store::letter::{Body, Letter};
use store::name::Txn;
use store::reply::{Reply, Vote, Voted};
use store::site_store::SiteStore;
use terms::copy::TryCopy;
use terms::seq::Seq;
use terms::text::Text;

/// The coordinator, and the sites in the catalogue's order.
#[derive(Drop)]
pub struct Machines<D: DeskStore, S: SiteStore> {
    pub alloc: Global,
    pub desk: Desk<D>,
    pub sites: Vec<Site<S>>,
    /// What went over the mailbox of their client.
    pub traffic: Traffic,
}

impl<D: DeskStore, S: SiteStore> Machines<D, S> {
    ghost use Rattle.std.specs.Prelude.{◌≡◌, ◌≢◌, ◌⊎◌, ℕ, List, [], false, true, Some, Err, IfOk, IfErr, IfSome, OnOk, OnErr};
    ghost use Rattle.protocol.specs.Desk.{Choice, Commit_call, Give_up, Rollback, desk_began, is_desk_within};
    ghost use Rattle.desk.specs.State.{Fits, desk_of, volatile_of};
    ghost use Rattle.desk.specs.declared.refusal.Refusal.TheVariants as refusals;
    ghost use Rattle.world.specs.declared.sites.SiteAction.TheVariants as things;
    ghost use Rattle.world.specs.declared.event.Call.TheVariants as calls;
    ghost use Rattle.world.specs.declared.fault.Fault.TheVariants as faults;
    ghost use Rattle.store.specs.declared.letter.Letter.{Letter as LetterNow};
    ghost use Rattle.protocol.specs.StatementCourse.{passes};
    ghost use Rattle.desk.specs.Database.{sent};
    ghost use Rattle.protocol.specs.Delivery.{CallKept};
    ghost use Rattle.world.specs.Reasons.{SiteTells, Tells};
    ghost use Rattle.world.specs.Refused.{DeskRestartTells, IsRefused, PlaceTells};
    ghost use Rattle.protocol.specs.World.{begins, desk_restarts};
    ghost use Rattle.desk.specs.Request.{IsOver};
    ghost use Rattle.desk.specs.Database.{Database, language};
    ghost use Rattle.world.specs.Counted.{HaveRefused, counts};
    ghost use Rattle.world.specs.Stopping.{StopsFor};
    ghost use Rattle.world.specs.Taking.{CameUnless, ListCameUnless, stop_of};
    ghost use Rattle.site.specs.Refusals.{AsksToKeep};
    ghost use Rattle.world.specs.EventApplied.{may_call_at};
    ghost use Rattle.world.specs.Frame.{CallsNoStore, LeavesDatabase, LeavesMachines, StaysInForce, StaysOnErr, StaysOrFollows};
    ghost use Rattle.world.specs.Listed.{FitsList, ListAsked, ListBegun, ListCame, ListLeads, ListMoved, ListStated, StandsIn};
    ghost use Rattle.world.specs.Contents.{OfStores, held};
    ghost use Rattle.world.specs.Machines.{AreFit, Asked, Came, Leads, Stated, happens_at, is_for_site, is_order, world_of};
    ghost use Rattle.catalog.specs.FragmentLeaf.{schemas_of};
    ghost use Rattle.catalog.specs.Relation.{catalogue_of};
    ghost use Rattle.desk.specs.OfCatalogue.{InForce, IsOfCatalogue, first_in};
    ghost use Rattle.desk.specs.Refragmented.{FindsNoNext};
    ghost use Rattle.world.specs.Seated.{place_of};
    ghost use Rattle.world.specs.Sites.{Seat, has_site, seat_of};

    /// A transaction begins.
    pub(crate) fn begin(&mut self) -> Result<Out, Refusal>
        ensures leaves { LeavesMachines D.is_clean S.is_clean D.is_sound S.is_sound D.refused S.refused self.old self.new }
        ensures ok { (db : Database) → IsOver db self.old.desk.catalog.0 → AreFit db (held D.kept S.kept self.old)
            → IfOk result (λ out. Leads db begins (held D.kept S.kept self.old) (held D.kept S.kept self.new) out.letters out.replies) }
        ensures within { (db : Database) → IsOver db self.old.desk.catalog.0 → Fits db (D.kept self.old.desk.store) (volatile_of self.old.desk.volatile)
            → IfOk result (λ out. is_desk_within (desk_began (desk_of db (held D.kept S.kept self.old).table)) ≡ true) }
        ensures full { (db : Database) → IsOver db self.old.desk.catalog.0 → Fits db (D.kept self.old.desk.store) (volatile_of self.old.desk.volatile)
            → IfErr result (λ told. (told ≡ refusals.Memory) ⊎ IsRefused db self.old.desk.later.items (volatile_of self.old.desk.volatile) calls.Begin told) }
        ensures lists { (db : Database) → IsOfCatalogue db → StandsIn db self.old.desk → FitsList db (held D.kept S.kept self.old)
            → IfOk result (λ out. ListBegun db (held D.kept S.kept self.old) (held D.kept S.kept self.new) out.letters out.replies × StandsIn db self.new.desk) }
        ensures uncalled { CallsNoStore self.old self.new }
        ensures blames { IfErr result (StopsFor (counts D.refused S.refused self.old) (counts D.refused S.refused self.new)) }
        ensures err { OnErr result (held D.kept S.kept self.new ≡ held D.kept S.kept self.old) }
    {
        self.desk.begin()
    }

    /// The commit of a transaction is asked for.
    pub(crate) fn commit(&mut self, txn: Txn) -> Result<Out, Refusal>
        ensures leaves { LeavesMachines D.is_clean S.is_clean D.is_sound S.is_sound D.refused S.refused self.old self.new }
        ensures ok { (db : Database) (choice : Choice (language db)) → IsOver db self.old.desk.catalog.0 → AreFit db (held D.kept S.kept self.old)
            → IfOk result (λ out. Asked db txn choice Commit_call (held D.kept S.kept self.old) (held D.kept S.kept self.new) out.letters out.replies) }
        ensures told { (db : Database) → IfErr result (λ told. (told ≡ refusals.Memory) ⊎ IsRefused db self.old.desk.later.items (volatile_of self.old.desk.volatile) (calls.Commit txn) told) }
        ensures lists { (db : Database) (choice : Choice (language db)) → IsOfCatalogue db → StandsIn db self.old.desk → FitsList db (held D.kept S.kept self.old)
            → IfOk result (λ out. ListAsked db txn choice Commit_call (held D.kept S.kept self.old) (held D.kept S.kept self.new) out.letters out.replies × StandsIn db self.new.desk) }
        ensures uncalled { CallsNoStore self.old self.new }
        ensures blames { IfErr result (StopsFor (counts D.refused S.refused self.old) (counts D.refused S.refused self.new)) }
        ensures err { OnErr result (held D.kept S.kept self.new ≡ held D.kept S.kept self.old) }
    {
        self.desk.commit(txn)
    }

    /// A transaction is rolled back.
    pub(crate) fn rollback(&mut self, txn: Txn) -> Result<Out, Refusal>
        ensures leaves { LeavesMachines D.is_clean S.is_clean D.is_sound S.is_sound D.refused S.refused self.old self.new }
        ensures ok { (db : Database) (choice : Choice (language db)) → IsOver db self.old.desk.catalog.0 → AreFit db (held D.kept S.kept self.old)
            → IfOk result (λ out. Asked db txn choice Rollback (held D.kept S.kept self.old) (held D.kept S.kept self.new) out.letters out.replies) }
        ensures told { (db : Database) → IfErr result (λ told. (told ≡ refusals.Memory) ⊎ IsRefused db self.old.desk.later.items (volatile_of self.old.desk.volatile) (calls.Rollback txn) told) }
        ensures lists { (db : Database) (choice : Choice (language db)) → IsOfCatalogue db → StandsIn db self.old.desk → FitsList db (held D.kept S.kept self.old)
            → IfOk result (λ out. ListAsked db txn choice Rollback (held D.kept S.kept self.old) (held D.kept S.kept self.new) out.letters out.replies × StandsIn db self.new.desk) }
        ensures uncalled { CallsNoStore self.old self.new }
        ensures blames { IfErr result (StopsFor (counts D.refused S.refused self.old) (counts D.refused S.refused self.new)) }
        ensures err { OnErr result (held D.kept S.kept self.new ≡ held D.kept S.kept self.old) }
    {
        self.desk.rollback(txn)
    }

    /// A transaction is given up.
    pub(crate) fn give_up(&mut self, txn: Txn) -> Result<Out, Refusal>
        ensures leaves { LeavesMachines D.is_clean S.is_clean D.is_sound S.is_sound D.refused S.refused self.old self.new }
        ensures ok { (db : Database) (choice : Choice (language db)) → IsOver db self.old.desk.catalog.0 → AreFit db (held D.kept S.kept self.old)
            → IfOk result (λ out. Asked db txn choice Give_up (held D.kept S.kept self.old) (held D.kept S.kept self.new) out.letters out.replies) }
        ensures own { IfErr result (λ told. told ≡ refusals.Memory) }
        ensures kept { IfOk result (λ out. out.kept ≡ true) }
        ensures lists { (db : Database) (choice : Choice (language db)) → IsOfCatalogue db → StandsIn db self.old.desk → FitsList db (held D.kept S.kept self.old)
            → IfOk result (λ out. ListAsked db txn choice Give_up (held D.kept S.kept self.old) (held D.kept S.kept self.new) out.letters out.replies × StandsIn db self.new.desk) }
        ensures uncalled { CallsNoStore self.old self.new }
        ensures err { OnErr result (held D.kept S.kept self.new ≡ held D.kept S.kept self.old) }
    {
        self.desk.give_up(txn)
    }

    /// The coordinator restarts.
    pub(crate) fn restart(&mut self, kept: bool) -> Result<Out, Refusal>
        ensures leaves { LeavesMachines D.is_clean S.is_clean D.is_sound S.is_sound D.refused S.refused self.old self.new }
        ensures ok { (db : Database) → IsOver db self.old.desk.catalog.0 → OfStores D.is_clean S.is_clean self.new → OfStores D.is_sound S.is_sound self.old → AreFit db (held D.kept S.kept self.old)
            → IfOk result (λ out. Leads db desk_restarts (held D.kept S.kept self.old) (held D.kept S.kept self.new) out.letters out.replies) }
        ensures lists { (db : Database) → IsOfCatalogue db → StandsIn db self.old.desk → OfStores D.is_clean S.is_clean self.new → OfStores D.is_sound S.is_sound self.old → FitsList db (held D.kept S.kept self.old)
            → IfOk result (λ out. ListLeads db desk_restarts (held D.kept S.kept self.old) (held D.kept S.kept self.new) out.letters out.replies × StandsIn db self.new.desk) }
        ensures stays { OnErr result (StaysInForce self.old self.new) }
        ensures called { OnOk result (kept ≡ true) }
        ensures told { IfErr result (DeskRestartTells (OfStores D.is_clean S.is_clean self.new × OfStores D.is_sound S.is_sound self.old) (HaveRefused (counts D.refused S.refused self.old) (counts D.refused S.refused self.new)) kept self.old.desk.catalog.0 (D.kept self.old.desk.store)) }
        ensures uncalled { kept ≡ false → CallsNoStore self.old self.new }
        ensures err { StaysOnErr (OfStores D.is_clean S.is_clean) (OfStores D.is_sound S.is_sound) (held D.kept S.kept) self.old self.new result }
    {
        self.desk.restart_kept(kept)
    }

    /// A statement of a transaction, by its text. One that it is known to be read as isn't read again.
    pub(crate) fn statement(
        &mut self,
        txn: Txn,
        text: &str,
        known: Option<Statement>,
    ) -> Result<Out, Refusal>
        requires { IfSome known (IsReadAs (schemas_of (catalogue_of self.old.desk.catalog)) text.now) }
        ensures leaves { LeavesMachines D.is_clean S.is_clean D.is_sound S.is_sound D.refused S.refused self.old self.new }
        ensures ok { (db : Database) → IsOfCatalogue db → InForce db self.old.desk.volatile.version self.old.desk.catalog → AreFit db (held D.kept S.kept self.old)
            → IfOk result (λ out. Stated db txn text.now (held D.kept S.kept self.old) (held D.kept S.kept self.new) out.letters out.replies) }
        ensures told { (db : Database) → IsOfCatalogue db → InForce db self.old.desk.volatile.version self.old.desk.catalog → Fits db (D.kept self.old.desk.store) (volatile_of self.old.desk.volatile)
            → IfErr result (λ told. (told ≡ refusals.Memory) ⊎ IsRefused db self.old.desk.later.items (volatile_of self.old.desk.volatile) (calls.State txn text.now) told) }
        ensures lists { (db : Database) → IsOfCatalogue db → StandsIn db self.old.desk → FitsList db (held D.kept S.kept self.old)
            → IfOk result (λ out. ListStated db txn text.now (held D.kept S.kept self.old) (held D.kept S.kept self.new) out.letters out.replies × StandsIn db self.new.desk) }
        ensures uncalled { CallsNoStore self.old self.new }
        ensures blames { IfErr result (StopsFor (counts D.refused S.refused self.old) (counts D.refused S.refused self.new)) }
        ensures err { OnErr result (held D.kept S.kept self.new ≡ held D.kept S.kept self.old) }
    {
        self.desk.state(txn, text, known)
    }

    /// A relation gets the split of the next catalogue, by the text of the REFRAGMENT: a transaction of its own begins and states that.
    pub(crate) fn refragment(&mut self, text: &str) -> Result<Out, Refusal>
        ensures leaves { LeavesMachines D.is_clean S.is_clean D.is_sound S.is_sound D.refused S.refused self.old self.new }
        ensures next { OnOk result (self.old.desk.later.items ≢ []) }
        ensures finds_none { result ≡ Err refusals.NoNext → (self.old.desk.later.items ≡ []) ⊎ FindsNoNext (catalogue_of self.old.desk.catalog) (schemas_of (catalogue_of self.old.desk.catalog)) (first_in self.old.desk.later.items) text.now }
        ensures told { (db : Database) → IsOfCatalogue db → InForce db self.old.desk.volatile.version self.old.desk.catalog → Fits db (D.kept self.old.desk.store) (volatile_of self.old.desk.volatile)
            → IfErr result (λ told. (told ≡ refusals.Memory) ⊎ IsRefused db self.old.desk.later.items (volatile_of self.old.desk.volatile) (calls.Refragment text.now) told) }
        ensures lists { (db : Database) → IsOfCatalogue db → StandsIn db self.old.desk → FitsList db (held D.kept S.kept self.old)
            → IfOk result (λ out. ListMoved db text.now (held D.kept S.kept self.old) (held D.kept S.kept self.new) out.letters out.replies × StandsIn db self.new.desk) }
        ensures uncalled { CallsNoStore self.old self.new }
        ensures blames { IfErr result (StopsFor (counts D.refused S.refused self.old) (counts D.refused S.refused self.new)) }
        ensures err { OnErr result (held D.kept S.kept self.new ≡ held D.kept S.kept self.old) }
    {
        self.desk.refragment(text)
    }

    /// A letter of a site comes.
    #[inline(always)]
    fn reply(&mut self, letter: &Letter, kept: bool) -> Result<Out, Refusal>
        ensures leaves { LeavesDatabase D.is_clean S.is_clean D.is_sound S.is_sound D.refused S.refused self.old self.new }
        ensures ok { (db : Database) → IsOfCatalogue db → InForce db self.old.desk.volatile.version self.old.desk.catalog → OfStores D.is_clean S.is_clean self.new → OfStores D.is_sound S.is_sound self.old → AreFit db (held D.kept S.kept self.old) → is_order letter.now.body ≡ false → has_site db.sites letter.now.site ≡ true
            → IfOk result (λ out. Came db letter.now out.kept (held D.kept S.kept self.old) (held D.kept S.kept self.new) out.letters out.replies) }
        ensures told { (db : Database) → IsOfCatalogue db → StandsIn db self.old.desk → FitsList db (held D.kept S.kept self.old) → is_order letter.now.body ≡ false → has_site db.sites letter.now.site ≡ true
            → IfErr result (λ told. Tells db (held D.kept S.kept self.old) letter.now (faults.Desk told)) }
        ensures lists { (db : Database) → IsOfCatalogue db → StandsIn db self.old.desk → OfStores D.is_clean S.is_clean self.new → OfStores D.is_sound S.is_sound self.old → FitsList db (held D.kept S.kept self.old) → is_order letter.now.body ≡ false → has_site db.sites letter.now.site ≡ true
            → IfOk result (λ out. ListCame db letter.now out.kept (held D.kept S.kept self.old) (held D.kept S.kept self.new) out.letters out.replies × StandsIn db self.new.desk) }
        ensures follows { StaysOrFollows self.old self.new }
        ensures stays { OnErr result (StaysInForce self.old self.new) }
        ensures refusal { IfOk result (λ out. out.kept ≡ false → (kept ≡ false) ⊎ HaveRefused (counts D.refused S.refused self.old) (counts D.refused S.refused self.new)) }
        ensures own { IfErr result (λ told. (told ≡ refusals.Memory) ⊎ (told ≡ refusals.Full)) }
        ensures uncalled { kept ≡ false → CallsNoStore self.old self.new }
        ensures err { StaysOnErr (OfStores D.is_clean S.is_clean) (OfStores D.is_sound S.is_sound) (held D.kept S.kept) self.old self.new result }
    {
        self.desk.take_kept(letter, kept)
    }

    /// A letter comes to the machine that it is for.
    #[inline(always)]
    pub(crate) fn deliver(&mut self, letter: Letter, kept: bool) -> Result<Out, Fault>
        ensures leaves { LeavesDatabase D.is_clean S.is_clean D.is_sound S.is_sound D.refused S.refused self.old self.new }
        ensures ok { (db : Database) → IsOfCatalogue db → InForce db self.old.desk.volatile.version self.old.desk.catalog → OfStores D.is_clean S.is_clean self.new → OfStores D.is_sound S.is_sound self.old → AreFit db (held D.kept S.kept self.old) → has_site db.sites letter.site ≡ true
            → IfOk result (λ out. Came db letter out.kept (held D.kept S.kept self.old) (held D.kept S.kept self.new) out.letters out.replies) }
        ensures lists { (db : Database) → IsOfCatalogue db → StandsIn db self.old.desk → OfStores D.is_clean S.is_clean self.new → OfStores D.is_sound S.is_sound self.old → FitsList db (held D.kept S.kept self.old) → has_site db.sites letter.site ≡ true
            → IfOk result (λ out. ListCame db letter out.kept (held D.kept S.kept self.old) (held D.kept S.kept self.new) out.letters out.replies × StandsIn db self.new.desk) }
        ensures follows { StaysOrFollows self.old self.new }
        ensures stays { OnErr result (StaysInForce self.old self.new) }
        ensures keeps { (db : Database) → IsOfCatalogue db → InForce db self.old.desk.volatile.version self.old.desk.catalog → OfStores D.is_clean S.is_clean self.new → OfStores D.is_sound S.is_sound self.old → FitsList db (held D.kept S.kept self.old) → has_site db.sites letter.site ≡ true
            → IfOk result (λ out. CallKept out.kept (sent db letter).body) }
        ensures told { (db : Database) → IsOfCatalogue db → StandsIn db self.old.desk → FitsList db (held D.kept S.kept self.old) → has_site db.sites letter.site ≡ true
            → IfErr result (Tells db (held D.kept S.kept self.old) letter) }
        ensures spared { (db : Database) → IsOfCatalogue db → InForce db self.old.desk.volatile.version self.old.desk.catalog → OfStores D.is_clean S.is_clean self.new → OfStores D.is_sound S.is_sound self.old → AreFit db (held D.kept S.kept self.old) → has_site db.sites letter.site ≡ true
            → IfOk result (λ out. CameUnless ((kept ≡ false) ⊎ HaveRefused (counts D.refused S.refused self.old) (counts D.refused S.refused self.new)) db letter (held D.kept S.kept self.old) (held D.kept S.kept self.new) out.letters out.replies) }
        ensures spared_lists { (db : Database) → IsOfCatalogue db → StandsIn db self.old.desk → OfStores D.is_clean S.is_clean self.new → OfStores D.is_sound S.is_sound self.old → FitsList db (held D.kept S.kept self.old) → has_site db.sites letter.site ≡ true
            → IfOk result (λ out. ListCameUnless ((kept ≡ false) ⊎ HaveRefused (counts D.refused S.refused self.old) (counts D.refused S.refused self.new)) db letter (held D.kept S.kept self.old) (held D.kept S.kept self.new) out.letters out.replies) }
        ensures sent { result ≢ Err faults.Unsent }
        ensures unkept { is_order letter.body ≡ false → IfOk result (λ out. out.kept ≡ false → (kept ≡ false) ⊎ HaveRefused (counts D.refused S.refused self.old) (counts D.refused S.refused self.new)) }
        ensures blames { kept ≡ true → OfStores D.is_clean S.is_clean self.new → OfStores D.is_sound S.is_sound self.old
            → IfErr result (λ fault. IfSome (stop_of fault) (StopsFor (counts D.refused S.refused self.old) (counts D.refused S.refused self.new))) }
        ensures uncalled { kept ≡ false → CallsNoStore self.old self.new }
        ensures err { StaysOnErr (OfStores D.is_clean S.is_clean) (OfStores D.is_sound S.is_sound) (held D.kept S.kept) self.old self.new result }
    {
        if !is_order(&letter.body) {
            return match self.reply(&letter, kept) {
                Ok(out) => Ok(out),
                Err(refusal) => Err(Fault::Desk(refusal)),
            };
        }
        match self.at_site(SiteAction::Take(letter), kept) {
            Ok(out) => Ok(out),
            Err(fault) => Err(Fault::Site(fault)),
        }
    }

    /// Something is done at its site. A letter that comes there is an order.
    #[inline(always)]
    pub(crate) fn at_site(&mut self, what: SiteAction, kept: bool) -> Result<Out, SiteFault>
        requires { is_for_site what ≡ true }
        ensures leaves { LeavesMachines D.is_clean S.is_clean D.is_sound S.is_sound D.refused S.refused self.old self.new }
        ensures ok { (db : Database) (choice : Choice (language db)) (seat : Seat) → OfStores D.is_clean S.is_clean self.new → OfStores D.is_sound S.is_sound self.old → AreFit db (held D.kept S.kept self.old) → seat_of (place_of what) (held D.kept S.kept self.old).seats ≡ Some seat
            → IfOk result (λ out. Leads db (happens_at db what out.kept choice) (held D.kept S.kept self.old) (held D.kept S.kept self.new) out.letters out.replies) }
        ensures lists { (db : Database) (choice : Choice (language db)) (seat : Seat) → OfStores D.is_clean S.is_clean self.new → OfStores D.is_sound S.is_sound self.old → FitsList db (held D.kept S.kept self.old) → seat_of (place_of what) (held D.kept S.kept self.old).seats ≡ Some seat
            → IfOk result (λ out. ListLeads db (happens_at db what out.kept choice) (held D.kept S.kept self.old) (held D.kept S.kept self.new) out.letters out.replies) }
        ensures passes { (db : Database) (choice : Choice (language db)) (seat : Seat) (letter : LetterNow) → OfStores D.is_clean S.is_clean self.new → OfStores D.is_sound S.is_sound self.old → FitsList db (held D.kept S.kept self.old) → what ≡ things.Take letter
            → seat_of letter.site (held D.kept S.kept self.old).seats ≡ Some seat → IfOk result (λ out. passes (world_of db (held D.kept S.kept self.old) [] []) out.kept choice (sent db letter) ≡ true) }
        ensures desk { self.new.desk ≡ self.old.desk }
        ensures within { (db : Database) (choice : Choice (language db)) (seat : Seat) (letter : LetterNow) → OfStores D.is_clean S.is_clean self.new → OfStores D.is_sound S.is_sound self.old → AreFit db (held D.kept S.kept self.old) → what ≡ things.Take letter
            → seat_of letter.site (held D.kept S.kept self.old).seats ≡ Some seat → IfOk result (λ out. passes (world_of db (held D.kept S.kept self.old) [] []) out.kept choice (sent db letter) ≡ true) }
        ensures keeps { (db : Database) (seat : Seat) (letter : LetterNow) → OfStores D.is_clean S.is_clean self.new → OfStores D.is_sound S.is_sound self.old → FitsList db (held D.kept S.kept self.old) → what ≡ things.Take letter
            → seat_of letter.site (held D.kept S.kept self.old).seats ≡ Some seat → IfOk result (λ out. CallKept out.kept (sent db letter).body) }
        ensures told { (letter : LetterNow) (seat : Seat) → what ≡ things.Take letter → seat_of letter.site (held D.kept S.kept self.old).seats ≡ Some seat → IfErr result (SiteTells seat letter) }
        ensures vote { (letter : LetterNow) (seat : Seat) → what ≡ things.Take letter → seat_of letter.site (held D.kept S.kept self.old).seats ≡ Some seat → AsksToKeep seat.table letter.body
            → IfOk result (λ out. out.kept ≡ false → (kept ≡ false) ⊎ HaveRefused (counts D.refused S.refused self.old) (counts D.refused S.refused self.new)) }
        ensures called { (site : List ℕ) → what ≡ things.Restart site → OnOk result (kept ≡ true) }
        ensures fails { (seat : Seat) → seat_of (place_of what) (held D.kept S.kept self.old).seats ≡ Some seat
            → IfErr result (PlaceTells (OfStores D.is_clean S.is_clean self.new × OfStores D.is_sound S.is_sound self.old) (HaveRefused (counts D.refused S.refused self.old) (counts D.refused S.refused self.new)) what kept seat) }
        ensures blames { (letter : LetterNow) → what ≡ things.Take letter → kept ≡ true → OfStores D.is_clean S.is_clean self.new → OfStores D.is_sound S.is_sound self.old
            → IfErr result (λ fault. IfSome (stop_of (faults.Site fault)) (StopsFor (counts D.refused S.refused self.old) (counts D.refused S.refused self.new))) }
        ensures uncalled { may_call_at what kept ≡ false → CallsNoStore self.old self.new }
        ensures err { StaysOnErr (OfStores D.is_clean S.is_clean) (OfStores D.is_sound S.is_sound) (held D.kept S.kept) self.old self.new result }
    {
        match act_among(self.alloc, &mut self.sites, what, kept) {
            Ok(letters) => Ok(put_out(self.alloc, letters)),
            Err(fault) => Err(fault),
        }
    }
}

/// What a site puts out. A vote NO may come of a store that refused.
pub(crate) fn put_out(alloc: Global, letters: Vec<Letter>) -> Out
    ensures letters { result.letters ≡ letters.items }
    ensures replies { result.replies ≡ [] }
    ensures kept { result.kept ≡ kept_in letters.items }
{
    let kept = !votes_no(letters.as_slice());
    Out {
        letters: Seq::new(letters),
        replies: Seq::new(Vec::new(alloc)),
        kept,
    }
}

/// Whether the first of these letters is a vote NO.
fn votes_no(letters: &[Letter]) -> bool
    ensures { result ≡ not (kept_in letters.now) }
{
    match letters.first() {
        Some(letter) => matches!(
            &letter.body,
            Body::Reply(Reply::Voted(Voted { vote: Vote::No, .. }))
        ),
        None => false,
    }
}

/// Whether a letter is for a site.
pub(crate) fn is_order(body: &Body) -> bool
    ensures { result ≡ is_order body.now }
{
    matches!(body, Body::Order(_))
}

/// Whether one of the sites has this name.
fn is_among(sites: &[Text], name: &Text) -> bool
    ensures { result ≡ list_any (λ site. pointwise nat_eq site name.now) sites.now }
{
    for site in sites {
        if *site == *name {
            return true;
        }
    }
    false
}

/// Whether a catalogue has a site of this name.
pub(crate) fn has_site(catalog: &Catalog, name: &Text) -> bool
    ensures { result ≡ list_any (λ site. pointwise nat_eq site name.now) catalog.now.0 }
{
    is_among(catalog.sites(), name)
}

/// A letter that was sent comes again, or for the first time.
fn deliver<D: DeskStore, S: SiteStore>(
    machines: &mut Machines<D, S>,
    log: &Log,
    number: usize,
    kept: bool,
) -> Result<Out, Fault>
    ensures leaves { LeavesDatabase D.is_clean S.is_clean D.is_sound S.is_sound D.refused S.refused machines.old machines.new }
    ensures ok { (db : Database) (whole : Relations) (past : List (Deed (language db))) → IsOfCatalogue db → StandsIn db machines.old.desk → OfStores D.is_clean S.is_clean machines.new → OfStores D.is_sound S.is_sound machines.old
        → IsRun db whole (held D.kept S.kept machines.old) log.now.items past → IfOk result (λ out. StepsOn db whole (held D.kept S.kept machines.old) (held D.kept S.kept machines.new) log.now.items (log.now.items ++ entry_of (events.Deliver number kept) out ∷ []) past × StandsIn db machines.new.desk) }
    ensures spared { (db : Database) (past : List (Deed (language db))) → IsOfCatalogue db → StandsIn db machines.old.desk → OfStores D.is_clean S.is_clean machines.new → OfStores D.is_sound S.is_sound machines.old
        → FitsList db (held D.kept S.kept machines.old) → IfOk result (λ out. IsSpared (HaveRefused (counts D.refused S.refused machines.old) (counts D.refused S.refused machines.new)) db (held D.kept S.kept machines.old) (held D.kept S.kept machines.new) log.now.items (log.now.items ++ entry_of (events.Deliver number kept) out ∷ []) past number kept) }
    ensures follows { StaysOrFollows machines.old machines.new }
    ensures stays { OnErr result (StaysInForce machines.old machines.new) }
    ensures unsent { result ≡ Err faults.Unsent → is_unsent machines.old.desk.catalog.0 log.now.items (events.Deliver number kept) ≡ true }
    ensures nowhere { is_unsent machines.old.desk.catalog.0 log.now.items (events.Deliver number kept) ≡ true → result ≡ Err faults.Unsent }
    ensures refused { (db : Database) → IsOfCatalogue db → StandsIn db machines.old.desk → FitsList db (held D.kept S.kept machines.old)
        → IfErr result (IsRefusedFor (OfStores D.is_clean S.is_clean machines.new × OfStores D.is_sound S.is_sound machines.old) db (counted D.kept S.kept D.refused S.refused machines.old) (counted D.kept S.kept D.refused S.refused machines.new) log.now.items (events.Deliver number kept)) }
    ensures uncalled { kept ≡ false → CallsNoStore machines.old machines.new }
    ensures err { StaysOnErr (OfStores D.is_clean S.is_clean) (OfStores D.is_sound S.is_sound) (held D.kept S.kept) machines.old machines.new result }
{
    let Some(letter) = log.letter(number) else {
        return Err(Fault::Unsent);
    };
    if !has_site(machines.desk.catalog(), &letter.site) {
        return Err(Fault::Unsent);
    }
    let again = letter.copy()?;
    machines.deliver(again, kept)
}

/// A client's call is made.
fn call<D: DeskStore, S: SiteStore>(
    machines: &mut Machines<D, S>,
    call: &Call,
) -> Result<Out, Refusal>
    ensures leaves { LeavesMachines D.is_clean S.is_clean D.is_sound S.is_sound D.refused S.refused machines.old machines.new }
    ensures ok { (db : Database) (whole : Relations) (entries : List EntryNow) (past : List (Deed (language db))) → IsOfCatalogue db → StandsIn db machines.old.desk
        → IsRun db whole (held D.kept S.kept machines.old) entries past → IfOk result (λ out. StepsOn db whole (held D.kept S.kept machines.old) (held D.kept S.kept machines.new) entries (entries ++ entry_of (events.Call call.now) out ∷ []) past × StandsIn db machines.new.desk) }
    ensures stays { OnErr result (StaysInForce machines.old machines.new) }
    ensures refused { (db : Database) → IsOfCatalogue db → InForce db machines.old.desk.volatile.version machines.old.desk.catalog → Fits db (D.kept machines.old.desk.store) (volatile_of machines.old.desk.volatile)
        → IfErr result (λ told. (told ≡ refusals.Memory) ⊎ IsRefused db machines.old.desk.later.items (volatile_of machines.old.desk.volatile) call.now told) }
    ensures uncalled { CallsNoStore machines.old machines.new }
    ensures err { OnErr result (held D.kept S.kept machines.new ≡ held D.kept S.kept machines.old) }
{
    match call {
        Call::Begin => machines.begin(),
        Call::State(txn, text) => machines.statement(*txn, text.as_str(), None),
        Call::Commit(txn) => machines.commit(*txn),
        Call::Rollback(txn) => machines.rollback(*txn),
        Call::GiveUp(txn) => machines.give_up(*txn),
        Call::Refragment(text) => machines.refragment(text.as_str()),
    }
}

/// Something happens at a site but for letters, if the catalogue has it.
fn apply_event_at<D: DeskStore, S: SiteStore>(
    machines: &mut Machines<D, S>,
    what: SiteAction,
    kept: bool,
) -> Result<Out, Fault>
    requires { is_letter what ≡ false }
    ensures leaves { LeavesMachines D.is_clean S.is_clean D.is_sound S.is_sound D.refused S.refused machines.old machines.new }
    ensures ok { (db : Database) (whole : Relations) (entries : List EntryNow) (at : EventNow) (past : List (Deed (language db))) → IsOfCatalogue db → StandsIn db machines.old.desk → OfStores D.is_clean S.is_clean machines.new → OfStores D.is_sound S.is_sound machines.old
        → IsAtSite what kept at → IsRun db whole (held D.kept S.kept machines.old) entries past → IfOk result (λ out. StepsOn db whole (held D.kept S.kept machines.old) (held D.kept S.kept machines.new) entries (entries ++ entry_of at out ∷ []) past × StandsIn db machines.new.desk) }
    ensures desk { machines.new.desk ≡ machines.old.desk }
    ensures unsent { result ≡ Err faults.Unsent → not (has_site machines.old.desk.catalog.0 (place_of what)) ≡ true }
    ensures nowhere { not (has_site machines.old.desk.catalog.0 (place_of what)) ≡ true → result ≡ Err faults.Unsent }
    ensures refused { (db : Database) (entries : List EntryNow) (at : EventNow) → IsOfCatalogue db → InForce db machines.old.desk.volatile.version machines.old.desk.catalog → FitsList db (held D.kept S.kept machines.old) → IsAtSite what kept at
        → IfErr result (IsRefusedFor (OfStores D.is_clean S.is_clean machines.new × OfStores D.is_sound S.is_sound machines.old) db (counted D.kept S.kept D.refused S.refused machines.old) (counted D.kept S.kept D.refused S.refused machines.new) entries at) }
    ensures uncalled { may_call_at what kept ≡ false → CallsNoStore machines.old machines.new }
    ensures err { StaysOnErr (OfStores D.is_clean S.is_clean) (OfStores D.is_sound S.is_sound) (held D.kept S.kept) machines.old machines.new result }
{
    if !has_site(machines.desk.catalog(), what.site()) {
        return Err(Fault::Unsent);
    }
    match machines.at_site(what, kept) {
        Ok(out) => Ok(out),
        Err(fault) => Err(Fault::Site(fault)),
    }
}

/// An event happens. Where it is refused nothing has changed.
pub(crate) fn apply_event<D: DeskStore, S: SiteStore>(
    machines: &mut Machines<D, S>,
    log: &Log,
    event: &Event,
) -> Result<Out, Fault>
    ensures leaves { LeavesDatabase D.is_clean S.is_clean D.is_sound S.is_sound D.refused S.refused machines.old machines.new }
    ensures ok { (db : Database) (whole : Relations) (past : List (Deed (language db))) → IsOfCatalogue db → StandsIn db machines.old.desk → OfStores D.is_clean S.is_clean machines.new → OfStores D.is_sound S.is_sound machines.old
        → IsRun db whole (held D.kept S.kept machines.old) log.now.items past → IfOk result (λ out. StepsOn db whole (held D.kept S.kept machines.old) (held D.kept S.kept machines.new) log.now.items (log.now.items ++ entry_of event.now out ∷ []) past × StandsIn db machines.new.desk) }
    ensures follows { StaysOrFollows machines.old machines.new }
    ensures stays { OnErr result (StaysInForce machines.old machines.new) }
    ensures spared { (db : Database) (past : List (Deed (language db))) → IsOfCatalogue db → StandsIn db machines.old.desk → OfStores D.is_clean S.is_clean machines.new → OfStores D.is_sound S.is_sound machines.old
        → FitsList db (held D.kept S.kept machines.old) → IfOk result (λ out. Spares (HaveRefused (counts D.refused S.refused machines.old) (counts D.refused S.refused machines.new)) db (held D.kept S.kept machines.old) (held D.kept S.kept machines.new) log.now.items (log.now.items ++ entry_of event.now out ∷ []) past event.now) }
    ensures unsent { result ≡ Err faults.Unsent → is_unsent machines.old.desk.catalog.0 log.now.items event.now ≡ true }
    ensures nowhere { is_unsent machines.old.desk.catalog.0 log.now.items event.now ≡ true → (result ≡ Err faults.Unsent) ⊎ (result ≡ Err (faults.Desk refusals.Memory)) }
    ensures refused { (db : Database) → IsOfCatalogue db → StandsIn db machines.old.desk → FitsList db (held D.kept S.kept machines.old)
        → IfErr result (IsRefusedFor (OfStores D.is_clean S.is_clean machines.new × OfStores D.is_sound S.is_sound machines.old) db (counted D.kept S.kept D.refused S.refused machines.old) (counted D.kept S.kept D.refused S.refused machines.new) log.now.items event.now) }
    ensures uncalled { may_call event.now ≡ false → CallsNoStore machines.old machines.new }
    ensures err { StaysOnErr (OfStores D.is_clean S.is_clean) (OfStores D.is_sound S.is_sound) (held D.kept S.kept) machines.old machines.new result }
{
    match event {
        Event::Call(asked) => by_desk(call(machines, asked)),
        Event::Deliver(number, kept) => deliver(machines, log, *number, *kept),
        Event::SiteGivesUp(site, ticket) => {
            let what = SiteAction::GiveUp(site.copy()?, *ticket);
            apply_event_at(machines, what, true)
        }
        Event::SiteInquires(site) => {
            let what = SiteAction::Inquire(site.copy()?);
            apply_event_at(machines, what, true)
        }
        Event::SiteRestarts(site, kept) => {
            let what = SiteAction::Restart(site.copy()?);
            apply_event_at(machines, what, *kept)
        }
        Event::DeskRestarts(kept) => by_desk(machines.restart(*kept)),
    }
}

/// A refusal of the coordinator as a fault.
fn by_desk(done: Result<Out, Refusal>) -> Result<Out, Fault>
    ensures { result ≡ told_by_desk done }
{
    match done {
        Ok(out) => Ok(out),
        Err(refusal) => Err(Fault::Desk(refusal)),
    }
}
