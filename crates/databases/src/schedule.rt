//! Schedules: a world, event by event, and what is told of each event.

ghost use Rattle.std.specs.Prelude.{◌≡◌, ◌++◌, ◌∷◌, [], List, Some, IfOk, IfSome, OnOk, length, option_map, string_bytes};
ghost use Rattle.std.specs.Option.{option_copied};
ghost use Rattle.catalog.specs.Relation.{catalogue_of};
ghost use Rattle.desk.specs.declared.reply.Out.{Out as OutNow};
ghost use Rattle.world.specs.declared.event.Entry.{Entry as EntryNow};
ghost use Rattle.world.specs.declared.event.Event.{Event as EventNow};
ghost use Rattle.world.specs.declared.event.Event.TheVariants as events;
ghost use Rattle.world.specs.Posted.{letters_in};
ghost use Rattle.world.specs.Runs.{entry_of};
ghost use Rattle.lines.specs.Cast.{name_of};
ghost use Rattle.databases.specs.PlayText.{out_text};
ghost use Rattle.databases.specs.Schedule as spec;
ghost use Rattle.databases.specs.Schedule.{Asks, Begins, HappensAt, IsCounted, IsNamedFirst, KeepsNames, LeavesWorld, RestartsDesk, Steps, Tries, event_at, of_client, refusal_text, stage_of, unseen, world_over};

use crate::play_text::{out_text, put_fault, put_told, refused_text};
use desk::refusal::Refusal;
use desk::reply::{Notice, Out};
use lines::cast::Cast;
use lines::play_script::{Ask, AtSite};
use site::fault::SiteFault;
use std::alloc::Global;
use store::desk_store::DeskStore;
use store::letter::Letter;
use store::name::Txn;
use store::site_store::SiteStore;
use terms::copy::TryCopy;
use terms::memory::Memory;
use terms::text::Text;
use world::event::{Call, Entry, Event};
use world::fault::Fault;
use world::world::World;

/// What the coordinator is called where no client is told.
const DESK: &str = "desk";

/// A world, how its transactions are named, and for each letter that was ever sent whether it came.
#[derive(Drop)]
pub struct Schedule<D: DeskStore, S: SiteStore> {
    pub world: World<D, S>,
    pub cast: Cast,
    pub came: Vec<bool>,
}

/// What the last of some events put out.
fn last_out(entries: &[Entry]) -> Option<&Out>
    ensures { (past : List EntryNow) (entry : EntryNow) → entries.now ≡ past ++ entry ∷ [] → option_copied result ≡ Some entry.out }
{
    match entries.last() {
        Some(entry) => Some(&entry.out),
        None => None,
    }
}

/// Letters are sent, and did not come yet.
fn add_sent(came: &mut Vec<bool>, letters: &[Letter]) -> Result<(), Memory>
    ensures { OnOk result (came.new.items ≡ came.old.items ++ unseen letters.now) }
{
    for _letter in letters {
        came.push(false)?;
    }
    Ok(())
}

/// The transaction that the first of some notices is about has this name from now on.
fn name_first(cast: &mut Cast, name: &Text, notices: &[Notice]) -> Result<(), Memory>
    ensures { OnOk result (IsNamedFirst name.now notices.now cast.old cast.new) }
{
    match notices.first() {
        Some(notice) => cast.put(name, notice.txn),
        None => Ok(()),
    }
}

/// What is told of an event that is refused: to a client, or of a site, or that there is no such letter or site.
pub fn refusal(
    alloc: Global,
    client: &str,
    site: &str,
    missing: &str,
    fault: Fault,
) -> Result<String, Memory>
    ensures { IfOk result (λ text. string_bytes text ≡ refusal_text (record { client = client.now; site = site.now; missing = missing.now }) fault) }
{
    let mut out = String::new(alloc);
    match fault {
        Fault::Desk(refusal) => {
            let text = refused_text(alloc, refusal)?;
            put_told(&mut out, client, text.as_str())?;
        }
        Fault::Site(fault) => put_fault(&mut out, site, fault)?,
        Fault::Unsent => writeln!(out, "{missing}")?,
    }
    Ok(out)
}

impl<D: DeskStore, S: SiteStore> Schedule<D, S> {
    /// Nothing has happened in the world yet.
    pub fn new(alloc: Global, world: World<D, S>) -> Schedule<D, S>
        ensures world { result.world ≡ world }
        ensures txns { result.cast.txns.entries ≡ [] }
        ensures names { result.cast.names.entries ≡ [] }
        ensures came { result.came.items ≡ [] }
    {
        Schedule {
            world,
            cast: Cast::new(alloc),
            came: Vec::new(alloc),
        }
    }

    /// An event happens, or is refused: then it is answered why.
    pub fn step(&mut self, event: Event) -> Result<Option<Fault>, Memory>
        ensures steps { IfOk result (λ why. Steps event (stage_of self.old) (stage_of self.new) why) }
        ensures counted { IsCounted (stage_of self.old) → OnOk result (IsCounted (stage_of self.new)) }
        ensures leaves { LeavesWorld (world_over D.is_clean S.is_clean D.is_sound S.is_sound D.kept S.kept D.refused S.refused) self.old.world self.new.world }
    {
        match self.world.step(event) {
            Ok(entry) => {
                add_sent(&mut self.came, entry.out.letters.as_slice())?;
                Ok(None)
            }
            Err(Fault::Desk(Refusal::Memory)) => Err(Memory),
            Err(Fault::Site(SiteFault::Memory)) => Err(Memory),
            Err(fault) => Ok(Some(*fault)),
        }
    }

    /// What the last event put out.
    pub fn told(&self, alloc: Global) -> Result<String, Memory>
        requires { IsCounted (stage_of self.now) }
        ensures { (what : EventNow) (out : OutNow) (past : List EntryNow) → self.now.world.entries.items ≡ past ++ entry_of what out ∷ []
            → IfOk result (λ text. string_bytes text ≡ out_text (name_of self.now.cast) (catalogue_of self.now.world.machines.desk.catalog) (length (letters_in past)) out) }
    {
        let Some(out) = last_out(self.world.entries()) else {
            return Ok(String::new(alloc));
        };
        let before = self.came.len().saturating_sub(out.letters.as_slice().len());
        out_text(alloc, &self.cast, self.world.catalog(), before, out)
    }

    /// What the client of the transaction of this name asks for.
    pub fn ask(&mut self, alloc: Global, name: &Text, ask: &Ask) -> Result<String, Memory>
        requires { IsCounted (stage_of self.old) }
        ensures asks { IfOk result (λ text. Asks name.now ask.now (stage_of self.old) (stage_of self.new) (string_bytes text)) }
        ensures leaves { LeavesWorld (world_over D.is_clean S.is_clean D.is_sound S.is_sound D.kept S.kept D.refused S.refused) self.old.world self.new.world }
    {
        match ask {
            Ask::Begin => self.begin(alloc, name, Call::Begin),
            Ask::Refragment(text) => self.begin(alloc, name, Call::Refragment(text.copy()?)),
            _ => match self.cast.txn(name) {
                Some(txn) => self.call(alloc, name, call_of(txn, ask)?),
                None => unknown(alloc, name, ask),
            },
        }
    }

    /// A transaction is begun under this name, by a call that begins one.
    fn begin(&mut self, alloc: Global, name: &Text, call: Call) -> Result<String, Memory>
        requires { IsCounted (stage_of self.old) }
        ensures tries { IfOk result (λ text. Begins name.now call (stage_of self.old) (stage_of self.new) (string_bytes text)) }
        ensures leaves { LeavesWorld (world_over D.is_clean S.is_clean D.is_sound S.is_sound D.kept S.kept D.refused S.refused) self.old.world self.new.world }
    {
        match self.step(Event::Call(call)) {
            Ok(None) => {
                if let Some(out) = last_out(self.world.entries()) {
                    name_first(&mut self.cast, name, out.replies.as_slice())?;
                }
                self.told(alloc)
            }
            Ok(Some(fault)) => refusal(alloc, name.as_str(), DESK, "", fault),
            Err(error) => Err(error),
        }
    }

    /// The client of the transaction of this name makes a call.
    fn call(&mut self, alloc: Global, name: &Text, call: Call) -> Result<String, Memory>
        requires { IsCounted (stage_of self.old) }
        ensures tries { IfOk result (λ text. Tries KeepsNames (of_client name.now) (events.Call call) (stage_of self.old) (stage_of self.new) (string_bytes text)) }
        ensures leaves { LeavesWorld (world_over D.is_clean S.is_clean D.is_sound S.is_sound D.kept S.kept D.refused S.refused) self.old.world self.new.world }
    {
        match self.step(Event::Call(call)) {
            Ok(None) => self.told(alloc),
            Ok(Some(fault)) => refusal(alloc, name.as_str(), DESK, "", fault),
            Err(error) => Err(error),
        }
    }

    /// Something happens at the site of this name.
    pub fn at_site(&mut self, alloc: Global, site: &Text, doing: AtSite) -> Result<String, Memory>
        requires { IsCounted (stage_of self.old) }
        ensures happens { IfOk result (λ text. HappensAt site.now doing (stage_of self.old) (stage_of self.new) (string_bytes text)) }
        ensures leaves { LeavesWorld (world_over D.is_clean S.is_clean D.is_sound S.is_sound D.kept S.kept D.refused S.refused) self.old.world self.new.world }
    {
        match self.step(event_at(site.copy()?, doing)) {
            Ok(None) => self.told(alloc),
            Ok(Some(fault)) => {
                let missing = format!(in alloc; "no site {site}")?;
                refusal(alloc, DESK, site.as_str(), missing.as_str(), fault)
            }
            Err(error) => Err(error),
        }
    }

    /// The coordinator restarts.
    pub fn restart_desk(&mut self, alloc: Global) -> Result<String, Memory>
        requires { IsCounted (stage_of self.old) }
        ensures restarts { IfOk result (λ text. RestartsDesk (stage_of self.old) (stage_of self.new) (string_bytes text)) }
        ensures leaves { LeavesWorld (world_over D.is_clean S.is_clean D.is_sound S.is_sound D.kept S.kept D.refused S.refused) self.old.world self.new.world }
    {
        match self.step(Event::DeskRestarts(true)) {
            Ok(None) => self.told(alloc),
            Ok(Some(fault)) => refusal(alloc, DESK, DESK, "", fault),
            Err(error) => Err(error),
        }
    }
}

/// What a client hears whose transaction the coordinator doesn't know.
fn unknown(alloc: Global, name: &Text, ask: &Ask) -> Result<String, Memory>
    ensures { IfOk result (λ text. string_bytes text ≡ spec.unknown_text name.now ask.now) }
{
    match ask {
        Ask::GiveUp => Ok(String::new(alloc)),
        _ => {
            let unknown = Fault::Desk(Refusal::NoTransaction);
            refusal(alloc, name.as_str(), DESK, "", unknown)
        }
    }
}

/// The call that a client makes.
fn call_of(txn: Txn, ask: &Ask) -> Result<Call, Memory>
    ensures { IfOk result (λ call. call ≡ spec.call_of txn ask.now) }
{
    match ask {
        Ask::Begin => Ok(Call::Begin),
        Ask::Refragment(text) => Ok(Call::Refragment(text.copy()?)),
        Ask::State(text) => Ok(Call::State(txn, text.copy()?)),
        Ask::Commit => Ok(Call::Commit(txn)),
        Ask::Rollback => Ok(Call::Rollback(txn)),
        Ask::GiveUp => Ok(Call::GiveUp(txn)),
    }
}

/// What happens at a site.
fn event_at(site: Text, doing: AtSite) -> Event
    ensures { result ≡ spec.event_at site doing }
{
    match doing {
        AtSite::GiveUp(ticket) => Event::SiteGivesUp(site, ticket),
        AtSite::Inquire => Event::SiteInquires(site),
        AtSite::Restart => Event::SiteRestarts(site, true),
    }
}
