//! Schedules by chance, over lists and over SQLite: what was committed has to be what whole relations come to, one
//! transaction after another. Over lists transactions end in each way in which they can.

use crate::chance::Chance;
use crate::ends::{Ends, WAYS};
use crate::sqldatabases::site_stores;
use crate::statements::line;
use crate::worlds::{loaded, opened_over};
use catalog::chain::Chain;
use desk::refusal::Refusal;
use desk::reply::{Notice, Reply};
use meaning::schema::Schema;
use meaning::whole::Whole;
use reader::print_answer::print_answer;
use samples::catalogues::EMP_AND_DEPT;
use samples::chains::catalog;
use site::fault::SiteFault;
use sqlstore::desk::SqlDesk;
use std::alloc::Global;
use std::test::*;
use store::desk_store::DeskStore;
use store::letter::{Body, Letter};
use store::name::{Ticket, Txn};
use store::plain_desk::PlainDesk;
use store::plain_site::PlainSite;
use store::reply::{Reason, Reply as SiteReply};
use store::site_store::SiteStore;
use terms::copy::TryCopy;
use terms::memory::Memory;
use terms::same::same_all;
use terms::text::Text;
use world::chain::alone;
use world::committed::Committed;
use world::event::{Call, Event};
use world::fault::Fault;
use world::world::{World, open_on};

const EVENTS: usize = 300;

const CLIENTS: usize = 4;

/// The place of the client whose transaction gives a relation another split.
const MOVER: usize = 5;

/// The rows with which each schedule begins.
const LOAD: &str = "INSERT INTO dept VALUES (1, 'paint')
INSERT INTO dept VALUES (7, 'dock')
INSERT INTO dept VALUES (12, 'paint')
INSERT INTO emp VALUES (1, 'Ada', 1, 10)
INSERT INTO emp VALUES (2, 'Bo', 7, 20)
INSERT INTO emp VALUES (3, 'Cy', 12, 30)";

/// Whether a site refuses a lock by this letter.
fn refuses_lock(letter: &Letter) -> bool {
    match &letter.body {
        Body::Reply(SiteReply::Refused(refusal)) => refusal.reason == Reason::Lock,
        _ => false,
    }
}

/// A client with one transaction.
#[derive(Drop)]
struct Client {
    /// The transaction, once it has begun.
    txn: Option<Txn>,
    /// How many statements are left.
    left: u64,
    rolls_back: bool,
    is_done: bool,
    /// The site whose letters of the transaction wait long, if there is one.
    slow_at: &'static str,
}

impl Client {
    /// The client of a transaction that has begun to give a relation another split, with these replies.
    fn mover(replies: &[Notice]) -> Client {
        Client {
            txn: replies.first().map(|notice| notice.txn),
            left: 0,
            rolls_back: false,
            is_done: false,
            slow_at: "",
        }
    }

    /// The next call.
    fn call(&self, alloc: Global, chance: &mut Chance) -> Result<Call, Memory> {
        let Some(txn) = self.txn else {
            return Ok(Call::Begin);
        };
        if self.left > 0 {
            return Ok(Call::State(txn, chance.statement(alloc)?));
        }
        Ok(if self.rolls_back {
            Call::Rollback(txn)
        } else {
            Call::Commit(txn)
        })
    }

    /// A call was accepted, with these replies.
    fn goes_on(&mut self, replies: &[Notice]) {
        if self.txn.is_none() {
            self.txn = replies.first().map(|notice| notice.txn);
        } else if self.left > 0 {
            self.left = self.left.saturating_sub(1);
        } else {
            self.is_done = true;
        }
    }

    /// A call was accepted, with these replies, or it was refused.
    fn hears(&mut self, heard: Option<&[Notice]>) {
        match heard {
            Some(replies) => self.goes_on(replies),
            None => self.is_done = true,
        }
    }

    fn is_slow(&self, letter: &Letter) -> bool {
        self.txn == Some(letter.txn) && letter.site.as_str() == self.slow_at
    }
}

/// A schedule as it grows.
#[derive(Drop)]
pub(crate) struct Schedule {
    chance: Chance,
    /// How often something breaks, of a hundred events.
    trouble: u64,
    pub(crate) world: World<PlainDesk, PlainSite>,
    clients: Vec<Client>,
    /// The client of the last transaction that gives a relation another split.
    mover: Option<Client>,
    /// Whether each letter came, by its number.
    came: Vec<bool>,
    pub(crate) events: Vec<Event>,
    ends: Ends,
}

impl Schedule {
    fn new(alloc: Global, seed: u64, chain: &Chain) -> Result<Schedule, Memory> {
        let mut chance = Chance { last: seed };
        let mut clients = Vec::new(alloc);
        for _ in 0..CLIENTS {
            clients.push(Client {
                txn: None,
                left: chance.below(3).saturating_add(1),
                rolls_back: chance.is_met(10),
                is_done: false,
                slow_at: if chance.is_met(30) { "" } else { chance.site() },
            })?;
        }
        Ok(Schedule {
            trouble: chance.below(4),
            chance,
            world: opened_over(alloc, chain, LOAD)?,
            clients,
            mover: None,
            came: Vec::new(alloc),
            events: Vec::new(alloc),
            ends: Ends::new(),
        })
    }

    /// The number of the first letter that never came; where a quick one is asked for, of no slow link.
    fn first(&self, is_quick: bool) -> Option<usize> {
        for (number, came) in self.came.as_slice().iter().enumerate() {
            if *came {
                continue;
            }
            let Some(letter) = self.world.letter(number) else {
                return None;
            };
            let mut clients = self.clients.as_slice().iter();
            if !is_quick || !clients.any(|client| client.is_slow(letter)) {
                return Some(number);
            }
        }
        None
    }

    /// A letter comes: mostly the first one that never came and is of no slow link, sometimes any, sometimes one
    /// whose store call is refused.
    fn delivery(&mut self) -> Event {
        let any = self.chance.below(self.came.len() as u64) as usize;
        let is_quick = self.chance.is_met(98);
        let first = self.first(is_quick).or_else(|| self.first(false));
        let number = if self.chance.is_met(93) {
            first.unwrap_or(any)
        } else {
            any
        };
        let is_refused = self.chance.is_met(self.trouble.saturating_mul(3));
        if let Some(came) = self.came.get_mut(number) {
            *came = true;
        }
        Event::Deliver(number, !is_refused)
    }

    /// A machine restarts, a site asks, a transaction or a visit is given up.
    fn trouble(&mut self, alloc: Global) -> Result<Event, Memory> {
        let site = Text::copy_of(alloc, self.chance.site())?;
        let ticket = Ticket {
            life: 1,
            visit: self.chance.below(6).saturating_add(1),
        };
        let txn = Txn {
            life: 1,
            number: self.chance.below(4).saturating_add(1),
        };
        let is_kept = !self.chance.is_met(10);
        Ok(match self.chance.below(6) {
            0 => Event::Call(Call::GiveUp(txn)),
            1 => Event::SiteGivesUp(site, ticket),
            2 => Event::SiteRestarts(site, is_kept),
            3 => Event::DeskRestarts(is_kept),
            _ => Event::SiteInquires(site),
        })
    }

    /// The place of the client that calls next: mostly one of the first, so that some are done when others begin.
    fn caller(&mut self) -> Option<usize> {
        let mut passed = self.chance.below(3);
        for (place, client) in self.clients.as_slice().iter().enumerate() {
            if client.is_done {
                continue;
            }
            if passed == 0 {
                return Some(place);
            }
            passed = passed.saturating_sub(1);
        }
        None
    }

    /// The next relation gets its other split, if it may: a transaction for that begins, or its commit is asked for.
    fn refragment(&mut self, alloc: Global) -> Result<(), Memory> {
        if let Some(client) = &self.mover {
            if !client.is_done {
                let event = Event::Call(client.call(alloc, &mut self.chance)?);
                return self.happens(event, MOVER);
            }
        }
        let text = match self.world.version() {
            1 => "REFRAGMENT emp",
            _ => "REFRAGMENT dept",
        };
        let event = Event::Call(Call::Refragment(Text::copy_of(alloc, text)?));
        self.happens(event, MOVER)
    }

    /// Something happens.
    fn grow(&mut self, alloc: Global) -> Result<(), Memory> {
        if !self.world.later().is_empty() && self.chance.is_met(8) {
            return self.refragment(alloc);
        }
        if self.chance.is_met(self.trouble) {
            let event = self.trouble(alloc)?;
            return self.happens(event, CLIENTS);
        }
        if self.chance.is_met(20) {
            let place = self.caller().unwrap_or(CLIENTS);
            if let Some(client) = self.clients.get(place) {
                let event = Event::Call(client.call(alloc, &mut self.chance)?);
                return self.happens(event, place);
            }
        }
        let event = self.delivery();
        self.happens(event, CLIENTS)
    }

    /// Whether an event is that a letter comes by which a site refuses a lock.
    fn is_locked(&self, event: &Event) -> bool {
        match event {
            Event::Deliver(number, _) => self.world.letter(*number).is_some_and(refuses_lock),
            _ => false,
        }
    }

    /// An event happens or is refused, which the client at this place asked for, if one is there.
    fn happens(&mut self, event: Event, place: usize) -> Result<(), Memory> {
        self.events.push(event.copy()?)?;
        let is_locked = self.is_locked(&event);
        let begins = matches!(event, Event::Call(Call::Refragment(_)));
        match self.world.step(event) {
            Ok(entry) => {
                for _ in entry.out.letters.as_slice() {
                    self.came.push(false)?;
                }
                self.ends.hear(entry.out.replies.as_slice(), is_locked);
                if begins {
                    self.mover = Some(Client::mover(entry.out.replies.as_slice()));
                } else {
                    let replies = Some(entry.out.replies.as_slice());
                    follow(&mut self.mover, self.clients.as_mut_slice(), place, replies);
                }
            }
            Err(Fault::Desk(Refusal::Memory)) => return Err(Memory),
            Err(Fault::Site(SiteFault::Memory)) => return Err(Memory),
            Err(Fault::Desk(Refusal::Busy | Refusal::NotAlone)) => {}
            Err(_) => follow(&mut self.mover, self.clients.as_mut_slice(), place, None),
        }
        Ok(())
    }
}

/// The client at this place, if there is one, hears of its call.
fn follow(
    mover: &mut Option<Client>,
    clients: &mut [Client],
    place: usize,
    heard: Option<&[Notice]>,
) {
    if place == MOVER {
        if let Some(mover) = mover {
            mover.hears(heard);
        }
    } else if let Some(client) = clients.get_mut(place) {
        client.hears(heard);
    }
}

/// Whether a committed transaction was answered what its statements mean, one after another, over these relations.
fn is_meant(
    alloc: Global,
    schema: &Schema,
    whole: &mut Whole,
    one: &Committed,
) -> Result<bool, Memory> {
    let (mut had, mut wanted) = (String::new(alloc), String::new(alloc));
    for answer in one.answers.as_slice() {
        had.push_str(print_answer(alloc, answer)?.as_str())?;
        had.push('\n')?;
    }
    for text in one.texts.as_slice() {
        wanted.push_str(line(alloc, schema, whole, text.as_str(), false)?.as_str())?;
        wanted.push('\n')?;
    }
    Ok(had.as_str() == wanted.as_str())
}

/// Whether a relation is that of this whole database.
fn is_shown<D: DeskStore, S: SiteStore>(
    alloc: Global,
    world: &mut World<D, S>,
    whole: &Whole,
    word: &str,
) -> Result<bool, Memory> {
    let relation = Text::copy_of(alloc, word)?;
    match world.rebuilt(&relation) {
        Ok(Some(rows)) => Ok(same_all(rows.as_slice(), whole.rows(&relation))),
        Ok(None) => Ok(false),
        Err(_) => Err(Memory),
    }
}

/// Whether the committed transactions were answered so, and the relations are what they make of them.
pub(crate) fn is_serial<D: DeskStore, S: SiteStore>(
    alloc: Global,
    world: &mut World<D, S>,
) -> Result<bool, Memory> {
    let catalog = catalog(alloc, EMP_AND_DEPT)?;
    let mut whole = loaded(alloc, &catalog, LOAD)?;
    for one in world.committed()?.as_slice() {
        if !is_meant(alloc, catalog.schema(), &mut whole, one)? {
            return Ok(false);
        }
    }
    Ok(is_shown(alloc, world, &whole, "dept")? && is_shown(alloc, world, &whole, "emp")?)
}

/// Whether the same events come to that over stores in SQLite too.
pub(crate) fn is_serial_over_sql(
    alloc: Global,
    chain: &Chain,
    events: &[Event],
) -> Result<bool, Memory> {
    let catalog = catalog(alloc, EMP_AND_DEPT)?;
    let whole = loaded(alloc, &catalog, LOAD)?;
    let Some(first) = chain.as_slice().first() else {
        return Err(Memory);
    };
    let sites = site_stores(alloc, first)?;
    let desk = SqlDesk::memory(alloc).map_err(|_| Memory)?;
    if sites.len() != first.sites().len() {
        return Err(Memory);
    }
    let Ok(mut world) = open_on(alloc, chain, &whole, sites, desk) else {
        return Err(Memory);
    };
    if world.run(events).is_err() {
        return Err(Memory);
    }
    is_serial(alloc, &mut world)
}

/// Whether the schedule of a seed comes to that over lists and, where asked for, over SQLite. How its transactions ended
/// is added to these.
fn plays(alloc: Global, seed: u64, in_sql: bool, ends: &mut Ends) -> Result<bool, Memory> {
    let chain = alone(alloc, &catalog(alloc, EMP_AND_DEPT)?)?;
    let mut schedule = played(alloc, seed, &chain)?;
    let is_right = is_serial(alloc, &mut schedule.world)?
        && (!in_sql || is_serial_over_sql(alloc, &chain, schedule.events.as_slice())?);
    ends.add_all(&schedule.ends);
    Ok(is_right)
}

/// The schedule of a seed over these catalogues, to its end.
pub(crate) fn played(alloc: Global, seed: u64, chain: &Chain) -> Result<Schedule, Memory> {
    let mut schedule = Schedule::new(alloc, seed, chain)?;
    for _ in 0..EVENTS {
        schedule.grow(alloc)?;
    }
    Ok(schedule)
}

/// Once more where memory ran out.
fn is_played(alloc: Global, seed: u64, in_sql: bool, ends: &mut Ends) -> bool {
    match plays(alloc, seed, in_sql, ends) {
        Ok(is_right) => is_right,
        Err(_) => plays(alloc, seed, in_sql, ends) == Ok(true),
    }
}

#[test]
fn schedules_over_lists(rt: HostRuntime) {
    let mut ends = Ends::new();
    for seed in 1..201 {
        assert!(rt;
            is_played(rt.alloc(), seed, false, &mut ends),
            "seed {seed}"
        );
    }
    for (place, way) in WAYS.iter().enumerate() {
        assert!(rt; ends.is_met(place), "{way}");
    }
}

#[test]
fn schedules_over_sql(rt: HostRuntime) {
    let mut ends = Ends::new();
    for seed in 1..21 {
        assert!(rt; is_played(rt.alloc(), seed, true, &mut ends), "seed {seed}");
    }
}
