//! Databases whose sites work in threads: what their sessions are told, and that it is woven into one run.

use crate::meeting::{Meetings, SouthFirst, shared};
use crate::site_stores::{OpensSites, Plain};
use catalog::chain::Chain;
use desk::reply::Reply;
use history::entry::Input;
use history::told::Told;
use history::weave::{WeaveFault, weave};
use reader::print_answer::print_answer;
use samples::catalogues::EMP_AND_DEPT;
use samples::chains::catalog;
use std::alloc::{AllocError, Global};
use std::sync::atomic::Ordering;
use std::sync::{Arc, Wait};
use std::test::*;
use std::thread;
use std::thread::Threads;
use std::time::Clock;
use store::desk_store::DeskStore;
use store::plain_desk::PlainDesk;
use store::site_store::SiteStore;
use terms::copy::TryCopy;
use terms::memory::Memory;
use terms::text::Text;
use wire::database::Database;
use wire::gate::{Gate, Ungated};
use wire::records::Records;
use wire::session::Session;
use world::chain::alone;

/// A database whose coordinator's store is in memory.
pub(crate) type Opened<S, G> = Database<S, PlainDesk, G>;

/// A text, and what it is answered.
type Line = (&'static str, &'static str);

const NORTH: [Line; 1] = [("INSERT INTO dept VALUES (1, 'x')", "changed 1")];

const SOUTH: [Line; 1] = [("INSERT INTO dept VALUES (50, 'y')", "changed 1")];

const BEFORE_RESTART: [Line; 8] = [
    ("INSERT INTO dept VALUES (1, 'x')", "changed 1"),
    ("COMMIT", "1 NoTransaction"),
    ("BEGIN", "begun"),
    ("BEGIN", "2 Busy"),
    ("INSERT INTO dept VALUES (2, 'y')", "changed 1"),
    ("SELECT nothing", "5 Read"),
    ("ROLLBACK", "rolled back"),
    ("SELECT no FROM dept WHERE no = 2", "no\n0 rows"),
];

const AFTER_RESTART: [Line; 4] = [
    ("SELECT title FROM dept WHERE no = 1", "title\nx\n1 row"),
    ("BEGIN", "begun"),
    ("UPDATE dept SET title = 'z' WHERE no = 1", "changed 1"),
    ("COMMIT", "committed"),
];

const LOCKS: [Line; 2] = [
    ("BEGIN", "begun"),
    ("UPDATE dept SET title = 'z' WHERE no = 1", "changed 1"),
];

const IS_LOCKED_OUT: [Line; 5] = [
    ("UPDATE dept SET title = 'u' WHERE no = 1", "6 Aborted"),
    ("BEGIN", "begun"),
    ("UPDATE dept SET title = 'v' WHERE no = 1", "6 Aborted"),
    ("COMMIT", "1 NoTransaction"),
    ("SELECT title FROM dept WHERE no = 50", "title\ny\n1 row"),
];

const GOES_ON: [Line; 2] = [
    ("COMMIT", "committed"),
    ("SELECT title FROM dept", "title\nz\ny\n2 rows"),
];

/// A database of a chain of catalogues over new stores, without rows.
pub(crate) fn opened_over<R, S, G, O>(
    rt: &R,
    alloc: Global,
    chain: &Chain,
    opener: &O,
    gate: G,
) -> Result<Opened<S, G>, Memory>
where
    R: Threads + Wait + Copy + Send + 'static,
    S: SiteStore + Send + Drop + 'static,
    G: Gate + Send + Sync + Drop + 'static,
    O: OpensSites<S>,
{
    let stores = opener.stores(alloc, chain)?;
    match Database::open(rt, alloc, chain, stores, PlainDesk::new(alloc), gate) {
        Ok(database) => Ok(database),
        Err(_) => Err(Memory),
    }
}

/// A database over new stores, without rows.
fn opened<R, S, G, O>(rt: &R, alloc: Global, opener: &O, gate: G) -> Result<Opened<S, G>, Memory>
where
    R: Threads + Wait + Copy + Send + 'static,
    S: SiteStore + Send + Drop + 'static,
    G: Gate + Send + Sync + Drop + 'static,
    O: OpensSites<S>,
{
    let catalog = catalog(alloc, EMP_AND_DEPT)?;
    let chain = alone(alloc, &catalog)?;
    opened_over(rt, alloc, &chain, opener, gate)
}

/// What a text is answered: an answer as it prints, and anything else by its name.
pub(crate) fn answered<R: Wait, D: DeskStore, G>(
    rt: &R,
    alloc: Global,
    session: &mut Session<'_, D, G>,
    text: &str,
) -> Result<String, Memory> {
    let name = match session.execute(rt, text) {
        Ok(Reply::Answer(answer)) => return print_answer(alloc, &answer),
        Ok(Reply::Begun) => "begun",
        Ok(Reply::Committed) => "committed",
        Ok(Reply::RolledBack) => "rolled back",
        Ok(Reply::Aborted(_)) => "told of an abort",
        Err(fault) => return Ok(format!(in alloc; "{} {fault}", fault.number())?),
    };
    Ok(String::from_str(alloc, name)?)
}

/// Whether each text is answered so.
fn talks<R: Wait, D: DeskStore, G>(
    rt: &R,
    alloc: Global,
    session: &mut Session<'_, D, G>,
    talk: &[Line],
) -> Result<bool, Memory> {
    for (text, wanted) in talk {
        if answered(rt, alloc, session, text)?.as_str() != *wanted {
            return Ok(false);
        }
    }
    Ok(true)
}

/// What a session told, if it talks so and is outside BEGIN then.
fn told<R: Wait, D: DeskStore, G>(
    rt: &R,
    alloc: Global,
    session: Session<'_, D, G>,
    talk: &[Line],
) -> Result<Option<Vec<Told>>, Memory> {
    let mut session = session;
    if talks(rt, alloc, &mut session, talk)? && !session.is_open() {
        Ok(Some(session.end()))
    } else {
        Ok(None)
    }
}

/// What each of two sessions told.
type Both = Option<(Vec<Told>, Vec<Told>)>;

/// A session that has told nothing, and what it is to say.
#[derive(Drop)]
struct Seat<'s, D: DeskStore, G> {
    session: Session<'s, D, G>,
    talk: &'static [Line],
}

/// What the sessions of these seats told, which talk at the same time.
fn take_seats<'s, R, D, G>(
    rt: &R,
    alloc: Global,
    seats: Vec<Seat<'s, D, G>>,
) -> Result<Vec<Result<Option<Vec<Told>>, Memory>>, AllocError>
where
    R: Threads + Wait + Sync,
    D: DeskStore + Send + Drop + 'static,
    G: Gate + Send + Sync + Drop + 'static,
{
    let talk = |seat: Seat<'_, D, G>| -> Result<Option<Vec<Told>>, Memory> {
        told(rt, alloc, seat.session, seat.talk)
    };
    thread::map_vec(rt, seats, &talk)
}

/// What two sessions told that write at the same time, one at each site.
fn write_at_once<R, S, D, G>(
    rt: &R,
    alloc: Global,
    database: &Database<S, D, G>,
) -> Result<Both, Memory>
where
    R: Threads + Wait + Sync,
    S: SiteStore + Send + Drop + 'static,
    D: DeskStore + Send + Drop + 'static,
    G: Gate + Send + Sync + Drop + 'static,
{
    let mut seats = Vec::new(alloc);
    for talk in [&NORTH, &SOUTH] {
        let session = database.session(rt)?;
        seats.push(Seat { session, talk })?;
    }
    let mut told = take_seats(rt, alloc, seats)?;
    match (told.pop(), told.pop()) {
        (Some(one), Some(other)) => Ok(both(one?, other?)),
        _ => Ok(None),
    }
}

fn both(one: Option<Vec<Told>>, other: Option<Vec<Told>>) -> Both {
    match (one, other) {
        (Some(one), Some(other)) => Some((one, other)),
        _ => None,
    }
}

/// Whether no letter was forced, and what two sessions told stands in one run.
fn are_woven<S: SiteStore + Drop>(
    alloc: Global,
    records: &Records<PlainDesk, S>,
    both: &Both,
) -> bool {
    match both {
        Some((one, other)) => {
            records.forced == 0
                && weave(alloc, &records.records, &[one.as_slice(), other.as_slice()]).is_ok()
        }
        None => false,
    }
}

/// Whether two sessions write at the same time, where the north takes no fetch before the south has taken one.
fn write_past_gate<R>(rt: &R, alloc: Global) -> Result<bool, Memory>
where
    R: Threads + Wait + Clock + Copy + Send + Sync + Drop + 'static,
{
    let database = opened(rt, alloc, &Plain, SouthFirst::new(*rt))?;
    let both = write_at_once(rt, alloc, &database);
    match database.close(rt) {
        Ok(records) => Ok(are_woven(alloc, &records, &both?)),
        Err(_) => Err(Memory),
    }
}

#[test]
fn letters_wait_at_a_gate(rt: HostRuntime) {
    let alloc = rt.alloc();
    assert!(rt; is_true(write_past_gate(&rt, alloc)) || is_true(write_past_gate(&rt, alloc)));
}

/// Whether two sessions write at the same time, where each site waits as it is first read until the other one is read too.
fn write_together<R>(rt: &R, alloc: Global) -> Result<bool, Memory>
where
    R: Threads + Wait + Clock + Copy + Send + Sync + Drop + 'static,
{
    let (here, there) = (shared(alloc)?, shared(alloc)?);
    let missed = shared(alloc)?;
    let opener = Meetings {
        rt: *rt,
        here,
        there,
        missed: Arc::try_clone(&missed)?,
    };
    let database = opened(rt, alloc, &opener, Ungated)?;
    let both = write_at_once(rt, alloc, &database);
    match database.close(rt) {
        Ok(records) => {
            Ok(missed.load(Ordering::SeqCst) == 0 && are_woven(alloc, &records, &both?))
        }
        Err(_) => Err(Memory),
    }
}

#[test]
fn sites_work_at_once(rt: HostRuntime) {
    let alloc = rt.alloc();
    assert!(rt; is_true(write_together(&rt, alloc)) || is_true(write_together(&rt, alloc)));
}

/// What a session and one that is locked out by it told.
fn lock_out<R, S, D, G>(rt: &R, alloc: Global, database: &Database<S, D, G>) -> Result<Both, Memory>
where
    R: Threads + Wait,
    S: SiteStore + Send + Drop + 'static,
    D: DeskStore + Send + Drop + 'static,
    G: Gate + Send + Sync + Drop + 'static,
{
    let mut one = database.session(rt)?;
    let mut other = database.session(rt)?;
    if talks(rt, alloc, &mut one, &NORTH)?
        && talks(rt, alloc, &mut one, &SOUTH)?
        && talks(rt, alloc, &mut one, &LOCKS)?
        && talks(rt, alloc, &mut other, &IS_LOCKED_OUT)?
    {
        Ok(both(
            told(rt, alloc, one, &GOES_ON)?,
            told(rt, alloc, other, &[])?,
        ))
    } else {
        Ok(None)
    }
}

/// Whether a transaction aborts that finds a lock of another one.
fn aborts<R>(rt: &R, alloc: Global) -> Result<bool, Memory>
where
    R: Threads + Wait + Copy + Send + 'static,
{
    let database = opened(rt, alloc, &Plain, Ungated)?;
    let both = lock_out(rt, alloc, &database);
    match database.close(rt) {
        Ok(records) => Ok(are_woven(alloc, &records, &both?)),
        Err(_) => Err(Memory),
    }
}

#[test]
fn transactions_find_locks(rt: HostRuntime) {
    let alloc = rt.alloc();
    assert!(rt; is_true(aborts(&rt, alloc)) || is_true(aborts(&rt, alloc)));
}

/// What a session told that writes, has its sites restarted, and reads.
fn talk_over_restart<R, S, D, G>(
    rt: &R,
    alloc: Global,
    database: &Database<S, D, G>,
) -> Result<Option<Vec<Told>>, Memory>
where
    R: Threads + Wait,
    S: SiteStore + Send + Drop + 'static,
    D: DeskStore + Send + Drop + 'static,
    G: Gate + Send + Sync + Drop + 'static,
{
    let mut session = database.session(rt)?;
    if !talks(rt, alloc, &mut session, &BEFORE_RESTART)? {
        return Ok(None);
    }
    for site in ["north", "south"] {
        database.restart_site(rt, &Text::copy_of(alloc, site)?)?;
    }
    told(rt, alloc, session, &AFTER_RESTART)
}

/// Whether the site of this number restarted once.
fn restarted_once<S: SiteStore + Drop>(records: &Records<PlainDesk, S>, site: usize) -> bool {
    let Some(past) = records.records.pasts().get(site) else {
        return false;
    };
    let entries = past.entries.iter();
    let restarts = entries.filter(|entry| matches!(&entry.input, Input::Restart));
    restarts.count() == 1
}

/// Whether a list told stands in the run.
fn stands<S: SiteStore + Drop>(
    alloc: Global,
    records: &Records<PlainDesk, S>,
    lists: &[&[Told]],
) -> Result<bool, Memory> {
    match weave(alloc, &records.records, lists) {
        Ok(_) => Ok(true),
        Err(WeaveFault::Memory) => Err(Memory),
        Err(_) => Ok(false),
    }
}

/// What was told, but the last under another number or for another text.
fn altered(
    alloc: Global,
    told: &[Told],
    add: u64,
    text: Option<&str>,
) -> Result<Vec<Told>, Memory> {
    let mut list = Vec::new(alloc);
    for (place, one) in told.iter().enumerate() {
        let is_last = place + 1 == told.len();
        list.push(Told {
            number: if is_last {
                one.number.saturating_add(add)
            } else {
                one.number
            },
            text: match text {
                Some(text) if is_last => Text::copy_of(alloc, text)?,
                _ => one.text.copy()?,
            },
            reply: one.reply.copy()?,
        })?;
    }
    Ok(list)
}

/// Whether what was told stands, and nothing else does: not under another number, not for another text, and not twice.
fn only_told_stands<S: SiteStore + Drop>(
    alloc: Global,
    records: &Records<PlainDesk, S>,
    told: &[Told],
) -> Result<bool, Memory> {
    let copy = altered(alloc, told, 0, None)?;
    let renumbered = altered(alloc, told, 1, None)?;
    let reworded = altered(alloc, told, 0, Some("ROLLBACK"))?;
    Ok(
        stands(alloc, records, &[told])?
            && !stands(alloc, records, &[renumbered.as_slice()])?
            && !stands(alloc, records, &[reworded.as_slice()])?
            && !stands(alloc, records, &[told, copy.as_slice()])?,
    )
}

/// Whether writes are read back after the sites have restarted, and only what was told stands in the run.
fn reads_back<R>(rt: &R, alloc: Global) -> Result<bool, Memory>
where
    R: Threads + Wait + Copy + Send + 'static,
{
    let database = opened(rt, alloc, &Plain, Ungated)?;
    let told = talk_over_restart(rt, alloc, &database);
    let Ok(records) = database.close(rt) else {
        return Err(Memory);
    };
    let Some(told) = told? else {
        return Ok(false);
    };
    Ok(
        records.forced == 0
            && restarted_once(&records, 0)
            && restarted_once(&records, 1)
            && only_told_stands(alloc, &records, told.as_slice())?,
    )
}

#[test]
fn writes_are_read_back(rt: HostRuntime) {
    let alloc = rt.alloc();
    assert!(rt; is_true(reads_back(&rt, alloc)) || is_true(reads_back(&rt, alloc)));
}

fn is_true(done: Result<bool, Memory>) -> bool {
    matches!(done, Ok(true))
}
