//! A site's store in SQLite whose files refuse a call and all later ones: they keep what was answered, or one step more.

ghost use Rattle.std.specs.Prelude.{◌≡◌, false};

use crate::sqlstores::{keep, leaves, tell};
use sqlite::{Connection, FileStore, Files, Options};
use sqlite_disk::{Crash, Disk, Fuse, Memory as Medium};
use sqlstore::site::SqlSite;
use std::alloc::Global;
use std::test::*;
use store::fault::StoreFault;
use store::name::Ticket;
use store::site_store::SiteStore;
use terms::memory::Memory;

/// A file in memory that refuses each call behind so many.
type Fused = Fuse<Medium>;

/// A store over two of them, or the files where it can't be opened.
#[derive(Drop)]
enum Hold {
    Store(SqlSite<FileStore<Fused>>),
    Files(Files<Fused>),
}

/// How many steps the story of a store has.
const STEPS: usize = 6;

/// More calls than the story makes of a file.
const CALLS: u64 = 600;

/// Makes one step of the story.
fn make_step<S: SiteStore>(alloc: Global, store: &mut S, step: usize) -> Result<(), StoreFault> {
    match step {
        0 => match store.next_incarnation() {
            Ok(_) => Ok(()),
            Err(fault) => Err(fault),
        },
        1 => keep(alloc, store, 1, &["emp.1 1, 'Ada'", "emp.2 1, 7, 100"]),
        2 => store.apply(Ticket { life: 1, visit: 1 }),
        3 => keep(alloc, store, 2, &["emp.2 -1", "emp.2 2, 8, 90"]),
        4 => keep(alloc, store, 3, &["emp.1 5, 'Bo'"]),
        _ => store.apply(Ticket { life: 1, visit: 2 }),
    }
}

/// Makes the steps up to the first that is refused. Tells how many were answered.
fn make_steps<S: SiteStore>(alloc: Global, store: &mut S) -> usize {
    for step in 0..STEPS {
        if make_step(alloc, store, step).is_err() {
            return step;
        }
    }
    STEPS
}

/// What a store keeps.
fn told<S: SiteStore>(alloc: Global, store: &mut S) -> Result<String, StoreFault> {
    let mut text = String::new(alloc);
    tell(alloc, &mut text, &store.load()?)?;
    Ok(text)
}

/// What a store keeps after so many steps.
fn told_after(alloc: Global, steps: usize) -> Result<String, StoreFault> {
    let mut store = SqlSite::memory(leaves(alloc)?)?;
    for step in 0..steps {
        make_step(alloc, &mut store, step)?;
    }
    told(alloc, &mut store)
}

/// Opens a store over files that are there.
fn adopted(alloc: Global, conn: Connection<FileStore<Fused>>) -> Result<Hold, Memory>
    requires { conn.in_transaction ≡ false }
{
    match SqlSite::adopt(conn, leaves(alloc)?) {
        Ok(site) => Ok(Hold::Store(site)),
        Err((_, conn)) => Ok(Hold::Files(conn.into_store().close())),
    }
}

/// Opens a store over files of these bytes, all of them durable, which pass so many calls on.
fn open_over(
    alloc: Global,
    log: &[u8],
    db: &[u8],
    log_calls: u64,
    db_calls: u64,
) -> Result<Hold, Memory> {
    let (mut log_medium, mut db_medium) = (Medium::new(alloc), Medium::new(alloc));
    if log_medium.write_at(0, log).is_err() || log_medium.sync().is_err() {
        return Err(Memory);
    }
    if db_medium.write_at(0, db).is_err() || db_medium.sync().is_err() {
        return Err(Memory);
    }
    let files = Files {
        log: Fuse::new(log_medium, log_calls),
        db: Fuse::new(db_medium, db_calls),
    };
    match Connection::open_files(alloc, files, Options::new(1)) {
        Ok(conn) => adopted(alloc, conn),
        Err((_, left)) => Ok(Hold::Files(left.into_files())),
    }
}

/// Plays the story over new files that pass so many calls on. Tells how many steps were answered, and leaves the files.
fn played(alloc: Global, log_calls: u64, db_calls: u64) -> Result<(usize, Files<Fused>), Memory> {
    match open_over(alloc, &[], &[], log_calls, db_calls)? {
        Hold::Store(store) => {
            let mut store = store;
            let steps = make_steps(alloc, &mut store);
            Ok((steps, store.into_connection().into_store().close()))
        }
        Hold::Files(files) => Ok((0, files)),
    }
}

/// What a store keeps that was opened again.
fn told_again(alloc: Global, held: Hold) -> Result<String, StoreFault> {
    match held {
        Hold::Store(store) => {
            let mut store = store;
            told(alloc, &mut store)
        }
        Hold::Files(_) => Err(StoreFault::Refused),
    }
}

/// What the files keep for the next process, as the last one left them.
fn left(alloc: Global, files: &Files<Fused>) -> Result<String, StoreFault> {
    let (log, db) = (files.log.inner().bytes(), files.db.inner().bytes());
    told_again(alloc, open_over(alloc, log, db, u64::MAX, u64::MAX)?)
}

/// What the files keep where the machine went down: without what was not durable.
fn durable(alloc: Global, files: Files<Fused>) -> Result<String, StoreFault> {
    let mut files = files;
    files.log.crash();
    files.db.crash();
    match Connection::open_files(alloc, files, Options::new(1)) {
        Ok(conn) => told_again(alloc, adopted(alloc, conn)?),
        Err(_) => Err(StoreFault::Refused),
    }
}

/// Whether what is kept is what was answered, or one step more.
fn is_kept(alloc: Global, steps: usize, kept: &str) -> Result<bool, StoreFault> {
    if told_after(alloc, steps)?.as_str() == kept {
        return Ok(true);
    }
    Ok(steps < STEPS && told_after(alloc, steps + 1)?.as_str() == kept)
}

/// Stops the files after so many calls. Tells whether all is kept, and whether the story came to its end.
fn stop(alloc: Global, log_calls: u64, db_calls: u64) -> Result<(bool, bool), StoreFault> {
    let (steps, files) = played(alloc, log_calls, db_calls)?;
    let left = left(alloc, &files)?;
    let durable = durable(alloc, files)?;
    let is_right = is_kept(alloc, steps, left.as_str())?
        && is_kept(alloc, steps, durable.as_str())?;
    Ok((is_right, steps == STEPS))
}

/// Stops one of the files at each call. Tells whether all was kept each time, and the story came to its end at last.
fn stops(alloc: Global, is_log: bool) -> Result<bool, StoreFault> {
    for calls in 0..CALLS {
        let (log, db) = if is_log {
            (calls, u64::MAX)
        } else {
            (u64::MAX, calls)
        };
        let (is_right, is_ended) = match stop(alloc, log, db) {
            Err(StoreFault::Memory) => stop(alloc, log, db)?,
            found => found?,
        };
        if !is_right || is_ended {
            return Ok(is_right);
        }
    }
    Ok(false)
}

#[test]
fn a_site_keeps_what_was_answered_where_its_log_fails(rt: HostRuntime) {
    let alloc = rt.alloc();
    assert!(rt; matches!(stops(alloc, true), Ok(true)));
}

#[test]
fn a_site_keeps_what_was_answered_where_its_file_fails(rt: HostRuntime) {
    let alloc = rt.alloc();
    assert!(rt; matches!(stops(alloc, false), Ok(true)));
}
