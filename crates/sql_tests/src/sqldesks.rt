//! The coordinator's store in SQLite beside the one in memory, and databases that no such store has written.

use sqlite::{Connection, MemStore};
use sqlstore::desk::SqlDesk;
use std::alloc::Global;
use std::fmt::Write;
use std::test::*;
use store::commit::{DeskKept, Voter};
use store::desk_store::DeskStore;
use store::fault::StoreFault;
use store::name::{Ticket, Txn};
use store::plain_desk::PlainDesk;
use terms::memory::Memory;
use terms::text::Text;

const TABLES: &str = "
CREATE TABLE decided (tlife INTEGER NOT NULL, tnumber INTEGER NOT NULL, site TEXT NOT NULL, life INTEGER NOT NULL, visit INTEGER NOT NULL, PRIMARY KEY (tlife, tnumber, site)) STRICT;
CREATE TABLE state (one INTEGER NOT NULL PRIMARY KEY CHECK (one = 1), life INTEGER NOT NULL, version INTEGER NOT NULL) STRICT;
";

fn voter(alloc: Global, site: &str, life: u64, visit: u64) -> Result<Voter, StoreFault> {
    Ok(Voter {
        site: Text::copy_of(alloc, site)?,
        ticket: Ticket { life, visit },
    })
}

fn put_kept(told: &mut String, kept: &DeskKept) -> Result<(), Memory> {
    write!(told, "life {} version {}:", kept.life, kept.version)?;
    for row in kept.commits.as_slice() {
        write!(told, " T{}.{}", row.txn.life, row.txn.number)?;
        for voter in row.voters.as_slice() {
            write!(told, " {} {}", voter.site, voter.ticket)?;
        }
    }
    writeln!(told)?;
    Ok(())
}

/// Tells all that a store keeps.
fn put_load<S: DeskStore>(told: &mut String, store: &mut S) -> Result<(), StoreFault> {
    let kept = store.load()?;
    put_kept(told, &kept)?;
    Ok(())
}

/// What a store keeps at first, and after each call of its life.
fn history<S: DeskStore>(alloc: Global, store: &mut S) -> Result<String, StoreFault> {
    let mut told = String::new(alloc);
    put_load(&mut told, store)?;
    let _life = store.next_incarnation()?;
    put_load(&mut told, store)?;
    let both = [voter(alloc, "north", 1, 3)?, voter(alloc, "south", 2, 1)?];
    store.keep_commit(Txn { life: 1, number: 2 }, &both, 1)?;
    put_load(&mut told, store)?;
    let south = [voter(alloc, "south", 2, 4)?];
    store.keep_commit(Txn { life: 1, number: 1 }, &south, 2)?;
    put_load(&mut told, store)?;
    store.keep_commit(Txn { life: 1, number: 3 }, &[], 3)?;
    put_load(&mut told, store)?;
    store.drop_commit(Txn { life: 1, number: 2 })?;
    store.drop_commit(Txn { life: 2, number: 1 })?;
    put_load(&mut told, store)?;
    let _life = store.next_incarnation()?;
    put_load(&mut told, store)?;
    store.keep_commit(Txn { life: 1, number: 2 }, &both, 3)?;
    put_load(&mut told, store)?;
    Ok(told)
}

const HISTORY: &str = "\
life 0 version 1:
life 1 version 1:
life 1 version 1: T1.2 north 1.3 south 2.1
life 1 version 2: T1.1 south 2.4 T1.2 north 1.3 south 2.1
life 1 version 3: T1.1 south 2.4 T1.2 north 1.3 south 2.1
life 1 version 3: T1.1 south 2.4
life 2 version 3: T1.1 south 2.4
life 2 version 3: T1.1 south 2.4 T1.2 north 1.3 south 2.1
";

fn histories_are_alike(alloc: Global) -> Result<bool, StoreFault> {
    let listed = history(alloc, &mut PlainDesk::new(alloc))?;
    let mut desk = SqlDesk::memory(alloc)?;
    let kept = history(alloc, &mut desk)?;
    Ok(listed.as_str() == HISTORY && kept.as_str() == HISTORY && desk.refusals() == 0)
}

#[test]
fn calls_of_both_stores(rt: HostRuntime) {
    let alloc = rt.alloc();
    let same = histories_are_alike(alloc).or_else(|_| histories_are_alike(alloc));
    assert!(rt; same == Ok(true));
}

/// The store over a database in memory that these statements made.
fn adopted(alloc: Global, made: &[&str]) -> Result<SqlDesk<MemStore>, StoreFault> {
    let Ok(mut conn) = Connection::open_in_memory(alloc) else {
        return Err(StoreFault::Memory);
    };
    for text in made {
        if conn.execute_batch(text).is_err() {
            return Err(StoreFault::Memory);
        }
    }
    if !conn.is_autocommit() {
        return Err(StoreFault::Refused);
    }
    match SqlDesk::adopt(alloc, conn) {
        Ok(desk) => Ok(desk),
        Err((fault, _)) => Err(fault),
    }
}

/// What the store over a database that these statements made keeps, or why it is refused.
fn told_of(alloc: Global, made: &[&str]) -> Result<String, StoreFault> {
    let mut desk = adopted(alloc, made)?;
    let mut told = String::new(alloc);
    put_load(&mut told, &mut desk)?;
    Ok(told)
}

/// Whether a database that these statements made is told so; of damage nothing is said.
fn is_told(alloc: Global, made: &[&str], wanted: &str) -> Result<bool, Memory> {
    match told_of(alloc, made) {
        Ok(told) => Ok(told.as_str() == wanted),
        Err(StoreFault::Damaged) => Ok(wanted.is_empty()),
        Err(StoreFault::Refused) => Ok(false),
        Err(StoreFault::Memory) => Err(Memory),
    }
}

#[test]
fn databases_of_others(rt: HostRuntime) {
    let alloc = rt.alloc();
    let cases = [
        ("empty", &[][..], "life 0 version 1:\n"),
        ("new", &[TABLES][..], "life 0 version 1:\n"),
        (
            "ours",
            &[
                TABLES,
                "INSERT INTO state VALUES (1, 7, 2)",
                "INSERT INTO decided VALUES (3, 4, 'south', 5, 6)",
                "INSERT INTO decided VALUES (3, 4, 'north', 1, 2)",
                "INSERT INTO decided VALUES (1, 9, 'north', 1, 1)",
            ][..],
            "life 7 version 2: T1.9 north 1.1 T3.4 south 5.6 north 1.2\n",
        ),
        ("another's", &["CREATE TABLE part (leaf TEXT)"][..], ""),
        ("one more", &[TABLES, "CREATE TABLE more (a TEXT)"][..], ""),
        (
            "indexed",
            &[TABLES, "CREATE INDEX by_site ON decided (site)"][..],
            "",
        ),
        (
            "lax",
            &["CREATE TABLE decided (tlife, tnumber, site, life, visit)"][..],
            "",
        ),
        (
            "transaction",
            &[TABLES, "INSERT INTO decided VALUES (-1, 1, 'north', 1, 1)"][..],
            "",
        ),
        (
            "number",
            &[TABLES, "INSERT INTO decided VALUES (1, -1, 'north', 1, 1)"][..],
            "",
        ),
        (
            "name",
            &[
                TABLES,
                "INSERT INTO decided VALUES (1, 1, CAST(x'ff' AS TEXT), 1, 1)",
            ][..],
            "",
        ),
        (
            "visit",
            &[TABLES, "INSERT INTO decided VALUES (1, 1, 'north', 1, -1)"][..],
            "",
        ),
        (
            "life",
            &[TABLES, "INSERT INTO state VALUES (1, -1, 1)"][..],
            "",
        ),
        (
            "version",
            &[TABLES, "INSERT INTO state VALUES (1, 1, -1)"][..],
            "",
        ),
    ];
    for (name, made, wanted) in cases {
        let told = is_told(alloc, made, wanted).or_else(|_| is_told(alloc, made, wanted));
        assert!(rt; told == Ok(true), "{name}");
    }
}

const TOO_GREAT: u64 = 9223372036854775808;

/// Whether a store refused a call; its want of memory is passed on.
fn is_refused<T>(answer: &Result<T, StoreFault>) -> Result<bool, StoreFault> {
    match answer {
        Err(StoreFault::Memory) => Err(StoreFault::Memory),
        Err(fault) => Ok(*fault == StoreFault::Refused),
        Ok(_) => Ok(false),
    }
}

/// Whether a store refuses what its tables can't hold, counts that, and keeps what it kept.
fn refuses(alloc: Global) -> Result<bool, StoreFault> {
    let made = [
        TABLES,
        "INSERT INTO state VALUES (1, 9223372036854775807, 1)",
    ];
    let mut desk = adopted(alloc, &made)?;
    let north = [voter(alloc, "north", 1, 1)?];
    let great = [voter(alloc, "north", 1, TOO_GREAT)?];
    let twice = [voter(alloc, "north", 1, 1)?, voter(alloc, "north", 1, 2)?];
    let txn = Txn { life: 1, number: 1 };
    let late = Txn {
        life: 1,
        number: TOO_GREAT,
    };
    desk.keep_commit(txn, &north, 1)?;
    let refused = is_refused(&desk.keep_commit(late, &north, 1))?
        && is_refused(&desk.keep_commit(Txn { life: 1, number: 2 }, &great, 1))?
        && is_refused(&desk.keep_commit(Txn { life: 1, number: 2 }, &twice, 2))?
        && is_refused(&desk.keep_commit(txn, &north, 2))?
        && is_refused(&desk.keep_commit(Txn { life: 1, number: 2 }, &north, TOO_GREAT))?
        && is_refused(&desk.drop_commit(late))?
        && is_refused(&desk.next_incarnation())?;
    let mut told = String::new(alloc);
    put_load(&mut told, &mut desk)?;
    let kept = told.as_str() == "life 9223372036854775807 version 1: T1.1 north 1.1\n";
    Ok(refused && kept && desk.refusals() == 7)
}

#[test]
fn refusals_of_a_desk(rt: HostRuntime) {
    let alloc = rt.alloc();
    let same = refuses(alloc).or_else(|_| refuses(alloc));
    assert!(rt; same == Ok(true));
}
