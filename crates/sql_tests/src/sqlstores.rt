//! A site's store in SQLite does what the one over lists does, and names damaged rows.

use samples::parts::{leaf, part_of};
use sqlite::{Connection, Error, ErrorCode};
use sqlstore::site::SqlSite;
use std::alloc::Global;
use std::fmt::{Debug, Write};
use std::test::*;
use store::changes::Changes;
use store::fault::StoreFault;
use store::name::{Ticket, Txn};
use store::plain_site::PlainSite;
use store::prepared::SiteKept;
use store::site_store::SiteStore;
use store::slot::Slot;
use terms::cond::Conds;
use terms::leaf::Leaf;
use terms::memory::Memory;

/// The leaves of the site.
pub(crate) fn leaves(alloc: Global) -> Result<Vec<Leaf>, Memory> {
    let mut leaves = Vec::new(alloc);
    leaves.push(leaf(alloc, "emp.1")?)?;
    leaves.push(leaf(alloc, "emp.2")?)?;
    Ok(leaves)
}

/// Changes that put the parts of lines such as `emp.2 1, 7, 100`, and take out those of lines such as `emp.2 -1`.
fn changes(alloc: Global, lines: &[&str]) -> Result<Changes, Memory> {
    let mut changes = Changes::new(alloc);
    for line in lines {
        let (word, values) = line.split_once(' ').unwrap_or((line, ""));
        let leaf = leaf(alloc, word)?;
        match values.strip_prefix("-") {
            Some(_) => changes.del(Slot { leaf, key: 1 })?,
            None => changes.put(leaf, part_of(alloc, values)?)?,
        }
    }
    Ok(changes)
}

/// Tells all that a store keeps.
pub(crate) fn tell(alloc: Global, text: &mut String, kept: &SiteKept) -> Result<(), Memory> {
    for leaf in &leaves(alloc)? {
        for part in &kept.parts.list(leaf)? {
            writeln!(text, "{leaf} {part:?}")?;
        }
    }
    for row in kept.rows.prepared.as_slice() {
        let txn = row.prepared.txn;
        writeln!(text, "{} for {}.{}", row.ticket, txn.life, txn.number)?;
        for (slot, part) in row.prepared.changes.slots() {
            writeln!(text, "  {} {} {part:?}", slot.leaf, slot.key)?;
        }
    }
    writeln!(text, "life {}", kept.rows.life)?;
    Ok(())
}

/// Tells what was found.
fn note<T: Debug>(text: &mut String, found: &T) -> Result<(), Memory> {
    writeln!(text, "{found:?}")?;
    Ok(())
}

/// Keeps a visit's changes.
pub(crate) fn keep<S: SiteStore>(
    alloc: Global,
    store: &mut S,
    visit: u64,
    lines: &[&str],
) -> Result<(), StoreFault> {
    let txn = Txn {
        life: 7,
        number: visit,
    };
    let ticket = Ticket { life: 1, visit };
    match store.keep_prepared(txn, ticket, changes(alloc, lines)?) {
        Ok(()) => Ok(()),
        Err(unkept) => Err(unkept.fault),
    }
}

/// What a store tells as visits are prepared, applied and dropped.
fn story<S: SiteStore>(alloc: Global, store: &mut S) -> Result<String, StoreFault> {
    let mut text = String::new(alloc);
    store.next_incarnation()?;
    keep(alloc, store, 1, &["emp.1 1, 'Ada'", "emp.2 1, 7, 100"])?;
    tell(alloc, &mut text, &store.load()?)?;
    store.apply(Ticket { life: 1, visit: 1 })?;
    keep(alloc, store, 2, &["emp.2 -1", "emp.2 2, 8, 90"])?;
    keep(alloc, store, 3, &["emp.1 5, 'Bo'"])?;
    tell(alloc, &mut text, &store.load()?)?;
    store.discard(Ticket { life: 1, visit: 3 })?;
    store.next_incarnation()?;
    tell(alloc, &mut text, &store.load()?)?;
    store.apply(Ticket { life: 1, visit: 2 })?;
    store.apply(Ticket { life: 1, visit: 2 })?;
    tell(alloc, &mut text, &store.load()?)?;
    let second = leaf(alloc, "emp.2")?;
    note(&mut text, &store.find(&second, 1)?)?;
    note(&mut text, &store.find(&second, 2)?)?;
    note(
        &mut text,
        &store.scan(&second, &Conds::new(Vec::new(alloc))?)?,
    )?;
    note(&mut text, &store.rows()?.prepared.as_slice().len())?;
    Ok(text)
}

/// What both stores tell.
fn stories(alloc: Global) -> Result<(String, String), StoreFault> {
    let listed = story(alloc, &mut PlainSite::new(alloc))?;
    let kept = story(alloc, &mut SqlSite::memory(leaves(alloc)?)?)?;
    Ok((listed, kept))
}

#[test]
fn sites_in_sql(rt: HostRuntime) {
    let alloc = rt.alloc();
    let told = stories(alloc).or_else(|_| stories(alloc));
    match told {
        Ok((listed, kept)) => assert_eq!(rt; kept.as_str(), listed.as_str()),
        Err(_) => assert!(rt; false),
    }
}

/// The tables of a site.
const TABLES: &str =
    "CREATE TABLE part (leaf TEXT NOT NULL, id INTEGER NOT NULL, body BLOB NOT NULL, PRIMARY KEY (leaf, id)) STRICT;
CREATE TABLE prepared (life INTEGER NOT NULL, visit INTEGER NOT NULL, tlife INTEGER NOT NULL, tnumber INTEGER NOT NULL, PRIMARY KEY (life, visit)) STRICT;
CREATE TABLE intent (life INTEGER NOT NULL, visit INTEGER NOT NULL, leaf TEXT NOT NULL, id INTEGER NOT NULL, body BLOB NOT NULL, PRIMARY KEY (life, visit, leaf, id)) STRICT;
CREATE TABLE state (one INTEGER NOT NULL PRIMARY KEY CHECK (one = 1), life INTEGER NOT NULL) STRICT;";

/// A site's tables with these rows, and whether a store finds no damage in them.
const FILLED: [(&str, bool); 13] = [
    ("", true),
    (
        "INSERT INTO part VALUES ('emp.1', 1, x'01010000000000000001')",
        true,
    ),
    (
        "INSERT INTO prepared VALUES (1, 2, 3, 4); INSERT INTO intent VALUES (1, 2, 'emp.2', 5, x'')",
        true,
    ),
    ("INSERT INTO part VALUES ('emp.1', 1, x'00')", false),
    (
        "INSERT INTO part VALUES ('emp.1', 2, x'01010000000000000001')",
        false,
    ),
    (
        "INSERT INTO part VALUES ('emp.9', 1, x'01010000000000000001')",
        false,
    ),
    ("INSERT INTO prepared VALUES (1, 2, 3, 4)", false),
    ("INSERT INTO intent VALUES (1, 2, 'emp.2', 5, x'')", false),
    (
        "INSERT INTO prepared VALUES (1, -2, 3, 4); INSERT INTO intent VALUES (1, -2, 'emp.2', 5, x'')",
        false,
    ),
    (
        "INSERT INTO prepared VALUES (1, 2, 3, 4); INSERT INTO intent VALUES (1, 2, 'emp.9', 5, x'')",
        false,
    ),
    (
        "INSERT INTO prepared VALUES (1, 2, 3, 4); INSERT INTO intent VALUES (1, 2, 'emp.2', 5, x'00')",
        false,
    ),
    ("INSERT INTO state VALUES (1, -1)", false),
    ("CREATE TABLE other (id INTEGER)", false),
];

/// What a store finds that is opened over these tables, by each of its two calls.
fn found(alloc: Global, rows: &str) -> Result<(), StoreFault> {
    let mut conn = Connection::open_in_memory(alloc).map_err(|_| StoreFault::Memory)?;
    for text in [TABLES, rows] {
        match conn.execute_batch(text) {
            Ok(()) => {}
            Err(Error::SqliteFailure(ErrorCode::OutOfMemory)) => return Err(StoreFault::Memory),
            Err(_) => return Err(StoreFault::Refused),
        }
    }
    if !conn.is_autocommit() {
        return Err(StoreFault::Refused);
    }
    let mut site = match SqlSite::adopt(conn, leaves(alloc)?) {
        Ok(site) => site,
        Err((fault, _)) => return Err(fault),
    };
    let by_rows = site.rows().err();
    let by_load = site.load().err();
    if by_rows == Some(StoreFault::Memory) || by_load == Some(StoreFault::Memory) {
        return Err(StoreFault::Memory);
    }
    if by_rows != by_load {
        return Err(StoreFault::Refused);
    }
    match by_rows {
        Some(fault) => Err(fault),
        None => Ok(()),
    }
}

#[test]
fn damaged_sites(rt: HostRuntime) {
    let alloc = rt.alloc();
    for (rows, sound) in FILLED {
        let answer = match found(alloc, rows) {
            Err(StoreFault::Memory) => found(alloc, rows),
            answer => answer,
        };
        let wanted = if sound {
            Ok(())
        } else {
            Err(StoreFault::Damaged)
        };
        assert!(rt; answer == wanted, "{rows}");
    }
}
