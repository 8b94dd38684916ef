//! A database over stores in SQLite answers what one over lists does, and goes on after it was closed.

use crate::worlds::{ALONE, ALONE_HEARD, heard_from};
use catalog::catalogue::Catalog;
use samples::catalogues::EMP_AND_DEPT;
use samples::chains::catalog;
use sqlite::MemStore;
use sqlstore::desk::SqlDesk;
use sqlstore::site::SqlSite;
use std::alloc::Global;
use std::test::*;
use terms::memory::Memory;
use world::chain::alone;
use world::site_leaves::known_leaves;
use world::solo::Solo;

/// A transaction that is open as the database is closed.
const LEFT: &str = "BEGIN
INSERT INTO dept VALUES (1, 'gone')";

/// What is asked once the database is open again.
const AGAIN: &str = "SELECT id, name, dept, pay FROM emp
SELECT no, title FROM dept";

/// What was committed before, and nothing of the transaction that was open.
const AGAIN_HEARD: &str = "T1: id\tname\tdept\tpay
T1: 1\tAda\t12\t100
T1: 2\tBo\t12\t200
T1: 3\tCy\t1\t9223372036854775807
T1: 3 rows
T2: no\ttitle
T2: 7\tpaint
T2: 12\tdock
T2: 2 rows
";

/// New stores of a catalogue's sites, in its order.
pub(crate) fn site_stores(
    alloc: Global,
    catalog: &Catalog,
) -> Result<Vec<SqlSite<MemStore>>, Memory> {
    let mut stores = Vec::new(alloc);
    for _site in catalog.sites() {
        match SqlSite::memory(known_leaves(alloc, catalog)?) {
            Ok(store) => stores.push(store)?,
            Err(_) => return Err(Memory),
        }
    }
    Ok(stores)
}

/// A database over these stores.
fn opened(
    alloc: Global,
    catalog: &Catalog,
    sites: Vec<SqlSite<MemStore>>,
    desk: SqlDesk<MemStore>,
) -> Result<Solo<SqlDesk<MemStore>, SqlSite<MemStore>>, Memory> {
    if sites.len() != catalog.sites().len() {
        return Err(Memory);
    }
    let chain = alone(alloc, catalog)?;
    match Solo::open_stores(alloc, &chain, sites, desk) {
        Ok(client) => Ok(client),
        Err(_) => Err(Memory),
    }
}

/// What a client alone hears over new stores in SQLite, command by command, and what it hears over the same stores
/// once the database was closed while a transaction was open.
fn heard(alloc: Global) -> Result<(String, String), Memory> {
    let catalog = catalog(alloc, EMP_AND_DEPT)?;
    let sites = site_stores(alloc, &catalog)?;
    let Ok(desk) = SqlDesk::memory(alloc) else {
        return Err(Memory);
    };
    let mut client = opened(alloc, &catalog, sites, desk)?;
    let before = heard_from(alloc, &mut client, ALONE)?;
    let _left = heard_from(alloc, &mut client, LEFT)?;
    let (sites, desk) = client.into_stores()?;
    let mut again = opened(alloc, &catalog, sites, desk)?;
    let after = heard_from(alloc, &mut again, AGAIN)?;
    Ok((before, after))
}

fn is_told(told: &Result<(String, String), Memory>) -> bool {
    match told {
        Ok((before, after)) => before.as_str() == ALONE_HEARD && after.as_str() == AGAIN_HEARD,
        Err(_) => false,
    }
}

#[test]
fn client_alone_over_sql(rt: HostRuntime) {
    let alloc = rt.alloc();
    assert!(rt; is_told(&heard(alloc)) || is_told(&heard(alloc)));
}
