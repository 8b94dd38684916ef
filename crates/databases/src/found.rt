//! What a session finds in the folder of a database, told to a person. Nothing is claimed of the words.

use crate::folder::{Standing, look_into};
use crate::sql_stores::OpensFiles;
use catalog::catalogue::Catalog;
use sqlite::{Alter, Connection, Error, ErrorCode, Row};
use std::alloc::{AllocError, Global};
use std::rt::HostRuntime;
use store::name::Txn;
use terms::memory::Memory;

/// What SQLite says where memory runs out.
const NO_MEMORY: Error = Error::SqliteFailure(ErrorCode::OutOfMemory);

/// What stands in the file of a site.
#[derive(Drop)]
pub struct SiteFound {
    /// How many rows its fragments have.
    pub rows: u64,
    /// The transactions that it has voted YES for, without having heard of their end.
    pub in_doubt: Vec<Txn>,
}

/// What a site's tables have. Their rows stay where they are. It is for a person's eyes, so no clause says it.
pub fn site_found<M: Alter + Drop>(
    alloc: Global,
    mut conn: Connection<M>,
) -> Result<SiteFound, Error> {
    let rows = conn
        .query_row("SELECT count(*) FROM part", &[])?
        .get::<i64>(0)?;
    let in_doubt = txns_of(
        alloc,
        &conn.query_all("SELECT tlife, tnumber FROM prepared", &[])?,
    )?;
    Ok(SiteFound {
        rows: u64::try_from(rows).unwrap_or(0),
        in_doubt,
    })
}

/// The transactions whose commit rows a coordinator's table has. It is for a person's eyes as well, so no clause says it.
pub fn decided<M: Alter + Drop>(alloc: Global, mut conn: Connection<M>) -> Result<Vec<Txn>, Error> {
    txns_of(
        alloc,
        &conn.query_all("SELECT tlife, tnumber FROM decided", &[])?,
    )
}

/// The transactions that rows name, in order, each once. A row that names none is passed over.
fn txns_of(alloc: Global, rows: &[Row]) -> Result<Vec<Txn>, Error> {
    let mut txns = Vec::new(alloc);
    for row in rows {
        let life = u64::try_from(row.get::<i64>(0)?);
        let number = u64::try_from(row.get::<i64>(1)?);
        if let (Ok(life), Ok(number)) = (life, number) {
            if txns.push(Txn { life, number }).is_err() {
                return Err(NO_MEMORY);
            }
        }
    }
    if sort(&mut txns).is_err() {
        return Err(NO_MEMORY);
    }
    Ok(txns)
}

/// Puts transactions in order, each once.
fn sort(txns: &mut Vec<Txn>) -> Result<(), AllocError> {
    txns.sort()?;
    txns.dedup();
    Ok(())
}

/// What a session over this folder begins with: the relations, how many rows the fragments of each site have, and what has come
/// of the transactions that were in doubt. Nothing is told of a folder that is new, and none of one that can't be read. It is for a
/// person's eyes, and what lies in a folder no contract can say.
pub fn found_text<M: Alter + Drop, F: OpensFiles<M>>(
    rt: &HostRuntime,
    files: &F,
    dir: &str,
    catalog: &Catalog,
) -> Result<String, Memory> {
    let mut text = String::new(rt.alloc());
    if !matches!(look_into(rt, dir, catalog), Ok(Standing::Kept)) {
        return Ok(text);
    }
    put_relations(&mut text, dir, catalog)?;
    let mut in_doubt = Vec::new(rt.alloc());
    for site in catalog.sites() {
        let path = format!(in rt.alloc(); "{dir}/{site}.db")?;
        let Some(mut found) = files.found_site(path.as_str()) else {
            return Ok(String::new(rt.alloc()));
        };
        write!(text, "{site}: ")?;
        put_count(&mut text, found.rows, "row")?;
        text.push('\n')?;
        in_doubt.append(&mut found.in_doubt)?;
    }
    sort(&mut in_doubt)?;
    let path = format!(in rt.alloc(); "{dir}/desk.db")?;
    let Some(decided) = files.found_desk(path.as_str()) else {
        return Ok(String::new(rt.alloc()));
    };
    put_settled(&mut text, in_doubt.as_slice(), decided.as_slice())?;
    Ok(text)
}

/// The names of the relations, in a line.
fn put_relations(out: &mut String, dir: &str, catalog: &Catalog) -> Result<(), Memory> {
    write!(out, "{dir}:")?;
    let mut is_first = true;
    for relation in catalog.relations() {
        out.push_str(if is_first { " " } else { ", " })?;
        out.push_str(relation.schema.name.as_str())?;
        is_first = false;
    }
    out.push('\n')?;
    Ok(())
}

/// What comes of the transactions that are in doubt, if there are any: those with a commit row are committed.
fn put_settled(out: &mut String, in_doubt: &[Txn], decided: &[Txn]) -> Result<(), Memory> {
    if in_doubt.is_empty() {
        return Ok(());
    }
    let committed = in_doubt.iter().filter(|txn| decided.contains(txn)).count();
    put_count(out, in_doubt.len() as u64, "transaction")?;
    writeln!(
        out,
        " in doubt, now settled: {committed} committed, {} rolled back",
        in_doubt.len().saturating_sub(committed)
    )?;
    Ok(())
}

/// So many things of a name.
fn put_count(out: &mut String, count: u64, name: &str) -> Result<(), Memory> {
    let end = if count == 1 { "" } else { "s" };
    write!(out, "{count} {name}{end}")?;
    Ok(())
}
