//! Shows the libraries at work: opens a database in memory whose relation is split over two sites, executes statements
//! and a transaction as if it were whole, and prints what the client hears. Between them it prints what each fragment
//! keeps, so that a row is seen to move.
#![tactic(auto)]

use anyhow::{Context, Result, bail};
use catalog::catalogue::Catalog;
use desk::reply::Reply;
use meaning::relation::Relation;
use meaning::whole::Whole;
use reader::print_answer::print_answer;
use reader::print_statement::print_part;
use std::alloc::Global;
use store::plain_desk::PlainDesk;
use store::plain_site::PlainSite;
use terms::copy::TryCopy;
use terms::memory::Memory;
use world::chain::alone;
use world::solo::{Solo, open};

type Database = Solo<PlainDesk, PlainSite>;

/// Splits `item`: the rows of zones below 10 are in `item.1` at one site, the others in `item.2` at the other.
const CATALOGUE: &str = "sites = [\"north\", \"south\"]

[relations.item]
columns = [\"id int\", \"zone int\", \"label text\"]
[[relations.item.rows]]
where = \"zone < 10\"
site = \"north\"
[[relations.item.rows]]
where = \"zone >= 10\"
site = \"south\"
";

/// Puts a row into each fragment. Outside BEGIN each statement is a transaction of its own.
const INSERTS: [&str; 2] = [
    "INSERT INTO item VALUES (1, 3, 'lamp')",
    "INSERT INTO item VALUES (2, 50, 'chair')",
];

/// Moves a row to the other site's fragment.
const MOVE: [&str; 2] = [
    "UPDATE item SET zone = zone + 20 WHERE label = 'lamp'",
    "SELECT id, label FROM item WHERE zone > 10",
];

/// Is committed at both sites or at neither.
const TRANSACTION: [&str; 5] = [
    "BEGIN",
    "INSERT INTO item VALUES (3, 7, 'table')",
    "DELETE FROM item WHERE label = 'chair'",
    "SELECT * FROM item",
    "COMMIT",
];

fn main(rt: HostRuntime) -> Result<()> {
    let alloc = rt.alloc();
    let catalogue = match Catalog::read(alloc, CATALOGUE) {
        Ok(catalogue) => catalogue,
        Err(fault) => bail!("the catalogue is refused: {fault}"),
    };
    let whole = empty_relations(alloc, &catalogue)?;
    let chain = alone(alloc, &catalogue)?;
    let mut database = match open(alloc, &chain, &whole) {
        Ok(database) => database,
        Err(fault) => bail!("not opened: {fault:?}"),
    };
    execute(&rt, &mut database, &INSERTS)?;
    print_fragments(&rt, &catalogue, &mut database)?;
    execute(&rt, &mut database, &MOVE)?;
    print_fragments(&rt, &catalogue, &mut database)?;
    execute(&rt, &mut database, &TRANSACTION)?;
    print_fragments(&rt, &catalogue, &mut database)
}

/// Makes each relation of the catalogue, without rows.
fn empty_relations(alloc: Global, catalogue: &Catalog) -> Result<Whole, Memory> {
    let mut whole = Whole::new(alloc);
    for relation in catalogue.schema().relations.as_slice() {
        whole.put(relation.name.copy()?, Relation::new(alloc))?;
    }
    Ok(whole)
}

/// Executes commands in order, and prints each with what the client hears of it. Stops at one that is refused.
fn execute(rt: &HostRuntime, database: &mut Database, commands: &[&'static str]) -> Result<()> {
    for command in commands {
        println!(rt; "> {command}")?;
        for notice in database.execute(command).context(*command)?.as_slice() {
            print_reply(rt, &notice.reply)?;
        }
    }
    Ok(())
}

fn print_reply(rt: &HostRuntime, reply: &Reply) -> Result<()> {
    match reply {
        Reply::Begun => println!(rt; "begun")?,
        Reply::Answer(answer) => println!(rt; "{}", print_answer(rt.alloc(), answer)?)?,
        Reply::Committed => println!(rt; "committed")?,
        Reply::RolledBack => println!(rt; "rolled back")?,
        Reply::Aborted(why) => println!(rt; "aborted: {why:?}")?,
    }
    Ok(())
}

/// Prints the rows that each fragment keeps.
fn print_fragments(rt: &HostRuntime, catalogue: &Catalog, database: &mut Database) -> Result<()> {
    for leaf in catalogue.leaves() {
        println!(rt; "{}:", leaf.name)?;
        let parts = match database.parts(&leaf.name) {
            Ok(parts) => parts.context("no such fragment")?,
            Err(fault) => bail!("not read: {fault:?}"),
        };
        for part in parts.as_slice() {
            println!(rt; "  ({})", print_part(rt.alloc(), part.values())?)?;
        }
    }
    Ok(())
}
