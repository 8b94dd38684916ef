//! The rows of plans, each given as the list of its nodes.

ghost use Rattle.std.specs.Prelude.{◌≤◌, IfOk};
ghost use Rattle.plan.specs.Postfix.{plan_of};
ghost use Rattle.plan.specs.Uniform.{EachRead, IsUniform};
ghost use Rattle.answers.specs.Evaluated.{AreAsked, AreOnTop, IsOnTop};
ghost use Rattle.answers.specs.Joined.{rows_joined};
ghost use Rattle.answers.specs.Table.{AreParts, HasRows, given};

use crate::ledger::Ledger;
use crate::steps::{cut, filtered, keyed, partnered, table_read};
use crate::table::{FetchRows, Table, given};
use crate::unite::{no_rows, united};
use plan::postfix::Node;
use std::alloc::Global;
use terms::memory::Memory;

/// The rows of a plan, over what its fetches brought.
pub fn evaluate(alloc: Global, nodes: &[Node], fetched: &[FetchRows]) -> Result<Table, Memory>
    // Both sides of each union have the same columns, and each read has the key first and no column twice.
    requires plan { IsUniform (plan_of nodes.now) }
    // The parts of each fetch have its columns, and their keys ascend.
    requires parts { EachRead (λ read. AreParts read.columns (given fetched.now read.leaf)) (plan_of nodes.now) }
    ensures { IfOk result (λ table. HasRows (plan_of nodes.now) (given fetched.now) table) }
{
    let (table, _) = evaluate_counted(alloc, nodes, fetched)?;
    Ok(table)
}

/// The rows of a plan, and the number of steps that putting them together took. A step is one comparison of two
/// keys in a union or a key join, or one insertion into or look-up in the map of a look-up.
pub fn evaluate_counted(
    alloc: Global,
    nodes: &[Node],
    fetched: &[FetchRows],
) -> Result<(Table, u64), Memory>
    requires plan { IsUniform (plan_of nodes.now) }
    requires parts { EachRead (λ read. AreParts read.columns (given fetched.now read.leaf)) (plan_of nodes.now) }
    ensures rows { IfOk result (λ counted. HasRows (plan_of nodes.now) (given fetched.now) counted.0) }
    // No more steps than the rows of both sides of each union, key join and look-up.
    ensures steps { IfOk result (λ counted. counted.1 ≤ rows_joined (plan_of nodes.now) (given fetched.now)) }
{
    let mut ledger = Ledger::new();
    let (table, _) = table_of(alloc, &mut ledger, nodes, fetched)?;
    Ok((table, ledger.steps))
}

/// The table of the plan that nodes leave on top, and the nodes before those that it is made of.
#[cycle(table_of)]
fn table_of<'a>(
    alloc: Global,
    ledger: &mut Ledger,
    nodes: &'a [Node],
    fetched: &[FetchRows],
) -> Result<(Table, &'a [Node]), Memory>
    requires plan { IsUniform (plan_of nodes.now) }
    requires parts { EachRead (λ read. AreParts read.columns (given fetched.now read.leaf)) (plan_of nodes.now) }
    ensures { IfOk result (λ made. IsOnTop nodes.now made.1.now (given fetched.now) made.0 ledger.old.steps ledger.new.steps) }
{
    let Some((node, below)) = nodes.split_last() else {
        return Ok((no_rows(alloc)?, nodes));
    };
    match node {
        Node::Empty => Ok((no_rows(alloc)?, below)),
        Node::Fetch(read) => {
            let table = table_read(alloc, read, given(fetched, &read.leaf))?;
            Ok((table, below))
        }
        Node::Filter(conds) => {
            let (table, before) = table_of(alloc, ledger, below, fetched)?;
            Ok((filtered(conds.as_slice(), table), before))
        }
        Node::Project(columns) => {
            let (table, before) = table_of(alloc, ledger, below, fetched)?;
            Ok((cut(columns.as_slice(), table), before))
        }
        Node::Union => {
            let (table, others, before) = tables_of(alloc, ledger, below, fetched)?;
            Ok((united(alloc, ledger, table, others)?, before))
        }
        Node::KeyJoin => {
            let (table, others, before) = tables_of(alloc, ledger, below, fetched)?;
            Ok((keyed(alloc, ledger, table, others)?, before))
        }
        Node::Lookup { col, width } => {
            let (table, others, before) = tables_of(alloc, ledger, below, fetched)?;
            let table = partnered(alloc, ledger, *col, *width, table, &others)?;
            Ok((table, before))
        }
    }
}

/// The tables of the two plans that nodes leave on top, the one on top second, and the nodes before those that they are made of.
#[cycle(table_of)]
fn tables_of<'a>(
    alloc: Global,
    ledger: &mut Ledger,
    nodes: &'a [Node],
    fetched: &[FetchRows],
) -> Result<(Table, Table, &'a [Node]), Memory>
    requires plans { AreAsked IsUniform nodes.now }
    requires parts { AreAsked (EachRead (λ read. AreParts read.columns (given fetched.now read.leaf))) nodes.now }
    ensures { IfOk result (λ made. AreOnTop nodes.now made.2.now (given fetched.now) made.0 made.1 ledger.old.steps ledger.new.steps) }
{
    let (others, below) = table_of(alloc, ledger, nodes, fetched)?;
    let (table, before) = table_of(alloc, ledger, below, fetched)?;
    Ok((table, others, before))
}
