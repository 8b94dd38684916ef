//! The nodes of a statement's reduced plan.

ghost use Rattle.std.specs.Prelude.{IfOk};
ghost use Rattle.std.specs.List.{Contains};
ghost use Rattle.meaning.specs.Statement.{IsStatementOf};
ghost use Rattle.catalog.specs.FragmentLeaf.{schemas_of};
ghost use Rattle.catalog.specs.Relation.{catalogue_of};
ghost use Rattle.plan.specs.Postfix.{plan_of};
ghost use Rattle.plan.specs.Reduced.{FindsAll};
ghost use Rattle.plan.specs.Stated.{AreFetchesOf};
ghost use Rattle.plan.specs.Uniform.{EachRead, IsUniform};

use crate::fetch::Fetch;
use crate::fetches::needed_fetches;
use crate::need::statement_needs;
use crate::needed_nodes::put_plan;
use crate::postfix::Node;
use catalog::catalogue::Catalog;
use meaning::statement::Statement;
use std::alloc::Global;
use terms::memory::Memory;

/// The nodes of a plan that reads no leaf but those that its statement may need, and the fetches of these.
#[derive(Debug, Drop)]
pub struct ReducedNodes {
    pub nodes: Vec<Node>,
    pub fetches: Vec<Fetch>,
}

/// The plan of a statement without the reads of leaves that the statement can't need, as the list of its nodes, and its
/// fetches. What the statement needs is worked out once, and no node of the plan is made twice.
pub fn reduced_nodes(
    alloc: Global,
    catalog: &Catalog,
    statement: &Statement,
) -> Result<ReducedNodes, Memory>
    requires { IsStatementOf (schemas_of (catalogue_of catalog.now)) statement.now }
    // The fetches are exactly those that the statement may need.
    ensures fetches { IfOk result (λ less. AreFetchesOf (catalogue_of catalog.now) statement.now less.fetches.items) }
    // Over contents of their leaves the plan has at each key what the statement is to find there, in every whole
    // database that fits the schema.
    ensures rows { IfOk result (λ less. FindsAll (catalogue_of catalog.now) statement.now less.fetches.items (plan_of less.nodes.items)) }
    // Each of its reads is one of the fetches.
    ensures fetched { IfOk result (λ less. EachRead (λ read. Contains less.fetches.items read) (plan_of less.nodes.items)) }
    // Both sides of each union have the same columns.
    ensures uniform { IfOk result (λ less. IsUniform (plan_of less.nodes.items)) }
{
    let needs = statement_needs(alloc, statement)?;
    let fetches = needed_fetches(alloc, catalog, &needs)?;
    // Three nodes for each leaf: its read, the cut to columns, and what puts it together with the others.
    let mut nodes = Vec::with_capacity(alloc, fetches.len().saturating_mul(3))?;
    put_plan(
        alloc,
        catalog,
        statement,
        &needs,
        fetches.as_slice(),
        &mut nodes,
    )?;
    Ok(ReducedNodes { nodes, fetches })
}
