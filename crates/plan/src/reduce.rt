//! Plans without the reads of leaves that a statement can't need.

ghost use Rattle.std.specs.Prelude.{◌≡◌, ℤ, List, IfOk};
ghost use Rattle.std.specs.List.{Contains};
ghost use Rattle.terms.specs.declared.value.Value.{Value};
ghost use Rattle.meaning.specs.Statement.{IsStatementOf};
ghost use Rattle.catalog.specs.FragmentLeaf.{schemas_of};
ghost use Rattle.catalog.specs.Relation.{catalogue_of};
ghost use Rattle.plan.specs.PlanOf.{IsPlanOf};
ghost use Rattle.plan.specs.Reduced.{FindsAll, is_fetched, reduced, same_leaf};
ghost use Rattle.plan.specs.Shape.{shape};
ghost use Rattle.plan.specs.Stated.{AreFetchesOf};
ghost use Rattle.plan.specs.Uniform.{EachRead, IsUniform};

use crate::fetch::Fetch;
use crate::fetches::statement_fetches;
use crate::plan::Plan;
use catalog::catalogue::Catalog;
use meaning::statement::Statement;
use std::alloc::Global;
use terms::leaf::Leaf;
use terms::memory::Memory;

/// A plan that reads no leaf but those that its statement may need, and the fetches of these.
#[derive(Debug, Drop)]
pub struct Reduced {
    pub plan: Plan,
    pub fetches: Vec<Fetch>,
}

/// The plan of a statement without the reads of leaves that the statement can't need, and its fetches.
pub fn reduce(
    alloc: Global,
    catalog: &Catalog,
    statement: &Statement,
    plan: Plan,
) -> Result<Reduced, Memory>
    requires statement { IsStatementOf (schemas_of (catalogue_of catalog.now)) statement.now }
    requires plan { IsPlanOf (catalogue_of catalog.now) statement.now (shape plan) }
    // The fetches are exactly those that the statement may need.
    ensures fetches { IfOk result (λ less. AreFetchesOf (catalogue_of catalog.now) statement.now less.fetches.items) }
    // Over contents of their leaves the plan has at each key what the statement is to find there, in every whole
    // database that fits the schema.
    ensures rows { IfOk result (λ less. FindsAll (catalogue_of catalog.now) statement.now less.fetches.items (shape less.plan)) }
    // Each of its reads is one of the fetches.
    ensures fetched { IfOk result (λ less. EachRead (λ read. Contains less.fetches.items read) (shape less.plan)) }
    // Both sides of each union have the same columns.
    ensures uniform { IfOk result (λ less. IsUniform (shape less.plan)) }
{
    let fetches = statement_fetches(alloc, catalog, statement)?;
    let plan = pruned(alloc, plan, fetches.as_slice())?;
    Ok(Reduced { plan, fetches })
}

/// The fetches of a reduced plan.
pub fn fetches(reduced: &Reduced) -> &[Fetch]
    ensures { result.now ≡ reduced.now.fetches.items }
{
    reduced.fetches.as_slice()
}

/// The plan with the reads of other leaves emptied.
#[cycle(pruned)]
fn pruned(alloc: Global, plan: Plan, fetches: &[Fetch]) -> Result<Plan, Memory>
    ensures { IfOk result (λ less. shape less ≡ reduced (is_fetched fetches.now) (shape plan)) }
{
    match plan {
        Plan::Empty => Ok(Plan::Empty),
        Plan::Fetch(read) => {
            if is_fetched(fetches, &read.leaf) {
                Ok(Plan::Fetch(read))
            } else {
                Ok(Plan::Empty)
            }
        }
        Plan::Filter(conds, below) => Ok(Plan::Filter(conds, below_pruned(alloc, below, fetches)?)),
        Plan::Project(columns, below) => {
            Ok(Plan::Project(columns, below_pruned(alloc, below, fetches)?))
        }
        Plan::Union(one, other) => {
            let one = below_pruned(alloc, one, fetches)?;
            Ok(Plan::Union(one, below_pruned(alloc, other, fetches)?))
        }
        Plan::KeyJoin(one, other) => {
            let one = below_pruned(alloc, one, fetches)?;
            Ok(Plan::KeyJoin(one, below_pruned(alloc, other, fetches)?))
        }
        Plan::Lookup {
            col,
            width,
            left,
            right,
        } => Ok(Plan::Lookup {
            col,
            width,
            left: below_pruned(alloc, left, fetches)?,
            right: below_pruned(alloc, right, fetches)?,
        }),
    }
}

#[cycle(pruned)]
fn below_pruned(alloc: Global, plan: Box<Plan>, fetches: &[Fetch]) -> Result<Box<Plan>, Memory>
    ensures { IfOk result (λ less. shape less.value ≡ reduced (is_fetched fetches.now) (shape plan.value)) }
{
    let less = pruned(alloc, Box::into_inner(plan), fetches)?;
    Ok(Box::new(alloc, less)?)
}

/// Whether some of the fetches reads a leaf.
pub(crate) fn is_fetched(fetches: &[Fetch], leaf: &Leaf) -> bool
    ensures { result ≡ is_fetched fetches.now leaf.now }
{
    fetches.iter().any(|read| is_same(&read.leaf, leaf))
}

/// Whether two leaves have one name. Their numbers are looked at first: leaves of one relation differ in these.
fn is_same(one: &Leaf, other: &Leaf) -> bool
    ensures { result ≡ same_leaf one.now other.now }
{
    one.number == other.number && *one == *other
}
