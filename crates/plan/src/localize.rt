//! The plan of a statement over the leaves of a catalogue.

ghost use Rattle.std.specs.Prelude.{◌≡◌, ◌∷◌, IfOk, filter, flat_map};
ghost use Rattle.std.specs.List.{list_all};
ghost use Rattle.catalog.specs.Counts.{has};
ghost use Rattle.catalog.specs.Relation.{catalogue_of};
ghost use Rattle.plan.specs.Fetch as spec;
ghost use Rattle.plan.specs.Found.{asked};
ghost use Rattle.plan.specs.Located.{IsByColumns, IsLocated, IsOfJoined, IsOfNeed, IsOfNeeds, covers, once, reaches, united};
ghost use Rattle.plan.specs.Located as located;
ghost use Rattle.plan.specs.Need as needed;
ghost use Rattle.plan.specs.PlanOf.{IsPlanOf};
ghost use Rattle.plan.specs.Shape.{Fetch, Project, shape};

use crate::fetch::fetch_of;
use crate::link::Link;
use crate::need::{Need, Needs, statement_needs};
use crate::plan::Plan;
use catalog::catalogue::Catalog;
use catalog::fragment_leaf::FragmentLeaf;
use catalog::laws::{leaf_names_are_unique, one_leaf_serves, some_leaf_serves};
use catalog::path::wanted;
use meaning::statement::Statement;
use std::alloc::Global;
use terms::cond::{Cmp, Cond, Conds};
use terms::copy::{TryCopy, copy_all};
use terms::memory::Memory;
use terms::seq::Seq;
use terms::value::Value;

/// The plan of a statement over all leaves that are wanted for its columns. A column is read once, and the
/// key by itself only where no other column is needed. A union is a tree of which each side has half of the
/// leaves, so that a row is copied as often as the leaves can be halved.
pub fn localize(alloc: Global, catalog: &Catalog, statement: &Statement) -> Result<Plan, Memory>
    // Over what its fetches bring it finds what the statement is to find.
    ensures { IfOk result (λ plan. IsPlanOf (catalogue_of catalog.now) statement.now (shape plan)) }
{
    some_leaf_serves();
    one_leaf_serves();
    leaf_names_are_unique();
    let _relations = catalog.relations();
    let needs = statement_needs(alloc, statement)?;
    located(alloc, catalog, statement, &needs)
}

/// The rows of a statement's needs that meet its conditions.
fn located(
    alloc: Global,
    catalog: &Catalog,
    statement: &Statement,
    needs: &Needs,
) -> Result<Plan, Memory>
    requires { needs.now ≡ needed.needs statement.now }
    ensures { IfOk result (λ plan. IsLocated (catalogue_of catalog.now) statement.now (shape plan)) }
{
    let conds = conds_asked(alloc, statement)?;
    let below = joined(alloc, catalog, needs)?;
    Ok(Plan::Filter(conds, Box::new(alloc, below)?))
}

/// The rows of the needs: those of the first, each with its partners in the others.
fn joined(alloc: Global, catalog: &Catalog, needs: &Needs) -> Result<Plan, Memory>
    ensures { IfOk result (λ plan. IsOfNeeds (catalogue_of catalog.now) needs.now.links needs.now.relations (shape plan)) }
{
    let Some((first, others)) = needs.relations.as_slice().split_first() else {
        return Ok(Plan::Empty);
    };
    let plan = side(alloc, catalog, first)?;
    looked_up(alloc, catalog, needs.links.as_slice(), others, plan)
}

/// Each row of a plan with its partners in the relations of the needs.
fn looked_up(
    alloc: Global,
    catalog: &Catalog,
    links: &[Link],
    needs: &[Need],
    plan: Plan,
) -> Result<Plan, Memory>
    ensures { IfOk result (λ all. IsOfJoined (catalogue_of catalog.now) links.now needs.now (shape plan) (shape all)) }
{
    let (Some((link, links)), Some((need, needs))) = (links.split_first(), needs.split_first())
    else {
        return Ok(plan);
    };
    let left = Box::new(alloc, plan)?;
    let right = Box::new(alloc, side(alloc, catalog, need)?)?;
    let plan = Plan::Lookup {
        col: link.place,
        width: link.key,
        left,
        right,
    };
    looked_up(alloc, catalog, links, needs, plan)
}

/// The conditions of a statement; an INSERT asks for its key, and a REFRAGMENT for every row.
pub(crate) fn conds_asked(alloc: Global, statement: &Statement) -> Result<Conds, Memory>
    ensures { IfOk result (λ conds. conds ≡ asked statement.now) }
{
    match statement {
        Statement::Select(select) => select.conds.copy(),
        Statement::Insert(insert) => {
            let mut conds = Vec::new(alloc);
            conds.push(Cond {
                col: 0,
                cmp: Cmp::Eq,
                value: Value::Int(insert.row.key()),
            })?;
            Conds::new(conds)
        }
        Statement::Update(update) => update.conds.copy(),
        Statement::Delete(delete) => delete.conds.copy(),
        Statement::Refragment(_) => Conds::new(Vec::new(alloc)),
    }
}

/// The rows of one need.
fn side(alloc: Global, catalog: &Catalog, need: &Need) -> Result<Plan, Memory>
    ensures { IfOk result (λ plan. IsOfNeed (catalogue_of catalog.now) need.now (shape plan)) }
{
    let leaves = catalog.leaves_of(need.relation.as_str());
    let columns = once(alloc, need.columns.as_slice())?;
    by_columns(alloc, need, leaves, columns.as_slice())
}

/// The columns without the key, each once.
pub(crate) fn once(alloc: Global, columns: &[usize]) -> Result<Vec<usize>, Memory>
    ensures { IfOk result (λ found. found.items ≡ once columns.now) }
{
    let mut found = Vec::new(alloc);
    for col in columns {
        if *col != 0 && !has(found.as_slice(), *col) {
            found.push(*col)?;
        }
    }
    Ok(found)
}

/// The columns put together by the key. Those that the same leaves have are read at once.
fn by_columns(
    alloc: Global,
    need: &Need,
    leaves: &[FragmentLeaf],
    columns: &[usize],
) -> Result<Plan, Memory>
    ensures { IfOk result (λ plan. IsByColumns need.now leaves.now columns.now (shape plan)) }
{
    let Some((first, rest)) = columns.split_first() else {
        return cover(alloc, need, &[], leaves);
    };
    let group = with_like(alloc, need, leaves, *first, rest)?;
    let one = cover(alloc, need, group.as_slice(), leaves)?;
    let others = without_like(alloc, need, leaves, *first, rest)?;
    if others.is_empty() {
        return Ok(one);
    }
    let others = by_columns(alloc, need, leaves, others.as_slice())?;
    Ok(Plan::KeyJoin(Box::new(alloc, one)?, Box::new(alloc, others)?))
}

/// A column, and those of others that the same leaves have.
pub(crate) fn with_like(
    alloc: Global,
    need: &Need,
    leaves: &[FragmentLeaf],
    first: usize,
    others: &[usize],
) -> Result<Vec<usize>, Memory>
    ensures { IfOk result (λ group. group.items ≡ first ∷ filter (located.together need.now leaves.now first) others.now) }
{
    let mut group = Vec::new(alloc);
    group.push(first)?;
    for col in others {
        if together(need, leaves, first, *col) {
            group.push(*col)?;
        }
    }
    Ok(group)
}

/// Those of columns that not the same leaves have as have the first one.
pub(crate) fn without_like(
    alloc: Global,
    need: &Need,
    leaves: &[FragmentLeaf],
    first: usize,
    others: &[usize],
) -> Result<Vec<usize>, Memory>
    ensures { IfOk result (λ found. found.items ≡ filter (located.apart need.now leaves.now first) others.now) }
{
    let mut found = Vec::new(alloc);
    for col in others {
        if !together(need, leaves, first, *col) {
            found.push(*col)?;
        }
    }
    Ok(found)
}

/// Whether the same leaves have these columns as have the first one.
pub(crate) fn all_together(
    need: &Need,
    leaves: &[FragmentLeaf],
    first: usize,
    others: &[usize],
) -> bool
    ensures { result ≡ list_all (located.together need.now leaves.now first) others.now }
{
    others.iter().all(|col| together(need, leaves, first, *col))
}

/// Whether each wanted leaf has both of two columns or none.
fn together(need: &Need, leaves: &[FragmentLeaf], a: usize, b: usize) -> bool
    ensures { result ≡ located.together need.now leaves.now a b }
{
    leaves.iter().all(|leaf| has_alike(need, a, b, leaf))
}

fn has_alike(need: &Need, a: usize, b: usize, leaf: &FragmentLeaf) -> bool
    ensures { result ≡ located.has_alike need.now a b leaf.now }
{
    let columns = leaf.columns.as_slice();
    has(columns, a) == has(columns, b) || !wanted(need.columns.as_slice(), leaf.steps.as_slice())
}

/// The union of the wanted leaves that have these columns, cut to them.
fn cover(
    alloc: Global,
    need: &Need,
    columns: &[usize],
    leaves: &[FragmentLeaf],
) -> Result<Plan, Memory>
    ensures { IfOk result (λ plan. united (shape plan) ≡ covers need.now columns.now leaves.now) }
{
    let mut plans = Vec::new(alloc);
    for leaf in leaves {
        if reaches(need, columns, leaf) {
            plans.push(cut_read(alloc, need, columns, leaf)?)?;
        }
    }
    union_of(alloc, plans)
}

/// The read of a leaf, cut to columns.
fn cut_read(
    alloc: Global,
    need: &Need,
    columns: &[usize],
    leaf: &FragmentLeaf,
) -> Result<Plan, Memory>
    ensures { IfOk result (λ plan. shape plan ≡ Project columns.now (Fetch (spec.fetch_of need.now leaf.now))) }
{
    let read = Plan::Fetch(fetch_of(alloc, need, leaf)?);
    let columns = Seq::new(copy_all(alloc, columns)?);
    Ok(Plan::Project(columns, Box::new(alloc, read)?))
}

/// The union of plans: a tree of which each side has half of them.
fn union_of(alloc: Global, mut plans: Vec<Plan>) -> Result<Plan, Memory>
    ensures { IfOk result (λ plan. united (shape plan) ≡ flat_map (λ one. united (shape one)) plans.items) }
{
    if plans.len() > 1 {
        let later = plans.split_off(plans.len() / 2)?;
        let one = union_of(alloc, plans)?;
        let other = union_of(alloc, later)?;
        return Ok(Plan::Union(Box::new(alloc, one)?, Box::new(alloc, other)?));
    }
    match plans.pop() {
        Some(plan) => Ok(plan),
        None => Ok(Plan::Empty),
    }
}

/// Whether a leaf is wanted for a need and has these columns.
pub(crate) fn reaches(need: &Need, columns: &[usize], leaf: &FragmentLeaf) -> bool
    ensures { result ≡ located.reaches need.now columns.now leaf.now }
{
    wanted(need.columns.as_slice(), leaf.steps.as_slice())
        && has_all(leaf.columns.as_slice(), columns)
}

fn has_all(there: &[usize], columns: &[usize]) -> bool
    ensures { result ≡ list_all (has there.now) columns.now }
{
    columns.iter().all(|col| has(there, *col))
}

fn has(columns: &[usize], col: usize) -> bool
    ensures { result ≡ has columns.now col }
{
    columns.iter().any(|other| *other == col)
}
