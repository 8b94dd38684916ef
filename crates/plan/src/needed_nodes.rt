//! The nodes of the plan of a statement's needs, each put behind those that it is made of.

ghost use Rattle.std.specs.Prelude.{◌≡◌, ◌++◌, List, map, OnOk};
ghost use Rattle.catalog.specs.Relation.{catalogue_of};
ghost use Rattle.plan.specs.declared.postfix.Node.{Node as NodeNow};
ghost use Rattle.plan.specs.Located.{IsByColumns, IsLocated, IsOfJoined, IsOfNeed, IsOfNeeds, PutsPlan, covers, cut_read, united};
ghost use Rattle.plan.specs.Need as needed;
ghost use Rattle.plan.specs.PlanOf.{IsPlanOf};
ghost use Rattle.plan.specs.Postfix.{postfix};
ghost use Rattle.plan.specs.Reduced.{is_fetched, reduced};
ghost use Rattle.plan.specs.Shape.{Shape};

use crate::fetch::{Fetch, fetch_of};
use crate::link::Link;
use crate::localize::{all_together, conds_asked, once, reaches, with_like, without_like};
use crate::need::{Need, Needs};
use crate::postfix::Node;
use crate::reduce::is_fetched;
use catalog::catalogue::Catalog;
use catalog::column_list::ColumnList;
use catalog::fragment_leaf::FragmentLeaf;
use catalog::laws::{leaf_names_are_unique, one_leaf_serves, some_leaf_serves};
use meaning::statement::Statement;
use std::alloc::Global;
use terms::copy::{TryCopy, copy_all};
use terms::memory::Memory;

/// Puts out the nodes of a plan of a statement of these needs.
pub(crate) fn put_plan(
    alloc: Global,
    catalog: &Catalog,
    statement: &Statement,
    needs: &Needs,
    fetches: &[Fetch],
    out: &mut Vec<Node>,
) -> Result<(), Memory>
    requires { needs.now ≡ needed.needs statement.now }
    ensures { OnOk result (PutsPlan (IsPlanOf (catalogue_of catalog.now) statement.now) fetches.now out.old.items out.new.items) }
{
    some_leaf_serves();
    one_leaf_serves();
    leaf_names_are_unique();
    let _relations = catalog.relations();
    put_located(alloc, catalog, statement, needs, fetches, out)
}

/// Puts out the rows of a statement's needs that meet its conditions.
fn put_located(
    alloc: Global,
    catalog: &Catalog,
    statement: &Statement,
    needs: &Needs,
    fetches: &[Fetch],
    out: &mut Vec<Node>,
) -> Result<(), Memory>
    requires { needs.now ≡ needed.needs statement.now }
    ensures { OnOk result (PutsPlan (IsLocated (catalogue_of catalog.now) statement.now) fetches.now out.old.items out.new.items) }
{
    let conds = conds_asked(alloc, statement)?;
    put_joined(alloc, catalog, needs, fetches, out)?;
    Ok(out.push(Node::Filter(conds))?)
}

/// Puts out the rows of the needs: those of the first, each with its partners in the others.
fn put_joined(
    alloc: Global,
    catalog: &Catalog,
    needs: &Needs,
    fetches: &[Fetch],
    out: &mut Vec<Node>,
) -> Result<(), Memory>
    ensures { OnOk result (PutsPlan (IsOfNeeds (catalogue_of catalog.now) needs.now.links needs.now.relations) fetches.now out.old.items out.new.items) }
{
    let Some((first, others)) = needs.relations.as_slice().split_first() else {
        return Ok(out.push(Node::Empty)?);
    };
    put_side(alloc, catalog, first, fetches, out)?;
    put_looked_up(alloc, catalog, needs.links.as_slice(), others, fetches, out)
}

/// Puts out, behind the nodes of a plan, those of each of its rows with its partners in the relations of the needs.
fn put_looked_up(
    alloc: Global,
    catalog: &Catalog,
    links: &[Link],
    needs: &[Need],
    fetches: &[Fetch],
    out: &mut Vec<Node>,
) -> Result<(), Memory>
    ensures { (before : List NodeNow) (left : Shape) → out.old.items ≡ before ++ postfix (reduced (is_fetched fetches.now) left)
        → OnOk result (PutsPlan (IsOfJoined (catalogue_of catalog.now) links.now needs.now left) fetches.now before out.new.items) }
{
    let (Some((link, links)), Some((need, needs))) = (links.split_first(), needs.split_first())
    else {
        return Ok(());
    };
    put_side(alloc, catalog, need, fetches, out)?;
    out.push(Node::Lookup {
        col: link.place,
        width: link.key,
    })?;
    put_looked_up(alloc, catalog, links, needs, fetches, out)
}

/// Puts out the rows of one need.
fn put_side(
    alloc: Global,
    catalog: &Catalog,
    need: &Need,
    fetches: &[Fetch],
    out: &mut Vec<Node>,
) -> Result<(), Memory>
    ensures { OnOk result (PutsPlan (IsOfNeed (catalogue_of catalog.now) need.now) fetches.now out.old.items out.new.items) }
{
    let leaves = catalog.leaves_of(need.relation.as_str());
    let columns = once(alloc, need.columns.as_slice())?;
    put_by_columns(alloc, need, leaves, columns.as_slice(), fetches, out)
}

/// Puts out the columns put together by the key. Those that the same leaves have are read at once.
fn put_by_columns(
    alloc: Global,
    need: &Need,
    leaves: &[FragmentLeaf],
    columns: &[usize],
    fetches: &[Fetch],
    out: &mut Vec<Node>,
) -> Result<(), Memory>
    ensures { OnOk result (PutsPlan (IsByColumns need.now leaves.now columns.now) fetches.now out.old.items out.new.items) }
{
    let Some((first, rest)) = columns.split_first() else {
        return put_cover(alloc, need, &[], leaves, fetches, out);
    };
    if all_together(need, leaves, *first, rest) {
        return put_cover(alloc, need, columns, leaves, fetches, out);
    }
    let group = with_like(alloc, need, leaves, *first, rest)?;
    put_cover(alloc, need, group.as_slice(), leaves, fetches, out)?;
    let others = without_like(alloc, need, leaves, *first, rest)?;
    put_by_columns(alloc, need, leaves, others.as_slice(), fetches, out)?;
    Ok(out.push(Node::KeyJoin)?)
}

/// Puts out the union of the wanted leaves that have these columns, cut to them.
fn put_cover(
    alloc: Global,
    need: &Need,
    columns: &[usize],
    leaves: &[FragmentLeaf],
    fetches: &[Fetch],
    out: &mut Vec<Node>,
) -> Result<(), Memory>
    ensures { OnOk result (PutsPlan (λ plan. united plan ≡ covers need.now columns.now leaves.now) fetches.now out.old.items out.new.items) }
{
    let mut reached: Vec<&FragmentLeaf> = Vec::with_capacity(alloc, leaves.len())?;
    for leaf in leaves {
        if reaches(need, columns, leaf) {
            reached.push(leaf)?;
        }
    }
    put_reads(alloc, need, columns, reached.as_slice(), fetches, out)
}

/// Puts out the union of the reads of leaves, which share the list of their columns.
fn put_reads(
    alloc: Global,
    need: &Need,
    columns: &[usize],
    leaves: &[&FragmentLeaf],
    fetches: &[Fetch],
    out: &mut Vec<Node>,
) -> Result<(), Memory>
    ensures { OnOk result (PutsPlan (λ plan. united plan ≡ map (λ leaf. cut_read need.now columns.now leaf.now) leaves.now) fetches.now out.old.items out.new.items) }
{
    let shared = ColumnList::new(copy_all(alloc, columns)?)?;
    put_union(alloc, need, &shared, leaves, fetches, out)
}

/// Puts out the union of the reads of leaves: a tree of which each side has half of them.
fn put_union(
    alloc: Global,
    need: &Need,
    columns: &ColumnList,
    leaves: &[&FragmentLeaf],
    fetches: &[Fetch],
    out: &mut Vec<Node>,
) -> Result<(), Memory>
    ensures { OnOk result (PutsPlan (λ plan. united plan ≡ map (λ leaf. cut_read need.now columns.now leaf.now) leaves.now) fetches.now out.old.items out.new.items) }
{
    if leaves.len() > 1 {
        let (one, other) = leaves.split_at(leaves.len() / 2);
        put_union(alloc, need, columns, one, fetches, out)?;
        put_union(alloc, need, columns, other, fetches, out)?;
        return Ok(out.push(Node::Union)?);
    }
    match leaves.first() {
        Some(leaf) => put_cut_read(alloc, need, columns, leaf, fetches, out),
        None => Ok(out.push(Node::Empty)?),
    }
}

/// Puts out the read of a leaf, cut to columns; for one that isn't fetched no row.
fn put_cut_read(
    alloc: Global,
    need: &Need,
    columns: &ColumnList,
    leaf: &FragmentLeaf,
    fetches: &[Fetch],
    out: &mut Vec<Node>,
) -> Result<(), Memory>
    ensures { OnOk result (out.new.items ≡ out.old.items ++ postfix (reduced (is_fetched fetches.now) (cut_read need.now columns.now leaf.now))) }
{
    if is_fetched(fetches, &leaf.name) {
        out.push(Node::Fetch(fetch_of(alloc, need, leaf)?))?;
    } else {
        out.push(Node::Empty)?;
    }
    Ok(out.push(Node::Project(columns.copy()?))?)
}
