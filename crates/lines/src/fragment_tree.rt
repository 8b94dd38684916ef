//! A catalogue shown as trees: each relation, and below it how it is split, down to the leaves.

ghost use Rattle.std.specs.Prelude.{◌≡◌, ◌++◌, codes, map, IfOk, OnOk, string_bytes};
ghost use Rattle.catalog.specs.Relation.{catalogue_of};
ghost use Rattle.lines.specs.Check.{names_of_columns};
ghost use Rattle.lines.specs.FragmentTree.{leaf_tip, leaf_trees, relation_tree, trees_text, way_lines};
ghost use Rattle.lines.specs.FragmentTree as spec;

use crate::check::{put_names, put_site};
use crate::level::{deeper, put_line};
use crate::listing::put_schema;
use catalog::catalogue::Catalog;
use catalog::fragment_leaf::FragmentLeaf;
use catalog::path::Step;
use meaning::schema::{Column, RelationSchema};
use reader::print_statement::print_conds;
use std::alloc::Global;
use terms::memory::Memory;
use terms::text::Text;

/// Each relation of a catalogue with its tree.
pub fn put_trees(out: &mut String, catalog: &Catalog) -> Result<(), Memory>
    ensures { OnOk result (string_bytes out.new ≡ string_bytes out.old ++ trees_text (catalogue_of catalog.now)) }
{
    for relation in catalog.schema().relations.as_slice() {
        put_relation(out, catalog, relation)?;
    }
    Ok(())
}

/// A relation with its tree.
fn put_relation(
    out: &mut String,
    catalog: &Catalog,
    relation: &RelationSchema,
) -> Result<(), Memory>
    ensures { OnOk result (string_bytes out.new ≡ string_bytes out.old ++ relation_tree (catalogue_of catalog.now) relation.now) }
{
    put_schema(out, relation)?;
    let leaves = catalog.leaves_of(relation.name.as_str());
    put_leaves(
        out,
        catalog.sites(),
        relation.columns.as_slice(),
        &[],
        leaves,
    )
}

/// Leaves, each below its way; `before` is the way of the leaf before them.
fn put_leaves(
    out: &mut String,
    sites: &[Text],
    columns: &[Column],
    before: &[Text],
    leaves: &[FragmentLeaf],
) -> Result<(), Memory>
    ensures { OnOk result (string_bytes out.new ≡ string_bytes out.old ++ leaf_trees sites.now (names_of_columns columns.now) before.now leaves.now) }
{
    let Some((leaf, others)) = leaves.split_first() else {
        return Ok(());
    };
    let alloc = *out.allocator();
    let way = way_of(alloc, columns, leaf.steps.as_slice())?;
    let tip = tip_of(alloc, sites, columns, leaf)?;
    put_way(out, "  ", before, way.as_slice(), tip.as_str())?;
    put_leaves(out, sites, columns, way.as_slice(), others)
}

/// The steps on the way to a leaf.
fn way_of(alloc: Global, columns: &[Column], steps: &[Step]) -> Result<Vec<Text>, Memory>
    ensures { IfOk result (λ way. way.items ≡ map (spec.step_text (names_of_columns columns.now)) steps.now) }
{
    let mut way = Vec::new(alloc);
    for step in steps {
        way.push(Text::new(step_text(alloc, columns, step)?)?)?;
    }
    Ok(way)
}

/// A step on the way to a leaf.
fn step_text(alloc: Global, columns: &[Column], step: &Step) -> Result<String, Memory>
    ensures { IfOk result (λ text. string_bytes text ≡ spec.step_text (names_of_columns columns.now) step.now) }
{
    let mut text = String::new(alloc);
    match step {
        Step::Row(conds) => {
            let conds = print_conds(alloc, conds, columns)?;
            write!(text, "where {conds}")?;
        }
        Step::Col { group, .. } => {
            text.push_str("columns ")?;
            put_names(&mut text, columns, group.as_slice())?;
        }
    }
    Ok(text)
}

/// A leaf: its name, its site and its columns.
fn tip_of(
    alloc: Global,
    sites: &[Text],
    columns: &[Column],
    leaf: &FragmentLeaf,
) -> Result<String, Memory>
    ensures { IfOk result (λ text. string_bytes text ≡ leaf_tip sites.now (names_of_columns columns.now) leaf.now) }
{
    let mut text = String::new(alloc);
    write!(text, "{} ", leaf.name)?;
    put_site(&mut text, sites, leaf.site)?;
    text.push_str(" (")?;
    put_names(&mut text, columns, leaf.columns.as_slice())?;
    text.push(')')?;
    Ok(text)
}

/// A way down to a tip, line by line, without what it shares with the way before.
fn put_way(
    out: &mut String,
    front: &str,
    before: &[Text],
    way: &[Text],
    tip: &str,
) -> Result<(), Memory>
    ensures { OnOk result (string_bytes out.new ≡ string_bytes out.old ++ way_lines front.now before.now way.now tip.now) }
{
    let Some((step, steps)) = way.split_first() else {
        return put_line(out, front, tip);
    };
    let below = deeper(*out.allocator(), front)?;
    if let Some((old, before)) = before.split_first()
        && step.as_str() == old.as_str()
    {
        return put_way(out, below.as_str(), before, steps, tip);
    }
    put_line(out, front, step.as_str())?;
    put_way(out, below.as_str(), &[], steps, tip)
}
