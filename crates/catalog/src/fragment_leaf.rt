//! The leaves of a catalogue, with their names.

ghost use Rattle.std.specs.Prelude.{◌≡◌, ◌++◌, map, flat_map, IfOk, OnOk};
ghost use Rattle.std.specs.Option.{option_copied};
ghost use Rattle.catalog.specs.FragmentLeaf.{leaf_counts, leaf_named, leaf_of, leaves_from, leaves_in, leaves_of, names_at, relation_named};
ghost use Rattle.catalog.specs.Relation.{relation_of};

use crate::column_list::ColumnList;
use crate::path::{Path, Step, path_columns, path_conds};
use crate::relation::{SplitRelation, beside_key};
use crate::tree_paths::tree_paths;
use std::alloc::Global;
use terms::cond::Conds;
use terms::copy::TryCopy;
use terms::leaf::Leaf;
use terms::memory::Memory;
use terms::seq::Seq;
use terms::text::Text;

/// A leaf of a relation's fragment tree: its name, the steps of its path, the conditions on it, the
/// leaf's columns (the key first) and the number of its site, counted from 0.
#[derive(Debug, Drop)]
pub struct FragmentLeaf {
    pub name: Leaf,
    pub steps: Seq<Step>,
    pub conds: Conds,
    pub columns: ColumnList,
    pub site: usize,
}

impl TryCopy for FragmentLeaf {
    fn copy(&self) -> Result<FragmentLeaf, Memory> {
        Ok(FragmentLeaf {
            name: self.name.copy()?,
            steps: self.steps.copy()?,
            conds: self.conds.copy()?,
            columns: self.columns.copy()?,
            site: self.site,
        })
    }
}

/// The leaves of all relations, in their order, numbered from 1 in each.
pub(crate) fn all_leaves(
    alloc: Global,
    relations: &[SplitRelation],
) -> Result<Vec<FragmentLeaf>, Memory>
    ensures { IfOk result (λ leaves. leaves.items ≡ flat_map leaves_of (map relation_of relations.now)) }
{
    let mut leaves = Vec::new(alloc);
    for relation in relations {
        put_leaves(&mut leaves, relation)?;
    }
    Ok(leaves)
}

/// How many leaves each relation has.
pub(crate) fn leaf_counts(alloc: Global, relations: &[SplitRelation]) -> Result<Vec<usize>, Memory>
    ensures { IfOk result (λ counts. counts.items ≡ leaf_counts (map relation_of relations.now)) }
{
    let mut counts = Vec::new(alloc);
    for relation in relations {
        let paths = tree_paths(alloc, &relation.split)?;
        counts.push(paths.len())?;
    }
    Ok(counts)
}

/// Puts the leaves of a relation behind others.
fn put_leaves(leaves: &mut Vec<FragmentLeaf>, relation: &SplitRelation) -> Result<(), Memory>
    ensures { OnOk result (leaves.new.items ≡ leaves.old.items ++ leaves_of (relation_of relation.now)) }
{
    let alloc = *leaves.allocator();
    let columns = beside_key(alloc, relation.schema.columns.as_slice())?;
    let paths = tree_paths(alloc, &relation.split)?;
    put_numbered(leaves, &relation.schema.name, columns.as_slice(), paths)
}

/// Puts the leaves at the ends of paths behind others, numbered from 1 under this name.
fn put_numbered(
    leaves: &mut Vec<FragmentLeaf>,
    relation: &Text,
    columns: &[usize],
    paths: Vec<Path>,
) -> Result<(), Memory>
    ensures { OnOk result (leaves.new.items ≡ leaves.old.items ++ leaves_from relation.now columns.now 1 paths.items) }
{
    let before = leaves.len();
    for path in paths {
        let number = leaves.len() - before + 1;
        let next = leaf(*leaves.allocator(), relation, columns, number, path)?;
        leaves.push(next)?;
    }
    Ok(())
}

/// The leaf at the end of a path.
fn leaf(
    alloc: Global,
    relation: &Text,
    columns: &[usize],
    number: usize,
    path: Path,
) -> Result<FragmentLeaf, Memory>
    ensures { IfOk result (λ leaf. leaf ≡ leaf_of relation.now columns.now number path) }
{
    let name = Leaf {
        relation: relation.copy()?,
        number,
    };
    let conds = Conds::new(path_conds(alloc, path.steps.as_slice())?)?;
    let mut all = Vec::new(alloc);
    all.push(0)?;
    all.extend_from_slice(path_columns(columns, path.steps.as_slice()))?;
    Ok(FragmentLeaf {
        name,
        conds,
        columns: ColumnList::new(all)?,
        site: path.site,
        steps: path.steps,
    })
}

/// The leaf of this name, if it is among these.
pub(crate) fn find_leaf<'a>(leaves: &'a [FragmentLeaf], name: &Leaf) -> Option<&'a FragmentLeaf>
    ensures { option_copied result ≡ leaf_named name.now leaves.now }
{
    leaves.iter().find(|leaf| leaf.name == *name)
}

/// The leaves of the relation of this name among those of relations with so many leaves each.
pub(crate) fn leaves_among<'a>(
    relations: &[SplitRelation],
    counts: &[usize],
    leaves: &'a [FragmentLeaf],
    name: &str,
) -> &'a [FragmentLeaf]
    requires counted { counts.now ≡ leaf_counts (map relation_of relations.now) }
    requires listed { leaves.now ≡ flat_map leaves_of (map relation_of relations.now) }
    ensures { result.now ≡ leaves_in (relation_named name.now (map relation_of relations.now)) }
{
    let Some((first, relations)) = relations.split_first() else {
        return &[];
    };
    let (own, others) = leaves.split_at(counts[0]);
    if first.schema.name.as_str() == name {
        return own;
    }
    leaves_among(relations, &counts[1..], others, name)
}

/// The names of the leaves at a site.
pub(crate) fn names_at(
    alloc: Global,
    leaves: &[FragmentLeaf],
    site: usize,
) -> Result<Vec<Leaf>, Memory>
    ensures { IfOk result (λ names. names.items ≡ names_at site leaves.now) }
{
    let mut names = Vec::new(alloc);
    for leaf in leaves {
        if leaf.site == site {
            names.push(leaf.name.copy()?)?;
        }
    }
    Ok(names)
}
