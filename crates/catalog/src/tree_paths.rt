//! The paths to the leaves of a fragment tree, listed.

ghost use Rattle.std.specs.Prelude.{◌≡◌, ◌<◌, ◌++◌, ◌∷◌, [], suc, length, map, flat_map, take, drop, IfOk, OnOk};
ghost use Rattle.catalog.specs.Path.{behind, paths, paths_by_cols, column_step};
ghost use Rattle.catalog.specs.declared.path.Step.TheVariants as steps;
ghost use Rattle.catalog.specs.Path as spec;
ghost use Rattle.catalog.specs.Below.{groups_seen};
ghost use Rattle.catalog.specs.Split.{tree_of, tree_branch, tree_group};

use crate::path::{Path, Step};
use crate::split::{Branch, Group, Split};
use std::alloc::Global;
use terms::copy::{TryCopy, copy_all};
use terms::memory::Memory;
use terms::seq::Seq;

/// The paths to the leaves of a tree, in the order of the document.
pub(crate) fn tree_paths(alloc: Global, split: &Split) -> Result<Vec<Path>, Memory>
    ensures { IfOk result (λ found. found.items ≡ paths (tree_of split.now)) }
{
    let mut paths = Vec::new(alloc);
    put_paths(&mut paths, &[], split)?;
    Ok(paths)
}

/// Puts the paths of a tree behind others. These steps lead to the tree.
#[cycle(listing)]
fn put_paths(paths: &mut Vec<Path>, above: &[Step], split: &Split) -> Result<(), Memory>
    ensures { OnOk result (paths.new.items ≡ paths.old.items ++ map (behind above.now) (spec.paths (tree_of split.now))) }
{
    match split {
        Split::Leaf(site) => {
            let steps = Seq::new(copy_all(*paths.allocator(), above)?);
            paths.push(Path { steps, site: *site })?;
            Ok(())
        }
        Split::ByRows(branches) => put_branches(paths, above, branches.as_slice()),
        Split::ByCols(groups) => put_groups(paths, above, groups.as_slice()),
    }
}

/// Puts the paths of each branch behind others.
#[cycle(listing)]
fn put_branches(paths: &mut Vec<Path>, above: &[Step], branches: &[Branch]) -> Result<(), Memory>
    ensures { OnOk result (paths.new.items ≡ paths.old.items ++ flat_map (λ branch. map (behind (above.now ++ steps.Row branch.conds ∷ [])) (spec.paths branch.tree)) (map tree_branch branches.now)) }
{
    for branch in branches {
        let mut longer = copy_all(*paths.allocator(), above)?;
        longer.push(Step::Row(branch.conds.copy()?))?;
        put_paths(paths, longer.as_slice(), &branch.split)?;
    }
    Ok(())
}

/// Puts the paths of each group behind others.
#[cycle(listing)]
fn put_groups(paths: &mut Vec<Path>, above: &[Step], groups: &[Group]) -> Result<(), Memory>
    ensures { OnOk result (paths.new.items ≡ paths.old.items ++ map (behind above.now) (paths_by_cols [] (groups_seen groups.now))) }
{
    let columns = columns_of(*paths.allocator(), groups)?;
    for place in 0..groups.len() {
        let mut longer = copy_all(*paths.allocator(), above)?;
        longer.push(column_step(*paths.allocator(), columns.as_slice(), place)?)?;
        put_paths(paths, longer.as_slice(), &groups[place].split)?;
    }
    Ok(())
}

/// The step into the group at a place among groups of these columns.
fn column_step(alloc: Global, groups: &[Seq<usize>], place: usize) -> Result<Step, Memory>
    requires { place < length groups.now }
    ensures { IfOk result (λ step. step ≡ column_step place groups.now) }
{
    let group = groups[place].copy()?;
    let before = Seq::new(copy_all(alloc, &groups[..place])?);
    let after = Seq::new(copy_all(alloc, &groups[place + 1..])?);
    Ok(Step::Col {
        group,
        before,
        after,
    })
}

/// The columns of each group.
fn columns_of(alloc: Global, groups: &[Group]) -> Result<Vec<Seq<usize>>, Memory>
    ensures { IfOk result (λ columns. columns.items ≡ map (λ group. group.columns) (map tree_group groups.now)) }
{
    let mut columns = Vec::new(alloc);
    for group in groups {
        columns.push(group.columns.copy()?)?;
    }
    Ok(columns)
}
