//! Fragment trees: how a relation's rows and columns are split over sites.

ghost use Rattle.std.specs.Prelude.{◌≡◌, ◌↔◌, IfOk, IsTrue, map};
ghost use Rattle.catalog.specs.Split.{tree_of, tree_branch, tree_group};

use std::alloc::Global;
use terms::cond::Conds;
use terms::copy::TryCopy;
use terms::memory::Memory;
use terms::same::Same;
use terms::seq::Seq;

/// A branch of a row split: the rows of which its conditions hold, split further.
#[cycle(split)]
#[derive(Debug, Drop)]
pub struct Branch {
    pub conds: Conds,
    pub split: Split,
}

/// A group of a column split: these columns beside the key, split further.
#[cycle(split)]
#[derive(Debug, Drop)]
pub struct Group {
    /// The places of the columns, counted from 0, which is the key's.
    pub columns: Seq<usize>,
    pub split: Split,
}

/// A fragment tree of a relation. A leaf has the number of its site.
#[cycle(split)]
#[derive(Debug, Drop)]
pub enum Split {
    Leaf(usize),
    ByRows(Vec<Branch>),
    ByCols(Vec<Group>),
}

impl Split {
    /// The same tree once more.
    #[cycle(copies)]
    pub fn copy(&self) -> Result<Split, Memory>
        ensures { IfOk result (λ copy. tree_of copy ≡ tree_of self.now) }
    {
        match self {
            Split::Leaf(site) => Ok(Split::Leaf(*site)),
            Split::ByRows(branches) => {
                let copies = copy_branches(*branches.allocator(), branches.as_slice())?;
                Ok(Split::ByRows(copies))
            }
            Split::ByCols(groups) => {
                let copies = copy_groups(*groups.allocator(), groups.as_slice())?;
                Ok(Split::ByCols(copies))
            }
        }
    }

    /// Whether this is the same tree as another.
    #[cycle(comparisons)]
    pub fn same(&self, other: &Split) -> bool
        ensures { IsTrue result ↔ (tree_of self.now ≡ tree_of other.now) }
    {
        match self {
            Split::Leaf(site) => match other {
                Split::Leaf(other) => *site == *other,
                _ => false,
            },
            Split::ByRows(branches) => match other {
                Split::ByRows(others) => same_branches(branches.as_slice(), others.as_slice()),
                _ => false,
            },
            Split::ByCols(groups) => match other {
                Split::ByCols(others) => same_groups(groups.as_slice(), others.as_slice()),
                _ => false,
            },
        }
    }
}

#[cycle(comparisons)]
fn same_branches(branches: &[Branch], others: &[Branch]) -> bool
    ensures { IsTrue result ↔ (map tree_branch branches.now ≡ map tree_branch others.now) }
{
    if branches.len() != others.len() {
        return false;
    }
    for place in 0..branches.len() {
        if !same_branch(&branches[place], &others[place]) {
            return false;
        }
    }
    true
}

#[cycle(comparisons)]
fn same_branch(branch: &Branch, other: &Branch) -> bool
    ensures { IsTrue result ↔ (tree_branch branch.now ≡ tree_branch other.now) }
{
    branch.conds.same(&other.conds) && branch.split.same(&other.split)
}

#[cycle(comparisons)]
fn same_groups(groups: &[Group], others: &[Group]) -> bool
    ensures { IsTrue result ↔ (map tree_group groups.now ≡ map tree_group others.now) }
{
    if groups.len() != others.len() {
        return false;
    }
    for place in 0..groups.len() {
        if !same_group(&groups[place], &others[place]) {
            return false;
        }
    }
    true
}

#[cycle(comparisons)]
fn same_group(group: &Group, other: &Group) -> bool
    ensures { IsTrue result ↔ (tree_group group.now ≡ tree_group other.now) }
{
    group.columns.same(&other.columns) && group.split.same(&other.split)
}

#[cycle(copies)]
fn copy_branches(alloc: Global, branches: &[Branch]) -> Result<Vec<Branch>, Memory>
    ensures { IfOk result (λ copies. map tree_branch copies.items ≡ map tree_branch branches.now) }
{
    let mut copies = Vec::new(alloc);
    for branch in branches {
        let conds = branch.conds.copy()?;
        let split = branch.split.copy()?;
        copies.push(Branch { conds, split })?;
    }
    Ok(copies)
}

#[cycle(copies)]
fn copy_groups(alloc: Global, groups: &[Group]) -> Result<Vec<Group>, Memory>
    ensures { IfOk result (λ copies. map tree_group copies.items ≡ map tree_group groups.now) }
{
    let mut copies = Vec::new(alloc);
    for group in groups {
        let columns = group.columns.copy()?;
        let split = group.split.copy()?;
        copies.push(Group { columns, split })?;
    }
    Ok(copies)
}
