//! The paths to the leaves of a fragment tree, and the rule which of them are wanted.

ghost use Rattle.std.specs.Prelude.{◌≡◌, ◌++◌, IfOk, OnOk};
ghost use Rattle.catalog.specs.Path as spec;
ghost use Rattle.catalog.specs.declared.path.Step.TheVariants as steps;
ghost use Rattle.catalog.specs.Path.{path_conds, path_columns, step_conds};

use crate::frame::has;
use std::alloc::Global;
use terms::cond::{Cond, Conds};
use terms::copy::TryCopy;
use terms::memory::Memory;
use terms::seq::Seq;

/// A step on the path to a leaf.
#[derive(Debug, Drop)]
pub enum Step {
    /// Into the branch of these conditions.
    Row(Conds),
    /// Into a group of columns, with the groups of the same split before it and after it.
    Col {
        group: Seq<usize>,
        before: Seq<Seq<usize>>,
        after: Seq<Seq<usize>>,
    },
}

impl TryCopy for Step {
    fn copy(&self) -> Result<Step, Memory> {
        match self {
            Step::Row(conds) => Ok(Step::Row(conds.copy()?)),
            Step::Col {
                group,
                before,
                after,
            } => Ok(Step::Col {
                group: group.copy()?,
                before: before.copy()?,
                after: after.copy()?,
            }),
        }
    }
}

/// The path to a leaf: its steps from the root, and the number of the leaf's site.
#[derive(Debug, Drop)]
pub struct Path {
    pub steps: Seq<Step>,
    pub site: usize,
}

/// Whether a path is wanted for the needed columns: it leaves each column split through a group with
/// one of them or, where no group of that split has one, through the first.
pub fn wanted(needed: &[usize], steps: &[Step]) -> bool
    ensures { result ≡ spec.wanted needed.now steps.now }
{
    steps.iter().all(|step| is_wanted(needed, step))
}

fn is_wanted(needed: &[usize], step: &Step) -> bool
    ensures { result ≡ spec.is_wanted needed.now step.now }
{
    match step {
        Step::Row(_) => true,
        Step::Col {
            group,
            before,
            after,
        } => goes_through(
            needed,
            group.as_slice(),
            before.as_slice(),
            after.as_slice(),
        ),
    }
}

fn goes_through(
    needed: &[usize],
    group: &[usize],
    before: &[Seq<usize>],
    after: &[Seq<usize>],
) -> bool
    ensures { result ≡ spec.is_wanted needed.now (steps.Col group.now before.now after.now) }
{
    touches(needed, group) || (before.is_empty() && !some_touches(needed, after))
}

fn some_touches(needed: &[usize], groups: &[Seq<usize>]) -> bool
    ensures { result ≡ spec.some_touches needed.now groups.now }
{
    groups.iter().any(|group| touches(needed, group.as_slice()))
}

fn touches(needed: &[usize], group: &[usize]) -> bool
    ensures { result ≡ spec.touches needed.now group.now }
{
    group.iter().any(|col| has(needed, *col))
}

/// The conditions on a path, the root's first.
pub(crate) fn path_conds(alloc: Global, steps: &[Step]) -> Result<Vec<Cond>, Memory>
    ensures { IfOk result (λ conds. conds.items ≡ path_conds steps.now) }
{
    let mut conds = Vec::new(alloc);
    for step in steps {
        put_conds(&mut conds, step_conds(step))?;
    }
    Ok(conds)
}

fn step_conds(step: &Step) -> &[Cond]
    ensures { result.now ≡ step_conds step.now }
{
    match step {
        Step::Row(conds) => conds.as_slice(),
        Step::Col { .. } => &[],
    }
}

/// Puts copies of conditions behind others.
fn put_conds(conds: &mut Vec<Cond>, more: &[Cond]) -> Result<(), Memory>
    ensures { OnOk result (conds.new.items ≡ conds.old.items ++ more.now) }
{
    for cond in more {
        conds.push(cond.copy()?)?;
    }
    Ok(())
}

/// The columns beside the key that a path leaves of these.
pub(crate) fn path_columns<'a>(columns: &'a [usize], steps: &'a [Step]) -> &'a [usize]
    ensures { result.now ≡ path_columns columns.now steps.now }
{
    match steps.split_first() {
        None => columns,
        Some((Step::Row(_), rest)) => path_columns(columns, rest),
        Some((Step::Col { group, .. }, rest)) => path_columns(group.as_slice(), rest),
    }
}
