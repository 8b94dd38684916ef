//! Which leaves a statement fetches.

ghost use Rattle.std.specs.Prelude.{◌≡◌, ◌++◌, ◌∷◌, ◌+◌, ◌<◌, IfOk, OnOk, map};
ghost use Rattle.std.specs.List.{AllByRecursion, list_all};
ghost use Rattle.plan.specs.Picked.{own_places, picked, picks, succeeds, trial_of};
ghost use Rattle.plan.specs.Picked as spec;

use crate::fetch::{Fetch, fetch_of};
use crate::met::{some_row_meets, some_row_of_meets};
use crate::need::{Need, on_column};
use catalog::fragment_leaf::FragmentLeaf;
use catalog::path::wanted;
use meaning::schema::Column;
use std::alloc::Global;
use terms::cond::{Cond, Conds};
use terms::memory::Memory;
use terms::seq::Seq;
use terms::value::Kind;

/// Where a relation's columns stand in the rows that are tried: its key at one place, its other columns
/// counted on from a width.
#[derive(Clone, Copy, Debug)]
pub struct Places {
    pub key: usize,
    pub past: usize,
}

/// Rows that are tried for the leaves of a need: of these types, with the need's columns on these places,
/// and with all that is asked of them beside a leaf's conditions.
#[derive(Debug, Drop)]
pub struct Trial {
    pub kinds: Seq<Kind>,
    pub places: Places,
    pub asked: Conds,
}

/// The places of a relation whose columns stand first.
pub fn own_places() -> Places
    ensures { result ≡ own_places }
{
    Places { key: 0, past: 0 }
}

/// Puts out conditions on a relation's columns as conditions on their places.
pub fn put_on(out: &mut Vec<Cond>, places: Places, conds: &[Cond]) -> Result<(), Memory>
    requires { AllByRecursion (λ cond. places.past + cond.col < 18446744073709551616) conds.now }
    ensures { OnOk result (out.new.items ≡ out.old.items ++ spec.put_on places conds.now) }
{
    for cond in conds {
        let place = if cond.col == 0 {
            places.key
        } else {
            places.past + cond.col
        };
        out.push(on_column(place, cond)?)?;
    }
    Ok(())
}

/// Whether each trial of both relations of an ON succeeds: some row meets the leaf's conditions and those asked.
fn all_succeed(alloc: Global, trials: &[Trial], leaf: &FragmentLeaf) -> Result<bool, Memory>
    ensures { IfOk result (λ all. all ≡ list_all (succeeds leaf.now) trials.now) }
{
    let conds = leaf.conds.as_slice();
    for trial in trials {
        let asked = trial.asked.as_slice();
        if !some_row_meets(alloc, trial.kinds.as_slice(), trial.places, conds, asked)? {
            return Ok(false);
        }
    }
    Ok(true)
}

/// Whether a leaf is wanted for a need, and each trial succeeds: that of rows of its relation alone, and
/// those of both relations of an ON.
fn picks(
    alloc: Global,
    columns: &[Column],
    ties: &[Trial],
    need: &Need,
    leaf: &FragmentLeaf,
) -> Result<bool, Memory>
    ensures { IfOk result (λ picked. picked ≡ picks (trial_of (map (λ column. column.kind) columns.now) own_places need.now.conds ∷ ties.now) need.now leaf.now) }
{
    if !wanted(need.columns.as_slice(), leaf.steps.as_slice()) {
        return Ok(false);
    }
    let (conds, asked) = (leaf.conds.as_slice(), need.conds.as_slice());
    if !some_row_of_meets(alloc, columns, own_places(), conds, asked)? {
        return Ok(false);
    }
    all_succeed(alloc, ties, leaf)
}

/// Puts out the fetches of those of the leaves that are wanted for a need and of which each trial succeeds.
pub fn put_picked(
    alloc: Global,
    columns: &[Column],
    ties: &[Trial],
    need: &Need,
    leaves: &[FragmentLeaf],
    out: &mut Vec<Fetch>,
) -> Result<(), Memory>
    ensures { OnOk result (out.new.items ≡ out.old.items ++ picked (trial_of (map (λ column. column.kind) columns.now) own_places need.now.conds ∷ ties.now) need.now leaves.now) }
{
    for leaf in leaves {
        if !picks(alloc, columns, ties, need, leaf)? {
            continue;
        }
        out.push(fetch_of(alloc, need, leaf)?)?;
    }
    Ok(())
}
