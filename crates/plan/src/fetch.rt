//! Reads of leaves.

ghost use Rattle.std.specs.Prelude.{◌≡◌, ◌<◌, length, true, IfOk, IfSome};
ghost use Rattle.plan.specs.Fetch as spec;

use crate::need::{Need, on_column};
use catalog::column_list::ColumnList;
use catalog::fragment_leaf::FragmentLeaf;
use std::alloc::Global;
use terms::cond::{Cond, Conds};
use terms::copy::TryCopy;
use terms::leaf::Leaf;
use terms::memory::Memory;

/// A read of a leaf: the leaf's columns, the key first, and conditions on the places of its parts.
#[derive(Debug, Drop)]
pub struct Fetch {
    pub leaf: Leaf,
    pub columns: ColumnList,
    pub conds: Conds,
}

impl TryCopy for Fetch {
    fn copy(&self) -> Result<Fetch, Memory> {
        Ok(Fetch {
            leaf: self.leaf.copy()?,
            columns: self.columns.copy()?,
            conds: self.conds.copy()?,
        })
    }
}

/// The read of a leaf for a need: with those of the need's conditions whose columns the leaf has.
pub fn fetch_of(alloc: Global, need: &Need, leaf: &FragmentLeaf) -> Result<Fetch, Memory>
    ensures { IfOk result (λ fetch. fetch ≡ spec.fetch_of need.now leaf.now) }
{
    Ok(Fetch {
        leaf: leaf.name.copy()?,
        columns: leaf.columns.copy()?,
        conds: conds_on(alloc, leaf.columns.as_slice(), &need.conds)?,
    })
}

/// Those of the conditions whose columns are among these, on the columns' places. Conditions that stay as they are are shared.
fn conds_on(alloc: Global, columns: &[usize], conds: &Conds) -> Result<Conds, Memory>
    ensures { IfOk result (λ found. found ≡ spec.placed columns.now conds.now) }
{
    if are_in_place(columns, conds.as_slice()) {
        return conds.copy();
    }
    Conds::new(placed(alloc, columns, conds.as_slice())?)
}

/// Whether the column of each condition stands among these at the place that is its own number.
fn are_in_place(columns: &[usize], conds: &[Cond]) -> bool
    ensures { result ≡ true → spec.placed columns.now conds.now ≡ conds.now }
{
    let Some((cond, rest)) = conds.split_first() else {
        return true;
    };
    place_in(cond.col, columns) == Some(cond.col) && are_in_place(columns, rest)
}

/// Those of the conditions whose columns are among these, on the columns' places.
fn placed(alloc: Global, columns: &[usize], conds: &[Cond]) -> Result<Vec<Cond>, Memory>
    ensures { IfOk result (λ found. found.items ≡ spec.placed columns.now conds.now) }
{
    let mut found = Vec::new(alloc);
    for cond in conds {
        if let Some(place) = place_in(cond.col, columns) {
            found.push(on_column(place, cond)?)?;
        }
    }
    Ok(found)
}

/// The place of a column among these.
pub fn place_in(col: usize, columns: &[usize]) -> Option<usize>
    ensures found { result ≡ spec.place_in col columns.now }
    ensures within { IfSome result (λ place. place < length columns.now) }
{
    let (first, rest) = columns.split_first()?;
    if *first == col {
        return Some(0);
    }
    match place_in(col, rest) {
        Some(place) => Some(place + 1),
        None => None,
    }
}
