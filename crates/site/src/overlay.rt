//! A leaf's parts with a visit's intentions made: both go by ascending keys, and one pass merges them.

ghost use Rattle.std.specs.Prelude.{◌≡◌, ◌++◌, IfOk, OnOk, map, take, drop};
ghost use Rattle.std.specs.List.Sorted.{IsStrictlySortedBy};
ghost use Rattle.std.specs.Ordering.{int_cmp};
ghost use Rattle.terms.specs.Row.{key_of};
ghost use Rattle.store.specs.Change.{change_of};
ghost use Rattle.store.specs.Content.{Content, IsKeyed, changed, parts};
ghost use Rattle.site.specs.Overlay.{overlaid, puts};

use std::alloc::Global;
use std::cmp::Ordering;
use std::collections::VecDeque;
use store::change::Change;
use store::changes::Changes;
use terms::cond::Conds;
use terms::copy::TryCopy;
use terms::leaf::Leaf;
use terms::memory::Memory;
use terms::part::Part;

/// The parts of a leaf that meet conditions, after changes, where these are the parts that met them before.
/// Each part stands under its own key.
pub(crate) fn overlaid(
    alloc: Global,
    kept: Vec<Part>,
    changes: &Changes,
    leaf: &Leaf,
    conds: &Conds,
) -> Result<Vec<Part>, Memory>
    ensures { (content : Content) → IsKeyed content → kept.items ≡ parts conds.now content → IfOk result (λ rows. rows.items ≡ parts conds.now (changed leaf.now changes.now content)) }
{
    let changes = changes.of_leaf(leaf)?;
    if changes.is_empty() {
        return Ok(kept);
    }
    merged(alloc, kept, changes, conds)
}

/// Parts with changes made, both by ascending keys. A part moves over unless a change has its key, and a part
/// that is put is copied once.
fn merged(
    alloc: Global,
    kept: Vec<Part>,
    changes: Vec<Change<'_>>,
    conds: &Conds,
) -> Result<Vec<Part>, Memory>
    ensures { IsStrictlySortedBy int_cmp (map key_of kept.items) → IfOk result (λ found. found.items ≡ overlaid conds.now kept.items (map change_of changes.entry.items)) }
{
    let mut found = Vec::with_capacity(alloc, kept.len())?;
    let mut kept = VecDeque::from_vec(kept);
    let mut changes = VecDeque::from_vec(changes);
    while let (Some(part), Some(change)) = (kept.front(), changes.front()) {
        match order(part, change) {
            Ordering::Less => move_first(&mut kept, &mut found)?,
            Ordering::Equal => drop_first(&mut kept),
            Ordering::Greater => make_first(&mut changes, &mut found, conds)?,
        }
    }
    make_all(changes, &mut found, conds)?;
    found.append(&mut kept.into_vec())?;
    Ok(found)
}

/// How the key of a part stands to that of a change.
fn order(part: &Part, change: &Change<'_>) -> Ordering
    ensures { result ≡ int_cmp (key_of part.now) change.now.key }
{
    part.key().cmp(&change.key)
}

/// The first part moves behind others.
fn move_first(parts: &mut VecDeque<Part>, found: &mut Vec<Part>) -> Result<(), Memory>
    ensures moved { OnOk result (found.new.items ≡ found.old.items ++ take 1 parts.old.items) }
    ensures rest { parts.new.items ≡ drop 1 parts.old.items }
{
    if let Some(part) = parts.pop_front() {
        found.push(part)?;
    }
    Ok(())
}

/// The first part goes.
fn drop_first(parts: &mut VecDeque<Part>)
    ensures { parts.new.items ≡ drop 1 parts.old.items }
{
    let _gone = parts.pop_front();
}

/// The first change is made: the part that it puts goes behind others, if it puts one and conditions hold of it.
fn make_first(
    changes: &mut VecDeque<Change<'_>>,
    found: &mut Vec<Part>,
    conds: &Conds,
) -> Result<(), Memory>
    ensures made { OnOk result (found.new.items ≡ found.old.items ++ puts conds.now (map change_of (take 1 changes.old.items))) }
    ensures rest { changes.new.items ≡ drop 1 changes.old.items }
{
    if let Some(change) = changes.pop_front()
        && let Some(part) = change.part
        && part.meets(conds.as_slice())
    {
        found.push(part.copy()?)?;
    }
    Ok(())
}

/// All changes are made.
fn make_all(
    changes: VecDeque<Change<'_>>,
    found: &mut Vec<Part>,
    conds: &Conds,
) -> Result<(), Memory>
    ensures { OnOk result (found.new.items ≡ found.old.items ++ puts conds.now (map change_of changes.entry.items)) }
{
    let mut rest = changes;
    while !rest.is_empty() {
        make_first(&mut rest, found, conds)?;
    }
    Ok(())
}
