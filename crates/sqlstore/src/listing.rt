//! Parts from rows.

ghost use Rattle.std.specs.Prelude.{◌≡◌, ◌≢◌, ◌++◌, ◌∷◌, [], if◌then◌else◌, IfOk, IfSome, OnOk, Ok, Err, IsTrue, MatchOption, None, Some, T};
ghost use Rattle.std.specs.FinMap as map;
ghost use Rattle.std.specs.FinMap.Entries.{is_sorted};
ghost use Rattle.std.specs.List.{AllByRecursion};
ghost use Rattle.std.specs.Ordering.{int_cmp, is_eq, is_lt};
ghost use Rattle.store.specs.declared.fault.StoreFault.TheVariants.{Refused, Damaged};
ghost use Rattle.store.specs.Content.{made_by, parts};
ghost use Rattle.terms.specs.Leaf.{leaf_cmp, leaf_text};
ghost use Rattle.terms.specs.Row.{key_of};
ghost use Rattle.terms.specs.Stored.{part_from};
ghost use Rattle.sqlstore.specs.Cells.{text_at, int_at, is_text};
ghost use Rattle.sqlstore.specs.Content.{leaf_named};
ghost use Rattle.sqlstore.specs.Listed.{HasCells, entries_in, with_keys, with_row, with_rows};
ghost use Rattle.sqlstore.specs.Sound.{IsPart};
ghost use Rattle.sqlstore.specs.Frame.{FailsUnless};

use crate::find::{name_of, part_at};
use sqlite::Row;
use sqlite::types::ValueRef;
use std::alloc::Global;
use store::changes::Changes;
use store::fault::StoreFault;
use terms::cond::Conds;
use terms::copy::TryCopy;
use terms::leaf::Leaf;
use terms::memory::Memory;
use terms::part::Part;

/// Whether a leaf has this name. Where its relation's name doesn't begin it, the leaf's own needn't be written out.
fn has_name(alloc: Global, leaf: &Leaf, name: &[u8]) -> Result<bool, Memory>
    ensures { IfOk result (λ has. has ≡ is_text name.now (leaf_text leaf.now)) }
{
    if !name.starts_with(leaf.relation.as_str().as_bytes()) {
        return Ok(false);
    }
    let own = name_of(alloc, leaf)?;
    Ok(name.cmp(own.as_bytes()).is_eq())
}

/// The leaf that has this name.
pub fn named<'a>(
    alloc: Global,
    leaves: &'a [Leaf],
    name: &[u8],
) -> Result<Option<&'a Leaf>, StoreFault>
    ensures leaf { IfOk result (λ found. MatchOption found (leaf_named leaves.now name.now ≡ None) (λ leaf. leaf_named leaves.now name.now ≡ Some leaf.now)) }
    ensures memory { (result ≢ Err Damaged) × (result ≢ Err Refused) }
{
    for leaf in leaves {
        if has_name(alloc, leaf, name)? {
            return Ok(Some(leaf));
        }
    }
    Ok(None)
}

/// The leaf and the part that a row has: its number, the leaf's name, the key and the body.
pub fn part_row<'a>(
    alloc: Global,
    leaves: &'a [Leaf],
    row: &Row,
) -> Result<(&'a Leaf, Part), StoreFault>
    ensures leaf { IfOk result (λ found. leaf_named leaves.now (text_at row.now 1) ≡ Some found.0.now) }
    ensures part { IfOk result (λ found. (part_from (text_at row.now 3) ≡ Ok found.1) × (key_of found.1 ≡ int_at row.now 2)) }
    ensures fails { FailsUnless (HasCells row.now × IsPart leaves.now row.now) result }
{
    let Ok(ValueRef::Text(name)) = row.get_ref(1) else {
        return Err(StoreFault::Damaged);
    };
    let Ok(ValueRef::Int(key)) = row.get_ref(2) else {
        return Err(StoreFault::Damaged);
    };
    let part = match part_at(alloc, row, 3) {
        Ok(part) => part,
        Err(fault) => return Err(fault),
    };
    match named(alloc, leaves, name) {
        Ok(Some(leaf)) if part.key() == key => Ok((leaf, part)),
        Ok(_) => Err(StoreFault::Damaged),
        Err(fault) => Err(fault),
    }
}

/// Puts a row's part into changes.
pub fn put_row(
    changes: &mut Changes,
    alloc: Global,
    leaves: &[Leaf],
    row: &Row,
) -> Result<(), StoreFault>
    ensures ok { OnOk result ((changes.new ≡ with_row leaves.now row.now changes.old) × IsPart leaves.now row.now) }
    ensures fails { FailsUnless (HasCells row.now × IsPart leaves.now row.now) result }
{
    match part_row(alloc, leaves, row) {
        Ok((leaf, part)) => {
            let leaf = leaf.copy()?;
            changes.put(leaf, part)?;
            Ok(())
        }
        Err(fault) => Err(fault),
    }
}

/// The changes that make the parts of rows of nothing.
pub fn changes_of(alloc: Global, leaves: &[Leaf], rows: &[Row]) -> Result<Changes, StoreFault>
    ensures ok { IfOk result (λ changes. (changes ≡ with_rows leaves.now rows.now map.empty) × AllByRecursion (IsPart leaves.now) rows.now) }
    ensures fails { FailsUnless (AllByRecursion HasCells rows.now × AllByRecursion (IsPart leaves.now) rows.now) result }
{
    let mut changes = Changes::new(alloc);
    for row in rows {
        put_row(&mut changes, alloc, leaves, row)?;
    }
    Ok(changes)
}

/// Puts a part behind others, where its own leaf is this one.
fn push_own(parts: &mut Vec<Part>, leaf: &Leaf, own: &Leaf, part: Part) -> Result<(), Memory>
    ensures { OnOk result (parts.new.items ≡ parts.old.items ++ (if is_eq (leaf_cmp leaf.now own.now) then part ∷ [] else [])) }
{
    if leaf.cmp(own).is_eq() {
        parts.push(part)?;
    }
    Ok(())
}

/// The parts of a leaf among rows, in the order of the rows.
fn parts_among(
    alloc: Global,
    leaves: &[Leaf],
    leaf: &Leaf,
    rows: &[Row],
) -> Result<Vec<Part>, StoreFault>
    ensures parts { IfOk result (λ found. with_keys found.items ≡ entries_in leaves.now leaf.now rows.now) }
    ensures fails { FailsUnless (AllByRecursion HasCells rows.now × AllByRecursion (IsPart leaves.now) rows.now) result }
{
    let mut parts = Vec::new(alloc);
    for row in rows {
        let (own, part) = match part_row(alloc, leaves, row) {
            Ok(found) => found,
            Err(fault) => return Err(fault),
        };
        push_own(&mut parts, leaf, own, part)?;
    }
    Ok(parts)
}

/// Whether a part's key is below the least one, if there is one.
fn is_below(part: &Part, least: Option<i64>) -> bool
    ensures { IsTrue result → IfSome least (λ above. T (is_lt (int_cmp (key_of part.now) above))) }
{
    let key = part.key();
    match least {
        Some(above) => key.cmp(&above).is_lt(),
        None => true,
    }
}

/// Whether each key is above the one before it.
fn keys_rise(parts: &[Part]) -> bool
    ensures { IsTrue result → T (is_sorted int_cmp (with_keys parts.now)) }
{
    let mut at = parts.len();
    let mut least = None;
    while at > 0 {
        at -= 1;
        let part = &parts[at];
        if !is_below(part, least) {
            return false;
        }
        least = Some(part.key());
    }
    true
}

/// The parts that rows make of nothing in a leaf, in the order of their keys. An index gives them in that order, so they are put in
/// order only where it didn't.
fn parts_in_order(
    alloc: Global,
    leaves: &[Leaf],
    leaf: &Leaf,
    rows: &[Row],
) -> Result<Vec<Part>, StoreFault>
    ensures parts { IfOk result (λ found. found.items ≡ map.values (made_by (with_rows leaves.now rows.now map.empty) leaf.now)) }
    ensures fails { FailsUnless (AllByRecursion HasCells rows.now × AllByRecursion (IsPart leaves.now) rows.now) result }
{
    let parts = match parts_among(alloc, leaves, leaf, rows) {
        Ok(parts) => parts,
        Err(fault) => return Err(fault),
    };
    if keys_rise(&parts) {
        return Ok(parts);
    }
    let changes = match changes_of(alloc, leaves, rows) {
        Ok(changes) => changes,
        Err(fault) => return Err(fault),
    };
    match changes.list(leaf) {
        Ok(parts) => Ok(parts),
        Err(_) => Err(StoreFault::Memory),
    }
}

/// The parts that rows make of nothing in a leaf, of those that meet conditions, in the order of their keys.
pub fn parts_meeting(
    alloc: Global,
    leaves: &[Leaf],
    leaf: &Leaf,
    conds: &Conds,
    rows: &[Row],
) -> Result<Vec<Part>, StoreFault>
    ensures parts { IfOk result (λ found. found.items ≡ parts conds.now (made_by (with_rows leaves.now rows.now map.empty) leaf.now)) }
    ensures fails { FailsUnless (AllByRecursion HasCells rows.now × AllByRecursion (IsPart leaves.now) rows.now) result }
{
    let mut parts = match parts_in_order(alloc, leaves, leaf, rows) {
        Ok(parts) => parts,
        Err(fault) => return Err(fault),
    };
    parts.retain(|part| part.meets(conds.as_slice()));
    Ok(parts)
}
