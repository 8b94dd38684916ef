//! The maps that hold a site's parts, leaf by leaf.

ghost use Rattle.std.specs.Prelude.{◌≡◌, ◌++◌, ℤ, List, false, IfOk, OnOk, Some, None, IsSome, if◌then◌else◌, option_to_list, unwrap_or};
ghost use Rattle.std.specs.BTreeMap.{is_at, IsOrdered};
ghost use Rattle.std.specs.List.{filter};
ghost use Rattle.std.specs.List.Sorted.{IsStrictlySortedBy};
ghost use Rattle.std.specs.Map.{lookup, keys_of};
ghost use Rattle.std.specs.Option.{option_copied, option_map};
ghost use Rattle.std.specs.Ordering.{int_cmp};
ghost use Rattle.std.specs.declared.cmp.Ordering.TheVariants.{Equal};
ghost use Rattle.terms.specs.Cond.{conds_hold};
ghost use Rattle.terms.specs.Leaf.{leaf_cmp};
ghost use Rattle.terms.specs.declared.value.Value.{Value};
ghost use Rattle.store.specs.declared.slot.Slot.{Slot as Place};
ghost use Rattle.store.specs.Slot.{slot_cmp, slot_of};
ghost use Rattle.store.specs.Entries.{entry_at};
ghost use Rattle.store.specs.Shelves.{key_at, place_at, part_on, shelf_at, shelf_parts};

use crate::slot::{Slot, Slots};
use crate::slots::copy_part;
use std::alloc::Global;
use std::collections::BTreeMap;
use terms::cond::Conds;
use terms::copy::TryCopy;
use terms::leaf::Leaf;
use terms::memory::Memory;
use terms::part::Part;

/// What stands at each key of a leaf; `None` where there is room for a part.
pub(crate) type Shelf = BTreeMap<i64, Option<Part>>;

/// The shelf of each leaf. On the way to a slot the leaf is looked for once, and then its keys alone are
/// compared.
pub(crate) type Shelves = BTreeMap<Leaf, Shelf>;

/// The part at a key of a leaf, if there is one.
pub(crate) fn find_part<'a>(shelves: &'a Shelves, leaf: &Leaf, key: &i64) -> Option<&'a Part>
    ensures part { option_copied result ≡ part_on shelves.now.entries (slot_of leaf.now key.now) }
    ensures ordered { IsOrdered leaf_cmp shelves.now }
{
    let _count = shelves.len();
    match shelves.get(leaf) {
        Some(shelf) => find_key(shelf, key),
        None => None,
    }
}

fn find_key<'a>(shelf: &'a Shelf, key: &i64) -> Option<&'a Part>
    ensures { option_copied result ≡ unwrap_or (key_at shelf.now.entries key.now) None }
{
    match shelf.get(key) {
        Some(part) => part.as_ref(),
        None => None,
    }
}

/// The parts of a leaf that meet conditions, in order.
pub(crate) fn list_leaf(
    alloc: Global,
    shelves: &Shelves,
    leaf: &Leaf,
    conds: &Conds,
) -> Result<Vec<Part>, Memory>
    ensures parts { IfOk result (λ parts. parts.items ≡ filter (conds_hold conds.now) (shelf_parts (shelf_at shelves.now.entries leaf.now))) }
    ensures sorted { IsStrictlySortedBy int_cmp (keys_of (shelf_at shelves.now.entries leaf.now)) }
    ensures ordered { IsOrdered leaf_cmp shelves.now }
{
    let _count = shelves.len();
    match shelves.get(leaf) {
        Some(shelf) => list_shelf(alloc, shelf, conds),
        None => Ok(Vec::new(alloc)),
    }
}

fn list_shelf(alloc: Global, shelf: &Shelf, conds: &Conds) -> Result<Vec<Part>, Memory>
    ensures parts { IfOk result (λ parts. parts.items ≡ filter (conds_hold conds.now) (shelf_parts shelf.now.entries)) }
    ensures ordered { IsOrdered int_cmp shelf.now }
{
    let count = shelf.len();
    let room = if conds.as_slice().is_empty() {
        count
    } else {
        0
    };
    let mut parts = Vec::with_capacity(alloc, room)?;
    for (_, part) in shelf {
        push_meeting(&mut parts, part, conds)?;
    }
    Ok(parts)
}

/// The part, if there is one and it meets conditions.
fn push_meeting(parts: &mut Vec<Part>, part: &Option<Part>, conds: &Conds) -> Result<(), Memory>
    ensures { OnOk result (parts.new.items ≡ parts.old.items ++ filter (conds_hold conds.now) (option_to_list part.now)) }
{
    if let Some(part) = part
        && part.meets(conds.as_slice())
    {
        parts.push(part.copy()?)?;
    }
    Ok(())
}

/// Room at a key.
fn make_key(shelf: &mut Shelf, key: &i64) -> Result<(), Memory>
    ensures parts { (q : ℤ) → unwrap_or (key_at shelf.new.entries q) None ≡ unwrap_or (key_at shelf.old.entries q) None }
    ensures grows { (q : ℤ) → IsSome (key_at shelf.old.entries q) → IsSome (key_at shelf.new.entries q) }
    ensures ok { OnOk result (IsSome (key_at shelf.new.entries key.now)) }
{
    if !shelf.contains_key(key) {
        let _old = shelf.insert(*key, None)?;
    }
    Ok(())
}

/// A shelf for a leaf that has none, with room at a key.
fn add_shelf(alloc: Global, shelves: &mut Shelves, slot: &Slot) -> Result<(), Memory>
    requires { lookup (is_at (leaf_cmp slot.now.leaf)) shelves.old.entries ≡ None }

    ensures parts { (q : Place) → part_on shelves.new.entries q ≡ part_on shelves.old.entries q }
    ensures grows { (q : Place) → IsSome (place_at shelves.old.entries q) → IsSome (place_at shelves.new.entries q) }
    ensures ok { OnOk result (IsSome (place_at shelves.new.entries slot.now)) }
    ensures ordered { IsOrdered leaf_cmp shelves.new }
{
    let _count = shelves.len();
    let mut shelf = BTreeMap::new(alloc);
    make_key(&mut shelf, &slot.key)?;
    let _none = shelves.insert(slot.leaf.copy()?, shelf)?;
    Ok(())
}

/// Room for the part at this slot, if there is one.
fn make_room(
    alloc: Global,
    shelves: &mut Shelves,
    slot: &Slot,
    part: &Option<Part>,
) -> Result<(), Memory>
    ensures parts { (q : Place) → part_on shelves.new.entries q ≡ part_on shelves.old.entries q }
    ensures grows { (q : Place) → IsSome (place_at shelves.old.entries q) → IsSome (place_at shelves.new.entries q) }
    ensures ok { OnOk result (IsSome part.now → IsSome (place_at shelves.new.entries slot.now)) }
    ensures ordered { IsOrdered leaf_cmp shelves.new }
{
    let _count = shelves.len();
    if part.is_none() {
        return Ok(());
    }
    if let Some(shelf) = shelves.get_mut(&slot.leaf) {
        return make_key(shelf, &slot.key);
    }
    add_shelf(alloc, shelves, slot)
}

/// Room for each part that the changes put.
pub(crate) fn make_rooms(
    alloc: Global,
    shelves: &mut Shelves,
    changes: &Slots,
) -> Result<(), Memory>
    ensures parts { (q : Place) → part_on shelves.new.entries q ≡ part_on shelves.old.entries q }
    ensures ok { OnOk result ((q : Place) (part : List Value) → entry_at changes.now.entries q ≡ Some (Some part) → IsSome (place_at shelves.new.entries q)) }
    ensures was_ordered { IsOrdered leaf_cmp shelves.old }
    ensures ordered { IsOrdered leaf_cmp shelves.new }
{
    let _count = shelves.len();
    for (slot, part) in changes {
        make_room(alloc, shelves, slot, part)?;
    }
    Ok(())
}

/// The part, or none, at a key that has room for it.
fn fill_key(shelf: &mut Shelf, key: &i64, part: Option<Part>)
    requires { IsSome part → IsSome (key_at shelf.old.entries key.now) }
    ensures { (q : ℤ) → key_at shelf.new.entries q ≡ (if is_at (int_cmp key.now) q then option_map Some part else key_at shelf.old.entries q) }
{
    match part {
        Some(part) => {
            let Ok(_) = shelf.insert(*key, Some(part)) else {
                unreachable!()
            };
        }
        None => {
            let _gone = shelf.remove(key);
        }
    }
}

/// The part, or none, at a slot that has room for it.
fn fill_slot(shelves: &mut Shelves, slot: Slot, part: Option<Part>)
    requires { IsSome part → IsSome (place_at shelves.old.entries slot) }

    ensures places { (q : Place) → place_at shelves.new.entries q ≡ (if is_at (slot_cmp slot) q then option_map Some part else place_at shelves.old.entries q) }
    ensures ordered { IsOrdered leaf_cmp shelves.new }
{
    let _count = shelves.len();
    match shelves.get_mut(&slot.leaf) {
        Some(shelf) => fill_key(shelf, &slot.key, part),
        None => {}
    }
}

/// Each change is made; there is room for the parts that they put.
pub(crate) fn fill(shelves: &mut Shelves, changes: Slots)
    requires { (q : Place) (part : List Value) → entry_at changes.entries q ≡ Some (Some part) → IsSome (place_at shelves.old.entries q) }

    ensures parts { (q : Place) → part_on shelves.new.entries q ≡ unwrap_or (entry_at changes.entries q) (part_on shelves.old.entries q) }
    ensures was_ordered { IsOrdered leaf_cmp shelves.old }
    ensures ordered { IsOrdered leaf_cmp shelves.new }
{
    let _count = shelves.len();
    let mut rest = changes;
    while let Some((slot, part)) = rest.pop_first() {
        fill_slot(shelves, slot, part);
    }
}

/// The entry at a key of a leaf, once more.
fn copy_key(copies: &mut Slots, leaf: &Leaf, key: &i64, part: &Option<Part>) -> Result<(), Memory>
    ensures { OnOk result ((q : Place) → entry_at copies.new.entries q ≡ (if is_at (slot_cmp (slot_of leaf.now key.now)) q then Some part.now else entry_at copies.old.entries q)) }
{
    let slot = Slot {
        leaf: leaf.copy()?,
        key: *key,
    };
    let _old = copies.insert(slot, copy_part(part)?)?;
    Ok(())
}

/// The entries of a leaf's shelf, once more.
fn copy_shelf(copies: &mut Slots, leaf: &Leaf, shelf: &Shelf) -> Result<(), Memory>
    ensures here { OnOk result ((q : Place) → leaf_cmp leaf.now q.leaf ≡ Equal → entry_at copies.old.entries q ≡ None → entry_at copies.new.entries q ≡ key_at shelf.now.entries q.key) }
    ensures others { OnOk result ((q : Place) → is_at (leaf_cmp leaf.now) q.leaf ≡ false → entry_at copies.new.entries q ≡ entry_at copies.old.entries q) }
{
    for (key, part) in shelf {
        copy_key(copies, leaf, key, part)?;
    }
    Ok(())
}

/// What stands at each slot, once more.
pub(crate) fn copy_all(alloc: Global, shelves: &Shelves) -> Result<Slots, Memory>
    ensures copies { IfOk result (λ copies. (q : Place) → entry_at copies.entries q ≡ place_at shelves.now.entries q) }
    ensures ordered { IsOrdered leaf_cmp shelves.now }
{
    let _count = shelves.len();
    let mut copies = BTreeMap::new(alloc);
    for (leaf, shelf) in shelves {
        copy_shelf(&mut copies, leaf, shelf)?;
    }
    Ok(copies)
}

/// The entries of a shelf, once more.
fn copy_entries(alloc: Global, shelf: &Shelf) -> Result<Vec<(i64, Option<Part>)>, Memory>
    ensures copies { IfOk result (λ copies. copies.items ≡ shelf.now.entries) }
    ensures ordered { IsOrdered int_cmp shelf.now }
{
    let mut copies = Vec::with_capacity(alloc, shelf.len())?;
    for (key, part) in shelf {
        copies.push((*key, copy_part(part)?))?;
    }
    Ok(copies)
}

/// A shelf with the same entries, made of all of them at once: its nodes are full, and its parts lie in memory
/// one after another.
fn pack_shelf(alloc: Global, shelf: &Shelf) -> Result<Shelf, Memory>
    ensures { IfOk result (λ packed. (q : ℤ) → key_at packed.entries q ≡ key_at shelf.now.entries q) }
{
    let packed: Shelf = copy_entries(alloc, shelf)?.into_iter().collect(alloc)?;
    Ok(packed)
}

/// What stands at each slot, once more, on packed shelves.
pub(crate) fn pack(alloc: Global, shelves: &Shelves) -> Result<Shelves, Memory>
    ensures places { IfOk result (λ packed. (q : Place) → place_at packed.entries q ≡ place_at shelves.now.entries q) }
    ensures packed_ordered { IfOk result (IsOrdered leaf_cmp) }
    ensures ordered { IsOrdered leaf_cmp shelves.now }
{
    let _count = shelves.len();
    let mut packed = BTreeMap::new(alloc);
    for (leaf, shelf) in shelves {
        let _none = packed.insert(leaf.copy()?, pack_shelf(alloc, shelf)?)?;
    }
    let _count = packed.len();
    Ok(packed)
}
