//! The map that holds changes, slot by slot.

ghost use Rattle.std.specs.Prelude.{◌≡◌, ◌++◌, [], ◌∷◌, IfOk, OnOk, IfSome, IsSome, false, if◌then◌else◌, unwrap_or, option_to_list, map};
ghost use Rattle.store.specs.declared.slot.Slot.{Slot as Place};
ghost use Rattle.std.specs.BTreeMap.{is_at, keys, IsOrdered};
ghost use Rattle.std.specs.List.{list_all, list_any};
ghost use Rattle.store.specs.Slot.{slot_cmp};
ghost use Rattle.store.specs.Change.{by_key, change_of};
ghost use Rattle.store.specs.Entries.{entry_at, part_at, parts_of, entries_of, HasRooms, Encloses};
ghost use Rattle.store.specs.Content.{is_of};

use crate::change::Change;
use crate::slot::{Slot, Slots};
use std::alloc::Global;
use std::collections::BTreeMap;
use std::collections::btree_map::Range;
use terms::copy::TryCopy;
use terms::leaf::Leaf;
use terms::memory::Memory;
use terms::part::Part;

/// Room for the part at this slot, if there is one.
fn make_room(slots: &mut Slots, slot: &Slot, part: &Option<Part>) -> Result<(), Memory>
    ensures parts { (q : Place) → part_at slots.new.entries q ≡ part_at slots.old.entries q }
    ensures grows { (q : Place) → IsSome (entry_at slots.old.entries q) → IsSome (entry_at slots.new.entries q) }
    ensures ok { OnOk result (IsSome part.now → IsSome (entry_at slots.new.entries slot.now)) }
{
    if part.is_some() && !slots.contains_key(slot) {
        let slot = slot.copy()?;
        let _old = slots.insert(slot, None)?;
    }
    Ok(())
}

/// Room for each part that the changes put.
pub(crate) fn make_rooms(slots: &mut Slots, changes: &Slots) -> Result<(), Memory>
    ensures parts { (q : Place) → part_at slots.new.entries q ≡ part_at slots.old.entries q }
    ensures ok { OnOk result (HasRooms changes.now.entries slots.new.entries) }
{
    for (slot, part) in changes {
        make_room(slots, slot, part)?;
    }
    Ok(())
}

/// Each change is made; there is room for the parts that they put.
pub(crate) fn fill(slots: &mut Slots, changes: Slots)
    requires { HasRooms changes.entries slots.old.entries }
    ensures { (q : Place) → part_at slots.new.entries q ≡ unwrap_or (entry_at changes.entries q) (part_at slots.old.entries q) }
{
    let mut rest = changes;
    while let Some((slot, part)) = rest.pop_first() {
        fill_slot(slots, slot, part);
    }
}

/// The part, or none, at a slot that has room for it.
fn fill_slot(slots: &mut Slots, slot: Slot, part: Option<Part>)
    requires { IsSome part → IsSome (entry_at slots.old.entries slot) }

    ensures parts { (q : Place) → part_at slots.new.entries q ≡ (if is_at (slot_cmp slot) q then part else part_at slots.old.entries q) }
    ensures rooms { (q : Place) → is_at (slot_cmp slot) q ≡ false → entry_at slots.new.entries q ≡ entry_at slots.old.entries q }
{
    match part {
        Some(part) => {
            let Ok(_) = slots.insert(slot, Some(part)) else {
                unreachable!()
            };
        }
        None => {
            let _gone = slots.remove(&slot);
        }
    }
}

/// What stands at each slot, once more.
pub(crate) fn copy_slots(alloc: Global, slots: &Slots) -> Result<Slots, Memory>
    ensures { IfOk result (λ copies. (q : Place) → entry_at copies.entries q ≡ entry_at slots.now.entries q) }
{
    let mut copies = BTreeMap::new(alloc);
    for (slot, part) in slots {
        copy_slot(&mut copies, slot, part)?;
    }
    Ok(copies)
}

fn copy_slot(copies: &mut Slots, slot: &Slot, part: &Option<Part>) -> Result<(), Memory>
    ensures { OnOk result ((q : Place) → entry_at copies.new.entries q ≡ (if is_at (slot_cmp slot.now) q then Some part.now else entry_at copies.old.entries q)) }
{
    let _old = copies.insert(slot.copy()?, copy_part(part)?)?;
    Ok(())
}

pub(crate) fn copy_part(part: &Option<Part>) -> Result<Option<Part>, Memory>
    ensures { IfOk result (λ copy. copy ≡ part.now) }
{
    match part {
        Some(part) => Ok(Some(part.copy()?)),
        None => Ok(None),
    }
}

/// Whether a slot is of a leaf.
fn is_of(slot: &Slot, leaf: &Leaf) -> bool
    ensures { result ≡ is_of leaf.now slot.now }
{
    leaf.cmp(&slot.leaf).is_eq()
}

/// Of the slots all that are of a leaf, and hardly another: those from the end of the leaf before it to the
/// beginning of the leaf after it.
fn near<'a>(slots: &'a Slots, leaf: &Leaf) -> Range<'a, Slot, Option<Part>>
    ensures near { entries_of leaf.now result ≡ entries_of leaf.now slots.now.entries }
    ensures ordered { IsOrdered slot_cmp slots.now }
{
    let _count = slots.len();
    match ends(leaf) {
        Some((from, to)) => slots.range(from..to),
        None => slots.range(..),
    }
}

/// A slot before all of a leaf's, and one behind them. Without memory there is none, nor for a number that no
/// leaf of a catalogue has.
fn ends(leaf: &Leaf) -> Option<(Slot, Slot)>
    ensures { IfSome result (λ ends. Encloses ends.0.leaf leaf.now ends.1.leaf) }
{
    let before = leaf.number.checked_sub(1)?;
    let after = leaf.number.checked_add(1)?;
    let Ok(from) = slot_near(leaf, before, i64::MAX) else {
        return None;
    };
    let Ok(to) = slot_near(leaf, after, i64::MIN) else {
        return None;
    };
    Some((from, to))
}

/// A slot of another leaf of the same relation.
fn slot_near(leaf: &Leaf, number: usize, key: i64) -> Result<Slot, Memory>
    ensures { IfOk result (λ slot. slot.leaf ≡ record { relation = leaf.now.relation; number = number }) }
{
    let relation = leaf.relation.copy()?;
    Ok(Slot {
        leaf: Leaf { relation, number },
        key,
    })
}

/// The parts of a leaf, in order.
pub(crate) fn list_parts(alloc: Global, slots: &Slots, leaf: &Leaf) -> Result<Vec<Part>, Memory>
    ensures parts { IfOk result (λ parts. parts.items ≡ parts_of leaf.now slots.now.entries) }
    ensures ordered { IsOrdered slot_cmp slots.now }
{
    let mut parts = Vec::new(alloc);
    for (slot, part) in near(slots, leaf) {
        push_part(&mut parts, leaf, slot, part)?;
    }
    Ok(parts)
}

/// The part, if there is one and its slot is of the leaf.
fn push_part(
    parts: &mut Vec<Part>,
    leaf: &Leaf,
    slot: &Slot,
    part: &Option<Part>,
) -> Result<(), Memory>
    ensures { OnOk result (parts.new.items ≡ parts.old.items ++ (if is_of leaf.now slot.now then option_to_list part.now else [])) }
{
    if let Some(part) = part
        && is_of(slot, leaf)
    {
        parts.push(part.copy()?)?;
    }
    Ok(())
}

/// The changes of a leaf, in order.
pub(crate) fn list_changes<'a>(
    alloc: Global,
    slots: &'a Slots,
    leaf: &Leaf,
) -> Result<Vec<Change<'a>>, Memory>
    ensures changes { IfOk result (λ changes. map change_of changes.items ≡ by_key leaf.now slots.now.entries) }
    ensures ordered { IsOrdered slot_cmp slots.now }
{
    let mut changes = Vec::new(alloc);
    for (slot, part) in near(slots, leaf) {
        push_change(&mut changes, leaf, slot, part)?;
    }
    Ok(changes)
}

/// The change, if its slot is of the leaf.
fn push_change<'a>(
    changes: &mut Vec<Change<'a>>,
    leaf: &Leaf,
    slot: &'a Slot,
    part: &'a Option<Part>,
) -> Result<(), Memory>
    ensures { OnOk result (map change_of changes.new.items ≡ map change_of changes.old.items ++ (if is_of leaf.now slot.now then (slot.now.key, part.now) ∷ [] else [])) }
{
    if !is_of(slot, leaf) {
        return Ok(());
    }
    changes.push(Change {
        key: slot.key,
        part: part.as_ref(),
    })?;
    Ok(())
}

/// Whether a slot is of the leaf.
pub(crate) fn touch(slots: &Slots, leaf: &Leaf) -> bool
    ensures answer { result ≡ list_any (is_of leaf.now) (keys slots.now) }
    ensures ordered { IsOrdered slot_cmp slots.now }
{
    for (slot, _part) in near(slots, leaf) {
        if is_of(slot, leaf) {
            return true;
        }
    }
    false
}

/// Whether a slot is of one of these leaves.
fn is_of_one(slot: &Slot, leaves: &[Leaf]) -> bool
    ensures { result ≡ list_any (λ leaf. is_of leaf slot.now) leaves.now }
{
    leaves.iter().any(|leaf| is_of(slot, leaf))
}

/// Whether each slot is of one of these leaves.
pub(crate) fn stay_within(slots: &Slots, leaves: &[Leaf]) -> bool
    ensures answer { result ≡ list_all (λ slot. list_any (λ leaf. is_of leaf slot) leaves.now) (keys slots.now) }
    ensures ordered { IsOrdered slot_cmp slots.now }
{
    let _count = slots.len();
    slots.keys().all(|slot| is_of_one(slot, leaves))
}
