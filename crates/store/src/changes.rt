//! Changes: what is to become of a site's fragments, slot by slot.

ghost use Rattle.std.specs.Prelude.{◌≡◌, ◌==◌, IfOk, IfSome, OnOk, OnErr, IsTrue, ◌↔◌, Some, None, unwrap_or};
ghost use Rattle.std.specs.FinMap as map;
ghost use Rattle.std.specs.Prelude.{map as list_map};
ghost use Rattle.std.specs.Option.{option_copied};
ghost use Rattle.terms.specs.Row.{key_of};
ghost use Rattle.store.specs.declared.slot.Slot.{Slot as Place};
ghost use Rattle.store.specs.Slot.{slot_of};
ghost use Rattle.store.specs.Change.{change_of, changes_of};
ghost use Rattle.store.specs.Content.{AreKeyed, HasRoomFor, made_by, put_at, touches, are_within};

use crate::change::Change;
use crate::slot::{Slot, Slots};
use crate::slots::{copy_slots, fill, list_changes, list_parts, make_rooms, stay_within, touch};
use std::alloc::Global;
use std::collections::BTreeMap;
use std::marker::Model;
use terms::copy::TryCopy;
use terms::leaf::Leaf;
use terms::memory::Memory;
use terms::part::Part;

/// Changes: for each slot a part to put, or none where a part is to go. Contracts see a finite map.
#[derive(Debug, Drop)]
pub struct Changes {
    alloc: Global,
    slots: Slots,
}

impl Model for Changes {
    ghost use Rattle.std.specs.FinMap as map;
    ghost use Rattle.store.specs.Content.{Changes as ChangesMap, changes_code, AreKeyed};

    ghost Value = { ChangesMap };

    ghost coded = { changes_code };

    ghost view = { λ c. map.from_entries c.slots.entries };

    ghost invariant = { λ c. AreKeyed (map.from_entries c.slots.entries) };
}

impl Changes {
    /// No changes.
    pub fn new(alloc: Global) -> Changes
        ensures { result ≡ map.empty }
    {
        Changes {
            alloc,
            slots: BTreeMap::new(alloc),
        }
    }

    /// The changes that a map has, whose parts stand under their own keys.
    pub(crate) fn from_slots(alloc: Global, slots: Slots) -> Changes
        requires { AreKeyed (map.from_entries slots.entries) }
        ensures { result ≡ map.from_entries slots.entries }
    {
        Changes { alloc, slots }
    }

    /// Each slot that is changed, in order, with the part to put, or none where a part is to go.
    pub fn slots(&self) -> &Slots
        ensures entries { result.now.entries ≡ map.entries self.now }
        ensures slots { map.from_entries result.now.entries ≡ self.now }
        ensures keyed { AreKeyed self.now }
    {
        let _count = self.slots.len();
        &self.slots
    }

    /// So, to take them out.
    pub(crate) fn into_slots(self) -> Slots
        ensures slots { map.from_entries result.entries ≡ self }
        ensures keyed { AreKeyed self }
    {
        self.slots
    }

    /// How many slots are changed.
    pub fn len(&self) -> usize
        ensures len { result ≡ map.len self.now }
        ensures keyed { AreKeyed self.now }
    {
        self.slots.len()
    }

    /// Whether nothing is changed.
    pub fn is_empty(&self) -> bool
        ensures empty { IsTrue result ↔ (self.now ≡ map.empty) }
        ensures len { result ≡ (map.len self.now == 0) }
    {
        let _count = self.slots.len();
        self.slots.is_empty()
    }

    /// What the changes say of a slot, if they say anything.
    pub fn get(&self, slot: &Slot) -> Option<&Option<Part>>
        ensures { option_copied result ≡ map.get self.now slot.now }
    {
        self.slots.get(slot)
    }

    /// A leaf has this part, in place of any other of its key.
    pub fn put(&mut self, leaf: Leaf, part: Part) -> Result<(), Memory>
        ensures ok { OnOk result (self.new ≡ map.insert self.old (slot_of leaf (key_of part)) (Some part)) }
        ensures err { OnErr result (self.new ≡ self.old) }
    {
        let slot = Slot::of_part(leaf, &part);
        let _old = self.slots.insert(slot, Some(part))?;
        Ok(())
    }

    /// A slot has no part.
    pub fn del(&mut self, slot: Slot) -> Result<(), Memory>
        ensures ok { OnOk result (self.new ≡ map.insert self.old slot None) }
        ensures err { OnErr result (self.new ≡ self.old) }
    {
        let _old = self.slots.insert(slot, None)?;
        Ok(())
    }

    /// Whether the changes say something of a leaf.
    pub fn touches(&self, leaf: &Leaf) -> bool
        ensures { result ≡ touches leaf.now self.now }
    {
        touch(&self.slots, leaf)
    }

    /// Whether the changes say nothing of other leaves than these.
    pub fn is_within(&self, leaves: &[Leaf]) -> bool
        ensures { result ≡ are_within leaves.now self.now }
    {
        stay_within(&self.slots, leaves)
    }

    /// The changes of a leaf, in the order of its keys.
    pub fn of_leaf(&self, leaf: &Leaf) -> Result<Vec<Change<'_>>, Memory>
        ensures { IfOk result (λ changes. list_map change_of changes.items ≡ changes_of leaf.now self.now) }
    {
        list_changes(self.alloc, &self.slots, leaf)
    }

    /// The parts that the changes make of nothing in a leaf, in the order of their keys.
    pub fn list(&self, leaf: &Leaf) -> Result<Vec<Part>, Memory>
        ensures { IfOk result (λ parts. parts.items ≡ map.values (made_by self.now leaf.now)) }
    {
        list_parts(self.alloc, &self.slots, leaf)
    }

    /// Room for each part that other changes put. No part is put or goes by this.
    pub fn make_rooms(&mut self, changes: &Changes) -> Result<(), Memory>
        ensures same { (slot : Place) → put_at self.new slot ≡ put_at self.old slot }
        ensures ok { OnOk result (HasRoomFor changes.now self.new) }
        ensures keyed { AreKeyed self.new }
    {
        make_rooms(&mut self.slots, &changes.slots)
    }

    /// Makes other changes too, the others last. There is room for the parts that they put.
    pub fn make(&mut self, changes: Changes)
        requires { HasRoomFor changes self.old }
        ensures over { (slot : Place) → put_at self.new slot ≡ unwrap_or (map.get changes slot) (put_at self.old slot) }
        ensures keyed { AreKeyed self.new }
    {
        fill(&mut self.slots, changes.slots);
    }
}

impl TryCopy for Changes {
    fn copy(&self) -> Result<Changes, Memory>
        ensures equal { IfOk result (λ copy. copy ≡ self.now) }
        ensures keyed { AreKeyed self.now }
    {
        Ok(Changes {
            alloc: self.alloc,
            slots: copy_slots(self.alloc, &self.slots)?,
        })
    }
}
