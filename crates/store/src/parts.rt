//! Parts: what a site's fragments have in memory.

ghost use Rattle.std.specs.Prelude.{◌≡◌, IfOk, OnOk, unwrap_or};
ghost use Rattle.std.specs.FinMap as map;
ghost use Rattle.std.specs.Option.{option_copied};
ghost use Rattle.store.specs.declared.slot.Slot.{Slot as Place};
ghost use Rattle.store.specs.Slot.{slot_of};
ghost use Rattle.store.specs.Content.{AreKeyed, HasRoomFor, made_by, parts, put_at};

use crate::changes::Changes;
use crate::shelves::{Shelves, copy_all, fill, find_part, list_leaf, make_rooms, pack};
use std::alloc::Global;
use std::collections::BTreeMap;
use std::marker::Model;
use terms::cond::Conds;
use terms::leaf::Leaf;
use terms::memory::Memory;
use terms::part::Part;

/// The parts of a site's fragments. Contracts see the changes that make them of nothing.
#[derive(Debug, Drop)]
pub(crate) struct Parts {
    alloc: Global,
    shelves: Shelves,
}

impl Model for Parts {
    ghost use Rattle.std.specs.FinMap as map;
    ghost use Rattle.store.specs.Content.{Changes as ChangesMap, changes_code, AreKeyed};
    ghost use Rattle.store.specs.Shelves.{all_on};

    ghost Value = { ChangesMap };

    ghost coded = { changes_code };

    ghost view = { λ p. map.from_entries (all_on p.shelves.entries) };

    ghost invariant = { λ p. AreKeyed (map.from_entries (all_on p.shelves.entries)) };
}

impl Parts {
    /// No parts.
    pub(crate) fn new(alloc: Global) -> Parts
        ensures empty { result ≡ map.empty }
        ensures keyed { AreKeyed result }
    {
        Parts {
            alloc,
            shelves: BTreeMap::new(alloc),
        }
    }

    /// The parts that changes make of nothing.
    pub(crate) fn made_by(alloc: Global, changes: Changes) -> Result<Parts, Memory>
        ensures parts { IfOk result (λ parts. (slot : Place) → put_at parts slot ≡ put_at changes slot) }
        ensures keyed { IfOk result AreKeyed }
    {
        let mut parts = Parts::new(alloc);
        parts.make_rooms(&changes)?;
        parts.make(changes);
        Ok(Parts {
            alloc,
            shelves: pack(alloc, &parts.shelves)?,
        })
    }

    /// How many leaves have a shelf.
    pub(crate) fn len(&self) -> usize
        ensures keyed { AreKeyed self.now }
    {
        self.shelves.len()
    }

    /// The part at a key of a leaf, if there is one.
    pub(crate) fn find(&self, leaf: &Leaf, key: &i64) -> Option<&Part>
        ensures part { option_copied result ≡ put_at self.now (slot_of leaf.now key.now) }
        ensures keyed { AreKeyed self.now }
    {
        find_part(&self.shelves, leaf, key)
    }

    /// The parts of a leaf that meet conditions, in the order of their keys.
    pub(crate) fn list(&self, leaf: &Leaf, conds: &Conds) -> Result<Vec<Part>, Memory>
        ensures { IfOk result (λ found. found.items ≡ parts conds.now (made_by self.now leaf.now)) }
    {
        list_leaf(self.alloc, &self.shelves, leaf, conds)
    }

    /// Room for each part that changes put. No part is put or goes by this.
    pub(crate) fn make_rooms(&mut self, changes: &Changes) -> Result<(), Memory>
        ensures same { (slot : Place) → put_at self.new slot ≡ put_at self.old slot }
        ensures ok { OnOk result (HasRoomFor changes.now self.new) }
        ensures keyed { AreKeyed self.new }
    {
        make_rooms(self.alloc, &mut self.shelves, changes.slots())
    }

    /// Makes changes. There is room for the parts that they put.
    pub(crate) fn make(&mut self, changes: Changes)
        requires { HasRoomFor changes self.old }
        ensures over { (slot : Place) → put_at self.new slot ≡ unwrap_or (map.get changes slot) (put_at self.old slot) }
        ensures keyed { AreKeyed self.new }
    {
        let _count = self.shelves.len();
        fill(&mut self.shelves, changes.into_slots());
    }

    /// Changes that make these parts of nothing.
    pub(crate) fn changes(&self) -> Result<Changes, Memory>
        ensures same { IfOk result (λ changes. (slot : Place) → put_at changes slot ≡ put_at self.now slot) }
        ensures keyed { AreKeyed self.now }
    {
        let slots = copy_all(self.alloc, &self.shelves)?;
        Ok(Changes::from_slots(self.alloc, slots))
    }
}
