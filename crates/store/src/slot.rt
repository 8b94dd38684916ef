//! Slots: where a fragment keeps a part.

ghost use Rattle.std.specs.Prelude.{◌≡◌};
ghost use Rattle.terms.specs.Row.{key_of};
ghost use Rattle.store.specs.Slot.{slot_of};

use std::collections::BTreeMap;
use terms::copy::TryCopy;
use terms::leaf::Leaf;
use terms::memory::Memory;
use terms::part::Part;

/// A key's place in a leaf.
#[derive(Debug, Drop, PartialEq, Eq, PartialOrd, Ord)]
pub struct Slot {
    pub leaf: Leaf,
    pub key: i64,
}

/// What stands at each slot, by slot; `None` where a part is to go, or where there is room for one.
pub type Slots = BTreeMap<Slot, Option<Part>>;

impl Slot {
    /// The place of a part in a leaf, by the part's key.
    pub fn of_part(leaf: Leaf, part: &Part) -> Slot
        ensures { result ≡ slot_of leaf (key_of part.now) }
    {
        let key = part.key();
        Slot { leaf, key }
    }
}

impl TryCopy for Slot {
    fn copy(&self) -> Result<Slot, Memory> {
        Ok(Slot {
            leaf: self.leaf.copy()?,
            key: self.key,
        })
    }
}
