//! Writes: what a change does to one fragment at one key.

use crate::copy::TryCopy;
use crate::leaf::Leaf;
use crate::memory::Memory;
use crate::part::Part;
use crate::same::Same;

/// A write to a leaf's content.
#[derive(Debug, Drop)]
pub enum Write {
    /// The leaf has this part, in place of any other of its key.
    Put(Leaf, Part),
    /// The leaf has no part of this key.
    Del(Leaf, i64),
}

impl TryCopy for Write {
    fn copy(&self) -> Result<Write, Memory> {
        match self {
            Write::Put(leaf, part) => Ok(Write::Put(leaf.copy()?, part.copy()?)),
            Write::Del(leaf, key) => Ok(Write::Del(leaf.copy()?, *key)),
        }
    }
}

impl Same for Write {
    fn same(&self, other: &Write) -> bool {
        match self {
            Write::Put(leaf, part) => match other {
                Write::Put(other_leaf, other_part) => leaf.same(other_leaf)
                    && part.same(other_part),
                Write::Del(_, _) => false,
            },
            Write::Del(leaf, key) => match other {
                Write::Put(_, _) => false,
                Write::Del(other_leaf, other_key) => leaf.same(other_leaf) && key.same(other_key),
            },
        }
    }
}
