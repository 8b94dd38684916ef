//! Names of fragments.

ghost use Rattle.std.specs.Prelude.{◌≡◌, IfOk, Some};
ghost use Rattle.terms.specs.Leaf.{leaf_text, LeavesGoByRelation};

use crate::copy::TryCopy;
use crate::memory::Memory;
use crate::same::Same;
use crate::text::Text;
use std::fmt;

/// A leaf of a relation's fragment tree, by the relation's name and the leaf's number from 1.
#[derive(Debug, Drop, PartialEq, Eq, PartialOrd, Ord)]
pub struct Leaf {
    pub relation: Text,
    pub number: usize,
}

/// Leaves are ordered by their relations, then by their numbers.
pub fn leaves_go_by_relation()
    ensures { LeavesGoByRelation }
{}

impl TryCopy for Leaf {
    fn copy(&self) -> Result<Leaf, Memory> {
        Ok(Leaf {
            relation: self.relation.copy()?,
            number: self.number,
        })
    }
}

impl Same for Leaf {
    fn same(&self, other: &Leaf) -> bool {
        self.relation.same(&other.relation) && self.number.same(&other.number)
    }
}

impl fmt::Display for Leaf {
    ghost output = { λ leaf. Some (leaf_text leaf) };

    fn fmt<W: fmt::Write>(&self, f: &mut fmt::Formatter<W>) -> fmt::Result {
        write!(f, "{}.{}", self.relation, self.number)
    }
}
