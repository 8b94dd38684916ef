//! Why no catalogue is suggested for a file.

use crate::field::FieldFault;
use crate::line_fault::LineFault;
use catalog::fault::CatFault;
use std::alloc::{AllocError, AllocFailed};
use terms::memory::Memory;

/// What is wrong with a file, or with what is wanted for it. Lines are counted from 1, places of columns from 0 in the
/// file's order.
#[derive(Debug, Drop)]
pub enum SuggestFault {
    /// The file has no first line.
    Empty,
    /// The name of the column at this place is none that a statement can have.
    Name(usize),
    /// The name of the column at this place stands before it already.
    Twice(usize),
    /// The file has no column of the name that the key is to have.
    NoKey,
    /// The file has no column of the name by which rows are to be split.
    NoSplit,
    /// In this line the key is no integer of 64 bits.
    Key(u64),
    /// This key stands in two rows.
    KeyTwice(i64),
    /// A field is no text that a column can have.
    Field {
        line: u64,
        place: usize,
        fault: FieldFault,
    },
    /// A line could not be read.
    Line(LineFault),
    /// The catalogue would break a rule: there are more columns than a relation may have, or a value is too long for
    /// a condition.
    Catalogue(CatFault),
    /// The sites are none, or more than a catalogue may have.
    Sites,
    /// The relation's name is none that a statement can have.
    Relation,
    Memory,
}

impl From<LineFault> for SuggestFault {
    fn from(fault: LineFault) -> SuggestFault {
        SuggestFault::Line(fault)
    }
}

impl From<CatFault> for SuggestFault {
    fn from(fault: CatFault) -> SuggestFault {
        SuggestFault::Catalogue(fault)
    }
}

impl From<Memory> for SuggestFault {
    fn from(_memory: Memory) -> SuggestFault {
        SuggestFault::Memory
    }
}

impl From<AllocError> for SuggestFault {
    fn from(_error: AllocError) -> SuggestFault {
        SuggestFault::Memory
    }
}

impl<T: Drop> From<AllocFailed<T>> for SuggestFault {
    fn from(_error: AllocFailed<T>) -> SuggestFault {
        SuggestFault::Memory
    }
}
