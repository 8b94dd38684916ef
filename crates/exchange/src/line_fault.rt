//! Why a file is not read on.

ghost use Rattle.std.specs.Prelude.{◌≡◌};
ghost use Rattle.csv.specs.Reading.{error_kind};
ghost use Rattle.exchange.specs.declared.line_fault.LineWhat.TheVariants as whats;
ghost use Rattle.exchange.specs.LineFault.{header_what, read_what, row_what};

use crate::order::HeaderFault;
use crate::row::RowFault;
use csv::{ByteRecord, Error, ErrorKind, Position};
use std::io;
use terms::memory::Memory;

/// What is wrong with a line, or why it could not be read.
#[derive(Debug, Drop)]
pub enum LineWhat {
    /// The file has no first line.
    Empty,
    /// The first line does not have the names of the columns.
    Header(HeaderFault),
    /// The line has another number of fields than the first.
    Length { found: u64, first: u64 },
    /// The line is no row.
    Row(RowFault),
    /// The file could not be read.
    Io(io::Error),
    Memory,
}

/// What is wrong, and in which line. Lines are counted from 1; 0 stands where there is none.
#[derive(Debug, Drop)]
pub struct LineFault {
    pub line: u64,
    pub what: LineWhat,
    /// The name or the field that is refused, as it is shown to a person; nothing where there is none.
    pub refused: Option<String>,
}

impl LineFault {
    /// The fault of a read.
    pub(crate) fn of_read(error: Error) -> LineFault
        ensures { result.what ≡ read_what (error_kind error) }
    {
        match error.into_kind() {
            ErrorKind::Io(error) => LineFault {
                line: 0,
                what: LineWhat::Io(error),
                refused: None,
            },
            ErrorKind::UnequalLengths {
                pos,
                expected_len,
                len,
            } => LineFault {
                line: line_at(pos),
                what: LineWhat::Length {
                    found: len,
                    first: expected_len,
                },
                refused: None,
            },
            // Reading bytes has no other faults.
            _ => LineFault::from(Memory),
        }
    }

    /// The fault of the names in a first line.
    pub(crate) fn of_header(
        current: &ByteRecord,
        fault: HeaderFault,
        refused: Option<String>,
    ) -> LineFault
        ensures { result.what ≡ header_what fault }
    {
        let what = match fault {
            HeaderFault::Memory => LineWhat::Memory,
            other => LineWhat::Header(other),
        };
        LineFault {
            line: line_at(current.position()),
            what,
            refused,
        }
    }

    /// The fault of a line that is no row.
    pub(crate) fn of_row(
        current: &ByteRecord,
        fault: RowFault,
        refused: Option<String>,
    ) -> LineFault
        ensures { result.what ≡ row_what fault }
    {
        let what = match fault {
            RowFault::Memory => LineWhat::Memory,
            other => LineWhat::Row(other),
        };
        LineFault {
            line: line_at(current.position()),
            what,
            refused,
        }
    }
}

fn line_at(position: Option<Position>) -> u64 {
    position.map_or(0, |position| position.line())
}

impl From<Memory> for LineFault {
    ghost from_gives = { λ _ fault. fault.what ≡ whats.Memory };

    fn from(_memory: Memory) -> LineFault {
        LineFault {
            line: 0,
            what: LineWhat::Memory,
            refused: None,
        }
    }
}
