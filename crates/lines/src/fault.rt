//! Why a command stops, and what the program says then.

ghost use Rattle.std.specs.Prelude.{◌≡◌, ◌≢◌, Some};
ghost use Rattle.std.specs.IoError.{error_kind};
ghost use Rattle.lines.specs.declared.fault.ProgramFault.TheVariants.{Memory};
ghost use Rattle.lines.specs.Fault.{fault_of_script, fault_text};

use crate::script::ScriptFault;
use std::alloc::AllocError;
use std::io::ErrorKind;
use std::{fmt, io};
use store::fault::StoreFault;
use terms::memory::Memory;

/// Why a command stops before its end.
#[derive(Clone, Copy)]
pub enum ProgramFault<'a> {
    /// The file of this name can't be opened, or not be read to its end.
    CannotRead { file: &'a str },
    /// The script has too many bytes.
    ScriptTooLong,
    /// This line of the script, counted from 1, is the first that can't be read.
    Malformed { line: usize },
    /// Memory ran out.
    Memory,
    /// A store failed, for another reason than memory.
    Store { fault: StoreFault },
    /// Whoever reads the output has gone.
    CannotWrite,
}

impl<'a> ProgramFault<'a> {
    /// The fault of a read of this file.
    pub fn reading(file: &'a str, error: &io::Error) -> ProgramFault<'a>
        ensures memory { error_kind error.now ≡ ErrorKind.OutOfMemory → result ≡ ProgramFault.Memory }
        ensures other { error_kind error.now ≢ ErrorKind.OutOfMemory → result ≡ ProgramFault.CannotRead file.entry }
    {
        match error.kind() {
            ErrorKind::OutOfMemory => ProgramFault::Memory,
            _ => ProgramFault::CannotRead { file },
        }
    }

    /// The fault of a write.
    pub fn writing(error: &io::Error) -> ProgramFault<'a>
        ensures memory { error_kind error.now ≡ ErrorKind.OutOfMemory → result ≡ ProgramFault.Memory }
        ensures other { error_kind error.now ≢ ErrorKind.OutOfMemory → result ≡ ProgramFault.CannotWrite }
    {
        match error.kind() {
            ErrorKind::OutOfMemory => ProgramFault::Memory,
            _ => ProgramFault::CannotWrite,
        }
    }
}

impl fmt::Display for ProgramFault<'_> {
    ghost output = { λ fault. Some (fault_text fault) };

    fn fmt<W: fmt::Write>(&self, f: &mut fmt::Formatter<W>) -> fmt::Result {
        match self {
            ProgramFault::CannotRead { file } => write!(f, "cannot read {file}"),
            ProgramFault::ScriptTooLong => f.write_str("script too long"),
            ProgramFault::Malformed { line } => write!(f, "line {line}"),
            ProgramFault::Memory => f.write_str("out of memory"),
            ProgramFault::Store { fault } => write!(f, "store {} {fault}", fault.number()),
            ProgramFault::CannotWrite => f.write_str("cannot write"),
        }
    }
}

impl From<Memory> for ProgramFault<'_> {
    ghost from_gives = { λ _ fault. fault ≡ Memory };

    fn from(_error: Memory) -> Self {
        ProgramFault::Memory
    }
}

impl From<AllocError> for ProgramFault<'_> {
    ghost from_gives = { λ _ fault. fault ≡ Memory };

    fn from(_error: AllocError) -> Self {
        ProgramFault::Memory
    }
}

impl From<ScriptFault> for ProgramFault<'_> {
    ghost from_gives = { λ script fault. fault ≡ fault_of_script script };

    fn from(fault: ScriptFault) -> Self {
        match fault {
            ScriptFault::Malformed { line } => ProgramFault::Malformed { line },
            ScriptFault::Memory => ProgramFault::Memory,
        }
    }
}
