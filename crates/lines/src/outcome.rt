//! What a command came to, what is told of it, and the exit status.

ghost use Rattle.std.specs.Prelude.{◌≡◌, OnOk};
ghost use Rattle.std.specs.Io.KnownBytes.{Appends};
ghost use Rattle.lines.specs.Outcome.{code_of, status_of, stop_text, told_text};

use crate::fault::ProgramFault;
use catalog::fault::CatFault;
use reader::fault::ReadFault;
use std::io;
use std::io::Write;

/// What a command came to, beside what it wrote to its output.
#[derive(Drop)]
pub enum Outcome<'a> {
    /// All was done.
    Done,
    /// A script ran to its end, and at least one statement was refused.
    SomeRefused,
    /// The catalogue was refused.
    Refused(CatFault),
    /// The catalogues are no chain: one of them may not come next after the one before it, or the database's store
    /// says that more of them were in force.
    Unchained,
    /// The statement was refused.
    RefusedStatement(ReadFault),
    /// The command stopped before its end.
    Stopped(ProgramFault<'a>),
    /// A machine of a database that was closed can't be had back.
    Lost,
}

/// The exit status of the program.
#[derive(Clone, Copy)]
pub enum Status {
    /// All was done.
    Done,
    /// Input was refused, or nobody reads the output.
    Refused,
    /// The command line has a mistake.
    Usage,
    /// A store failed.
    Store,
    /// Memory ran out.
    Memory,
}

impl Status {
    /// The number that the operating system is given.
    pub fn code(self) -> u8
        ensures { result ≡ code_of self }
    {
        match self {
            Status::Done => 0,
            Status::Refused => 1,
            Status::Usage => 2,
            Status::Store => 3,
            Status::Memory => 4,
        }
    }
}

impl Outcome<'_> {
    /// The exit status of a program whose command came to this.
    pub fn status(&self) -> Status
        ensures { result ≡ status_of self.now }
    {
        match self {
            Outcome::Done => Status::Done,
            Outcome::Stopped(ProgramFault::Memory) => Status::Memory,
            Outcome::Stopped(ProgramFault::Store { .. }) => Status::Store,
            Outcome::SomeRefused
            | Outcome::Refused(_)
            | Outcome::Unchained
            | Outcome::RefusedStatement(_)
            | Outcome::Stopped(_)
            | Outcome::Lost => Status::Refused,
        }
    }
}

/// Writes what there is to tell of an outcome, one line or none. Nothing is told where the output is closed.
pub fn tell<E: Write>(errors: &mut E, outcome: &Outcome<'_>) -> io::Result<()>
    ensures { OnOk result (Appends (E.contents errors.old) (E.contents errors.new) (told_text outcome.now)) }
{
    match outcome {
        Outcome::Done | Outcome::SomeRefused => Ok(()),
        Outcome::Refused(fault) => writeln!(errors, "refused {fault}"),
        Outcome::Unchained => writeln!(errors, "fragdb: refused 11 Chain"),
        Outcome::RefusedStatement(fault) => writeln!(errors, "refused read {fault}"),
        Outcome::Stopped(fault) => tell_stop(errors, fault),
        Outcome::Lost => writeln!(errors, "fragdb: refused 9 Closed"),
    }
}

fn tell_stop<E: Write>(errors: &mut E, fault: &ProgramFault<'_>) -> io::Result<()>
    ensures { OnOk result (Appends (E.contents errors.old) (E.contents errors.new) (stop_text fault.now)) }
{
    match fault {
        ProgramFault::CannotWrite => Ok(()),
        ProgramFault::CannotRead { .. }
        | ProgramFault::ScriptTooLong
        | ProgramFault::Malformed { .. }
        | ProgramFault::Memory
        | ProgramFault::Store { .. } => writeln!(errors, "fragdb: {fault}"),
    }
}

/// Tells an outcome, and answers the exit status. Where the standard error is closed nobody can be told.
pub fn exit<E: Write>(errors: &mut E, outcome: &Outcome<'_>) -> Status
    ensures { result ≡ status_of outcome.now }
{
    let _ = tell(errors, outcome);
    outcome.status()
}
