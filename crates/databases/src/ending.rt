//! What a command over catalogues comes to.

ghost use Rattle.std.specs.Prelude.{◌≡◌};
ghost use Rattle.databases.specs.Ending.{IsUnread};
ghost use Rattle.databases.specs.Ending as spec;

use crate::catalog_files::ChainFault;
use lines::fault::ProgramFault;
use lines::outcome::Outcome;
use std::io;

/// A file can't be opened.
pub fn unread<'a>(file: &'a str, error: &io::Error) -> Outcome<'a>
    ensures { IsUnread file.entry result }
{
    Outcome::Stopped(ProgramFault::reading(file, error))
}

/// What a script over catalogues came to.
pub fn of_script(ended: Result<bool, ChainFault<'_>>) -> Outcome<'_>
    ensures { result ≡ spec.outcome_of_script ended.entry }
{
    match ended {
        Ok(false) => Outcome::Done,
        Ok(true) => Outcome::SomeRefused,
        Err(fault) => of_fault(fault),
    }
}

/// What a session or a schedule over catalogues came to.
pub fn of_end(ended: Result<(), ChainFault<'_>>) -> Outcome<'_>
    ensures { result ≡ spec.outcome_of_end ended.entry }
{
    match ended {
        Ok(()) => Outcome::Done,
        Err(fault) => of_fault(fault),
    }
}

/// What a fault of a command over catalogues comes to.
pub fn of_fault(fault: ChainFault<'_>) -> Outcome<'_>
    ensures { result ≡ spec.outcome_of_fault fault.entry }
{
    match fault {
        ChainFault::Program(fault) => Outcome::Stopped(fault),
        ChainFault::Refused(fault) => Outcome::Refused(fault),
        ChainFault::Unchained => Outcome::Unchained,
        ChainFault::Closed => Outcome::Lost,
    }
}
