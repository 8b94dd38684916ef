//! Why a call failed, and how often the medium has refused.

ghost use Rattle.std.specs.Prelude.{◌≡◌, ◌≢◌, ◌≤◌};
ghost use Rattle.store.specs.Fault.{HasRefused};
ghost use Rattle.sqlstore.specs.Blame.{opening_fault};
ghost use Rattle.store.specs.declared.fault.StoreFault.TheVariants.{Refused, Damaged};

use sqlite::{Error, ErrorCode};
use store::fault::StoreFault;

/// A refusal more. The count stops at the greatest of 64 bits.
pub fn refuse(refusals: &mut u64) -> StoreFault
    ensures refused { result ≡ Refused }
    ensures counts { refusals.old ≤ refusals.new }
    ensures grew { HasRefused refusals.old refusals.new }
{
    *refusals = refusals.saturating_add(1);
    StoreFault::Refused
}

/// The fault that an error of SQLite is: want of memory, or else a refusal, which is counted.
pub fn blame(refusals: &mut u64, error: Error) -> StoreFault
    ensures intact { result ≢ Damaged }
    ensures counts { refusals.old ≤ refusals.new }
    ensures grew { result ≡ Refused → HasRefused refusals.old refusals.new }
{
    match error {
        Error::SqliteFailure(ErrorCode::OutOfMemory) => StoreFault::Memory,
        _ => refuse(refusals),
    }
}

/// The fault that an error of SQLite is, before there is a store that counts.
pub fn cause(error: Error) -> StoreFault
    ensures { result ≢ Damaged }
{
    match error {
        Error::SqliteFailure(ErrorCode::OutOfMemory) => StoreFault::Memory,
        _ => StoreFault::Refused,
    }
}

/// The fault that an error at the opening of a file is. A file that holds no sound database is damaged.
pub fn opening_fault(error: Error) -> StoreFault
    ensures { result ≡ opening_fault error }
{
    match error {
        Error::SqliteFailure(ErrorCode::OutOfMemory) => StoreFault::Memory,
        Error::SqliteFailure(ErrorCode::NotADatabase | ErrorCode::DatabaseCorrupt) => {
            StoreFault::Damaged
        }
        _ => StoreFault::Refused,
    }
}
