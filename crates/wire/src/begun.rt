//! A transaction that has begun.

ghost use Rattle.std.specs.Prelude.{◌≡◌, ◌⊎◌, IfErr};
ghost use Rattle.wire.specs.declared.fault.CallFault.TheVariants as faults;

use crate::fault::CallFault;
use crate::seat::Given;
use desk::reply::Reply;
use store::name::Txn;

/// A transaction that has begun, with the number of the coordinator's entry that says so.
#[derive(Clone, Copy)]
pub(crate) struct Begun {
    pub txn: Txn,
    pub number: u64,
}

/// The transaction that has begun by the first of these replies. Where there is none, the coordinator is at a limit.
pub(crate) fn begun_in(given: &[Given]) -> Result<Begun, CallFault>
    ensures { IfErr result (λ fault. (fault ≡ faults.Full) ⊎ (fault ≡ faults.Closed)) }
{
    let Some(first) = given.first() else {
        return Err(CallFault::Full);
    };
    match &first.reply {
        Some(Reply::Begun) => Ok(Begun {
            txn: first.txn,
            number: first.number,
        }),
        _ => Err(CallFault::Closed),
    }
}
