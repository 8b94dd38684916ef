//! The last calls of transactions' clients.

ghost use Rattle.std.specs.Prelude.{◌≡◌, OnOk};
ghost use Rattle.store.specs.declared.name.Txn.{Txn as TxnNow};
ghost use Rattle.history.specs.Standing.{known_call};
ghost use Rattle.history.specs.Told.{accepted_in, begun_by, later};

use crate::entry::{Entry, Input};
use desk::reply::Notice;
use std::collections::BTreeMap;
use store::name::Txn;
use terms::memory::Memory;
use world::event::Call;

/// Notes the call of an entry, if it was accepted, as the last one of its transaction's client.
pub(crate) fn note<'a>(last: &mut BTreeMap<Txn, &'a Call>, entry: &'a Entry) -> Result<(), Memory>
    ensures { OnOk result ((txn : TxnNow) → known_call last.new txn ≡ later (accepted_in entry.now.fault entry.now txn) (known_call last.old txn)) }
{
    if entry.fault.is_some() {
        return Ok(());
    }
    let Input::Call(call) = &entry.input else {
        return Ok(());
    };
    match call {
        Call::Begin | Call::Refragment(_) => note_begun(last, call, entry.replies.as_slice()),
        Call::State(txn, _) | Call::Commit(txn) | Call::Rollback(txn) | Call::GiveUp(txn) => {
            last.insert(*txn, call)?;
            Ok(())
        }
    }
}

/// The same of a call that begins the transactions of these replies.
fn note_begun<'a>(
    last: &mut BTreeMap<Txn, &'a Call>,
    call: &'a Call,
    notices: &[Notice],
) -> Result<(), Memory>
    ensures { OnOk result ((txn : TxnNow) → known_call last.new txn ≡ later (begun_by call.entry.now notices.now txn) (known_call last.old txn)) }
{
    for notice in notices {
        last.insert(notice.txn, call)?;
    }
    Ok(())
}
