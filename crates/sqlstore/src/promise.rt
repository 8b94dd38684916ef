//! What is put into the tables for a ticket that is prepared.

ghost use Rattle.std.specs.Prelude.{IfOk, IfSome};
ghost use Rattle.sqlstore.specs.Intents.{IsPromiseOf};

use crate::intent::{Intent, intents_of};
use crate::visit::{Visit, txn_of, visit_of};
use std::alloc::Global;
use store::changes::Changes;
use store::name::{Ticket, Txn};
use terms::leaf::Leaf;
use terms::memory::Memory;

/// A ticket and a transaction as numbers, and the intents.
#[derive(Debug, Drop)]
pub struct Promise {
    pub visit: Visit,
    pub txn: Visit,
    pub intents: Vec<Intent>,
}

/// What is put into the tables, or none where nothing is changed, a leaf isn't the site's, or a number is none of a
/// table's.
pub fn promise_of(
    alloc: Global,
    leaves: &[Leaf],
    txn: Txn,
    ticket: Ticket,
    changes: &Changes,
) -> Result<Option<Promise>, Memory>
    ensures { IfOk result (λ found. IfSome found (IsPromiseOf leaves.now txn ticket changes.now)) }
{
    if changes.is_empty() || !changes.is_within(leaves) {
        return Ok(None);
    }
    let Some(visit) = visit_of(ticket) else {
        return Ok(None);
    };
    let Some(txn) = txn_of(txn) else {
        return Ok(None);
    };
    let intents = intents_of(alloc, changes)?;
    Ok(Some(Promise {
        visit,
        txn,
        intents,
    }))
}
