//! Prepared rows: what a visit that voted YES will do, kept over restarts.

use crate::changes::Changes;
use crate::fault::StoreFault;
use crate::name::{Ticket, Txn};
use terms::copy::TryCopy;
use terms::memory::Memory;
use terms::seq::Seq;

/// What a prepared visit is to do, and for which transaction.
#[derive(Debug, Drop)]
pub struct Prepared {
    pub txn: Txn,
    pub changes: Changes,
}

impl TryCopy for Prepared {
    fn copy(&self) -> Result<Prepared, Memory> {
        Ok(Prepared {
            txn: self.txn,
            changes: self.changes.copy()?,
        })
    }
}

/// A prepared visit's ticket and row.
#[derive(Debug, Drop)]
pub struct PreparedRow {
    pub ticket: Ticket,
    pub prepared: Prepared,
}

/// What a site's store keeps beside the fragments.
#[derive(Debug, Drop)]
pub struct SiteRows {
    /// The prepared rows, by ticket.
    pub prepared: Seq<PreparedRow>,
    /// The incarnation.
    pub life: u64,
}

/// All that a site's store keeps.
#[derive(Debug, Drop)]
pub struct SiteKept {
    /// The changes that make the fragments of nothing.
    pub parts: Changes,
    pub rows: SiteRows,
}

/// Changes that were not kept, and why.
#[derive(Debug, Drop)]
pub struct Unkept {
    pub fault: StoreFault,
    pub changes: Changes,
}
