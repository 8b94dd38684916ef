//! Commit rows: who is to commit what was decided, kept over restarts.

use crate::name::{Ticket, Txn};
use terms::copy::TryCopy;
use terms::memory::Memory;
use terms::seq::Seq;
use terms::text::Text;

/// A site that voted YES, and the ticket of its visit.
#[derive(Debug, Drop)]
pub struct Voter {
    pub site: Text,
    pub ticket: Ticket,
}

impl TryCopy for Voter {
    fn copy(&self) -> Result<Voter, Memory> {
        Ok(Voter {
            site: self.site.copy()?,
            ticket: self.ticket,
        })
    }
}

/// A committed transaction, and its voters: each site once, in no order.
#[derive(Debug, Drop)]
pub struct CommitRow {
    pub txn: Txn,
    pub voters: Seq<Voter>,
}

/// All that the coordinator's store keeps.
#[derive(Debug, Drop)]
pub struct DeskKept {
    /// The commit rows, by transaction.
    pub commits: Seq<CommitRow>,
    /// The incarnation.
    pub life: u64,
    /// The version of the catalogue.
    pub version: u64,
}
