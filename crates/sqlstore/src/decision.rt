//! What is put into the tables for a transaction that is committed.

ghost use Rattle.std.specs.Prelude.{IfOk, IfSome};
ghost use Rattle.sqlstore.specs.Votes.{IsDecisionOf};

use crate::visit::{Visit, txn_of};
use crate::vote::{Vote, number_of, votes_of};
use std::alloc::Global;
use store::commit::Voter;
use store::name::Txn;
use terms::memory::Memory;

/// A transaction as numbers, its votes, and the catalogue's version.
#[derive(Debug, Drop)]
pub struct Decision {
    pub txn: Visit,
    pub votes: Vec<Vote>,
    pub version: i64,
}

/// What is put into the tables, or none where a number is none of a table's.
pub fn decision_of(
    alloc: Global,
    txn: Txn,
    voters: &[Voter],
    version: u64,
) -> Result<Option<Decision>, Memory>
    ensures { IfOk result (λ found. IfSome found (IsDecisionOf txn voters.now version)) }
{
    let Some(txn) = txn_of(txn) else {
        return Ok(None);
    };
    let Some(version) = number_of(version) else {
        return Ok(None);
    };
    let Some(votes) = votes_of(alloc, voters)? else {
        return Ok(None);
    };
    Ok(Some(Decision {
        txn,
        votes,
        version,
    }))
}
