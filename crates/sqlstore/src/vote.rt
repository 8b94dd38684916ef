//! Voters as rows of their table.

ghost use Rattle.std.specs.Prelude.{◌≡◌, ◌≤◌, ◌^◌, pos, IfOk, IfSome, MatchOption};
ghost use Rattle.sqlstore.specs.Votes.{AreVotes, IsNamed, vote_cells, voter_cells};

use crate::visit::{GREATEST, Visit, visit_of};
use std::alloc::Global;
use store::commit::Voter;
use terms::memory::Memory;

/// What a row says of a voter: the site's name, and the numbers of its ticket.
#[derive(Debug, Drop)]
pub struct Vote {
    pub site: String,
    pub ticket: Visit,
}

/// The votes of voters, or none where a number is none of a table's.
pub fn votes_of(alloc: Global, voters: &[Voter]) -> Result<Option<Vec<Vote>>, Memory>
    ensures { IfOk result (λ found. IfSome found (λ votes. AreVotes votes.items voters.now)) }
{
    let mut votes = Vec::new(alloc);
    for voter in voters {
        let Some(vote) = vote_of(alloc, voter)? else {
            return Ok(None);
        };
        votes.push(vote)?;
    }
    Ok(Some(votes))
}

/// The vote of a voter, or none where a number of its ticket is none of a table's.
fn vote_of(alloc: Global, voter: &Voter) -> Result<Option<Vote>, Memory>
    ensures { IfOk result (λ found. IfSome found (λ vote. (vote_cells vote ≡ voter_cells voter.now) × IsNamed voter.now)) }
{
    let Some(ticket) = visit_of(voter.ticket) else {
        return Ok(None);
    };
    let name = voter.site.as_str();
    let _text = name.as_bytes();
    let site = String::from_str(alloc, name)?;
    Ok(Some(Vote { site, ticket }))
}

/// A number, if a table holds it.
pub fn number_of(number: u64) -> Option<i64>
    ensures { MatchOption result (2 ^ 63 ≤ number) (λ kept. kept ≡ pos number) }
{
    if number <= GREATEST {
        Some(number as i64)
    } else {
        None
    }
}
