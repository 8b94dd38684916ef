//! Tickets and transactions as numbers in tables.

ghost use Rattle.std.specs.Prelude.{◌≡◌, ◌≤◌, ◌⊎◌, ◌^◌, pos, MatchOption};

use store::name::{Ticket, Txn};

/// The most that a number in a table may be.
pub const GREATEST: u64 = 9223372036854775807;

/// A ticket, or a transaction, as its two numbers in a table.
#[derive(Clone, Copy, Debug)]
pub struct Visit {
    pub life: i64,
    pub visit: i64,
}

/// The numbers of a ticket, if a table holds them.
pub fn visit_of(ticket: Ticket) -> Option<Visit>
    ensures { MatchOption result ((2 ^ 63 ≤ ticket.life) ⊎ (2 ^ 63 ≤ ticket.visit)) (λ visit. (visit.life ≡ pos ticket.life) × (visit.visit ≡ pos ticket.visit)) }
{
    pair_of(ticket.life, ticket.visit)
}

/// The numbers of a transaction, if a table holds them.
pub fn txn_of(txn: Txn) -> Option<Visit>
    ensures { MatchOption result ((2 ^ 63 ≤ txn.life) ⊎ (2 ^ 63 ≤ txn.number)) (λ visit. (visit.life ≡ pos txn.life) × (visit.visit ≡ pos txn.number)) }
{
    pair_of(txn.life, txn.number)
}

fn pair_of(life: u64, number: u64) -> Option<Visit>
    ensures { MatchOption result ((2 ^ 63 ≤ life) ⊎ (2 ^ 63 ≤ number)) (λ visit. (visit.life ≡ pos life) × (visit.visit ≡ pos number)) }
{
    if life <= GREATEST && number <= GREATEST {
        Some(Visit {
            life: life as i64,
            visit: number as i64,
        })
    } else {
        None
    }
}
