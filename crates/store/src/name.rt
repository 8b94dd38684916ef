//! Names of transactions and of visits.

ghost use Rattle.std.specs.Prelude.{Some};
ghost use Rattle.store.specs.Name.{ticket_text};

use std::fmt;
use terms::same::Same;

/// A transaction, by the coordinator's incarnation that began it and its number in that one.
#[derive(Clone, Copy, Debug, PartialEq, Eq, PartialOrd, Ord)]
pub struct Txn {
    pub life: u64,
    pub number: u64,
}

impl Same for Txn {
    fn same(&self, other: &Txn) -> bool {
        self.life.same(&other.life) && self.number.same(&other.number)
    }
}

/// A visit of a transaction to a site, by the site's incarnation that drew it and its number in that one.
#[derive(Clone, Copy, Debug, PartialEq, Eq, PartialOrd, Ord)]
pub struct Ticket {
    pub life: u64,
    pub visit: u64,
}

impl Same for Ticket {
    fn same(&self, other: &Ticket) -> bool {
        self.life.same(&other.life) && self.visit.same(&other.visit)
    }
}

impl fmt::Display for Ticket {
    ghost output = { λ ticket. Some (ticket_text ticket) };

    fn fmt<W: fmt::Write>(&self, f: &mut fmt::Formatter<W>) -> fmt::Result {
        write!(f, "{}.{}", self.life, self.visit)
    }
}
