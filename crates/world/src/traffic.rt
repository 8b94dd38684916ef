//! What goes over a client's mailbox, counted.

ghost use Rattle.std.specs.Prelude.{◌≡◌};
ghost use Rattle.world.specs.Traffic.{after_call, after_end, after_letter, after_round, after_step, has_kept, no_traffic, one_more_aborted, tells_of_keeping};

use desk::reply::{Notice, Reply as Told, Why};
use store::letter::{Body, Letter};
use store::order::Order;
use store::reply::{Reply, Vote, Voted};

/// Counts of what the machines of one client did. Each stops at the greatest of 64 bits. The stores' calls aren't counted themselves, but
/// the letters that tell of them: a vote YES of a prepared row, an Ack of what a committed transaction wrote at a site, orders to commit of
/// the commit row, once however many there are. A vote READ or NO, an abort, and what a store refuses count for nothing.
#[derive(Clone, Copy, Debug, PartialEq, Eq)]
pub struct Traffic {
    /// The letters that came to a machine, one that was let go or that stopped the database too.
    pub letters: u64,
    /// The rounds of deliveries in which at least one letter waited.
    pub rounds: u64,
    /// How often a store was asked to keep something durably, and has: a prepared row, the commit row, or what a
    /// committed transaction wrote at a site.
    pub forced: u64,
    /// The transactions that were committed.
    pub committed: u64,
    /// Those that were aborted.
    pub aborted: Aborted,
}

/// How many transactions were aborted, for each cause.
#[derive(Clone, Copy, Debug, PartialEq, Eq)]
pub struct Aborted {
    pub vote: u64,
    pub refused: u64,
    pub given_up: u64,
    pub restart: u64,
    pub store: u64,
}

impl Aborted {
    /// One more was, for this cause.
    fn with(self, why: Why) -> Aborted
        ensures { result ≡ one_more_aborted self why }
    {
        match why {
            Why::Vote => Aborted {
                vote: self.vote.saturating_add(1),
                ..self
            },
            Why::Refused => Aborted {
                refused: self.refused.saturating_add(1),
                ..self
            },
            Why::GivenUp => Aborted {
                given_up: self.given_up.saturating_add(1),
                ..self
            },
            Why::Restart => Aborted {
                restart: self.restart.saturating_add(1),
                ..self
            },
            Why::Store => Aborted {
                store: self.store.saturating_add(1),
                ..self
            },
        }
    }
}

impl Traffic {
    /// Nothing was counted yet.
    pub fn none() -> Traffic
        ensures { result ≡ no_traffic }
    {
        Traffic {
            letters: 0,
            rounds: 0,
            forced: 0,
            committed: 0,
            aborted: Aborted {
                vote: 0,
                refused: 0,
                given_up: 0,
                restart: 0,
                store: 0,
            },
        }
    }

    /// A letter comes.
    pub(crate) fn count_letter(&mut self)
        ensures { self.new ≡ after_letter self.old }
    {
        self.letters = self.letters.saturating_add(1);
    }

    /// A round of deliveries begins, where so many letters wait. One without letters isn't counted.
    pub(crate) fn count_round(&mut self, waiting: usize)
        ensures { self.new ≡ after_round self.old waiting }
    {
        if waiting > 0 {
            self.rounds = self.rounds.saturating_add(1);
        }
    }

    /// A machine has put out these letters, by one letter that came. It calls its store at most once, so one write is
    /// counted, however many orders to commit there are.
    pub(crate) fn count_step(&mut self, put_out: &[Letter])
        ensures { self.new ≡ after_step self.old put_out.now }
    {
        if has_kept(put_out) {
            self.forced = self.forced.saturating_add(1);
        }
    }
}

impl Traffic {
    /// The client has heard this of a transaction.
    fn with_end(self, told: &Told) -> Traffic
        ensures { result ≡ after_end self told.now }
    {
        match told {
            Told::Committed => Traffic {
                committed: self.committed.saturating_add(1),
                ..self
            },
            Told::Aborted(why) => Traffic {
                aborted: self.aborted.with(*why),
                ..self
            },
            Told::Begun | Told::Answer(_) | Told::RolledBack => self,
        }
    }

    /// This is what the client hears by one call, the first of which tells how its transaction has ended, if it has.
    pub(crate) fn with_call(self, heard: &[Notice]) -> Traffic
        ensures { result ≡ after_call self heard.now }
    {
        match heard.first() {
            Some(first) => self.with_end(&first.reply),
            None => self,
        }
    }
}

/// Whether a machine that puts out these letters has kept something durably.
fn has_kept(put_out: &[Letter]) -> bool
    ensures { result ≡ has_kept put_out.now }
{
    put_out.iter().any(|letter| tells_of_keeping(&letter.body))
}

/// Whether a letter tells that a store has kept something: a vote YES a prepared row, an Ack what a committed
/// transaction wrote, an order to commit the commit row. A vote READ or NO keeps nothing, nor does an abort.
fn tells_of_keeping(body: &Body) -> bool
    ensures { result ≡ tells_of_keeping body.now }
{
    match body {
        Body::Order(order) => matches!(order, Order::Commit(_)),
        Body::Reply(reply) => matches!(
            reply,
            Reply::Voted(Voted {
                vote: Vote::Yes,
                ..
            }) | Reply::Ack(_)
        ),
    }
}
