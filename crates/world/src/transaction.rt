//! Transactions that a client hands over, and what became of them.

ghost use Rattle.std.specs.Prelude.{◌≡◌};
ghost use Rattle.std.specs.List.{list_any};
ghost use Rattle.world.specs.Batch.{is_committed, tells_commit};

use crate::autocommit::tells_commit;
use desk::refusal::Refusal;
use desk::reply::Notice;
use store::name::Txn;
use terms::seq::Seq;
use terms::text::Text;

/// How a client wants its transaction to end.
#[derive(Clone, Copy, Debug, PartialEq, Eq)]
pub enum End {
    Commit,
    Rollback,
}

/// A transaction that a client hands over: its statements by their texts, and its end.
#[derive(Debug, Drop)]
pub struct Transaction {
    pub texts: Seq<Text>,
    pub end: End,
}

/// What came of a call of a transaction.
#[derive(Debug, Drop)]
pub enum Came {
    /// It was done, and its client heard this.
    Heard(Seq<Notice>),
    /// It was refused, and nothing was done.
    Refused(Refusal),
}

/// A transaction that began.
#[derive(Debug, Drop)]
pub struct Course {
    pub txn: Txn,
    /// What its client heard as it began.
    pub greeted: Seq<Notice>,
    /// What came of its calls: of its texts, in their order, and then of its end. Once it has ended no more calls are made. Where its
    /// commit is refused it is rolled back, which is the last call.
    pub came: Seq<Came>,
}

/// What became of a transaction.
#[derive(Debug, Drop)]
pub enum Outcome {
    /// It couldn't begin.
    Unbegun(Refusal),
    /// It ran.
    Ran(Course),
}

/// Memory ran out or a store failed while transactions were run.
#[derive(Debug, Drop)]
pub struct Stop {
    /// What became of the transactions before the one that was stopped: so many are before it.
    pub done: Seq<Outcome>,
    pub refusal: Refusal,
}

/// Why transactions were not run to the end.
#[derive(Debug, Drop)]
pub enum Unfinished {
    /// None was begun: a transaction of the client is open, or the database had been stopped.
    Unstarted(Refusal),
    /// One was stopped, and with it the database.
    Stopped(Stop),
}

/// Whether a call's client heard of it that a transaction was committed.
fn commits(came: &Came) -> bool
    ensures { result ≡ tells_commit came.now }
{
    match came {
        Came::Heard(heard) => tells_commit(heard.as_slice()),
        Came::Refused(_) => false,
    }
}

/// Whether one of these tells its client so.
fn tell_commit(came: &[Came]) -> bool
    ensures { result ≡ list_any tells_commit came.now }
{
    came.iter().any(|one| commits(one))
}

impl Outcome {
    /// Whether its client heard that it was committed.
    pub fn is_committed(&self) -> bool
        ensures { result ≡ is_committed self.now }
    {
        match self {
            Outcome::Unbegun(_) => false,
            Outcome::Ran(course) => tell_commit(course.came.as_slice()),
        }
    }
}
