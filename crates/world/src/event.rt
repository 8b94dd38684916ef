//! What happens to a world, and what came of it.

use desk::reply::Out;
use store::name::{Ticket, Txn};
use terms::copy::TryCopy;
use terms::memory::Memory;
use terms::text::Text;

/// What a client asks for.
#[derive(Debug, Drop)]
pub enum Call {
    /// A transaction begins.
    Begin,
    /// A statement of a transaction, by its text.
    State(Txn, Text),
    /// The commit of a transaction is asked for.
    Commit(Txn),
    /// A transaction is rolled back.
    Rollback(Txn),
    /// A transaction is given up.
    GiveUp(Txn),
    /// A relation gets the split of the next catalogue, by the text of the REFRAGMENT: a transaction of its own begins and states
    /// that.
    Refragment(Text),
}

/// Something that happens. Where a flag `kept` is false, the store call that the event makes isn't made,
/// and counts as refused.
#[derive(Debug, Drop)]
pub enum Event {
    /// A client asks for something.
    Call(Call),
    /// The letter of this number comes, counted from 0 in the order in which letters were sent.
    Deliver(usize, bool),
    /// A site gives a visit up.
    SiteGivesUp(Text, Ticket),
    /// A site asks about its prepared rows.
    SiteInquires(Text),
    /// A site restarts.
    SiteRestarts(Text, bool),
    /// The coordinator restarts.
    DeskRestarts(bool),
}

/// An event that has happened, with the letters that were put out and what clients heard.
#[derive(Debug, Drop)]
pub struct Entry {
    pub event: Event,
    pub out: Out,
}

impl TryCopy for Call {
    fn copy(&self) -> Result<Call, Memory> {
        match self {
            Call::Begin => Ok(Call::Begin),
            Call::State(txn, text) => Ok(Call::State(*txn, text.copy()?)),
            Call::Commit(txn) => Ok(Call::Commit(*txn)),
            Call::Rollback(txn) => Ok(Call::Rollback(*txn)),
            Call::GiveUp(txn) => Ok(Call::GiveUp(*txn)),
            Call::Refragment(text) => Ok(Call::Refragment(text.copy()?)),
        }
    }
}

impl TryCopy for Event {
    fn copy(&self) -> Result<Event, Memory> {
        match self {
            Event::Call(call) => Ok(Event::Call(call.copy()?)),
            Event::Deliver(number, kept) => Ok(Event::Deliver(*number, *kept)),
            Event::SiteGivesUp(site, ticket) => Ok(Event::SiteGivesUp(site.copy()?, *ticket)),
            Event::SiteInquires(site) => Ok(Event::SiteInquires(site.copy()?)),
            Event::SiteRestarts(site, kept) => Ok(Event::SiteRestarts(site.copy()?, *kept)),
            Event::DeskRestarts(kept) => Ok(Event::DeskRestarts(*kept)),
        }
    }
}
