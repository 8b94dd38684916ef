//! The ways in which transactions end, and how many ended in each.

use desk::reply::{Notice, Reply, Why};

/// The ways in which transactions end.
pub(crate) const WAYS: [&str; 8] = [
    "committed",
    "rolled back",
    "refused a lock",
    "refused as gone",
    "voted down",
    "given up",
    "lost in a restart",
    "not kept",
];

/// The place of the way in which a transaction ended, if a client hears that it did.
fn way(reply: &Reply, is_locked: bool) -> Option<usize> {
    match reply {
        Reply::Begun | Reply::Answer(_) => None,
        Reply::Committed => Some(0),
        Reply::RolledBack => Some(1),
        Reply::Aborted(Why::Refused) if is_locked => Some(2),
        Reply::Aborted(Why::Refused) => Some(3),
        Reply::Aborted(Why::Vote) => Some(4),
        Reply::Aborted(Why::GivenUp) => Some(5),
        Reply::Aborted(Why::Restart) => Some(6),
        Reply::Aborted(Why::Store) => Some(7),
    }
}

/// How many transactions ended in each way.
#[derive(Drop)]
pub(crate) struct Ends {
    counts: [u64; 8],
}

impl Ends {
    pub(crate) fn new() -> Ends {
        Ends { counts: [0; 8] }
    }

    /// So many more ended in the way at this place.
    pub(crate) fn add(&mut self, place: usize, more: u64) {
        if let Some(count) = self.counts.get_mut(place) {
            *count = count.saturating_add(more);
        }
    }

    /// Clients hear this. The letter that led to it may be one that refuses a lock.
    pub(crate) fn hear(&mut self, notices: &[Notice], is_locked: bool) {
        for notice in notices {
            if let Some(place) = way(&notice.reply, is_locked) {
                self.add(place, 1);
            }
        }
    }

    /// Those of another schedule are added.
    pub(crate) fn add_all(&mut self, others: &Ends) {
        for (place, count) in others.counts.iter().enumerate() {
            self.add(place, *count);
        }
    }

    /// Whether some ended in the way at this place.
    pub(crate) fn is_met(&self, place: usize) -> bool {
        self.counts.get(place).is_some_and(|count| *count > 0)
    }
}
