//! What is left of a database that was closed.

use history::records::Records as Histories;
use store::desk_store::DeskStore;
use store::site_store::SiteStore;

/// The records of a database that was closed: its machines with what each has done, and how its letters passed the gate.
#[derive(Drop)]
pub struct Records<D: DeskStore, S: SiteStore> {
    /// The machines, and what each has done.
    pub records: Histories<D, S>,
    /// How many letters were taken though the gate was not open.
    pub forced: u64,
}
