//! Histories of the machines of a database, and how they are woven into one run of the protocol.
//!
//! It stands on all crates below it, and uses no thread: whoever runs machines in threads keeps each in a cell, a
//! `site_cell` or a `desk_cell`, which has an `entry` of each call in its history; their numbers come from one
//! counter. `records` are the cells of a database that has come to rest. `weave` puts the histories together by
//! these numbers: where it says yes, what the machines did is a run of the protocol, and what clients were told
//! stands in it.
#![tactic(auto)]

mod asked;
pub mod brought;
pub mod desk_cell;
pub mod entry;
mod last_calls;
pub mod laws;
pub mod merge;
pub mod records;
mod sent;
pub mod site_cell;
pub mod told;
pub mod weave;
