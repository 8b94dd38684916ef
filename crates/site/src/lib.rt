//! The subordinate's machine: visits, locks on whole leaves, prepared rows, over any store.
//!
//! Stands on `terms`, `store` and `protocol`. The contract that the crates above use: `Site::take` is the
//! protocol's table, letter by letter, and `Site::restart` its restart.
//!
//! ```text
//! // the next life begins; on a fault the store comes back as it was
//! let mut site = Site::start(alloc, name, store, leaves.as_slice())?;
//! let letters = site.take(letter)?;    // what the site puts out; on a fault nothing has changed
//! site.give_up(&ticket);               // ends a visit that isn't prepared
//! let questions = site.inquire()?;     // about each prepared row
//! site.restart()?;                     // visits are lost, prepared rows and their locks are not
//! let store = site.into_store();
//! ```
#![tactic(auto)]

pub mod fault;
pub mod laws;
mod lock_table;
mod locks;
mod operations;
mod overlay;
mod phases;
mod read_leaf;
mod recovery;
pub mod site;
mod tickets;
mod verdict;
mod volatile;
