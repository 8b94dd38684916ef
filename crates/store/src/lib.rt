//! What sites and the coordinator keep, and the letters between them.
//!
//! Stands on `terms`. The contracts that the crates above use: each call's effect on the content that a
//! `SiteStore` or a `DeskStore` keeps. After any fault the content is as it was.
//!
//! ```text
//! let mut store = PlainSite::new(alloc);
//! store.keep_prepared(txn, ticket, changes)?;   // a restart finds the changes again
//! store.apply(ticket)?;                         // they are made, and the ticket's row is gone
//! ```
#![tactic(auto)]

pub mod change;
pub mod changes;
pub mod commit;
pub mod desk_store;
pub mod fault;
pub mod laws;
pub mod letter;
pub mod letter_text;
pub mod name;
pub mod order;
mod parts;
pub mod plain_desk;
pub mod plain_site;
pub mod prepared;
pub mod reply;
mod shelves;
pub mod site_store;
pub mod slot;
mod slots;
