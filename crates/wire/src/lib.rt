//! A database whose sites work in threads, and the sessions of its clients.
//!
//! It stands on all crates below it. Each site's thread owns the site's cell and takes letters, one after another, from
//! a channel of its own (`worker`). The coordinator's cell lies under a lock, beside the ways to the sites (`front`):
//! whoever calls it puts its letters into the channels before the lock is free, and hands its replies to the sessions
//! after that (`shared`, `seat`). Public are the `database`, its `session`s, the `records` of one that was closed, the
//! `fault` of a session's call, and the `gate` that letters pass.
//!
//! ```text
//! let database = Database::open(rt, alloc, &chain, sites, desk, Ungated)?;
//! let mut session = database.session(rt)?;
//! let answer = session.execute(rt, "SELECT label FROM item WHERE id = 1");
//! let told = session.end();
//! let records = database.close(rt)?;
//! let woven = weave(alloc, &records.records, &[told.as_slice()]);
//! ```
#![tactic(auto)]

mod begun;
mod cells;
pub mod database;
pub mod fault;
mod front;
pub mod gate;
mod patience;
pub mod records;
mod seat;
pub mod session;
mod shared;
mod talk;
mod worker;
