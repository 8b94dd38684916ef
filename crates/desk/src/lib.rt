//! The coordinator's machine: transactions from their beginning to their end, over any store.
//!
//! Stands on `terms`, `meaning`, `reader`, `catalog`, `plan`, `answers`, `store` and `protocol`. The contract that the crates above
//! use: each call of `Desk` does to the coordinator what the protocol's table says (`Steps`), and after a
//! refusal nothing has changed. What a statement answers and writes is its meaning (`AllExplained`).
//!
//! ```text
//! // the next life begins, under the catalogue of the chain whose number the store keeps; on a refusal the store comes back as it was
//! let mut desk = Desk::start(alloc, &chain, store)?;
//! let out = desk.begin()?;             // the reply names the transaction
//! let out = desk.statement(txn, text)?; // Opens and fetches; without fetches the answer
//! let out = desk.take(&letter)?;       // a site's letter: what waited for it goes on
//! let out = desk.commit(txn)?;         // Prepare to each visited site, or committed at once
//! let out = desk.rollback(txn)?;       // Abort to each visited site that may hold locks
//! let out = desk.refragment(text)?; // a relation gets the split of the next catalogue: a transaction of its own
//! let out = desk.restart()?;           // Commit again to the voters of each commit row
//! ```
#![tactic(auto)]

mod abort;
mod acknowledge;
mod commit;
pub mod desk;
mod fetches;
mod opening;
mod participant;
mod receive;
mod recovery;
mod refragment;
pub mod refusal;
pub mod reply;
mod request;
mod send;
mod statement;
mod transaction;
mod transition;
mod volatile;
