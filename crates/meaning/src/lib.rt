//! The serial meaning: what a statement answers over whole relations, and what it leaves of them.
//!
//! Stands on `terms`. The contract that the crates above use: `run` is the meaning of its statement,
//! a definition that knows nothing of fragments. `laws` has what follows from it, as that a DELETE leaves
//! just the rows that don't meet its conditions.
//!
//! ```text
//! let answer = run(alloc, &mut whole, &statement)?;     // INSERT INTO item VALUES (1, 3, 'a')
//! // Answer::Changed(1); the relation item has one row more
//! ```
#![tactic(auto)]

pub mod answer;
pub mod delete;
pub mod insert;
pub mod laws;
pub mod listed;
pub mod matched;
pub mod refragment;
pub mod relation;
pub mod run;
pub mod schema;
pub mod select;
pub mod statement;
pub mod update;
pub mod whole;
