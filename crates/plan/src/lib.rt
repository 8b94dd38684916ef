//! Plans of statements over fragments: which leaves a statement reads, with which conditions, and how its
//! rows are put together from their parts.
//!
//! It stands on `terms`, `meaning` and `catalog`. The contracts that the layers above use are those of
//! `reduce` and `reduced_nodes`: the fetches are exactly those that the statement may need, and over what they
//! bring the plan has the rows that the statement is to find.
#![tactic(auto)]

pub mod fetch;
pub mod fetches;
pub mod laws;
pub mod link;
pub mod localize;
mod met;
pub mod need;
mod needed_nodes;
pub mod nodes;
pub mod plan;
pub mod postfix;
pub mod reduce;
pub mod stated;
