//! What several crates of tests share: catalogues, and parts from their words.
#![tactic(auto)]

pub mod catalogues;
pub mod chains;
pub mod parts;
