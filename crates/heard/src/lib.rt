//! What a client hears, as the lines that tests compare.
#![tactic(auto)]

pub mod notice;
