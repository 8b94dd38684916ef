//! The command `run`: sessions at once, each in a thread of its own, over a database whose sites work in threads.
//!
//! The contract that carries it is that of `run::run_files`: what is written, and whether the histories were woven.
#![tactic(auto)]

pub mod conversation;
pub mod conversations;
pub mod progress;
pub mod run;
pub mod run_records;
pub mod run_text;
pub mod sessions;
pub mod store_opener;
