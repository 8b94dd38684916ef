//! A database in one process: its coordinator and its sites together.
//!
//! It stands on all crates below it. Public are a `world` that is opened over whole relations and takes one
//! `event` after another, as a run of the protocol; the laws of the protocol of each catalogue's database
//! (`laws`), the serial law among them; `fault`; `solo`, a database for one client at a time; `traffic`, which
//! counts what this client's commands cost; and `site_leaves`, the leaves that each site knows. Inside, `start::start`
//! makes the machines over lists, each call of `machines::Machines` is a step of the protocol's world of them,
//! `machines::apply_event` is one event, and `mailbox::deliver_all` has all letters of a call come.
#![tactic(auto)]

mod autocommit;
mod batch;
pub mod chain;
mod client;
mod command;
pub mod committed;
pub mod event;
pub mod fault;
pub mod laws;
mod log;
pub mod machines;
mod mailbox;
pub mod rebuild;
mod recovery;
mod refragmentation;
pub mod site_leaves;
pub mod sites;
pub mod solo;
mod start;
pub mod traffic;
pub mod transaction;
pub mod world;
