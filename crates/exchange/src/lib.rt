//! Rows that come in as comma-separated values, and rows as statements that put them in again.
//!
//! Stands on the reader, whose integers, texts and statements these are. `order` says which field of a record each
//! column has, `field` gives a field's value, `row` those of a record, and `incoming` reads a file record by record.
//! `insert` is the INSERT of a row, and `dump` the transactions that bring many.
#![tactic(auto)]

pub mod dump;
pub mod field;
pub mod file;
pub mod incoming;
pub mod insert;
pub mod line_fault;
pub mod order;
mod quantile;
mod record;
mod refused;
pub mod row;
pub mod suggest_fault;
pub mod suggestion;
mod suggestion_text;
mod survey;
pub mod tell;
