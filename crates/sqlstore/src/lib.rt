//! Stores of sites and of the coordinator, kept in SQLite.
//!
//! Stands on `terms`, `store` and the kit's `sqlite`, whose connections keep what they have compiled of the last 64
//! texts. No store has as many, so each of its statements is compiled once.
#![tactic(auto)]

pub mod blame;
pub mod calls;
pub mod cells;
pub mod commit;
pub mod commit_rows;
pub mod decision;
pub mod desk;
pub mod desk_open;
pub mod desk_rows;
pub mod desk_schema;
pub mod desk_tables;
pub mod epoch;
pub mod find;
pub mod gathered;
pub mod intended;
pub mod intent;
pub mod keep;
pub mod life;
pub mod listing;
pub mod numbered;
pub mod open;
pub mod param;
pub mod prepared_rows;
pub mod promise;
pub mod reading;
pub mod schema;
pub mod site;
pub mod small_pages;
pub mod steps;
pub mod tables;
pub mod visit;
pub mod vote;
pub mod walk;
