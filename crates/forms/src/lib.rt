//! The forms in which answers are shown: with tabs, in columns, as comma-separated values or as JSON.
//!
//! Stands on the reader, which prints an answer with tabs. Public is `mode`, which shows an answer, or a line that is
//! none, in one of the forms; `columns`, `csv` and `json` put rows in theirs.
//!
//! ```text
//! show(alloc, Mode::Columns, &answer)?
//! // id  name
//! // --  ----
//! //  1  Ada
//! ```
#![tactic(auto)]

pub mod columns;
pub mod csv;
pub mod json;
pub mod mode;
