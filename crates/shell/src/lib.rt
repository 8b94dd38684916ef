//! What the program says to a person: what was wrong with a text, where, and what could stand there.
//!
//! Stands on the reader and the catalogue. Public are `sentence`, which explains why a statement's text is refused,
//! `catalogue`, which does so for a catalogue, and `nearest`, the name that a word was likely meant to be.
//!
//! ```text
//! explain(alloc, &schema, "SELECT nam FROM item", &fault)?
//! // SELECT nam FROM item
//! //        ^
//! // no column `nam`; item has id, zone, label
//! ```
#![tactic(auto)]

use std::alloc::AllocError;

/// What was made, unless memory ran out.
pub type Made<T> = Result<T, AllocError>;

pub mod catalogue;
pub mod nearest;
mod place;
pub mod sentence;
mod window;
