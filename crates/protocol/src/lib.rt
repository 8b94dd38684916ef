//! The commit protocol, Presumed Abort: both machines, worlds and runs as definitions (`specs/`), and the
//! proof of the serial law over every run (`proofs/`), for every language of statements over leaves. For one
//! client alone it is followed letter by letter to its end. A statement may bring another catalogue into
//! force, and over a list of catalogues the law is said without their numbers (`Catalogues`).
//!
//! Stands on `terms` and `store`, for the language of stores (`Local`) and the letters in it (`Letters`); the
//! theory itself needs neither. The crates above state their machines by these definitions and cite the
//! theorems at a language of their own; here each stands at a toy language, since a clause can't range
//! over languages.
//!
//! ```text
//! run events opening                 // any calls, deliveries, losses, repeats, refusals and restarts
//! committed (run events opening).past    // in the order in which first phases began
//! ```
#![tactic(auto)]

pub mod laws;
