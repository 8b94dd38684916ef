//! The statement text of fragdb: tokens, grammar and names, and the text of answers.
//!
//! Stands on `terms` and `meaning`. The contract that the crates above use: `read` accepts a text
//! exactly when it is the text of a command, with that command.
//!
//! ```text
//! let command = read(alloc, "SELECT label FROM item WHERE id = 1", &schema)?;
//! // Command::Run(statement)
//! ```
#![tactic(auto)]

pub mod alone;
mod assignments;
pub mod class;
pub mod command;
mod conditions;
mod constants;
pub mod cursor;
pub mod fault;
mod integer;
mod joins;
pub mod keyword;
pub mod laws;
pub mod lexer;
pub mod names;
pub mod parser;
pub mod print_answer;
pub mod print_constant;
pub mod print_statement;
pub mod read;
pub mod read_again;
pub mod read_conds;
mod relations;
mod scope;
mod separated;
pub mod sign;
pub mod text;
pub mod token;
pub mod tree;
pub mod word;
