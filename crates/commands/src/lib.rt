//! What the program's commands do for one client, over whatever stores: a script, a session, a schedule, a dump, an import. Each is
//! over readers of its texts and writers of its answers, and says under contract what it writes.
//!
//! The contract that carries it is that of `perform::perform`: what is written and what comes of each request.
#![tactic(auto)]

pub mod catalog_word;
pub mod dump;
pub mod dump_command;
pub mod folder_told;
pub mod import;
pub mod import_command;
pub mod import_file;
pub mod import_word;
pub mod leaves;
pub mod misuse;
pub mod perform;
pub mod play;
pub mod row_progress;
pub mod script_file;
pub mod session;
pub mod session_files;
pub mod session_word;
pub mod stats;
pub mod suggest_command;
pub mod suggest_file;
pub mod texts;
mod transfer;
pub mod typed;
