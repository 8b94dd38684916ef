//! What the program reads and writes as lines of text: its command line, scripts and schedules, catalogues' files, listings of
//! fragments, plans and faults. Nothing here opens a store or asks a machine for anything.
#![tactic(auto)]

pub mod built_in;
pub mod cast;
pub mod catalog_difference;
pub mod catalog_file;
pub mod check;
pub mod cut;
pub mod dot;
pub mod explaining;
pub mod fault;
pub mod fragment_tree;
pub mod grammar;
pub mod help;
pub mod input;
pub mod level;
pub mod listing;
pub mod next_files;
pub mod outcome;
pub mod plan_lines;
pub mod plan_text;
pub mod plan_tree;
pub mod play_items;
pub mod play_load;
pub mod play_script;
pub mod reply;
pub mod request;
pub mod run_script;
pub mod same_catalog;
pub mod script;
pub mod transfer;
pub mod usage;
pub mod written;
