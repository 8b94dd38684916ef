//! Databases for one client, over whatever stores: the catalogues of files, the stores that are opened for them, what an item is
//! answered by, a script run over one, and a world whose letters a script delivers.
//!
//! The contract that carries it is that of `database::Database::answer`: what a database answers, and what stands then.
#![tactic(auto)]

pub mod catalog_files;
pub mod client;
pub mod database;
pub mod delivering;
pub mod ending;
pub mod folder;
pub mod found;
pub mod opened;
pub mod opener;
pub mod play_text;
pub mod schedule;
pub mod shown;
pub mod solo;
pub mod sql_stores;
pub mod world_opener;
