//! What brings data in, or takes it out, over the database that the command line names. What files hold no contract can say; over
//! readers and writers `dump_files` and `import_files` say what is done.

use crate::dump_command::dump_over;
use crate::import_command::import_over;
use databases::database::Database;
use databases::opener::{Folder, Lists, Opens};
use databases::sql_stores::{Files, OpensFiles};
use lines::outcome::Outcome;
use lines::transfer::{Dump, Import};
use sqlite::Alter;
use std::io::Write;

/// A dump or an import.
#[derive(Clone, Copy)]
pub(crate) enum Transfer<'a> {
    Dump(Dump<'a>),
    Import(Import<'a>),
}

/// Does it over the stores of the folder that is named, which were made for this catalogue, or over lists where none is named.
pub(crate) fn do_transfer<'a, W: Write, E: Write>(
    rt: &HostRuntime,
    dir: Option<&str>,
    catalog: Option<&str>,
    asked: Transfer<'a>,
    output: &mut W,
    errors: &mut E,
) -> Outcome<'a> {
    match dir {
        Some(dir) => transfer_in(rt, &Files::new(rt), dir, catalog, asked, output, errors),
        None => transfer_over(rt, &Lists, asked, output, errors),
    }
}

/// Does it over the database in a folder.
fn transfer_in<'a, M: Alter + Drop, F: OpensFiles<M>, W: Write, E: Write>(
    rt: &HostRuntime,
    files: &F,
    dir: &str,
    catalog: Option<&str>,
    asked: Transfer<'a>,
    output: &mut W,
    errors: &mut E,
) -> Outcome<'a> {
    let folder = Folder::new(rt, files, dir, catalog);
    transfer_over(rt, &folder, asked, output, errors)
}

/// Does it over a database that is opened so.
fn transfer_over<'a, B: Database + Drop, O: Opens<B>, W: Write, E: Write>(
    rt: &HostRuntime,
    opener: &O,
    asked: Transfer<'a>,
    output: &mut W,
    errors: &mut E,
) -> Outcome<'a> {
    match asked {
        Transfer::Dump(dump) => dump_over(rt, opener, dump, output),
        Transfer::Import(import) => import_over(rt, opener, import, output, errors),
    }
}
