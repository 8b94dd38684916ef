//! The command `dump`, over the files that the command line names. What files hold no contract can say; over readers and writers
//! `dump_files` says what is done.

use crate::dump::dump_files;
use crate::transfer::{Transfer, do_transfer};
use databases::catalog_files::{ChainFault, Source};
use databases::database::Database;
use databases::ending::{of_script, unread};
use databases::folder::{CATALOGUE, path_in};
use databases::opened::{open_catalog, open_file};
use databases::opener::Opens;
use lines::fault::ProgramFault;
use lines::outcome::{Outcome, Status, exit};
use lines::transfer::Dump;
use std::io::Write;

/// Writes what is asked for, over the stores of the folder that is named, and tells what it came to. A folder that has no
/// database is left as it is, and can't be read. What files hold no contract can say; over readers and writers `dump_files` says
/// what is done.
pub fn do_dump<W: Write, E: Write>(
    rt: &HostRuntime,
    dump: Dump<'_>,
    output: &mut W,
    errors: &mut E,
) -> Status {
    let outcome = match find_database(rt, dump.dir) {
        Ok(()) => do_transfer(
            rt,
            dump.dir,
            dump.catalog,
            Transfer::Dump(dump),
            output,
            errors,
        ),
        Err(fault) => Outcome::Stopped(fault),
    };
    exit(errors, &outcome)
}

/// Looks whether the folder that is named, if one is, has a database: it has its catalogue then.
fn find_database<'a>(rt: &HostRuntime, dir: Option<&'a str>) -> Result<(), ProgramFault<'a>> {
    let Some(dir) = dir else {
        return Ok(());
    };
    let path = path_in(rt.alloc(), dir, CATALOGUE)?;
    match open_file(rt, path.as_str()) {
        Ok(_there) => Ok(()),
        Err(error) => Err(ProgramFault::reading(dir, &error)),
    }
}

/// Writes what is asked for over the catalogue that is named, or the built-in one.
pub(crate) fn dump_over<'a, B: Database + Drop, O: Opens<B>, W: Write>(
    rt: &HostRuntime,
    opener: &O,
    dump: Dump<'a>,
    output: &mut W,
) -> Outcome<'a> {
    let (relation, mode) = (dump.relation, dump.mode);
    let Source { file, catalog } = open_catalog(rt, dump.catalog);
    match catalog {
        Ok(catalog) => {
            let ended = dump_files(rt.alloc(), opener, file, catalog, relation, mode, output);
            of_script(ended.map_err(ChainFault::from))
        }
        Err(error) => unread(file, &error),
    }
}
