//! The command `import`, over the files that the command line names. What files hold no contract can say; over readers and writers
//! `import_files` says what is done.

use crate::import_file::import_files;
use crate::row_progress::RowProgress;
use crate::transfer::{Transfer, do_transfer};
use databases::catalog_files::{ChainFault, Source};
use databases::database::Database;
use databases::ending::{of_script, unread};
use databases::opened::{open_catalog, open_input};
use databases::opener::Opens;
use lines::outcome::{Outcome, Status, exit};
use lines::transfer::Import;
use std::io::Write;

/// Inserts the rows of the file that is named, over the stores of the folder that is named, and tells what it came to. What files
/// hold no contract can say; over readers and writers `import_files` says what is done.
pub fn do_import<W: Write, E: Write>(
    rt: &HostRuntime,
    import: Import<'_>,
    output: &mut W,
    errors: &mut E,
) -> Status {
    let outcome = do_transfer(
        rt,
        import.dir,
        import.catalog,
        Transfer::Import(import),
        output,
        errors,
    );
    exit(errors, &outcome)
}

/// Inserts them over the catalogue that is named, or the built-in one, once that can be opened.
pub(crate) fn import_over<'a, B: Database + Drop, O: Opens<B>, W: Write, E: Write>(
    rt: &HostRuntime,
    opener: &O,
    import: Import<'a>,
    output: &mut W,
    errors: &mut E,
) -> Outcome<'a> {
    let Source { file, catalog } = open_catalog(rt, import.catalog);
    let catalog = match catalog {
        Ok(catalog) => catalog,
        Err(error) => return unread(file, &error),
    };
    let input = open_input(rt, import.is_of_input(), import.file);
    let ended = import_files(
        rt.alloc(),
        opener,
        file,
        catalog,
        import.relation,
        import.file,
        input,
        import.every,
        &mut RowProgress::at_terminal(rt),
        output,
        errors,
    );
    of_script(ended.map_err(ChainFault::from))
}
