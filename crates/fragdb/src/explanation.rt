//! Why something was refused, explained: the catalogue, lines of a script over it, or a folder whose stores fail.

use commands::folder_told::tell_folder;
use databases::catalog_files::Source;
use databases::opened::{open_catalog, open_file};
use databases::sql_stores::Files;
use lines::catalog_file::{CatalogFault, read_catalog};
use lines::explaining::explain_outcome;
use lines::fault::ProgramFault;
use lines::outcome::Outcome;
use lines::usage::{Request, Stores};
use std::io;
use std::io::Write;

/// Explains what was refused of a request, whose input had these bytes, or which store failed. The catalogue of a script is
/// opened once more, or the one that was refused.
pub fn explain<E: Write>(
    rt: &HostRuntime,
    request: Request<'_>,
    next: &[&str],
    outcome: &Outcome<'_>,
    bytes: &[u8],
    errors: &mut E,
) -> io::Result<()> {
    let alloc = rt.alloc();
    if let Request::Check { catalog, .. } = request {
        return explain_outcome(alloc, outcome, catalog, bytes, bytes, errors);
    }
    let Source { file, catalog } = open_catalog(rt, explained_file(rt, request, next, outcome));
    match (request.stores(), outcome) {
        (Stores::Folder(dir), Outcome::Stopped(ProgramFault::Store { fault })) => {
            tell_folder(rt, &Files::new(rt), dir, file, catalog?, *fault, errors)
        }
        _ => explain_outcome(alloc, outcome, file, catalog?, bytes, errors),
    }
}

/// The file of the first catalogue, or of the one that is refused, if one is.
fn explained_file<'a>(
    rt: &HostRuntime,
    request: Request<'a>,
    next: &[&'a str],
    outcome: &Outcome<'_>,
) -> Option<&'a str> {
    let first = request.catalog();
    if !matches!(outcome, Outcome::Refused(_)) || first.is_some_and(|file| is_refused(rt, file)) {
        return first;
    }
    for file in next {
        if is_refused(rt, file) {
            return Some(file);
        }
    }
    first
}

/// Whether a file can be read whose catalogue is refused.
fn is_refused(rt: &HostRuntime, file: &str) -> bool {
    match open_file(rt, file) {
        Ok(catalog) => {
            let read = read_catalog(rt.alloc(), file, catalog);
            matches!(read, Err(CatalogFault::Refused(_)))
        }
        Err(_) => false,
    }
}
