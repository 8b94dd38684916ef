//! The sessions of a script, run over the files and the stores that the command line names.

use crate::conversation::Manner;
use crate::progress::{Progress, Unwatched, Watches};
use crate::run::run_files;
use crate::store_opener::OpensStores;
use databases::catalog_files::Source;
use databases::opened::{open_catalog, open_input, open_next};
use databases::opener::{Folder, InMemory, Lists};
use databases::sql_stores::{Files, OpensFiles};
use lines::fault::ProgramFault;
use lines::outcome::{Outcome, Status, exit};
use lines::usage::{Sessions, Stores};
use sqlite::Alter;
use std::io::{IsTerminal, Write};
use std::sync::Wait;
use std::thread::Threads;
use std::time::Clock;
use store::desk_store::DeskStore;
use store::site_store::SiteStore;

/// Runs the sessions of a script over the stores that they ask for, and the catalogues that come next by these files' names, and
/// tells what it came to. What files hold no contract can say; over readers and writers `run_files` says what is done.
pub fn do_run<'a, H: Threads + Wait + Clock + Copy + Send + Sync + 'static, W: Write, E: Write>(
    rt: &HostRuntime,
    threads: &H,
    sessions: Sessions<'a>,
    next: &[&'a str],
    output: &mut W,
    errors: &mut E,
) -> Status {
    let outcome = match sessions.stores() {
        Stores::Lists => run_over(rt, threads, &Lists, sessions, next, output, errors),
        Stores::InMemory => run_over(rt, threads, &InMemory, sessions, next, output, errors),
        Stores::Folder(dir) => run_in(
            rt,
            threads,
            &Files::new(rt),
            dir,
            sessions,
            next,
            output,
            errors,
        ),
    };
    exit(errors, &outcome)
}

/// Runs them over the stores of a folder.
fn run_in<
    'a,
    H: Threads + Wait + Clock + Copy + Send + Sync + 'static,
    M: Alter + Send + Drop + 'static,
    F: OpensFiles<M>,
    W: Write,
    E: Write,
>(
    rt: &HostRuntime,
    threads: &H,
    files: &F,
    dir: &str,
    sessions: Sessions<'a>,
    next: &[&'a str],
    output: &mut W,
    errors: &mut E,
) -> Outcome<'a> {
    let folder = Folder::new(rt, files, dir, sessions.catalog);
    run_over(rt, threads, &folder, sessions, next, output, errors)
}

/// Runs them over these stores, watched where a person reads what is told.
fn run_over<
    'a,
    H: Threads + Wait + Clock + Copy + Send + Sync + 'static,
    D: DeskStore + Send + Drop + 'static,
    S: SiteStore + Send + Drop + 'static,
    O: OpensStores<D, S>,
    W: Write,
    E: Write,
>(
    rt: &HostRuntime,
    threads: &H,
    opener: &O,
    sessions: Sessions<'a>,
    next: &[&'a str],
    output: &mut W,
    errors: &mut E,
) -> Outcome<'a> {
    if rt.stderr().is_terminal() {
        let watch = &Progress::new(rt);
        run_watched(rt, threads, opener, watch, sessions, next, output, errors)
    } else {
        let watch = &Unwatched;
        run_watched(rt, threads, opener, watch, sessions, next, output, errors)
    }
}

/// The same, over the files that are named.
fn run_watched<
    'a,
    H: Threads + Wait + Clock + Copy + Send + Sync + 'static,
    D: DeskStore + Send + Drop + 'static,
    S: SiteStore + Send + Drop + 'static,
    O: OpensStores<D, S>,
    P: Watches + Sync,
    W: Write,
    E: Write,
>(
    rt: &HostRuntime,
    threads: &H,
    opener: &O,
    watch: &P,
    sessions: Sessions<'a>,
    next: &[&'a str],
    output: &mut W,
    errors: &mut E,
) -> Outcome<'a> {
    let retry = sessions.retry;
    let Source { file, catalog } = open_catalog(rt, sessions.catalog);
    let input = open_input(rt, sessions.is_of_input(), sessions.script);
    let Ok(next) = open_next(rt, next) else {
        return Outcome::Stopped(ProgramFault::Memory);
    };
    run_files(
        threads,
        rt.alloc(),
        opener,
        &Manner { retry, watch },
        file,
        catalog,
        next,
        sessions.script,
        input,
        output,
        errors,
    )
}
