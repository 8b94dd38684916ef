//! fragdb: a relational database in fragments. `fragdb solo SCRIPT` runs a script over a catalogue, one
//! command at a time; `fragdb check CATALOG` checks a catalogue and lists its fragments; `fragdb plan` shows
//! which of them a statement reads; `fragdb play SCRIPT` plays a schedule, letter by letter; `fragdb run SCRIPT`
//! runs many sessions, each in a thread of its own.
//!
//! Here the words are read, and the crate `commands` is called, which opens what they name. The contract that carries the
//! program is that of its `perform::perform`: what is written and what comes of each request.
#![tactic(auto)]

mod explanation;

use crate::explanation::explain;
use commands::dump_command::do_dump;
use commands::import_command::do_import;
use commands::perform::{perform, perform_session};
use commands::suggest_command::do_suggest;
use databases::catalog_files::Source;
use databases::database::Database;
use databases::opened::{Opened, open_catalog, open_input, open_next};
use databases::opener::{Folder, InMemory, Lists, Opens};
use databases::solo::SCRIPT_LIMIT;
use databases::sql_stores::{Files, OpensFiles};
use databases::world_opener::OpensWorld;
use lines::fault::ProgramFault;
use lines::outcome::{Outcome, Status, exit};
use lines::usage::{Asked, Given, Request, Stores, read_words, show_usage, unreadable_words};
use runs::sessions::do_run;
use sqlite::Alter;
use std::alloc::Global;
use std::io::{BufWriter, IsTerminal, Read, Write};
use std::process::ExitCode;
use std::sync::Wait;
use std::thread::Threads;
use std::time::Clock;
use std::{env, io};
use store::desk_store::DeskStore;
use store::site_store::SiteStore;

fn main(rt: HostRuntime) -> ExitCode {
    ExitCode::from(do_words(&rt, &rt).code())
}

/// Reads the command line, and does what it asks for. Sessions have threads from the
/// handle beside the runtime, which has none itself outside `main`.
fn do_words<H: Threads + Wait + Clock + Copy + Send + Sync + 'static>(
    rt: &HostRuntime,
    threads: &H,
) -> Status {
    let alloc = rt.alloc();
    let mut errors = rt.stderr();
    let Ok(mut output) = BufWriter::new(alloc, rt.stdout()) else {
        return exit(&mut errors, &Outcome::Stopped(ProgramFault::Memory));
    };
    let words: Vec<String> = match env::args(rt).and_then(|words| Ok(words.collect(alloc)?)) {
        Ok(words) => words,
        Err(error) => {
            let error = unreadable_words(alloc, &error);
            return show_usage(&error, &mut output, &mut errors);
        }
    };
    match read_words(alloc, words.as_slice(), is_at_terminal(rt)) {
        Ok(given) => do_asked(rt, threads, &given, &mut output, &mut errors),
        Err(error) => show_usage(&error, &mut output, &mut errors),
    }
}

/// Does what the command line asks for.
fn do_asked<H: Threads + Wait + Clock + Copy + Send + Sync + 'static, W: Write, E: Write>(
    rt: &HostRuntime,
    threads: &H,
    given: &Given<'_>,
    output: &mut W,
    errors: &mut E,
) -> Status {
    let next = given.next.as_slice();
    match given.asked {
        Asked::Alone(request) => do_request(rt, request, next, output, errors),
        Asked::Sessions(sessions) => do_run(rt, threads, sessions, next, output, errors),
        Asked::Dump(dump) => do_dump(rt, dump, output, errors),
        Asked::Import(import) => do_import(rt, import, output, errors),
        Asked::Suggest(asked) => do_suggest(rt, asked, output, errors),
    }
}

/// Does what a request asks for, over the stores that it names, and tells what it came to.
fn do_request<W: Write, E: Write>(
    rt: &HostRuntime,
    request: Request<'_>,
    next: &[&str],
    output: &mut W,
    errors: &mut E,
) -> Status {
    match request.stores() {
        Stores::Lists => do_over(rt, &Lists, &Lists, request, next, output, errors),
        Stores::InMemory => do_over(rt, &InMemory, &InMemory, request, next, output, errors),
        Stores::Folder(dir) => do_in(rt, &Files::new(rt), dir, request, next, output, errors),
    }
}

/// Does what a request asks for, over the stores of a folder, and tells what it came to.
fn do_in<M: Alter + Drop, F: OpensFiles<M>, W: Write, E: Write>(
    rt: &HostRuntime,
    files: &F,
    dir: &str,
    request: Request<'_>,
    next: &[&str],
    output: &mut W,
    errors: &mut E,
) -> Status {
    let folder = Folder::new(rt, files, dir, request.catalog());
    do_over(rt, &folder, &Lists, request, next, output, errors)
}

/// Opens the catalogue and the input that a request names, does what it asks for, and tells what it came to. Where refusals are
/// to be explained the input is read whole first, as it is looked at once more afterwards.
fn do_over<
    B: Database + Drop,
    O: Opens<B>,
    D: DeskStore + Drop,
    S: SiteStore + Drop,
    P: OpensWorld<D, S>,
    W: Write,
    E: Write,
>(
    rt: &HostRuntime,
    opener: &O,
    worlds: &P,
    request: Request<'_>,
    next: &[&str],
    output: &mut W,
    errors: &mut E,
) -> Status {
    let catalog = open_catalog(rt, request.catalog());
    let input = open_input(rt, request.is_of_input(), request.file());
    if begins_session(rt, &request) {
        let outcome = outcome_of_session(rt, opener, request, catalog, next, input, output, errors);
        return tell_explained(rt, request, next, &outcome, &[], errors);
    }
    if !is_explained(rt, &request) {
        let outcome = outcome_of(rt, opener, worlds, request, catalog, next, input, output);
        return exit(errors, &outcome);
    }
    match read_whole(rt.alloc(), input) {
        Ok(bytes) => {
            let bytes = bytes.as_slice();
            let input = Ok(Opened::Text(bytes));
            let outcome = outcome_of(rt, opener, worlds, request, catalog, next, input, output);
            tell_explained(rt, request, next, &outcome, bytes, errors)
        }
        Err(error) => {
            let input = Err(error);
            let outcome = outcome_of(rt, opener, worlds, request, catalog, next, input, output);
            tell_explained(rt, request, next, &outcome, &[], errors)
        }
    }
}

/// Whether a person types what is asked for, or it is asked for as if one did.
fn begins_session(rt: &HostRuntime, request: &Request<'_>) -> bool {
    request.is_interactive() || request.is_typed() && is_at_terminal(rt)
}

/// Whether it is to be explained why something is refused: where that is asked for, and by itself at a terminal.
fn is_explained(rt: &HostRuntime, request: &Request<'_>) -> bool {
    let can_be = matches!(request, Request::Solo { .. } | Request::Check { .. });
    request.explains() || can_be && is_at_terminal(rt)
}

/// Whether a person types, and reads what is written.
fn is_at_terminal(rt: &HostRuntime) -> bool {
    rt.stdin().is_terminal() && rt.stdout().is_terminal()
}

/// All that an input gives, or one byte more than a script may have.
fn read_whole(alloc: Global, input: io::Result<Opened<'_>>) -> io::Result<Vec<u8>> {
    let mut bytes = Vec::new(alloc);
    input?.take(SCRIPT_LIMIT + 1).read_to_end(&mut bytes)?;
    Ok(bytes)
}

/// What a session comes to, over its catalogue and those that come next.
fn outcome_of_session<'a, B: Database + Drop, O: Opens<B>, W: Write, E: Write>(
    rt: &HostRuntime,
    opener: &O,
    request: Request<'a>,
    catalog: Source<'a, Opened<'_>>,
    next: &[&'a str],
    input: io::Result<Opened<'_>>,
    output: &mut W,
    errors: &mut E,
) -> Outcome<'a> {
    let Source { file, catalog } = catalog;
    match open_next(rt, next) {
        Ok(next) => perform_session(
            rt.alloc(),
            opener,
            rt,
            request,
            file,
            catalog,
            next,
            input,
            output,
            errors,
        ),
        Err(_) => Outcome::Stopped(ProgramFault::Memory),
    }
}

/// What a request comes to, over its catalogue and those that come next.
fn outcome_of<
    'a,
    B: Database + Drop,
    O: Opens<B>,
    D: DeskStore + Drop,
    S: SiteStore + Drop,
    P: OpensWorld<D, S>,
    W: Write,
>(
    rt: &HostRuntime,
    opener: &O,
    worlds: &P,
    request: Request<'a>,
    catalog: Source<'a, Opened<'_>>,
    next: &[&'a str],
    input: io::Result<Opened<'_>>,
    output: &mut W,
) -> Outcome<'a> {
    let Source { file, catalog } = catalog;
    match open_next(rt, next) {
        Ok(next) => perform(
            rt.alloc(),
            opener,
            worlds,
            request,
            file,
            catalog,
            next,
            input,
            output,
        ),
        Err(_) => Outcome::Stopped(ProgramFault::Memory),
    }
}

/// Tells what a request came to, and explains what was refused of it, whose input had these bytes.
fn tell_explained<E: Write>(
    rt: &HostRuntime,
    request: Request<'_>,
    next: &[&str],
    outcome: &Outcome<'_>,
    bytes: &[u8],
    errors: &mut E,
) -> Status {
    let status = exit(errors, outcome);
    let _ = explain(rt, request, next, outcome, bytes, errors);
    status
}
