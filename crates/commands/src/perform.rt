//! What the command line asks for, done over readers and writers.

ghost use Rattle.std.specs.Prelude.{◌≡◌, IfErr, IfOk, IfSome};
ghost use Rattle.std.specs.Io.KnownBytes.{Keeps};
ghost use Rattle.commands.specs.Perform.{IsIdle, Performs, PerformsCheck, PerformsOver, PerformsPlan, PerformsPlay, PerformsSession, PerformsSolo, StopsIdle, StopsUncatalogued, StopsUnread};
ghost use Rattle.databases.specs.Ending.{IsStopped, IsUnread};
ghost use Rattle.databases.specs.Ending as ending;
ghost use Rattle.commands.specs.Perform as spec;
ghost use Rattle.lines.specs.Request.{file_of};
ghost use Rattle.databases.specs.Schedule.{world_over};

use crate::play::play_files;
use crate::session_files::session_files;
use crate::texts::OpensText;
use databases::catalog_files::{ChainFault, Source};
use databases::database::Database;
use databases::ending::{of_end, of_script, unread};
use databases::opener::Opens;
use databases::solo::solo_files;
use databases::world_opener::OpensWorld;
use forms::mode::Mode;
use lines::catalog_file::CatalogFault;
use lines::check::check;
use lines::fault::ProgramFault;
use lines::outcome::Outcome;
use lines::plan_text::{PlanFault, plan};
use lines::usage::Request;
use std::alloc::Global;
use std::io;
use std::io::{Read, Write};
use std::time::Clock;
use store::desk_store::DeskStore;
use store::site_store::SiteStore;

/// Does what is asked for over `input`, which is the file that the request names, opened, and over the catalogues: `catalog`, which
/// it names besides, or the built-in one, and those that come next; `catalog_file` names the first one in a fault. A request that is
/// of no script takes none of them. Answers what it came to. Nothing is written to `output` where a file can't be opened.
pub fn perform<
    'a,
    B: Database + Drop,
    O: Opens<B>,
    D: DeskStore + Drop,
    S: SiteStore + Drop,
    P: OpensWorld<D, S>,
    C: Read + Drop,
    N: Read + Drop,
    R: Read + Drop,
    W: Write,
>(
    alloc: Global,
    opener: &O,
    worlds: &P,
    request: Request<'a>,
    catalog_file: &'a str,
    catalog: io::Result<C>,
    next: Vec<Source<'a, N>>,
    input: io::Result<R>,
    output: &mut W,
) -> Outcome<'a>
    ensures opened { IfOk input (λ reader. IfSome (R.remaining reader) (λ bytes. Performs request.entry bytes (W.contents output.old) (W.contents output.new) result)) }
    ensures over { IfOk catalog (λ opened. IfSome (C.remaining opened) (λ bytes. IfOk input (λ reader. IfSome (R.remaining reader) (λ script. PerformsOver N.remaining B.seen O.origin (world_over D.is_clean S.is_clean D.is_sound S.is_sound D.kept S.kept D.refused S.refused) P.fails_for request.entry catalog_file.entry bytes next.entry.items script (W.contents output.old) (W.contents output.new) result)))) }
    ensures uncatalogued { IfErr catalog (λ error. StopsUncatalogued request.entry catalog_file.entry (W.contents output.old) (W.contents output.new) result) }
    ensures idle { IfOk catalog (λ opened. IfSome (C.remaining opened) (λ bytes. IfErr input (λ error. StopsIdle N.remaining request.entry catalog_file.entry bytes next.entry.items (W.contents output.old) (W.contents output.new) result))) }
    ensures unread { IfErr input (λ error. StopsUnread request.entry next.entry.items result × Keeps (W.contents output.old) (W.contents output.new)) }
{
    match request {
        Request::Solo { script, mode, .. } => {
            perform_solo(
                alloc,
                opener,
                mode,
                catalog_file,
                catalog,
                next,
                script,
                input,
                output,
            )
        }
        Request::Check {
            catalog: file,
            tree,
            ..
        } => perform_check(alloc, file, tree, input, output),
        Request::Plan {
            catalog: file,
            statement,
            tree,
        } => perform_plan(alloc, file, statement, tree, input, output),
        Request::Play { script, .. } => perform_play(
            alloc,
            worlds,
            catalog_file,
            catalog,
            next,
            script,
            input,
            output,
        ),
    }
}

/// Runs a script over a catalogue that was opened under this name, and those that come next.
fn perform_solo<
    'a,
    B: Database + Drop,
    O: Opens<B>,
    C: Read + Drop,
    N: Read + Drop,
    R: Read + Drop,
    W: Write,
>(
    alloc: Global,
    opener: &O,
    mode: Mode,
    file: &'a str,
    catalog: io::Result<C>,
    next: Vec<Source<'a, N>>,
    script: &'a str,
    input: io::Result<R>,
    output: &mut W,
) -> Outcome<'a>
    ensures ran { IfOk catalog (λ opened. IfSome (C.remaining opened) (λ bytes. IfOk input (λ reader. IfSome (R.remaining reader) (λ text. PerformsSolo N.remaining B.seen O.origin mode file.entry bytes next.entry.items script.entry text (W.contents output.old) (W.contents output.new) result)))) }
    ensures uncatalogued { IfErr catalog (λ error. IsUnread file.entry result × Keeps (W.contents output.old) (W.contents output.new)) }
    ensures idle { IfOk catalog (λ opened. IfSome (C.remaining opened) (λ bytes. IfErr input (λ error. IsIdle N.remaining ending.outcome_of_script file.entry bytes next.entry.items script.entry (W.contents output.old) (W.contents output.new) result))) }
    ensures unread { IfErr input (λ error. IsStopped next.entry.items result × Keeps (W.contents output.old) (W.contents output.new)) }
{
    match catalog {
        Ok(catalog) => of_script(solo_files(
            alloc, opener, mode, file, catalog, next, script, input, output,
        )),
        Err(error) => unread(file, &error),
    }
}

/// Has a session over a catalogue that was opened under this name and those that come next, with the lines that `input` gives.
pub fn perform_session<
    'a,
    B: Database + Drop,
    O: Opens<B>,
    K: Clock + OpensText<T>,
    T: Read + Drop,
    C: Read + Drop,
    N: Read + Drop,
    R: Read + Drop,
    W: Write,
    E: Write,
>(
    alloc: Global,
    opener: &O,
    host: &K,
    request: Request<'a>,
    catalog_file: &'a str,
    catalog: io::Result<C>,
    next: Vec<Source<'a, N>>,
    input: io::Result<R>,
    output: &mut W,
    errors: &mut E,
) -> Outcome<'a>
    ensures held { IfOk catalog (λ opened. IfSome (C.remaining opened) (λ bytes. PerformsSession N.remaining B.seen O.origin catalog_file.entry bytes next.entry.items (file_of request.entry) (W.contents output.old) (W.contents output.new) result)) }
    ensures uncatalogued { IfErr catalog (λ error. IsUnread catalog_file.entry result × Keeps (W.contents output.old) (W.contents output.new)) }
{
    let mode = request.session_mode();
    let file = request.file();
    match catalog {
        Ok(catalog) => of_end(session_files(
            alloc,
            opener,
            host,
            mode,
            catalog_file,
            catalog,
            next,
            file,
            input,
            output,
            errors,
        )),
        Err(error) => unread(catalog_file, &error),
    }
}

/// Checks a catalogue that was opened under this name.
fn perform_check<'a, R: Read + Drop, W: Write>(
    alloc: Global,
    file: &'a str,
    tree: bool,
    input: io::Result<R>,
    output: &mut W,
) -> Outcome<'a>
    ensures opened { IfOk input (λ reader. IfSome (R.remaining reader) (λ bytes. PerformsCheck tree file.entry bytes (W.contents output.old) (W.contents output.new) result)) }
    ensures unread { IfErr input (λ error. IsUnread file.entry result × Keeps (W.contents output.old) (W.contents output.new)) }
{
    match input {
        Ok(input) => of_check(check(alloc, file, tree, input, output)),
        Err(error) => unread(file, &error),
    }
}

/// Plans a statement over a catalogue that was opened under this name.
fn perform_plan<'a, R: Read + Drop, W: Write>(
    alloc: Global,
    file: &'a str,
    statement: &'a str,
    tree: bool,
    input: io::Result<R>,
    output: &mut W,
) -> Outcome<'a>
    ensures opened { IfOk input (λ reader. IfSome (R.remaining reader) (λ bytes. PerformsPlan tree file.entry statement.now bytes (W.contents output.old) (W.contents output.new) result)) }
    ensures unread { IfErr input (λ error. IsUnread file.entry result × Keeps (W.contents output.old) (W.contents output.new)) }
{
    match input {
        Ok(input) => of_plan(plan(alloc, file, statement, tree, input, output)),
        Err(error) => unread(file, &error),
    }
}

/// Plays a script over a catalogue that was opened under this name, and those that come next.
fn perform_play<
    'a,
    D: DeskStore + Drop,
    S: SiteStore + Drop,
    P: OpensWorld<D, S>,
    C: Read + Drop,
    N: Read + Drop,
    R: Read + Drop,
    W: Write,
>(
    alloc: Global,
    worlds: &P,
    file: &'a str,
    catalog: io::Result<C>,
    next: Vec<Source<'a, N>>,
    script: &'a str,
    input: io::Result<R>,
    output: &mut W,
) -> Outcome<'a>
    ensures played { IfOk catalog (λ opened. IfSome (C.remaining opened) (λ bytes. IfOk input (λ reader. IfSome (R.remaining reader) (λ text. PerformsPlay N.remaining (world_over D.is_clean S.is_clean D.is_sound S.is_sound D.kept S.kept D.refused S.refused) P.fails_for file.entry bytes next.entry.items script.entry text (W.contents output.old) (W.contents output.new) result)))) }
    ensures uncatalogued { IfErr catalog (λ error. IsUnread file.entry result × Keeps (W.contents output.old) (W.contents output.new)) }
    ensures idle { IfOk catalog (λ opened. IfSome (C.remaining opened) (λ bytes. IfErr input (λ error. IsIdle N.remaining ending.outcome_of_end file.entry bytes next.entry.items script.entry (W.contents output.old) (W.contents output.new) result))) }
    ensures unread { IfErr input (λ error. IsStopped next.entry.items result × Keeps (W.contents output.old) (W.contents output.new)) }
{
    match catalog {
        Ok(catalog) => of_end(play_files(
            alloc, worlds, file, catalog, next, script, input, output,
        )),
        Err(error) => unread(file, &error),
    }
}

/// What a check came to.
fn of_check(ended: Result<(), CatalogFault<'_>>) -> Outcome<'_>
    ensures { result ≡ spec.outcome_of_check ended.entry }
{
    match ended {
        Ok(()) => Outcome::Done,
        Err(CatalogFault::Refused(fault)) => Outcome::Refused(fault),
        Err(CatalogFault::Program(fault)) => Outcome::Stopped(fault),
    }
}

/// What a plan came to.
fn of_plan(ended: Result<(), PlanFault<'_>>) -> Outcome<'_>
    ensures { result ≡ spec.outcome_of_plan ended.entry }
{
    match ended {
        Ok(()) => Outcome::Done,
        Err(fault) => of_plan_fault(fault),
    }
}

fn of_plan_fault(fault: PlanFault<'_>) -> Outcome<'_>
    ensures { result ≡ spec.outcome_of_plan_fault fault.entry }
{
    match fault {
        PlanFault::Catalogue(fault) => Outcome::Refused(fault),
        PlanFault::Statement(fault) => Outcome::RefusedStatement(fault),
        PlanFault::Program(fault) => Outcome::Stopped(fault),
    }
}
