//! The command `run`: a script of many sessions, which are at work at once, over a chain of catalogues.

ghost use Rattle.std.specs.Prelude.{◌≡◌, ◌∷◌, IfErr, IfOk, IfSome, List, length, map, string_bytes};
ghost use Rattle.std.specs.Io.KnownBytes.{Keeps};
ghost use Rattle.catalog.specs.Catalogue.{Catalogue};
ghost use Rattle.catalog.specs.Relation.{catalogue_of};
ghost use Rattle.history.specs.Records.{AreRecords};
ghost use Rattle.lines.specs.RunScript.{part_of};
ghost use Rattle.wire.specs.Opening.{HaveLeaves};
ghost use Rattle.world.specs.Chain.{sites_of};
ghost use Rattle.databases.specs.CatalogFiles.{DoesOver, IsUnopened};
ghost use Rattle.runs.specs.Conversations.{AreOfParts};
ghost use Rattle.databases.specs.Ending.{ComesTo, IsUnread};
ghost use Rattle.runs.specs.Run.{HasRun, HasWritten, RunsScript, StopsRun, StopsSessions, fault_of_call, outcome_of};

use crate::conversation::{Conversation, Manner};
use crate::conversations::converse_at_once;
use crate::progress::Watches;
use crate::run_records::{Ran, conclude};
use crate::store_opener::OpensStores;
use catalog::chain::Chain;
use databases::catalog_files::{ChainFault, Source, read_catalogs};
use databases::ending::{of_fault, unread};
use databases::opener::unchained;
use databases::solo::read_script;
use databases::sql_stores::OpenStores;
use history::records::Records;
use lines::fault::ProgramFault;
use lines::outcome::Outcome;
use lines::run_script::{Part, parts};
use lines::written::write_text;
use std::alloc::Global;
use std::io;
use std::io::{Read, Write};
use std::sync::Wait;
use std::thread::Threads;
use std::time::Clock;
use store::desk_store::DeskStore;
use store::site_store::SiteStore;
use wire::database::Database;
use wire::fault::CallFault;
use wire::gate::Ungated;

/// Runs the script that `input` gives, which `file` names in a fault, over a database of the catalogue that `catalog` gives, which
/// `catalog_file` names, and of those that come next: the lines of each session in a thread of its own. The catalogues are read
/// first. What is printed is written once all sessions have ended. How often statements were said again is told to `errors`, where
/// they may be.
pub fn run_files<
    'a,
    H: Threads + Wait + Clock + Copy + Send + Sync + 'static,
    D: DeskStore + Send + Drop + 'static,
    S: SiteStore + Send + Drop + 'static,
    O: OpensStores<D, S>,
    P: Watches + Sync,
    C: Read + Drop,
    N: Read + Drop,
    R: Read + Drop,
    W: Write,
    E: Write,
>(
    rt: &H,
    alloc: Global,
    opener: &O,
    manner: &Manner<'_, P>,
    catalog_file: &'a str,
    catalog: io::Result<C>,
    next: Vec<Source<'a, N>>,
    file: &'a str,
    input: io::Result<R>,
    output: &mut W,
    errors: &mut E,
) -> Outcome<'a>
    ensures ran { IfOk catalog (λ opened. IfSome (C.remaining opened) (λ bytes. IfOk input (λ reader. IfSome (R.remaining reader) (λ script. ComesTo outcome_of (DoesOver N.remaining catalog_file.entry bytes next.entry.items (W.contents output.old) (W.contents output.new) (RunsScript D.is_clean D.is_sound D.kept S.is_clean S.is_sound S.kept file.entry script (W.contents output.old) (W.contents output.new))) result)))) }
    ensures uncatalogued { IfErr catalog (λ error. IsUnread catalog_file.entry result × Keeps (W.contents output.old) (W.contents output.new)) }
    ensures idle { IfOk catalog (λ opened. IfSome (C.remaining opened) (λ bytes. IfErr input (λ error. ComesTo outcome_of (DoesOver N.remaining catalog_file.entry bytes next.entry.items (W.contents output.old) (W.contents output.new) (λ catalogues. IsUnopened file.entry)) result))) }
    ensures unread { IfErr input (λ error. Keeps (W.contents output.old) (W.contents output.new)) }
{
    match catalog {
        Ok(catalog) => outcome_of(run_read(
            rt,
            alloc,
            opener,
            manner,
            catalog_file,
            catalog,
            next,
            file,
            input,
            output,
            errors,
        )),
        Err(error) => unread(catalog_file, &error),
    }
}

/// What sessions came to. A verdict that says no counts as a refusal.
fn outcome_of(ended: Result<bool, ChainFault<'_>>) -> Outcome<'_>
    ensures { result ≡ outcome_of ended.entry }
{
    match ended {
        Ok(true) => Outcome::Done,
        Ok(false) => Outcome::SomeRefused,
        Err(fault) => of_fault(fault),
    }
}

/// The same over a first catalogue that was opened.
fn run_read<
    'a,
    H: Threads + Wait + Clock + Copy + Send + Sync + 'static,
    D: DeskStore + Send + Drop + 'static,
    S: SiteStore + Send + Drop + 'static,
    O: OpensStores<D, S>,
    P: Watches + Sync,
    C: Read + Drop,
    N: Read + Drop,
    R: Read + Drop,
    W: Write,
    E: Write,
>(
    rt: &H,
    alloc: Global,
    opener: &O,
    manner: &Manner<'_, P>,
    catalog_file: &'a str,
    catalog: C,
    next: Vec<Source<'a, N>>,
    file: &'a str,
    input: io::Result<R>,
    output: &mut W,
    errors: &mut E,
) -> Result<bool, ChainFault<'a>>
    ensures opened { IfSome (C.remaining catalog) (λ bytes. IfOk input (λ reader. IfSome (R.remaining reader) (λ script. DoesOver N.remaining catalog_file.entry bytes next.entry.items (W.contents output.old) (W.contents output.new) (RunsScript D.is_clean D.is_sound D.kept S.is_clean S.is_sound S.kept file.entry script (W.contents output.old) (W.contents output.new)) result))) }
    ensures unread { IfErr input (λ error. IfSome (C.remaining catalog) (λ bytes. DoesOver N.remaining catalog_file.entry bytes next.entry.items (W.contents output.old) (W.contents output.new) (λ catalogues. IsUnopened file.entry) result)) }
    ensures idle { IfErr input (λ error. Keeps (W.contents output.old) (W.contents output.new)) }
{
    let chain = read_catalogs(alloc, catalog_file, catalog, next)?;
    match input {
        Ok(input) => run(
            rt, alloc, opener, manner, &chain, file, input, output, errors,
        ),
        Err(error) => Err(ChainFault::Program(ProgramFault::reading(file, &error))),
    }
}

/// Runs the script that `input` gives over a database of this chain: the whole script or none of it. Answers whether the
/// machines' histories were woven: over one catalogue, whether what they did was one run.
fn run<
    'a,
    H: Threads + Wait + Clock + Copy + Send + Sync + 'static,
    D: DeskStore + Send + Drop + 'static,
    S: SiteStore + Send + Drop + 'static,
    O: OpensStores<D, S>,
    P: Watches + Sync,
    R: Read + Drop,
    W: Write,
    E: Write,
>(
    rt: &H,
    alloc: Global,
    opener: &O,
    manner: &Manner<'_, P>,
    chain: &Chain,
    file: &'a str,
    input: R,
    output: &mut W,
    errors: &mut E,
) -> Result<bool, ChainFault<'a>>
    ensures { IfSome (R.remaining input) (λ script. RunsScript D.is_clean D.is_sound D.kept S.is_clean S.is_sound S.kept file.entry script (W.contents output.old) (W.contents output.new) (map catalogue_of chain.now) result) }
{
    let script = read_script(alloc, file, input)?;
    let parts = parts(alloc, script.as_slice())?;
    run_parts(
        rt,
        alloc,
        opener,
        manner,
        chain,
        parts.as_slice(),
        output,
        errors,
    )
}

/// Runs the parts of a script, each in a session of its own, and writes what is printed. Answers whether the machines' histories
/// were woven.
fn run_parts<
    'a,
    H: Threads + Wait + Clock + Copy + Send + Sync + 'static,
    D: DeskStore + Send + Drop + 'static,
    S: SiteStore + Send + Drop + 'static,
    O: OpensStores<D, S>,
    P: Watches + Sync,
    W: Write,
    E: Write,
>(
    rt: &H,
    alloc: Global,
    opener: &O,
    manner: &Manner<'_, P>,
    chain: &Chain,
    parts: &[Part<'_>],
    output: &mut W,
    errors: &mut E,
) -> Result<bool, ChainFault<'a>>
    ensures ok { IfOk result (λ is_woven. HasWritten D.is_clean D.is_sound D.kept S.is_clean S.is_sound S.kept (map catalogue_of chain.now) (map part_of parts.now) (W.contents output.old) (W.contents output.new) is_woven) }
    ensures err { IfErr result (StopsSessions (map catalogue_of chain.now) (W.contents output.old) (W.contents output.new)) }
{
    let stores = opener.open(alloc, chain)?;
    manner.watch.begin(commands_in(parts));
    let Ran {
        printed,
        is_woven,
        retries,
    } = run_over(rt, alloc, stores, manner, chain, parts)?;
    if manner.retry > 0 {
        // Where the standard error is closed nobody can be told.
        let _ = writeln!(errors, "fragdb: {retries} retries");
    }
    write_text(output, printed.as_str())?;
    Ok(is_woven)
}

/// How many commands parts have in all.
fn commands_in(parts: &[Part<'_>]) -> usize {
    parts.iter().fold(
        0,
        |all: usize, part| all.saturating_add(part.commands.len()),
    )
}

/// Runs the parts over a database of these stores, which is closed then.
fn run_over<
    'a,
    H: Threads + Wait + Clock + Copy + Send + Sync + 'static,
    D: DeskStore + Send + Drop + 'static,
    S: SiteStore + Send + Drop + 'static,
    P: Watches + Sync,
>(
    rt: &H,
    alloc: Global,
    stores: OpenStores<D, S>,
    manner: &Manner<'_, P>,
    chain: &Chain,
    parts: &[Part<'_>],
) -> Result<Ran, ChainFault<'a>>
    requires one_each { length stores.sites.items ≡ length (sites_of chain.now) }
    requires leaves { (first : Catalogue) (rest : List Catalogue) → map catalogue_of chain.now ≡ first ∷ rest → HaveLeaves S.is_clean S.kept first stores.sites.items }
    ensures ok { IfOk result (λ ran. HasRun D.is_clean D.is_sound D.kept S.is_clean S.is_sound S.kept (map catalogue_of chain.now) (map part_of parts.now) (string_bytes ran.printed) ran.is_woven) }
    ensures err { IfErr result (StopsRun (map catalogue_of chain.now)) }
{
    let Held {
        conversations,
        records,
    } = hold(rt, alloc, stores, manner, chain, parts)?;
    match conclude(alloc, chain, conversations.as_slice(), records)? {
        Some(ran) => Ok(ran),
        None => Err(ChainFault::Closed),
    }
}

/// What sessions said and heard, and the records of their database.
#[derive(Drop)]
struct Held<D: DeskStore, S: SiteStore> {
    conversations: Vec<Conversation>,
    records: Records<D, S>,
}

/// Opens a database over these stores, holds the conversations of all parts at once, and closes it.
fn hold<
    'a,
    H: Threads + Wait + Clock + Copy + Send + Sync + 'static,
    D: DeskStore + Send + Drop + 'static,
    S: SiteStore + Send + Drop + 'static,
    P: Watches + Sync,
>(
    rt: &H,
    alloc: Global,
    stores: OpenStores<D, S>,
    manner: &Manner<'_, P>,
    chain: &Chain,
    parts: &[Part<'_>],
) -> Result<Held<D, S>, ChainFault<'a>>
    requires one_each { length stores.sites.items ≡ length (sites_of chain.now) }
    requires leaves { (first : Catalogue) (rest : List Catalogue) → map catalogue_of chain.now ≡ first ∷ rest → HaveLeaves S.is_clean S.kept first stores.sites.items }
    ensures held { IfOk result (λ held. AreOfParts (map part_of parts.now) held.conversations.items) }
    ensures records { IfOk result (λ held. AreRecords D.is_clean D.is_sound D.kept S.is_clean S.is_sound S.kept held.records.machines held.records.catalogs.items held.records.opening held.records.entries.items held.records.pasts.items) }
    ensures err { IfErr result (StopsRun (map catalogue_of chain.now)) }
{
    let OpenStores { sites, desk } = stores;
    let database = match Database::open(rt, alloc, chain, sites, desk, Ungated) {
        Ok(database) => database,
        Err(fault) => return Err(unchained(chain, fault)),
    };
    let conversations = converse_at_once(rt, alloc, manner, &database, parts);
    let closed = database.close(rt);
    let conversations = match conversations {
        Ok(conversations) => conversations,
        Err(fault) => return Err(of_call(fault)),
    };
    match closed {
        Ok(closed) => Ok(Held {
            conversations,
            records: closed.records,
        }),
        Err(fault) => Err(of_call(fault)),
    }
}

/// What the fault of a session's call comes to, which ends a script.
fn of_call<'a>(fault: CallFault) -> ChainFault<'a>
    ensures of { result ≡ fault_of_call fault }
    ensures stops { (catalogues : List Catalogue) → StopsRun catalogues result }
{
    match fault {
        CallFault::Memory => ChainFault::Program(ProgramFault::Memory),
        CallFault::Store(fault) => ChainFault::Program(ProgramFault::Store { fault }),
        _ => ChainFault::Closed,
    }
}
