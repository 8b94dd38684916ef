//! The command `solo`: a script over a database of its own, of a chain of catalogues.

ghost use Rattle.std.specs.Prelude.{◌≡◌, ◌≤◌, ◌<◌, IfErr, IfOk, IfSome, IsErrAnd, length, map};
ghost use Rattle.std.specs.Io.KnownBytes.{Keeps};
ghost use Rattle.catalog.specs.Relation.{catalogue_of};
ghost use Rattle.lines.specs.Script.{task_of};
ghost use Rattle.databases.specs.CatalogFiles.{DoesOver, IsOfCatalogues, IsUnopened};
ghost use Rattle.databases.specs.Solo.{IsOfRead, IsOfRun, IsOfRunOver, IsRunOver, RunsOrStops, RunsScript, Stretches, longest};

use crate::catalog_files::{ChainFault, Source, read_catalogs};
use crate::database::Database;
use crate::opener::Opens;
use catalog::chain::Chain;
use forms::mode::Mode;
use lines::fault::ProgramFault;
use lines::input::read_up_to;
use lines::script::{Item, items};
use std::alloc::Global;
use std::io;
use std::io::{Read, Write};
use world::laws::{chain_is_listed, list_served_is_serial, moves_follow};

/// How many bytes a script may have.
pub const SCRIPT_LIMIT: u64 = 1_048_576;

/// Runs the script that `input` gives, which `file` names in a fault, over the catalogue that `catalog` gives, which
/// `catalog_file` names, and those that come next. The catalogues are read first.
pub fn solo_files<
    'a,
    B: Database + Drop,
    O: Opens<B>,
    C: Read + Drop,
    N: Read + Drop,
    R: Read + Drop,
    W: Write,
>(
    alloc: Global,
    opener: &O,
    mode: Mode,
    catalog_file: &'a str,
    catalog: C,
    next: Vec<Source<'a, N>>,
    file: &'a str,
    input: io::Result<R>,
    output: &mut W,
) -> Result<bool, ChainFault<'a>>
    ensures opened { IfSome (C.remaining catalog) (λ bytes. IfOk input (λ reader. IfSome (R.remaining reader) (λ script. DoesOver N.remaining catalog_file.entry bytes next.entry.items (W.contents output.old) (W.contents output.new) (RunsScript B.seen O.origin mode file.entry script (W.contents output.old) (W.contents output.new)) result))) }
    ensures unread { IfErr input (λ error. IfSome (C.remaining catalog) (λ bytes. DoesOver N.remaining catalog_file.entry bytes next.entry.items (W.contents output.old) (W.contents output.new) (λ catalogues. IsUnopened file.entry) result)) }
    ensures idle { IfErr input (λ error. IsErrAnd result (IsOfCatalogues next.entry.items) × Keeps (W.contents output.old) (W.contents output.new)) }
{
    let chain = read_catalogs(alloc, catalog_file, catalog, next)?;
    match input {
        Ok(input) => solo(alloc, opener, mode, &chain, file, input, output),
        Err(error) => Err(ChainFault::Program(ProgramFault::reading(file, &error))),
    }
}

/// Runs the script that `input` gives, which `file` names in a fault, over a new database of this chain: the whole script or
/// none of it. Writes the answers to `output`, and answers whether a line was refused. It writes often, and flushes once: give it
/// an output with a buffer.
pub fn solo<'a, B: Database + Drop, O: Opens<B>, R: Read + Drop, W: Write>(
    alloc: Global,
    opener: &O,
    mode: Mode,
    chain: &Chain,
    file: &'a str,
    input: R,
    output: &mut W,
) -> Result<bool, ChainFault<'a>>
    ensures { IfSome (R.remaining input) (λ script. RunsScript B.seen O.origin mode file.entry script (W.contents output.old) (W.contents output.new) (map catalogue_of chain.now) result) }
{
    let script = read_script(alloc, file, input)?;
    run_script(alloc, opener, mode, chain, script.as_slice(), output)
}

/// Runs a script of which all bytes were read.
fn run_script<'a, B: Database + Drop, O: Opens<B>, W: Write>(
    alloc: Global,
    opener: &O,
    mode: Mode,
    chain: &Chain,
    script: &[u8],
    output: &mut W,
) -> Result<bool, ChainFault<'a>>
    requires { length script.now ≤ longest }
    ensures { RunsOrStops B.seen O.origin mode (map catalogue_of chain.now) script.now (W.contents output.old) (W.contents output.new) result }
{
    let items = items(alloc, script)?;
    let outcome = run(alloc, opener, mode, chain, items.as_slice(), output);
    // What was answered before a fault goes out too.
    let flushed = output.flush();
    let any_refused = outcome?;
    flushed.map_err(|error| ProgramFault::writing(&error))?;
    Ok(any_refused)
}

/// All that `input` gives, unless it is too long for a script.
pub fn read_script<'a, R: Read + Drop>(
    alloc: Global,
    file: &'a str,
    input: R,
) -> Result<Vec<u8>, ProgramFault<'a>>
    ensures all { IfOk result (λ script. IfSome (R.remaining input) (λ bytes. script.items ≡ bytes)) }
    ensures short { IfOk result (λ script. length script.items ≤ longest) }
    ensures faults { IfErr result (IsOfRead file.entry) }
    ensures too_long { result ≡ Err ProgramFault.ScriptTooLong → IfSome (R.remaining input) (λ bytes. longest < length bytes) }
{
    // One byte more than there may be shows that there are too many.
    let script = read_up_to(alloc, file, input, SCRIPT_LIMIT + 1)?;
    if script.len() as u64 > SCRIPT_LIMIT {
        return Err(ProgramFault::ScriptTooLong);
    }
    Ok(script)
}

/// Runs the items in order over a new database, and writes each answer. Answers whether a line was refused.
fn run<'a, B: Database + Drop, O: Opens<B>, W: Write>(
    alloc: Global,
    opener: &O,
    mode: Mode,
    chain: &Chain,
    items: &[Item<'_>],
    output: &mut W,
) -> Result<bool, ChainFault<'a>>
    ensures ok { IfOk result (IsRunOver B.seen O.origin mode (map catalogue_of chain.now) (map task_of items.now) (W.contents output.old) (W.contents output.new)) }
    ensures err { IfErr result (IsOfRunOver (map catalogue_of chain.now)) }
    ensures unchained { result ≡ Err ChainFault.Unchained → W.contents output.new ≡ W.contents output.old }
{
    chain_is_listed(chain);
    list_served_is_serial();
    let mut database = opener.open(alloc, chain)?;
    moves_follow(database.catalog());
    Ok(run_items(alloc, mode, &mut database, items, output)?)
}

/// Runs the items over this database.
pub fn run_items<'a, B: Database, W: Write>(
    alloc: Global,
    mode: Mode,
    database: &mut B,
    items: &[Item<'_>],
    output: &mut W,
) -> Result<bool, ProgramFault<'a>>
    ensures clean { B.seen.is_clean database.new → B.seen.is_clean database.old }
    ensures ok { IfOk result (λ any_refused. Stretches B.seen mode (map task_of items.now) (W.contents output.old) (W.contents output.new) database.old database.new any_refused) }
    ensures err { IfErr result IsOfRun }
{
    let mut any_refused = false;
    for item in items {
        let reply = database.answer(alloc, mode, *item)?;
        any_refused |= reply.is_refusal();
        output
            .write_all(reply.text().as_bytes())
            .map_err(|error| ProgramFault::writing(&error))?;
    }
    Ok(any_refused)
}
