//! A session over the catalogues of files, with the lines of one.

ghost use Rattle.std.specs.Prelude.{◌≡◌, ◌∷◌, IfOk, IfSome, map};
ghost use Rattle.catalog.specs.Relation.{catalogue_of};
ghost use Rattle.databases.specs.CatalogFiles.{DoesOver};
ghost use Rattle.commands.specs.Session.{RunsSession};

use crate::session::session;
use crate::texts::OpensText;
use catalog::chain::Chain;
use databases::catalog_files::{ChainFault, Source, read_catalogs};
use databases::database::Database;
use databases::opener::Opens;
use forms::mode::Mode;
use lines::fault::ProgramFault;
use std::alloc::Global;
use std::io;
use std::io::{BufReader, Read, Write};
use std::time::Clock;
use terms::memory::Memory;

/// Answers what `input` gives, line by line, over a new database of the catalogue that `catalog` gives and those that come next.
/// `file` and `catalog_file` name the first two in a fault. The catalogues are read first.
pub fn session_files<
    'a,
    B: Database + Drop,
    O: Opens<B>,
    K: Clock + OpensText<T>,
    T: Read + Drop,
    C: Read + Drop,
    N: Read + Drop,
    R: Read + Drop,
    W: Write,
    E: Write,
>(
    alloc: Global,
    opener: &O,
    host: &K,
    mode: Mode,
    catalog_file: &'a str,
    catalog: C,
    next: Vec<Source<'a, N>>,
    file: &'a str,
    input: io::Result<R>,
    output: &mut W,
    errors: &mut E,
) -> Result<(), ChainFault<'a>>
    ensures { IfSome (C.remaining catalog) (λ bytes. DoesOver N.remaining catalog_file.entry bytes next.entry.items (W.contents output.old) (W.contents output.new) (RunsSession B.seen O.origin file.entry (W.contents output.old) (W.contents output.new)) result) }
{
    let names = names_of(alloc, catalog_file, next.as_slice())?;
    let chain = read_catalogs(alloc, catalog_file, catalog, next)?;
    open_session(
        alloc,
        opener,
        host,
        mode,
        &chain,
        names.as_slice(),
        file,
        input,
        output,
        errors,
    )
}

/// What catalogues are called, in their order: the first one, and those that come next.
pub fn names_of<'a, N>(
    alloc: Global,
    first: &'a str,
    next: &[Source<'a, N>],
) -> Result<Vec<&'a str>, Memory>
    ensures { IfOk result (λ names. map (λ name. name.now) names.items ≡ first.entry.now ∷ map (λ source. source.file.now) next.now) }
{
    let mut names = Vec::new(alloc);
    names.push(first)?;
    for source in next {
        names.push(source.file)?;
    }
    Ok(names)
}

/// Answers what `input` gives, if it could be opened.
fn open_session<
    'a,
    B: Database + Drop,
    O: Opens<B>,
    K: Clock + OpensText<T>,
    T: Read + Drop,
    R: Read + Drop,
    W: Write,
    E: Write,
>(
    alloc: Global,
    opener: &O,
    host: &K,
    mode: Mode,
    chain: &Chain,
    names: &[&str],
    file: &'a str,
    input: io::Result<R>,
    output: &mut W,
    errors: &mut E,
) -> Result<(), ChainFault<'a>>
    ensures { RunsSession B.seen O.origin file.entry (W.contents output.old) (W.contents output.new) (map catalogue_of chain.now) result }
{
    let input = input.map_err(|error| ProgramFault::reading(file, &error))?;
    let mut input = BufReader::new(alloc, input).map_err(|error| ProgramFault::reading(
        file, &error,
    ))?;
    session(
        alloc, opener, host, mode, chain, names, file, &mut input, output, errors,
    )
}
