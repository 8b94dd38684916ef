//! The words of the command line that bring data in, or take it out.

ghost use Rattle.std.specs.Prelude.{◌≡◌, ◌∷◌, [], IfErr, IfOk, Some, bytes_eq, codes, option_map};
ghost use Rattle.clap.specs.Matches.{first_value};
ghost use Rattle.clap.specs.Words.{found_of, kind_of};
ghost use Rattle.lines.specs.Usage.{IsNoCount, asked_import, asked_suggest, every_of, sites_of};

use crate::play_script::number;
use clap::error::ErrorKind;
use clap::{ArgMatches, Command, Error};
use forms::mode::Mode;
use std::alloc::{AllocError, Global};

/// How many sites a catalogue may be asked to have.
const SITES_LIMIT: u64 = 16;

/// How many rows a transaction may be asked to have.
const EVERY_LIMIT: u64 = 1_000_000;

/// To write the relation of this name as statements, or each where none is named, or the rows of that relation, of the database
/// of this catalogue, a file's name, or of one of the built-in catalogue, whose stores are in a folder.
#[derive(Clone, Copy)]
pub struct Dump<'a> {
    pub catalog: Option<&'a str>,
    pub relation: Option<&'a str>,
    /// The folder of its stores. Where there is none, its relations have no rows.
    pub dir: Option<&'a str>,
    /// How the rows of the relation are shown; statements are written where nothing is asked for.
    pub mode: Mode,
}

/// To insert the rows of this file of comma-separated values into the relation of this name, over the database of this catalogue, a
/// file's name, or of the built-in one, whose stores are in a folder.
#[derive(Clone, Copy)]
pub struct Import<'a> {
    pub catalog: Option<&'a str>,
    pub relation: &'a str,
    pub file: &'a str,
    /// The folder of its stores. Where there is none, the rows are gone at the end.
    pub dir: Option<&'a str>,
    /// How many rows a transaction has; all where it isn't said.
    pub every: Option<u64>,
}

impl Import<'_> {
    /// Whether the file is read from standard input.
    pub fn is_of_input(&self) -> bool
        ensures { result ≡ bytes_eq self.now.file.now (codes "-") }
    {
        self.file == "-"
    }
}

/// To suggest a catalogue for this file of comma-separated values, with this key, whose rows are split by this column over so many
/// sites.
#[derive(Clone, Copy)]
pub struct Suggest<'a> {
    pub file: &'a str,
    pub key: &'a str,
    pub rows: &'a str,
    pub sites: u64,
    /// The name of the relation. Where there is none, it is that of the file.
    pub name: Option<&'a str>,
}

impl Suggest<'_> {
    /// Whether the file is read from standard input.
    pub fn is_of_input(&self) -> bool
        ensures { result ≡ bytes_eq self.now.file.now (codes "-") }
    {
        self.file == "-"
    }
}

/// What the words after `import` ask for, which name this relation and this file.
pub fn import_given<'a>(
    alloc: Global,
    command: &mut Command<'_>,
    import: &ArgMatches<'a>,
    relation: &'a str,
    file: &'a str,
) -> Result<Import<'a>, Error>
    ensures asks { IfOk result (λ asked. asked_import asked ≡ (codes "import", (codes "CATALOG", first_value (found_of import.entry.now) (codes "CATALOG")) ∷ (codes "RELATION", Some relation.entry.now) ∷ (codes "FILE", Some file.entry.now) ∷ (codes "DIR", first_value (found_of import.entry.now) (codes "DIR")) ∷ [])) }
    ensures every { IfOk result (λ asked. every_of (first_value (found_of import.entry.now) (codes "ROWS")) ≡ Some asked.every) }
    ensures misuse { IfErr result (λ error. IsNoCount (found_of import.entry.now) (kind_of error)) }
{
    let word = import.get_str("ROWS");
    let Some(every) = every_given(word) else {
        return Err(no_count(alloc, command, word)?);
    };
    Ok(Import {
        catalog: import.get_str("CATALOG"),
        relation,
        file,
        dir: import.get_str("DIR"),
        every,
    })
}

/// What the words after `suggest` ask for, which name this file and these columns.
pub fn suggest_given<'a>(
    alloc: Global,
    command: &mut Command<'_>,
    suggest: &ArgMatches<'a>,
    file: &'a str,
    key: &'a str,
    rows: &'a str,
) -> Result<Suggest<'a>, Error>
    ensures asks { IfOk result (λ asked. asked_suggest asked ≡ (codes "suggest", (codes "FILE", Some file.entry.now) ∷ (codes "KEY", Some key.entry.now) ∷ (codes "COLUMN", Some rows.entry.now) ∷ (codes "NAME", first_value (found_of suggest.entry.now) (codes "NAME")) ∷ [])) }
    ensures sites { IfOk result (λ asked. sites_of (first_value (found_of suggest.entry.now) (codes "SITES")) ≡ Some asked.sites) }
{
    let word = suggest.get_str("SITES");
    let Some(sites) = sites_given(word) else {
        return Err(no_sites(alloc, command, word)?);
    };
    Ok(Suggest {
        file,
        key,
        rows,
        sites,
        name: suggest.get_str("NAME"),
    })
}

/// How many sites there are to be, by the word for it; two, where there is none.
fn sites_given(word: Option<&str>) -> Option<u64>
    ensures { result ≡ sites_of (option_map (λ word. word.now) word.entry) }
{
    let Some(word) = word else {
        return Some(2);
    };
    let sites = number(word)?;
    if 1 <= sites && sites <= SITES_LIMIT {
        Some(sites)
    } else {
        None
    }
}

/// The fault of a word that is no number of sites.
fn no_sites(
    alloc: Global,
    command: &mut Command<'_>,
    word: Option<&str>,
) -> Result<Error, AllocError>
    ensures { IfOk result (λ error. kind_of error ≡ ErrorKind.InvalidValue) }
{
    let word = word.unwrap_or("");
    let message = format!(in alloc;
        "invalid value '{word}' for '--sites <SITES>': not a number from 1 to {SITES_LIMIT}"
    )?;
    command.error(ErrorKind::InvalidValue, message.as_str())
}

/// How many rows a transaction has, by the word for it; all, where there is none.
fn every_given(word: Option<&str>) -> Option<Option<u64>>
    ensures { result ≡ every_of (option_map (λ word. word.now) word.entry) }
{
    let Some(word) = word else {
        return Some(None);
    };
    let every = number(word)?;
    if 1 <= every && every <= EVERY_LIMIT {
        Some(Some(every))
    } else {
        None
    }
}

/// The fault of a word that is no number of rows.
fn no_count(
    alloc: Global,
    command: &mut Command<'_>,
    word: Option<&str>,
) -> Result<Error, AllocError>
    ensures { IfOk result (λ error. kind_of error ≡ ErrorKind.InvalidValue) }
{
    let word = word.unwrap_or("");
    let message = format!(in alloc;
        "invalid value '{word}' for '--every <ROWS>': not a number from 1 to {EVERY_LIMIT}"
    )?;
    command.error(ErrorKind::InvalidValue, message.as_str())
}
