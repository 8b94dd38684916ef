//! The files of the catalogues that come after the first, as the command line names them.

ghost use Rattle.std.specs.Prelude.{true, ◌≡◌, IfErr, IfOk, length, map, nat_le};
ghost use Rattle.clap.specs.Words.{kind_of, subcommand_rows_of};
ghost use Rattle.lines.specs.NextFiles.{IsTooMany, files_of};

use crate::help::TOO_MANY_NEXT;
use clap::error::ErrorKind;
use clap::{ArgMatches, Command, Error};
use std::alloc::{AllocError, Global};

/// How many catalogues may come after the first.
const NEXT_LIMIT: usize = 15;

/// The files that the words after a command name, in their order.
pub fn next_given<'a>(
    alloc: Global,
    command: &mut Command<'_>,
    matches: &ArgMatches<'a>,
) -> Result<Vec<&'a str>, Error>
    ensures files { IfOk result (λ files. map (λ file. file.now) files.items ≡ files_of (subcommand_rows_of matches.entry.now)) }
    ensures few { IfOk result (λ files. nat_le (length files.items) 15 ≡ true) }
    ensures misuse { IfErr result (λ error. IsTooMany (files_of (subcommand_rows_of matches.entry.now)) (kind_of error)) }
{
    let files = files_named(alloc, matches)?;
    if files.len() > NEXT_LIMIT {
        return Err(command.error(ErrorKind::TooManyValues, TOO_MANY_NEXT)?);
    }
    Ok(files)
}

/// The files that stand in these matches, however many.
fn files_named<'a>(alloc: Global, matches: &ArgMatches<'a>) -> Result<Vec<&'a str>, AllocError>
    ensures { IfOk result (λ files. map (λ file. file.now) files.items ≡ files_of (subcommand_rows_of matches.entry.now)) }
{
    let mut files = Vec::new(alloc);
    let Some((_, entered)) = matches.subcommand() else {
        return Ok(files);
    };
    let Some(named) = entered.get_strs("NEXT") else {
        return Ok(files);
    };
    files.extend_from_slice(named)?;
    Ok(files)
}
