//! The shell's word for the catalogue in force.

ghost use Rattle.std.specs.Prelude.{◌≡◌, IfErr, OnOk, map};
ghost use Rattle.std.specs.Io.KnownBytes.{Appends};
ghost use Rattle.commands.specs.CatalogWord as spec;
ghost use Rattle.commands.specs.CatalogWord.{in_force_text};
ghost use Rattle.commands.specs.Session.{Talks};
ghost use Rattle.databases.specs.Solo.{IsOfRun};

use crate::session_word::Turn;
use databases::database::Database;
use lines::fault::ProgramFault;
use lines::listing::catalog_text;
use lines::written::write_text;
use std::alloc::Global;
use std::io::Write;

/// The name of the catalogue of this number, counted from 1; nothing where there is none.
pub fn name_at<'n>(names: &[&'n str], number: u64) -> &'n str
    ensures { result.now ≡ spec.name_at (map (λ name. name.now) names.now) number }
{
    let Some(place) = number.checked_sub(1) else {
        return "";
    };
    match names.get(place as usize) {
        Some(name) => name,
        None => "",
    }
}

/// Tells the number of the catalogue in force, how many names there are, and its own.
pub fn take_catalog<'a, B: Database, W: Write>(
    alloc: Global,
    database: &B,
    names: &[&str],
    output: &mut W,
) -> Result<Turn, ProgramFault<'a>>
    ensures ok { OnOk result (Talks B.seen (W.contents output.old) (W.contents output.new) database.now database.now) }
    ensures told { OnOk result (Appends (W.contents output.old) (W.contents output.new) (in_force_text (map (λ name. name.now) names.now) (B.seen.version database.now))) }
    ensures err { IfErr result IsOfRun }
{
    let number = database.version();
    let name = name_at(names, number);
    let text = catalog_text(alloc, number, names.len() as u64, name)?;
    write_text(output, text.as_str())?;
    Ok(Turn::GoesOn)
}
