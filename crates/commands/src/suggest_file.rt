//! A catalogue that is suggested for a file of comma-separated values.

ghost use Rattle.std.specs.Prelude.{◌≡◌, false, true, IfOk};
ghost use Rattle.commands.specs.SuggestFile.{HasSuggested};

use crate::session_word::tell;
use exchange::line_fault::LineWhat;
use exchange::suggest_fault::SuggestFault;
use exchange::suggestion::suggest;
use exchange::tell::tell_suggestion;
use lines::fault::ProgramFault;
use lines::written::write_text;
use std::alloc::Global;
use std::io;
use std::io::{Read, Write};

/// Writes a catalogue of one relation of this name for the file that `input` gives, which `file` names: with this key, its rows split
/// by quantiles of a column over so many sites. Tells on `errors` why there is none. Answers whether it was refused.
pub fn suggest_file<'a, R: Read + Drop, W: Write, E: Write>(
    alloc: Global,
    file: &'a str,
    input: io::Result<R>,
    relation: &str,
    key: &str,
    split: &str,
    sites: usize,
    output: &mut W,
    errors: &mut E,
) -> Result<bool, ProgramFault<'a>>
    ensures { IfOk input (λ reader. IfOk result (λ is_refused. is_refused ≡ false → HasSuggested (R.remaining reader) relation.now key.now sites (W.contents output.old) (W.contents output.new))) }
{
    match input {
        Ok(input) => suggest_over(
            alloc, file, input, relation, key, split, sites, output, errors,
        ),
        Err(error) => Err(ProgramFault::reading(file, &error)),
    }
}

/// Writes one for a file that was opened.
fn suggest_over<'a, R: Read + Drop, W: Write, E: Write>(
    alloc: Global,
    file: &'a str,
    input: R,
    relation: &str,
    key: &str,
    split: &str,
    sites: usize,
    output: &mut W,
    errors: &mut E,
) -> Result<bool, ProgramFault<'a>>
    ensures { IfOk result (λ is_refused. is_refused ≡ false → HasSuggested (R.remaining input) relation.now key.now sites (W.contents output.old) (W.contents output.new)) }
{
    match suggest(alloc, relation, key, split, sites, input) {
        Ok(text) => {
            write_text(output, text.as_str())?;
            Ok(false)
        }
        Err(fault) => refuse(alloc, file, key, split, &fault, errors),
    }
}

/// Tells why there is no catalogue, and answers that it was refused; that memory ran out is the program's fault. Nothing is claimed of
/// what stands on the standard error.
fn refuse<'a, E: Write>(
    alloc: Global,
    file: &'a str,
    key: &str,
    split: &str,
    fault: &SuggestFault,
    errors: &mut E,
) -> Result<bool, ProgramFault<'a>>
    ensures { IfOk result (λ is_refused. is_refused ≡ true) }
{
    match fault {
        SuggestFault::Memory => return Err(ProgramFault::Memory),
        SuggestFault::Line(line) => match &line.what {
            LineWhat::Memory => return Err(ProgramFault::Memory),
            LineWhat::Io(error) => return Err(ProgramFault::reading(file, error)),
            _ => {}
        },
        _ => {}
    }
    let why = tell_suggestion(alloc, key, split, fault)?;
    let text = format!(in alloc; "{file}: {why}\n")?;
    tell(errors, text.as_str());
    Ok(true)
}

/// The name of a file's relation: that of the file without its folders, up to its first dot. It stands in for a name that isn't given,
/// so no clause says it.
pub fn relation_of(file: &str) -> &str {
    let name = match file.rsplit_once('/') {
        Some((_, name)) => name,
        None => file,
    };
    match name.split_once('.') {
        Some((front, _)) => front,
        None => name,
    }
}
