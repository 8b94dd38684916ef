//! What was refused, explained: why, where, and what could stand there.

ghost use Rattle.std.specs.Prelude.{◌≡◌, None, OnOk};
ghost use Rattle.std.specs.Io.KnownBytes.{Keeps};
ghost use Rattle.reader.specs.Command.{IsTextOf};
ghost use Rattle.reader.specs.declared.command.Command.{Command as CommandOf};
ghost use Rattle.lines.specs.Explaining.{Explains, ExplainsOrKeeps, TellsCatalogue, TellsLine, TellsOrKeeps};

use crate::catalog_file::{CATALOG_LIMIT, read_catalog, text_of};
use crate::input::read_up_to;
use crate::outcome::Outcome;
use crate::script::{Item, Line, read_line};
use catalog::fault::CatFault;
use meaning::schema::Schema;
use reader::fault::{ReadFault, Rule};
use reader::read::read;
use shell::{catalogue, sentence};
use std::alloc::Global;
use std::io;
use std::io::{Read, Write};

/// Explains to `errors` what an outcome says was refused: the catalogue that `catalog` gives, which `file` names, or
/// lines of a script over it. Of what can't be read again nothing is said.
pub fn explain_outcome<C: Read + Drop, E: Write>(
    alloc: Global,
    outcome: &Outcome<'_>,
    file: &str,
    catalog: C,
    script: &[u8],
    errors: &mut E,
) -> io::Result<()>
    ensures done { outcome.now ≡ Outcome.Done → Keeps (E.contents errors.old) (E.contents errors.new) }
    ensures unchained { outcome.now ≡ Outcome.Unchained → Keeps (E.contents errors.old) (E.contents errors.new) }
    ensures stopped { (fault : _) → outcome.now ≡ Outcome.Stopped fault → Keeps (E.contents errors.old) (E.contents errors.new) }
{
    match outcome {
        Outcome::SomeRefused => match read_catalog(alloc, file, catalog) {
            Ok(catalog) => {
                let explained = explain_script(alloc, catalog.schema(), script, errors);
                drop(catalog);
                explained
            }
            Err(_) => Ok(()),
        },
        Outcome::Refused(fault) => {
            match read_up_to(alloc, file, catalog, CATALOG_LIMIT as u64 + 1) {
                Ok(bytes) => explain_catalogue(alloc, bytes.as_slice(), fault, errors),
                Err(_) => Ok(()),
            }
        }
        Outcome::Done | Outcome::Unchained | Outcome::Lost => Ok(()),
        Outcome::RefusedStatement(_) | Outcome::Stopped(_) => Ok(()),
    }
}

/// Explains to `errors` why the catalogue of these bytes is refused. Of bytes that are no text nothing is said.
fn explain_catalogue<E: Write>(
    alloc: Global,
    bytes: &[u8],
    fault: &CatFault,
    errors: &mut E,
) -> io::Result<()>
    ensures { OnOk result (TellsCatalogue bytes.now fault.now (E.contents errors.old) (E.contents errors.new)) }
{
    let Ok(text) = text_of(bytes) else {
        return Ok(());
    };
    let lines = catalogue::explain(alloc, text, fault)?;
    errors.write_all(lines.as_bytes())
}

/// Explains to `errors` each line of a script that is refused for its text.
fn explain_script<E: Write>(
    alloc: Global,
    schema: &Schema,
    script: &[u8],
    errors: &mut E,
) -> io::Result<()> {
    for (index, line) in script.split(|byte| *byte == b'\n').enumerate() {
        if let Line::Asks(Item::Statement(text)) = read_line(line) {
            explain_line(alloc, schema, index + 1, text, errors)?;
        }
    }
    Ok(())
}

/// Explains the statement of the line of this number, counted from 1, if it is refused for its text.
fn explain_line<E: Write>(
    alloc: Global,
    schema: &Schema,
    number: usize,
    text: &str,
    errors: &mut E,
) -> io::Result<()>
    // Nothing is written of the text of a command.
    ensures quiet { (command : CommandOf) → IsTextOf schema.now.relations text.now command → Keeps (E.contents errors.old) (E.contents errors.new) }
    ensures told { OnOk result (TellsOrKeeps number text.now (E.contents errors.old) (E.contents errors.new)) }
{
    match refusal_of(alloc, schema, text) {
        Some(fault) => tell_line(alloc, schema, number, text, &fault, errors),
        None => Ok(()),
    }
}

/// Explains why a text is refused, if it is.
pub fn explain_text<E: Write>(
    alloc: Global,
    schema: &Schema,
    text: &str,
    errors: &mut E,
) -> io::Result<()>
    // Nothing is written of the text of a command.
    ensures quiet { (command : CommandOf) → IsTextOf schema.now.relations text.now command → Keeps (E.contents errors.old) (E.contents errors.new) }
    ensures told { OnOk result (ExplainsOrKeeps text.now (E.contents errors.old) (E.contents errors.new)) }
{
    match refusal_of(alloc, schema, text) {
        Some(fault) => explain_fault(alloc, schema, text, &fault, errors),
        None => Ok(()),
    }
}

/// Writes why a text is refused.
pub fn explain_fault<E: Write>(
    alloc: Global,
    schema: &Schema,
    text: &str,
    fault: &ReadFault,
    errors: &mut E,
) -> io::Result<()>
    ensures { OnOk result (Explains text.now fault.now.offset (E.contents errors.old) (E.contents errors.new)) }
{
    let lines = sentence::explain(alloc, schema, text, fault)?;
    write!(errors, "{lines}")
}

/// Why a text is refused, if it is, and not for want of memory.
fn refusal_of(alloc: Global, schema: &Schema, text: &str) -> Option<ReadFault>
    ensures { (command : CommandOf) → IsTextOf schema.now.relations text.now command → result ≡ None }
{
    let fault = read(alloc, text, schema).err()?;
    match fault.rule() {
        Rule::Memory => None,
        _ => Some(fault),
    }
}

/// Writes the number of a line, and below it why its text is refused.
fn tell_line<E: Write>(
    alloc: Global,
    schema: &Schema,
    number: usize,
    text: &str,
    fault: &ReadFault,
    errors: &mut E,
) -> io::Result<()>
    ensures { OnOk result (TellsLine number text.now fault.now.offset (E.contents errors.old) (E.contents errors.new)) }
{
    let lines = sentence::explain(alloc, schema, text, fault)?;
    write!(errors, "line {number}:\n{lines}")
}
