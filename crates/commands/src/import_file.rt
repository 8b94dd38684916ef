//! A file of comma-separated values, whose rows are inserted into a relation.

ghost use Rattle.std.specs.Prelude.{◌≡◌, ◌<◌, IfErr, IfOk, IfSome, OnOk, length, string_bytes};
ghost use Rattle.std.specs.Io.KnownBytes.{Appends};
ghost use Rattle.catalog.specs.Relation.{catalogue_of};
ghost use Rattle.commands.specs.Import as imports;
ghost use Rattle.commands.specs.ImportFile.{HasInserted, ImportsFile, ImportsOver};
ghost use Rattle.commands.specs.ImportFile as spec;
ghost use Rattle.databases.specs.Solo.{IsOfRun};

use crate::import::{Imported, import};
use crate::row_progress::RowProgress;
use crate::session_word::tell;
use catalog::catalogue::Catalog;
use databases::database::Database;
use databases::opener::{Opens, open_alone};
use exchange::file::rows;
use exchange::line_fault::{LineFault, LineWhat};
use lines::catalog_file::{CatalogFault, read_catalog};
use lines::fault::ProgramFault;
use lines::written::write_text;
use meaning::schema::RelationSchema;
use std::alloc::Global;
use std::io;
use std::io::{Read, Write};
use terms::memory::Memory;
use terms::row::Row;
use terms::value::Value;
use world::laws::moves_follow;

/// Inserts the rows of the file that `input` gives, which `file` names, into the relation of this name, over the catalogue that
/// `catalog` gives, which `catalog_file` names: so many in a transaction, or all in one where no number is given. The file is read to
/// its end first. Tells on `output` how many rows are committed, by `progress` how far it is, and on `errors` what is wrong.
/// Answers whether something was refused.
pub fn import_files<
    'a,
    B: Database + Drop,
    O: Opens<B>,
    C: Read + Drop,
    R: Read + Drop,
    W: Write,
    E: Write,
>(
    alloc: Global,
    opener: &O,
    catalog_file: &'a str,
    catalog: C,
    relation: &str,
    file: &'a str,
    input: io::Result<R>,
    many: Option<u64>,
    progress: &mut RowProgress<'_>,
    output: &mut W,
    errors: &mut E,
) -> Result<bool, CatalogFault<'a>>
    ensures { IfSome (C.remaining catalog) (λ bytes. IfOk input (λ reader. ImportsFile B.seen O.origin R.remaining bytes relation.now reader many (W.contents output.old) (W.contents output.new) result)) }
{
    match read_catalog(alloc, catalog_file, catalog) {
        Ok(catalog) => match import_over(
            alloc, opener, &catalog, relation, file, input, many, progress, output, errors,
        ) {
            Ok(is_refused) => Ok(is_refused),
            Err(fault) => Err(CatalogFault::Program(fault)),
        },
        Err(fault) => Err(fault),
    }
}

/// Inserts the rows of a file over this catalogue.
fn import_over<'a, B: Database + Drop, O: Opens<B>, R: Read + Drop, W: Write, E: Write>(
    alloc: Global,
    opener: &O,
    catalog: &Catalog,
    relation: &str,
    file: &'a str,
    input: io::Result<R>,
    many: Option<u64>,
    progress: &mut RowProgress<'_>,
    output: &mut W,
    errors: &mut E,
) -> Result<bool, ProgramFault<'a>>
    ensures { IfOk input (λ reader. IfOk result (ImportsOver B.seen O.origin R.remaining (catalogue_of catalog.now) relation.now reader many (W.contents output.old) (W.contents output.new))) }
{
    let Some(schema) = catalog.schema().relation(relation.as_bytes()) else {
        let text = format!(in alloc; "no relation {relation}\n")?;
        tell(errors, text.as_str());
        return Ok(true);
    };
    let input = input.map_err(|error| ProgramFault::reading(file, &error))?;
    match rows(alloc, schema, input) {
        Ok(rows) => insert_all(
            alloc,
            opener,
            catalog,
            schema,
            rows.as_slice(),
            many,
            progress,
            output,
            errors,
        ),
        Err(fault) => {
            tell_line(alloc, schema, file, &fault, errors)?;
            Ok(true)
        }
    }
}

/// Inserts these rows over a database of this catalogue. Answers whether a command was refused, at which it was cut short.
fn insert_all<'a, B: Database + Drop, O: Opens<B>, W: Write, E: Write>(
    alloc: Global,
    opener: &O,
    catalog: &Catalog,
    relation: &RelationSchema,
    rows: &[Row],
    many: Option<u64>,
    progress: &mut RowProgress<'_>,
    output: &mut W,
    errors: &mut E,
) -> Result<bool, ProgramFault<'a>>
    ensures { IfOk result (λ is_cut. HasInserted B.seen O.origin (catalogue_of catalog.now) relation.now.name rows.now many is_cut (W.contents output.old) (W.contents output.new)) }
{
    moves_follow(catalog);
    let mut database = open_alone(alloc, opener, catalog)?;
    let many = many_of(many, rows);
    match import(alloc, &mut database, relation, rows, many, progress)? {
        Imported::All => {
            tell_count(alloc, rows.len(), output)?;
            Ok(false)
        }
        Imported::Until {
            row,
            committed,
            reply,
        } => {
            tell_count(alloc, committed, output)?;
            tell_row(alloc, rows, row, reply.text(), errors)?;
            Ok(true)
        }
    }
}

/// How many rows a transaction has: as many as are asked for, or all where that isn't said.
pub fn many_of(many: Option<u64>, rows: &[Row]) -> usize
    ensures some { 0 < result }
    ensures is { result ≡ spec.many_of many (length rows.now) }
{
    let all = rows.len().max(1);
    match many {
        Some(many) => (many.min(all as u64) as usize).max(1),
        None => all,
    }
}

/// Tells how many rows are committed.
pub(crate) fn tell_count<'a, W: Write>(
    alloc: Global,
    count: usize,
    output: &mut W,
) -> Result<(), ProgramFault<'a>>
    ensures told { OnOk result (Appends (W.contents output.old) (W.contents output.new) (imports.imported_text count)) }
    ensures err { IfErr result IsOfRun }
{
    let text = imported_text(alloc, count)?;
    write_text(output, text.as_str())
}

/// How many rows were imported.
pub fn imported_text(alloc: Global, count: usize) -> Result<String, Memory>
    ensures { IfOk result (λ text. string_bytes text ≡ imports.imported_text count) }
{
    match count {
        1 => Ok(String::from_str(alloc, "imported 1 row\n")?),
        _ => Ok(format!(in alloc; "imported {count} rows\n")?),
    }
}

/// Tells what was answered in place of a row that is inserted. Nothing is claimed of what stands on the standard error.
pub fn tell_row<E: Write>(
    alloc: Global,
    rows: &[Row],
    at: usize,
    reply: &str,
    errors: &mut E,
) -> Result<(), Memory> {
    let number = at.saturating_add(1);
    let text = match rows.get(at).and_then(|row| row.values().first()) {
        Some(Value::Int(key)) => format!(in alloc; "row {number}, with the key {key}: {reply}")?,
        _ => format!(in alloc; "the last transaction: {reply}")?,
    };
    tell(errors, text.as_str());
    Ok(())
}

/// Tells what is wrong with a line of a file; that memory ran out is the program's fault. Nothing is claimed of what stands on the
/// standard error.
pub fn tell_line<'a, E: Write>(
    alloc: Global,
    relation: &RelationSchema,
    file: &'a str,
    fault: &LineFault,
    errors: &mut E,
) -> Result<(), ProgramFault<'a>> {
    match &fault.what {
        LineWhat::Memory => Err(ProgramFault::Memory),
        LineWhat::Io(error) => Err(ProgramFault::reading(file, error)),
        _ => {
            let why = exchange::tell::tell(alloc, relation, fault)?;
            let text = format!(in alloc; "{file}: {why}\n")?;
            tell(errors, text.as_str());
            Ok(())
        }
    }
}
