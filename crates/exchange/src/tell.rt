//! What is wrong with a file, told to a person.

use crate::line_fault::{LineFault, LineWhat};
use crate::order::HeaderFault;
use crate::row::RowFault;
use crate::suggest_fault::SuggestFault;
use meaning::schema::RelationSchema;
use std::alloc::Global;
use std::io;
use terms::memory::Memory;

/// A sentence on a fault of a relation's file: the line, the column, and why; without a line feed. It is for a person's eyes, so no
/// clause says it.
pub fn tell(alloc: Global, relation: &RelationSchema, fault: &LineFault) -> Result<String, Memory> {
    let line = fault.line;
    let refused = refused(fault);
    let text = match &fault.what {
        LineWhat::Empty => {
            let name = &relation.name;
            format!(in alloc; "no line with the names of the columns of {name}")?
        }
        LineWhat::Header(why) => {
            let why = header(alloc, relation, *why, refused)?;
            format!(in alloc; "line {line}: {why}")?
        }
        LineWhat::Length { found, first } => other_length(alloc, line, *found, *first)?,
        LineWhat::Row(RowFault::Count(found)) => {
            let fields = counted(alloc, *found as u64, "field")?;
            let columns = relation.columns.as_slice().len();
            format!(in alloc; "line {line}: {fields} for {columns} columns")?
        }
        LineWhat::Row(RowFault::Field(number, why)) => {
            let column = column(relation, *number);
            format!(in alloc; "line {line}, column {column}: '{refused}' {why}")?
        }
        LineWhat::Io(error) => unread(alloc, error)?,
        LineWhat::Row(RowFault::Memory) | LineWhat::Memory => {
            String::from_str(alloc, "out of memory")?
        }
    };
    Ok(text)
}

fn refused(fault: &LineFault) -> &str {
    match &fault.refused {
        Some(text) => text.as_str(),
        None => "",
    }
}

/// A sentence on why no catalogue is suggested for a file, of which the columns of these names were to be the key and the
/// one by which rows are split; without a line feed. It is for a person's eyes, so no clause says it.
pub fn tell_suggestion(
    alloc: Global,
    key: &str,
    split: &str,
    fault: &SuggestFault,
) -> Result<String, Memory> {
    let text = match fault {
        SuggestFault::Empty => String::from_str(alloc, "no line with the names of columns")?,
        SuggestFault::Name(place) => {
            let number = place.saturating_add(1);
            format!(in alloc;
                "line 1: the name of column {number} is none that a statement can have"
            )?
        }
        SuggestFault::Twice(place) => {
            let number = place.saturating_add(1);
            format!(in alloc; "line 1: the name of column {number} stands before it already")?
        }
        SuggestFault::NoKey => format!(in alloc; "line 1: no column named {key}")?,
        SuggestFault::NoSplit => format!(in alloc; "line 1: no column named {split}")?,
        SuggestFault::Key(line) => format!(in alloc;
            "line {line}: {key} is no integer of 64 bits"
        )?,
        SuggestFault::KeyTwice(number) => format!(in alloc; "{key} is {number} in two lines")?,
        SuggestFault::Field { line, place, fault } => {
            let number = place.saturating_add(1);
            format!(in alloc; "line {line}: the field of column {number} {fault}")?
        }
        SuggestFault::Line(fault) => unread_line(alloc, fault)?,
        SuggestFault::Catalogue(fault) => format!(in alloc; "the catalogue would be {fault}")?,
        SuggestFault::Sites => String::from_str(alloc, "there may be 1 to 16 sites")?,
        SuggestFault::Relation => String::from_str(alloc, "a statement can have no such name")?,
        SuggestFault::Memory => String::from_str(alloc, "out of memory")?,
    };
    Ok(text)
}

/// Why a line was not read.
fn unread_line(alloc: Global, fault: &LineFault) -> Result<String, Memory> {
    match &fault.what {
        LineWhat::Length { found, first } => other_length(alloc, fault.line, *found, *first),
        LineWhat::Io(error) => unread(alloc, error),
        _ => Ok(String::from_str(alloc, "out of memory")?),
    }
}

fn other_length(alloc: Global, line: u64, found: u64, first: u64) -> Result<String, Memory> {
    let fields = counted(alloc, found, "field")?;
    Ok(format!(in alloc; "line {line}: {fields} where the first line has {first}")?)
}

fn unread(alloc: Global, error: &io::Error) -> Result<String, Memory> {
    Ok(format!(in alloc; "cannot be read: {error}")?)
}

/// What is wrong with the names in the first line.
fn header(
    alloc: Global,
    relation: &RelationSchema,
    why: HeaderFault,
    refused: &str,
) -> Result<String, Memory> {
    let name = &relation.name;
    let text = match why {
        HeaderFault::Unknown(_) => format!(in alloc; "{name} has no column named '{refused}'")?,
        HeaderFault::Twice(_) => format!(in alloc; "the column {refused} stands there twice")?,
        HeaderFault::Lacking(number) => {
            let column = column(relation, number);
            format!(in alloc; "the column {column} does not stand there")?
        }
        HeaderFault::Memory => String::from_str(alloc, "out of memory")?,
    };
    Ok(text)
}

/// The name of a column.
fn column(relation: &RelationSchema, number: usize) -> &str {
    match relation.columns.as_slice().get(number) {
        Some(column) => column.name.as_str(),
        None => "",
    }
}

/// A number of things.
fn counted(alloc: Global, number: u64, thing: &str) -> Result<String, Memory> {
    let plural = if number == 1 { "" } else { "s" };
    Ok(format!(in alloc; "{number} {thing}{plural}")?)
}
