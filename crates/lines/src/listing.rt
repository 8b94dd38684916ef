//! What is told of a catalogue to a person who asks: its place among others, its relations and their columns.

ghost use Rattle.std.specs.Prelude.{◌≡◌, ◌++◌, codes, IfOk, OnOk, string_bytes};
ghost use Rattle.catalog.specs.Catalogue.{kind_word};
ghost use Rattle.catalog.specs.FragmentLeaf.{schemas_of};
ghost use Rattle.catalog.specs.Relation.{catalogue_of};
ghost use Rattle.lines.specs.Listing as spec;
ghost use Rattle.lines.specs.Listing.{column_text, schema_line, where_asked};
ghost use Rattle.reader.specs.PrintStatement.{separated_bytes};

use catalog::catalogue::Catalog;
use meaning::schema::{Column, RelationSchema};
use std::alloc::Global;
use terms::memory::Memory;
use terms::value::Kind;

/// Which of so many catalogues is in force, by its number, and what its file is called.
pub fn catalog_text(alloc: Global, number: u64, count: u64, name: &str) -> Result<String, Memory>
    ensures { IfOk result (λ text. string_bytes text ≡ spec.catalog_text number count name.now) }
{
    let mut text = String::new(alloc);
    writeln!(text, "catalogue {number} of {count}, {name}")?;
    Ok(text)
}

/// The name of each relation in a line.
pub fn tables_text(alloc: Global, catalog: &Catalog) -> Result<String, Memory>
    ensures { IfOk result (λ text. string_bytes text ≡ spec.tables_text (catalogue_of catalog.now)) }
{
    let mut text = String::new(alloc);
    for relation in catalog.schema().relations.as_slice() {
        writeln!(text, "{}", relation.name)?;
    }
    Ok(text)
}

/// The relation of this name with its columns, in a line. Where no name is given, each relation.
pub fn schema_text(alloc: Global, catalog: &Catalog, asked: &str) -> Result<String, Memory>
    ensures { IfOk result (λ text. string_bytes text ≡ spec.schema_text (catalogue_of catalog.now) asked.now) }
{
    let mut text = String::new(alloc);
    for relation in catalog.schema().relations.as_slice() {
        put_schema_asked(&mut text, asked, relation)?;
    }
    Ok(text)
}

/// Whether this is asked for: all is, where no name is given.
pub fn is_asked(asked: &str, name: &str) -> bool
    ensures { result ≡ spec.is_asked asked.now name.now }
{
    asked.is_empty() || name == asked
}

/// A relation's line, where it is asked for.
fn put_schema_asked(out: &mut String, asked: &str, relation: &RelationSchema) -> Result<(), Memory>
    ensures { OnOk result (string_bytes out.new ≡ string_bytes out.old ++ where_asked (spec.is_asked asked.now relation.now.name) (schema_line relation.now)) }
{
    if is_asked(asked, relation.name.as_str()) {
        put_schema(out, relation)?;
    }
    Ok(())
}

/// A relation with its columns, in a line.
pub fn put_schema(out: &mut String, relation: &RelationSchema) -> Result<(), Memory>
    ensures { OnOk result (string_bytes out.new ≡ string_bytes out.old ++ schema_line relation.now) }
{
    write!(out, "{} (", relation.name)?;
    put_columns(out, relation.columns.as_slice())?;
    out.push_str(")\n")?;
    Ok(())
}

fn put_columns(out: &mut String, columns: &[Column]) -> Result<(), Memory>
    ensures { OnOk result (string_bytes out.new ≡ string_bytes out.old ++ separated_bytes column_text (codes ", ") columns.now) }
{
    let Some((first, others)) = columns.split_first() else {
        return Ok(());
    };
    put_column(out, first)?;
    for column in others {
        out.push_str(", ")?;
        put_column(out, column)?;
    }
    Ok(())
}

/// A column with its type.
pub fn put_column(out: &mut String, column: &Column) -> Result<(), Memory>
    ensures { OnOk result (string_bytes out.new ≡ string_bytes out.old ++ column_text column.now) }
{
    write!(out, "{} {}", column.name, kind_word(column.kind))?;
    Ok(())
}

/// The word of a type.
fn kind_word(kind: Kind) -> &'static str
    ensures { result.now ≡ kind_word kind }
{
    match kind {
        Kind::Int => "int",
        Kind::Text => "text",
    }
}
