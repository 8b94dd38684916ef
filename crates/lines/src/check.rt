//! The command `check`: whether a file is a catalogue, and its fragments.

ghost use Rattle.std.specs.Prelude.{◌≡◌, ◌<◌, ◌⊎◌, ◌∷◌, ◌++◌, [], codes, map, string_bytes, IfErr, IfOk, IfSome, OnOk};
ghost use Rattle.std.specs.Io.KnownBytes.{Appends};
ghost use Rattle.catalog.specs.Relation.{catalogue_of};
ghost use Rattle.reader.specs.PrintStatement.{separated_bytes};
ghost use Rattle.reader.specs.Written.{name_in};
ghost use Rattle.lines.specs.Check as spec;
ghost use Rattle.lines.specs.Check.{ChecksFile, IsWriteFault, accepted_line, leaf_line, leaf_lines, leaf_told, names_of_columns, where_text};

use crate::catalog_file::{CatalogFault, read_catalog};
use crate::fragment_tree::put_trees;
use crate::written;
use catalog::catalogue::Catalog;
use catalog::fragment_leaf::FragmentLeaf;
use meaning::schema::{Column, Schema};
use reader::print_statement::print_conds;
use std::alloc::Global;
use std::io::{Read, Write};
use terms::cond::Conds;
use terms::memory::Memory;
use terms::text::Text;

/// Checks the catalogue that `input` gives, which `file` names in a fault: where it is accepted, its
/// counts and its fragments, as lines or as trees, are written to `output`, and else nothing is.
pub fn check<'a, R: Read + Drop, W: Write>(
    alloc: Global,
    file: &'a str,
    tree: bool,
    input: R,
    output: &mut W,
) -> Result<(), CatalogFault<'a>>
    ensures { IfSome (R.remaining input) (λ bytes. ChecksFile tree file.entry bytes (W.contents output.old) (W.contents output.new) result) }
{
    let catalog = read_catalog(alloc, file, input)?;
    let text = check_text(alloc, tree, &catalog);
    drop(catalog);
    let text = text?;
    write_text(output, text.as_str())
}

/// Writes a text, and waits until it is written.
pub fn write_text<'a, W: Write>(output: &mut W, text: &str) -> Result<(), CatalogFault<'a>>
    ensures written { OnOk result (Appends (W.contents output.old) (W.contents output.new) text.now) }
    ensures faults { IfErr result IsWriteFault }
{
    written::write_text(output, text)?;
    Ok(())
}

/// How much a catalogue has, and a line for each leaf, or its trees.
fn check_text(alloc: Global, tree: bool, catalog: &Catalog) -> Result<String, Memory>
    ensures { IfOk result (λ text. string_bytes text ≡ spec.check_text tree (catalogue_of catalog.now)) }
{
    let mut text = String::new(alloc);
    put_counts(&mut text, catalog)?;
    if tree {
        put_trees(&mut text, catalog)?;
    } else {
        put_leaves(&mut text, catalog)?;
    }
    Ok(text)
}

fn put_counts(out: &mut String, catalog: &Catalog) -> Result<(), Memory>
    ensures { OnOk result (string_bytes out.new ≡ string_bytes out.old ++ accepted_line (catalogue_of catalog.now)) }
{
    let sites = catalog.sites().len();
    let relations = catalog.schema().relations.as_slice().len();
    let leaves = catalog.leaves().len();
    writeln!(
        out,
        "accepted {sites} sites {relations} relations {leaves} fragments"
    )?;
    Ok(())
}

fn put_leaves(out: &mut String, catalog: &Catalog) -> Result<(), Memory>
    ensures { OnOk result (string_bytes out.new ≡ string_bytes out.old ++ leaf_lines (catalogue_of catalog.now)) }
{
    for leaf in catalog.leaves() {
        put_leaf(out, catalog.sites(), catalog.schema(), leaf)?;
    }
    Ok(())
}

/// A leaf in a line of its own.
pub fn put_leaf(
    out: &mut String,
    sites: &[Text],
    schema: &Schema,
    leaf: &FragmentLeaf,
) -> Result<(), Memory>
    ensures { OnOk result (string_bytes out.new ≡ string_bytes out.old ++ leaf_line sites.now schema.now.relations leaf.now) }
{
    put_leaf_alone(out, sites, schema, leaf)?;
    out.push('\n')?;
    Ok(())
}

/// What is told of a leaf: its name, its site, its columns, and its conditions if it has any.
pub fn put_leaf_alone(
    out: &mut String,
    sites: &[Text],
    schema: &Schema,
    leaf: &FragmentLeaf,
) -> Result<(), Memory>
    ensures { OnOk result (string_bytes out.new ≡ string_bytes out.old ++ leaf_told sites.now schema.now.relations leaf.now) }
{
    let columns = columns_of(schema, &leaf.name.relation);
    write!(out, "{} ", leaf.name)?;
    put_site(out, sites, leaf.site)?;
    out.push_str(" (")?;
    put_names(out, columns, leaf.columns.as_slice())?;
    out.push(')')?;
    put_where(out, columns, &leaf.conds)?;
    Ok(())
}

/// The name of a site, nothing where it is not there.
pub fn put_site(out: &mut String, sites: &[Text], site: usize) -> Result<(), Memory>
    ensures { OnOk result (string_bytes out.new ≡ string_bytes out.old ++ name_in sites.now site) }
{
    if let Some(name) = sites.get(site) {
        out.push_str(name.as_str())?;
    }
    Ok(())
}

/// The columns of a relation, none where it is not there.
pub fn columns_of<'a>(schema: &'a Schema, relation: &Text) -> &'a [Column]
    ensures { result.now ≡ spec.columns_of schema.now.relations relation.now }
{
    match schema.relation(relation.as_str().as_bytes()) {
        Some(relation) => relation.columns.as_slice(),
        None => &[],
    }
}

/// The names of columns at these places.
pub fn put_names(out: &mut String, columns: &[Column], places: &[usize]) -> Result<(), Memory>
    ensures { OnOk result (string_bytes out.new ≡ string_bytes out.old ++ separated_bytes (name_in (names_of_columns columns.now)) (codes ", ") places.now) }
{
    let Some((first, others)) = places.split_first() else {
        return Ok(());
    };
    put_name(out, columns, *first)?;
    for place in others {
        out.push_str(", ")?;
        put_name(out, columns, *place)?;
    }
    Ok(())
}

/// The name of the column at a place, nothing where there is none.
pub fn put_name(out: &mut String, columns: &[Column], place: usize) -> Result<(), Memory>
    ensures { OnOk result (string_bytes out.new ≡ string_bytes out.old ++ name_in (names_of_columns columns.now) place) }
{
    if let Some(column) = columns.get(place) {
        out.push_str(column.name.as_str())?;
    }
    Ok(())
}

/// Conditions on these columns, if there are any.
pub fn put_where(out: &mut String, columns: &[Column], conds: &Conds) -> Result<(), Memory>
    ensures { OnOk result (string_bytes out.new ≡ string_bytes out.old ++ where_text (names_of_columns columns.now) conds.now) }
{
    if conds.as_slice().is_empty() {
        return Ok(());
    }
    let conds = print_conds(*out.allocator(), conds, columns)?;
    write!(out, " where {conds}")?;
    Ok(())
}
