//! What the catalogue of a folder has otherwise than another one, told to a person.

use crate::check::put_leaf;
use crate::listing::put_column;
use crate::same_catalog::{same_column, same_relation};
use catalog::catalogue::Catalog;
use catalog::fragment_leaf::FragmentLeaf;
use catalog::relation::SplitRelation;
use meaning::schema::Column;
use std::alloc::Global;
use std::io;
use std::io::Write;
use terms::memory::Memory;
use terms::same::same_all;
use terms::text::Text;

/// Two catalogues that are to be one: that of a folder, which stands in the file `path`, and the one that was given.
#[derive(Clone, Copy)]
pub struct Compared<'c> {
    pub path: &'c str,
    pub kept: &'c Catalog,
    pub given: &'c Catalog,
}

/// Tells the first thing that differs: sites, then relation by relation in the order of their names. Nothing is claimed of
/// the words.
pub fn tell_difference<E: Write>(
    alloc: Global,
    both: Compared<'_>,
    errors: &mut E,
) -> io::Result<()> {
    let path = both.path;
    if !same_all(both.kept.sites(), both.given.sites()) {
        return tell_sites(alloc, both, errors);
    }
    for relation in both.kept.relations() {
        let name = relation.schema.name.as_str();
        match both.given.relation(name) {
            None => return writeln!(errors, "{path}: the folder has a relation `{name}` besides"),
            Some(given) if !same_relation(relation, given) => {
                return tell_relation(alloc, both, relation, given, errors);
            }
            Some(_) => {}
        }
    }
    for relation in both.given.relations() {
        let name = relation.schema.name.as_str();
        if both.kept.relation(name).is_none() {
            return writeln!(errors, "{path}: the folder has no relation `{name}`");
        }
    }
    Ok(())
}

/// Tells the sites of both.
fn tell_sites<E: Write>(alloc: Global, both: Compared<'_>, errors: &mut E) -> io::Result<()> {
    let Ok(kept) = names_of(alloc, both.kept.sites()) else {
        return Ok(());
    };
    let Ok(given) = names_of(alloc, both.given.sites()) else {
        return Ok(());
    };
    let path = both.path;
    writeln!(
        errors,
        "{path}: the sites are {kept} in the folder, {given} in the catalogue"
    )
}

/// Names in a line.
fn names_of(alloc: Global, names: &[Text]) -> Result<String, Memory> {
    let mut text = String::new(alloc);
    for name in names {
        if !text.is_empty() {
            text.push_str(", ")?;
        }
        text.push_str(name.as_str())?;
    }
    Ok(text)
}

/// Tells the first column of a relation that differs, or else its first fragment that does.
fn tell_relation<E: Write>(
    alloc: Global,
    both: Compared<'_>,
    kept: &SplitRelation,
    given: &SplitRelation,
    errors: &mut E,
) -> io::Result<()> {
    let columns = kept.schema.columns.as_slice();
    let others = given.schema.columns.as_slice();
    for place in 0..columns.len().max(others.len()) {
        let pair = (columns.get(place), others.get(place));
        if !are_same(pair) {
            return tell_column(alloc, both, &kept.schema.name, place, pair, errors);
        }
    }
    tell_leaf(alloc, both, &kept.schema.name, errors)
}

/// Whether both have the same column at a place.
fn are_same(pair: (Option<&Column>, Option<&Column>)) -> bool {
    match pair {
        (Some(column), Some(other)) => same_column(column, other),
        (None, None) => true,
        _ => false,
    }
}

/// Tells the columns of both at this place, of which there may be none.
fn tell_column<E: Write>(
    alloc: Global,
    both: Compared<'_>,
    name: &Text,
    place: usize,
    pair: (Option<&Column>, Option<&Column>),
    errors: &mut E,
) -> io::Result<()> {
    let Ok(kept) = column_words(alloc, pair.0) else {
        return Ok(());
    };
    let Ok(given) = column_words(alloc, pair.1) else {
        return Ok(());
    };
    let path = both.path;
    writeln!(
        errors,
        "{path}: column {} of `{name}` is {kept} in the folder, {given} in the catalogue",
        place.saturating_add(1)
    )
}

/// A column with its type, or that there is none.
fn column_words(alloc: Global, column: Option<&Column>) -> Result<String, Memory> {
    let mut text = String::new(alloc);
    match column {
        Some(column) => {
            text.push('`')?;
            put_column(&mut text, column)?;
            text.push('`')?;
        }
        None => text.push_str("missing")?,
    }
    Ok(text)
}

/// Tells the first fragment of this relation that differs.
fn tell_leaf<E: Write>(
    alloc: Global,
    both: Compared<'_>,
    name: &Text,
    errors: &mut E,
) -> io::Result<()> {
    let path = both.path;
    for number in 1..=both.kept.leaves().len().max(both.given.leaves().len()) {
        let Ok(kept) = leaf_words(alloc, both.kept, name, number) else {
            return Ok(());
        };
        let Ok(given) = leaf_words(alloc, both.given, name, number) else {
            return Ok(());
        };
        if kept != given {
            return writeln!(
                errors,
                "{path}: fragment {number} of `{name}` is {kept} in the folder, {given} in the catalogue"
            );
        }
    }
    writeln!(
        errors,
        "{path}: `{name}` is split in other steps in the folder"
    )
}

/// The fragment of this number of a relation, with its site, its columns and its conditions, or that there is none.
fn leaf_words(
    alloc: Global,
    catalog: &Catalog,
    relation: &Text,
    number: usize,
) -> Result<String, Memory> {
    let mut text = String::new(alloc);
    match nth_leaf(catalog, relation, number) {
        Some(leaf) => {
            text.push('`')?;
            put_leaf(&mut text, catalog.sites(), catalog.schema(), leaf)?;
            let _line_end = text.pop();
            text.push('`')?;
        }
        None => text.push_str("missing")?,
    }
    Ok(text)
}

/// The leaf of this number of a relation, counted from 1.
fn nth_leaf<'c>(catalog: &'c Catalog, relation: &Text, number: usize) -> Option<&'c FragmentLeaf> {
    catalog.leaves().iter().find(|leaf| leaf.name.relation == *relation
        && leaf.name.number == number)
}
