//! What leads each leaf of a relation from its content under one catalogue to its content under the next.

ghost use Rattle.std.specs.Prelude.{◌≡◌, ◌++◌, true, Some, IfOk, OnOk, length};
ghost use Rattle.std.specs.List.{AllByRecursion, filter_map};
ghost use Rattle.std.specs.Option.{option_copied};
ghost use Rattle.meaning.specs.declared.schema.RelationSchema.{RelationSchema as Schema};
ghost use Rattle.meaning.specs.Schema.{relation_named};
ghost use Rattle.meaning.specs.Whole.{FitsSchema, Relations, rows_of};
ghost use Rattle.catalog.specs.FragmentLeaf.{schemas_of};
ghost use Rattle.catalog.specs.Relation.{catalogue_of};
ghost use Rattle.answers.specs.Moved.{moves_by, part_held, row_move, site_moves};
ghost use Rattle.answers.specs.Moves.{is_to_either, leaf_there, moves_between};
ghost use Rattle.answers.specs.Outcome.{rows_changed};

use crate::change::write_between;
use crate::finish::rows_changed;
use crate::table::Table;
use catalog::catalogue::Catalog;
use catalog::fragment::place;
use catalog::fragment_leaf::FragmentLeaf;
use std::alloc::Global;
use terms::copy::TryCopy;
use terms::leaf::Leaf;
use terms::memory::Memory;
use terms::row::Row;
use terms::text::Text;
use terms::write::Write;

/// The most leaves of a relation.
const LEAVES: usize = 32;

/// A write to a leaf at a site.
#[derive(Debug, Drop)]
pub struct Move {
    pub site: Text,
    pub write: Write,
}

/// The moves that lead a relation from its split in one catalogue to that in the next, by a table of its rows.
pub fn moves(
    alloc: Global,
    old: &Catalog,
    new: &Catalog,
    relation: &Text,
    table: &Table,
) -> Result<Vec<Move>, Memory>
    // Over each whole database of which the table has all rows of the relation they are the moves between its contents.
    ensures moves { (schema : Schema) → relation_named relation.now (schemas_of (catalogue_of old.now)) ≡ Some schema
        → IfOk result (λ moves. (whole : Relations) → FitsSchema (schemas_of (catalogue_of old.now)) whole → rows_changed (length schema.columns) table.now ≡ rows_of whole relation.now →
        moves.items ≡ moves_between (catalogue_of old.now) (catalogue_of new.now) relation.now (rows_of whole relation.now)) }
    // And whatever the table has, each is to a leaf that one of the catalogues has at its site.
    ensures leaves { IfOk result (λ moves. AllByRecursion (λ one. is_to_either (catalogue_of old.now) (catalogue_of new.now) one ≡ true) moves.items) }
{
    let Some(schema) = old.schema().relation(relation.as_str().as_bytes()) else {
        return Ok(Vec::new(alloc));
    };
    let rows = rows_changed(alloc, schema.columns.as_slice().len(), table)?;
    moves_by(alloc, old, new, relation, rows.as_slice())
}

/// The moves of rows, site by site.
fn moves_by(
    alloc: Global,
    old: &Catalog,
    new: &Catalog,
    relation: &Text,
    rows: &[Row],
) -> Result<Vec<Move>, Memory>
    ensures { IfOk result (λ moves. moves.items ≡ moves_by (catalogue_of old.now) (catalogue_of new.now) relation.now rows.now) }
{
    let mut moves = Vec::new(alloc);
    let sites = old.sites();
    for site in sites {
        put_site_moves(&mut moves, old, new, relation, rows, site)?;
    }
    Ok(moves)
}

/// Puts the moves of rows at a site behind others, leaf by leaf.
fn put_site_moves(
    moves: &mut Vec<Move>,
    old: &Catalog,
    new: &Catalog,
    relation: &Text,
    rows: &[Row],
    site: &Text,
) -> Result<(), Memory>
    ensures { OnOk result (moves.new.items ≡ moves.old.items ++ site_moves (catalogue_of old.now) (catalogue_of new.now) relation.now rows.now site.now) }
{
    for number in 1..=LEAVES {
        let name = Leaf {
            relation: relation.copy()?,
            number,
        };
        let before = leaf_there(old, site, &name);
        let after = leaf_there(new, site, &name);
        put_moves(moves, site, &name, before, after, rows)?;
    }
    Ok(())
}

/// The leaf of a name, where a catalogue has it at a site.
fn leaf_there<'a>(catalog: &'a Catalog, site: &Text, name: &Leaf) -> Option<&'a FragmentLeaf>
    ensures { option_copied result ≡ leaf_there (catalogue_of catalog.now) site.now name.now }
{
    let Some(leaf) = catalog.leaf(name) else {
        return None;
    };
    match catalog.sites().get(leaf.site) {
        Some(home) if *home == *site => Some(leaf),
        _ => None,
    }
}

/// Puts the moves of rows from one leaf to another behind others; where neither is there, none.
fn put_moves(
    moves: &mut Vec<Move>,
    site: &Text,
    name: &Leaf,
    before: Option<&FragmentLeaf>,
    after: Option<&FragmentLeaf>,
    rows: &[Row],
) -> Result<(), Memory>
    ensures { OnOk result (moves.new.items ≡ moves.old.items ++ filter_map (row_move site.now name.now (option_copied before.entry) (option_copied after.entry)) rows.now) }
{
    if before.is_none() && after.is_none() {
        return Ok(());
    }
    for row in rows {
        if let Some(one) = row_move(*moves.allocator(), site, name, before, after, row)? {
            moves.push(one)?;
        }
    }
    Ok(())
}

/// The move of a row from one leaf to another; none where its part stays as it is.
fn row_move(
    alloc: Global,
    site: &Text,
    name: &Leaf,
    before: Option<&FragmentLeaf>,
    after: Option<&FragmentLeaf>,
    row: &Row,
) -> Result<Option<Move>, Memory>
    ensures { IfOk result (λ one. one ≡ row_move site.now name.now (option_copied before.entry) (option_copied after.entry) row.now) }
{
    let part = part_held(alloc, before, row)?;
    let new = part_held(alloc, after, row)?;
    match write_between(name, row.key(), &part, &new)? {
        Some(write) => Ok(Some(Move {
            site: site.copy()?,
            write,
        })),
        None => Ok(None),
    }
}

/// A row's part in a leaf, if there is a leaf.
fn part_held(alloc: Global, leaf: Option<&FragmentLeaf>, row: &Row) -> Result<Option<Row>, Memory>
    ensures { IfOk result (λ part. part ≡ part_held (option_copied leaf.entry) row.now) }
{
    match leaf {
        Some(leaf) => place(alloc, leaf.conds.as_slice(), leaf.columns.as_slice(), row),
        None => Ok(None),
    }
}
