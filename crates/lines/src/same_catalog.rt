//! Whether two catalogues are one.

ghost use Rattle.std.specs.Prelude.{◌≡◌, ◌↔◌, IsTrue, map};
ghost use Rattle.catalog.specs.Relation.{catalogue_of, relation_of};

use catalog::catalogue::Catalog;
use catalog::relation::SplitRelation;
use meaning::schema::Column;
use terms::same::{Same, same_all};

/// Whether two catalogues are one: the same sites in the same order, and the same relations, each split in the same way.
pub fn is_same(catalog: &Catalog, other: &Catalog) -> bool
    ensures { IsTrue result ↔ (catalogue_of catalog.now ≡ catalogue_of other.now) }
{
    same_all(catalog.sites(), other.sites())
        && same_relations(catalog.relations(), other.relations())
}

/// Whether two lists of relations are one.
pub fn same_relations(relations: &[SplitRelation], others: &[SplitRelation]) -> bool
    ensures { IsTrue result ↔ (map relation_of relations.now ≡ map relation_of others.now) }
{
    if relations.len() != others.len() {
        return false;
    }
    for place in 0..relations.len() {
        if !same_relation(&relations[place], &others[place]) {
            return false;
        }
    }
    true
}

/// Whether two relations are one: their names, their columns and how they are split.
pub fn same_relation(relation: &SplitRelation, other: &SplitRelation) -> bool
    ensures { IsTrue result ↔ (relation_of relation.now ≡ relation_of other.now) }
{
    relation.schema.name.same(&other.schema.name)
        && same_columns(
            relation.schema.columns.as_slice(),
            other.schema.columns.as_slice(),
        )
        && relation.split.same(&other.split)
}

/// Whether two lists of columns are one.
fn same_columns(columns: &[Column], others: &[Column]) -> bool
    ensures { IsTrue result ↔ (columns.now ≡ others.now) }
{
    if columns.len() != others.len() {
        return false;
    }
    for place in 0..columns.len() {
        if !same_column(&columns[place], &others[place]) {
            return false;
        }
    }
    true
}

/// Whether two columns are one.
pub fn same_column(column: &Column, other: &Column) -> bool
    ensures { IsTrue result ↔ (column.now ≡ other.now) }
{
    column.name.same(&other.name) && column.kind == other.kind
}
