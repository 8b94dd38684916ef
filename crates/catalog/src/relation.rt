//! A relation of a document: its columns and its fragment tree.

ghost use Rattle.std.specs.Prelude.{◌≡◌, ◌⊎◌, ◌≤◌, true, false, [], codes, find, length, map, nat_eq, IfOk, IfErr};
ghost use Rattle.std.specs.Option.{option_copied};
ghost use Rattle.toml.specs.View.{view};
ghost use Rattle.std.specs.Cmp.Lexicographic.{pointwise};
ghost use Rattle.meaning.specs.Schema.{kinds_of};
ghost use Rattle.catalog.specs.Catalogue.{IsRelationIn};
ghost use Rattle.catalog.specs.Describes.{Describes};
ghost use Rattle.catalog.specs.Path.{columns_beside_key, paths};
ghost use Rattle.catalog.specs.declared.fault.Rule.TheVariants.{Field};
ghost use Rattle.catalog.specs.Breaks.{ColumnsBreak, RelationBreaks, listed_texts};
ghost use Rattle.catalog.specs.Node.{form_of};
ghost use Rattle.catalog.specs.NodeBreaks.{NodeBreaks};
ghost use Rattle.catalog.specs.Refuses.{Refuses, is_of_text, is_shown};
ghost use Rattle.catalog.specs.Relation.{relation_of, RefusesRelation};
ghost use Rattle.catalog.specs.Split.{tree_of};
ghost use Rattle.catalog.specs.Valid.{IsValid};

use crate::column_texts::{broken_columns, columns};
use crate::fault::Rule;
use crate::form::{some_items, texts_at};
use crate::frame::Frame;
use crate::split::Split;
use crate::trail::Trail;
use crate::tree::{Place, SPLITS};
use meaning::schema::{Column, RelationSchema, Schema};
use reader::word::is_name;
use std::alloc::Global;
use terms::copy::TryCopy;
use terms::memory::Memory;
use terms::seq::Seq;
use terms::text::Text;
use toml::Value;

/// A relation, and how it is split.
#[derive(Debug, Drop)]
pub struct SplitRelation {
    pub schema: RelationSchema,
    pub split: Split,
}

impl SplitRelation {
    /// The same relation once more.
    pub fn copy(&self) -> Result<SplitRelation, Memory>
        ensures { IfOk result (λ copy. relation_of copy ≡ relation_of self.now) }
    {
        let schema = self.schema.copy()?;
        let split = self.split.copy()?;
        Ok(SplitRelation { schema, split })
    }
}

/// Copies of relations.
pub(crate) fn copy_relations(
    alloc: Global,
    relations: &[SplitRelation],
) -> Result<Vec<SplitRelation>, Memory>
    ensures { IfOk result (λ copies. map relation_of copies.items ≡ map relation_of relations.now) }
{
    let mut copies = Vec::new(alloc);
    for relation in relations {
        copies.push(relation.copy()?)?;
    }
    Ok(copies)
}

/// The relation of this name, if it is among these.
pub(crate) fn find_relation<'a>(
    relations: &'a [SplitRelation],
    name: &str,
) -> Option<&'a SplitRelation>
    ensures { option_copied result ≡ find (λ relation. pointwise nat_eq relation.schema.name name.now) relations.now }
{
    relations
        .iter()
        .find(|relation| relation.schema.name.as_str() == name)
}

/// The schema of relations.
pub(crate) fn schema_of(alloc: Global, relations: &[SplitRelation]) -> Result<Schema, Memory>
    ensures { IfOk result (λ schema. schema.relations ≡ map (λ relation. relation.schema) (map relation_of relations.now)) }
{
    let mut schemas = Vec::new(alloc);
    for relation in relations {
        schemas.push(relation.schema.copy()?)?;
    }
    let relations = Seq::new(schemas);
    Ok(Schema { relations })
}

/// The relation that a document says under this name.
pub(crate) fn relation(
    alloc: Global,
    sites: &[Text],
    name: &str,
    node: &Value,
    trail: &mut Trail,
) -> Result<SplitRelation, Rule>
    ensures found { IfOk result (λ relation. IsRelationIn sites.now (name.now, view node.now) (relation_of relation)) }
    ensures valid { IfOk result (λ relation. IsValid (kinds_of relation.schema) (tree_of relation.split)) }
    ensures none { IfErr result (λ rule. RefusesRelation sites.now (name.now, view node.now) rule) }
    ensures breaks { IfErr result (λ rule. is_of_text rule ≡ true → RelationBreaks rule sites.now (name.now, view node.now)) }
{
    if !is_name(name.as_bytes()) {
        return Err(Rule::Name);
    }
    let Some(texts) = texts_at(alloc, "columns", node)? else {
        return Err(no_columns(alloc, node, trail)?);
    };
    let columns = columns(alloc, texts.as_slice(), trail)?;
    let split = split(alloc, sites, columns.as_slice(), node, trail)?;
    let name = Text::copy_of(alloc, name)?;
    let columns = Seq::new(columns);
    let schema = RelationSchema { name, columns };
    Ok(SplitRelation { schema, split })
}

/// The rule that a relation breaks whose columns are not all said by texts.
fn no_columns(alloc: Global, node: &Value, trail: &mut Trail) -> Result<Rule, Memory>
    ensures shown { IfOk result (λ rule. is_shown rule ≡ false) }
    ensures breaks { IfOk result (λ rule. is_of_text rule ≡ true → (rule ≡ Field) ⊎ ColumnsBreak rule (listed_texts (view node.now))) }
{
    let Some(listed) = node.get("columns") else {
        return Ok(Rule::Field);
    };
    match some_items(listed) {
        Some(items) => broken_columns(alloc, items, trail),
        None => Ok(Rule::Field),
    }
}

/// The fragment tree that a node describes for a relation of these columns.
fn split(
    alloc: Global,
    sites: &[Text],
    columns: &[Column],
    node: &Value,
    trail: &mut Trail,
) -> Result<Split, Rule>
    ensures found { IfOk result (λ split. Describes (record { sites = sites.now; columns = columns.now }) 4 [] (columns_beside_key (map (λ column. column.kind) columns.now)) (codes "columns") (view node.now) (tree_of split)) }
    ensures valid { IfOk result (λ split. IsValid (map (λ column. column.kind) columns.now) (tree_of split)) }
    ensures few { IfOk result (λ split. length (paths (tree_of split)) ≤ 32) }
    ensures none { IfErr result (λ rule. Refuses (record { sites = sites.now; columns = columns.now }) 4 [] (columns_beside_key (map (λ column. column.kind) columns.now)) (codes "columns") (view node.now) 0 rule) }
    ensures breaks { IfErr result (λ rule. is_of_text rule ≡ true → NodeBreaks rule (record { sites = sites.now; columns = columns.now }) 4 [] (columns_beside_key (map (λ column. column.kind) columns.now)) (form_of (codes "columns") (view node.now)) 0) }
{
    let within = beside_key(alloc, columns)?;
    let frame = Frame {
        alloc,
        sites,
        columns,
    };
    let root = Place {
        frame: &frame,
        splits: SPLITS,
        way: &[],
        within: within.as_slice(),
    };
    let mut leaves = 0;
    root.tree("columns", node, &mut leaves, trail)
}

/// The places of the columns beside the key.
pub(crate) fn beside_key(alloc: Global, columns: &[Column]) -> Result<Vec<usize>, Memory>
    ensures { IfOk result (λ places. places.items ≡ columns_beside_key (map (λ column. column.kind) columns.now)) }
{
    let mut places = Vec::new(alloc);
    for place in 1..columns.len() {
        places.push(place)?;
    }
    Ok(places)
}
