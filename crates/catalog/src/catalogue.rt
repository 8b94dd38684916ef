//! Catalogues, read from their texts.

ghost use Rattle.std.specs.Prelude.{◌≡◌, ◌<◌, ℕ, List, MatchOption, true, None, is_some, length, map, option_map, option_and_then, IfOk, IfErr};
ghost use Rattle.std.specs.List.{AllByRecursion};
ghost use Rattle.toml.specs.Data.{as_table};
ghost use Rattle.toml.specs.Parse.{parse_document};
ghost use Rattle.toml.specs.View.{view, table_view};
ghost use Rattle.reader.specs.Printable.{AreNamed};
ghost use Rattle.reader.specs.Breaks.{SomeOf};
ghost use Rattle.catalog.specs.declared.fault.Rule.TheVariants.{Toml};
ghost use Rattle.catalog.specs.Breaks.{CatalogueTextBreaks, DocumentBreaks, RelationBreaks};
ghost use Rattle.catalog.specs.Catalogue as spec;
ghost use Rattle.catalog.specs.Catalogue.{IsRelationIn, IsDocumentOf, IsCatalogueText, IsValidRelation, IsValidCatalogue, entries};
ghost use Rattle.catalog.specs.Describes.{Each, site_numbered};
ghost use Rattle.catalog.specs.Refuses.{is_of_text};
ghost use Rattle.catalog.specs.Relation.{relation_of, catalogue_of};
ghost use Rattle.catalog.specs.Chain.{IsNext};
ghost use Rattle.catalog.specs.Formed.{IsFormed};
ghost use Rattle.catalog.specs.Fragment.{part};
ghost use Rattle.catalog.specs.FragmentLeaf.{catalogue_leaves, leaf_named, leaves_in, names_at, relation_named, schemas_of, unnamed};
ghost use Rattle.std.specs.Option.{option_copied};
ghost use Rattle.catalog.specs.Document.{parts_of, RefusesDocument, RefusesRelations, RefusesRoot, RefusesText, TellsRelation, TellsRoot, TellsText, are_tables};

use crate::chain::other_split;
use crate::fault::{CatFault, Rule};
use crate::form::some_texts;
use crate::fragment::place;
use crate::fragment_leaf::{
    FragmentLeaf, all_leaves, find_leaf, leaf_counts, leaves_among, names_at,
};
use crate::relation::{SplitRelation, copy_relations, find_relation, relation, schema_of};
use crate::sites::{site_numbered, sites};
use crate::trail::Trail;
use meaning::schema::Schema;
use reader::read_conds::{conds_of_a_text_fit, one_list_of_conds};
use std::alloc::Global;
use std::marker::Model;
use terms::copy::{TryCopy, copy_all};
use terms::leaf::Leaf;
use terms::memory::Memory;
use terms::row::Row;
use terms::same::same_all;
use terms::text::Text;
use toml::{Table, Value};

/// The most bytes of a catalogue's text.
const TEXT_BYTES: usize = 65_536;

/// The most relations of a catalogue.
const RELATIONS: usize = 32;

/// The sites, and the relations with their fragment trees. There is no catalogue that is not valid.
///
/// It keeps the schema and the leaves of the relations at hand.
#[derive(Debug, Drop)]
pub struct Catalog {
    sites: Vec<Text>,
    relations: Vec<SplitRelation>,
    schema: Schema,
    leaves: Vec<FragmentLeaf>,
    /// How many leaves each relation has.
    counts: Vec<usize>,
}

impl Model for Catalog {
    ghost use Rattle.std.specs.Prelude.{ℕ, List};
    ghost use Rattle.catalog.specs.declared.relation.SplitRelation.{SplitRelation as Relation};
    ghost use Rattle.catalog.specs.Formed.{IsCatalog};
    ghost use Rattle.catalog.specs.Relation.{catalogue_of};
    ghost use Rattle.std.specs.Coded.{codes};
    ghost use Rattle.catalog.specs.contracts.split.Split as split;

    ghost Value = { List (List ℕ) × List Relation };

    ghost coded = { Prim.hlevel (codes, split.the_row.coded) };

    ghost view = { λ c. (c.sites.items, c.relations.items) };

    ghost invariant = { λ c. IsCatalog (catalogue_of (c.sites.items, c.relations.items)) c.schema c.leaves.items c.counts.items };
}

impl Catalog {
    /// The catalogue of a text.
    ///
    /// A refused text breaks a rule; of several the first in the order of the checks answers.
    pub fn read(alloc: Global, text: &str) -> Result<Catalog, CatFault>
        // An accepted text is one of the catalogue, and the catalogue is valid.
        ensures found { IfOk result (λ catalog. IsCatalogueText text.now (catalogue_of catalog)) }
        ensures valid { IfOk result (λ catalog. IsValidCatalogue (catalogue_of catalog)) }
        // A text that is refused by a rule is one of no catalogue. A gap or an overlap is the first in each catalogue of
        // which the text is one: it is told by its relation and its cell.
        ensures none { IfErr result (λ fault. RefusesText text.now fault.relation fault.rule) }
        // And so is each fault inside a relation.
        ensures told { IfErr result (λ fault. TellsText text.now fault.relation fault.rule) }
        // The text breaks the rule.
        ensures breaks { IfErr result (λ fault. is_of_text fault.rule ≡ true → CatalogueTextBreaks fault.rule text.now) }
    {
        if text.len() > TEXT_BYTES {
            return Err(CatFault::new(Rule::Limit));
        }
        match document(alloc, text) {
            Ok(root) => catalog_of(alloc, &root),
            Err(rule) => Err(CatFault::outside(rule)),
        }
    }

    /// The names of the sites, in the order of the text.
    pub fn sites(&self) -> &[Text]
        ensures { result.now ≡ self.now.0 }
    {
        self.sites.as_slice()
    }

    /// The relations, by their names.
    pub fn relations(&self) -> &[SplitRelation]
        ensures relations { result.now ≡ self.now.1 }
        // What holds of every catalogue.
        ensures valid { IsValidCatalogue (catalogue_of self.now) }
        ensures formed { IsFormed (catalogue_of self.now) }
    {
        self.relations.as_slice()
    }

    /// The names and columns of the relations.
    pub fn schema(&self) -> &Schema
        ensures schemas { result.now.relations ≡ schemas_of (catalogue_of self.now) }
        // A statement's text can speak of each of them.
        ensures named { AreNamed result.now.relations }
    {
        &self.schema
    }

    /// The leaves, relation by relation, in each in the order of the text and numbered from 1.
    pub fn leaves(&self) -> &[FragmentLeaf]
        ensures leaves { result.now ≡ catalogue_leaves (catalogue_of self.now) }
        ensures sited { AllByRecursion (λ leaf. leaf.site < length self.now.0) result.now }
    {
        self.leaves.as_slice()
    }

    /// The relation of this name, if there is one.
    pub fn relation(&self, name: &str) -> Option<&SplitRelation>
        ensures { option_map relation_of (option_copied result) ≡ relation_named name.now (catalogue_of self.now).relations }
    {
        find_relation(self.relations.as_slice(), name)
    }

    /// The leaves of the relation of this name, numbered from 1; none where there is no such relation.
    pub fn leaves_of(&self, name: &str) -> &[FragmentLeaf]
        ensures { result.now ≡ leaves_in (relation_named name.now (catalogue_of self.now).relations) }
    {
        leaves_among(
            self.relations.as_slice(),
            self.counts.as_slice(),
            self.leaves.as_slice(),
            name,
        )
    }

    /// The leaf of this name, if there is one.
    pub fn leaf(&self, name: &Leaf) -> Option<&FragmentLeaf>
        ensures { option_copied result ≡ leaf_named name.now (catalogue_leaves (catalogue_of self.now)) }
    {
        find_leaf(self.leaves.as_slice(), name)
    }

    /// The names of the leaves at the site of this number, relation by relation.
    pub fn leaves_at(&self, site: usize) -> Result<Vec<Leaf>, Memory>
        ensures { IfOk result (λ names. names.items ≡ names_at site (catalogue_leaves (catalogue_of self.now))) }
    {
        names_at(*self.leaves.allocator(), self.leaves.as_slice(), site)
    }

    /// The number of the site of this name, from 0, if there is one.
    pub fn site(&self, name: &str) -> Option<usize>
        ensures { result ≡ site_numbered self.now.0 name.now }
    {
        site_numbered(self.sites.as_slice(), name)
    }

    /// The row's part in the content of the leaf of this name, or none where the leaf's conditions
    /// don't hold of it. A leaf that is not there has no part.
    pub fn place(&self, row: &Row, leaf: &Leaf) -> Result<Option<Row>, Memory>
        ensures { IfOk result (λ placed. placed ≡ option_and_then (λ there. part (unnamed there) row.now) (leaf_named leaf.now (catalogue_leaves (catalogue_of self.now)))) }
    {
        match find_leaf(self.leaves.as_slice(), leaf) {
            Some(leaf) => {
                let conds = leaf.conds.as_slice();
                place(
                    *self.leaves.allocator(),
                    conds,
                    leaf.columns.as_slice(),
                    row,
                )
            }
            None => Ok(None),
        }
    }

    /// The name of the one relation that the next catalogue splits otherwise, where all else is the same: the
    /// sites, and each relation's name and columns.
    pub fn changed(&self, next: &Catalog) -> Option<&str>
        ensures { MatchOption (option_map (λ name. name.now) result) ((name : List ℕ) → ¬ (IsNext (catalogue_of self.now) (catalogue_of next.now) name)) (λ name. IsNext (catalogue_of self.now) (catalogue_of next.now) name) }
    {
        if !same_all(self.sites.as_slice(), next.sites.as_slice()) {
            return None;
        }
        match other_split(self.relations.as_slice(), next.relations.as_slice()) {
            Some(name) => Some(name.as_str()),
            None => None,
        }
    }

    /// The same catalogue once more.
    pub fn copy(&self) -> Result<Catalog, Memory>
        ensures { IfOk result (λ copy. catalogue_of copy ≡ catalogue_of self.now) }
    {
        let alloc = *self.leaves.allocator();
        Ok(Catalog {
            sites: copy_all(alloc, self.sites.as_slice())?,
            relations: copy_relations(alloc, self.relations.as_slice())?,
            schema: self.schema.copy()?,
            leaves: copy_all(alloc, self.leaves.as_slice())?,
            counts: copy_all(alloc, self.counts.as_slice())?,
        })
    }
}

/// The catalogue that a document says.
fn catalog_of(alloc: Global, root: &Value) -> Result<Catalog, CatFault>
    ensures found { IfOk result (λ catalog. IsDocumentOf (view root.now) (catalogue_of catalog)) }
    ensures valid { IfOk result (λ catalog. IsValidCatalogue (catalogue_of catalog)) }
    ensures none { IfErr result (λ fault. RefusesRoot (view root.now) fault.relation fault.rule) }
    ensures told { IfErr result (λ fault. TellsRoot (view root.now) fault.relation fault.rule) }
    ensures breaks { IfErr result (λ fault. is_of_text fault.rule ≡ true → DocumentBreaks fault.rule (view root.now)) }
{
    let Some(parts) = document_parts(alloc, root)? else {
        return Err(CatFault::new(Rule::Field));
    };
    if !are_tables(parts.relations) {
        return Err(CatFault::new(Rule::Field));
    }
    let mut trail = Trail::new();
    let sites = match sites(alloc, parts.sites.as_slice(), &mut trail) {
        Ok(sites) => sites,
        Err(rule) => return Err(CatFault::at(trail, rule)),
    };
    let count = parts.relations.len();
    if count == 0 {
        return Err(CatFault::new(Rule::Field));
    }
    if count > RELATIONS {
        return Err(CatFault::new(Rule::Limit));
    }
    let relations = relations(alloc, sites.as_slice(), parts.relations)?;
    // That the conditions fit their columns rests on this law.
    conds_of_a_text_fit();
    Ok(with_leaves(alloc, sites, relations)?)
}

/// The catalogue of these sites and relations, with its schema and leaves.
fn with_leaves(
    alloc: Global,
    sites: Vec<Text>,
    relations: Vec<SplitRelation>,
) -> Result<Catalog, Memory>
    requires valid { IsValidCatalogue (catalogue_of (sites.items, relations.items)) }
    requires formed { IsFormed (catalogue_of (sites.items, relations.items)) }
    ensures { IfOk result (λ catalog. catalog ≡ (sites.items, relations.items)) }
{
    let schema = schema_of(alloc, relations.as_slice())?;
    let leaves = all_leaves(alloc, relations.as_slice())?;
    let counts = leaf_counts(alloc, relations.as_slice())?;
    Ok(Catalog {
        sites,
        relations,
        schema,
        leaves,
        counts,
    })
}

/// Whether all values of a table are tables.
fn are_tables(table: &Table) -> bool
    ensures { result ≡ are_tables (entries (table_view table.now)) }
{
    for (_name, node) in table.iter() {
        if node.as_table().is_none() {
            return false;
        }
    }
    true
}

/// The texts of a document's sites, and its relations.
#[derive(Drop)]
pub(crate) struct Parts<'a> {
    pub sites: Vec<&'a str>,
    pub relations: &'a Table,
}

/// The document of a text, as a value.
pub(crate) fn document(alloc: Global, text: &str) -> Result<Value, Rule>
    ensures found { IfOk result (λ root. as_table (view root) ≡ parse_document text.now) }
    ensures table { IfOk result (λ root. is_some (as_table (view root)) ≡ true) }
    ensures none { IfErr result (λ rule. RefusesDocument text.now rule) }
    ensures breaks { IfErr result (λ rule. is_of_text rule ≡ true → (rule ≡ Toml) × (parse_document text.now ≡ None)) }
{
    match toml::table_from_str(alloc, text) {
        Ok(table) => Ok(Value::Table(table)),
        Err(error) if error.is_memory() => Err(Rule::Memory),
        Err(_) => Err(Rule::Toml),
    }
}

/// What stands at the two keys of a document, if nothing else does.
pub(crate) fn document_parts<'a>(
    alloc: Global,
    root: &'a Value,
) -> Result<Option<Parts<'a>>, Memory>
    ensures { IfOk result (λ found. option_map parts_of found ≡ spec.document_parts (view root.entry.now)) }
{
    let Some(document) = root.as_table() else {
        return Ok(None);
    };
    if document.len() != 2 {
        return Ok(None);
    }
    let (Some(listed), Some(relations)) = (root.get("sites"), root.get("relations")) else {
        return Ok(None);
    };
    let Some(relations) = relations.as_table() else {
        return Ok(None);
    };
    match some_texts(alloc, listed)? {
        Some(sites) => Ok(Some(Parts { sites, relations })),
        None => Ok(None),
    }
}

/// The relations of a table, in the order of their names.
pub(crate) fn relations(
    alloc: Global,
    sites: &[Text],
    table: &Table,
) -> Result<Vec<SplitRelation>, CatFault>
    ensures found { IfOk result (λ found. Each (IsRelationIn sites.now) (entries (table_view table.now)) (map relation_of found.items)) }
    ensures valid { IfOk result (λ found. AllByRecursion IsValidRelation (map relation_of found.items)) }
    ensures none { IfErr result (λ fault. RefusesRelations sites.now (entries (table_view table.now)) fault.relation fault.rule) }
    ensures told { IfErr result (λ fault. TellsRelation sites.now (entries (table_view table.now)) fault.relation fault.rule) }
    ensures breaks { IfErr result (λ fault. is_of_text fault.rule ≡ true → SomeOf (RelationBreaks fault.rule sites.now) (entries (table_view table.now))) }
{
    // What a refusal says rests on this law.
    one_list_of_conds();
    let mut relations = Vec::new(alloc);
    for (name, node) in table.iter() {
        let mut trail = Trail::new();
        match relation(alloc, sites, name.as_str(), node, &mut trail) {
            Ok(next) => relations.push(next)?,
            Err(rule) => return Err(CatFault::in_relation(alloc, name.as_str(), trail, rule)),
        }
    }
    Ok(relations)
}
