//! What the nodes of a catalogue's document say, before their texts are read.

ghost use Rattle.std.specs.Prelude.{◌≡◌, is_some, map, option_map, codes, IfOk};
ghost use Rattle.std.specs.List.{list_all};
ghost use Rattle.toml.specs.Data.{get, as_str, as_table};
ghost use Rattle.toml.specs.View.{view, table_view};
ghost use Rattle.catalog.specs.Node as spec;
ghost use Rattle.catalog.specs.Node.{key_count, form_of, node_form, split_form, site_form, list_form, text_at};
ghost use Rattle.catalog.specs.Form.{form_view, texts_of};
ghost use Rattle.reader.specs.Names.{all_of};

use std::alloc::Global;
use terms::memory::Memory;
use toml::Value;

/// What a node says: where its leaf is, or how it is split.
#[derive(Drop)]
pub(crate) enum Form<'a> {
    /// A leaf at the site of this name.
    AtSite(&'a str),
    /// Branches, at least one, each a table.
    ByRows(&'a [Value]),
    /// Groups, at least one, each a table.
    ByCols(&'a [Value]),
    /// A key that is missing, of another kind, or unknown.
    Ill,
}

/// What a node says that has this key beside that of its split.
#[tactic(auto, using(crate::proofs::Nodes::form_of_other))]
pub(crate) fn form_of_node<'a>(beside: &str, node: &'a Value) -> Form<'a>
    ensures { form_view result ≡ form_of beside.now (view node.entry.now) }
{
    let Some(table) = node.as_table() else {
        return Form::Ill;
    };
    let is_there = node.get(beside).is_some();
    if table.len() == 2 && is_there {
        split_form(node)
    } else {
        Form::Ill
    }
}

fn split_form<'a>(node: &'a Value) -> Form<'a>
    ensures { form_view result ≡ split_form (get (codes "site") (view node.entry.now)) (get (codes "rows") (view node.entry.now)) (get (codes "cols") (view node.entry.now)) }
{
    if let Some(site) = node.get("site") {
        site_form(site)
    } else if let Some(rows) = node.get("rows") {
        rows_form(rows)
    } else if let Some(cols) = node.get("cols") {
        cols_form(cols)
    } else {
        Form::Ill
    }
}

fn site_form<'a>(site: &'a Value) -> Form<'a>
    ensures { form_view result ≡ site_form (view site.entry.now) }
{
    match site.as_str() {
        Some(name) => Form::AtSite(name),
        None => Form::Ill,
    }
}

fn rows_form<'a>(rows: &'a Value) -> Form<'a>
    ensures { form_view result ≡ list_form spec.SplitByRows (view rows.entry.now) }
{
    match some_tables(rows) {
        Some(branches) => Form::ByRows(branches),
        None => Form::Ill,
    }
}

fn cols_form<'a>(cols: &'a Value) -> Form<'a>
    ensures { form_view result ≡ list_form spec.SplitByCols (view cols.entry.now) }
{
    match some_tables(cols) {
        Some(groups) => Form::ByCols(groups),
        None => Form::Ill,
    }
}

/// The items of an array of at least one, if each is a table.
fn some_tables<'a>(value: &'a Value) -> Option<&'a [Value]>
    ensures { option_map (λ items. map view items.now) result ≡ spec.some_tables (view value.entry.now) }
{
    match some_items(value) {
        Some(items) => only_tables(items),
        None => None,
    }
}

fn only_tables<'a>(items: &'a [Value]) -> Option<&'a [Value]>
    ensures { option_map (λ items. map view items.now) result ≡ spec.only_tables (map view items.entry.now) }
{
    if are_tables(items) { Some(items) } else { None }
}

fn are_tables(items: &[Value]) -> bool
    ensures { result ≡ list_all (λ item. is_some (as_table (view item))) items.now }
{
    items.iter().all(|item| item.is_table())
}

/// The text at a key of a table.
pub(crate) fn text_at<'a>(key: &str, node: &'a Value) -> Option<&'a str>
    ensures { option_map (λ text. text.now) result ≡ text_at key.now (view node.entry.now) }
{
    node.get(key)?.as_str()
}

/// The items of an array of at least one.
#[tactic(auto, using(crate::proofs::Nodes::some_items_of))]
pub(crate) fn some_items<'a>(value: &'a Value) -> Option<&'a [Value]>
    ensures { option_map (λ items. map view items.now) result ≡ spec.some_items (view value.entry.now) }
{
    match value.as_array() {
        Some(items) if !items.is_empty() => Some(items.as_slice()),
        _ => None,
    }
}

/// The texts that a value lists, at least one, if all that it lists are texts.
pub(crate) fn some_texts<'a>(
    alloc: Global,
    value: &'a Value,
) -> Result<Option<Vec<&'a str>>, Memory>
    ensures { IfOk result (λ found. option_map texts_of found ≡ spec.some_texts (view value.entry.now)) }
{
    match some_items(value) {
        Some(items) => all_texts(alloc, items),
        None => Ok(None),
    }
}

fn all_texts<'a>(alloc: Global, items: &'a [Value]) -> Result<Option<Vec<&'a str>>, Memory>
    ensures { IfOk result (λ found. option_map texts_of found ≡ all_of as_str (map view items.entry.now)) }
{
    let mut texts = Vec::new(alloc);
    for item in items {
        let Some(text) = item.as_str() else {
            return Ok(None);
        };
        texts.push(text)?;
    }
    Ok(Some(texts))
}

/// The texts at a key of a table, at least one, if all that it lists are texts.
pub(crate) fn texts_at<'a>(
    alloc: Global,
    key: &str,
    node: &'a Value,
) -> Result<Option<Vec<&'a str>>, Memory>
    ensures { IfOk result (λ found. option_map texts_of found ≡ spec.texts_at key.now (view node.entry.now)) }
{
    match node.get(key) {
        Some(value) => some_texts(alloc, value),
        None => Ok(None),
    }
}
