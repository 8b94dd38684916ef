//! Where a catalogue's document breaks a rule, and what could stand there.

use crate::Made;
use crate::nearest::{listed, put_choices};
use crate::sentence::{explain_over, names_of, unless_memory};
use catalog::fault::{CatFault, Cell, Rule};
use catalog::trail::ListItem;
use meaning::schema::{Column, RelationSchema};
use reader::print_constant::PrintedConstant;
use reader::read_conds::read_conds;
use std::alloc::{AllocError, Global};
use terms::seq::Seq;
use terms::text::Text;
use terms::value::Kind;
use toml::Value;

/// A part of the document: how it is reached, what stands there, its first key, and the group around it, if it is in one.
#[derive(Drop)]
struct Node<'a> {
    path: String,
    value: &'a Value,
    own: &'static str,
    group: Option<&'a Value>,
}

/// What a part is of: the document, the relation's table, or again the document, and the fault.
#[derive(Drop)]
struct Around<'a> {
    alloc: Global,
    root: &'a Value,
    top: &'a Value,
    fault: &'a CatFault,
}

/// Puts what breaks the fault's rule at the place that it names, in lines; nothing where no more is to be said.
pub(crate) fn put_place(out: &mut String, root: &Value, fault: &CatFault) -> Made<()> {
    let alloc = *out.allocator();
    let name = fault.relation().map_or("", |name| name.as_str());
    let relation = root
        .get("relations")
        .and_then(|relations| relations.get(name));
    let (path, own) = match relation {
        Some(_) => (format!(in alloc; "relations.{name}")?, "columns"),
        None => (String::new(alloc), "sites"),
    };
    let top = relation.unwrap_or(root);
    let around = Around {
        alloc,
        root,
        top,
        fault,
    };
    let mut node = Node {
        path,
        value: top,
        own,
        group: None,
    };
    for item in fault.trail() {
        let (key, index) = (item.key(), item.index());
        let items = items_at(node.value, key);
        let Some((before, [value, ..])) = items.split_at_checked(index) else {
            return Ok(());
        };
        let dot = if node.path.is_empty() { "" } else { "." };
        let path = format!(in alloc; "{}{dot}{key}[{index}]", node.path)?;
        let own = match item {
            ListItem::Branch(_) => "where",
            ListItem::Group(_) => "of",
            _ => return put_misnamed(out, fault.rule(), path.as_str(), value, before),
        };
        node = Node {
            path,
            value,
            own,
            group: value.get("of").map_or(node.group, |_| Some(value)),
        };
    }
    put_told(out, &around, &node)
}

/// Puts what of a node breaks the rule.
fn put_told(out: &mut String, around: &Around<'_>, node: &Node<'_>) -> Made<()> {
    let alloc = around.alloc;
    match around.fault.rule() {
        Rule::Gap(cell) => put_branches(out, around, node, cell, false),
        Rule::Overlap(cell) => put_branches(out, around, node, cell, true),
        Rule::ColumnTwice => put_groups(out, around, node, true),
        Rule::ColumnLost => put_groups(out, around, node, false),
        Rule::Field => put_wrong_key(out, around, node),
        Rule::NoSite => {
            let sites = texts_at(alloc, around.root, "sites")?;
            put_unknown(out, node, "site", sites.as_slice())
        }
        Rule::ColumnAbsent if node.own == "of" => {
            let columns = columns_around(around, None)?;
            put_unknown(out, node, "of", names_of(alloc, &columns, 1)?.as_slice())
        }
        _ => put_conditions(out, around, node),
    }
}

/// The items of an array at a key.
fn items_at<'a>(value: &'a Value, key: &str) -> &'a [Value] {
    match value.get(key) {
        Some(Value::Array(items)) => items.as_slice(),
        _ => &[],
    }
}

/// The text at a key, or the texts of the array there.
fn texts_at<'a>(alloc: Global, value: &'a Value, key: &str) -> Made<Vec<&'a str>> {
    let items = items_at(value, key).iter();
    match value.get(key).and_then(|value| value.as_str()) {
        Some(text) => Ok(vec![in alloc; text]?),
        None => items.filter_map(|item| item.as_str()).collect(alloc),
    }
}

/// The text of a branch's conditions.
fn where_of(node: &Value) -> Option<&str> {
    node.get("where")?.as_str()
}

/// The name that a column's text begins with, and its type, if it says one.
fn name_and_kind(text: &str) -> (&str, Option<Kind>) {
    match text.split_once(' ') {
        Some((name, "int")) => (name, Some(Kind::Int)),
        Some((name, "text")) => (name, Some(Kind::Text)),
        Some((name, _)) => (name, None),
        None => (text, None),
    }
}

/// A relation's key and the columns of a group, or all, as far as their texts say them.
fn columns_around(around: &Around<'_>, group: Option<&Value>) -> Made<RelationSchema> {
    let alloc = around.alloc;
    let mut columns = Vec::new(alloc);
    let within = texts_at(alloc, group.unwrap_or(around.top), "of")?;
    for text in texts_at(alloc, around.top, "columns")?.as_slice() {
        if let (name, Some(kind)) = name_and_kind(text) {
            if columns.is_empty() || group.is_none() || within.contains(&name) {
                let name = Text::copy_of(alloc, name).map_err(|_| AllocError)?;
                columns.push(Column { name, kind })?;
            }
        }
    }
    let name = around.fault.relation().map_or("", |name| name.as_str());
    let name = Text::copy_of(alloc, name).map_err(|_| AllocError)?;
    let columns = Seq::new(columns);
    Ok(RelationSchema { name, columns })
}

/// Whether a cell's row meets the conditions of a text.
fn meets(around: &Around<'_>, text: &str, cell: &Cell) -> Made<bool> {
    let table = columns_around(around, None)?;
    let read = unless_memory(read_conds(around.alloc, text, table.columns.as_slice()))?;
    Ok(read.is_ok_and(|conds| conds.hold(&cell.row)))
}

/// A site or a column that has no name, one that stands before, or no form.
fn put_misnamed(
    out: &mut String,
    rule: &Rule,
    path: &str,
    value: &Value,
    before: &[Value],
) -> Made<()> {
    let Some(text) = value.as_str() else {
        return write!(out, "{path} has no text\n");
    };
    write!(out, "{path} has `{text}`")?;
    let (name, _) = name_and_kind(text);
    let mut names = before.iter().filter_map(|other| other.as_str());
    let first = names.position(|other| name_and_kind(other).0 == name);
    match (rule, first) {
        (Rule::Name, _) if text == "desk" => out.push_str(", the coordinator's name")?,
        (Rule::KeyType, _) => write!(out, "; expected `{} int`", name_and_kind(text).0)?,
        (Rule::Twice, Some(at)) if path.starts_with('s') => write!(out, ", as sites[{at}] has")?,
        (Rule::Twice, Some(at)) => write!(out, "; columns[{at}] has this name")?,
        (Rule::Field, _) => out.push_str("; a column is a name, one blank, and int or text")?,
        _ => {}
    }
    out.push('\n')
}

/// The first key of a node that is unknown, missing, or one too many, or else what is wrong with its conditions.
fn put_wrong_key(out: &mut String, around: &Around<'_>, node: &Node<'_>) -> Made<()> {
    let (path, own) = match node.path.as_str() {
        "" => ("the document", node.own),
        path => (path, node.own),
    };
    let keys = match own {
        "sites" => vec![in around.alloc; own, "relations"]?,
        _ => vec![in around.alloc; own, "site", "rows", "cols"]?,
    };
    let (Value::Table(table), [_, others @ ..]) = (node.value, keys.as_slice()) else {
        return write!(out, "{path} is no table\n");
    };
    for (key, _) in table.iter() {
        if !keys.contains(&key.as_str()) {
            write!(out, "{path} has the unknown key `{key}`; there can be ")?;
            put_choices(out, key.as_str(), keys.as_slice())?;
            return out.push('\n');
        }
    }
    let had = others
        .iter()
        .copied()
        .filter(|key| table.get(*key).is_some());
    let had: Vec<&str> = had.collect(around.alloc)?;
    match (had.as_slice(), others) {
        _ if table.get(own).is_none() => write!(out, "{path} has no key `{own}`\n"),
        ([], [other]) => write!(out, "{path} has no key `{other}`\n"),
        ([], _) => write!(
            out,
            "{path} has none of {}\n",
            listed(around.alloc, others)?
        ),
        ([first, second, ..], _) => {
            write!(
                out,
                "{path} has both `{first}` and `{second}`; it has one of them\n"
            )
        }
        _ => put_conditions(out, around, node),
    }
}

/// The first text at a key that is none of those known.
fn put_unknown(out: &mut String, node: &Node<'_>, key: &str, known: &[&str]) -> Made<()> {
    for text in texts_at(*out.allocator(), node.value, key)?.as_slice() {
        if !known.contains(text) {
            write!(out, "{}.{key} has `{text}`; there are ", node.path)?;
            put_choices(out, text, known)?;
            return out.push('\n');
        }
    }
    Ok(())
}

/// The fault of a branch's conditions, if they have one.
fn put_conditions(out: &mut String, around: &Around<'_>, node: &Node<'_>) -> Made<()> {
    let tables = [columns_around(around, node.group)?];
    let text = where_of(node.value).unwrap_or("");
    let read = read_conds(around.alloc, text, tables[0].columns.as_slice());
    match unless_memory(read)? {
        Err(fault) if where_of(node.value).is_some() => {
            let told = explain_over(around.alloc, &tables, false, text, &fault)?;
            write!(out, "{}.where\n{told}", node.path)
        }
        _ => Ok(()),
    }
}

/// The first column that stands twice in the groups of a split, or in none of them.
fn put_groups(out: &mut String, around: &Around<'_>, node: &Node<'_>, is_twice: bool) -> Made<()> {
    let (alloc, path) = (around.alloc, &node.path);
    let mut grouped: Vec<(&str, usize)> = Vec::new(alloc);
    for (index, group) in items_at(node.value, "cols").iter().enumerate() {
        for text in texts_at(alloc, group, "of")?.as_slice() {
            match grouped.iter().find(|it| it.0 == *text) {
                Some((_, first)) if is_twice => {
                    let before = format!(in alloc; "as cols[{first}].of has")?;
                    return write!(out, "{path}.cols[{index}].of has `{text}`, {before}\n");
                }
                _ => grouped.push((*text, index))?,
            }
        }
    }
    let table = columns_around(around, node.group)?;
    for name in names_of(alloc, &table, 1)?.as_slice() {
        if !is_twice && !grouped.iter().any(|it| it.0 == *name) {
            write!(out, "{path}.cols: no group has `{name}`; ")?;
            return out.push_str("add it to the `of` of one of them\n");
        }
    }
    Ok(())
}

/// The branches of a split, where the cell's row meets none of them or several, and what to do.
fn put_branches(
    out: &mut String,
    around: &Around<'_>,
    node: &Node<'_>,
    cell: &Cell,
    is_taken: bool,
) -> Made<()> {
    for branch in items_at(node.value, "rows") {
        let text = where_of(branch).unwrap_or("");
        let takes = meets(around, text, cell)?;
        let told = if takes { "takes it" } else { "does not" };
        write!(out, "  where = \"{text}\" {told}\n")?;
    }
    if let (true, [first, ..]) = (is_taken, cell.shown.as_slice()) {
        let (column, value) = (&first.column, PrintedConstant(&first.value));
        out.push_str("to leave it to one of them, add to the others: ")?;
        return write!(out, "AND {column} <> {value}\n");
    }
    let mut between = "to take it, add a branch: where = \"";
    for shown in cell.shown.as_slice() {
        write!(out, "{between}{shown}")?;
        between = " AND ";
    }
    out.push_str("\"\n")
}
