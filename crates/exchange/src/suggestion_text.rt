//! The text of a catalogue that is suggested.

use meaning::schema::Column;
use reader::print_constant::PrintedConstant;
use std::alloc::Global;
use terms::memory::Memory;
use terms::value::{Kind, Value};

/// The text: the sites, and a relation of these columns whose rows are split at the cuts of a column.
pub(crate) fn suggestion_text(
    alloc: Global,
    relation: &str,
    columns: &[Column],
    split: &str,
    cuts: &[Value],
    sites: usize,
) -> Result<String, Memory> {
    let mut out = String::new(alloc);
    put_sites(&mut out, sites)?;
    write!(out, "\n[relations.{relation}]\n")?;
    put_columns(&mut out, columns)?;
    if cuts.is_empty() {
        out.push_str("site = \"site1\"\n")?;
        return Ok(out);
    }
    for place in 0..=cuts.len() {
        let leaf = Leaf {
            number: place.saturating_add(1),
            low: place.checked_sub(1).and_then(|before| cuts.get(before)),
            high: cuts.get(place),
        };
        put_leaf(alloc, &mut out, relation, split, leaf)?;
    }
    Ok(out)
}

/// The part of the rows that is at a site: from a value on, and below another one.
#[derive(Clone, Copy)]
struct Leaf<'a> {
    number: usize,
    low: Option<&'a Value>,
    high: Option<&'a Value>,
}

fn put_leaf(
    alloc: Global,
    out: &mut String,
    relation: &str,
    split: &str,
    leaf: Leaf<'_>,
) -> Result<(), Memory> {
    write!(out, "[[relations.{relation}.rows]]\nwhere = \"")?;
    put_escaped(out, conditions(alloc, split, leaf)?.as_str())?;
    write!(out, "\"\nsite = \"site{}\"\n", leaf.number)?;
    Ok(())
}

/// The conditions that the rows of a leaf meet.
fn conditions(alloc: Global, split: &str, leaf: Leaf<'_>) -> Result<String, Memory> {
    let mut out = String::new(alloc);
    if let Some(low) = leaf.low {
        write!(out, "{split} >= {}", PrintedConstant(low))?;
    }
    if leaf.low.is_some() && leaf.high.is_some() {
        out.push_str(" AND ")?;
    }
    if let Some(high) = leaf.high {
        write!(out, "{split} < {}", PrintedConstant(high))?;
    }
    Ok(out)
}

/// Puts a text between the quotes of TOML.
fn put_escaped(out: &mut String, text: &str) -> Result<(), Memory> {
    for character in text.chars() {
        if character == '"' || character == '\\' {
            out.push('\\')?;
        }
        out.push(character)?;
    }
    Ok(())
}

fn put_sites(out: &mut String, sites: usize) -> Result<(), Memory> {
    out.push_str("sites = [")?;
    for site in 0..sites {
        let number = site.saturating_add(1);
        let comma = if site == 0 { "" } else { ", " };
        write!(out, "{comma}\"site{number}\"")?;
    }
    out.push_str("]\n")?;
    Ok(())
}

fn put_columns(out: &mut String, columns: &[Column]) -> Result<(), Memory> {
    out.push_str("columns = [")?;
    for (place, column) in columns.iter().enumerate() {
        let comma = if place == 0 { "" } else { ", " };
        let kind = match column.kind {
            Kind::Int => "int",
            Kind::Text => "text",
        };
        write!(out, "{comma}\"{} {kind}\"", column.name)?;
    }
    out.push_str("]\n")?;
    Ok(())
}
