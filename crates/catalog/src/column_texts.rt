//! The columns of a relation, from their texts.

ghost use Rattle.std.specs.Prelude.{◌≡◌, ◌≢◌, ◌⊎◌, true, false, ◌++◌, ◌∷◌, map, IfOk, IfErr, IfSome, IfNone, OnOk};
ghost use Rattle.toml.specs.View.{view};
ghost use Rattle.catalog.specs.Breaks.{ColumnsBreak, texts_before};
ghost use Rattle.catalog.specs.Catalogue.{IsColumnText, kind_word};
ghost use Rattle.catalog.specs.Columns as spec;
ghost use Rattle.catalog.specs.declared.fault.Rule.TheVariants.{Field};
ghost use Rattle.catalog.specs.Refuses.{is_of_text, is_shown};
ghost use Rattle.catalog.specs.Columns.{HasNoForm, AreColumns, RefusesColumns, RefusesColumn, FitRelation, RefusesFit, IsFitFault, IsColumnFault};

use crate::fault::Rule;
use crate::trail::{ListItem, Trail};
use meaning::schema::Column;
use reader::word::is_name;
use std::alloc::Global;
use terms::memory::Memory;
use terms::text::Text;
use terms::value::Kind;
use toml::Value;

/// The largest number of columns of a relation.
const COLUMNS: usize = 16;

/// The columns that texts say, each name once, and an integer as the key.
pub(crate) fn columns(alloc: Global, texts: &[&str], trail: &mut Trail) -> Result<Vec<Column>, Rule>
    ensures found { IfOk result (λ columns. AreColumns (map (λ text. text.now) texts.now) columns.items) }
    ensures none { IfErr result (λ rule. RefusesColumns (map (λ text. text.now) texts.now) rule) }
    ensures breaks { IfErr result (λ rule. is_of_text rule ≡ true → ColumnsBreak rule (map (λ text. text.now) texts.now)) }
{
    let mut columns = Vec::new(alloc);
    for text in texts {
        trail.enter(ListItem::Column(columns.len()));
        let column = next_column(alloc, columns.as_slice(), text)?;
        trail.leave();
        columns.push(column)?;
    }
    require_relation(columns.as_slice(), trail)?;
    Ok(columns)
}

/// The rule that columns break which are not all said by texts: the first fault of those before the
/// first that is no text, or that it is none.
pub(crate) fn broken_columns(
    alloc: Global,
    items: &[Value],
    trail: &mut Trail,
) -> Result<Rule, Memory>
    ensures shown { IfOk result (λ rule. is_shown rule ≡ false) }
    ensures breaks { IfOk result (λ rule. is_of_text rule ≡ true → (rule ≡ Field) ⊎ ColumnsBreak rule (texts_before (map view items.now))) }
{
    let mut columns = Vec::new(alloc);
    for item in items {
        trail.enter(ListItem::Column(columns.len()));
        let Some(text) = item.as_str() else {
            return Ok(Rule::Field);
        };
        match next_column(alloc, columns.as_slice(), text) {
            Ok(column) => columns.push(column)?,
            Err(rule) => return Ok(rule),
        }
        trail.leave();
    }
    Ok(Rule::Field)
}

/// The column that a text says behind others.
fn next_column(alloc: Global, before: &[Column], text: &str) -> Result<Column, Rule>
    ensures says { IfOk result (λ column. IsColumnText text.now column) }
    ensures new { IfOk result (λ column. spec.has_column before.now column.name ≡ false) }
    ensures none { IfErr result (λ rule. RefusesColumn before.now text.now rule) }
    ensures fault { IfErr result (λ rule. IsColumnFault before.now text.now rule) }
{
    let Some((name, kind)) = name_and_kind(text) else {
        return Err(Rule::Field);
    };
    if !is_name(name.as_bytes()) {
        return Err(Rule::Name);
    }
    if has_column(before, name) {
        return Err(Rule::Twice);
    }
    let name = Text::copy_of(alloc, name)?;
    Ok(Column { name, kind })
}

/// The two words of a text, of which the second is a type's.
fn name_and_kind(text: &str) -> Option<(&str, Kind)>
    ensures some { IfSome result (λ found. text.now ≡ found.0.now ++ 32 ∷ kind_word found.1) }
    ensures none { IfNone result (HasNoForm text.now) }
{
    let (name, word) = text.split_once(' ')?;
    let kind = kind_of(word)?;
    Some((name, kind))
}

fn kind_of(word: &str) -> Option<Kind>
    ensures some { IfSome result (λ kind. word.now ≡ kind_word kind) }
    ensures none { IfNone result ((kind : Kind) → word.now ≢ kind_word kind) }
{
    match word {
        "int" => Some(Kind::Int),
        "text" => Some(Kind::Text),
        _ => None,
    }
}

/// Whether a column of this name stands among those before it.
fn has_column(before: &[Column], name: &str) -> bool
    ensures { result ≡ spec.has_column before.now name.now }
{
    before.iter().any(|other| other.name.as_str() == name)
}

/// Refuses too many columns, and a key that is no integer.
fn require_relation(columns: &[Column], trail: &mut Trail) -> Result<(), Rule>
    ensures fit { OnOk result (FitRelation columns.now) }
    ensures none { IfErr result (λ rule. RefusesFit columns.now rule) }
    ensures fault { IfErr result (λ rule. IsFitFault columns.now rule) }
{
    if columns.len() > COLUMNS {
        return Err(Rule::Limit);
    }
    match columns.first() {
        Some(key) if key.kind == Kind::Int => Ok(()),
        Some(_) => {
            trail.enter(ListItem::Column(0));
            Err(Rule::KeyType)
        }
        None => Err(Rule::Field),
    }
}
