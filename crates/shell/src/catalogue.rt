//! Why the text of a catalogue is refused, told with its place.

ghost use Rattle.std.specs.Prelude.{◌≡◌, ◌++◌, true, false, is_some, IfOk, OnOk, string_bytes};
ghost use Rattle.std.specs.Option.{option_copied};
ghost use Rattle.toml.specs.Parse.{parse_document};
ghost use Rattle.shell.specs.Lines.{EndsPointed};
ghost use Rattle.shell.specs.Told.{Tells, relation_front, sentence};

use crate::place::put_place;
use crate::window::{line_at, put_line, split_at};
use catalog::fault::{CatFault, Rule};
use std::alloc::{AllocError, Global};
use terms::text::Text;
use toml::Value;

/// What is told of a fault of the catalogue of this text, in lines: what is wrong, and where.
pub fn explain(alloc: Global, text: &str, fault: &CatFault) -> Result<String, AllocError>
    // Of a document the relation and the rule's sentence, and then its place.
    ensures document { IfOk result (λ lines. is_some (parse_document text.now) ≡ true → Tells fault.now (string_bytes lines)) }
    // Of a text that is none why, and then its place.
    ensures no_document { IfOk result (λ lines. is_some (parse_document text.now) ≡ false → EndsPointed (string_bytes lines)) }
{
    match toml::table_from_str(alloc, text) {
        Ok(table) => of_document(alloc, &Value::Table(table), fault),
        Err(error) if error.is_memory() => Err(AllocError),
        Err(error) => no_toml(alloc, text, &error),
    }
}

/// Why a text is no TOML, and the line in which it isn't.
fn no_toml(alloc: Global, text: &str, error: &toml::de::Error) -> Result<String, AllocError>
    ensures { IfOk result (λ lines. EndsPointed (string_bytes lines)) }
{
    let mut out = String::new(alloc);
    write!(out, "{error}")?;
    let (front, rest) = split_at(text, error.span().map_or(0, |span| span.start));
    let front = front.rsplit('\n').next().unwrap_or("");
    let rest = rest.split('\n').next().unwrap_or("");
    let line = format!(in alloc; "{front}{rest}")?;
    let (line, column) = line_at(alloc, line.as_str(), front.len())?;
    put_line(&mut out, line.as_str(), column)?;
    Ok(out)
}

/// What is told of a fault of a document.
fn of_document(alloc: Global, root: &Value, fault: &CatFault) -> Result<String, AllocError>
    ensures { IfOk result (λ lines. Tells fault.now (string_bytes lines)) }
{
    let (mut out, mut place) = (String::new(alloc), String::new(alloc));
    put_place(&mut place, root, fault)?;
    put_relation(&mut out, fault.relation())?;
    put_sentence(&mut out, fault.rule())?;
    out.push('\n')?;
    out.push_str(place.as_str())?;
    Ok(out)
}

fn put_relation(out: &mut String, relation: Option<&Text>) -> Result<(), AllocError>
    ensures { OnOk result (string_bytes out.new ≡ string_bytes out.old ++ relation_front (option_copied relation.entry)) }
{
    match relation {
        Some(relation) => write!(out, "{relation}: "),
        None => Ok(()),
    }
}

fn put_sentence(out: &mut String, rule: &Rule) -> Result<(), AllocError>
    ensures { OnOk result (string_bytes out.new ≡ string_bytes out.old ++ sentence rule.now) }
{
    match rule {
        Rule::Toml => out.push_str("the text is no TOML"),
        Rule::Field => out.push_str("a key is missing, unknown, or has a value of another kind"),
        Rule::Name => out.push_str(
            "a name has small letters, digits and _ behind a letter, is no keyword, and has at most 24 bytes",
        ),
        Rule::Twice => out.push_str("a name stands twice"),
        Rule::NoSite => out.push_str("the catalogue has no such site"),
        Rule::KeyType => out.push_str("the first column is the key, and is an int"),
        Rule::ColumnTwice => out.push_str("a column is named twice in the groups of a split"),
        Rule::ColumnLost => out.push_str("a column is in no group of a split"),
        Rule::ColumnAbsent => out.push_str("there is no such column here"),
        Rule::WrongType => out.push_str("a constant is of another type than its column"),
        Rule::Gap(cell) => write!(out, "no branch takes the row {cell}"),
        Rule::Overlap(cell) => write!(out, "more than one branch takes the row {cell}"),
        Rule::Limit => out.push_str("something is larger than a catalogue may be"),
        Rule::Memory => out.push_str("memory ran out, which says nothing of the text"),
    }
}
