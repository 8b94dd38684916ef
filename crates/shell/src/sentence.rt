//! Why the text of a statement is refused, told with its place.

ghost use Rattle.std.specs.Prelude.{IfOk, string_bytes};
ghost use Rattle.shell.specs.Lines.{PointsAt};

use crate::Made;
use crate::nearest::{joined, listed, put_choices, put_meant};
use crate::window::{line_at, put_line, split_at};
use meaning::schema::{RelationSchema, Schema};
use reader::fault::{ReadFault, Rule};
use reader::lexer::tokens;
use reader::parser::{parse, parse_conditions};
use std::alloc::{AllocError, Global};
use terms::value::Kind;

/// The words that a statement can begin with.
const STATEMENTS: &str = "SELECT INSERT UPDATE DELETE REFRAGMENT BEGIN COMMIT ROLLBACK";

/// What can stand in a text: a text of it, or a sign between marks; behind a colon how it is called, if not so; and
/// behind another one of what it is a part, so that it is not named beside it.
const SAMPLES: &str = "SELECT:a statement|`*`|x:a name|'':a constant|1:an integer:a constant|\
    <:a comparison|`=`:`=`:a comparison|FROM|JOIN|ON|WHERE|AND|INTO|VALUES|SET|\
    `,`|`.`|`(`|`)`|`+`|`-`:`-`:a constant|`;`|:the end";

/// A text as it stands around a fault: a statement, or conditions; what stands before the fault, and the rest; the
/// tokens of both, none where they have none; the relations that it names, or all where it names none; and all.
#[derive(Drop)]
struct Around<'a> {
    is_statement: bool,
    front: &'a str,
    rest: &'a str,
    before: Vec<&'a str>,
    from: Vec<&'a str>,
    tables: Vec<&'a RelationSchema>,
    relations: &'a [RelationSchema],
}

/// Three lines: the text, or what of it is near the fault; a caret below the fault's place; and a sentence on
/// what was found there and what could stand there.
pub fn explain(alloc: Global, schema: &Schema, text: &str, fault: &ReadFault) -> Made<String>
    ensures { IfOk result (λ lines. PointsAt text.now fault.now.offset (string_bytes lines)) }
{
    explain_over(alloc, schema.relations.as_slice(), true, text, fault)
}

/// The same of a statement over these relations, or of conditions on the columns of the only one.
pub(crate) fn explain_over(
    alloc: Global,
    relations: &[RelationSchema],
    is_statement: bool,
    text: &str,
    fault: &ReadFault,
) -> Made<String>
    ensures { IfOk result (λ lines. PointsAt text.now fault.now.offset (string_bytes lines)) }
{
    let (line, column) = line_at(alloc, text, fault.offset())?;
    let (front, rest) = split_at(text, fault.offset());
    let around = Around {
        is_statement,
        front,
        rest,
        before: words(alloc, front)?,
        from: words(alloc, rest)?,
        tables: tables(alloc, relations, words(alloc, text)?.as_slice())?,
        relations,
    };
    let (mut out, mut sentence) = (String::new(alloc), String::new(alloc));
    put_sentence(&mut sentence, &around, fault.rule())?;
    put_line(&mut out, line.as_str(), column)?;
    out.push_str(sentence.as_str())?;
    out.push('\n')?;
    Ok(out)
}

/// What was read, or the fault of the text; that memory ran out is none.
pub(crate) fn unless_memory<T>(read: Result<T, ReadFault>) -> Made<Result<T, ReadFault>> {
    match read {
        Err(fault) if fault.rule() == Rule::Memory => Err(AllocError),
        read => Ok(read),
    }
}

/// The tokens of a text as they are written; none where it has none.
fn words(alloc: Global, text: &str) -> Made<Vec<&str>> {
    let mut words = Vec::new(alloc);
    let Ok(tokens) = unless_memory(tokens(alloc, text.as_bytes()))? else {
        return Ok(words);
    };
    let mut end = text.len();
    for placed in tokens.iter().rev() {
        let (_, word) = split_at(split_at(text, end).0, placed.offset);
        words.push(word.trim_ascii_end())?;
        end = placed.offset;
    }
    words.reverse();
    Ok(words)
}

/// The relations that a statement of these words names, in their order; all, where it names none.
fn tables<'a>(
    alloc: Global,
    relations: &'a [RelationSchema],
    words: &[&str],
) -> Made<Vec<&'a RelationSchema>> {
    let mut tables = Vec::new(alloc);
    for (before, word) in words.iter().zip(words.iter().skip(1)) {
        if count(&["FROM", "JOIN", "INTO", "UPDATE"], before) > 0 {
            tables.extend(relations.iter().filter(|it| it.name.as_str() == *word))?;
        }
    }
    if tables.is_empty() {
        tables.extend(relations.iter())?;
    }
    Ok(tables)
}

/// How many of the words are this keyword or sign.
fn count(words: &[&str], wanted: &str) -> usize {
    let same = words.iter().filter(|it| it.eq_ignore_ascii_case(wanted));
    same.count()
}

/// The names of a relation's columns from a place on.
pub(crate) fn names_of(alloc: Global, table: &RelationSchema, from: usize) -> Made<Vec<&str>> {
    let columns = table.columns.as_slice().iter().skip(from);
    columns.map(|column| column.name.as_str()).collect(alloc)
}

/// The same with commas between.
fn list_of(alloc: Global, table: &RelationSchema, from: usize) -> Made<String> {
    listed(alloc, names_of(alloc, table, from)?.as_slice())
}

/// The type of a relation's column, if it has one of this name.
fn kind_in(table: &RelationSchema, name: &str) -> Option<&'static str> {
    let mut columns = table.columns.as_slice().iter();
    match columns.find(|it| it.name.as_str() == name)?.kind {
        Kind::Int => Some("int"),
        Kind::Text => Some("text"),
    }
}

/// The name of the column that the value behind these words is for, or is compared with.
fn target<'a>(before: &[&'a str], tables: &[&'a RelationSchema]) -> &'a str {
    match (before, tables) {
        ([insert, ..], [table, ..]) if insert.eq_ignore_ascii_case("INSERT") => {
            let column = table.columns.as_slice().get(count(before, ","));
            column.map_or("", |it| it.name.as_str())
        }
        ([.., name, _], _) => name,
        _ => "",
    }
}

/// What was found at the fault's place, and what could stand there.
fn put_sentence(out: &mut String, around: &Around<'_>, rule: Rule) -> Made<()> {
    let alloc = *out.allocator();
    let (before, tables) = (around.before.as_slice(), around.tables.as_slice());
    match (rule, around.from.as_slice(), tables) {
        (Rule::TooLong, _, _) => {
            let bytes = around.front.len().saturating_add(around.rest.len());
            write!(out, "the text has {bytes} bytes; at most 4096 can be read")
        }
        (Rule::Character, _, _) => put_character(out, around),
        (Rule::Syntax, _, _) => put_unexpected(out, around),
        (Rule::NoRelation, [name, ..], _) => {
            write!(out, "no relation `{name}`; there are ")?;
            put_others(out, around.relations, &[], name)
        }
        (Rule::NoColumn, [relation, ".", name, ..], _) => put_absent(out, tables, relation, name),
        (Rule::NoColumn, [name, ..], _) => put_absent(out, tables, "", name),
        (Rule::Ambiguous, [name, ..], _) => put_ambiguous(out, tables, name),
        (Rule::WrongType, from, _) => put_wrong_type(out, around, from),
        (Rule::KeyColumn, [key, ..], [table, ..]) => {
            let (name, others) = (&table.name, list_of(alloc, table, 1)?);
            write!(out, "`{key}` is the key of {name}, which stays as it is; ")?;
            write!(out, "SET can change {others}")
        }
        (Rule::JoinNotKey, _, _) => put_no_join(out, around),
        (Rule::Count, _, [table, ..]) => {
            let values = count(before, ",").saturating_add(1);
            let noun = if values == 1 { "value" } else { "values" };
            let (name, wanted) = (&table.name, table.columns.as_slice().len());
            let list = list_of(alloc, table, 0)?;
            write!(out, "{values} {noun} for the {wanted} columns ")?;
            write!(out, "of {name} ({list})")
        }
        (Rule::Limit, _, _) => put_limit(out, around),
        (rule, _, _) => out.push_str(rule.name()),
    }
}

/// A character that begins no token, or that no text has.
fn put_character(out: &mut String, around: &Around<'_>) -> Made<()> {
    match around.rest.chars().next() {
        Some('\'') => out.push_str("the text that begins here has no end; another ' ends it"),
        Some('\u{1b}') => {
            out.push_str("found an escape, which an arrow key sends; ")?;
            out.push_str("bin/fragdb lets lines be edited where rlwrap is installed")
        }
        Some(control) if control.is_ascii_control() => {
            let code = control as u32;
            write!(out, "found the control character {code}; a text has none")
        }
        _ => put_unexpected(out, around),
    }
}

/// A constant or a column of another type than its place asks for.
fn put_wrong_type(out: &mut String, around: &Around<'_>, from: &[&str]) -> Made<()> {
    let target = target(around.before.as_slice(), around.tables.as_slice());
    match (from, around.tables.as_slice()) {
        (["-", digits, ..], _) => write!(out, "expected a text for `{target}`, found -{digits}"),
        ([found, ..], _) if !matches!(found.as_bytes(), [b'a'..=b'z', ..]) => {
            let is_text = found.starts_with('\'');
            let wanted = if is_text { "an integer" } else { "a text" };
            write!(out, "expected {wanted} for `{target}`, found {found}")
        }
        ([from, "+" | "-", ..], [table, ..]) => {
            let (kind, of) = (kind_in(table, target), kind_in(table, from));
            let (kind, of) = (kind.unwrap_or(""), of.unwrap_or(""));
            out.push_str("a sum is of an int column for an int column; ")?;
            write!(out, "`{target}` is {kind}, `{from}` is {of}")
        }
        ([_, ".", name, ..] | [name, ..], _) => {
            write!(out, "`{name}` is a text; the columns after ON are int")
        }
        _ => Ok(()),
    }
}

/// Something that is larger than the language allows.
fn put_limit(out: &mut String, around: &Around<'_>) -> Made<()> {
    let (word, before) = (word_of(around.rest), around.before.as_slice());
    let is_condition = !around.is_statement || count(before, "WHERE") > 0;
    match around.rest.chars().next() {
        Some('\'') => {
            out.push_str("the text is too long; ")?;
            out.push_str("a text has at most 200 bytes, one in a condition at most 100")
        }
        Some('0'..='9') => {
            write!(out, "{word} is too large; ")?;
            out.push_str("integers go from -9223372036854775808 to 9223372036854775807")
        }
        _ if around.from.is_empty() => {
            out.push_str("the name is too long; a name has at most 24 bytes")
        }
        _ if is_condition => out.push_str("there are at most 8 conditions"),
        _ if count(before, "UPDATE") > 0 => {
            write!(out, "`{word}` is set already; a column is set once")
        }
        _ => out.push_str("a SELECT lists at most 32 columns"),
    }
}

/// Another token than one that could stand there.
fn put_unexpected(out: &mut String, around: &Around<'_>) -> Made<()> {
    let (alloc, word) = (*out.allocator(), word_of(around.rest));
    let mut wanted = wanted_behind(alloc, around)?;
    if let Some((last, others)) = wanted.as_slice().split_last() {
        let others = joined(alloc, others, ", ")?;
        let or = if others.is_empty() { "" } else { " or " };
        write!(out, "expected {others}{or}{last}, ")?;
    }
    match around.rest.chars().next() {
        None => out.push_str("found the end")?,
        Some('\'') => out.push_str("found a text")?,
        Some('0'..='9') => write!(out, "found the integer {word}")?,
        Some('A'..='Z' | 'a'..='z') => write!(out, "found the word `{word}`")?,
        Some(other) => write!(out, "found `{other}`")?,
    }
    if wanted.is_empty() {
        return out.push_str(", which cannot stand here");
    }
    if wanted.contains(&"a statement") {
        wanted.extend(STATEMENTS.split(' '))?;
    }
    let capitals = word.to_ascii_uppercase(alloc)?;
    put_meant(out, "", capitals.as_str(), wanted.as_slice())
}

/// How that is called which could stand behind the front: with which some text goes on.
fn wanted_behind(alloc: Global, around: &Around<'_>) -> Made<Vec<&'static str>> {
    let (front, mut wanted) = (around.front, Vec::new(alloc));
    for row in SAMPLES.split('|') {
        let (sample, called) = row.split_once(':').unwrap_or((row, row));
        let (name, whole) = called.split_once(':').unwrap_or((called, ""));
        let text = format!(in alloc; "{front} {}", sample.trim_matches('`'))?;
        let fault = match tokens(alloc, text.as_bytes()) {
            Ok(tokens) if around.is_statement => parse(alloc, tokens.as_slice()).err(),
            Ok(tokens) => parse_conditions(alloc, tokens.as_slice()).err(),
            Err(fault) => Some(fault),
        };
        let can_stand = match fault {
            Some(fault) if fault.rule() == Rule::Memory => return Err(AllocError),
            Some(fault) if fault.rule() == Rule::Syntax && !sample.is_empty() => {
                fault.offset() > front.len().saturating_add(1)
            }
            other => other.is_none(),
        };
        if can_stand && !wanted.contains(&whole) {
            wanted.push(name)?;
        }
    }
    Ok(wanted)
}

/// The digits that a text begins with, or else its letters, digits and underscores.
fn word_of(text: &str) -> &str {
    let bytes = text.as_bytes();
    let is_number = bytes.first().is_some_and(|first| first.is_ascii_digit());
    let end = bytes.iter().position(|next| {
        !next.is_ascii_digit() && (is_number || !next.is_ascii_alphabetic() && *next != b'_')
    });
    split_at(text, end.unwrap_or(text.len())).0
}

/// The names of all relations but these, and which of them a word was likely meant to be.
fn put_others(out: &mut String, all: &[RelationSchema], but: &[&str], word: &str) -> Made<()> {
    let names = all.iter().map(|it| it.name.as_str());
    let names = names.filter(|name| !but.contains(name));
    let names: Vec<&str> = names.collect(*out.allocator())?;
    put_choices(out, word, names.as_slice())
}

/// A column that no relation of the statement has, or behind a name that is none of them.
fn put_absent(out: &mut String, tables: &[&RelationSchema], of: &str, name: &str) -> Made<()> {
    let alloc = *out.allocator();
    let (mut names, mut own, mut all) = (Vec::new(alloc), String::new(alloc), String::new(alloc));
    for table in tables {
        let list = list_of(alloc, table, 0)?;
        write!(all, "; {} has {list}", table.name)?;
        if of.is_empty() || of == table.name.as_str() {
            write!(own, "; {} has {list}", table.name)?;
            names.extend_from_slice(names_of(alloc, table, 0)?.as_slice())?;
        }
    }
    if own.is_empty() {
        return write!(out, "no relation `{of}` in the statement{all}");
    }
    write!(out, "no column `{name}`{own}")?;
    put_meant(out, "`", name, names.as_slice())
}

/// A column that several relations have.
fn put_ambiguous(out: &mut String, tables: &[&RelationSchema], name: &str) -> Made<()> {
    let alloc = *out.allocator();
    let having = tables.iter().filter(|it| kind_in(it, name).is_some());
    let having: Vec<&str> = having.map(|it| it.name.as_str()).collect(alloc)?;
    match having.len() == tables.len() {
        true => out.push_str("each relation has")?,
        false => write!(out, "{} have", joined(alloc, having.as_slice(), " and ")?)?,
    }
    let between = format!(in alloc; ".{name} or ")?;
    let columns = joined(alloc, having.as_slice(), between.as_str())?;
    write!(out, " a column `{name}`; write {columns}.{name}")
}

/// A join that goes by no key and column before it, or is with a relation that stands before it.
fn put_no_join(out: &mut String, around: &Around<'_>) -> Made<()> {
    let (alloc, joins) = (*out.allocator(), count(around.before.as_slice(), "JOIN"));
    let Some((earlier, [table, ..])) = around.tables.split_at_checked(joins) else {
        return Ok(());
    };
    let name = table.name.as_str();
    if matches!(around.before.as_slice(), [.., last] if last.eq_ignore_ascii_case("JOIN")) {
        let names = earlier.iter().map(|it| it.name.as_str());
        let names: Vec<&str> = names.collect(alloc)?;
        let place = match names.first() {
            Some(first) if *first == name => "stands after FROM",
            _ => "is joined already",
        };
        write!(out, "{name} {place}; a join is with another relation: ")?;
        return put_others(out, around.relations, names.as_slice(), "");
    }
    let columns = names_of(alloc, table, 0)?;
    let key = columns.first().copied().unwrap_or("");
    write!(out, "a join goes by the key of {name}: ")?;
    write!(out, "expected {name}.{key} and a column of ")?;
    let mut between = "";
    for table in earlier {
        let list = list_of(alloc, table, 0)?;
        write!(out, "{between}{} ({list})", table.name)?;
        between = " or ";
    }
    Ok(())
}
