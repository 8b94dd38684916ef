//! What is printed of the events of a schedule.

ghost use Rattle.std.specs.Prelude.{◌≡◌, ◌++◌, ◌+◌, ◌<◌, ◌^◌, IfOk, OnOk, length, string_bytes};
ghost use Rattle.std.specs.List.{flat_map};
ghost use Rattle.catalog.specs.FragmentLeaf.{catalogue_leaves, leaf_named};
ghost use Rattle.catalog.specs.Relation.{catalogue_of};
ghost use Rattle.lines.specs.Cast.{name_of};
ghost use Rattle.lines.specs.Check.{names_of_columns};
ghost use Rattle.databases.specs.PlayText as spec;
ghost use Rattle.databases.specs.PlayText.{body_columns, fault_line, letter_line, letters_text, notice_text, told, why_text};

use catalog::catalogue::Catalog;
use desk::refusal::Refusal;
use desk::reply::{Notice, Out, Reply, Why};
use lines::cast::Cast;
use lines::check::columns_of;
use lines::cut::pieces;
use meaning::listed::listed;
use meaning::schema::Column;
use reader::print_answer::print_answer;
use site::fault::SiteFault;
use std::alloc::Global;
use store::letter::{Body, Letter};
use store::letter_text::letter_text;
use store::order::Order;
use terms::copy::TryCopy;
use terms::leaf::Leaf;
use terms::memory::Memory;
use terms::text::Text;

/// Puts the lines of a text, each as a client of this name hears it.
pub fn put_told(out: &mut String, name: &str, text: &str) -> Result<(), Memory>
    ensures { OnOk result (string_bytes out.new ≡ string_bytes out.old ++ told name.now text.now) }
{
    let lines = pieces(*out.allocator(), text, '\n')?;
    put_lines(out, name, lines.as_slice())
}

fn put_lines(out: &mut String, name: &str, lines: &[&str]) -> Result<(), Memory>
    ensures { OnOk result (string_bytes out.new ≡ string_bytes out.old ++ flat_map (λ line. spec.told_line name.now line.now) lines.now) }
{
    for line in lines {
        put_told_line(out, name, line)?;
    }
    Ok(())
}

fn put_told_line(out: &mut String, name: &str, line: &str) -> Result<(), Memory>
    ensures { OnOk result (string_bytes out.new ≡ string_bytes out.old ++ spec.told_line name.now line.now) }
{
    writeln!(out, "{name}: {line}")?;
    Ok(())
}

/// A reply, with no line feed at its end.
pub fn reply_text(alloc: Global, reply: &Reply) -> Result<String, Memory>
    ensures { IfOk result (λ text. string_bytes text ≡ spec.reply_text reply.now) }
{
    let text = match reply {
        Reply::Begun => String::from_str(alloc, "begun")?,
        Reply::Answer(answer) => print_answer(alloc, answer)?,
        Reply::Committed => String::from_str(alloc, "committed")?,
        Reply::RolledBack => String::from_str(alloc, "rolled back")?,
        Reply::Aborted(why) => format!(in alloc; "aborted {}", why_name(*why))?,
    };
    Ok(text)
}

/// Why a transaction aborted, by its number and name.
pub fn why_name(why: Why) -> &'static str
    ensures { result.now ≡ why_text why }
{
    match why {
        Why::Vote => "1 Vote",
        Why::Refused => "2 Refused",
        Why::GivenUp => "3 GivenUp",
        Why::Restart => "4 Restart",
        Why::Store => "5 Store",
    }
}

/// A refusal of the coordinator, with no line feed at its end.
pub fn refused_text(alloc: Global, refusal: Refusal) -> Result<String, Memory>
    ensures { IfOk result (λ text. string_bytes text ≡ spec.refused_text refusal) }
{
    match refusal {
        Refusal::Read(fault) => Ok(format!(in alloc; "refused read {fault}")?),
        other => Ok(format!(in alloc; "refused {} {other}", other.number())?),
    }
}

/// Puts a fault of the site of this name.
pub fn put_fault(out: &mut String, site: &str, fault: SiteFault) -> Result<(), Memory>
    ensures { OnOk result (string_bytes out.new ≡ string_bytes out.old ++ fault_line site.now fault) }
{
    writeln!(out, "{site}: fault {} {fault}", fault.number())?;
    Ok(())
}

/// Puts a letter about a transaction of this name, behind its number.
pub fn put_letter(
    out: &mut String,
    name: &str,
    catalog: &Catalog,
    number: usize,
    letter: &Letter,
) -> Result<(), Memory>
    ensures { OnOk result (string_bytes out.new ≡ string_bytes out.old ++ letter_line name.now (catalogue_of catalog.now) number letter.now) }
{
    let alloc = *out.allocator();
    let columns = letter_columns(alloc, catalog, letter)?;
    let text = letter_text(alloc, letter, name, columns.as_slice())?;
    writeln!(out, "{number} {text}")?;
    Ok(())
}

/// The names of the columns that the letter's conditions speak of.
fn letter_columns(alloc: Global, catalog: &Catalog, letter: &Letter) -> Result<Vec<Text>, Memory>
    ensures { IfOk result (λ names. names.items ≡ body_columns (catalogue_of catalog.now) letter.now.body) }
{
    match &letter.body {
        Body::Order(Order::Fetch(fetch)) => leaf_columns(alloc, catalog, &fetch.leaf),
        _ => Ok(Vec::new(alloc)),
    }
}

/// The names of the columns of the leaf of this name, none where it is not there.
pub fn leaf_columns(alloc: Global, catalog: &Catalog, leaf: &Leaf) -> Result<Vec<Text>, Memory>
    ensures { IfOk result (λ names. names.items ≡ spec.leaf_columns (catalogue_of catalog.now) (leaf_named leaf.now (catalogue_leaves (catalogue_of catalog.now)))) }
{
    let Some(leaf) = catalog.leaf(leaf) else {
        return Ok(Vec::new(alloc));
    };
    let columns = columns_of(catalog.schema(), &leaf.name.relation);
    let columns = listed(alloc, leaf.columns.as_slice(), columns)?;
    column_names(alloc, columns.as_slice())
}

/// The names of columns.
pub fn column_names(alloc: Global, columns: &[Column]) -> Result<Vec<Text>, Memory>
    ensures { IfOk result (λ names. names.items ≡ names_of_columns columns.now) }
{
    let mut names = Vec::new(alloc);
    for column in columns {
        names.push(column.name.copy()?)?;
    }
    Ok(names)
}

/// What an event puts out after so many letters: what clients hear, and then the letters.
pub fn out_text(
    alloc: Global,
    cast: &Cast,
    catalog: &Catalog,
    sent: usize,
    out: &Out,
) -> Result<String, Memory>
    requires { sent + length out.now.letters < 2 ^ 64 }
    ensures { IfOk result (λ text. string_bytes text ≡ spec.out_text (name_of cast.now) (catalogue_of catalog.now) sent out.now) }
{
    let mut text = String::new(alloc);
    put_notices(&mut text, cast, out.replies.as_slice())?;
    put_letters(&mut text, cast, catalog, sent, out.letters.as_slice())?;
    Ok(text)
}

fn put_notices(out: &mut String, cast: &Cast, notices: &[Notice]) -> Result<(), Memory>
    ensures { OnOk result (string_bytes out.new ≡ string_bytes out.old ++ flat_map (notice_text (name_of cast.now)) notices.now) }
{
    for notice in notices {
        put_notice(out, cast, notice)?;
    }
    Ok(())
}

fn put_notice(out: &mut String, cast: &Cast, notice: &Notice) -> Result<(), Memory>
    ensures { OnOk result (string_bytes out.new ≡ string_bytes out.old ++ notice_text (name_of cast.now) notice.now) }
{
    let text = reply_text(*out.allocator(), &notice.reply)?;
    put_told(out, cast.name(notice.txn), text.as_str())
}

fn put_letters(
    out: &mut String,
    cast: &Cast,
    catalog: &Catalog,
    sent: usize,
    letters: &[Letter],
) -> Result<(), Memory>
    requires { sent + length letters.now < 2 ^ 64 }
    ensures { OnOk result (string_bytes out.new ≡ string_bytes out.old ++ letters_text (name_of cast.now) (catalogue_of catalog.now) (sent + 1) letters.now) }
{
    for place in 0..letters.len() {
        let letter = &letters[place];
        let number = sent + 1 + place;
        put_letter(out, cast.name(letter.txn), catalog, number, letter)?;
    }
    Ok(())
}
