//! The lines of a script of schedules, and what each of them asks for.

ghost use Rattle.std.specs.Prelude.{◌≡◌, ◌==◌, IfOk, map, option_map};
ghost use Rattle.std.specs.Char.{is_ascii_alphanumeric, is_ascii_digit};
ghost use Rattle.lines.specs.PlayScript as spec;
ghost use Rattle.lines.specs.Cut as text;
ghost use Rattle.lines.specs.PlayScript.{all_but_of, client_item, delivery_of, give_up_of, item_of, item_of_verb, item_of_words, number_of, numbers_of, reading_of, refragment_item, refragment_text, restart_item, shown_item, site_item, statement_item, ticket_of, verb_of};
ghost use Rattle.std.specs.List.{list_all, slice_split};

use crate::cut::{cut, pieces};
use crate::script::is_word;
use std::alloc::Global;
use store::name::Ticket;
use terms::memory::Memory;
use terms::seq::Seq;
use terms::text::Text;

/// How many bytes the name of a transaction or a session may have.
const NAME_LIMIT: usize = 16;

/// What the client of a transaction asks for.
#[derive(Drop)]
pub enum Ask {
    Begin,
    /// To begin, and to run this statement alone: it gives a relation the split that the next catalogue says.
    Refragment(Text),
    /// To run a statement, by its text.
    State(Text),
    Commit,
    Rollback,
    GiveUp,
}

/// What happens at a site.
#[derive(Clone, Copy)]
pub enum AtSite {
    /// It gives this visit up.
    GiveUp(Ticket),
    /// It asks about its prepared rows.
    Inquire,
    Restart,
}

/// One thing that a script asks for.
#[derive(Drop)]
pub enum Item {
    /// To put a row into the whole relations of the opening, by an INSERT.
    Load(Text),
    /// What the client of the transaction of this name asks for.
    Client(Text, Ask),
    /// To deliver the letter of this number, counted from 1. Where the flag is false the store call is refused.
    Deliver(usize, bool),
    /// To deliver each letter that was never delivered, but for these.
    All(Seq<usize>),
    /// What happens at the site of this name.
    Site(Text, AtSite),
    RestartDesk,
    /// To show a relation.
    Show(Text),
    /// To show a leaf.
    Leaf(Text),
    /// To show which transactions are committed.
    Committed,
}

/// What one line says.
#[derive(Drop)]
pub enum Line {
    PassedOver,
    Asks(Item),
    Malformed,
}

/// What a line with an argument begins with.
#[derive(Clone, Copy)]
enum Verb {
    Load,
    Begin,
    Refragment,
    Do,
    Commit,
    Rollback,
    Deliver,
    All,
    GiveUp,
    Inquire,
    Restart,
    Show,
    Leaf,
}

/// What a line says.
pub fn read_line(alloc: Global, line: &[u8]) -> Result<Line, Memory>
    ensures { IfOk result (λ read. read ≡ reading_of line.now) }
{
    let Ok(text) = str::from_utf8(line) else {
        return Ok(Line::Malformed);
    };
    match line.first() {
        None | Some(b'#') => Ok(Line::PassedOver),
        Some(_) => match read_item(alloc, text)? {
            Some(item) => Ok(Line::Asks(item)),
            None => Ok(Line::Malformed),
        },
    }
}

/// What a line that is not empty asks for, if it can be read.
fn read_item(alloc: Global, text: &str) -> Result<Option<Item>, Memory>
    ensures { IfOk result (λ item. item ≡ item_of text.now) }
{
    if text == "all" {
        return Ok(Some(Item::All(Seq::new(Vec::new(alloc)))));
    }
    if text == ".committed" {
        return Ok(Some(Item::Committed));
    }
    match cut(text, ' ') {
        Some((word, rest)) => item_of_words(alloc, word, rest),
        None => Ok(None),
    }
}

fn item_of_words(alloc: Global, word: &str, rest: &str) -> Result<Option<Item>, Memory>
    ensures { IfOk result (λ item. item ≡ item_of_words (word.now, rest.now)) }
{
    match read_verb(word) {
        Some(verb) => item_of_verb(alloc, verb, rest),
        None => Ok(None),
    }
}

fn item_of_verb(alloc: Global, verb: Verb, rest: &str) -> Result<Option<Item>, Memory>
    ensures { IfOk result (λ item. item ≡ item_of_verb verb rest.now) }
{
    match verb {
        Verb::Load => Ok(Some(Item::Load(Text::copy_of(alloc, rest)?))),
        Verb::Begin => client(alloc, rest, Ask::Begin),
        Verb::Refragment => refragment(alloc, rest),
        Verb::Do => statement(alloc, rest),
        Verb::Commit => client(alloc, rest, Ask::Commit),
        Verb::Rollback => client(alloc, rest, Ask::Rollback),
        Verb::Deliver => Ok(delivery(rest)),
        Verb::All => all_but(alloc, rest),
        Verb::GiveUp => give_up(alloc, rest),
        Verb::Inquire => at_site(alloc, rest, AtSite::Inquire),
        Verb::Restart => restart(alloc, rest),
        Verb::Show => shown(rest, Item::Show(Text::copy_of(alloc, rest)?)),
        Verb::Leaf => shown(rest, Item::Leaf(Text::copy_of(alloc, rest)?)),
    }
}

/// The word that a line begins with.
fn read_verb(word: &str) -> Option<Verb>
    ensures { result ≡ verb_of word.now }
{
    match call_verb(word) {
        Some(verb) => Some(verb),
        None => match event_verb(word) {
            Some(verb) => Some(verb),
            None => shown_verb(word),
        },
    }
}

fn call_verb(word: &str) -> Option<Verb>
    ensures { result ≡ spec.call_verb word.now }
{
    match word {
        "load" => Some(Verb::Load),
        "begin" => Some(Verb::Begin),
        "refragment" => Some(Verb::Refragment),
        "do" => Some(Verb::Do),
        "commit" => Some(Verb::Commit),
        "rollback" => Some(Verb::Rollback),
        _ => None,
    }
}

fn event_verb(word: &str) -> Option<Verb>
    ensures { result ≡ spec.event_verb word.now }
{
    match word {
        "deliver" => Some(Verb::Deliver),
        "all" => Some(Verb::All),
        "giveup" => Some(Verb::GiveUp),
        "inquire" => Some(Verb::Inquire),
        "restart" => Some(Verb::Restart),
        _ => None,
    }
}

fn shown_verb(word: &str) -> Option<Verb>
    ensures { result ≡ spec.shown_verb word.now }
{
    match word {
        ".show" => Some(Verb::Show),
        ".leaf" => Some(Verb::Leaf),
        _ => None,
    }
}

/// What the client of a transaction asks for.
fn client(alloc: Global, name: &str, ask: Ask) -> Result<Option<Item>, Memory>
    ensures { IfOk result (λ item. item ≡ client_item name.now ask) }
{
    if !is_name(name) {
        return Ok(None);
    }
    Ok(Some(Item::Client(Text::copy_of(alloc, name)?, ask)))
}

fn statement(alloc: Global, rest: &str) -> Result<Option<Item>, Memory>
    ensures { IfOk result (λ item. item ≡ statement_item rest.now) }
{
    match cut(rest, ' ') {
        Some((name, text)) => client(alloc, name, Ask::State(Text::copy_of(alloc, text)?)),
        None => Ok(None),
    }
}

fn refragment(alloc: Global, rest: &str) -> Result<Option<Item>, Memory>
    ensures { IfOk result (λ item. item ≡ refragment_item (text.cut 32 rest.now)) }
{
    match cut(rest, ' ') {
        Some((name, relation)) if is_word(relation) => {
            client(
                alloc,
                name,
                Ask::Refragment(refragment_text(alloc, relation)?),
            )
        }
        _ => Ok(None),
    }
}

/// The statement that gives a relation another split.
fn refragment_text(alloc: Global, relation: &str) -> Result<Text, Memory>
    ensures { IfOk result (λ statement. statement ≡ refragment_text relation.now) }
{
    let mut statement = String::new(alloc);
    write!(statement, "REFRAGMENT {relation}")?;
    Text::new(statement)
}

fn delivery(rest: &str) -> Option<Item>
    ensures { result ≡ delivery_of (text.cut 32 rest.now) rest.now }
{
    match cut(rest, ' ') {
        None => Some(Item::Deliver(number(rest)? as usize, true)),
        Some((word, "refuse")) => Some(Item::Deliver(number(word)? as usize, false)),
        Some(_) => None,
    }
}

fn all_but(alloc: Global, rest: &str) -> Result<Option<Item>, Memory>
    ensures { IfOk result (λ item. item ≡ all_but_of (text.cut 32 rest.now)) }
{
    match cut(rest, ' ') {
        Some(("but", words)) => match numbers(alloc, words)? {
            Some(numbers) => Ok(Some(Item::All(Seq::new(numbers)))),
            None => Ok(None),
        },
        _ => Ok(None),
    }
}

/// Numbers with one space between.
fn numbers(alloc: Global, text: &str) -> Result<Option<Vec<usize>>, Memory>
    ensures { IfOk result (λ numbers. option_map (λ found. found.items) numbers ≡ numbers_of (slice_split (λ byte. byte == 32) text.now)) }
{
    let words = pieces(alloc, text, ' ')?;
    numbers_in(alloc, words.as_slice())
}

fn numbers_in(alloc: Global, words: &[&str]) -> Result<Option<Vec<usize>>, Memory>
    ensures { IfOk result (λ numbers. option_map (λ found. found.items) numbers ≡ numbers_of (map (λ word. word.now) words.now)) }
{
    let mut numbers = Vec::new(alloc);
    for word in words {
        match number(word) {
            Some(number) => numbers.push(number as usize)?,
            None => return Ok(None),
        }
    }
    Ok(Some(numbers))
}

fn give_up(alloc: Global, rest: &str) -> Result<Option<Item>, Memory>
    ensures { IfOk result (λ item. item ≡ give_up_of (text.cut 32 rest.now) rest.now) }
{
    let Some((site, visit)) = cut(rest, ' ') else {
        return client(alloc, rest, Ask::GiveUp);
    };
    if !is_word(site) {
        return Ok(None);
    }
    match ticket(visit) {
        Some(ticket) => {
            let site = Text::copy_of(alloc, site)?;
            Ok(Some(Item::Site(site, AtSite::GiveUp(ticket))))
        }
        None => Ok(None),
    }
}

fn at_site(alloc: Global, name: &str, doing: AtSite) -> Result<Option<Item>, Memory>
    ensures { IfOk result (λ item. item ≡ site_item name.now doing) }
{
    if !is_word(name) {
        return Ok(None);
    }
    Ok(Some(Item::Site(Text::copy_of(alloc, name)?, doing)))
}

fn restart(alloc: Global, name: &str) -> Result<Option<Item>, Memory>
    ensures { IfOk result (λ item. item ≡ restart_item name.now) }
{
    if name == "desk" {
        return Ok(Some(Item::RestartDesk));
    }
    at_site(alloc, name, AtSite::Restart)
}

fn shown(name: &str, item: Item) -> Result<Option<Item>, Memory>
    ensures { IfOk result (λ shown. shown ≡ shown_item name.now item) }
{
    if is_word(name) {
        Ok(Some(item))
    } else {
        Ok(None)
    }
}

/// Whether a text may name a transaction or a session.
pub fn is_name(text: &str) -> bool
    ensures { result ≡ spec.is_name text.now }
{
    let Some((first, rest)) = text.as_bytes().split_first() else {
        return false;
    };
    first.is_ascii_alphabetic() && are_alphanumeric(rest) && rest.len() < NAME_LIMIT
}

fn are_alphanumeric(bytes: &[u8]) -> bool
    ensures { result ≡ list_all is_ascii_alphanumeric bytes.now }
{
    bytes.iter().all(|byte| byte.is_ascii_alphanumeric())
}

/// The ticket that a text writes, if it does.
fn ticket(text: &str) -> Option<Ticket>
    ensures { result ≡ ticket_of text.now }
{
    let (life, visit) = cut(text, '.')?;
    let life = number(life)?;
    let visit = number(visit)?;
    Some(Ticket { life, visit })
}

/// The number that digits write.
pub fn number(word: &str) -> Option<u64>
    ensures { result ≡ number_of word.now }
{
    if are_digits(word.as_bytes()) {
        word.parse::<u64>().ok()
    } else {
        None
    }
}

fn are_digits(bytes: &[u8]) -> bool
    ensures { result ≡ list_all is_ascii_digit bytes.now }
{
    bytes.iter().all(|byte| byte.is_ascii_digit())
}
