//! Letters from their texts, as `letter_text` prints them, and back.

use samples::parts::{integer, leaf, value};
use std::alloc::Global;
use store::letter::{Body, Letter};
use store::letter_text::letter_text;
use store::name::{Ticket, Txn};
use store::order::{Fetch, Intention, Order, Prepare};
use store::reply::{Reason, Refusal, Reply, Rows, Vote, Voted};
use terms::cond::{Cmp, Cond, Conds};
use terms::memory::Memory;
use terms::part::Part;
use terms::seq::Seq;
use terms::text::Text;
use terms::value::Value;
use terms::write::Write;

/// A word of a line; behind the line's end there are empty ones.
fn word<'a>(words: &[&'a str], place: usize) -> &'a str {
    words.get(place).copied().unwrap_or("")
}

fn number(word: &str) -> u64 {
    word.parse::<u64>().unwrap_or(0)
}

/// The ticket that a word such as `1.2` names.
fn ticket(word: &str) -> Ticket {
    let (life, visit) = word.split_once('.').unwrap_or((word, ""));
    Ticket {
        life: number(life),
        visit: number(visit),
    }
}

/// The part that the words behind a place name.
fn part(alloc: Global, words: &[&str]) -> Result<Part, Memory> {
    let mut values = Vec::new(alloc);
    for word in words {
        values.push(value(alloc, word)?)?;
    }
    Part::new(values)?.ok_or(Memory)
}

/// The conditions of a fetch: none, or that the key is an integer.
fn conds(alloc: Global, words: &[&str]) -> Result<Conds, Memory> {
    let mut conds = Vec::new(alloc);
    if word(words, 6) == "where" {
        conds.push(Cond {
            col: 0,
            cmp: Cmp::Eq,
            value: Value::Int(integer(word(words, 9))),
        })?;
    }
    Conds::new(conds)
}

fn fetch(alloc: Global, words: &[&str]) -> Result<Order, Memory> {
    Ok(Order::Fetch(Fetch {
        ticket: ticket(word(words, 3)),
        op: number(word(words, 4)),
        leaf: leaf(alloc, word(words, 5))?,
        conds: conds(alloc, words)?,
    }))
}

fn write(alloc: Global, words: &[&str]) -> Result<Order, Memory> {
    let leaf = leaf(alloc, word(words, 5))?;
    let write = if word(words, 1) == "Del" {
        Write::Del(leaf, integer(word(words, 6)))
    } else {
        Write::Put(leaf, part(alloc, words.get(6..).unwrap_or(&[]))?)
    };
    Ok(Order::Intend(Intention {
        ticket: ticket(word(words, 3)),
        op: number(word(words, 4)),
        write,
    }))
}

/// The order that the words of a line tell.
fn order(alloc: Global, words: &[&str]) -> Result<Order, Memory> {
    let ticket = ticket(word(words, 3));
    match word(words, 1) {
        "Fetch" => fetch(alloc, words),
        "Put" | "Del" => write(alloc, words),
        "Prepare" => Ok(Order::Prepare(Prepare {
            ticket,
            count: number(word(words, 4)),
        })),
        "Commit" => Ok(Order::Commit(ticket)),
        "Abort" => Ok(Order::Abort(ticket)),
        _ => Ok(Order::Open),
    }
}

/// What the words of a site's line tell. Rows are these.
fn reply(words: &[&str], rows: Vec<Part>) -> Reply {
    let ticket = ticket(word(words, 3));
    match word(words, 1) {
        "Rows" => Reply::Rows(Rows {
            ticket,
            op: number(word(words, 4)),
            parts: Seq::new(rows),
        }),
        "Refused" => Reply::Refused(Refusal {
            ticket,
            reason: reason(word(words, 4)),
        }),
        "Vote" => Reply::Voted(Voted {
            ticket,
            vote: vote(word(words, 4)),
        }),
        "Ack" => Reply::Ack(ticket),
        "Inquire" => Reply::Inquire(ticket),
        _ => Reply::Ticket(ticket),
    }
}

fn reason(word: &str) -> Reason {
    match word {
        "Lock" => Reason::Lock,
        "Full" => Reason::Full,
        _ => Reason::Gone,
    }
}

fn vote(word: &str) -> Vote {
    match word {
        "YES" => Vote::Yes,
        "READ" => Vote::Read,
        _ => Vote::No,
    }
}

/// The transaction of the first life that a word such as `T1` names.
pub(crate) fn txn(word: &str) -> Txn {
    Txn {
        life: 1,
        number: number(word.trim_start_matches('T')),
    }
}

fn words_of<'a>(alloc: Global, line: &'a str) -> Result<Vec<&'a str>, Memory> {
    let mut words = Vec::new(alloc);
    for word in line.split(' ') {
        words.push(word)?;
    }
    Ok(words)
}

/// The letter that a line tells, such as `desk>north Prepare T1 1.1 2`.
pub(crate) fn letter(alloc: Global, line: &str) -> Result<Letter, Memory> {
    let words = words_of(alloc, line)?;
    let words = words.as_slice();
    Ok(Letter {
        site: Text::copy_of(alloc, word(words, 0).trim_start_matches("desk>"))?,
        txn: txn(word(words, 2)),
        body: Body::Order(order(alloc, words)?),
    })
}

/// The letter that a site's line tells, such as `north>desk Vote T1 1.1 YES`. Rows, which its text only counts, are these.
pub(crate) fn letter_of_site(alloc: Global, line: &str, rows: Vec<Part>) -> Result<Letter, Memory> {
    let words = words_of(alloc, line)?;
    let words = words.as_slice();
    Ok(Letter {
        site: Text::copy_of(alloc, word(words, 0).trim_end_matches(">desk"))?,
        txn: txn(word(words, 2)),
        body: Body::Reply(reply(words, rows)),
    })
}

/// The text of a letter. A condition is one on the column `id`.
pub(crate) fn text_of(alloc: Global, letter: &Letter) -> Result<String, Memory> {
    let txn = format!(in alloc; "T{}", letter.txn.number)?;
    let mut columns = Vec::new(alloc);
    columns.push(Text::copy_of(alloc, "id")?)?;
    letter_text(alloc, letter, txn.as_str(), columns.as_slice())
}
