//! The texts of letters.

ghost use Rattle.std.specs.Prelude.{◌≡◌, ◌++◌, IfOk, OnOk, string_bytes, codes};
ghost use Rattle.store.specs.LetterText.{visit_text, numbered_text, where_text, write_text, order_text, reply_text, letter_text};

use crate::letter::{Body, Letter};
use crate::name::Ticket;
use crate::order::Order;
use crate::reply::Reply;
use std::alloc::Global;
use std::fmt::Write as _;
use terms::cond::Cond;
use terms::memory::Memory;
use terms::print::{print_conds, print_values};
use terms::text::Text;
use terms::write::Write;

/// The text of a letter about a transaction of this name. The leaf that the letter names, if it names
/// one, has columns of these names.
pub fn letter_text(
    alloc: Global,
    letter: &Letter,
    txn: &str,
    columns: &[Text],
) -> Result<String, Memory>
    ensures { IfOk result (λ text. string_bytes text ≡ letter_text txn.now columns.now letter.now) }
{
    let mut out = String::new(alloc);
    let site = letter.site.as_str();
    match &letter.body {
        Body::Order(order) => {
            write!(out, "desk>{site} ")?;
            put_order(&mut out, order, txn, columns)?;
        }
        Body::Reply(reply) => {
            write!(out, "{site}>desk ")?;
            put_reply(&mut out, reply, txn)?;
        }
    }
    Ok(out)
}

fn put_order(out: &mut String, order: &Order, txn: &str, columns: &[Text]) -> Result<(), Memory>
    ensures { OnOk result (string_bytes out.new ≡ string_bytes out.old ++ order_text txn.now columns.now order.now) }
{
    match order {
        Order::Open => {
            write!(out, "Open {txn}")?;
            Ok(())
        }
        Order::Fetch(fetch) => {
            out.push_str("Fetch ")?;
            put_numbered(out, txn, fetch.ticket, fetch.op)?;
            write!(out, " {}", fetch.leaf)?;
            put_where(out, fetch.conds.as_slice(), columns)
        }
        Order::Intend(intention) => {
            put_write(out, &intention.write, txn, intention.ticket, intention.op)
        }
        Order::Prepare(prepare) => {
            out.push_str("Prepare ")?;
            put_numbered(out, txn, prepare.ticket, prepare.count)
        }
        Order::Commit(ticket) => put_visit(out, "Commit ", txn, *ticket),
        Order::Abort(ticket) => put_visit(out, "Abort ", txn, *ticket),
    }
}

fn put_reply(out: &mut String, reply: &Reply, txn: &str) -> Result<(), Memory>
    ensures { OnOk result (string_bytes out.new ≡ string_bytes out.old ++ reply_text txn.now reply.now) }
{
    match reply {
        Reply::Ticket(ticket) => put_visit(out, "Ticket ", txn, *ticket),
        Reply::Rows(rows) => {
            out.push_str("Rows ")?;
            put_numbered(out, txn, rows.ticket, rows.op)?;
            write!(out, " {}", rows.parts.as_slice().len())?;
            Ok(())
        }
        Reply::Refused(refusal) => {
            put_visit(out, "Refused ", txn, refusal.ticket)?;
            put_word(out, refusal.reason.name())
        }
        Reply::Voted(voted) => {
            put_visit(out, "Vote ", txn, voted.ticket)?;
            put_word(out, voted.vote.name())
        }
        Reply::Ack(ticket) => put_visit(out, "Ack ", txn, *ticket),
        Reply::Inquire(ticket) => put_visit(out, "Inquire ", txn, *ticket),
    }
}

/// A word behind a blank.
fn put_word(out: &mut String, word: &str) -> Result<(), Memory>
    ensures { OnOk result (string_bytes out.new ≡ string_bytes out.old ++ codes " " ++ word.now) }
{
    out.push_str(" ")?;
    out.push_str(word)?;
    Ok(())
}

/// A word, a transaction's name and a ticket.
fn put_visit(out: &mut String, word: &str, txn: &str, ticket: Ticket) -> Result<(), Memory>
    ensures { OnOk result (string_bytes out.new ≡ string_bytes out.old ++ word.now ++ visit_text txn.now ticket) }
{
    write!(out, "{word}{txn} {ticket}")?;
    Ok(())
}

/// A transaction's name, a ticket and a number.
fn put_numbered(out: &mut String, txn: &str, ticket: Ticket, number: u64) -> Result<(), Memory>
    ensures { OnOk result (string_bytes out.new ≡ string_bytes out.old ++ numbered_text txn.now ticket number) }
{
    write!(out, "{txn} {ticket} {number}")?;
    Ok(())
}

fn put_where(out: &mut String, conds: &[Cond], columns: &[Text]) -> Result<(), Memory>
    ensures { OnOk result (string_bytes out.new ≡ string_bytes out.old ++ where_text columns.now conds.now) }
{
    if conds.is_empty() {
        return Ok(());
    }
    out.push_str(" where ")?;
    print_conds(out, conds, columns)
}

fn put_write(
    out: &mut String,
    write: &Write,
    txn: &str,
    ticket: Ticket,
    op: u64,
) -> Result<(), Memory>
    ensures { OnOk result (string_bytes out.new ≡ string_bytes out.old ++ write_text (numbered_text txn.now ticket op) write.now) }
{
    match write {
        Write::Put(leaf, part) => {
            out.push_str("Put ")?;
            put_numbered(out, txn, ticket, op)?;
            write!(out, " {leaf} ")?;
            print_values(out, part.values())
        }
        Write::Del(leaf, key) => {
            out.push_str("Del ")?;
            put_numbered(out, txn, ticket, op)?;
            write!(out, " {leaf} {key}")?;
            Ok(())
        }
    }
}
