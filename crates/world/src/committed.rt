//! The committed transactions, as the entries of a world tell of them.

ghost use Rattle.std.specs.Prelude.{◌≡◌, ◌++◌, ◌&&◌, [], map, IfOk, OnOk, if◌then◌else◌};
ghost use Rattle.std.specs.List.{flat_map, list_any};
ghost use Rattle.std.specs.Option.{option_copied};
ghost use Rattle.world.specs.Replies.{answer_of, answers_to, committed_in, is_begun_by, is_told_committed, is_txn, is_commit, own_text, texts_of};
ghost use Rattle.world.specs.Committed.{committed_of};

use crate::event::{Call, Entry, Event};
use desk::reply::{Notice, Reply};
use meaning::answer::Answer;
use std::alloc::Global;
use store::name::Txn;
use terms::copy::TryCopy;
use terms::memory::Memory;
use terms::seq::Seq;
use terms::text::Text;

/// A committed transaction: the texts of its statements, and what they answered.
#[derive(Debug, Drop)]
pub struct Committed {
    pub txn: Txn,
    pub texts: Seq<Text>,
    pub answers: Seq<Answer>,
}

/// Whether one of these replies tells a transaction's client that it is committed.
fn say_committed(notices: &[Notice], txn: &Txn) -> bool
    ensures { result ≡ list_any (λ notice. is_txn notice.txn txn.now && is_commit notice.reply) notices.now }
{
    for notice in notices {
        if notice.txn == *txn && matches!(notice.reply, Reply::Committed) {
            return true;
        }
    }
    false
}

/// Whether a transaction's client heard that it is committed.
fn is_committed(entries: &[Entry], txn: &Txn) -> bool
    ensures { result ≡ is_told_committed entries.now txn.now }
{
    for entry in entries {
        if say_committed(entry.out.replies.as_slice(), txn) {
            return true;
        }
    }
    false
}

/// The answers among these replies to a transaction's client come behind those before.
fn add_answers(answers: &mut Vec<Answer>, notices: &[Notice], txn: &Txn) -> Result<(), Memory>
    ensures { OnOk result (answers.new.items ≡ answers.old.items ++ flat_map (λ notice. if is_txn notice.txn txn.now then answer_of notice.reply else []) notices.now) }
{
    for notice in notices {
        if let Reply::Answer(answer) = &notice.reply {
            if notice.txn == *txn {
                answers.push(answer.copy()?)?;
            }
        }
    }
    Ok(())
}

/// What a transaction's client heard as answers.
fn answers_to(alloc: Global, entries: &[Entry], txn: &Txn) -> Result<Vec<Answer>, Memory>
    ensures { IfOk result (λ answers. answers.items ≡ answers_to entries.now txn.now) }
{
    let mut answers = Vec::new(alloc);
    for entry in entries {
        add_answers(&mut answers, entry.out.replies.as_slice(), txn)?;
    }
    Ok(answers)
}

/// Whether the first of these replies is one to this transaction's client.
fn are_begun_by(notices: &[Notice], txn: &Txn) -> bool
    ensures { result ≡ is_begun_by notices.now txn.now }
{
    match notices.first() {
        Some(notice) => notice.txn == *txn,
        None => false,
    }
}

/// Whether an event brings a statement of this transaction, and its text.
fn text_in<'a>(entry: &'a Entry, txn: &Txn) -> Option<&'a Text>
    ensures { option_copied result ≡ own_text entry.now txn.now }
{
    match &entry.event {
        Event::Call(Call::State(of, text)) if of == txn => Some(text),
        Event::Call(Call::Refragment(text)) => {
            if are_begun_by(entry.out.replies.as_slice(), txn) {
                Some(text)
            } else {
                None
            }
        }
        _ => None,
    }
}

/// The texts of a transaction's statements.
fn texts_of(alloc: Global, entries: &[Entry], txn: &Txn) -> Result<Vec<Text>, Memory>
    ensures { IfOk result (λ texts. texts.items ≡ texts_of entries.now txn.now) }
{
    let mut texts = Vec::new(alloc);
    for entry in entries {
        if let Some(text) = text_in(entry, txn) {
            texts.push(text.copy()?)?;
        }
    }
    Ok(texts)
}

/// What became of a committed transaction.
fn committed_one(alloc: Global, entries: &[Entry], txn: &Txn) -> Result<Committed, Memory>
    ensures { IfOk result (λ one. one ≡ committed_of entries.now txn.now) }
{
    Ok(Committed {
        txn: *txn,
        texts: Seq::new(texts_of(alloc, entries, txn)?),
        answers: Seq::new(answers_to(alloc, entries, txn)?),
    })
}

/// The committed transactions, in the order in which their commits were asked for.
pub(crate) fn committed_in(alloc: Global, entries: &[Entry]) -> Result<Vec<Committed>, Memory>
    ensures { IfOk result (λ all. all.items ≡ map (committed_of entries.now) (committed_in entries.now)) }
{
    let mut all = Vec::new(alloc);
    for entry in entries {
        if let Event::Call(Call::Commit(txn)) = &entry.event {
            if is_committed(entries, txn) {
                all.push(committed_one(alloc, entries, txn)?)?;
            }
        }
    }
    Ok(all)
}
