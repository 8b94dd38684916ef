//! The work of a site's thread.

use crate::front::Word;
use crate::gate::Gate;
use crate::patience::next;
use crate::shared::Shared;
use crossbeam_channel::Receiver;
use history::entry::Entry;
use history::site_cell::SiteCell;
use std::sync::Wait;
use std::sync::atomic::Ordering;
use store::desk_store::DeskStore;
use store::letter::Letter;
use store::site_store::SiteStore;
use terms::copy::TryCopy;
use terms::memory::Memory;
use terms::text::Text;

/// How often the gate is asked for one letter.
const TURNS: u64 = 1_000_000;

/// Serves a site until the ways to it are gone, and gives its cell back.
pub(crate) fn serve<R: Wait, S: SiteStore, D: DeskStore, G: Gate>(
    rt: &R,
    shared: &Shared<D, G>,
    words: &Receiver<Word>,
    cell: SiteCell<S>,
) -> SiteCell<S> {
    let mut cell = cell;
    for _ in rt.forever() {
        let Some(word) = next(rt, words) else {
            break;
        };
        match word {
            Word::Letter(letter) => take(rt, shared, &mut cell, letter),
            Word::Restart => restart(rt, shared, &mut cell),
        }
    }
    cell
}

/// The site takes a letter, once the gate lets it. Where it can't, or refuses it, the letter's transaction is given up.
fn take<R: Wait, S: SiteStore, D: DeskStore, G: Gate>(
    rt: &R,
    shared: &Shared<D, G>,
    cell: &mut SiteCell<S>,
    letter: Letter,
) {
    let txn = letter.txn;
    wait_for_gate(shared, cell.name(), &letter);
    let answered = match taken(shared, cell, letter) {
        Ok(answered) => answered,
        Err(_) => None,
    };
    match answered {
        Some(letters) => bring_all(rt, shared, letters.as_slice()),
        None => shared.give_up(rt, txn),
    }
}

/// The letters that a site puts out as it takes a letter; none where it refuses that.
fn taken<S: SiteStore, D: DeskStore, G: Gate>(
    shared: &Shared<D, G>,
    cell: &mut SiteCell<S>,
    letter: Letter,
) -> Result<Option<Vec<Letter>>, Memory> {
    let copy = letter.copy()?;
    let answered = answers(cell.take(letter, &shared.counter)?);
    shared.gate.done(cell.name(), &copy);
    answered
}

/// Copies of the letters that an entry's call put out; none where it was refused.
fn answers(entry: &Entry) -> Result<Option<Vec<Letter>>, Memory> {
    if entry.fault.is_some() {
        return Ok(None);
    }
    Ok(Some(entry.letters.copy()?.into_vec()))
}

/// Asks the gate until it is open for a letter. After 1,000,000 times the letter counts as forced.
fn wait_for_gate<D: DeskStore, G: Gate>(shared: &Shared<D, G>, site: &Text, letter: &Letter) {
    for _ in 0..TURNS {
        if shared.gate.ready(site, letter) {
            return;
        }
    }
    shared.forced.fetch_add(1, Ordering::SeqCst);
}

/// Brings a site's letters to the coordinator, in their order.
fn bring_all<R: Wait, D: DeskStore, G>(rt: &R, shared: &Shared<D, G>, letters: &[Letter]) {
    for letter in letters {
        shared.bring(rt, letter);
    }
}

/// The site restarts, and then asks about its prepared rows. Where memory runs out it does neither, or doesn't ask.
fn restart<R: Wait, S: SiteStore, D: DeskStore, G>(
    rt: &R,
    shared: &Shared<D, G>,
    cell: &mut SiteCell<S>,
) {
    if let Ok(letters) = asked(shared, cell) {
        bring_all(rt, shared, letters.as_slice());
    }
}

/// The letters of a site's inquiry, after it has restarted.
fn asked<S: SiteStore, D: DeskStore, G>(
    shared: &Shared<D, G>,
    cell: &mut SiteCell<S>,
) -> Result<Vec<Letter>, Memory> {
    let _restarted = cell.restart(&shared.counter)?;
    let inquired = cell.inquire(&shared.counter)?;
    Ok(inquired.letters.copy()?.into_vec())
}
