//! What a site answers to the letters of a script, line by line.

use crate::letters::{letter, text_of};
use crate::told::{Again, TRIES, Told};
use reader::print_statement::print_part;
use samples::parts::{leaf, part_of};
use site::fault::SiteFault;
use site::site::{Site, Unstarted};
use std::alloc::Global;
use std::fmt::Write;
use std::test::*;
use store::changes::Changes;
use store::letter::Letter;
use store::plain_site::PlainSite;
use store::site_store::SiteStore;
use terms::copy::TryCopy;
use terms::leaf::Leaf;
use terms::memory::Memory;
use terms::text::Text;

/// The leaves that a line's words from the third on name.
fn leaves(alloc: Global, line: &str) -> Result<Vec<Leaf>, Memory> {
    let mut leaves = Vec::new(alloc);
    for word in line.split(' ').skip(2) {
        leaves.push(leaf(alloc, word)?)?;
    }
    Ok(leaves)
}

/// A store of the parts that lines such as `emp.2 1, 7, 100` tell.
pub(crate) fn opening(alloc: Global, lines: &[&str]) -> Result<PlainSite, Memory> {
    let mut parts = Changes::new(alloc);
    for line in lines {
        let (word, values) = line.split_once(' ').unwrap_or((line, ""));
        parts.put(leaf(alloc, word)?, part_of(alloc, values)?)?;
    }
    PlainSite::with_parts(alloc, parts)
}

/// Tells a fault, but not that memory ran out. Says whether the call is to be made once more.
fn put_fault(told: &mut Told, fault: SiteFault) -> Result<bool, Memory> {
    if fault == SiteFault::Memory {
        return told.lacked_memory();
    }
    writeln!(told.text, "{} {fault}", fault.number())?;
    Ok(told.again.store && matches!(fault, SiteFault::Store(_)))
}

fn put_letter(alloc: Global, told: &mut Told, letter: &Letter) -> Result<(), Memory> {
    told.line(text_of(alloc, letter)?.as_str())
}

fn put_letters(alloc: Global, told: &mut Told, letters: &[Letter]) -> Result<(), Memory> {
    for letter in letters {
        put_letter(alloc, told, letter)?;
    }
    Ok(())
}

/// Starts the site that a line such as `start north emp.1 emp.2` names, with its leaves.
fn start<S: SiteStore + Drop>(
    alloc: Global,
    told: &mut Told,
    store: S,
    line: &str,
) -> Result<Site<S>, Memory> {
    told.line(line)?;
    let leaves = leaves(alloc, line)?;
    let mut store = store;
    for _ in 0..TRIES {
        let name = Text::copy_of(alloc, line.split(' ').nth(1).unwrap_or(""))?;
        match Site::start(alloc, name, store, leaves.as_slice()) {
            Ok(site) => return Ok(site),
            Err(Unstarted { fault, store: back }) => {
                put_fault(told, fault)?;
                store = back;
            }
        }
    }
    Err(Memory)
}

/// Gives the site a letter, and tells what it answers.
fn give<S: SiteStore + Drop>(
    alloc: Global,
    told: &mut Told,
    site: &mut Site<S>,
    letter: &Letter,
) -> Result<(), Memory> {
    for _ in 0..TRIES {
        match site.take(letter.copy()?) {
            Ok(letters) => return put_letters(alloc, told, letters.as_slice()),
            Err(fault) => {
                if !put_fault(told, fault)? {
                    return Ok(());
                }
            }
        }
    }
    Ok(())
}

fn restart<S: SiteStore + Drop>(told: &mut Told, site: &mut Site<S>) -> Result<(), Memory> {
    for _ in 0..TRIES {
        match site.restart() {
            Ok(()) => return Ok(()),
            Err(fault) => {
                if !put_fault(told, fault)? {
                    return Ok(());
                }
            }
        }
    }
    Ok(())
}

/// Tells the parts of a leaf.
fn show<S: SiteStore + Drop>(
    alloc: Global,
    told: &mut Told,
    site: &mut Site<S>,
    word: &str,
) -> Result<(), Memory> {
    for _ in 0..TRIES {
        match site.kept() {
            Ok(kept) => {
                for part in kept.parts.list(&leaf(alloc, word)?)?.as_slice() {
                    told.line(print_part(alloc, part.values())?.as_str())?;
                }
                return Ok(());
            }
            Err(fault) => {
                if !put_fault(told, fault)? {
                    return Ok(());
                }
            }
        }
    }
    Ok(())
}

/// Does what a line of a script asks for; other lines are what the site is to answer.
fn play_line<S: SiteStore + Drop>(
    alloc: Global,
    told: &mut Told,
    site: &mut Site<S>,
    line: &str,
) -> Result<(), Memory> {
    if line.starts_with("desk>") {
        let letter = letter(alloc, line)?;
        put_letter(alloc, told, &letter)?;
        return give(alloc, told, site, &letter);
    }
    if line == "restart" {
        told.line(line)?;
        return restart(told, site);
    }
    if line == "inquire" {
        told.line(line)?;
        let letters = site.inquire().or_else(|_| site.inquire())?;
        return put_letters(alloc, told, letters.as_slice());
    }
    if let Some(word) = line.strip_prefix("leaf ") {
        told.line(line)?;
        return show(alloc, told, site, word);
    }
    Ok(())
}

/// What a site over a store does by a script: each of its lines that asks for something, and what is answered. The
/// store comes back.
pub(crate) fn played<S: SiteStore + Drop>(
    alloc: Global,
    store: S,
    script: &str,
    again: Again,
) -> Result<(String, S), Memory> {
    let mut told = Told::new(alloc, again);
    let first = script.lines().next().unwrap_or("");
    let mut site = start(alloc, &mut told, store, first)?;
    for line in script.split('\n') {
        play_line(alloc, &mut told, &mut site, line)?;
    }
    Ok((told.text, site.into_store()))
}

/// Visits that are lost, a prepared row that a restart keeps, and letters that go elsewhere.
pub(crate) const WORKED: &str = "start north emp.1 emp.2
desk>north Open T1
north>desk Ticket T1 1.1
desk>north Open T1
north>desk Ticket T1 1.2
desk>north Del T1 1.1 1 emp.2 1
desk>north Del T1 1.1 1 emp.2 1
desk>north Prepare T1 1.1 2
north>desk Vote T1 1.1 NO
desk>north Prepare T1 1.1 1
north>desk Vote T1 1.1 NO
desk>north Open T2
north>desk Ticket T2 1.3
desk>north Put T2 1.3 1 emp.2 1, 7, 100
desk>north Prepare T2 1.3 1
north>desk Vote T2 1.3 YES
restart
desk>north Open T3
north>desk Ticket T3 2.1
desk>north Fetch T3 2.1 1 emp.2
north>desk Refused T3 2.1 Lock
inquire
north>desk Inquire T2 1.3
desk>north Commit T2 1.3
north>desk Ack T2 1.3
desk>north Commit T2 1.3
north>desk Ack T2 1.3
leaf emp.2
1, 7, 100
desk>south Open T4
4 Stranger
desk>north Open T4
north>desk Ticket T4 2.2
desk>north Fetch T4 2.2 1 emp.3
4 Stranger
";

/// A site's half of a moved row, whose old part is deleted; then its letters come again.
pub(crate) const MOVED: &str = "start north emp.1 emp.2
desk>north Open T1
north>desk Ticket T1 1.1
desk>north Fetch T1 1.1 1 emp.1 where id = 1
north>desk Rows T1 1.1 1 1
desk>north Fetch T1 1.1 2 emp.2 where id = 1
north>desk Rows T1 1.1 2 1
desk>north Del T1 1.1 3 emp.2 1
desk>north Prepare T1 1.1 3
north>desk Vote T1 1.1 YES
desk>north Commit T1 1.1
north>desk Ack T1 1.1
desk>north Open T1
north>desk Ticket T1 1.2
desk>north Fetch T1 1.1 1 emp.1 where id = 1
north>desk Refused T1 1.1 Gone
desk>north Fetch T1 1.1 2 emp.2 where id = 1
north>desk Refused T1 1.1 Gone
desk>north Del T1 1.1 3 emp.2 1
desk>north Prepare T1 1.1 3
north>desk Vote T1 1.1 NO
desk>north Commit T1 1.1
north>desk Ack T1 1.1
leaf emp.1
1, 'Ada'
leaf emp.2
";

/// The other site's half, which gets the new part. Its leaf is as it was until the Commit comes.
pub(crate) const MOVED_IN: &str = "start south emp.3
desk>south Open T1
south>desk Ticket T1 1.1
desk>south Fetch T1 1.1 1 emp.3 where id = 1
south>desk Rows T1 1.1 1 0
desk>south Put T1 1.1 2 emp.3 1, 12, 100
desk>south Prepare T1 1.1 2
south>desk Vote T1 1.1 YES
leaf emp.3
desk>south Commit T1 1.1
south>desk Ack T1 1.1
leaf emp.3
1, 12, 100
";

/// The same where the Put is lost, and comes after the vote.
pub(crate) const LOST: &str = "start south emp.3
desk>south Open T1
south>desk Ticket T1 1.1
desk>south Fetch T1 1.1 1 emp.3 where id = 1
south>desk Rows T1 1.1 1 0
desk>south Prepare T1 1.1 2
south>desk Vote T1 1.1 NO
desk>south Put T1 1.1 2 emp.3 1, 12, 100
leaf emp.3
";

/// The first site's half then: the old part stays.
pub(crate) const STAYS: &str = "start north emp.1 emp.2
desk>north Open T1
north>desk Ticket T1 1.1
desk>north Fetch T1 1.1 1 emp.1 where id = 1
north>desk Rows T1 1.1 1 1
desk>north Fetch T1 1.1 2 emp.2 where id = 1
north>desk Rows T1 1.1 2 1
desk>north Del T1 1.1 3 emp.2 1
desk>north Prepare T1 1.1 3
north>desk Vote T1 1.1 YES
desk>north Abort T1 1.1
desk>north Prepare T1 1.1 3
north>desk Vote T1 1.1 NO
leaf emp.2
1, 7, 100
";

/// A prepared row that a restart finds again, and an abort throws away. A visit reads what it intends itself.
pub(crate) const ABORTED: &str = "start north emp.1 emp.2
desk>north Open T1
north>desk Ticket T1 1.1
desk>north Fetch T1 1.1 1 emp.2
north>desk Rows T1 1.1 1 1
desk>north Put T1 1.1 2 emp.2 2, 12, 100
desk>north Fetch T1 1.1 3 emp.2 where id = 2
north>desk Rows T1 1.1 3 1
desk>north Del T1 1.1 4 emp.2 1
desk>north Fetch T1 1.1 5 emp.2 where id = 1
north>desk Rows T1 1.1 5 0
desk>north Prepare T1 1.1 5
north>desk Vote T1 1.1 YES
restart
inquire
north>desk Inquire T1 1.1
desk>north Abort T1 1.1
desk>north Abort T1 1.1
inquire
leaf emp.2
1, 7, 100
";

/// Two prepared rows keep their leaves to themselves until they are committed and aborted. A visit that reads ends with
/// the restart.
pub(crate) const HELD: &str = "start north emp.1 emp.2
desk>north Open T1
north>desk Ticket T1 1.1
desk>north Open T2
north>desk Ticket T2 1.2
desk>north Put T1 1.1 1 emp.1 1, 'Ada'
desk>north Put T2 1.2 1 emp.2 1, 7, 100
desk>north Prepare T1 1.1 1
north>desk Vote T1 1.1 YES
desk>north Prepare T2 1.2 1
north>desk Vote T2 1.2 YES
desk>north Commit T1 1.1
north>desk Ack T1 1.1
desk>north Abort T2 1.2
inquire
desk>north Open T3
north>desk Ticket T3 1.3
desk>north Fetch T3 1.3 1 emp.1
north>desk Rows T3 1.3 1 1
desk>north Open T4
north>desk Ticket T4 1.4
desk>north Fetch T4 1.4 1 emp.2
north>desk Rows T4 1.4 1 0
restart
desk>north Fetch T4 1.4 2 emp.1
north>desk Refused T4 1.4 Gone
leaf emp.1
1, 'Ada'
leaf emp.2
";

/// What north has at first.
pub(crate) const PARTS: [&str; 2] = ["emp.1 1, 'Ada'", "emp.2 1, 7, 100"];

/// What the other site has.
pub(crate) const NOTHING: [&str; 0] = [];

/// Whether a site over lists answers to the lines of a script what the script says.
fn plays(alloc: Global, parts: &[&str], script: &str) -> Result<bool, Memory> {
    let (told, _store) = played(alloc, opening(alloc, parts)?, script, Again::ALL)?;
    Ok(told.as_str() == script)
}

#[test]
fn letters_of_a_site(rt: HostRuntime) {
    let cases = [
        ("worked", &NOTHING[..], WORKED),
        ("moved", &PARTS[..], MOVED),
        ("moved in", &NOTHING[..], MOVED_IN),
        ("lost", &NOTHING[..], LOST),
        ("stays", &PARTS[..], STAYS),
        ("aborted", &PARTS[..], ABORTED),
        ("held", &NOTHING[..], HELD),
    ];
    for (name, parts, script) in cases {
        let same = plays(rt.alloc(), parts, script).or_else(|_| plays(rt.alloc(), parts, script));
        assert!(rt; same == Ok(true), "{name}");
    }
}
