//! What the coordinator answers to its clients and to the letters of a script, line by line.

use crate::letters::{letter_of_site, text_of, txn};
use crate::told::{Again, TRIES, Told, joined};
use desk::desk::Desk;
use desk::refusal::Refusal;
use desk::reply::Out;
use heard::notice::put_notice;
use samples::chains::chain;
use samples::parts::part_of;
use std::alloc::Global;
use std::fmt::Write;
use std::test::*;
use store::commit::CommitRow;
use store::desk_store::DeskStore;
use store::letter::Letter;
use store::name::Txn;
use store::plain_desk::PlainDesk;
use terms::memory::Memory;
use terms::part::Part;

/// A call of the coordinator.
#[derive(Drop)]
enum Call<'a> {
    Begin,
    Refragment(&'a str),
    State(Txn, &'a str),
    Commit(Txn),
    Rollback(Txn),
    GiveUp(Txn),
    Take(Letter),
    Restart,
}

fn make<S: DeskStore>(desk: &mut Desk<S>, call: &Call) -> Result<Out, Refusal> {
    match call {
        Call::Begin => desk.begin(),
        Call::Refragment(text) => desk.refragment(text),
        Call::State(txn, text) => desk.statement(*txn, text),
        Call::Commit(txn) => desk.commit(*txn),
        Call::Rollback(txn) => desk.rollback(*txn),
        Call::GiveUp(txn) => desk.give_up(*txn),
        Call::Take(letter) => desk.take(letter),
        Call::Restart => desk.restart(),
    }
}

/// Makes a call, once more where memory ran out.
fn make_call<S: DeskStore>(desk: &mut Desk<S>, call: &Call) -> Result<Out, Refusal> {
    match make(desk, call) {
        Err(Refusal::Memory) => make(desk, call),
        other => other,
    }
}

/// Tells a refusal, but not that memory ran out. Says whether the call is to be made once more.
fn put_refusal(told: &mut Told, refusal: Refusal) -> Result<bool, Memory> {
    if refusal == Refusal::Memory {
        return told.lacked_memory();
    }
    writeln!(told.text, "refused {} {refusal}", refusal.number())?;
    Ok(told.again.store && matches!(refusal, Refusal::Store(_)))
}

/// Starts a coordinator, with one more catalogue that comes next.
fn start<S: DeskStore + Drop>(alloc: Global, told: &mut Told, store: S) -> Result<Desk<S>, Memory> {
    told.line("start")?;
    let chain = chain(alloc)?;
    let mut store = store;
    for _ in 0..TRIES {
        match Desk::start(alloc, &chain, store) {
            Ok(desk) => return Ok(desk),
            Err(unstarted) => {
                put_refusal(told, unstarted.refusal)?;
                store = unstarted.store;
            }
        }
    }
    Err(Memory)
}

/// Tells what a call puts out: whether the store refused, the replies, and then the letters. Says whether the call is
/// to be made once more.
fn put_out(alloc: Global, told: &mut Told, out: &Out) -> Result<bool, Memory> {
    if !out.kept {
        told.line("not kept")?;
    }
    for notice in out.replies.as_slice() {
        put_notice(alloc, &mut told.text, notice)?;
    }
    for letter in out.letters.as_slice() {
        told.line(text_of(alloc, letter)?.as_str())?;
    }
    Ok(told.again.store && !out.kept)
}

/// Tells a commit row: its transaction, and who voted YES.
fn put_row(told: &mut String, row: &CommitRow) -> Result<(), Memory> {
    write!(told, "T{}", row.txn.number)?;
    for voter in row.voters.as_slice() {
        write!(told, " {} {}", voter.site.as_str(), voter.ticket)?;
    }
    told.push('\n')?;
    Ok(())
}

/// Tells the commit rows.
fn show<S: DeskStore>(told: &mut Told, desk: &mut Desk<S>) -> Result<(), Memory> {
    for _ in 0..TRIES {
        match desk.kept() {
            Ok(kept) => {
                for row in kept.commits.as_slice() {
                    put_row(&mut told.text, row)?;
                }
                return Ok(());
            }
            Err(refusal) => {
                if !put_refusal(told, refusal)? {
                    return Ok(());
                }
            }
        }
    }
    Ok(())
}

/// The call that a line asks for, if it asks for one. Rows that a letter brings are these.
fn call_of<'a>(
    alloc: Global,
    line: &'a str,
    rows: &mut Vec<Part>,
) -> Result<Option<Call<'a>>, Memory> {
    let (word, rest) = line.split_once(' ').unwrap_or((line, ""));
    let (name, text) = rest.split_once(' ').unwrap_or((rest, ""));
    if word.ends_with(">desk") {
        let rows = std::mem::replace(rows, Vec::new(alloc));
        return Ok(Some(Call::Take(letter_of_site(alloc, line, rows)?)));
    }
    Ok(match word {
        "begin" => Some(Call::Begin),
        "REFRAGMENT" => Some(Call::Refragment(line)),
        "do" => Some(Call::State(txn(name), text)),
        "commit" => Some(Call::Commit(txn(name))),
        "rollback" => Some(Call::Rollback(txn(name))),
        "giveup" => Some(Call::GiveUp(txn(name))),
        "restart" => Some(Call::Restart),
        _ => None,
    })
}

/// Makes the call that a line asks for, and tells what comes of it.
fn answer<S: DeskStore>(
    alloc: Global,
    told: &mut Told,
    desk: &mut Desk<S>,
    asked: &Call,
) -> Result<(), Memory> {
    for _ in 0..TRIES {
        let is_again = match make(desk, asked) {
            Ok(out) => put_out(alloc, told, &out)?,
            Err(refusal) => put_refusal(told, refusal)?,
        };
        if !is_again {
            return Ok(());
        }
    }
    Ok(())
}

/// Does what a line of a script asks for; other lines are what the coordinator is to put out.
fn play_line<S: DeskStore>(
    alloc: Global,
    told: &mut Told,
    desk: &mut Desk<S>,
    rows: &mut Vec<Part>,
    line: &str,
) -> Result<(), Memory> {
    if let Some(part) = line.strip_prefix("part ") {
        told.line(line)?;
        rows.push(part_of(alloc, part)?)?;
    } else if line == "rows" {
        told.line(line)?;
        show(told, desk)?;
    } else if let Some(asked) = call_of(alloc, line, rows)? {
        told.line(line)?;
        answer(alloc, told, desk, &asked)?;
    }
    Ok(())
}

/// What a coordinator over a store does by a script: each of its lines that asks for something, and what is put out.
/// The store comes back.
pub(crate) fn played<S: DeskStore + Drop>(
    alloc: Global,
    store: S,
    script: &str,
    again: Again,
) -> Result<(String, S), Memory> {
    let mut told = Told::new(alloc, again);
    let mut desk = start(alloc, &mut told, store)?;
    let mut rows = Vec::new(alloc);
    for line in script.lines() {
        play_line(alloc, &mut told, &mut desk, &mut rows, line)?;
    }
    Ok((told.text, desk.into_store()))
}

/// Whether a coordinator puts out what a script, given in pieces, says.
pub(crate) fn plays(alloc: Global, pieces: &[&str]) -> Result<bool, Memory> {
    let script = joined(alloc, pieces)?;
    let (told, _store) = played(alloc, PlainDesk::new(alloc), script.as_str(), Again::ALL)?;
    Ok(told.as_str() == script.as_str())
}

/// A row is moved from one site to the other, and the first site votes.
pub(crate) const MOVED: &str = "start
begin T1
T1: begun
do T1 UPDATE emp SET dept = dept + 5 WHERE id = 1
desk>north Open T1
desk>south Open T1
north>desk Ticket T1 1.1
desk>north Fetch T1 1.1 1 emp.1 where id = 1
desk>north Fetch T1 1.1 2 emp.2 where id = 1
south>desk Ticket T1 1.1
desk>south Fetch T1 1.1 1 emp.3 where id = 1
part 1, 'Ada'
north>desk Rows T1 1.1 1 1
part 1, 7, 100
north>desk Rows T1 1.1 2 1
south>desk Rows T1 1.1 1 0
T1: changed 1
desk>north Del T1 1.1 3 emp.2 1
desk>south Put T1 1.1 2 emp.3 1, 12, 100
commit T1
desk>north Prepare T1 1.1 3
desk>south Prepare T1 1.1 2
north>desk Vote T1 1.1 YES
";

/// The other can't commit: nothing is kept, and a visit that begins later hears Abort.
pub(crate) const VOTED_NO: &str = "south>desk Vote T1 1.1 NO
T1: aborted 1 Vote
desk>north Abort T1 1.1
rows
south>desk Ticket T1 2.1
desk>south Abort T1 2.1
commit T1
refused 1 NoTransaction
";

/// The other can: the row is kept, and the Commits go out.
pub(crate) const VOTED_YES: &str = "south>desk Vote T1 1.1 YES
T1: committed
desk>north Commit T1 1.1
desk>south Commit T1 1.1
rows
T1 north 1.1 south 1.1
";

/// Letters come again, and don't stand for the missing Ack.
pub(crate) const ACKED: &str = "north>desk Ack T1 1.1
north>desk Ticket T1 1.2
north>desk Refused T1 1.1 Gone
north>desk Refused T1 1.1 Gone
north>desk Vote T1 1.1 NO
north>desk Ack T1 1.1
rows
T1 north 1.1 south 1.1
south>desk Ack T1 1.1
rows
";

/// While nothing is decided, who inquires hears nothing.
pub(crate) const UNDECIDED: &str = "north>desk Inquire T1 1.1
rollback T1
refused 3 Ended
";

/// Once it is committed, who inquires hears so.
pub(crate) const DECIDED: &str = "north>desk Inquire T1 1.1
desk>north Commit T1 1.1
";

/// A restart before the decision aborts: a vote comes too late, and who inquires hears Abort.
pub(crate) const RESTARTED: &str = "restart
T1: aborted 4 Restart
south>desk Vote T1 1.1 YES
north>desk Inquire T1 1.1
desk>north Abort T1 1.1
south>desk Inquire T1 1.1
desk>south Abort T1 1.1
rows
";

/// A restart after it sends the Commits again, until both Acks have come.
pub(crate) const SENT_AGAIN: &str = "restart
desk>north Commit T1 1.1
desk>south Commit T1 1.1
north>desk Ack T1 1.1
rows
T1 north 1.1 south 1.1
south>desk Ack T1 1.1
rows
";

/// Who only reads commits without a row, and hears of it once.
pub(crate) const READ: &str = "start
begin T1
T1: begun
do T1 SELECT name FROM emp
desk>north Open T1
north>desk Ticket T1 1.1
desk>north Fetch T1 1.1 1 emp.1
part 1, 'Ada'
north>desk Rows T1 1.1 1 1
T1: name
T1: Ada
T1: 1 row
commit T1
desk>north Prepare T1 1.1 1
north>desk Vote T1 1.1 READ
T1: committed
rows
do T1 SELECT name FROM emp
refused 1 NoTransaction
begin T2
T2: begun
commit T2
T2: committed
";

/// One site only reads, and lets go with its vote: the other alone is in the row.
pub(crate) const READ_AND_WRITTEN: &str = "start
begin T1
T1: begun
do T1 UPDATE emp SET dept = dept + 5 WHERE id = 1
desk>north Open T1
desk>south Open T1
north>desk Ticket T1 1.1
desk>north Fetch T1 1.1 1 emp.1 where id = 1
desk>north Fetch T1 1.1 2 emp.2 where id = 1
south>desk Ticket T1 1.1
desk>south Fetch T1 1.1 1 emp.3 where id = 1
part 1, 'Ada'
north>desk Rows T1 1.1 1 1
north>desk Rows T1 1.1 2 0
part 1, 12, 100
south>desk Rows T1 1.1 1 1
T1: changed 1
desk>south Put T1 1.1 2 emp.3 1, 17, 100
commit T1
desk>north Prepare T1 1.1 2
desk>south Prepare T1 1.1 2
north>desk Vote T1 1.1 READ
south>desk Vote T1 1.1 YES
T1: committed
desk>south Commit T1 1.1
rows
T1 south 1.1
south>desk Ack T1 1.1
rows
";

/// A statement that waits; then a site refuses an operation.
const REFUSED: &str = "start
begin T1
T1: begun
do T1 SELECT nam FROM emp
refused 5 Read
do T1 UPDATE emp SET pay = 5 WHERE id = 1
desk>north Open T1
desk>south Open T1
do T1 SELECT name FROM emp
refused 2 Busy
commit T1
refused 2 Busy
north>desk Ticket T1 1.2
desk>north Fetch T1 1.2 1 emp.1 where id = 1
desk>north Fetch T1 1.2 2 emp.2 where id = 1
north>desk Refused T1 1.2 Lock
T1: aborted 2 Refused
desk>north Abort T1 1.2
south>desk Ticket T1 1.1
desk>south Abort T1 1.1
";

#[test]
fn letters_of_a_desk(rt: HostRuntime) {
    let cases = [
        ("lost", &[MOVED, VOTED_NO][..]),
        ("committed", &[MOVED, VOTED_YES, ACKED][..]),
        ("in doubt", &[MOVED, UNDECIDED, VOTED_YES, DECIDED][..]),
        ("restarted", &[MOVED, RESTARTED][..]),
        ("sent again", &[MOVED, VOTED_YES, SENT_AGAIN][..]),
        ("read", &[READ][..]),
        ("read and written", &[READ_AND_WRITTEN][..]),
        ("refused", &[REFUSED][..]),
    ];
    for (name, pieces) in cases {
        let same = plays(rt.alloc(), pieces).or_else(|_| plays(rt.alloc(), pieces));
        assert!(rt; same == Ok(true), "{name}");
    }
}

/// How many transactions may be undecided.
const UNDECIDED_MOST: u64 = 256;

/// Whether so many transactions begin as may be undecided, and one more only where one of them is given up.
fn begins(alloc: Global) -> Result<bool, Memory> {
    let mut told = Told::new(alloc, Again::ALL);
    let mut desk = start(alloc, &mut told, PlainDesk::new(alloc))?;
    for _ in 0..UNDECIDED_MOST {
        if make_call(&mut desk, &Call::Begin).is_err() {
            return Ok(false);
        }
    }
    let full = matches!(make_call(&mut desk, &Call::Begin), Err(Refusal::Full));
    let given_up = make_call(&mut desk, &Call::GiveUp(txn("T7"))).is_ok();
    let room = make_call(&mut desk, &Call::Begin).is_ok();
    let full_again = matches!(make_call(&mut desk, &Call::Begin), Err(Refusal::Full));
    Ok(full && given_up && room && full_again)
}

#[test]
fn undecided_transactions(rt: HostRuntime) {
    let same = begins(rt.alloc()).or_else(|_| begins(rt.alloc()));
    assert!(rt; same == Ok(true));
}
