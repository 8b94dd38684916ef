//! A relation gets another split while sites work in threads: what sessions are told, and that it is woven.

use crate::site_stores::Plain;
use crate::threads::{Opened, answered, opened_over};
use history::told::Told;
use history::weave::weave;
use samples::chains::chain;
use std::alloc::Global;
use std::sync::Wait;
use std::test::*;
use std::thread::Threads;
use store::plain_desk::PlainDesk;
use store::plain_site::PlainSite;
use terms::memory::Memory;
use wire::gate::Ungated;
use wire::session::Session;

/// How often a REFRAGMENT is said again while what was committed before it isn't acknowledged yet.
const TRIES: usize = 10_000;

/// What each of two sessions says, in turn, and is answered. A second session's lines begin with a star.
const TALK: &str = "INSERT INTO emp VALUES (1, 'Ada', 7, 100)
changed 1
INSERT INTO emp VALUES (2, 'Bo', 12, 200)
changed 1
BEGIN
begun
REFRAGMENT emp
2 Busy
SELECT name FROM emp WHERE id = 2
name
Bo
1 row
*REFRAGMENT dept
10 NotAlone
COMMIT
committed
REFRAGMENT dept
11 NoNext
REFRAGMENT emp
changed 2
*SELECT name FROM emp
name
Ada
Bo
2 rows
*UPDATE emp SET dept = 9 WHERE id = 2
changed 1
*SELECT name, dept FROM emp
name\tdept
Ada\t7
Bo\t9
2 rows
REFRAGMENT emp
11 NoNext
woven
";

/// What is said, by which session, and whether again while something stands.
type Line = (&'static str, bool, bool);

const SAID: [Line; 13] = [
    ("INSERT INTO emp VALUES (1, 'Ada', 7, 100)", false, false),
    ("INSERT INTO emp VALUES (2, 'Bo', 12, 200)", false, false),
    ("BEGIN", false, false),
    ("REFRAGMENT emp", false, false),
    ("SELECT name FROM emp WHERE id = 2", false, false),
    ("REFRAGMENT dept", true, false),
    ("COMMIT", false, false),
    ("REFRAGMENT dept", false, true),
    ("REFRAGMENT emp", false, true),
    ("SELECT name FROM emp", true, false),
    ("UPDATE emp SET dept = 9 WHERE id = 2", true, false),
    ("SELECT name, dept FROM emp", true, false),
    ("REFRAGMENT emp", false, true),
];

/// What a text is answered; where it may be said again, once nothing stands any more.
fn heard<R: Wait>(
    rt: &R,
    alloc: Global,
    session: &mut Session<'_, PlainDesk, Ungated>,
    line: Line,
) -> Result<String, Memory> {
    let (text, _, again) = line;
    let mut answer = answered(rt, alloc, session, text)?;
    if again {
        for _ in 0..TRIES {
            if answer.as_str() != "10 NotAlone" {
                break;
            }
            answer = answered(rt, alloc, session, text)?;
        }
    }
    Ok(answer)
}

/// What was said and heard, and what each of two sessions told.
#[derive(Drop)]
struct Dialogue {
    text: String,
    one: Vec<Told>,
    other: Vec<Told>,
}

/// Puts a line that was said, and its answer.
fn put(text: &mut String, star: &str, said: &str, answer: &str) -> Result<(), Memory> {
    for part in [star, said, "\n", answer, "\n"] {
        text.push_str(part)?;
    }
    Ok(())
}

/// What two sessions say and hear, in turn.
fn talk_over<R: Threads + Wait>(
    rt: &R,
    alloc: Global,
    database: &Opened<PlainSite, Ungated>,
) -> Result<Dialogue, Memory> {
    let mut text = String::new(alloc);
    let mut one = database.session(rt)?;
    let mut other = database.session(rt)?;
    for line in SAID {
        let (said, is_other, _) = line;
        if is_other {
            let answer = heard(rt, alloc, &mut other, line)?;
            put(&mut text, "*", said, answer.as_str())?;
        } else {
            let answer = heard(rt, alloc, &mut one, line)?;
            put(&mut text, "", said, answer.as_str())?;
        }
    }
    Ok(Dialogue {
        text,
        one: one.end(),
        other: other.end(),
    })
}

/// What sessions say and hear while a relation gets another split, and whether that stands in what the machines did.
fn talk<R>(rt: &R, alloc: Global) -> Result<String, Memory>
where
    R: Threads + Wait + Copy + Send + 'static,
{
    let chain = chain(alloc)?;
    let database = opened_over(rt, alloc, &chain, &Plain, Ungated)?;
    let talk = talk_over(rt, alloc, &database);
    let Ok(closed) = database.close(rt) else {
        return Err(Memory);
    };
    let Dialogue { text, one, other } = talk?;
    let mut text = text;
    if weave(alloc, &closed.records, &[one.as_slice(), other.as_slice()]).is_ok() {
        text.push_str("woven\n")?;
    }
    Ok(text)
}

#[test]
fn relations_get_another_split(rt: HostRuntime) {
    let alloc = rt.alloc();
    let talk = talk(&rt, alloc).or_else(|_| talk(&rt, alloc));
    match talk {
        Ok(talk) => assert!(rt; talk.as_str() == TALK, "{talk}"),
        Err(_) => assert!(rt; false),
    }
}
