//! What one session of a script says and hears.

ghost use Rattle.std.specs.Prelude.{◌≡◌, ◌++◌, [], true, IfOk, OnErr, OnOk, map, string_bytes};
ghost use Rattle.runs.specs.Conversation as spec;
ghost use Rattle.runs.specs.Conversation.{AreSaid, FailsByEnd, IsConversation, IsEnding, Says};
ghost use Rattle.wire.specs.Session.{AddsTold};

use crate::progress::Watches;
use crate::run_text::{put_denied, put_replied};
use desk::reply::{Reply, Why};
use history::told::Told;
use lines::run_script::Part;
use std::alloc::Global;
use std::sync::Wait;
use std::time::{Clock, Duration};
use store::desk_store::DeskStore;
use wire::fault::CallFault;
use wire::session::Session;

/// What was said and heard in a session.
#[derive(Drop)]
pub struct Conversation {
    /// What the session was told.
    pub told: Vec<Told>,
    /// What is printed of it.
    pub printed: String,
    /// How often a statement was said again.
    pub retries: u64,
}

/// How a session asks, and who watches what it hears.
#[derive(Drop)]
pub struct Manner<'w, P> {
    /// How often a lone statement is said again after it lost a race.
    pub retry: u32,
    pub watch: &'w P,
}

/// What came of a command, and how often it was said again.
#[derive(Drop)]
struct Came {
    reply: Result<Reply, CallFault>,
    retries: u32,
}

/// Says the commands of a part, one after another. A session that ends inside BEGIN is rolled back.
#[tactic(auto, using(crate::proofs::ConversationLemmas::converses))]
pub fn converse<R: Wait + Clock, D: DeskStore, G, P: Watches>(
    rt: &R,
    alloc: Global,
    manner: &Manner<'_, P>,
    session: Session<'_, D, G>,
    part: &Part<'_>,
) -> Result<Conversation, CallFault>
    requires { session.told ≡ [] }
    ensures ok { IfOk result (λ held. IsConversation part.now.session.now (map (λ command. command.now) part.now.commands.items) held.told.items (string_bytes held.printed)) }
    ensures end { FailsByEnd result }
{
    let mut session = session;
    let mut printed = String::new(alloc);
    let commands = part.commands.as_slice();
    let retries = say_all(
        rt,
        manner,
        &mut session,
        part.session,
        commands,
        &mut printed,
    )?;
    roll_back(rt, &mut session)?;
    Ok(Conversation {
        told: session.end(),
        printed,
        retries,
    })
}

/// Says commands, one after another. Answers how often one was said again.
#[tactic(auto, using(crate::proofs::ConversationLemmas::said_none, crate::proofs::ConversationLemmas::said_next))]
fn say_all<R: Wait + Clock, D: DeskStore, G, P: Watches>(
    rt: &R,
    manner: &Manner<'_, P>,
    session: &mut Session<'_, D, G>,
    name: &str,
    commands: &[&str],
    printed: &mut String,
) -> Result<u64, CallFault>
    requires none { session.old.told ≡ [] }
    requires nothing { string_bytes printed.old ≡ [] }
    ensures ok { OnOk result (AreSaid name.now (map (λ command. command.now) commands.now) session.new.told (string_bytes printed.new)) }
    ensures end { FailsByEnd result }
{
    let mut retries: u64 = 0;
    for command in commands {
        let again = say(rt, manner, session, name, command, printed)?;
        retries = retries.saturating_add(u64::from(again));
    }
    Ok(retries)
}

/// Says a command. Answers how often it was said again.
#[tactic(auto, using(crate::proofs::ConversationLemmas::says_reply, crate::proofs::ConversationLemmas::says_fault))]
fn say<R: Wait + Clock, D: DeskStore, G, P: Watches>(
    rt: &R,
    manner: &Manner<'_, P>,
    session: &mut Session<'_, D, G>,
    name: &str,
    command: &str,
    printed: &mut String,
) -> Result<u32, CallFault>
    ensures ok { OnOk result (Says name.now command.now session.old.told session.new.told (string_bytes printed.old) (string_bytes printed.new)) }
    ensures end { FailsByEnd result }
{
    let is_lone = !session.is_open();
    let Came { reply, retries } = ask(rt, manner.retry, session, command);
    manner.watch.heard(is_lone, &reply);
    match reply {
        Ok(reply) => put_replied(printed, name, &reply)?,
        Err(fault) => {
            if is_end(&fault) {
                return Err(fault);
            }
            put_denied(printed, name, fault)?;
        }
    }
    Ok(retries)
}

/// Asks for a command. A lone one that lost a race is asked for again, at most so often, after a pause.
fn ask<R: Wait + Clock, D: DeskStore, G>(
    rt: &R,
    retry: u32,
    session: &mut Session<'_, D, G>,
    command: &str,
) -> Came
    ensures ok { IfOk result.reply (λ reply. AddsTold session.old.told command.now reply session.new.told) }
    ensures err { OnErr result.reply (session.new.told ≡ session.old.told) }
{
    let is_lone = !session.is_open();
    let mut reply = session.execute(rt, command);
    let mut retries = 0;
    while is_lone && retries < retry && has_lost(&reply) {
        rt.sleep(pause(retries));
        retries += 1;
        reply = session.execute(rt, command);
    }
    Came { reply, retries }
}

/// How long to wait before a statement is said again: a tenth of a millisecond more each time, at most ten.
fn pause(retries: u32) -> Duration {
    let tenths = retries.saturating_add(1).min(100);
    Duration::from_micros(u64::from(tenths) * 100)
}

/// Whether a transaction aborted as another one was in its way.
fn has_lost(reply: &Result<Reply, CallFault>) -> bool
    ensures { result ≡ true → OnOk reply.now ⊥ }
{
    matches!(reply, Err(CallFault::Aborted(Why::Refused | Why::Vote)))
}

/// Rolls back what is open.
#[tactic(auto, using(crate::proofs::ConversationLemmas::ends_so))]
fn roll_back<R: Wait, D: DeskStore, G>(
    rt: &R,
    session: &mut Session<'_, D, G>,
) -> Result<(), CallFault>
    ensures ok { OnOk result ((ending : _) × IsEnding ending × (session.new.told ≡ session.old.told ++ ending)) }
    ensures end { FailsByEnd result }
{
    if !session.is_open() {
        return Ok(());
    }
    let reply = session.execute(rt, "ROLLBACK");
    unless_ended(&reply)
}

/// The fault after which the script isn't run on, if there is one.
fn unless_ended(reply: &Result<Reply, CallFault>) -> Result<(), CallFault>
    ensures { FailsByEnd result }
{
    match reply {
        Err(fault) if is_end(fault) => Err(*fault),
        _ => Ok(()),
    }
}

/// Whether the script isn't run on after this fault.
pub fn is_end(fault: &CallFault) -> bool
    ensures { result ≡ spec.is_end fault.now }
{
    matches!(
        fault,
        CallFault::Memory | CallFault::Store(_) | CallFault::Closed
    )
}
