//! A client's session.

ghost use Rattle.std.specs.Prelude.{◌≡◌, ◌⊎◌, ◌<◌, [], true, false, Err, IfErr, IfOk, OnErr, OnOk, vec_capacity, vec_len};
ghost use Rattle.meaning.specs.declared.statement.Refragment.{Refragment as RefragmentNow};
ghost use Rattle.meaning.specs.declared.statement.Statement.TheVariants as statements;
ghost use Rattle.reader.specs.declared.command.Command.{Command as CommandNow};
ghost use Rattle.reader.specs.declared.command.Command.TheVariants as commands;
ghost use Rattle.reader.specs.Command.{IsTextOf};
ghost use Rattle.wire.specs.Fault.{IsBusy, IsUnread, is_abort};
ghost use Rattle.desk.specs.declared.reply.Why.{Why as WhyNow};
ghost use Rattle.wire.specs.declared.fault.CallFault.TheVariants as faults;
ghost use Rattle.wire.specs.Session.{AddsTold, Ascends, IsAbove};
ghost use Rattle.wire.specs.Talk.{open_after};

use crate::fault::CallFault;
use crate::seat::Given;
use crate::shared::Shared;
use crate::talk::{Heard, Talk};
use desk::reply::Reply;
use history::told::Told;
use std::alloc::Global;
use std::marker::Model;
use std::sync::Wait;
use store::desk_store::DeskStore;
use terms::copy::TryCopy;
use terms::memory::Memory;
use terms::text::Text;

/// How many replies may be on their way to a session. A transaction has two at most that its session hasn't heard, an answer and an
/// abort, and those of a transaction that has ended are passed over as the next one begins. The room is taken as the session
/// opens, so that no reply needs memory on its way.
const REPLIES_ON_THEIR_WAY: usize = 8;

/// A client's session: it executes one text after another, and keeps what it told.
#[derive(Drop)]
pub struct Session<'a, D: DeskStore, G> {
    talk: Talk<'a, D, G>,
    told: Vec<Told>,
}

impl<'a, D: DeskStore, G> Model for Session<'a, D, G> {
    ghost use Rattle.std.specs.Prelude.{is_some};
    ghost use Rattle.wire.specs.Session.{Ascends, SessionState};

    ghost Value = { SessionState };

    ghost view = { λ s. record { schema = s.talk.shared.now.schema.relations; told = s.told.items; is_open = is_some s.talk.current } };

    ghost invariant = { λ s. Ascends s.told.items };
}

impl<'a, D: DeskStore, G> Session<'a, D, G> {
    /// A session that has told nothing.
    pub(crate) fn new(alloc: Global, shared: &'a Shared<D, G>) -> Result<Session<'a, D, G>, Memory>
        ensures schema { IfOk result (λ session. session.schema ≡ shared.now.schema.relations) }
        ensures told { IfOk result (λ session. session.told ≡ []) }
        ensures closed { IfOk result (λ session. session.is_open ≡ false) }
    {
        let (to, given) = crossbeam_channel::bounded::<Given, Global>(alloc, REPLIES_ON_THEIR_WAY)?;
        Ok(Session {
            talk: Talk {
                shared,
                to,
                given,
                current: None,
            },
            told: Vec::new(alloc),
        })
    }

    /// Executes BEGIN, COMMIT, ROLLBACK or a statement, which outside BEGIN is a transaction of its own: its answer is given only
    /// where that was committed. Each reply is told: it is put behind what was told before, with its text and the number of the
    /// coordinator's entry that put it out, which is above the others. After a fault nothing more was told. That memory
    /// ran out may also be answered where there was none for the reply's copy; what was done then stands.
    pub fn execute<R: Wait>(&mut self, rt: &R, text: &str) -> Result<Reply, CallFault>
        ensures ok { IfOk result (λ reply. AddsTold self.old.told text.now reply self.new.told) }
        ensures err { OnErr result (self.new.told ≡ self.old.told) }
        ensures open { IfOk result (λ reply. self.new.is_open ≡ open_after self.old.is_open reply) }
        ensures aborted { (why : WhyNow) → result ≡ Err (faults.Aborted why) → self.new.is_open ≡ false }
        ensures schema { self.new.schema ≡ self.old.schema }
        ensures inside { self.old.is_open ≡ true → IsTextOf self.old.schema text.now commands.Begin → OnOk result ⊥ }
        ensures outside { self.old.is_open ≡ false → IsTextOf self.old.schema text.now commands.Commit ⊎ IsTextOf self.old.schema text.now commands.Rollback → OnOk result ⊥ × IfErr result (λ told. (told ≡ faults.NoTransaction) ⊎ (told ≡ faults.Memory)) }
        ensures moves_inside { (refragment : RefragmentNow) → self.old.is_open ≡ true → IsTextOf self.old.schema text.now (commands.Run (statements.Refragment refragment)) → OnOk result ⊥ × IfErr result IsBusy }
        ensures unread { ((command : CommandNow) → IsTextOf self.old.schema text.now command → ⊥) → OnOk result ⊥ × IfErr result (IsUnread self.old.schema text.now) }
    {
        self.told.try_reserve(1)?;
        let asked = Text::copy_of(self.talk.shared.alloc, text)?;
        match self.talk.obey(rt, text) {
            Ok(heard) => tell(&mut self.told, asked, heard),
            Err(fault) => Err(fault),
        }
    }

    /// Whether a transaction that was begun by BEGIN is open.
    pub fn is_open(&self) -> bool
        ensures { result ≡ self.now.is_open }
    {
        self.talk.current.is_some()
    }

    /// What was told, in its order. A transaction that is open stays undecided.
    pub fn end(self) -> Vec<Told>
        ensures told { result.items ≡ self.entry.told }
        ensures ascends { Ascends result.items }
    {
        self.told
    }
}

/// Tells a reply to a text, under a number that has to be above the others. There is room for it.
#[tactic(auto, using(crate::proofs::Ascending::ascends_more, crate::proofs::Ascending::adds_told))]
fn tell(told: &mut Vec<Told>, text: Text, heard: Heard) -> Result<Reply, CallFault>
    requires room { vec_len told.old < vec_capacity told.old }
    requires ascends { Ascends told.old.items }
    ensures ok { IfOk result (λ reply. AddsTold told.old.items text reply told.new.items) }
    ensures same { IfOk result (λ reply. reply ≡ heard.reply) }
    ensures err { OnErr result (told.new.items ≡ told.old.items) }
    ensures own { IfErr result (λ fault. is_abort fault ≡ false) }
    ensures still { Ascends told.new.items }
{
    let Heard { number, reply, .. } = heard;
    if !is_above(told.as_slice(), number) {
        return Err(CallFault::Closed);
    }
    let given = reply.copy()?;
    told.push_reserved(Told {
        number,
        text,
        reply,
    });
    Ok(given)
}

/// Whether a number is above that of the last that was told.
fn is_above(told: &[Told], number: u64) -> bool
    ensures { Ascends told.now → result ≡ true → IsAbove number told.now }
{
    match told.last() {
        Some(last) => last.number < number,
        None => true,
    }
}
