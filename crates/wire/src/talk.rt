//! What a session and the coordinator say to each other.

ghost use Rattle.std.specs.Prelude.{◌≡◌, ◌⊎◌, ◌↔◌, true, false, None, Some, Err, IfErr, IfOk, IfSome, OnErr, is_some, OnOk};
ghost use Rattle.meaning.specs.declared.statement.Refragment.{Refragment as RefragmentNow};
ghost use Rattle.meaning.specs.declared.statement.Statement.TheVariants as statements;
ghost use Rattle.reader.specs.declared.command.Command.{Command as CommandNow};
ghost use Rattle.reader.specs.declared.command.Command.TheVariants as commands;
ghost use Rattle.reader.specs.Command.{IsTextOf};
ghost use Rattle.desk.specs.declared.reply.Reply.TheVariants as replies;
ghost use Rattle.desk.specs.declared.reply.Why.{Why as WhyNow};
ghost use Rattle.wire.specs.declared.fault.CallFault.TheVariants as faults;
ghost use Rattle.wire.specs.Fault.{IsBusy, IsUnread, is_abort};
ghost use Rattle.wire.specs.Talk.{IsAnswered, open_after, tells_end};

use crate::begun::Begun;
use crate::fault::CallFault;
use crate::front::Errand;
use crate::patience::{hold, next};
use crate::seat::Given;
use crate::shared::Shared;
use crossbeam_channel::{Receiver, Sender};
use desk::reply::{Reply, Why};
use meaning::schema::Schema;
use meaning::statement::Statement;
use reader::command::Command;
use reader::read::{one_command, read};
use std::alloc::Global;
use std::sync::Wait;
use store::desk_store::DeskStore;
use store::name::Txn;

/// A reply that a session has heard, with the number of the coordinator's entry that put it out.
#[derive(Drop)]
pub(crate) struct Heard {
    pub number: u64,
    pub reply: Reply,
    /// Whether the commit of its transaction has been asked for too.
    pub is_followed: bool,
}

/// A session's side of the talk: the way of its replies, and the transaction that it has begun by BEGIN.
#[derive(Drop)]
pub(crate) struct Talk<'a, D: DeskStore, G> {
    pub shared: &'a Shared<D, G>,
    pub to: Sender<Given>,
    pub given: Receiver<Given>,
    pub current: Option<Txn>,
}

impl<'a, D: DeskStore, G> Talk<'a, D, G> {
    /// Obeys a text: BEGIN, COMMIT, ROLLBACK or a statement, which outside BEGIN is a transaction of its own. Any other text is
    /// refused at once.
    pub fn obey<R: Wait>(&mut self, rt: &R, text: &str) -> Result<Heard, CallFault>
        ensures shared { self.new.shared ≡ self.old.shared }
        ensures open { IfOk result (λ heard. is_some self.new.current ≡ open_after (is_some self.old.current) heard.reply) }
        ensures aborted { (why : WhyNow) → result ≡ Err (faults.Aborted why) → self.new.current ≡ None }
        ensures still { IfErr result (λ fault. (self.new.current ≡ self.old.current) ⊎ (is_abort fault ≡ true)) }
        ensures inside { is_some self.old.current ≡ true → IsTextOf self.old.shared.now.schema.relations text.now commands.Begin → OnOk result ⊥ }
        ensures outside { is_some self.old.current ≡ false → IsTextOf self.old.shared.now.schema.relations text.now commands.Commit ⊎ IsTextOf self.old.shared.now.schema.relations text.now commands.Rollback → OnOk result ⊥ × IfErr result (λ told. (told ≡ faults.NoTransaction) ⊎ (told ≡ faults.Memory)) }
        ensures moves_inside { (refragment : RefragmentNow) → is_some self.old.current ≡ true → IsTextOf self.old.shared.now.schema.relations text.now (commands.Run (statements.Refragment refragment)) → OnOk result ⊥ × IfErr result IsBusy }
        ensures unread { ((command : CommandNow) → IsTextOf self.old.shared.now.schema.relations text.now command → ⊥) → OnOk result ⊥ × IfErr result (IsUnread self.old.shared.now.schema.relations text.now) }
    {
        one_command();
        let command = match command_of(self.shared.alloc, &self.shared.schema, text) {
            Ok(command) => command,
            Err(fault) => return Err(fault),
        };
        match self.current {
            Some(txn) => self.obey_inside(rt, txn, &command, text),
            None => self.obey_outside(rt, &command, text),
        }
    }

    /// Obeys a command while no transaction is open.
    fn obey_outside<R: Wait>(
        &mut self,
        rt: &R,
        command: &Command,
        text: &str,
    ) -> Result<Heard, CallFault>
        requires { self.old.current ≡ None }
        ensures shared { self.new.shared ≡ self.old.shared }
        ensures outside { (command.now ≡ commands.Commit) ⊎ (command.now ≡ commands.Rollback) → result ≡ Err faults.NoTransaction }
        ensures open { IfOk result (λ heard. is_some self.new.current ≡ open_after false heard.reply) }
        ensures still { OnErr result (self.new.current ≡ None) }
    {
        match command {
            Command::Begin => self.open_by(rt),
            Command::Commit | Command::Rollback => Err(CallFault::NoTransaction),
            Command::Run(Statement::Refragment(_)) => self.refragment(rt, text),
            Command::Run(_) => self.run(rt, text),
        }
    }

    /// BEGIN: a transaction begins, which is open from now on.
    fn open_by<R: Wait>(&mut self, rt: &R) -> Result<Heard, CallFault>
        ensures shared { self.new.shared ≡ self.old.shared }
        ensures begun { IfOk result (λ heard. (heard.reply ≡ replies.Begun) × (is_some self.new.current ≡ true)) }
        ensures still { OnErr result (self.new.current ≡ self.old.current) }
    {
        let Begun { txn, number } = self.begin(rt, Errand::Begin, false)?;
        self.current = Some(txn);
        Ok(Heard {
            number,
            reply: Reply::Begun,
            is_followed: false,
        })
    }

    /// Obeys a command while a transaction is open. Where it has aborted meanwhile, that is the answer.
    fn obey_inside<R: Wait>(
        &mut self,
        rt: &R,
        txn: Txn,
        command: &Command,
        text: &str,
    ) -> Result<Heard, CallFault>
        ensures shared { self.new.shared ≡ self.old.shared }
        ensures inside { command.now ≡ commands.Begin → OnOk result ⊥ }
        ensures moves_inside { (refragment : RefragmentNow) → command.now ≡ commands.Run (statements.Refragment refragment) → OnOk result ⊥ × IfErr result IsBusy }
        ensures open { is_some self.old.current ≡ true → IfOk result (λ heard. is_some self.new.current ≡ open_after true heard.reply) }
        ensures aborted { (why : WhyNow) → result ≡ Err (faults.Aborted why) → self.new.current ≡ None }
        ensures still { IfErr result (λ fault. (self.new.current ≡ self.old.current) ⊎ (is_abort fault ≡ true)) }
    {
        let heard = self.answer(rt, txn, command, text);
        if tells_end(&heard) {
            self.current = None;
            self.leave(rt, txn);
        }
        heard
    }

    /// What a command is answered while a transaction is open: that memory ran out, once a letter without which it doesn't go on
    /// was lost for that.
    fn answer<R: Wait>(
        &self,
        rt: &R,
        txn: Txn,
        command: &Command,
        text: &str,
    ) -> Result<Heard, CallFault>
        ensures answered { IsAnswered result }
        ensures inside { command.now ≡ commands.Begin → OnOk result ⊥ }
        ensures moves_inside { (refragment : RefragmentNow) → command.now ≡ commands.Run (statements.Refragment refragment) → OnOk result ⊥ × IfErr result IsBusy }
    {
        if let Some(why) = self.aborted(rt, txn) {
            return Err(CallFault::Aborted(why));
        }
        if self.has_lost(rt, txn) {
            return Err(CallFault::Memory);
        }
        match command {
            Command::Begin | Command::Run(Statement::Refragment(_)) => Err(CallFault::Busy),
            Command::Commit => self.ask(rt, txn, Errand::Commit(txn)),
            Command::Rollback => self.ask(rt, txn, Errand::Rollback(txn)),
            Command::Run(_) => self.ask(rt, txn, Errand::State(txn, text)),
        }
    }

    /// Runs a statement as a transaction of its own.
    fn run<R: Wait>(&self, rt: &R, text: &str) -> Result<Heard, CallFault>
        ensures { IsAnswered result }
    {
        let Begun { txn, .. } = self.begin(rt, Errand::Begin, true)?;
        let answer = self.ask(rt, txn, Errand::State(txn, text));
        self.conclude(rt, txn, answer)
    }

    /// Gives a relation the split that the next catalogue has for it, in a transaction of its own, which states that as it begins.
    fn refragment<R: Wait>(&self, rt: &R, text: &str) -> Result<Heard, CallFault>
        ensures { IsAnswered result }
    {
        let Begun { txn, .. } = self.begin(rt, Errand::Refragment(text), true)?;
        let answer = self.hear(rt, txn);
        self.conclude(rt, txn, answer)
    }

    /// The commit of a transaction of its own, whose statement has this answer: that is heard only where it was committed.
    /// Unless it has aborted, it is given up otherwise.
    fn conclude<R: Wait>(
        &self,
        rt: &R,
        txn: Txn,
        answer: Result<Heard, CallFault>,
    ) -> Result<Heard, CallFault>
        requires { IsAnswered answer }
        ensures { IsAnswered result }
    {
        let heard = self.committed(rt, txn, answer);
        self.leave(rt, txn);
        match &heard {
            Ok(_) | Err(CallFault::Aborted(_)) => {}
            Err(_) => self.shared.give_up(rt, txn),
        }
        heard
    }

    /// The answer of a transaction's statement, once it is committed. Whoever brought the answer has asked for the commit, or else that is
    /// done now.
    fn committed<R: Wait>(
        &self,
        rt: &R,
        txn: Txn,
        answer: Result<Heard, CallFault>,
    ) -> Result<Heard, CallFault>
        requires { IsAnswered answer }
        ensures { IsAnswered result }
    {
        let heard = answer?;
        let _committed = if heard.is_followed {
            self.hear(rt, txn)?
        } else {
            self.ask(rt, txn, Errand::Commit(txn))?
        };
        Ok(heard)
    }

    /// Begins a transaction, whose replies come to this session; whether it is that of a single statement.
    fn begin<R: Wait>(
        &self,
        rt: &R,
        errand: Errand<'_>,
        is_lone: bool,
    ) -> Result<Begun, CallFault> {
        let to = self.to.clone()?;
        self.pass_over(rt);
        self.shared.begin(rt, errand, to, is_lone)
    }

    /// Passes over what is left of replies to transactions that have ended.
    fn pass_over<R: Wait>(&self, rt: &R) {
        for _ in rt.forever() {
            if self.given.try_recv(rt).is_err() {
                break;
            }
        }
    }

    /// Calls the coordinator for a transaction, and waits for the reply. A transaction that isn't undecided any more has
    /// aborted: the reply that tells so is on its way.
    fn ask<R: Wait>(&self, rt: &R, txn: Txn, errand: Errand<'_>) -> Result<Heard, CallFault>
        ensures { IsAnswered result }
    {
        match self.shared.ask(rt, errand) {
            Ok(()) | Err(CallFault::NoTransaction) => self.hear(rt, txn),
            Err(fault) => Err(fault),
        }
    }

    /// Waits for the next reply to a transaction.
    fn hear<R: Wait>(&self, rt: &R, txn: Txn) -> Result<Heard, CallFault>
        ensures { IsAnswered result }
    {
        for _ in rt.forever() {
            let Some(given) = next(rt, &self.given) else {
                break;
            };
            if given.txn == txn {
                return as_heard(given);
            }
        }
        Err(CallFault::Closed)
    }

    /// Why a transaction has aborted meanwhile, if it has: the reply that tells so has come.
    fn aborted<R: Wait>(&self, rt: &R, txn: Txn) -> Option<Why> {
        for _ in rt.forever() {
            let Ok(given) = self.given.try_recv(rt) else {
                break;
            };
            if given.txn == txn {
                return why_of(&given);
            }
        }
        None
    }

    /// Whether memory ran out for a letter without which a transaction doesn't go on.
    fn has_lost<R: Wait>(&self, rt: &R, txn: Txn) -> bool {
        hold(rt, &self.shared.seats).has_lost(txn)
    }

    /// Nobody waits for the replies of a transaction any more.
    fn leave<R: Wait>(&self, rt: &R, txn: Txn) {
        hold(rt, &self.shared.seats).leave(txn);
    }
}

/// The command of a text.
fn command_of(alloc: Global, schema: &Schema, text: &str) -> Result<Command, CallFault>
    ensures read { IfOk result (λ command. IsTextOf schema.now.relations text.now command) }
    ensures unread { IfErr result (IsUnread schema.now.relations text.now) }
{
    match read(alloc, text, schema) {
        Ok(command) => Ok(command),
        Err(fault) => Err(CallFault::from(fault)),
    }
}

/// What a session hears of a reply. An abort is a fault.
fn as_heard(given: Given) -> Result<Heard, CallFault>
    ensures answered { IsAnswered result }
    ensures same { IfOk result (λ heard. (heard.number ≡ given.number) × (given.reply ≡ Some heard.reply)) }
    ensures aborted { (why : WhyNow) → (result ≡ Err (faults.Aborted why)) ↔ (given.reply ≡ Some (replies.Aborted why)) }
{
    let Given {
        number,
        reply,
        is_followed,
        ..
    } = given;
    match reply {
        Some(Reply::Aborted(why)) => Err(CallFault::Aborted(why)),
        Some(Reply::Begun) => Err(CallFault::Closed),
        Some(reply) => Ok(Heard {
            number,
            reply,
            is_followed,
        }),
        None => Err(CallFault::Memory),
    }
}

/// Why a transaction aborted, where a reply tells that.
fn why_of(given: &Given) -> Option<Why>
    ensures { IfSome result (λ why. given.now.reply ≡ Some (replies.Aborted why)) }
{
    match &given.reply {
        Some(Reply::Aborted(why)) => Some(*why),
        _ => None,
    }
}

/// Whether a transaction has ended by what its session heard.
fn tells_end(heard: &Result<Heard, CallFault>) -> bool
    ensures { result ≡ tells_end heard.now }
{
    match heard {
        Ok(heard) => matches!(&heard.reply, Reply::Committed | Reply::RolledBack),
        Err(fault) => matches!(fault, CallFault::Aborted(_)),
    }
}
