//! What the threads of a database share.

use crate::begun::{Begun, begun_in};
use crate::fault::CallFault;
use crate::front::{Done, Errand, Front};
use crate::patience::hold;
use crate::seat::{Given, Seats};
use crossbeam_channel::Sender;
use meaning::schema::Schema;
use std::alloc::Global;
use std::sync::atomic::AtomicU64;
use std::sync::{Mutex, Wait};
use store::desk_store::DeskStore;
use store::letter::{Body, Letter};
use store::name::Txn;
use store::reply::Reply;
use terms::memory::Memory;
use world::fault::Fault;

/// How often a site's thread calls the coordinator for one letter, where memory runs out.
const TRIES: usize = 3;

/// The coordinator under its lock, who waits for replies, the counter of calls, and the gate.
#[derive(Drop)]
pub(crate) struct Shared<D: DeskStore, G> {
    pub alloc: Global,
    pub schema: Schema,
    pub front: Mutex<Front<D>>,
    pub seats: Mutex<Seats>,
    /// Numbers the calls of all machines.
    pub counter: AtomicU64,
    /// How many letters were taken though the gate was not open.
    pub forced: AtomicU64,
    pub gate: G,
}

impl<D: DeskStore, G> Shared<D, G> {
    /// Calls the coordinator, under its lock. Where that answers a transaction of a single statement, its commit is asked for under the
    /// same lock, so that its session doesn't wake for that; where memory runs out or it is refused, the session asks for it. No clause
    /// says what is answered, since none follows what lies under a lock.
    fn call<R: Wait>(&self, rt: &R, errand: Errand<'_>) -> Result<(Done, Option<Done>), Memory> {
        let mut front = hold(rt, &self.front);
        let mut done = front.call(rt, self.alloc, errand, &self.counter)?;
        let Some(txn) = self.answered_alone(rt, done.given.as_slice()) else {
            return Ok((done, None));
        };
        match front.call(rt, self.alloc, Errand::Commit(txn), &self.counter) {
            Ok(commit) => {
                mark_followed(&mut done, &commit);
                Ok((done, Some(commit)))
            }
            Err(Memory) => Ok((done, None)),
        }
    }

    /// The transaction of a single statement that one of these replies answers. No clause says so, since none follows what lies under
    /// a lock.
    fn answered_alone<R: Wait>(&self, rt: &R, given: &[Given]) -> Option<Txn> {
        let answer = given.iter().find(|one| one.is_answer())?;
        hold(rt, &self.seats)
            .is_lone(answer.txn)
            .then_some(answer.txn)
    }

    /// Calls the coordinator, and hands its replies out. A call that was refused is its refusal. No clause says so, since
    /// none follows what lies under a lock.
    pub fn ask<R: Wait>(&self, rt: &R, errand: Errand<'_>) -> Result<(), CallFault> {
        let (done, commit) = self.call(rt, errand)?;
        let fault = self.hand_on(rt, done);
        if let Some(commit) = commit {
            self.hand_on(rt, commit);
        }
        match fault {
            Some(fault) => Err(CallFault::from(fault)),
            None => Ok(()),
        }
    }

    /// Hands on what came of a call, and answers why it was refused, if it was. No clause says so, since none follows a channel.
    fn hand_on<R: Wait>(&self, rt: &R, done: Done) -> Option<Fault> {
        let Done {
            given,
            given_up,
            stuck,
            fault,
        } = done;
        self.hand_out(rt, given);
        self.hand_out(rt, given_up);
        if let Some(txn) = stuck {
            self.lose(rt, txn);
        }
        fault
    }

    /// Begins a transaction, whose replies go this way from then on. It is seated before the lock is free: until then no site's
    /// letter is taken, so none of its replies is lost. No clause says so, since none follows what lies under a lock.
    pub fn begin<R: Wait>(
        &self,
        rt: &R,
        errand: Errand<'_>,
        to: Sender<Given>,
        is_lone: bool,
    ) -> Result<Begun, CallFault> {
        let mut front = hold(rt, &self.front);
        let Done {
            given,
            given_up,
            stuck,
            fault,
        } = front.call(rt, self.alloc, errand, &self.counter)?;
        if let Some(fault) = fault {
            return Err(CallFault::from(fault));
        }
        let begun = begun_in(given.as_slice())?;
        let seated = hold(rt, &self.seats).enter(begun.txn, to, is_lone);
        drop(front);
        if seated.is_err() {
            self.give_up(rt, begun.txn);
            return Err(CallFault::Memory);
        }
        self.hand_out(rt, given_up);
        if let Some(txn) = stuck {
            self.lose(rt, txn);
        }
        Ok(begun)
    }

    /// Hands replies out to the sessions that wait for them. No clause says so, since none follows a channel.
    pub fn hand_out<R: Wait>(&self, rt: &R, given: Vec<Given>) {
        for one in given {
            hold(rt, &self.seats).tell(rt, one);
        }
    }

    /// Calls the coordinator, again where memory runs out, three times in all. Answers whether it had memory.
    fn insist<R: Wait>(&self, rt: &R, errand: Errand<'_>) -> bool {
        for _ in 0..TRIES {
            match self.ask(rt, errand) {
                Err(CallFault::Memory) => {}
                _ => return true,
            }
        }
        false
    }

    /// Brings a site's letter to the coordinator. Where memory runs out three times, the letter is lost, and the session that
    /// waits for what comes of it is told so. No clause says so, since none follows what lies under a lock.
    pub fn bring<R: Wait>(&self, rt: &R, letter: &Letter) {
        if !self.insist(rt, Errand::Take(letter)) && is_awaited(letter) {
            self.lose(rt, letter.txn);
        }
    }

    /// Gives a transaction up, unless it is decided. Where memory runs out three times, it stays undecided, and the session that
    /// waits for it is told so. No clause says so, since none follows what lies under a lock.
    pub fn give_up<R: Wait>(&self, rt: &R, txn: Txn) {
        if !self.insist(rt, Errand::GiveUp(txn)) {
            self.lose(rt, txn);
        }
    }

    /// Tells the session that waits for a transaction that memory ran out. No clause says so, since none follows a channel.
    fn lose<R: Wait>(&self, rt: &R, txn: Txn) {
        hold(rt, &self.seats).lose(rt, txn);
    }
}

/// Marks the answers of a call as followed by a commit, unless that was refused.
fn mark_followed(done: &mut Done, commit: &Done) {
    for given in done.given.iter_mut() {
        given.is_followed = given.is_answer() && commit.fault.is_none();
    }
}

/// Whether a transaction goes on by a letter of a site: not by one that a decision is done, nor by a question for it.
fn is_awaited(letter: &Letter) -> bool {
    !matches!(&letter.body, Body::Reply(Reply::Ack(_) | Reply::Inquire(_)))
}
