//! Who waits for replies.

ghost use Rattle.std.specs.Prelude.{◌≡◌, false, IfSome, None};
ghost use Rattle.wire.specs.Talk.{answers};

use crossbeam_channel::Sender;
use desk::reply::{Notice, Reply};
use std::alloc::Global;
use std::sync::Wait;
use store::name::Txn;
use terms::copy::TryCopy;
use terms::memory::Memory;

/// A reply on its way to its session.
#[derive(Drop)]
pub(crate) struct Given {
    /// The number of the coordinator's entry that put it out; 0 of one that was lost.
    pub number: u64,
    pub txn: Txn,
    /// The reply. There is none where memory ran out for its copy, of which only an answer takes any, or on its way.
    pub reply: Option<Reply>,
    /// Whether the commit of its transaction has been asked for too.
    pub is_followed: bool,
}

impl Given {
    /// No reply: it is lost for want of memory.
    pub fn lost(txn: Txn) -> Given
        ensures number { result.number ≡ 0 }
        ensures txn { result.txn ≡ txn }
        ensures reply { result.reply ≡ None }
        ensures followed { result.is_followed ≡ false }
    {
        Given {
            number: 0,
            txn,
            reply: None,
            is_followed: false,
        }
    }

    /// A copy of what an entry of this number put out.
    pub fn of(number: u64, notice: &Notice) -> Given
        ensures number { result.number ≡ number }
        ensures txn { result.txn ≡ notice.now.txn }
        ensures reply { IfSome result.reply (λ reply. reply ≡ notice.now.reply) }
        ensures followed { result.is_followed ≡ false }
    {
        let reply = match notice.reply.copy() {
            Ok(reply) => Some(reply),
            Err(_) => None,
        };
        Given {
            number,
            txn: notice.txn,
            reply,
            is_followed: false,
        }
    }

    /// Whether it answers a statement.
    pub fn is_answer(&self) -> bool
        ensures { result ≡ answers self.now.reply }
    {
        matches!(&self.reply, Some(Reply::Answer(_)))
    }
}

/// The way to the session that waits for a transaction's replies.
#[derive(Drop)]
struct Seat {
    txn: Txn,
    to: Sender<Given>,
    /// Whether the transaction is that of a single statement, whose commit is asked for once it is answered.
    is_lone: bool,
    /// Whether the session was told that memory ran out on the way of a reply.
    is_lost: bool,
}

/// The sessions that wait, by their transactions. They lie under a lock, which forgets what was known of them, so no
/// call of theirs has a clause.
#[derive(Drop)]
pub(crate) struct Seats {
    seats: Vec<Seat>,
}

impl Seats {
    /// Nobody waits. No clause says so, since none says where a channel leads.
    pub fn new(alloc: Global) -> Seats {
        Seats {
            seats: Vec::new(alloc),
        }
    }

    /// The replies of a transaction go this way from now on. No clause says so, since none says where a channel leads.
    pub fn enter(&mut self, txn: Txn, to: Sender<Given>, is_lone: bool) -> Result<(), Memory> {
        self.seats.push(Seat {
            txn,
            to,
            is_lone,
            is_lost: false,
        })?;
        Ok(())
    }

    /// Whether a session waits for a transaction of a single statement. It stands in for what the session said as it began, so no clause
    /// says it.
    pub fn is_lone(&self, txn: Txn) -> bool {
        self.seats
            .iter()
            .any(|seat| seat.txn == txn && seat.is_lone)
    }

    /// Nobody waits for the replies of a transaction any more. What a seat is for, a channel, has no clause, nor has this.
    pub fn leave(&mut self, txn: Txn) {
        self.seats.retain(|seat| seat.txn != txn);
    }

    /// Sends a reply to the session that waits for it, whose channel has room. Where none waits, the reply is lost. No
    /// clause says so, since none follows a channel.
    pub fn tell<R: Wait>(&self, rt: &R, given: Given) {
        let seat = self.seats.iter().find(|seat| seat.txn == given.txn);
        if let Some(seat) = seat {
            let _ = seat.to.try_send(rt, given);
        }
    }

    /// A letter without which a transaction doesn't go on was lost for want of memory: the session that waits for its reply is
    /// told so, once. No clause says so, since none follows a channel.
    pub fn lose<R: Wait>(&mut self, rt: &R, txn: Txn) {
        for seat in self.seats.iter_mut() {
            if seat.txn == txn && !seat.is_lost {
                seat.is_lost = true;
                let _ = seat.to.try_send(rt, Given::lost(txn));
            }
        }
    }

    /// Whether such a letter of a transaction was lost. It stands in for what was told over a channel, so no clause says it.
    pub fn has_lost(&self, txn: Txn) -> bool {
        self.seats
            .iter()
            .any(|seat| seat.txn == txn && seat.is_lost)
    }
}
