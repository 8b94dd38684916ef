//! What was done at a machine, call by call.

ghost use Rattle.std.specs.Prelude.{◌≡◌, [], Some, None};
ghost use Rattle.history.specs.SiteHistory.{is_kept};

use desk::refusal::Refusal;
use desk::reply::{Notice, Out};
use site::fault::SiteFault;
use std::alloc::Global;
use std::sync::atomic::{AtomicU64, Ordering};
use store::letter::Letter;
use store::name::Ticket;
use terms::seq::Seq;
use world::event::Call;
use world::fault::Fault;

/// What a machine was called for.
#[derive(Debug, Drop)]
pub enum Input {
    /// A client asks the coordinator for something.
    Call(Call),
    /// A letter comes.
    Take(Letter),
    /// A site gives a visit up.
    GiveUp(Ticket),
    /// A site asks about its prepared rows.
    Inquire,
    /// The machine restarts.
    Restart,
}

/// A call of a machine, and what came of it.
#[derive(Debug, Drop)]
pub struct Entry {
    /// The call's number, drawn from one counter for all machines of a database.
    pub number: u64,
    pub input: Input,
    /// Whether the store did not refuse.
    pub kept: bool,
    /// The letters that the machine put out.
    pub letters: Seq<Letter>,
    /// What clients heard.
    pub replies: Seq<Notice>,
    /// Why the machine refused the call, if it did: nothing has changed then, and nothing was put out.
    pub fault: Option<Fault>,
}

impl Entry {
    /// A call that was accepted: the machine put this out. The counter gives its number.
    pub(crate) fn accepted(counter: &AtomicU64, input: Input, out: Out) -> Entry
        ensures input { result.input ≡ input }
        ensures letters { result.letters ≡ out.letters }
        ensures replies { result.replies ≡ out.replies }
        ensures kept { result.kept ≡ out.kept }
        ensures fault { result.fault ≡ None }
    {
        Entry {
            number: counter.fetch_add(1, Ordering::SeqCst),
            input,
            kept: out.kept,
            letters: out.letters,
            replies: out.replies,
            fault: None,
        }
    }

    /// A call that was refused: nothing was put out. The counter gives its number.
    pub(crate) fn refused(alloc: Global, counter: &AtomicU64, input: Input, fault: Fault) -> Entry
        ensures input { result.input ≡ input }
        ensures letters { result.letters ≡ [] }
        ensures replies { result.replies ≡ [] }
        ensures kept { result.kept ≡ is_kept fault }
        ensures fault { result.fault ≡ Some fault }
    {
        let kept = is_kept(&fault);
        Entry {
            number: counter.fetch_add(1, Ordering::SeqCst),
            input,
            kept,
            letters: Seq::new(Vec::new(alloc)),
            replies: Seq::new(Vec::new(alloc)),
            fault: Some(fault),
        }
    }
}

/// Whether a fault is no store's.
fn is_kept(fault: &Fault) -> bool
    ensures { result ≡ is_kept fault.now }
{
    !matches!(
        fault,
        Fault::Site(SiteFault::Store(_)) | Fault::Desk(Refusal::Store(_))
    )
}
