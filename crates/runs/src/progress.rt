//! Who watches what sessions hear, and how far a script is told to be.

use desk::reply::{Reply, Why};
use std::io::Write;
use std::sync::atomic::{AtomicU64, Ordering};
use std::time::Instant;
use wire::fault::CallFault;

/// Watches what sessions hear. Threads call it at the same time.
pub trait Watches {
    /// Sessions begin, which have so many commands in all.
    fn begin(&self, all: usize);

    /// A session has heard this. `is_lone` tells whether no transaction of its own was open.
    fn heard(&self, is_lone: bool, reply: &Result<Reply, CallFault>);
}

/// Nobody watches.
#[derive(Clone, Copy, Drop)]
pub struct Unwatched;

impl Watches for Unwatched {
    fn begin(&self, _all: usize) {}

    fn heard(&self, _is_lone: bool, _reply: &Result<Reply, CallFault>) {}
}

/// How many transactions were aborted for each cause.
#[derive(Drop)]
struct Aborts {
    vote: AtomicU64,
    refused: AtomicU64,
    given_up: AtomicU64,
    restart: AtomicU64,
    store: AtomicU64,
}

/// Tells a person how far a script is, at most once a second, and not within its first one.
#[derive(Drop)]
pub struct Progress<'r> {
    rt: &'r HostRuntime,
    begun: Option<Instant>,
    all: AtomicU64,
    done: AtomicU64,
    committed: AtomicU64,
    aborts: Aborts,
    /// The second in which it was told last.
    told: AtomicU64,
}

impl<'r> Progress<'r> {
    /// Nothing is done yet. No clause says what a person is told meanwhile, since it depends on the clock.
    pub fn new(rt: &'r HostRuntime) -> Progress<'r> {
        Progress {
            rt,
            begun: Instant::now(rt).ok(),
            all: AtomicU64::new(0),
            done: AtomicU64::new(0),
            committed: AtomicU64::new(0),
            aborts: Aborts {
                vote: AtomicU64::new(0),
                refused: AtomicU64::new(0),
                given_up: AtomicU64::new(0),
                restart: AtomicU64::new(0),
                store: AtomicU64::new(0),
            },
            told: AtomicU64::new(0),
        }
    }

    /// How many transactions were aborted for this cause.
    fn aborted(&self, why: Why) -> &AtomicU64 {
        match why {
            Why::Vote => &self.aborts.vote,
            Why::Refused => &self.aborts.refused,
            Why::GivenUp => &self.aborts.given_up,
            Why::Restart => &self.aborts.restart,
            Why::Store => &self.aborts.store,
        }
    }

    /// Tells it, unless it was told within this second.
    fn tell_if_due(&self) {
        let Some(seconds) = self.seconds() else {
            return;
        };
        let told = self.told.load(Ordering::SeqCst);
        if told < seconds
            && self
                .told
                .compare_exchange(told, seconds, Ordering::SeqCst, Ordering::SeqCst)
                .is_ok()
        {
            self.tell();
        }
    }

    /// For how many seconds sessions have been at work.
    fn seconds(&self) -> Option<u64> {
        match self.begun?.elapsed(self.rt) {
            Ok(took) => Some(took.as_secs()),
            Err(_) => None,
        }
    }

    /// Writes a line. Where the standard error is closed nobody can be told.
    fn tell(&self) {
        let count = |of: &AtomicU64| of.load(Ordering::SeqCst);
        let _ = writeln!(
            self.rt.stderr(),
            "fragdb: {} of {} commands done, {} committed; aborted: {} Vote, {} Refused, {} GivenUp, {} Restart, {} Store",
            count(&self.done),
            count(&self.all),
            count(&self.committed),
            count(&self.aborts.vote),
            count(&self.aborts.refused),
            count(&self.aborts.given_up),
            count(&self.aborts.restart),
            count(&self.aborts.store),
        );
    }
}

impl Watches for Progress<'_> {
    fn begin(&self, all: usize) {
        self.all.fetch_add(all as u64, Ordering::SeqCst);
    }

    fn heard(&self, is_lone: bool, reply: &Result<Reply, CallFault>) {
        self.done.fetch_add(1, Ordering::SeqCst);
        match reply {
            Ok(Reply::Committed) => {
                self.committed.fetch_add(1, Ordering::SeqCst);
            }
            Ok(Reply::Answer(_)) if is_lone => {
                self.committed.fetch_add(1, Ordering::SeqCst);
            }
            Err(CallFault::Aborted(why)) => {
                self.aborted(*why).fetch_add(1, Ordering::SeqCst);
            }
            _ => {}
        }
        self.tell_if_due();
    }
}
