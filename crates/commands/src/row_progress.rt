//! How far an import is told to be.

use std::io::{IsTerminal, Write};
use std::time::Instant;

/// Tells a person how many rows are inserted, at most once a second, and not within the first one; or tells nobody.
#[derive(Drop)]
pub struct RowProgress<'r> {
    /// Whose standard error is told, if somebody is.
    rt: Option<&'r HostRuntime>,
    begun: Option<Instant>,
    /// The second in which it was told last.
    told: u64,
}

impl<'r> RowProgress<'r> {
    /// Nobody is told. No clause says so, since nothing is claimed of what stands on the standard error.
    pub fn untold() -> RowProgress<'r> {
        RowProgress {
            rt: None,
            begun: None,
            told: 0,
        }
    }

    /// A person is told on the standard error. No clause says what stands there, since it depends on the clock.
    pub fn told(rt: &'r HostRuntime) -> RowProgress<'r> {
        RowProgress {
            rt: Some(rt),
            begun: Instant::now(rt).ok(),
            told: 0,
        }
    }

    /// A person at a terminal is told, and nobody else. No clause says so, since none says what a terminal is.
    pub fn at_terminal(rt: &'r HostRuntime) -> RowProgress<'r> {
        if rt.stderr().is_terminal() {
            RowProgress::told(rt)
        } else {
            RowProgress::untold()
        }
    }

    /// The row of this number, counted from 0, is inserted, of so many in all. No clause says what is told of that, since it
    /// depends on the clock.
    pub fn inserted(&mut self, number: usize, all: usize) {
        if let (Some(rt), Some(begun)) = (self.rt, self.begun)
            && let Ok(took) = begun.elapsed(rt)
            && took.as_secs() > self.told
        {
            self.told = took.as_secs();
            tell(rt, number as u64, all as u64, took.as_secs());
        }
    }
}

/// Writes a line. Where the standard error is closed nobody can be told.
fn tell(rt: &HostRuntime, done: u64, all: u64, seconds: u64) {
    let share = done.saturating_mul(100).checked_div(all).unwrap_or(100);
    let pace = done.checked_div(seconds).unwrap_or(done);
    let _ = writeln!(
        rt.stderr(),
        "fragdb: {done} of {all} rows inserted, {share} in 100; {pace} a second"
    );
}
