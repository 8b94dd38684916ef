//! How long a thread looks for what it waits for before it sleeps.

use crossbeam_channel::{Receiver, TryRecvError};
use std::sync::{Mutex, MutexGuard, Wait};
use std::thread::yield_now;

/// How often a thread looks, and lets others run in between, before it sleeps. To wake one takes longer than most waits do.
const LOOKS: u32 = 1000;

/// What comes next through a channel; none once nothing can come. No clause says so, since none follows a channel.
pub(crate) fn next<R: Wait, T: Drop>(rt: &R, from: &Receiver<T>) -> Option<T> {
    for _ in 0..LOOKS {
        match from.try_recv(rt) {
            Ok(one) => return Some(one),
            Err(TryRecvError::Disconnected) => return None,
            Err(TryRecvError::Empty) => yield_now(),
        }
    }
    from.recv(rt).ok()
}

/// Takes a lock. No clause says what lies under it.
pub(crate) fn hold<'a, R: Wait, T>(rt: &R, lock: &'a Mutex<T>) -> MutexGuard<'a, T> {
    for _ in 0..LOOKS {
        if let Some(guard) = lock.try_lock() {
            return guard;
        }
        yield_now();
    }
    lock.lock(rt)
}
