//! How who finds the lock taken waits for it.
use std::sync::{Mutex, MutexGuard, Wait};
use std::thread::Parker;
use std::time::Duration;

/// How long a nap is, in microseconds. A waking costs some microseconds, and who naps leaves who has the lock to several
/// calls near its data.
const NAP: u64 = 50;

/// How often the lock is tried before a nap.
const TRIES: u64 = 12;

/// After how many naps the lock is waited for in its queue.
const NAPS: u64 = 100;

/// Stays away for a while.
pub(crate) fn nap<R: Wait>(rt: &R) {
    Parker::new().park_timeout(rt, Duration::from_micros(NAP));
}

// Takes the lock, if it is free soon.
fn tried<T>(lock: &Mutex<T>) -> Option<MutexGuard<'_, T>> {
    for _ in 0..TRIES {
        if let Some(guard) = lock.try_lock() {
            return Some(guard);
        }
    }
    None
}

/// Takes the lock, with naps for as long as it is taken.
pub(crate) fn hold<'a, T, R: Wait>(rt: &R, lock: &'a Mutex<T>) -> MutexGuard<'a, T> {
    for _ in 0..NAPS {
        if let Some(guard) = tried(lock) {
            return guard;
        }
        nap(rt);
    }
    lock.lock(rt)
}
