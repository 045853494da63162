//! How a lock is taken that is held for a short while only.
use std::sync::{Mutex, MutexGuard, Wait};

/// How often a lock is looked at before its thread sleeps.
const LOOKS: u32 = 12;

/// Takes a lock. It is looked at a few times, one right after another, and then its thread sleeps: so who has just given
/// the lock back takes it again while all that it guards is near, and does several steps before another does.
pub fn hold<'a, T, R: Wait>(rt: &R, lock: &'a Mutex<T>) -> MutexGuard<'a, T> {
    match hold_soon(lock) {
        Some(guard) => guard,
        None => lock.lock(rt),
    }
}

/// Takes a lock, if one of these looks finds it free.
pub fn hold_soon<T>(lock: &Mutex<T>) -> Option<MutexGuard<'_, T>> {
    for _ in 0..LOOKS {
        if let Some(guard) = lock.try_lock() {
            return Some(guard);
        }
    }
    None
}
