//! Locks that are looked at a while before a thread sleeps.
#![tactic(auto)]

use std::sync::{Mutex, MutexGuard, Wait};
use std::thread::yield_now;

/// So often a thread looks before it sleeps.
const LOOKS: u32 = 1_000;

/// Looks for a lock so many times, and lets other threads run behind each look: its guard, or none, where it was taken each time.
pub fn look_for_lock<T>(lock: &Mutex<T>, looks: u32) -> Option<MutexGuard<'_, T>> {
    for _ in 0..looks {
        if let Some(guard) = lock.try_lock() {
            return Some(guard);
        }
        yield_now();
    }
    None
}

/// Takes a lock. What a lock is held for is mostly done sooner than a thread that sleeps is woken, so this looks a while before it
/// sleeps, and lets other threads run between two looks.
pub fn take_lock<'m, R: Wait, T>(lock: &'m Mutex<T>, rt: &R) -> MutexGuard<'m, T> {
    match look_for_lock(lock, LOOKS) {
        Some(guard) => guard,
        None => lock.lock(rt),
    }
}
