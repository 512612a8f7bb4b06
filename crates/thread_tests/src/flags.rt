//! Flags for a test in which a thread holds a turn until another thread signals it to go on.

use std::sync::atomic::{AtomicU64, Ordering};
use std::thread;

/// The most times that a flag is read until it is set.
const READS: u32 = 1 << 24;

/// Whether the turn is held, whether its holder was signalled to go on, and whether the holder went
/// on without a signal.
#[derive(Drop)]
pub(crate) struct Flags {
    held: AtomicU64,
    released: AtomicU64,
    unreleased: AtomicU64,
}

impl Flags {
    /// Flags that are all clear.
    pub(crate) fn new() -> Flags {
        Flags {
            held: AtomicU64::new(0),
            released: AtomicU64::new(0),
            unreleased: AtomicU64::new(0),
        }
    }

    /// Sets the flag that the turn is held.
    pub(crate) fn say_held(&self) {
        self.held.store(1, Ordering::SeqCst);
    }

    /// Sets the flag that the turn is held, and waits for the signal to go on. Gives up after
    /// `READS` reads.
    pub(crate) fn hold(&self) {
        self.say_held();
        if !wait_until_set(&self.released) {
            self.unreleased.store(1, Ordering::SeqCst);
        }
    }

    /// Waits until the turn is held, and returns whether it is. Gives up after `READS` reads.
    pub(crate) fn wait_until_held(&self) -> bool {
        wait_until_set(&self.held)
    }

    /// Signals the holder to go on.
    pub(crate) fn release(&self) {
        self.released.store(1, Ordering::SeqCst);
    }

    /// Whether the holder has been signalled to go on.
    pub(crate) fn is_released(&self) -> bool {
        self.released.load(Ordering::SeqCst) == 1
    }

    /// Whether each holder was signalled before it went on.
    pub(crate) fn were_released(&self) -> bool {
        self.unreleased.load(Ordering::SeqCst) == 0
    }
}

/// Reads a flag until it is set, at most `READS` times. Returns whether it was set.
fn wait_until_set(flag: &AtomicU64) -> bool {
    for _ in 0..READS {
        if flag.load(Ordering::SeqCst) == 1 {
            return true;
        }
        thread::yield_now();
    }
    false
}
