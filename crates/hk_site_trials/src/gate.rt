// A gate at which the polls of two items meet.
use hk_outside::Gate;
use std::sync::atomic::{AtomicU64, Ordering};
use std::thread;

/// How often the first poll looks whether the other item's poll is over.
const PATIENCE: u32 = 200_000_000;

/// The first poll of the items 0 and 1, of whichever, waits until a poll of the other one is over.
#[derive(Drop)]
pub struct Meeting {
    enters: [AtomicU64; 2],
    leaves: [AtomicU64; 2],
    begun: AtomicU64,
    alone: AtomicU64,
}

impl Meeting {
    pub fn new() -> Meeting {
        Meeting {
            enters: [AtomicU64::new(0), AtomicU64::new(0)],
            leaves: [AtomicU64::new(0), AtomicU64::new(0)],
            begun: AtomicU64::new(0),
            alone: AtomicU64::new(0),
        }
    }

    /// Whether the first poll found that a poll of the other item was over.
    pub fn was_held(&self) -> bool {
        self.begun.load(Ordering::SeqCst) > 0 && self.alone.load(Ordering::SeqCst) == 0
    }

    /// How often a poll of each item began.
    pub fn enters(&self) -> [u64; 2] {
        counts(&self.enters)
    }

    /// How often one was handed on.
    pub fn leaves(&self) -> [u64; 2] {
        counts(&self.leaves)
    }

    /// Looks whether a poll of the other item is over, until one is.
    fn wait_for_other(&self, item: u32) {
        let other = if item == 0 { 1 } else { 0 };
        for _ in 0..PATIENCE {
            if self.leaves[other].load(Ordering::SeqCst) > 0 {
                return;
            }
            thread::yield_now();
        }
        self.alone.fetch_add(1, Ordering::SeqCst);
    }
}

fn counts(words: &[AtomicU64; 2]) -> [u64; 2] {
    [
        words[0].load(Ordering::SeqCst),
        words[1].load(Ordering::SeqCst),
    ]
}

fn raise(words: &[AtomicU64; 2], item: u32) {
    if item < 2 {
        words[item as usize].fetch_add(1, Ordering::SeqCst);
    }
}

impl Gate for Meeting {
    fn enter(&self, item: u32) {
        raise(&self.enters, item);
        if self.begun.fetch_add(1, Ordering::SeqCst) == 0 {
            self.wait_for_other(item);
        }
    }

    fn leave(&self, item: u32) {
        raise(&self.leaves, item);
    }
}
