// Gates that the trials give to workers.
use hk_outside::Gate;
use std::sync::atomic::{AtomicU64, Ordering};
use std::thread;

/// How often the first poll looks whether the other item's poll is over.
const PATIENCE: u32 = 200_000_000;

/// Counts the calls for the items 0, 1 and 2.
#[derive(Drop)]
pub struct Counter {
    enters: [AtomicU64; 3],
    leaves: [AtomicU64; 3],
}

impl Counter {
    pub fn new() -> Counter {
        Counter {
            enters: [AtomicU64::new(0), AtomicU64::new(0), AtomicU64::new(0)],
            leaves: [AtomicU64::new(0), AtomicU64::new(0), AtomicU64::new(0)],
        }
    }

    /// How often a poll of each item began.
    pub fn enters(&self) -> [u64; 3] {
        counts(&self.enters)
    }

    /// How often one was handed on.
    pub fn leaves(&self) -> [u64; 3] {
        counts(&self.leaves)
    }
}

fn counts(words: &[AtomicU64; 3]) -> [u64; 3] {
    [
        words[0].load(Ordering::SeqCst),
        words[1].load(Ordering::SeqCst),
        words[2].load(Ordering::SeqCst),
    ]
}

fn raise(words: &[AtomicU64; 3], item: u32) {
    if item < 3 {
        words[item as usize].fetch_add(1, Ordering::SeqCst);
    }
}

impl Gate for Counter {
    fn enter(&self, item: u32) {
        raise(&self.enters, item);
    }

    fn leave(&self, item: u32) {
        raise(&self.leaves, item);
    }
}

/// The first poll of two items waits until a poll of the other item is over.
#[derive(Drop)]
pub struct Meeting {
    calls: Counter,
    begun: AtomicU64,
    alone: AtomicU64,
}

impl Meeting {
    pub fn new() -> Meeting {
        Meeting {
            calls: Counter::new(),
            begun: AtomicU64::new(0),
            alone: AtomicU64::new(0),
        }
    }

    /// Whether the first poll found that a poll of the other item was over.
    pub fn was_held(&self) -> bool {
        self.begun.load(Ordering::SeqCst) > 0 && self.alone.load(Ordering::SeqCst) == 0
    }

    /// The calls for each item.
    pub fn calls(&self) -> &Counter {
        &self.calls
    }

    /// Looks whether a poll of the other item is over, until one is.
    fn wait_for_other(&self, item: u32) {
        let other = if item == 0 { 1 } else { 0 };
        for _ in 0..PATIENCE {
            if self.calls.leaves[other].load(Ordering::SeqCst) > 0 {
                return;
            }
            thread::yield_now();
        }
        self.alone.fetch_add(1, Ordering::SeqCst);
    }
}

impl Gate for Meeting {
    fn enter(&self, item: u32) {
        self.calls.enter(item);
        if self.begun.fetch_add(1, Ordering::SeqCst) == 0 {
            self.wait_for_other(item);
        }
    }

    fn leave(&self, item: u32) {
        self.calls.leave(item);
    }
}
