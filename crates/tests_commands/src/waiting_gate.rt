// A gate that waits until a connection has ended.
use jm_edge::Gate;
use std::sync::atomic::{AtomicU64, Ordering};
use std::thread::yield_now;

// How often a thread looks before it gives up.
const LOOKS: u64 = 10_000_000;

// What the threads of connections share.
#[derive(Drop)]
pub(crate) struct Signs {
    // How many connections were finished: nothing more is written to them.
    finished: AtomicU64,
    // How often a thread gave up.
    late: AtomicU64,
}

impl Signs {
    pub(crate) fn new() -> Signs {
        Signs {
            finished: AtomicU64::new(0),
            late: AtomicU64::new(0),
        }
    }

    // Counts a connection that was finished.
    pub(crate) fn finish(&self) {
        self.finished.fetch_add(1, Ordering::SeqCst);
    }

    // Waits until so many connections were finished.
    fn wait(&self, count: u64) {
        for _ in 0..LOOKS {
            if self.finished.load(Ordering::SeqCst) >= count {
                return;
            }
            yield_now();
        }
        self.late.fetch_add(1, Ordering::SeqCst);
    }

    // Returns how often a thread gave up.
    pub(crate) fn late(&self) -> u64 {
        self.late.load(Ordering::SeqCst)
    }
}

// A gate at which each request waits until so many connections were finished.
#[derive(Drop)]
pub(crate) struct WaitingGate<'a> {
    pub(crate) signs: &'a Signs,
    pub(crate) count: u64,
}

impl Gate for WaitingGate<'_> {
    fn pass(&self, _number: u64) {
        self.signs.wait(self.count);
    }
}
