// A point in a run at which a test can wait.
use std::sync::atomic::{AtomicU64, Ordering};

/// What is passed before each request of a connection and before each message of a socket. A test's
/// gate can wait there, so that the test fixes the order of what runs side by side. The program's
/// gate does nothing.
pub trait Gate: Drop + Send + Sync {
    /// Passes before the request or message with this number, counted from 1.
    fn pass(&self, number: u64);
}

/// A gate that does nothing.
#[derive(Drop)]
pub struct NoGate;

impl Gate for NoGate {
    fn pass(&self, _number: u64) {}
}

/// A gate that counts how often it was passed, for tests.
#[derive(Drop)]
pub struct CountingGate {
    passes: AtomicU64,
}

impl CountingGate {
    /// Returns a gate that was not passed yet.
    pub fn new() -> CountingGate {
        CountingGate {
            passes: AtomicU64::new(0),
        }
    }

    /// Returns how often the gate was passed. The count begins again at 0 after 2^64 - 1.
    pub fn count(&self) -> u64 {
        self.passes.load(Ordering::SeqCst)
    }
}

impl Gate for CountingGate {
    fn pass(&self, _number: u64) {
        self.passes.fetch_add(1, Ordering::SeqCst);
    }
}
