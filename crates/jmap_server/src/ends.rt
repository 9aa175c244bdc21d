// Workers say that they have ended, and are waited for.
use std::sync::Wait;
use std::sync::atomic::{AtomicU64, Ordering};

/// Which workers have ended, each by a bit of its own, and how many have since the beginning.
#[derive(Drop)]
pub(crate) struct Ends {
    ended: AtomicU64,
    count: AtomicU64,
}

impl Ends {
    /// Returns the ends before the first.
    pub(crate) fn new() -> Ends {
        Ends {
            ended: AtomicU64::new(0),
            count: AtomicU64::new(0),
        }
    }

    /// Says that the worker with this bit has ended. It has not said so before.
    pub(crate) fn signal(&self, bit: u64) {
        self.ended.fetch_add(bit, Ordering::SeqCst);
        self.count.fetch_add(1, Ordering::SeqCst);
        self.count.wake_one();
    }

    /// Makes the bit of a worker that has ended free for another.
    pub(crate) fn clear(&self, bit: u64) {
        self.ended.fetch_sub(bit, Ordering::SeqCst);
    }

    /// Returns whether the worker with this bit has ended.
    pub(crate) fn has_ended(&self, bit: u64) -> bool {
        self.ended.load(Ordering::SeqCst) & bit != 0
    }

    /// Returns how many workers have ended.
    pub(crate) fn count(&self) -> u64 {
        self.count.load(Ordering::SeqCst)
    }

    /// Waits for a worker to end, unless one more has ended than so many. It may also return for no
    /// reason.
    pub(crate) fn wait<H: Wait>(&self, rt: &H, count: u64) {
        self.count.park(rt, (count % (1 << 32)) as u32);
    }
}
