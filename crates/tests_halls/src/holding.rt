// A keeper in memory whose `append` is held until another thread gives a sign.
ghost use Rattle.std.specs.Prelude.{Some};
ghost use Rattle.keep_port.specs.Memory.{may_be_left};

use jm_edge::EdgeFault;
use keep_port::{Keeper, Kept, MemoryKeeper};
use std::alloc::Global;
use std::sync::atomic::{AtomicBool, Ordering};
use std::thread::yield_now;

// How often a thread looks for the sign of another before it gives up.
const LOOKS: u64 = 10_000_000;

// Whether a flag is set before a thread gives up.
fn is_seen(flag: &AtomicBool) -> bool {
    for _ in 0..LOOKS {
        if flag.load(Ordering::SeqCst) {
            return true;
        }
        yield_now();
    }
    false
}

// What two threads tell each other.
#[derive(Drop)]
pub(crate) struct Signs {
    // The one is in `append`.
    inside: AtomicBool,
    // The call of the other has returned.
    returned: AtomicBool,
    // One of them gave up.
    late: AtomicBool,
}

impl Signs {
    pub(crate) fn new() -> Signs {
        Signs {
            inside: AtomicBool::new(false),
            returned: AtomicBool::new(false),
            late: AtomicBool::new(false),
        }
    }

    // Says that the thread is in `append`, and waits for the other's call to return.
    fn hold(&self) {
        self.inside.store(true, Ordering::SeqCst);
        if !is_seen(&self.returned) {
            self.late.store(true, Ordering::SeqCst);
        }
    }

    // Waits for the other thread to be in `append`.
    pub(crate) fn wait_inside(&self) {
        if !is_seen(&self.inside) {
            self.late.store(true, Ordering::SeqCst);
        }
    }

    // Says that the call has returned.
    pub(crate) fn set_returned(&self) {
        self.returned.store(true, Ordering::SeqCst);
    }

    // Whether each thread saw the other's sign.
    pub(crate) fn all_seen(&self) -> bool {
        let inside = self.inside.load(Ordering::SeqCst);
        let returned = self.returned.load(Ordering::SeqCst);
        inside && returned && !self.late.load(Ordering::SeqCst)
    }
}

// A keeper in memory, whose `append` is held where it has signs.
#[derive(Drop)]
pub(crate) struct Holding<'a> {
    pub(crate) memory: MemoryKeeper,
    pub(crate) signs: Option<&'a Signs>,
}

impl Keeper for Holding<'_> {
    ghost kept = { λ h. Some h.memory.kept };

    ghost image = { λ h. may_be_left h.memory };

    ghost load_faults = { λ h. h.memory.loads.faults };

    ghost append_faults = { λ h. h.memory.appends.faults };

    ghost replace_faults = { λ h. h.memory.replaces.faults };

    fn load(&mut self, alloc: Global) -> Result<Kept, EdgeFault> {
        self.memory.load(alloc)
    }

    fn append(&mut self, alloc: Global, row: &[u8]) -> Result<(), EdgeFault> {
        if let Some(signs) = self.signs {
            signs.hold();
        }
        self.memory.append(alloc, row)
    }

    fn replace(&mut self, alloc: Global, whole: &Kept) -> Result<(), EdgeFault> {
        self.memory.replace(alloc, whole)
    }
}
