// States of an account whose edits are known from a position on, which no command has yet.
use change_calls::{ChangeFault, changes};
use jm_base::Kind;
use state_log::Log;
use std::alloc::Global;

// The state at which a page from a state ends; 0 if the changes can't be calculated.
fn find_new_state(alloc: Global, log: &Log, kind: Kind, since: &[u8]) -> Option<u64> {
    match changes(alloc, log, kind, since, None) {
        Ok(page) => Some(page.new_state),
        Err(ChangeFault::CannotCalculate) => Some(0),
        Err(_) => None,
    }
}

// The edits are known from position 9 on. The last ones before were those of a mailbox at 3, of an
// email at 7 and of a thread at 9.
const STATES: &[(Kind, &[u8], u64)] = &[
    (Kind::Mailbox, b"2", 0),
    (Kind::Mailbox, b"3", 3),
    (Kind::Email, b"6", 0),
    (Kind::Email, b"7", 7),
    (Kind::Email, b"9", 7),
    (Kind::Email, b"10", 0),
    (Kind::Thread, b"8", 0),
    (Kind::Thread, b"9", 9),
];

#[test]
fn states_below_the_floor_are_unknown(rt: HostRuntime) {
    let log = Log::new(rt.alloc(), 9, 3, 7, 9);
    for (kind, since, wanted) in STATES {
        let found = find_new_state(rt.alloc(), &log, *kind, since);
        assert!(rt; found == Some(*wanted));
    }
}
