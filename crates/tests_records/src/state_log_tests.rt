// A log that begins at a floor. No command has one, since no account has a base yet.
ghost use Rattle.std.specs.Prelude.{◌≡◌, IfOk};

use jm_base::{Kind, NoMemory};
use mail_records::Edit;
use state_log::Log;
use std::alloc::Global;
use std::test::Fail;

// A log from the position 10 on, before which mailboxes were last edited at 7, emails at 10 and
// threads at 3; and four edits.
fn log(alloc: Global) -> Result<Log, NoMemory>
    ensures { IfOk result (λ l. l.floor ≡ 10) }
{
    let mut log = Log::new(alloc, 10, 7, 10, 3);
    let thread = 2;
    log.push(&Edit::DropEmail { number: 5, thread })?;
    log.push(&Edit::DropThread { number: 2 })?;
    let thread = 1;
    log.push(&Edit::DropEmail { number: 4, thread })?;
    let thread = 2;
    log.push(&Edit::DropEmail { number: 5, thread })?;
    Ok(log)
}

const STATES: &[(Kind, u64)] = &[(Kind::Mailbox, 7), (Kind::Email, 14), (Kind::Thread, 12)];

// Positions, and the state of the emails there.
const AT: &[(u64, u64)] = &[(9, 10), (10, 10), (11, 11), (12, 11), (13, 13), (20, 14)];

// Positions, and whether it can be said what mailboxes changed since.
const REACHED: &[(u64, bool)] = &[(6, false), (7, true), (14, true), (15, false)];

#[test]
fn states_begin_at_the_floor(rt: HostRuntime) -> Result<(), Fail> {
    let log = log(rt.alloc())?;
    assert_eq!(rt; log.end(), 14);
    for (kind, state) in STATES {
        assert_eq!(rt; log.state_of(*kind), *state);
    }
    for (position, state) in AT {
        assert_eq!(rt;
            log.state_at(Kind::Email, *position),
            *state,
            "at {position}"
        );
    }
    for (position, known) in REACHED {
        assert_eq!(rt;
            log.reaches(Kind::Mailbox, *position),
            *known,
            "at {position}"
        );
    }
    Ok(())
}

// A kind, two positions, and the numbers that the edits of the kind between them name.
const TOUCHED: &[(Kind, u64, u64, &[u64])] = &[
    (Kind::Email, 10, 14, &[4, 5]),
    (Kind::Email, 11, 13, &[4]),
    (Kind::Mailbox, 7, 14, &[]),
];

#[test]
fn edits_after_the_floor_name_numbers(rt: HostRuntime) -> Result<(), Fail> {
    let log = log(rt.alloc())?;
    for (kind, from, to, numbers) in TOUCHED {
        assert!(rt; *from <= *to && *to <= log.end());
        let touched = log.touched(rt.alloc(), *kind, *from, *to)?;
        assert_eq!(rt; touched.as_slice(), *numbers);
    }
    Ok(())
}

// Positions of the emails' edits after the floor 12, and the threads of these.
const EMAIL_POSITIONS: &[u64] = &[13, 14];

const EMAIL_THREADS: &[u64] = &[1, 2];

#[test]
fn a_floor_moves_up(rt: HostRuntime) -> Result<(), Fail> {
    let mut log = log(rt.alloc())?;
    assert!(rt; log.end() == 14);
    assert_eq!(rt; log.find_edit_before(14), 11);
    log.move_floor(12);
    assert_eq!(rt; log.find_edit_before(14), 0);
    for (kind, state) in STATES {
        assert_eq!(rt; log.state_of(*kind), *state);
    }
    assert!(rt; !log.reaches(Kind::Email, 10));
    assert!(rt; log.reaches(Kind::Email, 11));
    assert_eq!(rt; log.positions_between(Kind::Email, 11, 14), EMAIL_POSITIONS);
    assert_eq!(rt; log.threads_between(11, 14), EMAIL_THREADS);
    Ok(())
}
