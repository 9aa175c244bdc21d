// Messages that `read` shows.
use crate::fails::NO_FAILS;
use crate::report::{Place, say, say_texts};
use crate::running::run_lines;
use crate::world::whole;
use jm_base::{Bytes, NoMemory};
use std::alloc::Global;
use std::sync::Wait;
use std::thread::Threads;

/// Shows a message by `read`. Returns whether its output is the wanted one.
pub(crate) fn check_message(
    rt: &(impl Threads + Wait + Sync),
    alloc: Global,
    message: &[u8],
    wanted: &[u8],
    file: Place<'_>,
    report: &mut Bytes,
) -> Result<bool, NoMemory> {
    let ran = run_lines(rt, alloc, "read", whole(message), NO_FAILS)?;
    if ran.status != 0 || !ran.error.is_empty() {
        let what = format!(in alloc; "status {}, wanted 0", ran.status)?;
        say(alloc, report, file, what.as_str())?;
        return Ok(false);
    }
    if ran.out.as_slice() != wanted {
        say_texts(alloc, report, file, wanted, ran.out.as_slice())?;
        return Ok(false);
    }
    Ok(true)
}
