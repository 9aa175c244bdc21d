// Threads: which emails they list (RFC 8621, section 3).
ghost use Rattle.std.specs.Prelude.{◌≡◌, ℕ, IfOk};
ghost use Rattle.std.specs.List.{list_all};
ghost use Rattle.mail_counts.specs.Members.{listed_in};
ghost use Rattle.mail_counts.specs.Touched.{list_of_thread};
ghost use Rattle.tidy_check.specs.Checks.{is_listed};

use crate::numbers::is_in_use;
use jm_base::{Kind, NoMemory};
use mail_counts::ThreadLists;
use mail_records::{Content, Thread};
use std::alloc::Global;

fn is_listed(
    alloc: Global,
    content: &Content,
    lists: &ThreadLists,
    thread: &Thread,
) -> Result<bool, NoMemory>
    requires lists { (t : ℕ) → listed_in lists.now t ≡ list_of_thread content.now.content.emails t }
    ensures { IfOk result (λ b. b ≡ is_listed content.now.content thread.now) }
{
    if !is_in_use(content.next(Kind::Thread), thread.number) {
        return Ok(false);
    }
    let emails = thread.emails.as_slice();
    if emails.is_empty() {
        return Ok(false);
    }
    lists.are_listed(alloc, thread.number, emails)
}

/// Returns whether each of these threads passes in the content, of whose emails the lists are.
pub(crate) fn are_listed(
    alloc: Global,
    content: &Content,
    lists: &ThreadLists,
    threads: &[Thread],
) -> Result<bool, NoMemory>
    requires lists { (t : ℕ) → listed_in lists.now t ≡ list_of_thread content.now.content.emails t }
    ensures { IfOk result (λ b. b ≡ list_all (is_listed content.now.content) threads.now) }
{
    for thread in threads {
        if !is_listed(alloc, content, lists, thread)? {
            return Ok(false);
        }
    }
    Ok(true)
}
