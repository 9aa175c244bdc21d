// The emails that each thread lists.
ghost use Rattle.std.specs.Prelude.{◌≡◌, ℕ, IfOk, map};
ghost use Rattle.mail_counts.specs.DerivedEdits.{same_numbers};
ghost use Rattle.mail_counts.specs.Members.{listed_in};
ghost use Rattle.mail_counts.specs.Touched.{list_of_thread};

use crate::following::{are_same_numbers, collect_numbers, collect_thread_members};
use crate::members::Members;
use jm_base::NoMemory;
use mail_records::Email;
use std::alloc::Global;
use std::marker::Model;

/// Which emails each thread lists: those of the thread by the time received, then by number (RFC
/// 8621, section 3).
#[derive(Drop)]
pub struct ThreadLists {
    members: Members,
}

impl Model for ThreadLists {
    ghost use Rattle.std.specs.Prelude.{List};
    ghost use Rattle.mail_counts.specs.declared.members.Member.{Member as TheMember};

    ghost Value = { List TheMember };

    ghost view = { λ l. l.members };
}

impl ThreadLists {
    /// Sorts emails by thread.
    pub fn new(alloc: Global, emails: &[&Email]) -> Result<ThreadLists, NoMemory>
        ensures { IfOk result (λ l. (t : ℕ) → listed_in l t
            ≡ list_of_thread (map (λ r. r.now) emails.now) t) }
    {
        Ok(ThreadLists {
            members: Members::new(collect_thread_members(alloc, emails)?),
        })
    }

    /// Returns whether a thread lists these emails.
    pub fn are_listed(&self, alloc: Global, thread: u64, emails: &[u64]) -> Result<bool, NoMemory>
        ensures { IfOk result (λ b. b ≡ same_numbers emails.now (listed_in self.now thread)) }
    {
        let listed = collect_numbers(alloc, self.members.of_group(thread))?;
        Ok(are_same_numbers(emails, &listed))
    }
}
