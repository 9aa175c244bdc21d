// How far a set has come, and where it begins.
ghost use Rattle.std.specs.Prelude.{IfOk, ◌≡◌};
ghost use Rattle.mailbox_creates.specs.Views.{Follows};
ghost use Rattle.set_parts.specs.Creates.{before_creates};

use jm_base::{Kind, NoMemory};
use jm_json::Created;
use mail_records::Content;
use set_parts::{Creates, TextSet, new_set, start_creates};
use std::alloc::Global;

/// How far a set has come: the content that it began with, the next number of a mailbox, the names
/// and roles of the mailboxes that it created, and what the creates have come to.
#[derive(Drop)]
pub struct Planner<'a> {
    pub content: &'a Content,
    pub next: u64,
    pub names: TextSet<'a>,
    pub roles: TextSet<'a>,
    pub creates: Creates<'a>,
}

/// Returns a planner before the first create.
pub fn start_planner<'a>(
    alloc: Global,
    content: &'a Content,
    made: &'a [Created],
) -> Result<Planner<'a>, NoMemory>
    ensures follows { IfOk result (λ p. Follows p (before_creates content.now.content made.now)) }
    ensures next { IfOk result (λ p. p.next ≡ content.now.content.next_mailbox) }
{
    let next = content.next(Kind::Mailbox);
    // Names and roles are looked up in the content, whose mailboxes are in number order.
    let _in_order = content.mailboxes();
    let names = new_set(alloc);
    let roles = new_set(alloc);
    let creates = start_creates(alloc, made)?;
    Ok(Planner {
        content,
        next,
        names,
        roles,
        creates,
    })
}
