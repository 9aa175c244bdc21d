// Chains of parents: whether each of them ends (RFC 8621, section 2: a mailbox is not its own
// ancestor).
ghost use Rattle.std.specs.Prelude.{◌≡◌, [], ℕ, IfOk, MatchOption, false};
ghost use Rattle.std.specs.BTreeMap.{get};
ghost use Rattle.std.specs.List.{list_all};
ghost use Rattle.std.specs.Ordering.{nat_cmp};
ghost use Rattle.mail_counts.specs.Tidy.{parent_of};
ghost use Rattle.tidy_check.specs.Chains.{AreDepths, HasDepth, IsClimbed};
ghost use Rattle.tidy_check.specs.Checks.{has_root, is_rooted};

use jm_base::NoMemory;
use mail_records::{Content, Mailbox};
use std::alloc::Global;
use std::collections::BTreeMap;

// Returns the number of a mailbox's parent, if there is that mailbox and it has one.
fn find_parent(content: &Content, number: u64) -> Option<u64>
    ensures { result ≡ parent_of content.now.content number }
{
    match content.mailbox(number) {
        Some(mailbox) => mailbox.parent,
        None => None,
    }
}

// Returns the known depth of a mailbox: how many mailboxes its chain has, with itself.
fn find_known_depth(depths: &BTreeMap<u64, u64>, number: u64) -> Option<u64>
    ensures { result ≡ get nat_cmp depths.now number }
{
    match depths.get(&number) {
        Some(depth) => Some(*depth),
        None => None,
    }
}

// Adds the numbers of a chain to the path, up to a mailbox whose depth is known or the end of the
// chain, and returns the depth of that. Returns None if the chain doesn't end.
fn climb(
    content: &Content,
    depths: &BTreeMap<u64, u64>,
    path: &mut Vec<u64>,
    start: Option<u64>,
) -> Result<Option<u64>, NoMemory>
    requires depths { AreDepths content.now.content depths.now }
    requires empty { path.old.items ≡ [] }
    ensures { IfOk result (λ o. MatchOption o (has_root content.now.content start ≡ false)
        (λ d. IsClimbed content.now.content start path.new.items d)) }
{
    let limit = content.mailboxes().len();
    let mut next = start;
    while let Some(number) = next {
        if let Some(depth) = find_known_depth(depths, number) {
            return Ok(Some(depth));
        }
        if path.len() >= limit {
            return Ok(None);
        }
        path.push(number)?;
        next = find_parent(content, number);
    }
    Ok(Some(0))
}

// Enters the depths of the mailboxes of a path, whose end has this depth, and returns that of the
// chain that begins with the path.
fn descend(
    content: &Content,
    depths: &mut BTreeMap<u64, u64>,
    path: Vec<u64>,
    start: Option<u64>,
    depth: u64,
) -> Result<u64, NoMemory>
    requires depths { AreDepths content.now.content depths.old }
    requires climbed { IsClimbed content.now.content start path.items depth }
    ensures depth { IfOk result (λ d. HasDepth content.now.content d start) }
    ensures depths { IfOk result (λ _. AreDepths content.now.content depths.new) }
{
    let _content = content;
    let _start = start;
    let mut rest = path;
    let mut total = depth;
    while let Some(number) = rest.pop() {
        let Some(more) = total.checked_add(1) else {
            return Err(NoMemory);
        };
        total = more;
        depths.insert(number, total)?;
    }
    Ok(total)
}

// Returns whether a chain of parents ends, and enters the depths of its mailboxes.
fn has_root(
    alloc: Global,
    content: &Content,
    depths: &mut BTreeMap<u64, u64>,
    start: Option<u64>,
) -> Result<bool, NoMemory>
    requires depths { AreDepths content.now.content depths.old }
    ensures root { IfOk result (λ b. b ≡ has_root content.now.content start) }
    ensures depths { IfOk result (λ b. AreDepths content.now.content depths.new) }
{
    let mut path = Vec::new(alloc);
    let Some(depth) = climb(content, depths, &mut path, start)? else {
        return Ok(false);
    };
    let depth = descend(content, depths, path, start, depth)?;
    Ok(depth <= content.mailboxes().len() as u64)
}

/// Returns whether the chain of parents of each of these mailboxes ends. Each mailbox is visited
/// once.
pub(crate) fn are_rooted(
    alloc: Global,
    content: &Content,
    mailboxes: &[Mailbox],
) -> Result<bool, NoMemory>
    ensures { IfOk result (λ b. b ≡ list_all (is_rooted content.now.content) mailboxes.now) }
{
    let mut depths = BTreeMap::new(alloc);
    for mailbox in mailboxes {
        if !has_root(alloc, content, &mut depths, mailbox.parent)? {
            return Ok(false);
        }
    }
    Ok(true)
}
