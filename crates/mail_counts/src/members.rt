// Members of groups, sorted: the emails of a thread, and the emails and threads of a mailbox.
ghost use Rattle.std.specs.Prelude.{◌≡◌};
ghost use Rattle.std.specs.List.Sorted.{IsStrictlySortedBy};
ghost use Rattle.mail_counts.specs.Members.{member_cmp, of_group};
ghost use Rattle.mail_counts.specs.Touched.{sorted_once};

use std::cmp::Ordering;
use std::marker::Model;

/// A member of a group. The group is a thread or a mailbox, and the member an email or a thread.
#[derive(Clone, Copy, Debug, PartialEq, Eq, PartialOrd, Ord)]
pub(crate) struct Member {
    /// The number of the group.
    pub group: u64,
    /// When the member was received, in Unix seconds, or 0 if it doesn't matter.
    pub received: i64,
    /// The number of the member.
    pub number: u64,
}

/// Members by group, then by the time received, then by number, each once.
#[derive(Drop)]
pub(crate) struct Members {
    items: Vec<Member>,
}

impl Model for Members {
    ghost use Rattle.std.specs.Prelude.{List};
    ghost use Rattle.std.specs.List.Sorted.{IsStrictlySortedBy};
    ghost use Rattle.mail_counts.specs.Members.{member_cmp};
    ghost use Rattle.mail_counts.specs.declared.members.Member.{Member as TheMember};

    ghost Value = { List TheMember };

    ghost view = { λ m. m.items.items };

    ghost invariant = { λ m. IsStrictlySortedBy member_cmp m.items.items };
}

// Sorts members, and leaves each once.
fn put_in_order(members: &mut Vec<Member>)
    ensures is { members.new.items ≡ sorted_once member_cmp members.old.items }
    ensures rise { IsStrictlySortedBy member_cmp members.new.items }
{
    members.sort_unstable();
    members.dedup();
}

// Lends the members of a group.
fn lend_group(members: &[Member], group: u64) -> &[Member]
    requires rise { IsStrictlySortedBy member_cmp members.now }
    ensures { result.now ≡ of_group group members.now }
{
    let from = members.partition_point(|member| member.group.cmp(&group) == Ordering::Less);
    let (_below, rest) = members.split_at(from);
    let upto = rest.partition_point(|member| member.group.cmp(&group) != Ordering::Greater);
    let (lent, _above) = rest.split_at(upto);
    lent
}

impl Members {
    /// Returns the members in order, each once.
    pub(crate) fn new(members: Vec<Member>) -> Members
        ensures { result ≡ sorted_once member_cmp members.items }
    {
        let mut items = members;
        put_in_order(&mut items);
        Members { items }
    }

    /// Lends all members.
    pub(crate) fn as_slice(&self) -> &[Member]
        ensures { result.now ≡ self.now }
    {
        self.items.as_slice()
    }

    /// Lends the members of a group.
    pub(crate) fn of_group(&self, group: u64) -> &[Member]
        ensures { result.now ≡ of_group group self.now }
    {
        lend_group(&self.items, group)
    }
}
