// The arguments of a call of a /query method (RFC 8620, section 5.5; RFC 8621, sections 2.3 and
// 4.4).
ghost use Rattle.std.specs.Prelude.{◌≡◌, codes, [], IfErr, IfNone, IfOk, IfSome, option_map};
ghost use Rattle.std.specs.Option.{unwrap_or};
ghost use Rattle.method_args.specs.Arguments.{find_invalid, text_in};
ghost use Rattle.query_engine.specs.Responses.{ExplainsQuery, Reading, call_query, email_forms, frame_in, integer_or_zero, invalid_argument, is_set, is_tree, mailbox_forms, query, tree_faults, unsupported_filter, unsupported_sort};

use crate::faults::QueryFault;
use crate::frame::Frame;
use crate::query::{Query, read_query_in};
use jm_base::{Kind, NoMemory, Text};
use jm_json::Members;
use method_args::{Argument, Presence, Shape, find_invalid, read_flag, read_integer, read_text};
use std::alloc::Global;

// Returns the name of the first argument of Email/query in byte order that is missing or does not
// have its form; `filter` and `sort` are left out.
fn find_invalid_email_argument(members: &Members) -> Option<&'static str>
    ensures { option_map (λ s. s.now) result ≡ find_invalid email_forms members.now }
{
    find_invalid(
        members,
        &[
            Argument {
                name: "accountId",
                presence: Presence::Required,
                shape: Shape::String,
            },
            Argument {
                name: "anchor",
                presence: Presence::Nullable,
                shape: Shape::String,
            },
            Argument {
                name: "anchorOffset",
                presence: Presence::Optional,
                shape: Shape::Integer,
            },
            Argument {
                name: "calculateTotal",
                presence: Presence::Optional,
                shape: Shape::Flag,
            },
            Argument {
                name: "collapseThreads",
                presence: Presence::Optional,
                shape: Shape::Flag,
            },
            Argument {
                name: "limit",
                presence: Presence::Nullable,
                shape: Shape::Count,
            },
            Argument {
                name: "position",
                presence: Presence::Optional,
                shape: Shape::Integer,
            },
        ],
    )
}

fn find_invalid_mailbox_argument(members: &Members) -> Option<&'static str>
    ensures { option_map (λ s. s.now) result ≡ find_invalid mailbox_forms members.now }
{
    find_invalid(
        members,
        &[
            Argument {
                name: "accountId",
                presence: Presence::Required,
                shape: Shape::String,
            },
            Argument {
                name: "anchor",
                presence: Presence::Nullable,
                shape: Shape::String,
            },
            Argument {
                name: "anchorOffset",
                presence: Presence::Optional,
                shape: Shape::Integer,
            },
            Argument {
                name: "calculateTotal",
                presence: Presence::Optional,
                shape: Shape::Flag,
            },
            Argument {
                name: "filterAsTree",
                presence: Presence::Optional,
                shape: Shape::Flag,
            },
            Argument {
                name: "limit",
                presence: Presence::Nullable,
                shape: Shape::Count,
            },
            Argument {
                name: "position",
                presence: Presence::Optional,
                shape: Shape::Integer,
            },
            Argument {
                name: "sortAsTree",
                presence: Presence::Optional,
                shape: Shape::Flag,
            },
        ],
    )
}

pub(crate) fn find_invalid_argument(kind: Kind, members: &Members) -> Option<&'static str>
    ensures { option_map (λ s. s.now) result ≡ invalid_argument kind members.now }
{
    match kind {
        Kind::Mailbox => find_invalid_mailbox_argument(members),
        Kind::Email | Kind::Thread => find_invalid_email_argument(members),
    }
}

pub(crate) fn is_set(members: &Members, name: &str) -> bool
    ensures { result ≡ is_set name.now members.now }
{
    match read_flag(members, name) {
        Some(flag) => flag,
        None => false,
    }
}

fn read_integer_or_zero(members: &Members, name: &str) -> i64
    ensures { result ≡ integer_or_zero name.now members.now }
{
    match read_integer(members, name) {
        Some(number) => number,
        None => 0,
    }
}

fn read_anchor(alloc: Global, members: &Members) -> Result<Option<Text>, NoMemory>
    ensures { IfOk result (λ o. o ≡ text_in (codes "anchor") members.now) }
{
    match read_text(members, "anchor") {
        Some(text) => Ok(Some(Text::from_str(alloc, text.as_str())?)),
        None => Ok(None),
    }
}

pub(crate) fn read_frame(alloc: Global, members: &Members) -> Result<Frame, NoMemory>
    ensures { IfOk result (λ f. f ≡ frame_in members.now) }
{
    let anchor = read_anchor(alloc, members)?;
    Ok(Frame {
        position: read_integer_or_zero(members, "position"),
        anchor,
        offset: read_integer_or_zero(members, "anchorOffset"),
        limit: read_integer(members, "limit"),
    })
}

fn is_tree(kind: Kind, members: &Members, name: &str) -> bool
    ensures { result ≡ is_tree kind name.now members.now }
{
    match kind {
        Kind::Mailbox => is_set(members, name),
        Kind::Email | Kind::Thread => false,
    }
}

pub(crate) fn copy_name(alloc: Global, name: &str) -> Result<Text, NoMemory>
    ensures { IfOk result (λ t. t ≡ name.now) }
{
    Text::from_str(alloc, name)
}

fn build_unsupported_filter(alloc: Global, name: &str) -> QueryFault
    ensures { (r : Reading) → r ≡ unsupported_filter name.now → ExplainsQuery result r }
{
    match copy_name(alloc, name) {
        Ok(name) => QueryFault::UnsupportedFilter(name),
        Err(_) => QueryFault::NoMemory,
    }
}

fn build_unsupported_sort(alloc: Global, name: &str) -> QueryFault
    ensures { (r : Reading) → r ≡ unsupported_sort name.now → ExplainsQuery result r }
{
    match copy_name(alloc, name) {
        Ok(name) => QueryFault::UnsupportedSort(name),
        Err(_) => QueryFault::NoMemory,
    }
}

// Returns the fault of a query that asks for a tree, if it does.
fn find_tree_fault(alloc: Global, filtered: bool, sorted: bool) -> Option<QueryFault>
    ensures some { IfSome result (λ e. (r : Reading)
        → ExplainsQuery e (tree_faults filtered sorted r)) }
    ensures none { IfNone result ((r : Reading) → tree_faults filtered sorted r ≡ r) }
{
    if filtered {
        return Some(build_unsupported_filter(alloc, "filterAsTree"));
    }
    if sorted {
        return Some(build_unsupported_sort(alloc, "sortAsTree"));
    }
    None
}

// Returns the query of a call, which may not ask for a tree.
pub(crate) fn call_query(alloc: Global, kind: Kind, members: &Members) -> Result<Query, QueryFault>
    ensures ok { IfOk result (λ q. call_query kind members.now ≡ query q) }
    ensures err { IfErr result (λ e. ExplainsQuery e (call_query kind members.now)) }
{
    let filtered = is_tree(kind, members, "filterAsTree");
    let sorted = is_tree(kind, members, "sortAsTree");
    match read_query_in(alloc, kind, members) {
        Ok(query) => match find_tree_fault(alloc, filtered, sorted) {
            Some(fault) => Err(fault),
            None => Ok(query),
        },
        Err(QueryFault::UnsupportedSort(name)) => match find_tree_fault(alloc, filtered, sorted) {
            Some(fault) => Err(fault),
            None => Err(QueryFault::UnsupportedSort(name)),
        },
        Err(QueryFault::Invalid(name)) => Err(QueryFault::Invalid(name)),
        Err(QueryFault::UnsupportedFilter(name)) => Err(QueryFault::UnsupportedFilter(name)),
        Err(QueryFault::NoMemory) => Err(QueryFault::NoMemory),
    }
}

pub(crate) fn read_account_id<'a>(members: &'a Members) -> &'a str
    ensures { result.now ≡ unwrap_or (text_in (codes "accountId") members.now) [] }
{
    match read_text(members, "accountId") {
        Some(text) => text.as_str(),
        None => "",
    }
}
