// Which of the lists that a content keeps in order serves a query.
ghost use Rattle.std.specs.Prelude.{◌≡◌, Bool, IfSome, map, option_and_then};
ghost use Rattle.jm_json.specs.Find.{as_object};
ghost use Rattle.jm_json.specs.Json.{tree_of};
ghost use Rattle.query_engine.specs.Walks.{IsAmong, IsInMailbox, IsSortedByReceived, JoinsMailbox, NamesMailbox, Serves, is_conjunction, received_by};

use crate::windows::read_number_of_id;
use jm_base::Kind;
use jm_json::{Json, Members};
use method_args::read_text;
use sort_terms::is_ascending;

/// What a query goes over, in its order.
#[derive(Clone, Copy, Debug, PartialEq, Eq)]
pub(crate) enum Walk {
    /// All records, which are sorted.
    Sorted,
    /// The emails in a mailbox, which are sorted.
    SortedInMailbox(u64),
    /// All emails by the time received, ascending or descending.
    ByReceived(bool),
    /// The emails in a mailbox by the time received, ascending or descending.
    InMailbox(u64, bool),
}

// Returns whether a comparator is ascending if it is by the time received.
fn read_received_direction(members: &Members) -> Option<bool>
    ensures { result ≡ received_by members.now }
{
    match read_text(members, "property") {
        Some(property) => {
            if property.as_str() == "receivedAt" {
                Some(is_ascending(members))
            } else {
                None
            }
        }
        None => None,
    }
}

fn read_received_comparator(comparator: &Json) -> Option<bool>
    ensures { result ≡ option_and_then received_by (as_object (tree_of comparator.now)) }
{
    match comparator.as_object() {
        Some(members) => read_received_direction(members),
        None => None,
    }
}

// Returns whether a sort is ascending if it has one comparator, by the time received.
#[tactic(auto, using(crate::proofs::Within::sorted_by_received))]
fn read_received_order(sort: &Json) -> Option<bool>
    ensures { IfSome result (λ ascending. IsSortedByReceived (tree_of sort.now) ascending) }
{
    match sort.as_list() {
        Some(items) => match items.as_slice() {
            [only] => read_received_comparator(only),
            _ => None,
        },
        None => None,
    }
}

// Returns the mailbox that a condition object names, if it names one.
fn find_mailbox_in_members(members: &Members) -> Option<u64>
    ensures { IfSome result (λ mailbox. NamesMailbox members.now mailbox) }
{
    if members.get("operator").is_some() {
        return None;
    }
    match read_text(members, "inMailbox") {
        Some(id) => read_number_of_id(Kind::Mailbox, id.as_bytes()),
        None => None,
    }
}

// Returns the mailbox that a filter names as a condition object, if it names one.
#[tactic(auto, using(crate::proofs::Within::within_condition))]
fn find_mailbox_in_condition(filter: &Json) -> Option<u64>
    ensures { IfSome result (λ mailbox. IsInMailbox (tree_of filter.now) mailbox) }
{
    match filter.as_object() {
        Some(members) => find_mailbox_in_members(members),
        None => None,
    }
}

// Returns the first mailbox that one of the filters names as a condition object.
fn find_mailbox_among(filters: &[Json]) -> Option<u64>
    ensures { IfSome result (λ mailbox. IsAmong mailbox (map tree_of filters.now)) }
{
    for filter in filters {
        if let Some(mailbox) = find_mailbox_in_condition(filter) {
            return Some(mailbox);
        }
    }
    None
}

// Returns the first mailbox that one of the filters which an AND joins names.
fn find_mailbox_in_conjunction(members: &Members) -> Option<u64>
    ensures { IfSome result (λ mailbox. JoinsMailbox members.now mailbox) }
{
    match members.get("conditions") {
        Some(conditions) => match conditions.as_list() {
            Some(filters) => find_mailbox_among(filters.as_slice()),
            None => None,
        },
        None => None,
    }
}

fn is_conjunction(members: &Members) -> bool
    ensures { result ≡ is_conjunction members.now }
{
    match read_text(members, "operator") {
        Some(operator) => operator.as_str() == "AND",
        None => false,
    }
}

// Returns a mailbox that each email is in that a filter matches, if the filter says so: by a
// condition, or by one of those that it joins with AND.
#[tactic(auto, using(crate::proofs::Within::within_conjunction))]
fn find_mailbox_in_filter(filter: &Json) -> Option<u64>
    ensures { IfSome result (λ mailbox. IsInMailbox (tree_of filter.now) mailbox) }
{
    let Some(members) = filter.as_object() else {
        return None;
    };
    if is_conjunction(members) {
        return find_mailbox_in_conjunction(members);
    }
    find_mailbox_in_condition(filter)
}

/// Returns which list serves a query with this filter and this sort.
pub(crate) fn find_walk(kind: Kind, filter: &Json, sort: &Json) -> Walk
    ensures { (collapse : Bool) → Serves result (record {
      kind = kind;
      filter = tree_of filter.now;
      order = tree_of sort.now;
      collapse = collapse;
    }) }
{
    if kind != Kind::Email {
        return Walk::Sorted;
    }
    let mailbox = find_mailbox_in_filter(filter);
    match read_received_order(sort) {
        Some(ascending) => match mailbox {
            Some(mailbox) => Walk::InMailbox(mailbox, ascending),
            None => Walk::ByReceived(ascending),
        },
        None => match mailbox {
            Some(mailbox) => Walk::SortedInMailbox(mailbox),
            None => Walk::Sorted,
        },
    }
}
