// An order, and which of two records is before the other.
ghost use Rattle.std.specs.Prelude.{◌≡◌, IfErr, IfOk, OnOk};
ghost use Rattle.std.specs.Ordering.{nat_cmp, ordering_then};
ghost use Rattle.std.specs.List.{list_any};
ghost use Rattle.jm_base.specs.declared.identifiers.Kind.TheVariants.{Email as OfEmails, Mailbox as OfMailboxes};
ghost use Rattle.jm_json.specs.Json.{tree_of};
ghost use Rattle.filter_terms.specs.Targets.{email_in_thread};
ghost use Rattle.sort_terms.specs.Comparators.{emails_cmp, mailboxes_cmp};
ghost use Rattle.sort_terms.specs.Forms.{IsOrder, Refuses, comparators_of};
ghost use Rattle.sort_terms.specs.Orders;
ghost use Rattle.sort_terms.specs.Orders.{is_before, numbers_cmp, records_cmp};
ghost use Rattle.sort_terms.specs.Properties.{is_wide_property};

use crate::comparators::{Comparator, read_comparators};
use crate::compare;
use crate::forms::{find_invalid_in_sort, find_unsupported_in_sort};
use crate::properties::is_wide_property;
use filter_terms::TermFault;
use jm_base::{Kind, Text};
use jm_json::{Json, copy};
use mail_records::{Content, Email, Mailbox};
use std::alloc::Global;
use std::cmp::Ordering;
use std::marker::Model;

/// An order of Mailbox/query or Email/query. Contracts see the kind of record that it is of, and
/// the tree that it was read from.
#[derive(Drop)]
pub struct Order {
    kind: Kind,
    tree: Json,
    comparators: Vec<Comparator>,
    over_thread: bool,
}

impl Model for Order {
    ghost use Rattle.sort_terms.specs.Views.{OrderTree, order_code};

    ghost Value = { OrderTree };

    ghost coded = { order_code };

    ghost use Rattle.std.specs.Prelude.{◌≡◌};
    ghost use Rattle.jm_json.specs.Json.{tree_of};
    ghost use Rattle.sort_terms.specs.Forms.{IsOrder, comparators_of};
    ghost use Rattle.sort_terms.specs.Orders.{is_wide};

    ghost view = { λ o. record { kind = o.kind; tree = tree_of o.tree } };

    ghost invariant = { λ o. IsOrder o.kind (tree_of o.tree)
        × (o.comparators.items ≡ comparators_of o.kind (tree_of o.tree))
        × (o.over_thread ≡ is_wide o.kind (tree_of o.tree)) };
}

// Returns whether some comparator looks at the thread.
fn are_wide(comparators: &[Comparator]) -> bool
    ensures { result ≡ list_any (λ c. is_wide_property c.property) comparators.now }
{
    for comparator in comparators {
        if is_wide_property(comparator.property) {
            return true;
        }
    }
    false
}

/// Reads the order of a query of mailboxes or of emails. Fails with `Invalid` if a member is
/// missing or of a wrong kind or the tree is no list of comparators (`invalidArguments`), else with
/// `Unsupported` if a property or a collation is not known (`unsupportedSort`); threads have no
/// query, and no property.
pub fn read_order(alloc: Global, kind: Kind, tree: &Json) -> Result<Order, TermFault>
    ensures ok { IfOk result (λ o. o ≡ record { kind = kind; tree = tree_of tree.now }) }
    ensures form { OnOk result (IsOrder kind (tree_of tree.now)) }
    ensures err { IfErr result (λ e. Refuses kind (tree_of tree.now) e) }
{
    if let Some(name) = find_invalid_in_sort(kind, tree) {
        return Err(TermFault::Invalid(Text::from_str(alloc, name)?));
    }
    if let Some(name) = find_unsupported_in_sort(kind, tree) {
        return Err(TermFault::Unsupported(Text::from_str(alloc, name)?));
    }
    let comparators = read_comparators(alloc, kind, tree)?;
    let over_thread = are_wide(&comparators);
    Ok(Order {
        kind,
        tree: copy(alloc, tree)?,
        comparators,
        over_thread,
    })
}

/// Returns whether an order looks at the other emails of an email's thread.
pub fn is_wide(order: &Order) -> bool
    ensures { result ≡ Orders.is_wide order.now.kind order.now.tree }
{
    order.over_thread
}

/// Returns whether an order has no comparator. Records that are there are then ordered by their
/// numbers alone.
pub fn is_by_number(order: &Order) -> bool
    ensures { result ≡ Orders.is_by_number order.now.kind order.now.tree }
{
    order.comparators.is_empty()
}

/// Compares two emails of a content by an order of emails; ties are broken by number, ascending.
pub fn compare_emails(order: &Order, content: &Content, left: &Email, right: &Email) -> Ordering
    ensures { result ≡ ordering_then (emails_cmp (comparators_of order.now.kind order.now.tree)
        (email_in_thread content.now.content.emails left.now)
        (email_in_thread content.now.content.emails right.now))
        (nat_cmp left.now.number right.now.number) }
{
    match compare::compare_emails(&order.comparators, content, left, right) {
        Ordering::Equal => left.number.cmp(&right.number),
        decided => decided,
    }
}

/// Compares two mailboxes by an order of mailboxes; ties are broken by number, ascending.
pub fn compare_mailboxes(order: &Order, left: &Mailbox, right: &Mailbox) -> Ordering
    ensures { result ≡ ordering_then (mailboxes_cmp (comparators_of order.now.kind order.now.tree)
        left.now right.now) (nat_cmp left.now.number right.now.number) }
{
    match compare::compare_mailboxes(&order.comparators, left, right) {
        Ordering::Equal => left.number.cmp(&right.number),
        decided => decided,
    }
}

// Compares the emails of two numbers by comparators; an email that is not there is before all
// others.
fn compare_emails_at(
    comparators: &[Comparator],
    content: &Content,
    left: u64,
    right: u64,
) -> Ordering
    ensures { result ≡ records_cmp OfEmails comparators.now content.now.content left right }
{
    let Some(one) = content.email(left) else {
        if content.email(right).is_none() {
            return Ordering::Equal;
        }
        return Ordering::Less;
    };
    match content.email(right) {
        Some(other) => compare::compare_emails(comparators, content, one, other),
        None => Ordering::Greater,
    }
}

fn compare_mailboxes_at(
    comparators: &[Comparator],
    content: &Content,
    left: u64,
    right: u64,
) -> Ordering
    ensures { result ≡ records_cmp OfMailboxes comparators.now content.now.content left right }
{
    let Some(one) = content.mailbox(left) else {
        if content.mailbox(right).is_none() {
            return Ordering::Equal;
        }
        return Ordering::Less;
    };
    match content.mailbox(right) {
        Some(other) => compare::compare_mailboxes(comparators, one, other),
        None => Ordering::Greater,
    }
}

// Compares the records of two numbers by the comparators of an order.
fn compare_records(order: &Order, content: &Content, left: u64, right: u64) -> Ordering
    ensures { result ≡ records_cmp order.now.kind (comparators_of order.now.kind order.now.tree)
        content.now.content left right }
{
    match order.kind {
        Kind::Mailbox => compare_mailboxes_at(&order.comparators, content, left, right),
        Kind::Email => compare_emails_at(&order.comparators, content, left, right),
        Kind::Thread => Ordering::Equal,
    }
}

/// Compares the records of two numbers, of the order's kind; ties are broken by number, ascending.
/// A record that is not there is before all others.
pub fn compare_numbers(order: &Order, content: &Content, left: u64, right: u64) -> Ordering
    ensures { result ≡ numbers_cmp order.now.kind order.now.tree content.now.content left right }
{
    match compare_records(order, content, left, right) {
        Ordering::Equal => left.cmp(&right),
        decided => decided,
    }
}

/// Returns whether the record of the first number is before that of the second, by the order.
pub fn before(order: &Order, content: &Content, left: u64, right: u64) -> bool
    ensures { result ≡ is_before order.now.kind order.now.tree content.now.content left right }
{
    compare_numbers(order, content, left, right) == Ordering::Less
}
