// The properties by which queries are sorted, by their names (RFC 8621, sections 2.3 and 4.4.2).
ghost use Rattle.std.specs.Prelude.{◌≡◌};
ghost use Rattle.sort_terms.specs.Properties.{email_property, is_wide_property, mailbox_property, needs_keyword, property_named};

use jm_base::Kind;

/// A property of emails or of mailboxes.
#[derive(Clone, Copy, Debug, PartialEq, Eq)]
pub(crate) enum Property {
    ReceivedAt,
    Size,
    From,
    To,
    Subject,
    SentAt,
    HasKeyword,
    AllInThread,
    SomeInThread,
    SortOrder,
    Name,
}

fn find_email_property(name: &str) -> Option<Property>
    ensures { result ≡ email_property name.now }
{
    if name == "receivedAt" {
        Some(Property::ReceivedAt)
    } else if name == "size" {
        Some(Property::Size)
    } else if name == "from" {
        Some(Property::From)
    } else if name == "to" {
        Some(Property::To)
    } else if name == "subject" {
        Some(Property::Subject)
    } else if name == "sentAt" {
        Some(Property::SentAt)
    } else if name == "hasKeyword" {
        Some(Property::HasKeyword)
    } else if name == "allInThreadHaveKeyword" {
        Some(Property::AllInThread)
    } else if name == "someInThreadHaveKeyword" {
        Some(Property::SomeInThread)
    } else {
        None
    }
}

fn find_mailbox_property(name: &str) -> Option<Property>
    ensures { result ≡ mailbox_property name.now }
{
    if name == "sortOrder" {
        Some(Property::SortOrder)
    } else if name == "name" {
        Some(Property::Name)
    } else {
        None
    }
}

/// Returns the property with this name in a query of the kind, or `None` if there is none.
pub(crate) fn find_property(kind: Kind, name: &str) -> Option<Property>
    ensures { result ≡ property_named kind name.now }
{
    match kind {
        Kind::Email => find_email_property(name),
        Kind::Mailbox => find_mailbox_property(name),
        Kind::Thread => None,
    }
}

/// Returns whether a comparator by the property names a keyword.
pub(crate) fn needs_keyword(property: Option<Property>) -> bool
    ensures { result ≡ needs_keyword property }
{
    match property {
        Some(Property::HasKeyword | Property::AllInThread | Property::SomeInThread) => true,
        _ => false,
    }
}

/// Returns whether the property is of the thread.
pub(crate) fn is_wide_property(property: Property) -> bool
    ensures { result ≡ is_wide_property property }
{
    match property {
        Property::AllInThread | Property::SomeInThread => true,
        Property::ReceivedAt
        | Property::Size
        | Property::From
        | Property::To
        | Property::Subject
        | Property::SentAt
        | Property::HasKeyword
        | Property::SortOrder
        | Property::Name => false,
    }
}
