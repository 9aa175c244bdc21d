// The conditions and operators of filters, by their names (RFC 8620, section 5.5; RFC 8621,
// sections 2.3 and 4.4.1).
ghost use Rattle.std.specs.Prelude.{◌≡◌, Some};
ghost use Rattle.jm_json.specs.Json.{tree_of};
ghost use Rattle.filter_terms.specs.Names.{email_term, keyword_test, mailbox_term, operator_named, operator_of, other_term, place_named, term_of};

use crate::texts::Place;
use jm_base::Kind;
use jm_json::Json;

/// What a condition on a keyword asks.
#[derive(Clone, Copy, Debug, PartialEq, Eq)]
pub(crate) enum KeywordTest {
    AllInThread,
    SomeInThread,
    NoneInThread,
    Has,
    HasNot,
}

/// A condition of Email/query.
#[derive(Clone, Copy, Debug, PartialEq, Eq)]
pub(crate) enum EmailTerm {
    InMailbox,
    InMailboxOtherThan,
    Before,
    After,
    MinSize,
    MaxSize,
    Keyword(KeywordTest),
    HasAttachment,
    Contains(Place),
    Header,
}

/// A condition of Mailbox/query.
#[derive(Clone, Copy, Debug, PartialEq, Eq)]
pub(crate) enum MailboxTerm {
    ParentId,
    Name,
    Role,
    HasAnyRole,
    IsSubscribed,
}

/// A condition.
#[derive(Clone, Copy, Debug, PartialEq, Eq)]
pub(crate) enum Term {
    OfEmail(EmailTerm),
    OfMailbox(MailboxTerm),
}

/// An operator that joins filters into one.
#[derive(Clone, Copy, Debug, PartialEq, Eq)]
pub(crate) enum Operator {
    And,
    Or,
    Not,
}

fn find_keyword_test(name: &str) -> Option<KeywordTest>
    ensures { result ≡ keyword_test name.now }
{
    if name == "allInThreadHaveKeyword" {
        Some(KeywordTest::AllInThread)
    } else if name == "someInThreadHaveKeyword" {
        Some(KeywordTest::SomeInThread)
    } else if name == "noneInThreadHaveKeyword" {
        Some(KeywordTest::NoneInThread)
    } else if name == "hasKeyword" {
        Some(KeywordTest::Has)
    } else if name == "notKeyword" {
        Some(KeywordTest::HasNot)
    } else {
        None
    }
}

fn place_named(name: &str) -> Option<Place>
    ensures { result ≡ place_named name.now }
{
    if name == "text" {
        Some(Place::Text)
    } else if name == "from" {
        Some(Place::From)
    } else if name == "to" {
        Some(Place::To)
    } else if name == "cc" {
        Some(Place::Cc)
    } else if name == "bcc" {
        Some(Place::Bcc)
    } else if name == "subject" {
        Some(Place::Subject)
    } else if name == "body" {
        Some(Place::Body)
    } else {
        None
    }
}

fn find_other_term(name: &str) -> Option<EmailTerm>
    ensures { result ≡ other_term name.now }
{
    if name == "inMailbox" {
        Some(EmailTerm::InMailbox)
    } else if name == "inMailboxOtherThan" {
        Some(EmailTerm::InMailboxOtherThan)
    } else if name == "before" {
        Some(EmailTerm::Before)
    } else if name == "after" {
        Some(EmailTerm::After)
    } else if name == "minSize" {
        Some(EmailTerm::MinSize)
    } else if name == "maxSize" {
        Some(EmailTerm::MaxSize)
    } else if name == "hasAttachment" {
        Some(EmailTerm::HasAttachment)
    } else if name == "header" {
        Some(EmailTerm::Header)
    } else {
        None
    }
}

fn find_email_term(name: &str) -> Option<EmailTerm>
    ensures { result ≡ email_term name.now }
{
    if let Some(test) = find_keyword_test(name) {
        return Some(EmailTerm::Keyword(test));
    }
    match place_named(name) {
        Some(place) => Some(EmailTerm::Contains(place)),
        None => find_other_term(name),
    }
}

fn find_mailbox_term(name: &str) -> Option<MailboxTerm>
    ensures { result ≡ mailbox_term name.now }
{
    if name == "parentId" {
        Some(MailboxTerm::ParentId)
    } else if name == "name" {
        Some(MailboxTerm::Name)
    } else if name == "role" {
        Some(MailboxTerm::Role)
    } else if name == "hasAnyRole" {
        Some(MailboxTerm::HasAnyRole)
    } else if name == "isSubscribed" {
        Some(MailboxTerm::IsSubscribed)
    } else {
        None
    }
}

/// Returns the condition with this name in a query of the kind, or `None` if there is none.
pub(crate) fn find_term(kind: Kind, name: &str) -> Option<Term>
    ensures { result ≡ term_of kind name.now }
{
    match kind {
        Kind::Email => find_email_term(name).map(|term| Term::OfEmail(term)),
        Kind::Mailbox => find_mailbox_term(name).map(|term| Term::OfMailbox(term)),
        Kind::Thread => None,
    }
}

fn find_operator(name: &str) -> Option<Operator>
    ensures { result ≡ operator_named name.now }
{
    if name == "AND" {
        Some(Operator::And)
    } else if name == "OR" {
        Some(Operator::Or)
    } else if name == "NOT" {
        Some(Operator::Not)
    } else {
        None
    }
}

/// Returns the operator that a value names, or `None` if it names none.
pub(crate) fn read_operator(value: &Json) -> Option<Operator>
    ensures { result ≡ operator_of (tree_of value.now) }
{
    match value.as_text() {
        Some(name) => find_operator(name.as_str()),
        None => None,
    }
}
