// The first value of a wrong kind in a tree that is no filter (RFC 8620, section 5.5).
ghost use Rattle.std.specs.Prelude.{◌≡◌, is_some, option_and_then, option_map, map};
ghost use Rattle.jm_json.specs.Find.{as_text, texts_from};
ghost use Rattle.jm_json.specs.Json.{member_of, tree_of};
ghost use Rattle.jm_json.specs.Tree.{fields_of, object, trees_of};
ghost use Rattle.filter_terms.specs.Forms.{invalid_operator, fits, fits_email, fits_mailbox, invalid, invalid_conditions, invalid_items, invalid_list, misfit, misfit_in};
ghost use Rattle.filter_terms.specs.Names.{term_of};
ghost use Rattle.filter_terms.specs.Values.{as_field_test, as_nullable, field_test};

use crate::terms::{EmailTerm, MailboxTerm, Term, find_term, read_operator};
use crate::values::as_date;
use jm_base::Kind;
use jm_json::{Json, Member, Members};
use method_args::{Presence, Shape, has_form};

// Returns whether a value is a string or null.
fn is_nullable(value: &Json) -> bool
    ensures { result ≡ is_some (as_nullable (tree_of value.now)) }
{
    match value {
        Json::Null | Json::Text(_) => true,
        Json::Bool(_) | Json::Int(_) | Json::List(_) | Json::Object(_) => false,
    }
}

fn is_text(value: &Json) -> bool
    ensures { result ≡ is_some (as_text (tree_of value.now)) }
{
    match value {
        Json::Text(_) => true,
        Json::Null | Json::Bool(_) | Json::Int(_) | Json::List(_) | Json::Object(_) => false,
    }
}

// Returns whether these are one or two strings.
#[tactic(auto, using(crate::proofs::FieldTests::field_tests))]
fn are_field_test(items: &[Json]) -> bool
    ensures { result
        ≡ is_some (option_and_then field_test (texts_from (map tree_of items.now))) }
{
    let Some((name, rest)) = items.split_first() else {
        return false;
    };
    let Some((needle, more)) = rest.split_first() else {
        return is_text(name);
    };
    if let Some(_) = more.split_first() {
        return false;
    }
    is_text(name) && is_text(needle)
}

// Returns whether a value is a list of one or two strings.
fn is_field_test(value: &Json) -> bool
    ensures { result ≡ is_some (as_field_test (tree_of value.now)) }
{
    match value.as_list() {
        Some(items) => are_field_test(items.as_slice()),
        None => false,
    }
}

fn fits_email(term: EmailTerm, value: &Json) -> bool
    ensures { result ≡ fits_email term (tree_of value.now) }
{
    let shape = match term {
        EmailTerm::Before | EmailTerm::After => return as_date(value).is_some(),
        EmailTerm::Header => return is_field_test(value),
        EmailTerm::InMailboxOtherThan => Shape::Strings,
        EmailTerm::MinSize | EmailTerm::MaxSize => Shape::Count,
        EmailTerm::HasAttachment => Shape::Flag,
        EmailTerm::InMailbox | EmailTerm::Keyword(_) | EmailTerm::Contains(_) => Shape::String,
    };
    has_form(Presence::Required, shape, Some(value))
}

fn fits_mailbox(term: MailboxTerm, value: &Json) -> bool
    ensures { result ≡ fits_mailbox term (tree_of value.now) }
{
    match term {
        MailboxTerm::ParentId | MailboxTerm::Role => is_nullable(value),
        MailboxTerm::Name => has_form(Presence::Required, Shape::String, Some(value)),
        MailboxTerm::HasAnyRole | MailboxTerm::IsSubscribed => {
            has_form(Presence::Required, Shape::Flag, Some(value))
        }
    }
}

fn fits(term: Option<Term>, value: &Json) -> bool
    ensures { result ≡ fits term (tree_of value.now) }
{
    match term {
        None => true,
        Some(Term::OfEmail(term)) => fits_email(term, value),
        Some(Term::OfMailbox(term)) => fits_mailbox(term, value),
    }
}

fn find_invalid_value<'a>(kind: Kind, name: &'a str, value: &Json) -> Option<&'a str>
    ensures { option_map (λ s. s.now) result ≡ misfit kind name.now (tree_of value.now) }
{
    if fits(find_term(kind, name), value) {
        None
    } else {
        Some(name)
    }
}

fn find_invalid_in_members(kind: Kind, members: &[Member]) -> Option<&str>
    ensures { option_map (λ s. s.now) result
        ≡ misfit_in kind (fields_of (map member_of members.now)) }
{
    for member in members {
        if let Some(name) = find_invalid_value(kind, member.name.as_str(), &member.value) {
            return Some(name);
        }
    }
    None
}

// Returns the name `operator`, unless its value is AND, OR or NOT.
fn find_invalid_operator(operator: &Json) -> Option<&'static str>
    ensures { option_map (λ s. s.now) result ≡ invalid_operator (tree_of operator.now) }
{
    match read_operator(operator) {
        Some(_) => None,
        None => Some("operator"),
    }
}

/// Returns the name of the first member that is missing or whose value is of a wrong kind, the
/// empty name if the tree is neither null nor an object, or `None`.
#[cycle(invalid)]
pub(crate) fn find_invalid_name(kind: Kind, tree: &Json) -> Option<&str>
    ensures { option_map (λ s. s.now) result ≡ invalid kind (tree_of tree.now) }
{
    match tree {
        Json::Null => None,
        Json::Object(members) => find_invalid_in_object(kind, members),
        Json::Bool(_) | Json::Int(_) | Json::Text(_) | Json::List(_) => Some(""),
    }
}

#[tactic(auto, using(jm_json::proofs::Lists::lists_back))]
#[cycle(invalid)]
fn find_invalid_in_object(kind: Kind, members: &Members) -> Option<&str>
    ensures { option_map (λ s. s.now) result ≡ invalid kind (object (fields_of members.now)) }
{
    match members.get("operator") {
        Some(operator) => match find_invalid_in_conditions(kind, members.as_slice()) {
            Some(name) => Some(name),
            None => find_invalid_operator(operator),
        },
        None => find_invalid_in_members(kind, members.as_slice()),
    }
}

#[cycle(invalid)]
fn find_invalid_in_conditions(kind: Kind, members: &[Member]) -> Option<&str>
    ensures { option_map (λ s. s.now) result
        ≡ invalid_conditions kind (fields_of (map member_of members.now)) }
{
    for member in members {
        if member.name.as_str() == "conditions" {
            return find_invalid_in_list(kind, &member.value);
        }
    }
    Some("conditions")
}

#[cycle(invalid)]
fn find_invalid_in_list(kind: Kind, value: &Json) -> Option<&str>
    ensures { option_map (λ s. s.now) result ≡ invalid_list kind (tree_of value.now) }
{
    match value {
        Json::List(items) => find_invalid_in_items(kind, items.as_slice()),
        Json::Null | Json::Bool(_) | Json::Int(_) | Json::Text(_) | Json::Object(_) => {
            Some("conditions")
        }
    }
}

#[cycle(invalid)]
fn find_invalid_in_items(kind: Kind, items: &[Json]) -> Option<&str>
    ensures { option_map (λ s. s.now) result
        ≡ invalid_items kind (trees_of (map tree_of items.now)) }
{
    for item in items {
        if let Some(name) = find_invalid_name(kind, item) {
            return Some(name);
        }
    }
    None
}
