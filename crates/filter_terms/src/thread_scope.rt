// Whether a filter looks at the thread of an email (RFC 8620, section 5.6).
ghost use Rattle.std.specs.Prelude.{◌≡◌, map};
ghost use Rattle.jm_json.specs.Json.{member_of, tree_of};
ghost use Rattle.jm_json.specs.Tree.{fields_of, object, trees_of};
ghost use Rattle.filter_terms.specs.ThreadScope.{conditions_wide, is_wide, is_wide_email, is_wide_term, is_wide_test, items_wide, list_wide, members_wide};

use crate::terms::{EmailTerm, KeywordTest, Term, find_term};
use jm_base::Kind;
use jm_json::{Json, Member, Members};

fn is_wide_test(test: KeywordTest) -> bool
    ensures { result ≡ is_wide_test test }
{
    match test {
        KeywordTest::AllInThread | KeywordTest::SomeInThread | KeywordTest::NoneInThread => true,
        KeywordTest::Has | KeywordTest::HasNot => false,
    }
}

fn is_wide_email(term: EmailTerm) -> bool
    ensures { result ≡ is_wide_email term }
{
    match term {
        EmailTerm::Keyword(test) => is_wide_test(test),
        EmailTerm::InMailbox
        | EmailTerm::InMailboxOtherThan
        | EmailTerm::Before
        | EmailTerm::After
        | EmailTerm::MinSize
        | EmailTerm::MaxSize
        | EmailTerm::HasAttachment
        | EmailTerm::Contains(_)
        | EmailTerm::Header => false,
    }
}

fn is_wide_term(term: Option<Term>) -> bool
    ensures { result ≡ is_wide_term term }
{
    match term {
        Some(Term::OfEmail(term)) => is_wide_email(term),
        Some(Term::OfMailbox(_)) | None => false,
    }
}

fn has_wide_member(kind: Kind, members: &[Member]) -> bool
    ensures { result ≡ members_wide kind (fields_of (map member_of members.now)) }
{
    for member in members {
        if is_wide_term(find_term(kind, member.name.as_str())) {
            return true;
        }
    }
    false
}

/// Returns whether some condition of a filter looks at the other emails of a thread.
#[cycle(wide)]
pub(crate) fn is_wide_tree(kind: Kind, tree: &Json) -> bool
    ensures { result ≡ is_wide kind (tree_of tree.now) }
{
    match tree {
        Json::Object(members) => is_wide_object(kind, members),
        Json::Null | Json::Bool(_) | Json::Int(_) | Json::Text(_) | Json::List(_) => false,
    }
}

#[tactic(auto, using(jm_json::proofs::Lists::lists_back))]
#[cycle(wide)]
fn is_wide_object(kind: Kind, members: &Members) -> bool
    ensures { result ≡ is_wide kind (object (fields_of members.now)) }
{
    match members.get("operator") {
        Some(_) => has_wide_conditions(kind, members.as_slice()),
        None => has_wide_member(kind, members.as_slice()),
    }
}

#[cycle(wide)]
fn has_wide_conditions(kind: Kind, members: &[Member]) -> bool
    ensures { result ≡ conditions_wide kind (fields_of (map member_of members.now)) }
{
    for member in members {
        if member.name.as_str() == "conditions" {
            return list_wide(kind, &member.value);
        }
    }
    false
}

#[cycle(wide)]
fn list_wide(kind: Kind, value: &Json) -> bool
    ensures { result ≡ list_wide kind (tree_of value.now) }
{
    match value {
        Json::List(items) => has_wide_item(kind, items.as_slice()),
        Json::Null | Json::Bool(_) | Json::Int(_) | Json::Text(_) | Json::Object(_) => false,
    }
}

#[cycle(wide)]
fn has_wide_item(kind: Kind, items: &[Json]) -> bool
    ensures { result ≡ items_wide kind (trees_of (map tree_of items.now)) }
{
    for item in items {
        if is_wide_tree(kind, item) {
            return true;
        }
    }
    false
}
