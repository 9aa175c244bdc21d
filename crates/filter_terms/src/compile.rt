// The terms of a filter, from its tree.
ghost use Rattle.std.specs.Prelude.{◌≡◌, IfOk, Some, map};
ghost use Rattle.jm_json.specs.Json.{member_of, tree_of};
ghost use Rattle.jm_json.specs.Tree.{fields_of, object, trees_of};
ghost use Rattle.filter_terms.specs.Names.{term_of};
ghost use Rattle.filter_terms.specs.Targets.{Target};
ghost use Rattle.std.specs.List.{list_all};
ghost use Rattle.filter_terms.specs.Compiled.{match_each, terms_match, MeanConditions, MeanItems, MeanList, MeanMembers, Means, MeansTerm};

use crate::compiled::Terms;
use crate::conditions::{
    build_after_condition, build_before_condition, build_in_mailbox_condition,
    build_in_mailbox_other_than_condition, build_keyword_condition, build_max_size_condition,
    build_min_size_condition, has_attachment, read_mailbox_condition,
};
use crate::message_conditions::{build_header_condition, contains};
use crate::terms::{EmailTerm, Operator, Term, find_term, read_operator};
use jm_base::{Kind, NoMemory};
use jm_json::{Json, Member, Members};
use std::alloc::Global;

// Returns the term of a condition on emails with its value.
#[tactic(auto, using(crate::proofs::Matched::by_kind))]
fn read_email_term(alloc: Global, term: EmailTerm, value: &Json) -> Result<Terms, NoMemory>
    ensures { IfOk result (λ t. MeansTerm t (Some (Term.OfEmail term)) (tree_of value.now)) }
{
    match term {
        EmailTerm::InMailbox => Ok(Terms::OfEmail(build_in_mailbox_condition(value))),
        EmailTerm::InMailboxOtherThan => {
            Ok(Terms::OfEmail(build_in_mailbox_other_than_condition(alloc, value)?))
        }
        EmailTerm::Before => Ok(Terms::OfEmail(build_before_condition(value))),
        EmailTerm::After => Ok(Terms::OfEmail(build_after_condition(value))),
        EmailTerm::MinSize => Ok(Terms::OfEmail(build_min_size_condition(value))),
        EmailTerm::MaxSize => Ok(Terms::OfEmail(build_max_size_condition(value))),
        EmailTerm::Keyword(test) => Ok(Terms::OfEmail(build_keyword_condition(
            alloc, test, value,
        )?)),
        EmailTerm::HasAttachment => Ok(Terms::OfEmail(has_attachment(value))),
        EmailTerm::Contains(place) => Ok(Terms::OfMessage(contains(alloc, place, value)?)),
        EmailTerm::Header => Ok(Terms::OfMessage(build_header_condition(alloc, value)?)),
    }
}

#[tactic(auto, using(crate::proofs::Matched::by_kind))]
fn read_term(alloc: Global, term: Option<Term>, value: &Json) -> Result<Terms, NoMemory>
    ensures { IfOk result (λ t. MeansTerm t term (tree_of value.now)) }
{
    match term {
        None => Ok(Terms::Always),
        Some(Term::OfEmail(term)) => read_email_term(alloc, term, value),
        Some(Term::OfMailbox(term)) => {
            Ok(Terms::OfMailbox(read_mailbox_condition(alloc, term, value)?))
        }
    }
}

fn read_members(alloc: Global, kind: Kind, members: &[Member]) -> Result<Vec<Terms>, NoMemory>
    ensures { IfOk result (λ ts. MeanMembers kind ts.items
        (fields_of (map member_of members.now))) }
{
    let mut all = Vec::new(alloc);
    for member in members {
        let term = find_term(kind, member.name.as_str());
        all.push(read_term(alloc, term, &member.value)?)?;
    }
    Ok(all)
}

// Returns the terms that match where all of these do: one alone is not joined.
#[tactic(auto, using(crate::proofs::Matched::by_kind))]
fn match_all(mut terms: Vec<Terms>) -> Terms
    ensures { (x : Target) → terms_match result x
        ≡ list_all (λ b. b) (match_each terms.items x) }
{
    if terms.len() == 1 {
        if let Some(only) = terms.pop() {
            return only;
        }
    }
    Terms::Join(Operator::And, terms)
}

/// Returns the terms of a filter, which match what its tree matches.
#[tactic(auto, using(crate::proofs::Matched::by_kind))]
#[cycle(compile)]
pub(crate) fn compile(alloc: Global, kind: Kind, tree: &Json) -> Result<Terms, NoMemory>
    ensures { IfOk result (λ t. Means kind t (tree_of tree.now)) }
{
    match tree {
        Json::Object(members) => compile_object(alloc, kind, members),
        Json::Null | Json::Bool(_) | Json::Int(_) | Json::Text(_) | Json::List(_) => {
            Ok(Terms::Always)
        }
    }
}

#[tactic(auto, using(crate::proofs::Matched::by_kind, jm_json::proofs::Lists::lists_back))]
#[cycle(compile)]
fn compile_object(alloc: Global, kind: Kind, members: &Members) -> Result<Terms, NoMemory>
    ensures { IfOk result (λ t. Means kind t (object (fields_of members.now))) }
{
    match members.get("operator") {
        Some(operator) => match read_operator(operator) {
            Some(operator) => Ok(Terms::Join(
                operator,
                compile_conditions(alloc, kind, members.as_slice())?,
            )),
            None => Ok(Terms::Always),
        },
        None => Ok(match_all(read_members(alloc, kind, members.as_slice())?)),
    }
}

#[cycle(compile)]
fn compile_conditions(alloc: Global, kind: Kind, members: &[Member]) -> Result<Vec<Terms>, NoMemory>
    ensures { IfOk result (λ ts. MeanConditions kind ts.items
        (fields_of (map member_of members.now))) }
{
    for member in members {
        if member.name.as_str() == "conditions" {
            return compile_list(alloc, kind, &member.value);
        }
    }
    Ok(Vec::new(alloc))
}

#[cycle(compile)]
fn compile_list(alloc: Global, kind: Kind, value: &Json) -> Result<Vec<Terms>, NoMemory>
    ensures { IfOk result (λ ts. MeanList kind ts.items (tree_of value.now)) }
{
    match value {
        Json::List(items) => compile_items(alloc, kind, items.as_slice()),
        Json::Null | Json::Bool(_) | Json::Int(_) | Json::Text(_) | Json::Object(_) => {
            Ok(Vec::new(alloc))
        }
    }
}

#[cycle(compile)]
fn compile_items(alloc: Global, kind: Kind, items: &[Json]) -> Result<Vec<Terms>, NoMemory>
    ensures { IfOk result (λ ts. MeanItems kind ts.items (trees_of (map tree_of items.now))) }
{
    let mut all = Vec::new(alloc);
    for item in items {
        all.push(compile(alloc, kind, item)?)?;
    }
    Ok(all)
}
