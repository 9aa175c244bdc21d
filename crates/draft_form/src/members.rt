// The members of an object of JSON: which may be there, and what they must be.
ghost use Rattle.std.specs.Prelude.{◌≡◌, [], map, option_map, IfOk};
ghost use Rattle.std.specs.List.{list_all};
ghost use Rattle.jm_json.specs.Json.{member_of, tree_of};
ghost use Rattle.jm_json.specs.Find.{find};
ghost use Rattle.draft_form.specs.Members as Rules;

use crate::texts::{TextRule, keeps};
use jm_base::{NoMemory, Text, Texts};
use jm_json::{Json, Member, Members};
use std::alloc::Global;

/// Returns whether a value is null.
pub fn is_null(value: &Json) -> bool
    ensures { result ≡ Rules.is_null (tree_of value.now) }
{
    match value {
        Json::Null => true,
        Json::Bool(_) | Json::Int(_) | Json::Text(_) | Json::List(_) | Json::Object(_) => false,
    }
}

fn is_false(value: &Json) -> bool
    ensures { result ≡ Rules.is_false (tree_of value.now) }
{
    match value {
        Json::Bool(truth) => !*truth,
        Json::Null | Json::Int(_) | Json::Text(_) | Json::List(_) | Json::Object(_) => false,
    }
}

/// Returns whether a member is there and is not null.
pub fn is_given(value: Option<&Json>) -> bool
    ensures { result ≡ Rules.is_given (option_map (λ j. tree_of j.now) value.entry) }
{
    match value {
        Some(value) => !is_null(value),
        None => false,
    }
}

/// Returns whether a value is a string of a kind.
pub fn is_text(rule: TextRule, value: &Json) -> bool
    ensures { result ≡ Rules.is_text rule (tree_of value.now) }
{
    match value.as_text() {
        Some(text) => keeps(rule, text.as_bytes()),
        None => false,
    }
}

/// Returns whether a member is there and is a string of a kind.
pub fn is_required_text(rule: TextRule, value: Option<&Json>) -> bool
    ensures { result
        ≡ Rules.required (Rules.is_text rule) (option_map (λ j. tree_of j.now) value.entry) }
{
    match value {
        Some(value) => is_text(rule, value),
        None => false,
    }
}

/// Returns whether a member is a string of a kind, or null, or not there.
pub fn is_optional_text(rule: TextRule, value: Option<&Json>) -> bool
    ensures { result
        ≡ Rules.optional (Rules.is_text rule) (option_map (λ j. tree_of j.now) value.entry) }
{
    match value {
        Some(value) => is_null(value) || is_text(rule, value),
        None => true,
    }
}

/// Returns whether a member is false, or not there.
pub fn is_absent_or_false(value: Option<&Json>) -> bool
    ensures { result
        ≡ Rules.is_absent_or_false (option_map (λ j. tree_of j.now) value.entry) }
{
    match value {
        Some(value) => is_false(value),
        None => true,
    }
}

fn are_texts(rule: TextRule, items: &[Json]) -> bool
    ensures { result ≡ list_all (Rules.is_text rule) (map tree_of items.now) }
{
    for item in items {
        if !is_text(rule, item) {
            return false;
        }
    }
    true
}

/// Returns whether a value is a list of one or more strings of a kind.
pub fn is_text_list(rule: TextRule, value: &Json) -> bool
    ensures { result ≡ Rules.is_some_list (Rules.is_text rule) (tree_of value.now) }
{
    match value.as_list() {
        Some(items) => !items.as_slice().is_empty() && are_texts(rule, items.as_slice()),
        None => false,
    }
}

/// Returns whether a name is one of these.
pub fn is_name_of(names: &[&str], name: &str) -> bool
    ensures { result ≡ Rules.is_name_of (map (λ t. t.now) names.now) name.now }
{
    for known in names {
        if name == *known {
            return true;
        }
    }
    false
}

/// Returns whether no member has another name than these.
pub fn has_names(names: &[&str], members: &[Member]) -> bool
    ensures { result
        ≡ Rules.has_names (map (λ t. t.now) names.now) (map member_of members.now) }
{
    for member in members {
        if !is_name_of(names, member.name.as_str()) {
            return false;
        }
    }
    true
}

/// Returns a copy of the string of a member, if it is one.
pub fn copy_text_at(name: &str, members: &Members) -> Result<Option<Text>, NoMemory>
    ensures { IfOk result (λ t. t ≡ Rules.text_at name.now members.now) }
{
    let Some(value) = members.get(name) else {
        return Ok(None);
    };
    match value.as_text() {
        Some(text) => Ok(Some(text.copy()?)),
        None => Ok(None),
    }
}

/// Lends the items of a member that is a list; none if it is no list.
pub fn find_items<'a>(name: &str, members: &'a Members) -> &'a [Json]
    ensures { map tree_of result.now ≡ Rules.items_in (find name.now members.now) }
{
    match members.get(name) {
        Some(value) => lend_items(value),
        None => &[],
    }
}

/// Lends the items of a value that is a list; none if it is no list.
pub fn lend_items(value: &Json) -> &[Json]
    ensures { map tree_of result.now ≡ Rules.list_items (tree_of value.now) }
{
    match value.as_list() {
        Some(items) => items.as_slice(),
        None => &[],
    }
}

/// Lends the members of a value that is an object; otherwise `none`, which has no members.
pub fn lend_members<'a>(value: &'a Json, none: &'a Members) -> &'a Members
    requires { none.now ≡ [] }
    ensures { result.now ≡ Rules.members_in (tree_of value.now) }
{
    match value.as_object() {
        Some(members) => members,
        None => none,
    }
}

/// Returns a copy of a value that is a string; an empty string if it is none.
pub fn copy_text(alloc: Global, value: &Json) -> Result<Text, NoMemory>
    ensures { IfOk result (λ t. t ≡ Rules.string_of (tree_of value.now)) }
{
    match value.as_text() {
        Some(text) => text.copy(),
        None => Text::from_str(alloc, ""),
    }
}

/// Returns copies of the strings of a list.
pub fn copy_texts(alloc: Global, items: &[Json]) -> Result<Texts, NoMemory>
    ensures { IfOk result (λ ts. ts ≡ Rules.texts_in (map tree_of items.now)) }
{
    let mut texts = Texts::new(alloc);
    for item in items {
        texts.push(copy_text(alloc, item)?)?;
    }
    Ok(texts)
}
