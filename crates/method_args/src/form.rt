// The forms of arguments, and the first argument that does not have its form (RFC 8620, sections
// 1.3, 3.6.2 and 5).
ghost use Rattle.std.specs.Prelude.{◌≡◌, ◌&&◌, ◌||◌, map, is_some, option_map};
ghost use Rattle.jm_json.specs.Find.{as_object, texts_from};
ghost use Rattle.jm_json.specs.Json.{member_of, tree_of};
ghost use Rattle.method_args.specs.Arguments.{are_objects, find_invalid, form_of, has_form, has_shape, is_null, may_be_absent, may_be_null};

use jm_json::{Json, Member, Members};

/// Whether an argument may be left out.
#[derive(Clone, Copy, Debug, PartialEq, Eq)]
pub enum Presence {
    /// It must be given, and null is no value of it.
    Required,
    /// It may be absent, and null is no value of it.
    Optional,
    /// It may be absent or null.
    Nullable,
}

/// What values an argument may have.
#[derive(Clone, Copy, Debug, PartialEq, Eq)]
pub enum Shape {
    /// A string.
    String,
    /// A list of strings.
    Strings,
    /// A boolean.
    Flag,
    /// An integer.
    Integer,
    /// An integer from 0 on.
    Count,
    /// An object.
    Object,
    /// An object whose values are objects.
    Objects,
}

/// An argument of a method.
#[derive(Clone, Copy)]
pub struct Argument<'a> {
    pub name: &'a str,
    pub presence: Presence,
    pub shape: Shape,
}

fn may_be_absent(presence: Presence) -> bool
    ensures { result ≡ may_be_absent presence }
{
    match presence {
        Presence::Required => false,
        Presence::Optional | Presence::Nullable => true,
    }
}

fn may_be_null(presence: Presence) -> bool
    ensures { result ≡ may_be_null presence }
{
    match presence {
        Presence::Required | Presence::Optional => false,
        Presence::Nullable => true,
    }
}

fn is_null(value: &Json) -> bool
    ensures { result ≡ is_null (tree_of value.now) }
{
    match value {
        Json::Null => true,
        Json::Bool(_) | Json::Int(_) | Json::Text(_) | Json::List(_) | Json::Object(_) => false,
    }
}

fn is_string(value: &Json) -> bool
    ensures { result ≡ has_shape Shape.String (tree_of value.now) }
{
    match value {
        Json::Text(_) => true,
        Json::Null | Json::Bool(_) | Json::Int(_) | Json::List(_) | Json::Object(_) => false,
    }
}

fn are_strings(items: &[Json]) -> bool
    ensures { result ≡ is_some (texts_from (map tree_of items.now)) }
{
    for item in items {
        if item.as_text().is_none() {
            return false;
        }
    }
    true
}

#[tactic(auto, using(jm_json::proofs::Lists::lists_back))]
fn is_list_of_strings(value: &Json) -> bool
    ensures { result ≡ has_shape Shape.Strings (tree_of value.now) }
{
    match value {
        Json::List(items) => are_strings(items.as_slice()),
        Json::Null | Json::Bool(_) | Json::Int(_) | Json::Text(_) | Json::Object(_) => false,
    }
}

fn is_flag(value: &Json) -> bool
    ensures { result ≡ has_shape Shape.Flag (tree_of value.now) }
{
    match value {
        Json::Bool(_) => true,
        Json::Null | Json::Int(_) | Json::Text(_) | Json::List(_) | Json::Object(_) => false,
    }
}

fn is_integer(value: &Json) -> bool
    ensures { result ≡ has_shape Shape.Integer (tree_of value.now) }
{
    match value {
        Json::Int(_) => true,
        Json::Null | Json::Bool(_) | Json::Text(_) | Json::List(_) | Json::Object(_) => false,
    }
}

fn is_count(value: &Json) -> bool
    ensures { result ≡ has_shape Shape.Count (tree_of value.now) }
{
    match value {
        Json::Int(number) => *number >= 0,
        Json::Null | Json::Bool(_) | Json::Text(_) | Json::List(_) | Json::Object(_) => false,
    }
}

fn is_object(value: &Json) -> bool
    ensures { result ≡ has_shape Shape.Object (tree_of value.now) }
{
    match value {
        Json::Object(_) => true,
        Json::Null | Json::Bool(_) | Json::Int(_) | Json::Text(_) | Json::List(_) => false,
    }
}

fn are_objects(members: &[Member]) -> bool
    ensures { result ≡ are_objects (map member_of members.now) }
{
    for member in members {
        if member.value.as_object().is_none() {
            return false;
        }
    }
    true
}

#[tactic(auto, using(jm_json::proofs::Lists::lists_back))]
fn is_object_of_objects(value: &Json) -> bool
    ensures { result ≡ has_shape Shape.Objects (tree_of value.now) }
{
    match value {
        Json::Object(members) => are_objects(members.as_slice()),
        Json::Null | Json::Bool(_) | Json::Int(_) | Json::Text(_) | Json::List(_) => false,
    }
}

fn has_shape(shape: Shape, value: &Json) -> bool
    ensures { result ≡ has_shape shape (tree_of value.now) }
{
    match shape {
        Shape::String => is_string(value),
        Shape::Strings => is_list_of_strings(value),
        Shape::Flag => is_flag(value),
        Shape::Integer => is_integer(value),
        Shape::Count => is_count(value),
        Shape::Object => is_object(value),
        Shape::Objects => is_object_of_objects(value),
    }
}

/// Returns whether the value of an argument, or its absence, is of this form (RFC 8620, section
/// 3.6.2).
pub fn has_form(presence: Presence, shape: Shape, value: Option<&Json>) -> bool
    ensures { result ≡ has_form presence shape (option_map (λ j. tree_of j.now) value.entry) }
{
    match value {
        Some(value) => (is_null(value) && may_be_null(presence)) || has_shape(shape, value),
        None => may_be_absent(presence),
    }
}

/// Returns the name of the first of these arguments that does not have its form. Members of other
/// names are ignored.
pub fn find_invalid<'a>(members: &Members, arguments: &[Argument<'a>]) -> Option<&'a str>
    ensures { option_map (λ s. s.now) result
        ≡ find_invalid (map form_of arguments.now) members.now }
{
    for argument in arguments {
        if !has_form(
            argument.presence,
            argument.shape,
            members.get(argument.name),
        ) {
            return Some(argument.name);
        }
    }
    None
}
