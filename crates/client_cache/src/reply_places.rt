// Where the reply to a call of a round is not of its form: the least JSON Pointer in byte order.
ghost use Rattle.std.specs.Prelude.{◌≡◌, [], ◌∷◌, None, IfOk, bytes_eq, codes, map, option_and_then, option_map};
ghost use Rattle.jm_json.specs.Find.{as_list, as_text, find};
ghost use Rattle.jm_json.specs.Json.{tree_of};
ghost use Rattle.jm_json.specs.LeastPlaces.{least_from};
ghost use Rattle.method_args.specs.Places.{place_unless, places_in};
ghost use Rattle.client_cache.specs.ReplyForms.{answer_member_places, answer_places, answered_places, called_places, error_places, is_call_id, is_too_old, method_at, named_places, only_places, parts_places, response_places, three_places};
ghost use Rattle.client_cache.specs.RoundViews.{round_of};

use crate::cache::Cache;
use crate::record_places::choose_string;
use crate::reply_arguments::{choose_in_arguments, method_at};
use crate::rounds::Round;
use jm_base::{NoMemory, Text};
use jm_json::{Items, Json, Members};
use method_args::{choose_member, choose_value, read_text};
use std::alloc::Global;

const ARGUMENTS: &str = "/methodResponses/0/1";

fn is_too_old(error: &Members) -> bool
    ensures { result ≡ is_too_old error.now }
{
    match read_text(error, "type") {
        Some(kind) => kind.as_bytes() == b"cannotCalculateChanges".as_slice(),
        None => false,
    }
}

fn choose_in_error(alloc: Global, pointer: &Text, args: &Json) -> Result<Option<Text>, NoMemory>
    ensures { IfOk result (λ o. o ≡ least_from None
        (error_places pointer.now (tree_of args.now))) }
{
    match args.as_object() {
        Some(error) => choose_member(alloc, None, pointer, "type", is_too_old(error)),
        None => choose_value(None, pointer, false),
    }
}

/// Returns whether the name of a response is that of an error.
pub(crate) fn is_error(name: &[u8]) -> bool
    ensures { result ≡ bytes_eq name.now (codes "error") }
{
    name == b"error".as_slice()
}

fn choose_literal(
    alloc: Global,
    least: Option<Text>,
    place: &str,
    is_valid: bool,
) -> Result<Option<Text>, NoMemory>
    ensures { IfOk result (λ o. o ≡ least_from least (place_unless is_valid place.now)) }
{
    let place = Text::from_str(alloc, place)?;
    choose_value(least, &place, is_valid)
}

fn choose_in_called(
    alloc: Global,
    pointer: &Text,
    cache: &Cache,
    round: &Round,
    is_called: bool,
    args: &Json,
) -> Result<Option<Text>, NoMemory>
    ensures { IfOk result (λ o. o ≡ least_from None (called_places cache.now (round_of round.now)
        is_called pointer.now (tree_of args.now))) }
{
    if is_called {
        return choose_in_arguments(alloc, pointer, cache, round, round.step, args);
    }
    choose_literal(alloc, None, "/methodResponses/0/0", false)
}

fn choose_in_answered(
    alloc: Global,
    pointer: &Text,
    cache: &Cache,
    round: &Round,
    is_error: bool,
    is_called: bool,
    args: &Json,
) -> Result<Option<Text>, NoMemory>
    ensures { IfOk result (λ o. o ≡ least_from None (answered_places cache.now
        (round_of round.now) is_error is_called pointer.now (tree_of args.now))) }
{
    if is_error {
        return choose_in_error(alloc, pointer, args);
    }
    choose_in_called(alloc, pointer, cache, round, is_called, args)
}

fn is_called(round: &Round, name: &Text) -> bool
    ensures { result ≡ bytes_eq name.now (method_at (round_of round.now).step) }
{
    name.as_bytes() == method_at(round.step).as_bytes()
}

fn is_error_name(name: &Text) -> bool
    ensures { result ≡ bytes_eq name.now (codes "error") }
{
    is_error(name.as_bytes())
}

fn choose_in_named(
    alloc: Global,
    cache: &Cache,
    round: &Round,
    name: &Text,
    args: &Json,
) -> Result<Option<Text>, NoMemory>
    ensures { IfOk result (λ o. o ≡ least_from None
        (named_places cache.now (round_of round.now) (tree_of args.now) name.now)) }
{
    let pointer = Text::from_str(alloc, ARGUMENTS)?;
    choose_in_answered(
        alloc,
        &pointer,
        cache,
        round,
        is_error_name(name),
        is_called(round, name),
        args,
    )
}

fn is_call_id(value: &Json) -> bool
    ensures { result ≡ is_call_id (tree_of value.now) }
{
    match value.as_text() {
        Some(id) => id.as_bytes() == b"0".as_slice(),
        None => false,
    }
}

fn choose_in_three(
    alloc: Global,
    cache: &Cache,
    round: &Round,
    name: &Json,
    args: &Json,
    id: &Json,
) -> Result<Option<Text>, NoMemory>
    ensures { IfOk result (λ o. o ≡ least_from None (three_places cache.now (round_of round.now)
        (tree_of name.now) (tree_of args.now) (tree_of id.now))) }
{
    let least = choose_by_name(alloc, cache, round, name, args)?;
    choose_literal(alloc, least, "/methodResponses/0/2", is_call_id(id))
}

fn choose_by_name(
    alloc: Global,
    cache: &Cache,
    round: &Round,
    name: &Json,
    args: &Json,
) -> Result<Option<Text>, NoMemory>
    ensures { IfOk result (λ o. o ≡ least_from None
        (places_in (named_places cache.now (round_of round.now) (tree_of args.now))
        (codes "/methodResponses/0/0") (as_text (tree_of name.now)))) }
{
    match name.as_text() {
        Some(name) => choose_in_named(alloc, cache, round, name, args),
        None => choose_literal(alloc, None, "/methodResponses/0/0", false),
    }
}

fn choose_in_end(
    alloc: Global,
    cache: &Cache,
    round: &Round,
    name: &Json,
    args: &Json,
    rest: &[Json],
) -> Result<Option<Text>, NoMemory>
    ensures { IfOk result (λ o. o ≡ least_from None (parts_places cache.now (round_of round.now)
        (tree_of name.now ∷ tree_of args.now ∷ map tree_of rest.now))) }
{
    match rest.split_first() {
        Some((id, more)) => choose_if_three(alloc, cache, round, name, args, id, more),
        None => choose_literal(alloc, None, "/methodResponses/0", false),
    }
}

fn choose_if_three(
    alloc: Global,
    cache: &Cache,
    round: &Round,
    name: &Json,
    args: &Json,
    id: &Json,
    more: &[Json],
) -> Result<Option<Text>, NoMemory>
    ensures { IfOk result (λ o. o ≡ least_from None (parts_places cache.now (round_of round.now)
        (tree_of name.now ∷ tree_of args.now ∷ tree_of id.now ∷ map tree_of more.now))) }
{
    match more.split_first() {
        Some(_) => choose_literal(alloc, None, "/methodResponses/0", false),
        None => choose_in_three(alloc, cache, round, name, args, id),
    }
}

fn choose_after_name(
    alloc: Global,
    cache: &Cache,
    round: &Round,
    name: &Json,
    rest: &[Json],
) -> Result<Option<Text>, NoMemory>
    ensures { IfOk result (λ o. o ≡ least_from None (parts_places cache.now (round_of round.now)
        (tree_of name.now ∷ map tree_of rest.now))) }
{
    match rest.split_first() {
        Some((args, more)) => choose_in_end(alloc, cache, round, name, args, more),
        None => choose_literal(alloc, None, "/methodResponses/0", false),
    }
}

fn choose_in_parts(
    alloc: Global,
    cache: &Cache,
    round: &Round,
    parts: &[Json],
) -> Result<Option<Text>, NoMemory>
    ensures { IfOk result (λ o. o ≡ least_from None
        (parts_places cache.now (round_of round.now) (map tree_of parts.now))) }
{
    match parts.split_first() {
        Some((name, rest)) => choose_after_name(alloc, cache, round, name, rest),
        None => choose_literal(alloc, None, "/methodResponses/0", false),
    }
}

fn choose_in_response(
    alloc: Global,
    cache: &Cache,
    round: &Round,
    response: &Json,
) -> Result<Option<Text>, NoMemory>
    ensures { IfOk result (λ o. o ≡ least_from None
        (response_places cache.now (round_of round.now) (tree_of response.now))) }
{
    match response.as_list() {
        Some(parts) => choose_in_parts(alloc, cache, round, parts.as_slice()),
        None => choose_literal(alloc, None, "/methodResponses/0", false),
    }
}

fn choose_if_only(
    alloc: Global,
    cache: &Cache,
    round: &Round,
    response: &Json,
    more: &[Json],
) -> Result<Option<Text>, NoMemory>
    ensures { IfOk result (λ o. o ≡ least_from None (only_places cache.now (round_of round.now)
        (tree_of response.now ∷ map tree_of more.now))) }
{
    match more.split_first() {
        Some(_) => choose_literal(alloc, None, "/methodResponses", false),
        None => choose_in_response(alloc, cache, round, response),
    }
}

fn choose_in_only(
    alloc: Global,
    cache: &Cache,
    round: &Round,
    responses: &[Json],
) -> Result<Option<Text>, NoMemory>
    ensures { IfOk result (λ o. o ≡ least_from None
        (only_places cache.now (round_of round.now) (map tree_of responses.now))) }
{
    match responses.split_first() {
        Some((response, more)) => choose_if_only(alloc, cache, round, response, more),
        None => choose_literal(alloc, None, "/methodResponses", false),
    }
}

fn find_responses(answer: &Members) -> Option<&Items>
    ensures { option_map (λ ts. ts.now) result
        ≡ option_and_then as_list (find (codes "methodResponses") answer.now) }
{
    match answer.get("methodResponses") {
        Some(responses) => responses.as_list(),
        None => None,
    }
}

fn choose_in_responses(
    alloc: Global,
    cache: &Cache,
    round: &Round,
    answer: &Members,
) -> Result<Option<Text>, NoMemory>
    ensures { IfOk result (λ o. o ≡ least_from None
        (places_in (only_places cache.now (round_of round.now)) (codes "/methodResponses")
        (option_and_then as_list (find (codes "methodResponses") answer.now)))) }
{
    match find_responses(answer) {
        Some(responses) => choose_in_only(alloc, cache, round, responses.as_slice()),
        None => choose_literal(alloc, None, "/methodResponses", false),
    }
}

fn choose_in_members(
    alloc: Global,
    cache: &Cache,
    round: &Round,
    root: &Text,
    answer: &Members,
) -> Result<Option<Text>, NoMemory>
    requires { root.now ≡ [] }
    ensures { IfOk result (λ o. o ≡ least_from None
        (answer_member_places cache.now (round_of round.now) answer.now)) }
{
    let least = choose_in_responses(alloc, cache, round, answer)?;
    choose_string(alloc, least, root, answer, "sessionState")
}

/// Returns the least of the places at which a tree is no answer to the call of the round's step.
pub(crate) fn find_bad_place_in_answer(
    alloc: Global,
    cache: &Cache,
    round: &Round,
    tree: &Json,
) -> Result<Option<Text>, NoMemory>
    ensures { IfOk result (λ o. o ≡ least_from None
        (answer_places cache.now (round_of round.now) (tree_of tree.now))) }
{
    let root = Text::from_str(alloc, "")?;
    match tree.as_object() {
        Some(answer) => choose_in_members(alloc, cache, round, &root, answer),
        None => choose_value(None, &root, false),
    }
}
