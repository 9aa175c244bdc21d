// The Email/set that destroys the originals of copies (RFC 8620, section 5.4:
// onSuccessDestroyOriginal).
ghost use Rattle.std.specs.Prelude.{◌≡◌, IfOk, codes, filter_map, map, option_map};
ghost use Rattle.jm_json.specs.Invocations.{call_of};
ghost use Rattle.jm_json.specs.Json.{tree_of};
ghost use Rattle.jm_json.specs.Tree.{fields_of, object, text as text_tree};
ghost use Rattle.method_args.specs.Arguments.{text_in};
ghost use Rattle.set_parts.specs.Views.{create_of};
ghost use Rattle.copy_calls.specs.Originals.{copied_id, copied_ids, created_in, destroys_originals, is_created, originals_call, set_call, set_members, set_of_originals, state_tree};

use get_calls::list_first_mentions;
use jm_base::{NoMemory, Text};
use jm_json::{Invocation, Items, Json, Members};
use mail_copies::read_from_account;
use method_args::{read_flag, read_text};
use set_parts::{SentCreate, read_creates};
use std::alloc::Global;

fn destroys_originals(members: &Members) -> bool
    ensures { result ≡ destroys_originals members.now }
{
    read_flag(members, "onSuccessDestroyOriginal").unwrap_or(false)
}

// Returns what a response reports as created, by creation id.
fn find_created(reply: &Json) -> Option<&Members>
    ensures { option_map (λ ms. ms.now) result ≡ created_in (tree_of reply.now) }
{
    reply.as_object()?.get("created")?.as_object()
}

// Returns whether a response reports a create as created.
fn is_created(created: Option<&Members>, creation: &Text) -> bool
    ensures { result ≡ is_created (option_map (λ ms. ms.now) created.entry) creation.now }
{
    match created {
        Some(members) => members.get(creation.as_str()).is_some(),
        None => false,
    }
}

// Returns the id of the original of a create, if the copy was created.
fn find_copied<'a>(created: Option<&Members>, create: &SentCreate<'a>) -> Option<&'a str>
    ensures { option_map (λ s. s.now) result
        ≡ copied_id (option_map (λ ms. ms.now) created.entry) (create_of create.now) }
{
    if is_created(created, create.creation) {
        return match read_text(create.members, "id") {
            Some(id) => Some(id.as_str()),
            None => None,
        };
    }
    None
}

// Returns the ids of the originals that were copied, in the order of their creates.
fn collect_copied<'a>(
    alloc: Global,
    created: Option<&Members>,
    creates: &[SentCreate<'a>],
) -> Result<Vec<&'a str>, NoMemory>
    ensures { IfOk result (λ v. map (λ s. s.now) v.items
        ≡ filter_map (copied_id (option_map (λ ms. ms.now) created.entry))
        (map create_of creates.now)) }
{
    let mut ids = Vec::with_capacity(alloc, creates.len())?;
    for create in creates {
        if let Some(id) = find_copied(created, create) {
            ids.push(id)?;
        }
    }
    Ok(ids)
}

fn build_ids(alloc: Global, ids: &[&str]) -> Result<Items, NoMemory>
    ensures { IfOk result (λ ts. ts ≡ map text_tree (map (λ s. s.now) ids.now)) }
{
    let mut items = Items::with_room(alloc, ids.len())?;
    for id in ids {
        items.push(Json::Text(Text::from_str(alloc, id)?))?;
    }
    Ok(items)
}

// Lists the originals that were copied, each once.
fn list_copied(
    alloc: Global,
    members: &Members,
    created: Option<&Members>,
) -> Result<Items, NoMemory>
    ensures { IfOk result (λ ts. ts
        ≡ map text_tree (copied_ids members.now (option_map (λ ms. ms.now) created.entry))) }
{
    let creates = read_creates(alloc, members, "create")?;
    let ids = collect_copied(alloc, created, creates.as_slice())?;
    let firsts = list_first_mentions(alloc, ids.as_slice())?;
    build_ids(alloc, firsts.as_slice())
}

fn build_state(members: &Members) -> Result<Json, NoMemory>
    ensures { IfOk result (λ j. tree_of j
        ≡ state_tree (text_in (codes "destroyFromIfInState") members.now)) }
{
    match read_text(members, "destroyFromIfInState") {
        Some(state) => Ok(Json::Text(state.copy()?)),
        None => Ok(Json::Null),
    }
}

// Builds the arguments of the set.
fn build_set(alloc: Global, members: &Members, created: Option<&Members>) -> Result<Json, NoMemory>
    ensures { IfOk result (λ j. tree_of j
        ≡ object (fields_of (set_members members.now (option_map (λ ms. ms.now) created.entry)))) }
{
    let ids = list_copied(alloc, members, created)?;
    let account = Text::from_str(alloc, read_from_account(members))?;
    let state = build_state(members)?;
    let mut set = Members::with_room(alloc, 3)?;
    set.set(alloc, "accountId", Json::Text(account))?;
    set.set(alloc, "destroy", Json::List(ids))?;
    set.set(alloc, "ifInState", state)?;
    Ok(Json::Object(set))
}

/// Builds the arguments of the Email/set that follows an Email/copy with these arguments, to which
/// the account of the copies responded with these, in the account of the originals. None if
/// `onSuccessDestroyOriginal` is not true.
///
/// The set destroys each original that was copied, once, in byte order of the creation ids, and
/// asks for the state of `destroyFromIfInState` in `ifInState`, which is null if none is given. It
/// follows also if nothing was copied.
pub fn build_originals_set(
    alloc: Global,
    args: &Json,
    reply: &Json,
) -> Result<Option<Json>, NoMemory>
    ensures { IfOk result (λ o. option_map (λ j. tree_of j) o
        ≡ set_of_originals (tree_of args.now) (tree_of reply.now)) }
{
    match args.as_object() {
        Some(members) => if destroys_originals(members) {
            Ok(Some(build_set(alloc, members, find_created(reply))?))
        } else {
            Ok(None)
        },
        None => Ok(None),
    }
}

// Builds the call of the set under the client's id of the copy.
fn build_set_call(
    alloc: Global,
    call: &Invocation,
    reply: &Json,
) -> Result<Option<Invocation>, NoMemory>
    ensures { IfOk result (λ o. option_map call_of o ≡ option_map (set_call call.now.id)
        (set_of_originals (tree_of call.now.args) (tree_of reply.now))) }
{
    match build_originals_set(alloc, &call.args, reply)? {
        Some(args) => Ok(Some(Invocation {
            name: Text::from_str(alloc, "Email/set")?,
            args,
            id: call.id.copy()?,
        })),
        None => Ok(None),
    }
}

/// Builds the call that follows a copy, to which the account of the copies gave this response: the
/// Email/set with the arguments of [`build_originals_set`], under the copy's client id, for the
/// account of the originals. None if the response is an error, if `onSuccessDestroyOriginal` is not
/// true, or if the copy is of another method than Email/copy (RFC 8620, section 5.4).
pub fn build_originals_call(
    alloc: Global,
    call: &Invocation,
    response: &Invocation,
) -> Result<Option<Invocation>, NoMemory>
    ensures { IfOk result (λ o. option_map call_of o
        ≡ originals_call (call_of call.now) (call_of response.now)) }
{
    if call.name.as_str() == "Email/copy" {
        if response.name.as_str() == "error" {
            return Ok(None);
        }
        return build_set_call(alloc, call, &response.args);
    }
    Ok(None)
}
