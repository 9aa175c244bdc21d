// The arguments that sets have in common (RFC 8620, section 5.3).
ghost use Rattle.std.specs.Prelude.{◌≡◌, ◌+◌, IfOk, codes, map, option_map};
ghost use Rattle.std.specs.List.{filter_map};
ghost use Rattle.jm_json.specs.Json.{member_of};
ghost use Rattle.set_parts.specs.Arguments.{account_in, count_objects, create_in, creates_named, destroys_in, if_in_state, update_in, updates_in};
ghost use Rattle.set_parts.specs.Views.{create_of};

use jm_base::{NoMemory, Text};
use jm_json::{Member, Members};
use method_args::{read_account, read_object, read_strings, read_text};
use std::alloc::Global;

/// A create as the client sent it: its creation id, and the members of its object.
#[derive(Clone, Copy)]
pub struct SentCreate<'a> {
    pub creation: &'a Text,
    pub members: &'a Members,
}

/// Returns the id of the account, or the empty string if none is given.
pub fn read_account_id<'a>(members: &'a Members) -> &'a str
    ensures { result.now ≡ account_in members.now }
{
    match read_account(members) {
        Some(text) => text.as_str(),
        None => "",
    }
}

/// Returns the state that the client asks for (RFC 8620, section 5.3: `ifInState`).
pub fn read_if_in_state<'a>(members: &'a Members) -> Option<&'a Text>
    ensures { option_map (λ t. t.now) result ≡ if_in_state members.now }
{
    read_text(members, "ifInState")
}

fn collect_creates<'a>(
    alloc: Global,
    members: &'a [Member],
) -> Result<Vec<SentCreate<'a>>, NoMemory>
    ensures { IfOk result
        (λ v. map create_of v.items ≡ filter_map create_in (map member_of members.now)) }
{
    let mut creates = Vec::with_capacity(alloc, members.len())?;
    for member in members {
        if let Some(object) = member.value.as_object() {
            creates.push(SentCreate {
                creation: &member.name,
                members: object,
            })?;
        }
    }
    Ok(creates)
}

/// Returns the creates in an argument of this name, in byte order of their creation ids.
pub fn read_creates<'a>(
    alloc: Global,
    members: &'a Members,
    name: &str,
) -> Result<Vec<SentCreate<'a>>, NoMemory>
    ensures { IfOk result (λ v. map create_of v.items ≡ creates_named name.now members.now) }
{
    match read_object(members, name) {
        Some(object) => collect_creates(alloc, object.as_slice()),
        None => Ok(Vec::new(alloc)),
    }
}

/// Returns the updates, each the id as it was sent and the patch, in byte order of the ids.
pub fn read_updates<'a>(members: &'a Members) -> &'a [Member]
    ensures { map update_in (map member_of result.now) ≡ updates_in members.now }
{
    match read_object(members, "update") {
        Some(object) => object.as_slice(),
        None => &[],
    }
}

/// Returns the ids to destroy, in the order of the list.
pub fn read_destroys<'a>(alloc: Global, members: &'a Members) -> Result<Vec<&'a str>, NoMemory>
    ensures { IfOk result (λ v. map (λ s. s.now) v.items ≡ destroys_in members.now) }
{
    match read_strings(alloc, members, "destroy")? {
        Some(ids) => Ok(ids),
        None => Ok(Vec::new(alloc)),
    }
}

/// Returns how many objects a set names, of which these are the creates and the destroys.
pub fn count_objects<'a>(
    members: &'a Members,
    creates: &[SentCreate<'a>],
    destroys: &[&'a str],
) -> usize
    requires creates { map create_of creates.now ≡ creates_named (codes "create") members.now }
    requires destroys { map (λ s. s.now) destroys.now ≡ destroys_in members.now }
    ensures { result ≡ count_objects members.now }
{
    creates.len() + read_updates(members).len() + destroys.len()
}
