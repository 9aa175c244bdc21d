// What a patch makes of a mailbox by itself (RFC 8620, section 5.3; RFC 8621, section 2.5).
ghost use Rattle.std.specs.Prelude.{◌≡◌, [], IfOk, List, MatchOption, Some, filter, map, unwrap_or, ℕ};
ghost use Rattle.jm_json.specs.Find.{as_object};
ghost use Rattle.jm_json.specs.Json.{member_of, tree_of};
ghost use Rattle.jm_json.specs.Order.{put_all};
ghost use Rattle.jm_json.specs.Patch.{bad_patch, patched, patching};
ghost use Rattle.jm_json.specs.Tree.{text as text_tree};
ghost use Rattle.jm_json.specs.declared.invocation.Created.{Created as TheCreated};
ghost use Rattle.mail_records.specs.Contents.{Content as TheContent};
ghost use Rattle.mailbox_creates.specs.Creates.{property};
ghost use Rattle.mailbox_creates.specs.Properties.{parent_in, sent_parent, sent_properties};
ghost use Rattle.mailbox_updates.specs.UpdateViews.{IsOf};
ghost use Rattle.mailbox_updates.specs.Updates.{bad_after, changed_to, changed_unless, is_removed, mailbox_after, value_faults, with_properties};
ghost use Rattle.mailbox_updates.specs.Views.{Shows};
ghost use Rattle.mailbox_creates.specs.Views.{properties_of};
ghost use Rattle.set_parts.specs.Views.{AreMade};

use crate::current::{Current, find_present};
use crate::setting::find_number;
use jm_base::{NoMemory, Text, Texts};
use jm_json::{Json, Member, Members, PatchFault, patch};
use mail_counts::build_mailbox_view;
use mail_records::Mailbox;
use mailbox_creates::{
    Faults, SentProperties, choose_values, collect_names, copy_role, find_invalid_members,
    is_settable, read_name, read_role, read_sort_order, read_subscribed,
};
use set_parts::{CreatedRecords, SetError};
use std::alloc::Global;

/// What a patch makes of a mailbox by itself.
#[derive(Drop)]
pub enum Changed {
    /// It is no patch of the mailbox, or it gives a property an invalid value.
    Invalid(SetError),
    /// It makes this of it.
    Valid(Mailbox),
}

// ---- the properties of a patched mailbox

fn find_parent<'a>(
    current: &Current,
    created: &CreatedRecords<'a>,
    text: &Text,
) -> Option<Option<u64>>
    ensures { (made : List TheCreated) (c : TheContent) → AreMade created.now made
        → Shows current.now c → result ≡ parent_in c made (Some (text_tree text.now)) }
{
    match find_number(&created.ids, text.as_bytes()) {
        Some(number) => if find_present(current, number).is_some() {
            Some(Some(number))
        } else {
            None
        },
        None => None,
    }
}

fn parse_parent<'a>(
    current: &Current,
    created: &CreatedRecords<'a>,
    tree: &Json,
) -> Option<Option<u64>>
    ensures { (made : List TheCreated) (c : TheContent) → AreMade created.now made
        → Shows current.now c → result ≡ parent_in c made (Some (tree_of tree.now)) }
{
    match tree {
        Json::Null => Some(None),
        Json::Text(text) => find_parent(current, created, text),
        Json::Bool(_) | Json::Int(_) | Json::List(_) | Json::Object(_) => None,
    }
}

fn read_parent<'a>(
    current: &Current,
    created: &CreatedRecords<'a>,
    members: &Members,
) -> Option<Option<u64>>
    ensures { (made : List TheCreated) (c : TheContent) → AreMade created.now made
        → Shows current.now c → result ≡ sent_parent c made members.now }
{
    match members.get("parentId") {
        Some(tree) => parse_parent(current, created, tree),
        None => Some(None),
    }
}

// Reads the properties that a client may set.
fn read_properties<'a, 'b>(
    current: &Current,
    created: &CreatedRecords<'a>,
    members: &'b Members,
) -> SentProperties<'b>
    ensures { (made : List TheCreated) (c : TheContent) → AreMade created.now made
        → Shows current.now c → properties_of result ≡ sent_properties c made members.now }
{
    SentProperties {
        name: read_name(members),
        parent: read_parent(current, created, members),
        role: read_role(members),
        sort_order: read_sort_order(members),
        subscribed: read_subscribed(members),
    }
}

// Returns which of the properties have a value that is invalid by itself.
fn find_value_faults<'a>(properties: &SentProperties<'a>) -> Faults
    ensures { result ≡ value_faults (properties_of properties.now) }
{
    Faults {
        name: properties.name.is_none(),
        parent: properties.parent.is_none(),
        role: properties.role.is_none(),
        sort_order: properties.sort_order.is_none(),
        subscribed: properties.subscribed.is_none(),
    }
}

// ---- the invalid properties

// Returns whether a property that only the server sets is no longer there.
fn is_removed(after: &Members, member: &Member) -> bool
    ensures { result ≡ is_removed after.now (member_of member.now) }
{
    !is_settable(member.name.as_str()) && after.get(member.name.as_str()).is_none()
}

// Adds the properties that only the server sets and that are no longer there.
fn add_removed(
    alloc: Global,
    bad: Members,
    before: &[Member],
    after: &Members,
) -> Result<Members, NoMemory>
    ensures { IfOk result (λ ms. ms ≡ put_all
        (map property (filter (is_removed after.now) (map member_of before.now))) bad) }
{
    let mut bad = bad;
    for member in before {
        if is_removed(after, member) {
            bad.set(alloc, member.name.as_str(), Json::Null)?;
        }
    }
    Ok(bad)
}

// Returns the invalid properties of a patched object, in byte order, each with null in the place of
// its value.
fn find_bad(
    alloc: Global,
    faults: &Faults,
    before: &Members,
    after: &Members,
) -> Result<Members, NoMemory>
    ensures { IfOk result (λ ms. ms ≡ bad_after faults.now before.now after.now) }
{
    let bad = find_invalid_members(alloc, faults, before, after)?;
    add_removed(alloc, bad, before.as_slice(), after)
}

// ---- the patched mailbox

fn build_changed<'a>(
    alloc: Global,
    mailbox: &Mailbox,
    properties: &SentProperties<'a>,
) -> Result<Mailbox, NoMemory>
    ensures { IfOk result
        (λ m. m ≡ with_properties (properties_of properties.now) mailbox.now) }
{
    let values = choose_values(properties);
    let name = Text::from_str(alloc, values.name)?;
    let role = copy_role(values.role)?;
    Ok(Mailbox {
        number: mailbox.number,
        name,
        parent: values.parent,
        role,
        sort_order: values.sort_order,
        subscribed: values.subscribed,
        total_emails: mailbox.total_emails,
        unread_emails: mailbox.unread_emails,
        total_threads: mailbox.total_threads,
        unread_threads: mailbox.unread_threads,
    })
}

// Returns the mailbox with these properties, unless some names are of invalid ones.
fn change_unless<'a>(
    alloc: Global,
    names: Texts,
    mailbox: &Mailbox,
    properties: &SentProperties<'a>,
) -> Result<Changed, NoMemory>
    ensures after { IfOk result (λ x. x
        ≡ changed_unless names (with_properties (properties_of properties.now) mailbox.now)) }
    ensures number { IfOk result (λ x. IsOf mailbox.now.number x) }
{
    if names.as_slice().is_empty() {
        return Ok(Changed::Valid(build_changed(alloc, mailbox, properties)?));
    }
    Ok(Changed::Invalid(SetError::InvalidProperties(names)))
}

// Returns what a patched object makes of a mailbox.
fn change_to<'a>(
    alloc: Global,
    current: &Current,
    created: &CreatedRecords<'a>,
    mailbox: &Mailbox,
    after: &Members,
) -> Result<Changed, NoMemory>
    ensures after { IfOk result (λ x. (made : List TheCreated) (c : TheContent)
        → AreMade created.now made → Shows current.now c
        → x ≡ changed_to mailbox.now after.now (sent_properties c made after.now)) }
    ensures number { IfOk result (λ x. IsOf mailbox.now.number x) }
{
    let properties = read_properties(current, created, after);
    let faults = find_value_faults(&properties);
    let before = build_mailbox_view(alloc, mailbox, false)?;
    let bad = find_bad(alloc, &faults, &before, after)?;
    let names = collect_names(alloc, bad)?;
    change_unless(alloc, names, mailbox, &properties)
}

// Returns the members of an object; no members if the tree is none.
fn into_members(alloc: Global, tree: Json) -> Members
    ensures { result ≡ unwrap_or (as_object (tree_of tree)) [] }
{
    match tree {
        Json::Object(members) => members,
        Json::Null | Json::Bool(_) | Json::Int(_) | Json::Text(_) | Json::List(_) => {
            Members::new(alloc)
        }
    }
}

// Returns the tree that a patch makes of a tree, or None if it is no patch of it.
fn apply_changes(alloc: Global, tree: Json, changes: &Json) -> Result<Option<Json>, NoMemory>
    ensures { IfOk result (λ o. MatchOption o
        ((path : List ℕ) × (patching (tree_of tree) (tree_of changes.now) ≡ bad_patch path))
        (λ t. patching (tree_of tree) (tree_of changes.now) ≡ patched (tree_of t))) }
{
    match patch(alloc, tree, changes) {
        Ok(changed) => Ok(Some(changed)),
        Err(PatchFault::BadPatch(_)) => Ok(None),
        Err(PatchFault::NoMemory) => Err(NoMemory),
    }
}

/// Returns what a patch makes of a mailbox by itself, whatever other mailboxes are named. The patch
/// changes the JSON view of the mailbox. A property that only the server sets must be as it was
/// before.
pub fn change_mailbox<'a>(
    alloc: Global,
    current: &Current,
    created: &CreatedRecords<'a>,
    mailbox: &Mailbox,
    changes: &Json,
) -> Result<Changed, NoMemory>
    ensures after { IfOk result (λ x. (made : List TheCreated) (c : TheContent)
        → AreMade created.now made → Shows current.now c
        → x ≡ mailbox_after c made mailbox.now (tree_of changes.now)) }
    ensures number { IfOk result (λ x. IsOf mailbox.now.number x) }
{
    let view = build_mailbox_view(alloc, mailbox, false)?;
    match apply_changes(alloc, Json::Object(view), changes)? {
        Some(tree) => {
            let after = into_members(alloc, tree);
            change_to(alloc, current, created, mailbox, &after)
        }
        None => Ok(Changed::Invalid(SetError::InvalidPatch)),
    }
}
