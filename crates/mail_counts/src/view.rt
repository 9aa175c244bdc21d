// The JSON view of a mailbox (RFC 8621, section 2).
ghost use Rattle.std.specs.Prelude.{◌≡◌, min, IfOk, OnOk, Some, codes};
ghost use Rattle.jm_json.specs.Json.{tree_of};
ghost use Rattle.jm_json.specs.Order.{put};
ghost use Rattle.jm_json.specs.Tree.{boolean, text};
ghost use Rattle.mail_counts.specs.Views.{count_tree, mailbox_members, parent_tree, rights_members, rights_tree, role_tree};

use jm_base::{Id, Kind, MAX_JSON_INTEGER, NoMemory, Text, id_text};
use jm_json::{Json, Members};
use mail_records::Mailbox;
use std::alloc::Global;

fn count(number: u64) -> Json
    ensures { tree_of result ≡ count_tree number }
{
    Json::Int(number.min(MAX_JSON_INTEGER) as i64)
}

fn build_id(alloc: Global, number: u64) -> Result<Json, NoMemory>
    ensures { IfOk result (λ t. tree_of t ≡ parent_tree (Some number)) }
{
    let kind = Kind::Mailbox;
    Ok(Json::Text(id_text(alloc, &Id { kind, number })?))
}

fn build_parent(alloc: Global, parent: Option<u64>) -> Result<Json, NoMemory>
    ensures { IfOk result (λ t. tree_of t ≡ parent_tree parent) }
{
    match parent {
        Some(number) => build_id(alloc, number),
        None => Ok(Json::Null),
    }
}

fn build_role(role: &Option<Text>) -> Result<Json, NoMemory>
    ensures { IfOk result (λ t. tree_of t ≡ role_tree role.now) }
{
    match role {
        Some(text) => Ok(Json::Text(text.copy()?)),
        None => Ok(Json::Null),
    }
}

fn build_rights_members(alloc: Global, read_only: bool) -> Result<Members, NoMemory>
    ensures { IfOk result (λ ms. ms ≡ rights_members read_only) }
{
    let mut rights = Members::with_room(alloc, 9)?;
    rights.set(alloc, "mayAddItems", Json::Bool(!read_only))?;
    rights.set(alloc, "mayCreateChild", Json::Bool(!read_only))?;
    rights.set(alloc, "mayDelete", Json::Bool(!read_only))?;
    rights.set(alloc, "mayReadItems", Json::Bool(true))?;
    rights.set(alloc, "mayRemoveItems", Json::Bool(!read_only))?;
    rights.set(alloc, "mayRename", Json::Bool(!read_only))?;
    rights.set(alloc, "maySetKeywords", Json::Bool(!read_only))?;
    rights.set(alloc, "maySetSeen", Json::Bool(!read_only))?;
    rights.set(alloc, "maySubmit", Json::Bool(false))?;
    Ok(rights)
}

/// Returns the rights of a user on each mailbox of an account, which is read-only for the user or
/// not.
pub fn build_rights(alloc: Global, read_only: bool) -> Result<Json, NoMemory>
    ensures { IfOk result (λ t. tree_of t ≡ rights_tree read_only) }
{
    Ok(Json::Object(build_rights_members(alloc, read_only)?))
}

// Sets what says which mailbox it is, and what may be done with it.
fn set_identity(
    alloc: Global,
    view: &mut Members,
    mailbox: &Mailbox,
    read_only: bool,
) -> Result<(), NoMemory>
    ensures { OnOk result (view.new
        ≡ put (codes "name") (text mailbox.now.name)
        (put (codes "myRights") (rights_tree read_only)
        (put (codes "isSubscribed") (boolean mailbox.now.subscribed)
        (put (codes "id") (parent_tree (Some mailbox.now.number)) view.old)))) }
{
    view.set(alloc, "id", build_id(alloc, mailbox.number)?)?;
    view.set(alloc, "isSubscribed", Json::Bool(mailbox.subscribed))?;
    view.set(alloc, "myRights", build_rights(alloc, read_only)?)?;
    view.set(alloc, "name", Json::Text(mailbox.name.copy()?))
}

// Sets where a mailbox is among the others.
fn set_place(alloc: Global, view: &mut Members, mailbox: &Mailbox) -> Result<(), NoMemory>
    ensures { OnOk result (view.new
        ≡ put (codes "sortOrder") (count_tree mailbox.now.sort_order)
        (put (codes "role") (role_tree mailbox.now.role)
        (put (codes "parentId") (parent_tree mailbox.now.parent) view.old))) }
{
    view.set(alloc, "parentId", build_parent(alloc, mailbox.parent)?)?;
    view.set(alloc, "role", build_role(&mailbox.role)?)?;
    view.set(alloc, "sortOrder", count(mailbox.sort_order))
}

// Sets the counts of a mailbox.
fn set_counts(alloc: Global, view: &mut Members, mailbox: &Mailbox) -> Result<(), NoMemory>
    ensures { OnOk result (view.new
        ≡ put (codes "unreadThreads") (count_tree mailbox.now.unread_threads)
        (put (codes "unreadEmails") (count_tree mailbox.now.unread_emails)
        (put (codes "totalThreads") (count_tree mailbox.now.total_threads)
        (put (codes "totalEmails") (count_tree mailbox.now.total_emails) view.old)))) }
{
    view.set(alloc, "totalEmails", count(mailbox.total_emails))?;
    view.set(alloc, "totalThreads", count(mailbox.total_threads))?;
    view.set(alloc, "unreadEmails", count(mailbox.unread_emails))?;
    view.set(alloc, "unreadThreads", count(mailbox.unread_threads))
}

/// Returns the members of a mailbox's object, in byte order of their names, for a user to whom the
/// account is read-only or not.
pub fn build_mailbox_view(
    alloc: Global,
    mailbox: &Mailbox,
    read_only: bool,
) -> Result<Members, NoMemory>
    ensures { IfOk result (λ ms. ms ≡ mailbox_members read_only mailbox.now) }
{
    let mut view = Members::with_room(alloc, 11)?;
    set_identity(alloc, &mut view, mailbox, read_only)?;
    set_place(alloc, &mut view, mailbox)?;
    set_counts(alloc, &mut view, mailbox)?;
    Ok(view)
}
