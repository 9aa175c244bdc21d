// What is reported of creates (RFC 8620, section 5.3).
ghost use Rattle.std.specs.Prelude.{IfOk, filter, ◌≡◌};
ghost use Rattle.jm_json.specs.Tree.{Tree};
ghost use Rattle.std.specs.Map.{keys_of};
ghost use Rattle.mailbox_creates.specs.Creates.{created_members, is_reported, is_settable, new_record};

use jm_base::{Id, Kind, NoMemory, Texts, id_text};
use jm_json::{Member, Members};
use mail_counts::build_mailbox_view;
use mail_records::{Edit, Edits, Mailbox};
use set_parts::NewRecord;
use std::alloc::Global;
use std::collections::VecDeque;

/// Returns whether a client may set the property of this name (RFC 8621, section 2).
pub fn is_settable(name: &str) -> bool
    ensures { result ≡ is_settable name.now }
{
    name == "isSubscribed"
        || name == "name"
        || name == "parentId"
        || name == "role"
        || name == "sortOrder"
}

// Returns whether the client did not send this property of a mailbox that it created.
fn is_reported(sent: &Members, name: &str) -> bool
    ensures { (t : Tree) → result ≡ is_reported sent.now (name.now, t) }
{
    !(is_settable(name) && sent.get(name).is_some())
}

fn collect_reported(alloc: Global, sent: &Members, view: Members) -> Result<Members, NoMemory>
    ensures { IfOk result (λ ms. ms ≡ filter (is_reported sent.now) view) }
{
    let mut told = Members::new(alloc);
    let mut rest = VecDeque::from_vec(view.into_vec());
    while let Some(member) = rest.pop_front() {
        let Member { name, value } = member;
        if is_reported(sent, name.as_str()) {
            told.push(name, value)?;
        }
    }
    Ok(told)
}

// Collects what is reported of a new mailbox: what the server sets, and each default that wasn't
// sent.
fn collect_created_members(
    alloc: Global,
    sent: &Members,
    mailbox: &Mailbox,
) -> Result<Members, NoMemory>
    ensures { IfOk result (λ ms. ms ≡ created_members sent.now mailbox.now) }
{
    let view = build_mailbox_view(alloc, mailbox, false)?;
    collect_reported(alloc, sent, view)
}

/// Builds what the create of a mailbox makes, of which this was sent.
pub fn build_record(alloc: Global, sent: &Members, item: Mailbox) -> Result<NewRecord, NoMemory>
    ensures { IfOk result (λ x. x ≡ new_record sent.now item) }
{
    let kind = Kind::Mailbox;
    let number = item.number;
    let id = id_text(alloc, &Id { kind, number })?;
    let members = collect_created_members(alloc, sent, &item)?;
    let mut edits = Edits::new(alloc);
    edits.push(Edit::PutMailbox {
        item,
        was: false,
        counts: false,
    })?;
    Ok(NewRecord {
        id,
        members,
        edits,
        blob: None,
    })
}

/// Collects the names of properties, in byte order.
pub fn collect_names(alloc: Global, properties: Members) -> Result<Texts, NoMemory>
    ensures { IfOk result (λ ts. ts ≡ keys_of properties) }
{
    let mut names = Texts::new(alloc);
    let mut rest = VecDeque::from_vec(properties.into_vec());
    while let Some(member) = rest.pop_front() {
        names.push(member.name)?;
    }
    Ok(names)
}
