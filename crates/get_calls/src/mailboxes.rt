// The mailboxes that a get asks for (RFC 8621, section 2.1).
ghost use Rattle.std.specs.Prelude.{◌≡◌, ◌∷◌, ◌++◌, [], None, Some, IfOk, MatchOption, OnOk, map, option_map};
ghost use Rattle.jm_json.specs.Json.{tree_of};
ghost use Rattle.jm_json.specs.Tree.{text};
ghost use Rattle.mail_counts.specs.Views.{mailbox_named};
ghost use Rattle.mail_view.specs.Records.{asked_records, naming_none, records_named, unknown_ids};
ghost use Rattle.get_calls.specs.Members.{mailbox_without};

use crate::members::remove_members;
use crate::mentions::list_first_mentions;
use crate::records::FoundRecords;
use jm_base::{Kind, NoMemory, Text, read_id};
use jm_json::{Items, Json};
use mail_counts::build_mailbox_view;
use mail_records::{Content, Mailbox};
use std::alloc::Global;

/// The properties of a mailbox, in byte order.
pub(crate) const MAILBOX_PROPERTIES: [&str; 11] = [
    "id",
    "isSubscribed",
    "myRights",
    "name",
    "parentId",
    "role",
    "sortOrder",
    "totalEmails",
    "totalThreads",
    "unreadEmails",
    "unreadThreads",
];

// Returns the mailbox that an id names.
fn find_mailbox<'a>(content: &'a Content, id: &str) -> Option<&'a Mailbox>
    ensures { MatchOption result (mailbox_named content.now.content.mailboxes id.now ≡ None)
        (λ m. mailbox_named content.now.content.mailboxes id.now ≡ Some m.now) }
{
    match read_id(id.as_bytes()) {
        Ok(id) => match id.kind {
            Kind::Mailbox => content.mailbox(id.number),
            _ => None,
        },
        Err(_) => None,
    }
}

// Returns the view of a mailbox without these properties.
fn write_mailbox(
    alloc: Global,
    mailbox: &Mailbox,
    hidden: &[&str],
    read_only: bool,
) -> Result<Json, NoMemory>
    ensures { IfOk result (λ t.
        tree_of t ≡ mailbox_without read_only (map (λ h. h.now) hidden.now) mailbox.now) }
{
    let view = build_mailbox_view(alloc, mailbox, read_only)?;
    Ok(Json::Object(remove_members(view, hidden)))
}

impl FoundRecords {
    // Adds the mailbox that an id names, or the id if it names none.
    fn push_mailbox(
        &mut self,
        alloc: Global,
        content: &Content,
        id: &str,
        hidden: &[&str],
        read_only: bool,
    ) -> Result<(), NoMemory>
        ensures objects { OnOk result (self.new.objects ≡ self.old.objects
            ++ map (mailbox_without read_only (map (λ h. h.now) hidden.now))
            (records_named (mailbox_named content.now.content.mailboxes) (id.now ∷ []))) }
        ensures unknown { OnOk result (self.new.unknown ≡ self.old.unknown
            ++ map text (naming_none (mailbox_named content.now.content.mailboxes) (id.now ∷ []))) }
    {
        match find_mailbox(content, id) {
            Some(mailbox) => {
                let view = write_mailbox(alloc, mailbox, hidden, read_only)?;
                self.objects.push(view)
            }
            None => self.unknown.push(Json::Text(Text::from_str(alloc, id)?)),
        }
    }
}

// Returns the mailboxes that these ids name, each id once.
fn find_named(
    alloc: Global,
    content: &Content,
    ids: &[&str],
    hidden: &[&str],
    read_only: bool,
) -> Result<FoundRecords, NoMemory>
    ensures objects { IfOk result (λ f. f.objects
        ≡ map (mailbox_without read_only (map (λ h. h.now) hidden.now))
        (records_named (mailbox_named content.now.content.mailboxes) (map (λ t. t.now) ids.now))) }
    ensures unknown { IfOk result (λ f. f.unknown
        ≡ map text (naming_none (mailbox_named content.now.content.mailboxes)
        (map (λ t. t.now) ids.now))) }
{
    let mut found = FoundRecords {
        objects: Items::new(alloc),
        unknown: Items::new(alloc),
    };
    for id in ids {
        found.push_mailbox(alloc, content, id, hidden, read_only)?;
    }
    Ok(found)
}

// Returns the views of these mailboxes.
fn write_mailboxes(
    alloc: Global,
    mailboxes: &[Mailbox],
    hidden: &[&str],
    read_only: bool,
) -> Result<Items, NoMemory>
    ensures { IfOk result (λ objects. objects
        ≡ map (mailbox_without read_only (map (λ h. h.now) hidden.now)) mailboxes.now) }
{
    let mut objects = Items::with_room(alloc, mailboxes.len())?;
    for mailbox in mailboxes {
        objects.push(write_mailbox(alloc, mailbox, hidden, read_only)?)?;
    }
    Ok(objects)
}

/// Returns the views of the mailboxes that are asked for, all if no ids are given, without these
/// properties, and the ids that name none.
pub(crate) fn find_mailboxes(
    alloc: Global,
    content: &Content,
    ids: &Option<Vec<&str>>,
    hidden: &[&str],
    read_only: bool,
) -> Result<FoundRecords, NoMemory>
    ensures objects { IfOk result (λ f. f.objects
        ≡ map (mailbox_without read_only (map (λ h. h.now) hidden.now))
        (asked_records (mailbox_named content.now.content.mailboxes) content.now.content.mailboxes
        (option_map (λ v. map (λ t. t.now) v.items) ids.now))) }
    ensures unknown { IfOk result (λ f. f.unknown
        ≡ map text (unknown_ids (mailbox_named content.now.content.mailboxes)
        (option_map (λ v. map (λ t. t.now) v.items) ids.now))) }
{
    match ids {
        Some(ids) => {
            let firsts = list_first_mentions(alloc, ids.as_slice())?;
            find_named(alloc, content, firsts.as_slice(), hidden, read_only)
        }
        None => Ok(FoundRecords {
            objects: write_mailboxes(alloc, content.mailboxes(), hidden, read_only)?,
            unknown: Items::new(alloc),
        }),
    }
}
