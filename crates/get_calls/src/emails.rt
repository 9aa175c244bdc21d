// The emails that a get asks for (RFC 8621, section 4.2).
ghost use Rattle.std.specs.Prelude.{◌≡◌, ◌∷◌, ◌++◌, [], None, Some, IfOk, MatchOption, OnOk, map, option_map};
ghost use Rattle.jm_json.specs.Json.{tree_of};
ghost use Rattle.jm_json.specs.Tree.{text};
ghost use Rattle.mail_view.specs.Emails.{blob_bytes, email_named, email_view};
ghost use Rattle.mail_view.specs.Records.{asked_records, naming_none, records_named, unknown_ids};

use crate::mentions::list_first_mentions;
use crate::records::FoundRecords;
use blob_store::BlobList;
use get_args::Wanted;
use jm_base::{Kind, NoMemory, Text, read_id};
use jm_json::{Items, Json};
use mail_records::{Content, Email};
use mail_view::view;
use std::alloc::Global;

/// Returns the email that an id names, or `None` if it names none.
pub fn find_email<'a>(content: &'a Content, id: &str) -> Option<&'a Email>
    ensures { MatchOption result (email_named content.now.content.emails id.now ≡ None)
        (λ e. email_named content.now.content.emails id.now ≡ Some e.now) }
{
    match read_id(id.as_bytes()) {
        Ok(id) => match id.kind {
            Kind::Email => content.email(id.number),
            _ => None,
        },
        Err(_) => None,
    }
}

/// Returns the bytes of a blob, none if no blob has the number.
pub fn find_blob(blobs: &BlobList, number: u64) -> &[u8]
    ensures { result.now ≡ blob_bytes blobs.now.blobs number }
{
    match blobs.get(number) {
        Ok(bytes) => bytes,
        Err(_) => &[],
    }
}

// Returns the view of an email.
fn write_email(
    alloc: Global,
    blobs: &BlobList,
    email: &Email,
    wanted: &Wanted,
) -> Result<Json, NoMemory>
    ensures { IfOk result (λ t. tree_of t ≡ email_view blobs.now.blobs wanted.now email.now) }
{
    let number = email.blob;
    let id = format!(in alloc; "b{number}")?;
    let bytes = find_blob(blobs, number);
    view(alloc, bytes, id.as_bytes(), Some(email), wanted)
}

impl FoundRecords {
    // Adds the email that an id names, or the id if it names none.
    fn push_email(
        &mut self,
        alloc: Global,
        content: &Content,
        blobs: &BlobList,
        id: &str,
        wanted: &Wanted,
    ) -> Result<(), NoMemory>
        ensures objects { OnOk result (self.new.objects ≡ self.old.objects
            ++ map (email_view blobs.now.blobs wanted.now)
            (records_named (email_named content.now.content.emails) (id.now ∷ []))) }
        ensures unknown { OnOk result (self.new.unknown ≡ self.old.unknown
            ++ map text (naming_none (email_named content.now.content.emails) (id.now ∷ []))) }
    {
        match find_email(content, id) {
            Some(email) => {
                let view = write_email(alloc, blobs, email, wanted)?;
                self.objects.push(view)
            }
            None => self.unknown.push(Json::Text(Text::from_str(alloc, id)?)),
        }
    }
}

// Returns the emails that these ids name, each id once.
fn find_named(
    alloc: Global,
    content: &Content,
    blobs: &BlobList,
    ids: &[&str],
    wanted: &Wanted,
) -> Result<FoundRecords, NoMemory>
    ensures objects { IfOk result (λ f. f.objects
        ≡ map (email_view blobs.now.blobs wanted.now)
        (records_named (email_named content.now.content.emails) (map (λ t. t.now) ids.now))) }
    ensures unknown { IfOk result (λ f. f.unknown
        ≡ map text (naming_none (email_named content.now.content.emails)
        (map (λ t. t.now) ids.now))) }
{
    let mut found = FoundRecords {
        objects: Items::new(alloc),
        unknown: Items::new(alloc),
    };
    for id in ids {
        found.push_email(alloc, content, blobs, id, wanted)?;
    }
    Ok(found)
}

// Returns the views of these emails.
fn write_emails(
    alloc: Global,
    blobs: &BlobList,
    emails: &[Email],
    wanted: &Wanted,
) -> Result<Items, NoMemory>
    ensures { IfOk result (λ objects.
        objects ≡ map (email_view blobs.now.blobs wanted.now) emails.now) }
{
    let mut objects = Items::with_room(alloc, emails.len())?;
    for email in emails {
        objects.push(write_email(alloc, blobs, email, wanted)?)?;
    }
    Ok(objects)
}

/// Returns the views of the emails that are asked for, all if no ids are given, and the ids that
/// name none.
pub(crate) fn find_emails(
    alloc: Global,
    content: &Content,
    blobs: &BlobList,
    ids: &Option<Vec<&str>>,
    wanted: &Wanted,
) -> Result<FoundRecords, NoMemory>
    ensures objects { IfOk result (λ f. f.objects
        ≡ map (email_view blobs.now.blobs wanted.now)
        (asked_records (email_named content.now.content.emails) content.now.content.emails
        (option_map (λ v. map (λ t. t.now) v.items) ids.now))) }
    ensures unknown { IfOk result (λ f. f.unknown
        ≡ map text (unknown_ids (email_named content.now.content.emails)
        (option_map (λ v. map (λ t. t.now) v.items) ids.now))) }
{
    match ids {
        Some(ids) => {
            let firsts = list_first_mentions(alloc, ids.as_slice())?;
            find_named(alloc, content, blobs, firsts.as_slice(), wanted)
        }
        None => Ok(FoundRecords {
            objects: write_emails(alloc, blobs, content.emails(), wanted)?,
            unknown: Items::new(alloc),
        }),
    }
}
