// Why an object of a set, an import or a copy is rejected, and how that is reported (RFC 8620,
// sections 5.3 and 5.4; RFC 8621, sections 2.5, 4.6 and 4.8).
ghost use Rattle.std.specs.Prelude.{◌≡◌, IfOk, map};
ghost use Rattle.jm_json.specs.Json.{tree_of};
ghost use Rattle.jm_json.specs.Tree.{text as text_tree};
ghost use Rattle.set_parts.specs.SetErrors.{error_of_blobs, error_of_properties, error_of_type, error_tree};

use jm_base::{NoMemory, Text, Texts};
use jm_json::{Items, Json, Members};
use std::alloc::Global;
use std::collections::VecDeque;

/// Why an object is rejected.
#[derive(Drop)]
pub enum SetError {
    /// No record has this id.
    NotFound,
    /// The same set destroys the record that it updates.
    WillDestroy,
    /// The object may not be created this way.
    Forbidden,
    /// The value is no patch of the record: it is no object, or one of its paths is invalid.
    InvalidPatch,
    /// These properties, in byte order, may not be sent or have an invalid value.
    InvalidProperties(Texts),
    /// An email would have more keywords than it may have.
    TooManyKeywords,
    /// An email would be in more mailboxes than it may be in.
    TooManyMailboxes,
    /// No blob has these ids, which are in byte order.
    BlobNotFound(Texts),
    /// The record would be larger than it may be.
    TooLarge,
    /// The account has as many records as it may have.
    OverQuota,
    /// A mailbox that is to be destroyed has children.
    MailboxHasChild,
    /// A mailbox that is to be destroyed has emails, and they are not to be removed from it.
    MailboxHasEmail,
}

fn build_type(alloc: Global, name: &str) -> Result<Json, NoMemory>
    ensures { IfOk result (λ j. tree_of j ≡ error_of_type name.now) }
{
    let mut object = Members::with_room(alloc, 1)?;
    object.set(alloc, "type", Json::Text(Text::from_str(alloc, name)?))?;
    Ok(Json::Object(object))
}

fn collect_texts(alloc: Global, texts: Texts) -> Result<Items, NoMemory>
    ensures { IfOk result (λ ts. ts ≡ map text_tree texts) }
{
    let mut items = Items::new(alloc);
    let mut rest = VecDeque::from_vec(texts.into_vec());
    while let Some(text) = rest.pop_front() {
        items.push(Json::Text(text))?;
    }
    Ok(items)
}

fn build_properties(alloc: Global, name: &str, properties: Texts) -> Result<Json, NoMemory>
    ensures { IfOk result (λ j. tree_of j ≡ error_of_properties name.now properties) }
{
    let properties = collect_texts(alloc, properties)?;
    let mut object = Members::with_room(alloc, 2)?;
    object.set(alloc, "properties", Json::List(properties))?;
    object.set(alloc, "type", Json::Text(Text::from_str(alloc, name)?))?;
    Ok(Json::Object(object))
}

fn build_not_found(alloc: Global, ids: Texts) -> Result<Json, NoMemory>
    ensures { IfOk result (λ j. tree_of j ≡ error_of_blobs ids) }
{
    let ids = collect_texts(alloc, ids)?;
    let mut object = Members::with_room(alloc, 2)?;
    object.set(alloc, "notFound", Json::List(ids))?;
    object.set(
        alloc,
        "type",
        Json::Text(Text::from_str(alloc, "blobNotFound")?),
    )?;
    Ok(Json::Object(object))
}

/// Builds the SetError that reports an error.
pub fn build_error(alloc: Global, error: SetError) -> Result<Json, NoMemory>
    ensures { IfOk result (λ j. tree_of j ≡ error_tree error) }
{
    match error {
        SetError::NotFound => build_type(alloc, "notFound"),
        SetError::WillDestroy => build_type(alloc, "willDestroy"),
        SetError::Forbidden => build_type(alloc, "forbidden"),
        SetError::InvalidPatch => build_type(alloc, "invalidPatch"),
        SetError::InvalidProperties(names) => build_properties(alloc, "invalidProperties", names),
        SetError::TooManyKeywords => build_type(alloc, "tooManyKeywords"),
        SetError::TooManyMailboxes => build_type(alloc, "tooManyMailboxes"),
        SetError::BlobNotFound(ids) => build_not_found(alloc, ids),
        SetError::TooLarge => build_type(alloc, "tooLarge"),
        SetError::OverQuota => build_type(alloc, "overQuota"),
        SetError::MailboxHasChild => build_type(alloc, "mailboxHasChild"),
        SetError::MailboxHasEmail => build_type(alloc, "mailboxHasEmail"),
    }
}
