// The properties of emails and of body parts (RFC 8621, section 4.1).

use header_forms::Form;
use jm_base::Text;

/// A header field that is asked for (RFC 8621, section 4.1.3).
#[derive(Drop)]
pub struct HeaderProperty {
    /// The name of the field, in either case.
    pub field: Text,
    /// The form in which its value is shown.
    pub form: Form,
    /// Whether all fields of the name are shown, or only the last one.
    pub all: bool,
}

/// A metadata property of an email, for which its message is not read (RFC 8621, section 4.1.1).
#[derive(Clone, Copy, Debug, PartialEq, Eq)]
pub enum MetadataProperty {
    /// The id of the email.
    Id,
    /// The id of the blob that is its message.
    BlobId,
    /// The id of its thread.
    ThreadId,
    /// The ids of its mailboxes.
    MailboxIds,
    /// Its keywords.
    Keywords,
    /// The number of bytes of its message.
    Size,
    /// The date and time at which it was received.
    ReceivedAt,
}

/// A property of an email (RFC 8621, sections 4.1.1 to 4.1.4).
#[derive(Drop)]
pub enum Property {
    /// One for which the message is not read.
    Metadata(MetadataProperty),
    /// One of its header fields.
    Header(HeaderProperty),
    /// All its header fields.
    Headers,
    /// Its parts as a tree.
    BodyStructure,
    /// The decoded text of some of its parts.
    BodyValues,
    /// The parts to show as plain text.
    TextBody,
    /// The parts to show as HTML.
    HtmlBody,
    /// The parts that are in neither, and media that only one of the two shows.
    Attachments,
    /// Whether one of the attachments is not to be shown inline.
    HasAttachment,
    /// The first characters of its text.
    Preview,
}

/// A property of a body part (RFC 8621, section 4.1.4).
#[derive(Drop)]
pub enum PartProperty {
    /// The number of a leaf, in decimal.
    PartId,
    /// The blob id of a leaf's decoded body.
    BlobId,
    /// The number of bytes of its decoded body.
    Size,
    /// One of its header fields.
    Header(HeaderProperty),
    /// All its header fields.
    Headers,
    /// Its file name.
    Name,
    /// Its media type.
    MediaType,
    /// Its charset.
    Charset,
    /// Its disposition.
    Disposition,
    /// Its Content-ID.
    Cid,
    /// Its Content-Language tags.
    Language,
    /// Its Content-Location.
    Location,
    /// The parts within a multipart.
    SubParts,
}

/// A property of an email by the name that a client used, which is its key in the response.
#[derive(Drop)]
pub struct NamedProperty {
    pub name: Text,
    pub property: Property,
}

/// A property of a body part by the name that a client used.
#[derive(Drop)]
pub struct NamedPartProperty {
    pub name: Text,
    pub property: PartProperty,
}
