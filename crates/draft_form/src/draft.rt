// A draft: what the create of an email says of its message (RFC 8621, section 4.6).
ghost use Rattle.std.specs.Prelude.{◌≡◌};

use header_forms::Addresses;
use jm_base::{Sequence, Text, Texts};
use mime_writer::{DateTime, PartHead};

/// A form of the value of a property that is a header field (RFC 8621, section 4.1.2).
#[derive(Clone, Copy)]
pub enum ValueForm {
    /// A list of addresses, each an object of `email` and perhaps `name`.
    Addresses,
    /// A string.
    Plain,
    /// A list of one or more identifiers.
    Identifiers,
}

/// The value of a header field.
#[derive(Drop)]
pub enum FieldValue {
    OfAddresses(Addresses),
    OfText(Text),
    OfIdentifiers(Texts),
}

/// A header field.
#[derive(Drop)]
pub struct DraftField {
    pub name: Text,
    pub value: FieldValue,
}

/// Header fields in their order.
pub type DraftFields = Sequence<DraftField>;

/// The body of a part that is no multipart.
#[derive(Drop)]
pub enum Content {
    /// A text in UTF-8.
    Value(Text),
    /// The next blob of those that the draft names.
    Blob,
}

/// A step through the parts of a message in walk order.
#[derive(Drop)]
pub enum Row {
    /// A multipart begins.
    Opens(PartHead),
    /// A part that is no multipart.
    Holds(PartHead, Content),
    /// The multipart that began last, of those that have not ended, ends.
    Closes,
}

/// The parts of a message.
#[derive(Drop)]
pub struct DraftRows {
    pub rows: Sequence<Row>,
    /// The ids of the blobs of its parts, in walk order.
    pub blob_ids: Texts,
}

/// What the create of an email says of its message.
#[derive(Drop)]
pub struct Draft {
    /// The fields of addresses and the subject, in the order of a message.
    pub first: DraftFields,
    /// The date, if it is given.
    pub date: Option<DateTime>,
    /// The identifier, if it is given.
    pub message_id: Option<Texts>,
    /// The fields after the identifier, in the order of a message.
    pub later: DraftFields,
    pub parts: DraftRows,
}

impl Draft {
    /// Returns the ids of the blobs that are parts of the message, in walk order, with those that
    /// are several parts so many times.
    pub fn blob_ids(&self) -> &[Text]
        ensures { result.now ≡ self.now.parts.blob_ids }
    {
        self.parts.blob_ids.as_slice()
    }
}
