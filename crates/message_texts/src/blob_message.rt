// A message in a blob, of which each field and each body is decoded at most once.
ghost use Rattle.std.specs.Prelude.{◌≡◌, ◌==◌, not, IfOk, length, option_map};
ghost use Rattle.std.specs.List.{list_any};
ghost use Rattle.blob_store.specs.Authors.{IsSearched};
ghost use Rattle.mime_tree.specs.PartLimit.{parts_of, walked};
ghost use Rattle.filter_terms.specs.Contains.{some_contains};
ghost use Rattle.filter_terms.specs.Texts.{has_text};
ghost use Rattle.filter_terms.specs.declared.texts.Place.TheVariants as at;
ghost use Rattle.message_texts.specs.Texts.{field_texts, main_texts, message_texts, part_texts};

use crate::bodies::{has_in_texts, read_bodies};
use crate::header_field::HeaderField;
use crate::header_scan::scan_header;
use crate::headers::{has_in_named_fields, is_any_named, read_header_fields};
use filter_terms::{OpenedMessage, Place, contains};
use jm_base::{NoMemory, Texts};
use std::alloc::Global;
use std::marker::Model;

/// A message that was opened: the text by which it is found in a search for its author, if that is
/// kept; the fields of its header, once a condition looked at more than one of them or at one that
/// needs decoding; and the texts of its text parts, once a condition looked at them. Contracts see
/// the bytes of the message.
#[derive(Drop)]
pub struct BlobMessage<'a> {
    alloc: Global,
    bytes: &'a [u8],
    from: Option<&'a [u8]>,
    fields: Option<Vec<HeaderField<'a>>>,
    bodies: Option<Texts>,
}

impl<'a> Model for BlobMessage<'a> {
    ghost use Rattle.std.specs.Prelude.{List, ℕ};

    ghost Value = { List ℕ };

    ghost use Rattle.message_texts.specs.OpenedMessages.{IsOpened};

    ghost view = { λ m. m.bytes.now };

    ghost use Rattle.std.specs.Prelude.{option_map};

    ghost invariant = { λ m. IsOpened m.bytes.now (option_map (λ t. t.now) m.from)
        (option_map (λ fields. fields.items) m.fields) m.bodies };
}

/// Opens the message with these bytes, and the text by which it is found in a search for its
/// author, if that is kept. Looks at none of them, and allocates nothing.
pub(crate) fn open_message<'a>(
    alloc: Global,
    bytes: &'a [u8],
    from: Option<&'a [u8]>,
) -> BlobMessage<'a>
    requires { IsSearched bytes.now (option_map (λ t. t.now) from) }
    ensures { result ≡ bytes.now }
{
    BlobMessage {
        alloc,
        bytes,
        from,
        fields: None,
        bodies: None,
    }
}

impl<'a> BlobMessage<'a> {
    // Returns whether a header field of one of these names contains the needle. No body is read.
    fn has_in_header(&mut self, names: &[&[u8]], needle: &[u8]) -> Result<bool, NoMemory>
        ensures value { IfOk result (λ b. b ≡ list_any
            (λ name. some_contains needle.now (field_texts self.old name.now)) names.now) }
        ensures same { self.new ≡ self.old }
    {
        if let Some(fields) = &mut self.fields {
            return has_in_named_fields(self.alloc, fields.as_mut_slice(), names, needle);
        }
        let mut fields = read_header_fields(self.alloc, self.bytes)?;
        let found = has_in_named_fields(self.alloc, fields.as_mut_slice(), names, needle)?;
        self.fields = Some(fields);
        Ok(found)
    }

    // Returns whether a header field of this name contains the needle. Unless the fields were found
    // before, the lines of the header are looked through first.
    #[tactic(auto, using(crate::proofs::Found::or_false))]
    fn has_in_field(&mut self, name: &[u8], needle: &[u8]) -> Result<bool, NoMemory>
        ensures value { IfOk result (λ b. b
            ≡ some_contains needle.now (field_texts self.old name.now)) }
        ensures same { self.new ≡ self.old }
    {
        if self.fields.is_none() {
            if let Some(found) = scan_header(self.bytes, name, needle) {
                return Ok(found);
            }
        }
        self.has_in_header(&[name], needle)
    }

    // Returns whether a field From contains the needle. If the message's text for a search is kept,
    // that alone is looked through for a needle that is not empty.
    fn has_in_from(&mut self, needle: &[u8]) -> Result<bool, NoMemory>
        ensures value { IfOk result (λ b. b ≡ has_text (message_texts self.old) at.From
            needle.now) }
        ensures same { self.new ≡ self.old }
    {
        if !needle.is_empty() {
            if let Some(text) = self.from {
                return Ok(contains(text, needle));
            }
        }
        self.has_in_field(b"From", needle)
    }

    // Returns whether there is a header field of this name. No value is decoded.
    fn has_field(&self, name: &[u8]) -> Result<bool, NoMemory>
        ensures { IfOk result (λ b. b
            ≡ not (length (field_texts self.now name.now) == 0)) }
    {
        if let Some(fields) = &self.fields {
            return Ok(is_any_named(fields.as_slice(), name));
        }
        let fields = read_header_fields(self.alloc, self.bytes)?;
        Ok(is_any_named(fields.as_slice(), name))
    }

    // Returns whether a text part contains the needle. The bodies are decoded the first time.
    fn has_in_body(&mut self, needle: &[u8]) -> Result<bool, NoMemory>
        ensures value { IfOk result (λ b. b ≡ some_contains needle.now
            (part_texts self.old (walked (parts_of self.old)))) }
        ensures same { self.new ≡ self.old }
    {
        if let Some(texts) = &self.bodies {
            return Ok(has_in_texts(texts.as_slice(), needle));
        }
        let texts = read_bodies(self.alloc, self.bytes)?;
        let found = has_in_texts(texts.as_slice(), needle);
        self.bodies = Some(texts);
        Ok(found)
    }

    // Returns whether a header field that the condition `text` looks at contains the needle.
    fn main_fields_contain(&mut self, needle: &[u8]) -> Result<bool, NoMemory>
        ensures value { IfOk result (λ b. b ≡ some_contains needle.now
            (main_texts (message_texts self.old))) }
        ensures same { self.new ≡ self.old }
    {
        let names = [
            b"From".as_slice(),
            b"To".as_slice(),
            b"Cc".as_slice(),
            b"Bcc".as_slice(),
            b"Subject".as_slice(),
        ];
        self.has_in_header(&names, needle)
    }

    // Returns whether one of the texts of all places contains the needle. The bodies are read only
    // if no header field contains it.
    fn has_in_text(&mut self, needle: &[u8]) -> Result<bool, NoMemory>
        ensures value { IfOk result (λ b. b ≡ has_text (message_texts self.old) at.Text
            needle.now) }
        ensures same { self.new ≡ self.old }
    {
        if self.main_fields_contain(needle)? {
            return Ok(true);
        }
        self.has_in_body(needle)
    }
}

impl OpenedMessage for BlobMessage<'_> {
    ghost use Rattle.message_texts.specs.Texts.{message_texts};

    ghost contents = { λ m. message_texts m };

    fn has(&mut self, place: Place, needle: &[u8]) -> Result<bool, NoMemory> {
        match place {
            Place::From => self.has_in_from(needle),
            Place::To => self.has_in_field(b"To", needle),
            Place::Cc => self.has_in_field(b"Cc", needle),
            Place::Bcc => self.has_in_field(b"Bcc", needle),
            Place::Subject => self.has_in_field(b"Subject", needle),
            Place::Body => self.has_in_body(needle),
            Place::Text => self.has_in_text(needle),
        }
    }

    fn field(&mut self, name: &[u8], needle: Option<&[u8]>) -> Result<bool, NoMemory> {
        match needle {
            Some(needle) => self.has_in_field(name, needle),
            None => self.has_field(name),
        }
    }
}
