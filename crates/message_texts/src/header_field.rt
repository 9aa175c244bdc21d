// A field of a header, which is decoded at most once.
ghost use Rattle.std.specs.Prelude.{◌≡◌, ◌&&◌, IfOk};
ghost use Rattle.header_forms.specs.Texts.{text_form};
ghost use Rattle.filter_terms.specs.Contains.{contains};
ghost use Rattle.message_texts.specs.Texts.{field_has, is_field_named};

use crate::plain_value::read_plain_text;
use filter_terms::contains;
use header_forms::read_text_form;
use jm_base::{NoMemory, Text};
use std::alloc::Global;
use std::marker::Model;

/// A field of a header: its name and its value as they are written, and its Text form once a
/// condition looked at that. Contracts see the name and the value.
#[derive(Drop)]
pub(crate) struct HeaderField<'a> {
    name: &'a [u8],
    value: &'a [u8],
    text: Option<Text>,
}

impl<'a> Model for HeaderField<'a> {
    ghost use Rattle.mime_lines.specs.FieldTexts.{FieldText};

    ghost Value = { FieldText };

    ghost use Rattle.std.specs.Prelude.{◌≡◌, IfSome};
    ghost use Rattle.header_forms.specs.Texts.{text_form};

    ghost view = { λ f. record { name = f.name.now; value = f.value.now } };

    ghost invariant = { λ f. IfSome f.text (λ t. t ≡ text_form f.value.now) };
}

impl<'a> HeaderField<'a> {
    /// Returns the field with this name and this value. Nothing is decoded.
    pub(crate) fn new(name: &'a [u8], value: &'a [u8]) -> HeaderField<'a>
        ensures { result ≡ record { name = name.now; value = value.now } }
    {
        HeaderField {
            name,
            value,
            text: None,
        }
    }

    /// Returns whether the field has this name, in either case.
    pub(crate) fn is_named(&self, name: &[u8]) -> bool
        ensures { result ≡ is_field_named name.now self.now }
    {
        self.name.eq_ignore_ascii_case(name)
    }

    /// Returns whether the Text form of the field contains the needle. The value is decoded the
    /// first time, if it needs decoding.
    pub(crate) fn contains(&mut self, alloc: Global, needle: &[u8]) -> Result<bool, NoMemory>
        ensures value { IfOk result (λ b. b ≡ contains needle.now (text_form self.old.value)) }
        ensures same { self.new ≡ self.old }
    {
        if let Some(text) = &self.text {
            return Ok(contains(text.as_bytes(), needle));
        }
        if let Some(text) = read_plain_text(self.value) {
            return Ok(contains(text, needle));
        }
        let text = read_text_form(alloc, self.value)?;
        let found = contains(text.as_bytes(), needle);
        self.text = Some(text);
        Ok(found)
    }
}

/// Returns whether a field has this name, and its Text form contains the needle. The value of
/// another field is not decoded.
pub(crate) fn has_text(
    alloc: Global,
    field: &mut HeaderField<'_>,
    name: &[u8],
    needle: &[u8],
) -> Result<bool, NoMemory>
    ensures value { IfOk result (λ b. b ≡ field_has name.now needle.now field.old) }
    ensures same { field.new ≡ field.old }
{
    if !field.is_named(name) {
        return Ok(false);
    }
    field.contains(alloc, needle)
}
