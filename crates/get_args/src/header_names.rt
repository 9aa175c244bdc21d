// Names of header fields and of their forms (RFC 8621, sections 4.1.2 and 4.1.3).
ghost use Rattle.std.specs.Prelude.{◌≡◌, Some, None, IfOk, map, option_map};
ghost use Rattle.std.specs.List.{list_all};
ghost use Rattle.mime_lines.specs.Fields;
ghost use Rattle.get_args.specs.NameHalves.{first_field_form, first_form_named, last_field_form, last_form_named};
ghost use Rattle.get_args.specs.PropertyNames as Names;
ghost use Rattle.get_args.specs.PropertyNames.{at_colon, after_name, address_fields, date_fields, field_asked, field_form, header_named, id_fields, raw_fields, text_fields, url_fields, if_field, in_form};
ghost use Rattle.get_args.specs.Views.{halves, field_form_of};

use crate::property::HeaderProperty;
use header_forms::Form;
use jm_base::{NoMemory, Text};
use mail_text::is_same_name;
use std::alloc::Global;

// The fields that have each form besides Raw (RFC 8621, section 4.1.2).
const TEXT_FIELDS: [&str; 4] = ["Subject", "Comments", "Keywords", "List-Id"];

const ADDRESS_FIELDS: [&str; 11] = [
    "From",
    "Sender",
    "Reply-To",
    "To",
    "Cc",
    "Bcc",
    "Resent-From",
    "Resent-Sender",
    "Resent-To",
    "Resent-Cc",
    "Resent-Bcc",
];

const ID_FIELDS: [&str; 4] = [
    "Message-ID",
    "In-Reply-To",
    "References",
    "Resent-Message-ID",
];

const DATE_FIELDS: [&str; 2] = ["Date", "Resent-Date"];

const URL_FIELDS: [&str; 6] = [
    "List-Help",
    "List-Unsubscribe",
    "List-Subscribe",
    "List-Post",
    "List-Owner",
    "List-Archive",
];

const RAW_FIELDS: [&str; 2] = ["Return-Path", "Received"];

// Returns whether the name is one of these, in either case.
fn is_one_of(names: &[&str], name: &str) -> bool
    ensures { result ≡ Names.is_one_of (map (λ t. t.now) names.now) name.now }
{
    for known in names {
        if is_same_name(name.as_bytes(), known.as_bytes()) {
            return true;
        }
    }
    false
}

fn is_text_field(name: &str) -> bool
    ensures { result ≡ Names.is_one_of text_fields name.now }
{
    is_one_of(&TEXT_FIELDS, name)
}

fn is_address_field(name: &str) -> bool
    ensures { result ≡ Names.is_one_of address_fields name.now }
{
    is_one_of(&ADDRESS_FIELDS, name)
}

fn is_id_field(name: &str) -> bool
    ensures { result ≡ Names.is_one_of id_fields name.now }
{
    is_one_of(&ID_FIELDS, name)
}

fn is_date_field(name: &str) -> bool
    ensures { result ≡ Names.is_one_of date_fields name.now }
{
    is_one_of(&DATE_FIELDS, name)
}

fn is_url_field(name: &str) -> bool
    ensures { result ≡ Names.is_one_of url_fields name.now }
{
    is_one_of(&URL_FIELDS, name)
}

fn is_raw_field(name: &str) -> bool
    ensures { result ≡ Names.is_one_of raw_fields name.now }
{
    is_one_of(&RAW_FIELDS, name)
}

// Returns whether the name is none of those above.
fn is_other(name: &str) -> bool
    ensures { result ≡ Names.is_other name.now }
{
    !(is_text_field(name)
        || is_address_field(name)
        || is_id_field(name)
        || is_date_field(name)
        || is_url_field(name)
        || is_raw_field(name))
}

// Returns whether a field of this name may be asked for in this form.
fn is_allowed(form: Form, name: &str) -> bool
    ensures { result ≡ Names.is_allowed form name.now }
{
    match form {
        Form::Raw => true,
        Form::Text => is_text_field(name) || is_other(name),
        Form::Addresses | Form::GroupedAddresses => is_address_field(name) || is_other(name),
        Form::MessageIds => is_id_field(name) || is_other(name),
        Form::Date => is_date_field(name) || is_other(name),
        Form::Urls => is_url_field(name) || is_other(name),
    }
}

// Returns the form of a name, if it is Raw, Text or one of addresses.
fn find_text_or_address_form(text: &str) -> Option<Form>
    ensures { result ≡ first_form_named text.now }
{
    if text == "asRaw" {
        Some(Form::Raw)
    } else if text == "asText" {
        Some(Form::Text)
    } else if text == "asAddresses" {
        Some(Form::Addresses)
    } else if text == "asGroupedAddresses" {
        Some(Form::GroupedAddresses)
    } else {
        None
    }
}

// Returns the form of a name, if it is another one.
fn find_other_form(text: &str) -> Option<Form>
    ensures { result ≡ last_form_named text.now }
{
    if text == "asMessageIds" {
        Some(Form::MessageIds)
    } else if text == "asDate" {
        Some(Form::Date)
    } else if text == "asURLs" {
        Some(Form::Urls)
    } else {
        None
    }
}

// Returns the form of a name such as asText.
fn find_form(text: &str) -> Option<Form>
    ensures { result ≡ Names.form_named text.now }
{
    match find_text_or_address_form(text) {
        Some(found) => Some(found),
        None => find_other_form(text),
    }
}

fn is_name_byte(byte: u8) -> bool
    ensures { result ≡ Rattle.mime_lines.specs.Fields.is_name_byte byte }
{
    33 <= byte && byte <= 126 && byte != b':'
}

fn are_name_bytes(bytes: &[u8]) -> bool
    ensures { result ≡ list_all Rattle.mime_lines.specs.Fields.is_name_byte bytes.now }
{
    for byte in bytes {
        if !is_name_byte(*byte) {
            return false;
        }
    }
    true
}

// Returns whether a field may have this name.
fn is_field_name(name: &str) -> bool
    ensures { result ≡ Names.is_field_name name.now }
{
    0 < name.len() && are_name_bytes(name.as_bytes())
}

// Returns a field that is asked for, if it may be asked for in this form.
fn build_header_if_allowed(
    alloc: Global,
    name: &str,
    form: Form,
    all: bool,
) -> Result<Option<HeaderProperty>, NoMemory>
    ensures { IfOk result (λ o. o ≡ if_field name.now form all) }
{
    if !(is_field_name(name) && is_allowed(form, name)) {
        return Ok(None);
    }
    let field = Text::from_str(alloc, name)?;
    Ok(Some(HeaderProperty { field, form, all }))
}

// Returns a field that is asked for, in the form of a name such as asText.
fn build_header_in_form(
    alloc: Global,
    name: &str,
    form: &str,
    all: bool,
) -> Result<Option<HeaderProperty>, NoMemory>
    ensures { IfOk result (λ o. o ≡ in_form name.now form.now all) }
{
    match find_form(form) {
        Some(form) => build_header_if_allowed(alloc, name, form, all),
        None => Ok(None),
    }
}

// Returns the string before the first colon, and the string after it.
fn split_colon(text: &str) -> Option<(&str, &str)>
    ensures { option_map halves result ≡ at_colon text.now }
{
    text.split_once(':')
}

// Returns what is asked for after a field's name.
fn read_after_name(
    alloc: Global,
    name: &str,
    text: &str,
) -> Result<Option<HeaderProperty>, NoMemory>
    ensures { IfOk result (λ o. o ≡ after_name name.now text.now (at_colon text.now)) }
{
    match split_colon(text) {
        Some((form, last)) => {
            if last != "all" {
                return Ok(None);
            }
            build_header_in_form(alloc, name, form, true)
        }
        None => {
            if text == "all" {
                return build_header_if_allowed(alloc, name, Form::Raw, true);
            }
            build_header_in_form(alloc, name, text, false)
        }
    }
}

// Returns a field by its name, with `all`, a form, or a form and `all` after it.
fn read_header_field(alloc: Global, text: &str) -> Result<Option<HeaderProperty>, NoMemory>
    ensures { IfOk result (λ o. o ≡ field_asked text.now) }
{
    match split_colon(text) {
        Some((name, rest)) => read_after_name(alloc, name, rest),
        None => build_header_if_allowed(alloc, text, Form::Raw, false),
    }
}

/// Returns the header field that a name such as `header:NAME:asFORM:all` means, or `None` if it
/// means none (RFC 8621, section 4.1.3).
pub(crate) fn read_header_property(
    alloc: Global,
    text: &str,
) -> Result<Option<HeaderProperty>, NoMemory>
    ensures { IfOk result (λ o. o ≡ header_named text.now) }
{
    match split_colon(text) {
        Some((prefix, rest)) => {
            if prefix != "header" {
                return Ok(None);
            }
            read_header_field(alloc, rest)
        }
        None => Ok(None),
    }
}

/// A field's name, and the form in which its last value is shown.
#[derive(Clone, Copy)]
pub(crate) struct FieldForm {
    pub field: &'static str,
    pub form: Form,
}

fn build_field_form(field: &'static str, form: Form) -> Option<FieldForm>
    ensures { option_map field_form_of result ≡ Some (field.now, form) }
{
    Some(FieldForm { field, form })
}

// Returns the field, and its form, that a property names, of those up to `references`.
fn find_first_form(name: &str) -> Option<FieldForm>
    ensures { option_map field_form_of result ≡ first_field_form name.now }
{
    if name == "bcc" {
        build_field_form("Bcc", Form::Addresses)
    } else if name == "cc" {
        build_field_form("Cc", Form::Addresses)
    } else if name == "from" {
        build_field_form("From", Form::Addresses)
    } else if name == "inReplyTo" {
        build_field_form("In-Reply-To", Form::MessageIds)
    } else if name == "messageId" {
        build_field_form("Message-ID", Form::MessageIds)
    } else if name == "references" {
        build_field_form("References", Form::MessageIds)
    } else {
        None
    }
}

// Returns the field, and its form, that a property names, of those after `references`.
fn find_last_form(name: &str) -> Option<FieldForm>
    ensures { option_map field_form_of result ≡ last_field_form name.now }
{
    if name == "replyTo" {
        build_field_form("Reply-To", Form::Addresses)
    } else if name == "sender" {
        build_field_form("Sender", Form::Addresses)
    } else if name == "sentAt" {
        build_field_form("Date", Form::Date)
    } else if name == "subject" {
        build_field_form("Subject", Form::Text)
    } else if name == "to" {
        build_field_form("To", Form::Addresses)
    } else {
        None
    }
}

/// Returns the field, and its form, that a property such as `from` names (RFC 8621, section
/// 4.1.3).
pub(crate) fn find_field_form(name: &str) -> Option<FieldForm>
    ensures { option_map field_form_of result ≡ field_form name.now }
{
    match find_first_form(name) {
        Some(found) => Some(found),
        None => find_last_form(name),
    }
}
