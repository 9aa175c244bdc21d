// The properties of a draft that are header fields (RFC 8621, sections 4.1.2, 4.1.3 and 4.6).
ghost use Rattle.std.specs.Prelude.{◌≡◌, ◌++◌, map, option_map, IfOk, OnOk, Some};
ghost use Rattle.std.specs.List.{list_all};
ghost use Rattle.jm_json.specs.Json.{tree_of};
ghost use Rattle.draft_form.specs.Headers;
ghost use Rattle.draft_form.specs.Members.{is_list, is_object};

use crate::draft::{DraftField, DraftFields, FieldValue, ValueForm};
use crate::members::{
    copy_text, copy_text_at, copy_texts, has_names, is_null, is_optional_text, is_required_text,
    is_text, is_text_list, lend_items,
};
use crate::sent_at::{is_sent_at, read_date_time};
use crate::texts::TextRule;
use header_forms::{Address, Addresses};
use jm_base::{NoMemory, Text, Texts};
use jm_json::{Json, Members};
use mime_writer::DateTime;
use std::alloc::Global;

/// The members of an address.
const ADDRESS_NAMES: [&str; 2] = ["email", "name"];

fn has_address(members: &Members) -> bool
    ensures { result ≡ Headers.has_address members.now }
{
    has_names(&ADDRESS_NAMES, members.as_slice())
        && is_required_text(TextRule::Address, members.get("email"))
        && is_optional_text(TextRule::DisplayName, members.get("name"))
}

fn is_address(value: &Json) -> bool
    ensures { result ≡ is_object Headers.has_address (tree_of value.now) }
{
    match value.as_object() {
        Some(members) => has_address(members),
        None => false,
    }
}

fn are_addresses(items: &[Json]) -> bool
    ensures { result ≡ list_all (is_object Headers.has_address) (map tree_of items.now) }
{
    for item in items {
        if !is_address(item) {
            return false;
        }
    }
    true
}

fn is_address_list(value: &Json) -> bool
    ensures { result ≡ is_list (is_object Headers.has_address) (tree_of value.now) }
{
    match value.as_list() {
        Some(items) => are_addresses(items.as_slice()),
        None => false,
    }
}

/// Returns whether a value is the Date form of a date-time.
pub fn is_date(alloc: Global, value: &Json) -> Result<bool, NoMemory>
    ensures { IfOk result (λ b. b ≡ Headers.is_date (tree_of value.now)) }
{
    match value.as_text() {
        Some(text) => is_sent_at(alloc, text.as_bytes()),
        None => Ok(false),
    }
}

/// Returns whether a value is one of this form.
pub fn is_value(form: ValueForm, value: &Json) -> bool
    ensures { result ≡ Headers.is_value form (tree_of value.now) }
{
    match form {
        ValueForm::Addresses => is_address_list(value),
        ValueForm::Plain => is_text(TextRule::FieldText, value),
        ValueForm::Identifiers => is_text_list(TextRule::Identifier, value),
    }
}

fn build_address(alloc: Global, members: &Members) -> Result<Address, NoMemory>
    ensures { IfOk result (λ a. a ≡ Headers.address_from members.now) }
{
    let name = copy_text_at("name", members)?;
    match copy_text_at("email", members)? {
        Some(email) => Ok(Address { email, name }),
        None => Ok(Address {
            email: Text::from_str(alloc, "")?,
            name,
        }),
    }
}

fn read_address(alloc: Global, value: &Json) -> Result<Address, NoMemory>
    ensures { IfOk result (λ a. a ≡ Headers.address_of (tree_of value.now)) }
{
    match value.as_object() {
        Some(members) => build_address(alloc, members),
        None => build_address(alloc, &Members::new(alloc)),
    }
}

fn read_addresses(alloc: Global, items: &[Json]) -> Result<Addresses, NoMemory>
    ensures { IfOk result (λ xs. xs ≡ map Headers.address_of (map tree_of items.now)) }
{
    let mut addresses = Addresses::new(alloc);
    for item in items {
        addresses.push(read_address(alloc, item)?)?;
    }
    Ok(addresses)
}

fn read_date(value: &Json) -> DateTime
    ensures { result ≡ Headers.date_of (tree_of value.now) }
{
    match value.as_text() {
        Some(text) => read_date_time(text.as_bytes()),
        None => read_date_time(&[]),
    }
}

/// Returns what a value of this form means.
pub fn read_value(alloc: Global, form: ValueForm, value: &Json) -> Result<FieldValue, NoMemory>
    ensures { IfOk result (λ v. v ≡ Headers.value_of form (tree_of value.now)) }
{
    match form {
        ValueForm::Addresses => Ok(FieldValue::OfAddresses(read_addresses(
            alloc,
            lend_items(value),
        )?)),
        ValueForm::Plain => Ok(FieldValue::OfText(copy_text(alloc, value)?)),
        ValueForm::Identifiers => Ok(FieldValue::OfIdentifiers(copy_texts(
            alloc,
            lend_items(value),
        )?)),
    }
}

// Adds a field with this value.
fn push_value(
    alloc: Global,
    fields: &mut DraftFields,
    name: &str,
    value: FieldValue,
) -> Result<(), NoMemory>
    ensures { OnOk result (fields.new ≡ fields.old ++ Headers.fields_if name.now (Some value)) }
{
    let name = Text::from_str(alloc, name)?;
    fields.push(DraftField { name, value })
}

/// Adds the field of a property, if it is given.
pub fn push_field(
    alloc: Global,
    fields: &mut DraftFields,
    name: &str,
    form: ValueForm,
    value: Option<&Json>,
) -> Result<(), NoMemory>
    ensures { OnOk result (fields.new ≡ fields.old ++ Headers.fields_if name.now
        (Headers.given_value form (option_map (λ j. tree_of j.now) value.entry))) }
{
    let Some(value) = value else {
        return Ok(());
    };
    if is_null(value) {
        return Ok(());
    }
    let value = read_value(alloc, form, value)?;
    push_value(alloc, fields, name, value)
}

/// Adds the fields of addresses and the subject.
pub fn push_first_fields(
    alloc: Global,
    fields: &mut DraftFields,
    members: &Members,
) -> Result<(), NoMemory>
    ensures { OnOk result (fields.new ≡ fields.old ++ Headers.first_fields members.now) }
{
    push_field(
        alloc,
        fields,
        "From",
        ValueForm::Addresses,
        members.get("from"),
    )?;
    push_field(
        alloc,
        fields,
        "Sender",
        ValueForm::Addresses,
        members.get("sender"),
    )?;
    push_field(
        alloc,
        fields,
        "Reply-To",
        ValueForm::Addresses,
        members.get("replyTo"),
    )?;
    push_field(alloc, fields, "To", ValueForm::Addresses, members.get("to"))?;
    push_field(alloc, fields, "Cc", ValueForm::Addresses, members.get("cc"))?;
    push_field(
        alloc,
        fields,
        "Bcc",
        ValueForm::Addresses,
        members.get("bcc"),
    )?;
    push_field(
        alloc,
        fields,
        "Subject",
        ValueForm::Plain,
        members.get("subject"),
    )
}

/// Adds the fields of the messages that this one replies to.
pub fn push_reply_fields(
    alloc: Global,
    fields: &mut DraftFields,
    members: &Members,
) -> Result<(), NoMemory>
    ensures { OnOk result (fields.new ≡ fields.old ++ Headers.reply_fields members.now) }
{
    push_field(
        alloc,
        fields,
        "In-Reply-To",
        ValueForm::Identifiers,
        members.get("inReplyTo"),
    )?;
    push_field(
        alloc,
        fields,
        "References",
        ValueForm::Identifiers,
        members.get("references"),
    )
}

/// Reads the date, if it is given.
pub fn read_given_date(value: Option<&Json>) -> Option<DateTime>
    ensures { result ≡ Headers.given_date (option_map (λ j. tree_of j.now) value.entry) }
{
    let value = value?;
    if is_null(value) {
        None
    } else {
        Some(read_date(value))
    }
}

/// Reads the identifier of the message, if it is given.
pub fn read_given_id(alloc: Global, value: Option<&Json>) -> Result<Option<Texts>, NoMemory>
    ensures { IfOk result (λ o. o
        ≡ Headers.given_id (option_map (λ j. tree_of j.now) value.entry)) }
{
    let Some(value) = value else {
        return Ok(None);
    };
    if is_null(value) {
        return Ok(None);
    }
    Ok(Some(copy_texts(alloc, lend_items(value))?))
}
