// The header fields of a draft's message (RFC 5322, section 3.6).
ghost use Rattle.std.specs.Prelude.{◌≡◌, ◌≤◌, ◌++◌, ◌∷◌, [], map, option_map, OnOk, IfOk};
ghost use Rattle.std.specs.List.{flat_map};
ghost use Rattle.mime_lines.specs.Written.{field_line, fold, parted_by};
ghost use Rattle.header_forms.specs.WrittenForms.{address_text, addresses_value, angled, ids_value, name_text};
ghost use Rattle.draft_writer.specs.Fields;

use draft_form::{DraftField, FieldValue};
use header_forms::Address;
use jm_base::{NoMemory, Text};
use mime_writer::{DateTime, push_angled, push_date_value, push_lead, push_name, push_text_value};
use std::alloc::Global;

// Lends the name of an address, if it has one.
fn find_name(address: &Address) -> Option<&str>
    ensures { option_map (λ t. t.now) result ≡ address.now.name }
{
    match &address.name {
        Some(name) => Some(name.as_str()),
        None => None,
    }
}

fn push_address(alloc: Global, out: &mut Vec<u8>, address: &Address) -> Result<(), NoMemory>
    ensures { OnOk result (out.new.items ≡ out.old.items ++ address_text address.now) }
{
    push_name(alloc, out, find_name(address))?;
    push_angled(out, address.email.as_bytes())
}

// Adds addresses with a comma between each and the next.
fn push_parted(alloc: Global, out: &mut Vec<u8>, addresses: &[Address]) -> Result<(), NoMemory>
    ensures { OnOk result (out.new.items ≡ out.old.items
        ++ parted_by (44 ∷ fold) (map address_text addresses.now)) }
{
    let mut rest = addresses;
    while let Some((address, more)) = rest.split_first() {
        push_address(alloc, out, address)?;
        if !more.is_empty() {
            out.extend_from_slice(",\r\n ".as_bytes())?;
        }
        rest = more;
    }
    Ok(())
}

// Adds what is before the first of some addresses.
fn push_first_lead(out: &mut Vec<u8>, addresses: &[Address]) -> Result<(), NoMemory>
    ensures { OnOk result (out.new.items ≡ out.old.items
        ++ Rattle.header_forms.specs.WrittenForms.lead addresses.now) }
{
    match addresses.first() {
        Some(address) => push_lead(out, find_name(address)),
        None => push_lead(out, None),
    }
}

fn push_addresses(alloc: Global, out: &mut Vec<u8>, addresses: &[Address]) -> Result<(), NoMemory>
    ensures { OnOk result (out.new.items ≡ out.old.items ++ addresses_value addresses.now) }
{
    push_first_lead(out, addresses)?;
    push_parted(alloc, out, addresses)
}

/// Adds identifiers in angle brackets.
fn push_ids(out: &mut Vec<u8>, ids: &[Text]) -> Result<(), NoMemory>
    ensures { OnOk result (out.new.items ≡ out.old.items ++ ids_value ids.now) }
{
    out.push(b' ')?;
    let mut rest = ids;
    while let Some((id, more)) = rest.split_first() {
        push_angled(out, id.as_bytes())?;
        if !more.is_empty() {
            out.extend_from_slice("\r\n ".as_bytes())?;
        }
        rest = more;
    }
    Ok(())
}

fn push_value(alloc: Global, out: &mut Vec<u8>, value: &FieldValue) -> Result<(), NoMemory>
    ensures { OnOk result (out.new.items ≡ out.old.items ++ Fields.value_text value.now) }
{
    match value {
        FieldValue::OfAddresses(addresses) => push_addresses(alloc, out, addresses.as_slice()),
        FieldValue::OfText(text) => push_text_value(alloc, out, text.as_str()),
        FieldValue::OfIdentifiers(ids) => push_ids(out, ids.as_slice()),
    }
}

fn push_field(alloc: Global, out: &mut Vec<u8>, field: &DraftField) -> Result<(), NoMemory>
    ensures { OnOk result (out.new.items ≡ out.old.items
        ++ field_line (Fields.field_of field.now)) }
{
    out.extend_from_slice(field.name.as_bytes())?;
    out.push(b':')?;
    push_value(alloc, out, &field.value)?;
    out.extend_from_slice("\r\n".as_bytes())?;
    Ok(())
}

/// Adds header fields one after the other.
pub fn push_fields(alloc: Global, out: &mut Vec<u8>, fields: &[DraftField]) -> Result<(), NoMemory>
    ensures { OnOk result (out.new.items ≡ out.old.items
        ++ flat_map field_line (map Fields.field_of fields.now)) }
{
    for field in fields {
        push_field(alloc, out, field)?;
    }
    Ok(())
}

/// Adds Date.
pub fn push_date(out: &mut Vec<u8>, date: &DateTime) -> Result<(), NoMemory>
    requires { (1 ≤ date.now.month) × (date.now.month ≤ 12) }
    ensures { OnOk result (out.new.items ≡ out.old.items
        ++ field_line (Fields.date_field date.now)) }
{
    out.extend_from_slice("Date:".as_bytes())?;
    push_date_value(out, date)?;
    out.extend_from_slice("\r\n".as_bytes())?;
    Ok(())
}

/// Adds Message-ID.
pub fn push_message_id(out: &mut Vec<u8>, ids: &[Text]) -> Result<(), NoMemory>
    ensures { OnOk result (out.new.items ≡ out.old.items
        ++ field_line (Fields.field_of (Fields.id_field ids.now))) }
{
    out.extend_from_slice("Message-ID:".as_bytes())?;
    push_ids(out, ids)?;
    out.extend_from_slice("\r\n".as_bytes())?;
    Ok(())
}

/// Adds MIME-Version.
pub fn push_version(out: &mut Vec<u8>) -> Result<(), NoMemory>
    ensures { OnOk result (out.new.items ≡ out.old.items ++ field_line Fields.version_field) }
{
    out.extend_from_slice("MIME-Version: 1.0\r\n".as_bytes())?;
    Ok(())
}
