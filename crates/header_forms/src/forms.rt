// A field's value in a form, as a JSON tree.
ghost use Rattle.std.specs.Prelude.{◌≡◌, map, IfOk};
ghost use Rattle.jm_json.specs.Json.{tree_of};
ghost use Rattle.header_forms.specs.Forms;
ghost use Rattle.header_forms.specs.Forms.{form_tree};
ghost use Rattle.jm_json.specs.Tree.{text as text'};

use crate::address::{Address, Addresses, Group, Groups};
use crate::angles::read_angle_texts;
use crate::date::read_date_text;
use crate::form::Form;
use crate::groups::{parse_addresses, parse_groups};
use crate::texts::{read_raw, read_text_form, unfold_value};
use jm_base::{NoMemory, Text, Texts};
use jm_json::{Items, Json, Members};
use std::alloc::Global;
use std::collections::VecDeque;

fn show_text_or_null(text: Option<Text>) -> Json
    ensures { tree_of result ≡ Forms.text_or_null text }
{
    match text {
        None => Json::Null,
        Some(text) => Json::Text(text),
    }
}

/// Returns the object of an address.
fn show_address(alloc: Global, address: Address) -> Result<Json, NoMemory>
    ensures { IfOk result (λ t. tree_of t ≡ Forms.address_tree address) }
{
    let Address { email, name } = address;
    let mut members = Members::with_room(alloc, 2)?;
    members.set(alloc, "email", Json::Text(email))?;
    members.set(alloc, "name", show_text_or_null(name))?;
    Ok(Json::Object(members))
}

fn show_addresses(alloc: Global, addresses: Addresses) -> Result<Items, NoMemory>
    ensures { IfOk result (λ ts. ts ≡ map Forms.address_tree addresses) }
{
    let mut items = Items::with_room(alloc, addresses.len())?;
    let mut rest = VecDeque::from_vec(addresses.into_vec());
    while let Some(address) = rest.pop_front() {
        items.push(show_address(alloc, address)?)?;
    }
    Ok(items)
}

/// Returns the object of a group.
fn show_group(alloc: Global, group: Group) -> Result<Json, NoMemory>
    ensures { IfOk result (λ t. tree_of t ≡ Forms.group_tree group) }
{
    let Group { name, addresses } = group;
    let addresses = show_addresses(alloc, addresses)?;
    let mut members = Members::with_room(alloc, 2)?;
    members.set(alloc, "addresses", Json::List(addresses))?;
    members.set(alloc, "name", show_text_or_null(name))?;
    Ok(Json::Object(members))
}

fn show_groups(alloc: Global, groups: Groups) -> Result<Items, NoMemory>
    ensures { IfOk result (λ ts. ts ≡ map Forms.group_tree groups) }
{
    let mut items = Items::with_room(alloc, groups.len())?;
    let mut rest = VecDeque::from_vec(groups.into_vec());
    while let Some(group) = rest.pop_front() {
        items.push(show_group(alloc, group)?)?;
    }
    Ok(items)
}

fn show_texts(alloc: Global, texts: Texts) -> Result<Items, NoMemory>
    ensures { IfOk result (λ ts. ts ≡ map text' texts) }
{
    let mut items = Items::with_room(alloc, texts.len())?;
    let mut rest = VecDeque::from_vec(texts.into_vec());
    while let Some(text) = rest.pop_front() {
        items.push(Json::Text(text))?;
    }
    Ok(items)
}

/// Returns the list of some texts; null if there is none.
fn list_or_null(alloc: Global, texts: Texts) -> Result<Json, NoMemory>
    ensures { IfOk result (λ t. tree_of t ≡ Forms.list_or_null texts) }
{
    if texts.is_empty() {
        return Ok(Json::Null);
    }
    Ok(Json::List(show_texts(alloc, texts)?))
}

/// Returns the value of a header field in a form, as JSON (RFC 8621, section 4.1.2). `value` is
/// what follows the field's colon, up to its last line end. Each value has each form: invalid
/// addresses are left out, and an invalid date is null. It fails only if memory runs out.
pub fn form_of(alloc: Global, value: &[u8], form: Form) -> Result<Json, NoMemory>
    ensures { IfOk result (λ j. tree_of j ≡ form_tree form value.now) }
{
    match form {
        Form::Raw => Ok(Json::Text(read_raw(alloc, value)?)),
        Form::Text => Ok(Json::Text(read_text_form(alloc, value)?)),
        Form::Addresses => read_address_list(alloc, value),
        Form::GroupedAddresses => read_group_list(alloc, value),
        Form::MessageIds => read_angle_list(alloc, value),
        Form::Date => read_date_or_null(alloc, value),
        Form::Urls => read_angle_list(alloc, value),
    }
}

fn read_address_list(alloc: Global, value: &[u8]) -> Result<Json, NoMemory>
    ensures { IfOk result (λ j. tree_of j ≡ form_tree Form.Addresses value.now) }
{
    let line = unfold_value(alloc, value)?;
    let addresses = parse_addresses(alloc, line.as_str())?;
    Ok(Json::List(show_addresses(alloc, addresses)?))
}

fn read_group_list(alloc: Global, value: &[u8]) -> Result<Json, NoMemory>
    ensures { IfOk result (λ j. tree_of j ≡ form_tree Form.GroupedAddresses value.now) }
{
    let line = unfold_value(alloc, value)?;
    let groups = parse_groups(alloc, line.as_str())?;
    Ok(Json::List(show_groups(alloc, groups)?))
}

fn read_angle_list(alloc: Global, value: &[u8]) -> Result<Json, NoMemory>
    ensures { IfOk result (λ j. tree_of j ≡ form_tree Form.MessageIds value.now) }
{
    let line = unfold_value(alloc, value)?;
    list_or_null(alloc, read_angle_texts(alloc, line.as_str())?)
}

fn read_date_or_null(alloc: Global, value: &[u8]) -> Result<Json, NoMemory>
    ensures { IfOk result (λ j. tree_of j ≡ form_tree Form.Date value.now) }
{
    let line = unfold_value(alloc, value)?;
    Ok(show_text_or_null(read_date_text(alloc, line.as_bytes())?))
}
