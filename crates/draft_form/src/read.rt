// Reads the create of an email whose message is written by the server (RFC 8621, section 4.6).
ghost use Rattle.std.specs.Prelude.{◌≡◌, ◌||◌, IfOk};
ghost use Rattle.jm_json.specs.Json.{tree_of};
ghost use Rattle.draft_form.specs.Bodies;
ghost use Rattle.draft_form.specs.Drafts;
ghost use Rattle.draft_form.specs.Headers;
ghost use Rattle.draft_form.specs.Members as Rules;
ghost use Rattle.draft_form.specs.Outcomes.{IsReading};

use crate::bodies::{
    are_attachments, are_values, find_values, has_few_parts, is_body, is_whole, read_structure,
};
use crate::draft::{Draft, DraftFields, DraftRows, ValueForm};
use crate::headers::{
    is_date, is_value, push_first_fields, push_reply_fields, read_given_date, read_given_id,
};
use crate::members::{is_name_of, is_null};
use crate::names::{is_good_header, push_text_fields};
use jm_base::{NoMemory, Texts};
use jm_json::{Json, Member, Members};
use std::alloc::Global;

/// How many members a create may have; one with more may be answered as if memory ran out.
pub const MAX_DRAFT_MEMBERS: usize = 2000;

/// Why there is no draft, or no message of it.
#[derive(Drop)]
pub enum DraftFault {
    /// The properties that are invalid, in byte order.
    Invalid(Texts),
    /// The message would have more bytes than an upload may have.
    TooLarge,
    NoMemory,
}

impl From<NoMemory> for DraftFault {
    ghost use Rattle.std.specs.Prelude.{◌≡◌};
    ghost use Rattle.draft_form.specs.declared.read.DraftFault.TheVariants as draft_fault;

    ghost from_gives = { λ _ e. e ≡ draft_fault.NoMemory };

    fn from(_refused: NoMemory) -> DraftFault {
        DraftFault::NoMemory
    }
}

// The properties that say where an email is filed.
const FILING_NAMES: [&str; 3] = ["keywords", "mailboxIds", "receivedAt"];

const ADDRESS_PROPERTIES: [&str; 6] = ["bcc", "cc", "from", "replyTo", "sender", "to"];

const ID_PROPERTIES: [&str; 3] = ["inReplyTo", "messageId", "references"];

/// What the members of a create are looked at with.
#[derive(Clone, Copy)]
struct Setting<'a> {
    members: &'a Members,
    values: &'a Members,
    /// Whether there are no more parts than a draft may have.
    few: bool,
}

// Returns whether a value is null, or of this form.
fn may_be(form: ValueForm, value: &Json) -> bool
    ensures { result ≡ Drafts.may_be form (tree_of value.now) }
{
    is_null(value) || is_value(form, value)
}

// Returns whether a value is null, or the Date form of a date-time.
fn may_be_date(alloc: Global, value: &Json) -> Result<bool, NoMemory>
    ensures { IfOk result (λ b. b ≡ (Rules.is_null (tree_of value.now) || Headers.is_date
        (tree_of value.now))) }
{
    if is_null(value) {
        return Ok(true);
    }
    is_date(alloc, value)
}

fn has_lists(members: &Members) -> bool
    ensures { result ≡ Bodies.has_lists members.now }
{
    members.get("bodyStructure").is_none()
}

// Returns whether a property of the body, or one that names a header field, is valid.
fn is_good_body(setting: Setting<'_>, name: &str, value: &Json) -> bool
    requires values { setting.values.now ≡ Bodies.values_in setting.members.now }
    requires few { setting.few ≡ Bodies.has_few_parts setting.members.now }
    ensures { result
        ≡ Drafts.is_good_body setting.entry.members.now name.now (tree_of value.now) }
{
    if name == "bodyStructure" {
        return is_whole(setting.values, value) && setting.few;
    }
    if name == "textBody" {
        return has_lists(setting.members) && is_body(setting.values, "text/plain", value);
    }
    if name == "htmlBody" {
        return has_lists(setting.members) && is_body(setting.values, "text/html", value);
    }
    if name == "attachments" {
        return has_lists(setting.members) && are_attachments(setting.values, value) && setting.few;
    }
    if name == "bodyValues" {
        return are_values(value);
    }
    is_good_header(setting.members.as_slice(), name, value)
}

// Returns whether a property is valid.
fn is_good(alloc: Global, setting: Setting<'_>, name: &str, value: &Json) -> Result<bool, NoMemory>
    requires values { setting.values.now ≡ Bodies.values_in setting.members.now }
    requires few { setting.few ≡ Bodies.has_few_parts setting.members.now }
    ensures { IfOk result
        (λ b. b ≡ Drafts.is_good setting.entry.members.now name.now (tree_of value.now)) }
{
    if is_name_of(&FILING_NAMES, name) {
        return Ok(true);
    }
    if is_name_of(&ADDRESS_PROPERTIES, name) {
        return Ok(may_be(ValueForm::Addresses, value));
    }
    if is_name_of(&ID_PROPERTIES, name) {
        return Ok(may_be(ValueForm::Identifiers, value));
    }
    if name == "subject" {
        return Ok(may_be(ValueForm::Plain, value));
    }
    if name == "sentAt" {
        return may_be_date(alloc, value);
    }
    Ok(is_good_body(setting, name, value))
}

// Returns the names of the properties that are invalid.
fn collect_bad_names(alloc: Global, setting: Setting<'_>) -> Result<Texts, NoMemory>
    requires values { setting.values.now ≡ Bodies.values_in setting.members.now }
    requires few { setting.few ≡ Bodies.has_few_parts setting.members.now }
    ensures { IfOk result (λ names. names ≡ Drafts.bad_names setting.entry.members.now) }
{
    let mut names = Texts::new(alloc);
    for member in setting.members.as_slice() {
        if !is_good(alloc, setting, member.name.as_str(), &member.value)? {
            names.push(member.name.copy()?)?;
        }
    }
    Ok(names)
}

// Returns the fields after the identifier.
fn read_later_fields(alloc: Global, members: &Members) -> Result<DraftFields, NoMemory>
    ensures { IfOk result (λ fs. fs ≡ Drafts.later_fields members.now) }
{
    let mut fields = DraftFields::new(alloc);
    push_reply_fields(alloc, &mut fields, members)?;
    push_text_fields(alloc, &mut fields, members.as_slice())?;
    Ok(fields)
}

// Returns the draft whose parts are these.
fn build_draft(alloc: Global, members: &Members, parts: DraftRows) -> Result<Draft, NoMemory>
    ensures { IfOk result (λ d. d ≡ Drafts.draft_with parts members.now) }
{
    let mut first = DraftFields::new(alloc);
    push_first_fields(alloc, &mut first, members)?;
    let message_id = read_given_id(alloc, members.get("messageId"))?;
    let later = read_later_fields(alloc, members)?;
    Ok(Draft {
        first,
        date: read_given_date(members.get("sentAt")),
        message_id,
        later,
        parts,
    })
}

/// Reads the create of an email whose message is written by the server. Where it is filed
/// (mailboxIds, keywords and receivedAt) isn't looked at. It fails with the names of the invalid
/// properties in byte order, if there are any, or if memory runs out, and never with `TooLarge`
/// (RFC 8621, section 4.6; RFC 8620, section 5.3: invalidProperties).
pub fn read_draft(alloc: Global, create: &Members) -> Result<Draft, DraftFault>
    ensures { IsReading result create.now }
{
    if create.as_slice().len() > MAX_DRAFT_MEMBERS {
        return Err(DraftFault::NoMemory);
    }
    let none = Members::new(alloc);
    let values = find_values(create, &none);
    let parts = read_structure(alloc, values, create)?;
    let few = has_few_parts(parts.rows.as_slice());
    let setting = Setting {
        members: create,
        values,
        few,
    };
    let names = collect_bad_names(alloc, setting)?;
    if !names.is_empty() {
        return Err(DraftFault::Invalid(names));
    }
    Ok(build_draft(alloc, create, parts)?)
}
