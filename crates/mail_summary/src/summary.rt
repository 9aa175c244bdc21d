// What is kept of a message in addition to its bytes.
ghost use Rattle.std.specs.Prelude.{◌≡◌, All, IfOk, codes, unwrap_or};
ghost use Rattle.std.specs.Option.{ForSome, option_and_then};
ghost use Rattle.std.specs.Str.{chars};
ghost use Rattle.jm_base.specs.UtcDates.{IsUtcDate};
ghost use Rattle.mime_lines.specs.FieldOffsets.{IsWithin, last_value_of};
ghost use Rattle.mime_lines.specs.Fields.{fields_of};
ghost use Rattle.mime_tree.specs.PartLimit.{parts_of};
ghost use Rattle.mail_summary.specs.Leaves.{has_attachment_in};
ghost use Rattle.mail_summary.specs.Received.{received};
ghost use Rattle.mail_summary.specs.Texts.{brief};
ghost use Rattle.mail_summary.specs.Summaries.{first_name, name_by, sent_by, subject_by};
ghost use Rattle.mail_summary.specs.Summaries;

use crate::characters::shorten_text;
use crate::leaves::has_attachment;
use crate::links::read_links;
use crate::received::read_received;
use crate::subjects::read_subject;
use header_forms::{Address, find_timestamp, parse_addresses, unfold_value};
use jm_base::{NoMemory, Text, UtcDate};
use mail_records::Summary;
use mime_lines::{FieldSpans, fields, find_last_value};
use mime_tree::parts;
use std::alloc::Global;

fn read_subject_field(alloc: Global, bytes: &[u8], fields: &FieldSpans) -> Result<Text, NoMemory>
    requires { All (IsWithin bytes.now) fields.now }
    ensures { IfOk result (λ t. t ≡ subject_by (last_value_of bytes.now (codes "Subject") fields.now)) }
{
    match find_last_value(bytes, fields, b"Subject") {
        Some(value) => read_subject(alloc, value),
        None => Text::from_str(alloc, ""),
    }
}

/// Returns the name of an address; an address without one has its email.
fn choose_name(alloc: Global, address: &Address) -> Result<Text, NoMemory>
    ensures { IfOk result (λ t. t ≡ brief (chars (unwrap_or address.now.name address.now.email))) }
{
    match &address.name {
        Some(name) => shorten_text(alloc, name.as_str()),
        None => shorten_text(alloc, address.email.as_str()),
    }
}

fn choose_first_name(alloc: Global, addresses: &[Address]) -> Result<Text, NoMemory>
    ensures { IfOk result (λ t. t ≡ first_name addresses.now) }
{
    match addresses.first() {
        Some(address) => choose_name(alloc, address),
        None => Text::from_str(alloc, ""),
    }
}

/// Reads the name of the first address of the last field that has this name.
fn read_first_name(
    alloc: Global,
    bytes: &[u8],
    fields: &FieldSpans,
    name: &[u8],
) -> Result<Text, NoMemory>
    requires { All (IsWithin bytes.now) fields.now }
    ensures { IfOk result (λ t. t ≡ name_by (last_value_of bytes.now name.now fields.now)) }
{
    let Some(value) = find_last_value(bytes, fields, name) else {
        return Text::from_str(alloc, "");
    };
    let line = unfold_value(alloc, value)?;
    let all = parse_addresses(alloc, line.as_str())?;
    choose_first_name(alloc, all.as_slice())
}

fn read_sent(alloc: Global, bytes: &[u8], fields: &FieldSpans) -> Result<Option<UtcDate>, NoMemory>
    requires { All (IsWithin bytes.now) fields.now }
    ensures value { IfOk result (λ d. d ≡ option_and_then sent_by (last_value_of bytes.now (codes "Date") fields.now)) }
    ensures kept { IfOk result (λ d. ForSome d IsUtcDate) }
{
    match find_last_value(bytes, fields, b"Date") {
        Some(value) => {
            let line = unfold_value(alloc, value)?;
            Ok(find_timestamp(line.as_bytes()))
        }
        None => Ok(None),
    }
}

// Returns whether a message has an attachment.
fn has_attachment_in_message(alloc: Global, bytes: &[u8]) -> Result<bool, NoMemory>
    ensures { IfOk result (λ a. a ≡ has_attachment_in (parts_of bytes.now)) }
{
    let root = parts(alloc, bytes)?;
    has_attachment(alloc, &root)
}

// The texts of a summary.
#[derive(Drop)]
struct SummaryTexts {
    subject: Text,
    from: Text,
    to: Text,
}

fn read_summary_texts(
    alloc: Global,
    bytes: &[u8],
    fields: &FieldSpans,
) -> Result<SummaryTexts, NoMemory>
    requires { All (IsWithin bytes.now) fields.now }
    ensures subject { IfOk result (λ t. t.subject ≡ subject_by (last_value_of bytes.now (codes "Subject") fields.now)) }
    ensures from { IfOk result (λ t. t.from ≡ name_by (last_value_of bytes.now (codes "From") fields.now)) }
    ensures to { IfOk result (λ t. t.to ≡ name_by (last_value_of bytes.now (codes "To") fields.now)) }
{
    let subject = read_subject_field(alloc, bytes, fields)?;
    let from = read_first_name(alloc, bytes, fields, b"From")?;
    let to = read_first_name(alloc, bytes, fields, b"To")?;
    Ok(SummaryTexts { subject, from, to })
}

// Reads the summary of a message whose header has these fields.
fn read_summary(alloc: Global, bytes: &[u8], fields: &FieldSpans) -> Result<Summary, NoMemory>
    requires within { All (IsWithin bytes.now) fields.now }
    requires fields { fields.now ≡ fields_of bytes.now }
    ensures value { IfOk result (λ s. s ≡ Summaries.summary bytes.now) }
    ensures kept { IfOk result (λ s. ForSome s.sent IsUtcDate) }
{
    let attachment = has_attachment_in_message(alloc, bytes)?;
    let sent = read_sent(alloc, bytes, fields)?;
    let links = read_links(alloc, bytes, fields)?;
    let texts = read_summary_texts(alloc, bytes, fields)?;
    Ok(Summary {
        links,
        subject: texts.subject,
        from: texts.from,
        to: texts.to,
        sent,
        attachment,
    })
}

/// Reads the summary of a message, in time linear in its bytes. It fails only if memory runs out.
pub fn summary_of(alloc: Global, bytes: &[u8]) -> Result<Summary, NoMemory>
    ensures value { IfOk result (λ s. s ≡ Summaries.summary bytes.now) }
    ensures kept { IfOk result (λ s. ForSome s.sent IsUtcDate) }
{
    let head = fields(alloc, bytes)?;
    read_summary(alloc, bytes, &head.fields)
}

/// The summary of a message, and the timestamp at which it was received.
#[derive(Drop)]
pub struct SummaryAndReceipt {
    pub summary: Summary,
    /// As [`received_of`] has it.
    ///
    /// [`received_of`]: crate::received_of
    pub received: Option<UtcDate>,
}

/// Reads the summary of a message and the timestamp at which it was received, in time linear in its
/// bytes and from one reading of its header fields. It fails only if memory runs out.
pub fn read_summary_and_receipt(alloc: Global, bytes: &[u8]) -> Result<SummaryAndReceipt, NoMemory>
    ensures summary { IfOk result (λ r. r.summary ≡ Summaries.summary bytes.now) }
    ensures received { IfOk result (λ r. r.received ≡ received bytes.now) }
{
    let head = fields(alloc, bytes)?;
    let summary = read_summary(alloc, bytes, &head.fields)?;
    let received = read_received(alloc, bytes, &head.fields)?;
    Ok(SummaryAndReceipt { summary, received })
}
