// Performs copies (RFC 8620, section 5.4; RFC 8621, section 4.7).
ghost use Rattle.std.specs.Prelude.{◌≡◌, ◌+◌, ◌<◌, ◌^◌, ◌++◌, [], IfOk, OnOk, Some, ℕ, length, map, option_map, true};
ghost use Rattle.blob_store.specs.Blobs.{has_room};
ghost use Rattle.mail_records.specs.Contents.{Content as TheContent};
ghost use Rattle.set_parts.specs.Views.{create_of};
ghost use Rattle.email_creates.specs.Emails.{Progress, after_delivered, after_rejected};
ghost use Rattle.email_creates.specs.Errors.{with_invalid};
ghost use Rattle.email_creates.specs.Views.{Follows};
ghost use Rattle.mail_copies.specs.Copies.{after_copies, after_copy, delivery_for};
ghost use Rattle.mail_copies.specs.Views.{HasRoomFor, delivery_of};

use crate::carried::{Delivery, pick_delivery};
use crate::properties::read_properties;
use email_creates::{
    Planner, Sent, Setting, count_emails, deliver_email, find_error, has_room_for, push_invalid,
    reject_email,
};
use jm_base::{Bytes, NoMemory, Text, Texts};
use method_args::read_text;
use set_parts::{SentCreate, SetError};
use std::alloc::Global;

fn reject_copy<'a>(
    alloc: Global,
    planner: &mut Planner<'a>,
    creation: &'a Text,
    error: SetError,
) -> Result<(), NoMemory>
    ensures follows { OnOk result
        ((c : TheContent) (s : Progress) → Follows c planner.old s
        → Follows c planner.new (after_rejected s creation.now error)) }
    ensures numbers { OnOk result
        ((n : ℕ) → HasRoomFor (n + 1) planner.old → HasRoomFor n planner.new) }
{
    reject_email(alloc, planner, creation, error)?;
    Ok(())
}

// Collects the names of the invalid properties, in byte order.
fn collect_invalid(alloc: Global, sent: &Sent) -> Result<Texts, NoMemory>
    ensures { IfOk result (λ names. names ≡ with_invalid [] sent.now) }
{
    let mut names = Texts::new(alloc);
    push_invalid(alloc, &mut names, sent)?;
    Ok(names)
}

// Makes the copy of an original with this message and these properties, which are valid.
fn create_copy<'a>(
    alloc: Global,
    setting: &Setting<'a>,
    planner: &mut Planner<'a>,
    creation: &'a Text,
    sent: Sent,
    bytes: &[u8],
) -> Result<(), NoMemory>
    requires numbers { HasRoomFor 1 planner.old }
    requires moment { setting.now.moment < 2 ^ 63 }
    requires room { has_room (length bytes.now)
        (setting.now.blobs.now.blobs ++ planner.old.creates.blobs) ≡ true }
    ensures follows { OnOk result
        ((s : Progress) → Follows setting.now.content.now.content planner.old s
        → Follows setting.now.content.now.content planner.new
        (after_delivered setting.now.blobs.now.blobs setting.now.moment s creation.now sent
        bytes.now)) }
    ensures numbers { OnOk result
        ((n : ℕ) → HasRoomFor (n + 1) planner.old → HasRoomFor n planner.new) }
{
    let message = Bytes::from_slice(alloc, bytes)?;
    deliver_email(alloc, setting, planner, creation, sent, message)
}

// Performs the copy of an original that was found.
fn copy_found<'a>(
    alloc: Global,
    setting: &Setting<'a>,
    planner: &mut Planner<'a>,
    create: &SentCreate<'a>,
    delivery: Delivery<'a>,
) -> Result<(), NoMemory>
    requires numbers { HasRoomFor 1 planner.old }
    requires moment { setting.now.moment < 2 ^ 63 }
    ensures follows { OnOk result
        ((s : Progress) → Follows setting.now.content.now.content planner.old s
        → Follows setting.now.content.now.content planner.new
        (after_copy setting.now.blobs.now.blobs setting.now.moment s (create_of create.now)
        (Some (delivery_of delivery.entry)))) }
    ensures numbers { OnOk result
        ((n : ℕ) → HasRoomFor (n + 1) planner.old → HasRoomFor n planner.new) }
{
    let bytes = delivery.bytes;
    let sent = read_properties(
        alloc,
        setting.content,
        &planner.creates.ids,
        setting.moment,
        create.members,
        delivery.item,
    )?;
    let invalid = collect_invalid(alloc, &sent)?;
    let emails = count_emails(setting.content, planner.creates.edits.as_slice());
    let room = has_room_for(setting, planner, bytes.len() as u64);
    match find_error(invalid, &sent, emails, room) {
        Some(error) => reject_copy(alloc, planner, create.creation, error),
        None => create_copy(alloc, setting, planner, create.creation, sent, bytes),
    }
}

// Returns what is delivered for a create: nothing if its `id` is no string.
fn find_delivery<'a>(
    create: &SentCreate<'a>,
    delivery: Option<Delivery<'a>>,
) -> Option<Delivery<'a>>
    ensures { option_map delivery_of result
        ≡ delivery_for (create_of create.now) (option_map delivery_of delivery.entry) }
{
    match read_text(create.members, "id") {
        Some(_) => delivery,
        None => None,
    }
}

/// Performs a copy, for which this is delivered: an email is created, with a blob of its own, if
/// there is an original, all its properties are valid and it is within the limits.
pub fn perform_copy<'a>(
    alloc: Global,
    setting: &Setting<'a>,
    planner: &mut Planner<'a>,
    create: &SentCreate<'a>,
    delivery: Option<Delivery<'a>>,
) -> Result<(), NoMemory>
    requires numbers { HasRoomFor 1 planner.old }
    requires moment { setting.now.moment < 2 ^ 63 }
    ensures follows { OnOk result
        ((s : Progress) → Follows setting.now.content.now.content planner.old s
        → Follows setting.now.content.now.content planner.new
        (after_copy setting.now.blobs.now.blobs setting.now.moment s (create_of create.now)
        (delivery_for (create_of create.now) (option_map delivery_of delivery.entry)))) }
    ensures numbers { OnOk result
        ((n : ℕ) → HasRoomFor (n + 1) planner.old → HasRoomFor n planner.new) }
{
    match find_delivery(create, delivery) {
        Some(delivery) => copy_found(alloc, setting, planner, create, delivery),
        None => reject_copy(alloc, planner, create.creation, SetError::NotFound),
    }
}

/// Performs copies, one after the other, for each of which this is delivered.
pub fn perform_copies<'a>(
    alloc: Global,
    setting: &Setting<'a>,
    planner: &mut Planner<'a>,
    creates: &[SentCreate<'a>],
    deliveries: &[Option<Delivery<'a>>],
) -> Result<(), NoMemory>
    requires numbers { HasRoomFor (length creates.now) planner.old }
    requires moment { setting.now.moment < 2 ^ 63 }
    ensures { OnOk result
        ((s : Progress) → Follows setting.now.content.now.content planner.old s
        → Follows setting.now.content.now.content planner.new
        (after_copies setting.now.blobs.now.blobs setting.now.moment s
        (map create_of creates.now) (map (λ d. option_map delivery_of d) deliveries.now))) }
{
    for i in 0..creates.len() {
        let delivery = pick_delivery(deliveries, i);
        perform_copy(alloc, setting, planner, &creates[i], delivery)?;
    }
    Ok(())
}
