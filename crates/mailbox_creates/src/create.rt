// Performs one create (RFC 8620, section 5.3).
ghost use Rattle.std.specs.Prelude.{IfOk, List, None, OnOk, Some, option_map, ℕ, ◌+◌, ◌<◌, ◌||◌, ◌≡◌, ◌≤◌};
ghost use Rattle.jm_base.specs.declared.identifiers.TheConstants.{NUMBER_LIMIT};
ghost use Rattle.mail_counts.specs.Tidy.{same_role};
ghost use Rattle.set_parts.specs.Creates.{Creating};
ghost use Rattle.mailbox_creates.specs.Creates.{after_create, after_made, after_rejected, mailbox_of};
ghost use Rattle.mailbox_creates.specs.Views.{Follows, properties_of};
ghost use Rattle.set_parts.specs.Views.{create_of, holds};

use crate::checks::{
    build_default_members, check_properties, find_invalid_members, read_properties,
};
use crate::planner::Planner;
use crate::properties::{SentProperties, choose_values};
use crate::response::{build_record, collect_names};
use jm_base::{NoMemory, Text};
use jm_json::Members;
use mail_records::Mailbox;
use set_parts::{CreateStep, SentCreate, SetError, TextSet, add_text, enter_create};
use std::alloc::Global;

/// Returns a copy of a role, if there is one. Fails with `NoMemory` if memory runs out.
pub fn copy_role(role: Option<&Text>) -> Result<Option<Text>, NoMemory>
    ensures { IfOk result (λ r. r ≡ option_map (λ t. t.now) role.entry) }
{
    match role {
        Some(text) => Ok(Some(text.copy()?)),
        None => Ok(None),
    }
}

fn build_mailbox<'a>(
    alloc: Global,
    number: u64,
    properties: &SentProperties<'a>,
) -> Result<Mailbox, NoMemory>
    ensures { IfOk result (λ m. m ≡ mailbox_of number (properties_of properties.now)) }
{
    let values = choose_values(properties);
    let name = Text::from_str(alloc, values.name)?;
    let role = copy_role(values.role)?;
    Ok(Mailbox {
        number,
        name,
        parent: values.parent,
        role,
        sort_order: values.sort_order,
        subscribed: values.subscribed,
        total_emails: 0,
        unread_emails: 0,
        total_threads: 0,
        unread_threads: 0,
    })
}

/// Adds a role, if there is one, to a set of roles.
pub fn add_role<'a>(roles: &mut TextSet<'a>, role: Option<&'a Text>) -> Result<(), NoMemory>
    ensures { OnOk result
        ((t : List ℕ) → holds roles.new.keys.keys None t
        ≡ (same_role (option_map (λ r. r.now) role.entry) (Some t)
        || holds roles.old.keys.keys None t)) }
{
    match role {
        Some(role) => add_text(roles, None, role.as_str()),
        None => Ok(()),
    }
}

// Creates the mailbox with these properties.
fn create_mailbox<'a>(
    alloc: Global,
    planner: &mut Planner<'a>,
    draft: &SentCreate<'a>,
    properties: &SentProperties<'a>,
) -> Result<(), NoMemory>
    requires { planner.old.next + 1 < NUMBER_LIMIT }
    ensures follows { OnOk result ((s : Creating) → Follows planner.old s
        → Follows planner.new
        (after_made s (create_of draft.now)
        (mailbox_of s.content.next_mailbox (properties_of properties.now)))) }
    ensures next { OnOk result (planner.new.next ≤ planner.old.next + 1) }
{
    let number = planner.next;
    let item = build_mailbox(alloc, number, properties)?;
    let made = build_record(alloc, draft.members, item)?;
    let values = choose_values(properties);
    add_text(&mut planner.names, values.parent, values.name)?;
    add_role(&mut planner.roles, values.role)?;
    enter_create(
        alloc,
        &mut planner.creates,
        draft.creation,
        CreateStep::Done(made),
    )?;
    planner.next = number + 1;
    Ok(())
}

fn reject_create<'a>(
    alloc: Global,
    planner: &mut Planner<'a>,
    draft: &SentCreate<'a>,
    bad: Members,
) -> Result<(), NoMemory>
    ensures follows { OnOk result ((s : Creating) → Follows planner.old s
        → Follows planner.new (after_rejected s (create_of draft.now) bad)) }
    ensures next { planner.new.next ≡ planner.old.next }
{
    let names = collect_names(alloc, bad)?;
    let error = SetError::InvalidProperties(names);
    enter_create(
        alloc,
        &mut planner.creates,
        draft.creation,
        CreateStep::Rejected(error),
    )?;
    Ok(())
}

/// Performs a create: a mailbox is created if all its properties are valid.
pub fn perform_create<'a>(
    alloc: Global,
    planner: &mut Planner<'a>,
    draft: &SentCreate<'a>,
) -> Result<(), NoMemory>
    requires { planner.old.next + 1 < NUMBER_LIMIT }
    ensures follows { OnOk result
        ((s : Creating) → Follows planner.old s
        → Follows planner.new (after_create s (create_of draft.now))) }
    ensures next { OnOk result (planner.new.next ≤ planner.old.next + 1) }
{
    let properties = read_properties(planner, draft.members);
    let faults = check_properties(planner, &properties);
    let given = build_default_members(alloc, planner.next)?;
    let bad = find_invalid_members(alloc, &faults, &given, draft.members)?;
    if bad.as_slice().is_empty() {
        create_mailbox(alloc, planner, draft, &properties)
    } else {
        reject_create(alloc, planner, draft, bad)
    }
}
