// The updates of mailboxes (RFC 8620, section 5.3; RFC 8621, section 2.5).
ghost use Rattle.std.specs.Prelude.{◌≡◌, [], ◌∷◌, IfOk, List, OnOk, Some, is_some, map, true, false, ℕ};
ghost use Rattle.std.specs.List.{AllByRecursion};
ghost use Rattle.jm_json.specs.Json.{member_of};
ghost use Rattle.jm_json.specs.declared.invocation.Created.{Created as TheCreated};
ghost use Rattle.mail_records.specs.Contents.{Content as TheContent, mailbox_at};
ghost use Rattle.mail_records.specs.Edits.{after_edits};
ghost use Rattle.mail_records.specs.declared.edits.Edit.TheVariants.{PutMailbox};
ghost use Rattle.mailbox_updates.specs.Updates.{after_mailbox_updates, broken_names, deciding, done_unless, is_unchanged, same_role_or_none, same_truth, update_as, update_by};
ghost use Rattle.mailbox_updates.specs.UpdateViews.{Counts, Decides, IsOf, Updating};
ghost use Rattle.mailbox_updates.specs.Views.{PutsMailbox, Shows, Tracks};
ghost use Rattle.set_parts.specs.Arguments.{update_in};
ghost use Rattle.set_parts.specs.CreationIds.{reported_id};
ghost use Rattle.set_parts.specs.Steps.{Progress, after_update, after_updates, before_steps, is_destroyed, with_edits};
ghost use Rattle.set_parts.specs.Views.{AreDestroyed, AreMade};
ghost use Rattle.set_parts.specs.declared.steps.Step.{Step};

use crate::current::{Current, put_mailbox, start_current};
use crate::patches::{Changed, change_mailbox};
use crate::rules::{are_rules_kept, find_broken, is_same_parent};
use crate::setting::{Setting, find_meant};
use jm_base::{NoMemory, Text};
use jm_json::Member;
use mail_records::{Content, Edit, Mailbox, Record};
use set_parts::{SetError, find_reported_id, has_text};
use std::alloc::Global;

/// What comes of an update.
#[derive(Drop)]
pub enum Decision {
    /// It is rejected.
    Reject(SetError),
    /// It changes nothing.
    Leave,
    /// It puts this mailbox.
    Put(Mailbox),
}

// ---- whether an update changes anything

fn is_same_role(left: &Option<Text>, right: &Option<Text>) -> bool
    ensures { result ≡ same_role_or_none left.now right.now }
{
    match left {
        Some(left) => match right {
            Some(right) => left == right,
            None => false,
        },
        None => right.is_none(),
    }
}

fn is_same_truth(left: bool, right: bool) -> bool
    ensures { result ≡ same_truth left right }
{
    if left { right } else { !right }
}

// Returns whether mailboxes agree in the properties that a client may set.
fn is_unchanged(left: &Mailbox, right: &Mailbox) -> bool
    ensures { result ≡ is_unchanged left.now right.now }
{
    left.name == right.name
        && is_same_parent(left.parent, right.parent)
        && is_same_role(&left.role, &right.role)
        && left.sort_order == right.sort_order
        && is_same_truth(left.subscribed, right.subscribed)
}

// ---- what comes of an update

// Puts a mailbox, unless it breaks a rule.
fn check_rules(alloc: Global, current: &Current, item: Mailbox) -> Result<Decision, NoMemory>
    ensures { IfOk result (λ d. (c : TheContent) → Shows current.now c → Counts current.now c
        → is_some (mailbox_at c item.number) ≡ true → Decides c d (done_unless
        (broken_names (after_edits c (PutMailbox item true false ∷ [])) item)
        (PutMailbox item true false ∷ []))) }
{
    let names = find_broken(alloc, current, &item)?;
    if names.as_slice().is_empty() {
        return Ok(Decision::Put(item));
    }
    Ok(Decision::Reject(SetError::InvalidProperties(names)))
}

// Puts what an update makes of a mailbox, if it is another one.
fn decide_valid(
    alloc: Global,
    current: &Current,
    alone: bool,
    mailbox: &Mailbox,
    item: Mailbox,
) -> Result<Decision, NoMemory>
    requires { item.number ≡ mailbox.now.number }
    ensures { IfOk result (λ d. (c : TheContent) → Shows current.now c → Counts current.now c
        → is_some (mailbox_at c mailbox.now.number) ≡ true
        → Decides c d (deciding alone c mailbox.now (Changed.Valid item))) }
{
    if is_unchanged(mailbox, &item) {
        return Ok(Decision::Leave);
    }
    if alone {
        return check_rules(alloc, current, item);
    }
    Ok(Decision::Put(item))
}

fn decide_changed(
    alloc: Global,
    current: &Current,
    alone: bool,
    mailbox: &Mailbox,
    changed: Changed,
) -> Result<Decision, NoMemory>
    requires { IsOf mailbox.now.number changed }
    ensures { IfOk result (λ d. (c : TheContent) → Shows current.now c → Counts current.now c
        → is_some (mailbox_at c mailbox.now.number) ≡ true
        → Decides c d (deciding alone c mailbox.now changed)) }
{
    match changed {
        Changed::Invalid(error) => Ok(Decision::Reject(error)),
        Changed::Valid(item) => decide_valid(alloc, current, alone, mailbox, item),
    }
}

// Returns whether the set also destroys what a string means.
fn is_destroyed<'a>(setting: &Setting<'a>, id: &'a str) -> bool
    ensures { (made : List TheCreated) (destroys : List (List ℕ)) → AreMade setting.now.created made
        → AreDestroyed setting.now.destroyed made destroys
        → result ≡ is_destroyed made destroys id.now }
{
    has_text(
        &setting.destroyed,
        None,
        find_reported_id(&setting.created.texts, id),
    )
}

// Returns what comes of the update of a mailbox that is there.
fn decide_there<'a>(
    alloc: Global,
    current: &Current,
    setting: &Setting<'a>,
    alone: bool,
    mailbox: &Mailbox,
    update: &'a Member,
) -> Result<Decision, NoMemory>
    ensures { IfOk result (λ d. (made : List TheCreated) (destroys : List (List ℕ)) (c : TheContent)
        → AreMade setting.now.created made → AreDestroyed setting.now.destroyed made destroys
        → Shows current.now c → Counts current.now c
        → is_some (mailbox_at c mailbox.now.number) ≡ true
        → Decides c d (update_by (deciding alone) made destroys c (update_in (member_of update.now))
        (Some mailbox.now))) }
{
    if is_destroyed(setting, update.name.as_str()) {
        return Ok(Decision::Reject(SetError::WillDestroy));
    }
    let changed = change_mailbox(alloc, current, &setting.created, mailbox, &update.value)?;
    decide_changed(alloc, current, alone, mailbox, changed)
}

// Returns what comes of an update after those before it.
fn decide<'a>(
    alloc: Global,
    current: &Current,
    setting: &Setting<'a>,
    alone: bool,
    update: &'a Member,
) -> Result<Decision, NoMemory>
    ensures { IfOk result (λ d. (made : List TheCreated) (destroys : List (List ℕ)) (c : TheContent)
        → AreMade setting.now.created made → AreDestroyed setting.now.destroyed made destroys
        → Shows current.now c → Counts current.now c
        → Decides c d (update_as alone made destroys c (update_in (member_of update.now)))) }
{
    match find_meant(current, &setting.created, update.name.as_str()) {
        Some(mailbox) => decide_there(alloc, current, setting, alone, mailbox, update),
        None => Ok(Decision::Reject(SetError::NotFound)),
    }
}

// ---- one after the other

// Puts what an update makes of a mailbox.
fn put_updated(alloc: Global, current: &mut Current, item: Mailbox) -> Result<(), NoMemory>
    ensures { OnOk result ((s : Progress) → Updating current.old s
        → is_some (mailbox_at s.content item.number) ≡ true
        → Updating current.new (with_edits (PutMailbox item true false ∷ []) s)) }
{
    current.edits.push(Edit::PutMailbox {
        item: item.copy(alloc)?,
        was: true,
        counts: false,
    })?;
    put_mailbox(current, item)?;
    Ok(())
}

// Enters what comes of an update that is reported under this id.
fn enter_update(
    alloc: Global,
    current: &mut Current,
    id: &str,
    decision: Decision,
) -> Result<(), NoMemory>
    ensures { OnOk result ((s : Progress) (step : Step) → Updating current.old s
        → Decides s.content decision step → Updating current.new (after_update id.now s step)) }
{
    match decision {
        Decision::Reject(error) => current.reported.note_not_updated(alloc, id, error),
        Decision::Leave => current.reported.note_updated(alloc, id),
        Decision::Put(item) => {
            current.reported.note_updated(alloc, id)?;
            put_updated(alloc, current, item)
        }
    }
}

// Performs an update, by itself or with others.
fn perform_update<'a>(
    alloc: Global,
    current: &mut Current,
    setting: &Setting<'a>,
    alone: bool,
    update: &'a Member,
) -> Result<(), NoMemory>
    ensures { OnOk result ((made : List TheCreated) (destroys : List (List ℕ)) (s : Progress)
        → AreMade setting.now.created made → AreDestroyed setting.now.destroyed made destroys
        → Updating current.old s → Updating current.new
        (after_update (reported_id made (update_in (member_of update.now)).id) s
        (update_as alone made destroys s.content (update_in (member_of update.now))))) }
{
    let decision = decide(alloc, current, setting, alone, update)?;
    let id = find_reported_id(&setting.created.texts, update.name.as_str());
    enter_update(alloc, current, id, decision)
}

// Performs updates, each by itself or all together.
fn perform_each<'a>(
    alloc: Global,
    current: &mut Current,
    setting: &Setting<'a>,
    alone: bool,
    updates: &'a [Member],
) -> Result<(), NoMemory>
    ensures { OnOk result ((made : List TheCreated) (destroys : List (List ℕ)) (s : Progress)
        → AreMade setting.now.created made → AreDestroyed setting.now.destroyed made destroys
        → Updating current.old s → Updating current.new
        (after_updates (update_as alone made destroys) made s
        (map update_in (map member_of updates.now)))) }
{
    for update in updates {
        perform_update(alloc, current, setting, alone, update)?;
    }
    Ok(())
}

/// Performs updates: all together, or each by itself in their order if the result breaks a rule.
/// The creates before them have these edits.
pub fn perform_updates<'a, 'b>(
    alloc: Global,
    content: &'b Content,
    creates: &[Edit],
    setting: &Setting<'a>,
    updates: &'a [Member],
) -> Result<Current<'b>, NoMemory>
    ensures { IfOk result (λ p. (made : List TheCreated) (destroys : List (List ℕ))
        → AreMade setting.now.created made → AreDestroyed setting.now.destroyed made destroys
        → AllByRecursion PutsMailbox creates.now
        → Tracks p (after_mailbox_updates made destroys
        (before_steps (after_edits content.now.content creates.now))
        (map update_in (map member_of updates.now)))) }
{
    let mut together = start_current(alloc, content, creates)?;
    perform_each(alloc, &mut together, setting, false, updates)?;
    if are_rules_kept(&together) {
        return Ok(together);
    }
    let mut current = start_current(alloc, content, creates)?;
    perform_each(alloc, &mut current, setting, true, updates)?;
    Ok(current)
}
