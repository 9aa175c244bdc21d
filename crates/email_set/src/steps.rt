// The updates and destroys of emails (RFC 8620, section 5.3; RFC 8621, section 4.6).
ghost use Rattle.std.specs.Prelude.{◌≡◌, ◌<◌, [], ℕ, IfOk, List, OnOk, Some, length, map, option_map, slice_index_or};
ghost use Rattle.jm_json.specs.Json.{member_of};
ghost use Rattle.jm_json.specs.declared.invocation.Created.{Created as TheCreated};
ghost use Rattle.mail_counts.specs.DerivedEdits.{same_numbers};
ghost use Rattle.mail_records.specs.Contents.{Content as TheContent};
ghost use Rattle.set_parts.specs.Arguments.{update_in};
ghost use Rattle.set_parts.specs.CreationIds.{reported_id};
ghost use Rattle.set_parts.specs.Steps.{Progress, after_destroy, after_destroys, after_update, after_updates, is_destroyed};
ghost use Rattle.set_parts.specs.Views.{AreDestroyed, AreMade};
ghost use Rattle.email_set.specs.Emails.{after_steps, destroy_email, destroy_of, email_meant, email_named, filing_of, is_same_filing, same_texts, step_to, update_email, update_of, with_filing};
ghost use Rattle.email_set.specs.Views.{Follows, IsEmailStep, IsStepsOf, MeansEmail};

use crate::filing::{Filing, Refiled};
use crate::patches::refile_lent;
use crate::planner::{Planner, enter_edits, find_email};
use jm_base::{Kind, NoMemory, Text, read_id};
use jm_json::Member;
use mail_records::{Content, Edit, Edits, Email, Record};
use set_parts::{
    CreatedRecords, Reported, SetError, Step, TextSet, find_identifier, find_reported_id, has_text,
};
use std::alloc::Global;

/// The updates and destroys of a set: what is reported of them, and their edits, without the edits
/// of threads and counts that follow.
#[derive(Drop)]
pub struct Steps {
    pub reported: Reported,
    pub edits: Edits,
}

/// What updates and destroys are performed on: the content of the account before the set, what the
/// request has created, and the ids that the set destroys.
#[derive(Drop)]
pub struct Setting<'a> {
    pub content: &'a Content,
    pub created: CreatedRecords<'a>,
    pub destroyed: TextSet<'a>,
}

// ---- the email that is meant

fn read_email_number(text: &str) -> Option<u64>
    ensures { MeansEmail text.now result }
{
    match read_id(text.as_bytes()) {
        Ok(id) => match id.kind {
            Kind::Email => Some(id.number),
            Kind::Mailbox => None,
            Kind::Thread => None,
        },
        Err(_) => None,
    }
}

// Returns the email that an identifier names, as the edits up to here leave it.
fn find_named<'b>(content: &'b Content, planner: &'b Planner, id: &str) -> Option<&'b Email>
    ensures { (s : Progress) → Follows content.now.content planner.now s
        → option_map (λ r. r.now) result ≡ email_named s.content.emails id.now }
{
    match read_email_number(id) {
        Some(number) => find_email(content, planner, number),
        None => None,
    }
}

// Returns the email that a string means, as the edits up to here leave it.
fn find_meant<'a, 'b>(
    setting: &'b Setting<'a>,
    planner: &'b Planner,
    id: &'a str,
) -> Option<&'b Email>
    ensures { (made : List TheCreated) (s : Progress) → AreMade setting.now.created made
        → Follows setting.now.content.now.content planner.now s
        → option_map (λ r. r.now) result ≡ email_meant made s.content id.now }
{
    match find_identifier(&setting.created.texts, id) {
        Some(text) => find_named(setting.content, planner, text),
        None => None,
    }
}

// ---- an update

fn are_same_numbers(left: &[u64], right: &[u64]) -> bool
    ensures { result ≡ same_numbers left.now right.now }
{
    left == right
}

fn are_same_texts(left: &[Text], right: &[Text]) -> bool
    ensures { result ≡ same_texts left.now right.now }
{
    left == right
}

fn is_same_filing(email: &Email, filing: &Filing) -> bool
    ensures { result ≡ is_same_filing (filing_of email.now) filing.now }
{
    are_same_numbers(email.mailboxes.as_slice(), filing.mailboxes.as_slice())
        && are_same_texts(email.keywords.as_slice(), filing.keywords.as_slice())
}

// Builds the email with these mailboxes and keywords in place of its own.
fn build_refiled(alloc: Global, email: &Email, filing: Filing) -> Result<Email, NoMemory>
    ensures { IfOk result (λ e. e ≡ with_filing filing email.now) }
{
    let Filing {
        mailboxes,
        keywords,
    } = filing;
    let summary = email.summary.copy(alloc)?;
    Ok(Email {
        number: email.number,
        thread: email.thread,
        blob: email.blob,
        mailboxes,
        keywords,
        size: email.size,
        received: email.received,
        summary,
    })
}

fn file_email(alloc: Global, email: &Email, filing: Filing) -> Result<Step, NoMemory>
    ensures { IfOk result (λ step. step ≡ step_to email.now (Refiled.Filed filing)) }
{
    let mut edits = Edits::new(alloc);
    if !is_same_filing(email, &filing) {
        let item = build_refiled(alloc, email, filing)?;
        edits.push(Edit::PutEmail { item, was: true })?;
    }
    Ok(Step::Done(edits))
}

// Returns whether the set also destroys what a string means.
fn is_destroyed<'a>(setting: &Setting<'a>, id: &'a str) -> bool
    ensures { (made : List TheCreated) (destroys : List (List ℕ)) → AreMade setting.now.created made
        → AreDestroyed setting.now.destroyed made destroys
        → result ≡ is_destroyed made destroys id.now }
{
    has_text(
        &setting.destroyed,
        None,
        find_reported_id(&setting.created.texts, id),
    )
}

// Returns what comes of the update of an email that is there.
fn update_found<'a>(
    alloc: Global,
    setting: &Setting<'a>,
    email: &Email,
    member: &'a Member,
) -> Result<Step, NoMemory>
    ensures { IfOk result (λ step. (made : List TheCreated) (destroys : List (List ℕ))
        → AreMade setting.now.created made → AreDestroyed setting.now.destroyed made destroys
        → step ≡ update_of made destroys setting.now.content.now.content
        (update_in (member_of member.now)) (Some email.now)) }
{
    if is_destroyed(setting, member.name.as_str()) {
        return Ok(Step::Rejected(SetError::WillDestroy));
    }
    match refile_lent(
        alloc,
        setting.content,
        &setting.created,
        email.mailboxes.as_slice(),
        email.keywords.as_slice(),
        &member.value,
    )? {
        Refiled::Rejected(error) => Ok(Step::Rejected(error)),
        Refiled::Filed(filing) => file_email(alloc, email, filing),
    }
}

// Returns what comes of an update after those before it.
fn update_email<'a>(
    alloc: Global,
    setting: &Setting<'a>,
    planner: &Planner,
    member: &'a Member,
) -> Result<Step, NoMemory>
    ensures { IfOk result (λ step. (made : List TheCreated) (destroys : List (List ℕ))
        (s : Progress) → AreMade setting.now.created made
        → AreDestroyed setting.now.destroyed made destroys
        → Follows setting.now.content.now.content planner.now s
        → step ≡ update_email made destroys s.content (update_in (member_of member.now))) }
{
    match find_meant(setting, planner, member.name.as_str()) {
        Some(email) => update_found(alloc, setting, email, member),
        None => Ok(Step::Rejected(SetError::NotFound)),
    }
}

// Enters what comes of an update that is reported under this id.
fn enter_update(alloc: Global, planner: &mut Planner, id: &str, step: Step) -> Result<(), NoMemory>
    ensures { OnOk result ((c : TheContent) (s : Progress) → Follows c planner.old s
        → IsEmailStep step → Follows c planner.new (after_update id.now s step)) }
{
    match step {
        Step::Rejected(error) => planner.reported.note_not_updated(alloc, id, error),
        Step::Done(edits) => {
            planner.reported.note_updated(alloc, id)?;
            enter_edits(planner, edits)
        }
    }
}

// Performs updates, one after the other.
fn perform_updates<'a>(
    alloc: Global,
    setting: &Setting<'a>,
    planner: &mut Planner,
    updates: &'a [Member],
) -> Result<(), NoMemory>
    ensures { OnOk result ((made : List TheCreated) (destroys : List (List ℕ)) (s : Progress)
        → AreMade setting.now.created made → AreDestroyed setting.now.destroyed made destroys
        → Follows setting.now.content.now.content planner.old s
        → Follows setting.now.content.now.content planner.new
        (after_updates (update_email made destroys) made s
        (map update_in (map member_of updates.now)))) }
{
    for update in updates {
        let step = update_email(alloc, setting, planner, update)?;
        let id = find_reported_id(&setting.created.texts, update.name.as_str());
        enter_update(alloc, planner, id, step)?;
    }
    Ok(())
}

// ---- a destroy

fn destroy_found(alloc: Global, email: &Email) -> Result<Step, NoMemory>
    ensures { IfOk result (λ step. step ≡ destroy_of (Some email.now)) }
{
    let mut edits = Edits::new(alloc);
    edits.push(Edit::DropEmail {
        number: email.number,
        thread: email.thread,
    })?;
    Ok(Step::Done(edits))
}

// Returns what comes of a destroy after the updates and the destroys before it.
fn destroy_email<'a>(
    alloc: Global,
    setting: &Setting<'a>,
    planner: &Planner,
    id: &'a str,
) -> Result<Step, NoMemory>
    ensures { IfOk result (λ step. (made : List TheCreated) (s : Progress)
        → AreMade setting.now.created made → Follows setting.now.content.now.content planner.now s
        → step ≡ destroy_email made s.content id.now) }
{
    match find_meant(setting, planner, id) {
        Some(email) => destroy_found(alloc, email),
        None => Ok(Step::Rejected(SetError::NotFound)),
    }
}

// Enters what comes of a destroy that is reported under this id.
fn enter_destroy(alloc: Global, planner: &mut Planner, id: &str, step: Step) -> Result<(), NoMemory>
    ensures { OnOk result ((c : TheContent) (s : Progress) → Follows c planner.old s
        → IsEmailStep step → Follows c planner.new (after_destroy id.now s step)) }
{
    match step {
        Step::Rejected(error) => planner.reported.note_not_destroyed(alloc, id, error),
        Step::Done(edits) => {
            planner.reported.note_destroyed(alloc, id)?;
            enter_edits(planner, edits)
        }
    }
}

// Performs a destroy after the updates and the destroys before it.
fn perform_destroy<'a>(
    alloc: Global,
    setting: &Setting<'a>,
    planner: &mut Planner,
    id: &'a str,
) -> Result<(), NoMemory>
    ensures { OnOk result ((made : List TheCreated) (s : Progress)
        → AreMade setting.now.created made
        → Follows setting.now.content.now.content planner.old s
        → Follows setting.now.content.now.content planner.new
        (after_destroy (reported_id made id.now) s (destroy_email made s.content id.now))) }
{
    let step = destroy_email(alloc, setting, planner, id)?;
    let reported = find_reported_id(&setting.created.texts, id);
    enter_destroy(alloc, planner, reported, step)
}

// Returns the destroy at an index.
fn read_destroy<'a>(destroys: &[&'a str], index: usize) -> &'a str
    requires { index < length destroys.now }
    ensures { result.now ≡ slice_index_or (map (λ d. d.now) destroys.now) index [] }
{
    destroys[index]
}

// Performs destroys, one after the other.
fn perform_destroys<'a>(
    alloc: Global,
    setting: &Setting<'a>,
    planner: &mut Planner,
    destroys: &[&'a str],
) -> Result<(), NoMemory>
    ensures { OnOk result ((made : List TheCreated) (s : Progress)
        → AreMade setting.now.created made
        → Follows setting.now.content.now.content planner.old s
        → Follows setting.now.content.now.content planner.new
        (after_destroys (destroy_email made) made s (map (λ d. d.now) destroys.now))) }
{
    for i in 0..destroys.len() {
        let id = read_destroy(destroys, i);
        perform_destroy(alloc, setting, planner, id)?;
    }
    Ok(())
}

// ---- all of them

// Returns the steps that a planner has come to.
fn finish_steps(planner: Planner) -> Steps
    ensures { (c : TheContent) (s : Progress) → Follows c planner s → IsStepsOf result s }
{
    let Planner {
        edits,
        last: _last,
        reported,
    } = planner;
    Steps {
        reported,
        edits: Edits::from_vec(edits),
    }
}

/// Performs the updates of a set, in byte order of their ids as they were sent, and then its
/// destroys, in the order of their list, after what the planner has done. The edits are those of
/// emails alone: those of threads and counts follow from them.
pub fn perform_steps<'a>(
    alloc: Global,
    setting: &Setting<'a>,
    planner: Planner,
    updates: &'a [Member],
    destroys: &[&'a str],
) -> Result<Steps, NoMemory>
    ensures { IfOk result (λ p. (made : List TheCreated) (s : Progress)
        → AreMade setting.now.created made
        → AreDestroyed setting.now.destroyed made (map (λ d. d.now) destroys.now)
        → Follows setting.now.content.now.content planner s
        → IsStepsOf p (after_steps s made (map update_in (map member_of updates.now))
        (map (λ d. d.now) destroys.now))) }
{
    let mut planner = planner;
    perform_updates(alloc, setting, &mut planner, updates)?;
    perform_destroys(alloc, setting, &mut planner, destroys)?;
    Ok(finish_steps(planner))
}
