// The plan of an Email/set (RFC 8620, section 5.3; RFC 8621, section 4.6).
ghost use Rattle.std.specs.Prelude.{◌≡◌, ◌≤◌, ℕ, IfErr, IfOk, List, MatchResult, None, Some, map};
ghost use Rattle.std.specs.List.{AllByRecursion};
ghost use Rattle.jm_json.specs.Json.{tree_of};
ghost use Rattle.jm_json.specs.declared.invocation.Created.{Created as TheCreated};
ghost use Rattle.mail_counts.specs.CountsFlag.{AreCountsFlagsRight};
ghost use Rattle.mail_counts.specs.Tidy.{IsTidy};
ghost use Rattle.mail_counts.specs.TidyBut.{IsTidyButThreadsAndCounts};
ghost use Rattle.mail_records.specs.Contents.{AreTables, Content as TheContent};
ghost use Rattle.mail_records.specs.Edits.{AllFit, after_edits};
ghost use Rattle.mail_records.specs.Histories.{max_position};
ghost use Rattle.mail_records.specs.declared.records.Summary.{Summary};
ghost use Rattle.plan_promises.specs.Planned.{AllKeepMessages, IsPlanned};
ghost use Rattle.set_parts.specs.Arguments.{creates_in, destroys_in};
ghost use Rattle.set_parts.specs.Creates.{after_creates, before_creates};
ghost use Rattle.set_parts.specs.CreatesViews.{KeepUp};
ghost use Rattle.set_parts.specs.Outcomes.{ExplainsSet, ground_of, plan_of, planned};
ghost use Rattle.set_parts.specs.Responses.{HasNewState};
ghost use Rattle.set_parts.specs.Views.{AreMade, create_of};
ghost use Rattle.state_log.specs.Logs.{log_end};
ghost use Rattle.email_set.specs.Plans.{KeepTidyBut, create_email, email_set_outcome, outcome_in, plan_in, steps_after, steps_of};
ghost use Rattle.email_set.specs.Views.{IsOfEmail, IsStepsOf};

use crate::planner::{enter_edits, start_planner};
use crate::steps::{Setting, Steps, perform_steps};
use jm_base::{Kind, NoMemory, Text};
use jm_json::{Created, Json, Made, Members};
use mail_counts::{SetFault, SetPlan};
use mail_records::{Content, Edits};
use set_parts::{
    CreateStep, CreatedRecords, Creates, SentCreate, SetError, check_set, collect_created,
    collect_destroyed, count_objects, enter_create, finish_plan, read_account_id, read_creates,
    read_destroys, read_updates, start_creates,
};
use state_log::Log;
use std::alloc::Global;

// Performs the creates of a set, none of which it may make.
fn perform_creates<'a>(
    alloc: Global,
    made: &'a [Created],
    creates: &[SentCreate<'a>],
) -> Result<Creates<'a>, NoMemory>
    ensures { IfOk result (λ p. (c : TheContent) → KeepUp p
        (after_creates create_email (before_creates c made.now) (map create_of creates.now))) }
{
    let mut performed = start_creates(alloc, made)?;
    for create in creates {
        let step = CreateStep::Rejected(SetError::Forbidden);
        enter_create(alloc, &mut performed, create.creation, step)?;
    }
    Ok(performed)
}

fn perform_all<'a>(
    alloc: Global,
    content: &'a Content,
    members: &'a Members,
    made: &'a Made,
    destroys: &[&'a str],
) -> Result<Steps, NoMemory>
    requires { map (λ d. d.now) destroys.now ≡ destroys_in members.now }
    ensures { IfOk result (λ p. IsStepsOf p (steps_of content.now.content made.now members.now)) }
{
    let created = collect_created(alloc, made.as_slice())?;
    let destroyed = collect_destroyed(alloc, &created.texts, destroys)?;
    let setting = Setting {
        content,
        created,
        destroyed,
    };
    let planner = start_planner(alloc, content);
    perform_steps(alloc, &setting, planner, read_updates(members), destroys)
}

// Performs the updates and destroys of a set after these edits of emails.
fn perform_after<'a>(
    alloc: Global,
    content: &'a Content,
    first: Edits,
    created: CreatedRecords<'a>,
    members: &'a Members,
    destroys: &[&'a str],
) -> Result<Steps, NoMemory>
    requires destroys { map (λ d. d.now) destroys.now ≡ destroys_in members.now }
    requires first { AllByRecursion IsOfEmail first }
    ensures { IfOk result (λ p. (made : List TheCreated) → AreMade created.entry made
        → IsStepsOf p (steps_after content.now.content first made members.now)) }
{
    let destroyed = collect_destroyed(alloc, &created.texts, destroys)?;
    let setting = Setting {
        content,
        created,
        destroyed,
    };
    let mut planner = start_planner(alloc, content);
    enter_edits(&mut planner, first)?;
    perform_steps(alloc, &setting, planner, read_updates(members), destroys)
}

/// Returns the updates and destroys of a set with these arguments, of which these are the destroys,
/// after edits of emails that were made before them, as the creates of the set make them. `created`
/// is what the request has created, with the creates of the set.
///
/// The edits that were made come first in the result; they are moved. Where these fit, keep
/// tidiness but for threads and counts, or keep messages, all edits do, over a content that they
/// leave tidy but for threads and counts. A call costs what it updates and destroys, and what was
/// edited: the emails of the account are not copied.
pub fn plan_steps_after<'a>(
    alloc: Global,
    content: &'a Content,
    first: Edits,
    created: CreatedRecords<'a>,
    members: &'a Members,
    destroys: &[&'a str],
) -> Result<Steps, NoMemory>
    requires destroys { map (λ d. d.now) destroys.now ≡ destroys_in members.now }
    requires first { AllByRecursion IsOfEmail first }
    ensures steps { IfOk result (λ p. (made : List TheCreated) → AreMade created.entry made
        → IsStepsOf p (steps_after content.now.content first made members.now)) }
    ensures fits { IfOk result (λ p. (made : List TheCreated) → AreMade created.entry made
        → IsTidyButThreadsAndCounts (after_edits content.now.content first)
        → AllFit content.now.content first → AllFit content.now.content p.edits) }
    ensures tidy { IfOk result (λ p. (made : List TheCreated) → AreMade created.entry made
        → IsTidyButThreadsAndCounts (after_edits content.now.content first)
        → KeepTidyBut content.now.content first → KeepTidyBut content.now.content p.edits) }
    ensures kept { IfOk result (λ p. (made : List TheCreated) → AreMade created.entry made
        → IsTidyButThreadsAndCounts (after_edits content.now.content first)
        → AllKeepMessages content.now.content first → AllKeepMessages content.now.content p.edits) }
{
    perform_after(alloc, content, first, created, members, destroys)
}

/// Returns the updates and destroys of a set with these arguments, of which these are the destroys.
/// Over a content that is tidy but for threads and counts the edits fit, each of them leaves it so,
/// and an email that is put differs from the one there in mailboxes and keywords alone.
pub fn plan_steps<'a>(
    alloc: Global,
    content: &'a Content,
    members: &'a Members,
    made: &'a Made,
    destroys: &[&'a str],
) -> Result<Steps, NoMemory>
    requires { map (λ d. d.now) destroys.now ≡ destroys_in members.now }
    ensures steps { IfOk result
        (λ p. IsStepsOf p (steps_of content.now.content made.now members.now)) }
    ensures fits { IfOk result (λ p. IsTidyButThreadsAndCounts content.now.content
        → AllFit content.now.content p.edits) }
    ensures tidy { IfOk result (λ p. IsTidyButThreadsAndCounts content.now.content
        → KeepTidyBut content.now.content p.edits) }
    ensures kept { IfOk result (λ p. IsTidyButThreadsAndCounts content.now.content
        → AllKeepMessages content.now.content p.edits) }
{
    perform_all(alloc, content, members, made, destroys)
}

// Returns the plan of a set with these arguments, which is not rejected as a whole.
fn plan_accepted<'a>(
    alloc: Global,
    content: &'a Content,
    log: &Log,
    members: &'a Members,
    made: &'a Made,
    creates: &[SentCreate<'a>],
    destroys: &[&'a str],
) -> Result<SetPlan, NoMemory>
    requires last { log_end log.now ≤ max_position }
    requires creates { map create_of creates.now ≡ creates_in members.now }
    requires destroys { map (λ d. d.now) destroys.now ≡ destroys_in members.now }
    ensures { IfOk result (λ p. plan_of p
        ≡ plan_in (ground_of content.now.content log.now) made.now members.now) }
{
    let creates = perform_creates(alloc, made.as_slice(), creates)?;
    let steps = plan_steps(alloc, content, members, made, destroys)?;
    let Steps { reported, edits } = steps;
    let account = read_account_id(members);
    finish_plan(
        alloc,
        Kind::Email,
        account,
        content,
        log,
        creates,
        reported,
        edits,
    )
}

fn plan_members<'a>(
    alloc: Global,
    content: &'a Content,
    log: &Log,
    members: &'a Members,
    made: &'a Made,
) -> Result<SetPlan, SetFault>
    requires last { log_end log.now ≤ max_position }
    ensures { MatchResult result
        (λ p. outcome_in (ground_of content.now.content log.now) made.now (Some members.now)
        ≡ planned (plan_of p))
        (λ e. ExplainsSet e
        (outcome_in (ground_of content.now.content log.now) made.now (Some members.now))) }
{
    let creates = read_creates(alloc, members, "create")?;
    let destroys = read_destroys(alloc, members)?;
    let objects = count_objects(members, creates.as_slice(), destroys.as_slice());
    check_set(alloc, &[], members, objects, log.state_of(Kind::Email))?;
    let plan = plan_accepted(
        alloc,
        content,
        log,
        members,
        made,
        creates.as_slice(),
        destroys.as_slice(),
    )?;
    Ok(plan)
}

fn plan(
    alloc: Global,
    content: &Content,
    log: &Log,
    args: &Json,
    made: &Made,
) -> Result<SetPlan, SetFault>
    requires last { log_end log.now ≤ max_position }
    ensures { MatchResult result
        (λ p. email_set_outcome (ground_of content.now.content log.now) (tree_of args.now) made.now
        ≡ planned (plan_of p))
        (λ e. ExplainsSet e
        (email_set_outcome (ground_of content.now.content log.now) (tree_of args.now) made.now)) }
{
    match args.as_object() {
        Some(members) => plan_members(alloc, content, log, members, made),
        None => Err(SetFault::Invalid(Text::from_str(alloc, "")?)),
    }
}

/// Returns the plan of an Email/set with these arguments, for a user who may write the account.
/// `content` and `log` are of one history, and `made` is what the request has created up to here.
///
/// The arguments are `accountId`, `create`, `destroy`, `ifInState` and `update`; others are
/// ignored. Fails with `Invalid` and the name of the first argument in byte order that is missing
/// or does not have its form (the empty name if `args` is no object), with `TooLarge` if the
/// creates, updates and destroys together are more than [`MAX_OBJECTS_PER_CALL`], and with
/// `StateMismatch` if `ifInState` is not the text of the emails' state. The first fault in this
/// order is returned, and nothing is changed.
///
/// Each create is reported as `forbidden`: emails are created by imports and copies. Updates are
/// performed in byte order of their ids as they were sent, then destroys in the order of their
/// list; `#k` means what was created last under k. An object that is rejected is reported in
/// `notUpdated` or `notDestroyed` with the first of these reasons, and changes nothing: `notFound`,
/// `willDestroy`, then those of [`refile`]. The edits put and drop emails, and then the threads and
/// the mailboxes that change with them. They fit a tidy account and leave it tidy, and an email
/// that is put differs from the one there in mailboxes and keywords alone.
///
/// A call costs what it updates and destroys: neither the emails of the account nor its mailboxes
/// are copied or counted.
///
/// [`refile`]: crate::refile
/// [`MAX_OBJECTS_PER_CALL`]: method_args::MAX_OBJECTS_PER_CALL
pub fn plan_email_set(
    alloc: Global,
    content: &Content,
    log: &Log,
    args: &Json,
    made: &Made,
) -> Result<SetPlan, SetFault>
    requires last { log_end log.now ≤ max_position }
    ensures outcome { IfOk result
        (λ p. email_set_outcome (ground_of content.now.content log.now) (tree_of args.now) made.now
        ≡ planned (plan_of p)) }
    ensures fault { IfErr result
        (λ e. ExplainsSet e
        (email_set_outcome (ground_of content.now.content log.now) (tree_of args.now) made.now)) }
    ensures promises { IfOk result
        (λ p. (summary : List ℕ → Summary) (blobs : List (List ℕ)) → IsTidy content.now.content
        → IsPlanned summary blobs content.now.content p.edits) }
    ensures flags { IfOk result
        (λ p. AreTables content.now.content
        → AreCountsFlagsRight content.now.content p.edits) }
    ensures new_state { IfOk result
        (λ p. HasNewState Kind.Email (ground_of content.now.content log.now) (tree_of p.reply)
        p.edits) }
{
    plan(alloc, content, log, args, made)
}
