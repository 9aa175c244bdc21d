// The plan of a Mailbox/set (RFC 8620, section 5.3; RFC 8621, section 2.5).
ghost use Rattle.std.specs.List.{AllByRecursion};
ghost use Rattle.std.specs.Prelude.{IfErr, IfOk, List, MatchResult, Some, length, map, ℕ, ◌++◌, ◌+◌, ◌<◌, ◌≡◌, ◌≤◌};
ghost use Rattle.jm_base.specs.declared.identifiers.TheConstants.{NUMBER_LIMIT};
ghost use Rattle.jm_json.specs.Json.{member_of, tree_of};
ghost use Rattle.jm_json.specs.declared.invocation.Created.{Created as TheCreated};
ghost use Rattle.mail_records.specs.Contents.{AreNumbered, AreTables};
ghost use Rattle.mail_records.specs.Edits.{after_edits};
ghost use Rattle.mail_records.specs.Histories.{max_position};
ghost use Rattle.mail_records.specs.declared.records.Summary.{Summary};
ghost use Rattle.mail_counts.specs.CountsFlag.{AreCountsFlagsRight};
ghost use Rattle.mail_counts.specs.Plans.{present_state};
ghost use Rattle.mail_counts.specs.Tidy.{IsTidy};
ghost use Rattle.plan_promises.specs.Planned.{IsPlanned};
ghost use Rattle.state_log.specs.Logs.{log_end};
ghost use Rattle.set_parts.specs.Arguments.{count_objects, creates_in, update_in};
ghost use Rattle.set_parts.specs.Outcomes.{ExplainsSet, ground_of, outcome_of_members, plan_of, planned};
ghost use Rattle.set_parts.specs.Responses.{HasNewState};
ghost use Rattle.set_parts.specs.Steps.{after_destroys, before_steps};
ghost use Rattle.set_parts.specs.Views.{AreDestroyed, AreMade, create_of};
ghost use Rattle.set_parts.specs.Creates.{Creating, before_creates};
ghost use Rattle.mailbox_set.specs.Destroys.{destroy_mailbox};
ghost use Rattle.mailbox_creates.specs.Rounds.{after_creates};
ghost use Rattle.mailbox_set.specs.Sets.{mailbox_set_forms, mailbox_set_outcome, plan_in, steps_after};
ghost use Rattle.mailbox_updates.specs.Updates.{after_mailbox_updates};
ghost use Rattle.mailbox_updates.specs.Views.{PutsMailbox};
ghost use Rattle.mailbox_creates.specs.Views.{Follows};
ghost use Rattle.mailbox_set.specs.Views.{IsStepsOf};

use crate::arguments::{check_arguments, read_removes_emails};
use crate::destroys::perform_destroys;
use jm_base::{Kind, NoMemory, Text};
use jm_json::{Created, Json, Made, Member, Members};
use mail_counts::{SetFault, SetPlan};
use mail_records::{Content, Edit, Edits};
use mailbox_creates::{Planner, do_creates, start_planner};
use mailbox_updates::{Current, Setting, collect_all_created, perform_updates};
use set_parts::{
    Reported, SentCreate, collect_destroyed, count_objects, finish_plan, read_account_id,
    read_creates, read_destroys, read_updates,
};
use state_log::Log;
use std::alloc::Global;

/// The updates and destroys of a set: what is reported of them, and their edits, without the edits
/// of threads and counts that follow.
#[derive(Drop)]
pub struct Steps {
    pub reported: Reported,
    pub edits: Edits,
}

// Returns the planner after all creates.
fn perform_creates<'a>(
    alloc: Global,
    content: &'a Content,
    made: &'a Made,
    creates: Vec<SentCreate<'a>>,
) -> Result<Planner<'a>, NoMemory>
    requires room { content.now.content.next_mailbox + length creates.items < NUMBER_LIMIT }
    ensures { IfOk result
        (λ p. Follows p
        (after_creates (before_creates content.now.content made.now)
        (map create_of creates.entry.items))) }
{
    let mut planner = start_planner(alloc, content, made.as_slice())?;
    do_creates(alloc, &mut planner, creates)?;
    Ok(planner)
}

// Performs the updates and destroys of a set, after its creates, whose edits are these.
fn perform_steps<'a>(
    alloc: Global,
    content: &Content,
    creates: &[Edit],
    setting: &Setting<'a>,
    updates: &'a [Member],
    destroys: &[&'a str],
) -> Result<Steps, NoMemory>
    ensures { IfOk result (λ x. (made : List TheCreated) → AreMade setting.now.created made
        → AreDestroyed setting.now.destroyed made (map (λ d. d.now) destroys.now)
        → AllByRecursion PutsMailbox creates.now
        → IsStepsOf x (after_destroys (destroy_mailbox made setting.now.removes_emails) made
        (after_mailbox_updates made (map (λ d. d.now) destroys.now)
        (before_steps (after_edits content.now.content creates.now))
        (map update_in (map member_of updates.now)))
        (map (λ d. d.now) destroys.now))) }
{
    let mut current = perform_updates(alloc, content, creates, setting, updates)?;
    perform_destroys(alloc, &mut current, setting, destroys)?;
    let Current {
        content: _,
        changed: _changed,
        destroyed: _destroyed,
        count: _,
        edits,
        reported,
    } = current;
    Ok(Steps {
        reported,
        edits: Edits::from_vec(edits),
    })
}

// Performs the updates and destroys of a set with these arguments, after its creates, which created
// this and whose edits are these.
fn perform_after_creates<'a>(
    alloc: Global,
    content: &Content,
    made: &'a [Created],
    fresh: &'a [Created],
    creates: &[Edit],
    members: &'a Members,
) -> Result<Steps, NoMemory>
    ensures { IfOk result (λ x. (p : Creating) → p.made ≡ made.now ++ fresh.now
        → p.content ≡ after_edits content.now.content creates.now
        → AllByRecursion PutsMailbox creates.now → IsStepsOf x (steps_after p members.now)) }
{
    let destroys = read_destroys(alloc, members)?;
    let created = collect_all_created(alloc, made, fresh)?;
    let destroyed = collect_destroyed(alloc, &created.texts, &destroys)?;
    let removes_emails = read_removes_emails(members);
    let setting = Setting {
        created,
        destroyed,
        removes_emails,
    };
    let updates = read_updates(members);
    perform_steps(alloc, content, creates, &setting, updates, &destroys)
}

// Plans the creates and steps of a set that is not rejected as a whole.
fn plan_objects<'a>(
    alloc: Global,
    content: &'a Content,
    log: &Log,
    members: &'a Members,
    made: &'a Made,
    creates: Vec<SentCreate<'a>>,
) -> Result<SetPlan, NoMemory>
    requires room { content.now.content.next_mailbox + length creates.items < NUMBER_LIMIT }
    requires last { log_end log.now ≤ max_position }
    requires creates { map create_of creates.items ≡ creates_in members.now }
    ensures { IfOk result (λ x. plan_of x
        ≡ plan_in (ground_of content.now.content log.now) made.now members.now) }
{
    let planner = perform_creates(alloc, content, made, creates)?;
    let before = made.as_slice();
    let fresh = planner.creates.fresh.as_slice();
    let edits = planner.creates.edits.as_slice();
    let steps = perform_after_creates(alloc, content, before, fresh, edits, members)?;
    let Planner {
        content: _,
        next: _,
        names: _names,
        roles: _roles,
        creates,
    } = planner;
    let Steps { reported, edits } = steps;
    finish_plan(
        alloc,
        Kind::Mailbox,
        read_account_id(members),
        content,
        log,
        creates,
        reported,
        edits,
    )
}

fn plan_members<'a>(
    alloc: Global,
    content: &'a Content,
    log: &Log,
    members: &'a Members,
    made: &'a Made,
) -> Result<SetPlan, SetFault>
    requires next { content.now.content.next_mailbox ≤ max_position }
    requires last { log_end log.now ≤ max_position }
    ensures { MatchResult result
        (λ x. outcome_of_members mailbox_set_forms count_objects
        (present_state Kind.Mailbox (ground_of content.now.content log.now))
        (plan_in (ground_of content.now.content log.now) made.now) (Some members.now)
        ≡ planned (plan_of x))
        (λ e. ExplainsSet e (outcome_of_members mailbox_set_forms count_objects
        (present_state Kind.Mailbox (ground_of content.now.content log.now))
        (plan_in (ground_of content.now.content log.now) made.now) (Some members.now))) }
{
    let creates = read_creates(alloc, members, "create")?;
    let destroys = read_destroys(alloc, members)?;
    let objects = count_objects(members, creates.as_slice(), destroys.as_slice());
    check_arguments(alloc, members, objects, log.state_of(Kind::Mailbox))?;
    Ok(plan_objects(alloc, content, log, members, made, creates)?)
}

fn plan<'a>(
    alloc: Global,
    content: &'a Content,
    log: &Log,
    args: &'a Json,
    made: &'a Made,
) -> Result<SetPlan, SetFault>
    requires next { content.now.content.next_mailbox ≤ max_position }
    requires last { log_end log.now ≤ max_position }
    ensures { MatchResult result
        (λ x. mailbox_set_outcome (ground_of content.now.content log.now) (tree_of args.now)
        made.now ≡ planned (plan_of x))
        (λ e. ExplainsSet e
        (mailbox_set_outcome (ground_of content.now.content log.now) (tree_of args.now)
        made.now)) }
{
    match args.as_object() {
        Some(members) => plan_members(alloc, content, log, members, made),
        None => Err(SetFault::Invalid(Text::from_str(alloc, "")?)),
    }
}

/// Returns the plan of a Mailbox/set with these arguments, for a user who may write the account.
/// `content` and `log` are of one history, and `made` is what the request has created up to here.
///
/// The arguments are `accountId`, `create`, `destroy`, `ifInState`, `onDestroyRemoveEmails` and
/// `update`. Fails with `Invalid` and the name of the first argument in byte order that is missing
/// or does not have its form (the empty name if `args` is no object), with `TooLarge` if the
/// creates, updates and destroys together are more than [`MAX_OBJECTS_PER_CALL`], and with
/// `StateMismatch` if `ifInState` is not the text of the mailboxes' state. The first fault in this
/// order is returned, and nothing is changed.
///
/// Creates are performed in rounds, in each the first one in byte order whose `parentId` refers to
/// no create or to one that was performed. One with invalid properties is reported in `notCreated`,
/// and creates nothing. Then updates are performed: all together, or each by itself in byte order
/// of the keys if a mailbox would break a rule. One that is rejected is reported in `notUpdated`,
/// with `notFound`, `willDestroy`, `invalidPatch` or `invalidProperties`. Then destroys are
/// performed in the order of their list; `#k` means what was created last under k. One that is
/// rejected is reported in `notDestroyed` with the first of these reasons, and changes nothing:
/// `notFound`, `mailboxHasChild`, and `mailboxHasEmail` unless `onDestroyRemoveEmails` is true. If
/// it is, the emails of the mailbox lose it, and one that is in no other mailbox is dropped. The
/// edits of threads and counts follow. All edits fit a tidy account and leave it tidy, and an email
/// that is put differs from the one there in mailboxes alone.
///
/// A call costs what it creates, updates and destroys, with the emails of the mailboxes that it
/// destroys: neither the mailboxes of the account nor its emails are copied or counted.
///
/// [`MAX_OBJECTS_PER_CALL`]: method_args::MAX_OBJECTS_PER_CALL
pub fn plan_mailbox_set(
    alloc: Global,
    content: &Content,
    log: &Log,
    args: &Json,
    made: &Made,
) -> Result<SetPlan, SetFault>
    requires next { content.now.content.next_mailbox ≤ max_position }
    requires last { log_end log.now ≤ max_position }
    ensures outcome { IfOk result
        (λ p. mailbox_set_outcome (ground_of content.now.content log.now) (tree_of args.now)
        made.now ≡ planned (plan_of p)) }
    ensures fault { IfErr result
        (λ e. ExplainsSet e
        (mailbox_set_outcome (ground_of content.now.content log.now) (tree_of args.now)
        made.now)) }
    ensures promises { IfOk result
        (λ p. (summary : List ℕ → Summary) (blobs : List (List ℕ)) → IsTidy content.now.content
        → IsPlanned summary blobs content.now.content p.edits) }
    ensures flags { IfOk result
        (λ p. AreTables content.now.content → AreNumbered content.now.content
        → AreCountsFlagsRight content.now.content p.edits) }
    ensures new_state { IfOk result
        (λ p. HasNewState Kind.Mailbox (ground_of content.now.content log.now) (tree_of p.reply)
        p.edits) }
{
    plan(alloc, content, log, args, made)
}
