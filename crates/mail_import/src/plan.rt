// The plan of an Email/import (RFC 8621, section 4.8).
ghost use Rattle.std.specs.Prelude.{◌≡◌, ◌≤◌, ◌+◌, ◌^◌, ◌<◌, IfErr, IfOk, MatchResult, Some, length, map};
ghost use Rattle.jm_base.specs.declared.identifiers.TheConstants.{NUMBER_LIMIT};
ghost use Rattle.jm_json.specs.Json.{tree_of};
ghost use Rattle.mail_records.specs.Contents.{AreNumbered, AreTables};
ghost use Rattle.mail_records.specs.Histories.{blobs_of, content_of, max_position};
ghost use Rattle.mail_summary.specs.Summaries.{summary};
ghost use Rattle.mail_counts.specs.CountsFlag.{AreCountsFlagsRight};
ghost use Rattle.mail_counts.specs.Plans.{ground_of_history, present_state};
ghost use Rattle.mail_counts.specs.Tidy.{IsTidy};
ghost use Rattle.plan_promises.specs.Planned.{IsPlanned};
ghost use Rattle.state_log.specs.Logs.{log_end};
ghost use Rattle.account_book.specs.Accounts.{IsBounded};
ghost use Rattle.account_book.specs.Plans.{last_moment};
ghost use Rattle.set_parts.specs.Outcomes.{ExplainsSet, ground_of, outcome_of_members, plan_of, planned};
ghost use Rattle.set_parts.specs.Responses.{HasNewState};
ghost use Rattle.set_parts.specs.Views.{create_of};
ghost use Rattle.mail_import.specs.Arguments.{count_imports, forms};
ghost use Rattle.email_creates.specs.Plans.{beginning};
ghost use Rattle.email_creates.specs.Views.{Follows};
ghost use Rattle.mail_import.specs.Imports.{after_imports};
ghost use Rattle.mail_import.specs.Plans.{import_in, import_outcome, plan_in};

use crate::arguments::check_arguments;
use crate::import::perform_imports;
use account_book::Account;
use blob_store::BlobList;
use email_creates::{Accounts, Planner, Setting, finish_plan, start_planner};
use jm_base::{Kind, NoMemory, Text};
use jm_json::{Created, Json, Made, Members};
use mail_counts::{SetFault, SetPlan};
use mail_records::Content;
use set_parts::{SentCreate, read_account_id, read_creates};
use state_log::Log;
use std::alloc::Global;

// Returns the planner after all imports.
fn perform_all<'a>(
    alloc: Global,
    setting: &Setting<'a>,
    made: &'a [Created],
    imports: &[SentCreate<'a>],
) -> Result<Planner<'a>, NoMemory>
    requires numbered { AreNumbered setting.now.content.now.content }
    requires email { setting.now.content.now.content.next_email + length imports.now
        < NUMBER_LIMIT }
    requires thread { setting.now.content.now.content.next_thread + length imports.now
        < NUMBER_LIMIT }
    requires moment { setting.now.moment < 2 ^ 63 }
    ensures { IfOk result
        (λ p. Follows setting.now.content.now.content p
        (after_imports setting.now.blobs.now.blobs setting.now.moment
        (beginning setting.now.content.now.content made.now) (map create_of imports.now))) }
{
    let mut planner = start_planner(alloc, setting.content, made)?;
    perform_imports(alloc, setting, &mut planner, imports)?;
    Ok(planner)
}

// Plans a call with these arguments.
fn plan_members<'a>(
    alloc: Global,
    setting: &Setting<'a>,
    log: &Log,
    members: &'a Members,
    made: &'a Made,
) -> Result<SetPlan, SetFault>
    requires numbered { AreNumbered setting.now.content.now.content }
    requires email { setting.now.content.now.content.next_email ≤ max_position }
    requires thread { setting.now.content.now.content.next_thread ≤ max_position }
    requires last { log_end log.now ≤ max_position }
    requires moment { setting.now.moment < 2 ^ 63 }
    ensures { MatchResult result
        (λ p. outcome_of_members forms count_imports
        (present_state Kind.Email (ground_of setting.now.content.now.content log.now))
        (plan_in (ground_of setting.now.content.now.content log.now) setting.now.blobs.now.blobs
        made.now setting.now.moment) (Some members.now) ≡ planned (plan_of p))
        (λ e. ExplainsSet e
        (outcome_of_members forms count_imports
        (present_state Kind.Email (ground_of setting.now.content.now.content log.now))
        (plan_in (ground_of setting.now.content.now.content log.now) setting.now.blobs.now.blobs
        made.now setting.now.moment) (Some members.now))) }
{
    let imports = read_creates(alloc, members, "emails")?;
    check_arguments(alloc, members, imports.len(), log.state_of(Kind::Email))?;
    let planner = perform_all(alloc, setting, made.as_slice(), imports.as_slice())?;
    let accounts = Accounts {
        to: read_account_id(members),
        from: None,
    };
    Ok(finish_plan(alloc, accounts, setting.content, log, planner)?)
}

/// Returns the plan of an Email/import as [`plan_import`] does, over a content and a log of one
/// history and the blobs of the account.
pub fn import_emails(
    alloc: Global,
    content: &Content,
    log: &Log,
    blobs: &BlobList,
    args: &Json,
    made: &Made,
    moment: u64,
) -> Result<SetPlan, SetFault>
    requires numbered { AreNumbered content.now.content }
    requires email { content.now.content.next_email ≤ max_position }
    requires thread { content.now.content.next_thread ≤ max_position }
    requires last { log_end log.now ≤ max_position }
    requires moment { moment ≤ last_moment }
    ensures { MatchResult result
        (λ p. import_outcome (ground_of content.now.content log.now) blobs.now.blobs
        (tree_of args.now) made.now moment ≡ planned (plan_of p))
        (λ e. ExplainsSet e
        (import_outcome (ground_of content.now.content log.now) blobs.now.blobs
        (tree_of args.now) made.now moment)) }
{
    let setting = Setting {
        content,
        blobs,
        moment,
    };
    match args.as_object() {
        Some(members) => plan_members(alloc, &setting, log, members, made),
        None => Err(SetFault::Invalid(Text::from_str(alloc, "")?)),
    }
}

fn plan_over(
    alloc: Global,
    account: &Account,
    args: &Json,
    made: &Made,
    moment: u64,
) -> Result<SetPlan, SetFault>
    requires bounded { IsBounded account.now.history }
    requires moment { moment ≤ last_moment }
    ensures { MatchResult result
        (λ p. import_in account.now.history (tree_of args.now) made.now moment
        ≡ planned (plan_of p))
        (λ e. ExplainsSet e
        (import_in account.now.history (tree_of args.now) made.now moment)) }
{
    import_emails(
        alloc,
        account.content(),
        account.log(),
        account.blobs(),
        args,
        made,
        moment,
    )
}

/// Returns the plan of an Email/import with these arguments, for a user who may write the account,
/// at a timestamp in Unix seconds. `made` is what the request has created up to here.
///
/// The arguments are `accountId`, `emails` and `ifInState`; others are ignored. Fails with
/// `Invalid` and the name of the first argument in byte order that is missing or does not have its
/// form (the empty name if `args` is no object), with `TooLarge` if there are more than
/// [`MAX_OBJECTS_PER_CALL`] imports, and with `StateMismatch` if `ifInState` is not the text of the
/// emails' state. The first fault in this order is returned, and nothing is changed.
///
/// Imports are performed in byte order of their creation ids. One that is rejected is reported in
/// `notCreated` with the first of these reasons, and creates nothing: `invalidProperties` with the
/// names, `tooManyKeywords`, `tooManyMailboxes`, `overQuota`. The edits put new emails, and then
/// the threads and the mailboxes that change with them. They fit a tidy account and leave it tidy,
/// and each new email has its blob's size and summary.
///
/// A call costs what it imports: each message is read once, and threads are found by the links of
/// the content.
pub fn plan_import(
    alloc: Global,
    account: &Account,
    args: &Json,
    made: &Made,
    moment: u64,
) -> Result<SetPlan, SetFault>
    requires bounded { IsBounded account.now.history }
    requires moment { moment ≤ last_moment }
    ensures outcome { IfOk result
        (λ p. import_in account.now.history (tree_of args.now) made.now moment
        ≡ planned (plan_of p)) }
    ensures fault { IfErr result
        (λ e. ExplainsSet e
        (import_in account.now.history (tree_of args.now) made.now moment)) }
    ensures promises { IfOk result
        (λ p. IsTidy (content_of account.now.history)
        → IsPlanned summary (blobs_of account.now.history) (content_of account.now.history)
        p.edits) }
    ensures flags { IfOk result
        (λ p. AreTables (content_of account.now.history)
        → AreCountsFlagsRight (content_of account.now.history) p.edits) }
    ensures new_state { IfOk result
        (λ p. HasNewState Kind.Email (ground_of_history account.now.history) (tree_of p.reply)
        p.edits) }
{
    plan_over(alloc, account, args, made, moment)
}
