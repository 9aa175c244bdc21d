// The plan of the account to which an Email/copy copies emails (RFC 8620, section 5.4; RFC 8621,
// section 4.7).
ghost use Rattle.std.specs.Prelude.{◌≡◌, ◌≤◌, ◌+◌, ◌++◌, ◌^◌, ◌<◌, IfErr, IfOk, MatchResult, Some, length, map, option_map};
ghost use Rattle.jm_base.specs.declared.identifiers.TheConstants.{NUMBER_LIMIT};
ghost use Rattle.jm_json.specs.Find.{as_object};
ghost use Rattle.jm_json.specs.Json.{tree_of};
ghost use Rattle.account_book.specs.Accounts.{IsBounded};
ghost use Rattle.account_book.specs.Plans.{last_moment};
ghost use Rattle.blob_store.specs.Blobs.{AreBlobsFew};
ghost use Rattle.mail_records.specs.Contents.{AreNumbered, AreTables};
ghost use Rattle.mail_records.specs.Histories.{blobs_of, content_of, max_position};
ghost use Rattle.mail_counts.specs.CountsFlag.{AreCountsFlagsRight};
ghost use Rattle.mail_counts.specs.Plans.{ground_of_history, present_state};
ghost use Rattle.mail_counts.specs.Tidy.{IsTidy};
ghost use Rattle.mail_summary.specs.Summaries.{summary};
ghost use Rattle.plan_promises.specs.Planned.{IsPlanned};
ghost use Rattle.set_parts.specs.Outcomes.{ExplainsSet, ground_of, outcome_of_members, plan_of, planned};
ghost use Rattle.set_parts.specs.Responses.{HasNewState};
ghost use Rattle.set_parts.specs.Views.{create_of};
ghost use Rattle.state_log.specs.Logs.{log_end};
ghost use Rattle.mail_copies.specs.Arguments.{count_copies, forms};
ghost use Rattle.mail_copies.specs.Copies.{after_copies};
ghost use Rattle.mail_copies.specs.Plans.{place_in, place_outcome, plan_in};
ghost use Rattle.email_creates.specs.Plans.{beginning};
ghost use Rattle.email_creates.specs.Views.{Follows};
ghost use Rattle.mail_copies.specs.Views.{delivery_of};

use crate::arguments::{check_place, read_from_account};
use crate::carried::{Delivery, collect_deliveries};
use crate::copy::perform_copies;
use account_book::{Account, Carried};
use blob_store::BlobList;
use email_creates::{Accounts, Planner, Setting, finish_plan, start_planner};
use jm_base::{Kind, NoMemory, Text};
use jm_json::{Created, Json, Made, Members};
use mail_counts::{SetFault, SetPlan};
use mail_records::Content;
use set_parts::{SentCreate, read_account_id, read_creates};
use state_log::Log;
use std::alloc::Global;

// Returns the planner after all copies.
fn perform_all<'a>(
    alloc: Global,
    setting: &Setting<'a>,
    made: &'a [Created],
    creates: &[SentCreate<'a>],
    deliveries: &[Option<Delivery<'a>>],
) -> Result<Planner<'a>, NoMemory>
    requires numbered { AreNumbered setting.now.content.now.content }
    requires email { setting.now.content.now.content.next_email + length creates.now
        < NUMBER_LIMIT }
    requires thread { setting.now.content.now.content.next_thread + length creates.now
        < NUMBER_LIMIT }
    requires moment { setting.now.moment < 2 ^ 63 }
    ensures { IfOk result
        (λ p. Follows setting.now.content.now.content p
        (after_copies setting.now.blobs.now.blobs setting.now.moment
        (beginning setting.now.content.now.content made.now)
        (map create_of creates.now) (map (λ d. option_map delivery_of d) deliveries.now))) }
{
    let mut planner = start_planner(alloc, setting.content, made)?;
    perform_copies(alloc, setting, &mut planner, creates, deliveries)?;
    Ok(planner)
}

// Plans a call with these arguments.
fn plan_members<'a>(
    alloc: Global,
    setting: &Setting<'a>,
    log: &Log,
    members: &'a Members,
    carried: &'a Carried,
    made: &'a Made,
) -> Result<SetPlan, SetFault>
    requires numbered { AreNumbered setting.now.content.now.content }
    requires email { setting.now.content.now.content.next_email ≤ max_position }
    requires thread { setting.now.content.now.content.next_thread ≤ max_position }
    requires last { log_end log.now ≤ max_position }
    requires moment { setting.now.moment < 2 ^ 63 }
    ensures { MatchResult result
        (λ p. outcome_of_members forms count_copies
        (present_state Kind.Email (ground_of setting.now.content.now.content log.now))
        (plan_in (ground_of setting.now.content.now.content log.now) setting.now.blobs.now.blobs
        carried.now made.now setting.now.moment) (Some members.now) ≡ planned (plan_of p))
        (λ e. ExplainsSet e
        (outcome_of_members forms count_copies
        (present_state Kind.Email (ground_of setting.now.content.now.content log.now))
        (plan_in (ground_of setting.now.content.now.content log.now) setting.now.blobs.now.blobs
        carried.now made.now setting.now.moment) (Some members.now))) }
{
    let creates = read_creates(alloc, members, "create")?;
    check_place(alloc, members, creates.len(), log.state_of(Kind::Email))?;
    let deliveries = collect_deliveries(
        alloc,
        carried.emails.as_slice(),
        carried.blobs.as_slice(),
    )?;
    let planner = perform_all(
        alloc,
        setting,
        made.as_slice(),
        creates.as_slice(),
        deliveries.as_slice(),
    )?;
    let accounts = Accounts {
        to: read_account_id(members),
        from: Some(read_from_account(members)),
    };
    Ok(finish_plan(alloc, accounts, setting.content, log, planner)?)
}

/// Returns the plan of the account to which emails are copied as [`plan_place`] does, over a
/// content and a log of one history and the blobs of the account.
pub fn place_emails(
    alloc: Global,
    content: &Content,
    log: &Log,
    blobs: &BlobList,
    args: &Json,
    carried: &Carried,
    made: &Made,
    moment: u64,
) -> Result<SetPlan, SetFault>
    requires numbered { AreNumbered content.now.content }
    requires email { content.now.content.next_email ≤ max_position }
    requires thread { content.now.content.next_thread ≤ max_position }
    requires last { log_end log.now ≤ max_position }
    requires moment { moment ≤ last_moment }
    ensures { MatchResult result
        (λ p. place_outcome (ground_of content.now.content log.now) blobs.now.blobs
        (tree_of args.now) carried.now made.now moment ≡ planned (plan_of p))
        (λ e. ExplainsSet e
        (place_outcome (ground_of content.now.content log.now) blobs.now.blobs
        (tree_of args.now) carried.now made.now moment)) }
{
    let setting = Setting {
        content,
        blobs,
        moment,
    };
    match args.as_object() {
        Some(members) => plan_members(alloc, &setting, log, members, carried, made),
        None => Err(SetFault::Invalid(Text::from_str(alloc, "")?)),
    }
}

fn plan_over(
    alloc: Global,
    account: &Account,
    args: &Json,
    carried: &Carried,
    made: &Made,
    moment: u64,
) -> Result<SetPlan, SetFault>
    requires bounded { IsBounded account.now.history }
    requires moment { moment ≤ last_moment }
    ensures outcome { MatchResult result
        (λ p. place_in account.now.history (tree_of args.now) carried.now made.now moment
        ≡ planned (plan_of p))
        (λ e. ExplainsSet e
        (place_in account.now.history (tree_of args.now) carried.now made.now moment)) }
    ensures few { AreBlobsFew (blobs_of account.now.history) }
{
    place_emails(
        alloc,
        account.content(),
        account.log(),
        account.blobs(),
        args,
        carried,
        made,
        moment,
    )
}

/// Returns the plan of the account to which an Email/copy with these arguments copies emails, for a
/// user who may write the account, at a timestamp in Unix seconds. `carried` is what the account of
/// the originals gave, or anything else, and `made` is what the request has created up to here.
///
/// The arguments are `accountId`, `create`, `destroyFromIfInState`, `fromAccountId`,
/// `ifFromInState`, `ifInState` and `onSuccessDestroyOriginal`; others are ignored. Fails with
/// `Invalid` and the name of the first argument in byte order that is missing or does not have its
/// form (the empty name if `args` is no object), with `TooLarge` if there are more than
/// [`MAX_OBJECTS_PER_CALL`] copies, and with `StateMismatch` if `ifInState` is not the text of the
/// state of the account's emails. The first fault in this order is returned, and nothing is
/// changed. That the two accounts differ is not checked.
///
/// Copies are performed in byte order of their creation ids. One that is rejected is reported in
/// `notCreated` with the first of these reasons, and creates nothing: `notFound` if nothing is
/// carried for it or its `id` is no string, `invalidProperties` with the names, `tooManyKeywords`,
/// `tooManyMailboxes`, and `overQuota` for emails or for blobs. The message of each other becomes a
/// blob of the account. The edits put new emails, and then the threads and the mailboxes that
/// change with them. They fit a tidy account and leave it tidy, each new email has its blob's size
/// and summary, and the blobs stay within the limits.
///
/// A call costs what it copies: each message is read once, and threads are found by the links of
/// the content and among the emails of the call.
pub fn plan_place(
    alloc: Global,
    account: &Account,
    args: &Json,
    carried: &Carried,
    made: &Made,
    moment: u64,
) -> Result<SetPlan, SetFault>
    requires bounded { IsBounded account.now.history }
    requires moment { moment ≤ last_moment }
    ensures outcome { IfOk result
        (λ p. place_in account.now.history (tree_of args.now) carried.now made.now moment
        ≡ planned (plan_of p)) }
    ensures fault { IfErr result
        (λ e. ExplainsSet e
        (place_in account.now.history (tree_of args.now) carried.now made.now moment)) }
    ensures promises { IfOk result
        (λ p. IsTidy (content_of account.now.history)
        → IsPlanned summary (blobs_of account.now.history ++ p.blobs)
        (content_of account.now.history) p.edits) }
    ensures few { IfOk result (λ p. AreBlobsFew (blobs_of account.now.history ++ p.blobs)) }
    ensures flags { IfOk result
        (λ p. AreTables (content_of account.now.history)
        → AreCountsFlagsRight (content_of account.now.history) p.edits) }
    ensures new_state { IfOk result
        (λ p. HasNewState Kind.Email (ground_of_history account.now.history) (tree_of p.reply)
        p.edits) }
{
    plan_over(alloc, account, args, carried, made, moment)
}
