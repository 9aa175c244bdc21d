// Plans of the two sides of a copy (RFC 8620, sections 5.4 and 6.3; RFC 8621, section 4.7).
ghost use Rattle.std.specs.Prelude.{◌≡◌, ◌≤◌, IfOk};
ghost use Rattle.jm_json.specs.Invocations.{call_of};
ghost use Rattle.account_book.specs.Accounts.{IsBounded};
ghost use Rattle.account_book.specs.Plans.{last_moment};
ghost use Rattle.copy_calls.specs.Views.{blob_plan_of};
ghost use Rattle.mail_calls.specs.Plans.{blob_copies_plan, blobs_plan, blobs_planned, copies_plan, fetch_plan, originals_plan, placement_plan};

use crate::blobs::plan_reading;
use crate::methods::{CopyMethod, read_copy_method};
use crate::plans::{answer_set, answer_set_fault, make_response, plan_error, plan_with};
use account_book::{Account, Carried, Out, Plan};
use copy_calls::{BlobPlan, fetch_blobs, fetch_originals, plan_blob_copy};
use jm_base::NoMemory;
use jm_json::{Invocation, Made};
use mail_copies::plan_place;
use mail_records::Edits;
use std::alloc::Global;

// Returns the plan of an Email/copy in the account of the originals.
fn plan_originals(alloc: Global, account: &Account, call: &Invocation) -> Result<Plan, NoMemory>
    ensures { IfOk result (λ p. p ≡ originals_plan account.now.history (call_of call.now)) }
{
    match fetch_originals(alloc, account, &call.args) {
        Ok(carried) => Ok(plan_reading(alloc, Out::Carried(carried))),
        Err(fault) => answer_set_fault(alloc, call, &fault),
    }
}

// Returns the plan of a Blob/copy in the account of the blobs.
fn plan_blobs(alloc: Global, account: &Account, call: &Invocation) -> Result<Plan, NoMemory>
    ensures { IfOk result (λ p. p ≡ blobs_plan account.now.history (call_of call.now)) }
{
    match fetch_blobs(alloc, account, &call.args) {
        Ok(carried) => Ok(plan_reading(alloc, Out::Carried(carried))),
        Err(fault) => answer_set_fault(alloc, call, &fault),
    }
}

/// Returns the plan of the side of a copy that reads: what is carried to the other account, or the
/// error, which is `unknownMethod` if the method copies nothing.
pub(crate) fn plan_fetch(
    alloc: Global,
    account: &Account,
    call: &Invocation,
) -> Result<Plan, NoMemory>
    ensures { IfOk result (λ p. p ≡ fetch_plan account.now.history (call_of call.now)) }
{
    match read_copy_method(call.name.as_str()) {
        None => plan_error(alloc, call, "unknownMethod"),
        Some(CopyMethod::Emails) => plan_originals(alloc, account, call),
        Some(CopyMethod::Blobs) => plan_blobs(alloc, account, call),
    }
}

// Returns the plan of an Email/copy in the account of the copies, at a timestamp.
fn plan_copies(
    alloc: Global,
    account: &Account,
    call: &Invocation,
    carried: &Carried,
    made: &Made,
    moment: u64,
) -> Result<Plan, NoMemory>
    requires bounded { IsBounded account.now.history }
    requires moment { moment ≤ last_moment }
    ensures { IfOk result (λ p. p
        ≡ copies_plan account.now.history (call_of call.now) carried.now made.now moment) }
{
    let returned = plan_place(alloc, account, &call.args, carried, made, moment);
    answer_set(alloc, call, returned)
}

// Returns the plan that answers a Blob/copy that is not rejected.
fn answer_blob_copies(alloc: Global, call: &Invocation, plan: BlobPlan) -> Result<Plan, NoMemory>
    ensures { IfOk result (λ p. p ≡ blobs_planned (call_of call.now) (blob_plan_of plan)) }
{
    let BlobPlan { reply, blobs } = plan;
    let response = make_response(call, reply)?;
    let edits = Edits::new(alloc);
    plan_with(alloc, response, Made::new(alloc), blobs, edits)
}

// Returns the plan of a Blob/copy in the account of the copies.
fn plan_blob_copies(
    alloc: Global,
    account: &Account,
    call: &Invocation,
    carried: &Carried,
) -> Result<Plan, NoMemory>
    ensures { IfOk result (λ p. p
        ≡ blob_copies_plan account.now.history (call_of call.now) carried.now) }
{
    match plan_blob_copy(alloc, account, &call.args, carried) {
        Ok(plan) => answer_blob_copies(alloc, call, plan),
        Err(fault) => answer_set_fault(alloc, call, &fault),
    }
}

/// Returns the plan of the side of a copy that writes: what is made of what was carried, whatever
/// it is, with what the request has made up to here, at a timestamp in Unix seconds; or the error,
/// which is `unknownMethod` if the method copies nothing.
pub(crate) fn plan_placement(
    alloc: Global,
    account: &Account,
    call: &Invocation,
    carried: &Carried,
    made: &Made,
    moment: u64,
) -> Result<Plan, NoMemory>
    requires bounded { IsBounded account.now.history }
    requires moment { moment ≤ last_moment }
    ensures { IfOk result (λ p. p
        ≡ placement_plan account.now.history (call_of call.now) carried.now made.now moment) }
{
    match read_copy_method(call.name.as_str()) {
        None => plan_error(alloc, call, "unknownMethod"),
        Some(CopyMethod::Emails) => plan_copies(alloc, account, call, carried, made, moment),
        Some(CopyMethod::Blobs) => plan_blob_copies(alloc, account, call, carried),
    }
}
