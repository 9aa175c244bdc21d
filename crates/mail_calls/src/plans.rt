// Plans of methods, each with its one response.
ghost use Rattle.std.specs.Prelude.{◌≡◌, ◌≤◌, ◌∷◌, [], IfErr, IfOk};
ghost use Rattle.jm_json.specs.Invocations.{call_of};
ghost use Rattle.jm_json.specs.Json.{tree_of};
ghost use Rattle.mail_view.specs.Gets.{get_of_kind};
ghost use Rattle.mail_view.specs.Parses.{parse_in};
ghost use Rattle.mailbox_set.specs.Sets.{mailbox_set_outcome};
ghost use Rattle.set_parts.specs.Outcomes.{ExplainsSet, Outcome, Plan as SetPlanned};
ghost use Rattle.email_set.specs.Plans.{email_set_outcome};
ghost use Rattle.mail_import.specs.Plans.{import_in};
ghost use Rattle.change_calls.specs.Responses.{changes_outcome};
ghost use Rattle.method_args.specs.Outcomes.{ExplainsCall, replied};
ghost use Rattle.method_args.specs.Outcomes as method;
ghost use Rattle.read_replies.specs.Plans.{answered, get_plan, outcome_plan, refused, response_to, queried, query_changed};
ghost use Rattle.mail_calls.specs.Plans.{IsOutcomeOf, ground_in, method_plan, set_plan, unless_rejected};
ghost use Rattle.account_book.specs.Accounts.{IsBounded};
ghost use Rattle.account_book.specs.Plans.{last_moment};
ghost use Rattle.account_book.specs.declared.plans.Plan.{Plan as ThePlan};

use crate::blobs::find_state;
use crate::methods::{Method, read_method};
use account_book::{Account, Out, Plan};
use change_calls::answer_changes;
use email_set::plan_email_set;
use get_calls::{GetFault, get, parse};
use jm_base::{Blobs, Kind, NoMemory};
use jm_json::{Invocation, Invocations, Json, Made, Replied};
use mail_counts::{SetFault, SetPlan};
use mail_import::plan_import;
use mail_records::Edits;
use mailbox_set::plan_mailbox_set;
use message_texts::BlobTexts;
use method_args::{MethodFault, build_response};
use query_changes::answer_query_changes;
use query_engine::answer_query;
use std::alloc::Global;

/// Returns the plan that answers one response, with what was created, the blobs and the edits.
pub(crate) fn plan_with(
    alloc: Global,
    response: Invocation,
    made: Made,
    blobs: Blobs,
    edits: Edits,
) -> Result<Plan, NoMemory>
    ensures { IfOk result (λ p. p ≡ record {
      out = Out.Replies
          (record { responses = call_of response ∷ []; made = made });
      blobs = blobs;
      edits = edits;
    }) }
{
    let mut responses = Invocations::new(alloc);
    responses.push(response)?;
    Ok(Plan {
        out: Out::Replies(Replied { responses, made }),
        blobs,
        edits,
    })
}

// Returns the plan that answers one response, and changes nothing.
fn plan_reply(alloc: Global, response: Invocation) -> Result<Plan, NoMemory>
    ensures { IfOk result (λ p. p ≡ answered (call_of response)) }
{
    let blobs = Blobs::new(alloc);
    plan_with(alloc, response, Made::new(alloc), blobs, Edits::new(alloc))
}

/// Returns the plan that answers an error of this type (RFC 8620, section 3.6.2).
pub(crate) fn plan_error(alloc: Global, call: &Invocation, kind: &str) -> Result<Plan, NoMemory>
    ensures { IfOk result (λ p. p ≡ refused (call_of call.now) kind.now) }
{
    let response = Invocation::build_error_response(alloc, kind, call.id.copy()?)?;
    plan_reply(alloc, response)
}

/// Returns the response to a call, with these arguments (RFC 8620, section 3.4).
pub(crate) fn make_response(call: &Invocation, args: Json) -> Result<Invocation, NoMemory>
    ensures { IfOk result (λ c. call_of c ≡ response_to (call_of call.now) (tree_of args)) }
{
    Ok(Invocation {
        name: call.name.copy()?,
        args,
        id: call.id.copy()?,
    })
}

// Returns the plan that answers a call with these arguments, and changes nothing.
fn plan_response(alloc: Global, call: &Invocation, args: Json) -> Result<Plan, NoMemory>
    ensures { IfOk result (λ p. p ≡ answered (response_to (call_of call.now) (tree_of args))) }
{
    let response = make_response(call, args)?;
    plan_reply(alloc, response)
}

// Returns the plan that answers a call for which a method returned this, and changes nothing.
fn plan_outcome(
    alloc: Global,
    call: &Invocation,
    returned: Result<Json, MethodFault>,
) -> Result<Plan, NoMemory>
    ensures { IfOk result (λ p. (o : method.Outcome) → method.IsOutcomeOf returned o
        → p ≡ outcome_plan (call_of call.now) o) }
{
    let response = build_response(alloc, call, returned)?;
    plan_reply(alloc, response)
}

// Returns the plan of a get of records of a kind (RFC 8621, sections 2.1, 3.1 and 4.2).
fn plan_get(
    alloc: Global,
    kind: Kind,
    account: &Account,
    call: &Invocation,
    read_only: bool,
) -> Result<Plan, NoMemory>
    ensures { IfOk result (λ p. p ≡ get_plan (call_of call.now)
        (get_of_kind kind account.now.history (tree_of call.now.args) read_only)) }
{
    match get(alloc, kind, account, &call.args, read_only) {
        Ok(args) => plan_response(alloc, call, args),
        Err(GetFault::Invalid(_)) => plan_error(alloc, call, "invalidArguments"),
        Err(GetFault::TooLarge) => plan_error(alloc, call, "requestTooLarge"),
        Err(GetFault::NoMemory) => Err(NoMemory),
    }
}

// Returns the plan of an Email/parse (RFC 8621, section 4.9).
fn plan_parse(alloc: Global, account: &Account, call: &Invocation) -> Result<Plan, NoMemory>
    ensures { IfOk result (λ p. p ≡ get_plan (call_of call.now)
        (parse_in account.now.history (tree_of call.now.args))) }
{
    match parse(alloc, account, &call.args) {
        Ok(args) => plan_response(alloc, call, args),
        Err(GetFault::Invalid(_)) => plan_error(alloc, call, "invalidArguments"),
        Err(GetFault::TooLarge) => plan_error(alloc, call, "requestTooLarge"),
        Err(GetFault::NoMemory) => Err(NoMemory),
    }
}

// Returns the arguments of the response to a call for the changes of a kind.
fn find_changes(
    alloc: Global,
    account: &Account,
    kind: Kind,
    args: &Json,
) -> Result<Json, MethodFault>
    ensures reply { IfOk result (λ j. changes_outcome account.now.history kind (tree_of args.now)
        ≡ replied (tree_of j)) }
    ensures fault { IfErr result (λ fault. ExplainsCall fault
        (changes_outcome account.now.history kind (tree_of args.now))) }
{
    account.has_fitting_edits();
    answer_changes(alloc, account.log(), kind, args)
}

// Returns the plan of a call for the changes of a kind (RFC 8620, section 5.2).
fn plan_changes(
    alloc: Global,
    kind: Kind,
    account: &Account,
    call: &Invocation,
) -> Result<Plan, NoMemory>
    ensures { IfOk result (λ p. p ≡ outcome_plan (call_of call.now)
        (changes_outcome account.now.history kind (tree_of call.now.args))) }
{
    let returned = find_changes(alloc, account, kind, &call.args);
    plan_outcome(alloc, call, returned)
}

// Returns the arguments of the response to a query of a kind.
fn find_results(
    alloc: Global,
    account: &Account,
    kind: Kind,
    args: &Json,
) -> Result<Json, MethodFault>
    ensures reply { IfOk result (λ j. queried account.now.history kind (tree_of args.now)
        ≡ replied (tree_of j)) }
    ensures fault { IfErr result (λ fault. ExplainsCall fault
        (queried account.now.history kind (tree_of args.now))) }
{
    let texts = BlobTexts {
        alloc,
        blobs: account.blobs(),
    };
    let state = find_state(account, kind);
    answer_query(alloc, kind, state, account.content(), &texts, args)
}

// Returns the plan of a query of a kind (RFC 8620, section 5.5).
fn plan_query(
    alloc: Global,
    kind: Kind,
    account: &Account,
    call: &Invocation,
) -> Result<Plan, NoMemory>
    ensures { IfOk result (λ p. p ≡ outcome_plan (call_of call.now)
        (queried account.now.history kind (tree_of call.now.args))) }
{
    let returned = find_results(alloc, account, kind, &call.args);
    plan_outcome(alloc, call, returned)
}

// Returns the arguments of the response to a call for the changes of a query of a kind.
fn find_query_changes(
    alloc: Global,
    account: &Account,
    kind: Kind,
    args: &Json,
) -> Result<Json, MethodFault>
    ensures reply { IfOk result (λ j. query_changed account.now.history kind (tree_of args.now)
        ≡ replied (tree_of j)) }
    ensures fault { IfErr result (λ fault. ExplainsCall fault
        (query_changed account.now.history kind (tree_of args.now))) }
{
    let texts = BlobTexts {
        alloc,
        blobs: account.blobs(),
    };
    let log = account.log();
    let content = account.content();
    answer_query_changes(alloc, log, content, &texts, kind, args)
}

// Returns the plan of a call for the changes of a query of a kind (RFC 8620, section 5.6).
fn plan_query_changes(
    alloc: Global,
    kind: Kind,
    account: &Account,
    call: &Invocation,
) -> Result<Plan, NoMemory>
    ensures { IfOk result (λ p. p ≡ outcome_plan (call_of call.now)
        (query_changed account.now.history kind (tree_of call.now.args))) }
{
    let returned = find_query_changes(alloc, account, kind, &call.args);
    plan_outcome(alloc, call, returned)
}

/// Returns the plan that answers a set, an import or a copy that is rejected with this fault.
pub(crate) fn answer_set_fault(
    alloc: Global,
    call: &Invocation,
    fault: &SetFault,
) -> Result<Plan, NoMemory>
    ensures { IfOk result (λ p. (make : SetPlanned → ThePlan) (o : Outcome)
        → ExplainsSet fault.now o → p ≡ unless_rejected (call_of call.now) make o) }
{
    match fault {
        SetFault::Invalid(_) => plan_error(alloc, call, "invalidArguments"),
        SetFault::TooLarge => plan_error(alloc, call, "requestTooLarge"),
        SetFault::StateMismatch => plan_error(alloc, call, "stateMismatch"),
        SetFault::NoMemory => Err(NoMemory),
    }
}

/// Returns the plan that answers a set, an import or copies, whose planner returned this.
pub(crate) fn answer_set(
    alloc: Global,
    call: &Invocation,
    returned: Result<SetPlan, SetFault>,
) -> Result<Plan, NoMemory>
    ensures { IfOk result (λ p. (o : Outcome) → IsOutcomeOf returned o
        → p ≡ set_plan (call_of call.now) o) }
{
    match returned {
        Ok(plan) => {
            let response = make_response(call, plan.reply)?;
            plan_with(alloc, response, plan.made, plan.blobs, plan.edits)
        }
        Err(fault) => answer_set_fault(alloc, call, &fault),
    }
}

// Returns the plan of a Mailbox/set (RFC 8621, section 2.5).
fn plan_set(
    alloc: Global,
    account: &Account,
    call: &Invocation,
    made: &Made,
) -> Result<Plan, NoMemory>
    requires { IsBounded account.now.history }
    ensures { IfOk result (λ p. p ≡ set_plan (call_of call.now)
        (mailbox_set_outcome (ground_in account.now.history) (tree_of call.now.args) made.now)) }
{
    let returned = plan_mailbox_set(alloc, account.content(), account.log(), &call.args, made);
    answer_set(alloc, call, returned)
}

// Returns the plan of an Email/set (RFC 8621, section 4.6).
fn plan_emails(
    alloc: Global,
    account: &Account,
    call: &Invocation,
    made: &Made,
) -> Result<Plan, NoMemory>
    requires { IsBounded account.now.history }
    ensures { IfOk result (λ p. p ≡ set_plan (call_of call.now)
        (email_set_outcome (ground_in account.now.history) (tree_of call.now.args) made.now)) }
{
    let returned = plan_email_set(alloc, account.content(), account.log(), &call.args, made);
    answer_set(alloc, call, returned)
}

// Returns the plan of an Email/import at a timestamp (RFC 8621, section 4.8).
fn plan_imports(
    alloc: Global,
    account: &Account,
    call: &Invocation,
    made: &Made,
    moment: u64,
) -> Result<Plan, NoMemory>
    requires bounded { IsBounded account.now.history }
    requires moment { moment ≤ last_moment }
    ensures { IfOk result (λ p. p ≡ set_plan (call_of call.now)
        (import_in account.now.history (tree_of call.now.args) made.now moment)) }
{
    let returned = plan_import(alloc, account, &call.args, made, moment);
    answer_set(alloc, call, returned)
}

/// Returns the plan of a method over an account, with what the request has made up to here, of a
/// user to whom the account is read-only or not, at a timestamp in Unix seconds. A name that no
/// method has is answered with `unknownMethod` (RFC 8620, section 3.6.2).
pub(crate) fn plan_method(
    alloc: Global,
    account: &Account,
    call: &Invocation,
    made: &Made,
    read_only: bool,
    moment: u64,
) -> Result<Plan, NoMemory>
    requires bounded { IsBounded account.now.history }
    requires moment { moment ≤ last_moment }
    ensures { IfOk result
        (λ p. p ≡ method_plan account.now.history (call_of call.now) made.now read_only moment) }
{
    match read_method(call.name.as_str()) {
        None => plan_error(alloc, call, "unknownMethod"),
        Some(Method::Get(kind)) => plan_get(alloc, kind, account, call, read_only),
        Some(Method::Changes(kind)) => plan_changes(alloc, kind, account, call),
        Some(Method::Query(kind)) => plan_query(alloc, kind, account, call),
        Some(Method::QueryChanges(kind)) => plan_query_changes(alloc, kind, account, call),
        Some(Method::MailboxSet) => plan_set(alloc, account, call, made),
        Some(Method::EmailSet) => plan_emails(alloc, account, call, made),
        Some(Method::EmailImport) => plan_imports(alloc, account, call, made, moment),
        Some(Method::EmailParse) => plan_parse(alloc, account, call),
    }
}
