// The answers to gets (RFC 8620, section 5.1; RFC 8621, sections 2.1, 3.1 and 4.2).
ghost use Rattle.std.specs.Prelude.{◌≡◌, IfOk, IfErr, map, option_map};
ghost use Rattle.jm_json.specs.Json.{tree_of};
ghost use Rattle.mail_records.specs.Histories.{blobs_of, content_of};
ghost use Rattle.mail_records.specs.States.{state_of};
ghost use Rattle.get_calls.specs.Faults.{GetFails};
ghost use Rattle.mail_view.specs.Gets.{emails_got, get_emails, get_mailboxes, get_of_kind, get_threads, got, mailboxes_got, threads_got};
ghost use Rattle.mail_view.specs.Records.{asked_count};

use crate::GetFault;
use crate::emails::find_emails;
use crate::mailboxes::{MAILBOX_PROPERTIES, find_mailboxes};
use crate::records::write_response;
use crate::threads::{THREAD_PROPERTIES, find_threads};
use account_book::Account;
use blob_store::BlobList;
use get_args::{blame_argument, find_hidden_properties, read_selection, read_wanted_members};
use jm_base::Kind;
use jm_json::{Json, Members};
use mail_records::Content;
use method_args::MAX_OBJECTS_PER_CALL;
use std::alloc::Global;

// Returns how many objects are asked for, among this many records.
fn count_asked(records: usize, ids: &Option<Vec<&str>>) -> usize
    ensures { result ≡ asked_count records (option_map (λ v. map (λ t. t.now) v.items) ids.now) }
{
    match ids {
        Some(ids) => ids.len(),
        None => records,
    }
}

fn get_mailboxes_by(
    alloc: Global,
    content: &Content,
    state: u64,
    args: &Members,
    read_only: bool,
) -> Result<Json, GetFault>
    ensures ok { IfOk result (λ t.
        mailboxes_got content.now.content state read_only args.now ≡ got (tree_of t)) }
    ensures err { IfErr result (λ fault.
        GetFails fault (mailboxes_got content.now.content state read_only args.now)) }
{
    let selection = read_selection(alloc, args)?;
    let hidden = find_hidden_properties(alloc, args, &MAILBOX_PROPERTIES)?;
    if count_asked(content.mailboxes().len(), &selection.ids) > MAX_OBJECTS_PER_CALL {
        return Err(GetFault::TooLarge);
    }
    let found = find_mailboxes(alloc, content, &selection.ids, hidden.as_slice(), read_only)?;
    Ok(write_response(alloc, selection.account, found, state)?)
}

fn get_threads_by(
    alloc: Global,
    content: &Content,
    state: u64,
    args: &Members,
) -> Result<Json, GetFault>
    ensures ok { IfOk result (λ t.
        threads_got content.now.content state args.now ≡ got (tree_of t)) }
    ensures err { IfErr result (λ fault.
        GetFails fault (threads_got content.now.content state args.now)) }
{
    let selection = read_selection(alloc, args)?;
    let hidden = find_hidden_properties(alloc, args, &THREAD_PROPERTIES)?;
    if count_asked(content.threads().len(), &selection.ids) > MAX_OBJECTS_PER_CALL {
        return Err(GetFault::TooLarge);
    }
    let found = find_threads(alloc, content, &selection.ids, hidden.as_slice())?;
    Ok(write_response(alloc, selection.account, found, state)?)
}

fn get_emails_by(
    alloc: Global,
    content: &Content,
    blobs: &BlobList,
    state: u64,
    args: &Members,
) -> Result<Json, GetFault>
    ensures ok { IfOk result (λ t.
        emails_got content.now.content blobs.now.blobs state args.now ≡ got (tree_of t)) }
    ensures err { IfErr result (λ fault.
        GetFails fault (emails_got content.now.content blobs.now.blobs state args.now)) }
{
    let selection = read_selection(alloc, args)?;
    let wanted = read_wanted_members(alloc, args, false)?;
    if count_asked(content.emails().len(), &selection.ids) > MAX_OBJECTS_PER_CALL {
        return Err(GetFault::TooLarge);
    }
    let found = find_emails(alloc, content, blobs, &selection.ids, &wanted)?;
    Ok(write_response(alloc, selection.account, found, state)?)
}

/// Returns the answer to a get of mailboxes with these arguments (RFC 8621, section 2.1), of a user
/// to whom the account is read-only or not. `content` is what the account holds, and `state` the
/// state of its mailboxes.
///
/// Fails with `Invalid` if an argument is missing or has a wrong form, and else with `TooLarge` if
/// it asks for more mailboxes than `MAX_OBJECTS_PER_CALL`.
pub fn get_mailboxes(
    alloc: Global,
    content: &Content,
    state: u64,
    args: &Json,
    read_only: bool,
) -> Result<Json, GetFault>
    ensures ok { IfOk result (λ t.
        get_mailboxes content.now.content state (tree_of args.now) read_only ≡ got (tree_of t)) }
    ensures err { IfErr result (λ fault.
        GetFails fault (get_mailboxes content.now.content state (tree_of args.now) read_only)) }
{
    match args.as_object() {
        Some(args) => get_mailboxes_by(alloc, content, state, args, read_only),
        None => Err(GetFault::from(blame_argument(alloc, ""))),
    }
}

/// Returns the answer to a get of threads with these arguments (RFC 8621, section 3.1). `state` is
/// the state of the account's threads.
///
/// Fails with `Invalid` if an argument is missing or has a wrong form, and else with `TooLarge` if
/// it asks for more threads than `MAX_OBJECTS_PER_CALL`.
pub fn get_threads(
    alloc: Global,
    content: &Content,
    state: u64,
    args: &Json,
) -> Result<Json, GetFault>
    ensures ok { IfOk result (λ t.
        get_threads content.now.content state (tree_of args.now) ≡ got (tree_of t)) }
    ensures err { IfErr result (λ fault.
        GetFails fault (get_threads content.now.content state (tree_of args.now))) }
{
    match args.as_object() {
        Some(args) => get_threads_by(alloc, content, state, args),
        None => Err(GetFault::from(blame_argument(alloc, ""))),
    }
}

/// Returns the answer to a get of emails with these arguments (RFC 8621, section 4.2), of an
/// account with these blobs. `state` is the state of the account's emails.
///
/// Fails with `Invalid` if an argument is missing or has a wrong form, and else with `TooLarge` if
/// it asks for more emails than `MAX_OBJECTS_PER_CALL`. Of the blobs only what the properties need
/// is read: nothing for those of the record, and the header alone for header fields.
pub fn get_emails(
    alloc: Global,
    content: &Content,
    blobs: &BlobList,
    state: u64,
    args: &Json,
) -> Result<Json, GetFault>
    ensures ok { IfOk result (λ t.
        get_emails content.now.content blobs.now.blobs state (tree_of args.now)
        ≡ got (tree_of t)) }
    ensures err { IfErr result (λ fault.
        GetFails fault (get_emails content.now.content blobs.now.blobs state (tree_of args.now))) }
{
    match args.as_object() {
        Some(args) => get_emails_by(alloc, content, blobs, state, args),
        None => Err(GetFault::from(blame_argument(alloc, ""))),
    }
}

fn get_account_mailboxes(
    alloc: Global,
    account: &Account,
    args: &Json,
    read_only: bool,
) -> Result<Json, GetFault>
    ensures ok { IfOk result (λ t.
        get_of_kind Kind.Mailbox account.now.history (tree_of args.now) read_only
        ≡ got (tree_of t)) }
    ensures err { IfErr result (λ fault. GetFails fault
        (get_of_kind Kind.Mailbox account.now.history (tree_of args.now) read_only)) }
{
    let state = account.log().state_of(Kind::Mailbox);
    get_mailboxes(alloc, account.content(), state, args, read_only)
}

fn get_account_threads(alloc: Global, account: &Account, args: &Json) -> Result<Json, GetFault>
    ensures ok { IfOk result (λ t.
        get_threads (content_of account.now.history) (state_of account.now.history Kind.Thread)
        (tree_of args.now) ≡ got (tree_of t)) }
    ensures err { IfErr result (λ fault. GetFails fault
        (get_threads (content_of account.now.history) (state_of account.now.history Kind.Thread)
        (tree_of args.now))) }
{
    let state = account.log().state_of(Kind::Thread);
    get_threads(alloc, account.content(), state, args)
}

fn get_account_emails(alloc: Global, account: &Account, args: &Json) -> Result<Json, GetFault>
    ensures ok { IfOk result (λ t.
        get_emails (content_of account.now.history) (blobs_of account.now.history)
        (state_of account.now.history Kind.Email) (tree_of args.now) ≡ got (tree_of t)) }
    ensures err { IfErr result (λ fault. GetFails fault
        (get_emails (content_of account.now.history) (blobs_of account.now.history)
        (state_of account.now.history Kind.Email) (tree_of args.now))) }
{
    let state = account.log().state_of(Kind::Email);
    get_emails(alloc, account.content(), account.blobs(), state, args)
}

/// Returns the answer to a get of records of a kind with these arguments, of a user to whom the
/// account is read-only or not (RFC 8621, sections 2.1, 3.1 and 4.2).
///
/// Fails with `Invalid` if an argument is missing or has a wrong form, and else with `TooLarge` if
/// it asks for more objects than `MAX_OBJECTS_PER_CALL`.
pub fn get(
    alloc: Global,
    kind: Kind,
    account: &Account,
    args: &Json,
    read_only: bool,
) -> Result<Json, GetFault>
    ensures ok { IfOk result (λ t.
        get_of_kind kind account.now.history (tree_of args.now) read_only ≡ got (tree_of t)) }
    ensures err { IfErr result (λ fault.
        GetFails fault (get_of_kind kind account.now.history (tree_of args.now) read_only)) }
{
    match kind {
        Kind::Mailbox => get_account_mailboxes(alloc, account, args, read_only),
        Kind::Thread => get_account_threads(alloc, account, args),
        Kind::Email => get_account_emails(alloc, account, args),
    }
}
