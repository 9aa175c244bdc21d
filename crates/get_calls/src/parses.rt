// The answer to an Email/parse (RFC 8621, section 4.9).
ghost use Rattle.std.specs.Prelude.{◌≡◌, ◌∷◌, ◌++◌, [], Some, true, IfOk, IfErr, OnOk, filter_map, map, option_map};
ghost use Rattle.jm_json.specs.Json.{tree_of};
ghost use Rattle.jm_json.specs.Tree.{text};
ghost use Rattle.get_calls.specs.Faults.{GetFails};
ghost use Rattle.mail_view.specs.Gets.{got};
ghost use Rattle.mail_view.specs.NamedBytes.{named_of};
ghost use Rattle.mail_view.specs.Objects.{put_all};
ghost use Rattle.method_args.specs.Arguments.{account_in};
ghost use Rattle.get_args.specs.Wanted.{wanted_by};
ghost use Rattle.method_args.specs.Wrapped.{list_or_null, object_or_null};
ghost use Rattle.mail_view.specs.Parses.{blob_ids_in, parse_asked, parse_by, parse_emails, parse_got, parse_in, parse_tree, parsed_member, parsed_view, view_if};
ghost use Rattle.mail_view.specs.Records.{naming_none};

use crate::GetFault;
use crate::mentions::list_first_mentions;
use account_book::Account;
use blob_store::BlobList;
use get_args::{Wanted, blame_argument, read_wanted_members};
use jm_base::{NoMemory, Text};
use jm_json::{Items, Json, Members};
use mail_view::{NamedBytes, find_named_bytes, view};
use method_args::{MAX_OBJECTS_PER_CALL, lend_strings, read_account, wrap_list, wrap_object};
use std::alloc::Global;

// What is parsed: the views by blob id, and the blob ids that name nothing.
#[derive(Drop)]
struct ParsedBlobs {
    views: Members,
    unknown: Items,
}

// Returns the view of bytes as a message of their own, if there are any.
fn write_view_if(
    alloc: Global,
    bytes: Option<NamedBytes>,
    id: &str,
    wanted: &Wanted,
) -> Result<Option<Json>, NoMemory>
    ensures { IfOk result (λ o. option_map tree_of o
        ≡ view_if id.now wanted.now (option_map named_of bytes.entry)) }
{
    match bytes {
        Some(bytes) => Ok(Some(view(alloc, bytes.as_slice(), id.as_bytes(), None, wanted)?)),
        None => Ok(None),
    }
}

// Returns the view of what a string names, if it names a blob or a leaf.
fn write_named_view(
    alloc: Global,
    blobs: &BlobList,
    id: &str,
    wanted: &Wanted,
) -> Result<Option<Json>, NoMemory>
    ensures { IfOk result (λ o. option_map tree_of o
        ≡ parsed_view blobs.now.blobs wanted.now id.now) }
{
    let bytes = find_named_bytes(alloc, blobs, id)?;
    write_view_if(alloc, bytes, id, wanted)
}

impl ParsedBlobs {
    // Adds the view of what a blob id names, or the id if it names nothing.
    fn push(
        &mut self,
        alloc: Global,
        blobs: &BlobList,
        id: &str,
        wanted: &Wanted,
    ) -> Result<(), NoMemory>
        ensures views { OnOk result (self.new.views
            ≡ put_all (filter_map (parsed_member blobs.now.blobs wanted.now) (id.now ∷ []))
            self.old.views) }
        ensures unknown { OnOk result (self.new.unknown ≡ self.old.unknown
            ++ map text (naming_none (parsed_view blobs.now.blobs wanted.now) (id.now ∷ []))) }
    {
        match write_named_view(alloc, blobs, id, wanted)? {
            Some(view) => self.views.put(Text::from_str(alloc, id)?, view),
            None => self.unknown.push(Json::Text(Text::from_str(alloc, id)?)),
        }
    }
}

// Returns the views of what these blob ids name, each id once.
fn parse_each(
    alloc: Global,
    blobs: &BlobList,
    ids: &[&str],
    wanted: &Wanted,
) -> Result<ParsedBlobs, NoMemory>
    ensures views { IfOk result (λ p. p.views
        ≡ put_all (filter_map (parsed_member blobs.now.blobs wanted.now)
        (map (λ t. t.now) ids.now)) []) }
    ensures unknown { IfOk result (λ p. p.unknown
        ≡ map text (naming_none (parsed_view blobs.now.blobs wanted.now)
        (map (λ t. t.now) ids.now))) }
{
    let mut parsed = ParsedBlobs {
        views: Members::new(alloc),
        unknown: Items::new(alloc),
    };
    for id in ids {
        parsed.push(alloc, blobs, id, wanted)?;
    }
    Ok(parsed)
}

// Returns the arguments of a response.
fn write_parse_response(alloc: Global, account: &str, parsed: ParsedBlobs) -> Result<Json, NoMemory>
    ensures { IfOk result (λ t. tree_of t
        ≡ parse_tree account.now (list_or_null parsed.unknown) (object_or_null parsed.views)) }
{
    let ParsedBlobs { views, unknown } = parsed;
    let account = Text::from_str(alloc, account)?;
    let mut response = Members::with_room(alloc, 4)?;
    response.set(alloc, "accountId", Json::Text(account))?;
    response.set(alloc, "notFound", wrap_list(unknown))?;
    response.set(alloc, "notParsable", Json::Null)?;
    response.set(alloc, "parsed", wrap_object(views))?;
    Ok(Json::Object(response))
}

// Returns the strings of `blobIds`, `None` if it is no list of strings.
fn read_blob_ids<'a>(alloc: Global, args: &'a Members) -> Result<Option<Vec<&'a str>>, NoMemory>
    ensures { IfOk result (λ o.
        option_map (λ v. map (λ t. t.now) v.items) o ≡ blob_ids_in args.now) }
{
    match args.get("blobIds") {
        Some(value) => lend_strings(alloc, value),
        None => Ok(None),
    }
}

// Returns the response to a parse of these blob ids, in the account of this id.
fn parse_ids(
    alloc: Global,
    blobs: &BlobList,
    account: &str,
    ids: &[&str],
    args: &Members,
) -> Result<Json, GetFault>
    requires { account_in args.now ≡ Some account.now }
    ensures ok { IfOk result (λ t.
        parse_asked blobs.now.blobs args.now (map (λ t. t.now) ids.now)
        (wanted_by (Some args.now) true) ≡ got (tree_of t)) }
    ensures err { IfErr result (λ fault. GetFails fault
        (parse_asked blobs.now.blobs args.now (map (λ t. t.now) ids.now)
        (wanted_by (Some args.now) true))) }
{
    let wanted = read_wanted_members(alloc, args, true)?;
    if ids.len() > MAX_OBJECTS_PER_CALL {
        return Err(GetFault::TooLarge);
    }
    let firsts = list_first_mentions(alloc, ids)?;
    let parsed = parse_each(alloc, blobs, firsts.as_slice(), &wanted)?;
    Ok(write_parse_response(alloc, account, parsed)?)
}

// Returns the response to a parse with these arguments, in the account of this id.
fn parse_account(
    alloc: Global,
    blobs: &BlobList,
    account: &str,
    args: &Members,
) -> Result<Json, GetFault>
    requires { account_in args.now ≡ Some account.now }
    ensures ok { IfOk result (λ t.
        parse_by blobs.now.blobs args.now (blob_ids_in args.now) ≡ got (tree_of t)) }
    ensures err { IfErr result (λ fault.
        GetFails fault (parse_by blobs.now.blobs args.now (blob_ids_in args.now))) }
{
    match read_blob_ids(alloc, args)? {
        Some(ids) => parse_ids(alloc, blobs, account, ids.as_slice(), args),
        None => Err(GetFault::from(blame_argument(alloc, "blobIds"))),
    }
}

fn parse_members(alloc: Global, blobs: &BlobList, args: &Members) -> Result<Json, GetFault>
    ensures ok { IfOk result (λ t. parse_got blobs.now.blobs args.now ≡ got (tree_of t)) }
    ensures err { IfErr result (λ fault. GetFails fault (parse_got blobs.now.blobs args.now)) }
{
    match read_account(args) {
        Some(account) => parse_account(alloc, blobs, account.as_str(), args),
        None => Err(GetFault::from(blame_argument(alloc, "accountId"))),
    }
}

/// Returns the answer to an Email/parse with these arguments, of an account with these blobs (RFC
/// 8621, section 4.9): the view of each message that a blob id names, and the ids that name none. A
/// blob id names a blob, or the decoded body of a leaf of the message that it holds.
///
/// Fails with `Invalid` if an argument is missing or has a wrong form, and else with `TooLarge` if
/// it asks for more messages than `MAX_OBJECTS_PER_CALL`.
pub fn parse_emails(alloc: Global, blobs: &BlobList, args: &Json) -> Result<Json, GetFault>
    ensures ok { IfOk result (λ t.
        parse_emails blobs.now.blobs (tree_of args.now) ≡ got (tree_of t)) }
    ensures err { IfErr result (λ fault.
        GetFails fault (parse_emails blobs.now.blobs (tree_of args.now))) }
{
    match args.as_object() {
        Some(args) => parse_members(alloc, blobs, args),
        None => Err(GetFault::from(blame_argument(alloc, ""))),
    }
}

/// Like [`parse_emails`], over the blobs of an account.
pub fn parse(alloc: Global, account: &Account, args: &Json) -> Result<Json, GetFault>
    ensures ok { IfOk result (λ t.
        parse_in account.now.history (tree_of args.now) ≡ got (tree_of t)) }
    ensures err { IfErr result (λ fault.
        GetFails fault (parse_in account.now.history (tree_of args.now))) }
{
    parse_emails(alloc, account.blobs(), args)
}
