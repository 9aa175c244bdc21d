// The properties of a message that an Email/get or an Email/parse asks for (RFC 8621, sections 4.2
// and 4.9).
ghost use Rattle.std.specs.Prelude.{◌≡◌, Some, None, true, IfOk, IfErr, codes, map, option_map};
ghost use Rattle.jm_json.specs.Json.{tree_of};
ghost use Rattle.jm_json.specs.Tree.{text};
ghost use Rattle.method_args.specs.Arguments.{count_in, flag_in};
ghost use Rattle.get_args.specs.Faults.{Blames, ReadingFails};
ghost use Rattle.get_args.specs.Wanted.{asked, cached_names_tree, default_names, names_by, parts_in, properties_in, read_arguments, wanted_by, wanted_in, with_id};

use crate::WantedFault;
use crate::fault::blame_argument;
use crate::property::{NamedPartProperty, NamedProperty};
use crate::property_names::{read_part_properties, read_properties};
use jm_base::{NoMemory, Sequence, Text};
use jm_json::{Items, Json, Members};
use method_args::{find_given, lend_strings, read_count, read_flag};
use std::alloc::Global;

/// The properties of a message that a client asks for.
#[derive(Drop)]
pub struct Wanted {
    /// The properties of the email, by the names that the client used.
    pub properties: Sequence<NamedProperty>,
    /// The properties of each body part.
    pub parts: Sequence<NamedPartProperty>,
    /// Whether bodyValues has the text parts of textBody (RFC 8621, section 4.2:
    /// `fetchTextBodyValues`).
    pub text_values: bool,
    /// Whether it has those of htmlBody (`fetchHTMLBodyValues`).
    pub html_values: bool,
    /// Whether it has all text parts (`fetchAllBodyValues`).
    pub all_values: bool,
    /// The greatest number of bytes of a value (`maxBodyValueBytes`); 0 for any number.
    pub most_bytes: u64,
}

// The default properties of a parsed message (RFC 8621, section 4.9), which an email has too.
const MESSAGE_NAMES: [&str; 17] = [
    "messageId",
    "inReplyTo",
    "references",
    "sender",
    "from",
    "to",
    "cc",
    "bcc",
    "replyTo",
    "subject",
    "sentAt",
    "hasAttachment",
    "preview",
    "bodyValues",
    "textBody",
    "htmlBody",
    "attachments",
];

// The default metadata properties of an email besides its id (RFC 8621, section 4.2).
const METADATA_NAMES: [&str; 6] = [
    "blobId",
    "threadId",
    "mailboxIds",
    "keywords",
    "size",
    "receivedAt",
];

// The default properties of a body part (RFC 8621, section 4.2).
const PART_NAMES: [&str; 10] = [
    "partId",
    "blobId",
    "size",
    "name",
    "type",
    "charset",
    "disposition",
    "cid",
    "language",
    "location",
];

// The properties of an email that a client keeps.
const CACHED_NAMES: [&str; 11] = [
    "id",
    "blobId",
    "threadId",
    "mailboxIds",
    "keywords",
    "size",
    "receivedAt",
    "from",
    "subject",
    "preview",
    "hasAttachment",
];

fn default_names(alloc: Global, parse: bool) -> Result<Vec<&'static str>, NoMemory>
    ensures { IfOk result (λ v. map (λ t. t.now) v.items ≡ default_names parse) }
{
    let mut names = Vec::new(alloc);
    if !parse {
        names.extend_from_slice(&METADATA_NAMES)?;
    }
    names.extend_from_slice(&MESSAGE_NAMES)?;
    Ok(names)
}

// Returns the names that an argument lists, or these if it is absent.
fn names_by<'a>(
    alloc: Global,
    names: &[&'static str],
    given: Option<&'a Json>,
) -> Result<Option<Vec<&'a str>>, NoMemory>
    ensures { IfOk result (λ o. option_map (λ v. map (λ t. t.now) v.items) o
        ≡ names_by (map (λ t. t.now) names.now) (option_map (λ t. tree_of t.now) given.entry)) }
{
    match given {
        Some(value) => lend_strings(alloc, value),
        None => Ok(Some(Vec::from_slice(alloc, names)?)),
    }
}

// Returns these names, and `id` before those of an email, which is always returned with its id.
fn with_id<'a>(alloc: Global, parse: bool, names: &[&'a str]) -> Result<Vec<&'a str>, NoMemory>
    ensures { IfOk result (λ v.
        map (λ t. t.now) v.items ≡ with_id parse (map (λ t. t.now) names.now)) }
{
    let mut all = Vec::new(alloc);
    if !parse {
        all.push("id")?;
    }
    all.extend_from_slice(names)?;
    Ok(all)
}

// Returns the properties that are asked for, if each name is one's.
fn read_wanted_properties(
    alloc: Global,
    args: &Members,
    parse: bool,
) -> Result<Option<Sequence<NamedProperty>>, NoMemory>
    ensures { IfOk result (λ o. o ≡ properties_in parse args.now) }
{
    let defaults = default_names(alloc, parse)?;
    match names_by(alloc, defaults.as_slice(), find_given(args, "properties"))? {
        Some(names) => {
            let names = with_id(alloc, parse, names.as_slice())?;
            read_properties(alloc, names.as_slice())
        }
        None => Ok(None),
    }
}

fn read_email_properties(
    alloc: Global,
    args: &Members,
    parse: bool,
) -> Result<Sequence<NamedProperty>, WantedFault>
    ensures ok { IfOk result (λ ps. properties_in parse args.now ≡ Some ps) }
    ensures err { IfErr result
        (Blames (codes "properties") (properties_in parse args.now ≡ None)) }
{
    match read_wanted_properties(alloc, args, parse)? {
        Some(properties) => Ok(properties),
        None => Err(blame_argument(alloc, "properties")),
    }
}

// Returns the properties of body parts that are asked for, if each name is one's.
fn read_body_properties(
    alloc: Global,
    args: &Members,
) -> Result<Option<Sequence<NamedPartProperty>>, NoMemory>
    ensures { IfOk result (λ o. o ≡ parts_in args.now) }
{
    match names_by(alloc, &PART_NAMES, args.get("bodyProperties"))? {
        Some(names) => read_part_properties(alloc, names.as_slice()),
        None => Ok(None),
    }
}

fn part_properties(
    alloc: Global,
    args: &Members,
) -> Result<Sequence<NamedPartProperty>, WantedFault>
    ensures ok { IfOk result (λ ps. parts_in args.now ≡ Some ps) }
    ensures err { IfErr result (Blames (codes "bodyProperties") (parts_in args.now ≡ None)) }
{
    match read_body_properties(alloc, args)? {
        Some(parts) => Ok(parts),
        None => Err(blame_argument(alloc, "bodyProperties")),
    }
}

fn read_flag_argument(alloc: Global, args: &Members, name: &str) -> Result<bool, WantedFault>
    ensures ok { IfOk result (λ b. flag_in name.now args.now ≡ Some b) }
    ensures err { IfErr result (Blames name.now (flag_in name.now args.now ≡ None)) }
{
    match read_flag(args, name) {
        Some(flag) => Ok(flag),
        None => Err(blame_argument(alloc, name)),
    }
}

fn count(alloc: Global, args: &Members, name: &str) -> Result<u64, WantedFault>
    ensures ok { IfOk result (λ n. count_in name.now args.now ≡ Some n) }
    ensures err { IfErr result (Blames name.now (count_in name.now args.now ≡ None)) }
{
    match read_count(args, name) {
        Some(count) => Ok(count),
        None => Err(blame_argument(alloc, name)),
    }
}

/// Like [`read_wanted`], for arguments that are known to be an object.
pub fn read_wanted_members(
    alloc: Global,
    args: &Members,
    parse: bool,
) -> Result<Wanted, WantedFault>
    ensures ok { IfOk result (λ w. wanted_by (Some args.now) parse ≡ asked w) }
    ensures err { IfErr result (λ fault. ReadingFails fault (wanted_by (Some args.now) parse)) }
{
    let parts = part_properties(alloc, args)?;
    let all_values = read_flag_argument(alloc, args, "fetchAllBodyValues")?;
    let html_values = read_flag_argument(alloc, args, "fetchHTMLBodyValues")?;
    let text_values = read_flag_argument(alloc, args, "fetchTextBodyValues")?;
    let most_bytes = count(alloc, args, "maxBodyValueBytes")?;
    let properties = read_email_properties(alloc, args, parse)?;
    Ok(Wanted {
        properties,
        parts,
        text_values,
        html_values,
        all_values,
        most_bytes,
    })
}

/// Returns the properties of each email that the arguments of an Email/get ask for, or those of
/// each message that the arguments of an Email/parse ask for (RFC 8621, sections 4.2 and 4.9).
///
/// Fails with `Invalid` if an argument has a wrong form or names an unknown property: it carries
/// the first such name in byte order. Arguments of other names are ignored.
pub fn read_wanted(alloc: Global, args: &Json, parse: bool) -> Result<Wanted, WantedFault>
    ensures ok { IfOk result (λ w. wanted_in (tree_of args.now) parse ≡ asked w) }
    ensures err { IfErr result (λ fault. ReadingFails fault (wanted_in (tree_of args.now) parse)) }
{
    match args.as_object() {
        Some(args) => read_wanted_members(alloc, args, parse),
        None => Err(blame_argument(alloc, "")),
    }
}

// Returns these names of properties as the items of an argument.
fn build_name_items(alloc: Global, names: &[&str]) -> Result<Items, NoMemory>
    ensures { IfOk result (λ ts. ts ≡ map text (map (λ t. t.now) names.now)) }
{
    let mut items = Items::with_room(alloc, names.len())?;
    for name in names {
        items.push(Json::Text(Text::from_str(alloc, name)?))?;
    }
    Ok(items)
}

#[tactic(auto, unfolding(crate::specs::Wanted::read_arguments))]
fn read_arguments(alloc: Global) -> Result<Json, NoMemory>
    ensures { IfOk result (λ t. tree_of t ≡ read_arguments) }
{
    let mut names = build_name_items(alloc, &MESSAGE_NAMES)?;
    names.push(Json::Text(Text::from_str(alloc, "bodyStructure")?))?;
    let mut args = Members::with_room(alloc, 2)?;
    args.set(alloc, "fetchTextBodyValues", Json::Bool(true))?;
    args.set(alloc, "properties", Json::List(names))?;
    Ok(Json::Object(args))
}

/// Returns the names of the properties of an email that a client keeps, as the argument
/// `properties` of an Email/get (RFC 8621, section 4.2).
pub fn build_cached_names(alloc: Global) -> Result<Json, NoMemory>
    ensures { IfOk result (λ t. tree_of t ≡ cached_names_tree) }
{
    Ok(Json::List(build_name_items(alloc, &CACHED_NAMES)?))
}

/// Returns the properties of a message that the command line prints: the default properties of an
/// Email/parse and bodyStructure, with the values of the text body.
pub fn build_wanted_for_read(alloc: Global) -> Result<Wanted, NoMemory>
    ensures { IfOk result (λ w. wanted_in read_arguments true ≡ asked w) }
{
    let args = read_arguments(alloc)?;
    match read_wanted(alloc, &args, true) {
        Ok(wanted) => Ok(wanted),
        // Each of these arguments is valid, so that only an allocation can fail.
        Err(_) => Err(NoMemory),
    }
}
