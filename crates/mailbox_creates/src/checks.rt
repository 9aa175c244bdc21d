// Which properties of a create are invalid, after the creates before it (RFC 8621, section 2.5).
ghost use Rattle.std.specs.Prelude.{IfOk, false, filter, is_some, map, option_map, ◌<◌, ◌≡◌};
ghost use Rattle.std.specs.List.{list_any};
ghost use Rattle.jm_base.specs.declared.identifiers.TheConstants.{NUMBER_LIMIT};
ghost use Rattle.jm_json.specs.Json.{member_of, tree_of};
ghost use Rattle.jm_json.specs.Order.{KeysRise};
ghost use Rattle.jm_json.specs.Tree.{text as text_tree};
ghost use Rattle.mail_records.specs.Contents.{mailbox_at};
ghost use Rattle.mail_counts.specs.Tidy.{is_sibling};
ghost use Rattle.mail_counts.specs.Views.{mailbox_members};
ghost use Rattle.mailbox_creates.specs.Properties.{parent_in, sent_parent, sent_properties};
ghost use Rattle.set_parts.specs.CreationIds.{identifier};
ghost use Rattle.mailbox_creates.specs.Views.{Follows, has_role, properties_of};
ghost use Rattle.set_parts.specs.Views.{MeansIfAny};
ghost use Rattle.set_parts.specs.Creates.{Creating};
ghost use Rattle.mailbox_creates.specs.Creates.{bad_members, blank, differs, faults_of, is_bad, is_name_taken, is_role_taken, property};

use crate::names::{has_other_role, has_other_sibling};
use crate::planner::Planner;
use crate::properties::{SentProperties, read_name, read_role, read_sort_order, read_subscribed};
use jm_base::{Kind, NoMemory, Text};
use jm_json::{Json, Member, Members, is_same_tree};
use mail_counts::build_mailbox_view;
use mail_records::Mailbox;
use set_parts::{find_id, has_text, read_mailbox_number, read_reference};
use std::alloc::Global;

/// Which of the properties that a client may set are invalid: a value is invalid by itself, or it
/// breaks a rule.
#[derive(Clone, Copy, Debug, PartialEq, Eq)]
pub struct Faults {
    pub name: bool,
    pub parent: bool,
    pub role: bool,
    pub sort_order: bool,
    pub subscribed: bool,
}

// Returns the number of the mailbox that a string names: by its id, or by a reference to a created
// one.
fn find_number<'a>(planner: &Planner<'a>, text: &'a Text) -> Option<u64>
    ensures { (s : Creating) → Follows planner.now s
        → MeansIfAny (identifier s.made text.now) result }
{
    match read_reference(text.as_bytes()) {
        Some(creation) => match find_id(&planner.creates.ids, creation) {
            Some(number) => number,
            None => None,
        },
        None => read_mailbox_number(text.as_bytes()),
    }
}

// Returns whether the mailbox of a number is there after the creates up to here.
fn is_there(planner: &Planner, number: u64) -> bool
    ensures { (s : Creating) → Follows planner.now s → result
        ≡ is_some (mailbox_at s.content number) }
{
    planner.content.mailbox(number).is_some()
        || (planner.content.next(Kind::Mailbox) <= number && number < planner.next)
}

fn find_parent<'a>(planner: &Planner<'a>, text: &'a Text) -> Option<Option<u64>>
    requires { planner.now.next < NUMBER_LIMIT }
    ensures { (s : Creating) → Follows planner.now s → result
        ≡ parent_in s.content s.made (Some (text_tree text.now)) }
{
    match find_number(planner, text) {
        Some(number) => if is_there(planner, number) {
            Some(Some(number))
        } else {
            None
        },
        None => None,
    }
}

fn parse_parent<'a>(planner: &Planner<'a>, tree: &'a Json) -> Option<Option<u64>>
    requires { planner.now.next < NUMBER_LIMIT }
    ensures { (s : Creating) → Follows planner.now s → result
        ≡ parent_in s.content s.made (Some (tree_of tree.now)) }
{
    match tree {
        Json::Null => Some(None),
        Json::Text(text) => find_parent(planner, text),
        Json::Bool(_) | Json::Int(_) | Json::List(_) | Json::Object(_) => None,
    }
}

fn read_parent<'a>(planner: &Planner<'a>, members: &'a Members) -> Option<Option<u64>>
    requires { planner.now.next < NUMBER_LIMIT }
    ensures { (s : Creating) → Follows planner.now s → result
        ≡ sent_parent s.content s.made members.now }
{
    match members.get("parentId") {
        Some(tree) => parse_parent(planner, tree),
        None => Some(None),
    }
}

/// Reads the properties that a create sends.
pub fn read_properties<'a>(planner: &Planner<'a>, members: &'a Members) -> SentProperties<'a>
    requires { planner.now.next < NUMBER_LIMIT }
    ensures { (s : Creating) → Follows planner.now s → properties_of result
        ≡ sent_properties s.content s.made members.now }
{
    SentProperties {
        name: read_name(members),
        parent: read_parent(planner, members),
        role: read_role(members),
        sort_order: read_sort_order(members),
        subscribed: read_subscribed(members),
    }
}

// Returns whether some mailbox has this parent and name.
fn has_sibling_named<'a>(planner: &Planner<'a>, parent: Option<u64>, name: &'a str) -> bool
    ensures { (s : Creating) → Follows planner.now s → result
        ≡ list_any (is_sibling parent name.now) s.content.mailboxes }
{
    if has_text(&planner.names, parent, name) {
        return true;
    }
    let first = planner.content.next(Kind::Mailbox);
    let siblings = planner.content.find_children_named(parent, name.as_bytes());
    has_other_sibling(siblings, first, planner.next)
}

fn is_name_taken<'a>(planner: &Planner<'a>, properties: &SentProperties<'a>) -> bool
    ensures { (s : Creating) → Follows planner.now s → result
        ≡ is_name_taken s.content (properties_of properties.now).parent
        (properties_of properties.now).name }
{
    match properties.parent {
        Some(parent) => match properties.name {
            Some(name) => has_sibling_named(planner, parent, name.as_str()),
            None => false,
        },
        None => false,
    }
}

// Returns whether some mailbox has this role.
fn has_mailbox_with_role<'a>(planner: &Planner<'a>, role: &'a str) -> bool
    ensures { (s : Creating) → Follows planner.now s → result
        ≡ list_any (has_role role.now) s.content.mailboxes }
{
    if has_text(&planner.roles, None, role) {
        return true;
    }
    let first = planner.content.next(Kind::Mailbox);
    has_other_role(
        planner.content.with_role(role.as_bytes()),
        first,
        planner.next,
    )
}

fn is_role_used<'a>(planner: &Planner<'a>, role: Option<&'a Text>) -> bool
    ensures { (s : Creating) → Follows planner.now s → result
        ≡ is_role_taken s.content (option_map (λ t. t.now) role.entry) }
{
    match role {
        Some(role) => has_mailbox_with_role(planner, role.as_str()),
        None => false,
    }
}

fn is_name_bad<'a>(planner: &Planner<'a>, properties: &SentProperties<'a>) -> bool
    ensures { (s : Creating) → Follows planner.now s → result
        ≡ (faults_of s.content (properties_of properties.now)).name }
{
    if properties.name.is_none() {
        return true;
    }
    is_name_taken(planner, properties)
}

fn is_role_bad<'a>(planner: &Planner<'a>, properties: &SentProperties<'a>) -> bool
    ensures { (s : Creating) → Follows planner.now s → result
        ≡ (faults_of s.content (properties_of properties.now)).role }
{
    match properties.role {
        Some(role) => is_role_used(planner, role),
        None => true,
    }
}

/// Returns which of the properties that a client may set are invalid.
pub fn check_properties<'a>(planner: &Planner<'a>, properties: &SentProperties<'a>) -> Faults
    ensures { (s : Creating) → Follows planner.now s → result
        ≡ faults_of s.content (properties_of properties.now) }
{
    Faults {
        name: is_name_bad(planner, properties),
        parent: properties.parent.is_none(),
        role: is_role_bad(planner, properties),
        sort_order: properties.sort_order.is_none(),
        subscribed: properties.subscribed.is_none(),
    }
}

fn differs(given: Option<&Json>, value: &Json) -> bool
    ensures { result ≡ differs (option_map (λ j. tree_of j.now) given.entry) (tree_of value.now) }
{
    match given {
        Some(given) => !is_same_tree(given, value),
        None => true,
    }
}

fn is_bad(faults: &Faults, given: &Members, member: &Member) -> bool
    ensures { result ≡ is_bad faults.now given.now (member_of member.now) }
{
    match member.name.as_str() {
        "isSubscribed" => faults.subscribed,
        "name" => faults.name,
        "parentId" => faults.parent,
        "role" => faults.role,
        "sortOrder" => faults.sort_order,
        name => differs(given.get(name), &member.value),
    }
}

fn collect_invalid(
    alloc: Global,
    faults: &Faults,
    given: &Members,
    sent: &[Member],
) -> Result<Members, NoMemory>
    requires { KeysRise (map member_of sent.now) }
    ensures { IfOk result
        (λ ms. ms ≡ map property (filter (is_bad faults.now given.now) (map member_of sent.now))) }
{
    let mut bad = Members::new(alloc);
    for member in sent {
        if is_bad(faults, given, member) {
            bad.push(member.name.copy()?, Json::Null)?;
        }
    }
    Ok(bad)
}

/// Returns the invalid properties of a create, in byte order, each with null in the place of its
/// value.
pub fn find_invalid_members(
    alloc: Global,
    faults: &Faults,
    given: &Members,
    sent: &Members,
) -> Result<Members, NoMemory>
    ensures { IfOk result (λ ms. ms ≡ bad_members faults.now given.now sent.now) }
{
    let mut bad = collect_invalid(alloc, faults, given, sent.as_slice())?;
    if sent.get("name").is_none() {
        bad.set(alloc, "name", Json::Null)?;
    }
    Ok(bad)
}

/// Returns the properties of a new mailbox of this number for which a client sends nothing.
pub fn build_default_members(alloc: Global, number: u64) -> Result<Members, NoMemory>
    ensures { IfOk result (λ ms. ms ≡ mailbox_members false (blank number)) }
{
    let name = Text::from_str(alloc, "")?;
    let mailbox = Mailbox {
        number,
        name,
        parent: None,
        role: None,
        sort_order: 0,
        subscribed: true,
        total_emails: 0,
        unread_emails: 0,
        total_threads: 0,
        unread_threads: 0,
    };
    build_mailbox_view(alloc, &mailbox, false)
}
