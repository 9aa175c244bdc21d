// The properties of a mailbox that a create gives (RFC 8620, section 5.3; RFC 8621, sections 2 and
// 2.5).
ghost use Rattle.std.specs.Prelude.{[], codes, if◌then◌else◌, option_map, true, unwrap_or, ◌≡◌};
ghost use Rattle.jm_json.specs.Find.{find};
ghost use Rattle.jm_json.specs.Json.{tree_of};
ghost use Rattle.jm_json.specs.Tree.{number, text as text_tree};
ghost use Rattle.mail_counts.specs.Forms.{is_name};
ghost use Rattle.mailbox_creates.specs.Properties.{role_in, sent_name, sort_order_in, subscribed_in};
ghost use Rattle.mailbox_creates.specs.Views.{properties_of};

use jm_base::Text;
use jm_json::{Json, Members};
use mail_counts::{is_name, is_role, is_sort_order};

/// The properties that the object of a create sends. None means a value that is invalid by
/// itself.
#[derive(Clone, Copy)]
pub struct SentProperties<'a> {
    pub name: Option<&'a Text>,
    pub parent: Option<Option<u64>>,
    pub role: Option<Option<&'a Text>>,
    pub sort_order: Option<u64>,
    pub subscribed: Option<bool>,
}

/// The values of a new mailbox that a client may set.
#[derive(Clone, Copy)]
pub struct NewValues<'a> {
    pub name: &'a str,
    pub parent: Option<u64>,
    pub role: Option<&'a Text>,
    pub sort_order: u64,
    pub subscribed: bool,
}

fn check_name<'a>(text: &'a Text) -> Option<&'a Text>
    ensures { option_map (λ t. t.now) result ≡ (if is_name text.now then Some text.now else None) }
{
    if is_name(text.as_str()) {
        Some(text)
    } else {
        None
    }
}

/// Reads the name.
pub fn read_name<'a>(members: &'a Members) -> Option<&'a Text>
    ensures { option_map (λ t. t.now) result ≡ sent_name members.now }
{
    check_name(members.get("name")?.as_text()?)
}

fn check_role<'a>(text: &'a Text) -> Option<Option<&'a Text>>
    ensures { option_map (λ r. option_map (λ t. t.now) r) result
        ≡ role_in (Some (text_tree text.now)) }
{
    if is_role(text.as_str()) {
        Some(Some(text))
    } else {
        None
    }
}

fn parse_role<'a>(tree: &'a Json) -> Option<Option<&'a Text>>
    ensures { option_map (λ r. option_map (λ t. t.now) r) result
        ≡ role_in (Some (tree_of tree.now)) }
{
    match tree {
        Json::Null => Some(None),
        Json::Text(text) => check_role(text),
        Json::Bool(_) | Json::Int(_) | Json::List(_) | Json::Object(_) => None,
    }
}

/// Reads the role: none if null or nothing is sent.
pub fn read_role<'a>(members: &'a Members) -> Option<Option<&'a Text>>
    ensures { option_map (λ r. option_map (λ t. t.now) r) result
        ≡ role_in (find (codes "role") members.now) }
{
    match members.get("role") {
        Some(tree) => parse_role(tree),
        None => Some(None),
    }
}

fn check_sort_order(value: i64) -> Option<u64>
    ensures { result ≡ sort_order_in (Some (number value)) }
{
    if value < 0 {
        return None;
    }
    let order = value as u64;
    if is_sort_order(order) {
        Some(order)
    } else {
        None
    }
}

fn parse_sort_order(tree: &Json) -> Option<u64>
    ensures { result ≡ sort_order_in (Some (tree_of tree.now)) }
{
    match tree {
        Json::Int(value) => check_sort_order(*value),
        Json::Null | Json::Bool(_) | Json::Text(_) | Json::List(_) | Json::Object(_) => None,
    }
}

/// Reads the sort order: 0 if nothing is sent.
pub fn read_sort_order(members: &Members) -> Option<u64>
    ensures { result ≡ sort_order_in (find (codes "sortOrder") members.now) }
{
    match members.get("sortOrder") {
        Some(tree) => parse_sort_order(tree),
        None => Some(0),
    }
}

fn parse_flag(tree: &Json) -> Option<bool>
    ensures { result ≡ subscribed_in (Some (tree_of tree.now)) }
{
    match tree {
        Json::Bool(truth) => Some(*truth),
        Json::Null | Json::Int(_) | Json::Text(_) | Json::List(_) | Json::Object(_) => None,
    }
}

/// Reads whether the mailbox is subscribed: true if nothing is sent.
pub fn read_subscribed(members: &Members) -> Option<bool>
    ensures { result ≡ subscribed_in (find (codes "isSubscribed") members.now) }
{
    match members.get("isSubscribed") {
        Some(tree) => parse_flag(tree),
        None => Some(true),
    }
}

/// Returns the values that are sent, and the default in the place of each invalid one.
pub fn choose_values<'a>(properties: &SentProperties<'a>) -> NewValues<'a>
    ensures name { result.name.now ≡ unwrap_or (properties_of properties.now).name [] }
    ensures parent { result.parent ≡ unwrap_or (properties_of properties.now).parent None }
    ensures role { option_map (λ t. t.now) result.role
        ≡ unwrap_or (properties_of properties.now).role None }
    ensures sort_order { result.sort_order ≡ unwrap_or (properties_of properties.now).sort_order 0 }
    ensures subscribed { result.subscribed
        ≡ unwrap_or (properties_of properties.now).subscribed true }
{
    NewValues {
        name: choose_name(properties.name),
        parent: properties.parent.unwrap_or(None),
        role: choose_role(properties.role),
        sort_order: properties.sort_order.unwrap_or(0),
        subscribed: properties.subscribed.unwrap_or(true),
    }
}

fn choose_name<'a>(name: Option<&'a Text>) -> &'a str
    ensures { result.now ≡ unwrap_or (option_map (λ t. t.now) name.entry) [] }
{
    match name {
        Some(text) => text.as_str(),
        None => "",
    }
}

fn choose_role<'a>(role: Option<Option<&'a Text>>) -> Option<&'a Text>
    ensures { option_map (λ t. t.now) result
        ≡ unwrap_or (option_map (λ r. option_map (λ t. t.now) r) role.entry) None }
{
    match role {
        Some(role) => role,
        None => None,
    }
}
