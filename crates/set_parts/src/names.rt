// The mailboxes and keywords of an email: objects whose names are their items, and whose values are
// true (RFC 8621, section 4.1.1).
ghost use Rattle.std.specs.Prelude.{◌≡◌, [], IfOk, List, codes, map, option_and_then, option_map, true};
ghost use Rattle.std.specs.Cmp.Lexicographic.{slice_cmp};
ghost use Rattle.std.specs.Ordering.{nat_cmp};
ghost use Rattle.jm_json.specs.Find.{find};
ghost use Rattle.jm_json.specs.Json.{member_of, tree_of};
ghost use Rattle.jm_json.specs.declared.invocation.Created.{Created as TheCreated};
ghost use Rattle.mail_counts.specs.Touched.{rising, sorted_once};
ghost use Rattle.jm_base.specs.declared.identifiers.Kind.TheVariants.{Mailbox as OfMailbox};
ghost use Rattle.jm_json.specs.Order.{put_all};
ghost use Rattle.jm_json.specs.Tree.{boolean};
ghost use Rattle.mail_counts.specs.Views.{mailbox_id};
ghost use Rattle.set_parts.specs.CreationIds.{identifier, number_meant};
ghost use Rattle.set_parts.specs.Names.{is_true, keyword_meant, keywords_in, mailboxes_in, meanings, set_in, set_tree, unless_empty};
ghost use Rattle.set_parts.specs.Views.{HoldIds, MeansIfAny};

use crate::creation_ids::{CreatedIds, find_id, read_mailbox_number, read_reference};
use crate::keywords::read_keyword;
use crate::mailbox_numbers::MailboxNumbers;
use jm_base::{Id, Kind, NoMemory, Numbers, Text, Texts, id_text};
use jm_json::{Json, Member, Members};
use mail_counts::put_in_order;
use std::alloc::Global;

/// Returns whether a value is true.
pub fn is_true(value: &Json) -> bool
    ensures { result ≡ is_true (tree_of value.now) }
{
    match value {
        Json::Bool(truth) => *truth,
        Json::Null | Json::Int(_) | Json::Text(_) | Json::List(_) | Json::Object(_) => false,
    }
}

// ---- mailboxes

// Returns the number of the mailbox that a string names: by its id, or by a reference to a created
// one.
fn find_number<'a>(ids: &CreatedIds<'a>, id: &str) -> Option<u64>
    ensures { (made : List TheCreated) → HoldIds ids.now made
        → MeansIfAny (identifier made id.now) result }
{
    match read_reference(id.as_bytes()) {
        Some(creation) => match find_id(ids, creation) {
            Some(number) => number,
            None => None,
        },
        None => read_mailbox_number(id.as_bytes()),
    }
}

/// Returns the number of the mailbox, of those that are there, that a string names: by its id, or
/// as `#k` by the id that was created last under k.
pub fn find_mailbox<'a, N: MailboxNumbers>(
    mailboxes: &N,
    ids: &CreatedIds<'a>,
    id: &str,
) -> Option<u64>
    ensures { (made : List TheCreated) → HoldIds ids.now made
        → result ≡ number_meant OfMailbox (N.numbers mailboxes.now) made id.now }
{
    match find_number(ids, id) {
        Some(number) => if mailboxes.has(number) {
            Some(number)
        } else {
            None
        },
        None => None,
    }
}

fn collect_mailboxes<'a, N: MailboxNumbers>(
    alloc: Global,
    mailboxes: &N,
    ids: &CreatedIds<'a>,
    members: &[Member],
) -> Result<Option<Vec<u64>>, NoMemory>
    ensures { IfOk result (λ o. (made : List TheCreated) → HoldIds ids.now made
        → option_map (λ v. v.items) o
        ≡ meanings (number_meant OfMailbox (N.numbers mailboxes.now) made)
        (map member_of members.now)) }
{
    let mut numbers = Vec::with_capacity(alloc, members.len())?;
    for member in members {
        if !is_true(&member.value) {
            return Ok(None);
        }
        match find_mailbox(mailboxes, ids, member.name.as_str()) {
            Some(number) => numbers.push(number)?,
            None => return Ok(None),
        }
    }
    Ok(Some(numbers))
}

// Returns numbers in order, each once.
fn order_numbers(numbers: Vec<u64>) -> Numbers
    ensures { result ≡ rising numbers.items }
{
    let mut numbers = numbers;
    put_in_order(&mut numbers);
    Numbers::from_vec(numbers)
}

// Returns numbers in order, each once, if there are any.
fn order_mailboxes(numbers: Option<Vec<u64>>) -> Option<Numbers>
    ensures { result ≡ option_map rising
        (option_and_then unless_empty (option_map (λ v. v.items) numbers)) }
{
    match numbers {
        Some(numbers) => if numbers.is_empty() {
            None
        } else {
            Some(order_numbers(numbers))
        },
        None => None,
    }
}

/// Reads the mailboxes in `mailboxIds`, which must be at least one and be there. They are in number
/// order, each once.
pub fn read_mailboxes<'a, N: MailboxNumbers>(
    alloc: Global,
    mailboxes: &N,
    ids: &CreatedIds<'a>,
    members: &Members,
) -> Result<Option<Numbers>, NoMemory>
    ensures { IfOk result (λ o. (made : List TheCreated) → HoldIds ids.now made
        → o ≡ mailboxes_in (N.numbers mailboxes.now) made
        (find (codes "mailboxIds") members.now)) }
{
    let Some(tree) = members.get("mailboxIds") else {
        return Ok(None)
    };
    let Some(object) = tree.as_object() else {
        return Ok(None)
    };
    let numbers = collect_mailboxes(alloc, mailboxes, ids, object.as_slice())?;
    Ok(order_mailboxes(numbers))
}

// ---- keywords

fn collect_keywords(alloc: Global, members: &[Member]) -> Result<Option<Vec<Text>>, NoMemory>
    ensures { IfOk result (λ o. option_map (λ v. v.items) o
        ≡ meanings keyword_meant (map member_of members.now)) }
{
    let mut keywords = Vec::with_capacity(alloc, members.len())?;
    for member in members {
        if !is_true(&member.value) {
            return Ok(None);
        }
        match read_keyword(alloc, &member.name)? {
            Some(keyword) => keywords.push(keyword)?,
            None => return Ok(None),
        }
    }
    Ok(Some(keywords))
}

/// Sorts names in byte order, and leaves each once.
pub fn sort_names(texts: Vec<Text>) -> Texts
    ensures { result ≡ sorted_once (slice_cmp nat_cmp) texts.items }
{
    let mut texts = texts;
    texts.sort_unstable_by(|a, b| a.as_bytes().cmp(b.as_bytes()));
    texts.dedup();
    Texts::from_vec(texts)
}

fn order_keywords(keywords: Option<Vec<Text>>) -> Option<Texts>
    ensures { result ≡ option_map (sorted_once (slice_cmp nat_cmp))
        (option_map (λ v. v.items) keywords) }
{
    match keywords {
        Some(keywords) => Some(sort_names(keywords)),
        None => None,
    }
}

fn parse_keywords(alloc: Global, tree: &Json) -> Result<Option<Texts>, NoMemory>
    ensures { IfOk result (λ o. o
        ≡ option_map (sorted_once (slice_cmp nat_cmp)) (set_in keyword_meant (tree_of tree.now))) }
{
    let Some(object) = tree.as_object() else {
        return Ok(None)
    };
    let keywords = collect_keywords(alloc, object.as_slice())?;
    Ok(order_keywords(keywords))
}

/// Reads the keywords in `keywords`: none if nothing is sent. They are in byte order, each once.
pub fn read_keywords(alloc: Global, members: &Members) -> Result<Option<Texts>, NoMemory>
    ensures { IfOk result (λ o. o ≡ keywords_in (find (codes "keywords") members.now)) }
{
    match members.get("keywords") {
        Some(tree) => parse_keywords(alloc, tree),
        None => Ok(Some(Texts::new(alloc))),
    }
}

// ---- objects

/// Builds the object with the id of each of these mailboxes, and true at each.
pub fn build_mailbox_set(alloc: Global, numbers: &[u64]) -> Result<Json, NoMemory>
    ensures { IfOk result (λ j. tree_of j ≡ set_tree (map mailbox_id numbers.now)) }
{
    Ok(Json::Object(collect_mailbox_members(alloc, numbers)?))
}

fn collect_mailbox_members(alloc: Global, numbers: &[u64]) -> Result<Members, NoMemory>
    ensures { IfOk result
        (λ ms. ms ≡ put_all (map (λ k. (k, boolean true)) (map mailbox_id numbers.now)) []) }
{
    let mut set = Members::with_room(alloc, numbers.len())?;
    for number in numbers {
        let id = Id {
            kind: Kind::Mailbox,
            number: *number,
        };
        set.put(id_text(alloc, &id)?, Json::Bool(true))?;
    }
    Ok(set)
}

/// Builds the object with each of these keywords, and true at each.
pub fn build_keyword_set(alloc: Global, keywords: &[Text]) -> Result<Json, NoMemory>
    ensures { IfOk result (λ j. tree_of j ≡ set_tree keywords.now) }
{
    Ok(Json::Object(collect_keyword_members(alloc, keywords)?))
}

fn collect_keyword_members(alloc: Global, keywords: &[Text]) -> Result<Members, NoMemory>
    ensures { IfOk result (λ ms. ms ≡ put_all (map (λ k. (k, boolean true)) keywords.now) []) }
{
    let mut set = Members::with_room(alloc, keywords.len())?;
    for keyword in keywords {
        set.put(keyword.copy()?, Json::Bool(true))?;
    }
    Ok(set)
}
