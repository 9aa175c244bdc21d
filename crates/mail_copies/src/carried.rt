// What is carried from the account of the originals (RFC 8620, section 5.4).
ghost use Rattle.std.specs.Prelude.{◌≡◌, ◌<◌, ◌^◌, [], IfOk, drop, map, option_and_then, option_map, unwrap_or};
ghost use Rattle.std.specs.Cmp.Lexicographic.{slice_cmp};
ghost use Rattle.std.specs.Ordering.{nat_cmp};
ghost use Rattle.jm_json.specs.Find.{as_text};
ghost use Rattle.mail_counts.specs.Touched.{sorted_once};
ghost use Rattle.jm_json.specs.Json.{member_of, tree_of};
ghost use Rattle.method_args.specs.Arguments.{is_null};
ghost use Rattle.set_parts.specs.Names.{meanings};
ghost use Rattle.set_parts.specs.Responses.{member_named};
ghost use Rattle.mail_copies.specs.Carried.{carried_date, carried_keywords, deliveries, kept_date, kept_keyword};
ghost use Rattle.mail_copies.specs.Copies.{first_delivery};
ghost use Rattle.mail_copies.specs.Views.{delivery_of};

use email_creates::read_date;
use jm_base::{Bytes, NoMemory, Text, Texts, UtcDate, utc_text};
use jm_json::{Json, Member};
use set_parts::{is_true, read_keyword, sort_names};
use std::alloc::Global;

/// An original that is carried: its item, and the bytes of its blob.
#[derive(Clone, Copy)]
pub struct Delivery<'a> {
    pub item: &'a Json,
    pub bytes: &'a [u8],
}

fn is_null(value: &Json) -> bool
    ensures { result ≡ is_null (tree_of value.now) }
{
    match value {
        Json::Null => true,
        Json::Bool(_) | Json::Int(_) | Json::Text(_) | Json::List(_) | Json::Object(_) => false,
    }
}

fn deliver<'a>(item: &'a Json, blob: Option<&'a Bytes>) -> Option<Delivery<'a>>
    ensures { option_map delivery_of result
        ≡ option_map (λ b. record { item = tree_of item.now; bytes = b.now }) blob.entry }
{
    match blob {
        Some(blob) => Some(Delivery {
            item,
            bytes: blob.as_slice(),
        }),
        None => None,
    }
}

/// Returns what is delivered for each of these items: each that is not null takes the next blob.
pub fn collect_deliveries<'a>(
    alloc: Global,
    items: &'a [Json],
    blobs: &'a [Bytes],
) -> Result<Vec<Option<Delivery<'a>>>, NoMemory>
    ensures { IfOk result (λ v. map (λ d. option_map delivery_of d) v.items
        ≡ deliveries (map tree_of items.now) blobs.now) }
{
    let mut found = Vec::with_capacity(alloc, items.len())?;
    let mut used = 0;
    for item in items {
        if is_null(item) {
            found.push(None)?;
            continue;
        }
        found.push(deliver(item, blobs.get(used)))?;
        used += 1;
    }
    Ok(found)
}

/// Returns what is delivered at an index.
pub fn pick_delivery<'a>(deliveries: &[Option<Delivery<'a>>], index: usize) -> Option<Delivery<'a>>
    ensures { option_map delivery_of result
        ≡ first_delivery (drop index (map (λ d. option_map delivery_of d) deliveries.now)) }
{
    match deliveries.get(index) {
        Some(delivery) => *delivery,
        None => None,
    }
}

// Returns the member of this name, if an item is an object.
fn find_member<'a>(item: &'a Json, name: &str) -> Option<&'a Json>
    ensures { option_map (λ t. tree_of t.now) result ≡ member_named name.now (tree_of item.now) }
{
    item.as_object()?.get(name)
}

// ---- keywords

// Returns the keyword that a name is, if it is written as Email/get writes that keyword.
fn read_kept_keyword(alloc: Global, name: &Text) -> Result<Option<Text>, NoMemory>
    ensures { IfOk result (λ k. k ≡ kept_keyword name.now) }
{
    match read_keyword(alloc, name)? {
        Some(keyword) => if name.as_str() == keyword.as_str() {
            Ok(Some(keyword))
        } else {
            Ok(None)
        },
        None => Ok(None),
    }
}

fn collect_kept_keywords(alloc: Global, members: &[Member]) -> Result<Option<Vec<Text>>, NoMemory>
    ensures { IfOk result (λ o. option_map (λ v. v.items) o
        ≡ meanings kept_keyword (map member_of members.now)) }
{
    let mut keywords = Vec::with_capacity(alloc, members.len())?;
    for member in members {
        if !is_true(&member.value) {
            return Ok(None);
        }
        match read_kept_keyword(alloc, &member.name)? {
            Some(keyword) => keywords.push(keyword)?,
            None => return Ok(None),
        }
    }
    Ok(Some(keywords))
}

fn order_keywords(alloc: Global, keywords: Option<Vec<Text>>) -> Texts
    ensures { result ≡ unwrap_or (option_map (sorted_once (slice_cmp nat_cmp))
        (option_map (λ v. v.items) keywords)) [] }
{
    match keywords {
        Some(keywords) => sort_names(keywords),
        None => Texts::new(alloc),
    }
}

/// Reads the keywords of an original: none if its item does not say them as Email/get does.
pub fn read_carried_keywords(alloc: Global, item: &Json) -> Result<Texts, NoMemory>
    ensures { IfOk result (λ ks. ks ≡ carried_keywords (tree_of item.now)) }
{
    let Some(tree) = find_member(item, "keywords") else {
        return Ok(Texts::new(alloc))
    };
    let Some(object) = tree.as_object() else {
        return Ok(Texts::new(alloc))
    };
    let keywords = collect_kept_keywords(alloc, object.as_slice())?;
    Ok(order_keywords(alloc, keywords))
}

// ---- the date of receipt

// Returns the date that a string is, if it is written as Email/get writes that date.
fn read_kept_date(alloc: Global, text: &Text) -> Result<Option<UtcDate>, NoMemory>
    ensures { IfOk result (λ d. d ≡ kept_date text.now) }
{
    match read_date(text.as_bytes()) {
        Some(date) => {
            let kept = utc_text(alloc, &date)?;
            if text.as_str() == kept.as_str() {
                Ok(Some(date))
            } else {
                Ok(None)
            }
        }
        None => Ok(None),
    }
}

fn find_text<'a>(item: &'a Json, name: &str) -> Option<&'a Text>
    ensures { option_map (λ t. t.now) result
        ≡ option_and_then as_text (member_named name.now (tree_of item.now)) }
{
    find_member(item, name)?.as_text()
}

/// Reads the date of receipt of an original: the timestamp of the call, in Unix seconds, if its
/// item does not say it as Email/get does.
pub fn read_carried_date(alloc: Global, item: &Json, moment: u64) -> Result<UtcDate, NoMemory>
    requires { moment < 2 ^ 63 }
    ensures { IfOk result (λ d. d ≡ carried_date moment (tree_of item.now)) }
{
    let call = UtcDate {
        seconds: moment as i64,
    };
    match find_text(item, "receivedAt") {
        Some(text) => Ok(read_kept_date(alloc, text)?.unwrap_or(call)),
        None => Ok(call),
    }
}
