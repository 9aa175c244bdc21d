// The part of a result list that a frame names (RFC 8620, section 5.5).
ghost use Rattle.std.specs.Prelude.{◌≡◌, ◌<◌, ◌^◌, ◌==◌, ℕ, drop, false, take, IfErr, IfNone, IfOk, IfSome};
ghost use Rattle.mail_records.specs.States.{is_kind};
ghost use Rattle.query_engine.specs.Windows.{ExplainsWindow, from_position, greatest_count, index_where, is_id_of, limit_of, moved, part, part_from, start_of, limit_in_response, unsigned, window_of};

use crate::frame::{Frame, Shown, WindowFault};
use crate::limits::MAX_IDS_PER_QUERY;
use jm_base::{Kind, NoMemory, Numbers, read_id};
use std::alloc::Global;

fn is_kind(one: Kind, other: Kind) -> bool
    ensures { result ≡ is_kind one other }
{
    one == other
}

// Returns the number of the record of the kind whose id a text is, or None if it is no such id.
pub(crate) fn read_number_of_id(kind: Kind, id: &[u8]) -> Option<u64>
    ensures some { IfSome result (λ n. (m : ℕ) → is_id_of kind id.now m ≡ (m == n)) }
    ensures none { IfNone result ((m : ℕ) → is_id_of kind id.now m ≡ false) }
{
    match read_id(id) {
        Ok(found) => {
            if is_kind(found.kind, kind) {
                Some(found.number)
            } else {
                None
            }
        }
        Err(_) => None,
    }
}

fn index_of(list: &[u64], number: u64) -> Option<usize>
    ensures index { result ≡ index_where (λ n. n == number) 0 list.now }
    ensures below { IfSome result (λ i. i < 2 ^ 63) }
{
    let mut index = 0;
    for other in list {
        if *other == number {
            return Some(index);
        }
        index += 1;
    }
    None
}

// Returns the index of the record with this id in a list of the kind.
#[tactic(auto, using(crate::proofs::Anchors::same_index, crate::proofs::Anchors::no_index))]
fn find_anchor(kind: Kind, list: &[u64], id: &[u8]) -> Option<usize>
    ensures index { result ≡ index_where (is_id_of kind id.now) 0 list.now }
    ensures below { IfSome result (λ i. i < 2 ^ 63) }
{
    match read_number_of_id(kind, id) {
        Some(number) => index_of(list, number),
        None => None,
    }
}

// Returns an index with an offset added, or 0 if that is below 0.
fn move_index(index: u64, offset: i64) -> u64
    requires { index < 2 ^ 63 }
    ensures { result ≡ moved index offset }
{
    if offset < 0 {
        index.saturating_sub(offset.unsigned_abs())
    } else {
        index + offset as u64
    }
}

fn from_position(total: u64, position: i64) -> u64
    ensures { result ≡ from_position total position }
{
    if position < 0 {
        total.saturating_sub(position.unsigned_abs())
    } else {
        position as u64
    }
}

// Returns the index at which the part begins, or None if the anchor is not in the list.
fn start_of(kind: Kind, list: &[u64], frame: &Frame) -> Option<u64>
    ensures { result ≡ start_of kind list.now frame.now }
{
    match &frame.anchor {
        Some(id) => {
            match find_anchor(kind, list, id.as_bytes()) {
                Some(index) => Some(move_index(index as u64, frame.offset)),
                None => None,
            }
        }
        None => Some(from_position(list.len() as u64, frame.position)),
    }
}

/// Returns how many ids there are at most, of a limit that is asked for.
pub(crate) fn find_greatest_count(limit: Option<u64>) -> u64
    ensures { result ≡ greatest_count limit }
{
    match limit {
        Some(limit) => limit.min(MAX_IDS_PER_QUERY),
        None => MAX_IDS_PER_QUERY,
    }
}

fn limit_in_response(limit: Option<u64>) -> Option<u64>
    ensures { result ≡ limit_in_response limit }
{
    match limit {
        Some(limit) => {
            if limit <= MAX_IDS_PER_QUERY {
                None
            } else {
                Some(MAX_IDS_PER_QUERY)
            }
        }
        None => Some(MAX_IDS_PER_QUERY),
    }
}

fn check_limit(limit: i64) -> Option<Option<u64>>
    ensures { result ≡ unsigned limit }
{
    if limit < 0 {
        None
    } else {
        Some(Some(limit as u64))
    }
}

/// Returns the limit that is asked for, which may be none, or `None` if it is below 0.
pub(crate) fn limit_of(limit: Option<i64>) -> Option<Option<u64>>
    ensures { result ≡ limit_of limit }
{
    match limit {
        Some(limit) => check_limit(limit),
        None => Some(None),
    }
}

fn skip(list: &[u64], count: u64) -> &[u64]
    ensures { result.now ≡ drop count list.now }
{
    if count < list.len() as u64 {
        &list[count as usize..]
    } else {
        &[]
    }
}

fn keep(list: &[u64], count: u64) -> &[u64]
    ensures { result.now ≡ take count list.now }
{
    if count < list.len() as u64 {
        &list[..count as usize]
    } else {
        list
    }
}

fn part_from(alloc: Global, list: &[u64], limit: Option<u64>, start: u64) -> Result<Shown, NoMemory>
    ensures { IfOk result (λ shown. shown ≡ part_from list.now limit start) }
{
    let ids = keep(skip(list, start), find_greatest_count(limit)).to_vec(alloc)?;
    Ok(Shown {
        position: start,
        ids: Numbers::from_vec(ids),
        limit: limit_in_response(limit),
    })
}

/// Returns the part of a result list of a kind that a frame names (RFC 8620, section 5.5): from the
/// anchor, moved by the offset, or from the position if there is no anchor, at most as many ids as
/// the limit and [`MAX_IDS_PER_QUERY`] say.
///
/// Fails with `BadLimit` if the limit is below 0, else with `AnchorNotFound` if the anchor is not
/// the id of a record in the list, or with `NoMemory` if an allocation fails.
pub fn window(alloc: Global, kind: Kind, list: &[u64], frame: &Frame) -> Result<Shown, WindowFault>
    ensures shown { IfOk result (λ shown. window_of kind list.now frame.now ≡ part shown) }
    ensures fault { IfErr result (λ fault. ExplainsWindow fault (window_of kind list.now
        frame.now)) }
{
    match limit_of(frame.limit) {
        Some(limit) => match start_of(kind, list, frame) {
            Some(start) => Ok(part_from(alloc, list, limit, start)?),
            None => Err(WindowFault::AnchorNotFound),
        },
        None => Err(WindowFault::BadLimit),
    }
}
