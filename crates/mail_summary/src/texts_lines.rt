// A text with LF for each CRLF.
ghost use Rattle.std.specs.Prelude.{◌≡◌, ◌≢◌, ◌↔◌, ◌<◌, ◌≤◌, ◌+◌, ◌∷◌, ◌++◌, ℕ, if◌then◌else◌, ◌==◌, length, slice_index, IfOk, IfNone, IfSome, OnOk, string_bytes};
ghost use Rattle.std.specs.Int.{bit_at};
ghost use Rattle.memchr.specs.Lanes.{HasLanes};
ghost use Rattle.mail_summary.specs.Texts.{is_line_feed, with_line_feeds};

use jm_base::NoMemory;
use std::alloc::Global;
use std::simd::prelude::*;

/// How many bytes are looked at together.
const BLOCK_BYTES: usize = 32;

/// Returns a block as a vector.
#[inline(always)]
fn load(block: &[u8]) -> u8x32
    requires { BLOCK_BYTES ≤ length block.now }
    ensures { HasLanes result (slice_index block.now) }
{
    u8x32::from_slice(block)
}

/// Returns a vector with 255 for each CR, and 0 for each other byte.
#[inline(always)]
fn mark_returns(bytes: u8x32) -> u8x32
    ensures { HasLanes result (λ k. if slice_index bytes k == 13 then 255 else 0) }
{
    bytes
        .simd_eq(u8x32::splat(b'\r'))
        .select(u8x32::splat(255), u8x32::splat(0))
}

/// Returns the bits of the places that are marked.
#[inline(always)]
fn collect_marked_bits(marks: u8x32) -> u64
    ensures { (k : ℕ) → (bit_at result k ≡ 1) ↔ (128 ≤ slice_index marks k) }
{
    marks.simd_ge(u8x32::splat(128)).to_bitmask()
}

/// Returns the place of the lowest bit that is 1.
#[inline(always)]
fn find_lowest_bit(bits: u64) -> usize
    requires { bits ≢ 0 }
    ensures set { bit_at bits result ≡ 1 }
    ensures below { (k : ℕ) → k < result → bit_at bits k ≡ 0 }
{
    bits.trailing_zeros() as usize
}

/// Returns the place of the first CR of a block.
#[inline(always)]
fn find_first_return(block: &[u8]) -> Option<usize>
    requires { BLOCK_BYTES ≤ length block.now }
    ensures none { IfNone result ((k : ℕ) → k < BLOCK_BYTES → slice_index block.now k ≢ 13) }
    ensures within { IfSome result (λ i. i < BLOCK_BYTES) }
    ensures some { IfSome result (λ i. slice_index block.now i ≡ 13) }
    ensures before { IfSome result (λ i. (k : ℕ) → k < i → slice_index block.now k ≢ 13) }
{
    let bits = collect_marked_bits(mark_returns(load(block)));
    if bits == 0 {
        return None;
    }
    Some(find_lowest_bit(bits))
}

/// Returns whether a text begins with an LF.
fn begins_with_line_feed(text: &[u8]) -> bool
    ensures { result ≡ is_line_feed text.now }
{
    match text {
        [first, ..] => *first == b'\n',
        [] => false,
    }
}

/// Adds the CR before some text, unless it ends a line with the LF after it.
fn push_return(out: &mut Vec<u8>, after: &[u8]) -> Result<(), NoMemory>
    ensures { OnOk result (out.new.items ++ with_line_feeds after.now ≡ out.old.items
        ++ with_line_feeds (13 ∷ after.now)) }
{
    if !begins_with_line_feed(after) {
        out.push(b'\r')?;
    }
    Ok(())
}

/// Adds the text up to the end of the first line, or of the first block if that comes first, and
/// returns the text after it. The whole block is copied, and cut: a copy whose length is known is
/// fast.
fn push_block<'a>(out: &mut Vec<u8>, text: &'a [u8]) -> Result<&'a [u8], NoMemory>
    requires { BLOCK_BYTES ≤ length text.now }
    ensures text { IfOk result (λ rest. out.new.items ++ with_line_feeds rest.now ≡ out.old.items
        ++ with_line_feeds text.now) }
    ensures shorter { IfOk result (λ rest. length rest.now < length text.now) }
{
    let len = out.as_slice().len();
    let (block, rest) = text.split_at(BLOCK_BYTES);
    out.extend_from_slice(block)?;
    let Some(i) = find_first_return(block) else {
        return Ok(rest);
    };
    out.truncate(len + i);
    let after = text.split_at(i + 1).1;
    push_return(out, after)?;
    Ok(after)
}

/// Adds the first byte of a text, and returns the text after it.
fn push_first<'a>(out: &mut Vec<u8>, text: &'a [u8]) -> Result<&'a [u8], NoMemory>
    requires { 0 < length text.now }
    ensures text { IfOk result (λ rest. out.new.items ++ with_line_feeds rest.now ≡ out.old.items
        ++ with_line_feeds text.now) }
    ensures shorter { IfOk result (λ rest. length rest.now < length text.now) }
{
    let after = &text[1..];
    if text[0] == b'\r' {
        push_return(out, after)?;
        return Ok(after);
    }
    out.push(text[0])?;
    Ok(after)
}

/// Adds a text, byte by byte.
fn push_bytes(out: &mut Vec<u8>, text: &[u8]) -> Result<(), NoMemory>
    ensures { OnOk result (out.new.items ≡ out.old.items ++ with_line_feeds text.now) }
{
    let mut left = text;
    while !left.is_empty() {
        left = push_first(out, left)?;
    }
    Ok(())
}

/// Returns bytes with LF for each CRLF.
pub fn replace_line_ends(alloc: Global, text: &[u8]) -> Result<Vec<u8>, NoMemory>
    ensures { IfOk result (λ out. out.items ≡ with_line_feeds text.now) }
{
    let mut out = Vec::with_capacity(alloc, text.len())?;
    let mut left = text;
    while left.len() >= BLOCK_BYTES {
        left = push_block(&mut out, left)?;
    }
    push_bytes(&mut out, left)?;
    Ok(out)
}

/// Returns a text with LF for each CRLF (RFC 8621, section 4.1.4).
pub fn with_line_feeds_of(alloc: Global, text: &str) -> Result<String, NoMemory>
    ensures { IfOk result (λ t. string_bytes t ≡ with_line_feeds text.now) }
{
    match String::from_utf8(replace_line_ends(alloc, text.as_bytes())?) {
        Ok(out) => Ok(out),
        Err(_) => unreachable!(),
    }
}
