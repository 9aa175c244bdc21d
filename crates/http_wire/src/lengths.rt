// What the fields of a head say of the length of the body.
ghost use Rattle.std.specs.Prelude.{◌≡◌, ◌<◌, ◌∷◌, [], List, ℕ, MatchOption, true, false, min};
ghost use Rattle.std.specs.Str.Parse.{digits_value};
ghost use Rattle.http_wire.specs.Fields.{pairs, values_of};
ghost use Rattle.http_wire.specs.Framings.{Framing, is_number, framing_by, framing_of};
ghost use Rattle.http_parts.specs.declared.limits.TheConstants.{BODY_BYTES_LIMIT};
ghost use Rattle.http_parts.specs.Plans.{planned, IsWithinLimit};
ghost use Rattle.http_wire.specs.Lengths.{IsSaid, greatest_size, length_name};
ghost use Rattle.http_wire.specs.Requests.{request_body};

use crate::fields::{find_next, has_field, is_same_word};
use crate::request::HttpField;
use http_parts::{BodyPlan, read_digit};

const LENGTH: &[u8] = b"Content-Length";

const CODING: &[u8] = b"Transfer-Encoding";

/// What the fields of a head say of the length of the body. A size that needs more bits is 2^64 -
/// 1.
#[derive(Clone, Copy, Debug, PartialEq, Eq)]
pub enum BodyLength {
    /// The fields contradict each other or the grammar.
    Invalid,

    /// No field says it.
    NotSaid,

    /// The body comes in chunks.
    Chunked,

    /// The body has so many bytes.
    Sized(u64),
}

// Returns the number that some digits say; 2^64 - 1 if it needs more bits.
#[tactic(auto, using(crate::proofs::SaidLengths::says_next, crate::proofs::SaidLengths::digits_next, crate::proofs::SaidLengths::no_number, crate::proofs::SaidLengths::a_number))]
fn read_number(text: &[u8]) -> Option<u64>
    ensures { MatchOption result (is_number text.now ≡ false) (λ n. (is_number text.now ≡ true) ×
        (n ≡ min (digits_value 10 text.now) greatest_size)) }
{
    if text.is_empty() {
        return None;
    }
    let mut value: u64 = 0;
    let mut rest = text;
    'digit: while let Some((byte, more)) = rest.split_first() {
        if !byte.is_ascii_digit() {
            return None;
        }
        value = value.saturating_mul(10).saturating_add(read_digit(*byte));
        rest = more;
    }
    Some(value)
}

// Returns what one Content-Length field says, and no Transfer-Encoding field.
fn read_length(size: &[u8]) -> BodyLength
    ensures { IsSaid (framing_by (size.now ∷ []) []) result }
{
    match read_number(size) {
        Some(number) => BodyLength::Sized(number),
        None => BodyLength::Invalid,
    }
}

// Returns what the Content-Length fields say, and no Transfer-Encoding field.
fn find_size(fields: &[HttpField]) -> BodyLength
    ensures { IsSaid (framing_by (values_of length_name (pairs fields.now)) []) result }
{
    match find_next(fields, LENGTH) {
        Some((size, rest)) => {
            if has_field(rest, LENGTH) {
                return BodyLength::Invalid;
            }
            read_length(size)
        }
        None => BodyLength::NotSaid,
    }
}

/// Returns what the fields say of the length of the body: one Content-Length of digits alone, or
/// one Transfer-Encoding of `chunked` in either case; both, or two of one, are invalid (RFC 9112,
/// 6.3).
pub fn find_length(fields: &[HttpField]) -> BodyLength
    ensures { IsSaid (framing_of (pairs fields.now)) result }
{
    match find_next(fields, CODING) {
        Some((coding, rest)) => {
            if has_field(rest, CODING) || has_field(fields, LENGTH) {
                return BodyLength::Invalid;
            }
            if is_same_word(coding, b"chunked") {
                return BodyLength::Chunked;
            }
            BodyLength::Invalid
        }
        None => find_size(fields),
    }
}

/// Returns how the body of a request is read, of which the fields say this and that has at most so
/// many bytes: none, if they say nothing (RFC 9112, 6.3).
pub fn plan_body(said: BodyLength, limit: usize) -> BodyPlan
    requires { limit < BODY_BYTES_LIMIT }
    ensures plan { (framing : Framing) → IsSaid framing said → (rest : List ℕ) → request_body limit
        framing rest ≡ planned limit result rest }
    ensures within { IsWithinLimit limit result }
{
    match said {
        BodyLength::Invalid => BodyPlan::Invalid,
        BodyLength::NotSaid => BodyPlan::Sized(0),
        BodyLength::Chunked => BodyPlan::Chunked,
        BodyLength::Sized(size) => {
            if size > limit as u64 {
                return BodyPlan::TooLong;
            }
            BodyPlan::Sized(size as usize)
        }
    }
}
