// The texts of identifiers and of states (RFC 8620, sections 1.2 and 5.1).
ghost use Rattle.std.specs.Prelude.{◌≡◌, ◌≢◌, ◌<◌, ◌^◌, ℕ, ◌↔◌, Err, IfOk, IsTrue, IfErr, OnErr, MatchOption, length, slice_index};
ghost use Rattle.jm_base.specs.Ids.{IsDecimal, IsId, IsNumberText, IsState, id_text, state_text};
ghost use Rattle.jm_base.specs.declared.identifiers.Id.{Id as TheId};

use crate::{FormFault, Id, Kind, NUMBER_LIMIT, NoMemory, Text};
use std::alloc::Global;

// Returns whether a text may be a number: it is not empty, and begins with no plus and no leading
// zero.
fn is_number_candidate(text: &[u8]) -> bool
    ensures { IsTrue result ↔ ((0 < length text.now) × (slice_index text.now 0 ≢ 43)
        × (slice_index text.now 0 ≡ 48 → length text.now ≡ 1)) }
{
    if text.is_empty() {
        return false;
    }
    text[0] != b'+' && (text[0] != b'0' || text.len() == 1)
}

// Returns the number of a text that may be one.
fn parse_number(text: &str) -> Option<u64>
    requires some { 0 < length text.now }
    requires no_plus { slice_index text.now 0 ≢ 43 }
    requires no_zero { slice_index text.now 0 ≡ 48 → length text.now ≡ 1 }
    ensures { MatchOption result ((n : ℕ) → ¬ (IsDecimal text.now n)) (IsDecimal text.now) }
{
    match text.parse::<u64>() {
        Ok(number) => Some(number),
        Err(_) => None,
    }
}

/// Returns the number below 2^64 of which a string is the decimal, without a sign and without a
/// leading zero, or `None` if the string is no such decimal.
pub fn read_decimal(text: &[u8]) -> Option<u64>
    ensures { MatchOption result ((n : ℕ) → ¬ (IsDecimal text.now n)) (IsDecimal text.now) }
{
    if !is_number_candidate(text) {
        return None;
    }
    match str::from_utf8(text) {
        Ok(text) => parse_number(text),
        Err(_) => None,
    }
}

// Returns the number below the limit of which the text is the decimal.
fn read_number(text: &[u8]) -> Option<u64>
    ensures { MatchOption result ((n : ℕ) → ¬ (IsNumberText text.now n)) (IsNumberText text.now) }
{
    match read_decimal(text) {
        Some(number) => if number < NUMBER_LIMIT {
            Some(number)
        } else {
            None
        },
        None => None,
    }
}

/// Returns the identifier of a text: `M`, `E` or `T`, then its number in decimal without a leading
/// zero, from 1 and below [`NUMBER_LIMIT`] (RFC 8620, section 1.2). Fails with `NotAnId` if the
/// text is any other.
pub fn read_id(text: &[u8]) -> Result<Id, FormFault>
    ensures ok { IfOk result (λ id. IsId id × (text.now ≡ id_text id)) }
    ensures err { OnErr result ((id : TheId) → IsId id → text.now ≢ id_text id) }
    ensures fault { IfErr result (λ e. e ≡ FormFault.NotAnId) }
{
    let Some((letter, digits)) = text.split_first() else {
        return Err(FormFault::NotAnId);
    };
    let kind = match letter {
        b'M' => Kind::Mailbox,
        b'E' => Kind::Email,
        b'T' => Kind::Thread,
        _ => return Err(FormFault::NotAnId),
    };
    match read_number(digits) {
        Some(number) => {
            if number == 0 {
                return Err(FormFault::NotAnId);
            }
            Ok(Id { kind, number })
        }
        None => Err(FormFault::NotAnId),
    }
}

/// Returns the text of an identifier.
pub fn id_text(alloc: Global, id: &Id) -> Result<Text, NoMemory>
    ensures { IfOk result (λ text. text ≡ id_text id.now) }
{
    let number = id.number;
    let text = match id.kind {
        Kind::Mailbox => format!(in alloc; "M{number}")?,
        Kind::Email => format!(in alloc; "E{number}")?,
        Kind::Thread => format!(in alloc; "T{number}")?,
    };
    Ok(Text::from_string(text))
}

/// Returns the position of the text of a state: the position in decimal without a leading zero,
/// below [`NUMBER_LIMIT`] (RFC 8620, section 5.1). Fails with `NotAState` if the text is any other.
pub fn read_state(text: &[u8]) -> Result<u64, FormFault>
    ensures ok { IfOk result (λ position. IsState position × (text.now ≡ state_text position)) }
    ensures err { OnErr result
        ((position : ℕ) → IsState position → text.now ≢ state_text position) }
    ensures fault { IfErr result (λ e. e ≡ FormFault.NotAState) }
{
    match read_number(text) {
        Some(position) => Ok(position),
        None => Err(FormFault::NotAState),
    }
}

/// Returns the text of a state.
pub fn state_text(alloc: Global, position: u64) -> Result<Text, NoMemory>
    ensures { IfOk result (λ text. text ≡ state_text position) }
{
    Ok(Text::from_string(format!(in alloc; "{position}")?))
}

#[cfg(test)]
mod tests {
    use super::*;
    use std::test::Fail;

    #[test]
    fn only_one_encoding_is_an_id(rt: HostRuntime) -> Result<(), Fail> {
        let good = ["M1", "E9007199254740991", "T20"];
        for text in good {
            let id = read_id(text.as_bytes())?;
            assert!(rt; id_text(rt.alloc(), &id)?.as_str() == text, "{text}");
        }
        let bad = [
            "",
            "M",
            "M0",
            "M01",
            "m1",
            "X1",
            "M+1",
            "M-1",
            "M 1",
            "M1 ",
            "E9007199254740992",
            "T18446744073709551617",
            "M1x",
            "1",
        ];
        for text in bad {
            assert!(rt;
                read_id(text.as_bytes()) == Err(FormFault::NotAnId),
                "{text}"
            );
        }
        Ok(())
    }

    #[test]
    fn only_one_encoding_is_a_state(rt: HostRuntime) -> Result<(), Fail> {
        for text in ["0", "7", "9007199254740991"] {
            let position = read_state(text.as_bytes())?;
            assert!(rt;
                state_text(rt.alloc(), position)?.as_str() == text,
                "{text}"
            );
        }
        for text in [
            "",
            "00",
            "01",
            "+1",
            "-1",
            " 1",
            "9007199254740992",
            "1.0",
            "x",
        ] {
            assert!(rt;
                read_state(text.as_bytes()) == Err(FormFault::NotAState),
                "{text}"
            );
        }
        Ok(())
    }
}
