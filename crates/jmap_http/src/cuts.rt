// Bytes cut at a byte, and bytes that begin or end with others.
ghost use Rattle.std.specs.Prelude.{◌≡◌, ◌+◌, ◌<◌, None, Some, length, take, drop, option_map, MatchOption};
ghost use Rattle.jmap_http.specs.Cuts.{cut_after, cut_before, strip_end, strip_start};

use memchr::memchr;

/// The bytes before the first byte of a value, and those after it, if there is one.
#[derive(Clone, Copy)]
pub(crate) struct Cut<'a> {
    pub before: &'a [u8],
    pub after: Option<&'a [u8]>,
}

// Returns the index of the first byte of a value.
#[tactic(auto, using(crate::proofs::FirstByte::cut_found))]
fn find_byte(byte: u8, bytes: &[u8]) -> Option<usize>
    ensures { MatchOption result ((cut_before byte bytes.now ≡ bytes.now)
        × (cut_after byte bytes.now ≡ None)) (λ i. (cut_before byte bytes.now ≡ take i bytes.now)
        × (cut_after byte bytes.now ≡ Some (drop (i + 1) bytes.now)) × (i < length bytes.now)) }
{
    memchr(byte, bytes)
}

/// Cuts bytes at the first byte of a value.
pub(crate) fn cut_at(byte: u8, bytes: &[u8]) -> Cut<'_>
    ensures before { result.before.now ≡ cut_before byte bytes.now }
    ensures after { option_map (λ b. b.now) result.after ≡ cut_after byte bytes.now }
{
    match find_byte(byte, bytes) {
        Some(at) => {
            let (before, _) = bytes.split_at(at);
            let (_, after) = bytes.split_at(at + 1);
            Cut {
                before,
                after: Some(after),
            }
        }
        None => Cut {
            before: bytes,
            after: None,
        },
    }
}

/// Returns what follows the first bytes, if they are these.
pub(crate) fn strip_start<'a>(start: &[u8], bytes: &'a [u8]) -> Option<&'a [u8]>
    ensures { option_map (λ b. b.now) result ≡ strip_start start.now bytes.now }
{
    bytes.strip_prefix(start)
}

/// Returns what is before the last bytes, if they are these.
pub(crate) fn strip_end<'a>(end: &[u8], bytes: &'a [u8]) -> Option<&'a [u8]>
    ensures { option_map (λ b. b.now) result ≡ strip_end end.now bytes.now }
{
    bytes.strip_suffix(end)
}
