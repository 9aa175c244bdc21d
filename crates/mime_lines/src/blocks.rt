// Where a byte is in a block of some text, whose bytes are looked at together.
ghost use Rattle.std.specs.Prelude.{◌≡◌, ◌≤◌, ◌==◌, not, length, take};
ghost use Rattle.std.specs.List.{prefix_len};

use std::simd::prelude::*;

/// How many bytes are looked at together.
pub const BLOCK_BYTES: usize = 32;

/// Returns how many of the first `BLOCK_BYTES` bytes come before the first that is `byte`: all of
/// them if none is.
#[inline(always)]
pub fn count_before(text: &[u8], byte: u8) -> usize
    requires { BLOCK_BYTES ≤ length text.now }
    ensures { result ≡ prefix_len (λ b. not (b == byte)) (take BLOCK_BYTES text.now) }
{
    let found = u8x32::from_slice(text)
        .simd_eq(u8x32::splat(byte))
        .to_bitmask();
    if found == 0 {
        return BLOCK_BYTES;
    }
    found.trailing_zeros() as usize
}
