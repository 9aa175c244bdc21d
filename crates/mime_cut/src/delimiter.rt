// The next delimiter line of a multipart's body, found in one pass over its lines.
ghost use Rattle.std.specs.Prelude.{◌≡◌, ◌≤◌, ◌<◌, ◌+◌, ◌∷◌, ◌++◌, List, ℕ, drop, take, length};
ghost use Rattle.mime_lines.specs.Lines.{lines, text};
ghost use Rattle.mime_cut.specs.DelimiterLines.{line_kind};
ghost use Rattle.mime_cut.specs.Cut.{pieces, cut, piece, after_line};
ghost use Rattle.mime_cut.specs.UpToDelimiter.{up_to_delimiter, lines_after};

use crate::line_kind::{LineKind, read_line_kind};
use memchr::memmem::find;
use mime_lines::{count_text_bytes, split_line};

/// The first delimiter line or close-delimiter in some bytes, or their end if there is none.
#[derive(Clone, Copy, Debug)]
pub struct Delimiter<'a> {
    /// How many bytes are before it; the line end before its line belongs to it.
    pub before: usize,
    /// How many bytes there are up to the end of its line.
    pub size: usize,
    /// What it is; `Other` if there is none.
    pub kind: LineKind,
    /// The bytes after its line.
    pub rest: &'a [u8],
}

/// Splits off the first line and the lines after it that don't begin with two dashes: if the first
/// is no delimiter, none of them is.
fn split_plain(bytes: &[u8]) -> (&[u8], &[u8])
    requires { 0 < length bytes.now }
    ensures some { 0 < length result.0.now }
    ensures whole { bytes.now ≡ result.0.now ++ result.1.now }
    ensures plain { (boundary line : List ℕ) (more : List (List ℕ)) (before size : ℕ)
        → lines bytes.now ≡ line ∷ more → line_kind boundary line ≡ LineKind.Other
        → up_to_delimiter boundary before size (lines bytes.now)
        ≡ up_to_delimiter boundary (size + length (text result.0.now))
        (size + length result.0.now) (lines result.1.now) }
    ensures lines_after { (boundary line : List ℕ) (more : List (List ℕ))
        → lines bytes.now ≡ line ∷ more → line_kind boundary line ≡ LineKind.Other
        → lines_after boundary (lines bytes.now) ≡ lines_after boundary (lines result.1.now) }
{
    match find(bytes, b"\n--") {
        Some(i) => bytes.split_at(i + 1),
        None => bytes.split_at(bytes.len()),
    }
}

/// Reads the lines up to the next delimiter line or close-delimiter.
fn scan<'a>(boundary: &[u8], bytes: &'a [u8]) -> Delimiter<'a>
    ensures before { result.before ≡ (up_to_delimiter boundary.now 0 0 (lines bytes.now)).before }
    ensures size { result.size ≡ (up_to_delimiter boundary.now 0 0 (lines bytes.now)).size }
    ensures kind { result.kind ≡ (up_to_delimiter boundary.now 0 0 (lines bytes.now)).kind }
    ensures rest { result.rest.now ≡ drop result.size bytes.now }
    ensures lines_after { lines result.rest.now ≡ lines_after boundary.now (lines bytes.now) }
    ensures ordered { result.before ≤ result.size }
    ensures within { result.size ≤ length bytes.now }
    ensures advances { result.kind ≡ LineKind.DelimiterLine → 0 < result.size }
{
    let mut before = 0;
    let mut size = 0;
    let mut rest = bytes;
    while !rest.is_empty() {
        let (line, more) = split_line(rest);
        let kind = read_line_kind(boundary, line);
        match kind {
            LineKind::Other => {
                let (plain, later) = split_plain(rest);
                before = size + count_text_bytes(plain);
                size += plain.len();
                rest = later;
            }
            LineKind::DelimiterLine | LineKind::CloseDelimiter => {
                return Delimiter {
                    before,
                    size: size + line.len(),
                    kind,
                    rest: more,
                };
            }
        }
    }
    Delimiter {
        before: size,
        size,
        kind: LineKind::Other,
        rest,
    }
}

/// Finds the next delimiter line or close-delimiter in one pass over the lines.
pub fn find_delimiter<'a>(boundary: &[u8], bytes: &'a [u8]) -> Delimiter<'a>
    // After a delimiter line the first piece ends before the next one, and the others follow that.
    ensures pieces { (start : ℕ) → pieces boundary.now start (lines bytes.now)
        ≡ piece start (take result.before bytes.now)
        ∷ after_line boundary.now result.kind (start + result.size) (lines result.rest.now) }
    // Before the first delimiter line there is no piece.
    ensures cut { (start : ℕ) → cut boundary.now start (lines bytes.now)
        ≡ after_line boundary.now result.kind (start + result.size) (lines result.rest.now) }
    ensures rest { result.rest.now ≡ drop result.size bytes.now }
    ensures ordered { result.before ≤ result.size }
    ensures within { result.size ≤ length bytes.now }
    ensures advances { result.kind ≡ LineKind.DelimiterLine → 0 < result.size }
{
    scan(boundary, bytes)
}
