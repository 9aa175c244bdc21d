// What a line is to a multipart's boundary (RFC 2046, section 5.1.1).
ghost use Rattle.std.specs.Prelude.{◌≡◌, ◌++◌, None, Some, MatchOption};
ghost use Rattle.std.specs.List.{list_all};
ghost use Rattle.mime_lines.specs.Lines.{is_blank};
ghost use Rattle.mime_cut.specs.DelimiterLines.{after_prefix, dashes, kind_by_rest, line_kind};

use mime_lines::count_text_bytes;

/// What a line is to a boundary (RFC 2046, section 5.1.1). A delimiter line and a close-delimiter
/// may end with transport padding: spaces and tabs.
#[derive(Clone, Copy, Debug, PartialEq, Eq)]
pub enum LineKind {
    /// Neither of the two.
    Other,
    /// A delimiter line: two dashes and the boundary. A body part begins after it.
    DelimiterLine,
    /// A close-delimiter: two dashes, the boundary and two dashes. What follows it is the epilogue,
    /// which is ignored.
    CloseDelimiter,
}

/// Returns the bytes after a prefix; none if the bytes don't begin with it.
fn strip<'a>(prefix: &[u8], bytes: &'a [u8]) -> Option<&'a [u8]>
    ensures { MatchOption result (after_prefix prefix.now bytes.now ≡ None)
        (λ x. after_prefix prefix.now bytes.now ≡ Some x.now) }
{
    bytes.strip_prefix(prefix)
}

/// Returns the bytes after two dashes and the boundary; none if the text doesn't begin with these.
fn strip_boundary<'a>(boundary: &[u8], text: &'a [u8]) -> Option<&'a [u8]>
    ensures { MatchOption result (after_prefix (dashes ++ boundary.now) text.now ≡ None)
        (λ x. after_prefix (dashes ++ boundary.now) text.now ≡ Some x.now) }
{
    match strip(b"--", text) {
        Some(rest) => strip(boundary, rest),
        None => None,
    }
}

/// Returns whether there is nothing but transport padding: spaces and tabs (RFC 2046, section
/// 5.1.1).
fn is_blank_only(bytes: &[u8]) -> bool
    ensures { result ≡ list_all is_blank bytes.now }
{
    bytes.iter().all(|byte| *byte == b' ' || *byte == b'\t')
}

/// Returns what a line is, by what follows its dashes and boundary.
fn read_kind_by_rest(rest: &[u8]) -> LineKind
    ensures { result ≡ kind_by_rest rest.now }
{
    if is_blank_only(rest) {
        return LineKind::DelimiterLine;
    }
    match strip(b"--", rest) {
        Some(rest) if is_blank_only(rest) => LineKind::CloseDelimiter,
        _ => LineKind::Other,
    }
}

/// Returns what the line is to the boundary.
pub fn read_line_kind(boundary: &[u8], line: &[u8]) -> LineKind
    ensures { result ≡ line_kind boundary.now line.now }
{
    let (text, _) = line.split_at(count_text_bytes(line));
    match strip_boundary(boundary, text) {
        Some(rest) => read_kind_by_rest(rest),
        None => LineKind::Other,
    }
}
