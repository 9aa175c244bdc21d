// The output of a row next to the wanted one.
use crate::lines::split_at_byte;
use crate::script::Step;

/// Where an output differs: the line of the input, the output that is wanted for it, and the output
/// from there on.
#[derive(Clone, Copy, Debug)]
pub(crate) struct Difference<'w, 'a> {
    pub(crate) line: u64,
    pub(crate) wanted: &'w [u8],
    pub(crate) got: &'a [u8],
}

// Returns whether the line that this byte ends is not empty.
fn ends_a_line(input: &[u8], at: usize) -> bool {
    input.get(at) == Some(&b'\n') && at > 0 && input.get(at.saturating_sub(1)) != Some(&b'\n')
}

// Returns how many lines end between two places of the input. The end of the input ends one.
fn count_lines(input: &[u8], start: usize, end: usize) -> u64 {
    let mut count = 0u64;
    for at in start..end {
        if ends_a_line(input, at) {
            count = count.saturating_add(1);
        }
    }
    if start < end && end == input.len() && !input.ends_with(b"\n") {
        return count.saturating_add(1);
    }
    count
}

// Returns what follows so many lines.
fn skip_lines(text: &[u8], count: u64) -> &[u8] {
    let mut rest = text;
    for _ in 0..count {
        let (_, after) = split_at_byte(rest, b'\n');
        rest = after;
    }
    rest
}

// Returns what is between two places.
fn take_between(text: &[u8], start: usize, end: usize) -> &[u8] {
    match text.get(start..end) {
        Some(piece) => piece,
        None => &[],
    }
}

/// Returns where the output differs from the one that is wanted for so many bytes of the input: that
/// of the steps which end there or before. If each line of the input has a line of output, those for
/// which nothing is wanted are skipped.
pub(crate) fn find_difference<'w, 'a>(
    by_lines: bool,
    steps: &[Step],
    input: &[u8],
    all_wanted: &'w [u8],
    end: usize,
    text: &'a [u8],
) -> Option<Difference<'w, 'a>> {
    let mut rest = text;
    let mut input_start = 0usize;
    let mut wanted_start = 0usize;
    for step in steps {
        if step.input_end > end {
            break;
        }
        let wanted = take_between(all_wanted, wanted_start, step.wanted_end);
        rest = match rest.strip_prefix(wanted) {
            Some(after) => after,
            None => {
                return Some(Difference {
                    line: step.line,
                    wanted,
                    got: rest,
                });
            }
        };
        if by_lines && wanted.is_empty() {
            rest = skip_lines(rest, count_lines(input, input_start, step.input_end));
        }
        input_start = step.input_end;
        wanted_start = step.wanted_end;
    }
    if rest.is_empty() {
        return None;
    }
    Some(Difference {
        line: 0,
        wanted: &[],
        got: rest,
    })
}
