// Lists whose items rise strictly.
ghost use Rattle.std.specs.Prelude.{◌≡◌, None, option_map};
ghost use Rattle.std.specs.Ordering.{nat_cmp};
ghost use Rattle.std.specs.Cmp.Lexicographic.{slice_cmp};
ghost use Rattle.tidy_check.specs.Checks.{is_above, rises_after};

use jm_base::Text;
use std::cmp::Ordering;

fn is_number_above(before: Option<u64>, number: u64) -> bool
    ensures { result ≡ is_above nat_cmp before number }
{
    match before {
        Some(before) => before < number,
        None => true,
    }
}

/// Returns whether numbers rise strictly.
pub(crate) fn are_numbers_rising(numbers: &[u64]) -> bool
    ensures { result ≡ rises_after nat_cmp None numbers.now }
{
    let mut before = None;
    for number in numbers {
        if !is_number_above(before, *number) {
            return false;
        }
        before = Some(*number);
    }
    true
}

fn is_text_above(before: Option<&Text>, text: &Text) -> bool
    ensures { result ≡ is_above (slice_cmp nat_cmp) (option_map (λ t. t.now) before.entry)
        text.now }
{
    match before {
        Some(before) => match before.as_bytes().cmp(text.as_bytes()) {
            Ordering::Less => true,
            Ordering::Equal | Ordering::Greater => false,
        },
        None => true,
    }
}

/// Returns whether texts rise strictly in byte order.
pub(crate) fn are_texts_rising(texts: &[Text]) -> bool
    ensures { result ≡ rises_after (slice_cmp nat_cmp) None texts.now }
{
    let mut before = None;
    for text in texts {
        if !is_text_above(before, text) {
            return false;
        }
        before = Some(text);
    }
    true
}
