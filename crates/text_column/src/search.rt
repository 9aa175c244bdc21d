// Where texts begin and end in a column, and which of them have a needle.
ghost use Rattle.std.specs.Prelude.{◌≡◌, ◌≤◌, ◌<◌, ◌-◌, ℕ, length, slice_index, slice_range};
ghost use Rattle.text_column.specs.Columns.{AreEnds, AreMarks, start_at, texts_in};

use crate::Mark;
use memchr::memmem::Finder;

/// Returns the bytes from one place up to another.
pub fn cut_text(bytes: &[u8], start: usize, end: usize) -> &[u8]
    requires rises { start ≤ end }
    requires within { end ≤ length bytes.now }
    ensures { result.now ≡ slice_range bytes.now start end }
{
    &bytes[start..end]
}

/// Returns where the text with this index begins: where the one before it ends.
pub fn find_start(ends: &[usize], index: usize) -> usize
    requires { index ≤ length ends.now }
    ensures { result ≡ start_at 0 ends.now index }
{
    if index == 0 {
        return 0;
    }
    ends[index - 1]
}

/// Returns the index of the first text, from index `start` on, that ends after a place. The last
/// text ends after it.
fn find_text_around(ends: &[usize], start: usize, place: usize) -> usize
    requires within { start < length ends.now }
    requires last { place < slice_index ends.now (length ends.now - 1) }
    ensures from { start ≤ result }
    ensures within { result < length ends.now }
    ensures before { (k : ℕ) → start ≤ k → k < result → slice_index ends.now k ≤ place }
    ensures after { place < slice_index ends.now result }
{
    let mut index = start;
    while ends[index] <= place {
        index += 1;
    }
    index
}

/// Marks the texts that have the needle as such, where all marks are those of a search that finds
/// nothing. It goes over the bytes once: a text is looked at where the needle is found next.
pub fn mark_texts(bytes: &[u8], ends: &[usize], needle: &[u8], marks: &mut [Mark])
    requires ends { AreEnds 0 ends.now marks.old (length bytes.now) }
    requires some { 1 ≤ length needle.now }
    ensures { AreMarks needle.now (texts_in bytes.now 0 ends.now marks.old) marks.new }
{
    let finder = Finder::new(needle);
    let mut next = 0;
    let mut from = 0;
    while let Some(ahead) = finder.find(bytes.split_at(from).1) {
        let place = from + ahead;
        let index = find_text_around(ends, next, place);
        if place + needle.len() <= ends[index] {
            marks[index] = Mark::Has;
        }
        next = index + 1;
        from = ends[index];
    }
}
