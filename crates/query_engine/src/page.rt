// The numbers that a query has shown up to here, and the threads of their emails.
ghost use Rattle.std.specs.Prelude.{◌≡◌, ◌∷◌, ◌++◌, ◌&&◌, [], ℕ, OnOk, true};
ghost use Rattle.jm_base.specs.Splices.{has};
ghost use Rattle.mail_records.specs.Contents.{Content as TheContent};
ghost use Rattle.query_engine.specs.Walks.{Follows, at_most, goes_on, is_full};
ghost use Rattle.query_engine.specs.Threads.{thread_of};

use jm_base::{NoMemory, Numbers};
use std::alloc::Global;
use std::collections::BTreeSet;

/// The numbers of the records that are shown, in order, as far as a query has come.
#[derive(Drop)]
pub(crate) struct Page {
    pub numbers: Vec<u64>,
    /// The threads of these, if threads are collapsed.
    pub threads: BTreeSet<u64>,
    pub collapse: bool,
    /// How many numbers there are at most.
    pub max: Option<u64>,
}

/// Returns a page with no numbers. It takes no memory.
pub(crate) fn new_page(alloc: Global, collapse: bool, max: Option<u64>) -> Page
    ensures numbers { result.numbers.items ≡ [] }
    ensures threads { result.threads.keys ≡ [] }
    ensures collapse { result.collapse ≡ collapse }
    ensures max { result.max ≡ max }
{
    Page {
        numbers: Vec::new(alloc),
        threads: BTreeSet::new(alloc),
        collapse,
        max,
    }
}

/// Returns whether a page has as many numbers as there are at most.
pub(crate) fn is_full(page: &Page) -> bool
    ensures { result ≡ is_full page.now }
{
    match page.max {
        Some(max) => max <= page.numbers.len() as u64,
        None => false,
    }
}

/// Returns whether threads are collapsed and a page has an email of this thread.
pub(crate) fn has_thread(page: &Page, thread: u64) -> bool
    ensures { result ≡ (page.now.collapse && has page.now.threads.keys thread) }
{
    page.collapse && page.threads.contains(&thread)
}

// Puts a number at the end.
fn add_number(page: &mut Page, number: u64) -> Result<(), NoMemory>
    ensures numbers { OnOk result (page.new.numbers.items ≡ page.old.numbers.items
        ++ number ∷ []) }
    ensures threads { page.new.threads.keys ≡ page.old.threads.keys }
    ensures collapse { page.new.collapse ≡ page.old.collapse }
    ensures max { page.new.max ≡ page.old.max }
{
    page.numbers.push(number)?;
    Ok(())
}

// Puts a thread among those of the page.
#[tactic(auto, using(crate::proofs::Pages::thread_added))]
fn add_thread(page: &mut Page, thread: u64) -> Result<(), NoMemory>
    ensures threads { OnOk result ((t : ℕ) → has page.new.threads.keys t
        ≡ has (thread ∷ page.old.threads.keys) t) }
    ensures numbers { page.new.numbers.items ≡ page.old.numbers.items }
    ensures collapse { page.new.collapse ≡ page.old.collapse }
    ensures max { page.new.max ≡ page.old.max }
{
    let _was_new = page.threads.insert(thread)?;
    Ok(())
}

/// Puts the number of an email that matches at the end of a page, unless threads are collapsed and
/// the page has an email of its thread.
pub(crate) fn put_number(page: &mut Page, thread: u64, number: u64) -> Result<(), NoMemory>
    ensures { OnOk result ((c : TheContent) → (page.old.collapse ≡ true
        → thread_of c number ≡ thread) → Follows c page.old page.new (number ∷ [])) }
{
    if !page.collapse {
        return add_number(page, number);
    }
    if has_thread(page, thread) {
        return Ok(());
    }
    add_thread(page, thread)?;
    add_number(page, number)
}

fn keep_most(mut numbers: Vec<u64>, max: Option<u64>) -> Vec<u64>
    ensures { result.items ≡ at_most max numbers.items }
{
    if let Some(max) = max {
        if max < numbers.len() as u64 {
            numbers.truncate(max as usize);
        }
    }
    numbers
}

/// Returns the numbers of a page, at most as many as there may be.
#[tactic(auto, using(crate::proofs::Pages::ends))]
pub(crate) fn finish(page: Page) -> Numbers
    ensures { (c : TheContent) → result ≡ goes_on c page [] }
{
    let Page { numbers, max, .. } = page;
    Numbers::from_vec(keep_most(numbers, max))
}
