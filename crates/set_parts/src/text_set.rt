// Sets of texts in groups.
ghost use Rattle.std.specs.Prelude.{List, OnOk, Option, bytes_eq, false, ℕ, ◌&&◌, ◌||◌, ◌≡◌};
ghost use Rattle.mail_counts.specs.Tidy.{same_parent};
ghost use Rattle.set_parts.specs.Views.{holds};

use jm_base::NoMemory;
use std::alloc::Global;
use std::collections::BTreeSet;

/// A text in a group.
#[derive(Clone, Copy, Debug, PartialEq, Eq, PartialOrd, Ord)]
pub struct Key<'a> {
    pub group: Option<u64>,
    pub text: &'a str,
}

/// A set of texts, each in a group.
#[derive(Drop)]
pub struct TextSet<'a> {
    pub keys: BTreeSet<Key<'a>>,
}

/// Returns the empty set. It takes no memory.
pub fn new_set<'a>(alloc: Global) -> TextSet<'a>
    ensures { (g : Option ℕ) (s : List ℕ) → holds result.keys.keys g s ≡ false }
{
    TextSet {
        keys: BTreeSet::new(alloc),
    }
}

/// Returns whether a text is in the set, in this group.
pub fn has_text<'a>(set: &TextSet<'a>, group: Option<u64>, text: &'a str) -> bool
    ensures { result ≡ holds set.now.keys.keys group text.now }
{
    set.keys.contains(&Key { group, text })
}

/// Puts a text into the set, in this group.
pub fn add_text<'a>(
    set: &mut TextSet<'a>,
    group: Option<u64>,
    text: &'a str,
) -> Result<(), NoMemory>
    ensures { OnOk result
        ((g : Option ℕ) (s : List ℕ) → holds set.new.keys.keys g s
        ≡ (same_parent group g && bytes_eq text.now s || holds set.old.keys.keys g s)) }
{
    let _was_new = set.keys.insert(Key { group, text })?;
    Ok(())
}
