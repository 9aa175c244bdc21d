// The strings that a loop has come to.
ghost use Rattle.std.specs.Prelude.{◌≡◌, ◌||◌, List, ℕ, IfOk, OnOk, bytes_eq, false};
ghost use Rattle.server_users.specs.Lookups.{holds};

use jm_base::NoMemory;
use std::alloc::Global;
use std::collections::HashSet;

/// A set of strings.
#[derive(Drop)]
pub(crate) struct SeenTexts<'a> {
    texts: HashSet<&'a str>,
}

impl<'a> SeenTexts<'a> {
    /// Returns the empty set. It allocates nothing.
    pub(crate) fn new(alloc: Global) -> SeenTexts<'a>
        ensures { (q : List ℕ) → holds result q ≡ false }
    {
        SeenTexts {
            texts: HashSet::new(alloc),
        }
    }

    /// Adds a string, and returns whether the set had it before.
    pub(crate) fn add(&mut self, text: &'a str) -> Result<bool, NoMemory>
        ensures held { IfOk result (λ b. b ≡ holds self.old text.now) }
        ensures added { OnOk result ((q : List ℕ) → holds self.new q
            ≡ (holds self.old q || bytes_eq text.now q)) }
    {
        let is_new = self.texts.insert(text)?;
        Ok(!is_new)
    }
}
