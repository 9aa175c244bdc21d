// A column of texts.
ghost use Rattle.std.specs.Prelude.{◌≡◌, ◌≤◌, [], ◌∷◌, ◌++◌, length, None, Some, option_map, MatchOption, IfOk, OnOk, OnErr};
ghost use Rattle.text_column.specs.Columns.{AreMarks, text_at};

use crate::Mark;
use crate::search::{cut_text, find_start, mark_texts};
use jm_base::NoMemory;
use std::alloc::Global;
use std::marker::Model;

/// Texts in the order in which they came, some of which may be left out.
#[derive(Drop)]
pub struct TextColumn {
    // The texts that are kept, one after another.
    bytes: Vec<u8>,
    // Where each text ends in `bytes`. One that is left out ends where the one before it does.
    ends: Vec<usize>,
    // The marks of a search that finds nothing.
    blank: Vec<Mark>,
}

impl Model for TextColumn {
    ghost use Rattle.std.specs.Prelude.{ℕ, List, Option, length};
    ghost use Rattle.text_column.specs.Columns.{AreEnds, texts_in};

    ghost Value = { List (Option (List ℕ)) };

    ghost view = { λ c. texts_in c.bytes.items 0 c.ends.items c.blank.items };

    ghost invariant = { λ c. AreEnds 0 c.ends.items c.blank.items (length c.bytes.items) };
}

impl TextColumn {
    /// Returns the column without texts. It takes no memory.
    pub fn new(alloc: Global) -> TextColumn
        ensures { result ≡ [] }
    {
        TextColumn {
            bytes: Vec::new(alloc),
            ends: Vec::new(alloc),
            blank: Vec::new(alloc),
        }
    }

    /// Returns how many texts there are, those that are left out included.
    pub fn len(&self) -> usize
        ensures { result ≡ length self.now }
    {
        self.ends.len()
    }

    /// Adds a text at the end, or says there that one is left out. Fails if memory runs out; the
    /// column is then as before.
    pub fn push(&mut self, text: Option<&[u8]>) -> Result<(), NoMemory>
        ensures ok { OnOk result (self.new ≡ self.old ++ option_map (λ t. t.now) text.entry ∷ []) }
        ensures err { OnErr result (self.new ≡ self.old) }
    {
        self.ends.reserve(1)?;
        self.blank.reserve(1)?;
        let Some(text) = text else {
            self.ends.push_reserved(self.bytes.len());
            self.blank.push_reserved(Mark::Open);
            return Ok(());
        };
        self.bytes.extend_from_slice(text)?;
        self.ends.push_reserved(self.bytes.len());
        self.blank.push_reserved(Mark::HasNot);
        Ok(())
    }

    /// Lends the text with this index, counted from 0. Returns `None` if and only if that text is
    /// left out or there are no more than `index` texts.
    pub fn get(&self, index: usize) -> Option<&[u8]>
        ensures { MatchOption result (text_at self.now index ≡ None)
            (λ t. text_at self.now index ≡ Some t.now) }
    {
        if index >= self.ends.len() {
            return None;
        }
        match self.blank[index] {
            Mark::Open => None,
            _ => {
                let start = find_start(self.ends.as_slice(), index);
                Some(cut_text(self.bytes.as_slice(), start, self.ends[index]))
            }
        }
    }

    /// Searches all texts for a needle of at least one byte, and returns one mark a text. Bytes are
    /// compared as they are. The search goes over the bytes of all texts once, however many texts
    /// there are. Fails if memory runs out.
    pub fn find_marks(&self, alloc: Global, needle: &[u8]) -> Result<Vec<Mark>, NoMemory>
        requires { 1 ≤ length needle.now }
        ensures { IfOk result (λ marks. AreMarks needle.now self.now marks.items) }
    {
        let mut marks = Vec::from_slice(alloc, self.blank.as_slice())?;
        mark_texts(
            self.bytes.as_slice(),
            self.ends.as_slice(),
            needle,
            marks.as_mut_slice(),
        );
        Ok(marks)
    }
}
