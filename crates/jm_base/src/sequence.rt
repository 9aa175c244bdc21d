// A list of items that contracts see as a list, with nothing of its capacity or place.
ghost use Rattle.std.specs.Prelude.{◌≡◌, ◌==◌, [], ◌∷◌, ◌++◌, length, OnOk, OnErr};

use crate::{Bytes, NoMemory, Text};
use std::alloc::Global;
use std::marker::Model;

/// A list, seen by contracts as the list of its items.
#[derive(Drop)]
pub struct Sequence<T: Drop> {
    items: Vec<T>,
}

/// A list of numbers of records.
pub type Numbers = Sequence<u64>;

/// A list of texts.
pub type Texts = Sequence<Text>;

/// A list of blobs, each the bytes of one.
pub type Blobs = Sequence<Bytes>;

/// A list of rows of a keeper, each an encoded commit.
pub type Rows = Sequence<Bytes>;

impl<T: Drop> Model for Sequence<T> {
    ghost use Rattle.std.specs.Prelude.{List};

    ghost Value = { List T };

    ghost view = { λ s. s.items.items };
}

impl<T: Drop> Sequence<T> {
    /// Returns the empty list. It takes no memory.
    pub fn new(alloc: Global) -> Sequence<T>
        ensures { result ≡ [] }
    {
        Sequence {
            items: Vec::new(alloc),
        }
    }

    /// Returns the list of a vector's items. It takes no memory.
    pub fn from_vec(items: Vec<T>) -> Sequence<T>
        ensures { result ≡ items.items }
    {
        Sequence { items }
    }

    /// Returns the vector of the list's items. It takes no memory.
    pub fn into_vec(self) -> Vec<T>
        ensures { result.items ≡ self }
    {
        let Sequence { items } = self;
        items
    }

    /// Lends the items.
    pub fn as_slice(&self) -> &[T]
        ensures { result.now ≡ self.now }
    {
        self.items.as_slice()
    }

    /// Returns how many items there are.
    pub fn len(&self) -> usize
        ensures { result ≡ length self.now }
    {
        self.items.len()
    }

    /// Returns whether there is no item.
    pub fn is_empty(&self) -> bool
        ensures { result ≡ (length self.now == 0) }
    {
        self.items.is_empty()
    }

    /// Puts an item at the end.
    pub fn push(&mut self, item: T) -> Result<(), NoMemory>
        ensures ok { OnOk result (self.new ≡ self.old ++ item ∷ []) }
        ensures err { OnErr result (self.new ≡ self.old) }
    {
        self.items.push(item)?;
        Ok(())
    }

    /// Puts the items of another list at the end.
    pub fn append(&mut self, more: Sequence<T>) -> Result<(), NoMemory>
        ensures ok { OnOk result (self.new ≡ self.old ++ more) }
        ensures err { OnErr result (self.new ≡ self.old) }
    {
        let mut items = more.into_vec();
        self.items.append(&mut items)?;
        Ok(())
    }
}
