// Bytes that were read of a link and are not used yet.
ghost use Rattle.std.specs.Prelude.{◌≡◌, ◌==◌, ◌≤◌, [], ◌++◌, drop, length, OnOk, OnErr};

use jm_base::{Bytes, NoMemory};
use std::alloc::Global;
use std::marker::Model;

// Drops bytes at the start.
fn drop_front(bytes: &mut Vec<u8>, count: usize)
    requires { count ≤ length bytes.old.items }
    ensures { bytes.new.items ≡ drop count bytes.old.items }
{
    if count > 0 {
        let rest = bytes.len() - count;
        bytes.copy_within(count.., 0);
        bytes.truncate(rest);
    }
}

/// Bytes that were read of a link and are not used yet, seen by contracts as that list. To use
/// bytes at the start moves none.
#[derive(Drop)]
pub struct Unread {
    bytes: Vec<u8>,
    at: usize,
}

impl Model for Unread {
    ghost use Rattle.std.specs.Prelude.{List, ℕ, ◌≤◌, drop, vec_len};

    ghost Value = { List ℕ };

    ghost view = { λ u. drop u.at u.bytes.items };

    ghost invariant = { λ u. u.at ≤ vec_len u.bytes };
}

impl Unread {
    /// Returns no bytes. It allocates nothing.
    pub fn new(alloc: Global) -> Unread
        ensures { result ≡ [] }
    {
        Unread {
            bytes: Vec::new(alloc),
            at: 0,
        }
    }

    /// Lends the bytes.
    pub fn as_slice(&self) -> &[u8]
        ensures { result.now ≡ self.now }
    {
        let (_, rest) = self.bytes.as_slice().split_at(self.at);
        rest
    }

    /// Returns how many bytes there are.
    pub fn len(&self) -> usize
        ensures { result ≡ length self.now }
    {
        self.as_slice().len()
    }

    /// Returns whether there are no bytes.
    pub fn is_empty(&self) -> bool
        ensures { result ≡ (length self.now == 0) }
    {
        self.as_slice().is_empty()
    }

    /// Appends bytes. If an allocation fails, nothing is appended.
    pub fn append(&mut self, more: &[u8]) -> Result<(), NoMemory>
        ensures ok { OnOk result (self.new ≡ self.old ++ more.now) }
        ensures err { OnErr result (self.new ≡ self.old) }
    {
        drop_front(&mut self.bytes, self.at);
        self.at = 0;
        self.bytes.extend_from_slice(more)?;
        Ok(())
    }

    /// Drops bytes at the start.
    pub fn skip(&mut self, count: usize)
        requires { count ≤ length self.old }
        ensures { self.new ≡ drop count self.old }
    {
        self.at += count;
    }

    /// Returns the bytes. It allocates nothing.
    pub fn into_bytes(self) -> Bytes
        ensures { result ≡ self }
    {
        let Unread { mut bytes, at } = self;
        drop_front(&mut bytes, at);
        Bytes::from_vec(bytes)
    }
}
