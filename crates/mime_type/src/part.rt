// A part of a message, with the parts within it.
ghost use Rattle.std.specs.Prelude.{◌≡◌};

use jm_base::{Text, Texts};
use mime_codec::Coding;
use std::marker::Model;

/// A part of a message. Byte offsets are those in the message, from 0.
#[derive(Drop)]
#[cycle(part)]
pub struct Part {
    /// The byte offset where the part begins.
    pub start: u64,
    /// The byte offset where its body begins, after the empty line that ends its header.
    pub body: u64,
    /// The byte offset after its last byte.
    pub end: u64,
    /// The number of a leaf in the message, from 1, once it is known.
    pub number: Option<u64>,
    /// The type and subtype in lower case, as `text/plain`.
    pub media: Text,
    /// The charset in lower case.
    pub charset: Option<Text>,
    /// The boundary of a multipart; it isn't empty.
    pub boundary: Option<Text>,
    /// The disposition in lower case.
    pub disposition: Option<Text>,
    /// The name of a file, before its encoded-words are decoded.
    pub name: Option<Text>,
    /// The identifier of Content-Id, without angle brackets.
    pub cid: Option<Text>,
    /// The tags of Content-Language.
    pub language: Option<Texts>,
    /// The URI of Content-Location.
    pub location: Option<Text>,
    /// The transfer encoding of the body.
    pub coding: Coding,
    /// The parts within a multipart.
    pub parts: Parts,
}

/// Parts in their order, seen by contracts as a list of trees.
#[derive(Drop)]
#[cycle(part)]
pub struct Parts {
    items: Vec<Part>,
}

impl Model for Parts {
    ghost use Rattle.mime_type.specs.PartTrees.{PartTrees};
    ghost use Rattle.mime_type.specs.PartTreeCode.{forest_code};

    ghost Value = { PartTrees };

    ghost coded = { forest_code };

    ghost use Rattle.mime_type.specs.PartTrees.{none};
    ghost use Rattle.mime_type.specs.PartViews.{joined};

    ghost view = { λ a. joined a.items.items none };

    ghost use Rattle.mime_type.specs.PartTrees.{part_count};

    ghost size = { part_count };

    ghost use Rattle.mime_type.specs.Laws.{parts_deep};

    ghost size_decreases = { λ a h. parts_deep a.items.items };
}

impl Parts {
    ghost use Rattle.mime_type.specs.PartTrees.{none};
    ghost use Rattle.mime_type.specs.PartViews.{joined};

    /// Makes parts of a vector. It allocates nothing.
    pub fn from_vec(items: Vec<Part>) -> Parts
        ensures { result ≡ joined items.items none }
    {
        Parts { items }
    }

    /// Returns the parts in their order.
    pub fn as_slice(&self) -> &[Part]
        ensures { joined result.now none ≡ self.now }
    {
        self.items.as_slice()
    }
}
