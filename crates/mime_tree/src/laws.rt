// Laws of the limit on parts and of the numbers of leaves, for every tree; and that parts that are
// written are read back. Each is the contract of a function that does nothing.
ghost use Rattle.std.specs.Prelude.{◌≡◌, ◌+◌, ◌<◌, ◌≤◌, ◌^◌, ℕ, List, take};
ghost use Rattle.std.specs.List.{AllByRecursion};
ghost use Rattle.mime_lines.specs.FieldTexts.{FieldText};
ghost use Rattle.mime_type.specs.HeadText.{HeadText, IsOtherField, node_of_head};
ghost use Rattle.mime_type.specs.PartTrees.{PartTrees};
ghost use Rattle.mime_tree.specs.PartLimit.{walked, kept, numbered, parts_of};
ghost use Rattle.mime_tree.specs.Numbers.{leaf_count, numbers_in, counted_from};
ghost use Rattle.mime_tree.specs.Boundaries.{AreFormed, AreNumbered, AreQuiet, multipart_count};
ghost use Rattle.mime_tree.specs.WrittenParts.{AreWritable, IsLeaf, WrittenParts, leaf, meant_parts, message_text, multipart, none, part_texts, body_text, read_parts, written_count};

/// The parts that are kept are the first in walk order, a part before those within it.
pub fn first_parts_are_kept()
    ensures { (f : PartTrees) → (n : ℕ) → walked (kept f n).parts ≡ take n (walked f) }
{}

/// The leaves have the numbers from n on, one after the other in walk order, and no other part has
/// a number.
pub fn leaves_are_numbered_in_order()
    ensures { (f : PartTrees) → (n : ℕ) → numbers_in (numbered f n).parts
        ≡ counted_from n (leaf_count f) }
{}

/// A message that is written with one part, or with a multipart that holds others at up to 32
/// levels and has at most 1,000 parts with these, is read as these parts, each with what its head
/// says, with its body and with the parts within it. No line of what is within a multipart may be a
/// delimiter line or the close-delimiter of its boundary.
pub fn parts_are_read_back()
    ensures leaf { (fields : List FieldText) (h : HeadText) (body : List ℕ)
        → AllByRecursion IsOtherField fields → IsLeaf h
        → read_parts (message_text fields h body) (parts_of (message_text fields h body))
        ≡ meant_parts (leaf h body none) }
    ensures multipart { (fields : List FieldText) (h : HeadText) (inner : WrittenParts)
        → AllByRecursion IsOtherField fields → AreWritable 32 (multipart h inner none)
        → written_count (multipart h inner none) ≤ 1000
        → read_parts (message_text fields h (body_text h (part_texts inner)))
        (parts_of (message_text fields h (body_text h (part_texts inner))))
        ≡ meant_parts (multipart h inner none) }
{}

/// Parts whose multiparts have the boundaries that are numbered in walk order are kept apart by
/// them, if no line of a part that is no multipart begins with two dashes and the start of these
/// boundaries: no line of what is within a multipart is a delimiter line or the close-delimiter of
/// its boundary.
pub fn numbered_boundaries_keep_parts_apart()
    ensures { (n k levels : ℕ) (parts : WrittenParts) → n < 2 ^ 64 → k + multipart_count parts
        ≤ 2 ^ 64 → AreFormed levels parts → AreNumbered n k parts → AreQuiet n parts
        → AreWritable levels parts }
{}
