// What a caller that knows the content of a keeper knows after each call, whatever keeper it is.
ghost use Rattle.std.specs.Prelude.{◌≡◌, ◌⊎◌, OnOk, OnErr, IfOk};
ghost use Rattle.keep_port.specs.declared.kept.Kept.{Kept as Content};
ghost use Rattle.keep_port.specs.Keeping.{IsContent, with_row};

use crate::{Keeper, Kept};
use jm_edge::EdgeFault;
use std::alloc::Global;

/// A content that is loaded is the content from then on, and a crash leaves that or what it might
/// have left before.
pub fn load_is_content<K: Keeper>(keeper: &mut K, alloc: Global) -> Result<Kept, EdgeFault>
    ensures known { IfOk result (λ k. IsContent (K.kept keeper.new) k) }
    ensures left { IfOk result (λ k. (left : Content) → K.image keeper.new left
        → K.image keeper.old left ⊎ (left ≡ k)) }
    ensures same { (k : Content) → IsContent (K.kept keeper.old) k
        → OnErr result (IsContent (K.kept keeper.new) k) }
{
    keeper.load(alloc)
}

/// A row that is appended is the last of the content, and a crash leaves just that. After an error
/// the content is as before, and a crash leaves what it might have left before, or the content with
/// the row.
pub fn append_adds_a_row<K: Keeper>(
    keeper: &mut K,
    alloc: Global,
    row: &[u8],
) -> Result<(), EdgeFault>
    ensures added { (k : Content) → IsContent (K.kept keeper.old) k
        → OnOk result (IsContent (K.kept keeper.new) (with_row row.now k)) }
    ensures only { (k : Content) → IsContent (K.kept keeper.old) k
        → OnOk result ((left : Content) → K.image keeper.new left → left ≡ with_row row.now k) }
    ensures same { (k : Content) → IsContent (K.kept keeper.old) k
        → OnErr result (IsContent (K.kept keeper.new) k) }
    ensures left { (k : Content) → IsContent (K.kept keeper.old) k
        → OnErr result ((left : Content) → K.image keeper.new left → K.image keeper.old left
        ⊎ (left ≡ with_row row.now k)) }
{
    keeper.append(alloc, row)
}

/// A content that takes the place of another is the content, and a crash leaves just that. After an
/// error the content is as before, and a crash leaves what it might have left before, or the new
/// content.
pub fn replace_is_content<K: Keeper>(
    keeper: &mut K,
    alloc: Global,
    whole: &Kept,
) -> Result<(), EdgeFault>
    ensures known { OnOk result (IsContent (K.kept keeper.new) whole.now) }
    ensures only { OnOk result ((left : Content) → K.image keeper.new left → left ≡ whole.now) }
    ensures same { (k : Content) → IsContent (K.kept keeper.old) k
        → OnErr result (IsContent (K.kept keeper.new) k) }
    ensures left { OnErr result ((left : Content) → K.image keeper.new left
        → K.image keeper.old left ⊎ (left ≡ whole.now)) }
{
    keeper.replace(alloc, whole)
}
