//! The lines of a message and the fields of its header (RFC 5322, sections 2.1 to 2.2).
//!
//! [`fields`] finds the byte offsets of a header's fields; [`Field::name`] and [`Field::value`]
//! read what is there, and [`find_last_value`] finds the field that counts where a name is
//! repeated. Only [`unfold`] copies text.
#![tactic(auto)]

mod blocks;
mod field;
mod folding;
mod head;
mod laws;
mod scan;

pub use blocks::{BLOCK_BYTES, count_before};
pub use field::{Field, FieldSpans, fields_stand, find_last_value};
pub use folding::unfold;
pub use head::{Head, fields};
pub use laws::{fields_are_read_back, folds_are_undone};
pub use scan::{count_text_bytes, is_line_end, split_line};
