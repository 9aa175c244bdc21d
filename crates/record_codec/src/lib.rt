//! Commits as bytes: each commit that is formed has one encoding, and no encoding is a prefix of
//! another.
#![tactic(auto)]

mod faults;
mod laws;
mod memory;
mod read_commit;
mod read_fields;
mod read_lists;
mod read_records;
mod read_texts;
mod sizes;
mod utf8;
mod write_commit;
mod write_edits;
mod write_fields;
mod write_records;

pub use faults::CodecFault;
pub use laws::{edits_take_their_bytes, is_encoded_once, is_prefix_free, read_back};
pub use memory::has_encoding;
pub use read_commit::decode;
pub use sizes::count_edit_bytes;
pub use write_commit::encode;
