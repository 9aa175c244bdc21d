//! What is read of a message apart from its JSON view: its summary, the timestamp at which it was
//! received, the bytes of its leaves, and the texts of its bodies (RFC 8621, sections 4.1 and 4.2).
#![tactic(auto)]

mod body_value;
mod characters;
mod laws;
mod leaves;
mod links;
mod preview;
mod received;
mod subjects;
mod summary;
mod texts_lines;
mod texts_tags;

pub use body_value::{BodyValue, read_body_value};
pub use laws::{check_example_texts, date_of_received_follows_the_last_semicolon};
pub use leaves::{find_leaf, has_attachment, part_bytes, read_body};
pub use preview::{build_preview, find_first_text};
pub use received::received_of;
pub use summary::{SummaryAndReceipt, read_summary_and_receipt, summary_of};
