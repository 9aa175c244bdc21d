//! Answers the gets of an account (RFC 8620, section 5.1; RFC 8621, sections 2.1, 3.1 and 4.2).
//!
//! The answer to each get is defined in `Rattle.mail_view.specs.Gets`, and the answer to an
//! Email/parse in `Rattle.mail_view.specs.Parses`. A get that fails returns a [`GetFault`].
#![tactic(auto)]

mod emails;
mod fault;
mod gets;
mod mailboxes;
mod members;
mod mentions;
mod parses;
mod records;
mod threads;

pub use emails::{find_blob, find_email};
pub use fault::GetFault;
pub use gets::{get, get_emails, get_mailboxes, get_threads};
pub use mentions::list_first_mentions;
pub use parses::{parse, parse_emails};
