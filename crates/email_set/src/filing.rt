// The mailboxes and keywords of an email, and what an update makes of them (RFC 8621, section
// 4.1.1).
use jm_base::{Numbers, Texts};
use set_parts::SetError;

/// The mailboxes and keywords of an email: the only properties of it that may change.
#[derive(Drop)]
pub struct Filing {
    /// The numbers of its mailboxes, rising.
    pub mailboxes: Numbers,
    /// Its keywords, in byte order.
    pub keywords: Texts,
}

/// What an update makes of the mailboxes and keywords of an email.
#[derive(Drop)]
pub enum Refiled {
    /// It is rejected.
    Rejected(SetError),
    /// They become these.
    Filed(Filing),
}
