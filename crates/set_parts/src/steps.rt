// What comes of one update or destroy (RFC 8620, section 5.3).
use crate::set_errors::SetError;
use mail_records::Edits;

/// What comes of the update or the destroy of one record.
#[derive(Drop)]
pub enum Step {
    /// It is rejected, and changes nothing.
    Rejected(SetError),
    /// It is done by these edits; none if nothing changes.
    Done(Edits),
}
