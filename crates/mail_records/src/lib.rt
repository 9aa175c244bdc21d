//! The records of an account, the edits that change them, and the histories that the edits make.
//!
//! An account is three finite maps from numbers to records: mailboxes, emails and threads (RFC 8620
//! and RFC 8621). Every change is a list of [`Edit`]s, each of which puts or drops one record. A
//! [`Commit`] is the list of one change with the blobs that it brings. What a history, a position,
//! a content at a position and a state are defined in `specs/`.
#![tactic(auto)]

mod content;
mod copies;
mod dropped;
mod edits;
mod emails;
mod entries;
mod entry_keys;
mod fills;
mod fitting;
mod laws;
mod limits;
mod mailboxes;
mod order_drops;
mod orders;
mod records;
mod table;
mod waiting;

pub use content::{Content, apply};
pub use edits::{Commit, Edit, Edits, Stamp, copy_edits};
pub use entries::{Dated, EmailBlob, Linked, Named, Placed, Roled, Threaded};
pub use fitting::{Applied, apply_all_ready, apply_fitting, fits, keeps_thread};
pub use laws::{
    edits_name_numbers_below_the_next, histories_are_founded, histories_are_sound, histories_grow,
    histories_stay_formed, keys_tell_lists, points_are_of_one_history,
    records_stay_below_a_floor_that_moved_up, states_change_at_edits_of_their_kind,
    states_tell_records,
};
pub use limits::MAX_LINKS_PER_EMAIL;
pub use records::{Email, Mailbox, Summary, Thread};
pub use table::{Record, Table};
