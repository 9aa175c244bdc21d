//! What sets, imports and copies of every kind of record have in common: their arguments, creation
//! ids, the reasons for which an object is rejected, what is reported of objects, and the response
//! (RFC 8620, sections 5.3 and 5.4).
//!
//! What a call comes to as a whole is in `specs/Outcomes.antt`, the creates of a call one after the
//! other in `specs/Creates.antt`, the updates and destroys of a set in `specs/Steps.antt`, the
//! response in `specs/Responses.antt`, and the plan of a set in `specs/Plans.antt`.
#![tactic(auto)]

mod arguments;
mod created_texts;
mod creates;
mod creation_ids;
mod destroyed_ids;
mod keywords;
mod mailbox_numbers;
mod names;
mod outcomes;
mod plans;
mod reported;
mod responses;
mod set_errors;
mod steps;
mod text_set;

pub use arguments::{
    SentCreate, count_objects, read_account_id, read_creates, read_destroys, read_if_in_state,
    read_updates,
};
pub use created_texts::{
    CreatedRecords, CreatedTexts, collect_created, collect_texts, find_identifier,
    find_reported_id, find_text, note_text,
};
pub use creates::{CreateStep, Creates, NewRecord, enter_create, start_creates};
pub use creation_ids::{
    CreatedIds, collect_ids, find_id, note_id, read_mailbox_number, read_reference,
};
pub use destroyed_ids::collect_destroyed;
pub use keywords::read_keyword;
pub use mailbox_numbers::MailboxNumbers;
pub use names::{
    build_keyword_set, build_mailbox_set, find_mailbox, is_true, read_keywords, read_mailboxes,
    sort_names,
};
pub use outcomes::{check_call, check_set, check_state, is_other_state};
pub use plans::finish_plan;
pub use reported::{Reported, start_report};
pub use responses::{build_set_response, find_new_state};
pub use set_errors::{SetError, build_error};
pub use steps::Step;
pub use text_set::{Key, TextSet, add_text, has_text, new_set};
