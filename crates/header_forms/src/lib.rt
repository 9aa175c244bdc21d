//! The forms of header fields (RFC 8621, section 4.1.2).
#![tactic(auto)]

mod address;
mod address_characters;
mod address_items;
mod address_pieces;
mod angles;
mod character_contexts;
mod date;
mod date_parts;
mod date_reader;
mod date_text;
mod date_time;
mod date_words;
mod form;
mod forms;
mod groups;
mod laws;
mod texts;

pub use address::{Address, Addresses, Group, Groups};
pub use angles::read_angle_texts;
pub use date::{find_timestamp, read_date_text};
pub use form::Form;
pub use forms::form_of;
pub use groups::{parse_addresses, parse_groups};
pub use laws::{
    addresses_are_read_back, check_example_dates, check_example_forms,
    comments_in_dates_change_nothing, dates_are_read_back, identifiers_are_read_back,
    plain_groups_hold_their_items, plain_texts_are_one_address, quoted_names_are_read_back,
    texts_are_read_back, written_values_are_folded,
};
pub use texts::{read_raw, read_text_form, unfold_value};
