//! Reads the arguments of a method call and of a response: the members of an object, by name (RFC
//! 8620, sections 3.2 and 5).
//!
//! A method lists its [`Argument`]s in the order in which they are checked. [`find_invalid`]
//! returns the name of the first one that does not have its form; the other functions read the
//! value of one argument. Arguments of names that a method does not have are ignored.
//!
//! A client reads identifiers, states and added items out of a response, and finds the least place
//! at which a value is not of its form. [`build_response`] makes the response of what a method
//! returned.
#![tactic(auto)]

mod added;
mod form;
mod ids;
mod laws;
mod outcomes;
mod places;
mod values;
mod wrapped;

pub use added::read_added;
pub use form::{Argument, Presence, Shape, find_invalid, has_form};
pub use ids::{make_ids, read_id_of, read_ids, read_state_of};
pub use laws::{
    show_that_values_without_places_are_read, show_that_written_ids_are_read,
    show_that_written_states_are_read,
};
pub use outcomes::{MethodFault, build_response};
pub use places::{
    choose_in_added, choose_in_added_of, choose_in_ids, choose_in_ids_of, choose_member,
    choose_value, make_item_pointer, make_member_pointer,
};
pub use values::{
    check_unsigned, find_given, lend_strings, read_account, read_count, read_flag, read_integer,
    read_object, read_strings, read_text,
};
pub use wrapped::{wrap_list, wrap_object};

/// The greatest number of objects that one call may get or set: `maxObjectsInGet` and
/// `maxObjectsInSet` (RFC 8620, section 2).
pub const MAX_OBJECTS_PER_CALL: usize = 500;
