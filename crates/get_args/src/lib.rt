//! Reads the arguments of a get and of an Email/parse: the records and the properties that a client
//! asks for (RFC 8620, section 5.1; RFC 8621, sections 4.2 and 4.9).
//!
//! [`read_selection`] and [`find_hidden_properties`] read what every get has; [`read_wanted`] reads
//! the properties of a message that an Email/get or an Email/parse asks for. An invalid argument is
//! a [`WantedFault`]. Arguments of other names are ignored.
#![tactic(auto)]

mod fault;
mod header_names;
mod laws;
mod property;
mod property_names;
mod selection;
mod wanted;

pub use fault::{WantedFault, blame_argument};
pub use laws::{arguments_of_a_client_are_taken, arguments_of_read_are_taken};
pub use property::{
    HeaderProperty, MetadataProperty, NamedPartProperty, NamedProperty, PartProperty, Property,
};
pub use selection::{Selection, find_hidden_properties, read_selection};
pub use wanted::{
    Wanted, build_cached_names, build_wanted_for_read, read_wanted, read_wanted_members,
};
