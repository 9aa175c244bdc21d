//! Reads the responses to calls that a client makes: /get, /changes, /query and /queryChanges (RFC
//! 8620, sections 5.1, 5.2, 5.5 and 5.6).
//!
//! A response is read if it is of its form, and names the account, state and position that were
//! asked. Otherwise the reader returns the JSON Pointer of the value that is not: of several the
//! least in byte order. Members of other names are ignored.
#![tactic(auto)]

mod deltas;
mod fault;
mod laws;
mod members;
mod objects;
mod pages;
mod results;

pub use deltas::{ReadDelta, choose_in_delta, read_delta};
pub use fault::PlaceFault;
pub use laws::{show_that_written_objects_are_read, show_that_written_responses_are_read};
pub use objects::{ReadObject, ReadObjects, choose_in_objects, read_objects};
pub use pages::{ReadPage, choose_in_page, read_page};
pub use results::{ReadResults, choose_in_results, read_results};
