//! JSON trees, read from bytes and written to bytes, and the calls and responses of a request.
//!
//! Contracts see a [`Json`] as its tree (`Rattle.jm_json.specs.Tree`), by `tree_of`. Numbers are
//! integers; those that were read are below 2^53 and above -2^53. An object has each key once, in
//! byte order.
#![tactic(auto)]

mod calls;
mod containers;
mod copies;
mod equality;
mod invocation;
mod laws;
mod member_runs;
mod patches;
mod path_parts;
mod paths;
mod pointers;
mod reader;
mod requests;
mod responses;
mod tree;
mod tree_depth;
mod writer;

pub use calls::{read_calls, read_responses};
pub use containers::MAX_CONTAINERS;
pub use copies::copy;
pub use equality::is_same_tree;
pub use invocation::{Created, Invocation, Invocations, Made, Replied};
pub use laws::{
    show_that_a_pushed_part_is_followed, show_that_calls_are_read_as_written,
    show_that_the_least_place_is_least, show_that_what_was_read_reads_back,
};
pub use member_runs::MemberRuns;
pub use patches::{PatchFault, patch};
pub use path_parts::{push_escaped, strip_prefix, unescape_part};
pub use paths::{find_child, part_end, pointer};
pub use pointers::{choose_least, push_index, push_name};
pub use reader::{MAX_DEPTH, ReadFault, read};
pub use requests::write_request;
pub use responses::write_responses;
pub use tree::{Items, Json, Member, Members};
pub use tree_depth::depth;
pub use writer::{write, write_after};
