//! References to results of earlier calls of a request (RFC 8620, section 3.7).
#![tactic(auto)]

mod fault;
mod laws;
mod path;
mod references;
mod room;

pub use fault::RefFault;
pub use laws::a_reference_takes_what_it_makes;
pub use references::resolve;
pub use room::MAX_REFERENCE_BYTES;
