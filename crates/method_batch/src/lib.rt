//! The replies of a request (RFC 8620, section 3), over any port that answers its methods.
#![tactic(auto)]

mod answer;
mod answered;
mod created;
mod laws;
mod limits;
mod method;
mod outcome;
mod port;
mod prepare;
mod progress;
mod reply;
mod request;
mod response;
mod using;

pub use answer::{
    answer_request, answer_tree, perform_request, perform_tree, write_answer, write_answer_over,
};
pub use answered::Answered;
pub use laws::show_that_a_single_call_is_answered_by_the_port;
pub use limits::MAX_CALLS_PER_REQUEST;
pub use outcome::{Outcome, Problem, show_limit};
pub use port::Port;
pub use progress::Progress;
