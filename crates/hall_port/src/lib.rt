//! What answers for the users of a server over a hall of accounts, with one session of the hall.
//!
//! [`serve_connection`] serves the requests of a connection (`specs/Serving.antt`) by a
//! [`HallPort`], which is a `UserPort`. Which account a call names, or which error it is answered
//! by the accounts that it names, is in `specs/Targets.antt` of `read_replies`; what a call, an
//! upload, a download and a reading of states do to the session, and how they are answered, is in
//! `specs/Steps.antt`. [`answer_hall_lines`] answers lines of requests and uploads by the same port
//! (`specs/Lines.antt`).
#![tactic(auto)]

mod answering;
mod asking;
mod hall_port;
mod laws;
mod lines;
mod originals;
mod replies;
mod serving;
mod targets;

pub use answering::answer_hall_lines;
pub use asking::Asks;
pub use hall_port::HallPort;
pub use laws::{sessions_only_grow, single_reads_are_replied_at_points};
pub use serving::serve_connection;
