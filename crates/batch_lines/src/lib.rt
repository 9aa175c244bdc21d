//! Lines of requests and of uploads, each answered by a line, over any port that answers them.
#![tactic(auto)]

mod fault;
mod limits;
mod line;
mod lines;
mod upload;

pub use fault::LinesFault;
pub use limits::{MAX_INPUT_BYTES, MAX_UPLOAD_CHARACTERS};
pub use line::append_line;
pub use lines::answer_lines;
pub use upload::{UploadPort, Uploaded};
