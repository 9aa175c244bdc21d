// Requests of a client, and what is answered.
ghost use Rattle.std.specs.Prelude.{◌≡◌, IfOk};

use jm_base::{Bytes, NoMemory};
use std::alloc::Global;

/// What a server answered to a request: the status of HTTP (RFC 9110, section 15), and the body.
#[derive(Debug, Drop)]
pub struct Answer {
    pub status: u16,
    pub body: Bytes,
}

impl Answer {
    /// Returns a copy of the answer, in memory of its own. Fails if memory runs out.
    pub fn copy(&self, alloc: Global) -> Result<Answer, NoMemory>
        ensures { IfOk result (λ a. a ≡ self.now) }
    {
        Ok(Answer {
            status: self.status,
            body: Bytes::from_slice(alloc, self.body.as_slice())?,
        })
    }
}

/// A request of a client, and what was answered: the path, the body, and the answer. A request
/// without a body is a GET, and one with a body a POST (RFC 9110, section 9.3).
#[derive(Debug, Drop)]
pub struct Asked {
    pub path: Bytes,
    pub body: Option<Bytes>,
    pub answer: Answer,
}
