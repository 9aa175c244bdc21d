// The outcome of a request, and the problems for which one is rejected (RFC 8620, section 3.6.1;
// RFC 7807).
ghost use Rattle.std.specs.Prelude.{◌≡◌, IfOk, option_map};
ghost use Rattle.jm_json.specs.Json.{tree_of};
ghost use Rattle.method_batch.specs.Outcome.{limit_tree};

use jm_base::{NoMemory, Text};
use jm_json::{Json, Members};
use std::alloc::Global;

/// A reply to a request: its HTTP status, and a Response or the details of a problem.
#[derive(Drop)]
pub struct Outcome {
    pub status: u16,
    pub tree: Json,
}

/// Why a request is rejected as a whole (RFC 8620, section 3.6.1). The first of these that holds is
/// the problem: the request has too many bytes, it is no JSON, it does not have the form of a
/// request, it uses an unknown capability, or it has too many calls.
#[derive(Clone, Copy, Debug, PartialEq, Eq)]
pub enum Problem {
    TooLarge,
    NotJson,
    NotRequest,
    UnknownCapability,
    TooManyCalls,
}

impl Problem {
    ghost use Rattle.method_batch.specs.Outcome.{problem_type, problem_limit, problem_status, limit_member};

    fn find_type(self) -> &'static str
        ensures { result.now ≡ problem_type self }
    {
        match self {
            Problem::TooLarge => "urn:ietf:params:jmap:error:limit",
            Problem::NotJson => "urn:ietf:params:jmap:error:notJSON",
            Problem::NotRequest => "urn:ietf:params:jmap:error:notRequest",
            Problem::UnknownCapability => "urn:ietf:params:jmap:error:unknownCapability",
            Problem::TooManyCalls => "urn:ietf:params:jmap:error:limit",
        }
    }

    // Returns the name of the limit that was passed.
    fn find_limit(self) -> Option<&'static str>
        ensures { option_map (λ s. s.now) result ≡ problem_limit self }
    {
        match self {
            Problem::TooLarge => Some("maxSizeRequest"),
            Problem::TooManyCalls => Some("maxCallsInRequest"),
            _ => None,
        }
    }

    pub(crate) fn status(self) -> u16
        ensures { result ≡ problem_status self }
    {
        match self {
            Problem::TooLarge => 413,
            _ => 400,
        }
    }

    // Returns the members of the problem's details that name a limit.
    fn limit_members(self, alloc: Global) -> Result<Members, NoMemory>
        ensures { IfOk result (λ ms. ms ≡ limit_member (problem_limit self)) }
    {
        let mut members = Members::new(alloc);
        match self.find_limit() {
            Some(limit) => {
                let limit = Text::from_str(alloc, limit)?;
                members.set(alloc, "limit", Json::Text(limit))?;
                Ok(members)
            }
            None => Ok(members),
        }
    }
}

/// Returns the problem of a limit of this name that was passed by what is no request of calls, as
/// an upload (RFC 8620, section 3.6.1).
pub fn show_limit(alloc: Global, name: &str) -> Result<Json, NoMemory>
    ensures { IfOk result (λ t. tree_of t ≡ limit_tree name.now) }
{
    let mut members = Members::new(alloc);
    members.set(alloc, "limit", Json::Text(Text::from_str(alloc, name)?))?;
    members.set(alloc, "status", Json::Int(413))?;
    let kind = Text::from_str(alloc, "urn:ietf:params:jmap:error:limit")?;
    members.set(alloc, "type", Json::Text(kind))?;
    Ok(Json::Object(members))
}

impl Outcome {
    ghost use Rattle.method_batch.specs.Outcome.{IsRefusal};

    /// Returns the outcome of a request that is rejected as a whole.
    pub fn reject(alloc: Global, problem: Problem) -> Result<Outcome, NoMemory>
        ensures { IfOk result (λ o. IsRefusal problem o) }
    {
        let status = problem.status();
        let mut members = problem.limit_members(alloc)?;
        members.set(alloc, "status", Json::Int(status as i64))?;
        let name = Text::from_str(alloc, problem.find_type())?;
        members.set(alloc, "type", Json::Text(name))?;
        Ok(Outcome {
            status,
            tree: Json::Object(members),
        })
    }
}
