// How a request was answered, before it is a tree or a text.
ghost use Rattle.std.specs.Prelude.{◌≡◌, ◌++◌, IfOk, OnOk, OnErr};
ghost use Rattle.serde_json.specs.Written.{compact_text};
ghost use Rattle.jm_json.specs.Json.{tree_of};
ghost use Rattle.jm_json.specs.JsonValues.{data_of};
ghost use Rattle.method_batch.specs.Outcome.{problem_tree};

use crate::outcome::{Outcome, Problem};
use crate::progress::Progress;
use crate::response::{build_response, write_response};
use jm_base::{Bytes, NoMemory};
use jm_json::write_after;
use std::alloc::Global;

/// How a request was answered: it is rejected as a whole, or its calls were performed, and it has
/// come this far. Its Response then has `createdIds` or not.
#[derive(Drop)]
pub enum Answered {
    Rejected(Problem),
    Performed(bool, Progress),
}

impl Answered {
    ghost use Rattle.method_batch.specs.Outcome.{IsReply};
    ghost use Rattle.method_batch.specs.Answered.{outcome_of};

    /// Returns the HTTP status of the answer: 200, or that of the problem for which the request was
    /// rejected.
    pub fn status(&self) -> u16
        ensures { result ≡ (outcome_of self.now).status }
    {
        match self {
            Answered::Rejected(problem) => problem.status(),
            Answered::Performed(_, _) => 200,
        }
    }

    /// Returns the outcome of the request.
    pub fn into_outcome(self, alloc: Global) -> Result<Outcome, NoMemory>
        ensures { IfOk result
            (λ o. IsReply o (outcome_of self).status (tree_of (outcome_of self).tree)) }
    {
        match self {
            Answered::Rejected(problem) => Outcome::reject(alloc, problem),
            Answered::Performed(shows, after) => Ok(Outcome {
                status: 200,
                tree: build_response(alloc, shows, after)?,
            }),
        }
    }

    /// Adds the compact text of the outcome's tree after what is there. If memory runs out, the
    /// bytes are unchanged.
    pub fn write(self, alloc: Global, out: &mut Bytes) -> Result<(), NoMemory>
        ensures ok { OnOk result (out.new ≡ out.old
            ++ compact_text (data_of (tree_of (outcome_of self).tree))) }
        ensures err { OnErr result (out.new ≡ out.old) }
    {
        match self {
            Answered::Rejected(problem) => write_refusal(alloc, problem, out),
            Answered::Performed(shows, after) => write_response(alloc, shows, after, out),
        }
    }
}

fn write_refusal(alloc: Global, problem: Problem, out: &mut Bytes) -> Result<(), NoMemory>
    ensures ok { OnOk result (out.new ≡ out.old
        ++ compact_text (data_of (problem_tree problem))) }
    ensures err { OnErr result (out.new ≡ out.old) }
{
    let Outcome { tree, .. } = Outcome::reject(alloc, problem)?;
    write_after(alloc, out, &tree)
}
