// The form of a request (RFC 8620, section 3.3). What is taken from its tree is moved and not
// copied.
ghost use Rattle.std.specs.Prelude.{◌≡◌, [], ◌∷◌, IfOk, option_and_then, option_map, codes};
ghost use Rattle.std.specs.Option.{option_or};
ghost use Rattle.jm_json.specs.Json.{tree_of, member_of};
ghost use Rattle.jm_json.specs.Calls.{calls_from};
ghost use Rattle.jm_json.specs.Find.{as_list, find};

use crate::created::read_created;
use crate::limits::MAX_CALLS_PER_REQUEST;
use crate::outcome::Problem;
use crate::using::{are_known, read_texts};
use jm_base::{NoMemory, Texts};
use jm_json::{Invocations, Json, Made, Member, Members, read_calls};
use std::alloc::Global;
use std::collections::VecDeque;

/// A request: the capabilities that it uses, its calls, and its `createdIds`, if it has them.
#[derive(Drop)]
pub struct Request {
    pub using: Texts,
    pub calls: Invocations,
    pub created: Option<Made>,
}

// The members of a request that are read.
#[derive(Drop)]
struct Parts {
    using: Option<Json>,
    calls: Option<Json>,
    created: Option<Json>,
}

impl Request {
    ghost use Rattle.method_batch.specs.Request.{request_of, request_in, request_with, request_by, problem_in};

    /// Returns the request of a tree, or none if the tree does not have the form of a request.
    pub(crate) fn of_tree(alloc: Global, tree: Json) -> Result<Option<Request>, NoMemory>
        ensures { IfOk result (λ o. o ≡ request_of (tree_of tree)) }
    {
        match tree.into_members() {
            Some(members) => Request::of_members(alloc, members),
            None => Ok(None),
        }
    }

    fn of_members(alloc: Global, members: Members) -> Result<Option<Request>, NoMemory>
        ensures { IfOk result (λ o. o ≡ request_in members) }
    {
        let parts = collect_parts(members);
        let capabilities = read_texts(alloc, parts.using)?;
        let calls = read_calls_if(alloc, parts.calls)?;
        Request::with_created(alloc, parts.created, capabilities, calls)
    }

    fn with_created(
        alloc: Global,
        created: Option<Json>,
        capabilities: Option<Texts>,
        calls: Option<Invocations>,
    ) -> Result<Option<Request>, NoMemory>
        ensures { IfOk result
            (λ o. o ≡ request_with (option_map tree_of created) capabilities calls) }
    {
        match created {
            Some(tree) => match read_created(alloc, tree)? {
                Some(made) => Ok(Request::of_parts(capabilities, calls, Some(made))),
                None => Ok(None),
            },
            None => Ok(Request::of_parts(capabilities, calls, None)),
        }
    }

    fn of_parts(
        capabilities: Option<Texts>,
        calls: Option<Invocations>,
        created: Option<Made>,
    ) -> Option<Request>
        ensures { result ≡ request_by capabilities calls created }
    {
        match capabilities {
            Some(using) => match calls {
                Some(calls) => Some(Request {
                    using,
                    calls,
                    created,
                }),
                None => None,
            },
            None => None,
        }
    }

    /// Returns why the request is rejected, if it is: a capability is not known, or there are more
    /// than [`MAX_CALLS_PER_REQUEST`] calls.
    pub(crate) fn find_problem(&self) -> Option<Problem>
        ensures { result ≡ problem_in self.now }
    {
        if !are_known(self.using.as_slice()) {
            return Some(Problem::UnknownCapability);
        }
        if self.calls.as_slice().len() > MAX_CALLS_PER_REQUEST {
            return Some(Problem::TooManyCalls);
        }
        None
    }
}

fn read_calls_if(alloc: Global, tree: Option<Json>) -> Result<Option<Invocations>, NoMemory>
    ensures { IfOk result
        (λ o. o ≡ option_and_then calls_from (option_and_then as_list (option_map tree_of tree))) }
{
    match tree {
        Some(tree) => read_calls(alloc, tree),
        None => Ok(None),
    }
}

fn collect_parts(members: Members) -> Parts
    ensures using { option_map tree_of result.using ≡ find (codes "using") members }
    ensures calls { option_map tree_of result.calls ≡ find (codes "methodCalls") members }
    ensures created { option_map tree_of result.created ≡ find (codes "createdIds") members }
{
    let mut parts = Parts {
        using: None,
        calls: None,
        created: None,
    };
    let mut rest = VecDeque::from_vec(members.into_vec());
    while let Some(member) = rest.pop_front() {
        parts = with_member(parts, member);
    }
    parts
}

// Returns the parts with a member, if it is one of them and was not there before.
fn with_member(parts: Parts, member: Member) -> Parts
    ensures using { option_map tree_of result.using
        ≡ option_or (option_map tree_of parts.using) (find (codes "using") (member_of member ∷ [])) }
    ensures calls { option_map tree_of result.calls
        ≡ option_or (option_map tree_of parts.calls) (find (codes "methodCalls") (member_of member ∷ [])) }
    ensures created { option_map tree_of result.created
        ≡ option_or (option_map tree_of parts.created) (find (codes "createdIds") (member_of member ∷ [])) }
{
    let Parts {
        using,
        calls,
        created,
    } = parts;
    let Member { name, value } = member;
    match name.as_str() {
        "using" => Parts {
            using: using.or(Some(value)),
            calls,
            created,
        },
        "methodCalls" => Parts {
            using,
            calls: calls.or(Some(value)),
            created,
        },
        "createdIds" => Parts {
            using,
            calls,
            created: created.or(Some(value)),
        },
        _ => Parts {
            using,
            calls,
            created,
        },
    }
}
