// Responses, and those that a status or a JSON tree makes.
ghost use Rattle.std.specs.Prelude.{◌≡◌, IfOk};
ghost use Rattle.jm_json.specs.Json.{tree_of};
ghost use Rattle.method_batch.specs.Answered.{outcome_of};
ghost use Rattle.jmap_http.specs.Responses.{api_media, api_response, blank_response, blank_tree, json_response, limit_response, problem_response};

use jm_base::{Bytes, NoMemory, Text};
use jm_json::{Json, Members, write};
use method_batch::{Answered, show_limit};
use std::alloc::Global;

/// A response: its status, its media type and its body.
#[derive(Drop)]
pub struct Response {
    pub status: u16,
    pub media: Bytes,
    pub body: Bytes,
}

/// Returns the response with a JSON body.
pub(crate) fn write_json(alloc: Global, status: u16, tree: &Json) -> Result<Response, NoMemory>
    ensures { IfOk result (λ r. r ≡ json_response status (tree_of tree.now)) }
{
    let media = Bytes::from_slice(alloc, b"application/json")?;
    let body = write(alloc, tree)?;
    Ok(Response {
        status,
        media,
        body,
    })
}

/// Returns the response whose body is the details of a problem.
pub(crate) fn write_problem(alloc: Global, status: u16, tree: &Json) -> Result<Response, NoMemory>
    ensures { IfOk result (λ r. r ≡ problem_response status (tree_of tree.now)) }
{
    let media = Bytes::from_slice(alloc, b"application/problem+json")?;
    let body = write(alloc, tree)?;
    Ok(Response {
        status,
        media,
        body,
    })
}

// Returns problem details that say the status alone.
fn show_blank(alloc: Global, status: u16) -> Result<Json, NoMemory>
    ensures { IfOk result (λ t. tree_of t ≡ blank_tree status) }
{
    let mut members = Members::new(alloc);
    members.set(alloc, "status", Json::Int(status as i64))?;
    let kind = Text::from_str(alloc, "about:blank")?;
    members.set(alloc, "type", Json::Text(kind))?;
    Ok(Json::Object(members))
}

/// Returns the response that says a status alone.
pub(crate) fn write_blank(alloc: Global, status: u16) -> Result<Response, NoMemory>
    ensures { IfOk result (λ r. r ≡ blank_response status) }
{
    let tree = show_blank(alloc, status)?;
    write_problem(alloc, status, &tree)
}

/// Returns the response that says that a limit of this name was passed.
pub(crate) fn write_limit(alloc: Global, name: &str) -> Result<Response, NoMemory>
    ensures { IfOk result (λ r. r ≡ limit_response name.now) }
{
    let tree = show_limit(alloc, name)?;
    write_problem(alloc, 413, &tree)
}

// Returns the media type of an answer of the API.
fn write_api_media(alloc: Global, status: u16) -> Result<Bytes, NoMemory>
    ensures { IfOk result (λ m. m ≡ api_media status) }
{
    if status == 200 {
        return Ok(Bytes::from_slice(alloc, b"application/json")?);
    }
    Ok(Bytes::from_slice(alloc, b"application/problem+json")?)
}

/// Returns the response of a request to the API that was answered.
pub(crate) fn write_api(alloc: Global, answered: Answered) -> Result<Response, NoMemory>
    ensures { IfOk result (λ r. r ≡ api_response (outcome_of answered)) }
{
    let status = answered.status();
    let media = write_api_media(alloc, status)?;
    let mut body = Bytes::new(alloc);
    answered.write(alloc, &mut body)?;
    Ok(Response {
        status,
        media,
        body,
    })
}
