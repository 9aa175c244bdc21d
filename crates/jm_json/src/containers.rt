// How many objects and lists a text has. A value of serde_json takes some 850 bytes for each, so a
// text of very many is not read.
ghost use Rattle.std.specs.Prelude.{◌≡◌, ◌≤◌, ◌+◌, ◌∷◌, IsTrue, List};
ghost use Rattle.json.specs.Lex.{tokens};
ghost use Rattle.json.specs.Reads.{token_of};
ghost use Rattle.json.specs.Token.{Token as SpecToken};
ghost use Rattle.jm_json.specs.Containers.{containers_in};
ghost use Rattle.jm_json.specs.declared.containers.TheConstants.{MAX_CONTAINERS};

use json::{Reader, Scratch, Token};
use std::alloc::Global;

/// How many objects and lists a text may have that is read.
pub const MAX_CONTAINERS: usize = 200_000;

// Returns whether a text has at most `MAX_CONTAINERS` objects and lists. If an allocation fails, it
// is false. A text of no more bytes than that is not looked at.
pub(crate) fn has_few_containers(alloc: Global, text: &str) -> bool
    ensures { IsTrue result → containers_in (tokens text.now) ≤ MAX_CONTAINERS }
{
    if text.len() <= MAX_CONTAINERS {
        return true;
    }
    count_few_containers(alloc, text)
}

fn count_few_containers(alloc: Global, text: &str) -> bool
    ensures { IsTrue result → containers_in (tokens text.now) ≤ MAX_CONTAINERS }
{
    let mut scratch = Scratch::new(alloc);
    let Ok(mut reader) = Reader::new(text, &mut scratch) else {
        return false;
    };
    let mut count = 0;
    'tokens: while let Some(token) = reader.next() {
        count += count_beginning(token);
        if count > MAX_CONTAINERS {
            return false;
        }
    }
    true
}

// Returns 1 for a token that begins an object or a list, and 0 for any other.
fn count_beginning(token: Token<'_>) -> usize
    ensures count { (rest : List SpecToken) → containers_in (token_of token.entry ∷ rest)
        ≡ result + containers_in rest }
    ensures most { result ≤ 1 }
{
    match token {
        Token::BeginObject | Token::BeginArray => 1,
        _ => 0,
    }
}
