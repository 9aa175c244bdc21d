// The context of each character of an address list.
ghost use Rattle.std.specs.Prelude.{◌≡◌, ◌<◌, ◌+◌, ◌^◌, IfOk};
ghost use Rattle.std.specs.Str.{chars};
ghost use Rattle.header_forms.specs.AddressCharacters;
ghost use Rattle.mail_text.specs.declared.comment.State.{State as CommentState};
ghost use Rattle.header_forms.specs.AddressCharacters.{step_to, in_comment, is_said_in_comment, depth_of, characters_from, address_characters};

use crate::address_characters::{AddressCharacter, Context, State, Step};
use jm_base::NoMemory;
use mail_text::{State as CommentState, advance_state};
use std::alloc::Global;

/// Returns the step of a character that is in this context.
fn step_to(character: char, context: Context, said: bool, next: State) -> Step
    ensures { result ≡ AddressCharacters.step_to character context said next }
{
    Step {
        character: AddressCharacter {
            character,
            context,
            said,
        },
        next,
    }
}

fn step_outside(c: char) -> Step
    ensures { result ≡ AddressCharacters.step State.Outside c }
{
    if c == '"' {
        step_to(c, Context::Quoted, false, State::InQuotes(false))
    } else if c == '(' {
        step_to(
            c,
            Context::Comment,
            false,
            State::InComment(CommentState::Inside(1)),
        )
    } else if c == '<' {
        step_to(c, Context::Bracket, false, State::InBracket)
    } else {
        step_to(c, Context::Bare, true, State::Outside)
    }
}

fn step_in_quotes(escaped: bool, c: char) -> Step
    ensures { result ≡ AddressCharacters.step (State.InQuotes escaped) c }
{
    if escaped {
        step_to(c, Context::Quoted, true, State::InQuotes(false))
    } else if c == '"' {
        step_to(c, Context::Quoted, false, State::Outside)
    } else if c == '\\' {
        step_to(c, Context::Quoted, false, State::InQuotes(true))
    } else {
        step_to(c, Context::Quoted, true, State::InQuotes(false))
    }
}

/// Returns what is open when comments are in this state, or none is left.
fn build_comment_state(comments: CommentState) -> State
    ensures { result ≡ in_comment comments }
{
    match comments {
        CommentState::Outside => State::Outside,
        CommentState::Inside(_) | CommentState::Escaped(_) => State::InComment(comments),
    }
}

/// Returns whether a character in comments is said; `next` is the state of the comments after it.
fn is_said_in_comment(comments: CommentState, next: CommentState, c: char) -> bool
    ensures { result ≡ is_said_in_comment comments next c }
{
    match comments {
        CommentState::Escaped(_) => true,
        CommentState::Inside(_) | CommentState::Outside => match next {
            CommentState::Outside => false,
            CommentState::Inside(_) | CommentState::Escaped(_) => c != '\\',
        },
    }
}

fn step_in_comment(comments: CommentState, c: char) -> Step
    requires { depth_of (State.InComment comments) + 1 < 2 ^ 64 }
    ensures { result ≡ AddressCharacters.step (State.InComment comments) c }
{
    let next = advance_state(comments, c as u32);
    let said = is_said_in_comment(comments, next, c);
    step_to(c, Context::Comment, said, build_comment_state(next))
}

fn step_in_bracket(c: char) -> Step
    ensures { result ≡ AddressCharacters.step State.InBracket c }
{
    if c == '>' {
        step_to(c, Context::Bracket, false, State::Outside)
    } else if c == '"' {
        step_to(c, Context::Bracket, false, State::InBracketQuotes(false))
    } else {
        step_to(c, Context::Bracket, true, State::InBracket)
    }
}

fn step_in_bracket_quotes(escaped: bool, c: char) -> Step
    ensures { result ≡ AddressCharacters.step (State.InBracketQuotes escaped) c }
{
    if escaped {
        step_to(c, Context::Bracket, true, State::InBracketQuotes(false))
    } else if c == '"' {
        step_to(c, Context::Bracket, false, State::InBracket)
    } else if c == '\\' {
        step_to(c, Context::Bracket, false, State::InBracketQuotes(true))
    } else {
        step_to(c, Context::Bracket, true, State::InBracketQuotes(false))
    }
}

/// Returns a character with its context, and what is open after it.
fn step(state: State, c: char) -> Step
    requires { depth_of state + 1 < 2 ^ 64 }
    ensures { result ≡ AddressCharacters.step state c }
{
    match state {
        State::Outside => step_outside(c),
        State::InQuotes(escaped) => step_in_quotes(escaped, c),
        State::InComment(comments) => step_in_comment(comments, c),
        State::InBracket => step_in_bracket(c),
        State::InBracketQuotes(escaped) => step_in_bracket_quotes(escaped, c),
    }
}

fn read_all(alloc: Global, characters: &[char]) -> Result<Vec<AddressCharacter>, NoMemory>
    ensures { IfOk result (λ ms. ms.items ≡ characters_from State.Outside characters.now) }
{
    let mut read = Vec::with_capacity(alloc, characters.len())?;
    let mut state = State::Outside;
    for c in characters {
        let Step { character, next } = step(state, *c);
        read.push(character)?;
        state = next;
    }
    Ok(read)
}

fn collect_characters(alloc: Global, text: &str) -> Result<Vec<char>, NoMemory>
    ensures { IfOk result (λ cs. cs.items ≡ chars text.now) }
{
    Ok(text.chars().collect(alloc)?)
}

/// Reads the characters of an address list, each with its context.
pub fn read_characters(alloc: Global, text: &str) -> Result<Vec<AddressCharacter>, NoMemory>
    ensures { IfOk result (λ ms. ms.items ≡ address_characters text.now) }
{
    let all = collect_characters(alloc, text)?;
    read_all(alloc, all.as_slice())
}
