// Which bytes of a field's value are in comments (RFC 5322, section 3.2.2). Comments nest, and are
// counted, not recursed into.
ghost use Rattle.std.specs.Prelude.{◌≡◌, ◌<◌, ◌≤◌, ◌+◌, ◌^◌};
ghost use Rattle.mail_text.specs.Comments;
ghost use Rattle.mail_text.specs.Comments.{depth_of};

const OPENING: u32 = '(' as u32;

const CLOSING: u32 = ')' as u32;

const BACKSLASH: u32 = '\\' as u32;

/// Where a byte is: outside comments, in this many comments, or after a backslash in this many,
/// which quotes the byte (quoted-pair; RFC 5322, section 3.2.1).
#[derive(Clone, Copy)]
pub enum State {
    Outside,
    Inside(u64),
    Escaped(u64),
}

/// Returns where the byte after this one is, where this one is in this many comments.
fn next_inside(depth: u64, code: u32) -> State
    requires { depth + 1 < 2 ^ 64 }
    ensures value { result ≡ Comments.next (State.Inside depth) code }
    ensures bound { depth_of result ≤ depth + 1 }
{
    if code == OPENING {
        State::Inside(depth + 1)
    } else if code == CLOSING && depth <= 1 {
        State::Outside
    } else if code == CLOSING {
        State::Inside(depth - 1)
    } else if code == BACKSLASH {
        State::Escaped(depth)
    } else {
        State::Inside(depth)
    }
}

/// Returns where the byte or character after this one is. `code` is the number of this one: a byte,
/// or a character's code point.
pub fn advance_state(state: State, code: u32) -> State
    requires { depth_of state + 1 < 2 ^ 64 }
    ensures value { result ≡ Comments.next state code }
    ensures bound { depth_of result ≤ depth_of state + 1 }
{
    match state {
        State::Outside => {
            if code == OPENING {
                State::Inside(1)
            } else {
                State::Outside
            }
        }
        State::Inside(depth) => next_inside(depth, code),
        State::Escaped(depth) => State::Inside(depth),
    }
}

/// Returns whether a byte is outside comments.
pub fn is_outside(state: State) -> bool
    ensures { result ≡ Comments.is_outside state }
{
    match state {
        State::Outside => true,
        State::Inside(_) => false,
        State::Escaped(_) => false,
    }
}
