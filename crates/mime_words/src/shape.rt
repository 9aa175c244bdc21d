// The pieces of an encoded-word: =?charset?encoding?encoded-text?= (RFC 2047, section 2).
ghost use Rattle.std.specs.Prelude.{◌≡◌, ◌<◌, ◌≤◌, ◌∷◌, length, option_map, IfSome};
ghost use Rattle.mime_words.specs.Words.{after_sign, at_question, shape_at};
ghost use Rattle.mime_words.specs.Views.{halves, shape_of};

/// The pieces of an encoded-word, and the text after it.
#[derive(Clone, Copy)]
pub struct Shape<'a> {
    pub charset: &'a str,
    /// The encoding: its letter.
    pub encoding: &'a str,
    /// The encoded-text.
    pub encoded: &'a str,
    pub rest: &'a str,
}

/// Returns the text after this ASCII character; none if the text doesn't begin with it.
fn strip_sign(text: &str, sign: char) -> Option<&str>
    requires { sign < 128 }
    ensures value { option_map (λ r. r.now) result ≡ after_sign sign text.now }
    ensures within { IfSome result (λ r. length r.now < length text.now) }
{
    text.strip_prefix(sign)
}

/// Splits a text at its first question mark; none if it has none.
fn split_question(text: &str) -> Option<(&str, &str)>
    ensures value { option_map halves result ≡ at_question text.now }
    ensures within { IfSome result (λ x. length x.1.now < length text.now) }
{
    text.split_once('?')
}

/// Reads the pieces of the encoded-word that begins with an equals sign and this text.
#[tactic(auto, unfolding(crate::specs::Words::shape_at))]
pub fn split_shape(text: &str) -> Option<Shape<'_>>
    ensures value { option_map shape_of result ≡ shape_at (61 ∷ text.now) }
    ensures within { IfSome result (λ s. length s.rest.now < length text.now) }
{
    let inner = strip_sign(text, '?')?;
    let (charset, later) = split_question(inner)?;
    let (encoding, later) = split_question(later)?;
    let (encoded, later) = split_question(later)?;
    let rest = strip_sign(later, '=')?;
    Some(Shape {
        charset,
        encoding,
        encoded,
        rest,
    })
}
