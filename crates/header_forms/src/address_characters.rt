// The characters of an address list (RFC 5322, section 3.4), each with the context that it is in.
use mail_text::State as CommentState;

/// What a character of an address list is in.
#[derive(Clone, Copy)]
pub enum Context {
    /// Outside the other three.
    Bare,
    /// Between quote marks, with these (quoted-string; RFC 5322, section 3.2.4).
    Quoted,
    /// In a comment, with its parentheses (RFC 5322, section 3.2.2).
    Comment,
    /// In an angle bracket, with the brackets (angle-addr; RFC 5322, section 3.4).
    Bracket,
}

/// A character of an address list.
#[derive(Clone, Copy)]
pub struct AddressCharacter {
    pub character: char,
    pub context: Context,
    /// False of a character that only opens, closes or quotes.
    pub said: bool,
}

/// What is open before a character. A flag says whether a backslash quotes the next character.
#[derive(Clone, Copy)]
pub enum State {
    /// Nothing.
    Outside,
    /// Quote marks.
    InQuotes(bool),
    /// Comments: how many, and whether a backslash quotes the next character.
    InComment(CommentState),
    /// An angle bracket.
    InBracket,
    /// Quote marks in an angle bracket.
    InBracketQuotes(bool),
}

/// A character with its context, and what is open after it.
#[derive(Clone, Copy)]
pub struct Step {
    pub character: AddressCharacter,
    pub next: State,
}

/// A sign that cuts an address list.
#[derive(Clone, Copy)]
pub enum Sign {
    /// Between two items.
    Comma,
    /// After the name of a group.
    Colon,
    /// At the end of a group.
    Semicolon,
}

/// Some of the characters of an item.
#[derive(Clone, Copy)]
pub enum Part {
    /// All.
    Whole,
    /// Those outside comments.
    Plain,
    /// What is said outside comments: before a bracket or a group's colon this is the display-name.
    Phrase,
    /// What is said in comments (comment; RFC 5322, section 3.2.2).
    Remark,
}
