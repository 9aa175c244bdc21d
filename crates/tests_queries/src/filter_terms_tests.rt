// Which filters are answered without the message, and which ask for an author. A command shows
// neither: its answers are the same where every message is opened.
ghost use Rattle.std.specs.Prelude.{[]};

use filter_terms::{
    OpenedMessage, Place, RequiredText, Texts2, find_required_text, matches_email, read_filter,
};
use jm_base::{Kind, NoMemory, Numbers, Text, Texts, UtcDate};
use jm_json::{Json, read};
use mail_records::{Content, Email, Summary};
use std::alloc::Global;
use std::process::Abort;

// A store whose messages can't be opened.
#[derive(Drop)]
struct Closed {}

impl OpenedMessage for Closed {
    ghost contents = { λ t. record { fields = λ name. []; bodies = [] } };

    fn has(&mut self, _place: Place, _needle: &[u8]) -> Result<bool, NoMemory> {
        Ok(false)
    }

    fn field(&mut self, _name: &[u8], _needle: Option<&[u8]>) -> Result<bool, NoMemory> {
        Ok(false)
    }
}

impl Texts2 for Closed {
    type Message = Closed;

    ghost texts = { λ t blob. record { fields = λ name. []; bodies = [] } };

    fn open(&self, _blob: u64) -> Result<Closed, NoMemory> {
        Err(NoMemory)
    }
}

// An email of 100 bytes in no mailbox and without keywords.
fn build_email(alloc: Global) -> Email {
    let summary = Summary {
        links: Texts::new(alloc),
        subject: Text::from_string(String::new(alloc)),
        from: Text::from_string(String::new(alloc)),
        to: Text::from_string(String::new(alloc)),
        sent: None,
        attachment: false,
    };
    Email {
        number: 1,
        thread: 1,
        blob: 1,
        mailboxes: Numbers::new(alloc),
        keywords: Texts::new(alloc),
        size: 100,
        received: UtcDate { seconds: 0 },
        summary,
    }
}

// A letter for the email: `y` if the filter matches, `n` if not, and `?` if that depends on the
// texts of its message; `!` if the tree is no filter.
fn match_tree(alloc: Global, content: &Content, email: &Email, tree: &Json) -> char {
    match read_filter(alloc, Kind::Email, tree) {
        Ok(filter) => match matches_email(&filter, content, &Closed {}, email) {
            Ok(true) => 'y',
            Ok(false) => 'n',
            Err(_) => '?',
        },
        Err(_) => '!',
    }
}

fn match_without_texts(alloc: Global, content: &Content, email: &Email, filter: &str) -> char {
    match read(alloc, filter.as_bytes()) {
        Ok(tree) => match_tree(alloc, content, email, &tree),
        Err(_) => '!',
    }
}

const TEXTLESS: &[(&str, char)] = &[
    (r#"{"text":"x"}"#, '?'),
    (r#"{"minSize":1,"text":"x"}"#, '?'),
    (r#"{"body":"x","minSize":101}"#, 'n'),
    (r#"{"header":["x"],"hasKeyword":"$flagged"}"#, 'n'),
    (
        r#"{"operator":"OR","conditions":[{"text":"x"},{"minSize":1}]}"#,
        'y',
    ),
    (
        r#"{"operator":"OR","conditions":[{"text":"x"},{"minSize":101}]}"#,
        '?',
    ),
    (
        r#"{"operator":"NOT","conditions":[{"text":"x"},{"minSize":1}]}"#,
        'n',
    ),
    (
        r#"{"operator":"AND","conditions":[{"operator":"OR","conditions":[{"text":"x"},null]},null]}"#,
        'y',
    ),
    (
        r#"{"operator":"AND","conditions":[{"operator":"NOT","conditions":[{"text":"x"}]},{"inMailbox":"M9"}]}"#,
        'n',
    ),
];

#[test]
fn texts_are_looked_at_last(rt: HostRuntime) {
    let content = Content::new(rt.alloc());
    let email = build_email(rt.alloc());
    for (filter, wanted) in TEXTLESS {
        let found = match_without_texts(rt.alloc(), &content, &email, filter);
        assert!(rt; found == *wanted, "{filter}");
    }
}

fn letter_of(required: Option<RequiredText<'_>>) -> char {
    match required {
        Some(required) => {
            if required.needle != "ann".as_bytes() {
                '?'
            } else if required.alone {
                '='
            } else {
                '<'
            }
        }
        None => '-',
    }
}

// `=` if a filter asks for an author "ann" and for nothing else, `<` if it asks for more, `-` if it
// asks for no author, and `?` if for another one; `!` if the tree is no filter.
fn find_author(alloc: Global, tree: &Json) -> char {
    match read_filter(alloc, Kind::Email, tree) {
        Ok(filter) => letter_of(find_required_text(&filter, Place::From)),
        Err(_) => '!',
    }
}

fn find_required_author(alloc: Global, filter: &str) -> char {
    match read(alloc, filter.as_bytes()) {
        Ok(tree) => find_author(alloc, &tree),
        Err(_) => '!',
    }
}

const AUTHORS: &[(&str, char)] = &[
    (r#"{"from":"Ann"}"#, '='),
    (r#"{"from":"Ann","minSize":1}"#, '<'),
    (
        r#"{"operator":"AND","conditions":[{"to":"b"},{"from":"Ann"},{"from":"b"}]}"#,
        '<',
    ),
    (
        r#"{"operator":"AND","conditions":[null,{"operator":"AND","conditions":[{"from":"Ann"}]}]}"#,
        '<',
    ),
    (r#"{"operator":"OR","conditions":[{"from":"Ann"}]}"#, '-'),
    (r#"{"operator":"NOT","conditions":[{"from":"Ann"}]}"#, '-'),
    (r#"{"to":"Ann"}"#, '-'),
    (r#"{"text":"Ann"}"#, '-'),
    (r#"{"header":["From","Ann"]}"#, '-'),
];

#[test]
fn an_author_is_required_alone_or_with_more(rt: HostRuntime) {
    for (filter, wanted) in AUTHORS {
        let found = find_required_author(rt.alloc(), filter);
        assert!(rt; found == *wanted, "{filter}");
    }
}
