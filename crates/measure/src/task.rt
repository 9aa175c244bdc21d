// The arguments of the command line.

/// The usage line, which is printed if the arguments are invalid.
pub(crate) const USAGE: &str =
    "usage: measure lock N | measure append FILE | measure keep FILE | measure view FOLDER";

/// What to measure.
#[derive(Clone, Copy, Debug, PartialEq, Eq)]
pub(crate) enum Task<'a> {
    /// Turns at the lock of an account, this many by each thread.
    Lock { rounds: u64 },
    /// Appends to a keeper of this file, which is created if there is none.
    Append { file: &'a str },
    /// Encoding and decoding of the commits of this file.
    Keep { file: &'a str },
    /// The JSON views of the messages of this folder.
    View { folder: &'a str },
}

impl<'a> Task<'a> {
    /// Returns what the arguments name, or `None` if they are invalid.
    pub(crate) fn from_arguments(arguments: &'a [String]) -> Option<Task<'a>> {
        match arguments {
            [name, value] => Task::named(name.as_str(), value.as_str()),
            _ => None,
        }
    }

    fn named(name: &str, value: &'a str) -> Option<Task<'a>> {
        if name == "lock" {
            return match value.parse::<u64>() {
                Ok(rounds) => Some(Task::Lock { rounds }),
                Err(_) => None,
            };
        }
        if name == "append" {
            return Some(Task::Append { file: value });
        }
        if name == "keep" {
            return Some(Task::Keep { file: value });
        }
        if name == "view" {
            return Some(Task::View { folder: value });
        }
        None
    }
}
