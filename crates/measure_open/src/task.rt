// The arguments of the command line.

/// The usage line, which is printed if the arguments are invalid.
pub(crate) const USAGE: &str = "usage: measure_open fill FILE N | measure_open open FILE";

/// What to measure.
#[derive(Clone, Copy, Debug, PartialEq, Eq)]
pub(crate) enum Task<'a> {
    /// So many calls on the account that this file keeps, and then its opening. The file is created
    /// if there is none.
    Fill { file: &'a str, calls: u64 },
    /// The opening of the account that this file keeps.
    Open { file: &'a str },
}

impl<'a> Task<'a> {
    /// Returns what the arguments name, or `None` if they are invalid.
    pub(crate) fn from_arguments(arguments: &'a [String]) -> Option<Task<'a>> {
        match arguments {
            [name, file] => Task::opening(name.as_str(), file.as_str()),
            [name, file, calls] => Task::filling(name.as_str(), file.as_str(), calls.as_str()),
            _ => None,
        }
    }

    fn opening(name: &str, file: &'a str) -> Option<Task<'a>> {
        if name == "open" {
            return Some(Task::Open { file });
        }
        None
    }

    fn filling(name: &str, file: &'a str, calls: &str) -> Option<Task<'a>> {
        if name == "fill" {
            return match calls.parse::<u64>() {
                Ok(calls) => Some(Task::Fill { file, calls }),
                Err(_) => None,
            };
        }
        None
    }
}
