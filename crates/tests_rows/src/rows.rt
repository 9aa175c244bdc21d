// The rows of a file.
use crate::fault::Fault;
use crate::lines::{Line, Mark, split_at_byte};
use crate::options::Options;
use crate::requests::Kind;
use crate::script::Script;
use std::alloc::Global;

/// A row: what it sends, what is wanted, and how it is run.
#[derive(Drop)]
pub(crate) struct Row<'a> {
    pub(crate) kind: Kind,
    pub(crate) script: Script<'a>,
    pub(crate) options: Options,
}

/// The lines of a row: the set-up of its file, its name, and its own lines.
#[derive(Clone, Copy, Debug)]
pub(crate) struct Block<'a> {
    pub(crate) setup: &'a [Line<'a>],
    pub(crate) name: Line<'a>,
    pub(crate) lines: &'a [Line<'a>],
}

/// Returns the lines before the first row, and the others.
pub(crate) fn split_setup<'a>(lines: &'a [Line<'a>]) -> (&'a [Line<'a>], &'a [Line<'a>]) {
    let mut count = 0usize;
    for line in lines {
        if line.mark == Mark::Name {
            break;
        }
        count = count.saturating_add(1);
    }
    match lines.split_at_checked(count) {
        Some(parts) => parts,
        None => (lines, &[]),
    }
}

/// Returns the first row of these lines, which begin with its name, and the lines after it.
pub(crate) fn split_block<'a>(
    setup: &'a [Line<'a>],
    rest: &'a [Line<'a>],
) -> Option<(Block<'a>, &'a [Line<'a>])> {
    let (name, after) = rest.split_first()?;
    let (lines, others) = split_setup(after);
    Some((
        Block {
            setup,
            name: *name,
            lines,
        },
        others,
    ))
}

// Returns whether a line says what is wanted.
fn is_wanting(line: &Line<'_>) -> bool {
    match line.mark {
        Mark::Wanted | Mark::WantedPart | Mark::Response => true,
        Mark::Setting => {
            let (name, _) = split_at_byte(line.text, b' ');
            name == b"status".as_slice()
                || name == b"error".as_slice()
                || name == b"out".as_slice()
                || name == b"leaves".as_slice()
        }
        _ => false,
    }
}

/// Returns whether a row of its own says what is wanted.
pub(crate) fn wants_something(lines: &[Line<'_>]) -> bool {
    for line in lines {
        if is_wanting(line) {
            return true;
        }
    }
    false
}

/// Returns whether one of the rows in these lines has the name.
pub(crate) fn is_named_in(lines: &[Line<'_>], name: &[u8]) -> bool {
    for line in lines {
        if line.mark == Mark::Name && line.text == name {
            return true;
        }
    }
    false
}

impl<'a> Row<'a> {
    fn add(&mut self, alloc: Global, lines: &[Line<'a>]) -> Result<(), Fault> {
        for line in lines {
            if line.mark == Mark::Setting {
                self.options.add(alloc, line)?;
            } else {
                self.script.add(alloc, line)?;
            }
        }
        Ok(())
    }

    /// Returns whether the row runs `batch` to its end, which answers each line by a line.
    pub(crate) fn is_whole_batch(&self) -> bool {
        self.options.status == 0 && self.options.arguments.as_slice() == b"batch".as_slice()
    }

    /// Returns the row of these lines.
    pub(crate) fn read(alloc: Global, kind: Kind, block: &Block<'a>) -> Result<Row<'a>, Fault> {
        let mut row = Row {
            kind,
            script: Script::new(alloc, kind),
            options: Options::build(alloc, kind)?,
        };
        row.add(alloc, block.setup)?;
        row.add(alloc, block.lines)?;
        row.script.end_step(alloc)?;
        row.options.finish()?;
        Ok(row)
    }
}
