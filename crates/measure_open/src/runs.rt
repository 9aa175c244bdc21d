// What is measured over a file, by the rules of mail accounts.

use crate::fill::fill;
use crate::open::open;
use crate::timing::no_memory;
use jm_base::Text;
use keep_sqlite::{Opens, SqliteKeeper};
use mail_calls::MailRules;
use sqlite::Alter;
use std::alloc::Global;
use std::io;
use std::time::Clock;

fn fill_store<T: Clock + Print + Eprint, S: Alter + Drop + Send, O: Opens<S> + Send>(
    rt: &T,
    alloc: Global,
    keeper: SqliteKeeper<S, O>,
    calls: u64,
) -> io::Result<()> {
    fill(rt, alloc, keeper, MailRules, calls)
}

fn open_store<T: Clock + Print + Eprint, S: Alter + Drop + Send, O: Opens<S> + Send>(
    rt: &T,
    alloc: Global,
    keeper: SqliteKeeper<S, O>,
) -> io::Result<()> {
    open(rt, alloc, keeper, MailRules)
}

/// Measures the opening of the account that a file keeps.
pub(crate) fn open_file(rt: &HostRuntime, file: &str) -> io::Result<()> {
    match Text::from_str(rt.alloc(), file) {
        Ok(path) => open_store(rt, rt.alloc(), SqliteKeeper::open_later(rt, path)),
        Err(_) => Err(no_memory()),
    }
}

/// Performs about so many calls on the account that a file keeps, which is created if there is
/// none, and then measures its opening.
pub(crate) fn fill_file(rt: &HostRuntime, file: &str, calls: u64) -> io::Result<()> {
    let Ok(path) = Text::from_str(rt.alloc(), file) else {
        return Err(no_memory());
    };
    fill_store(rt, rt.alloc(), SqliteKeeper::open_later(rt, path), calls)?;
    open_file(rt, file)
}
