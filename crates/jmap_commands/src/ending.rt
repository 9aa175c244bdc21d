// How a run ends: its exit status, and what it writes on the error output.
ghost use Rattle.std.specs.Prelude.{◌≡◌};

use jm_base::Text;
use jm_edge::{Sink, put_all};
use std::process::ExitCode;

/// The exit status of a run.
#[derive(Clone, Copy, Debug, PartialEq, Eq)]
pub struct Status(pub u8);

impl Status {
    ghost use Rattle.std.specs.Process.{exit_status};

    /// Returns the exit code of the process.
    pub fn build_exit_code(self) -> ExitCode
        ensures { exit_status result ≡ self.0 }
    {
        ExitCode::from(self.0)
    }
}

/// Why a run ended.
#[derive(Debug, Drop)]
pub enum Ending {
    /// The command did all that it does.
    Done,
    /// The arguments name no command.
    Usage,
    /// The input could not be read.
    ReadFault,
    /// The output could not be written.
    WriteFault,
    /// Memory ran out.
    NoMemory,
    /// The keeper of an account could not load what it keeps.
    KeeperFault,
    /// What the keeper of an account keeps is damaged. This is the line that says where and why.
    Damaged(Text),
    /// A reply of the server that was asked is not of its form. This is the line that says where.
    BadReply(Text),
    /// The account changed too often while it was asked for. This is the line that says from which
    /// state to which.
    Moved(Text),
    /// The server could not be asked.
    ExchangeFault,
    /// The file of a cache could not be loaded or saved.
    ShelfFault,
    /// The configuration is not of its form. This is the line that says where.
    BadConfig(Text),
    /// The file of a cache is not of its form, or the cache has no such list. This is the line that
    /// says where.
    BadCache(Text),
    /// A world failed: it could not read the configuration, give a keeper, listen, give a line, an
    /// exchange or a shelf.
    DeskFault,
    /// More bytes or replies came than the command takes.
    TooLong,
}

impl Ending {
    ghost use Rattle.jmap_commands.specs.Status.{status_of, text_of, WritesOrFails};

    fn status(&self) -> Status
        ensures { result.0 ≡ status_of self.now }
    {
        match self {
            Ending::Done => Status(0),
            Ending::Usage => Status(2),
            Ending::ReadFault => Status(3),
            Ending::WriteFault => Status(4),
            Ending::NoMemory => Status(5),
            Ending::KeeperFault => Status(6),
            Ending::Damaged(_) => Status(7),
            Ending::BadReply(_) => Status(8),
            Ending::Moved(_) => Status(9),
            Ending::ExchangeFault => Status(10),
            Ending::ShelfFault => Status(11),
            Ending::BadConfig(_) => Status(12),
            Ending::BadCache(_) => Status(12),
            Ending::DeskFault => Status(13),
            Ending::TooLong => Status(14),
        }
    }

    fn text(&self) -> &str
        ensures { result.now ≡ text_of self.now }
    {
        match self {
            Ending::Done => "",
            Ending::Usage => "usage: jmap batch, read, serve, sync, show, compact or rehearse\n",
            Ending::ReadFault => "read fault\n",
            Ending::WriteFault => "write fault\n",
            Ending::NoMemory => "no memory\n",
            Ending::KeeperFault => "keeper fault\n",
            Ending::Damaged(line) => line.as_str(),
            Ending::BadReply(line) => line.as_str(),
            Ending::Moved(line) => line.as_str(),
            Ending::ExchangeFault => "exchange fault\n",
            Ending::ShelfFault => "shelf fault\n",
            Ending::BadConfig(line) => line.as_str(),
            Ending::BadCache(line) => line.as_str(),
            Ending::DeskFault => "desk fault\n",
            Ending::TooLong => "too long\n",
        }
    }

    /// Writes on the error output why the run ended, and returns its exit status. Where the text
    /// can't be written, the status stays.
    pub fn say<E: Sink>(self, err: &mut E) -> Status
        ensures status { result.0 ≡ status_of self }
        ensures text { WritesOrFails (E.held err.old) (E.held err.new) (E.faults err.old)
            (E.faults err.new) (text_of self) }
    {
        let _ = put_all(err, self.text().as_bytes());
        self.status()
    }
}
