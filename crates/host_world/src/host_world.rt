// The outside of `serve` on a host: files, SQLite databases, TCP on the loopback address, and the
// system's clock. Its content is not exposed to contracts.
ghost use Rattle.std.specs.Prelude.{◌≡◌, ◌≤◌};
ghost use Rattle.jm_edge.specs.Causes.{Rose};

use crate::accepting::accept_link;
use crate::client_world::ClientDesk;
use crate::counted_keeper::CountedKeeper;
use crate::databases::{MakesKeepers, build_database_paths};
use crate::telling::say_finished;
use host_edges::{HostClock, LinkListener, TcpLink};
use jm_base::{Bytes, Text};
use jm_edge::{EdgeFault, NoGate};
use jmap_server::{Finished, World};
use keep_sqlite::SqliteKeeper;
use std::alloc::Global;
use std::io::Write;
use std::net::{Ipv4Addr, TcpListener};
use std::{fs, io};

// What is listened on, and how often the host and the keepers that came back have failed.
#[derive(Drop)]
pub(crate) struct Desk {
    listener: Option<LinkListener>,
    pub(crate) faults: u64,
    load_faults: u64,
}

impl Desk {
    // Counts a fault of the host.
    fn fail(&mut self)
        ensures rose { Rose self.old.faults self.new.faults }
        ensures later { self.old.faults ≤ self.new.faults }
        ensures load_count { self.new.load_faults ≡ self.old.load_faults }
    {
        self.faults = self.faults.saturating_add(1);
    }
}

/// The host, with its faults counted. Of each fault it says the reason on the standard error
/// output.
#[derive(Drop)]
pub struct HostWorld<M: MakesKeepers> {
    pub(crate) rt: HostRuntime,
    files: M,
    pub(crate) desk: Desk,
    pub(crate) client: ClientDesk,
    logs: bool,
    // Whether all accounts were opened, or it was said which one was not.
    settled: bool,
}

impl<M: MakesKeepers> HostWorld<M> {
    /// Returns the host, which has not failed yet, with what makes the keepers of its accounts. If
    /// it logs, it says a line on the standard error output of each connection that ended.
    pub fn new(rt: &HostRuntime, files: M, logs: bool) -> HostWorld<M>
        ensures faults { result.desk.faults ≡ 0 }
        ensures load_faults { result.desk.load_faults ≡ 0 }
        ensures talk_faults { result.client.talk_faults ≡ 0 }
        ensures store_faults { result.client.store_faults ≡ 0 }
    {
        HostWorld {
            rt: *rt,
            files,
            desk: Desk {
                listener: None,
                faults: 0,
                load_faults: 0,
            },
            client: ClientDesk::new(),
            logs,
            settled: false,
        }
    }

    /// Says whether a client will write: then each shelf that is given holds a lock on its file, as
    /// a [`FileShelf`](host_edges::FileShelf) that locks. At first none does.
    pub fn set_writes(&mut self, writes: bool)
        ensures faults { self.new.desk.faults ≡ self.old.desk.faults }
        ensures load_faults { self.new.desk.load_faults ≡ self.old.desk.load_faults }
        ensures talk_faults { self.new.client.talk_faults ≡ self.old.client.talk_faults }
        ensures store_faults { self.new.client.store_faults ≡ self.old.client.store_faults }
    {
        self.client.locks = writes;
    }
}

// Says on the standard error output that the host listens. It is no fault if that fails.
fn say_where(rt: &HostRuntime, port: u16) {
    let _ = writeln!(rt.stderr(), "listening on 127.0.0.1:{port}");
}

// Says why a file can't be read. It is no fault if that fails; likewise below.
fn say_unread(rt: &HostRuntime, name: &str, reason: &io::Error) {
    let _ = writeln!(rt.stderr(), "cannot read {name}: {reason}");
}

// Says why a port can't be listened on.
fn say_unheard(rt: &HostRuntime, port: u16, reason: &io::Error) {
    let _ = writeln!(rt.stderr(), "cannot listen on 127.0.0.1:{port}: {reason}");
}

// Says at which account opening the accounts stopped.
fn say_stop(rt: &HostRuntime, account: &Text, path: &Text) {
    let (id, file) = (account.as_str(), path.as_str());
    let _ = writeln!(rt.stderr(), "stopped at {id}: {file}");
}

// Listens on a port of the loopback address.
fn bind(rt: &HostRuntime, port: u16) -> io::Result<LinkListener> {
    LinkListener::new(TcpListener::bind(rt, (Ipv4Addr::LOCALHOST, port))?)
}

// Returns whether memory ran out.
fn is_memory(error: &io::Error) -> bool {
    error.kind() == io::ErrorKind::OutOfMemory
}

impl<M: MakesKeepers> World for HostWorld<M> {
    ghost use Rattle.std.specs.Prelude.{None, ◌≡◌, ◌∷◌, []};
    ghost use Rattle.jmap_server.specs.Deeds.{GotLine, IsTold};

    type Keep = CountedKeeper<SqliteKeeper<M::Store, M::Opener>>;

    type Line = TcpLink;

    type Time = HostClock;

    type Hold = NoGate;

    ghost told = { λ _. None };

    ghost faults = { λ w. w.desk.faults };

    ghost load_faults = { λ w. w.desk.load_faults };

    fn text(&mut self, _alloc: Global, name: &Text) -> Result<Bytes, EdgeFault> {
        match fs::read(&self.rt, name.as_str()) {
            Ok(bytes) => Ok(Bytes::from_vec(bytes)),
            Err(error) => {
                if is_memory(&error) {
                    return Err(EdgeFault::NoMemory);
                }
                say_unread(&self.rt, name.as_str(), &error);
                self.desk.fail();
                Err(EdgeFault::Failed)
            }
        }
    }

    fn keeper(
        &mut self,
        alloc: Global,
        folder: &Text,
        account: &Text,
    ) -> Result<CountedKeeper<SqliteKeeper<M::Store, M::Opener>>, EdgeFault> {
        match build_database_paths(alloc, folder.as_str(), account.as_str()) {
            Ok((path, copy)) => {
                self.files.prepare(folder, &path);
                Ok(CountedKeeper {
                    inner: self.files.make(path),
                    path: copy,
                    load_faults: 0,
                })
            }
            Err(_) => Err(EdgeFault::NoMemory),
        }
    }

    fn listen(&mut self, _alloc: Global, port: u16) -> Result<(), EdgeFault> {
        self.settled = true;
        match bind(&self.rt, port) {
            Ok(listener) => {
                self.desk.listener = Some(listener);
                say_where(&self.rt, port);
                Ok(())
            }
            Err(error) => {
                if is_memory(&error) {
                    return Err(EdgeFault::NoMemory);
                }
                say_unheard(&self.rt, port, &error);
                self.desk.fail();
                Err(EdgeFault::Failed)
            }
        }
    }

    fn line(&mut self, _alloc: Global) -> Result<TcpLink, EdgeFault> {
        match accept_link(&self.rt, &self.desk.listener) {
            Ok(link) => Ok(link),
            Err(_) => {
                self.desk.fail();
                Err(EdgeFault::Failed)
            }
        }
    }

    fn clock(&mut self) -> HostClock {
        HostClock::new(&self.rt)
    }

    fn gate(&mut self) -> NoGate {
        NoGate
    }

    fn return_line(&mut self, finished: Finished<TcpLink>)
        ensures told { IsTold {K = Unit {0}} {C = Unit {0}} None None (GotLine finished ∷ []) }
        ensures count { self.new.desk.faults ≡ self.old.desk.faults }
        ensures load_count { self.new.desk.load_faults ≡ self.old.desk.load_faults }
    {
        if !self.logs {
            return;
        }
        say_finished(&self.rt, &finished);
    }

    fn return_keeper(
        &mut self,
        account: &Text,
        keeper: CountedKeeper<SqliteKeeper<M::Store, M::Opener>>,
    ) {
        let CountedKeeper {
            inner,
            path,
            load_faults,
        } = keeper;
        drop(inner);
        self.desk.load_faults = self.desk.load_faults.saturating_add(load_faults);
        if self.settled {
            return;
        }
        self.settled = true;
        if load_faults > 0 {
            self.files.say_why(account, &path);
            return;
        }
        say_stop(&self.rt, account, &path);
    }
}
