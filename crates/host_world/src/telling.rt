// What a server says on the standard error output of each connection that ended.
use host_edges::TcpLink;
use jmap_http::Served;
use jmap_server::Finished;
use std::fmt;
use std::fmt::{Display, Formatter};
use std::io::Write;

// How a connection ended.
#[derive(Drop)]
struct End<'a> {
    served: &'a Served,
    too_slow: bool,
}

impl Display for End<'_> {
    fn fmt<W: fmt::Write>(&self, f: &mut Formatter<W>) -> fmt::Result {
        if self.too_slow {
            return f.write_str("was too slow");
        }
        match self.served {
            Served::End => f.write_str("ended"),
            Served::CutOff(count) => write!(f, "was cut off after {count} bytes of a request"),
            Served::ReadFault => f.write_str("could not be read"),
            Served::WriteFault => f.write_str("could not be written to"),
            Served::Limit => f.write_str("had its last request"),
            Served::NoMemory => f.write_str("found no memory"),
            Served::Refused(status) => write!(f, "was refused with {status}"),
            Served::Upgraded { .. } => f.write_str("switched to WebSocket"),
        }
    }
}

/// Says what a connection was served, how it ended, how many points its session passed, and for how
/// many seconds it was open. It names no user, no account and no token. It is no fault if that
/// fails.
pub(crate) fn say_finished(rt: &HostRuntime, finished: &Finished<TcpLink>) {
    let carried = finished.line.carried();
    let end = End {
        served: &finished.served,
        too_slow: carried.too_slow,
    };
    let _ = writeln!(
        rt.stderr(),
        "connection: {} responses, {} bytes in, {} bytes out, {end}, {} points, {} seconds",
        carried.responses,
        carried.bytes_in,
        carried.bytes_out,
        finished.trail.len(),
        carried.seconds
    );
}
