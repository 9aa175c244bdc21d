// What a socket shows, and what is sent over it.
use jm_base::Bytes;

/// What one look at a socket found (RFC 6455, section 5.6).
#[derive(Debug, Drop)]
pub enum Arrival {
    /// A text message.
    Text(Bytes),
    /// A binary message. Its bytes are dropped.
    Binary,
    /// The connection is closed, and nothing more will arrive.
    Closed,
    /// No complete message was there at this look.
    Quiet,
}

/// What was sent over a socket.
#[derive(Debug, Drop)]
pub enum Sent {
    /// A text message.
    Text(Bytes),
    /// The close of the connection, with its status code (RFC 6455, section 7.4).
    Close(u16),
}
