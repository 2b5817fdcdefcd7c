//! What the words of the command line ask for.

/// What the words of the command line ask for.
#[derive(Clone, Copy, Debug, PartialEq, Eq)]
pub enum Plan {
    /// A session over one source and one sink.
    Once {
        /// How many further polls are granted each time the acquirer is asked to rule: at most 1,000,000.
        patience: u32,
    },
    /// A server, whose workers act on one book.
    Host {
        /// The port of 127.0.0.1 that is listened on: from 1 to 65535.
        port: u16,
        /// How many workers it has: from 1 to 16.
        workers: u8,
        /// How many connections each worker serves before the server ends: from 1 to 1,000,000.
        connections: u32,
        /// How many further polls are granted each time the acquirer is asked to rule: at most 1,000,000.
        patience: u32,
    },
    /// Nothing that payhost does: the usage line.
    Usage,
}
