//! The commands that take options.

/// A command that takes options.
#[derive(Clone, Copy, Debug, PartialEq, Eq)]
pub enum Command {
    /// A session over standard input and output.
    Stdio,
    /// A server on a port.
    Serve,
}
