//! How the session of a connection ended.

/// What a session says of its end when its connection goes back to the gate.
#[derive(Clone, Copy, Debug, PartialEq, Eq)]
pub enum End {
    /// It ran to an end of its own: the bytes ended behind a request, a request asked for it, as
    /// many were answered as are in a session, or a closing reply was written.
    Closed,
    /// The bytes ended within a request.
    Cut,
    /// A read failed.
    ReadFault,
    /// A write failed.
    WriteFault,
    /// An entry of it wasn't kept by the store behind the book.
    KeepFault,
    /// The history had no room for a request.
    Full,
    /// There was no memory.
    NoMemory,
}
