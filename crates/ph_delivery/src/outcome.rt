//! What becomes of a delivery that is sent.

/// What became of a delivery that was taken to be sent.
#[derive(Clone, Copy, Debug, PartialEq, Eq)]
pub enum Outcome {
    /// The endpoint answered with a status from 200 to 299.
    Accepted,
    /// It answered with another status, which this is, or its answer had no head: then this is 0.
    Refused(u16),
    /// No connection to it could be opened, or the connection failed.
    Unreached,
    /// Nothing is known of it, since there was no memory: it is as if it hadn't been taken.
    Dropped,
}
