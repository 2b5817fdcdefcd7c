//! How sessions end.

/// What a session did that wasn't broken off.
#[derive(Clone, Copy, Debug, PartialEq, Eq)]
pub struct Closed {
    /// How many requests were entered and answered.
    pub replies: u64,
    /// Why it stopped.
    pub stop: Stop,
}

/// Why a session stopped.
#[derive(Clone, Copy, Debug, PartialEq, Eq)]
pub enum Stop {
    /// The source ended behind a request.
    End,
    /// The last request asked for it.
    Asked,
    /// As many requests were answered as a session answers.
    Limit,
    /// A request was refused with a closing reply of this status: 400, 413, 431, 501 or 505.
    Refused(u16),
}

/// Why a session was broken off.
#[derive(Clone, Copy, Debug, PartialEq, Eq)]
pub enum TalkError {
    /// A read failed, and the source counted it.
    ReadFault,
    /// A write failed, and the sink counted it.
    WriteFault,
    /// The source ended within a request. The replies before it stand.
    Cut,
    /// There was no memory, here or in the store behind the history. Where a run was given up for want of it, a write of
    /// the last reply may have failed too.
    NoMemory,
    /// An entry isn't kept by the store behind the history, which failed. The request that it is of gets no reply. This
    /// never comes of a book alone.
    KeepFault,
    /// The history had no room for a request. It was answered by 503 `history_full`, and isn't entered.
    Full,
}
