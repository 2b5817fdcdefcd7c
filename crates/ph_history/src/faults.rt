//! Why a history's text gives no history.

/// Why a history's text gives no history, or none that can be entered anew. Lines count from 1.
#[derive(Clone, Copy, Debug, PartialEq, Eq)]
pub enum HistoryFault {
    /// This line is the first outside the form: the lines before it begin some history's text, and with it none does.
    BadLine {
        /// Its number.
        at: u64,
    },
    /// This line is the first that isn't legal: the entries before it are a legal history, and with its entry they are
    /// none; or it is the setup's line, and no book opens at that moment.
    Illegal {
        /// Its number.
        at: u64,
    },
    /// The text ends before the LF of its last line.
    Cut,
    /// A read failed.
    ReadFault,
    /// There was no memory.
    NoMemory,
}
