//! The rules of a session.

/// What a session keeps to.
#[derive(Clone, Copy, Debug, PartialEq, Eq)]
pub struct TalkRules {
    /// How many requests it answers at most. A session whose limit is 0 reads nothing.
    pub limit: u32,
}
