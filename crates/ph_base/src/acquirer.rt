//! What an acquirer is asked about and answers: rows, errors and the link to the acquirer hold these.

/// How the simulated acquirer treats a payment, by its test payment method.
#[derive(Clone, Copy, Debug, PartialEq, Eq)]
pub enum Method {
    /// Approved.
    Visa,
    /// Declined without a further reason.
    Declined,
    /// Declined for want of funds.
    NoFunds,
    /// The customer has to authenticate.
    Challenge,
    /// A payment whose customer has authenticated: approved.
    Authenticated,
    /// Approved, and disputed once it is captured.
    Dispute,
    /// Approved, with funds available at once.
    Bypass,
    /// Approved after so many asks without an answer, 1 to 1000.
    Slow(u16),
    /// Never answered: each ask fails.
    Lost,
}

/// Why a payment was declined.
#[derive(Clone, Copy, Debug, PartialEq, Eq)]
pub enum Decline {
    /// No further reason (`generic_decline`).
    Generic,
    /// Want of funds (`insufficient_funds`).
    NoFunds,
}

/// An acquirer's decision on one order, which never changes.
#[derive(Clone, Copy, Debug, PartialEq, Eq)]
pub enum Ruling {
    Approved,
    Declined(Decline),
    Challenge,
}

/// Why a run was given up before its acquirer ruled.
#[derive(Clone, Copy, Debug, PartialEq, Eq)]
pub enum Why {
    /// The patience ended before an answer came.
    Pending,
    /// The link to the acquirer failed.
    Failed,
    /// There was no memory to enter the ruling.
    NoMemory,
}
