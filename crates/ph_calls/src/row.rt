//! Rows of the table of calls.

use ph_base::Kind;

/// Which call a row is of.
#[derive(Clone, Copy, Debug, PartialEq, Eq)]
pub enum Name {
    CreateIntent,
    UpdateIntent,
    ConfirmIntent,
    CaptureIntent,
    CancelIntent,
    CreateRefund,
    SendEvidence,
    CloseDispute,
    CreateAccount,
    CreateTransfer,
    ReverseTransfer,
    RefundFee,
    /// It shows the object of this kind whose id stands in the path.
    Retrieve(Kind),
    GetBalance,
    SetClock,
    Authenticate,
}

/// The path of a call: one text, or an id between two texts.
pub enum Path {
    Plain(&'static [u8]),
    WithId(&'static [u8], &'static [u8]),
}

/// A row of the table of calls.
pub struct TableRow {
    pub method: &'static [u8],
    pub path: Path,
    pub call: Name,
}
