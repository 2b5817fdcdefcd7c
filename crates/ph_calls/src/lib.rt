//! The calls of the API, read from requests by one table.
#![tactic(auto)]

mod accounts;
mod call;
mod checks;
mod clock;
mod disputes;
mod errors;
mod fees;
mod intents;
mod laws;
mod names;
mod params;
mod reading;
mod refunds;
mod route;
mod row;
mod table;
mod transfers;

pub use call::{
    Authenticate, Call, CancelIntent, CaptureIntent, CloseDispute, ConfirmIntent, CreateAccount,
    CreateIntent, CreateRefund, CreateTransfer, GetBalance, RefundFee, Retrieve, ReverseTransfer,
    SendEvidence, SetClock, UpdateIntent,
};
pub use intents::is_fee_above;
pub use laws::{readings_are_fit, readings_are_refused};
pub use ph_kinds::Authentication;
pub use reading::{Request, read_call};
