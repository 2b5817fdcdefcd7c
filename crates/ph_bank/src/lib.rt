//! Asks of an acquirer: the future that makes one ask a poll, and the drive that polls it while patience lasts.
#![tactic(auto)]

mod asking;
mod driving;
mod laws;
mod memory;
mod patience;
mod simulated;

pub use asking::{Acquirer, Ask, AskFailed, AskTurn, Asked, AuthFuture};
pub use driving::{Driven, drive};
pub use laws::{answered_as_at_first, counts_are_sums, same_while_remembered};
pub use memory::{Cue, Decision, MemAcquirer};
pub use patience::{Patience, Turns};
pub use simulated::{Remembered, SimAcquirer};
