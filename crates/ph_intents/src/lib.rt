//! The operations on payment intents: what each accepted call, and each ruling of the acquirer, adds to the rows.
#![tactic(auto)]

mod attempts;
mod authentication;
mod beginning;
mod begins;
mod canceling;
mod capturing;
mod confirming;
mod copies;
mod creation;
mod destinations;
mod fees;
mod laws;
mod metadata;
mod refusals;
mod settlement;
mod statuses;
mod updating;
mod versions;

pub use authentication::fail_authentication;
pub use beginning::begin;
pub use begins::{Begin, Begun};
pub use canceling::cancel;
pub use capturing::capture;
pub use creation::create;
pub use laws::{begun_is_asked, calls_keep_sound, settle_keeps_sound};
pub use settlement::settle;
pub use statuses::{Step, next_status};
pub use updating::update;
