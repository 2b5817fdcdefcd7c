//! Connected accounts: how one is made, and which account a text names.
#![tactic(auto)]

mod creation;
mod laws;
mod naming;

pub use creation::create;
pub use laws::create_keeps_sound;
pub use naming::{account_of, connected_named};
