//! A history entered anew: its book, what was replied, and the tickets of the runs that are still live.
#![tactic(auto)]

mod copies;
mod laws;
mod lines;
mod replayed;
mod replaying;
mod tickets;
mod told;
mod unentered;
mod watches;

pub use laws::{illegal_is_not_legal, illegal_line_is_one};
pub use lines::write_replies;
pub use replayed::Replayed;
pub use replaying::replay;
pub use told::Told;
pub use watches::{Unwatched, Watch};
