//! The words of the command line, and the top calls of payhost, which run what they ask for: a session over a source and a
//! sink, or a server over gates.
#![tactic(auto)]

mod commands;
mod endings;
mod flags;
mod gates;
mod host;
mod misuses;
mod option_names;
mod options;
mod planning;
mod plans;
mod server;
mod setups;
mod usage;
mod workers;

pub use host::run_once;
pub use misuses::{Misuse, find_misuse};
pub use planning::plan;
pub use plans::Plan;
pub use server::run_host;
pub use workers::{Worker, WorkerEnd};
