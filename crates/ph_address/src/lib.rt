//! Addresses of webhook endpoints: absolute `http` URLs, as a host, a port and a path.
#![tactic(auto)]

mod address;
mod reading;

pub use address::Address;
pub use reading::read_address;
