//! Records of idempotency keys: what a call under a key asked, the attempt for whose ruling it waits, and the reply that
//! was saved for it, which answers each equal call of the day.
#![tactic(auto)]

mod asked;
mod found;
mod key_record;
mod laws;
mod records;
mod shape;

pub use asked::Asked;
pub use found::Found;
pub use key_record::{KeyRecord, Saved};
pub use laws::{records_are_found, records_are_kept};
pub use records::Records;
pub use shape::Shape;
