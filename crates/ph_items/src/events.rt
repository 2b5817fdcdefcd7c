//! Events.

use crate::event_kinds::EventKind;
use ph_base::Bytes;

/// An event: something that happened to an object. It belongs to the object's account, is made once and never
/// changes.
#[derive(Drop, Debug)]
pub struct Event {
    /// The `type` of the event.
    pub sort: EventKind,
    /// The number of the object that it happened to.
    pub object: u64,
    /// The idempotency key of the request that made it happen, where that had one.
    pub key: Option<Bytes>,
}
