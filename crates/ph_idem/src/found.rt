//! What a call under a key finds.

/// What a call under a key finds.
#[derive(Clone, Copy, Debug, PartialEq, Eq)]
pub enum Found {
    /// No record: there is none, or it is a day old.
    Fresh,
    /// A record of a call with another method, path or form.
    Differs,
    /// A record whose call waits for the ruling on the attempt of this reference: 0 where none is attached.
    Begun(u64),
    /// A record with a reply, opened by the entry of this place.
    Saved(u64),
}
