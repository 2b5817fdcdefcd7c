//! What a book is made with.
ghost use Rattle.std.specs.Prelude.{◌<◌, ◌^◌};

use ph_base::Bytes;

/// What a book is made with.
#[derive(Drop, Debug)]
pub struct Setup {
    /// The API key that every request has to present.
    pub key: Bytes,
    /// The opening moment, in seconds since 1970: the time until the clock is set.
    pub opened: u64,
    /// For how many entries the history has room.
    pub entries: u32,
    /// How much the history may weigh: the bytes of its requests, and of its rows 256 each and the bytes of their texts.
    pub weight: u64,
}

/// A setup has room for fewer than 2^32 entries.
pub fn few_entries(_entries: u32)
    ensures { _entries < 2 ^ 32 }
{}
