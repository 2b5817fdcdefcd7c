//! What a clock shows.

/// The last time that a clock shows, in seconds since 1970: the last second of the year 9999.
pub const CLOCK_LIMIT: u64 = 253_402_300_799;
