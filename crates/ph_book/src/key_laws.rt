//! What holds of the idempotency keys of every legal history.
ghost use Rattle.ph_book.specs.KeyLaws.{ConflictWhileARunLives, KeyAddsNone, RepeatFinds, SavedStays};

use crate::setup::{Setup, few_entries};

/// An equal request, less than a day after the one that opened the record of its key, finds what that came to: its
/// reply, that its attempt is being asked for, or that it is parked.
pub fn repeat_finds(setup: &Setup)
    ensures { RepeatFinds setup.now }
{
    few_entries(setup.entries);
}

/// A reply that is saved under a key never changes.
pub fn saved_stays(setup: &Setup)
    ensures { SavedStays setup.now }
{
    few_entries(setup.entries);
}

/// Less than a day after a request opened the record of a key, no request under that key begins another attempt: a
/// customer is charged once, however often the request is sent.
pub fn key_adds_none(setup: &Setup)
    ensures { KeyAddsNone setup.now }
{
    few_entries(setup.entries);
}

/// A request is answered that its key is in use only while a run lives: the request that opened the record of the key
/// waits for the ruling on an attempt, and a run of that attempt is live.
pub fn conflict_while_a_run_lives(setup: &Setup)
    ensures { ConflictWhileARunLives setup.now }
{
    few_entries(setup.entries);
}
