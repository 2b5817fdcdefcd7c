//! Laws of key records, each the contract of a function that does nothing. They speak of every list of turns of which
//! each may come after those before it; what a keyed call asks is of any type, and so are the tests of the same key and
//! of the same parameters.
ghost use Rattle.ph_doings.specs.RecordLaws.{KeyAddsNone, RepeatFinds, SavedStays};

/// A call that asks the same under the same key, less than a day after the call that opened the record, finds the
/// result of that call.
pub fn repeat_finds<A>()
    ensures { RepeatFinds A }
{}

/// A result that is saved never changes.
pub fn saved_stays<A>()
    ensures { SavedStays A }
{}

/// Less than a day after the call that opened a record no call under its key begins an attempt.
pub fn key_adds_none<A>()
    ensures { KeyAddsNone A }
{}
