//! Laws of key records over what happened, each the contract of a function that does nothing.
ghost use Rattle.ph_idem.specs.Laws.{RecordsAreFound, RecordsAreKept};

/// After every list of turns, what a call finds among the records that are kept is what the turns say that it finds: no
/// record, one with other parameters, one whose attempt is live or parked, or one with the reply of the entry that
/// settled it.
pub fn records_are_found()
    ensures { RecordsAreFound }
{}

/// The records that are kept after a turn, which may come after those before it, are those from before it, with what it
/// opens, attaches or saves.
pub fn records_are_kept()
    ensures { RecordsAreKept }
{}
