//! The law of splits.
ghost use Rattle.ph_charges.specs.Laws.{SplitsAreWhole};

/// The nets of the rows of every split add up, over all accounts, to what was captured less the processing fee.
pub fn splits_are_whole()
    ensures { SplitsAreWhole }
{}
