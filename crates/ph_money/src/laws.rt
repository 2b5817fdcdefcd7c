//! Laws of fees and parts, each the contract of a function that does nothing.
ghost use Rattle.ph_money.specs.Laws.{FeeGrows, PartGrows};

/// Of two amounts the greater has no smaller fee.
pub fn fee_grows()
    ensures { FeeGrows }
{}

/// Of two shares of one total the greater has no smaller part: what is given back part by part, each time
/// up to the share that was given back so far, never has to be taken back again.
pub fn part_grows()
    ensures { PartGrows }
{}
