//! Laws of the simulated acquirer and of counts, each the contract of a function that does nothing.
ghost use Rattle.ph_bank.specs.Laws.{AnsweredAsAtFirst, CountsAreSums, SameWhileRemembered};

/// A repeated order is answered as at first: no two rulings on one method differ, and once the acquirer has ruled it
/// rules at each ask that finds as many asks remembered.
pub fn answered_as_at_first()
    ensures { AnsweredAsAtFirst }
{}

/// A reference that is remembered stays so, and the count of its asks doesn't fall: only the first ask of another
/// reference can make it forgotten, where 32 are remembered and it is the oldest. A slow order then waits again.
pub fn same_while_remembered()
    ensures { SameWhileRemembered }
{}

/// Counts stand still at their type's end. Below it the grants of a drive are those before it and one for each poll
/// after the first, so the drive made one ask more than they rose.
pub fn counts_are_sums()
    ensures { CountsAreSums }
{}
