//! What holds after every list of moves from a new world, each the contract of a function that does nothing.
ghost use Rattle.ph_world.specs.Laws.{AsksAreOrders, AsksOfLiveAttempts, AuthorisedOnce, DecisionsStay, Everywhere, IsLegalWorld, NeverAskedWhenSettled, RepliesAreAnswers, RulingsAreDecisions, SettledStays};

/// The history is legal, and the runs in flight are its live runs.
pub fn legal()
    ensures { Everywhere IsLegalWorld }
{}

/// Each ask carries the order for which the entry that began its run waits, with which its attempt began.
pub fn asks_are_orders()
    ensures { Everywhere AsksAreOrders }
{}

/// A move asks nothing, or once and of an attempt that is live behind the history before it, so of none that is settled
/// then.
pub fn asks_are_of_live_attempts()
    ensures { Everywhere AsksOfLiveAttempts }
{}

/// An attempt that is settled is never asked of, whatever moves come: the asks of it are those that were made before.
pub fn never_asked_when_settled()
    ensures { Everywhere NeverAskedWhenSettled }
{}

/// An attempt that is settled stays settled with its ruling, whatever moves come.
pub fn settled_stays()
    ensures { Everywhere SettledStays }
{}

/// Each attempt that is settled is settled with the acquirer's decision on its reference.
pub fn rulings_are_decisions()
    ensures { Everywhere RulingsAreDecisions }
{}

/// A decision never changes.
pub fn decisions_stay()
    ensures { DecisionsStay }
{}

/// Of the attempts of a confirmation at most one was asked about and approved: no confirmation is authorised twice.
pub fn authorised_once()
    ensures { Everywhere AuthorisedOnce }
{}

/// Each reply that a move is answered is what is said to the entry at the last place, so that repeats of a key are
/// answered by the laws of key records.
pub fn replies_are_answers()
    ensures { Everywhere RepliesAreAnswers }
{}
