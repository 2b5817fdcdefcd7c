//! Laws of the ends of runs, and of taking parked attempts up again, each the contract of a function that does nothing.
ghost use Rattle.ph_doings.specs.Ends.{EndsAreTotal, LiveRunsEnd};

/// Whatever run a caller settles or parks, and whatever attempt it takes up again, that may come: where there is nothing
/// to do, nothing is done.
pub fn ends_are_total()
    ensures { EndsAreTotal }
{}

/// An end of a live run by its own caller settles or parks its attempt, for its payment intent.
pub fn live_runs_end()
    ensures { LiveRunsEnd }
{}
