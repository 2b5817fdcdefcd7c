//! Laws of what entries do to payment intents and attempts, each the contract of a function that does nothing. They
//! speak of every list of doings of which each may come after those before it.
ghost use Rattle.ph_doings.specs.Laws.{AllButTheLastWereChallenged, ApprovedOnce, AttemptsAreUnsettled, FirstParkedIsEarliest, LiveIsRun, ProcessingHasOneAttempt, ReferencesDiffer, RunsAreCounted, RunsAreFound, RunsStay};

/// Different attempts have different references.
pub fn references_differ()
    ensures { ReferencesDiffer }
{}

/// A payment intent is processing exactly where it has an attempt that isn't settled, and it never has two.
pub fn processing_has_one_attempt()
    ensures { ProcessingHasOneAttempt }
{}

/// Of a confirmation's attempts all but the last are settled with a challenge.
pub fn all_but_the_last_were_challenged()
    ensures { AllButTheLastWereChallenged }
{}

/// A payment intent is approved at most once, whatever is confirmed, taken up again or authenticated.
pub fn approved_once()
    ensures { ApprovedOnce }
{}

/// An attempt is live exactly where a run of it is, never has two live runs, and is of a payment intent that is
/// processing: a ruling finds its attempt and its payment intent.
pub fn live_is_run()
    ensures { LiveIsRun }
{}

/// The attempts that the program keeps are the live runs, in the order in which they began, and the parked attempts, in
/// the order of their last parks.
pub fn attempts_are_unsettled()
    ensures { AttemptsAreUnsettled }
{}

/// The first of the parked attempts is that whose last park stands earliest, and there is none where none is parked.
pub fn first_parked_is_earliest()
    ensures { FirstParkedIsEarliest }
{}

/// A caller finds its live run of a number among the attempts that are kept, and finds nothing else.
pub fn runs_are_found()
    ensures { RunsAreFound }
{}

/// What a caller may do with its live run it may still do after any step of other callers, whatever the attempts.
pub fn runs_stay()
    ensures { RunsStay }
{}

/// As many runs are live as there were, with those that an entry begins and without those that it ends.
pub fn runs_are_counted()
    ensures { RunsAreCounted }
{}
