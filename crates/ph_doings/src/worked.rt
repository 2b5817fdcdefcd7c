//! Pasts that are worked out: each may come, and shows what it leaves.
ghost use Rattle.std.specs.Prelude.{◌≡◌, ◌∷◌, [], Some};
ghost use Rattle.ph_attempts.specs.declared.flights.Attempt.TheVariants as unsettled;
ghost use Rattle.ph_items.specs.declared.intents.IntentStatus.TheVariants as status;
ghost use Rattle.ph_doings.specs.Confirmations.{attempts_of_confirmation};
ghost use Rattle.ph_doings.specs.Kept.{attempts_after};
ghost use Rattle.ph_doings.specs.Lawful.{IsLawful};
ghost use Rattle.ph_doings.specs.Parks.{first_parked, parked_attempts};
ghost use Rattle.ph_doings.specs.Runs.{live_runs};
ghost use Rattle.ph_doings.specs.Statuses.{status_of};
ghost use Rattle.ph_doings.specs.Worked.{canceled, captured, challenged, flight, order, parked, parked_again, two_parked};

/// A create that is confirmed, parked, taken up again by another caller and challenged: then authenticated, approved and
/// captured, or not authenticated and canceled.
pub fn a_challenge()
    ensures parked { (status_of parked 2 ≡ Some status.Processing) × (parked_attempts parked ≡ order 3 ∷ []) }
    ensures challenged { status_of challenged 2 ≡ Some status.RequiresAction }
    ensures captured { IsLawful captured × (status_of captured 2 ≡ Some status.Succeeded) }
    ensures one_confirmation { attempts_of_confirmation captured 1 ≡ 9 ∷ 3 ∷ [] }
    ensures canceled { IsLawful canceled × (status_of canceled 2 ≡ Some status.Canceled) }
    ensures one_attempt { attempts_of_confirmation canceled 1 ≡ 3 ∷ [] }
{}

/// Of two parked attempts that comes first whose last park stands earliest, and not the one that began first.
pub fn two_parks()
    ensures lawful { IsLawful parked_again }
    ensures earliest { first_parked two_parked ≡ Some (order 7) }
    ensures again { parked_attempts parked_again ≡ order 3 ∷ order 7 ∷ [] }
    ensures kept { attempts_after parked_again ≡ unsettled.Parked (order 3) ∷ unsettled.Parked (order 7) ∷ [] }
    ensures none_live { live_runs parked_again ≡ [] }
{}
