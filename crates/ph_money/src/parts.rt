//! Proportional parts of a total.
ghost use Rattle.std.specs.Prelude.{◌≡◌, ◌≤◌, ◌<◌};
ghost use Rattle.ph_money.specs.Fees.{part_of};

use crate::amounts::Amount;

/// The part of `total` that `num` is of `den`, rounded down.
pub fn part(total: u64, num: u64, den: u64) -> u64
    requires total { total ≤ Amount.MOST }
    requires some { 0 < den }
    requires den { den ≤ Amount.MOST }
    requires num { num ≤ den }
    ensures exact { result ≡ part_of total num den }
    ensures at_most { result ≤ total }
    ensures whole { num ≡ den → result ≡ total }
{
    total * num / den
}
