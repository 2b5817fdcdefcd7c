//! Laws of refunds.
ghost use Rattle.ph_facts.specs.Keeps.{KeepsSound};
ghost use Rattle.ph_refunds.specs.Laws.{RefundsAreSums, refund_texts};
ghost use Rattle.ph_refunds.specs.Refunds.{refund_outcome};

/// The law of a refund: its batch may be entered after sound rows, which stay sound, is no larger than this, and does
/// nothing to payment intents and attempts; with it the refunded amount of each charge is
/// again the sum of its refunds, and no more than was captured; the reversed amount of each transfer is the sum of its
/// reversals, and no more than was transferred; and what was given back of each application fee is the sum of its
/// refunds, and no more than the fee.
pub fn refund_keeps_sound()
    ensures { KeepsSound refund_texts 14 refund_outcome }
{}

/// Over sound rows a refund comes to what the sum of the charge's refunds decides: what is left of the charge is what
/// was captured less that sum, and its next version has that sum and the refund's amount. What is left of its transfer
/// is decided so by the sum of the transfer's reversals, and what is left of its application fee by that of its refunds.
pub fn refunds_are_sums()
    ensures { RefundsAreSums }
{}
