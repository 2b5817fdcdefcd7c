//! Laws of transfers, reversals and fee refunds.
ghost use Rattle.std.specs.Prelude.{ℕ};
ghost use Rattle.ph_facts.specs.Keeps.{KeepsSound};
ghost use Rattle.ph_transfers.specs.Create.{transfer_outcome};
ghost use Rattle.ph_transfers.specs.Laws.{FeeRefundsAreSums, ReversalsAreSums, TransfersAreSums, refund_fee_texts, reverse_texts, transfer_texts};
ghost use Rattle.ph_transfers.specs.RefundFee.{refund_fee_outcome};
ghost use Rattle.ph_transfers.specs.Reverse.{reverse_outcome};

/// The law of a transfer, at whatever time: its batch may be entered after sound rows, which stay sound, is no larger than
/// this, and does nothing to payment intents and attempts; with it what was transferred of each charge is again the sum
/// of the transfers that are drawn on it, and no more than was captured.
pub fn transfer_keeps_sound()
    ensures { (now : ℕ) → KeepsSound transfer_texts 6 (transfer_outcome now) }
{}

/// Over sound rows a transfer comes to what the sum of the charge's transfers decides: what is left of the charge is what
/// was captured less that sum, and its next version has that sum and the transfer's amount.
pub fn transfers_are_sums()
    ensures { TransfersAreSums }
{}

/// The law of a reversal: its batch may be entered after sound rows, which stay sound, and is no larger than this; with it
/// what was reversed of each transfer is again the sum of its reversals, and no more than its amount.
pub fn reverse_keeps_sound()
    ensures { KeepsSound reverse_texts 5 reverse_outcome }
{}

/// Over sound rows a reversal comes to what the sum of the transfer's reversals decides.
pub fn reversals_are_sums()
    ensures { ReversalsAreSums }
{}

/// The law of a fee refund: its batch may be entered after sound rows, which stay sound, and is no larger than this; with it
/// what was given back of each application fee is again the sum of its refunds, and no more than the fee.
pub fn refund_fee_keeps_sound()
    ensures { KeepsSound refund_fee_texts 5 refund_fee_outcome }
{}

/// Over sound rows a fee refund comes to what the sum of the fee's refunds decides.
pub fn fee_refunds_are_sums()
    ensures { FeeRefundsAreSums }
{}
