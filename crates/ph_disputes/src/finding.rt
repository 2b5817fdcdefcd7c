//! The dispute that a path names.
ghost use Rattle.std.specs.Prelude.{◌≡◌};
ghost use Rattle.ph_disputes.specs.Finding.{is_closed};

use ph_items::DisputeStatus;

/// Whether a dispute is closed: won or lost.
pub fn is_closed(status: DisputeStatus) -> bool
    ensures { result ≡ is_closed status }
{
    match status {
        DisputeStatus::Won | DisputeStatus::Lost => true,
        DisputeStatus::NeedsResponse | DisputeStatus::UnderReview => false,
    }
}
