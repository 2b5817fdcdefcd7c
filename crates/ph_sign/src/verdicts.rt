//! The verdict on a signature header.
ghost use Rattle.std.specs.Prelude.{◌≡◌};
ghost use Rattle.ph_sign.specs.Verdicts as spec;
ghost use Rattle.ph_sign.specs.Verdicts.{verdict_of};

use crate::headers::signature;
use crate::items::{first_value, has_value};
use ph_base::read_number;

/// What a signature header is worth.
#[derive(Clone, Copy, Debug, PartialEq, Eq)]
pub enum Verdict {
    /// Signed under the secret, and not too long ago.
    Good,
    /// No moment that can be read, or no signature.
    Malformed,
    /// None of the signatures is the one under the secret.
    Mismatch,
    /// Signed under the secret, but longer ago than the tolerance.
    Old,
}

// Whether the moment is more than the tolerance ago.
fn is_old(t: u64, now: u64, tolerance: u64) -> bool
    ensures { result ≡ spec.is_old t now tolerance }
{
    now > t && now - t > tolerance
}

/// The verdict on a header for this secret and body at the moment `now`, where a signature may be `tolerance`
/// seconds old. The header is cut at its commas and each item at its first `=`; items without `=` are passed over.
/// A moment in the future is not too old. It takes no memory.
pub fn verify(header: &[u8], secret: &[u8], body: &[u8], now: u64, tolerance: u64) -> Verdict
    ensures { result ≡ verdict_of header.now secret.now body.now now tolerance }
{
    let Some(text) = first_value(b"t", header) else {
        return Verdict::Malformed;
    };
    let Some(t) = read_number(text) else {
        return Verdict::Malformed;
    };
    let Some(_) = first_value(b"v1", header) else {
        return Verdict::Malformed;
    };
    if !has_value(b"v1", &signature(secret, t, body), header) {
        return Verdict::Mismatch;
    }
    if is_old(t, now, tolerance) {
        return Verdict::Old;
    }
    Verdict::Good
}
