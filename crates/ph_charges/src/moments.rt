//! When what is captured is available.
ghost use Rattle.std.specs.Prelude.{◌≡◌};
ghost use Rattle.ph_charges.specs.Splits.{after_two_days, available_by, available_from, is_at_once};

use ph_base::Method;
use ph_items::PaymentMethod;

// How long what is captured is pending, in seconds.
const TWO_DAYS: u64 = 172800;

// Whether what a method pays is available at once.
fn is_at_once(method: Method) -> bool
    ensures { result ≡ is_at_once method }
{
    match method {
        Method::Bypass => true,
        Method::Visa
        | Method::Declined
        | Method::NoFunds
        | Method::Challenge
        | Method::Authenticated
        | Method::Dispute
        | Method::Slow(_)
        | Method::Lost => false,
    }
}

// The moment two days after another.
fn after_two_days(now: u64) -> u64
    ensures { result ≡ after_two_days now }
{
    now.saturating_add(TWO_DAYS)
}

// The moment from which what is captured now is available: at once, or after two days.
fn available_by(at_once: bool, now: u64) -> u64
    ensures { result ≡ available_by at_once now }
{
    if at_once { now } else { after_two_days(now) }
}

/// The moment from which what is captured now by a payment method is available, in seconds since 1970.
pub fn available_from(method: &Option<PaymentMethod>, now: u64) -> u64
    ensures { result ≡ available_from method.now now }
{
    match method {
        Some(method) => available_by(is_at_once(method.method), now),
        None => after_two_days(now),
    }
}
