//! The test payment methods.
ghost use Rattle.std.specs.Prelude.{◌≡◌, map, option_copied};
ghost use Rattle.ph_kinds.specs.Methods.{method_in, named, named_methods, rest_after, slow_in, slow_method, named_method};

use crate::flaw::Flaw;
use ph_base::{Method, read_number};

/// A test payment method with its name.
struct NamedMethod {
    name: &'static [u8],
    method: Method,
}

static METHODS: [NamedMethod; 9] = [
    NamedMethod {
        name: b"pm_card_visa",
        method: Method::Visa,
    },
    NamedMethod {
        name: b"pm_card_chargeDeclined",
        method: Method::Declined,
    },
    NamedMethod {
        name: b"pm_card_visa_chargeDeclined",
        method: Method::Declined,
    },
    NamedMethod {
        name: b"pm_card_chargeDeclinedInsufficientFunds",
        method: Method::NoFunds,
    },
    NamedMethod {
        name: b"pm_card_visa_chargeDeclinedInsufficientFunds",
        method: Method::NoFunds,
    },
    NamedMethod {
        name: b"pm_card_authenticationRequired",
        method: Method::Challenge,
    },
    NamedMethod {
        name: b"pm_card_createDispute",
        method: Method::Dispute,
    },
    NamedMethod {
        name: b"pm_card_bypassPending",
        method: Method::Bypass,
    },
    NamedMethod {
        name: b"pm_payhost_lost",
        method: Method::Lost,
    },
];

#[tactic(auto, unfolding(crate::specs::Methods::named_methods))]
fn methods() -> &'static [NamedMethod]
    ensures { map named result.now ≡ named_methods }
{
    &METHODS
}

/// The method whose name a text is.
fn named_method(text: &[u8]) -> Option<Method>
    ensures { result ≡ named_method text.now }
{
    let methods = methods();
    for row in methods {
        if text == row.name {
            return Some(row.method);
        }
    }
    None
}

/// What follows a front in a text that begins with it.
#[tactic(auto, unfolding(crate::specs::Methods::rest_after))]
fn rest_after<'a>(front: &[u8], text: &'a [u8]) -> Option<&'a [u8]>
    ensures { option_copied result ≡ rest_after front.now text.now }
{
    let n = front.len();
    if n <= text.len() && &text[..n] == front {
        Some(&text[n..])
    } else {
        None
    }
}

/// The method that answers after so many asks.
fn slow_in(digits: &[u8]) -> Option<Method>
    ensures { result ≡ slow_in digits.now }
{
    let (first, _) = digits.split_first()?;
    if *first == b'0' {
        return None;
    }
    let asks = read_number(digits)?;
    if asks <= 1000 {
        Some(Method::Slow(asks as u16))
    } else {
        None
    }
}

fn slow_method(text: &[u8]) -> Option<Method>
    ensures { result ≡ slow_method text.now }
{
    slow_in(rest_after(b"pm_payhost_slow_", text)?)
}

/// The method that a text names: Stripe's test payment methods, and payhost's own `pm_payhost_lost` and
/// `pm_payhost_slow_N` with N from 1 to 1000 without leading zeros.
pub fn read_method(text: &[u8]) -> Result<Method, Flaw>
    ensures { result ≡ method_in text.now }
{
    match named_method(text) {
        Some(method) => Ok(method),
        None => slow_method(text).ok_or(Flaw::NoSuchPaymentMethod),
    }
}
