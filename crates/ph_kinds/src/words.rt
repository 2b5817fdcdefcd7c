//! Words that parameters take.
ghost use Rattle.std.specs.Prelude.{◌≡◌};
ghost use Rattle.ph_kinds.specs.Words.{account_type_in, authentication_in, cancellation_reason_in, capture_method_in, currency_in, refund_reason_in, truth_in};

use crate::authentication::Authentication;
use crate::flaw::Flaw;
use ph_items::{AccountType, CancellationReason, CaptureMethod, RefundReason};
use ph_money::Currency;

const ACCOUNT_TYPES: [AccountType; 3] = [
    AccountType::Standard,
    AccountType::Express,
    AccountType::Custom,
];

const CAPTURE_METHODS: [CaptureMethod; 3] = [
    CaptureMethod::Automatic,
    CaptureMethod::AutomaticAsync,
    CaptureMethod::Manual,
];

const CANCELLATION_REASONS: [CancellationReason; 4] = [
    CancellationReason::Duplicate,
    CancellationReason::Fraudulent,
    CancellationReason::RequestedByCustomer,
    CancellationReason::Abandoned,
];

const REFUND_REASONS: [RefundReason; 3] = [
    RefundReason::Duplicate,
    RefundReason::Fraudulent,
    RefundReason::RequestedByCustomer,
];

/// The currency whose code a text is, ASCII case ignored.
pub fn read_currency(text: &[u8]) -> Result<Currency, Flaw>
    ensures { result ≡ currency_in text.now }
{
    Currency::read(text).ok_or(Flaw::InvalidValue)
}

/// The truth value that a text is, ASCII case ignored.
pub fn read_truth(text: &[u8]) -> Result<bool, Flaw>
    ensures { result ≡ truth_in text.now }
{
    if text.eq_ignore_ascii_case(b"true") {
        Ok(true)
    } else if text.eq_ignore_ascii_case(b"false") {
        Ok(false)
    } else {
        Err(Flaw::InvalidValue)
    }
}

/// The type of account whose word a text is.
pub fn read_account_type(text: &[u8]) -> Result<AccountType, Flaw>
    ensures { result ≡ account_type_in text.now }
{
    ACCOUNT_TYPES
        .iter()
        .copied()
        .find(|sort| text == sort.text())
        .ok_or(Flaw::InvalidValue)
}

/// The capture method whose word a text is.
pub fn read_capture_method(text: &[u8]) -> Result<CaptureMethod, Flaw>
    ensures { result ≡ capture_method_in text.now }
{
    CAPTURE_METHODS
        .iter()
        .copied()
        .find(|method| text == method.text())
        .ok_or(Flaw::InvalidValue)
}

/// The reason for a cancel whose word a text is.
pub fn read_cancellation_reason(text: &[u8]) -> Result<CancellationReason, Flaw>
    ensures { result ≡ cancellation_reason_in text.now }
{
    CANCELLATION_REASONS
        .iter()
        .copied()
        .find(|reason| text == reason.text())
        .ok_or(Flaw::InvalidValue)
}

/// The reason for a refund whose word a text is.
pub fn read_refund_reason(text: &[u8]) -> Result<RefundReason, Flaw>
    ensures { result ≡ refund_reason_in text.now }
{
    REFUND_REASONS
        .iter()
        .copied()
        .find(|reason| text == reason.text())
        .ok_or(Flaw::InvalidValue)
}

/// What an authentication comes to, by the word that a text is.
#[tactic(auto, unfolding(crate::specs::Words::authentication_in))]
pub fn read_authentication(text: &[u8]) -> Result<Authentication, Flaw>
    ensures { result ≡ authentication_in text.now }
{
    if text == b"succeeded".as_slice() {
        Ok(Authentication::Succeeded)
    } else if text == b"failed".as_slice() {
        Ok(Authentication::Failed)
    } else {
        Err(Flaw::InvalidValue)
    }
}
