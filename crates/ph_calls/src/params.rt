//! The parameters of calls: the value of each kind under a name of a form, or the refusal of what stands there.
ghost use Rattle.std.specs.Prelude.{◌≡◌, IfErr, IfOk, Ok, Err};
ghost use Rattle.ph_kinds.specs.Kind as kind;
ghost use Rattle.ph_calls.specs.Check.{Refuses};
ghost use Rattle.ph_calls.specs.Parameters.{may, unless_flawed, unless_missing};

use crate::errors::flaw_error;
use ph_base::Bytes;
use ph_errors::{ApiError, Refusal};
use ph_form::Form;
use ph_items::{AccountType, CancellationReason, CaptureMethod, PaymentMethod, RefundReason};
use ph_kinds::{
    Authentication, Flaw, Meta, account_type_at, amount_at, authentication_at,
    cancellation_reason_at, capture_method_at, currency_at, id_at, metadata_at, number_at,
    payment_method_at, refund_reason_at, text_at, truth_at,
};
use ph_money::{Amount, Currency};
use std::alloc::Global;

/// What was read of a parameter, or the refusal of its flaw.
fn unless_flawed<T>(alloc: Global, name: &[u8], read: Result<T, Flaw>) -> Result<T, Refusal>
    ensures value { IfOk result (λ value. unless_flawed name.now read ≡ Ok value) }
    ensures refusal { IfErr result (Refuses (unless_flawed name.now read)) }
    ensures memory { read ≡ Err Flaw.NoMemory → result ≡ Err Refusal.NoMemory }
{
    match read {
        Ok(value) => Ok(value),
        Err(Flaw::NoMemory) => Err(Refusal::NoMemory),
        Err(flaw) => Err(Refusal::Api(flaw_error(alloc, flaw, name)?)),
    }
}

/// The value of a parameter that has to be there.
pub fn required<T>(alloc: Global, name: &[u8], value: Option<T>) -> Result<T, Refusal>
    ensures value { IfOk result (λ given. unless_missing name.now (Ok value) ≡ Ok given) }
    ensures refusal { IfErr result (Refuses (unless_missing name.now (Ok value))) }
{
    match value {
        Some(value) => Ok(value),
        None => Err(Refusal::Api(ApiError::parameter_missing(alloc, name)?)),
    }
}

/// The amount under a name.
#[tactic(auto, unfolding(crate::specs::Parameters::may))]
pub fn amount(alloc: Global, form: &Form, name: &[u8]) -> Result<Option<Amount>, Refusal>
    ensures value { IfOk result (λ value. may kind.Amount name.now form.now ≡ Ok value) }
    ensures refusal { IfErr result (Refuses (may kind.Amount name.now form.now)) }
{
    unless_flawed(alloc, name, amount_at(form, name))
}

/// The number under a name.
#[tactic(auto, unfolding(crate::specs::Parameters::may))]
pub fn number(alloc: Global, form: &Form, name: &[u8]) -> Result<Option<u64>, Refusal>
    ensures value { IfOk result (λ value. may kind.Number name.now form.now ≡ Ok value) }
    ensures refusal { IfErr result (Refuses (may kind.Number name.now form.now)) }
{
    unless_flawed(alloc, name, number_at(form, name))
}

/// The currency under a name.
#[tactic(auto, unfolding(crate::specs::Parameters::may))]
pub fn currency(alloc: Global, form: &Form, name: &[u8]) -> Result<Option<Currency>, Refusal>
    ensures value { IfOk result (λ value. may kind.Currency name.now form.now ≡ Ok value) }
    ensures refusal { IfErr result (Refuses (may kind.Currency name.now form.now)) }
{
    unless_flawed(alloc, name, currency_at(form, name))
}

/// The truth value under a name.
#[tactic(auto, unfolding(crate::specs::Parameters::may))]
pub fn truth(alloc: Global, form: &Form, name: &[u8]) -> Result<Option<bool>, Refusal>
    ensures value { IfOk result (λ value. may kind.Truth name.now form.now ≡ Ok value) }
    ensures refusal { IfErr result (Refuses (may kind.Truth name.now form.now)) }
{
    unless_flawed(alloc, name, truth_at(form, name))
}

/// The text under a name that is read as an id when the call is carried out.
#[tactic(auto, unfolding(crate::specs::Parameters::may))]
pub fn id(alloc: Global, form: &Form, name: &[u8]) -> Result<Option<Bytes>, Refusal>
    ensures value { IfOk result (λ value. may kind.Id name.now form.now ≡ Ok value) }
    ensures refusal { IfErr result (Refuses (may kind.Id name.now form.now)) }
{
    unless_flawed(alloc, name, id_at(alloc, form, name))
}

/// The payment method under a name.
#[tactic(auto, unfolding(crate::specs::Parameters::may))]
pub fn method(alloc: Global, form: &Form, name: &[u8]) -> Result<Option<PaymentMethod>, Refusal>
    ensures value { IfOk result (λ value. may kind.Method name.now form.now ≡ Ok value) }
    ensures refusal { IfErr result (Refuses (may kind.Method name.now form.now)) }
{
    unless_flawed(alloc, name, payment_method_at(alloc, form, name))
}

/// What is said of metadata under a name.
#[tactic(auto, unfolding(crate::specs::Parameters::may))]
pub fn metadata(alloc: Global, form: &Form, name: &[u8]) -> Result<Option<Meta>, Refusal>
    ensures value { IfOk result (λ value. may kind.Metadata name.now form.now ≡ Ok value) }
    ensures refusal { IfErr result (Refuses (may kind.Metadata name.now form.now)) }
{
    unless_flawed(alloc, name, metadata_at(alloc, form, name))
}

/// The type of account under a name.
#[tactic(auto, unfolding(crate::specs::Parameters::may))]
pub fn account_type(alloc: Global, form: &Form, name: &[u8]) -> Result<Option<AccountType>, Refusal>
    ensures value { IfOk result (λ value. may kind.AccountType name.now form.now ≡ Ok value) }
    ensures refusal { IfErr result (Refuses (may kind.AccountType name.now form.now)) }
{
    unless_flawed(alloc, name, account_type_at(form, name))
}

/// The capture method under a name.
#[tactic(auto, unfolding(crate::specs::Parameters::may))]
pub fn capture_method(
    alloc: Global,
    form: &Form,
    name: &[u8],
) -> Result<Option<CaptureMethod>, Refusal>
    ensures value { IfOk result (λ value. may kind.CaptureMethod name.now form.now ≡ Ok value) }
    ensures refusal { IfErr result (Refuses (may kind.CaptureMethod name.now form.now)) }
{
    unless_flawed(alloc, name, capture_method_at(form, name))
}

/// The reason for a cancel under a name.
#[tactic(auto, unfolding(crate::specs::Parameters::may))]
pub fn cancellation_reason(
    alloc: Global,
    form: &Form,
    name: &[u8],
) -> Result<Option<CancellationReason>, Refusal>
    ensures value { IfOk result (λ value. may kind.CancellationReason name.now form.now ≡ Ok value) }
    ensures refusal { IfErr result (Refuses (may kind.CancellationReason name.now form.now)) }
{
    unless_flawed(alloc, name, cancellation_reason_at(form, name))
}

/// The reason for a refund under a name.
#[tactic(auto, unfolding(crate::specs::Parameters::may))]
pub fn refund_reason(
    alloc: Global,
    form: &Form,
    name: &[u8],
) -> Result<Option<RefundReason>, Refusal>
    ensures value { IfOk result (λ value. may kind.RefundReason name.now form.now ≡ Ok value) }
    ensures refusal { IfErr result (Refuses (may kind.RefundReason name.now form.now)) }
{
    unless_flawed(alloc, name, refund_reason_at(form, name))
}

/// What an authentication comes to, under a name.
#[tactic(auto, unfolding(crate::specs::Parameters::may))]
pub fn authentication(
    alloc: Global,
    form: &Form,
    name: &[u8],
) -> Result<Option<Authentication>, Refusal>
    ensures value { IfOk result (λ value. may kind.Authentication name.now form.now ≡ Ok value) }
    ensures refusal { IfErr result (Refuses (may kind.Authentication name.now form.now)) }
{
    unless_flawed(alloc, name, authentication_at(form, name))
}

/// The text of at most so many characters (Unicode scalar values) under a name.
#[tactic(auto, unfolding(crate::specs::Parameters::may))]
pub fn text(alloc: Global, form: &Form, name: &[u8], most: usize) -> Result<Option<Bytes>, Refusal>
    ensures value { IfOk result (λ value. may (kind.Text most) name.now form.now ≡ Ok value) }
    ensures refusal { IfErr result (Refuses (may (kind.Text most) name.now form.now)) }
{
    unless_flawed(alloc, name, text_at(alloc, form, name, most))
}
