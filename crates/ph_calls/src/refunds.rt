//! The create of a refund.
ghost use Rattle.std.specs.Prelude.{◌≡◌, IfErr, IfOk, Ok};
ghost use Rattle.ph_calls.specs.Check.{Refuses};
ghost use Rattle.ph_calls.specs.Parameters.{given};
ghost use Rattle.ph_calls.specs.Refunds.{create_refund, create_refund_error, names_one};
ghost use Rattle.ph_calls.specs.Table.{params_of};

use crate::call::CreateRefund;
use crate::checks::is_zero;
use crate::params::{amount, id, metadata, refund_reason, truth};
use crate::row::Name;
use ph_base::NoMemory;
use ph_errors::{ApiError, Refusal};
use ph_form::Form;
use std::alloc::Global;

/// The refund of a form; it takes nothing of a transfer back, and gives nothing of a fee back, where nothing is said of that.
#[tactic(auto, unfolding(crate::specs::Parameters::given))]
pub fn create_refund(alloc: Global, form: &Form) -> Result<CreateRefund, Refusal>
    ensures call { IfOk result (λ call. given (params_of Name.CreateRefund) create_refund form.now ≡ Ok call) }
    ensures refusal { IfErr result (Refuses (given (params_of Name.CreateRefund) create_refund form.now)) }
{
    Ok(CreateRefund {
        charge: id(alloc, form, b"charge")?,
        payment_intent: id(alloc, form, b"payment_intent")?,
        amount: amount(alloc, form, b"amount")?,
        reason: refund_reason(alloc, form, b"reason")?,
        metadata: metadata(alloc, form, b"metadata")?,
        reverse_transfer: truth(alloc, form, b"reverse_transfer")?.unwrap_or(false),
        refund_application_fee: truth(alloc, form, b"refund_application_fee")?.unwrap_or(false),
    })
}

/// Whether exactly one of a charge and a payment intent is named.
fn names_one(call: &CreateRefund) -> bool
    ensures { result ≡ names_one call.now }
{
    call.charge.is_some() != call.payment_intent.is_some()
}

/// The error of the first further check that fails: both or none of a charge and a payment intent, then an amount of 0.
pub fn create_refund_error(alloc: Global, call: &CreateRefund) -> Result<Option<ApiError>, NoMemory>
    ensures { IfOk result (λ error. error ≡ create_refund_error call.now) }
{
    if !names_one(call) {
        return Ok(Some(ApiError::parameter_missing(alloc, b"charge")?));
    }
    if is_zero(call.amount) {
        return Ok(Some(ApiError::invalid_value(alloc, b"amount")?));
    }
    Ok(None)
}
