//! The create of a refund of an application fee.
ghost use Rattle.std.specs.Prelude.{◌≡◌, IfErr, IfOk, Ok};
ghost use Rattle.ph_calls.specs.Check.{Refuses};
ghost use Rattle.ph_calls.specs.Fees.{refund_fee};
ghost use Rattle.ph_calls.specs.Parameters.{given};
ghost use Rattle.ph_calls.specs.Table.{params_of};

use crate::call::RefundFee;
use crate::params::{amount, metadata};
use crate::row::Name;
use ph_base::Bytes;
use ph_errors::Refusal;
use ph_form::Form;
use std::alloc::Global;

/// The refund of the application fee with this id, of a form.
#[tactic(auto, unfolding(crate::specs::Parameters::given))]
pub fn refund_fee(alloc: Global, id: &[u8], form: &Form) -> Result<RefundFee, Refusal>
    ensures call { IfOk result (λ call. given (params_of Name.RefundFee) (refund_fee id.now) form.now ≡ Ok call) }
    ensures refusal { IfErr result (Refuses (given (params_of Name.RefundFee) (refund_fee id.now) form.now)) }
{
    Ok(RefundFee {
        id: Bytes::from_slice(alloc, id)?,
        amount: amount(alloc, form, b"amount")?,
        metadata: metadata(alloc, form, b"metadata")?,
    })
}
