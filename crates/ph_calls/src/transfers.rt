//! The create of a transfer, and of a reversal of one.
ghost use Rattle.std.specs.Prelude.{◌≡◌, IfErr, IfOk, Ok};
ghost use Rattle.ph_calls.specs.Check.{Refuses};
ghost use Rattle.ph_calls.specs.Parameters.{given};
ghost use Rattle.ph_calls.specs.Table.{params_of};
ghost use Rattle.ph_calls.specs.Transfers.{create_transfer, reverse_transfer};

use crate::call::{CreateTransfer, ReverseTransfer};
use crate::params::{amount, currency, id, metadata, required, text};
use crate::row::Name;
use ph_base::Bytes;
use ph_errors::Refusal;
use ph_form::Form;
use std::alloc::Global;

/// The transfer of a form.
#[tactic(auto, unfolding(crate::specs::Parameters::given))]
pub fn create_transfer(alloc: Global, form: &Form) -> Result<CreateTransfer, Refusal>
    ensures call { IfOk result (λ call. given (params_of Name.CreateTransfer) create_transfer form.now ≡ Ok call) }
    ensures refusal { IfErr result (Refuses (given (params_of Name.CreateTransfer) create_transfer form.now)) }
{
    Ok(CreateTransfer {
        amount: required(alloc, b"amount", amount(alloc, form, b"amount")?)?,
        currency: required(alloc, b"currency", currency(alloc, form, b"currency")?)?,
        destination: required(alloc, b"destination", id(alloc, form, b"destination")?)?,
        source_transaction: id(alloc, form, b"source_transaction")?,
        description: text(alloc, form, b"description", 1000)?,
        metadata: metadata(alloc, form, b"metadata")?,
        transfer_group: text(alloc, form, b"transfer_group", 255)?,
    })
}

/// The reversal of the transfer with this id, of a form.
#[tactic(auto, unfolding(crate::specs::Parameters::given))]
pub fn reverse_transfer(alloc: Global, id: &[u8], form: &Form) -> Result<ReverseTransfer, Refusal>
    ensures call { IfOk result (λ call. given (params_of Name.ReverseTransfer) (reverse_transfer id.now) form.now ≡ Ok call) }
    ensures refusal { IfErr result (Refuses (given (params_of Name.ReverseTransfer) (reverse_transfer id.now) form.now)) }
{
    Ok(ReverseTransfer {
        id: Bytes::from_slice(alloc, id)?,
        amount: amount(alloc, form, b"amount")?,
        metadata: metadata(alloc, form, b"metadata")?,
    })
}
