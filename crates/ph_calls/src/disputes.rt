//! The evidence against a dispute.
ghost use Rattle.std.specs.Prelude.{◌≡◌, IfErr, IfOk, Ok};
ghost use Rattle.ph_calls.specs.Check.{Refuses};
ghost use Rattle.ph_calls.specs.Disputes.{send_evidence};
ghost use Rattle.ph_calls.specs.Parameters.{given};
ghost use Rattle.ph_calls.specs.Table.{params_of};

use crate::call::SendEvidence;
use crate::params::{required, text};
use crate::row::Name;
use ph_base::Bytes;
use ph_errors::Refusal;
use ph_form::Form;
use std::alloc::Global;

/// The evidence for the dispute with this id, of a form.
#[tactic(auto, unfolding(crate::specs::Parameters::given))]
pub fn send_evidence(alloc: Global, id: &[u8], form: &Form) -> Result<SendEvidence, Refusal>
    ensures call { IfOk result (λ call. given (params_of Name.SendEvidence) (send_evidence id.now) form.now ≡ Ok call) }
    ensures refusal { IfErr result (Refuses (given (params_of Name.SendEvidence) (send_evidence id.now) form.now)) }
{
    let name = b"evidence[uncategorized_text]";
    Ok(SendEvidence {
        id: Bytes::from_slice(alloc, id)?,
        uncategorized_text: required(alloc, name, text(alloc, form, name, 20000)?)?,
    })
}
