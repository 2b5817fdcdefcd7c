//! The refusal that the calls share.
ghost use Rattle.ph_errors.specs.Table.{NoSuchObject, error_of};
ghost use Rattle.ph_facts.specs.Outcomes.{IsRefusedBy, Refuses};
ghost use Rattle.ph_rows.specs.Batches.{BatchState};

use ph_errors::{ApiError, Refusal};
use std::alloc::Global;

/// What a call names isn't there.
pub fn no_such_object(alloc: Global, param: &[u8]) -> Refusal
    ensures { (batch : BatchState) → IsRefusedBy (Refuses (error_of (NoSuchObject param.now))) batch result batch }
{
    Refusal::of(ApiError::no_such_object(alloc, param))
}
