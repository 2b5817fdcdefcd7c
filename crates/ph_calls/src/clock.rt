//! The setting of the clock.
ghost use Rattle.std.specs.Prelude.{◌≡◌, IfErr, IfOk, Ok};
ghost use Rattle.ph_calls.specs.Check.{Refuses};
ghost use Rattle.ph_calls.specs.Clock.{set_clock, set_clock_error};
ghost use Rattle.ph_calls.specs.Parameters.{given};
ghost use Rattle.ph_calls.specs.Table.{params_of};

use crate::call::SetClock;
use crate::params::{number, required};
use crate::row::Name;
use ph_base::NoMemory;
use ph_errors::{ApiError, Refusal};
use ph_form::Form;
use ph_items::CLOCK_LIMIT;
use std::alloc::Global;

/// The setting of the clock of a form.
#[tactic(auto, unfolding(crate::specs::Parameters::given))]
pub fn set_clock(alloc: Global, form: &Form) -> Result<SetClock, Refusal>
    ensures call { IfOk result (λ call. given (params_of Name.SetClock) set_clock form.now ≡ Ok call) }
    ensures refusal { IfErr result (Refuses (given (params_of Name.SetClock) set_clock form.now)) }
{
    Ok(SetClock {
        now: required(alloc, b"now", number(alloc, form, b"now")?)?,
    })
}

/// The error of a time that no clock shows.
pub fn set_clock_error(alloc: Global, call: &SetClock) -> Result<Option<ApiError>, NoMemory>
    ensures { IfOk result (λ error. error ≡ set_clock_error call.entry.now) }
{
    if call.now > CLOCK_LIMIT {
        Ok(Some(ApiError::parameter_invalid_integer(alloc, b"now")?))
    } else {
        Ok(None)
    }
}
