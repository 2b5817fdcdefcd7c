//! The errors of a request that is no call.
ghost use Rattle.std.specs.Prelude.{◌≡◌, ◌≢◌, IfOk, OnOk};
ghost use Rattle.ph_errors.specs.Table.{error_of};
ghost use Rattle.ph_calls.specs.Parameters.{flaw_error};
ghost use Rattle.ph_calls.specs.Reading.{fault_of};

use ph_base::NoMemory;
use ph_errors::ApiError;
use ph_form::FormFault;
use ph_kinds::Flaw;
use std::alloc::Global;

/// The error of a parameter that isn't of its kind.
pub fn flaw_error(alloc: Global, flaw: Flaw, param: &[u8]) -> Result<ApiError, NoMemory>
    ensures { IfOk result (λ error. error ≡ flaw_error flaw param.now) }
{
    match flaw {
        Flaw::InvalidInteger => ApiError::parameter_invalid_integer(alloc, param),
        Flaw::AmountTooLarge => ApiError::amount_too_large(alloc, param),
        Flaw::InvalidValue => ApiError::invalid_value(alloc, param),
        Flaw::NoSuchPaymentMethod => ApiError::no_such_payment_method(alloc, param),
        Flaw::NoMemory => Err(NoMemory),
    }
}

/// The error of a form with a fault.
pub fn fault_error(alloc: Global, fault: FormFault) -> Result<ApiError, NoMemory>
    ensures error { IfOk result (λ error. error ≡ error_of (fault_of fault)) }
    ensures memory { OnOk result (fault ≢ FormFault.NoMemory) }
{
    match fault {
        FormFault::BadName { at } => ApiError::bad_name(alloc, at),
        FormFault::Clash { at } => ApiError::clash(alloc, at),
        FormFault::TooDeep { at } => ApiError::too_deep(alloc, at),
        FormFault::NoMemory => Err(NoMemory),
    }
}
