//! The refusals that the operations share.
ghost use Rattle.std.specs.Prelude.{codes};
ghost use Rattle.ph_errors.specs.Table.{AmountTooSmall, InvalidValue, NoSuchObject, ParameterMissing, UnexpectedState};
ghost use Rattle.ph_intents.specs.Refusals.{IsRefusal};

use ph_errors::{ApiError, Refusal};
use std::alloc::Global;

/// The path names no payment intent of the account.
pub fn no_such_intent(alloc: Global) -> Refusal
    ensures { IsRefusal (NoSuchObject (codes "id")) result }
{
    Refusal::of(ApiError::no_such_object(alloc, b"id"))
}

/// The status doesn't allow it.
pub fn unexpected_state(alloc: Global) -> Refusal
    ensures { IsRefusal UnexpectedState result }
{
    Refusal::of(ApiError::unexpected_state(alloc))
}

/// The value of a parameter isn't possible.
pub fn invalid_value(alloc: Global, param: &[u8]) -> Refusal
    ensures { IsRefusal (InvalidValue param.now) result }
{
    Refusal::of(ApiError::invalid_value(alloc, param))
}

/// A parameter is missing.
pub fn parameter_missing(alloc: Global, param: &[u8]) -> Refusal
    ensures { IsRefusal (ParameterMissing param.now) result }
{
    Refusal::of(ApiError::parameter_missing(alloc, param))
}

/// The amount is below the minimum of its currency.
pub fn amount_too_small(alloc: Global) -> Refusal
    ensures { IsRefusal AmountTooSmall result }
{
    Refusal::of(ApiError::amount_too_small(alloc))
}
