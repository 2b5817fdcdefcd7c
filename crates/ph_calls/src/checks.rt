//! Further checks that several calls have.
ghost use Rattle.std.specs.Prelude.{◌≡◌, IfOk};
ghost use Rattle.ph_calls.specs.Check.{is_zero, zero_error};

use ph_base::NoMemory;
use ph_errors::ApiError;
use ph_money::Amount;
use std::alloc::Global;

/// Whether an amount is named, and it is 0.
pub fn is_zero(amount: Option<Amount>) -> bool
    ensures { result ≡ is_zero amount }
{
    match amount {
        Some(amount) => amount.units() == 0,
        None => false,
    }
}

/// The error of a parameter `amount` that is 0.
pub fn zero_error(alloc: Global, amount: Option<Amount>) -> Result<Option<ApiError>, NoMemory>
    ensures { IfOk result (λ error. error ≡ zero_error amount) }
{
    if is_zero(amount) {
        return Ok(Some(ApiError::invalid_value(alloc, b"amount")?));
    }
    Ok(None)
}
