//! Copies of what a version may lack.
ghost use Rattle.std.specs.Prelude.{◌≡◌, IfOk};
ghost use Rattle.std.specs.Option.{option_copied};

use crate::payment_methods::PaymentMethod;
use ph_base::{Bytes, NoMemory};
use std::alloc::Global;

/// The same payment method once more, where there is one.
pub fn copy_method(
    alloc: Global,
    method: Option<&PaymentMethod>,
) -> Result<Option<PaymentMethod>, NoMemory>
    ensures { IfOk result (λ copy. copy ≡ option_copied method.entry) }
{
    match method {
        Some(method) => Ok(Some(method.copy(alloc)?)),
        None => Ok(None),
    }
}

/// The same text once more, where there is one.
pub fn copy_text(alloc: Global, text: Option<&Bytes>) -> Result<Option<Bytes>, NoMemory>
    ensures { IfOk result (λ copy. copy ≡ option_copied text.entry) }
{
    match text {
        Some(text) => Ok(Some(text.copy(alloc)?)),
        None => Ok(None),
    }
}
