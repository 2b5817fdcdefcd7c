//! Copies of what a call names, or else of what is kept.
ghost use Rattle.std.specs.Prelude.{◌≡◌, IfOk};
ghost use Rattle.std.specs.Option.{option_copied, option_or};

use ph_base::{Bytes, NoMemory};
use ph_items::{PaymentMethod, copy_method, copy_text};
use std::alloc::Global;

/// A copy of the payment method that is named, or else of the one that is kept.
pub fn copy_method_or(
    alloc: Global,
    named: Option<&PaymentMethod>,
    kept: Option<&PaymentMethod>,
) -> Result<Option<PaymentMethod>, NoMemory>
    ensures { IfOk result (λ copy. copy ≡ option_or (option_copied named.entry) (option_copied kept.entry)) }
{
    match named {
        Some(_) => copy_method(alloc, named),
        None => copy_method(alloc, kept),
    }
}

/// A copy of the text that is named, or else of the one that is kept.
pub fn copy_text_or(
    alloc: Global,
    named: Option<&Bytes>,
    kept: Option<&Bytes>,
) -> Result<Option<Bytes>, NoMemory>
    ensures { IfOk result (λ copy. copy ≡ option_or (option_copied named.entry) (option_copied kept.entry)) }
{
    match named {
        Some(_) => copy_text(alloc, named),
        None => copy_text(alloc, kept),
    }
}
