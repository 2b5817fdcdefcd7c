//! Payment methods.
ghost use Rattle.std.specs.Prelude.{◌≡◌, IfOk};

use ph_base::{Bytes, Method, NoMemory};
use std::alloc::Global;

/// A test payment method: its name as the request gave it, and how the acquirer treats it.
#[derive(Drop, Debug)]
pub struct PaymentMethod {
    pub text: Bytes,
    pub method: Method,
}

impl PaymentMethod {
    /// The same payment method once more.
    pub fn copy(&self, alloc: Global) -> Result<Self, NoMemory>
        ensures { IfOk result (λ copy. copy ≡ self.now) }
    {
        Ok(PaymentMethod {
            text: self.text.copy(alloc)?,
            method: self.method,
        })
    }
}
