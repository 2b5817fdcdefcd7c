//! An error as the API answers it.
ghost use Rattle.std.specs.Prelude.{◌≡◌, None, Some, IfOk};

use crate::kinds::{Code, ErrorKind};
use ph_base::{Bytes, Decline, NoMemory};
use std::alloc::Global;

/// An error as the API answers it: a row of the table of errors. It is made by the function named after the error,
/// so that no other crate spells a message.
#[derive(Debug, Drop)]
pub struct ApiError {
    /// The HTTP status of the reply.
    pub status: u16,
    pub kind: ErrorKind,
    pub code: Option<Code>,
    /// The parameter that the error speaks of.
    pub param: Option<Bytes>,
    /// Why a card was declined.
    pub decline: Option<Decline>,
    /// A sentence for people.
    pub message: Bytes,
    /// Whether the reply says that the same request may be sent again (`Stripe-Should-Retry: true`).
    pub retry: bool,
}

impl ApiError {
    ghost use Rattle.ph_errors.specs.Table.{bare};

    // An error with a type, a code and a message alone.
    pub(crate) fn bare(
        alloc: Global,
        status: u16,
        kind: ErrorKind,
        code: Option<Code>,
        message: &str,
    ) -> Result<ApiError, NoMemory>
        ensures { IfOk result (λ error. error ≡ bare status kind code message.now) }
    {
        Ok(ApiError {
            status,
            kind,
            code,
            param: None,
            decline: None,
            message: Bytes::from_slice(alloc, message.as_bytes())?,
            retry: false,
        })
    }

    // The error, speaking of a parameter.
    pub(crate) fn about(self, alloc: Global, param: &[u8]) -> Result<ApiError, NoMemory>
        ensures { IfOk result (λ error. error ≡ record self { param = Some param.now }) }
    {
        let mut error = self;
        error.param = Some(Bytes::from_slice(alloc, param)?);
        Ok(error)
    }
}
