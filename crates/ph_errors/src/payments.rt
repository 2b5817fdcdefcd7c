//! The errors of a call that is refused by what stands.
ghost use Rattle.std.specs.Prelude.{◌≡◌, IfOk};
ghost use Rattle.ph_errors.specs.Table.{error_of, NoSuchObject, UnexpectedState, ChargeNotCaptured, DisputeClosed, ChargeAlreadyRefunded, ChargeDisputed, PlatformOnly, BalanceInsufficient, ClockBackwards, NotAuthenticated, CardDeclined};

use crate::api_error::ApiError;
use crate::kinds::{Code, ErrorKind};
use ph_base::{Decline, NoMemory};
use std::alloc::Global;

#[tactic(auto, unfolding(crate::specs::Table::error_of))]
impl ApiError {
    /// A path or a parameter names no object of its kind; `param` is `id` for the path.
    pub fn no_such_object(alloc: Global, param: &[u8]) -> Result<ApiError, NoMemory>
        ensures { IfOk result (λ error. error ≡ error_of (NoSuchObject param.now)) }
    {
        let error = ApiError::bare(
            alloc,
            404,
            ErrorKind::InvalidRequestError,
            Some(Code::ResourceMissing),
            "No such object.",
        )?;
        error.about(alloc, param)
    }

    /// The payment intent's status doesn't allow the call.
    pub fn unexpected_state(alloc: Global) -> Result<ApiError, NoMemory>
        ensures { IfOk result (λ error. error ≡ error_of UnexpectedState) }
    {
        ApiError::bare(
            alloc,
            400,
            ErrorKind::InvalidRequestError,
            Some(Code::PaymentIntentUnexpectedState),
            "The status of this PaymentIntent does not allow this.",
        )
    }

    /// A refund of a charge that hasn't been captured.
    pub fn charge_not_captured(alloc: Global) -> Result<ApiError, NoMemory>
        ensures { IfOk result (λ error. error ≡ error_of ChargeNotCaptured) }
    {
        let error = ApiError::bare(
            alloc,
            400,
            ErrorKind::InvalidRequestError,
            None,
            "The charge has not been captured.",
        )?;
        error.about(alloc, b"charge")
    }

    /// The dispute is won or lost.
    pub fn dispute_closed(alloc: Global) -> Result<ApiError, NoMemory>
        ensures { IfOk result (λ error. error ≡ error_of DisputeClosed) }
    {
        let error = ApiError::bare(
            alloc,
            400,
            ErrorKind::InvalidRequestError,
            None,
            "The dispute is closed.",
        )?;
        error.about(alloc, b"id")
    }

    /// Nothing of the charge is left to be refunded.
    pub fn charge_already_refunded(alloc: Global) -> Result<ApiError, NoMemory>
        ensures { IfOk result (λ error. error ≡ error_of ChargeAlreadyRefunded) }
    {
        ApiError::bare(
            alloc,
            400,
            ErrorKind::InvalidRequestError,
            Some(Code::ChargeAlreadyRefunded),
            "The charge has been refunded.",
        )
    }

    /// The charge has a dispute that isn't won.
    pub fn charge_disputed(alloc: Global) -> Result<ApiError, NoMemory>
        ensures { IfOk result (λ error. error ≡ error_of ChargeDisputed) }
    {
        ApiError::bare(
            alloc,
            400,
            ErrorKind::InvalidRequestError,
            Some(Code::ChargeDisputed),
            "The charge is disputed.",
        )
    }

    /// The call is the platform's, and was made for a connected account.
    pub fn platform_only(alloc: Global) -> Result<ApiError, NoMemory>
        ensures { IfOk result (λ error. error ≡ error_of PlatformOnly) }
    {
        let error = ApiError::bare(
            alloc,
            400,
            ErrorKind::InvalidRequestError,
            None,
            "Not possible on a connected account.",
        )?;
        error.about(alloc, b"Stripe-Account")
    }

    /// The transfer is above the available balance.
    pub fn balance_insufficient(alloc: Global) -> Result<ApiError, NoMemory>
        ensures { IfOk result (λ error. error ≡ error_of BalanceInsufficient) }
    {
        ApiError::bare(
            alloc,
            400,
            ErrorKind::InvalidRequestError,
            Some(Code::BalanceInsufficient),
            "Insufficient available funds.",
        )
    }

    /// The clock was to be set to an earlier moment.
    pub fn clock_backwards(alloc: Global) -> Result<ApiError, NoMemory>
        ensures { IfOk result (λ error. error ≡ error_of ClockBackwards) }
    {
        let error = ApiError::bare(
            alloc,
            400,
            ErrorKind::InvalidRequestError,
            Some(Code::ClockBackwards),
            "The clock does not go back.",
        )?;
        error.about(alloc, b"now")
    }

    /// The customer's authentication failed. It is no reply: it stands at `last_payment_error` alone.
    pub fn not_authenticated(alloc: Global) -> Result<ApiError, NoMemory>
        ensures { IfOk result (λ error. error ≡ error_of NotAuthenticated) }
    {
        ApiError::bare(
            alloc,
            402,
            ErrorKind::CardError,
            Some(Code::PaymentIntentAuthenticationFailure),
            "The payment was not authenticated.",
        )
    }

    /// The acquirer declined the payment.
    pub fn card_declined(alloc: Global, decline: Decline) -> Result<ApiError, NoMemory>
        ensures { IfOk result (λ error. error ≡ error_of (CardDeclined decline)) }
    {
        let message = match decline {
            Decline::Generic => "Your card was declined.",
            Decline::NoFunds => "Your card has insufficient funds.",
        };
        let mut error = ApiError::bare(
            alloc,
            402,
            ErrorKind::CardError,
            Some(Code::CardDeclined),
            message,
        )?;
        error.decline = Some(decline);
        Ok(error)
    }
}
