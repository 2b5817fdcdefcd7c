//! The errors of a request that is refused before it is carried out.
ghost use Rattle.std.specs.Prelude.{◌≡◌, IfOk, None};
ghost use Rattle.ph_errors.specs.Table.{error_of, at_place, request, InvalidApiKey, NoSuchAccount, UnrecognizedUrl, BadName, Clash, TooDeep, ParameterUnknown, ParameterMissing, ParameterInvalidInteger, AmountTooSmall, AmountTooLarge, InvalidValue, NoSuchPaymentMethod, KeyTooLong, KeyNotText, KeyDiffers, KeyInUse};

use crate::api_error::ApiError;
use crate::kinds::{Code, ErrorKind};
use ph_base::{Bytes, NoMemory};
use std::alloc::Global;

#[tactic(auto, unfolding(crate::specs::Table::error_of))]
impl ApiError {
    /// The request has no API key, or another than the host's.
    pub fn invalid_api_key(alloc: Global) -> Result<ApiError, NoMemory>
        ensures { IfOk result (λ error. error ≡ error_of InvalidApiKey) }
    {
        ApiError::bare(
            alloc,
            401,
            ErrorKind::InvalidRequestError,
            None,
            "Invalid API Key provided.",
        )
    }

    /// `Stripe-Account` names no account.
    pub fn no_such_account(alloc: Global) -> Result<ApiError, NoMemory>
        ensures { IfOk result (λ error. error ≡ error_of NoSuchAccount) }
    {
        let error = ApiError::bare(
            alloc,
            404,
            ErrorKind::InvalidRequestError,
            Some(Code::ResourceMissing),
            "No such account.",
        )?;
        error.about(alloc, b"Stripe-Account")
    }

    /// No call has this method and path.
    pub fn unrecognized_url(alloc: Global) -> Result<ApiError, NoMemory>
        ensures { IfOk result (λ error. error ≡ error_of UnrecognizedUrl) }
    {
        ApiError::bare(
            alloc,
            404,
            ErrorKind::InvalidRequestError,
            None,
            "Unrecognized request URL.",
        )
    }

    /// The pair at this place of the form, counted from 0, has a name of no form that is taken.
    pub fn bad_name(alloc: Global, place: u64) -> Result<ApiError, NoMemory>
        ensures { IfOk result (λ error. error ≡ error_of (BadName place)) }
    {
        ApiError::at_place(alloc, "Invalid parameter name", place)
    }

    /// The pair at this place of the form, counted from 0, stands where an earlier one does.
    pub fn clash(alloc: Global, place: u64) -> Result<ApiError, NoMemory>
        ensures { IfOk result (λ error. error ≡ error_of (Clash place)) }
    {
        ApiError::at_place(alloc, "Repeated parameter", place)
    }

    /// The name of the pair at this place of the form, counted from 0, has more than four groups.
    pub fn too_deep(alloc: Global, place: u64) -> Result<ApiError, NoMemory>
        ensures { IfOk result (λ error. error ≡ error_of (TooDeep place)) }
    {
        ApiError::at_place(alloc, "Parameter nested too deeply", place)
    }

    // An error of the form whose message ends with the place of a pair.
    fn at_place(alloc: Global, words: &str, place: u64) -> Result<ApiError, NoMemory>
        ensures { IfOk result (λ error. error ≡ request 400 None None (at_place words.now place)) }
    {
        let mut message = Vec::from_slice(alloc, words.as_bytes())?;
        message.extend_from_slice(b" at place ")?;
        message.extend_from_slice(place.to_string(alloc)?.as_bytes())?;
        message.extend_from_slice(b".")?;
        Ok(ApiError {
            status: 400,
            kind: ErrorKind::InvalidRequestError,
            code: None,
            param: None,
            decline: None,
            message: Bytes::new(message),
            retry: false,
        })
    }

    /// The form names a parameter that the call doesn't take; `param` is its printed path.
    pub fn parameter_unknown(alloc: Global, param: &[u8]) -> Result<ApiError, NoMemory>
        ensures { IfOk result (λ error. error ≡ error_of (ParameterUnknown param.now)) }
    {
        let error = ApiError::bare(
            alloc,
            400,
            ErrorKind::InvalidRequestError,
            Some(Code::ParameterUnknown),
            "Received unknown parameter.",
        )?;
        error.about(alloc, param)
    }

    /// A parameter that the call asks for isn't there.
    pub fn parameter_missing(alloc: Global, param: &[u8]) -> Result<ApiError, NoMemory>
        ensures { IfOk result (λ error. error ≡ error_of (ParameterMissing param.now)) }
    {
        let error = ApiError::bare(
            alloc,
            400,
            ErrorKind::InvalidRequestError,
            Some(Code::ParameterMissing),
            "Missing required parameter.",
        )?;
        error.about(alloc, param)
    }

    /// An amount or a count isn't a whole number in decimal digits.
    pub fn parameter_invalid_integer(alloc: Global, param: &[u8]) -> Result<ApiError, NoMemory>
        ensures { IfOk result (λ error. error ≡ error_of (ParameterInvalidInteger param.now)) }
    {
        let error = ApiError::bare(
            alloc,
            400,
            ErrorKind::InvalidRequestError,
            Some(Code::ParameterInvalidInteger),
            "Invalid integer.",
        )?;
        error.about(alloc, param)
    }

    /// The amount is below the minimum of its currency.
    pub fn amount_too_small(alloc: Global) -> Result<ApiError, NoMemory>
        ensures { IfOk result (λ error. error ≡ error_of AmountTooSmall) }
    {
        let error = ApiError::bare(
            alloc,
            400,
            ErrorKind::InvalidRequestError,
            Some(Code::AmountTooSmall),
            "Amount is below the minimum.",
        )?;
        error.about(alloc, b"amount")
    }

    /// An amount is above 99999999 minor units.
    pub fn amount_too_large(alloc: Global, param: &[u8]) -> Result<ApiError, NoMemory>
        ensures { IfOk result (λ error. error ≡ error_of (AmountTooLarge param.now)) }
    {
        let error = ApiError::bare(
            alloc,
            400,
            ErrorKind::InvalidRequestError,
            Some(Code::AmountTooLarge),
            "Amount is above the maximum.",
        )?;
        error.about(alloc, param)
    }

    /// A parameter has a value that the call doesn't take.
    pub fn invalid_value(alloc: Global, param: &[u8]) -> Result<ApiError, NoMemory>
        ensures { IfOk result (λ error. error ≡ error_of (InvalidValue param.now)) }
    {
        let error = ApiError::bare(
            alloc,
            400,
            ErrorKind::InvalidRequestError,
            None,
            "Invalid value.",
        )?;
        error.about(alloc, param)
    }

    /// A parameter names no test payment method.
    pub fn no_such_payment_method(alloc: Global, param: &[u8]) -> Result<ApiError, NoMemory>
        ensures { IfOk result (λ error. error ≡ error_of (NoSuchPaymentMethod param.now)) }
    {
        let error = ApiError::bare(
            alloc,
            400,
            ErrorKind::InvalidRequestError,
            Some(Code::ResourceMissing),
            "No such payment method.",
        )?;
        error.about(alloc, param)
    }

    /// The idempotency key has more than 255 bytes.
    pub fn key_too_long(alloc: Global) -> Result<ApiError, NoMemory>
        ensures { IfOk result (λ error. error ≡ error_of KeyTooLong) }
    {
        ApiError::bare(
            alloc,
            400,
            ErrorKind::IdempotencyError,
            None,
            "Idempotency key is too long.",
        )
    }

    /// The idempotency key isn't UTF-8.
    pub fn key_not_text(alloc: Global) -> Result<ApiError, NoMemory>
        ensures { IfOk result (λ error. error ≡ error_of KeyNotText) }
    {
        ApiError::bare(
            alloc,
            400,
            ErrorKind::IdempotencyError,
            None,
            "Idempotency key is not text.",
        )
    }

    /// The idempotency key was used by a request with another method, path or form.
    pub fn key_differs(alloc: Global) -> Result<ApiError, NoMemory>
        ensures { IfOk result (λ error. error ≡ error_of KeyDiffers) }
    {
        ApiError::bare(
            alloc,
            400,
            ErrorKind::IdempotencyError,
            None,
            "Idempotency key was used with other parameters.",
        )
    }

    /// A request with this idempotency key is running; it may be sent again.
    pub fn key_in_use(alloc: Global) -> Result<ApiError, NoMemory>
        ensures { IfOk result (λ error. error ≡ error_of KeyInUse) }
    {
        let mut error = ApiError::bare(
            alloc,
            409,
            ErrorKind::IdempotencyError,
            Some(Code::IdempotencyKeyInUse),
            "A request with this idempotency key is running.",
        )?;
        error.retry = true;
        Ok(error)
    }
}
