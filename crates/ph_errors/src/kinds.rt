//! The names that an error is told by: its type, its code, and why a card was declined.
ghost use Rattle.std.specs.Prelude.{◌≡◌};
ghost use Rattle.ph_errors.specs.Names.{kind_name, code_name, decline_name};

use ph_base::Decline;

/// The type of an error.
#[derive(Clone, Copy, Debug, PartialEq, Eq)]
pub enum ErrorKind {
    ApiError,
    CardError,
    IdempotencyError,
    InvalidRequestError,
}

impl ErrorKind {
    /// Its name, as it stands at the key `type`.
    pub fn name(self) -> &'static str
        ensures { result.now ≡ kind_name self }
    {
        match self {
            ErrorKind::ApiError => "api_error",
            ErrorKind::CardError => "card_error",
            ErrorKind::IdempotencyError => "idempotency_error",
            ErrorKind::InvalidRequestError => "invalid_request_error",
        }
    }
}

/// The code of an error, where it has one.
#[derive(Clone, Copy, Debug, PartialEq, Eq)]
pub enum Code {
    AcquirerFailed,
    AcquirerPending,
    AmountTooLarge,
    AmountTooSmall,
    BalanceInsufficient,
    CardDeclined,
    ChargeAlreadyRefunded,
    ChargeDisputed,
    ClockBackwards,
    HistoryFull,
    IdempotencyKeyInUse,
    NoMemory,
    ParameterInvalidInteger,
    ParameterMissing,
    ParameterUnknown,
    PaymentIntentAuthenticationFailure,
    PaymentIntentUnexpectedState,
    ResourceMissing,
}

impl Code {
    /// Its name, as it stands at the key `code`.
    pub fn name(self) -> &'static str
        ensures { result.now ≡ code_name self }
    {
        match self {
            Code::AcquirerFailed => "acquirer_failed",
            Code::AcquirerPending => "acquirer_pending",
            Code::AmountTooLarge => "amount_too_large",
            Code::AmountTooSmall => "amount_too_small",
            Code::BalanceInsufficient => "balance_insufficient",
            Code::CardDeclined => "card_declined",
            Code::ChargeAlreadyRefunded => "charge_already_refunded",
            Code::ChargeDisputed => "charge_disputed",
            Code::ClockBackwards => "clock_backwards",
            Code::HistoryFull => "history_full",
            Code::IdempotencyKeyInUse => "idempotency_key_in_use",
            Code::NoMemory => "no_memory",
            Code::ParameterInvalidInteger => "parameter_invalid_integer",
            Code::ParameterMissing => "parameter_missing",
            Code::ParameterUnknown => "parameter_unknown",
            Code::PaymentIntentAuthenticationFailure => "payment_intent_authentication_failure",
            Code::PaymentIntentUnexpectedState => "payment_intent_unexpected_state",
            Code::ResourceMissing => "resource_missing",
        }
    }
}

/// The name of a decline's reason, as it stands at the key `decline_code`.
pub fn decline_code(decline: Decline) -> &'static str
    ensures { result.now ≡ decline_name decline }
{
    match decline {
        Decline::Generic => "generic_decline",
        Decline::NoFunds => "insufficient_funds",
    }
}
