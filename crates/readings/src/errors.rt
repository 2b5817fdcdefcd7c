//! The table of errors: the reply of each.

use crate::documents::document;
use crate::http::reply_text;
use crate::line::{Line, said, unknown};
use ph_base::{Bytes, Decline, NoMemory};
use ph_errors::{ApiError, Fixed, Refusal, body};
use std::alloc::Global;

/// `NAME | ERROR`, `NAME | ERROR | PARAMETER`, `NAME | ERROR | PLACE`, `NAME | ERROR | | DOCUMENT`: the bytes of the
/// error's reply; the document is the payment intent that it shows. `NAME | closing | STATUS`: the reply that closes a
/// session.
pub fn read(alloc: Global, line: Line) -> Result<Vec<u8>, NoMemory> {
    match line.field(1) {
        "closing" => closing(alloc, line.number(2)),
        name => match fixed(name) {
            Some(error) => fixed_reply(alloc, error),
            None => made_reply(alloc, line),
        },
    }
}

fn made_reply(alloc: Global, line: Line) -> Result<Vec<u8>, NoMemory> {
    let param = line.bytes(alloc, 2)?;
    match refusal(alloc, line, param.as_slice()) {
        Some(Refusal::Api(error)) => api_reply(alloc, &error, line.field(3)),
        Some(Refusal::NoMemory) => said(alloc, "no memory"),
        None => unknown(alloc),
    }
}

// The refusal that is named.
fn refusal(alloc: Global, line: Line, param: &[u8]) -> Option<Refusal> {
    match line.field(1) {
        "want of memory" => Some(Refusal::from(NoMemory)),
        "want of memory for an error" => Some(Refusal::of(Err(NoMemory))),
        name => match of_the_request(alloc, name, line.number(2)) {
            Some(made) => Some(Refusal::of(made)),
            None => refusal_of_values(alloc, name, param),
        },
    }
}

fn refusal_of_values(alloc: Global, name: &str, param: &[u8]) -> Option<Refusal> {
    match of_a_parameter(alloc, name, param) {
        Some(made) => Some(Refusal::of(made)),
        None => match of_what_stands(alloc, name) {
            Some(made) => Some(Refusal::of(made)),
            None => None,
        },
    }
}

// Errors that come before a parameter is read.
fn of_the_request(alloc: Global, name: &str, place: u64) -> Option<Result<ApiError, NoMemory>> {
    match name {
        "invalid_api_key" => Some(ApiError::invalid_api_key(alloc)),
        "no_such_account" => Some(ApiError::no_such_account(alloc)),
        "unrecognized_url" => Some(ApiError::unrecognized_url(alloc)),
        "bad_name" => Some(ApiError::bad_name(alloc, place)),
        "clash" => Some(ApiError::clash(alloc, place)),
        "too_deep" => Some(ApiError::too_deep(alloc, place)),
        "key_too_long" => Some(ApiError::key_too_long(alloc)),
        "key_not_text" => Some(ApiError::key_not_text(alloc)),
        "key_differs" => Some(ApiError::key_differs(alloc)),
        "key_in_use" => Some(ApiError::key_in_use(alloc)),
        _ => None,
    }
}

// Errors of a parameter.
fn of_a_parameter(alloc: Global, name: &str, param: &[u8]) -> Option<Result<ApiError, NoMemory>> {
    match name {
        "parameter_unknown" => Some(ApiError::parameter_unknown(alloc, param)),
        "parameter_missing" => Some(ApiError::parameter_missing(alloc, param)),
        "parameter_invalid_integer" => Some(ApiError::parameter_invalid_integer(alloc, param)),
        "amount_too_small" => Some(ApiError::amount_too_small(alloc)),
        "amount_too_large" => Some(ApiError::amount_too_large(alloc, param)),
        "invalid_value" => Some(ApiError::invalid_value(alloc, param)),
        "no_such_payment_method" => Some(ApiError::no_such_payment_method(alloc, param)),
        "no_such_object" => Some(ApiError::no_such_object(alloc, param)),
        _ => None,
    }
}

// Errors of the objects as they stand.
fn of_what_stands(alloc: Global, name: &str) -> Option<Result<ApiError, NoMemory>> {
    match name {
        "unexpected_state" => Some(ApiError::unexpected_state(alloc)),
        "charge_not_captured" => Some(ApiError::charge_not_captured(alloc)),
        "dispute_closed" => Some(ApiError::dispute_closed(alloc)),
        "charge_already_refunded" => Some(ApiError::charge_already_refunded(alloc)),
        "charge_disputed" => Some(ApiError::charge_disputed(alloc)),
        "platform_only" => Some(ApiError::platform_only(alloc)),
        "balance_insufficient" => Some(ApiError::balance_insufficient(alloc)),
        "clock_backwards" => Some(ApiError::clock_backwards(alloc)),
        "not_authenticated" => Some(ApiError::not_authenticated(alloc)),
        "card_declined" => Some(ApiError::card_declined(alloc, Decline::Generic)),
        "no_funds" => Some(ApiError::card_declined(alloc, Decline::NoFunds)),
        _ => None,
    }
}

fn api_reply(alloc: Global, error: &ApiError, intent: &str) -> Result<Vec<u8>, NoMemory> {
    let body = body(alloc, error, document(alloc, intent)?)?;
    let words = if error.retry { "retry" } else { "" };
    reply_text(alloc, error.status, body, words)
}

// The error that takes no memory, where one is named.
fn fixed(name: &str) -> Option<Fixed> {
    match name {
        "acquirer_pending" => Some(Fixed::AcquirerPending),
        "acquirer_failed" => Some(Fixed::AcquirerFailed),
        "no_memory" => Some(Fixed::NoMemory),
        "history_full" => Some(Fixed::HistoryFull),
        _ => None,
    }
}

// The reply that closes a session with this status, if one does.
fn closing(alloc: Global, number: u64) -> Result<Vec<u8>, NoMemory> {
    match u16::try_from(number) {
        Ok(status) => match Fixed::closing(status) {
            Some(error) => fixed_reply(alloc, error),
            None => said(alloc, "none"),
        },
        Err(_) => unknown(alloc),
    }
}

fn fixed_reply(alloc: Global, error: Fixed) -> Result<Vec<u8>, NoMemory> {
    let body = Bytes::from_slice(alloc, error.body().as_bytes())?;
    let words = if error.retry() { "retry" } else { "" };
    reply_text(alloc, error.status(), body, words)
}
