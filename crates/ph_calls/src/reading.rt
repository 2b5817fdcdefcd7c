//! Reading a request as a call.
ghost use Rattle.std.specs.Prelude.{◌≡◌, IfErr, IfOk, Ok, Err};
ghost use Rattle.ph_calls.specs.Check.{Refuses, unless_error};
ghost use Rattle.ph_calls.specs.Reading.{call_of, form_of, reading_by, reading_of};

use crate::accounts::create_account;
use crate::call::{Call, CloseDispute, GetBalance, Retrieve};
use crate::checks::zero_error;
use crate::clock::{set_clock, set_clock_error};
use crate::disputes::send_evidence;
use crate::errors::fault_error;
use crate::fees::refund_fee;
use crate::intents::{
    authenticate_intent, cancel_intent, capture_intent, confirm_intent, create_intent,
    create_intent_error, update_intent,
};
use crate::names::unknown_error;
use crate::refunds::{create_refund, create_refund_error};
use crate::route::find_route;
use crate::row::Name;
use crate::table::names_of;
use crate::transfers::{create_transfer, reverse_transfer};
use ph_base::Bytes;
use ph_errors::{ApiError, Refusal};
use ph_form::{Form, FormFault, read_form};
use ph_http::Raw;
use std::alloc::Global;

/// A request that is a call.
#[derive(Drop)]
pub struct Request {
    pub call: Call,
    /// The form of its query and its body, which the call was read from.
    pub form: Form,
}

/// The error, or else the call.
fn unless_error(error: Option<ApiError>, call: Call) -> Result<Call, Refusal>
    ensures call { IfOk result (λ made. unless_error error (Ok call) ≡ Ok made) }
    ensures refusal { IfErr result (Refuses (unless_error error (Ok call))) }
{
    match error {
        Some(error) => Err(Refusal::Api(error)),
        None => Ok(call),
    }
}

/// The call of a name by an account that an id and a form make, or the error of its first parameter, or further check, that has one.
fn make_call(
    alloc: Global,
    account: u64,
    name: Name,
    id: &[u8],
    form: &Form,
) -> Result<Call, Refusal>
    ensures call { IfOk result (λ call. call_of account name id.now form.now ≡ Ok call) }
    ensures refusal { IfErr result (Refuses (call_of account name id.now form.now)) }
{
    match name {
        Name::CreateIntent => {
            let call = create_intent(alloc, form)?;
            let error = create_intent_error(alloc, account, &call)?;
            unless_error(error, Call::CreateIntent(call))
        }
        Name::UpdateIntent => Ok(Call::UpdateIntent(update_intent(alloc, id, form)?)),
        Name::ConfirmIntent => Ok(Call::ConfirmIntent(confirm_intent(alloc, id, form)?)),
        Name::CaptureIntent => Ok(Call::CaptureIntent(capture_intent(alloc, id, form)?)),
        Name::CancelIntent => Ok(Call::CancelIntent(cancel_intent(alloc, id, form)?)),
        Name::CreateRefund => {
            let call = create_refund(alloc, form)?;
            let error = create_refund_error(alloc, &call)?;
            unless_error(error, Call::CreateRefund(call))
        }
        Name::SendEvidence => Ok(Call::SendEvidence(send_evidence(alloc, id, form)?)),
        Name::CloseDispute => Ok(Call::CloseDispute(CloseDispute {
            id: Bytes::from_slice(alloc, id)?,
        })),
        Name::CreateAccount => Ok(Call::CreateAccount(create_account(alloc, form)?)),
        Name::CreateTransfer => {
            let call = create_transfer(alloc, form)?;
            let error = zero_error(alloc, Some(call.amount))?;
            unless_error(error, Call::CreateTransfer(call))
        }
        Name::ReverseTransfer => {
            let call = reverse_transfer(alloc, id, form)?;
            let error = zero_error(alloc, call.amount)?;
            unless_error(error, Call::ReverseTransfer(call))
        }
        Name::RefundFee => {
            let call = refund_fee(alloc, id, form)?;
            let error = zero_error(alloc, call.amount)?;
            unless_error(error, Call::RefundFee(call))
        }
        Name::Retrieve(kind) => Ok(Call::Retrieve(Retrieve {
            kind,
            id: Bytes::from_slice(alloc, id)?,
        })),
        Name::GetBalance => Ok(Call::GetBalance(GetBalance {})),
        Name::SetClock => {
            let call = set_clock(alloc, form)?;
            let error = set_clock_error(alloc, &call)?;
            unless_error(error, Call::SetClock(call))
        }
        Name::Authenticate => Ok(Call::Authenticate(authenticate_intent(alloc, id, form)?)),
    }
}

/// What a request of a call by an account, with an id and a form, is read as.
fn read_by(alloc: Global, account: u64, name: Name, id: &[u8], form: &Form) -> Result<Call, Refusal>
    ensures call { IfOk result (λ call. reading_by account name id.now (Ok form.now) ≡ Ok call) }
    ensures refusal { IfErr result (Refuses (reading_by account name id.now (Ok form.now))) }
{
    match unknown_error(alloc, names_of(name), form)? {
        Some(error) => Err(Refusal::Api(error)),
        None => make_call(alloc, account, name, id, form),
    }
}

/// The call that a request by an account is, and the form that it was read from. It is refused where no call has its method and path;
/// else where its query and body are no form; else for the least name, in byte order, that isn't a parameter of the
/// call; else for the first parameter that is missing or isn't of its kind; else by the call's further checks.
pub fn read_call(alloc: Global, account: u64, raw: &Raw) -> Result<Request, Refusal>
    ensures call { IfOk result (λ request. reading_of account raw.now ≡ Ok request.call) }
    ensures form { IfOk result (λ request. form_of raw.now ≡ Ok request.form) }
    ensures refusal { IfErr result (Refuses (reading_of account raw.now)) }
{
    match find_route(raw.method.as_slice(), raw.path.as_slice()) {
        None => Err(Refusal::Api(ApiError::unrecognized_url(alloc)?)),
        Some((row, id)) => {
            let query = match &raw.query {
                Some(query) => query.as_slice(),
                None => b"",
            };
            match read_form(alloc, query, raw.body.as_slice()) {
                Ok(form) => {
                    let call = read_by(alloc, account, row.call, id, &form)?;
                    Ok(Request { call, form })
                }
                Err(fault) => Err(Refusal::Api(fault_error(alloc, fault)?)),
            }
        }
    }
}
