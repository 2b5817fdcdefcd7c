//! What operations refuse that the reading of a request refuses before them.

use super::rows::{CREATE, batch_after, call_of, paid, platform};
use ph_base::{Bytes, NoMemory};
use ph_calls::{Call, CreateRefund};
use ph_errors::{Code, Refusal};
use ph_intents::{Begin, begin};
use ph_refunds::refund;
use ph_rows::ListView;
use std::alloc::Global;
use std::process::Abort;
use std::test::Fail;

// A parameter is missing.
fn is_missing(rt: &impl Abort, answer: Result<u64, Refusal>, param: &str) {
    match answer {
        Err(Refusal::Api(error)) => {
            assert_eq!(rt;
                (error.status, error.code),
                (400, Some(Code::ParameterMissing))
            );
            assert!(rt;
                error
                    .param
                    .is_some_and(|name| name.as_slice() == param.as_bytes())
            );
        }
        Err(Refusal::NoMemory) => assert!(rt; false, "no memory"),
        Ok(_) => assert!(rt; false, "not refused"),
    }
}

fn text(alloc: Global, text: Option<&[u8]>) -> Result<Option<Bytes>, NoMemory> {
    match text {
        Some(text) => Ok(Some(Bytes::from_slice(alloc, text)?)),
        None => Ok(None),
    }
}

// A refund of what these texts name.
fn refunded(
    alloc: Global,
    view: &ListView,
    charge: Option<&[u8]>,
    intent: Option<&[u8]>,
) -> Result<u64, Refusal> {
    let call = CreateRefund {
        charge: text(alloc, charge)?,
        payment_intent: text(alloc, intent)?,
        amount: None,
        reason: None,
        metadata: None,
        reverse_transfer: false,
        refund_application_fee: false,
    };
    let mut batch = batch_after(alloc, view);
    refund(alloc, view, 1, &call, &mut batch)
}

// A refund names a charge or a payment intent, and not both.
#[test]
fn a_refund_of_two_and_of_nothing(rt: HostRuntime) -> Result<(), Fail> {
    let alloc = rt.alloc();
    let view = paid(alloc, 1, "pm_card_visa", "automatic")?;
    let charge = Some(b"ch_0000000000000006".as_slice());
    let intent = Some(b"pi_0000000000000002".as_slice());
    is_missing(&rt, refunded(alloc, &view, charge, intent), "charge");
    is_missing(&rt, refunded(alloc, &view, None, None), "charge");
    Ok(())
}

// A create that is to be confirmed at once, whose payment method nobody named.
fn begun(alloc: Global) -> Result<u64, Refusal> {
    let view = platform(alloc)?;
    let mut batch = batch_after(alloc, &view);
    match call_of(alloc, "/v1/payment_intents", CREATE)? {
        Call::CreateIntent(call) => {
            Ok(begin(alloc, &view, 1, &Begin::Create(&call), &mut batch)?.object)
        }
        _ => Err(Refusal::NoMemory),
    }
}

#[test]
fn a_create_confirmed_without_method(rt: HostRuntime) {
    is_missing(&rt, begun(rt.alloc()), "payment_method");
}
