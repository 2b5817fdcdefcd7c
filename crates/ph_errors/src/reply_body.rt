//! The body of an error's reply.
ghost use Rattle.std.specs.Prelude.{◌≡◌, IfOk, option_map};
ghost use Rattle.ph_errors.specs.Body.{body_of, object_of, reasons_of, subjects_of};
ghost use Rattle.ph_errors.specs.Names.{code_name, decline_name};

use crate::api_error::ApiError;
use crate::kinds::{Code, decline_code};
use ph_base::{Bytes, Decline, NoMemory};
use ph_json::{Doc, Members, text};
use std::alloc::Global;

/// The body of the error's reply: an object with the one key `error`, whose value has the keys `code`,
/// `decline_code`, `message`, `param`, `payment_intent` and `type`, each left out where there is none.
#[tactic(auto, unfolding(crate::specs::Body::body_of))]
pub fn body(alloc: Global, error: &ApiError, intent: Option<Doc>) -> Result<Bytes, NoMemory>
    ensures { IfOk result (λ body. body ≡ body_of error.now intent) }
{
    let mut members = Members::new(alloc);
    members.put("error", error_doc(alloc, error, intent)?)?;
    text(alloc, &members.done())
}

/// The error as a document: what stands at the key `error` of a body, and at `last_payment_error` of an intent.
pub fn error_doc(alloc: Global, error: &ApiError, intent: Option<Doc>) -> Result<Doc, NoMemory>
    ensures { IfOk result (λ doc. doc ≡ object_of error.now intent) }
{
    let mut members = reasons(alloc, error)?;
    members.append(subjects(alloc, error, intent)?)?;
    Ok(members.done())
}

// Its code, its decline code and its message.
#[tactic(auto, unfolding(crate::specs::Body::reasons_of))]
fn reasons(alloc: Global, error: &ApiError) -> Result<Members, NoMemory>
    ensures { IfOk result (λ members. members ≡ reasons_of error.now) }
{
    let mut members = Members::new(alloc);
    members.put_if("code", code_doc(alloc, error.code)?)?;
    members.put_if("decline_code", decline_doc(alloc, error.decline)?)?;
    members.text("message", error.message.as_slice())?;
    Ok(members)
}

// Its parameter, its payment intent and its type.
#[tactic(auto, unfolding(crate::specs::Body::subjects_of))]
fn subjects(alloc: Global, error: &ApiError, intent: Option<Doc>) -> Result<Members, NoMemory>
    ensures { IfOk result (λ members. members ≡ subjects_of error.now intent) }
{
    let mut members = Members::new(alloc);
    members.put_if("param", param_doc(alloc, &error.param)?)?;
    members.put_if("payment_intent", intent)?;
    members.word("type", error.kind.name())?;
    Ok(members)
}

fn code_doc(alloc: Global, code: Option<Code>) -> Result<Option<Doc>, NoMemory>
    ensures { IfOk result (λ doc. doc ≡ option_map (λ code. Doc.Text (code_name code)) code) }
{
    match code {
        None => Ok(None),
        Some(code) => Ok(Some(Doc::text_of(alloc, code.name().as_bytes())?)),
    }
}

fn decline_doc(alloc: Global, decline: Option<Decline>) -> Result<Option<Doc>, NoMemory>
    ensures { IfOk result (λ doc. doc ≡ option_map (λ decline. Doc.Text (decline_name decline)) decline) }
{
    match decline {
        None => Ok(None),
        Some(decline) => Ok(Some(Doc::text_of(alloc, decline_code(decline).as_bytes())?)),
    }
}

fn param_doc(alloc: Global, param: &Option<Bytes>) -> Result<Option<Doc>, NoMemory>
    ensures { IfOk result (λ doc. doc ≡ option_map (λ param. Doc.Text param) param.now) }
{
    match param {
        None => Ok(None),
        Some(param) => Ok(Some(Doc::text_of(alloc, param.as_slice())?)),
    }
}
