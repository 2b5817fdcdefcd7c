//! Kinds of parameters: what each takes, and the flaw of what it doesn't.

ghost use Rattle.std.specs.Prelude.{IfSome};

use crate::line::{Line, said, unknown};
use ph_base::NoMemory;
use ph_form::{Form, FormFault, read_form};
use ph_kinds::{
    Flaw, Texts, address_at, amount_at, authentication_at, cancellation_reason_at,
    capture_method_at, currency_at, events_at, id_at, metadata_at, number_at, payment_method_at,
    read_method, refund_reason_at, text_at, truth_at,
};
use std::alloc::Global;

/// `NAME | text | KIND | TEXT` and `NAME | map | KIND`: `taken`, or the flaw. `NAME | method | TEXT`: the payment
/// method. `NAME | events | BODY`: the types at `enabled_events` of a form, or the flaw.
pub fn read(alloc: Global, line: Line) -> Result<Vec<u8>, NoMemory> {
    match line.field(1) {
        "text" => text(alloc, line),
        "map" => of_form(alloc, line, b"p[a][b]=x"),
        "method" => method(alloc, line),
        "events" => events(alloc, line),
        _ => unknown(alloc),
    }
}

fn flaw_text(alloc: Global, flaw: Flaw) -> Result<Vec<u8>, NoMemory> {
    match flaw {
        Flaw::NoMemory => Err(NoMemory),
        _ => Ok(format!(in alloc; "{flaw:?}")?.into_bytes()),
    }
}

fn taken<T: Drop>(alloc: Global, read: Result<Option<T>, Flaw>) -> Result<Vec<u8>, NoMemory> {
    match read {
        Ok(_) => said(alloc, "taken"),
        Err(flaw) => flaw_text(alloc, flaw),
    }
}

// Whether a kind takes what stands at `p` of a form; the line's number is that of a text's characters.
fn at_name(alloc: Global, line: Line, form: &Form) -> Result<Vec<u8>, NoMemory> {
    let name = b"p".as_slice();
    match line.field(2) {
        "amount" => taken(alloc, amount_at(form, name)),
        "number" => taken(alloc, number_at(form, name)),
        "currency" => taken(alloc, currency_at(form, name)),
        "truth" => taken(alloc, truth_at(form, name)),
        "text of" => taken(alloc, text_at(alloc, form, name, line.number(4) as usize)),
        "id" => taken(alloc, id_at(alloc, form, name)),
        "method" => taken(alloc, payment_method_at(alloc, form, name)),
        "metadata" => taken(alloc, metadata_at(alloc, form, name)),
        "events" => taken(alloc, events_at(alloc, form, name)),
        "address" => taken(alloc, address_at(alloc, form, name)),
        "capture method" => taken(alloc, capture_method_at(form, name)),
        "cancellation reason" => taken(alloc, cancellation_reason_at(form, name)),
        "refund reason" => taken(alloc, refund_reason_at(form, name)),
        "authentication" => taken(alloc, authentication_at(form, name)),
        _ => unknown(alloc),
    }
}

fn of_form(alloc: Global, line: Line, body: &[u8]) -> Result<Vec<u8>, NoMemory> {
    match read_form(alloc, b"", body) {
        Ok(form) => at_name(alloc, line, &form),
        Err(FormFault::NoMemory) => Err(NoMemory),
        Err(_) => unknown(alloc),
    }
}

const DIGITS: [u8; 16] = *b"0123456789ABCDEF";

// Each text of a form is UTF-8.
fn text(alloc: Global, line: Line) -> Result<Vec<u8>, NoMemory> {
    let bytes = line.bytes(alloc, 3)?;
    if str::from_utf8(bytes.as_slice()).is_err() {
        return unknown(alloc);
    }
    let mut body = Vec::from_slice(alloc, b"p=")?;
    for byte in &bytes {
        body.push(b'%')?;
        body.push(DIGITS[(*byte / 16) as usize])?;
        body.push(DIGITS[(*byte % 16) as usize])?;
    }
    of_form(alloc, line, body.as_slice())
}

fn method(alloc: Global, line: Line) -> Result<Vec<u8>, NoMemory> {
    let text = line.bytes(alloc, 2)?;
    match read_method(text.as_slice()) {
        Ok(method) => Ok(format!(in alloc; "{method:?}")?.into_bytes()),
        Err(flaw) => flaw_text(alloc, flaw),
    }
}

fn events(alloc: Global, line: Line) -> Result<Vec<u8>, NoMemory> {
    let body = line.bytes(alloc, 2)?;
    match read_form(alloc, b"", body.as_slice()) {
        Ok(form) => match events_at(alloc, &form, b"enabled_events") {
            Ok(events) => event_texts(alloc, events),
            Err(flaw) => flaw_text(alloc, flaw),
        },
        Err(FormFault::NoMemory) => Err(NoMemory),
        Err(_) => unknown(alloc),
    }
}

/// Event types, apart by blanks.
pub fn event_texts(alloc: Global, events: Option<Texts>) -> Result<Vec<u8>, NoMemory> {
    let Some(events) = events else {
        return said(alloc, "none");
    };
    let mut out = Vec::new(alloc);
    for event in events.as_slice() {
        out.extend_from_slice(event.as_slice())?;
        out.push(b' ')?;
    }
    Ok(out)
}
