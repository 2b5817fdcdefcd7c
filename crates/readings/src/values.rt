//! Values that a form gives at a name.

use crate::addresses::parts;
use crate::forms::fault_text;
use crate::kinds::event_texts;
use crate::line::{Line, said, unknown};
use ph_base::NoMemory;
use ph_form::{Form, read_form};
use ph_kinds::{
    Flaw, Meta, address_at, amount_at, authentication_at, cancellation_reason_at,
    capture_method_at, currency_at, events_at, id_at, metadata_at, number_at, payment_method_at,
    refund_reason_at, truth_at,
};
use std::alloc::Global;

/// `NAME | WORD | BODY | AT`: the value of the kind that the word names, at a name of the form.
pub fn read(alloc: Global, line: Line) -> Result<Vec<u8>, NoMemory> {
    let body = line.bytes(alloc, 2)?;
    match read_form(alloc, b"", body.as_slice()) {
        Ok(form) => value(alloc, line, &form),
        Err(fault) => fault_text(alloc, fault),
    }
}

fn value(alloc: Global, line: Line, form: &Form) -> Result<Vec<u8>, NoMemory> {
    let name = line.bytes(alloc, 3)?;
    match line.field(1) {
        "address" => address(alloc, form, name.as_slice()),
        "events" => event_texts(alloc, taken(events_at(alloc, form, name.as_slice()))?),
        "metadata" => metadata(alloc, form, name.as_slice()),
        "method" => method(alloc, form, name.as_slice()),
        "text" => text(alloc, form, name.as_slice()),
        word => plain(alloc, form, word, name.as_slice()),
    }
}

// The value that a kind takes of what stands at a name, where there is one.
fn taken<T>(read: Result<Option<T>, Flaw>) -> Result<Option<T>, NoMemory> {
    match read {
        Ok(value) => Ok(value),
        Err(Flaw::NoMemory) => Err(NoMemory),
        Err(_) => Ok(None),
    }
}

// A value that takes no memory.
fn plain(alloc: Global, form: &Form, word: &str, name: &[u8]) -> Result<Vec<u8>, NoMemory> {
    let text = match word {
        "amount" => format!(in alloc;
            "{:?}",
            taken(amount_at(form, name))?.map(|amount| amount.units())
        )?,
        "authentication" => format!(in alloc; "{:?}", taken(authentication_at(form, name))?)?,
        "cancellation reason" => format!(in alloc;
            "{:?}",
            taken(cancellation_reason_at(form, name))?
        )?,
        "capture method" => format!(in alloc; "{:?}", taken(capture_method_at(form, name))?)?,
        "currency" => format!(in alloc; "{:?}", taken(currency_at(form, name))?)?,
        "number" => format!(in alloc; "{:?}", taken(number_at(form, name))?)?,
        "refund reason" => format!(in alloc; "{:?}", taken(refund_reason_at(form, name))?)?,
        "truth" => format!(in alloc; "{:?}", taken(truth_at(form, name))?.unwrap_or(false))?,
        _ => return unknown(alloc),
    };
    Ok(text.into_bytes())
}

fn address(alloc: Global, form: &Form, name: &[u8]) -> Result<Vec<u8>, NoMemory> {
    match taken(address_at(alloc, form, name))? {
        Some(address) => parts(alloc, address),
        None => said(alloc, "none"),
    }
}

fn metadata(alloc: Global, form: &Form, name: &[u8]) -> Result<Vec<u8>, NoMemory> {
    let pairs = match taken(metadata_at(alloc, form, name))? {
        Some(Meta::Set(pairs)) => pairs,
        Some(Meta::Clear) => return said(alloc, "clear"),
        None => return said(alloc, "none"),
    };
    let mut out = Vec::new(alloc);
    for (key, text) in pairs.as_slice() {
        out.extend_from_slice(key.as_slice())?;
        out.push(b'=')?;
        out.extend_from_slice(text.as_slice())?;
        out.push(b';')?;
    }
    Ok(out)
}

fn method(alloc: Global, form: &Form, name: &[u8]) -> Result<Vec<u8>, NoMemory> {
    match taken(payment_method_at(alloc, form, name))? {
        Some(named) => Ok(format!(in alloc; "{:?}", named.method)?.into_bytes()),
        None => said(alloc, "none"),
    }
}

fn text(alloc: Global, form: &Form, name: &[u8]) -> Result<Vec<u8>, NoMemory> {
    match taken(id_at(alloc, form, name))? {
        Some(text) => Ok(text.into_vec()),
        None => said(alloc, "none"),
    }
}
