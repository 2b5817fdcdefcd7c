//! Rows that calls and rulings add to a view, for any account.

use ph_base::{Bytes, NoMemory, Ruling};
use ph_calls::{Authentication, Call, read_call};
use ph_disputes::close;
use ph_errors::Refusal;
use ph_http::Raw;
use ph_intents::{
    Begin, Begun, begin, cancel, capture, create, fail_authentication, settle, update,
};
use ph_items::{Account, AccountType, Charge, Intent, Item, Metadata, PLATFORM};
use ph_rows::{Batch, ListView, Row, View};
use std::alloc::Global;
use std::process::Abort;

pub const OPENED: u64 = 1700000000;

/// The create of 2000 usd.
pub const CREATE: &str = "amount=2000&currency=usd";

/// A view of the platform's account alone.
pub fn platform(alloc: Global) -> Result<ListView, NoMemory> {
    let mut view = ListView::new(alloc, OPENED);
    view.push(Row {
        place: 1,
        object: 1,
        at: OPENED,
        account: 1,
        item: Item::Account(Account {
            sort: AccountType::Standard,
            email: None,
            metadata: Metadata::new(alloc),
        }),
    })?;
    Ok(view)
}

/// The batch of an entry after the rows of a view.
pub fn batch_after(alloc: Global, view: &ListView) -> Batch {
    Batch::new(alloc, view.rows().len() as u64, view.time(), 5)
}

/// Enters the rows of a batch behind those of the view.
pub fn enter(alloc: Global, view: &mut ListView, batch: Batch) -> Result<(), NoMemory> {
    let rows = batch.into_rows(alloc, None)?;
    view.reserve(rows.len())?;
    view.append_reserved(rows);
    Ok(())
}

// A request to a path with a body.
fn request(alloc: Global, path: &str, body: &str) -> Result<Raw, NoMemory> {
    Ok(Raw {
        method: Bytes::from_slice(alloc, b"POST")?,
        path: Bytes::from_slice(alloc, path.as_bytes())?,
        query: None,
        auth: None,
        key: None,
        account: None,
        body: Bytes::from_slice(alloc, body.as_bytes())?,
        close: false,
    })
}

/// The call that is sent to a path with a body.
pub fn call_of(alloc: Global, path: &str, body: &str) -> Result<Call, NoMemory> {
    let raw = request(alloc, path, body)?;
    match read_call(alloc, PLATFORM, &raw) {
        Ok(request) => Ok(request.call),
        Err(_) => Err(NoMemory),
    }
}

// The payment intent that a call which begins an attempt shows.
fn shown(begun: Result<Begun, Refusal>) -> Result<u64, Refusal> {
    Ok(begun?.object)
}

// Adds what a call of an account adds.
fn add(
    alloc: Global,
    view: &ListView,
    account: u64,
    call: &Call,
    batch: &mut Batch,
) -> Result<u64, Refusal> {
    match call {
        Call::CreateIntent(call) if call.confirm => {
            shown(begin(alloc, view, account, &Begin::Create(call), batch))
        }
        Call::CreateIntent(call) => create(alloc, view, account, call, batch),
        Call::UpdateIntent(call) => update(alloc, view, account, call, batch),
        Call::ConfirmIntent(call) => {
            shown(begin(alloc, view, account, &Begin::Confirm(call), batch))
        }
        Call::CaptureIntent(call) => capture(alloc, view, account, call, batch),
        Call::CancelIntent(call) => cancel(alloc, view, account, call, batch),
        Call::Authenticate(call) if call.outcome == Authentication::Succeeded => {
            shown(begin(alloc, view, account, &Begin::Authenticate(call), batch))
        }
        Call::Authenticate(call) => fail_authentication(alloc, view, account, call, batch),
        Call::CloseDispute(call) => close(alloc, view, account, call, batch),
        _ => Err(Refusal::NoMemory),
    }
}

// The object's number, or the status of an error.
fn number_or_status(added: Result<u64, Refusal>) -> Result<Result<u64, u16>, NoMemory> {
    match added {
        Ok(object) => Ok(Ok(object)),
        Err(Refusal::Api(error)) => Ok(Err(error.status)),
        Err(Refusal::NoMemory) => Err(NoMemory),
    }
}

// What a call of an account, sent to a path with a body, adds to a batch: the object's number, or the status of its error.
fn added(
    alloc: Global,
    view: &ListView,
    account: u64,
    path: &str,
    body: &str,
    batch: &mut Batch,
) -> Result<Result<u64, u16>, NoMemory> {
    let call = call_of(alloc, path, body)?;
    number_or_status(add(alloc, view, account, &call, batch))
}

/// What a call of an account comes to: the object's number, whose rows are entered, or the status of its error.
pub fn come(
    alloc: Global,
    view: &mut ListView,
    account: u64,
    path: &str,
    body: &str,
) -> Result<Result<u64, u16>, NoMemory> {
    let mut batch = batch_after(alloc, view);
    let came = added(alloc, view, account, path, body, &mut batch)?;
    if came.is_ok() {
        enter(alloc, view, batch)?;
    }
    Ok(came)
}

/// A call of an account comes to this.
pub fn comes_to(
    rt: &impl Abort,
    alloc: Global,
    view: &mut ListView,
    account: u64,
    path: &str,
    body: &str,
    want: Result<u64, u16>,
) {
    match come(alloc, view, account, path, body) {
        Ok(came) => assert!(rt; came == want, "{path}"),
        Err(NoMemory) => assert!(rt; false, "{path}"),
    }
}

/// Enters a ruling on the attempt of a number: the object's number, or 0.
pub fn rule(
    alloc: Global,
    view: &mut ListView,
    attempt: u64,
    ruling: Ruling,
) -> Result<u64, NoMemory> {
    let mut batch = batch_after(alloc, view);
    let object = settle(alloc, view, attempt, ruling, &mut batch)?;
    enter(alloc, view, batch)?;
    Ok(object)
}

/// A view in which an account has paid the payment intent 2 of 2000 usd: the attempt 3, the charge 6 and its transaction
/// 7, with no dispute, whatever the payment method. The capture method is the one named.
pub fn paid(
    alloc: Global,
    account: u64,
    method: &str,
    capture_method: &str,
) -> Result<ListView, NoMemory> {
    let mut view = platform(alloc)?;
    let body = format!(in alloc;
        "{CREATE}&payment_method={method}&capture_method={capture_method}&confirm=true"
    )?;
    match come(
        alloc,
        &mut view,
        account,
        "/v1/payment_intents",
        body.as_str(),
    )? {
        Ok(_) => {}
        Err(_) => return Err(NoMemory),
    }
    rule(alloc, &mut view, 3, Ruling::Approved)?;
    Ok(view)
}

/// The last version of a charge.
pub fn charge_in(alloc: Global, view: &ListView, number: u64) -> Result<Charge, NoMemory> {
    match view.latest(number) {
        Some(row) => match row.item.charge() {
            Some(charge) => charge.copy(alloc),
            None => Err(NoMemory),
        },
        None => Err(NoMemory),
    }
}

/// The last version of a payment intent.
pub fn intent_in(alloc: Global, view: &ListView, number: u64) -> Result<Intent, NoMemory> {
    match view.latest(number) {
        Some(row) => match row.item.intent() {
            Some(intent) => intent.copy(alloc),
            None => Err(NoMemory),
        },
        None => Err(NoMemory),
    }
}

/// The place of a row.
pub fn place_of(row: Option<&Row>) -> Option<u64> {
    row.map(|row| row.place)
}
