//! What a call comes to.
ghost use Rattle.std.specs.Prelude.{◌≡◌, ℕ, List, [], false, IfOk, IfSome, IsSome, None, Option, is_some, option_copied};
ghost use Rattle.ph_rows.specs.declared.rows.Row.{Row};
ghost use Rattle.ph_rows.specs.Batches.{BatchState, made_rows};
ghost use Rattle.ph_rows.specs.Names.{owned_named};
ghost use Rattle.ph_facts.specs.Outcomes.{Gives, Outcome};
ghost use Rattle.ph_idem.specs.declared.asked.Asked.{Asked};
ghost use Rattle.ph_views.specs.Balances.{balance_doc};
ghost use Rattle.std.specs.Option.{option_or};
ghost use Rattle.ph_intents.specs.Begun.{GivesBegun};
ghost use Rattle.ph_intents.specs.Capture.{capture_outcome};
ghost use Rattle.ph_book.specs.declared.setup.Setup.{Setup};
ghost use Rattle.ph_book.specs.Calls.{Keys, Makes, Shows, and_opened, authenticated, carried, clock_set, created, key_asked, payment_named, retrieved};
ghost use Rattle.ph_book.specs.Called.{Comes, HaveReplies, IsCalled, ServeKeys, saved_opening_of};
ghost use Rattle.ph_book.specs.ComesTo.{KeyedComesTo, OwnComesTo, RequestComesTo};
ghost use Rattle.ph_book.specs.History.{Effect};
ghost use Rattle.ph_book.specs.Keys.{asked_in, request_of};
ghost use Rattle.ph_book.specs.Replies.{Replies, Waits, doc_reply, error_reply, replayed_reply, shown_reply};

use crate::endings::is_parked;
use crate::judged::{Judged, judge};
use crate::replies::{doc_reply, error_reply, replayed_reply, shown_reply};
use crate::store::Store;
use ph_base::{Bytes, Kind, NoMemory};
use ph_calls::{Authenticate, Call, CaptureIntent, CreateIntent};
use ph_disputes::{close, evidence, open_due};
use ph_errors::{ApiError, Refusal};
use ph_http::{Raw, Reply};
use ph_idem::{Asked, Found, Records, Saved};
use ph_intents::{Begin, Begun, begin, cancel, capture, create, fail_authentication, update};
use ph_items::{Order, kind_number};
use ph_json::Doc;
use ph_kinds::Authentication;
use ph_refunds::refund;
use ph_rows::{Batch, Row, View, owned_named};
use ph_transfers::{refund_fee, reverse};
use ph_views::{balance_doc, clock_doc};
use std::alloc::Global;

/// What was carried out of a call.
#[derive(Drop)]
pub enum Carried {
    /// The batch was added to, and the object of this number is shown.
    Added(u64),
    /// The batch was added to, and the call waits for an order.
    Begun(Begun),
    /// This document is shown.
    Shown(Doc),
    /// The clock is set to this moment, in seconds since 1970.
    Set(u64),
}

/// A record that a call opens, with the reply to it.
#[derive(Drop, Debug)]
pub struct SavedOpening {
    pub asked: Asked,
    pub saved: Saved,
}

/// What a call comes to, with the rows that it makes.
#[derive(Drop, Debug)]
pub enum Called {
    /// It is answered by this reply.
    Answered {
        reply: Reply,
        rows: Vec<Row>,
        /// The time that it leaves, in seconds since 1970.
        now: u64,
        /// The record that it opens, where it opens one.
        opening: Option<SavedOpening>,
    },
    /// It waits until the acquirer has ruled on this order, and opens a record of what it asks, or none.
    Waiting(Order, Vec<Row>, Option<Asked>),
    /// It takes the attempt of this reference up again.
    Resuming(u64),
}

// The payment of an account whose printed id a text is, where charges are wanted.
fn payment_named<'a>(store: &'a Store, account: u64, wanted: Kind, id: &[u8]) -> Option<&'a Row>
    ensures { option_copied result ≡ payment_named store.now.rows account wanted id.now }
{
    if kind_number(wanted) == kind_number(Kind::Charge) {
        owned_named(store, account, Kind::Payment, id)
    } else {
        None
    }
}

// The object of a kind and an account whose printed id a text is; a payment is a charge too.
fn shown_named<'a>(store: &'a Store, account: u64, wanted: Kind, id: &[u8]) -> Option<&'a Row>
    ensures { option_copied result ≡ option_or (owned_named store.now.rows account wanted id.now) (payment_named store.now.rows account wanted id.now) }
{
    match owned_named(store, account, wanted, id) {
        Some(row) => Some(row),
        None => payment_named(store, account, wanted, id),
    }
}

// A retrieve by an account of the object of a kind whose id stands in the path.
fn retrieve(
    alloc: Global,
    store: &Store,
    account: u64,
    wanted: Kind,
    id: &[u8],
    batch: &Batch,
) -> Result<u64, Refusal>
    ensures { Gives (retrieved store.now.rows account wanted id.now batch.now) batch.now result batch.now }
{
    match shown_named(store, account, wanted, id) {
        Some(row) => Ok(row.object),
        None => Err(Refusal::of(ApiError::no_such_object(alloc, b"id"))),
    }
}

// A create, which may be confirmed at once.
fn make(
    alloc: Global,
    store: &Store,
    account: u64,
    call: &CreateIntent,
    batch: &mut Batch,
) -> Result<Carried, Refusal>
    ensures { Comes (Makes (created store.now.rows account call.now batch.old)) result batch.new }
{
    if call.confirm {
        begun(begin(alloc, store, account, &Begin::Create(call), batch))
    } else {
        added(create(alloc, store, account, call, batch))
    }
}

// A capture, and the dispute of what it captures, where one is due.
fn take(
    alloc: Global,
    store: &Store,
    account: u64,
    call: &CaptureIntent,
    batch: &mut Batch,
) -> Result<u64, Refusal>
    ensures { Gives (and_opened store.now.rows (capture_outcome store.now.rows account call.now batch.old)) batch.old result batch.new }
{
    match capture(alloc, store, account, call, batch) {
        Ok(object) => match open_due(alloc, store, object, batch) {
            Ok(()) => Ok(object),
            Err(NoMemory) => Err(Refusal::NoMemory),
        },
        Err(refusal) => Err(refusal),
    }
}

// An authentication, which succeeded or failed.
fn authenticate(
    alloc: Global,
    store: &Store,
    account: u64,
    call: &Authenticate,
    batch: &mut Batch,
) -> Result<Carried, Refusal>
    ensures { Comes (Makes (authenticated store.now.rows account call.now batch.old call.now.outcome)) result batch.new }
{
    match call.outcome {
        Authentication::Succeeded => begun(begin(
            alloc,
            store,
            account,
            &Begin::Authenticate(call),
            batch,
        )),
        Authentication::Failed => added(fail_authentication(alloc, store, account, call, batch)),
    }
}

// The balance of an account.
fn balance(alloc: Global, store: &Store, account: u64) -> Result<Carried, Refusal>
    ensures { (batch : BatchState) → Comes (Shows (balance_doc account store.now.time store.now.rows)) result batch }
{
    match balance_doc(alloc, store, account) {
        Ok(doc) => Ok(Carried::Shown(doc)),
        Err(NoMemory) => Err(Refusal::NoMemory),
    }
}

// The setting of the clock to a moment, which is not before the time.
fn set_clock(alloc: Global, now: u64, moment: u64) -> Result<Carried, Refusal>
    ensures { (batch : BatchState) → Comes (clock_set now moment) result batch }
{
    if moment < now {
        Err(Refusal::of(ApiError::clock_backwards(alloc)))
    } else {
        Ok(Carried::Set(moment))
    }
}

// What an operation carried out.
fn added(given: Result<u64, Refusal>) -> Result<Carried, Refusal>
    ensures { (outcome : Outcome) (old batch : BatchState) → Gives outcome old given batch → Comes (Makes outcome) result batch }
{
    match given {
        Ok(object) => Ok(Carried::Added(object)),
        Err(refusal) => Err(refusal),
    }
}

// What an operation that begins an attempt carried out.
fn begun(given: Result<Begun, Refusal>) -> Result<Carried, Refusal>
    ensures { (outcome : Outcome) (old batch : BatchState) → GivesBegun outcome old given batch → Comes (Makes outcome) result batch }
{
    match given {
        Ok(begun) => Ok(Carried::Begun(begun)),
        Err(refusal) => Err(refusal),
    }
}

// Carries a call of an account out: one arm for each row of the table of calls.
fn carry(
    alloc: Global,
    store: &Store,
    account: u64,
    call: &Call,
    batch: &mut Batch,
) -> Result<Carried, Refusal>
    ensures { Comes (carried store.now.rows account store.now.time call.now batch.old) result batch.new }
{
    match call {
        Call::CreateIntent(call) => make(alloc, store, account, call, batch),
        Call::UpdateIntent(call) => added(update(alloc, store, account, call, batch)),
        Call::ConfirmIntent(call) => {
            begun(begin(alloc, store, account, &Begin::Confirm(call), batch))
        }
        Call::CaptureIntent(call) => added(take(alloc, store, account, call, batch)),
        Call::CancelIntent(call) => added(cancel(alloc, store, account, call, batch)),
        Call::CreateRefund(call) => added(refund(alloc, store, account, call, batch)),
        Call::CreateTransfer(call) => {
            added(ph_transfers::create(alloc, store, account, call, batch))
        }
        Call::ReverseTransfer(call) => added(reverse(alloc, store, account, call, batch)),
        Call::RefundFee(call) => added(refund_fee(alloc, store, account, call, batch)),
        Call::SendEvidence(call) => added(evidence(alloc, store, account, call, batch)),
        Call::CloseDispute(call) => added(close(alloc, store, account, call, batch)),
        Call::CreateAccount(call) => {
            added(ph_accounts::create(alloc, store, account, call, batch))
        }
        Call::Retrieve(call) => {
            added(retrieve(alloc, store, account, call.kind, call.id.as_slice(), batch))
        }
        Call::GetBalance(_) => balance(alloc, store, account),
        Call::SetClock(call) => set_clock(alloc, store.time(), call.now),
        Call::Authenticate(call) => authenticate(alloc, store, account, call, batch),
    }
}

// The record that a call opens to which this is replied, where it opens one.
fn opened(
    alloc: Global,
    asked: Option<Asked>,
    reply: &Reply,
) -> Result<Option<SavedOpening>, NoMemory>
    ensures { IfOk result (λ opening. opening ≡ saved_opening_of asked reply.now) }
{
    match asked {
        Some(asked) => Ok(Some(SavedOpening {
            asked,
            saved: Saved {
                status: reply.status,
                body: reply.body.copy(alloc)?,
            },
        })),
        None => Ok(None),
    }
}

// The key under which a call is made.
fn key_in(asked: &Option<Asked>) -> Option<&Bytes>
    ensures { option_copied result ≡ key_asked asked.now }
{
    match asked {
        Some(asked) => Some(&asked.key),
        None => None,
    }
}

// An accepted call, which shows an object.
fn shown(
    alloc: Global,
    store: &Store,
    object: u64,
    batch: Batch,
    asked: Option<Asked>,
) -> Result<Called, NoMemory>
    ensures { (effect : Effect) (place caller : ℕ) → effect.said ≡ Replies (shown_reply store.now.time store.now.rows object batch)
        → effect.saves ≡ is_some asked → effect.rows ≡ made_rows (key_asked asked) batch → effect.now ≡ store.now.time
        → IfOk result (λ called. IsCalled store.now.rows store.now.time place caller asked asked effect called) }
{
    let reply = shown_reply(alloc, store, object, &batch)?;
    let rows = batch.into_rows(alloc, key_in(&asked))?;
    let opening = opened(alloc, asked, &reply)?;
    Ok(Called::Answered {
        reply,
        rows,
        now: store.time(),
        opening,
    })
}

// An accepted call, which waits for an order.
fn waiting(
    alloc: Global,
    order: Order,
    batch: Batch,
    asked: Option<Asked>,
) -> Result<Called, NoMemory>
    ensures { (rows : List Row) (now place caller : ℕ) (effect : Effect) → effect.said ≡ Waits order
        → effect.saves ≡ is_some asked → effect.rows ≡ made_rows (key_asked asked) batch → effect.now ≡ now
        → IfOk result (λ called. IsCalled rows now place caller asked asked effect called) }
{
    let rows = batch.into_rows(alloc, key_in(&asked))?;
    Ok(Called::Waiting(order, rows, asked))
}

// A call that shows a document, and leaves this time.
fn answered(alloc: Global, doc: &Doc, now: u64, asked: Option<Asked>) -> Result<Called, NoMemory>
    ensures { (rows : List Row) (time place caller : ℕ) (of : Option Asked) (effect : Effect) → effect.said ≡ Replies (doc_reply doc.now)
        → effect.saves ≡ is_some asked → effect.rows ≡ [] → effect.now ≡ now
        → IfOk result (λ called. IsCalled rows time place caller of asked effect called) }
{
    let reply = doc_reply(alloc, doc)?;
    let opening = opened(alloc, asked, &reply)?;
    Ok(Called::Answered {
        reply,
        rows: Vec::new(alloc),
        now,
        opening,
    })
}

// A request that is refused, which leaves this time.
fn refused(
    alloc: Global,
    error: &ApiError,
    now: u64,
    asked: Option<Asked>,
) -> Result<Called, NoMemory>
    ensures { (rows : List Row) (time place caller : ℕ) (of : Option Asked) (effect : Effect) → effect.said ≡ Replies (error_reply error.now)
        → effect.saves ≡ is_some asked → effect.rows ≡ [] → effect.now ≡ now
        → IfOk result (λ called. IsCalled rows time place caller of asked effect called) }
{
    let reply = error_reply(alloc, error, None)?;
    let opening = opened(alloc, asked, &reply)?;
    Ok(Called::Answered {
        reply,
        rows: Vec::new(alloc),
        now,
        opening,
    })
}

// What a call of an account comes to by itself as the entry of a place: it opens a record of what it asks, where it is
// handed that.
fn made(
    alloc: Global,
    store: &Store,
    account: u64,
    place: u64,
    call: &Call,
    asked: Option<Asked>,
) -> Result<Called, NoMemory>
    ensures { (caller : ℕ) → IfOk result (λ called. OwnComesTo store.now.rows account store.now.time place caller call.now asked called) }
{
    let mut batch = Batch::new(alloc, store.rows().len() as u64, store.time(), place);
    match carry(alloc, store, account, call, &mut batch) {
        Ok(Carried::Added(object)) => shown(alloc, store, object, batch, asked),
        Ok(Carried::Begun(begun)) => waiting(alloc, begun.order, batch, asked),
        Ok(Carried::Shown(doc)) => answered(alloc, &doc, store.time(), asked),
        Ok(Carried::Set(moment)) => answered(alloc, &clock_doc(alloc, moment)?, moment, asked),
        Err(Refusal::Api(error)) => refused(alloc, &error, store.time(), asked),
        Err(Refusal::NoMemory) => Err(NoMemory),
    }
}

// A reply that was saved, given once more.
fn replayed(alloc: Global, store: &Store, saved: Option<&Saved>) -> Result<Called, NoMemory>
    requires there { IsSome (option_copied saved) }
    ensures { (rows : List Row) (time place caller : ℕ) (of : Option Asked) (effect : Effect)
        → IfSome (option_copied saved.entry) (λ reply. effect.said ≡ Replies (replayed_reply reply))
        → effect.saves ≡ false → effect.rows ≡ [] → effect.now ≡ store.now.time
        → IfOk result (λ called. IsCalled rows time place caller of None effect called) }
{
    match saved {
        Some(saved) => {
            let reply = replayed_reply(alloc, saved)?;
            Ok(Called::Answered {
                reply,
                rows: Vec::new(alloc),
                now: store.time(),
                opening: None,
            })
        }
        None => unreachable!(),
    }
}

// What a call of an account comes to that asks this under a key, as the entry of a place.
fn keyed(
    alloc: Global,
    store: &Store,
    records: &Records,
    account: u64,
    place: u64,
    call: &Call,
    asked: Asked,
) -> Result<Called, NoMemory>
    requires replies { HaveReplies store.now.time records.now }
    ensures { (keys : Keys) (caller : ℕ) → ServeKeys keys store.now.rows store.now.time records.now
        → IfOk result (λ called. KeyedComesTo keys store.now.rows account store.now.time place caller call.now asked called) }
{
    let now = store.time();
    match records.find(asked.account, asked.key.as_slice(), &asked.shape, now) {
        Found::Fresh => made(alloc, store, account, place, call, Some(asked)),
        Found::Differs => refused(alloc, &ApiError::key_differs(alloc)?, now, None),
        Found::Begun(reference) => {
            if is_parked(store, reference) {
                Ok(Called::Resuming(reference))
            } else {
                refused(alloc, &ApiError::key_in_use(alloc)?, now, None)
            }
        }
        Found::Saved(entry) => replayed(alloc, store, records.saved(entry)),
    }
}

/// What a request comes to over the rows of a store and the records of keys, as the entry of a place, where this is the
/// key of the setup.
pub fn called_by(
    alloc: Global,
    key: &Bytes,
    store: &Store,
    records: &Records,
    place: u64,
    raw: &Raw,
) -> Result<Called, NoMemory>
    requires replies { HaveReplies store.now.time records.now }
    ensures { (setup : Setup) (keys : Keys) (caller : ℕ) → setup.key ≡ key.now → ServeKeys keys store.now.rows store.now.time records.now
        → IfOk result (λ called. RequestComesTo setup keys store.now.rows store.now.time place caller raw.now (asked_in (request_of key.now store.now.rows raw.now)) called) }
{
    match judge(alloc, key, store, raw)? {
        Judged::Refused(error) => refused(alloc, &error, store.time(), None),
        Judged::Accepted(account, call, asked) => match asked {
            None => made(alloc, store, account, place, &call, None),
            Some(asked) => keyed(alloc, store, records, account, place, &call, asked),
        },
    }
}
