//! Documents that no request reads: accounts, events and attempts.

ghost use Rattle.ph_book.specs.Tickets.{Holds};

use super::books::{opened, park};
use ph_attempts::Ticket;
use ph_base::{Bytes, NoMemory, Ruling};
use ph_book::{Act, Answer, Book};
use ph_http::Raw;
use ph_items::{Account, AccountType, Event, EventKind, Item, Metadata};
use ph_json::text;
use ph_rows::{Row, View};
use ph_views::{balance_doc, item_text};
use std::alloc::Global;
use std::process::Abort;

const OPENED: u64 = 1_700_000_000;

const PLATFORM: &str =
    "{\"charges_enabled\":true,\"created\":1700000000,\"email\":null,\"id\":\"acct_0000000000000001\",\"metadata\":{},\"object\":\"account\",\"payouts_enabled\":true,\"type\":\"standard\"}";

const CONNECTED: &str =
    "{\"charges_enabled\":true,\"created\":1700000200,\"email\":\"shop@example.com\",\"id\":\"acct_0000000000000006\",\"metadata\":{\"a\":\"1\"},\"object\":\"account\",\"payouts_enabled\":true,\"type\":\"express\"}";

const EVENT_CREATED: &str =
    "{\"created\":1700000000,\"data\":{\"object\":{\"amount\":2000,\"amount_capturable\":0,\"amount_received\":0,\"application_fee_amount\":null,\"cancellation_reason\":null,\"capture_method\":\"automatic\",\"client_secret\":\"pi_0000000000000002_secret_payhost\",\"created\":1700000000,\"currency\":\"usd\",\"description\":null,\"id\":\"pi_0000000000000002\",\"last_payment_error\":null,\"latest_charge\":null,\"livemode\":false,\"metadata\":{},\"next_action\":null,\"object\":\"payment_intent\",\"payment_method\":null,\"status\":\"requires_payment_method\",\"transfer_data\":null,\"transfer_group\":null}},\"id\":\"evt_0000000000000003\",\"livemode\":false,\"object\":\"event\",\"pending_webhooks\":0,\"request\":{\"id\":null,\"idempotency_key\":null},\"type\":\"payment_intent.created\"}";

const EVENT_CANCELED: &str =
    "{\"created\":1700000100,\"data\":{\"object\":{\"amount\":2000,\"amount_capturable\":0,\"amount_received\":0,\"application_fee_amount\":null,\"cancellation_reason\":\"duplicate\",\"capture_method\":\"automatic\",\"client_secret\":\"pi_0000000000000002_secret_payhost\",\"created\":1700000000,\"currency\":\"usd\",\"description\":null,\"id\":\"pi_0000000000000002\",\"last_payment_error\":null,\"latest_charge\":null,\"livemode\":false,\"metadata\":{},\"next_action\":null,\"object\":\"payment_intent\",\"payment_method\":null,\"status\":\"canceled\",\"transfer_data\":null,\"transfer_group\":null}},\"id\":\"evt_0000000000000005\",\"livemode\":false,\"object\":\"event\",\"pending_webhooks\":0,\"request\":{\"id\":null,\"idempotency_key\":\"k\\\"9\"},\"type\":\"payment_intent.canceled\"}";

const EVENT_CONNECTED: &str =
    "{\"account\":\"acct_0000000000000006\",\"created\":1700000300,\"data\":{\"object\":{\"amount\":2000,\"amount_capturable\":0,\"amount_received\":0,\"application_fee_amount\":null,\"cancellation_reason\":null,\"capture_method\":\"automatic\",\"client_secret\":\"pi_0000000000000007_secret_payhost\",\"created\":1700000300,\"currency\":\"usd\",\"description\":null,\"id\":\"pi_0000000000000007\",\"last_payment_error\":null,\"latest_charge\":null,\"livemode\":false,\"metadata\":{},\"next_action\":null,\"object\":\"payment_intent\",\"payment_method\":null,\"status\":\"requires_payment_method\",\"transfer_data\":null,\"transfer_group\":null}},\"id\":\"evt_0000000000000008\",\"livemode\":false,\"object\":\"event\",\"pending_webhooks\":0,\"request\":{\"id\":null,\"idempotency_key\":null},\"type\":\"payment_intent.created\"}";

const EVENT_CHARGED: &str =
    "{\"created\":1700000100,\"data\":{\"object\":{\"amount\":1099,\"amount_captured\":1099,\"amount_refunded\":0,\"application_fee\":null,\"application_fee_amount\":null,\"balance_transaction\":\"txn_0000000000000008\",\"captured\":true,\"created\":1700000100,\"currency\":\"usd\",\"description\":\"Order 7\",\"disputed\":false,\"failure_code\":null,\"id\":\"ch_0000000000000007\",\"livemode\":false,\"metadata\":{\"order\":\"7\"},\"object\":\"charge\",\"paid\":true,\"payment_intent\":\"pi_0000000000000002\",\"payment_method\":\"pm_card_visa\",\"refunded\":false,\"source_transfer\":null,\"status\":\"succeeded\",\"transfer\":null,\"transfer_group\":null}},\"id\":\"evt_0000000000000010\",\"livemode\":false,\"object\":\"event\",\"pending_webhooks\":0,\"request\":{\"id\":null,\"idempotency_key\":null},\"type\":\"charge.succeeded\"}";

const EVENT_TRANSFERRED: &str =
    "{\"created\":1700000000,\"data\":{\"object\":{\"amount\":1000,\"amount_reversed\":0,\"balance_transaction\":\"txn_0000000000000013\",\"created\":1700000000,\"currency\":\"usd\",\"description\":\"Order 7\",\"destination\":\"acct_0000000000000002\",\"destination_payment\":\"py_0000000000000014\",\"id\":\"tr_0000000000000012\",\"livemode\":false,\"metadata\":{\"order\":\"7\"},\"object\":\"transfer\",\"reversed\":false,\"source_transaction\":null,\"transfer_group\":null}},\"id\":\"evt_0000000000000016\",\"livemode\":false,\"object\":\"event\",\"pending_webhooks\":0,\"request\":{\"id\":null,\"idempotency_key\":null},\"type\":\"transfer.created\"}";

const EVENT_REVERSED: &str =
    "{\"created\":1700000000,\"data\":{\"object\":{\"amount\":1000,\"amount_reversed\":400,\"balance_transaction\":\"txn_0000000000000013\",\"created\":1700000000,\"currency\":\"usd\",\"description\":\"Order 7\",\"destination\":\"acct_0000000000000002\",\"destination_payment\":\"py_0000000000000014\",\"id\":\"tr_0000000000000012\",\"livemode\":false,\"metadata\":{\"order\":\"7\"},\"object\":\"transfer\",\"reversed\":false,\"source_transaction\":null,\"transfer_group\":null}},\"id\":\"evt_0000000000000021\",\"livemode\":false,\"object\":\"event\",\"pending_webhooks\":0,\"request\":{\"id\":null,\"idempotency_key\":null},\"type\":\"transfer.reversed\"}";

const EVENT_GIVEN_BACK: &str =
    "{\"created\":1700000000,\"data\":{\"object\":{\"account\":\"acct_0000000000000002\",\"amount\":100,\"amount_refunded\":100,\"balance_transaction\":\"txn_0000000000000033\",\"charge\":\"ch_0000000000000026\",\"created\":1700000000,\"currency\":\"usd\",\"id\":\"fee_0000000000000032\",\"livemode\":false,\"object\":\"application_fee\",\"refunded\":true}},\"id\":\"evt_0000000000000043\",\"livemode\":false,\"object\":\"event\",\"pending_webhooks\":0,\"request\":{\"id\":null,\"idempotency_key\":null},\"type\":\"application_fee.refunded\"}";

const BALANCE_NONE: &str =
    "{\"available\":[{\"amount\":0,\"currency\":\"usd\"}],\"livemode\":false,\"object\":\"balance\",\"pending\":[{\"amount\":0,\"currency\":\"usd\"}]}";

// The requests of a history, each a path and a body.
type Requests = &'static [(&'static [u8], &'static [u8])];

// The intent 2 is created and canceled; the intent 7 is created.
const CANCELED: Requests = &[
    (b"/v1/payment_intents", b"amount=2000&currency=usd"),
    (b"/_host/clock", b"now=1700000100"),
    (
        b"/v1/payment_intents/pi_0000000000000002/cancel",
        b"cancellation_reason=duplicate",
    ),
    (b"/v1/payment_intents/pi_0000000000000002", b"description=x"),
    (b"/_host/clock", b"now=1700000300"),
    (b"/v1/payment_intents", b"amount=2000&currency=usd"),
];

// The intent 2 is created, and paid 100 seconds later.
const PAID: Requests = &[
    (
        b"/v1/payment_intents",
        b"amount=1099&currency=usd&description=Order 7&metadata[order]=7",
    ),
    (b"/_host/clock", b"now=1700000100"),
    (
        b"/v1/payment_intents/pi_0000000000000002/confirm",
        b"payment_method=pm_card_visa",
    ),
];

// The platform transfers 1000 to the account 2 and takes 400 back, and gives back what it took of a charge for that
// account.
const CAME_BACK: Requests = &[
    (b"/v1/accounts", b""),
    (
        b"/v1/payment_intents",
        b"amount=2000&currency=usd&payment_method=pm_card_bypassPending&confirm=true",
    ),
    (
        b"/v1/transfers",
        b"amount=1000&currency=usd&destination=acct_0000000000000002&description=Order 7&metadata[order]=7",
    ),
    (
        b"/v1/transfers/tr_0000000000000012/reversals",
        b"amount=400",
    ),
    (
        b"/v1/payment_intents",
        b"amount=2000&currency=usd&payment_method=pm_card_visa&confirm=true&transfer_data[destination]=acct_0000000000000002&application_fee_amount=100",
    ),
    (b"/v1/application_fees/fee_0000000000000032/refunds", b""),
];

fn request(alloc: Global, path: &[u8], body: &[u8]) -> Result<Raw, NoMemory> {
    Ok(Raw {
        method: Bytes::from_slice(alloc, b"POST")?,
        path: Bytes::from_slice(alloc, path)?,
        query: None,
        auth: Some(Bytes::from_slice(alloc, b"sk_test_payhost")?),
        key: None,
        account: None,
        body: Bytes::from_slice(alloc, body)?,
        close: false,
    })
}

// Enters an approval of a run.
fn approve(book: &mut Book, ticket: Ticket)
    requires held { Holds book.old.setup book.old.history 0 ticket }
{
    match book.apply(0, Act::Finish(ticket, Ruling::Approved)) {
        Ok(Answer::Reply(_)) => {}
        Err((Act::Finish(ticket, _), _)) => park(book, ticket),
        _ => unreachable!(),
    }
}

// Enters a request, and an approval where it waits for one.
fn enter(rt: &impl Abort, alloc: Global, book: &mut Book, path: &[u8], body: &[u8]) {
    let raw = request(alloc, path, body).expect(rt, "a request");
    match book.apply(0, Act::Call(raw)) {
        Ok(Answer::Reply(_)) => {}
        Ok(Answer::Wait(ticket)) => approve(book, ticket),
        Ok(Answer::Done) => unreachable!(),
        Err((Act::Call(_), _)) => assert!(rt; false),
        Err(_) => unreachable!(),
    }
}

// A book in which these requests were entered.
fn entered(rt: &impl Abort, alloc: Global, requests: Requests) -> Book {
    let mut book = opened(alloc).expect(rt, "a book");
    for (path, body) in requests {
        enter(rt, alloc, &mut book, path, body);
    }
    book
}

// The row of a place of the book has this text.
fn prints(rt: &impl Abort, alloc: Global, book: &Book, place: u64, expected: &str) {
    let row = book.row(place).expect(rt, "a row");
    prints_row(rt, alloc, book, row, expected);
}

// A row over those of the book has this text.
fn prints_row(rt: &impl Abort, alloc: Global, book: &Book, row: &Row, expected: &str) {
    let written = item_text(alloc, book, row).expect(rt, "a text");
    assert_eq!(rt; written.as_slice(), expected.as_bytes());
}

// A new row of an account has this text, over those of the book.
fn prints_new(
    rt: &impl Abort,
    alloc: Global,
    book: &Book,
    place: u64,
    at: u64,
    account: u64,
    item: Item,
    expected: &str,
) {
    let row = Row {
        place,
        object: place,
        at,
        account,
        item,
    };
    prints_row(rt, alloc, book, &row, expected);
}

fn event(sort: EventKind, object: u64, key: Option<Bytes>) -> Item {
    Item::Event(Event { sort, object, key })
}

fn connected(alloc: Global) -> Result<Account, NoMemory> {
    let mut metadata = Metadata::new(alloc);
    metadata.set(
        Bytes::from_slice(alloc, b"a")?,
        Bytes::from_slice(alloc, b"1")?,
    )?;
    Ok(Account {
        sort: AccountType::Express,
        email: Some(Bytes::from_slice(alloc, b"shop@example.com")?),
        metadata,
    })
}

// The platform's account, and one that is connected.
#[test]
fn accounts(rt: HostRuntime) {
    let alloc = rt.alloc();
    let book = entered(&rt, alloc, &[]);
    prints(&rt, alloc, &book, 1, PLATFORM);
    let account = connected(alloc).expect(&rt, "an account");
    prints_new(
        &rt,
        alloc,
        &book,
        6,
        OPENED + 200,
        6,
        Item::Account(account),
        CONNECTED,
    );
}

// The event of the creation prints the intent as it was created, though it is canceled by now.
#[test]
fn events_print_what_their_own_entry_left(rt: HostRuntime) {
    let alloc = rt.alloc();
    let book = entered(&rt, alloc, CANCELED);
    prints(&rt, alloc, &book, 3, EVENT_CREATED);
    let key = Bytes::from_slice(alloc, b"k\"9").expect(&rt, "a key");
    let canceled = event(EventKind::IntentCanceled, 2, Some(key));
    prints_new(
        &rt,
        alloc,
        &book,
        5,
        OPENED + 100,
        1,
        canceled,
        EVENT_CANCELED,
    );
    let created = event(EventKind::IntentCreated, 7, None);
    prints_new(
        &rt,
        alloc,
        &book,
        8,
        OPENED + 300,
        6,
        created,
        EVENT_CONNECTED,
    );
}

// The event of a transfer's creation prints it as it was created, though a part of it came back by now; the events of
// what came back print what is left of it.
#[test]
fn events_of_what_came_back(rt: HostRuntime) {
    let alloc = rt.alloc();
    let book = entered(&rt, alloc, CAME_BACK);
    prints(&rt, alloc, &book, 16, EVENT_TRANSFERRED);
    prints(&rt, alloc, &book, 21, EVENT_REVERSED);
    prints(&rt, alloc, &book, 43, EVENT_GIVEN_BACK);
}

// The event of a charge; an attempt has no document; another account has no transactions.
#[test]
fn what_a_payment_leaves(rt: HostRuntime) {
    let alloc = rt.alloc();
    let book = entered(&rt, alloc, PAID);
    prints(&rt, alloc, &book, 5, "null");
    prints(&rt, alloc, &book, 10, EVENT_CHARGED);
    has_no_transactions(&rt, alloc, &book, 6);
}

fn has_no_transactions(rt: &impl Abort, alloc: Global, book: &Book, account: u64) {
    let doc = balance_doc(alloc, book, account).expect(rt, "a balance");
    let written = text(alloc, &doc).expect(rt, "a text");
    assert_eq!(rt; written.as_slice(), BALANCE_NONE.as_bytes());
}
