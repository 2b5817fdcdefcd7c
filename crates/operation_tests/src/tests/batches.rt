//! Batches, with an event that keeps a key, and what rows weigh.

use super::rows::{OPENED, batch_after, charge_in, intent_in, paid, place_of};
use ph_base::{Bytes, NoMemory};
use ph_items::{EventKind, Item};
use ph_rows::{Batch, Row, version_with, weight_with_rows};
use std::alloc::Global;
use std::process::Abort;
use std::test::Fail;

// After eight rows: a payment intent of account 2 is made and changed, and its event stands behind both rows.
fn made(alloc: Global) -> Result<Batch, NoMemory> {
    let view = paid(alloc, 2, "pm_card_visa", "automatic")?;
    let mut batch = Batch::new(alloc, 8, OPENED, 5);
    let object = batch.add(2, Item::Intent(intent_in(alloc, &view, 2)?))?;
    batch.announce(EventKind::IntentCreated, object)?;
    batch.change(object, 2, Item::Intent(intent_in(alloc, &view, 2)?))?;
    Ok(batch)
}

#[test]
fn a_batch_of_an_intent(rt: HostRuntime) -> Result<(), Fail> {
    let batch = made(rt.alloc())?;
    assert_eq!(rt; batch.count(), 10);
    assert_eq!(rt; batch.entry(), 5);
    assert_eq!(rt; batch.at(), OPENED);
    assert_eq!(rt; place_of(batch.latest(9)), Some(10));
    assert_eq!(rt; place_of(batch.latest(8)), None);
    Ok(())
}

// The row is the eleventh, of account 2: the event that the payment intent 9 was created by the request with the key k9.
fn is_event(rt: &impl Abort, row: &Row) {
    assert_eq!(rt;
        (row.place, row.object, row.at, row.account),
        (11, 11, OPENED, 2)
    );
    match &row.item {
        Item::Event(event) => {
            assert_eq!(rt; (event.sort, event.object), (EventKind::IntentCreated, 9));
            assert!(rt; matches!(&event.key, Some(key) if key.as_slice() == b"k9".as_slice()));
        }
        _ => assert!(rt; false, "an event"),
    }
}

// The rows of that batch, with the key k9.
fn keyed(alloc: Global) -> Result<Vec<Row>, NoMemory> {
    let batch = made(alloc)?;
    let key = Bytes::from_slice(alloc, b"k9")?;
    batch.into_rows(alloc, Some(&key))
}

// An event weighs 256 and its key; a payment intent by `pm_card_visa` 268. What comes to 2^64 or more has no weight.
#[test]
fn an_event_with_a_key(rt: HostRuntime) -> Result<(), Fail> {
    let rows = keyed(rt.alloc())?;
    assert_eq!(rt; rows.len(), 3);
    is_event(&rt, &rows[2]);
    assert_eq!(rt; rows[0].weight(), Some(268));
    assert_eq!(rt; rows[2].weight(), Some(258));
    let all = rows.as_slice();
    assert_eq!(rt; weight_with_rows(1000, all), Some(1794));
    assert_eq!(rt; weight_with_rows(u64::MAX - 793, all), None);
    assert_eq!(rt; weight_with_rows(u64::MAX - 794, all), Some(u64::MAX));
    Ok(())
}

// A word that no call prints yet.
#[test]
fn words_that_are_printed(rt: HostRuntime) {
    assert_eq!(rt;
        EventKind::FeeRefunded.text(),
        b"application_fee.refunded".as_slice()
    );
}

// The version of an object is looked for in the batch, and then in the view; an item is a version of one kind.
#[test]
fn versions_in_a_batch_and_a_view(rt: HostRuntime) -> Result<(), Fail> {
    let alloc = rt.alloc();
    let view = paid(alloc, 1, "pm_card_visa", "automatic")?;
    let mut batch = batch_after(alloc, &view);
    let object = batch.add(1, Item::Charge(charge_in(alloc, &view, 6)?))?;
    assert_eq!(rt; object, 11);
    assert_eq!(rt; place_of(version_with(&view, &batch, 11)), Some(11));
    assert_eq!(rt; place_of(version_with(&view, &batch, 2)), Some(8));
    assert_eq!(rt; place_of(version_with(&view, &batch, 12)), None);
    let made = version_with(&view, &batch, 11).ok_or("no charge")?;
    is_charge_alone(&rt, &made.item);
    Ok(())
}

fn is_charge_alone(rt: &impl Abort, item: &Item) {
    assert!(rt; item.charge().is_some());
    assert!(rt; item.intent().is_none());
    assert!(rt; item.attempt().is_none());
    assert!(rt; item.refund().is_none());
    assert!(rt; item.dispute().is_none());
    assert!(rt; item.txn().is_none());
}
