//! Disputes that no history opens, since no call leaves such charges.

use super::rows::{batch_after, charge_in, enter, intent_in, paid};
use ph_base::{Bytes, Method, NoMemory};
use ph_disputes::{open, open_due};
use ph_items::{Charge, EventKind, Item, PaymentMethod};
use ph_rows::{ListView, Row, View};
use std::alloc::Global;
use std::process::Abort;
use std::test::Fail;

// How many rows are added as due, where the batch holds a version of the charge 6 of a paid payment intent, and one of
// that payment intent with this latest charge.
fn due(
    alloc: Global,
    view: &ListView,
    charge: Charge,
    latest: Option<u64>,
    intent: u64,
) -> Result<u64, NoMemory> {
    let mut batch = batch_after(alloc, view);
    batch.change(6, 1, Item::Charge(charge))?;
    let mut version = intent_in(alloc, view, 2)?;
    version.latest_charge = latest;
    batch.change(2, 1, Item::Intent(version))?;
    open_due(alloc, view, intent, &mut batch)?;
    Ok(batch.count().saturating_sub(12))
}

fn are_due(
    rt: &impl Abort,
    alloc: Global,
    charge: Result<Charge, NoMemory>,
    latest: Option<u64>,
    intent: u64,
    rows: u64,
) {
    match (paid(alloc, 1, "pm_card_createDispute", "automatic"), charge) {
        (Ok(view), Ok(charge)) => match due(alloc, &view, charge, latest, intent) {
            Ok(count) => assert_eq!(rt; count, rows),
            Err(NoMemory) => assert!(rt; false),
        },
        _ => assert!(rt; false),
    }
}

// The charge 6 by the method that is disputed.
fn charged(alloc: Global) -> Result<Charge, NoMemory> {
    let view = paid(alloc, 1, "pm_card_createDispute", "automatic")?;
    charge_in(alloc, &view, 6)
}

fn disputed(alloc: Global) -> Result<Charge, NoMemory> {
    let mut charge = charged(alloc)?;
    charge.dispute = Some(1);
    Ok(charge)
}

// The same by the method of attempts that follow an authentication, which no payment intent names.
fn authenticated(alloc: Global) -> Result<Charge, NoMemory> {
    let mut charge = charged(alloc)?;
    charge.payment_method = Some(PaymentMethod {
        text: Bytes::from_slice(alloc, b"pm")?,
        method: Method::Authenticated,
    });
    Ok(charge)
}

// Nothing is due of a charge that has a dispute, of one that isn't the payment intent's latest, of another payment
// intent, and by another method. What is due are the dispute, its transaction and the charge.
#[test]
fn nothing_due(rt: HostRuntime) {
    let alloc = rt.alloc();
    are_due(&rt, alloc, disputed(alloc), Some(6), 2, 0);
    are_due(&rt, alloc, authenticated(alloc), Some(6), 2, 0);
    are_due(&rt, alloc, charged(alloc), Some(1), 2, 0);
    are_due(&rt, alloc, charged(alloc), Some(6), 1, 0);
    are_due(&rt, alloc, charged(alloc), Some(6), 3, 0);
    are_due(&rt, alloc, charged(alloc), Some(6), 2, 3);
}

// Nor of a charge that stands in the view alone.
#[test]
fn nothing_due_of_an_earlier_entry(rt: HostRuntime) -> Result<(), Fail> {
    let alloc = rt.alloc();
    let view = paid(alloc, 1, "pm_card_createDispute", "automatic")?;
    let mut batch = batch_after(alloc, &view);
    open_due(alloc, &view, 2, &mut batch)?;
    assert_eq!(rt; batch.count(), 10);
    Ok(())
}

// The number that an opening answers, whose rows are entered.
fn opened(alloc: Global, view: &mut ListView, charge: u64) -> Result<u64, NoMemory> {
    let mut batch = batch_after(alloc, view);
    let number = open(alloc, view, charge, &mut batch)?;
    enter(alloc, view, batch)?;
    Ok(number)
}

fn is_of(rt: &impl Abort, row: Option<&Row>, object: u64, account: u64) {
    assert!(rt; row.is_some_and(|row| row.object == object && row.account == account));
}

// The opening of a charge of account 2 that stands in the view, and of no charge.
#[test]
fn an_opening(rt: HostRuntime) -> Result<(), Fail> {
    let alloc = rt.alloc();
    let mut view = paid(alloc, 2, "pm_card_visa", "automatic")?;
    for none in [2, 4, 5, 11] {
        assert_eq!(rt; opened(alloc, &mut view, none)?, 0);
    }
    assert_eq!(rt; view.count(), 10);
    assert_eq!(rt; opened(alloc, &mut view, 6)?, 11);
    assert_eq!(rt; view.count(), 14);
    is_of(&rt, view.row(11), 11, 2);
    is_of(&rt, view.row(12), 12, 2);
    is_of(&rt, view.row(13), 6, 2);
    is_of(&rt, view.row(14), 14, 2);
    assert_eq!(rt; charge_in(alloc, &view, 6)?.dispute, Some(11));
    assert!(rt; view.row(14).is_some_and(|row| is_opening(&row.item)));
    Ok(())
}

fn is_opening(item: &Item) -> bool {
    match item {
        Item::Event(event) => event.sort == EventKind::DisputeCreated && event.object == 11,
        _ => false,
    }
}
