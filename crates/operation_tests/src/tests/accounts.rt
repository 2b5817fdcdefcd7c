//! Two accounts: what one has, no call and no look-up of the other finds.

use super::rows::{
    CREATE, OPENED, batch_after, come, comes_to, enter, paid, place_of, platform, rule,
};
use ph_base::{Kind, NoMemory, Ruling};
use ph_disputes::open;
use ph_money::Currency;
use ph_rows::{ListView, View, object_named, owned_named};
use std::alloc::Global;
use std::process::Abort;
use std::test::Fail;

// Payment intents 2 and 8 of account 1, 4 of account 2; 2 has a second version at the place 6.
fn two_accounts(alloc: Global) -> Result<ListView, NoMemory> {
    let mut view = platform(alloc)?;
    let path = "/v1/payment_intents";
    let _ = come(alloc, &mut view, 1, path, CREATE)?;
    let _ = come(alloc, &mut view, 2, path, CREATE)?;
    let _ = come(
        alloc,
        &mut view,
        1,
        "/v1/payment_intents/pi_0000000000000002/cancel",
        "",
    )?;
    let _ = come(alloc, &mut view, 1, path, CREATE)?;
    Ok(view)
}

// What each look-up of a view answers.
fn places<V: View>(view: &V) -> [Option<u64>; 16] {
    [
        place_of(view.row(0)),
        place_of(view.row(3)),
        place_of(view.row(10)),
        place_of(view.latest(2)),
        place_of(view.latest(6)),
        place_of(view.newest(1, Kind::Intent, 9)),
        place_of(view.newest(1, Kind::Intent, 8)),
        place_of(view.newest(1, Kind::Intent, 2)),
        place_of(view.newest(2, Kind::Intent, 5)),
        place_of(view.newest(2, Kind::Intent, 4)),
        place_of(view.newest(1, Kind::Event, 9)),
        place_of(view.oldest(1, Kind::Intent, 0)),
        place_of(view.oldest(1, Kind::Intent, 2)),
        place_of(view.oldest(1, Kind::Intent, 8)),
        place_of(view.oldest(2, Kind::Intent, 0)),
        place_of(view.oldest(1, Kind::Account, 0)),
    ]
}

#[test]
fn a_view_of_two_accounts(rt: HostRuntime) -> Result<(), Fail> {
    let view = two_accounts(rt.alloc())?;
    let expected = [
        None,
        Some(3),
        None,
        Some(6),
        None,
        Some(8),
        Some(6),
        None,
        Some(4),
        None,
        Some(7),
        Some(6),
        Some(8),
        None,
        Some(4),
        Some(1),
    ];
    assert!(rt; places(&view) == expected);
    assert_eq!(rt; view.count(), 9);
    assert_eq!(rt; view.time(), OPENED);
    Ok(())
}

// The object that an id names has its last version at this place, for an account or for any.
fn is_named(
    rt: &impl Abort,
    view: &ListView,
    account: Option<u64>,
    kind: Kind,
    text: &str,
    place: Option<u64>,
) {
    let row = match account {
        Some(account) => owned_named(view, account, kind, text.as_bytes()),
        None => object_named(view, kind, text.as_bytes()),
    };
    assert!(rt; place_of(row) == place, "{text}");
}

// Accounts and events, which no call takes by their ids; a number is of one kind alone; the object 4 is account 2's.
#[test]
fn objects_of_accounts(rt: HostRuntime) -> Result<(), Fail> {
    let view = two_accounts(rt.alloc())?;
    let acct = "acct_0000000000000001";
    let event = "evt_0000000000000003";
    let other = "pi_0000000000000004";
    is_named(&rt, &view, Some(1), Kind::Account, acct, Some(1));
    is_named(&rt, &view, Some(1), Kind::Event, event, Some(3));
    is_named(&rt, &view, None, Kind::Event, "pi_0000000000000002", None);
    is_named(&rt, &view, None, Kind::Event, "evt_0000000000000002", None);
    is_named(&rt, &view, None, Kind::Intent, "", None);
    is_named(&rt, &view, None, Kind::Intent, other, Some(4));
    is_named(&rt, &view, Some(2), Kind::Intent, other, Some(4));
    is_named(&rt, &view, Some(1), Kind::Intent, other, None);
    is_named(&rt, &view, Some(0), Kind::Intent, other, None);
    Ok(())
}

// The calls of an account on the payment intent 4 of account 2.
fn are_refused(rt: &impl Abort, alloc: Global, view: &mut ListView, account: u64) {
    let none = Err(404);
    let path = "/v1/payment_intents/pi_0000000000000004";
    comes_to(rt, alloc, view, account, path, "", none);
    let path = "/v1/payment_intents/pi_0000000000000004/confirm";
    comes_to(rt, alloc, view, account, path, "", none);
    let path = "/v1/payment_intents/pi_0000000000000004/capture";
    comes_to(rt, alloc, view, account, path, "", none);
    let path = "/v1/payment_intents/pi_0000000000000004/cancel";
    comes_to(rt, alloc, view, account, path, "", none);
    let path = "/_host/payment_intents/pi_0000000000000004/authenticate";
    comes_to(rt, alloc, view, account, path, "outcome=succeeded", none);
    comes_to(rt, alloc, view, account, path, "outcome=failed", none);
}

// A payment intent belongs to the account of the call that made it, and no other account's call finds it.
#[test]
fn another_account(rt: HostRuntime) -> Result<(), Fail> {
    let mut view = two_accounts(rt.alloc())?;
    are_refused(&rt, rt.alloc(), &mut view, 1);
    are_refused(&rt, rt.alloc(), &mut view, 8);
    let path = "/v1/payment_intents/pi_0000000000000004/cancel";
    comes_to(&rt, rt.alloc(), &mut view, 2, path, "", Ok(4));
    Ok(())
}

// The available and the pending balance of an account in a currency.
fn has(
    rt: &impl Abort,
    view: &ListView,
    account: u64,
    currency: Currency,
    available: i64,
    pending: i64,
) {
    assert_eq!(rt; view.available(account, currency), available);
    assert_eq!(rt; view.pending(account, currency), pending);
}

// Account 2 has paid 2000 usd and is disputed: 1912 are pending until their moment, and 3500 are taken at once. Account
// 1 and another currency have none of it.
#[test]
fn balances_of_another_account(rt: HostRuntime) -> Result<(), Fail> {
    let alloc = rt.alloc();
    let mut view = paid(alloc, 2, "pm_card_visa", "automatic")?;
    has(&rt, &view, 2, Currency::Usd, 0, 1912);
    view.set_time(OPENED + 172799);
    has(&rt, &view, 2, Currency::Usd, 0, 1912);
    view.set_time(OPENED + 172800);
    has(&rt, &view, 2, Currency::Usd, 1912, 0);
    let mut batch = batch_after(alloc, &view);
    assert_eq!(rt; open(alloc, &view, 6, &mut batch)?, 11);
    enter(alloc, &mut view, batch)?;
    has(&rt, &view, 2, Currency::Usd, -1588, 0);
    has(&rt, &view, 1, Currency::Usd, 0, 0);
    has(&rt, &view, 2, Currency::Eur, 0, 0);
    assert_eq!(rt; place_of(view.newest(2, Kind::Txn, 12)), Some(7));
    let path = "/v1/disputes/dp_0000000000000011/close";
    comes_to(&rt, alloc, &mut view, 1, path, "", Err(404));
    comes_to(&rt, alloc, &mut view, 2, path, "", Ok(11));
    Ok(())
}

// A number of no attempt, and of other objects, settles nothing.
#[test]
fn no_attempt(rt: HostRuntime) -> Result<(), Fail> {
    let mut view = two_accounts(rt.alloc())?;
    for number in [1, 2, 3, 4, 0, 10] {
        assert_eq!(rt; rule(rt.alloc(), &mut view, number, Ruling::Approved)?, 0);
    }
    assert_eq!(rt; view.count(), 9);
    Ok(())
}
