//! Captures of charges that stand in the view alone, and a ledger.
ghost use Rattle.std.specs.Prelude.{◌≡◌, OnOk};

use super::rows::{OPENED, batch_after, paid};
use ph_base::NoMemory;
use ph_charges::capture;
use ph_items::{Txn, TxnSource, TxnType};
use ph_ledger::Ledger;
use ph_money::{Amount, Currency};
use ph_rows::{ListView, Row, View};
use std::alloc::Global;
use std::process::Abort;
use std::test::Fail;

// The rows that a capture of 500 of a charge adds.
fn capture_rows(alloc: Global, view: &ListView, charge: u64) -> Result<Vec<Row>, NoMemory> {
    let mut batch = batch_after(alloc, view);
    capture(alloc, view, charge, Amount::new(500), None, &mut batch)?;
    batch.into_rows(alloc, None)
}

fn is_charged(rt: &impl Abort, txn: &Txn) {
    assert_eq!(rt;
        (txn.sort, txn.source),
        (TxnType::Charge, TxnSource::Charge(6))
    );
    assert_eq!(rt; (txn.amount.units(), txn.fee.units()), (500, 45));
    assert_eq!(rt;
        (txn.currency, txn.available_on),
        (Currency::Usd, OPENED + 172800)
    );
}

// A capture reads a charge that isn't in the batch in the view; where there is no such charge nothing is added. Else it
// adds the charge's version, its transaction and the event.
#[test]
fn captures(rt: HostRuntime) -> Result<(), Fail> {
    let view = paid(rt.alloc(), 1, "pm_card_visa", "manual")?;
    assert_eq!(rt; capture_rows(rt.alloc(), &view, 5)?.len(), 0);
    let rows = capture_rows(rt.alloc(), &view, 6)?;
    assert_eq!(rt; rows.len(), 3);
    is_charged(&rt, rows[1].item.txn().ok_or("no transaction")?);
    Ok(())
}

// Posts the transaction 7 of a view.
fn post(ledger: &mut Ledger, view: &ListView) -> Result<(), NoMemory>
    ensures time { OnOk result (ledger.new.time ≡ ledger.old.time) }
{
    match view.row(7) {
        Some(row) if row.item.txn().is_some() => ledger.post(row),
        _ => Err(NoMemory),
    }
}

// A ledger that makes its own room as a transaction is posted.
#[test]
fn a_ledger(rt: HostRuntime) -> Result<(), Fail> {
    let view = paid(rt.alloc(), 1, "pm_card_visa", "automatic")?;
    let mut ledger = Ledger::new(rt.alloc());
    ledger.advance(OPENED);
    post(&mut ledger, &view)?;
    assert_eq!(rt; ledger.available(1, Currency::Usd), 0);
    assert_eq!(rt; ledger.pending(1, Currency::Usd), 1912);
    ledger.advance(OPENED + 172800);
    assert_eq!(rt; ledger.available(1, Currency::Usd), 1912);
    assert_eq!(rt; ledger.pending(1, Currency::Usd), 0);
    Ok(())
}
