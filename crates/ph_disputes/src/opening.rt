//! The opening of a dispute.
ghost use Rattle.std.specs.Prelude.{◌≡◌, ◌+◌, IfOk, OnOk};
ghost use Rattle.ph_rows.specs.Batches.{last_place};
ghost use Rattle.ph_disputes.specs.Opening.{disputed_charge, new_dispute, open_of, opened_number, opening_rows, taken_txn, with_disputed, with_taken};

use ph_base::NoMemory;
use ph_items::{Charge, Dispute, DisputeStatus, EventKind, Item, Txn, TxnSource, TxnType};
use ph_money::SignedAmount;
use ph_rows::{Batch, View, version_with};
use std::alloc::Global;

// The fee of a dispute, in minor units of its currency.
const DISPUTE_FEE: u64 = 1500;

// The dispute of a charge.
fn new_dispute(object: u64, charge: &Charge) -> Dispute
    ensures { result ≡ new_dispute object charge.now }
{
    Dispute {
        charge: object,
        intent: charge.sort.intent(),
        amount: charge.amount_captured,
        currency: charge.currency,
        status: DisputeStatus::NeedsResponse,
        evidence: None,
    }
}

// The transaction that takes a disputed amount now, and the fee of the dispute.
fn taken_txn(number: u64, charge: &Charge, now: u64) -> Txn
    ensures { result ≡ taken_txn number charge.now now }
{
    Txn {
        sort: TxnType::Adjustment,
        amount: SignedAmount::taken(charge.amount_captured),
        fee: SignedAmount::new(DISPUTE_FEE),
        currency: charge.currency,
        available_on: now,
        source: TxnSource::Dispute(number),
    }
}

// A charge with its dispute.
fn disputed_charge(alloc: Global, number: u64, charge: &Charge) -> Result<Charge, NoMemory>
    ensures { IfOk result (λ disputed. disputed ≡ disputed_charge number charge.now) }
{
    let mut disputed = charge.copy(alloc)?;
    disputed.dispute = Some(number);
    Ok(disputed)
}

// Adds the transaction that takes the amount of the dispute of a number.
fn add_taken(account: u64, number: u64, charge: &Charge, batch: &mut Batch) -> Result<(), NoMemory>
    ensures { OnOk result (batch.new ≡ with_taken account number charge.now batch.old) }
{
    let txn = taken_txn(number, charge, batch.at());
    batch.add(account, Item::Txn(txn))?;
    Ok(())
}

// Adds the version of a charge that has its dispute, and tells of it.
fn tell_disputed(
    alloc: Global,
    account: u64,
    object: u64,
    charge: &Charge,
    number: u64,
    batch: &mut Batch,
) -> Result<(), NoMemory>
    ensures { OnOk result (batch.new ≡ with_disputed account object charge.now number batch.old) }
{
    let disputed = disputed_charge(alloc, number, charge)?;
    batch.change(object, account, Item::Charge(disputed))?;
    batch.announce(EventKind::DisputeCreated, number)
}

// Adds the rows of a dispute: the dispute, its transaction, and the charge of the account. The answer is the dispute's
// number.
fn add_opening(
    alloc: Global,
    account: u64,
    object: u64,
    charge: &Charge,
    batch: &mut Batch,
) -> Result<u64, NoMemory>
    ensures number { IfOk result (λ number. number ≡ last_place batch.old + 1) }
    ensures rows { OnOk result (batch.new ≡ opening_rows account object charge.now (last_place batch.old + 1) batch.old) }
{
    let number = batch.add(account, Item::Dispute(new_dispute(object, charge)))?;
    add_taken(account, number, charge, batch)?;
    tell_disputed(alloc, account, object, charge, number, batch)?;
    Ok(number)
}

/// Opens a dispute of a card charge, whose last version is in the batch or in the view: it adds the dispute, which is the
/// next place, of all that was captured; the transaction that takes this amount and the fee of the dispute at once; the
/// version of the charge that has the dispute; and the announcement `charge.dispute.created`. The answer is the
/// dispute's number. Where there is no such charge nothing is added, and the answer is 0.
pub fn open<V: View>(
    alloc: Global,
    view: &V,
    charge: u64,
    batch: &mut Batch,
) -> Result<u64, NoMemory>
    ensures number { IfOk result (λ number. number ≡ opened_number (V.state view.now).rows charge batch.old) }
    ensures rows { OnOk result (batch.new ≡ open_of (V.state view.now).rows charge batch.old) }
{
    let Some(row) = version_with(view, batch, charge) else {
        return Ok(0);
    };
    let Some(version) = row.item.card_charge() else {
        return Ok(0);
    };
    let account = row.account;
    let version = version.copy(alloc)?;
    add_opening(alloc, account, charge, &version, batch)
}
