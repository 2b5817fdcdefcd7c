//! The events of a split.
ghost use Rattle.std.specs.Prelude.{◌≡◌, IfOk, OnOk};
ghost use Rattle.ph_charges.specs.Told.{split_events, told_by, with_all_announced, with_split_told};

use ph_base::NoMemory;
use ph_items::{EventKind, Item};
use ph_rows::{Announced, Batch, Row};
use std::alloc::Global;

// The announcement of the object of a row, where it is a transfer or an application fee.
fn told_by(row: &Row) -> Option<Announced>
    ensures { result ≡ told_by row.now }
{
    match &row.item {
        Item::Transfer(_) => Some(Announced {
            sort: EventKind::TransferCreated,
            object: row.object,
        }),
        Item::Fee(_) => Some(Announced {
            sort: EventKind::FeeCreated,
            object: row.object,
        }),
        Item::Account(_)
        | Item::Intent(_)
        | Item::Attempt(_)
        | Item::Charge(_)
        | Item::Refund(_)
        | Item::Dispute(_)
        | Item::Reversal(_)
        | Item::FeeRefund(_)
        | Item::Txn(_)
        | Item::Event(_) => None,
    }
}

// The announcements of the transfers and application fees among rows, in their order.
fn split_events(alloc: Global, rows: &[Row]) -> Result<Vec<Announced>, NoMemory>
    ensures { IfOk result (λ told. told.items ≡ split_events rows.now) }
{
    let mut events = Vec::new(alloc);
    for row in rows {
        if let Some(told) = told_by(row) {
            events.push(told)?;
        }
    }
    Ok(events)
}

// Announces these, one after another.
fn announce_all(events: Vec<Announced>, batch: &mut Batch) -> Result<(), NoMemory>
    ensures { OnOk result (batch.new ≡ with_all_announced events.items batch.old) }
{
    for told in events {
        batch.announce(told.sort, told.object)?;
    }
    Ok(())
}

/// Announces `transfer.created` for each transfer and `application_fee.created` for each application fee among the
/// batch's rows, in their order. It is to be called once, behind the version of the payment intent whose charge was
/// split.
pub fn tell_split(alloc: Global, batch: &mut Batch) -> Result<(), NoMemory>
    ensures { OnOk result (batch.new ≡ with_split_told batch.old) }
{
    let events = split_events(alloc, batch.rows())?;
    announce_all(events, batch)
}
