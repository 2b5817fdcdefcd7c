//! What a capture adds beside the payment intent's own version.
ghost use Rattle.std.specs.Prelude.{◌≡◌, IfOk, OnOk};
ghost use Rattle.std.specs.Option.{option_or};
ghost use Rattle.ph_charges.specs.Captures.{capture_of};
ghost use Rattle.ph_charges.specs.Charges.{with_fee};

use crate::charges::add_captured;
use ph_base::NoMemory;
use ph_items::{Charge, EventKind};
use ph_money::Amount;
use ph_rows::{Batch, View, version_with};
use std::alloc::Global;

/// The application fee that is named, or else the one that is kept.
pub fn fee_or(named: Option<Amount>, kept: Option<Amount>) -> Option<Amount>
    ensures { result ≡ option_or named kept }
{
    match named {
        Some(_) => named,
        None => kept,
    }
}

// A charge of which the platform takes what a capture names, or else what it takes as it is.
fn with_fee(alloc: Global, fee: Option<Amount>, charge: &Charge) -> Result<Charge, NoMemory>
    ensures { IfOk result (λ version. version ≡ with_fee fee charge.now) }
{
    let mut version = charge.copy(alloc)?;
    version.application_fee_amount = fee_or(fee, charge.application_fee_amount);
    Ok(version)
}

/// Adds the capture of an amount of a charge, whose last version is in the batch or in the view: its next version, with
/// the application fee that the capture names or else its own, the split, and the announcement `charge.captured`. Where
/// there is no such charge nothing is added.
pub fn capture<V: View>(
    alloc: Global,
    view: &V,
    charge: u64,
    amount: Amount,
    fee: Option<Amount>,
    batch: &mut Batch,
) -> Result<(), NoMemory>
    ensures { OnOk result (batch.new ≡ capture_of (V.state view.now).rows charge amount fee batch.old) }
{
    let Some(row) = version_with(view, batch, charge) else {
        return Ok(());
    };
    let Some(version) = row.item.charge() else {
        return Ok(());
    };
    let account = row.account;
    let version = with_fee(alloc, fee, version)?;
    add_captured(alloc, account, charge, &version, amount, batch)?;
    batch.announce(EventKind::ChargeCaptured, charge)
}
