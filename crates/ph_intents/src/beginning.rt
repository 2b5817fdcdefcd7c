//! The calls that begin an attempt.
ghost use Rattle.ph_intents.specs.Begin.{begin_outcome};
ghost use Rattle.ph_intents.specs.Begun.{GivesBegun};

use crate::authentication::authenticate;
use crate::begins::{Begin, Begun};
use crate::confirming::confirm;
use crate::creation::create_confirmed;
use ph_errors::Refusal;
use ph_rows::{Batch, View};
use std::alloc::Global;

/// Begins an attempt to have a payment intent paid: the payment intent is in processing, and the batch's last row is
/// the attempt. A confirm and an authentication are refused where the account has no such payment intent, and where
/// its status doesn't allow it; a confirm also where neither it nor the payment intent has a payment method. A create
/// without a payment method is refused as its request is.
pub fn begin<V: View>(
    alloc: Global,
    view: &V,
    account: u64,
    call: &Begin<'_>,
    batch: &mut Batch,
) -> Result<Begun, Refusal>
    ensures { GivesBegun (begin_outcome (V.state view.now).rows account call.now batch.old) batch.old result batch.new }
{
    match call {
        Begin::Confirm(call) => confirm(alloc, view, account, call, batch),
        Begin::Create(call) => create_confirmed(alloc, view, account, call, batch),
        Begin::Authenticate(call) => authenticate(alloc, view, account, call, batch),
    }
}
