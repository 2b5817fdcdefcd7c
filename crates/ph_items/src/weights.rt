//! What the texts of an item weigh.
ghost use Rattle.std.specs.Prelude.{◌+◌, []};
ghost use Rattle.std.specs.Option.{option_copied};
ghost use Rattle.ph_items.specs.Weights.{with_text, method_text, metadata_texts, total_length, FitsOrNone};

use crate::items::Item;
use crate::metadata_pairs::MetadataPair;
use crate::payment_methods::PaymentMethod;
use ph_base::Bytes;

impl Item {
    ghost use Rattle.std.specs.Prelude.{◌+◌};
    ghost use Rattle.ph_items.specs.Weights.{texts_of, total_length, FitsOrNone};

    /// A weight and the lengths of the item's texts. None exactly where 64 bits don't hold it.
    pub fn weight_from(&self, sum: u64) -> Option<u64>
        ensures { FitsOrNone result (sum + total_length (texts_of self.now)) }
    {
        match self {
            Item::Account(account) => {
                let sum = plus_text(sum, account.email.as_ref())?;
                plus_pairs(sum, account.metadata.pairs())
            }
            Item::Intent(intent) => {
                let sum = plus_method(sum, intent.payment_method.as_ref())?;
                let sum = plus_text(sum, intent.description.as_ref())?;
                let sum = plus_text(sum, intent.transfer_group.as_ref())?;
                plus_pairs(sum, intent.metadata.pairs())
            }
            Item::Charge(charge) => {
                let sum = plus_method(sum, charge.payment_method.as_ref())?;
                let sum = plus_text(sum, charge.description.as_ref())?;
                let sum = plus_text(sum, charge.transfer_group.as_ref())?;
                plus_pairs(sum, charge.metadata.pairs())
            }
            Item::Refund(refund) => plus_pairs(sum, refund.metadata.pairs()),
            Item::Dispute(dispute) => plus_text(sum, dispute.evidence.as_ref()),
            Item::Transfer(transfer) => {
                let sum = plus_text(sum, transfer.description.as_ref())?;
                let sum = plus_text(sum, transfer.transfer_group.as_ref())?;
                plus_pairs(sum, transfer.metadata.pairs())
            }
            Item::Reversal(reversal) => plus_pairs(sum, reversal.metadata.pairs()),
            Item::FeeRefund(fee_refund) => plus_pairs(sum, fee_refund.metadata.pairs()),
            Item::Attempt(_) | Item::Fee(_) | Item::Txn(_) => Some(sum),
            Item::Event(event) => plus_text(sum, event.key.as_ref()),
        }
    }
}

// A sum and the length of a text, where there is one.
fn plus_text(sum: u64, text: Option<&Bytes>) -> Option<u64>
    ensures { FitsOrNone result (sum + total_length (with_text (option_copied text.entry) [])) }
{
    match text {
        Some(text) => sum.checked_add(text.as_slice().len() as u64),
        None => Some(sum),
    }
}

// A sum and the length of the name of a payment method, where there is one.
fn plus_method(sum: u64, method: Option<&PaymentMethod>) -> Option<u64>
    ensures { FitsOrNone result (sum + total_length (with_text (method_text (option_copied method.entry)) [])) }
{
    match method {
        Some(method) => plus_text(sum, Some(&method.text)),
        None => Some(sum),
    }
}

// A sum and the lengths of the names and the texts of metadata.
fn plus_pairs(before: u64, pairs: &[MetadataPair]) -> Option<u64>
    ensures { FitsOrNone result (before + total_length (metadata_texts pairs.now)) }
{
    let mut sum = before;
    for pair in pairs {
        let named = sum.checked_add(pair.key.as_slice().len() as u64)?;
        sum = named.checked_add(pair.value.as_slice().len() as u64)?;
    }
    Some(sum)
}
