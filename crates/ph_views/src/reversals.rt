//! Reversals of transfers.
ghost use Rattle.std.specs.Prelude.{◌≡◌, [], ◌∷◌, ◌++◌, IfOk, codes};
ghost use Rattle.ph_views.specs.Reversals.{reversal_doc, reversal_amount_members, reversal_name_members};

use crate::values::{put_amount, put_id, put_id_or_null, put_metadata, put_moment};
use ph_base::{Kind, NoMemory};
use ph_items::Reversal;
use ph_json::{Doc, Members};
use std::alloc::Global;

/// The document of a reversal that was created at a moment and has a number.
#[tactic(auto, unfolding(crate::specs::Reversals::reversal_doc))]
pub fn reversal_doc(
    alloc: Global,
    created: u64,
    object: u64,
    reversal: &Reversal,
) -> Result<Doc, NoMemory>
    ensures { IfOk result (λ doc. doc ≡ reversal_doc created object reversal.now) }
{
    let mut members = amounts(alloc, reversal)?;
    members.append(names(alloc, created, object, reversal)?)?;
    Ok(members.done())
}

// How much of which transfer, and for which refund.
#[tactic(auto, unfolding(crate::specs::Reversals::reversal_amount_members))]
fn amounts(alloc: Global, reversal: &Reversal) -> Result<Members, NoMemory>
    ensures { IfOk result (λ members. members ≡ reversal_amount_members reversal.now) }
{
    let mut members = Members::new(alloc);
    put_amount(&mut members, "amount", reversal.amount)?;
    put_id(
        &mut members,
        "balance_transaction",
        Kind::Txn,
        reversal.transaction,
    )?;
    members.text("currency", reversal.currency.code())?;
    put_id_or_null(&mut members, "source_refund", Kind::Refund, reversal.refund)?;
    put_id(&mut members, "transfer", Kind::Transfer, reversal.transfer)?;
    Ok(members)
}

// Which one, and made when.
#[tactic(auto, unfolding(crate::specs::Reversals::reversal_name_members))]
fn names(alloc: Global, created: u64, object: u64, reversal: &Reversal) -> Result<Members, NoMemory>
    ensures { IfOk result (λ members. members ≡ reversal_name_members created object reversal.now) }
{
    let mut members = Members::new(alloc);
    put_moment(&mut members, "created", created)?;
    put_id(&mut members, "id", Kind::Reversal, object)?;
    put_metadata(alloc, &mut members, "metadata", &reversal.metadata)?;
    members.word("object", "transfer_reversal")?;
    Ok(members)
}
