//! Refunds of application fees.
ghost use Rattle.std.specs.Prelude.{◌≡◌, [], ◌∷◌, ◌++◌, IfOk, codes};
ghost use Rattle.ph_views.specs.FeeRefunds.{fee_refund_doc, fee_refund_amount_members, fee_refund_name_members};

use crate::values::{put_amount, put_id, put_metadata, put_moment};
use ph_base::{Kind, NoMemory};
use ph_items::FeeRefund;
use ph_json::{Doc, Members};
use std::alloc::Global;

/// The document of a refund of an application fee that was created at a moment and has a number.
#[tactic(auto, unfolding(crate::specs::FeeRefunds::fee_refund_doc))]
pub fn fee_refund_doc(
    alloc: Global,
    created: u64,
    object: u64,
    refund: &FeeRefund,
) -> Result<Doc, NoMemory>
    ensures { IfOk result (λ doc. doc ≡ fee_refund_doc created object refund.now) }
{
    let mut members = amounts(alloc, refund)?;
    members.append(names(alloc, created, object, refund)?)?;
    Ok(members.done())
}

// How much of which application fee.
#[tactic(auto, unfolding(crate::specs::FeeRefunds::fee_refund_amount_members))]
fn amounts(alloc: Global, refund: &FeeRefund) -> Result<Members, NoMemory>
    ensures { IfOk result (λ members. members ≡ fee_refund_amount_members refund.now) }
{
    let mut members = Members::new(alloc);
    put_amount(&mut members, "amount", refund.amount)?;
    put_id(
        &mut members,
        "balance_transaction",
        Kind::Txn,
        refund.transaction,
    )?;
    members.text("currency", refund.currency.code())?;
    put_id(&mut members, "fee", Kind::Fee, refund.fee)?;
    Ok(members)
}

// Which one, and made when.
#[tactic(auto, unfolding(crate::specs::FeeRefunds::fee_refund_name_members))]
fn names(alloc: Global, created: u64, object: u64, refund: &FeeRefund) -> Result<Members, NoMemory>
    ensures { IfOk result (λ members. members ≡ fee_refund_name_members created object refund.now) }
{
    let mut members = Members::new(alloc);
    put_moment(&mut members, "created", created)?;
    put_id(&mut members, "id", Kind::FeeRefund, object)?;
    put_metadata(alloc, &mut members, "metadata", &refund.metadata)?;
    members.word("object", "fee_refund")?;
    Ok(members)
}
