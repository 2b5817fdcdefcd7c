//! Refunds.
ghost use Rattle.std.specs.Prelude.{◌≡◌, [], ◌∷◌, ◌++◌, IfOk, OnOk, OnErr, option_map, codes};
ghost use Rattle.ph_items.specs.Words.{refund_reason_text};
ghost use Rattle.ph_json.specs.Values.{text_or_null};
ghost use Rattle.ph_views.specs.Refunds.{refund_doc, refund_amount_members, refund_name_members};

use crate::values::{put_amount, put_id, put_id_or_null, put_metadata, put_moment};
use ph_base::{Kind, NoMemory};
use ph_items::{Refund, RefundReason};
use ph_json::{Doc, Members};
use std::alloc::Global;

/// The document of a refund that was created at a moment and has a number.
#[tactic(auto, unfolding(crate::specs::Refunds::refund_doc))]
pub fn refund_doc(
    alloc: Global,
    created: u64,
    object: u64,
    refund: &Refund,
) -> Result<Doc, NoMemory>
    ensures { IfOk result (λ doc. doc ≡ refund_doc created object refund.now) }
{
    let mut members = amounts(alloc, refund)?;
    members.append(names(alloc, created, object, refund)?)?;
    Ok(members.done())
}

// How much of which charge, and why, and what it took back of the charge's transfer.
#[tactic(auto, unfolding(crate::specs::Refunds::refund_amount_members))]
fn amounts(alloc: Global, refund: &Refund) -> Result<Members, NoMemory>
    ensures { IfOk result (λ members. members ≡ refund_amount_members refund.now) }
{
    let mut members = Members::new(alloc);
    put_amount(&mut members, "amount", refund.amount)?;
    put_id(
        &mut members,
        "balance_transaction",
        Kind::Txn,
        refund.transaction,
    )?;
    put_id(&mut members, "charge", Kind::Charge, refund.charge)?;
    members.text("currency", refund.currency.code())?;
    put_id_or_null(&mut members, "payment_intent", Kind::Intent, refund.intent)?;
    put_reason(&mut members, "reason", refund.reason)?;
    put_id_or_null(
        &mut members,
        "transfer_reversal",
        Kind::Reversal,
        refund.reversal,
    )?;
    Ok(members)
}

// Which one, and made when. Every refund has succeeded.
#[tactic(auto, unfolding(crate::specs::Refunds::refund_name_members))]
fn names(alloc: Global, created: u64, object: u64, refund: &Refund) -> Result<Members, NoMemory>
    ensures { IfOk result (λ members. members ≡ refund_name_members created object refund.now) }
{
    let mut members = Members::new(alloc);
    put_moment(&mut members, "created", created)?;
    put_id(&mut members, "id", Kind::Refund, object)?;
    put_metadata(alloc, &mut members, "metadata", &refund.metadata)?;
    members.word("object", "refund")?;
    members.word("status", "succeeded")?;
    Ok(members)
}

// Puts why it was made, or null.
fn put_reason(
    members: &mut Members,
    key: &str,
    reason: Option<RefundReason>,
) -> Result<(), NoMemory>
    ensures ok { OnOk result (members.new ≡ members.old ++ (key.now, text_or_null (option_map refund_reason_text reason)) ∷ []) }
    ensures err { OnErr result (members.new ≡ members.old) }
{
    match reason {
        None => members.null(key),
        Some(reason) => members.text(key, reason.text()),
    }
}
