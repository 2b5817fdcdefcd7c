//! Transfers.
ghost use Rattle.std.specs.Prelude.{◌≡◌, [], ◌∷◌, ◌++◌, IfOk, codes};
ghost use Rattle.ph_views.specs.Transfers.{is_reversed, transfer_doc, transfer_amount_members, transfer_name_members, transfer_reversal_members};

use crate::values::{put_amount, put_id, put_id_or_null, put_metadata, put_moment};
use ph_base::{Kind, NoMemory};
use ph_items::Transfer;
use ph_json::{Doc, Members};
use std::alloc::Global;

/// The document of a version of a transfer that was created at a moment and has a number.
#[tactic(auto, unfolding(crate::specs::Transfers::transfer_doc))]
pub fn transfer_doc(
    alloc: Global,
    created: u64,
    object: u64,
    transfer: &Transfer,
) -> Result<Doc, NoMemory>
    ensures { IfOk result (λ doc. doc ≡ transfer_doc created object transfer.now) }
{
    let mut members = amounts(alloc, transfer)?;
    members.append(names(alloc, created, object, transfer)?)?;
    members.append(reversals(alloc, transfer)?)?;
    Ok(members.done())
}

// How much, to whom, and from which charge.
#[tactic(auto, unfolding(crate::specs::Transfers::transfer_amount_members))]
fn amounts(alloc: Global, transfer: &Transfer) -> Result<Members, NoMemory>
    ensures { IfOk result (λ members. members ≡ transfer_amount_members transfer.now) }
{
    let mut members = Members::new(alloc);
    put_amount(&mut members, "amount", transfer.amount)?;
    put_id(
        &mut members,
        "balance_transaction",
        Kind::Txn,
        transfer.transaction,
    )?;
    members.text("currency", transfer.currency.code())?;
    put_id(
        &mut members,
        "destination",
        Kind::Account,
        transfer.destination,
    )?;
    put_id(
        &mut members,
        "destination_payment",
        Kind::Payment,
        transfer.payment,
    )?;
    put_id_or_null(
        &mut members,
        "source_transaction",
        Kind::Charge,
        transfer.source,
    )?;
    members.text_or_null("transfer_group", &transfer.transfer_group)?;
    Ok(members)
}

// Which one, made when, and what is said of it.
#[tactic(auto, unfolding(crate::specs::Transfers::transfer_name_members))]
fn names(alloc: Global, created: u64, object: u64, transfer: &Transfer) -> Result<Members, NoMemory>
    ensures { IfOk result (λ members. members ≡ transfer_name_members created object transfer.now) }
{
    let mut members = Members::new(alloc);
    put_moment(&mut members, "created", created)?;
    members.text_or_null("description", &transfer.description)?;
    put_id(&mut members, "id", Kind::Transfer, object)?;
    members.truth("livemode", false)?;
    put_metadata(alloc, &mut members, "metadata", &transfer.metadata)?;
    members.word("object", "transfer")?;
    Ok(members)
}

// What came back of it.
#[tactic(auto, unfolding(crate::specs::Transfers::transfer_reversal_members))]
fn reversals(alloc: Global, transfer: &Transfer) -> Result<Members, NoMemory>
    ensures { IfOk result (λ members. members ≡ transfer_reversal_members transfer.now) }
{
    let mut members = Members::new(alloc);
    put_amount(&mut members, "amount_reversed", transfer.amount_reversed)?;
    members.truth("reversed", is_reversed(transfer))?;
    Ok(members)
}

// Whether all of it came back.
fn is_reversed(transfer: &Transfer) -> bool
    ensures { result ≡ is_reversed transfer.now }
{
    transfer.amount_reversed.units() == transfer.amount.units()
}
