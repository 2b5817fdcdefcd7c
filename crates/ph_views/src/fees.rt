//! Application fees.
ghost use Rattle.std.specs.Prelude.{◌≡◌, [], ◌∷◌, ◌++◌, IfOk, codes};
ghost use Rattle.ph_views.specs.Fees.{fee_doc, fee_amount_members, fee_name_members, is_given_back};

use crate::values::{put_amount, put_id, put_moment};
use ph_base::{Kind, NoMemory};
use ph_items::Fee;
use ph_json::{Doc, Members};
use std::alloc::Global;

/// The document of a version of an application fee that was created at a moment and has a number.
#[tactic(auto, unfolding(crate::specs::Fees::fee_doc))]
pub fn fee_doc(alloc: Global, created: u64, object: u64, fee: &Fee) -> Result<Doc, NoMemory>
    ensures { IfOk result (λ doc. doc ≡ fee_doc created object fee.now) }
{
    let mut members = amounts(alloc, fee)?;
    members.append(names(alloc, created, object)?)?;
    Ok(members.done())
}

// How much, of which charge, and from whom, and what of it was given back.
#[tactic(auto, unfolding(crate::specs::Fees::fee_amount_members))]
fn amounts(alloc: Global, fee: &Fee) -> Result<Members, NoMemory>
    ensures { IfOk result (λ members. members ≡ fee_amount_members fee.now) }
{
    let mut members = Members::new(alloc);
    put_id(&mut members, "account", Kind::Account, fee.account)?;
    put_amount(&mut members, "amount", fee.amount)?;
    put_amount(&mut members, "amount_refunded", fee.amount_refunded)?;
    put_id(
        &mut members,
        "balance_transaction",
        Kind::Txn,
        fee.transaction,
    )?;
    put_id(&mut members, "charge", Kind::Charge, fee.charge)?;
    members.text("currency", fee.currency.code())?;
    members.truth("refunded", is_given_back(fee))?;
    Ok(members)
}

// Whether all of it was given back.
fn is_given_back(fee: &Fee) -> bool
    ensures { result ≡ is_given_back fee.now }
{
    fee.amount_refunded.units() == fee.amount.units()
}

// Which one, and made when.
#[tactic(auto, unfolding(crate::specs::Fees::fee_name_members))]
fn names(alloc: Global, created: u64, object: u64) -> Result<Members, NoMemory>
    ensures { IfOk result (λ members. members ≡ fee_name_members created object) }
{
    let mut members = Members::new(alloc);
    put_moment(&mut members, "created", created)?;
    put_id(&mut members, "id", Kind::Fee, object)?;
    members.truth("livemode", false)?;
    members.word("object", "application_fee")?;
    Ok(members)
}
