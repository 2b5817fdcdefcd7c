//! Balance transactions.
ghost use Rattle.std.specs.Prelude.{◌≡◌, [], ◌∷◌, ◌++◌, IfOk, OnOk, OnErr, codes};
ghost use Rattle.ph_json.specs.declared.doc.Doc.TheVariants as doc;
ghost use Rattle.ph_views.specs.Transactions.{txn_doc, txn_amount_members, txn_name_members, txn_status, source_id};

use crate::values::{put_id, put_moment};
use ph_base::{Kind, NoMemory};
use ph_items::{Txn, TxnSource};
use ph_json::{Doc, Members};
use std::alloc::Global;

/// The document, at a time, of a transaction that was created at a moment and has a number.
#[tactic(auto, unfolding(crate::specs::Transactions::txn_doc))]
pub fn txn_doc(
    alloc: Global,
    time: u64,
    created: u64,
    object: u64,
    txn: &Txn,
) -> Result<Doc, NoMemory>
    ensures { IfOk result (λ doc. doc ≡ txn_doc time created object txn.now) }
{
    let mut members = amounts(alloc, txn)?;
    members.append(names(alloc, time, created, object, txn)?)?;
    Ok(members.done())
}

// How much, and for what.
#[tactic(auto, unfolding(crate::specs::Transactions::txn_amount_members))]
fn amounts(alloc: Global, txn: &Txn) -> Result<Members, NoMemory>
    ensures { IfOk result (λ members. members ≡ txn_amount_members txn.now) }
{
    let mut members = Members::new(alloc);
    members.number("amount", txn.amount.units() as i64)?;
    members.text("currency", txn.currency.code())?;
    members.number("fee", txn.fee.units() as i64)?;
    members.number("net", txn.net() as i64)?;
    put_source(&mut members, "source", txn.source)?;
    members.text("type", txn.sort.text())?;
    Ok(members)
}

// Which one, made when, and how it stands at a time.
#[tactic(auto, unfolding(crate::specs::Transactions::txn_name_members))]
fn names(
    alloc: Global,
    time: u64,
    created: u64,
    object: u64,
    txn: &Txn,
) -> Result<Members, NoMemory>
    ensures { IfOk result (λ members. members ≡ txn_name_members time created object txn.now) }
{
    let mut members = Members::new(alloc);
    put_moment(&mut members, "available_on", txn.available_on)?;
    put_moment(&mut members, "created", created)?;
    put_id(&mut members, "id", Kind::Txn, object)?;
    members.word("object", "balance_transaction")?;
    members.text("status", status(time, txn))?;
    Ok(members)
}

// Whether a transaction counts in the available balance at a time.
fn status(time: u64, txn: &Txn) -> &'static [u8]
    ensures { result.now ≡ txn_status time txn.now }
{
    if txn.available_on <= time {
        b"available"
    } else {
        b"pending"
    }
}

// Puts the printed id of what a transaction comes from.
fn put_source(members: &mut Members, key: &str, source: TxnSource) -> Result<(), NoMemory>
    ensures ok { OnOk result (members.new ≡ members.old ++ (key.now, Doc.Text (source_id source)) ∷ []) }
    ensures err { OnErr result (members.new ≡ members.old) }
{
    put_id(members, key, source.kind(), source.number())
}
