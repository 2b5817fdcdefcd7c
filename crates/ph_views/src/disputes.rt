//! Disputes.
ghost use Rattle.std.specs.Prelude.{◌≡◌, [], ◌∷◌, ◌++◌, IfOk, OnOk, OnErr, codes};
ghost use Rattle.ph_views.specs.Disputes.{dispute_doc, dispute_amount_members, dispute_name_members, evidence_doc};

use crate::values::{put_amount, put_id, put_id_or_null, put_moment};
use ph_base::{Bytes, Kind, NoMemory};
use ph_items::Dispute;
use ph_json::{Doc, Members};
use std::alloc::Global;

/// The document of a version of a dispute that was created at a moment and has a number.
#[tactic(auto, unfolding(crate::specs::Disputes::dispute_doc))]
pub fn dispute_doc(
    alloc: Global,
    created: u64,
    object: u64,
    dispute: &Dispute,
) -> Result<Doc, NoMemory>
    ensures { IfOk result (λ doc. doc ≡ dispute_doc created object dispute.now) }
{
    let mut members = amounts(alloc, dispute)?;
    members.append(names(alloc, created, object)?)?;
    Ok(members.done())
}

// How much of which charge, and how it stands. The reason of every dispute is the same.
#[tactic(auto, unfolding(crate::specs::Disputes::dispute_amount_members))]
fn amounts(alloc: Global, dispute: &Dispute) -> Result<Members, NoMemory>
    ensures { IfOk result (λ members. members ≡ dispute_amount_members dispute.now) }
{
    let mut members = Members::new(alloc);
    put_amount(&mut members, "amount", dispute.amount)?;
    put_id(&mut members, "charge", Kind::Charge, dispute.charge)?;
    members.text("currency", dispute.currency.code())?;
    put_evidence(alloc, &mut members, "evidence", &dispute.evidence)?;
    put_id_or_null(&mut members, "payment_intent", Kind::Intent, dispute.intent)?;
    members.word("reason", "fraudulent")?;
    members.text("status", dispute.status.text())?;
    Ok(members)
}

// Which one, and opened when.
#[tactic(auto, unfolding(crate::specs::Disputes::dispute_name_members))]
fn names(alloc: Global, created: u64, object: u64) -> Result<Members, NoMemory>
    ensures { IfOk result (λ members. members ≡ dispute_name_members created object) }
{
    let mut members = Members::new(alloc);
    put_moment(&mut members, "created", created)?;
    put_id(&mut members, "id", Kind::Dispute, object)?;
    members.truth("livemode", false)?;
    members.word("object", "dispute")?;
    Ok(members)
}

// Puts what was sent to win it.
fn put_evidence(
    alloc: Global,
    members: &mut Members,
    key: &str,
    text: &Option<Bytes>,
) -> Result<(), NoMemory>
    ensures ok { OnOk result (members.new ≡ members.old ++ (key.now, evidence_doc text.now) ∷ []) }
    ensures err { OnErr result (members.new ≡ members.old) }
{
    let evidence = evidence(alloc, text)?;
    members.put(key, evidence)
}

// What was sent to win it.
fn evidence(alloc: Global, text: &Option<Bytes>) -> Result<Doc, NoMemory>
    ensures { IfOk result (λ doc. doc ≡ evidence_doc text.now) }
{
    let mut members = Members::new(alloc);
    members.text_or_null("uncategorized_text", text)?;
    Ok(members.done())
}
