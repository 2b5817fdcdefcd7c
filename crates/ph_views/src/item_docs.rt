//! The document of a version of an object, and its text.
ghost use Rattle.std.specs.Prelude.{◌≡◌, IfOk};
ghost use Rattle.ph_views.specs.Objects.{object_doc, object_text, version_before, subject_doc, version_doc};

use crate::accounts::account_doc;
use crate::charges::charge_doc;
use crate::disputes::dispute_doc;
use crate::events::event_doc;
use crate::fee_refunds::fee_refund_doc;
use crate::fees::fee_doc;
use crate::intents::intent_doc;
use crate::refunds::refund_doc;
use crate::reversals::reversal_doc;
use crate::subjects::{created, version_before};
use crate::transactions::txn_doc;
use crate::transfers::transfer_doc;
use ph_base::{Bytes, NoMemory};
use ph_items::Item;
use ph_json::{Doc, text};
use ph_rows::{Row, View};
use std::alloc::Global;

/// The document of a version of an object, as the API prints it: the version as the row has it, with the moment
/// at which the object was created; a transaction as it stands at the view's time; an event with the version of its
/// object that the event's own entry left. The row is one of the view's, or one that its entry is adding to them. An
/// attempt has no document: its row gives null, and no call prints it.
#[tactic(auto, unfolding(crate::specs::Objects::object_doc))]
pub fn item_doc<V: View>(alloc: Global, view: &V, row: &Row) -> Result<Doc, NoMemory>
    ensures { IfOk result (λ doc. doc ≡ object_doc (V.state view.now).time (V.state view.now).rows row.now) }
{
    match &row.item {
        Item::Account(_)
        | Item::Intent(_)
        | Item::Attempt(_)
        | Item::Charge(_)
        | Item::Refund(_)
        | Item::Dispute(_)
        | Item::Transfer(_)
        | Item::Reversal(_)
        | Item::Fee(_)
        | Item::FeeRefund(_) => version(alloc, created(view, row), row.object, &row.item),
        Item::Txn(txn) => txn_doc(alloc, view.time(), created(view, row), row.object, txn),
        Item::Event(event) => {
            let subject = subject(alloc, view, row.place, event.object)?;
            event_doc(
                alloc,
                created(view, row),
                row.object,
                row.account,
                event,
                subject,
            )
        }
    }
}

/// The JSON text of the document of a version of an object: what a reply that shows the object has as its body.
#[tactic(auto, unfolding(crate::specs::Objects::object_text))]
pub fn item_text<V: View>(alloc: Global, view: &V, row: &Row) -> Result<Bytes, NoMemory>
    ensures { IfOk result (λ text. text ≡ object_text (V.state view.now).time (V.state view.now).rows row.now) }
{
    text(alloc, &item_doc(alloc, view, row)?)
}

// The document of the object that an event at a place tells of, as the event's own entry left it.
fn subject<V: View>(alloc: Global, view: &V, place: u64, object: u64) -> Result<Doc, NoMemory>
    ensures { let rows = (V.state view.now).rows in
        IfOk result (λ doc. doc ≡ subject_doc rows (version_before place object rows)) }
{
    match version_before(view, place, object) {
        None => Ok(Doc::Null),
        Some(row) => version(alloc, created(view, row), row.object, &row.item),
    }
}

// The document of a version of an object of which events tell.
fn version(alloc: Global, created: u64, object: u64, item: &Item) -> Result<Doc, NoMemory>
    ensures { IfOk result (λ doc. doc ≡ version_doc created object item.now) }
{
    match item {
        Item::Account(account) => account_doc(alloc, created, object, account),
        Item::Intent(intent) => intent_doc(alloc, created, object, intent),
        Item::Charge(charge) => charge_doc(alloc, created, object, charge),
        Item::Refund(refund) => refund_doc(alloc, created, object, refund),
        Item::Dispute(dispute) => dispute_doc(alloc, created, object, dispute),
        Item::Transfer(transfer) => transfer_doc(alloc, created, object, transfer),
        Item::Reversal(reversal) => reversal_doc(alloc, created, object, reversal),
        Item::Fee(fee) => fee_doc(alloc, created, object, fee),
        Item::FeeRefund(refund) => fee_refund_doc(alloc, created, object, refund),
        Item::Attempt(_) | Item::Txn(_) | Item::Event(_) => Ok(Doc::Null),
    }
}
