//! Replies.
ghost use Rattle.std.specs.Prelude.{◌≡◌, None, IfOk};
ghost use Rattle.std.specs.Option.{option_copied};
ghost use Rattle.ph_book.specs.Replies.{declined_reply, doc_reply, error_reply_with, nothing_reply, replayed_reply, settled_reply, shown_reply, text_reply, version_reply};

use crate::store::Store;
use ph_base::{Bytes, Decline, NoMemory, Ruling};
use ph_errors::{ApiError, body};
use ph_http::Reply;
use ph_idem::Saved;
use ph_json::{Doc, text};
use ph_rows::{Batch, Row, version_with};
use ph_views::{item_doc, item_text};
use std::alloc::Global;

/// The reply of an error, with the document of a payment intent inside or none.
pub fn error_reply(alloc: Global, error: &ApiError, intent: Option<Doc>) -> Result<Reply, NoMemory>
    ensures { IfOk result (λ reply. reply ≡ error_reply_with error.now intent) }
{
    Ok(Reply {
        status: error.status,
        body: body(alloc, error, intent)?,
        replayed: false,
        retry: error.retry,
    })
}

/// A reply that was saved, given once more.
pub fn replayed_reply(alloc: Global, saved: &Saved) -> Result<Reply, NoMemory>
    ensures { IfOk result (λ reply. reply ≡ replayed_reply saved.now) }
{
    Ok(Reply {
        status: saved.status,
        body: saved.body.copy(alloc)?,
        replayed: true,
        retry: false,
    })
}

// The reply where an object isn't there.
fn nothing_reply(alloc: Global) -> Result<Reply, NoMemory>
    ensures { IfOk result (λ reply. reply ≡ nothing_reply) }
{
    error_reply(alloc, &ApiError::no_such_object(alloc, b"id")?, None)
}

// The reply that shows a text.
fn text_reply(text: Bytes) -> Reply
    ensures { result ≡ text_reply text }
{
    Reply {
        status: 200,
        body: text,
        replayed: false,
        retry: false,
    }
}

/// The reply that shows a document.
pub fn doc_reply(alloc: Global, doc: &Doc) -> Result<Reply, NoMemory>
    ensures { IfOk result (λ reply. reply ≡ doc_reply doc.now) }
{
    Ok(text_reply(text(alloc, doc)?))
}

// The reply that shows a version of an object over the rows of a store. Where there is none, it is the reply of
// `no_such_object`.
fn version_reply(alloc: Global, store: &Store, row: Option<&Row>) -> Result<Reply, NoMemory>
    ensures { IfOk result (λ reply. reply ≡ version_reply store.now.time store.now.rows (option_copied row.entry)) }
{
    match row {
        None => nothing_reply(alloc),
        Some(row) => Ok(text_reply(item_text(alloc, store, row)?)),
    }
}

/// The reply that shows an object: its last version in the batch of the entry, and else in the store.
pub fn shown_reply(
    alloc: Global,
    store: &Store,
    object: u64,
    batch: &Batch,
) -> Result<Reply, NoMemory>
    ensures { IfOk result (λ reply. reply ≡ shown_reply store.now.time store.now.rows object batch.now) }
{
    version_reply(alloc, store, version_with(store, batch, object))
}

// The reply to a declined payment, with the payment intent inside.
fn declined_reply(
    alloc: Global,
    store: &Store,
    decline: Decline,
    row: Option<&Row>,
) -> Result<Reply, NoMemory>
    ensures { IfOk result (λ reply. reply ≡ declined_reply store.now.time store.now.rows decline (option_copied row.entry)) }
{
    match row {
        None => nothing_reply(alloc),
        Some(row) => {
            let intent = item_doc(alloc, store, row)?;
            error_reply(
                alloc,
                &ApiError::card_declined(alloc, decline)?,
                Some(intent),
            )
        }
    }
}

/// The reply to a ruling that was entered: the payment intent, or the decline with the payment intent inside.
pub fn settled_reply(
    alloc: Global,
    store: &Store,
    ruling: Ruling,
    object: u64,
    batch: &Batch,
) -> Result<Reply, NoMemory>
    ensures { IfOk result (λ reply. reply ≡ settled_reply store.now.time store.now.rows ruling object batch.now) }
{
    match ruling {
        Ruling::Approved | Ruling::Challenge => shown_reply(alloc, store, object, batch),
        Ruling::Declined(decline) => {
            declined_reply(alloc, store, decline, version_with(store, batch, object))
        }
    }
}
