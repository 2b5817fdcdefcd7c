//! What is printed of a world.

use ph_book::{Book, Deed};
use ph_http::Reply;
use ph_items::Item;
use ph_rows::View;
use std::alloc::{AllocError, Global};

pub fn add_text(output: &mut Vec<u8>, text: &str) -> Result<(), AllocError> {
    output.extend_from_slice(text.as_bytes())
}

/// A number in decimal digits.
pub fn add_number(alloc: Global, output: &mut Vec<u8>, number: u64) -> Result<(), AllocError> {
    let text = number.to_string(alloc)?;
    output.extend_from_slice(text.as_bytes())
}

/// The reply to a move: its status, and whether it is replayed; or nothing.
pub fn add_reply(
    alloc: Global,
    output: &mut Vec<u8>,
    reply: &Option<Reply>,
) -> Result<(), AllocError> {
    match reply {
        None => add_text(output, "nothing"),
        Some(reply) => {
            add_number(alloc, output, reply.status as u64)?;
            if reply.replayed {
                add_text(output, " replayed")?;
            }
            Ok(())
        }
    }
}

// An entry: its caller, its deed, and the run that it ends.
fn add_deed(alloc: Global, output: &mut Vec<u8>, deed: &Deed) -> Result<(), AllocError> {
    match deed {
        Deed::Call(_) => add_text(output, "call"),
        Deed::Finish(run, _) => {
            add_text(output, "finish ")?;
            add_number(alloc, output, *run)
        }
        Deed::Park(run, _) => {
            add_text(output, "park ")?;
            add_number(alloc, output, *run)
        }
        Deed::Resume => add_text(output, "resume"),
        Deed::Tick(_) => add_text(output, "tick"),
    }
}

// The status of each payment intent.
fn add_statuses(alloc: Global, output: &mut Vec<u8>, book: &Book) -> Result<(), AllocError> {
    for object in 1..=book.count() {
        if let Some(row) = book.latest(object) {
            if let Item::Intent(intent) = &row.item {
                add_text(output, " intent ")?;
                add_number(alloc, output, object)?;
                add_text(output, " ")?;
                output.extend_from_slice(intent.status.text())?;
            }
        }
    }
    Ok(())
}

/// The history of a book, and its payment intents.
pub fn add_book(alloc: Global, output: &mut Vec<u8>, book: &Book) -> Result<(), AllocError> {
    add_number(alloc, output, book.history().len() as u64)?;
    add_text(output, " entries:")?;
    for entry in book.history() {
        add_text(output, " ")?;
        add_deed(alloc, output, &entry.deed)?;
        add_text(output, ",")?;
    }
    add_statuses(alloc, output, book)?;
    add_text(output, "\n")
}
