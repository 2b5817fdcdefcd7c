//! Reading a history's text.
ghost use Rattle.std.specs.Prelude.{◌≡◌, ℕ, List, Some};
ghost use Rattle.ph_history.specs.Grammar.{EndIs, Finds, IsText, Reads};
ghost use Rattle.ph_history.specs.Text.{History};

use crate::faults::HistoryFault;
use crate::parts::{Part, add_line};
use ph_book::{Entry, Setup};
use ph_io::Source;
use ph_lines::{LineRead, Unread, next_line};
use std::alloc::Global;

/// Reads a history's text to the end of a source: the setup of its book, and its entries.
///
/// It answers with a history exactly where the source's bytes are that history's text and none of its lines is longer
/// than 300,000 bytes. Of other bytes it answers the first line outside the form, or that they are cut before the last
/// line's LF. Lines count from 1; bytes behind the last line's LF are outside the form at the line that they begin. It
/// may instead answer that a read failed, where one did, or that there was no memory, and never `Illegal`.
pub fn read_history<S: Source>(
    alloc: Global,
    source: &mut S,
) -> Result<(Setup, Vec<Entry>), HistoryFault>
    ensures reads { Reads result (S.source source.old) (S.source source.new) }
    ensures only { (bytes : List ℕ) (history : History) → (S.source source.old).left ≡ Some bytes → IsText bytes history → Finds history result }
{
    read(alloc, source)
}

// Line by line.
fn read<S: Source>(alloc: Global, source: &mut S) -> Result<(Setup, Vec<Entry>), HistoryFault>
    ensures { Reads result (S.source source.old) (S.source source.new) }
{
    let mut unread = Vec::new(alloc);
    let mut part = Part::Nothing;
    for at in 1..u64::MAX {
        match next_line(alloc, &mut unread, source) {
            LineRead::Line(line) => match add_line(alloc, part, line.as_slice()) {
                Ok(more) => part = more,
                Err(Unread::Form) => return Err(HistoryFault::BadLine { at }),
                Err(Unread::NoMemory) => return Err(HistoryFault::NoMemory),
            },
            LineRead::Long => return Err(HistoryFault::BadLine { at }),
            LineRead::End => return ended(part, unread, at),
            LineRead::ReadFault => return Err(HistoryFault::ReadFault),
            LineRead::NoMemory => return Err(HistoryFault::NoMemory),
        }
    }
    // No memory holds as many lines.
    Err(HistoryFault::NoMemory)
}

// What the end of the bytes means, behind these lines and with these bytes left, in the place of the line `at`.
fn ended(part: Part, unread: Vec<u8>, at: u64) -> Result<(Setup, Vec<Entry>), HistoryFault>
    ensures { EndIs part unread.items at result }
{
    match part {
        Part::Whole(setup, entries) => {
            if unread.is_empty() {
                Ok((setup, entries))
            } else {
                Err(HistoryFault::BadLine { at })
            }
        }
        Part::Nothing | Part::Header | Part::Open(_, _) => Err(HistoryFault::Cut),
    }
}
