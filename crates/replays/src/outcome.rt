//! What comes of a text.

use ph_base::NoMemory;
use ph_book::{Entry, Setup};
use ph_history::{HistoryFault, read_history, write_history};
use ph_io::{MemSink, MemSource, WriteFailed};
use ph_replay::{Replayed, Unwatched, replay, write_replies};
use std::alloc::Global;

/// A text, and how it is read.
#[derive(Clone, Copy)]
pub struct Input<'a> {
    bytes: &'a [u8],
    most: usize,
    fault: Option<u64>,
}

impl<'a> Input<'a> {
    /// A text that is read in large pieces, and no read fails.
    pub fn of(bytes: &'a [u8]) -> Self {
        Input {
            bytes,
            most: 65_536,
            fault: None,
        }
    }

    /// The same, of which at most so many bytes are read at a time.
    pub fn in_pieces(mut self, most: usize) -> Self {
        self.most = most;
        self
    }

    /// The same, of which the read of this number fails.
    pub fn with_fault(mut self, number: usize) -> Self {
        self.fault = Some(number as u64);
        self
    }
}

// What was read of an input.
fn read(
    alloc: Global,
    input: &Input<'_>,
) -> Result<Result<(Setup, Vec<Entry>), HistoryFault>, NoMemory> {
    let mut failing = Vec::new(alloc);
    if let Some(number) = input.fault {
        failing.push(number)?;
    }
    let bytes = Vec::from_slice(alloc, input.bytes)?;
    let mut source = MemSource::new(bytes, input.most.max(1), failing);
    Ok(read_history(alloc, &mut source))
}

/// What comes of a text.
#[derive(Drop)]
pub struct Outcome {
    /// How many entries were read and whether they are written as the same text, how many replies were made anew, and
    /// how many runs are live; or the fault.
    pub line: String,
    /// A line for each reply.
    pub replies: Vec<u8>,
}

/// What comes of a text: its history is read, written again and entered anew.
pub fn outcome_of(alloc: Global, input: &Input<'_>) -> Result<Outcome, NoMemory> {
    let (setup, entries) = match read(alloc, input)? {
        Ok(history) => history,
        Err(fault) => return ended(alloc, fault),
    };
    let again = again(alloc, &setup, entries.as_slice(), input.bytes)?;
    let count = entries.len();
    match replay(alloc, setup, entries.as_slice(), &mut Unwatched) {
        Ok(replayed) => {
            let line = counted(alloc, count, again, &replayed);
            let replies = replies(alloc, &replayed);
            replayed.end();
            Ok(Outcome {
                line: line?,
                replies: replies?,
            })
        }
        Err(fault) => ended(alloc, fault),
    }
}

// It ends with a fault.
fn ended(alloc: Global, fault: HistoryFault) -> Result<Outcome, NoMemory> {
    Ok(Outcome {
        line: named(alloc, fault)?,
        replies: Vec::new(alloc),
    })
}

/// What comes of a text, in one line.
pub fn line(alloc: Global, input: &Input<'_>) -> Result<String, NoMemory> {
    let Outcome { line, replies: _ } = outcome_of(alloc, input)?;
    Ok(line)
}

fn counted(
    alloc: Global,
    count: usize,
    again: &str,
    replayed: &Replayed,
) -> Result<String, NoMemory> {
    let replies = replayed.replies().len();
    let live = replayed.tickets().len();
    Ok(format!(in alloc; "entries {count}, {again}, replies {replies}, live {live}")?)
}

// Whether a history is written as this text.
fn again(
    alloc: Global,
    setup: &Setup,
    entries: &[Entry],
    text: &[u8],
) -> Result<&'static str, NoMemory> {
    let mut sink = MemSink::new(alloc, 65_536, Vec::new(alloc));
    match write_history(setup, entries, &mut sink) {
        Ok(()) if sink.bytes() == text => Ok("written the same"),
        Ok(()) => Ok("written otherwise"),
        Err(WriteFailed) => Err(NoMemory),
    }
}

/// What comes of the text of a case: its name, the line, and each reply that was made anew.
pub fn shown(alloc: Global, name: &str, text: &str) -> Result<Vec<u8>, NoMemory> {
    let Outcome { line, replies } = outcome_of(alloc, &Input::of(text.as_bytes()))?;
    let mut shown = format!(in alloc; "{name} | {line}\n")?.into_bytes();
    shown.extend_from_slice(replies.as_slice())?;
    Ok(shown)
}

// A line for each reply.
fn replies(alloc: Global, replayed: &Replayed) -> Result<Vec<u8>, NoMemory> {
    let mut sink = MemSink::new(alloc, 65_536, Vec::new(alloc));
    match write_replies(replayed.replies(), &mut sink) {
        Ok(()) => Ok(Vec::from_slice(alloc, sink.bytes())?),
        Err(WriteFailed) => Err(NoMemory),
    }
}

// The name of a fault.
fn named(alloc: Global, fault: HistoryFault) -> Result<String, NoMemory> {
    Ok(match fault {
        HistoryFault::BadLine { at } => format!(in alloc; "bad line {at}")?,
        HistoryFault::Illegal { at } => format!(in alloc; "illegal line {at}")?,
        HistoryFault::Cut => format!(in alloc; "cut")?,
        HistoryFault::ReadFault => format!(in alloc; "read fault")?,
        HistoryFault::NoMemory => return Err(NoMemory),
    })
}
