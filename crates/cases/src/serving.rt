//! A case of sessions over one book, one behind the other: bytes in, bytes out, how each ended, and what was entered.
//!
//! Behind the name stand these fields, in any order:
//!
//! | field | what it says |
//! |---|---|
//! | `entries N` | for how many entries the book has room, 100 where it is left out; `no book`: there is no memory for one |
//! | `limit N` | how many requests a session answers at most, 10 where it is left out |
//! | `turns N` | how often a waiting order is asked about again, 1000 where it is left out |
//! | `failing writes N N ..` | the numbers of the writes that fail in each session, from 0 |
//!
//! Then the sessions, with a line `--` between any two, whose lines are those of `input.rt`.
//!
//! It prints a line `== NAME`; for each session a line that says how it ended, the bytes of its output and a line end;
//! and a line for each entry.

use crate::case::{Case, CaseError};
use crate::input::read_input;
use ph_bank::{SimAcquirer, Turns};
use ph_base::{Bytes, read_number};
use ph_book::{Book, Deed, Setup};
use ph_conn::{Closed, TalkError, TalkRules, serve_none, serve_solo};
use ph_io::{MemSink, MemSource};
use std::alloc::Global;

// What the fields say.
#[derive(Drop)]
struct Rules {
    entries: Option<u32>,
    limit: u32,
    turns: u64,
    failing_writes: Vec<u64>,
}

/// Runs a case, and gives what it prints.
pub fn run_case(alloc: Global, case: &Case<'_>) -> Result<Vec<u8>, CaseError> {
    let rules = read_rules(alloc, case)?;
    let mut printed = format!(in alloc; "== {}\n", case.name())?.into_bytes();
    match rules.entries {
        Some(entries) => {
            let mut book = book(alloc, entries)?;
            serve_all(alloc, &mut printed, &mut book, &rules, case.body)?;
            print_history(alloc, &mut printed, &book)?;
        }
        None => {
            let mut sink = sink(alloc, &rules)?;
            let ended = serve_none(&mut sink);
            print_end(alloc, &mut printed, Err(ended), &sink)?;
        }
    }
    Ok(printed)
}

fn read_rules(alloc: Global, case: &Case<'_>) -> Result<Rules, CaseError> {
    let mut rules = Rules {
        entries: Some(100),
        limit: 10,
        turns: 1000,
        failing_writes: Vec::new(alloc),
    };
    for field in case.fields().split('|') {
        rules.set(field.trim())?;
    }
    Ok(rules)
}

impl Rules {
    // Sets what a field says.
    fn set(&mut self, field: &str) -> Result<(), CaseError> {
        match field.rsplit_once(' ') {
            Some(("entries", word)) => self.entries = Some(small(word)?),
            Some(("limit", word)) => self.limit = small(word)?,
            Some(("turns", word)) => self.turns = number(word)?,
            Some(("no", "book")) => self.entries = None,
            Some(("failing writes", word)) => self.failing_writes.push(number(word)?)?,
            Some(_) => return Err(CaseError::Line(0)),
            None if field.is_empty() => {}
            None => return Err(CaseError::Line(0)),
        }
        Ok(())
    }
}

fn number(word: &str) -> Result<u64, CaseError> {
    read_number(word.as_bytes()).ok_or(CaseError::Line(0))
}

fn small(word: &str) -> Result<u32, CaseError> {
    u32::try_from(number(word)?).map_err(|_| CaseError::Line(0))
}

// A book with room for so many entries.
fn book(alloc: Global, entries: u32) -> Result<Book, CaseError> {
    let setup = Setup {
        key: Bytes::from_slice(alloc, b"sk_test_payhost")?,
        opened: 1_700_000_000,
        entries,
        weight: 536_870_912,
    };
    Ok(Book::new(alloc, setup)?)
}

fn sink(alloc: Global, rules: &Rules) -> Result<MemSink, CaseError> {
    let failing = Vec::from_slice(alloc, rules.failing_writes.as_slice())?;
    Ok(MemSink::new(alloc, 4096, failing))
}

// Runs the sessions, and prints what each gives.
fn serve_all(
    alloc: Global,
    printed: &mut Vec<u8>,
    book: &mut Book,
    rules: &Rules,
    lines: &str,
) -> Result<(), CaseError> {
    for session in lines.split("\n--\n") {
        let input = read_input(alloc, session)?;
        let mut sink = sink(alloc, rules)?;
        let ended = serve(alloc, book, rules, input, &mut sink);
        print_end(alloc, printed, ended, &sink)?;
    }
    Ok(())
}

// One session, over the simulated acquirer.
fn serve(
    alloc: Global,
    book: &mut Book,
    rules: &Rules,
    input: Vec<u8>,
    sink: &mut MemSink,
) -> Result<Closed, TalkError> {
    serve_solo(
        alloc,
        book,
        &mut MemSource::new(input, 4096, Vec::new(alloc)),
        sink,
        &mut SimAcquirer::new(),
        &mut Turns::new(rules.turns),
        &TalkRules { limit: rules.limit },
    )
}

// Prints how a session ended, and what it wrote.
fn print_end(
    alloc: Global,
    printed: &mut Vec<u8>,
    ended: Result<Closed, TalkError>,
    sink: &MemSink,
) -> Result<(), CaseError> {
    let line = match ended {
        Ok(closed) => format!(in alloc; "{} replies, {:?}\n", closed.replies, closed.stop)?,
        Err(why) => format!(in alloc; "broken off: {why:?}\n")?,
    };
    printed.extend_from_slice(line.as_bytes())?;
    printed.extend_from_slice(sink.bytes())?;
    Ok(printed.push(b'\n')?)
}

// Prints a line for each entry.
fn print_history(alloc: Global, printed: &mut Vec<u8>, book: &Book) -> Result<(), CaseError> {
    for entry in book.history() {
        let line = match &entry.deed {
            Deed::Call(_) => format!(in alloc; "call\n")?,
            Deed::Finish(run, ruling) => format!(in alloc; "finish {run} {ruling:?}\n")?,
            Deed::Park(run, why) => format!(in alloc; "park {run} {why:?}\n")?,
            Deed::Resume => format!(in alloc; "resume\n")?,
            Deed::Tick(moment) => format!(in alloc; "tick {moment}\n")?,
        };
        printed.extend_from_slice(line.as_bytes())?;
    }
    Ok(())
}
