//! A case of a session: bytes in, bytes out.
//!
//! It prints a line `== NAME`, a line `status N`, the bytes of the output and a line end. Where its runs in reads of
//! different lengths differ, `differs in reads of N` stands in place of the output, for the first N whose run isn't as
//! the first one.

use crate::case::{Case, CaseError};
use crate::input::read_input;
use crate::setup::Setup;
use ph_bank::{Acquirer, MemAcquirer, SimAcquirer, Turns};
use ph_base::Bytes;
use ph_host::{Plan, plan, run_once};
use ph_io::{MemSink, MemSource};
use std::alloc::Global;

// How often a scripted acquirer can be asked in a run; from then on it fails.
const ASKS: usize = 10_000;

// A run's exit status, and what was written.
#[derive(Drop)]
struct Outcome {
    status: u8,
    output: MemSink,
}

/// Runs a case, and gives what it prints.
pub fn run_case(alloc: Global, case: &Case<'_>) -> Result<Vec<u8>, CaseError> {
    let setup = Setup::read(alloc, case)?;
    let input = read_input(alloc, case.body)?;
    let sizes = sizes(alloc, &setup, input.len())?;
    let mut printed = Vec::new(alloc);
    print_runs(
        alloc,
        &mut printed,
        case.name(),
        &setup,
        input.as_slice(),
        sizes.as_slice(),
    )?;
    Ok(printed)
}

// The most bytes that a read gives, run by run.
fn sizes(alloc: Global, setup: &Setup, length: usize) -> Result<Vec<u64>, CaseError> {
    match &setup.reads {
        Some(sizes) => Ok(Vec::from_slice(alloc, sizes.as_slice())?),
        None => {
            let mut sizes = Vec::new(alloc);
            for size in 1..=length as u64 {
                sizes.push(size)?;
            }
            Ok(sizes)
        }
    }
}

// Prints a case's runs.
fn print_runs(
    alloc: Global,
    printed: &mut Vec<u8>,
    name: &str,
    setup: &Setup,
    input: &[u8],
    sizes: &[u64],
) -> Result<(), CaseError> {
    let [size, others @ ..] = sizes else {
        return Err(CaseError::Line(0));
    };
    let first = run(alloc, setup, input, *size)?;
    let head = format!(in alloc; "== {name}\nstatus {}\n", first.status)?;
    printed.extend_from_slice(head.as_bytes())?;
    match other_outcome(alloc, setup, input, others, &first)? {
        None => printed.extend_from_slice(first.output.bytes())?,
        Some(size) => {
            let text = format!(in alloc; "differs in reads of {size}")?;
            printed.extend_from_slice(text.as_bytes())?;
        }
    }
    Ok(printed.push(b'\n')?)
}

// The first of these sizes whose run has another outcome than the first one.
fn other_outcome(
    alloc: Global,
    setup: &Setup,
    input: &[u8],
    sizes: &[u64],
    first: &Outcome,
) -> Result<Option<u64>, CaseError> {
    for size in sizes {
        let outcome = run(alloc, setup, input, *size)?;
        if outcome.status != first.status || outcome.output.bytes() != first.output.bytes() {
            return Ok(Some(*size));
        }
    }
    Ok(None)
}

// Runs the case once.
fn run(alloc: Global, setup: &Setup, input: &[u8], most: u64) -> Result<Outcome, CaseError> {
    let source = source(alloc, setup, input, most)?;
    let sink = sink(alloc, setup)?;
    let words = setup.words.as_slice();
    match &setup.cues {
        None => Ok(run_on(alloc, words, source, sink, SimAcquirer::new())),
        Some(cues) => {
            let cues = Vec::from_slice(alloc, cues.as_slice())?;
            let link = MemAcquirer::new(alloc, cues, ASKS)?;
            Ok(run_on(alloc, words, source, sink, link))
        }
    }
}

fn source(alloc: Global, setup: &Setup, input: &[u8], most: u64) -> Result<MemSource, CaseError> {
    let failing = Vec::from_slice(alloc, setup.failing_reads.as_slice())?;
    let bytes = Vec::from_slice(alloc, input)?;
    Ok(MemSource::new(bytes, most.max(1) as usize, failing))
}

fn sink(alloc: Global, setup: &Setup) -> Result<MemSink, CaseError> {
    let failing = Vec::from_slice(alloc, setup.failing_writes.as_slice())?;
    Ok(MemSink::new(alloc, setup.most_written.max(1) as usize, failing))
}

// Runs the words on a source, a sink and a link.
fn run_on<A: Acquirer + Drop>(
    alloc: Global,
    words: &[Bytes],
    mut source: MemSource,
    mut sink: MemSink,
    mut link: A,
) -> Outcome {
    let mut patience = Turns::new(polls(words));
    let status = run_once(
        alloc,
        words,
        &mut source,
        &mut sink,
        &mut link,
        &mut patience,
    );
    Outcome {
        status,
        output: sink,
    }
}

// How many further polls the words grant a session; words that ask for none grant none.
fn polls(words: &[Bytes]) -> u64 {
    match plan(words) {
        Plan::Once { patience } => u64::from(patience),
        Plan::Host { .. } | Plan::Usage => 0,
    }
}
