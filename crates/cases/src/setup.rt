//! The first line of a session's case: the words of the command line, and what its devices do.
//!
//! Behind the name stand the words, separated by blanks, and then any of these fields:
//!
//! | field | what it says |
//! |---|---|
//! | `cues W W ..` | what a scripted acquirer answers, a word an ask: `wait`, `approve`, `decline`, `funds`, `challenge` or `fail`. Left out: the simulated acquirer |
//! | `reads N N ..` | the most bytes that a read gives, 4096 where it is left out. The case is run once for each number |
//! | `reads each` | the same for every number from 1 to the input's length |
//! | `failing reads N N ..` | the numbers of the reads that fail, from 0 |
//! | `writes N` | the most bytes that a write takes, 4096 where it is left out |
//! | `failing writes N N ..` | the numbers of the writes that fail, from 0 |

use crate::case::{Case, CaseError};
use crate::escape::add_unescaped;
use ph_bank::Cue;
use ph_base::{Bytes, Decline, Ruling, read_number};
use std::alloc::Global;

const MOST: u64 = 4096;

/// The words of the command line, and what the devices do.
#[derive(Drop)]
pub struct Setup {
    pub words: Vec<Bytes>,
    /// None: the simulated acquirer.
    pub cues: Option<Vec<Cue>>,
    /// None: every number from 1 to the input's length.
    pub reads: Option<Vec<u64>>,
    pub failing_reads: Vec<u64>,
    pub most_written: u64,
    pub failing_writes: Vec<u64>,
}

impl Setup {
    /// The setup of a case.
    pub fn read(alloc: Global, case: &Case<'_>) -> Result<Setup, CaseError> {
        let mut setup = Setup {
            words: Vec::new(alloc),
            cues: None,
            reads: Some(Vec::from_slice(alloc, &[MOST])?),
            failing_reads: Vec::new(alloc),
            most_written: MOST,
            failing_writes: Vec::new(alloc),
        };
        for (i, field) in case.fields().split('|').enumerate() {
            if i == 0 {
                setup.words = words(alloc, field)?;
            } else {
                setup.set(alloc, field.trim())?;
            }
        }
        Ok(setup)
    }

    // Sets what a field says.
    fn set(&mut self, alloc: Global, field: &str) -> Result<(), CaseError> {
        if field == "reads each" {
            self.reads = None;
        } else if let Some(list) = field.strip_prefix("reads ") {
            self.reads = Some(sizes(alloc, list)?);
        } else if let Some(list) = field.strip_prefix("failing reads ") {
            self.failing_reads = numbers(alloc, list)?;
        } else if let Some(list) = field.strip_prefix("failing writes ") {
            self.failing_writes = numbers(alloc, list)?;
        } else if let Some(word) = field.strip_prefix("writes ") {
            self.most_written = size(word.trim())?;
        } else if let Some(list) = field.strip_prefix("cues") {
            self.cues = Some(cues(alloc, list)?);
        } else {
            return Err(CaseError::Line(0));
        }
        Ok(())
    }
}

fn words(alloc: Global, text: &str) -> Result<Vec<Bytes>, CaseError> {
    let mut words = Vec::new(alloc);
    for text in text.split_whitespace() {
        words.push(word(alloc, text)?)?;
    }
    Ok(words)
}

fn word(alloc: Global, text: &str) -> Result<Bytes, CaseError> {
    let mut bytes = Vec::new(alloc);
    add_unescaped(&mut bytes, text, 0)?;
    Ok(Bytes::new(bytes))
}

fn numbers(alloc: Global, text: &str) -> Result<Vec<u64>, CaseError> {
    let mut numbers = Vec::new(alloc);
    for word in text.split_whitespace() {
        numbers.push(number(word)?)?;
    }
    Ok(numbers)
}

fn sizes(alloc: Global, text: &str) -> Result<Vec<u64>, CaseError> {
    let mut sizes = Vec::new(alloc);
    for word in text.split_whitespace() {
        sizes.push(size(word)?)?;
    }
    Ok(sizes)
}

fn cues(alloc: Global, text: &str) -> Result<Vec<Cue>, CaseError> {
    let mut cues = Vec::new(alloc);
    for word in text.split_whitespace() {
        cues.push(cue(word)?)?;
    }
    Ok(cues)
}

fn number(word: &str) -> Result<u64, CaseError> {
    read_number(word.as_bytes()).ok_or(CaseError::Line(0))
}

// A number above 0.
fn size(word: &str) -> Result<u64, CaseError> {
    match number(word)? {
        0 => Err(CaseError::Line(0)),
        size => Ok(size),
    }
}

fn cue(word: &str) -> Result<Cue, CaseError> {
    match word {
        "wait" => Ok(Cue::Wait),
        "approve" => Ok(Cue::Decide(Ruling::Approved)),
        "decline" => Ok(Cue::Decide(Ruling::Declined(Decline::Generic))),
        "funds" => Ok(Cue::Decide(Ruling::Declined(Decline::NoFunds))),
        "challenge" => Ok(Cue::Decide(Ruling::Challenge)),
        "fail" => Ok(Cue::Fail),
        _ => Err(CaseError::Line(0)),
    }
}
