//! A file of cases.

use crate::case::{Case, CaseError};
use crate::{history, serving, session};
use std::alloc::{AllocError, AllocFailed, Global};
use std::fmt;

/// Why a file isn't run to its end.
#[derive(Debug, Drop)]
pub enum FileError<'t> {
    /// A line of this number, from 1, isn't understood, in the case of this name.
    Line { case: &'t str, number: usize },
    /// The first line is a case's, and doesn't describe the file.
    Undescribed,
    NoMemory,
}

impl fmt::Display for FileError<'_> {
    fn fmt<W: fmt::Write>(&self, f: &mut fmt::Formatter<W>) -> fmt::Result {
        match self {
            FileError::Line { case, number } => write!(
                f,
                "line {number}, in the case '{case}', isn't understood"
            ),
            FileError::Undescribed => write!(f, "the first line doesn't describe the file"),
            FileError::NoMemory => write!(f, "there is no memory"),
        }
    }
}

impl From<AllocError> for FileError<'_> {
    fn from(_: AllocError) -> Self {
        FileError::NoMemory
    }
}

impl<T: Drop> From<AllocFailed<T>> for FileError<'_> {
    fn from(_: AllocFailed<T>) -> Self {
        FileError::NoMemory
    }
}

// What the cases of a file are.
#[derive(Clone, Copy)]
enum Kind {
    Sessions,
    Histories,
    Books,
}

// By the folder that the file stands in.
fn kind_of(name: &str) -> Kind {
    match name.split('/').rev().nth(1) {
        Some("histories") => Kind::Histories,
        Some("books") => Kind::Books,
        _ => Kind::Sessions,
    }
}

/// Runs the cases of a file, in their order, and gives what they print.
pub fn run_file<'t>(alloc: Global, name: &str, text: &'t str) -> Result<Vec<u8>, FileError<'t>> {
    if text.starts_with("== ") {
        return Err(FileError::Undescribed);
    }
    let kind = kind_of(name);
    let mut output = Vec::new(alloc);
    let mut above = 0;
    for (i, part) in text.split("\n== ").enumerate() {
        if i > 0 {
            add_case(alloc, &mut output, kind, above, part)?;
        }
        above = part.split('\n').count().saturating_add(above);
    }
    Ok(output)
}

// Adds what a case prints, above which so many lines stand.
fn add_case<'t>(
    alloc: Global,
    output: &mut Vec<u8>,
    kind: Kind,
    above: usize,
    text: &'t str,
) -> Result<(), FileError<'t>> {
    let case = Case::new(text);
    let printed = match kind {
        Kind::Sessions => session::run_case(alloc, &case),
        Kind::Histories => history::run_case(alloc, &case),
        Kind::Books => serving::run_case(alloc, &case),
    };
    match printed {
        Ok(bytes) => Ok(output.extend_from_slice(bytes.as_slice())?),
        Err(CaseError::NoMemory) => Err(FileError::NoMemory),
        Err(CaseError::Line(line)) => Err(FileError::Line {
            case: case.name(),
            number: above.saturating_add(line).saturating_add(1),
        }),
    }
}
