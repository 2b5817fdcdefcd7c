//! A case of a file: what all kinds of cases share.
//!
//! A file begins with lines that describe it, and a case with a line `== NAME | FIELD | FIELD ..`. It ends where the
//! next one begins, or with the file.

use ph_base::NoMemory;
use std::alloc::{AllocError, AllocFailed};

/// Why a case isn't run to its end.
#[derive(Clone, Copy, Debug, PartialEq, Eq)]
pub enum CaseError {
    /// The line of this number within the case isn't understood. The line of its name is line 0.
    Line(usize),
    NoMemory,
}

impl From<AllocError> for CaseError {
    fn from(_: AllocError) -> Self {
        CaseError::NoMemory
    }
}

impl<T: Drop> From<AllocFailed<T>> for CaseError {
    fn from(_: AllocFailed<T>) -> Self {
        CaseError::NoMemory
    }
}

impl From<NoMemory> for CaseError {
    fn from(_: NoMemory) -> Self {
        CaseError::NoMemory
    }
}

/// A case.
#[derive(Clone, Copy)]
pub struct Case<'t> {
    /// The first line, behind `== `.
    pub title: &'t str,
    /// The lines behind the first.
    pub body: &'t str,
}

impl<'t> Case<'t> {
    /// The case of this text, which begins behind `== `.
    pub fn new(text: &'t str) -> Self {
        match text.split_once('\n') {
            Some((title, body)) => Case { title, body },
            None => Case {
                title: text,
                body: "",
            },
        }
    }

    /// Its name.
    pub fn name(&self) -> &'t str {
        match self.title.split_once('|') {
            Some((name, _)) => name.trim(),
            None => self.title.trim(),
        }
    }

    /// What stands behind its name: its fields, with `|` between them.
    pub fn fields(&self) -> &'t str {
        match self.title.split_once('|') {
            Some((_, fields)) => fields,
            None => "",
        }
    }
}
