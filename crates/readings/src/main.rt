//! Runs the readers of payhost's lower libraries over tables of texts, and prints what each text is read as.
//!
//! The arguments name the tables, files of which each has a reader of its own. A line of a table is a case: fields
//! between `|`, of which the first is the case's name and the second says what is asked of the reader; blanks around a
//! field don't count. Lines without a `|`, and those that begin with `#`, describe the table. For each case one line is
//! printed: its name, and what was read. In both, bytes that can't be seen are written as `line.rt` says.
#![tactic(auto)]

mod addresses;
mod documents;
mod errors;
mod forms;
mod http;
mod ids;
mod kinds;
mod line;
mod money;
mod signatures;
mod values;
mod words;

use crate::line::{Line, shown};
use ph_base::NoMemory;
use std::alloc::{AllocError, Global};
use std::io::Write;
use std::{env, fs, io};

fn main(rt: HostRuntime) -> io::Result<()> {
    for file in env::args(&rt)?.skip(1) {
        let table = fs::read_to_string(&rt, file.as_str())?;
        for text in table.as_str().lines() {
            if is_case(text) {
                let printed = printed(rt.alloc(), file.as_str(), Line::new(text))?;
                rt.stdout().write_all(printed.as_slice())?;
            }
        }
    }
    Ok(())
}

// Whether a line of a table is a case.
fn is_case(text: &str) -> bool {
    !text.starts_with('#') && text.contains('|')
}

// The line that is printed for a case.
fn printed(alloc: Global, file: &str, line: Line) -> Result<Vec<u8>, AllocError> {
    match reading(alloc, file, line) {
        Ok(read) => shown(alloc, line.field(0), read.as_slice()),
        Err(NoMemory) => Err(AllocError),
    }
}

// What the reader of the table gives.
fn reading(alloc: Global, file: &str, line: Line) -> Result<Vec<u8>, NoMemory> {
    match file {
        "addresses.txt" => addresses::read(alloc, line),
        "documents.txt" => documents::read(alloc, line),
        "errors.txt" => errors::read(alloc, line),
        "forms.txt" => forms::read(alloc, line),
        "http.txt" => http::read(alloc, line),
        "ids.txt" => ids::read(alloc, line),
        "kinds.txt" => kinds::read(alloc, line),
        "money.txt" => money::read(alloc, line),
        "signatures.txt" => signatures::read(alloc, line),
        "values.txt" => values::read(alloc, line),
        "words.txt" => words::read(alloc, line),
        _ => line::unknown(alloc),
    }
}
