//! Reads the texts of histories and enters them anew, and prints what comes of each.
//!
//! The arguments name files. The first line of a file describes it; a line `== NAME` begins a case. The lines of the
//! case that don't begin with `#` or `~` are a text, each with its LF; empty ones don't count. The text is read, written
//! again and compared, and its history is entered anew: what is replied is printed, or the fault. A line
//! `~ NAME | FROM | TO` says that the same is to be done with the text in which the first FROM is TO, and prints one
//! line; `~ NAME | cut N` leaves out the text's last N bytes, `~ NAME | most N` reads at most N bytes at a time,
//! `~ NAME | fault N` lets the read of that number fail, counted from 0, and `~ NAME | fronts` takes each front of the
//! text that isn't all of it. In a text `{PART*N}` is PART N times; in FROM and TO also `\n` is an LF.
#![tactic(auto)]

mod changes;
mod outcome;
mod texts;

use ph_base::NoMemory;
use std::alloc::{AllocError, Global};
use std::io::Write;
use std::{env, fs, io};

fn main(rt: HostRuntime) -> io::Result<()> {
    for file in env::args(&rt)?.skip(1) {
        let cases = fs::read_to_string(&rt, file.as_str())?;
        for case in cases.as_str().split("\n== ").skip(1) {
            let printed = printed(rt.alloc(), case)?;
            rt.stdout().write_all(printed.as_slice())?;
        }
    }
    Ok(())
}

// What is printed for a case.
fn printed(alloc: Global, case: &str) -> Result<Vec<u8>, AllocError> {
    match run_case(alloc, case) {
        Ok(printed) => Ok(printed),
        Err(NoMemory) => Err(AllocError),
    }
}

// The text of the case, and then each change of it.
fn run_case(alloc: Global, case: &str) -> Result<Vec<u8>, NoMemory> {
    let text = texts::text_of(alloc, case)?;
    let mut printed = outcome::shown(alloc, texts::name_of(case), text.as_str())?;
    for line in case.lines() {
        if line.starts_with('~') {
            printed.extend_from_slice(changes::shown(alloc, line, text.as_str())?.as_bytes())?;
        }
    }
    Ok(printed)
}
