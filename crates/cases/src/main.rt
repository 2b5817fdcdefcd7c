//! Runs the cases of its data files, and prints what each one gives.
//!
//! The arguments name the files, in the order in which they are run: those in `histories/` hold entries of a book
//! (`history.rt`), those in `books/` sessions over one book (`serving.rt`), the others bytes that are sent to the top
//! call (`session.rt`). All have the form that `case.rt` describes. A file that can't be read, and a line that isn't
//! understood, end the program with an error and status 1.
#![tactic(auto)]

mod case;
mod desk;
mod escape;
mod file;
mod history;
mod input;
mod serving;
mod session;
mod setup;
mod shown;
mod step;

use crate::file::run_file;
use std::io::{self, Write};
use std::process::ExitCode;
use std::{env, fs};

fn main(rt: HostRuntime) -> io::Result<ExitCode> {
    for file in env::args(&rt)?.skip(1) {
        let text = match fs::read_to_string(&rt, file.as_str()) {
            Ok(text) => text,
            Err(why) => {
                eprintln!(rt; "{file}: {why}")?;
                return Ok(ExitCode::from(1));
            }
        };
        match run_file(rt.alloc(), file.as_str(), text.as_str()) {
            Ok(output) => rt.stdout().write_all(output.as_slice())?,
            Err(why) => {
                eprintln!(rt; "{file}: {why}")?;
                return Ok(ExitCode::from(1));
            }
        }
    }
    Ok(ExitCode::from(0))
}
