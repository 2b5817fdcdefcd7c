//! Plays lists of moves on worlds, and prints what comes of them.
//!
//! The arguments name files of cases, in the order in which they are played (`case.rt` describes them). The word
//! `lists=5` plays every list of up to five moves over two requests under one key, and compares each with the plain
//! definitions (`lists.rt`); any number up to 9 may stand in place of the 5. A file that can't be read, a line that isn't
//! understood and another number end the program with an error and status 1.
#![tactic(auto)]

mod case;
mod lists;
mod plain;
mod requests;
mod shown;

use std::io::{self, Write};
use std::process::ExitCode;
use std::{env, fs};

fn main(rt: HostRuntime) -> io::Result<ExitCode> {
    for file in env::args(&rt)?.skip(1) {
        if let Some(digits) = file.as_str().strip_prefix("lists=") {
            let Some(longest) = lists::longest_of(digits) else {
                eprintln!(rt; "{file}: a number up to 9 is wanted")?;
                return Ok(ExitCode::from(1));
            };
            let Ok(output) = lists::play_all(rt.alloc(), longest) else {
                eprintln!(rt; "lists: there is no memory")?;
                return Ok(ExitCode::from(1));
            };
            rt.stdout().write_all(output.as_slice())?;
            continue;
        }
        let text = match fs::read_to_string(&rt, file.as_str()) {
            Ok(text) => text,
            Err(why) => {
                eprintln!(rt; "{file}: {why}")?;
                return Ok(ExitCode::from(1));
            }
        };
        match case::play_file(rt.alloc(), text.as_str()) {
            Ok(output) => rt.stdout().write_all(output.as_slice())?,
            Err(number) => {
                eprintln!(rt; "{file}: line {number} isn't understood, or there is no memory")?;
                return Ok(ExitCode::from(1));
            }
        }
    }
    Ok(ExitCode::from(0))
}
