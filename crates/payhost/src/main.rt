//! The program: it hands the words of the command line and the real devices to the top call that they ask for. What it says to
//! a person beside that stands on standard error.
#![tactic(auto)]

mod help;
mod meter;
mod once;
mod replaying;
mod serve;
mod signing;
mod words;

use once::once;
use ph_base::{Bytes, NoMemory};
use ph_host::{Plan, find_misuse, plan};
use replaying::replaying;
use serve::serve;
use signing::signing;
use std::process::ExitCode;
use words::words;

fn main(rt: HostRuntime) -> ExitCode {
    let words = match words(rt.alloc(), std::env::args(&rt)) {
        Ok(words) => words,
        Err(NoMemory) => return ExitCode::from(6),
    };
    let status = match plan(words.as_slice()) {
        Plan::Host {
            port,
            workers,
            connections,
            patience,
        } => serve(
            &rt,
            rt.alloc(),
            rt.stdout(),
            words.as_slice(),
            port,
            workers,
            connections,
            patience,
        ),
        Plan::Once { patience } => once(&rt, words.as_slice(), patience),
        Plan::Usage => match beside(&rt, words.as_slice()) {
            Some(status) => status,
            None => {
                match find_misuse(words.as_slice()) {
                    Some(misuse) => help::tell(&rt, &misuse, words.as_slice()),
                    None => {}
                }
                once(&rt, words.as_slice(), 0)
            }
        },
    };
    ExitCode::from(status)
}

// Runs the command that needs no host, where the words ask for one. None where they ask for something else, and then nothing is
// read or written.
fn beside(rt: &HostRuntime, words: &[Bytes]) -> Option<u8> {
    match signing(rt, words) {
        Some(status) => Some(status),
        None => replaying(rt, words),
    }
}
