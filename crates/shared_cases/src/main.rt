//! Sessions that share one book behind a lock: what each client gets, and what the history then has. It prints the same
//! whatever the schedule.
#![tactic(auto)]

mod cases;
mod inputs;
mod meanwhile;
mod shown;
mod worker;

use cases::{Outcome, cut, fifty_each, full, key_in_use, key_left, link_fails, patience_ends};
use std::io;

// Prints what a case gave.
fn print<R: io::Print>(rt: &R, name: &str, outcome: Outcome) -> io::Result<()> {
    match outcome {
        Some(text) => println!(rt; "== {name}\n{text}"),
        None => println!(rt; "== {name}\nno memory\n"),
    }
}

fn main(rt: HostRuntime) -> io::Result<()> {
    let alloc = rt.alloc();
    print(
        &rt,
        "fifty requests of each of two clients",
        fifty_each(&rt, alloc),
    )?;
    print(&rt, "the history is full", full(&rt, alloc))?;
    print(&rt, "the bytes end within a request", cut(&rt, alloc))?;
    print(&rt, "the link fails", link_fails(&rt, alloc))?;
    print(&rt, "the patience ends", patience_ends(&rt, alloc))?;
    print(&rt, "a key is in use", key_in_use(&rt, alloc))?;
    print(
        &rt,
        "a key is in use, and its run is left",
        key_left(&rt, alloc),
    )
}
