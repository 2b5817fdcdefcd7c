//! Cases of a file: lists of moves, each played on a new world.
//!
//! A file begins with lines that describe it, and a case with a line `== NAME`, or `== NAME | ENTRIES`, which has room for
//! so many entries. A move is a line; one that begins with `# ` is a comment.
//!
//! | line | move |
//! |---|---|
//! | `arrive CALLER KEY METHOD PATH BODY` | a request, under an idempotency key; `-` as key or body is none |
//! | `poll RUN`, `drop RUN`, `fail RUN` | a future is polled, is dropped, or its link fails |
//! | `decide REFERENCE approved`, `declined` or `challenge` | the acquirer decides |
//! | `clock MOMENT` | the clock shows a moment |
//! | `resume CALLER` | the attempt that waits longest is taken up again |
//!
//! It prints each line with the status that the move is answered, and at the end the history, the number of asks and the
//! payment intents; then, once the world has ended, the history of the book that is left.

use crate::requests::{request_of, setup_of};
use crate::shown::{add_book, add_number, add_reply, add_text};
use ph_base::{Decline, NoMemory, Ruling, read_number};
use ph_world::{Move, World, WorldError};
use std::alloc::{AllocError, Global};

/// A line that isn't understood, by its number from 1; or 0, where there is no memory.
type Line = usize;

fn no_memory(_: NoMemory) -> Line {
    0
}

fn no_room(_: AllocError) -> Line {
    0
}

fn ruling_of(word: &str) -> Option<Ruling> {
    match word {
        "approved" => Some(Ruling::Approved),
        "declined" => Some(Ruling::Declined(Decline::NoFunds)),
        "challenge" => Some(Ruling::Challenge),
        _ => None,
    }
}

// The move of a line: none where it isn't understood.
fn move_of(alloc: Global, line: &str) -> Result<Option<Move>, NoMemory> {
    let mut words = line.split(' ');
    let word = words.next().unwrap_or("");
    let Some(number) = read_number(words.next().unwrap_or("").as_bytes()) else {
        return Ok(None);
    };
    Ok(match word {
        "arrive" => {
            let key = words.next().unwrap_or("-");
            let method = words.next().unwrap_or("");
            let path = words.next().unwrap_or("");
            let body = words.next().unwrap_or("-");
            Some(Move::Arrive {
                caller: number,
                raw: request_of(alloc, key, method, path, body)?,
            })
        }
        "poll" => Some(Move::Poll { run: number }),
        "drop" => Some(Move::Drop { run: number }),
        "fail" => Some(Move::Fail { run: number }),
        "decide" => match ruling_of(words.next().unwrap_or("")) {
            Some(ruling) => Some(Move::Decide {
                reference: number,
                ruling,
            }),
            None => None,
        },
        "clock" => Some(Move::Clock { now: number }),
        "resume" => Some(Move::Resume { caller: number }),
        _ => None,
    })
}

// Makes the move of a line, and adds the line and what the move is answered.
fn add_move(
    alloc: Global,
    output: &mut Vec<u8>,
    world: &mut World,
    line: &str,
    number: Line,
) -> Result<(), Line> {
    let Some(m) = move_of(alloc, line).map_err(no_memory)? else {
        return Err(number);
    };
    add_text(output, line).map_err(no_room)?;
    add_text(output, "\n-> ").map_err(no_room)?;
    match world.step(&m) {
        Ok(reply) => add_reply(alloc, output, &reply).map_err(no_room)?,
        Err(WorldError::Full) => add_text(output, "full").map_err(no_room)?,
        Err(WorldError::NoMemory) => return Err(0),
    }
    add_text(output, "\n").map_err(no_room)
}

// Makes the moves of a case, above which so many lines stand.
fn add_moves(
    alloc: Global,
    output: &mut Vec<u8>,
    world: &mut World,
    body: &str,
    above: usize,
) -> Result<(), Line> {
    let mut number = above;
    for line in body.split('\n') {
        number = number.saturating_add(1);
        if !line.is_empty() && !line.starts_with("# ") {
            add_move(alloc, output, world, line, number)?;
        }
    }
    add_text(output, "asks ").map_err(no_room)?;
    add_number(alloc, output, world.asks()).map_err(no_room)?;
    add_text(output, "; ").map_err(no_room)?;
    add_book(alloc, output, world.book()).map_err(no_room)
}

// How many entries a case has room for.
fn entries_of(title: &str) -> Option<u32> {
    match title.split_once(" | ") {
        None => Some(1000),
        Some((_, entries)) => u32::try_from(read_number(entries.as_bytes())?).ok(),
    }
}

// Plays a case, which begins behind `== `.
fn add_case(alloc: Global, output: &mut Vec<u8>, text: &str, above: usize) -> Result<(), Line> {
    let (title, body) = text.split_once('\n').unwrap_or((text, ""));
    let Some(entries) = entries_of(title) else {
        return Err(above);
    };
    add_text(output, "== ").map_err(no_room)?;
    add_text(output, title).map_err(no_room)?;
    add_text(output, "\n").map_err(no_room)?;
    let setup = match setup_of(alloc, entries) {
        Ok(setup) => setup,
        Err(fault) => return Err(no_memory(fault)),
    };
    let mut world = World::new(alloc, setup).map_err(no_memory)?;
    let added = add_moves(alloc, output, &mut world, body, above);
    let book = world.end();
    added?;
    add_text(output, "left: ").map_err(no_room)?;
    add_book(alloc, output, &book).map_err(no_room)?;
    add_text(output, "\n").map_err(no_room)
}

/// Plays the cases of a file, in their order, and gives what they print.
pub fn play_file(alloc: Global, text: &str) -> Result<Vec<u8>, Line> {
    let mut output = Vec::new(alloc);
    let mut above = 0usize;
    for (i, part) in text.split("\n== ").enumerate() {
        if i > 0 {
            add_case(alloc, &mut output, part, above.saturating_add(1))?;
        }
        above = part.split('\n').count().saturating_add(above);
    }
    Ok(output)
}
