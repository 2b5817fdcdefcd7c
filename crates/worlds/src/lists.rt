//! All lists of up to some number of moves over two requests under one key, each compared with the plain definitions.
//!
//! The requests are equal, and of two callers that race for the key; the runs that the lists name are the first that a
//! request begins, and those that begin at the third place.

use crate::plain::{Plain, Step};
use crate::requests::{request_of, setup_of};
use crate::shown::{add_number, add_text};
use ph_base::{Decline, NoMemory, Ruling, read_number};
use ph_book::Book;
use ph_world::{Move, World, WorldError};
use std::alloc::Global;

// The reference of the attempt: the number of its object.
const REFERENCE: u64 = 3;

// The lists of one length are numbered in 32 bits, a digit a move.
const LONGEST: u32 = 9;

const STEPS: [Step; 10] = [
    Step::Arrive(1),
    Step::Arrive(2),
    Step::Poll(1),
    Step::Poll(3),
    Step::Drop(1),
    Step::Drop(3),
    Step::Fail(1),
    Step::Decide(Ruling::Approved),
    Step::Decide(Ruling::Declined(Decline::NoFunds)),
    Step::Resume(3),
];

// The move of a step.
fn move_of(alloc: Global, step: Step) -> Result<Move, NoMemory> {
    Ok(match step {
        Step::Arrive(caller) => Move::Arrive {
            caller,
            raw: request_of(
                alloc,
                "k",
                "POST",
                "/v1/payment_intents",
                "amount=2000&currency=usd&payment_method=pm_card_visa&confirm=true",
            )?,
        },
        Step::Poll(run) => Move::Poll { run },
        Step::Drop(run) => Move::Drop { run },
        Step::Fail(run) => Move::Fail { run },
        Step::Decide(ruling) => Move::Decide {
            reference: REFERENCE,
            ruling,
        },
        Step::Resume(caller) => Move::Resume { caller },
    })
}

// Whether the history is that of the plain definitions, with one ruling at most.
fn is_history(book: &Book, plain: &Plain) -> bool {
    let mut same = book.history().len() == plain.entries() && plain.rulings() <= 1;
    for (place, entry) in book.history().iter().enumerate() {
        same = same && plain.has(place, &entry.deed);
    }
    same
}

// Takes a step on both, and says whether they agree.
fn agrees(
    alloc: Global,
    world: &mut World,
    plain: &mut Plain,
    step: Step,
) -> Result<bool, NoMemory> {
    let m = move_of(alloc, step)?;
    match world.step(&m) {
        Ok(reply) => {
            let same = plain.answers(step, &reply)?;
            Ok(same && world.asks() == plain.asks() && is_history(world.book(), plain))
        }
        Err(WorldError::NoMemory) => Err(NoMemory),
        Err(WorldError::Full) => Ok(false),
    }
}

// Plays the list of a length whose steps are the digits of a number, and says whether both agree after each.
fn all_agree(alloc: Global, world: &mut World, number: u32, length: u32) -> Result<bool, NoMemory> {
    let mut plain = Plain::new(alloc);
    let mut rest = number;
    for _ in 0..length {
        let step = STEPS[(rest % 10) as usize];
        rest /= 10;
        if !agrees(alloc, world, &mut plain, step)? {
            return Ok(false);
        }
    }
    Ok(true)
}

fn is_played(alloc: Global, number: u32, length: u32) -> Result<bool, NoMemory> {
    let mut world = World::new(alloc, setup_of(alloc, 100)?)?;
    let agree = all_agree(alloc, &mut world, number, length);
    let _ = world.end();
    agree
}

/// The number of moves that these digits are, where lists of so many can be played.
pub fn longest_of(digits: &str) -> Option<u32> {
    let longest = u32::try_from(read_number(digits.as_bytes())?).ok()?;
    if longest <= LONGEST {
        Some(longest)
    } else {
        None
    }
}

/// Plays all lists of up to this number of moves, and says how many there are and how many differ from the plain
/// definitions.
pub fn play_all(alloc: Global, longest: u32) -> Result<Vec<u8>, NoMemory> {
    let mut lists = 0u64;
    let mut differ = 0u64;
    let mut count = 1u32;
    for length in 0..=longest {
        for number in 0..count {
            lists = lists.saturating_add(1);
            if !is_played(alloc, number, length)? {
                differ = differ.saturating_add(1);
            }
        }
        count = count.saturating_mul(10);
    }
    let mut output = Vec::new(alloc);
    add_number(alloc, &mut output, lists)?;
    add_text(&mut output, " lists of up to ")?;
    add_number(alloc, &mut output, longest as u64)?;
    add_text(&mut output, " moves, ")?;
    add_number(alloc, &mut output, differ)?;
    add_text(&mut output, " differ\n")?;
    Ok(output)
}
