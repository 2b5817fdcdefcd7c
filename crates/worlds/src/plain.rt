//! The plain definitions, of two equal requests under one key: what each move does by the rules alone, with no book.
//!
//! The requests ask for one payment, which is confirmed at once: its payment intent is object 2, and its attempt object
//! 3. Under one key there is one attempt, however often they arrive.

use ph_base::Ruling;
use ph_book::Deed;
use ph_http::Reply;
use std::alloc::{AllocError, Global};

/// A move of these lists.
#[derive(Clone, Copy)]
pub enum Step {
    /// The request of a caller arrives.
    Arrive(u64),
    Poll(u64),
    Drop(u64),
    Fail(u64),
    /// The acquirer decides on the attempt.
    Decide(Ruling),
    Resume(u64),
}

// Where the attempt stands.
#[derive(Clone, Copy)]
enum Attempt {
    NotBegun,
    /// The run of this number is live.
    Live(u64),
    Parked,
    Settled(Ruling),
}

/// An entry, by its kind and the run that it ends.
#[derive(Clone, Copy, PartialEq, Eq)]
enum Done {
    Call,
    Finish(u64),
    Park(u64),
    Resume,
}

/// A reply, as these lists have it.
#[derive(Clone, Copy, PartialEq, Eq)]
struct Answer {
    status: u16,
    replayed: bool,
}

/// What these lists lead to.
#[derive(Drop)]
pub struct Plain {
    history: Vec<Done>,
    attempt: Attempt,
    decision: Option<Ruling>,
    asks: u64,
}

// The status of the reply to a ruling: the payment intent is shown, or the decline.
fn status_of(ruling: Ruling) -> u16 {
    match ruling {
        Ruling::Approved => 200,
        Ruling::Declined(_) => 402,
        Ruling::Challenge => 200,
    }
}

fn reply(status: u16, replayed: bool) -> Option<Answer> {
    Some(Answer { status, replayed })
}

impl Plain {
    pub fn new(alloc: Global) -> Plain {
        Plain {
            history: Vec::new(alloc),
            attempt: Attempt::NotBegun,
            decision: None,
            asks: 0,
        }
    }

    // The number of a run that the next entry begins: the entry's place.
    fn next_run(&self) -> u64 {
        (self.history.len() as u64).saturating_add(1)
    }

    // An equal request: the first begins the attempt, one that finds it live is told so, one that finds it parked takes
    // it up again, and one that finds it settled gets the reply to the ruling once more.
    fn arrive(&mut self) -> Result<Option<Answer>, AllocError> {
        let run = self.next_run();
        self.history.push(Done::Call)?;
        Ok(match self.attempt {
            Attempt::NotBegun | Attempt::Parked => {
                self.attempt = Attempt::Live(run);
                None
            }
            Attempt::Live(_) => reply(409, false),
            Attempt::Settled(ruling) => reply(status_of(ruling), true),
        })
    }

    // A poll of the live run asks once, and enters the decision.
    fn poll(&mut self, run: u64) -> Result<Option<Answer>, AllocError> {
        match self.attempt {
            Attempt::Live(live) if live == run => {}
            _ => return Ok(None),
        }
        self.asks = self.asks.saturating_add(1);
        match self.decision {
            None => Ok(None),
            Some(ruling) => {
                self.history.push(Done::Finish(run))?;
                self.attempt = Attempt::Settled(ruling);
                Ok(reply(status_of(ruling), false))
            }
        }
    }

    // A live run that is given up leaves the attempt parked.
    fn give_up(&mut self, run: u64) -> Result<Option<Answer>, AllocError> {
        match self.attempt {
            Attempt::Live(live) if live == run => {
                self.history.push(Done::Park(run))?;
                self.attempt = Attempt::Parked;
                Ok(reply(500, false))
            }
            _ => Ok(None),
        }
    }

    fn decide(&mut self, ruling: Ruling) {
        if self.decision.is_none() {
            self.decision = Some(ruling);
        }
    }

    // A parked attempt is taken up again; the entry stands where none is parked, too.
    fn resume(&mut self) -> Result<Option<Answer>, AllocError> {
        let run = self.next_run();
        self.history.push(Done::Resume)?;
        match self.attempt {
            Attempt::Parked => self.attempt = Attempt::Live(run),
            Attempt::NotBegun | Attempt::Live(_) | Attempt::Settled(_) => {}
        }
        Ok(None)
    }

    fn answer(&mut self, step: Step) -> Result<Option<Answer>, AllocError> {
        match step {
            Step::Arrive(_) => self.arrive(),
            Step::Poll(run) => self.poll(run),
            Step::Drop(run) => self.give_up(run),
            Step::Fail(run) => self.give_up(run),
            Step::Decide(ruling) => {
                self.decide(ruling);
                Ok(None)
            }
            Step::Resume(_) => self.resume(),
        }
    }

    /// Takes a step, and says whether it is answered this reply.
    pub fn answers(&mut self, step: Step, given: &Option<Reply>) -> Result<bool, AllocError> {
        let answer = self.answer(step)?;
        Ok(match given {
            None => answer.is_none(),
            Some(given) => answer == reply(given.status, given.replayed),
        })
    }

    /// Whether the history has these deeds, at this place.
    pub fn has(&self, place: usize, deed: &Deed) -> bool {
        let done = match deed {
            Deed::Call(_) => Done::Call,
            Deed::Finish(run, _) => Done::Finish(*run),
            Deed::Park(run, _) => Done::Park(*run),
            Deed::Resume => Done::Resume,
            Deed::Tick(_) => return false,
        };
        match self.history.get(place) {
            Some(here) => *here == done,
            None => false,
        }
    }

    pub fn entries(&self) -> usize {
        self.history.len()
    }

    pub fn asks(&self) -> u64 {
        self.asks
    }

    /// How many rulings were entered.
    pub fn rulings(&self) -> usize {
        self.history
            .iter()
            .filter(|done| matches!(done, Done::Finish(_)))
            .count()
    }
}
