//! The world.
ghost use Rattle.std.specs.Prelude.{◌≡◌, ◌<◌, ◌≤◌, ◌^◌, [], false, length, IfOk, IfErr, OnOk, OnErr, IsTrue};
ghost use Rattle.ph_items.specs.Clocks.{clock_limit};
ghost use Rattle.ph_book.specs.Laws.{runs_of};
ghost use Rattle.ph_world.specs.declared.moves.WorldError.TheVariants as error;
ghost use Rattle.ph_world.specs.Laws.{IsReached};
ghost use Rattle.ph_world.specs.Moves.{after_move, after_moves, is_refused, replied};
ghost use Rattle.ph_world.specs.Playing.{NoneRefused, StopsAt, ended};
ghost use Rattle.ph_world.specs.Worlds.{new_world};

use crate::inner::Inner;
use crate::moves::{Move, WorldError};
use ph_base::NoMemory;
use ph_book::{Book, Setup};
use ph_http::Reply;
use std::alloc::Global;
use std::marker::Model;

/// A book with one history, the runs in flight, what the acquirer has decided, and what it was asked: what some list of
/// moves leads to. It holds tickets, so it can't be dropped, but only ended.
pub struct World {
    inner: Inner,
}

impl Model for World {
    ghost use Rattle.ph_world.specs.Laws.{IsReached};
    ghost use Rattle.ph_world.specs.Worlds.{WorldState};

    ghost Value = { WorldState };

    ghost view = { λ w. w.inner };

    ghost invariant = { λ w. IsReached w.inner };
}

// A setup has room for fewer than 2^32 entries.
fn few_entries(_entries: u32)
    ensures { _entries < 2 ^ 32 }
{}

impl World {
    /// A new world, over a book without entries.
    pub fn new(alloc: Global, setup: Setup) -> Result<World, NoMemory>
        requires opened { setup.opened ≤ clock_limit }
        ensures { IfOk result (λ world. world ≡ new_world setup) }
    {
        few_entries(setup.entries);
        Ok(World {
            inner: Inner::new(alloc, setup)?,
        })
    }

    /// Carries out a move, and answers the reply to the entry that it added, where it added one that has a reply. A move
    /// that names nothing in flight changes nothing; one that is refused changes nothing either.
    pub fn step(&mut self, m: &Move) -> Result<Option<Reply>, WorldError>
        ensures after { OnOk result (self.new ≡ after_move self.old m.now) }
        ensures reply { IfOk result (λ reply. reply ≡ replied self.old.book self.new.book) }
        ensures unchanged { OnErr result (self.new ≡ self.old) }
        ensures full { IfErr result (λ why. why ≡ error.Full → IsTrue (is_refused self.old.book m.now)) }
        ensures room { OnOk result (is_refused self.old.book m.now ≡ false) }
        ensures reached { IsReached self.new }
    {
        self.inner.step(m)
    }

    /// Carries out moves in order, up to one that is refused: those before it stand.
    pub fn play(&mut self, moves: &[Move]) -> Result<(), WorldError>
        ensures played { OnOk result (self.new ≡ after_moves self.old moves.now) }
        ensures room { OnOk result (NoneRefused self.old moves.now) }
        ensures stopped { IfErr result (λ why. StopsAt self.old moves.now self.new why) }
    {
        for m in moves {
            match self.step(m) {
                Ok(_) => {}
                Err(why) => return Err(why),
            }
        }
        Ok(())
    }

    /// The book, with the world's history. Some list of moves leads to the world.
    pub fn book(&self) -> &Book
        ensures value { result.now ≡ self.now.book }
        ensures reached { IsReached self.now }
    {
        self.inner.book()
    }

    /// How often the acquirer was asked.
    pub fn asks(&self) -> u64
        ensures { result ≡ length self.now.asks }
    {
        self.inner.asks()
    }

    /// Gives up each run in flight, in the order of their numbers, and has the book that is left. It takes no memory.
    pub fn end(self) -> Book
        ensures book { result ≡ ended self.book self.flights }
        ensures none_in_flight { runs_of result.setup result.history ≡ [] }
    {
        let World { inner } = self;
        inner.end()
    }
}
