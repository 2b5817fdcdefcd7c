//! What holds of every history that is entered anew.
ghost use Rattle.std.specs.Prelude.{◌≡◌, ℕ, ◌<◌, ◌^◌, List};
ghost use Rattle.ph_book.specs.declared.acts.Entry.{Entry};
ghost use Rattle.ph_book.specs.declared.setup.Setup.{Setup};
ghost use Rattle.ph_book.specs.Laws.{RunsFollow};
ghost use Rattle.ph_book.specs.Legal.{IsLegal};
ghost use Rattle.ph_replay.specs.Legal.{IsIllegalAt};
ghost use Rattle.ph_replay.specs.Tickets.{AreFound};

use ph_book::{Book, history_is_legal, runs_follow};

/// A history with a line that isn't legal isn't legal.
pub fn illegal_is_not_legal()
    ensures { (setup : Setup) (entries : List Entry) (at : ℕ) → IsIllegalAt setup entries at → IsLegal setup entries → ⊥ }
{}

/// A history has one first line that isn't legal.
pub fn illegal_line_is_one()
    ensures { (setup : Setup) (entries : List Entry) (at other : ℕ) → IsIllegalAt setup entries at → IsIllegalAt setup entries other → at ≡ other }
{}

// A setup has room for fewer than 2^32 entries.
fn few_entries(_entries: u32)
    ensures { _entries < 2 ^ 32 }
{}

/// The live runs of a book: how they follow from entry to entry, and that they are found by their callers and numbers.
pub(crate) fn live_runs(book: &Book)
    ensures follow { RunsFollow book.now.setup book.now.history }
    ensures found { AreFound book.now.setup book.now.history }
{
    history_is_legal(book);
    few_entries(book.setup().entries);
    runs_follow(book.setup(), book.history());
}
