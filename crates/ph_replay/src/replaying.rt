//! Entering a history anew.
ghost use Rattle.std.specs.Prelude.{◌≡◌, IfOk, IfErr, OnOk};
ghost use Rattle.ph_book.specs.Laws.{runs_of};
ghost use Rattle.ph_book.specs.Legal.{IsLegal};
ghost use Rattle.ph_replay.specs.Legal.{IsRefused};
ghost use Rattle.ph_replay.specs.Told.{told_of};

use crate::replayed::Replayed;
use crate::unentered::Unentered;
use crate::watches::Watch;
use ph_base::NoMemory;
use ph_book::{Entry, Setup};
use ph_history::HistoryFault;
use ph_items::CLOCK_LIMIT;
use std::alloc::Global;

/// Enters the entries of a history anew in a book of this setup.
///
/// It answers with the book exactly where they are a legal history; then its history is that one, all of its replies are
/// told, and the tickets are those of its live runs. Where they aren't one, it answers `Illegal` with the line that the
/// first entry at fault has in the history's text: the setup stands in line 2, where no book opens at its moment, and
/// the first entry in line 3. It may instead answer that there was no memory, and answers nothing else. Before each entry
/// the watch is told how far it is.
pub fn replay<W: Watch>(
    alloc: Global,
    setup: Setup,
    entries: &[Entry],
    watch: &mut W,
) -> Result<Replayed, HistoryFault>
    ensures history { IfOk result (λ replayed. replayed.book ≡ record { setup = setup; history = entries.now }) }
    ensures replies { IfOk result (λ replayed. replayed.replies ≡ told_of setup entries.now) }
    ensures tickets { IfOk result (λ replayed. replayed.tickets ≡ runs_of setup entries.now) }
    ensures legal { OnOk result (IsLegal setup entries.now) }
    ensures refused { IfErr result (λ why. IsRefused setup entries.now why) }
{
    if setup.opened > CLOCK_LIMIT {
        return Err(HistoryFault::Illegal { at: 2 });
    }
    let mut replayed = match Replayed::new(alloc, setup) {
        Ok(replayed) => replayed,
        Err(NoMemory) => return Err(HistoryFault::NoMemory),
    };
    for (i, entry) in entries.iter().enumerate() {
        watch.entered(i as u64, entries.len() as u64);
        replayed.lawful();
        match replayed.enter(alloc, entry) {
            Ok(()) => {}
            Err(why) => {
                replayed.end();
                return Err(match why {
                    Unentered::Illegal => HistoryFault::Illegal { at: i as u64 + 3 },
                    Unentered::NoMemory => HistoryFault::NoMemory,
                });
            }
        }
    }
    replayed.lawful();
    Ok(replayed)
}
