//! What the command does.
ghost use Rattle.std.specs.Prelude.{◌≡◌, ℕ, List, Some, IfOk, IfErr, IfSome};
ghost use Rattle.ph_history.specs.Grammar.{told_by};
ghost use Rattle.ph_replaying.specs.Commands.{AnswersOrFails, Does, Gives, IsOf, Outcome, Replays};
ghost use Rattle.ph_replaying.specs.Texts.{is_replay};
ghost use Rattle.ph_replaying.specs.Commands.Outcome.{Whole, Faulty};

use crate::telling::{refuse, tell};
use ph_base::Bytes;
use ph_history::{HistoryFault, read_history};
use ph_io::{Sink, Source};
use ph_replay::{Replayed, Watch, replay};
use std::alloc::Global;

// Whether the words ask for a replay.
fn asks(words: &[Bytes]) -> bool
    ensures { result ≡ is_replay words.now }
{
    match words {
        [word] => word.as_slice() == b"replay".as_slice(),
        [] | [_, _, ..] => false,
    }
}

// The history that the input gives, entered anew.
fn enter<S: Source, W: Watch>(
    alloc: Global,
    input: &mut S,
    watch: &mut W,
) -> Result<Replayed, HistoryFault>
    ensures whole { IfOk result (λ replayed. Gives (S.source input.old) (S.source input.new) (Whole (told_by replayed.book.setup replayed.book.history))) }
    ensures faulty { IfErr result (λ fault. Gives (S.source input.old) (S.source input.new) (Faulty fault)) }
{
    let (setup, entries) = match read_history(alloc, input) {
        Ok(history) => history,
        Err(fault) => return Err(fault),
    };
    replay(alloc, setup, entries.as_slice(), watch)
}

// Enters the history that the input gives anew and tells of it, or of why there is none.
fn run_replay<S: Source, K: Sink, W: Watch>(
    alloc: Global,
    input: &mut S,
    output: &mut K,
    watch: &mut W,
) -> u8
    ensures { Replays (S.source input.old) (S.source input.new) (K.sink output.old) (K.sink output.new) result }
{
    match enter(alloc, input, watch) {
        Ok(replayed) => {
            let status = tell(&replayed, output);
            replayed.end();
            status
        }
        Err(fault) => refuse(fault, output),
    }
}

/// Does what the words ask for, without the program's own name, where they are `replay` alone, and answers the exit
/// status; none where they are others, and then nothing was read or written.
///
/// The input is a history's text, which is read whole. Its entries are entered anew, and then a line is written for
/// each reply: `reply`, the place of the entry that it answers, its status, and the SHA-256 of its body in lower-case
/// hexadecimal. The summary of the history stands behind them. The
/// watch is told how far it is. The status is
///
/// | status | where |
/// |---|---|
/// | 0 | all of that was written |
/// | 3 | a read failed |
/// | 4 | a write failed |
/// | 5 | the text is cut: it ends before the LF of its last line |
/// | 6 | there was no memory |
/// | 8 | a line is outside the form, or its entry isn't legal: the output is `line N`, the first such |
pub fn run<S: Source, K: Sink, W: Watch>(
    alloc: Global,
    words: &[Bytes],
    input: &mut S,
    output: &mut K,
    watch: &mut W,
) -> Option<u8>
    // What was read, and what was written of it.
    ensures replays { Does (is_replay words.now) (S.source input.old) (S.source input.new) (K.sink output.old) (K.sink output.new) result }

    // Where the input tells its bytes, this is what they come to: each of 0, 5 and 8 comes exactly where it should, but for a read
    // or a write that failed and want of memory.
    ensures exactly { IfSome result (λ status. (bytes : List ℕ) (outcome : Outcome) → (S.source input.old).left ≡ Some bytes → IsOf bytes outcome
        → AnswersOrFails (K.sink output.old) (K.sink output.new) outcome status) }
{
    if asks(words) {
        Some(run_replay(alloc, input, output, watch))
    } else {
        None
    }
}
