//! What is written of a history, or of why there is none.
ghost use Rattle.ph_drill.specs.Lines.{Writes};
ghost use Rattle.ph_replaying.specs.Commands.{Prints, Refuses};
ghost use Rattle.ph_replaying.specs.Texts.{refusal, replay_text};
ghost use Rattle.ph_replay.specs.Lines.{replies_text};
ghost use Rattle.ph_history.specs.Grammar.{told_by};

use ph_drill::write_summary;
use ph_history::HistoryFault;
use ph_io::{Sink, WriteFailed};
use ph_lines::{Field, write_line};
use ph_replay::{Replayed, Told, write_replies};

// The line of each reply.
fn write_told<K: Sink>(replies: &[Told], output: &mut K) -> Result<(), WriteFailed>
    ensures { Writes (K.sink output.old) (K.sink output.new) (replies_text replies.now) result }
{
    write_replies(replies, output)
}

// The line of each reply, and the summary behind them.
fn write_replayed<K: Sink>(replayed: &Replayed, output: &mut K) -> Result<(), WriteFailed>
    ensures { Writes (K.sink output.old) (K.sink output.new) (replay_text (told_by replayed.now.book.setup replayed.now.book.history)) result }
{
    write_told(replayed.replies(), output)?;
    write_summary(replayed.book(), output)
}

// The line of the first line at fault.
fn write_refusal<K: Sink>(at: u64, output: &mut K) -> Result<(), WriteFailed>
    ensures { Writes (K.sink output.old) (K.sink output.new) (refusal at) result }
{
    write_line(output, b"line", &[Field::Number(at)])
}

/// Writes what is told of a history that was entered anew, and answers the status: 0, or 4 where a write failed.
pub fn tell<K: Sink>(replayed: &Replayed, output: &mut K) -> u8
    ensures { Prints (K.sink output.old) (K.sink output.new) (replay_text (told_by replayed.now.book.setup replayed.now.book.history)) 0 result }
{
    match write_replayed(replayed, output) {
        Ok(()) => 0,
        Err(WriteFailed) => 4,
    }
}

// Writes the first line at fault, and answers the status: 8, or 4 where a write failed.
fn point<K: Sink>(at: u64, output: &mut K) -> u8
    ensures { Prints (K.sink output.old) (K.sink output.new) (refusal at) 8 result }
{
    match write_refusal(at, output) {
        Ok(()) => 8,
        Err(WriteFailed) => 4,
    }
}

/// Says why there is no history, and answers the status.
pub fn refuse<K: Sink>(fault: HistoryFault, output: &mut K) -> u8
    ensures { Refuses (K.sink output.old) (K.sink output.new) fault result }
{
    match fault {
        HistoryFault::BadLine { at } => point(at, output),
        HistoryFault::Illegal { at } => point(at, output),
        HistoryFault::Cut => 5,
        HistoryFault::ReadFault => 3,
        HistoryFault::NoMemory => 6,
    }
}
