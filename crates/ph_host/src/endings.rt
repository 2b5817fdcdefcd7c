//! What a server writes at its end.
ghost use Rattle.std.specs.Prelude.{◌++◌};
ghost use Rattle.ph_drill.specs.Lines.{Writes};
ghost use Rattle.ph_drill.specs.Summary.{summary_of};
ghost use Rattle.ph_history.specs.Grammar.{told_by};
ghost use Rattle.ph_history.specs.Text.{history_text};
ghost use Rattle.ph_host.specs.Endings.{end_text, told_whole};

use ph_book::Book;
use ph_drill::write_summary;
use ph_history::write_history;
use ph_io::{Sink, WriteFailed};

// Writes the text of a book's history.
fn write_told<K: Sink>(book: &Book, output: &mut K) -> Result<(), WriteFailed>
    ensures { Writes (K.sink output.old) (K.sink output.new) (history_text (told_by book.now.setup book.now.history)) result }
{
    write_history(book.setup(), book.history(), output)
}

// Writes the text of a book's history, and the summary behind it.
fn write_whole<K: Sink>(book: &Book, output: &mut K) -> Result<(), WriteFailed>
    ensures { Writes (K.sink output.old) (K.sink output.new) (told_whole book.now.setup book.now.history) result }
{
    write_told(book, output)?;
    write_summary(book, output)
}

/// Writes the text of a book's history, where it is asked for, and then the summary. It takes no memory.
pub fn write_end<K: Sink>(book: &Book, history: bool, output: &mut K) -> Result<(), WriteFailed>
    ensures { Writes (K.sink output.old) (K.sink output.new) (end_text history book.now.setup book.now.history) result }
{
    if history {
        write_whole(book, output)
    } else {
        write_summary(book, output)
    }
}
