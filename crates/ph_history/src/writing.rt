//! Writing a history as text.
ghost use Rattle.std.specs.Prelude.{◌≡◌, OnOk, OnErr};
ghost use Rattle.ph_io.specs.Writes.{Takes, TakesFront};
ghost use Rattle.ph_book.specs.declared.acts.Deed.TheVariants as deed;
ghost use Rattle.ph_lines.specs.Fields.{line_text};
ghost use Rattle.ph_history.specs.Grammar.{told_by};
ghost use Rattle.ph_history.specs.Text.{entry_fields, history_text, setup_fields};
ghost use Rattle.ph_history.specs.Written.{entries_text, written_text};

use crate::words::{word_of_ruling, word_of_why};
use ph_book::{Deed, Entry, Setup};
use ph_http::Raw;
use ph_io::{Sink, WriteFailed};
use ph_lines::{Field, write_line};

// The line of a request.
fn write_call<K: Sink>(sink: &mut K, caller: u64, raw: &Raw) -> Result<(), WriteFailed>
    ensures all { OnOk result (Takes (K.sink sink.old) (K.sink sink.new) (line_text (entry_fields (record { caller = caller; deed = deed.Call raw.now })))) }
    ensures front { OnErr result (TakesFront (K.sink sink.old) (K.sink sink.new) (line_text (entry_fields (record { caller = caller; deed = deed.Call raw.now })))) }
{
    let fields = [
        Field::Number(caller),
        Field::Word(b"call"),
        Field::present(&raw.method),
        Field::present(&raw.path),
        Field::optional(&raw.query),
        Field::optional(&raw.auth),
        Field::optional(&raw.key),
        Field::optional(&raw.account),
        Field::Flag(raw.close),
        Field::present(&raw.body),
    ];
    write_line(sink, b"e", &fields)
}

// The line of an entry.
fn write_entry<K: Sink>(sink: &mut K, entry: &Entry) -> Result<(), WriteFailed>
    ensures all { OnOk result (Takes (K.sink sink.old) (K.sink sink.new) (line_text (entry_fields entry.now))) }
    ensures front { OnErr result (TakesFront (K.sink sink.old) (K.sink sink.new) (line_text (entry_fields entry.now))) }
{
    let caller = Field::Number(entry.caller);
    match &entry.deed {
        Deed::Call(raw) => write_call(sink, entry.caller, raw),
        Deed::Finish(run, ruling) => {
            let ruling = Field::Word(word_of_ruling(*ruling));
            let fields = [caller, Field::Word(b"finish"), Field::Number(*run), ruling];
            write_line(sink, b"e", &fields)
        }
        Deed::Park(run, why) => {
            let why = Field::Word(word_of_why(*why));
            let fields = [caller, Field::Word(b"park"), Field::Number(*run), why];
            write_line(sink, b"e", &fields)
        }
        Deed::Resume => write_line(sink, b"e", &[caller, Field::Word(b"resume")]),
        Deed::Tick(moment) => {
            let fields = [caller, Field::Word(b"tick"), Field::Number(*moment)];
            write_line(sink, b"e", &fields)
        }
    }
}

// The line of a setup.
fn write_setup<K: Sink>(sink: &mut K, setup: &Setup) -> Result<(), WriteFailed>
    ensures all { OnOk result (Takes (K.sink sink.old) (K.sink sink.new) (line_text (setup_fields setup.now))) }
    ensures front { OnErr result (TakesFront (K.sink sink.old) (K.sink sink.new) (line_text (setup_fields setup.now))) }
{
    let fields = [
        Field::present(&setup.key),
        Field::Number(setup.opened),
        Field::Number(u64::from(setup.entries)),
        Field::Number(setup.weight),
    ];
    write_line(sink, b"setup", &fields)
}

// The lines of entries.
fn write_entries<K: Sink>(sink: &mut K, entries: &[Entry]) -> Result<(), WriteFailed>
    ensures all { OnOk result (Takes (K.sink sink.old) (K.sink sink.new) (entries_text entries.now)) }
    ensures front { OnErr result (TakesFront (K.sink sink.old) (K.sink sink.new) (entries_text entries.now)) }
{
    for entry in entries {
        write_entry(sink, entry)?;
    }
    Ok(())
}

// The parts of the text, one behind the other.
fn write_parts<K: Sink>(setup: &Setup, entries: &[Entry], sink: &mut K) -> Result<(), WriteFailed>
    ensures all { OnOk result (Takes (K.sink sink.old) (K.sink sink.new) (written_text setup.now entries.now)) }
    ensures front { OnErr result (TakesFront (K.sink sink.old) (K.sink sink.new) (written_text setup.now entries.now)) }
{
    write_line(sink, b"payhost-history", &[Field::Word(b"1")])?;
    write_setup(sink, setup)?;
    write_entries(sink, entries)?;
    write_line(sink, b"end", &[Field::Number(entries.len() as u64)])
}

/// Writes the text of a setup and of entries, and takes no memory. Where a write fails, a front of the text was
/// written.
pub fn write_history<K: Sink>(
    setup: &Setup,
    entries: &[Entry],
    sink: &mut K,
) -> Result<(), WriteFailed>
    ensures all { OnOk result (Takes (K.sink sink.old) (K.sink sink.new) (history_text (told_by setup.now entries.now))) }
    ensures front { OnErr result (TakesFront (K.sink sink.old) (K.sink sink.new) (history_text (told_by setup.now entries.now))) }
{
    write_parts(setup, entries, sink)
}
