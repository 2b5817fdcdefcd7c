//! What its types say of a history: bytes are below 256, and numbers fit.
ghost use Rattle.std.specs.Prelude.{◌<◌, ◌^◌, IfSome};
ghost use Rattle.hex.specs.Hex.{IsBytes};
ghost use Rattle.ph_lines.specs.Lines.{AreShort};
ghost use Rattle.ph_history.specs.Grammar.{IsText, told_by};
ghost use Rattle.ph_history.specs.Reading.{AllFit, FitsDeed, FitsEntry, FitsHistory, FitsRaw};
ghost use Rattle.ph_history.specs.Text.{history_lines, history_text};

use ph_base::Bytes;
use ph_book::{Deed, Entry, Setup};
use ph_http::Raw;

fn bytes_fit(_bytes: &[u8])
    ensures { IsBytes _bytes.now }
{}

fn optional_fits(bytes: &Option<Bytes>)
    ensures { IfSome bytes.now IsBytes }
{
    match bytes {
        Some(bytes) => bytes_fit(bytes.as_slice()),
        None => {}
    }
}

fn raw_fits(raw: &Raw)
    ensures { FitsRaw raw.now }
{
    bytes_fit(raw.method.as_slice());
    bytes_fit(raw.path.as_slice());
    optional_fits(&raw.query);
    optional_fits(&raw.auth);
    optional_fits(&raw.key);
    optional_fits(&raw.account);
    bytes_fit(raw.body.as_slice());
}

fn number_fits(_number: u64)
    ensures { _number < 2 ^ 64 }
{}

fn deed_fits(deed: &Deed)
    ensures { FitsDeed deed.now }
{
    match deed {
        Deed::Call(raw) => raw_fits(raw),
        Deed::Finish(run, _) => number_fits(*run),
        Deed::Park(run, _) => number_fits(*run),
        Deed::Resume => {}
        Deed::Tick(moment) => number_fits(*moment),
    }
}

fn entry_fits(entry: &Entry)
    ensures { FitsEntry entry.now }
{
    number_fits(entry.caller);
    deed_fits(&entry.deed);
}

fn entries_fit(entries: &[Entry])
    ensures { AllFit entries.now }
{
    for entry in entries {
        entry_fits(entry);
    }
}

fn room_fits(_entries: u32)
    ensures { _entries < 2 ^ 32 }
{}

/// What its types say of a setup and of entries.
pub fn history_fits(setup: &Setup, entries: &[Entry])
    ensures { FitsHistory (told_by setup.now entries.now) }
{
    bytes_fit(setup.key.as_slice());
    number_fits(setup.opened);
    room_fits(setup.entries);
    number_fits(setup.weight);
    entries_fit(entries);
}

/// What is written of a setup and of entries, where no line is longer than 300,000 bytes, is the text of that history:
/// it is read back.
pub fn what_is_written_is_read(setup: &Setup, entries: &[Entry])
    requires { AreShort (history_lines (told_by setup.now entries.now)) }
    ensures { IsText (history_text (told_by setup.now entries.now)) (told_by setup.now entries.now) }
{
    history_fits(setup, entries);
    number_fits(entries.len() as u64);
}
