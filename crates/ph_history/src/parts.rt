//! What the lines so far give of a history.
ghost use Rattle.std.specs.Prelude.{◌≡◌, ◌++◌, ◌∷◌, [], Err, IfOk};
ghost use Rattle.ph_lines.specs.declared.reading.Unread.TheVariants as unread;
ghost use Rattle.ph_history.specs.declared.parts.Part.TheVariants as part;
ghost use Rattle.ph_history.specs.Grammar.{CanBegin, FitsPart, part_lines};

use crate::lines::{read_end, read_entry, read_setup};
use ph_book::{Entry, Setup};
use ph_lines::Unread;
use std::alloc::Global;

/// What the lines so far give of a history.
#[derive(Drop)]
pub(crate) enum Part {
    /// There was none.
    Nothing,
    /// The first line.
    Header,
    /// The first line, the setup's, and a line for each of these entries.
    Open(Setup, Vec<Entry>),
    /// All lines, the last among them.
    Whole(Setup, Vec<Entry>),
}

/// One line more. It is refused as outside the form exactly where no history's text begins with these lines.
pub(crate) fn add_line(alloc: Global, part: Part, line: &[u8]) -> Result<Part, Unread>
    ensures lines { FitsPart part → IfOk result (λ more. part_lines more ≡ part_lines part ++ line.now ∷ []) }
    ensures fits { FitsPart part → IfOk result FitsPart }
    ensures refused { FitsPart part → result ≡ Err unread.Form → CanBegin (part_lines part ++ line.now ∷ []) → ⊥ }
{
    match part {
        Part::Nothing => {
            if line == b"payhost-history 1".as_slice() {
                Ok(Part::Header)
            } else {
                Err(Unread::Form)
            }
        }
        Part::Header => match read_setup(alloc, line) {
            Ok(setup) => Ok(Part::Open(setup, Vec::new(alloc))),
            Err(why) => Err(why),
        },
        Part::Open(setup, entries) => add_entry(alloc, setup, entries, line),
        Part::Whole(_, _) => Err(Unread::Form),
    }
}

// A line behind the setup's: another entry's, or the last, whose count has to be that of the entries.
fn add_entry(
    alloc: Global,
    setup: Setup,
    mut entries: Vec<Entry>,
    line: &[u8],
) -> Result<Part, Unread>
    ensures lines { FitsPart (part.Open setup entries) → IfOk result (λ more. part_lines more ≡ part_lines (part.Open setup entries) ++ line.now ∷ []) }
    ensures fits { FitsPart (part.Open setup entries) → IfOk result FitsPart }
    ensures refused { FitsPart (part.Open setup entries) → result ≡ Err unread.Form → CanBegin (part_lines (part.Open setup entries) ++ line.now ∷ []) → ⊥ }
{
    match read_entry(alloc, line) {
        Ok(entry) => match entries.push(entry) {
            Ok(()) => Ok(Part::Open(setup, entries)),
            Err(_) => Err(Unread::NoMemory),
        },
        Err(Unread::NoMemory) => Err(Unread::NoMemory),
        Err(Unread::Form) => match read_end(line) {
            Ok(count) => {
                if count == entries.len() as u64 {
                    Ok(Part::Whole(setup, entries))
                } else {
                    Err(Unread::Form)
                }
            }
            Err(why) => Err(why),
        },
    }
}
