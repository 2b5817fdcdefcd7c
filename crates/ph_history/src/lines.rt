//! Reading the lines of a history's text.
ghost use Rattle.std.specs.Prelude.{◌≡◌, ℕ, ◌<◌, ◌^◌, Some, IfOk};
ghost use Rattle.std.specs.Option.{option_copied};
ghost use Rattle.ph_book.specs.declared.acts.Entry.{Entry};
ghost use Rattle.ph_book.specs.declared.setup.Setup.{Setup};
ghost use Rattle.ph_lines.specs.Reading.{Gives, fields_left};
ghost use Rattle.ph_history.specs.Reading.{FitsEntry, FitsSetup, call_at, deed_by, end_in, entry_in, finish_at, park_at, raw_at, setup_in, tick_at};
ghost use Rattle.ph_history.specs.Text.{end_line, entry_line, setup_line};

use crate::words::{ruling, why};
use ph_book::{Deed, Entry, Setup};
use ph_http::Raw;
use ph_lines::{Unread, bytes, flag, is_ended, number, octets, word};
use std::alloc::Global;

// The next eight fields, a request.
#[tactic(auto, unfolding(crate::specs::Reading::raw_at))]
fn raw(alloc: Global, rest: Option<&[u8]>) -> Result<(Raw, Option<&[u8]>), Unread>
    ensures { Gives (λ x. (x.0, fields_left (option_copied x.1))) result (raw_at (fields_left (option_copied rest.entry))) }
{
    let (method, rest) = bytes(alloc, rest)?;
    let (path, rest) = bytes(alloc, rest)?;
    let (query, rest) = octets(alloc, rest)?;
    let (auth, rest) = octets(alloc, rest)?;
    let (key, rest) = octets(alloc, rest)?;
    let (account, rest) = octets(alloc, rest)?;
    let (close, rest) = flag(rest)?;
    let (body, rest) = bytes(alloc, rest)?;
    Ok((
        Raw {
            method,
            path,
            query,
            auth,
            key,
            account,
            body,
            close,
        },
        rest,
    ))
}

#[tactic(auto, unfolding(crate::specs::Reading::call_at))]
fn call(alloc: Global, rest: Option<&[u8]>) -> Result<(Deed, Option<&[u8]>), Unread>
    ensures { Gives (λ x. (x.0, fields_left (option_copied x.1))) result (call_at (fields_left (option_copied rest.entry))) }
{
    let (raw, rest) = raw(alloc, rest)?;
    Ok((Deed::Call(raw), rest))
}

#[tactic(auto, unfolding(crate::specs::Reading::finish_at))]
fn finish(rest: Option<&[u8]>) -> Result<(Deed, Option<&[u8]>), Unread>
    ensures { Gives (λ x. (x.0, fields_left (option_copied x.1))) result (finish_at (fields_left (option_copied rest.entry))) }
{
    let (run, rest) = number(rest)?;
    let (ruling, rest) = ruling(rest)?;
    Ok((Deed::Finish(run, ruling), rest))
}

#[tactic(auto, unfolding(crate::specs::Reading::park_at))]
fn park(rest: Option<&[u8]>) -> Result<(Deed, Option<&[u8]>), Unread>
    ensures { Gives (λ x. (x.0, fields_left (option_copied x.1))) result (park_at (fields_left (option_copied rest.entry))) }
{
    let (run, rest) = number(rest)?;
    let (why, rest) = why(rest)?;
    Ok((Deed::Park(run, why), rest))
}

#[tactic(auto, unfolding(crate::specs::Reading::tick_at))]
fn tick(rest: Option<&[u8]>) -> Result<(Deed, Option<&[u8]>), Unread>
    ensures { Gives (λ x. (x.0, fields_left (option_copied x.1))) result (tick_at (fields_left (option_copied rest.entry))) }
{
    let (moment, rest) = number(rest)?;
    Ok((Deed::Tick(moment), rest))
}

// The deed of this kind.
#[tactic(auto, unfolding(crate::specs::Reading::deed_by))]
fn deed<'a>(
    alloc: Global,
    kind: &[u8],
    rest: Option<&'a [u8]>,
) -> Result<(Deed, Option<&'a [u8]>), Unread>
    ensures { Gives (λ x. (x.0, fields_left (option_copied x.1))) result (deed_by kind.now (fields_left (option_copied rest.entry))) }
{
    if kind == b"call".as_slice() {
        call(alloc, rest)
    } else if kind == b"finish".as_slice() {
        finish(rest)
    } else if kind == b"park".as_slice() {
        park(rest)
    } else if kind == b"resume".as_slice() {
        Ok((Deed::Resume, rest))
    } else if kind == b"tick".as_slice() {
        tick(rest)
    } else {
        Err(Unread::Form)
    }
}

// The entry that all fields of a line give.
#[tactic(auto, unfolding(crate::specs::Reading::entry_in))]
fn entry(alloc: Global, line: &[u8]) -> Result<Entry, Unread>
    ensures { Gives (λ entry. entry) result (entry_in (fields_left (Some line.now))) }
{
    let (first, rest) = word(Some(line))?;
    if first != b"e".as_slice() {
        return Err(Unread::Form);
    }
    let (caller, rest) = number(rest)?;
    let (kind, rest) = word(rest)?;
    let (deed, rest) = deed(alloc, kind, rest)?;
    if is_ended(rest) {
        Ok(Entry { caller, deed })
    } else {
        Err(Unread::Form)
    }
}

/// The entry of a line without its LF.
pub(crate) fn read_entry(alloc: Global, line: &[u8]) -> Result<Entry, Unread>
    ensures found { IfOk result (λ entry. (line.now ≡ entry_line entry) × FitsEntry entry) }
    ensures only { (said : Entry) → FitsEntry said → line.now ≡ entry_line said → Gives (λ entry. entry) result (Some said) }
{
    entry(alloc, line)
}

// The setup that all fields of a line give.
#[tactic(auto, unfolding(crate::specs::Reading::setup_in))]
fn setup(alloc: Global, line: &[u8]) -> Result<Setup, Unread>
    ensures { Gives (λ setup. setup) result (setup_in (fields_left (Some line.now))) }
{
    let (first, rest) = word(Some(line))?;
    if first != b"setup".as_slice() {
        return Err(Unread::Form);
    }
    let (key, rest) = bytes(alloc, rest)?;
    let (opened, rest) = number(rest)?;
    let (entries, rest) = number(rest)?;
    let (weight, rest) = number(rest)?;
    if entries < 4_294_967_296 {
        if is_ended(rest) {
            Ok(Setup {
                key,
                opened,
                entries: entries as u32,
                weight,
            })
        } else {
            Err(Unread::Form)
        }
    } else {
        Err(Unread::Form)
    }
}

/// The setup of a line without its LF.
pub(crate) fn read_setup(alloc: Global, line: &[u8]) -> Result<Setup, Unread>
    ensures found { IfOk result (λ setup. (line.now ≡ setup_line setup) × FitsSetup setup) }
    ensures only { (said : Setup) → FitsSetup said → line.now ≡ setup_line said → Gives (λ setup. setup) result (Some said) }
{
    setup(alloc, line)
}

// The count that all fields of a line give.
#[tactic(auto, unfolding(crate::specs::Reading::end_in))]
fn end(line: &[u8]) -> Result<u64, Unread>
    ensures { Gives (λ count. count) result (end_in (fields_left (Some line.now))) }
{
    let (first, rest) = word(Some(line))?;
    if first != b"end".as_slice() {
        return Err(Unread::Form);
    }
    let (count, rest) = number(rest)?;
    if is_ended(rest) {
        Ok(count)
    } else {
        Err(Unread::Form)
    }
}

/// The count of a last line without its LF.
pub(crate) fn read_end(line: &[u8]) -> Result<u64, Unread>
    ensures found { IfOk result (λ count. line.now ≡ end_line count) }
    ensures only { (said : ℕ) → said < 2 ^ 64 → line.now ≡ end_line said → Gives (λ count. count) result (Some said) }
{
    end(line)
}
