//! A case of a history: entries of a book, their answers and the rows that they add.
//!
//! The fields of the first line: `clock N` the opening moment, `entries N` and `weight N` the room, `key TEXT` the API
//! key.

use crate::case::{Case, CaseError};
use crate::desk::{Desk, Said};
use crate::escape::add_unescaped;
use crate::shown::{add_number, add_row, add_signed};
use crate::step::{Request, Step, step_of};
use ph_base::{Bytes, read_number};
use ph_book::{Book, Setup};
use ph_http::{Raw, Reply};
use ph_items::CLOCK_LIMIT;
use ph_money::Currency;
use ph_rows::View;
use std::alloc::{AllocError, Global};

const KEY: &str = "sk_test_payhost";

// What the fields say of a book's setup.
#[derive(Clone, Copy)]
struct Opening<'t> {
    opened: u64,
    entries: u32,
    weight: u64,
    key: &'t str,
}

/// Runs a case, and gives what it prints.
pub fn run_case(alloc: Global, case: &Case<'_>) -> Result<Vec<u8>, CaseError> {
    let Some(opening) = opening_of(case.fields()) else {
        return Err(CaseError::Line(0));
    };
    let setup = setup_of(alloc, &opening)?;
    if setup.opened > CLOCK_LIMIT {
        return Err(CaseError::Line(0));
    }
    let mut desk = Desk::new(alloc, setup)?;
    let printed = printed(alloc, case, &mut desk);
    desk.close();
    printed
}

// What the fields say. None where a field isn't understood.
fn opening_of(fields: &str) -> Option<Opening<'_>> {
    let mut opening = Opening {
        opened: 1_700_000_000,
        entries: 200_000,
        weight: 536_870_912,
        key: KEY,
    };
    for field in fields.split('|') {
        if !field.trim().is_empty() {
            opening = opening_with(opening, field.trim())?;
        }
    }
    Some(opening)
}

fn opening_with<'t>(mut opening: Opening<'t>, field: &'t str) -> Option<Opening<'t>> {
    let (word, value) = field.split_once(' ')?;
    match word {
        "clock" => opening.opened = read_number(value.as_bytes())?,
        "entries" => opening.entries = u32::try_from(read_number(value.as_bytes())?).ok()?,
        "weight" => opening.weight = read_number(value.as_bytes())?,
        "key" => opening.key = value,
        _ => return None,
    }
    Some(opening)
}

fn setup_of(alloc: Global, opening: &Opening<'_>) -> Result<Setup, CaseError> {
    Ok(Setup {
        key: Bytes::new(unescaped(alloc, opening.key, 0)?),
        opened: opening.opened,
        entries: opening.entries,
        weight: opening.weight,
    })
}

// The bytes that a text in a line stands for.
fn unescaped(alloc: Global, text: &str, line: usize) -> Result<Vec<u8>, CaseError> {
    let mut bytes = Vec::new(alloc);
    add_unescaped(&mut bytes, text, line)?;
    Ok(bytes)
}

// What the steps of a case print.
fn printed(alloc: Global, case: &Case<'_>, desk: &mut Desk) -> Result<Vec<u8>, CaseError> {
    let mut output = Vec::new(alloc);
    output.extend_from_slice(b"== ")?;
    add_line(&mut output, case.name())?;
    let mut number = 0usize;
    for line in case.body.lines() {
        number = number.saturating_add(1);
        if !line.is_empty() && !line.starts_with("# ") {
            add_step(alloc, &mut output, desk, line, number)?;
        }
    }
    output.push(b'\n')?;
    Ok(output)
}

fn add_line(output: &mut Vec<u8>, line: &str) -> Result<(), AllocError> {
    output.extend_from_slice(line.as_bytes())?;
    output.push(b'\n')?;
    Ok(())
}

// Adds a step, what it is answered, and the rows that it adds.
fn add_step(
    alloc: Global,
    output: &mut Vec<u8>,
    desk: &mut Desk,
    line: &str,
    number: usize,
) -> Result<(), CaseError> {
    let Some(step) = step_of(line) else {
        return Err(CaseError::Line(number));
    };
    add_line(output, line)?;
    output.extend_from_slice(b"-> ")?;
    let rows = desk.book().count();
    add_answer(alloc, output, desk, &step, number)?;
    add_rows(alloc, output, desk.book(), rows)?;
    Ok(())
}

// Takes a step, and adds what it is answered.
fn add_answer(
    alloc: Global,
    output: &mut Vec<u8>,
    desk: &mut Desk,
    step: &Step<'_>,
    line: usize,
) -> Result<(), CaseError> {
    match step {
        Step::Entries => add_counts(alloc, output, desk.book())?,
        Step::Balance(account, currency) => {
            add_balance(alloc, output, desk.book(), *account, *currency)?;
        }
        Step::Call(_) | Step::Finish(_, _) | Step::Park(_, _) | Step::Resume | Step::Tick(_) => {
            add_said(alloc, output, said(alloc, desk, step, line)?)?;
        }
    }
    Ok(())
}

// What a step comes to that is an act.
fn said(alloc: Global, desk: &mut Desk, step: &Step<'_>, line: usize) -> Result<Said, CaseError> {
    match step {
        Step::Call(request) => call(alloc, desk, request, line),
        Step::Finish(ruling, reference) => match desk.place_of(*reference) {
            Some(at) => Ok(desk.finish(at, *ruling)?),
            None => Err(CaseError::Line(line)),
        },
        Step::Park(why, reference) => match desk.place_of(*reference) {
            Some(at) => Ok(desk.park(at, *why)),
            None => Err(CaseError::Line(line)),
        },
        Step::Resume => Ok(desk.resume()?),
        Step::Tick(moment) if *moment <= CLOCK_LIMIT => Ok(desk.tick(*moment)?),
        Step::Tick(_) | Step::Entries | Step::Balance(_, _) => Err(CaseError::Line(line)),
    }
}

fn call(
    alloc: Global,
    desk: &mut Desk,
    request: &Request<'_>,
    line: usize,
) -> Result<Said, CaseError> {
    let raw = raw_of(alloc, desk.book().setup().key.as_slice(), request, line)?;
    Ok(desk.call(raw)?)
}

fn add_counts(alloc: Global, output: &mut Vec<u8>, book: &Book) -> Result<(), AllocError> {
    add_number(alloc, output, book.history().len() as u64)?;
    output.extend_from_slice(b" entries, ")?;
    add_number(alloc, output, book.count())?;
    add_line(output, " rows")
}

fn add_balance(
    alloc: Global,
    output: &mut Vec<u8>,
    book: &Book,
    account: u64,
    currency: Currency,
) -> Result<(), AllocError> {
    output.extend_from_slice(b"available ")?;
    add_signed(alloc, output, book.available(account, currency))?;
    output.extend_from_slice(b" pending ")?;
    add_signed(alloc, output, book.pending(account, currency))?;
    add_line(output, "")
}

fn add_said(alloc: Global, output: &mut Vec<u8>, said: Said) -> Result<(), AllocError> {
    match said {
        Said::Reply(reply) => add_reply(alloc, output, &reply),
        Said::Waits(reference) => {
            output.extend_from_slice(b"waits for ")?;
            add_number(alloc, output, reference)?;
            add_line(output, "")
        }
        Said::Done => add_line(output, "done"),
        Said::Full => add_line(output, "full"),
    }
}

fn add_reply(alloc: Global, output: &mut Vec<u8>, reply: &Reply) -> Result<(), AllocError> {
    add_number(alloc, output, u64::from(reply.status))?;
    output.push(b' ')?;
    if reply.replayed {
        output.extend_from_slice(b"replayed ")?;
    }
    output.extend_from_slice(reply.body.as_slice())?;
    add_line(output, "")
}

// Adds the rows behind the first ones.
fn add_rows(
    alloc: Global,
    output: &mut Vec<u8>,
    book: &Book,
    first: u64,
) -> Result<(), AllocError> {
    for place in first..book.count() {
        match book.row(place.saturating_add(1)) {
            Some(row) => {
                output.extend_from_slice(b"   ")?;
                add_row(alloc, output, row)?;
                add_line(output, "")?;
            }
            None => {}
        }
    }
    Ok(())
}

// The request of a line, under a key where it presents no other credentials.
fn raw_of(alloc: Global, key: &[u8], request: &Request<'_>, line: usize) -> Result<Raw, CaseError> {
    let (path, query) = match request.target.split_once('?') {
        Some((path, query)) => (path, Some(query)),
        None => (request.target, None),
    };
    Ok(Raw {
        method: text_of(alloc, request.method, line)?,
        path: text_of(alloc, path, line)?,
        query: text_if(alloc, query, line)?,
        auth: auth_of(alloc, key, request.presented, line)?,
        key: text_if(alloc, request.key, line)?,
        account: text_if(alloc, request.account, line)?,
        body: text_of(alloc, body_of(request.body), line)?,
        close: false,
    })
}

fn body_of(word: &str) -> &str {
    if word == "-" { "" } else { word }
}

fn text_of(alloc: Global, text: &str, line: usize) -> Result<Bytes, CaseError> {
    Ok(Bytes::new(unescaped(alloc, text, line)?))
}

fn text_if(alloc: Global, text: Option<&str>, line: usize) -> Result<Option<Bytes>, CaseError> {
    match text {
        Some(text) => Ok(Some(text_of(alloc, text, line)?)),
        None => Ok(None),
    }
}

fn auth_of(
    alloc: Global,
    key: &[u8],
    presented: Option<&str>,
    line: usize,
) -> Result<Option<Bytes>, CaseError> {
    match presented {
        Some("-") => Ok(None),
        Some(text) => Ok(Some(text_of(alloc, text, line)?)),
        None => Ok(Some(Bytes::from_slice(alloc, key)?)),
    }
}
