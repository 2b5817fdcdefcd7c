//! The lines of a history's case: its steps.
//!
//! | line | step |
//! |---|---|
//! | `METHOD TARGET [BODY]` | a request of caller 0 under the book's key; `-` as body is none |
//! | `as TEXT: ..` | the same under other credentials; `-` as text is none at all |
//! | `account TEXT: ..` | the same with a `Stripe-Account` header |
//! | `under TEXT: ..` | the same with an `Idempotency-Key` header |
//! | `approve`, `decline`, `funds`, `challenge`, each `[N]` | a ruling on the earliest run whose ticket is in hand, or on that whose attempt is N |
//! | `park pending`, `park failed`, `park memory`, each `[N]` | the run is given up |
//! | `resume` | the attempt that waits longest is taken up again |
//! | `tick N` | a moment of the clock |
//! | `entries` | how many entries and rows the book has |
//! | `balance ACCOUNT CURRENCY` | what an account has in a currency |
//!
//! `account` may stand behind `as`, and `under` behind both.

use ph_base::{Decline, Ruling, Why, read_number};
use ph_money::Currency;

/// A request as a line writes it.
#[derive(Clone, Copy)]
pub struct Request<'t> {
    /// Its credentials, where they aren't the book's key.
    pub presented: Option<&'t str>,
    pub account: Option<&'t str>,
    pub key: Option<&'t str>,
    pub method: &'t str,
    pub target: &'t str,
    pub body: &'t str,
}

/// A step. A ruling and a park name the attempt, or the earliest of those whose tickets are in hand.
#[derive(Clone, Copy)]
pub enum Step<'t> {
    Call(Request<'t>),
    Finish(Ruling, Option<u64>),
    Park(Why, Option<u64>),
    Resume,
    Tick(u64),
    Entries,
    Balance(u64, Currency),
}

/// The step of a line. None where it is none.
pub fn step_of(line: &str) -> Option<Step<'_>> {
    match request_of(line) {
        Some(request) => Some(Step::Call(request)),
        None => act_of(line),
    }
}

// The request of a line: its target begins with `/`.
fn request_of(line: &str) -> Option<Request<'_>> {
    let (presented, line) = prefixed(line, "as ");
    let (account, line) = prefixed(line, "account ");
    let (key, line) = prefixed(line, "under ");
    let mut words = line.split(' ');
    let method = words.next()?;
    let target = words.next()?;
    let body = words.next().unwrap_or("-");
    if words.next().is_some() || !target.starts_with('/') {
        return None;
    }
    Some(Request {
        presented,
        account,
        key,
        method,
        target,
        body,
    })
}

// The text between a word and the first `: `, and what stands behind.
fn prefixed<'t>(line: &'t str, word: &str) -> (Option<&'t str>, &'t str) {
    match line.strip_prefix(word) {
        Some(rest) => match rest.split_once(": ") {
            Some((text, rest)) => (Some(text), rest),
            None => (None, line),
        },
        None => (None, line),
    }
}

// The step of a line that is no request.
fn act_of(line: &str) -> Option<Step<'_>> {
    let (word, rest) = line.split_once(' ').unwrap_or((line, ""));
    match word {
        "tick" => Some(Step::Tick(read_number(rest.as_bytes())?)),
        "resume" if rest.is_empty() => Some(Step::Resume),
        "entries" if rest.is_empty() => Some(Step::Entries),
        "balance" => balance_of(rest),
        "park" => park_of(rest),
        _ => Some(Step::Finish(ruling_of(word)?, reference_of(rest)?)),
    }
}

fn balance_of(rest: &str) -> Option<Step<'_>> {
    let (account, currency) = rest.split_once(' ')?;
    let account = read_number(account.as_bytes())?;
    let currency = Currency::read(currency.as_bytes())?;
    Some(Step::Balance(account, currency))
}

fn park_of(rest: &str) -> Option<Step<'_>> {
    let (word, rest) = rest.split_once(' ').unwrap_or((rest, ""));
    Some(Step::Park(why_of(word)?, reference_of(rest)?))
}

fn why_of(word: &str) -> Option<Why> {
    match word {
        "pending" => Some(Why::Pending),
        "failed" => Some(Why::Failed),
        "memory" => Some(Why::NoMemory),
        _ => None,
    }
}

fn ruling_of(word: &str) -> Option<Ruling> {
    match word {
        "approve" => Some(Ruling::Approved),
        "decline" => Some(Ruling::Declined(Decline::Generic)),
        "funds" => Some(Ruling::Declined(Decline::NoFunds)),
        "challenge" => Some(Ruling::Challenge),
        _ => None,
    }
}

// The reference that a text names, or none.
fn reference_of(text: &str) -> Option<Option<u64>> {
    if text.is_empty() {
        return Some(None);
    }
    Some(Some(read_number(text.as_bytes())?))
}
