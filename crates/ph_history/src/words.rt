//! The words of rulings and of reasons, both ways.
ghost use Rattle.std.specs.Prelude.{◌≡◌};
ghost use Rattle.std.specs.Option.{option_copied};
ghost use Rattle.ph_lines.specs.Reading.{Gives, by_word, fields_left};
ghost use Rattle.ph_history.specs.Reading.{ruling_of, why_of};
ghost use Rattle.ph_history.specs.Text.{ruling_word, why_word};

use ph_base::{Decline, Ruling, Why};
use ph_lines::{Unread, word};

/// The word of a ruling.
pub(crate) fn word_of_ruling(ruling: Ruling) -> &'static [u8]
    ensures { result.now ≡ ruling_word ruling }
{
    match ruling {
        Ruling::Approved => b"approved",
        Ruling::Declined(Decline::Generic) => b"declined",
        Ruling::Declined(Decline::NoFunds) => b"nofunds",
        Ruling::Challenge => b"challenge",
    }
}

/// The word of the reason why a run was given up.
pub(crate) fn word_of_why(why: Why) -> &'static [u8]
    ensures { result.now ≡ why_word why }
{
    match why {
        Why::Pending => b"pending",
        Why::Failed => b"failed",
        Why::NoMemory => b"nomemory",
    }
}

// The ruling of a word.
fn ruling_in(word: &[u8]) -> Result<Ruling, Unread>
    ensures { Gives (λ r. r) result (ruling_of word.now) }
{
    if word == b"approved".as_slice() {
        Ok(Ruling::Approved)
    } else if word == b"declined".as_slice() {
        Ok(Ruling::Declined(Decline::Generic))
    } else if word == b"nofunds".as_slice() {
        Ok(Ruling::Declined(Decline::NoFunds))
    } else if word == b"challenge".as_slice() {
        Ok(Ruling::Challenge)
    } else {
        Err(Unread::Form)
    }
}

// The reason of a word.
fn why_in(word: &[u8]) -> Result<Why, Unread>
    ensures { Gives (λ w. w) result (why_of word.now) }
{
    if word == b"pending".as_slice() {
        Ok(Why::Pending)
    } else if word == b"failed".as_slice() {
        Ok(Why::Failed)
    } else if word == b"nomemory".as_slice() {
        Ok(Why::NoMemory)
    } else {
        Err(Unread::Form)
    }
}

/// The next field, the word of a ruling.
#[tactic(auto, unfolding(ph_lines::specs::Reading::by_word))]
pub(crate) fn ruling(rest: Option<&[u8]>) -> Result<(Ruling, Option<&[u8]>), Unread>
    ensures { Gives (λ x. (x.0, fields_left (option_copied x.1))) result (by_word ruling_of (fields_left (option_copied rest.entry))) }
{
    let (field, rest) = word(rest)?;
    Ok((ruling_in(field)?, rest))
}

/// The next field, the word of a reason.
#[tactic(auto, unfolding(ph_lines::specs::Reading::by_word))]
pub(crate) fn why(rest: Option<&[u8]>) -> Result<(Why, Option<&[u8]>), Unread>
    ensures { Gives (λ x. (x.0, fields_left (option_copied x.1))) result (by_word why_of (fields_left (option_copied rest.entry))) }
{
    let (field, rest) = word(rest)?;
    Ok((why_in(field)?, rest))
}
