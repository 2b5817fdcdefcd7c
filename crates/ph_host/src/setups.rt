//! The setup that the words of the command line name.
ghost use Rattle.std.specs.Prelude.{◌≡◌, ◌≤◌, IfOk, drop, option_map};
ghost use Rattle.ph_items.specs.Clocks.{clock_limit};
ghost use Rattle.ph_host.specs.Runs.{new_book};
ghost use Rattle.ph_host.specs.Setups.{given_in, key_of, opened_of};

use crate::option_names::OptionName;
use crate::options::{given, moment_in};
use ph_base::{Bytes, NoMemory};
use ph_book::{Book, Setup};
use std::alloc::Global;

/// For how many entries the history of the program has room.
const ENTRIES: u32 = 200_000;

/// How much the history of the program may weigh.
const WEIGHT: u64 = 536_870_912;

/// The opening moment where the words name none.
const OPENED: u64 = 1_700_000_000;

/// A book of the program's setup, which the words name, without entries.
pub fn book(alloc: Global, words: &[Bytes]) -> Result<Book, NoMemory>
    ensures { IfOk result (λ book. book ≡ new_book words.now) }
{
    let setup = Setup {
        key: key(alloc, words)?,
        opened: opened(words),
        entries: ENTRIES,
        weight: WEIGHT,
    };
    Book::new(alloc, setup)
}

/// The words behind the command.
pub fn options(words: &[Bytes]) -> &[Bytes]
    ensures { result.now ≡ drop 1 words.now }
{
    match words {
        [] => words,
        [_, options @ ..] => options,
    }
}

/// The value that the words give for the option, behind the command.
pub fn given_in<'w>(name: OptionName, words: &'w [Bytes]) -> Option<&'w [u8]>
    ensures { option_map (λ value. value.now) result ≡ given_in name words.now }
{
    given(name.word(), options(words))
}

// The API key.
fn key(alloc: Global, words: &[Bytes]) -> Result<Bytes, NoMemory>
    ensures { IfOk result (λ key. key ≡ key_of words.now) }
{
    match given_in(OptionName::Key, words) {
        Some(value) => Bytes::from_slice(alloc, value),
        None => Bytes::from_slice(alloc, b"sk_test_payhost"),
    }
}

// The opening moment. It is one that a clock shows, whatever the words are.
fn opened(words: &[Bytes]) -> u64
    ensures value { result ≡ opened_of words.now }
    ensures shown { result ≤ clock_limit }
{
    match given_in(OptionName::Clock, words) {
        Some(value) => moment_in(value).unwrap_or(OPENED),
        None => OPENED,
    }
}
