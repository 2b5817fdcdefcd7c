//! The options of the command line.
ghost use Rattle.std.specs.Prelude.{◌≡◌, ◌≤◌, IfSome, option_map};
ghost use Rattle.std.specs.List.{list_all};
ghost use Rattle.ph_host.specs.Options.{are_options, connections_in, given, is_api_key, is_option, is_value, is_visible, moment_in, number_between, option_of, patience_in, port_in, takes, workers_in};

use crate::commands::Command;
use crate::flags::{asks_history, has_history, is_history};
use crate::option_names::{OptionName, has};
use ph_base::{Bytes, read_number};
use ph_items::CLOCK_LIMIT;

// How many further polls a patience grants at most.
const MOST_POLLS: u64 = 1_000_000;

// The greatest number of a port.
const MOST_PORT: u64 = 65_535;

// How many workers a server has at most.
const MOST_WORKERS: u64 = 16;

// How many connections a worker serves at most.
const MOST_CONNECTIONS: u64 = 1_000_000;

/// Whether the words are options of a command, each before a value that it takes, and none given twice. One option takes no
/// value.
pub fn are_options(command: Command, words: &[Bytes]) -> bool
    ensures { result ≡ are_options command words.now }
{
    match words {
        [] => true,
        [word] => is_history(word.as_slice()) && has_history(command),
        [word, value, behind @ ..] => {
            if is_history(word.as_slice()) {
                has_history(command)
                    && !asks_history(&words[1..])
                    && are_options(command, &words[1..])
            } else {
                is_option(command, word.as_slice(), value.as_slice(), behind)
                    && are_options(command, behind)
            }
        }
    }
}

/// Whether the option that is written so takes the value, and isn't given again among the words behind it.
#[tactic(auto, unfolding(crate::specs::Options::is_option))]
pub fn is_option(command: Command, word: &[u8], value: &[u8], behind: &[Bytes]) -> bool
    ensures { result ≡ is_option command word.now value.now behind.now }
{
    takes(command, word, value) && given(word, behind).is_none()
}

/// The value that the words give for the option that is written so, where each option stands before its value,
/// but the one that takes none.
pub fn given<'w>(word: &[u8], words: &'w [Bytes]) -> Option<&'w [u8]>
    ensures { option_map (λ value. value.now) result ≡ given word.now words.now }
{
    let mut rest = words;
    while let [other, value, behind @ ..] = rest {
        if is_history(other.as_slice()) {
            rest = &rest[1..];
        } else if other.as_slice() == word {
            return Some(value.as_slice());
        } else {
            rest = behind;
        }
    }
    None
}

/// Whether the command has an option that is written so, and it takes the value.
pub fn takes(command: Command, word: &[u8], value: &[u8]) -> bool
    ensures { result ≡ takes command word.now value.now }
{
    match option_of(command, word) {
        Some(name) => is_value(name, value),
        None => false,
    }
}

/// The command's option that is written so.
pub fn option_of(command: Command, word: &[u8]) -> Option<OptionName>
    ensures { result ≡ option_of command word.now }
{
    match OptionName::read(word) {
        Some(name) if has(command, name) => Some(name),
        _ => None,
    }
}

// Whether the option takes the value.
fn is_value(name: OptionName, value: &[u8]) -> bool
    ensures { result ≡ is_value name value.now }
{
    match name {
        OptionName::Key => is_api_key(value),
        OptionName::Clock => moment_in(value).is_some(),
        OptionName::Patience => patience_in(value).is_some(),
        OptionName::Port => port_in(value).is_some(),
        OptionName::Workers => workers_in(value).is_some(),
        OptionName::Connections => connections_in(value).is_some(),
    }
}

// Whether the value is an API key.
fn is_api_key(value: &[u8]) -> bool
    ensures { result ≡ is_api_key value.now }
{
    value.len() >= 9
        && value.len() <= 255
        && &value[..8] == b"sk_test_".as_slice()
        && are_visible(value)
}

// Whether each byte is one from `!` to `~`.
fn are_visible(value: &[u8]) -> bool
    ensures { result ≡ list_all is_visible value.now }
{
    value.iter().all(|b| b'!' <= *b && *b <= b'~')
}

/// The moment that a value is, in decimal seconds since 1970, from 0 to the last one that a clock shows.
pub fn moment_in(value: &[u8]) -> Option<u64>
    ensures { result ≡ moment_in value.now }
{
    number_between(0, CLOCK_LIMIT, value)
}

/// The patience that a value is: how many further polls it grants, in decimal, from 0 to 1,000,000.
pub fn patience_in(value: &[u8]) -> Option<u32>
    ensures { result ≡ patience_in value.now }
{
    let polls = number_between(0, MOST_POLLS, value)?;
    Some(polls as u32)
}

// The number that a value is, in decimal, where it lies between these two.
fn number_between(least: u64, most: u64, value: &[u8]) -> Option<u64>
    ensures value { result ≡ number_between least most value.now }
    ensures within { IfSome result (λ number. (least ≤ number) × (number ≤ most)) }
{
    let number = read_number(value)?;
    if least <= number && number <= most {
        Some(number)
    } else {
        None
    }
}

/// The port that a value is, in decimal, from 1 to 65535.
pub fn port_in(value: &[u8]) -> Option<u16>
    ensures { result ≡ port_in value.now }
{
    let port = number_between(1, MOST_PORT, value)?;
    Some(port as u16)
}

/// How many workers a value names, in decimal, from 1 to 16.
pub fn workers_in(value: &[u8]) -> Option<u8>
    ensures { result ≡ workers_in value.now }
{
    let workers = number_between(1, MOST_WORKERS, value)?;
    Some(workers as u8)
}

/// How many connections a value grants each worker, in decimal, from 1 to 1,000,000.
pub fn connections_in(value: &[u8]) -> Option<u32>
    ensures { result ≡ connections_in value.now }
{
    let connections = number_between(1, MOST_CONNECTIONS, value)?;
    Some(connections as u32)
}
