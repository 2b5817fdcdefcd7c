//! What is wrong with words that ask for nothing that payhost does.
ghost use Rattle.std.specs.Prelude.{◌≡◌, ◌&&◌, is_none, is_some, not};
ghost use Rattle.ph_host.specs.Options.{are_options, asks_history, is_history, is_serve};
ghost use Rattle.ph_host.specs.Plans.{host_if, is_planned, plan_of, port_of};
ghost use Rattle.ph_host.specs.declared.commands.Command.TheVariants.{Serve};

use crate::commands::Command;
use crate::flags::{asks_history, has_history, is_history};
use crate::option_names::OptionName;
use crate::options::{is_option, option_of, takes};
use crate::planning::port;
use ph_base::Bytes;
use std::fmt;

/// Why words ask for nothing that payhost does. It is told to a person, and decides nothing.
#[derive(Clone, Copy, Debug, PartialEq, Eq)]
pub enum Misuse<'w> {
    /// There are no words.
    NoCommand,
    /// The first word is no command.
    NoSuchCommand(&'w [u8]),
    /// The command has no option of this name.
    NoSuchOption(&'w [u8]),
    /// The option has no value behind it.
    NoValue(OptionName),
    /// The option doesn't take this value.
    NotTaken(OptionName, &'w [u8]),
    /// The option is given twice.
    Twice(&'w [u8]),
    /// A server is given no port.
    NoPort,
}

/// What is wrong with words. None exactly where they ask for something that payhost does.
#[tactic(auto, using(crate::proofs::PlanLemmas::planned_once))]
pub fn find_misuse(words: &[Bytes]) -> Option<Misuse<'_>>
    ensures { is_none result ≡ is_planned (plan_of words.now) }
{
    match words {
        [] => Some(Misuse::NoCommand),
        [word, options @ ..] if word.as_slice() == b"stdio".as_slice() => {
            option_misuse(Command::Stdio, options)
        }
        [word, options @ ..] if word.as_slice() == b"serve".as_slice() => {
            serve_misuse(words, options)
        }
        [word, ..] => Some(Misuse::NoSuchCommand(word.as_slice())),
    }
}

// What is wrong with the words of a server, of which these are the options.
#[tactic(auto, using(crate::proofs::PlanLemmas::planned_host))]
fn serve_misuse<'w>(words: &'w [Bytes], options: &'w [Bytes]) -> Option<Misuse<'w>>
    ensures { is_none result ≡ is_planned (host_if (are_options Serve options.now) words.now (port_of words.now)) }
{
    match option_misuse(Command::Serve, options) {
        Some(misuse) => Some(misuse),
        None => port_misuse(words),
    }
}

// What is wrong with the options of a command.
fn option_misuse(command: Command, words: &[Bytes]) -> Option<Misuse<'_>>
    ensures { is_none result ≡ are_options command words.now }
{
    match words {
        [] => None,
        [word] => alone(command, word.as_slice()),
        [word, value, behind @ ..] => {
            if is_history(word.as_slice()) {
                match flag_misuse(command, word.as_slice(), &words[1..]) {
                    Some(misuse) => Some(misuse),
                    None => option_misuse(command, &words[1..]),
                }
            } else if is_option(command, word.as_slice(), value.as_slice(), behind) {
                option_misuse(command, behind)
            } else if takes(command, word.as_slice(), value.as_slice()) {
                Some(Misuse::Twice(word.as_slice()))
            } else {
                Some(not_taken(command, word.as_slice(), value.as_slice()))
            }
        }
    }
}

// What is wrong with the option that takes no value, before these words.
fn flag_misuse<'w>(command: Command, word: &'w [u8], behind: &[Bytes]) -> Option<Misuse<'w>>
    ensures { is_none result ≡ (is_serve command && not (asks_history behind.now)) }
{
    if !has_history(command) {
        Some(Misuse::NoSuchOption(word))
    } else if asks_history(behind) {
        Some(Misuse::Twice(word))
    } else {
        None
    }
}

// What is wrong with a last word: but for the option that takes none, it should have a value behind it.
fn alone(command: Command, word: &[u8]) -> Option<Misuse<'_>>
    ensures { is_none result ≡ (is_history word.now && is_serve command) }
{
    if is_history(word) && has_history(command) {
        return None;
    }
    Some(match option_of(command, word) {
        Some(name) => Misuse::NoValue(name),
        None => Misuse::NoSuchOption(word),
    })
}

// Why an option doesn't take a value.
fn not_taken<'w>(command: Command, word: &'w [u8], value: &'w [u8]) -> Misuse<'w> {
    match option_of(command, word) {
        Some(name) => Misuse::NotTaken(name, value),
        None => Misuse::NoSuchOption(word),
    }
}

// What is wrong with a server's options: it may have no port.
fn port_misuse(words: &[Bytes]) -> Option<Misuse<'_>>
    ensures { is_none result ≡ is_some (port_of words.now) }
{
    match port(words) {
        Some(_) => None,
        None => Some(Misuse::NoPort),
    }
}

impl fmt::Display for Misuse<'_> {
    fn fmt<W: fmt::Write>(&self, f: &mut fmt::Formatter<W>) -> fmt::Result {
        match self {
            Misuse::NoCommand => write!(f, "a command is wanted"),
            Misuse::NoSuchCommand(word) => {
                write!(f, "payhost has no command `{}` today", text(word))
            }
            Misuse::NoSuchOption(name) => write!(f, "the command has no option `{}`", text(name)),
            Misuse::NoValue(name) => write!(f, "no value stands behind `{}`", text(name.word())),
            Misuse::NotTaken(name, value) => write!(
                f,
                "{} takes {}, and not `{}`",
                text(name.word()),
                taken(*name),
                text(value)
            ),
            Misuse::Twice(name) => write!(f, "{} is given twice", text(name)),
            Misuse::NoPort => write!(f, "serve wants --port P, a number from 1 to 65535"),
        }
    }
}

// A word as it is told.
fn text(word: &[u8]) -> &str {
    match std::str::from_utf8(word) {
        Ok(text) => text,
        Err(_) => "a word that isn't UTF-8",
    }
}

// What the option takes.
fn taken(name: OptionName) -> &'static str {
    match name {
        OptionName::Key => "9 to 255 visible ASCII characters that begin with sk_test_",
        OptionName::Clock => "a moment in seconds since 1970, from 0 to 253402300799",
        OptionName::Patience => "a number from 0 to 1000000",
        OptionName::Port => "a number from 1 to 65535",
        OptionName::Workers => "a number from 1 to 16",
        OptionName::Connections => "a number from 1 to 1000000",
    }
}
