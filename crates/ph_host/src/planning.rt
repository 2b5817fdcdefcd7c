//! The plan that the words of the command line name.
ghost use Rattle.std.specs.Prelude.{◌≡◌};
ghost use Rattle.ph_host.specs.Options.{are_options};
ghost use Rattle.ph_host.specs.Plans.{connections_of, host_if, host_plan, once_if, patience_of, plan_of, port_of, workers_of};
ghost use Rattle.ph_host.specs.declared.commands.Command.TheVariants.{Stdio, Serve};

use crate::commands::Command;
use crate::option_names::OptionName;
use crate::options::{are_options, connections_in, patience_in, port_in, workers_in};
use crate::plans::Plan;
use crate::setups::given_in;
use ph_base::Bytes;

// How many further polls are granted where the words name none.
const POLLS: u32 = 1_000;

// How many workers a server has where the words name none.
const WORKERS: u8 = 4;

// How many connections each worker serves where the words name none.
const CONNECTIONS: u32 = 1_000_000;

/// The plan that the words name, without the program's own name. It takes no memory.
///
/// `stdio [--key K] [--clock T] [--patience N]` asks for a session over standard input and output. The options stand in any order,
/// each at most once, and each takes the next word as its value. `K` is the API key, 9 to 255 bytes from `!` to `~`
/// that begin with `sk_test_`, and `sk_test_payhost` where it isn't given. `T` is the opening moment in seconds since
/// 1970, at most 253402300799, and 1700000000 where it isn't given. `N` says how many further polls are granted each
/// time that the acquirer is asked to rule, at most 1000000, and 1000 where it isn't given.
///
/// `serve --port P [--workers W] [--connections C] [--history]`, with the same options beside, asks for a server on the port P,
/// from 1 to 65535, whose W workers, from 1 to 16 and 4 where they aren't given, serve C connections each, from 1 to 1000000 and
/// 1000000 where they aren't given. `--history` takes no value: at its end the server then writes its history before the
/// summary. Any other words are `Usage`.
pub fn plan(words: &[Bytes]) -> Plan
    ensures { result ≡ plan_of words.now }
{
    match words {
        [word, options @ ..] if word.as_slice() == b"stdio".as_slice() => {
            once_plan(words, options)
        }
        [word, options @ ..] if word.as_slice() == b"serve".as_slice() => {
            serve_plan(words, options)
        }
        _ => Plan::Usage,
    }
}

// The plan of a session, where the words behind the command are its options.
fn once_plan(words: &[Bytes], options: &[Bytes]) -> Plan
    ensures { result ≡ once_if (are_options Stdio options.now) (patience_of words.now) }
{
    if are_options(Command::Stdio, options) {
        Plan::Once {
            patience: patience(words),
        }
    } else {
        Plan::Usage
    }
}

// The plan of a server, where the words behind the command are its options.
fn serve_plan(words: &[Bytes], options: &[Bytes]) -> Plan
    ensures { result ≡ host_if (are_options Serve options.now) words.now (port_of words.now) }
{
    if are_options(Command::Serve, options) {
        host_plan(words)
    } else {
        Plan::Usage
    }
}

// The plan of a server, where a port is given.
fn host_plan(words: &[Bytes]) -> Plan
    ensures { result ≡ host_plan words.now (port_of words.now) }
{
    match port(words) {
        Some(port) => Plan::Host {
            port,
            workers: workers(words),
            connections: connections(words),
            patience: patience(words),
        },
        None => Plan::Usage,
    }
}

// How many further polls are granted.
fn patience(words: &[Bytes]) -> u32
    ensures { result ≡ patience_of words.now }
{
    match given_in(OptionName::Patience, words) {
        Some(value) => patience_in(value).unwrap_or(POLLS),
        None => POLLS,
    }
}

/// The port that is listened on.
pub fn port(words: &[Bytes]) -> Option<u16>
    ensures { result ≡ port_of words.now }
{
    match given_in(OptionName::Port, words) {
        Some(value) => port_in(value),
        None => None,
    }
}

// How many workers there are.
fn workers(words: &[Bytes]) -> u8
    ensures { result ≡ workers_of words.now }
{
    match given_in(OptionName::Workers, words) {
        Some(value) => workers_in(value).unwrap_or(WORKERS),
        None => WORKERS,
    }
}

// How many connections each worker serves.
fn connections(words: &[Bytes]) -> u32
    ensures { result ≡ connections_of words.now }
{
    match given_in(OptionName::Connections, words) {
        Some(value) => connections_in(value).unwrap_or(CONNECTIONS),
        None => CONNECTIONS,
    }
}
