//! What payhost says to a person whose words ask for nothing that it does.

use ph_base::Bytes;
use ph_host::Misuse;

// All that payhost does today.
const HELP: &str = "payhost answers a profile of the Stripe API v1 (docs/PROFILE.md).

    payhost serve --port P    answers HTTP on 127.0.0.1:P, until it is stopped
        --workers W           connections that are served at once, 1 to 16 (4)
        --connections C       ends when each worker has served C connections, 1 to 1000000 (1000000)
        --history             writes its history as text, before the summary, when it ends
    payhost stdio             answers the requests of standard input on standard output

    These two take, in any order:
        --key K               the API key: sk_test_ and more, 9 to 255 visible characters (sk_test_payhost)
        --clock T             the moment at which the book begins, in seconds since 1970 (1700000000)
        --patience N          how often an acquirer that hasn't answered is asked again, 0 to 1000000 (1000)

    payhost replay            enters the history on standard input anew, and writes what was replied and the summary

    payhost sign SECRET T     writes the Stripe-Signature header of the body on standard input, at the moment T
    payhost verify SECRET HEADER NOW TOLERANCE
                              judges a header for the body on standard input: good, malformed, mismatch or old";

/// Tells what is wrong with the words; where they ask for help, all that payhost does.
pub fn tell(rt: &HostRuntime, misuse: &Misuse<'_>, words: &[Bytes]) {
    let _ = if asks_for_help(words) {
        eprintln!(rt; "{HELP}")
    } else if let Some(wanted) = wanted_by(words) {
        eprintln!(rt; "payhost: {wanted}; payhost --help says more")
    } else {
        eprintln!(rt; "payhost: {misuse}; payhost --help says more")
    };
}

// What a command without options wants, where its words aren't that.
fn wanted_by(words: &[Bytes]) -> Option<&'static str> {
    match words {
        [] => None,
        [word, ..] => match word.as_slice() {
            b"replay" => Some(
                "replay takes no more words, and reads a history's text on standard input",
            ),
            b"sign" => Some(
                "sign wants SECRET T, a moment in seconds since 1970, from 0 to 253402300799",
            ),
            b"verify" => Some("verify wants SECRET HEADER NOW TOLERANCE, the last two in seconds"),
            _ => None,
        },
    }
}

// Whether the words ask for help: one of them does.
fn asks_for_help(words: &[Bytes]) -> bool {
    for word in words {
        match word.as_slice() {
            b"--help" | b"-h" | b"help" => return true,
            _ => {}
        }
    }
    false
}
