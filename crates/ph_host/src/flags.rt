//! The option that takes no value: `--history`.
ghost use Rattle.std.specs.Prelude.{◌≡◌};
ghost use Rattle.ph_host.specs.Options.{asks_history, is_history, is_serve};

use crate::commands::Command;
use ph_base::Bytes;

/// Whether the word is the option that takes no value.
pub fn is_history(word: &[u8]) -> bool
    ensures { result ≡ is_history word.now }
{
    word == b"--history".as_slice()
}

/// Whether the command has the option that takes no value: that of a server has it.
pub fn has_history(command: Command) -> bool
    ensures { result ≡ is_serve command }
{
    match command {
        Command::Stdio => false,
        Command::Serve => true,
    }
}

/// Whether the option that takes no value stands among the words, where each other option stands before its value.
pub fn asks_history(words: &[Bytes]) -> bool
    ensures { result ≡ asks_history words.now }
{
    match words {
        [] => false,
        [word] => is_history(word.as_slice()),
        [word, _, behind @ ..] => is_history(word.as_slice()) || asks_history(behind),
    }
}
