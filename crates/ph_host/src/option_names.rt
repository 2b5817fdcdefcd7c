//! The names of the options.
ghost use Rattle.std.specs.Prelude.{◌≡◌};
ghost use Rattle.ph_host.specs.Options.{has};

use crate::commands::Command;

/// An option of the command line.
#[derive(Clone, Copy, Debug, PartialEq, Eq)]
pub enum OptionName {
    /// The API key.
    Key,
    /// The opening moment.
    Clock,
    /// How many further polls are granted.
    Patience,
    /// The port that is listened on.
    Port,
    /// How many workers there are.
    Workers,
    /// How many connections each worker serves.
    Connections,
}

impl OptionName {
    ghost use Rattle.std.specs.Prelude.{◌≡◌};
    ghost use Rattle.ph_host.specs.Options.{name_of, word_of};

    /// Every option.
    pub const ALL: [OptionName; 6] = [
        OptionName::Key,
        OptionName::Clock,
        OptionName::Patience,
        OptionName::Port,
        OptionName::Workers,
        OptionName::Connections,
    ];

    /// How the option is written.
    pub fn word(self) -> &'static [u8]
        ensures { result.now ≡ word_of self }
    {
        match self {
            OptionName::Key => b"--key",
            OptionName::Clock => b"--clock",
            OptionName::Patience => b"--patience",
            OptionName::Port => b"--port",
            OptionName::Workers => b"--workers",
            OptionName::Connections => b"--connections",
        }
    }

    /// The option that is written so; None where there is none.
    #[tactic(auto, unfolding(crate::specs::Options::name_of))]
    pub fn read(word: &[u8]) -> Option<Self>
        ensures { result ≡ name_of word.now }
    {
        OptionName::ALL
            .iter()
            .copied()
            .find(|name| word == name.word())
    }
}

/// Whether a command has an option.
pub fn has(command: Command, name: OptionName) -> bool
    ensures { result ≡ has command name }
{
    match name {
        OptionName::Key | OptionName::Clock | OptionName::Patience => true,
        OptionName::Port | OptionName::Workers | OptionName::Connections => match command {
            Command::Stdio => false,
            Command::Serve => true,
        },
    }
}
