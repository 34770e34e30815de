// The number of a channel.
ghost use Rattle.std.specs.Prelude.{◌≡◌, ◌==◌, ◌<◌, if◌then◌else◌};
ghost use Rattle.scql_model.specs.Accepting as accepting;

use std::marker::Model;

/// One of the four channels.
#[derive(Clone, Copy)]
pub(crate) struct Channel {
    number: u8,
}

impl Model for Channel {
    ghost use Rattle.std.specs.Prelude.{ℕ, ◌<◌};

    ghost Value = { ℕ };

    ghost view = { λ channel. channel.number };

    ghost inverse = { λ number. record { number = number } };

    ghost invariant = { λ channel. channel.number < 4 };
}

impl Channel {
    /// The channel of a number.
    pub(crate) fn new(number: u8) -> Channel
        requires { number < 4 }
        ensures { result ≡ number }
    {
        Channel { number }
    }

    /// The channel that the class of a command names.
    pub(crate) fn named(command: &[u8]) -> Channel
        ensures { result ≡ accepting.channel_named command.now }
    {
        match command {
            [class, ..] => Channel::new(class % 4),
            [] => Channel::new(0),
        }
    }

    /// The channel that a command of this channel means by a number: itself by 0.
    pub(crate) fn meant(self, number: Channel) -> Channel
        ensures { result ≡ (if number == 0 then self else number) }
    {
        if number.number() == 0 { self } else { number }
    }

    /// Its number.
    pub(crate) fn number(self) -> u8
        ensures { result ≡ self }
    {
        self.number
    }

    /// Its place among four.
    pub(crate) fn place(self) -> usize
        ensures place { result ≡ self }
        ensures few { result < 4 }
    {
        usize::from(self.number)
    }
}
