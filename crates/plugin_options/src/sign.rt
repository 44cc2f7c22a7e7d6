//! The sign between the two numbers of a pair.
ghost use Rattle.std.specs.Prelude.{◌<◌};

/// What stands between the two numbers of a pair.
#[derive(Clone, Copy)]
pub enum Sign {
    Slash,
    Equals,
}

impl Sign {
    /// The character, which is one of ASCII, as `split_at_sign` asks.
    pub fn character(self) -> char
        ensures { result < 128 }
    {
        match self {
            Sign::Slash => '/',
            Sign::Equals => '=',
        }
    }
}
