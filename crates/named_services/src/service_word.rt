//! A word of a command line that says which service is meant.

ghost use Rattle.std.specs.Prelude.{◌≡◌, IfOk};
ghost use Rattle.named_services.specs.ServiceWords;

use std::alloc::AllocError;
use ts_outside::NameText;

/// Which service a word of a command line means.
#[derive(Drop)]
pub enum ServiceWord {
    /// That with this number, 1 to 65535.
    Number(u16),
    /// The first one that has this name, as it is shown. It is not empty.
    Name(NameText),
}

impl ServiceWord {
    /// A copy of the word.
    pub fn copy(&self) -> Result<ServiceWord, AllocError>
        ensures { IfOk result (λ word. word ≡ self.now) }
    {
        match self {
            ServiceWord::Number(id) => Ok(ServiceWord::Number(*id)),
            ServiceWord::Name(name) => {
                let name = name.copy()?;
                Ok(ServiceWord::Name(name))
            }
        }
    }

    /// Whether both are the same number or the same name.
    pub(crate) fn is_same(&self, other: &ServiceWord) -> bool
        ensures { result ≡ ServiceWords.is_same self.now other.now }
    {
        match self {
            ServiceWord::Number(one) => match other {
                ServiceWord::Number(two) => *one == *two,
                ServiceWord::Name(_) => false,
            },
            ServiceWord::Name(one) => match other {
                ServiceWord::Number(_) => false,
                ServiceWord::Name(two) => one.as_str() == two.as_str(),
            },
        }
    }

    /// Whether it is a name.
    pub(crate) fn is_name(&self) -> bool
        ensures { result ≡ ServiceWords.is_name self.now }
    {
        match self {
            ServiceWord::Number(_) => false,
            ServiceWord::Name(_) => true,
        }
    }
}
