//! The first token of a text, or why there is none.
use crate::{Kind, Token};
use byte_lists::NoMemory;
use std::alloc::{AllocError, AllocFailed};

/// A token at the front of a text.
#[derive(Debug, Drop)]
pub(crate) struct Found {
    pub(crate) token: Token,
    /// How many bytes of the text it takes.
    pub(crate) takes: usize,
}

/// Why no token was read.
#[derive(Debug, Drop)]
pub(crate) enum Unread {
    /// No token can be read here.
    Fault(Kind),
    NoMemory,
}

impl From<NoMemory> for Unread {
    ghost use Rattle.std.specs.Prelude.{◌≡◌};
    ghost use Rattle.selector_tokens.specs.declared.found.Unread.TheVariants as unread;

    ghost from_gives = { λ _ e. e ≡ unread.NoMemory };

    fn from(_fault: NoMemory) -> Unread {
        Unread::NoMemory
    }
}

impl From<AllocError> for Unread {
    ghost use Rattle.std.specs.Prelude.{◌≡◌};
    ghost use Rattle.selector_tokens.specs.declared.found.Unread.TheVariants as unread;

    ghost from_gives = { λ _ e. e ≡ unread.NoMemory };

    fn from(_fault: AllocError) -> Unread {
        Unread::NoMemory
    }
}

impl<T: Drop> From<AllocFailed<T>> for Unread {
    ghost use Rattle.std.specs.Prelude.{◌≡◌};
    ghost use Rattle.selector_tokens.specs.declared.found.Unread.TheVariants as unread;

    ghost from_gives = { λ _ e. e ≡ unread.NoMemory };

    fn from(_fault: AllocFailed<T>) -> Unread {
        Unread::NoMemory
    }
}
