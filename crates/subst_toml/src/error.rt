//! The error of reading and filling in a text. Each `From` keeps the inner error, but converts a failure to
//! allocate into `OutOfMemory`.

use std::alloc::{AllocError, AllocFailed};
use std::fmt;
use std::str::Utf8Error;

/// The error of reading and filling in a text.
#[derive(Debug, Drop)]
pub enum Error {
    /// The bytes aren't UTF-8.
    InvalidUtf8(Utf8Error),
    /// The text isn't a TOML document, or the filled-in tree doesn't fit the type that the call returns.
    Toml(toml::de::Error),
    /// A string of the tree is refused. The inner error is never `OutOfMemory`, and its positions are byte
    /// offsets in the string.
    Subst(subst_error::Error),
    /// An allocation failed.
    OutOfMemory(AllocError),
}

impl From<Utf8Error> for Error {
    ghost use Rattle.std.specs.Prelude.{◌≡◌};
    ghost use Rattle.subst_toml.specs.declared.error.Error.TheVariants.{InvalidUtf8};

    ghost from_gives = { λ e error. error ≡ InvalidUtf8 e };

    fn from(e: Utf8Error) -> Error {
        Error::InvalidUtf8(e)
    }
}

impl From<toml::de::Error> for Error {
    ghost use Rattle.subst_toml.specs.Errors.{IsOfReader};

    ghost from_gives = { IsOfReader };

    fn from(e: toml::de::Error) -> Error {
        if e.is_memory() {
            Error::OutOfMemory(AllocError)
        } else {
            Error::Toml(e)
        }
    }
}

impl From<subst_error::Error> for Error {
    ghost use Rattle.subst_toml.specs.Errors.{IsOfSubstitution};

    ghost from_gives = { IsOfSubstitution };

    fn from(e: subst_error::Error) -> Error {
        match e {
            subst_error::Error::OutOfMemory(e) => Error::OutOfMemory(e),
            e => Error::Subst(e),
        }
    }
}

impl From<AllocError> for Error {
    ghost use Rattle.std.specs.Prelude.{◌≡◌};
    ghost use Rattle.subst_toml.specs.declared.error.Error.TheVariants.{OutOfMemory};

    ghost from_gives = { λ e error. error ≡ OutOfMemory e };

    fn from(e: AllocError) -> Error {
        Error::OutOfMemory(e)
    }
}

impl<T: Drop> From<AllocFailed<T>> for Error {
    ghost use Rattle.std.specs.Prelude.{◌≡◌};
    ghost use Rattle.std.specs.declared.alloc.AllocError.{AllocError};
    ghost use Rattle.subst_toml.specs.declared.error.Error.TheVariants.{OutOfMemory};

    ghost from_gives = { λ _ error. (e : AllocError) × (error ≡ OutOfMemory e) };

    fn from(e: AllocFailed<T>) -> Error {
        Error::OutOfMemory(e.into())
    }
}

/// The text of the inner error, or `out of memory`.
impl fmt::Display for Error {
    ghost use Rattle.std.specs.Fmt.{DisplaysOnOk};
    ghost use Rattle.subst_error.specs.Display.{IsDisplayOfError};
    ghost use Rattle.subst_error.specs.ErrorFault.{error_fault};
    ghost use Rattle.subst_error.specs.Writing.{WritesSome};
    ghost use Rattle.subst_toml.specs.Errors.{display_of_toml, IfSubst};

    ghost output = { display_of_toml };

    // If the error's text quotes a non-ASCII character, the clause `writes` doesn't state the text, since the
    // character may be escaped or not. If a string is refused, the clause `text` states the error's text, but
    // leaves this choice open.
    fn fmt<W: fmt::Write>(&self, f: &mut fmt::Formatter<W>) -> fmt::Result
        ensures writes { DisplaysOnOk W.write_str_gives f.old result
            (display_of_toml self.now) f.new }
        ensures text { IfSubst self.now (λ e. WritesSome W.write_str_gives f.old result
            (IsDisplayOfError (error_fault e)) f.new) }
    {
        match self {
            Error::InvalidUtf8(e) => e.fmt(f),
            Error::Toml(e) => e.fmt(f),
            Error::Subst(e) => e.fmt(f),
            Error::OutOfMemory(_) => f.write_str("out of memory"),
        }
    }
}

impl std::error::Error for Error {}
