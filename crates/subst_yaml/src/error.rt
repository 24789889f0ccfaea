//! The error of reading and filling in a text. Each `From` keeps the inner error, except that a failure to
//! allocate becomes `OutOfMemory`.

ghost use Rattle.std.specs.Prelude.{Some};
ghost use Rattle.subst_yaml.specs.Errors.{display_of_fault, display_of_reason};

use std::alloc::{AllocError, AllocFailed};
use std::fmt;
use subst_yaml_reader::Span;

/// The reason why a text is refused.
#[derive(Clone, Copy, Debug)]
pub enum Reason {
    /// The bytes aren't UTF-8.
    InvalidUtf8,
    /// The reader refuses the text.
    Reader(subst_yaml_reader::Reason),
}

impl fmt::Display for Reason {
    ghost output = { λ reason. Some (display_of_reason reason) };

    ghost styled_output = { λ reason _. Some (display_of_reason reason) };

    fn fmt<W: fmt::Write>(&self, f: &mut fmt::Formatter<W>) -> fmt::Result {
        match self {
            Reason::InvalidUtf8 => f.write_str("a text that isn't UTF-8"),
            Reason::Reader(reason) => reason.fmt(f),
        }
    }
}

/// A refusal of a text: its reason and its place.
#[derive(Clone, Copy, Debug)]
pub struct Fault {
    /// The reason why the text is refused.
    pub reason: Reason,
    /// The span of the refused character, empty at the end of the text.
    pub span: Span,
    /// The line on which the span begins, from 1.
    pub line: usize,
}

impl fmt::Display for Fault {
    ghost output = { λ fault. Some (display_of_fault fault) };

    fn fmt<W: fmt::Write>(&self, f: &mut fmt::Formatter<W>) -> fmt::Result {
        let line = self.line;
        let reason = self.reason;
        write!(f, "line {line}: {reason}")
    }
}

/// The error of reading and filling in a text.
#[derive(Debug, Drop)]
pub enum Error {
    /// The text is refused by the reader, or isn't UTF-8.
    Yaml(Fault),
    /// The error of a refused string, never `OutOfMemory`. Positions are byte offsets in that string.
    Subst(subst_error::Error),
    /// An allocation failed.
    OutOfMemory(AllocError),
}

impl From<subst_yaml_reader::Error> for Error {
    ghost use Rattle.subst_yaml.specs.Errors.{IsOfReader};

    ghost from_gives = { IsOfReader };

    fn from(e: subst_yaml_reader::Error) -> Error {
        match e {
            subst_yaml_reader::Error::Refused(fault) => Error::Yaml(Fault {
                reason: Reason::Reader(fault.reason),
                span: fault.span,
                line: fault.line,
            }),
            subst_yaml_reader::Error::OutOfMemory => Error::OutOfMemory(AllocError),
        }
    }
}

impl From<subst_error::Error> for Error {
    ghost use Rattle.subst_yaml.specs.Errors.{IsOfSubstitution};

    ghost from_gives = { IsOfSubstitution };

    fn from(e: subst_error::Error) -> Error {
        match e {
            subst_error::Error::OutOfMemory(e) => Error::OutOfMemory(e),
            e => Error::Subst(e),
        }
    }
}

impl From<AllocError> for Error {
    ghost use Rattle.std.specs.Prelude.{◌≡◌};
    ghost use Rattle.subst_yaml.specs.declared.error.Error.TheVariants.{OutOfMemory};

    ghost from_gives = { λ e error. error ≡ OutOfMemory e };

    fn from(e: AllocError) -> Error {
        Error::OutOfMemory(e)
    }
}

impl<T: Drop> From<AllocFailed<T>> for Error {
    ghost use Rattle.std.specs.Prelude.{◌≡◌};
    ghost use Rattle.std.specs.declared.alloc.AllocError.{AllocError};
    ghost use Rattle.subst_yaml.specs.declared.error.Error.TheVariants.{OutOfMemory};

    ghost from_gives = { λ _ error. (e : AllocError) × (error ≡ OutOfMemory e) };

    fn from(e: AllocFailed<T>) -> Error {
        Error::OutOfMemory(e.into())
    }
}

/// The text of the inner error, or `out of memory`.
impl fmt::Display for Error {
    ghost use Rattle.std.specs.Fmt.{DisplaysOnOk};
    ghost use Rattle.subst_error.specs.Display.{IsDisplayOfError};
    ghost use Rattle.subst_error.specs.ErrorFault.{error_fault};
    ghost use Rattle.subst_error.specs.Writing.{WritesSome};
    ghost use Rattle.subst_yaml.specs.Errors.{display_of_yaml, IfSubst};

    ghost output = { display_of_yaml };

    // The clause `text` also covers an error that quotes a character that isn't ASCII. Such a character may
    // be escaped or not.
    fn fmt<W: fmt::Write>(&self, f: &mut fmt::Formatter<W>) -> fmt::Result
        ensures writes { DisplaysOnOk W.write_str_gives f.old result
            (display_of_yaml self.now) f.new }
        ensures text { IfSubst self.now (λ e. WritesSome W.write_str_gives f.old result
            (IsDisplayOfError (error_fault e)) f.new) }
    {
        match self {
            Error::Yaml(e) => e.fmt(f),
            Error::Subst(e) => e.fmt(f),
            Error::OutOfMemory(_) => f.write_str("out of memory"),
        }
    }
}

impl std::error::Error for Error {}
