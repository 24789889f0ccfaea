//! Conversions between errors. Each keeps the fault that the error states, and `OutOfMemory` stays
//! `OutOfMemory`.

ghost use Rattle.std.specs.Prelude.{◌≡◌, None};
ghost use Rattle.subst_error.specs.ErrorFault.{error_fault, expand_fault, parse_fault};
ghost use Rattle.subst_error.specs.declared.Error.TheVariants as substituting;
ghost use Rattle.subst_error.specs.declared.ExpandError.TheVariants as expanding;
ghost use Rattle.subst_error.specs.declared.ParseError.TheVariants as parsing;

use crate::{
    Error, ExpandError, InvalidEscapeSequence, MissingClosingBrace, MissingVariableName,
    NoSuchVariable, ParseError, UnexpectedCharacter,
};
use std::alloc::{AllocError, AllocFailed};

impl From<InvalidEscapeSequence> for ParseError {
    ghost from_gives = { λ fault error. error ≡ parsing.InvalidEscapeSequence fault };

    fn from(fault: InvalidEscapeSequence) -> ParseError {
        ParseError::InvalidEscapeSequence(fault)
    }
}

impl From<MissingVariableName> for ParseError {
    ghost from_gives = { λ fault error. error ≡ parsing.MissingVariableName fault };

    fn from(fault: MissingVariableName) -> ParseError {
        ParseError::MissingVariableName(fault)
    }
}

impl From<UnexpectedCharacter> for ParseError {
    ghost from_gives = { λ fault error. error ≡ parsing.UnexpectedCharacter fault };

    fn from(fault: UnexpectedCharacter) -> ParseError {
        ParseError::UnexpectedCharacter(fault)
    }
}

impl From<MissingClosingBrace> for ParseError {
    ghost from_gives = { λ fault error. error ≡ parsing.MissingClosingBrace fault };

    fn from(fault: MissingClosingBrace) -> ParseError {
        ParseError::MissingClosingBrace(fault)
    }
}

impl From<AllocError> for ParseError {
    ghost from_gives = { λ e error. error ≡ parsing.OutOfMemory e };

    fn from(e: AllocError) -> ParseError {
        ParseError::OutOfMemory(e)
    }
}

impl<T: Drop> From<AllocFailed<T>> for ParseError {
    ghost from_gives = { λ _ error. parse_fault error ≡ None };

    fn from(e: AllocFailed<T>) -> ParseError {
        ParseError::OutOfMemory(e.into())
    }
}

impl From<NoSuchVariable> for ExpandError {
    ghost from_gives = { λ fault error. error ≡ expanding.NoSuchVariable fault };

    fn from(fault: NoSuchVariable) -> ExpandError {
        ExpandError::NoSuchVariable(fault)
    }
}

impl From<AllocError> for ExpandError {
    ghost from_gives = { λ e error. error ≡ expanding.OutOfMemory e };

    fn from(e: AllocError) -> ExpandError {
        ExpandError::OutOfMemory(e)
    }
}

impl<T: Drop> From<AllocFailed<T>> for ExpandError {
    ghost from_gives = { λ _ error. expand_fault error ≡ None };

    fn from(e: AllocFailed<T>) -> ExpandError {
        ExpandError::OutOfMemory(e.into())
    }
}

impl From<InvalidEscapeSequence> for Error {
    ghost from_gives = { λ fault error. error ≡ substituting.InvalidEscapeSequence fault };

    fn from(fault: InvalidEscapeSequence) -> Error {
        Error::InvalidEscapeSequence(fault)
    }
}

impl From<MissingVariableName> for Error {
    ghost from_gives = { λ fault error. error ≡ substituting.MissingVariableName fault };

    fn from(fault: MissingVariableName) -> Error {
        Error::MissingVariableName(fault)
    }
}

impl From<UnexpectedCharacter> for Error {
    ghost from_gives = { λ fault error. error ≡ substituting.UnexpectedCharacter fault };

    fn from(fault: UnexpectedCharacter) -> Error {
        Error::UnexpectedCharacter(fault)
    }
}

impl From<MissingClosingBrace> for Error {
    ghost from_gives = { λ fault error. error ≡ substituting.MissingClosingBrace fault };

    fn from(fault: MissingClosingBrace) -> Error {
        Error::MissingClosingBrace(fault)
    }
}

impl From<NoSuchVariable> for Error {
    ghost from_gives = { λ fault error. error ≡ substituting.NoSuchVariable fault };

    fn from(fault: NoSuchVariable) -> Error {
        Error::NoSuchVariable(fault)
    }
}

impl From<ParseError> for Error {
    ghost from_gives = { λ e error. error_fault error ≡ parse_fault e };

    fn from(e: ParseError) -> Error {
        match e {
            ParseError::InvalidEscapeSequence(fault) => Error::InvalidEscapeSequence(fault),
            ParseError::MissingVariableName(fault) => Error::MissingVariableName(fault),
            ParseError::UnexpectedCharacter(fault) => Error::UnexpectedCharacter(fault),
            ParseError::MissingClosingBrace(fault) => Error::MissingClosingBrace(fault),
            ParseError::OutOfMemory(e) => Error::OutOfMemory(e),
        }
    }
}

impl From<ExpandError> for Error {
    ghost from_gives = { λ e error. error_fault error ≡ expand_fault e };

    fn from(e: ExpandError) -> Error {
        match e {
            ExpandError::NoSuchVariable(fault) => Error::NoSuchVariable(fault),
            ExpandError::OutOfMemory(e) => Error::OutOfMemory(e),
        }
    }
}

impl From<AllocError> for Error {
    ghost from_gives = { λ e error. error ≡ substituting.OutOfMemory e };

    fn from(e: AllocError) -> Error {
        Error::OutOfMemory(e)
    }
}

impl<T: Drop> From<AllocFailed<T>> for Error {
    ghost from_gives = { λ _ error. error_fault error ≡ None };

    fn from(e: AllocFailed<T>) -> Error {
        Error::OutOfMemory(e.into())
    }
}
