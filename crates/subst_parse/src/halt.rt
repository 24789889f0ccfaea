//! The reasons to stop parsing with an error. A reason has no message, and converts into a `ParseError` that
//! states the same fault.

ghost use Rattle.std.specs.Prelude.{◌≡◌, ◌≤◌, Some, None, length};
ghost use Rattle.subst_error.specs.ErrorFault.{parse_fault};
ghost use Rattle.subst_error.specs.Fault as fault;
ghost use Rattle.subst_error.specs.declared.TheConstants.{MESSAGE_CAPACITY};
ghost use Rattle.subst_parse.specs.Halt.{halt_fault};
ghost use Rattle.subst_parse.specs.declared.halt.Halt.TheVariants as halting;

use std::alloc::{AllocError, AllocFailed};
use subst_error::{
    CharOrByte, ExpectedCharacter, InvalidEscapeSequence, MissingClosingBrace, MissingVariableName,
    ParseError, UnexpectedCharacter,
};

/// The message that names the characters expected after a name in braces.
const AFTER_NAME: &str = "a closing brace ('}'), colon (':') or question mark ('?')";

/// The message that names the character expected after a question mark.
const AFTER_QUESTION_MARK: &str = "a closing brace ('}')";

/// A reason to stop parsing with an error: a `ParseError` without its message. It is kept small, because each
/// step of the parser returns a `Result<(), Halt>`.
#[derive(Clone, Copy)]
pub(crate) enum Halt {
    /// A backslash at the end of the source.
    EscapeAtEnd {
        position: usize,
    },
    /// A backslash before a character that can't be escaped.
    BadEscape {
        position: usize,
        character: CharOrByte,
    },
    /// A `$` (of length 1) or `${` (of length 2) without a name after it.
    NoName {
        position: usize,
        len: usize,
    },
    /// An unexpected character after a name in braces.
    AfterName {
        position: usize,
        character: CharOrByte,
    },
    /// An unexpected character after a name and a question mark in braces.
    AfterQuestionMark {
        position: usize,
        character: CharOrByte,
    },
    /// A placeholder without its closing brace.
    Unclosed {
        position: usize,
    },
    /// An allocation failed.
    OutOfMemory(AllocError),
}

impl From<AllocError> for Halt {
    ghost from_gives = { λ e halt. halt ≡ halting.OutOfMemory e };

    fn from(e: AllocError) -> Halt {
        Halt::OutOfMemory(e)
    }
}

impl<T: Drop> From<AllocFailed<T>> for Halt {
    ghost from_gives = { λ _ halt. halt_fault halt ≡ None };

    fn from(e: AllocFailed<T>) -> Halt {
        Halt::OutOfMemory(e.into())
    }
}

impl From<Halt> for ParseError {
    ghost from_gives = { λ halt error. parse_fault error ≡ halt_fault halt };

    #[cold]
    fn from(halt: Halt) -> ParseError {
        match halt {
            Halt::EscapeAtEnd { position } => InvalidEscapeSequence {
                position,
                character: None,
            }
            .into(),
            Halt::BadEscape {
                position,
                character,
            } => InvalidEscapeSequence {
                position,
                character: Some(character),
            }
            .into(),
            Halt::NoName { position, len } => MissingVariableName { position, len }.into(),
            Halt::AfterName {
                position,
                character,
            } => unexpected(position, character, AFTER_NAME),
            Halt::AfterQuestionMark {
                position,
                character,
            } => unexpected(position, character, AFTER_QUESTION_MARK),
            Halt::Unclosed { position } => MissingClosingBrace { position }.into(),
            Halt::OutOfMemory(e) => e.into(),
        }
    }
}

/// Returns the error for an unexpected character, with the message that names the expected characters.
fn unexpected(position: usize, character: CharOrByte, message: &'static str) -> ParseError
    requires { length message.now ≤ MESSAGE_CAPACITY }
    ensures { parse_fault result
        ≡ Some (fault.UnexpectedCharacter position character message.now) }
{
    UnexpectedCharacter {
        position,
        character,
        expected: ExpectedCharacter::new(message),
    }
    .into()
}
