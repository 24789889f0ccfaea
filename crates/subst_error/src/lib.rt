//! The errors of `subst`: what is wrong with a source, and where.
//!
//! Positions are byte offsets in the whole source, from 0, also inside defaults.
//!
//! A derived `From` has no contract, so conversions are written by hand.
#![tactic(auto)]

ghost use Rattle.std.specs.Prelude.{◌≡◌, ◌≤◌, length};
ghost use Rattle.subst_error.specs.declared.TheConstants.{MESSAGE_CAPACITY};

pub use borrowed::{ExpandIntoError, NoSuchVariableRef, SubstituteIntoError};
pub use highlighting::{Underlined, underline};
pub use position::line_and_column;
pub use quoted::QuotedPrintable;
use std::alloc::AllocError;
use std::fmt;
use std::fmt::InlineText;

mod borrowed;
mod conversions;
mod display;
mod highlighting;
pub mod laws;
mod line;
mod position;
mod quoted;
mod range;
mod unpadded;

/// The maximum length in bytes of a message that an [`ExpectedCharacter`] keeps whole.
pub const MESSAGE_CAPACITY: usize = 64;

/// A character, or a byte at which no UTF-8 character begins.
#[derive(Clone, Copy, Debug, PartialEq, Eq)]
pub enum CharOrByte {
    /// A Unicode character.
    Char(char),
    /// A byte at which no UTF-8 character begins.
    Byte(u8),
}

/// The message that names the characters expected instead of an unexpected one.
#[derive(Clone, Copy)]
pub struct ExpectedCharacter {
    message: InlineText<MESSAGE_CAPACITY>,
}

impl ExpectedCharacter {
    ghost use Rattle.std.specs.Fmt.Cut.{cut_to};
    ghost use Rattle.subst_error.specs.Expected.{expected_text};

    /// Creates the message without allocating. A message of more than [`MESSAGE_CAPACITY`] bytes is cut at a
    /// character boundary and ends in three dots.
    #[tactic(auto, using(crate::proofs::CutLemmas::cut_to_fits))]
    pub fn new(message: &'static str) -> Self
        ensures whole { length message.now ≤ MESSAGE_CAPACITY
            → expected_text result ≡ message.now }
        ensures cut { expected_text result ≡ cut_to MESSAGE_CAPACITY message.now }
    {
        ExpectedCharacter {
            message: InlineText::new().and_str(message, MESSAGE_CAPACITY),
        }
    }

    /// Returns the message, which [`ExpectedCharacter::new`] may have cut.
    pub fn message(&self) -> &str
        ensures text { result.now ≡ expected_text self.now }
    {
        self.message.as_str()
    }
}

impl PartialEq for ExpectedCharacter {
    ghost use Rattle.std.specs.Prelude.{nat_eq};
    ghost use Rattle.std.specs.Cmp.{on_per, partial_equiv_from_equiv};
    ghost use Rattle.std.specs.Cmp.Lexicographic.{nat_list_eq_equiv, pointwise};
    ghost use Rattle.subst_error.specs.Expected.{expected_text};

    ghost eq = { λ a b. pointwise nat_eq (expected_text a) (expected_text b) };

    ghost laws = { on_per expected_text (partial_equiv_from_equiv nat_list_eq_equiv) };

    fn eq(&self, other: &ExpectedCharacter) -> bool {
        self.message() == other.message()
    }
}

impl Eq for ExpectedCharacter {
    ghost use Rattle.std.specs.Cmp.{on_equiv};
    ghost use Rattle.std.specs.Cmp.Lexicographic.{nat_list_eq_equiv};
    ghost use Rattle.subst_error.specs.Expected.{expected_text};

    ghost laws = { on_equiv expected_text nat_list_eq_equiv };
}

impl fmt::Debug for ExpectedCharacter {
    fn fmt<W: fmt::Write>(&self, f: &mut fmt::Formatter<W>) -> fmt::Result {
        f.debug_struct("ExpectedCharacter")
            .field("message", &self.message())
            .finish()
    }
}

/// A backslash before a character that can't be escaped, or at the end of the source.
#[derive(Clone, Copy, Debug, PartialEq, Eq)]
pub struct InvalidEscapeSequence {
    /// The byte offset of the backslash.
    pub position: usize,
    /// The character after the backslash, or `None` at the end of the source.
    pub character: Option<CharOrByte>,
}

/// A `$` or `${` without a name after it.
#[derive(Clone, Copy, Debug, PartialEq, Eq)]
pub struct MissingVariableName {
    /// The byte offset of the `$`.
    pub position: usize,
    /// The length in bytes: 1 for `$`, 2 for `${`.
    pub len: usize,
}

/// An unexpected character after the name of a placeholder in braces.
#[derive(Clone, Copy, Debug, PartialEq, Eq)]
pub struct UnexpectedCharacter {
    /// The byte offset of the character.
    pub position: usize,
    /// The unexpected character.
    pub character: CharOrByte,
    /// The characters expected instead, as a message.
    pub expected: ExpectedCharacter,
}

/// A placeholder without its closing brace.
#[derive(Clone, Copy, Debug, PartialEq, Eq)]
pub struct MissingClosingBrace {
    /// The byte offset of the opening brace.
    pub position: usize,
}

/// An unset variable without a default, written `$name` or `${name}`.
#[derive(Clone, Debug, PartialEq, Eq, Drop)]
pub struct NoSuchVariable {
    /// The byte offset of the name.
    pub position: usize,
    /// The name of the variable.
    pub name: String,
}

/// An error of parsing or expanding a source.
#[derive(Clone, Debug, PartialEq, Eq, Drop)]
pub enum Error {
    /// A backslash before a character that can't be escaped, or at the end of the source.
    InvalidEscapeSequence(InvalidEscapeSequence),
    /// A `$` or `${` without a name after it.
    MissingVariableName(MissingVariableName),
    /// An unexpected character after the name of a placeholder in braces.
    UnexpectedCharacter(UnexpectedCharacter),
    /// A placeholder without its closing brace.
    MissingClosingBrace(MissingClosingBrace),
    /// An unset variable without a default.
    NoSuchVariable(NoSuchVariable),
    /// An allocation failed.
    OutOfMemory(AllocError),
}

/// An error of parsing a template.
#[derive(Clone, Copy, Debug, PartialEq, Eq)]
pub enum ParseError {
    /// A backslash before a character that can't be escaped, or at the end of the source.
    InvalidEscapeSequence(InvalidEscapeSequence),
    /// A `$` or `${` without a name after it.
    MissingVariableName(MissingVariableName),
    /// An unexpected character after the name of a placeholder in braces.
    UnexpectedCharacter(UnexpectedCharacter),
    /// A placeholder without its closing brace.
    MissingClosingBrace(MissingClosingBrace),
    /// An allocation failed.
    OutOfMemory(AllocError),
}

/// An error of expanding a template.
#[derive(Clone, Debug, PartialEq, Eq, Drop)]
pub enum ExpandError {
    /// An unset variable without a default.
    NoSuchVariable(NoSuchVariable),
    /// An allocation failed.
    OutOfMemory(AllocError),
}
