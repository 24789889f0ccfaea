//! `Display` of characters and errors.

ghost use Rattle.std.specs.Prelude.{Some, string_bytes};
ghost use Rattle.std.specs.Fmt.{DisplaysOnOk, DisplaysStyledOnOk};
ghost use Rattle.subst_error.specs.Display.{display_of_character, display_of_error, display_of_fault};
ghost use Rattle.subst_error.specs.Display.{IsDisplayOfError, IsDisplayOfFault};
ghost use Rattle.subst_error.specs.ErrorFault.{error_fault, expand_fault, expand_into_fault, parse_fault};
ghost use Rattle.subst_error.specs.ErrorFault.{substitute_into_fault, unexpected_fault};
ghost use Rattle.subst_error.specs.Fault as fault;
ghost use Rattle.subst_error.specs.Writing.{WritesSome};

use crate::unpadded::write_unpadded;
use crate::{
    CharOrByte, Error, ExpandError, ExpandIntoError, InvalidEscapeSequence, MissingClosingBrace,
    MissingVariableName, NoSuchVariable, NoSuchVariableRef, ParseError, SubstituteIntoError,
    UnexpectedCharacter,
};
use std::fmt;

impl fmt::Display for CharOrByte {
    ghost output = { λ character. Some (display_of_character character) };

    ghost styled_output = { λ character _. Some (display_of_character character) };

    #[tactic(auto, using(std::proofs::lemmas::Fmt::hex_byte))]
    fn fmt<W: fmt::Write>(&self, f: &mut fmt::Formatter<W>) -> fmt::Result {
        match *self {
            CharOrByte::Char(c) => f.write_char(c),
            CharOrByte::Byte(b) => {
                if b.is_ascii() {
                    f.write_char(char::from(b))
                } else {
                    write_unpadded(format_args!("0x{b:02X}"), f)
                }
            }
        }
    }
}

impl fmt::Display for InvalidEscapeSequence {
    ghost output = { λ e. display_of_fault (fault.InvalidEscapeSequence e.position e.character) };

    ghost styled_output = { λ e _.
        display_of_fault (fault.InvalidEscapeSequence e.position e.character) };

    #[tactic(auto, using(crate::proofs::StyledLemmas::styled_two))]
    fn fmt<W: fmt::Write>(&self, f: &mut fmt::Formatter<W>) -> fmt::Result {
        match &self.character {
            Some(c) => {
                f.write_str("Invalid escape sequence: \\")?;
                fmt::Display::fmt(c, f)
            }
            None => f.write_str("Invalid escape sequence: missing escape character"),
        }
    }
}

impl fmt::Display for MissingVariableName {
    ghost output = { λ e. display_of_fault (fault.MissingVariableName e.position e.len) };

    ghost styled_output = { λ e _. display_of_fault (fault.MissingVariableName e.position e.len) };

    fn fmt<W: fmt::Write>(&self, f: &mut fmt::Formatter<W>) -> fmt::Result {
        f.write_str("Missing variable name")
    }
}

impl fmt::Display for UnexpectedCharacter {
    ghost output = { λ e. display_of_fault (unexpected_fault e) };

    ghost styled_output = { λ e _. display_of_fault (unexpected_fault e) };

    fn fmt<W: fmt::Write>(&self, f: &mut fmt::Formatter<W>) -> fmt::Result
        ensures writes { DisplaysOnOk W.write_str_gives f.old result
            (display_of_fault (unexpected_fault self.now)) f.new }
        ensures styled { DisplaysStyledOnOk W.write_str_gives f.old result
            (display_of_fault (unexpected_fault self.now)) f.new }
        ensures text { WritesSome W.write_str_gives f.old result
            (IsDisplayOfFault (unexpected_fault self.now)) f.new }
    {
        let character = self.character.quoted_printable();
        f.write_str("Unexpected character: ")?;
        fmt::Display::fmt(&character, f)?;
        f.write_str(", expected ")?;
        f.write_str(self.expected.message())
    }
}

impl fmt::Display for MissingClosingBrace {
    ghost output = { λ e. display_of_fault (fault.MissingClosingBrace e.position) };

    ghost styled_output = { λ e _. display_of_fault (fault.MissingClosingBrace e.position) };

    fn fmt<W: fmt::Write>(&self, f: &mut fmt::Formatter<W>) -> fmt::Result {
        f.write_str("Missing closing brace")
    }
}

impl fmt::Display for NoSuchVariable {
    ghost output = { λ e.
        display_of_fault (fault.NoSuchVariable e.position (string_bytes e.name)) };

    ghost styled_output = { λ e _.
        display_of_fault (fault.NoSuchVariable e.position (string_bytes e.name)) };

    fn fmt<W: fmt::Write>(&self, f: &mut fmt::Formatter<W>) -> fmt::Result {
        let missing = NoSuchVariableRef {
            position: self.position,
            name: self.name.as_str(),
        };
        fmt::Display::fmt(&missing, f)
    }
}

impl fmt::Display for NoSuchVariableRef<'_> {
    ghost output = { λ e. display_of_fault (fault.NoSuchVariable e.position e.name.now) };

    ghost styled_output = { λ e _. display_of_fault (fault.NoSuchVariable e.position e.name.now) };

    #[tactic(auto, using(crate::proofs::StyledLemmas::styled_two))]
    fn fmt<W: fmt::Write>(&self, f: &mut fmt::Formatter<W>) -> fmt::Result {
        f.write_str("No such variable: $")?;
        f.write_str(self.name)
    }
}

impl fmt::Display for Error {
    ghost output = { λ e. display_of_error (error_fault e) };

    ghost styled_output = { λ e _. display_of_error (error_fault e) };

    fn fmt<W: fmt::Write>(&self, f: &mut fmt::Formatter<W>) -> fmt::Result
        ensures writes { DisplaysOnOk W.write_str_gives f.old result
            (display_of_error (error_fault self.now)) f.new }
        ensures styled { DisplaysStyledOnOk W.write_str_gives f.old result
            (display_of_error (error_fault self.now)) f.new }
        ensures text { WritesSome W.write_str_gives f.old result
            (IsDisplayOfError (error_fault self.now)) f.new }
    {
        match self {
            Error::InvalidEscapeSequence(e) => fmt::Display::fmt(e, f),
            Error::MissingVariableName(e) => fmt::Display::fmt(e, f),
            Error::UnexpectedCharacter(e) => fmt::Display::fmt(e, f),
            Error::MissingClosingBrace(e) => fmt::Display::fmt(e, f),
            Error::NoSuchVariable(e) => fmt::Display::fmt(e, f),
            Error::OutOfMemory(_) => f.write_str("out of memory"),
        }
    }
}

impl fmt::Display for ParseError {
    ghost output = { λ e. display_of_error (parse_fault e) };

    ghost styled_output = { λ e _. display_of_error (parse_fault e) };

    fn fmt<W: fmt::Write>(&self, f: &mut fmt::Formatter<W>) -> fmt::Result
        ensures writes { DisplaysOnOk W.write_str_gives f.old result
            (display_of_error (parse_fault self.now)) f.new }
        ensures styled { DisplaysStyledOnOk W.write_str_gives f.old result
            (display_of_error (parse_fault self.now)) f.new }
        ensures text { WritesSome W.write_str_gives f.old result
            (IsDisplayOfError (parse_fault self.now)) f.new }
    {
        match self {
            ParseError::InvalidEscapeSequence(e) => fmt::Display::fmt(e, f),
            ParseError::MissingVariableName(e) => fmt::Display::fmt(e, f),
            ParseError::UnexpectedCharacter(e) => fmt::Display::fmt(e, f),
            ParseError::MissingClosingBrace(e) => fmt::Display::fmt(e, f),
            ParseError::OutOfMemory(_) => f.write_str("out of memory"),
        }
    }
}

impl fmt::Display for ExpandError {
    ghost output = { λ e. display_of_error (expand_fault e) };

    ghost styled_output = { λ e _. display_of_error (expand_fault e) };

    fn fmt<W: fmt::Write>(&self, f: &mut fmt::Formatter<W>) -> fmt::Result {
        match self {
            ExpandError::NoSuchVariable(e) => fmt::Display::fmt(e, f),
            ExpandError::OutOfMemory(_) => f.write_str("out of memory"),
        }
    }
}

impl fmt::Display for ExpandIntoError<'_> {
    ghost output = { λ e. display_of_error (expand_into_fault e) };

    ghost styled_output = { λ e _. display_of_error (expand_into_fault e) };

    fn fmt<W: fmt::Write>(&self, f: &mut fmt::Formatter<W>) -> fmt::Result {
        match self {
            ExpandIntoError::NoSuchVariable(e) => fmt::Display::fmt(e, f),
            ExpandIntoError::OutOfMemory(_) => f.write_str("out of memory"),
        }
    }
}

impl fmt::Display for SubstituteIntoError<'_> {
    ghost output = { λ e. display_of_error (substitute_into_fault e) };

    ghost styled_output = { λ e _. display_of_error (substitute_into_fault e) };

    fn fmt<W: fmt::Write>(&self, f: &mut fmt::Formatter<W>) -> fmt::Result
        ensures writes { DisplaysOnOk W.write_str_gives f.old result
            (display_of_error (substitute_into_fault self.now)) f.new }
        ensures styled { DisplaysStyledOnOk W.write_str_gives f.old result
            (display_of_error (substitute_into_fault self.now)) f.new }
        ensures text { WritesSome W.write_str_gives f.old result
            (IsDisplayOfError (substitute_into_fault self.now)) f.new }
    {
        match self {
            SubstituteIntoError::Parse(e) => fmt::Display::fmt(e, f),
            SubstituteIntoError::Expand(e) => fmt::Display::fmt(e, f),
        }
    }
}

impl std::error::Error for InvalidEscapeSequence {}

impl std::error::Error for MissingVariableName {}

impl std::error::Error for UnexpectedCharacter {}

impl std::error::Error for MissingClosingBrace {}

impl std::error::Error for NoSuchVariable {}

impl std::error::Error for NoSuchVariableRef<'_> {}

impl std::error::Error for Error {}

impl std::error::Error for ParseError {}

impl std::error::Error for ExpandError {}

impl std::error::Error for ExpandIntoError<'_> {}

impl std::error::Error for SubstituteIntoError<'_> {}
