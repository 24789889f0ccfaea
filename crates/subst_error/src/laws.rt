//! Laws of `==` and `clone` on errors. Each law is the contract of an empty function.

ghost use Rattle.std.specs.Prelude.{◌≡◌, ◌≢◌, ◌↔◌, IsTrue, None, false};
ghost use Rattle.subst_error.specs.ErrorFault.{error_fault, expand_fault, expand_into_fault};
ghost use Rattle.subst_error.specs.ErrorFault.{parse_fault, substitute_into_fault};
ghost use Rattle.subst_error.specs.Expected.{expected_text};
ghost use Rattle.subst_error.specs.declared.CharOrByte.{CharOrByte};
ghost use Rattle.subst_error.specs.declared.Error.{Error};
ghost use Rattle.subst_error.specs.declared.Error.TheVariants as stated;
ghost use Rattle.subst_error.specs.declared.ExpandError.{ExpandError};
ghost use Rattle.subst_error.specs.declared.ExpectedCharacter.{ExpectedCharacter};
ghost use Rattle.subst_error.specs.declared.InvalidEscapeSequence.{InvalidEscapeSequence};
ghost use Rattle.subst_error.specs.declared.MissingClosingBrace.{MissingClosingBrace};
ghost use Rattle.subst_error.specs.declared.MissingVariableName.{MissingVariableName};
ghost use Rattle.subst_error.specs.declared.NoSuchVariable.{NoSuchVariable};
ghost use Rattle.subst_error.specs.declared.ParseError.{ParseError};
ghost use Rattle.subst_error.specs.declared.UnexpectedCharacter.{UnexpectedCharacter};
ghost use Rattle.subst_error.specs.declared.borrowed.ExpandIntoError.{ExpandIntoError};
ghost use Rattle.subst_error.specs.declared.borrowed.ExpandIntoError.TheVariants as expanding_into;
ghost use Rattle.subst_error.specs.declared.borrowed.NoSuchVariableRef.{NoSuchVariableRef};
ghost use Rattle.subst_error.specs.declared.borrowed.SubstituteIntoError.{SubstituteIntoError};
ghost use Rattle.subst_error.specs.declared.borrowed.SubstituteIntoError.TheVariants as substituting_into;

use crate::{
    CharOrByte, Error, ExpandError, ExpandIntoError, ExpectedCharacter, InvalidEscapeSequence,
    MissingClosingBrace, MissingVariableName, NoSuchVariable, NoSuchVariableRef, ParseError,
    SubstituteIntoError, UnexpectedCharacter,
};

/// The law of clones. A clone states the same fault as the error. If the error states that memory ran out, so
/// does its clone.
pub fn clones_state_equal_faults()
    ensures error { (e copy : Error) → ⟦<Error as Clone>⟧.is_clone e copy
        → error_fault copy ≡ error_fault e }
    ensures parsing { (e copy : ParseError) → ⟦<ParseError as Clone>⟧.is_clone e copy
        → parse_fault copy ≡ parse_fault e }
    ensures expanding { (e copy : ExpandError) → ⟦<ExpandError as Clone>⟧.is_clone e copy
        → expand_fault copy ≡ expand_fault e }
    ensures missing { (e copy : NoSuchVariable) → ⟦<NoSuchVariable as Clone>⟧.is_clone e copy
        → error_fault (stated.NoSuchVariable copy) ≡ error_fault (stated.NoSuchVariable e) }
    ensures missing_borrowed { (e copy : NoSuchVariableRef)
        → ⟦<NoSuchVariableRef<'static> as Clone>⟧.is_clone e copy
        → expand_into_fault (expanding_into.NoSuchVariable copy)
        ≡ expand_into_fault (expanding_into.NoSuchVariable e) }
    ensures expanding_into { (e copy : ExpandIntoError)
        → ⟦<ExpandIntoError<'static> as Clone>⟧.is_clone e copy
        → expand_into_fault copy ≡ expand_into_fault e }
    ensures substituting_into { (e copy : SubstituteIntoError)
        → ⟦<SubstituteIntoError<'static> as Clone>⟧.is_clone e copy
        → substitute_into_fault copy ≡ substitute_into_fault e }
{}

/// The law of clones without a name. Cloning an error that owns no name of a variable doesn't allocate, so it
/// never fails.
pub fn clones_without_a_name_never_fail()
    ensures error { (e : Error) → ((v : NoSuchVariable) → e ≢ stated.NoSuchVariable v)
        → ⟦<Error as Clone>⟧.is_infallible e }
    ensures parsing { (e : ParseError) → ⟦<ParseError as Clone>⟧.is_infallible e }
    ensures expanding { (e : ExpandError) → expand_fault e ≡ None
        → ⟦<ExpandError as Clone>⟧.is_infallible e }
    ensures escape { (e : InvalidEscapeSequence)
        → ⟦<InvalidEscapeSequence as Clone>⟧.is_infallible e }
    ensures name { (e : MissingVariableName)
        → ⟦<MissingVariableName as Clone>⟧.is_infallible e }
    ensures character { (e : UnexpectedCharacter)
        → ⟦<UnexpectedCharacter as Clone>⟧.is_infallible e }
    ensures brace { (e : MissingClosingBrace)
        → ⟦<MissingClosingBrace as Clone>⟧.is_infallible e }
    ensures missing_borrowed { (e : NoSuchVariableRef)
        → ⟦<NoSuchVariableRef<'static> as Clone>⟧.is_infallible e }
    ensures expanding_into { (e : ExpandIntoError)
        → ⟦<ExpandIntoError<'static> as Clone>⟧.is_infallible e }
    ensures substituting_into { (e : SubstituteIntoError)
        → ⟦<SubstituteIntoError<'static> as Clone>⟧.is_infallible e }
{}

/// The law of equality. Errors are equal if and only if they state equal faults, or both state that memory
/// ran out. A `SubstituteIntoError` of parsing never equals one of expansion, even if both state that memory
/// ran out.
pub fn equal_errors_state_equal_faults()
    ensures error { (a b : Error) → IsTrue (⟦<Error as PartialEq>⟧.eq a b)
        ↔ (error_fault a ≡ error_fault b) }
    ensures parsing { (a b : ParseError) → IsTrue (⟦<ParseError as PartialEq>⟧.eq a b)
        ↔ (parse_fault a ≡ parse_fault b) }
    ensures expanding { (a b : ExpandError) → IsTrue (⟦<ExpandError as PartialEq>⟧.eq a b)
        ↔ (expand_fault a ≡ expand_fault b) }
    ensures expanding_into { (a b : ExpandIntoError)
        → IsTrue (⟦<ExpandIntoError<'static> as PartialEq>⟧.eq a b)
        ↔ (expand_into_fault a ≡ expand_into_fault b) }
    ensures substituting_into { (a b : SubstituteIntoError)
        → IsTrue (⟦<SubstituteIntoError<'static> as PartialEq>⟧.eq a b)
        → substitute_into_fault a ≡ substitute_into_fault b }
    ensures parse { (a b : ParseError)
        → IsTrue (⟦<SubstituteIntoError<'static> as PartialEq>⟧.eq
        (substituting_into.Parse a) (substituting_into.Parse b))
        ↔ (parse_fault a ≡ parse_fault b) }
    ensures expand { (a b : ExpandIntoError)
        → IsTrue (⟦<SubstituteIntoError<'static> as PartialEq>⟧.eq
        (substituting_into.Expand a) (substituting_into.Expand b))
        ↔ (expand_into_fault a ≡ expand_into_fault b) }
    ensures apart { (a : ParseError) (b : ExpandIntoError)
        → ⟦<SubstituteIntoError<'static> as PartialEq>⟧.eq
        (substituting_into.Parse a) (substituting_into.Expand b) ≡ false }
{}

/// The law of equality of the structs that errors hold. Two structs of one type are equal if and only if the
/// errors that hold them state equal faults. Two `ExpectedCharacter`s are equal if and only if their messages
/// are.
pub fn equal_parts_state_equal_faults()
    ensures escape { (a b : InvalidEscapeSequence)
        → IsTrue (⟦<InvalidEscapeSequence as PartialEq>⟧.eq a b)
        ↔ (error_fault (stated.InvalidEscapeSequence a)
        ≡ error_fault (stated.InvalidEscapeSequence b)) }
    ensures name { (a b : MissingVariableName)
        → IsTrue (⟦<MissingVariableName as PartialEq>⟧.eq a b)
        ↔ (error_fault (stated.MissingVariableName a)
        ≡ error_fault (stated.MissingVariableName b)) }
    ensures character { (a b : UnexpectedCharacter)
        → IsTrue (⟦<UnexpectedCharacter as PartialEq>⟧.eq a b)
        ↔ (error_fault (stated.UnexpectedCharacter a)
        ≡ error_fault (stated.UnexpectedCharacter b)) }
    ensures brace { (a b : MissingClosingBrace)
        → IsTrue (⟦<MissingClosingBrace as PartialEq>⟧.eq a b)
        ↔ (error_fault (stated.MissingClosingBrace a)
        ≡ error_fault (stated.MissingClosingBrace b)) }
    ensures variable { (a b : NoSuchVariable) → IsTrue (⟦<NoSuchVariable as PartialEq>⟧.eq a b)
        ↔ (error_fault (stated.NoSuchVariable a)
        ≡ error_fault (stated.NoSuchVariable b)) }
    ensures variable_borrowed { (a b : NoSuchVariableRef)
        → IsTrue (⟦<NoSuchVariableRef<'static> as PartialEq>⟧.eq a b)
        ↔ (expand_into_fault (expanding_into.NoSuchVariable a)
        ≡ expand_into_fault (expanding_into.NoSuchVariable b)) }
    ensures expected { (a b : ExpectedCharacter)
        → IsTrue (⟦<ExpectedCharacter as PartialEq>⟧.eq a b) ↔ (expected_text a ≡ expected_text b) }
    ensures either { (a b : CharOrByte) → IsTrue (⟦<CharOrByte as PartialEq>⟧.eq a b) ↔ (a ≡ b) }
{}
