//! Errors: their formatting, equality, conversions and clones. Rows of `subst_vectors` test the texts of
//! faults.

use crate::expect::{Testing, expect_debug, expect_display, expect_plain};
use CharOrByte::{Byte, Char};
use std::alloc::{AllocError, AllocFailed, Global};
use std::fmt::{Debug, Display};
use std::test::Fail;
use subst::error::{
    CharOrByte, Error, ExpandError, ExpandIntoError, ExpectedCharacter, InvalidEscapeSequence,
    MissingClosingBrace, MissingVariableName, NoSuchVariable, NoSuchVariableRef, ParseError,
    SubstituteIntoError, UnexpectedCharacter,
};

#[test]
fn characters_and_bytes(rt: HostRuntime) {
    // Each character or byte with its length in bytes in a source, its text, and its quoted form.
    let rows: &[(CharOrByte, usize, &str, &str)] = &[
        (Char('w'), 1, "w", "'w'"),
        (Char('y'), 1, "y", "'y'"),
        (Char('\0'), 1, "\0", "'\\0'"),
        (Char('\t'), 1, "\t", "'\\t'"),
        (Char('\n'), 1, "\n", "'\\n'"),
        (Char('"'), 1, "\"", "'\"'"),
        (Char('\''), 1, "'", "'\\''"),
        (Char('\\'), 1, "\\", "'\\\\'"),
        (Char('é'), 2, "é", "'é'"),
        (Char('❤'), 3, "❤", "'❤'"),
        (Char('😀'), 4, "😀", "'😀'"),
        (Char('\u{85}'), 2, "\u{85}", "'\\u{85}'"),
        (Char('\u{301}'), 2, "\u{301}", "'\\u{301}'"),
        (Char('\u{200b}'), 3, "\u{200b}", "'\\u{200b}'"),
        (Char('\u{10ffff}'), 4, "\u{10ffff}", "'\\u{10ffff}'"),
        (Byte(0x00), 1, "\0", "'\\0'"),
        (Byte(0x01), 1, "\x01", "'\\u{1}'"),
        (Byte(0x09), 1, "\t", "'\\t'"),
        (Byte(0x0A), 1, "\n", "'\\n'"),
        (Byte(0x0D), 1, "\r", "'\\r'"),
        (Byte(0x1B), 1, "\x1B", "'\\u{1b}'"),
        (Byte(0x41), 1, "A", "'A'"),
        (Byte(0x79), 1, "y", "'y'"),
        (Byte(0x7F), 1, "\x7F", "'\\u{7f}'"),
        (Byte(0x80), 1, "0x80", "'\\x80'"),
        (Byte(0x81), 1, "0x81", "'\\x81'"),
        (Byte(0xE2), 1, "0xE2", "'\\xE2'"),
        (Byte(0xFF), 1, "0xFF", "'\\xFF'"),
    ];
    for &(character, len, shown, quoted) in rows {
        assert_eq!(rt; character.source_len(), len, "{character:?}");
        expect_display(&rt, &character, shown);
        expect_display(&rt, &character.quoted_printable(), quoted);
    }
}

#[test]
fn characters_are_quoted_as_debug_does(rt: HostRuntime) -> Result<(), Fail> {
    for number in (0..0x110000).step_by(13) {
        if let Some(c) = char::from_u32(number) {
            let debug = format!(in rt.alloc(); "{c:?}")?;
            let quoted = format!(in rt.alloc(); "{}", Char(c).quoted_printable())?;
            assert_eq!(rt; quoted, debug);
        }
    }
    Ok(())
}

#[test]
fn long_messages_are_cut(rt: HostRuntime) {
    let longest = "a letter, a digit, an underscore, a brace, a colon or a dot here";
    let long = "a letter, a digit, an underscore, a brace, a colon, a dollar or a backslash";
    let cut = "a letter, a digit, an underscore, a brace, a colon, a dollar ...";
    for (text, want) in [(longest, longest), (long, cut)] {
        let message = ExpectedCharacter::new(text);
        assert_eq!(rt; message.message(), want);
        assert!(rt; message == ExpectedCharacter::new(text));
    }
}

fn escape(position: usize, character: Option<CharOrByte>) -> ParseError {
    ParseError::from(InvalidEscapeSequence {
        position,
        character,
    })
}

fn no_name(position: usize, len: usize) -> ParseError {
    ParseError::from(MissingVariableName { position, len })
}

fn unexpected(position: usize, character: CharOrByte, expected: &'static str) -> ParseError {
    let expected = ExpectedCharacter::new(expected);
    ParseError::from(UnexpectedCharacter {
        position,
        character,
        expected,
    })
}

fn unclosed(position: usize) -> ParseError {
    ParseError::from(MissingClosingBrace { position })
}

/// Expects that a fault and the `Error` made from it have the same text, whatever the formatting options.
fn expect_one_text(rt: &impl Testing, fault: ParseError) -> Result<(), AllocError> {
    let error = Error::from(fault);
    let text = fault.to_string(rt.alloc())?;
    expect_display(rt, &fault, &text);
    expect_display(rt, &error, &text);
    Ok(())
}

/// Expects that two faults, and the `Error`s made from them, are equal exactly if `are_equal` is set.
fn expect_equality(rt: &impl Testing, one: ParseError, other: ParseError, are_equal: bool) {
    assert_eq!(rt; one == other, are_equal, "{one:?} and {other:?}");
    let are_errors_equal = Error::from(one) == Error::from(other);
    assert_eq!(rt; are_errors_equal, are_equal, "{one:?} and {other:?}");
}

#[test]
fn texts_and_equality_of_faults(rt: HostRuntime) -> Result<(), Fail> {
    let faults = [
        escape(6, None),
        escape(12, None),
        escape(6, Some(Char('w'))),
        escape(6, Some(Char('y'))),
        escape(6, Some(Byte(0x79))),
        escape(6, Some(Char('❤'))),
        escape(10, Some(Char('（'))),
        escape(0, Some(Byte(0x80))),
        no_name(6, 1),
        no_name(6, 2),
        no_name(7, 1),
        unexpected(6, Char(')'), "a dot"),
        unexpected(6, Char(')'), "a tab"),
        unexpected(6, Char('❤'), "a dot"),
        unexpected(6, Byte(0xE2), "a dot"),
        unexpected(7, Byte(0xE2), "a dot"),
        unclosed(6),
        unclosed(7),
        ParseError::from(AllocError),
    ];
    for (row, &fault) in faults.iter().enumerate() {
        expect_one_text(&rt, fault)?;
        for (other_row, &other) in faults.iter().enumerate() {
            expect_equality(&rt, fault, other, row == other_row);
        }
    }
    Ok(())
}

/// Expects that the `{:?}` of a fault is `want`. For the errors made from the fault, expects `NAME(want)`,
/// where `NAME` is the first word of `want`.
fn expect_fault<F: Copy + Debug>(rt: &impl Testing, fault: F, want: &str) -> Result<(), AllocError>
where
    ParseError: From<F>,
    Error: From<F>,
{
    expect_debug(rt, &fault, want);
    let (name, _) = want.split_once(' ').unwrap_or(("", ""));
    let around = format!(in rt.alloc(); "{name}({want})")?;
    expect_debug(rt, &Error::from(fault), &around);
    let fault: ParseError = fault.into();
    expect_debug(rt, &fault, &around);
    Ok(())
}

#[test]
fn debug_texts_of_faults(rt: HostRuntime) -> Result<(), Fail> {
    let (position, character) = (6, Some(Byte(0x80)));
    let want = "InvalidEscapeSequence { position: 6, character: Some(Byte(128)) }";
    expect_fault(
        &rt,
        InvalidEscapeSequence {
            position,
            character,
        },
        want,
    )?;
    let want = "MissingVariableName { position: 6, len: 2 }";
    expect_fault(&rt, MissingVariableName { position, len: 2 }, want)?;
    let (character, expected) = (Char(')'), ExpectedCharacter::new("a dot"));
    let want = "UnexpectedCharacter { position: 6, character: Char(')'), \
        expected: ExpectedCharacter { message: \"a dot\" } }";
    let unexpected = UnexpectedCharacter {
        position,
        character,
        expected,
    };
    expect_fault(&rt, unexpected, want)?;
    let want = "MissingClosingBrace { position: 6 }";
    expect_fault(&rt, MissingClosingBrace { position }, want)?;
    let want = "QuotedPrintable { character: Char(')') }";
    expect_debug(&rt, &character.quoted_printable(), want);
    Ok(())
}

#[test]
fn debug_texts_of_out_of_memory(rt: HostRuntime) {
    let want = "OutOfMemory(AllocError)";
    expect_debug(&rt, &ParseError::from(AllocError), want);
    expect_debug(&rt, &ParseError::from(AllocFailed { value: 7u8 }), want);
    expect_debug(&rt, &ExpandError::from(AllocError), want);
    expect_debug(&rt, &ExpandError::from(AllocFailed { value: 7u8 }), want);
    expect_debug(&rt, &Error::from(AllocError), want);
    expect_debug(&rt, &Error::from(AllocFailed { value: 7u8 }), want);
    expect_display(&rt, &ExpandError::from(AllocError), "out of memory");
}

fn absent(alloc: Global, position: usize, name: &str) -> Result<NoSuchVariable, AllocError> {
    let name = String::from_str(alloc, name)?;
    Ok(NoSuchVariable { position, name })
}

/// Expects that the text of a value doesn't depend on formatting options, and that its `{:?}` is `debug`.
fn expect_texts<D: Debug + Display>(
    rt: &impl Testing,
    value: &D,
    debug: &str,
) -> Result<(), AllocError> {
    expect_debug(rt, value, debug);
    expect_plain(rt, value)
}

#[test]
fn texts_of_a_missing_variable(rt: HostRuntime) -> Result<(), Fail> {
    let missing = absent(rt.alloc(), 8, "name")?;
    let debug = "NoSuchVariable { position: 8, name: \"name\" }";
    expect_texts(&rt, &missing, debug)?;
    let debug = "NoSuchVariable(NoSuchVariable { position: 8, name: \"name\" })";
    let missing = ExpandError::from(missing);
    expect_texts(&rt, &missing, debug)?;
    expect_texts(&rt, &Error::from(missing), debug)?;
    Ok(())
}

/// Returns whether the clone of a value equals another value.
fn is_clone_equal<T: Clone + PartialEq + Drop>(one: T, other: T) -> Result<bool, AllocError> {
    let clone: Result<T, AllocError> = one.clone();
    Ok(clone? == other)
}

/// Returns whether a clone of the missing variable `"name"` at position 8 equals the missing variable `name`
/// at `position`.
fn is_equal(alloc: Global, position: usize, name: &str) -> Result<bool, AllocError> {
    is_clone_equal(absent(alloc, 8, "name")?, absent(alloc, position, name)?)
}

/// Compares as `is_equal` does, after each missing variable is converted into an `ExpandError`.
fn is_equal_in_expansion(alloc: Global, position: usize, name: &str) -> Result<bool, AllocError> {
    let one = ExpandError::from(absent(alloc, 8, "name")?);
    is_clone_equal(one, ExpandError::from(absent(alloc, position, name)?))
}

/// Compares as `is_equal` does, after each missing variable is converted into an `Error`.
fn is_equal_as_error(alloc: Global, position: usize, name: &str) -> Result<bool, AllocError> {
    let one = Error::from(absent(alloc, 8, "name")?);
    is_clone_equal(one, Error::from(absent(alloc, position, name)?))
}

#[test]
fn equality_and_clones_of_missing_variables(rt: HostRuntime) {
    let rows = [
        (8, "name", true),
        (7, "name", false),
        (8, "game", false),
        (8, "", false),
    ];
    for (position, name, want) in rows {
        assert_eq!(rt; is_equal(rt.alloc(), position, name), Ok(want));
        assert_eq!(rt; is_equal_in_expansion(rt.alloc(), position, name), Ok(want));
        assert_eq!(rt; is_equal_as_error(rt.alloc(), position, name), Ok(want));
    }
}

#[test]
fn borrowed_names_are_copied(rt: HostRuntime) -> Result<(), Fail> {
    let alloc = rt.alloc();
    let borrowed = NoSuchVariableRef {
        position: 8,
        name: "name",
    };
    let expansion = ExpandIntoError::NoSuchVariable(borrowed);
    let substitution = SubstituteIntoError::Expand(expansion);
    assert_eq!(rt; borrowed.into_owned(alloc)?, absent(alloc, 8, "name")?);
    let want = ExpandError::from(absent(alloc, 8, "name")?);
    assert_eq!(rt; expansion.into_owned(alloc), want);
    let want = Error::from(absent(alloc, 8, "name")?);
    assert_eq!(rt; substitution.into_owned(alloc), want);
    Ok(())
}

#[test]
fn errors_without_names_are_kept(rt: HostRuntime) {
    let alloc = rt.alloc();
    let full = ExpandIntoError::from(AllocError);
    assert_eq!(rt; full.into_owned(alloc), ExpandError::from(AllocError));
    let full = SubstituteIntoError::from(full);
    assert_eq!(rt; full.into_owned(alloc), Error::from(AllocError));
    let refused = SubstituteIntoError::from(unclosed(6));
    assert_eq!(rt; refused.into_owned(alloc), Error::from(unclosed(6)));
}
