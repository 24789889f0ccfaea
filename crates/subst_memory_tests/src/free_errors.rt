//! Allocation-free calls on errors.

use crate::calls::{Show, once, print};
use crate::errors::{absent, no_name};
use crate::runs::{arguments_of, new_drip, new_trickle, status_of_run};
use std::alloc::AllocError;
use std::fmt::{Display, Write};
use subst::error::{
    CharOrByte, ExpandError, ExpandIntoError, ExpectedCharacter, InvalidEscapeSequence,
    MissingClosingBrace, MissingVariableName, NoSuchVariableRef, ParseError, SubstituteIntoError,
    UnexpectedCharacter, line_and_column,
};
use subst::foreign::{FormAt, ShellForm, TextError};
use subst::{Error, json, toml as filled, yaml};
use subst_filter_lib::device::standard::{FromReader, ToWriter};
use subst_filter_lib::device::{ByteInput, ByteOutput};
use subst_filter_lib::program::end_with;
use subst_filter_lib::run_error::RunError;
use subst_testing::fakes::Drip;

const ESCAPE: InvalidEscapeSequence = InvalidEscapeSequence {
    position: 3,
    character: Some(CharOrByte::Byte(0xFF)),
};

const NAME: MissingVariableName = MissingVariableName {
    position: 3,
    len: 1,
};

const BRACE: MissingClosingBrace = MissingClosingBrace { position: 3 };

fn unexpected() -> UnexpectedCharacter {
    UnexpectedCharacter {
        position: 3,
        character: CharOrByte::Char('é'),
        expected: ExpectedCharacter::new("a brace"),
    }
}

/// Writes the text of a value into a buffer with enough capacity, and prints whether the buffer then holds
/// exactly that text.
pub fn display<D: Display>(rt: &HostRuntime, call: &str, value: &D) -> Result<(), AllocError> {
    let text = value.to_string(rt.alloc())?;
    let mut capacity = String::with_capacity(rt.alloc(), 128)?;
    let is_written = once!(rt, call => write!(capacity, "{value}").is_ok());
    let is_whole = is_written && capacity == text;
    let text = if is_whole { "its text" } else { "another text" };
    print(rt, "gives", text);
    Ok(())
}

fn display_faults(rt: &HostRuntime) -> Result<(), AllocError> {
    display(rt, "Display of InvalidEscapeSequence", &ESCAPE)?;
    display(rt, "Display of MissingVariableName", &NAME)?;
    display(rt, "Display of UnexpectedCharacter", &unexpected())?;
    display(rt, "Display of MissingClosingBrace", &BRACE)?;
    display(rt, "Display of NoSuchVariable", &absent(rt.alloc())?)
}

fn display_errors(rt: &HostRuntime) -> Result<(), AllocError> {
    display(rt, "Display of ParseError", &ParseError::from(ESCAPE))?;
    let missing = ExpandError::from(absent(rt.alloc())?);
    display(rt, "Display of ExpandError", &missing)?;
    display(rt, "Display of Error", &Error::from(unexpected()))?;
    let missing = NoSuchVariableRef {
        position: 3,
        name: "absent",
    };
    display(rt, "Display of NoSuchVariableRef", &missing)?;
    let missing = ExpandIntoError::NoSuchVariable(missing);
    display(rt, "Display of ExpandIntoError", &missing)?;
    let missing = SubstituteIntoError::Expand(missing);
    display(rt, "Display of SubstituteIntoError", &missing)?;
    display(rt, "Display of OutOfMemory", &Error::from(AllocError))?;
    display(rt, "Display of RunError", &refusal(rt)?)
}

fn display_forms(rt: &HostRuntime) -> Result<(), AllocError> {
    let (position, form) = (3, ShellForm::Equals);
    display(rt, "Display of ShellForm", &form)?;
    let refused = TextError::Refused(FormAt { position, form });
    display(rt, "Display of TextError", &refused)
}

fn characters(rt: &HostRuntime) -> Result<(), AllocError> {
    let character = CharOrByte::Byte(0x81);
    let (quoted, len) = once!(rt, "calls of CharOrByte" =>
        (character.quoted_printable(), character.source_len()));
    let _ = rt.println(format_args!("{len} byte"));
    display(rt, "Display of CharOrByte", &character)?;
    display(rt, "Display of QuotedPrintable", &quoted)?;
    once!(rt, "calls of ExpectedCharacter" =>
        print(rt, "gives", ExpectedCharacter::new("a brace").message()));
    Ok(())
}

/// Prints whether errors that are converted in two steps are the same as those converted in one.
fn convert(rt: &HostRuntime) -> Result<(), AllocError> {
    let (first, second) = (absent(rt.alloc())?, absent(rt.alloc())?);
    let is_kept = once!(rt, "From of errors, and ==" =>
        Error::from(ParseError::from(ESCAPE)) == Error::from(ESCAPE)
            && Error::from(ParseError::from(NAME)) == Error::from(NAME)
            && Error::from(ParseError::from(unexpected())) == Error::from(unexpected())
            && Error::from(ParseError::from(BRACE)) == Error::from(BRACE)
            && Error::from(ParseError::from(AllocError)) == Error::from(AllocError)
            && Error::from(ExpandError::from(first)) == Error::from(second)
            && Error::from(ExpandError::from(AllocError)) == Error::from(AllocError));
    let _ = rt.println(format_args!("the same error: {is_kept}"));
    Ok(())
}

fn clone(rt: &HostRuntime) -> Result<(), AllocError> {
    let error = ParseError::from(unexpected());
    let copies = once!(rt, "clones of errors without a name" =>
        (error.clone()?, ESCAPE.clone()?, NAME.clone()?, unexpected().clone()?, BRACE.clone()?));
    let is_equal = copies == (error, ESCAPE, NAME, unexpected(), BRACE);
    let _ = rt.println(format_args!("equal: {is_equal}"));
    Ok(())
}

/// Converts a reader's error, a refusal and a failed allocation into `$format::Error`, and prints whether all
/// three become the right variants.
macro_rules! convert_into {
    ($rt:ident, $format:ident, $case:ident, $name:literal => $reading:ident) => {
        let (reading, refusal, memory) = once!($rt, $name => ($format::Error::from($reading),
            $format::Error::from(Error::from(BRACE)), $format::Error::from(AllocError)));
        let are_kept = matches!(reading, $format::Error::$case(_))
            && matches!(refusal, $format::Error::Subst(_))
            && matches!(memory, $format::Error::OutOfMemory(_));
        let _ = $rt.println(format_args!("of their cases: {are_kept}"));
    };
}

fn convert_what_is_no_text(rt: &HostRuntime) {
    if let Err(e) = str::from_utf8(b"\xFF") {
        let error = once!(rt, "From of Utf8Error into toml::Error" => filled::Error::from(e));
        let is_kept = matches!(error, filled::Error::InvalidUtf8(_));
        let _ = rt.println(format_args!("of its case: {is_kept}"));
    }
}

fn convert_into_yaml(rt: &HostRuntime) {
    let (refusal, memory) = once!(rt, "From into yaml::Error" =>
        (yaml::Error::from(Error::from(BRACE)), yaml::Error::from(AllocError)));
    let are_kept = matches!(refusal, yaml::Error::Subst(_))
        && matches!(memory, yaml::Error::OutOfMemory(_));
    let _ = rt.println(format_args!("of their cases: {are_kept}"));
}

fn convert_of_readers(rt: &HostRuntime) {
    if let Err(reading) = serde_json::Value::from_str(rt.alloc(), "[") {
        convert_into!(rt, json, Json, "From into json::Error" => reading);
    }
    if let Err(reading) = toml::table_from_str(rt.alloc(), "=") {
        convert_into!(rt, filled, Toml, "From into toml::Error" => reading);
    }
    convert_what_is_no_text(rt);
    convert_into_yaml(rt);
}

/// Prints an error's offset, the text of its source line, its line and column numbers, and its highlighting.
fn report(rt: &HostRuntime) -> Result<(), AllocError> {
    let mut capacity = String::with_capacity(rt.alloc(), 128)?;
    let e = no_name();
    let source = "one\nHi $!";
    let (start, line, position) = once!(rt, "where an error is" =>
        (e.source_range().start, e.source_line(source), e.source_position(source)));
    let _ = rt.println(format_args!("{start} {line:?} {position:?}"));
    let place = once!(rt, "line_and_column" => line_and_column(source, 7));
    let _ = rt.println(format_args!("{place:?}"));
    let is_written = once!(rt, "write_source_highlighting" =>
        e.write_source_highlighting(&mut capacity, source).is_ok());
    let _ = rt.println(format_args!("{is_written} {capacity:?}"));
    Ok(())
}

/// Returns the error of a run over the source `$`.
fn refusal(rt: &HostRuntime) -> Result<RunError, AllocError> {
    let e = Error::from(MissingVariableName {
        position: 0,
        len: 1,
    });
    Ok(RunError::Subst(e, String::from_str(rt.alloc(), "  $\n  ^\n")?))
}

fn end_with_refusal(rt: &HostRuntime) -> Result<(), AllocError> {
    let refusal = refusal(rt)?;
    let text = format!(in rt.alloc(); "subst: {refusal}\n  $\n  ^\n")?;
    let mut drip = new_drip(rt.alloc())?;
    let status = once!(rt, "end_with" => end_with(&refusal, &mut ToWriter::new(&mut drip)));
    let is_whole = drip.taken.as_slice() == text.as_bytes() && drip.flushed == text.len();
    let _ = rt.println(format_args!("status {status}, all of its text: {is_whole}"));
    Ok(())
}

fn run_wrongly(rt: &HostRuntime) -> Result<(), AllocError> {
    let arguments = arguments_of(rt.alloc(), "bytes name")?;
    let (mut output, mut errors) = (new_drip(rt.alloc())?, new_drip(rt.alloc())?);
    let pairs = Vec::new(rt.alloc());
    let status = once!(rt, "run_program of wrong arguments" =>
        status_of_run(rt.alloc(), &arguments, pairs, &mut output, &mut errors));
    let _ = rt.println(format_args!("status {status}"));
    output.show(rt, "gives");
    errors.show(rt, "gives");
    Ok(())
}

fn make_devices(rt: &HostRuntime, drip: &mut Drip) {
    let have_failed = once!(rt, "calls of FromReader and ToWriter" =>
        FromReader::new(new_trickle(b"")).failed() || ToWriter::new(drip).failed());
    let _ = rt.println(format_args!("failed: {have_failed}"));
}

pub fn calls(rt: &HostRuntime) -> Result<(), AllocError> {
    display_faults(rt)?;
    display_errors(rt)?;
    display_forms(rt)?;
    characters(rt)?;
    convert(rt)?;
    clone(rt)?;
    convert_of_readers(rt);
    report(rt)?;
    end_with_refusal(rt)?;
    run_wrongly(rt)?;
    make_devices(rt, &mut new_drip(rt.alloc())?);
    Ok(())
}
