//! Hints about likely mistakes. A hint is printed to standard error, and never changes the output or the exit
//! status.

use crate::document::Format;
use crate::expansion::Expander;
use crate::fault::{Cause, Fault};
use crate::fill::LookUpValues;
use crate::format_rule::FormatRule;
use crate::kinds::{InputFormat, Placeholders};
use crate::map_back::unset_in;
use crate::placeholders::ChosenNames;
use crate::position::{Position, Positions};
use crate::source::Source;
use crate::terminal::printable;
use crate::text::split_source;
use memchr::memchr;
use std::alloc::{AllocError, Global};
use subst::foreign::{Forms, Missing, Names};
use subst::{Error, is_name};

/// The most bytes of a source that are searched for a hint, so that a hint is cheap in a large source.
const SEARCHED_BYTES: usize = 1 << 20;

/// The hint for unset variables if no option sets variables.
const NO_VARIABLES: &str = "subst: hint: no variables are set; use --set, --values or --env\n";

/// The hint for a dollar or a backslash that is a fault.
const SPECIAL: &str = "subst: hint: for another tool's file, use --only, --envsubst or --shell\n";

/// The start of the TOML reader's message for an invalid value.
const NO_VALUE: &str = "invalid value";

/// The hint for a variable outside the strings of a TOML document.
const UNQUOTED: &str = "put the variable in quotes";

/// The hint for a line of a values file that begins with `export`.
const EXPORT: &str = "write NAME=VALUE without 'export', as for docker run --env-file";

/// The hint for a quoted value in a values file.
const QUOTES: &str = "the quotes are part of this value; use --dotenv for quoted values";

/// Returns the hint for a source with these faults, or `None` if there is none.
pub fn faults_hint(
    sets_no_variables: bool,
    placeholders: &Placeholders<'_>,
    faults: &[Fault],
) -> Option<&'static str> {
    if sets_no_variables && faults.iter().any(is_missing) {
        return Some(NO_VARIABLES);
    }
    match placeholders {
        Placeholders::Own if faults.iter().any(is_of_a_special_byte) => Some(SPECIAL),
        _ => None,
    }
}

/// Returns whether a fault is an unset variable, or a variable with `:?` that is empty.
fn is_missing(fault: &Fault) -> bool {
    matches!(
        fault.cause,
        Cause::Refused(Error::NoSuchVariable(_)) | Cause::Unset(_)
    )
}

/// Returns whether a fault is an invalid escape, or a dollar without a name. Such faults suggest a text of
/// another tool.
fn is_of_a_special_byte(fault: &Fault) -> bool {
    matches!(
        fault.cause,
        Cause::Refused(Error::MissingVariableName(_) | Error::InvalidEscapeSequence(_))
    )
}

/// Returns the hint for a source's first default that looks like another tool's. Returns `None` for a
/// document, or if the first `SEARCHED_BYTES` bytes have no such default.
pub fn default_hint(
    alloc: Global,
    formats: FormatRule<'_>,
    placeholders: &Placeholders<'_>,
    source: &Source,
) -> Result<Option<String>, AllocError> {
    if let InputFormat::Document(_) = formats.format_of(&source.path) {
        return Ok(None);
    }
    let start = source.bytes.get(..SEARCHED_BYTES).unwrap_or(&source.bytes);
    let Some(found) = hinted_default(start, 0, placeholders) else {
        return Ok(None);
    };
    let what = text_of_default(alloc, found, placeholders)?;
    let hint = hint_at(alloc, &source.name, &source.bytes, found.offset, &what)?;
    Ok(Some(hint))
}

/// Returns a fault for each of a source's defaults that look like another tool's, or none for a document.
pub fn default_faults(
    alloc: Global,
    formats: FormatRule<'_>,
    placeholders: &Placeholders<'_>,
    source: &Source,
) -> Result<Vec<Fault>, AllocError> {
    let mut faults = Vec::new(alloc);
    if let InputFormat::Document(_) = formats.format_of(&source.path) {
        return Ok(faults);
    }
    let mut start = 0;
    // Each turn moves past a colon.
    for _ in 0..source.bytes.len() {
        let Some(found) = hinted_default(&source.bytes, start, placeholders) else {
            break;
        };
        let what = text_of_default(alloc, found, placeholders)?;
        faults.push(Fault {
            path: String::new(alloc),
            range: found.offset..found.offset,
            cause: Cause::Default(what),
        })?;
        start = found.offset;
    }
    Ok(faults)
}

/// Returns the message for a default that looks like another tool's.
fn text_of_default(
    alloc: Global,
    found: DefaultAt<'_>,
    placeholders: &Placeholders<'_>,
) -> Result<String, AllocError> {
    if !is_of_a_shell(found.first) {
        return String::from_str(
            alloc,
            "this default is left as text; to expand it, use --only or --known",
        );
    }
    if let Placeholders::Chosen(_) = placeholders {
        return String::from_str(
            alloc,
            "this variable is left as text; to expand it, use --shell",
        );
    }
    let sign = char::from(found.first);
    format!(in alloc; "this default begins with '{sign}'; use --shell for shell-style defaults")
}

/// Returns a hint to print: the file's name, the line and column of `offset` in `bytes`, and the text `what`.
pub fn hint_at(
    alloc: Global,
    name: &str,
    bytes: &[u8],
    offset: usize,
    what: &str,
) -> Result<String, AllocError> {
    let Position { line, column } = Positions::of(bytes).at(alloc, offset)?;
    format!(in alloc; "{name}:{line}:{column}: hint: {what}\n")
}

/// Returns the hint for a TOML document's first fault that is a variable outside of strings. Returns `None`
/// if there is no such fault, or for another format.
pub fn document_hint(
    alloc: Global,
    format: InputFormat,
    name: &str,
    bytes: &[u8],
    faults: &[Fault],
) -> Result<Option<String>, AllocError> {
    if format != InputFormat::Document(Format::Toml) {
        return Ok(None);
    }
    let Some(fault) = faults.iter().find(|it| is_unquoted(bytes, it)) else {
        return Ok(None);
    };
    Ok(Some(hint_at(alloc, name, bytes, fault.range.start, UNQUOTED)?))
}

/// Returns whether a fault of a TOML document is an invalid value that begins with a dollar.
fn is_unquoted(bytes: &[u8], fault: &Fault) -> bool {
    let Cause::NotADocument(message) = &fault.cause else {
        return false;
    };
    message.starts_with(NO_VALUE) && bytes.get(fault.range.start) == Some(&b'$')
}

/// A default: the text after `${NAME:`.
#[derive(Clone, Copy)]
struct DefaultAt<'s> {
    /// The variable's name.
    name: &'s [u8],
    /// The bytes of the source before the dollar.
    front: &'s [u8],
    /// The byte offset after the colon.
    offset: usize,
    /// The first byte of the default.
    first: u8,
}

/// Returns the first default that has a hint and whose colon is at `start` or later, or `None` if there is
/// none.
fn hinted_default<'s>(
    source: &'s [u8],
    start: usize,
    placeholders: &Placeholders<'_>,
) -> Option<DefaultAt<'s>> {
    let mut start = start;
    // Each turn moves past a colon.
    for _ in 0..source.len() {
        let found = next_default(source, start)?;
        if is_hinted(found, placeholders) {
            return Some(found);
        }
        start = found.offset;
    }
    None
}

/// Returns whether a default looks like another tool's, and so has a hint.
fn is_hinted(found: DefaultAt<'_>, placeholders: &Placeholders<'_>) -> bool {
    let Placeholders::Chosen(chosen) = placeholders else {
        return is_of_a_shell(found.first) && !ends_with_escape(found.front);
    };
    let names = ChosenNames {
        choice: &chosen.names,
        variables: None,
    };
    let is_meant = match chosen.forms {
        Forms::Envsubst => true,
        Forms::Own => is_of_a_shell(found.first),
        Forms::Shell | Forms::Common => false,
    };
    is_meant && is_name(found.name) && names.has(found.name, true)
}

/// Returns whether a default with this first byte looks like a shell's.
fn is_of_a_shell(first: u8) -> bool {
    matches!(first, b'-' | b'=' | b'?' | b'+')
}

/// Returns the first default whose colon is at `start` or later, or `None` if there is none.
fn next_default(source: &[u8], start: usize) -> Option<DefaultAt<'_>> {
    let mut start = start;
    // Each turn moves past a colon.
    for _ in 0..source.len() {
        let colon = start.saturating_add(memchr(b':', source.get(start..)?)?);
        start = colon.saturating_add(1);
        let first = source.get(start)?;
        if let Some((front, name)) = name_before(source.get(..colon)?) {
            return Some(DefaultAt {
                name,
                front,
                offset: start,
                first: *first,
            });
        }
    }
    None
}

/// Returns whether bytes end with a backslash that isn't escaped itself.
fn ends_with_escape(bytes: &[u8]) -> bool {
    let backslashes = bytes.iter().rev().take_while(|b| **b == b'\\').count();
    backslashes % 2 == 1
}

/// Splits a `${NAME` off the end of bytes. Returns the bytes before the dollar, and the name. Returns `None`
/// if the bytes don't end in `${NAME`.
fn name_before(bytes: &[u8]) -> Option<(&[u8], &[u8])> {
    let before = bytes
        .iter()
        .rposition(|b| !b.is_ascii_alphanumeric() && *b != b'_')?;
    let (front, name) = bytes.split_at_checked(before.saturating_add(1))?;
    if name.is_empty() {
        return None;
    }
    Some((front.strip_suffix(b"${")?, name))
}

/// A hint for an unset variable: the variable's name, and the line to be printed.
#[derive(Drop)]
pub struct UnsetHint {
    pub name: String,
    pub line: String,
}

/// Returns a hint for each unset variable that expands to nothing and has no operator. Only shell-style texts
/// that aren't documents have such hints.
pub fn unset_hints(
    alloc: Global,
    expander: &Expander<'_, '_, '_>,
    source: &Source,
) -> Result<Vec<UnsetHint>, AllocError> {
    let mut hints = Vec::new(alloc);
    let Placeholders::Chosen(chosen) = expander.placeholders else {
        return Ok(hints);
    };
    let has_hints = matches!(
        (chosen.forms, chosen.missing),
        (Forms::Shell, Missing::Nothing)
    );
    let format = expander.formats.format_of(&source.path);
    if !has_hints || matches!(format, InputFormat::Document(_)) {
        return Ok(hints);
    }
    let (_, text) = split_source(format, &source.bytes);
    let mut positions = Positions::of(&source.bytes);
    let variables = &expander.variables;
    let values = LookUpValues::of(&variables.values, Some(chosen.forms));
    for variable in unset_in(alloc, text, chosen, variables, &values)? {
        let before = source.bytes.len().saturating_sub(text.len());
        let position = positions.at(alloc, before.saturating_add(variable.position))?;
        hints.push(unset_hint(alloc, &source.name, position, variable.name)?)?;
    }
    Ok(hints)
}

/// Returns the hint for an unset variable of a file.
pub fn unset_hint(
    alloc: Global,
    file: &str,
    position: Position,
    name: &[u8],
) -> Result<UnsetHint, AllocError> {
    let Position { line, column } = position;
    let name = printable(alloc, name)?;
    let line = format!(in alloc; "{file}:{line}:{column}: hint: ${name} is not set\n")?;
    Ok(UnsetHint { name, line })
}

/// Returns the hint for a values file with a line in a shell's syntax, or `None` without such a line.
pub fn values_hint(alloc: Global, source: &Source) -> Result<Option<String>, AllocError> {
    let start = source.bytes.get(..SEARCHED_BYTES).unwrap_or(&source.bytes);
    let Some((offset, what)) = shell_line(start) else {
        return Ok(None);
    };
    let hint = hint_at(alloc, &source.name, &source.bytes, offset, what)?;
    Ok(Some(hint))
}

/// Returns the byte offset of the first `export` or quoted value in a values file, with its hint, or `None`.
fn shell_line(bytes: &[u8]) -> Option<(usize, &'static str)> {
    let mut start = 0usize;
    for line in bytes.split(|b| *b == b'\n') {
        if let Some((at, what)) = shell_part(line) {
            return Some((start.saturating_add(at), what));
        }
        start = start.saturating_add(line.len()).saturating_add(1);
    }
    None
}

/// Returns the byte offset of `export` or of a quoted value in a line of a values file, with its hint, or
/// `None`.
fn shell_part(line: &[u8]) -> Option<(usize, &'static str)> {
    let line = line.strip_suffix(b"\r").unwrap_or(line);
    let begun = line.trim_ascii_start();
    if begun.starts_with(b"#") {
        return None;
    }
    if begun.starts_with(b"export ") {
        return Some((line.len().saturating_sub(begun.len()), EXPORT));
    }
    let at = memchr(b'=', line)?.saturating_add(1);
    let value = line.get(at..)?;
    match (value.first()?, value.last()?) {
        (b'"', b'"') | (b'\'', b'\'') if value.len() > 1 => Some((at, QUOTES)),
        _ => None,
    }
}

/// Returns the hint for a run in which no file has the suffix of `--strip`.
pub fn suffix_hint(alloc: Global, suffix: &str) -> Result<String, AllocError> {
    let suffix = printable(alloc, suffix.as_bytes())?;
    format!(in alloc; "subst: hint: no file name ends in '{suffix}' (--strip)\n")
}

/// Returns the hint for a missing file if its name looks like a variable, or `None` if it doesn't.
pub fn file_hint(alloc: Global, file: &str) -> Result<Option<String>, AllocError> {
    if let Some((name, _)) = file.split_once('=')
        && is_name(name.as_bytes())
    {
        let hint = format!(in alloc; "subst: hint: use --set {name}=VALUE to set a variable\n")?;
        return Ok(Some(hint));
    }
    if file.starts_with('$') {
        let hint = String::from_str(
            alloc,
            "subst: hint: use --only NAMES to choose variables, as envsubst's argument does\n",
        )?;
        return Ok(Some(hint));
    }
    Ok(None)
}
