//! Values files, with `NAME=VALUE` lines or a single value.

ghost use Rattle.std.specs.Prelude.{◌≡◌, ◌<◌, [], IfErr, IfOk, List, None, Option, Some, if◌then◌else◌, length, string_bytes};
ghost use Rattle.std.specs.List.{after_first, before_first};
ghost use Rattle.subst_expander.specs.Layers.{Entry as SpecEntry, entries_of};
ghost use Rattle.subst_expander.specs.ValuesFile as file;
ghost use Rattle.subst_expander.specs.ValuesFile.{before, is_line_feed, lines_in, parsed, value_of, values_in, values_of, values_of_files, values_of_lines, with_line};
ghost use Rattle.subst_expander.specs.Faults.{IsNoText};
ghost use Rattle.subst_expander.specs.ValuesFaults.{AreRefused, HasOne, IsFaultOfLines, IsFirstWrong, IsRefusedFile};

use crate::entry::{Entry, entry_in, split_once};
use crate::fault::{Cause, one_fault};
use crate::kinds::LineEnd;
use crate::part::OrFaults;
use crate::source::{Refused, Source};
use crate::text::{not_utf8, split_mark, text_of};
use std::alloc::{AllocError, Global};

/// A file that sets variables.
#[derive(Drop)]
pub enum ValuesSource {
    /// A file of `NAME=VALUE` lines.
    Lines(Source),
    /// A file whose contents are the value of this name, with or without the last line end.
    Value(String, LineEnd, Source),
}

/// Returns the variables of values files, in the order of files and lines, or the files that are refused. A
/// file is refused if it isn't UTF-8, or if a line is wrong.
///
/// # Errors
///
/// If allocation fails.
pub fn lines_of(
    alloc: Global,
    files: Vec<ValuesSource>,
) -> Result<Result<Vec<Entry>, Vec<Refused>>, AllocError>
    ensures gives { IfOk result (λ outcome. IfOk outcome (λ entries.
        values_of_files files.items ≡ Some (entries_of entries.items))) }
    ensures refused { IfOk result (λ outcome. IfErr outcome (λ refused. (¬ (refused.items ≡ []))
        × AreRefused files.items refused.items)) }
{
    let mut all = Vec::new(alloc);
    let mut refused = Vec::new(alloc);
    for file in files {
        match entries_in(alloc, file)? {
            Ok(mut entries) => all.append(&mut entries)?,
            Err(it) => refused.push(it)?,
        }
    }
    if refused.is_empty() {
        Ok(Ok(all))
    } else {
        Ok(Err(refused))
    }
}

/// Returns the variables of a file, or the refused file with its faults.
fn entries_in(alloc: Global, file: ValuesSource) -> Result<Result<Vec<Entry>, Refused>, AllocError>
    ensures gives { IfOk result (λ outcome. IfOk outcome
        (λ entries. values_in file ≡ Some (entries_of entries.items))) }
    ensures refused { IfOk result (λ outcome. IfErr outcome (IsRefusedFile file)) }
{
    match file {
        ValuesSource::Lines(source) => match entries_or_faults(alloc, &source.bytes)? {
            Ok(entries) => Ok(Ok(entries)),
            Err(faults) => Ok(Err(Refused { source, faults })),
        },
        ValuesSource::Value(name, line_end, source) => {
            match value_or_faults(alloc, name, value_bytes(&source.bytes, line_end))? {
                Ok(entries) => Ok(Ok(entries)),
                Err(faults) => Ok(Err(Refused { source, faults })),
            }
        }
    }
}

/// Returns the bytes of a file as a value: with or without the last line end.
fn value_bytes(bytes: &[u8], line_end: LineEnd) -> &[u8]
    ensures { result.now ≡ file.value_bytes line_end bytes.now }
{
    match line_end {
        LineEnd::Removed => without_line_end(bytes),
        LineEnd::Kept => bytes,
    }
}

/// Returns bytes without a final line end: a line feed, or a carriage return and a line feed.
fn without_line_end(bytes: &[u8]) -> &[u8]
    ensures { result.now ≡ file.without_line_end bytes.now }
{
    let Some(line) = bytes.strip_suffix(b"\n") else {
        return bytes;
    };
    without_return(line)
}

/// Returns the variable `name` with `bytes` as its value, or a fault if `bytes` aren't UTF-8.
fn value_or_faults(
    alloc: Global,
    name: String,
    bytes: &[u8],
) -> Result<OrFaults<Vec<Entry>>, AllocError>
    ensures gives { IfOk result (λ outcome. IfOk outcome (λ entries.
        value_of (string_bytes name) bytes.now ≡ Some (entries_of entries.items))) }
    ensures refused { IfOk result (λ outcome. IfErr outcome
        (λ faults. HasOne (IsNoText bytes.now) faults.items)) }
{
    let Ok(text) = simdutf8::basic::from_utf8(bytes) else {
        return Ok(Err(not_utf8(alloc, bytes)?));
    };
    let value = Some(String::from_str(alloc, text)?);
    let mut entries = Vec::new(alloc);
    entries.push(Entry { name, value })?;
    Ok(Ok(entries))
}

/// Returns the variables of a values file, or its fault.
fn entries_or_faults(alloc: Global, bytes: &[u8]) -> Result<OrFaults<Vec<Entry>>, AllocError>
    ensures gives { IfOk result (λ outcome. IfOk outcome
        (λ entries. values_of bytes.now ≡ Some (entries_of entries.items))) }
    ensures refused { IfOk result (λ outcome. IfErr outcome
        (λ faults. HasOne (IsFaultOfLines bytes.now) faults.items)) }
{
    if text_of(bytes).is_none() {
        return Ok(Err(not_utf8(alloc, bytes)?));
    }
    entries(alloc, bytes)
}

/// Parses the variables of a values file, in the order of its lines, or returns the fault of the first wrong
/// line. Skips the blanks at the start of each line, and lines that are then empty or begin with `#`. A value
/// is all of its line after the first `=`, unchanged.
fn entries(alloc: Global, text: &[u8]) -> Result<OrFaults<Vec<Entry>>, AllocError>
    ensures gives { IfOk result (λ outcome. IfOk outcome
        (λ entries. values_of_lines (lines_in text.now) ≡ Some (entries_of entries.items))) }
    ensures refused { IfOk result (λ outcome. IfErr outcome
        (λ faults. HasOne (IsFirstWrong text.now) faults.items)) }
{
    let mut entries = Vec::new(alloc);
    let (_, mut rest) = split_mark(text);
    while !rest.is_empty() {
        let (line, after) = first_line(rest);
        if !add_line(alloc, line, &mut entries)? {
            let start = text.len().saturating_sub(after_blanks(rest).len());
            let cause = Cause::NoVariable(message_of(line));
            return Ok(Err(one_fault(alloc, start..start, cause)?));
        }
        rest = after;
    }
    Ok(Ok(entries))
}

/// Appends the variable of a line, if it sets one. Returns `false` if the line is wrong.
fn add_line(alloc: Global, line: &[u8], entries: &mut Vec<Entry>) -> Result<bool, AllocError>
    ensures { IfOk result (λ is_right. (later : Option (List SpecEntry))
        → before (entries_of entries.old.items) (with_line (parsed line.now) later)
        ≡ (if is_right then before (entries_of entries.new.items) later else None)) }
{
    let line = after_blanks(without_return(line));
    if is_ignored(line) {
        return Ok(true);
    }
    let Some(entry) = entry_in(alloc, line)? else {
        return Ok(false);
    };
    entries.push(entry)?;
    Ok(true)
}

/// Returns the message of a wrong line.
pub fn message_of(line: &[u8]) -> &'static str
    ensures { result.now ≡ file.message_of line.now }
{
    if line.contains(&b'=') {
        "not a variable name"
    } else {
        "missing '='"
    }
}

/// Splits bytes into the first line, without its line feed, and the bytes after the line feed.
pub fn first_line(bytes: &[u8]) -> (&[u8], &[u8])
    ensures line { result.0.now ≡ before_first is_line_feed bytes.now }
    ensures rest { result.1.now ≡ after_first is_line_feed bytes.now }
    ensures shorter { 0 < length bytes.now → length result.1.now < length bytes.now }
{
    let Some((line, rest)) = split_once(bytes, b'\n') else {
        return (bytes, &[]);
    };
    (line, rest)
}

/// Returns a line without a carriage return at its end.
pub fn without_return(line: &[u8]) -> &[u8]
    ensures { result.now ≡ file.without_return line.now }
{
    let Some(bare) = line.strip_suffix(b"\r") else {
        return line;
    };
    bare
}

/// Returns a line without its leading blanks and tabs.
pub fn after_blanks(line: &[u8]) -> &[u8]
    ensures { result.now ≡ file.after_blanks line.now }
{
    let mut rest = line;
    loop {
        let Some((first, after)) = rest.split_first() else {
            return rest;
        };
        if !is_blank(*first) {
            return rest;
        }
        rest = after;
    }
}

/// Returns whether a byte is a blank or a tab.
pub fn is_blank(byte: u8) -> bool
    ensures { result ≡ file.is_blank byte }
{
    byte == b' ' || byte == b'\t'
}

/// Returns whether a line is empty, or begins with `#`.
pub fn is_ignored(line: &[u8]) -> bool
    ensures { result ≡ file.is_ignored line.now }
{
    let Some((first, _)) = line.split_first() else {
        return true;
    };
    *first == b'#'
}
