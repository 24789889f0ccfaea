//! Messages for rows that are refused, and hints about the columns of rows.

use std::alloc::{AllocError, Global};
use subst::error::NoSuchVariable;
use subst::{Error, is_name};
use subst_error::NoSuchVariableRef;
use subst_expander::entry::Entry;
use subst_expander::fault::{Cause, Fault, range_of_name};
use subst_expander::source::{Excerpts, Source, messages};
use subst_expander::terminal::printable;
use subst_rows::columns::{index_of, unmatched};
use subst_rows::error::RowsError;
use subst_rows::letter::{Letter, Refusal};

/// Returns the message for a refused row. `rest` are the variables that come after those of the rows.
pub(crate) fn message_of_refusal(
    alloc: Global,
    table: &Source,
    template: &Source,
    names: &[&[u8]],
    rest: &[Entry],
    refusal: &Refusal<'_>,
) -> Result<String, AllocError> {
    match refusal {
        Refusal::Row(e) => message_of_rows(alloc, &table.name, names, *e),
        Refusal::Missing(line, missing) => {
            let name = format!(in alloc; "{}:{line}: {}", table.name, template.name)?;
            let mut faults = Vec::new(alloc);
            faults.push(fault_of(alloc, missing, rest)?)?;
            messages(alloc, &name, &template.bytes, &faults, Excerpts::None)
        }
    }
}

/// Returns the fault of a variable that has no value for a row: it is missing, or its value isn't UTF-8.
fn fault_of(
    alloc: Global,
    missing: &NoSuchVariableRef<'_>,
    rest: &[Entry],
) -> Result<Fault, AllocError> {
    let name = String::from_str(alloc, missing.name)?;
    let is_set = rest.iter().any(|entry| entry.name.as_str() == missing.name);
    let position = missing.position;
    let cause = if is_set {
        Cause::Unreadable(name)
    } else {
        Cause::Refused(Error::NoSuchVariable(NoSuchVariable { position, name }))
    };
    Ok(Fault {
        path: String::new(alloc),
        range: range_of_name(position, missing.name),
        cause,
    })
}

/// Returns the message for an error of the rows' text. `names` are the names of the template.
pub(crate) fn message_of_rows(
    alloc: Global,
    file: &str,
    names: &[&[u8]],
    e: RowsError,
) -> Result<String, AllocError> {
    let line = line_of(e);
    let text = text_of(alloc, e, names)?;
    format!(in alloc; "{file}:{line}: error: {text}\n")
}

/// Returns the line of an error of the rows' text, from 1.
fn line_of(e: RowsError) -> usize {
    match e {
        RowsError::NotUtf8 { line }
        | RowsError::OpenQuote { line }
        | RowsError::NotJson { line }
        | RowsError::KeyTwice { line }
        | RowsError::NotAnObject { line } => line,
        RowsError::Length { line, .. } | RowsError::Nested { line, .. } => line,
        RowsError::OutOfMemory | RowsError::NoHead => 1,
    }
}

/// Returns the text for an error of the rows' text.
fn text_of(alloc: Global, e: RowsError, names: &[&[u8]]) -> Result<String, AllocError> {
    let text = match e {
        RowsError::OutOfMemory => "out of memory",
        RowsError::NotUtf8 { .. } => "invalid UTF-8",
        RowsError::OpenQuote { .. } => "quote isn't closed",
        RowsError::NoHead => "no head",
        RowsError::NotJson { .. } => "not JSON",
        RowsError::KeyTwice { .. } => "key occurs twice",
        RowsError::NotAnObject { .. } => "not a JSON object",
        RowsError::Length { cells, names, .. } => return text_of_length(alloc, cells, names),
        RowsError::Nested { number, .. } => return text_of_nested(alloc, number, names),
    };
    String::from_str(alloc, text)
}

/// Returns the text for a row of another length than the head.
fn text_of_length(alloc: Global, cells: usize, names: usize) -> Result<String, AllocError> {
    let cells_word = if cells == 1 { "cell" } else { "cells" };
    let names_word = if names == 1 { "name" } else { "names" };
    format!(in alloc; "row has {cells} {cells_word}, but the head has {names} {names_word}")
}

/// Returns the text for an array or an object as the value of the name that has this number.
fn text_of_nested(alloc: Global, number: usize, names: &[&[u8]]) -> Result<String, AllocError> {
    let name = printable(alloc, names.get(number).copied().unwrap_or(&[]))?;
    format!(in alloc; "value of ${name} is an array or an object; use --nested json")
}

/// Returns the message for a name that occurs twice in a head.
pub(crate) fn repeated_name(alloc: Global, file: &str, name: &[u8]) -> Result<String, AllocError> {
    let name = printable(alloc, name)?;
    format!(in alloc; "{file}:1: error: name occurs twice in the head: {name}\n")
}

/// Returns hints about columns that no variable uses, and about variables without a column or other value, or
/// `None` if there are none. `head` has the names of the columns.
pub(crate) fn head_hint(
    alloc: Global,
    table: &str,
    template: &str,
    letter: &Letter<'_>,
    head: &[&[u8]],
) -> Result<Option<String>, AllocError> {
    let mut hint = String::new(alloc);
    let unused = unmatched(alloc, head, letter.names)?;
    if !unused.is_empty() {
        let columns = listed(alloc, head, &unused)?;
        let line = format!(in alloc; "{table}: hint: columns without a variable: {columns}\n")?;
        hint.push_str(&line)?;
    }
    for number in unmatched(alloc, letter.names, head)? {
        if let Some(name) = unset_name(letter, number) {
            hint.push_str(&missing_column(alloc, template, name, head, &unused)?)?;
        }
    }
    if hint.is_empty() {
        return Ok(None);
    }
    Ok(Some(hint))
}

/// Returns the name with a number, or `None` if it has a value that doesn't come from rows.
fn unset_name<'l>(letter: &Letter<'l>, number: usize) -> Option<&'l [u8]> {
    let fixed = letter.fixed.get(number).copied().flatten();
    let fallback = letter.fallback.get(number).copied().flatten();
    if fixed.is_some() || fallback.is_some() {
        return None;
    }
    letter.names.get(number).copied()
}

/// Returns the names with these indices, separated by commas.
fn listed(alloc: Global, names: &[&[u8]], indices: &[usize]) -> Result<String, AllocError> {
    let mut text = String::new(alloc);
    for index in indices {
        if !text.is_empty() {
            text.push_str(", ")?;
        }
        text.push_str(&printable(alloc, names.get(*index).copied().unwrap_or(&[]))?)?;
    }
    Ok(text)
}

/// Returns the hint for a name without a column. If one of the unused columns has a near name, the hint names
/// it.
fn missing_column(
    alloc: Global,
    template: &str,
    name: &[u8],
    head: &[&[u8]],
    unused: &[usize],
) -> Result<String, AllocError> {
    let shown = printable(alloc, name)?;
    for index in unused {
        let column = head.get(*index).copied().unwrap_or(&[]);
        if is_near(name, column) {
            let column = printable(alloc, column)?;
            return format!(in alloc;
                "{template}: hint: no column for ${shown}; column {column} is near\n"
            );
        }
    }
    format!(in alloc; "{template}: hint: no column for ${shown}\n")
}

/// Returns whether two names are equal but for the case of letters, or differ in at most one place: one
/// letter more, fewer or another, or two that are swapped.
fn is_near(name: &[u8], column: &[u8]) -> bool {
    if name.eq_ignore_ascii_case(column) {
        return true;
    }
    let (name, column) = without_common_start(name, column);
    let (name, column) = without_common_end(name, column);
    match (name, column) {
        ([a, b], [c, d]) => a == d && b == c,
        _ => name.len() <= 1 && column.len() <= 1,
    }
}

/// Returns two names without the bytes that both begin with.
fn without_common_start<'n>(name: &'n [u8], column: &'n [u8]) -> (&'n [u8], &'n [u8]) {
    let common = name.iter().zip(column).take_while(|(a, b)| a == b).count();
    (
        name.get(common..).unwrap_or(&[]),
        column.get(common..).unwrap_or(&[]),
    )
}

/// Returns two names without the bytes that both end with.
fn without_common_end<'n>(name: &'n [u8], column: &'n [u8]) -> (&'n [u8], &'n [u8]) {
    let ends = name.iter().rev().zip(column.iter().rev());
    let common = ends.take_while(|(a, b)| a == b).count();
    let name_end = name.len().saturating_sub(common);
    let column_end = column.len().saturating_sub(common);
    (
        name.get(..name_end).unwrap_or(&[]),
        column.get(..column_end).unwrap_or(&[]),
    )
}
