//! The calls that list variables.

use crate::answer::Answer;
use crate::row::Values;
use crate::ways::Ways;
use std::alloc::AllocError;
use std::fmt::Write;
use std::str::from_utf8;
use subst::error::NoSuchVariable;
use subst::{
    ByteTemplate, ByteTemplateBuf, Error, Template, TemplateBuf, Variable, VariableKind,
    substitute_bytes,
};

/// Makes all calls that list variables, and adds their answers.
pub fn call(source: &[u8], values: &Values, ways: &mut Ways) -> Result<(), AllocError> {
    by_byte_template(source, values, ways)?;
    by_byte_owner(source, values, ways)?;
    if let Ok(text) = from_utf8(source) {
        by_template(text, values, ways)?;
        by_owner(text, values, ways)?;
    }
    Ok(())
}

fn by_byte_template(source: &[u8], values: &Values, ways: &mut Ways) -> Result<(), AllocError> {
    let name = "ByteTemplate::variables, missing";
    match ByteTemplate::from_slice(ways.alloc, source) {
        Ok(template) => {
            let missing = template.missing(ways.alloc, values)?;
            if !is_as_refused(&missing, &substitute_bytes(ways.alloc, source, values)) {
                ways.add(
                    name,
                    Answer::Breaks("what is missing isn't what is refused"),
                )?;
            }
            add(name, &template.variables(ways.alloc)?, &missing, ways)
        }
        Err(e) => ways.bytes(name, Err(e)),
    }
}

fn by_byte_owner(source: &[u8], values: &Values, ways: &mut Ways) -> Result<(), AllocError> {
    let name = "ByteTemplateBuf::variables, missing";
    match ByteTemplateBuf::from_vec(Vec::from_slice(ways.alloc, source)?) {
        Ok(template) => {
            let missing = template.missing(ways.alloc, values)?;
            add(name, &template.variables(ways.alloc)?, &missing, ways)
        }
        Err(e) => ways.bytes(name, Err(e)),
    }
}

fn by_template(source: &str, values: &Values, ways: &mut Ways) -> Result<(), AllocError> {
    let name = "Template::variables, missing";
    match Template::from_str(ways.alloc, source) {
        Ok(template) => {
            let missing = template.missing(ways.alloc, values)?;
            add(name, &template.variables(ways.alloc)?, &missing, ways)
        }
        Err(e) => ways.bytes(name, Err(e)),
    }
}

fn by_owner(source: &str, values: &Values, ways: &mut Ways) -> Result<(), AllocError> {
    let name = "TemplateBuf::variables, missing";
    match TemplateBuf::from_string(String::from_str(ways.alloc, source)?) {
        Ok(template) => {
            let missing = template.missing(ways.alloc, values)?;
            add(name, &template.variables(ways.alloc)?, &missing, ways)
        }
        Err(e) => ways.bytes(name, Err(e)),
    }
}

/// Returns whether the missing variables agree with `filled`, the result of an expansion. If `filled` is an
/// output, `missing` must be empty. Otherwise the first missing variable must be the fault in `filled`.
pub fn is_as_refused(missing: &[NoSuchVariable], filled: &Result<Vec<u8>, Error>) -> bool {
    match (missing.first(), filled) {
        (None, Ok(_)) => true,
        (Some(first), Err(Error::NoSuchVariable(fault))) => first == fault,
        _ => false,
    }
}

/// Adds the answer of the call `name`: the column of the variables and that of the missing ones.
fn add(
    name: &'static str,
    variables: &[Variable<'_>],
    missing: &[NoSuchVariable],
    ways: &mut Ways,
) -> Result<(), AllocError> {
    let mut columns = String::new(ways.alloc);
    write_variables(&mut columns, variables)?;
    columns.push('\t')?;
    write_missing(&mut columns, missing)?;
    ways.add(name, Answer::Lists(columns))
}

fn write_variables(columns: &mut String, list: &[Variable<'_>]) -> Result<(), AllocError> {
    if list.is_empty() {
        return columns.push('-');
    }
    let mut separator = "";
    for Variable {
        name,
        position,
        kind,
    } in list {
        write!(columns, "{separator}{}@{position}={name}", kind_name(*kind))?;
        separator = ",";
    }
    Ok(())
}

fn kind_name(kind: VariableKind) -> &'static str {
    match kind {
        VariableKind::Required => "required",
        VariableKind::Optional => "optional",
        VariableKind::WithDefault => "default",
    }
}

fn write_missing(columns: &mut String, list: &[NoSuchVariable]) -> Result<(), AllocError> {
    if list.is_empty() {
        return columns.push('-');
    }
    let mut separator = "";
    for NoSuchVariable { name, position } in list {
        write!(columns, "{separator}{position}={name}")?;
        separator = ",";
    }
    Ok(())
}
