//! The calls that expand bytes.

use crate::answer::Answer;
use crate::lists::is_as_refused;
use crate::row::Values;
use crate::ways::{BEFORE, Ways};
use std::alloc::AllocError;
use subst::steps::{Reads, Turns};
use subst::{
    ByteTemplate, ByteTemplateBuf, Error, substitute_bytes, substitute_bytes_into,
    substitute_bytes_owned,
};

/// Makes all calls that expand bytes, and adds their answers.
pub fn call(source: &[u8], values: &Values, ways: &mut Ways) -> Result<(), AllocError> {
    ways.bytes(
        "substitute_bytes",
        substitute_bytes(ways.alloc, source, values),
    )?;
    owned(source, values, ways)?;
    into(source, values, ways)?;
    match ByteTemplate::from_slice(ways.alloc, source) {
        Ok(template) => by_template(&template, values, ways)?,
        Err(e) => ways.bytes("ByteTemplate::from_slice", Err(e))?,
    }
    by_owner(source, values, ways)?;
    counted(source, values, ways)
}

fn owned(source: &[u8], values: &Values, ways: &mut Ways) -> Result<(), AllocError> {
    let source = Vec::from_slice(ways.alloc, source)?;
    let filled = substitute_bytes_owned(ways.alloc, source, values);
    ways.bytes("substitute_bytes_owned", filled)
}

fn into(source: &[u8], values: &Values, ways: &mut Ways) -> Result<(), AllocError> {
    let mut output = Vec::from_slice(ways.alloc, BEFORE.as_bytes())?;
    let filled = substitute_bytes_into(ways.alloc, source, &mut output, values);
    let filled = filled.map_err(|e| e.into_owned(ways.alloc));
    ways.added("substitute_bytes_into", &output, filled)
}

fn by_template(
    template: &ByteTemplate,
    values: &Values,
    ways: &mut Ways,
) -> Result<(), AllocError> {
    let filled = template.expand(ways.alloc, values).map_err(Error::from);
    if !is_as_refused(&template.missing(ways.alloc, values)?, &filled) {
        let what = Answer::Breaks("what is missing isn't what is refused");
        ways.add("ByteTemplate::missing", what)?;
    }
    ways.bytes("ByteTemplate::expand", filled)?;
    let mut output = Vec::from_slice(ways.alloc, BEFORE.as_bytes())?;
    let filled = template.expand_into(&mut output, values);
    let filled = filled.map_err(|e| Error::from(e.into_owned(ways.alloc)));
    ways.added("ByteTemplate::expand_into", &output, filled)?;
    into_slice(template, values, ways)
}

/// Expands a template into an empty slice, then into a slice of the returned length, and adds the answer.
fn into_slice(template: &ByteTemplate, values: &Values, ways: &mut Ways) -> Result<(), AllocError> {
    let name = "ByteTemplate::expand_into_slice";
    let len = match template.expand_into_slice(&mut [], values) {
        Ok(len) => len,
        Err(e) => return ways.bytes(name, Err(e.into_owned(ways.alloc))),
    };
    let mut slice = vec![in ways.alloc; 0; len]?;
    match template.expand_into_slice(slice.as_mut_slice(), values) {
        Ok(again) if again == len => ways.add(name, Answer::Gives(slice)),
        Ok(_) => ways.add(name, Answer::Breaks("it has another length")),
        Err(e) => ways.bytes(name, Err(e.into_owned(ways.alloc))),
    }
}

fn by_owner(source: &[u8], values: &Values, ways: &mut Ways) -> Result<(), AllocError> {
    match ByteTemplateBuf::from_vec(Vec::from_slice(ways.alloc, source)?) {
        Ok(template) => {
            ways.bytes(
                "ByteTemplateBuf::expand",
                template.expand(ways.alloc, values),
            )?;
            owner_into(&template, values, ways)?;
            borrowed(&template, values, ways)?;
            copies(&template, values, ways)
        }
        Err(e) => ways.bytes("ByteTemplateBuf::from_vec", Err(e)),
    }
}

fn owner_into(
    template: &ByteTemplateBuf,
    values: &Values,
    ways: &mut Ways,
) -> Result<(), AllocError> {
    let mut output = Vec::from_slice(ways.alloc, BEFORE.as_bytes())?;
    let filled = template.expand_into(&mut output, values);
    let filled = filled.map_err(|e| Error::from(e.into_owned(ways.alloc)));
    ways.added("ByteTemplateBuf::expand_into", &output, filled)
}

/// Expands templates that borrow from an owner, and adds the answers.
fn borrowed(owner: &ByteTemplateBuf, values: &Values, ways: &mut Ways) -> Result<(), AllocError> {
    ways.bytes(
        "as_template",
        owner.as_template().expand(ways.alloc, values),
    )?;
    ways.bytes(
        "ByteTemplate::from",
        ByteTemplate::from(owner).expand(ways.alloc, values),
    )?;
    let clone = owner.as_template().clone()?;
    ways.bytes("ByteTemplate::clone", clone.expand(ways.alloc, values))
}

/// Expands copies of `owner` that own their source, and adds the answers.
fn copies(owner: &ByteTemplateBuf, values: &Values, ways: &mut Ways) -> Result<(), AllocError> {
    let (source, borrowed) = (owner.source(), owner.as_template());
    let copy = ByteTemplateBuf::from_template(ways.alloc, &borrowed)?;
    copied("ByteTemplateBuf::from_template", source, copy, values, ways)?;
    let copy = ByteTemplateBuf::of_template(ways.alloc, borrowed)?;
    copied("ByteTemplateBuf::of_template", source, copy, values, ways)?;
    copied(
        "ByteTemplateBuf::clone",
        source,
        owner.clone()?,
        values,
        ways,
    )
}

fn copied(
    name: &'static str,
    source: &[u8],
    copy: ByteTemplateBuf,
    values: &Values,
    ways: &mut Ways,
) -> Result<(), AllocError> {
    ways.bytes(name, copy.expand(ways.alloc, values))?;
    if copy.into_source().as_slice() == source {
        return Ok(());
    }
    ways.add(name, Answer::Breaks("it has another source"))
}

fn counted(source: &[u8], values: &Values, ways: &mut Ways) -> Result<(), AllocError> {
    match ByteTemplate::from_slice_counted(ways.alloc, source, &mut Reads::new()) {
        Ok(template) => {
            let filled = template.expand_counted(ways.alloc, values, &mut Turns::new());
            ways.bytes("expand_counted", filled)
        }
        Err(e) => ways.bytes("from_slice_counted", Err(e)),
    }
}
