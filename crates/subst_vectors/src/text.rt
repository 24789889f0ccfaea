//! The calls that expand texts.

use crate::answer::Answer;
use crate::row::Texts;
use crate::ways::{BEFORE, Ways};
use std::alloc::AllocError;
use subst::{Error, Template, TemplateBuf, substitute, substitute_into, substitute_owned};

/// Makes all calls that expand texts, and adds their answers.
pub fn call(source: &str, values: &Texts, ways: &mut Ways) -> Result<(), AllocError> {
    ways.text("substitute", substitute(ways.alloc, source, values))?;
    owned(source, values, ways)?;
    into(source, values, ways)?;
    match Template::from_str(ways.alloc, source) {
        Ok(template) => by_template(&template, values, ways)?,
        Err(e) => ways.text("Template::from_str", Err(e))?,
    }
    by_owner(source, values, ways)
}

fn owned(source: &str, values: &Texts, ways: &mut Ways) -> Result<(), AllocError> {
    let source = String::from_str(ways.alloc, source)?;
    ways.text(
        "substitute_owned",
        substitute_owned(ways.alloc, source, values),
    )
}

fn into(source: &str, values: &Texts, ways: &mut Ways) -> Result<(), AllocError> {
    let mut output = String::from_str(ways.alloc, BEFORE)?;
    let filled = substitute_into(ways.alloc, source, &mut output, values);
    let filled = filled.map_err(|e| e.into_owned(ways.alloc));
    ways.added("substitute_into", output.as_bytes(), filled)
}

fn by_template(template: &Template, values: &Texts, ways: &mut Ways) -> Result<(), AllocError> {
    ways.text("Template::expand", template.expand(ways.alloc, values))?;
    let mut output = String::from_str(ways.alloc, BEFORE)?;
    let filled = template.expand_into(&mut output, values);
    let filled = filled.map_err(|e| Error::from(e.into_owned(ways.alloc)));
    ways.added("Template::expand_into", output.as_bytes(), filled)
}

fn by_owner(source: &str, values: &Texts, ways: &mut Ways) -> Result<(), AllocError> {
    match TemplateBuf::from_string(String::from_str(ways.alloc, source)?) {
        Ok(template) => {
            ways.text("TemplateBuf::expand", template.expand(ways.alloc, values))?;
            owner_into(&template, values, ways)?;
            borrowed(&template, values, ways)?;
            copies(&template, values, ways)
        }
        Err(e) => ways.text("TemplateBuf::from_string", Err(e)),
    }
}

fn owner_into(template: &TemplateBuf, values: &Texts, ways: &mut Ways) -> Result<(), AllocError> {
    let mut output = String::from_str(ways.alloc, BEFORE)?;
    let filled = template.expand_into(&mut output, values);
    let filled = filled.map_err(|e| Error::from(e.into_owned(ways.alloc)));
    ways.added("TemplateBuf::expand_into", output.as_bytes(), filled)
}

/// Expands templates that borrow from an owner, and adds the answers.
fn borrowed(owner: &TemplateBuf, values: &Texts, ways: &mut Ways) -> Result<(), AllocError> {
    ways.text(
        "as_template",
        owner.as_template().expand(ways.alloc, values),
    )?;
    ways.text(
        "Template::from",
        Template::from(owner).expand(ways.alloc, values),
    )?;
    let clone = owner.as_template().clone()?;
    ways.text("Template::clone", clone.expand(ways.alloc, values))
}

/// Expands copies of `owner` that own their source, and adds the answers.
fn copies(owner: &TemplateBuf, values: &Texts, ways: &mut Ways) -> Result<(), AllocError> {
    let (source, borrowed) = (owner.source(), owner.as_template());
    let copy = TemplateBuf::from_template(ways.alloc, &borrowed)?;
    copied("TemplateBuf::from_template", source, copy, values, ways)?;
    let copy = TemplateBuf::of_template(ways.alloc, borrowed)?;
    copied("TemplateBuf::of_template", source, copy, values, ways)?;
    copied("TemplateBuf::clone", source, owner.clone()?, values, ways)
}

fn copied(
    name: &'static str,
    source: &str,
    copy: TemplateBuf,
    values: &Texts,
    ways: &mut Ways,
) -> Result<(), AllocError> {
    ways.text(name, copy.expand(ways.alloc, values))?;
    if copy.into_source().as_str() == source {
        return Ok(());
    }
    ways.add(name, Answer::Breaks("it has another source"))
}
