//! Calls over texts and over templates of texts.

use crate::calls::{Show, again, clone, print};
use std::alloc::{AllocError, Global};
use std::mem;
use subst::error::{ExpandError, ParseError};
use subst::{Error, Template, TemplateBuf, laws, substitute, substitute_owned};
use subst_testing::variables::{Texts, texts};

/// A sentence with a nested default, escapes, and a variable.
pub const SENTENCE: &str = "Hé ${hi:\\{${who:❤}\\}} and $name!";

/// A sentence with a missing variable.
pub const MISSING: &str = "Hé ${hi:$name and ${who:$absent}}!";

/// A source with a bad escape in its inner default.
pub const BAD_ESCAPE: &str = "Hé ${hi:$name and ${who:\\!}}!";

/// A sentence with nested defaults.
const DEFAULTS: &str = "Hello ${a:cruel ${b:round ${c:world}}}!";

/// An entry whose value is longer than any of the sources.
pub const NAME: &str = "name=the whole round world with all that is in it";

impl Show for Texts<'_> {
    fn show(&self, rt: &HostRuntime, word: &str) {
        for (name, value) in self.iter() {
            let _ = rt.println(format_args!("{word} {name}={value}"));
        }
    }
}

fn filled_in(alloc: Global, template: &Template<'_>) -> Result<String, Error> {
    let variables = texts(alloc, NAME)?;
    Ok(template.expand(alloc, &variables)?)
}

/// Prints the source of a template, and then its output or error.
impl Show for Template<'_> {
    fn show(&self, rt: &HostRuntime, word: &str) {
        print(rt, word, self.source());
        match filled_in(rt.alloc(), self) {
            Ok(text) => text.show(rt, word),
            Err(fault) => fault.show(rt, word),
        }
    }
}

impl Show for TemplateBuf {
    fn show(&self, rt: &HostRuntime, word: &str) {
        self.as_template().show(rt, word);
    }
}

pub fn owned(alloc: Global, source: &str) -> Result<TemplateBuf, ParseError> {
    TemplateBuf::from_string(String::from_str(alloc, source)?)
}

/// Returns a template that owns `text`. If an earlier call has taken `text`, the template owns a copy of
/// `source` instead.
fn taken(
    alloc: Global,
    text: &mut Option<String>,
    source: &str,
) -> Result<TemplateBuf, ParseError> {
    match text.take() {
        Some(text) => TemplateBuf::from_string(text),
        None => owned(alloc, source),
    }
}

/// Replaces `template` by one that borrows from `owner`, and returns an owned copy of the replaced template.
fn copied<'a>(
    alloc: Global,
    template: &mut Template<'a>,
    owner: &'a TemplateBuf,
) -> Result<TemplateBuf, AllocError> {
    TemplateBuf::of_template(alloc, mem::replace(template, owner.as_template()))
}

fn fill_in(rt: &HostRuntime, name: &str, source: &str) -> Result<(), AllocError> {
    let map = texts(rt.alloc(), NAME)?;
    again!(rt, name, [map, source],
        Err(Error::OutOfMemory(_)) => substitute(rt.alloc(), source, &map));
    Ok(())
}

/// Takes `text` and expands it. If an earlier call has taken `text`, expands a copy of `source` instead.
fn expand_owned(
    alloc: Global,
    text: &mut Option<String>,
    source: &str,
    map: &Texts<'_>,
) -> Result<String, Error> {
    match text.take() {
        Some(text) => substitute_owned(alloc, text, map),
        None => substitute_owned(alloc, String::from_str(alloc, source)?, map),
    }
}

fn fill_in_owned(rt: &HostRuntime, name: &str, source: &str) -> Result<(), AllocError> {
    let alloc = rt.alloc();
    let mut text = Some(String::from_str(alloc, source)?);
    let map = texts(alloc, NAME)?;
    again!(rt, name, [map, source],
        Err(Error::OutOfMemory(_)) => expand_owned(alloc, &mut text, source, &map));
    Ok(())
}

fn parse(rt: &HostRuntime, name: &str, source: &str) {
    let alloc = rt.alloc();
    again!(rt, name, [source],
        Err(ParseError::OutOfMemory(_)) => Template::from_str(alloc, source));
}

fn expand(rt: &HostRuntime, name: &str, source: &str) -> Result<(), Error> {
    let alloc = rt.alloc();
    let template = Template::from_str(alloc, source)?;
    let map = texts(alloc, NAME)?;
    again!(rt, name, [template, map],
        Err(ExpandError::OutOfMemory(_)) => template.expand(alloc, &map));
    Ok(())
}

fn take_over(rt: &HostRuntime, name: &str, source: &str) -> Result<(), AllocError> {
    let alloc = rt.alloc();
    let mut text = Some(String::from_str(alloc, source)?);
    again!(rt, name, [source], Err(ParseError::OutOfMemory(_)) => taken(alloc, &mut text, source));
    Ok(())
}

fn expand_owner(rt: &HostRuntime, name: &str, source: &str, pairs: &str) -> Result<(), Error> {
    let alloc = rt.alloc();
    let owner = owned(alloc, source)?;
    let map = texts(alloc, pairs)?;
    again!(rt, name, [owner, map], Err(ExpandError::OutOfMemory(_)) => owner.expand(alloc, &map));
    Ok(())
}

fn copy(rt: &HostRuntime) -> Result<(), Error> {
    let alloc = rt.alloc();
    clone(rt, "Template::clone", Template::from_str(alloc, SENTENCE)?);
    clone(rt, "TemplateBuf::clone", owned(alloc, SENTENCE)?);
    let template = Template::from_str(alloc, SENTENCE)?;
    let name = "TemplateBuf::from_template";
    again!(rt, name, [template], Err(_) => TemplateBuf::from_template(alloc, &template));
    Ok(())
}

fn copy_of(rt: &HostRuntime) -> Result<(), Error> {
    let alloc = rt.alloc();
    let owner = owned(alloc, SENTENCE)?;
    clone(rt, "Template::clone when borrowed", owner.as_template());
    let mut template = Template::from_str(alloc, SENTENCE)?;
    let name = "TemplateBuf::of_template";
    again!(rt, name, [owner], Err(_) => copied(alloc, &mut template, &owner));
    let name = "TemplateBuf::of_template when borrowed";
    let mut template = owner.as_template();
    again!(rt, name, [owner], Err(_) => copied(alloc, &mut template, &owner));
    Ok(())
}

fn escape(rt: &HostRuntime) {
    let text = "a$b{c}:\\";
    again!(rt, "laws::escaped", [text], Err(_) => laws::escaped(rt.alloc(), text));
}

pub fn calls(rt: &HostRuntime) -> Result<(), Error> {
    fill_in(rt, "substitute", SENTENCE)?;
    fill_in(rt, "substitute of a missing variable", MISSING)?;
    fill_in(rt, "substitute of a bad escape", BAD_ESCAPE)?;
    fill_in_owned(rt, "substitute_owned", SENTENCE)?;
    parse(rt, "Template::from_str", SENTENCE);
    expand(rt, "Template::expand", SENTENCE)?;
    expand(rt, "Template::expand of a missing variable", MISSING)?;
    take_over(rt, "TemplateBuf::from_string", SENTENCE)?;
    take_over(rt, "TemplateBuf::from_string of a bad escape", BAD_ESCAPE)?;
    let name = "TemplateBuf::from_string of nested defaults";
    take_over(rt, name, DEFAULTS)?;
    expand_owner(rt, "TemplateBuf::expand", SENTENCE, NAME)?;
    let name = "TemplateBuf::expand of nested defaults";
    expand_owner(rt, name, DEFAULTS, "")?;
    copy(rt)?;
    copy_of(rt)?;
    escape(rt);
    Ok(())
}
