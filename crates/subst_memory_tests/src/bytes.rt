//! Calls over bytes and over byte templates.

use crate::calls::{Show, again, clone, print_bytes};
use std::alloc::{AllocError, Global};
use std::mem;
use subst::error::{ExpandError, ParseError};
use subst::steps::{Reads, Turns};
use subst::{ByteTemplate, ByteTemplateBuf, Error, substitute_bytes, substitute_bytes_owned};
use subst_testing::variables::{ByteValues, byte_values};

/// A sentence with a nested default, escapes, and a variable.
pub const SENTENCE: &[u8] = b"Hi ${hi:\\{${who:you}\\}} and $name!";

/// A sentence with a missing variable.
pub const MISSING: &[u8] = b"Hi ${hi:$name and ${who:$absent}}!";

/// A source with a bad escape in its inner default.
pub const BAD_ESCAPE: &[u8] = b"Hi ${hi:$name and ${who:\\!}}!";

/// An entry whose value is longer than any of the sources.
pub const NAME: &str = "name=the whole round world with all that is in it";

impl Show for &[u8] {
    fn show(&self, rt: &HostRuntime, word: &str) {
        print_bytes(rt, word, self);
    }
}

impl Show for ByteValues<'_> {
    fn show(&self, rt: &HostRuntime, word: &str) {
        for (name, value) in self.iter() {
            name.show(rt, word);
            value.show(rt, word);
        }
    }
}

fn filled_in(alloc: Global, template: &ByteTemplate<'_>) -> Result<Vec<u8>, Error> {
    let variables = byte_values(alloc, NAME)?;
    Ok(template.expand(alloc, &variables)?)
}

/// Prints the source of a template, and then its output or error.
impl Show for ByteTemplate<'_> {
    fn show(&self, rt: &HostRuntime, word: &str) {
        print_bytes(rt, word, self.source());
        match filled_in(rt.alloc(), self) {
            Ok(bytes) => bytes.show(rt, word),
            Err(fault) => fault.show(rt, word),
        }
    }
}

impl Show for ByteTemplateBuf {
    fn show(&self, rt: &HostRuntime, word: &str) {
        self.as_template().show(rt, word);
    }
}

pub fn owned(alloc: Global, source: &[u8]) -> Result<ByteTemplateBuf, ParseError> {
    ByteTemplateBuf::from_vec(Vec::from_slice(alloc, source)?)
}

/// Returns a template that owns `bytes`. If an earlier call has taken `bytes`, the template owns a copy of
/// `source` instead.
fn taken(
    alloc: Global,
    bytes: &mut Option<Vec<u8>>,
    source: &[u8],
) -> Result<ByteTemplateBuf, ParseError> {
    match bytes.take() {
        Some(bytes) => ByteTemplateBuf::from_vec(bytes),
        None => owned(alloc, source),
    }
}

/// Replaces `template` by one that borrows from `owner`, and returns an owned copy of the replaced template.
fn copied<'a>(
    alloc: Global,
    template: &mut ByteTemplate<'a>,
    owner: &'a ByteTemplateBuf,
) -> Result<ByteTemplateBuf, AllocError> {
    ByteTemplateBuf::of_template(alloc, mem::replace(template, owner.as_template()))
}

fn parsed_counted(alloc: Global, source: &[u8]) -> Result<ByteTemplate<'_>, ParseError> {
    let mut reads = Reads::new();
    ByteTemplate::from_slice_counted(alloc, source, &mut reads)
}

fn expanded_counted(
    alloc: Global,
    template: &ByteTemplate<'_>,
    map: &ByteValues<'_>,
) -> Result<Vec<u8>, ExpandError> {
    let mut turns = Turns::new();
    template.expand_counted(alloc, map, &mut turns)
}

fn fill_in(rt: &HostRuntime, name: &str, source: &[u8]) -> Result<(), AllocError> {
    let alloc = rt.alloc();
    let map = byte_values(alloc, NAME)?;
    again!(rt, name, [map, source],
        Err(Error::OutOfMemory(_)) => substitute_bytes(alloc, source, &map));
    Ok(())
}

/// Takes `bytes` and expands them. If an earlier call has taken `bytes`, expands a copy of `source` instead.
fn expand_owned(
    alloc: Global,
    bytes: &mut Option<Vec<u8>>,
    source: &[u8],
    map: &ByteValues<'_>,
) -> Result<Vec<u8>, Error> {
    match bytes.take() {
        Some(bytes) => substitute_bytes_owned(alloc, bytes, map),
        None => substitute_bytes_owned(alloc, Vec::from_slice(alloc, source)?, map),
    }
}

fn fill_in_owned(rt: &HostRuntime, name: &str, source: &[u8]) -> Result<(), AllocError> {
    let alloc = rt.alloc();
    let mut bytes = Some(Vec::from_slice(alloc, source)?);
    let map = byte_values(alloc, NAME)?;
    again!(rt, name, [map, source],
        Err(Error::OutOfMemory(_)) => expand_owned(alloc, &mut bytes, source, &map));
    Ok(())
}

fn parse(rt: &HostRuntime, name: &str, source: &[u8]) {
    let alloc = rt.alloc();
    again!(rt, name, [source],
        Err(ParseError::OutOfMemory(_)) => ByteTemplate::from_slice(alloc, source));
}

fn parse_counted(rt: &HostRuntime) {
    let (alloc, source) = (rt.alloc(), SENTENCE);
    let name = "ByteTemplate::from_slice_counted";
    again!(rt, name, [source], Err(ParseError::OutOfMemory(_)) => parsed_counted(alloc, source));
}

fn expand(rt: &HostRuntime, name: &str, source: &[u8]) -> Result<(), Error> {
    let alloc = rt.alloc();
    let template = ByteTemplate::from_slice(alloc, source)?;
    let map = byte_values(alloc, NAME)?;
    again!(rt, name, [template, map],
        Err(ExpandError::OutOfMemory(_)) => template.expand(alloc, &map));
    Ok(())
}

fn expand_counted(rt: &HostRuntime) -> Result<(), Error> {
    let alloc = rt.alloc();
    let template = ByteTemplate::from_slice(alloc, SENTENCE)?;
    let map = byte_values(alloc, NAME)?;
    let name = "ByteTemplate::expand_counted";
    again!(rt, name, [template, map],
        Err(ExpandError::OutOfMemory(_)) => expanded_counted(alloc, &template, &map));
    Ok(())
}

fn take_over(rt: &HostRuntime, name: &str, source: &[u8]) -> Result<(), AllocError> {
    let alloc = rt.alloc();
    let mut bytes = Some(Vec::from_slice(alloc, source)?);
    again!(rt, name, [source],
        Err(ParseError::OutOfMemory(_)) => taken(alloc, &mut bytes, source));
    Ok(())
}

fn expand_owner(rt: &HostRuntime) -> Result<(), Error> {
    let alloc = rt.alloc();
    let owner = owned(alloc, SENTENCE)?;
    let map = byte_values(alloc, NAME)?;
    let name = "ByteTemplateBuf::expand";
    again!(rt, name, [owner, map], Err(ExpandError::OutOfMemory(_)) => owner.expand(alloc, &map));
    Ok(())
}

fn copy(rt: &HostRuntime) -> Result<(), Error> {
    let alloc = rt.alloc();
    clone(
        rt,
        "ByteTemplate::clone",
        ByteTemplate::from_slice(alloc, SENTENCE)?,
    );
    clone(rt, "ByteTemplateBuf::clone", owned(alloc, SENTENCE)?);
    let template = ByteTemplate::from_slice(alloc, SENTENCE)?;
    let name = "ByteTemplateBuf::from_template";
    again!(rt, name, [template], Err(_) => ByteTemplateBuf::from_template(alloc, &template));
    Ok(())
}

fn copy_of(rt: &HostRuntime) -> Result<(), Error> {
    let alloc = rt.alloc();
    let owner = owned(alloc, SENTENCE)?;
    clone(rt, "ByteTemplate::clone when borrowed", owner.as_template());
    let mut template = ByteTemplate::from_slice(alloc, SENTENCE)?;
    let name = "ByteTemplateBuf::of_template";
    again!(rt, name, [owner], Err(_) => copied(alloc, &mut template, &owner));
    let name = "ByteTemplateBuf::of_template when borrowed";
    let mut template = owner.as_template();
    again!(rt, name, [owner], Err(_) => copied(alloc, &mut template, &owner));
    Ok(())
}

pub fn calls(rt: &HostRuntime) -> Result<(), Error> {
    fill_in(rt, "substitute_bytes", SENTENCE)?;
    fill_in(rt, "substitute_bytes of a missing variable", MISSING)?;
    fill_in(rt, "substitute_bytes of a bad escape", BAD_ESCAPE)?;
    fill_in_owned(rt, "substitute_bytes_owned", SENTENCE)?;
    parse(rt, "ByteTemplate::from_slice", SENTENCE);
    parse(rt, "ByteTemplate::from_slice of a bad escape", BAD_ESCAPE);
    parse_counted(rt);
    expand(rt, "ByteTemplate::expand", SENTENCE)?;
    expand(rt, "ByteTemplate::expand of a missing variable", MISSING)?;
    expand_counted(rt)?;
    take_over(rt, "ByteTemplateBuf::from_vec", SENTENCE)?;
    take_over(rt, "ByteTemplateBuf::from_vec of a bad escape", BAD_ESCAPE)?;
    expand_owner(rt)?;
    copy(rt)?;
    copy_of(rt)
}
