//! Calls that append to a borrowed buffer, with hardly any capacity and with enough.

use crate::calls::{Show, again, print};
use crate::{bytes, texts};
use std::alloc::{AllocError, Global};
use subst::error::{
    ExpandError, ExpandIntoError, NoSuchVariableRef, ParseError, SubstituteIntoError,
};
use subst::{
    ByteTemplate, ByteTemplateBuf, Error, Template, TemplateBuf, escape, substitute_bytes_into,
    substitute_into,
};
use subst_testing::variables;

/// The capacity for the initial contents of a buffer, and no more.
const NONE: usize = 2;

/// More capacity than any of the calls needs.
const ENOUGH: usize = 256;

impl Show for ExpandIntoError<'_> {
    fn show(&self, rt: &HostRuntime, word: &str) {
        match self {
            ExpandIntoError::NoSuchVariable(fault) => {
                let (position, name) = (fault.position, fault.name);
                let _ = rt.println(format_args!("{word} {position}: NoSuchVariable {name}"));
            }
            ExpandIntoError::OutOfMemory(fault) => fault.show(rt, word),
        }
    }
}

impl Show for SubstituteIntoError<'_> {
    fn show(&self, rt: &HostRuntime, word: &str) {
        match self {
            SubstituteIntoError::Parse(fault) => fault.show(rt, word),
            SubstituteIntoError::Expand(fault) => fault.show(rt, word),
        }
    }
}

impl Show for usize {
    fn show(&self, rt: &HostRuntime, word: &str) {
        let _ = rt.println(format_args!("{word} {self}"));
    }
}

fn text_output(alloc: Global, capacity: usize) -> Result<String, AllocError> {
    let mut output = String::with_capacity(alloc, capacity)?;
    output.push_str("> ")?;
    Ok(output)
}

fn byte_output(alloc: Global, capacity: usize) -> Result<Vec<u8>, AllocError> {
    let mut output = Vec::with_capacity(alloc, capacity)?;
    output.extend_from_slice(b"> ")?;
    Ok(output)
}

fn expand_text(rt: &HostRuntime, name: &str, source: &str, capacity: usize) -> Result<(), Error> {
    let alloc = rt.alloc();
    let template = Template::from_str(alloc, source)?;
    let map = variables::texts(alloc, texts::NAME)?;
    let mut output = text_output(alloc, capacity)?;
    again!(rt, name, [template, map, output],
        Err(ExpandIntoError::OutOfMemory(_)) => template.expand_into(&mut output, &map));
    Ok(())
}

fn expand_text_owner(rt: &HostRuntime, name: &str, capacity: usize) -> Result<(), Error> {
    let owner = texts::owned(rt.alloc(), texts::SENTENCE)?;
    Ok(expand_owned_text(rt, name, &owner, capacity)?)
}

fn expand_owned_text(
    rt: &HostRuntime,
    name: &str,
    owner: &TemplateBuf,
    capacity: usize,
) -> Result<(), AllocError> {
    let map = variables::texts(rt.alloc(), texts::NAME)?;
    let mut output = text_output(rt.alloc(), capacity)?;
    again!(rt, name, [owner, map, output],
        Err(ExpandIntoError::OutOfMemory(_)) => owner.expand_into(&mut output, &map));
    Ok(())
}

fn expand_bytes(rt: &HostRuntime, name: &str, source: &[u8], capacity: usize) -> Result<(), Error> {
    let alloc = rt.alloc();
    let template = ByteTemplate::from_slice(alloc, source)?;
    let map = variables::byte_values(alloc, bytes::NAME)?;
    let mut output = byte_output(alloc, capacity)?;
    again!(rt, name, [template, map, output],
        Err(ExpandIntoError::OutOfMemory(_)) => template.expand_into(&mut output, &map));
    Ok(())
}

fn expand_bytes_owner(rt: &HostRuntime, name: &str, capacity: usize) -> Result<(), Error> {
    let owner = bytes::owned(rt.alloc(), bytes::SENTENCE)?;
    Ok(expand_owned_bytes(rt, name, &owner, capacity)?)
}

fn expand_owned_bytes(
    rt: &HostRuntime,
    name: &str,
    owner: &ByteTemplateBuf,
    capacity: usize,
) -> Result<(), AllocError> {
    let map = variables::byte_values(rt.alloc(), bytes::NAME)?;
    let mut output = byte_output(rt.alloc(), capacity)?;
    again!(rt, name, [owner, map, output],
        Err(ExpandIntoError::OutOfMemory(_)) => owner.expand_into(&mut output, &map));
    Ok(())
}

fn expand_slice(rt: &HostRuntime, name: &str, source: &[u8]) -> Result<(), Error> {
    let alloc = rt.alloc();
    let template = ByteTemplate::from_slice(alloc, source)?;
    let map = variables::byte_values(alloc, bytes::NAME)?;
    let mut capacity = [b'.'; ENOUGH];
    again!(rt, name, [template, map],
        Err(ExpandIntoError::OutOfMemory(_)) => template.expand_into_slice(&mut capacity, &map));
    Ok(())
}

fn fill_in_text(rt: &HostRuntime, name: &str, source: &str, capacity: usize) -> Result<(), Error> {
    let alloc = rt.alloc();
    let map = variables::texts(alloc, texts::NAME)?;
    let mut output = text_output(alloc, capacity)?;
    again!(rt, name, [map, output],
        Err(
            SubstituteIntoError::Parse(ParseError::OutOfMemory(_))
            | SubstituteIntoError::Expand(ExpandIntoError::OutOfMemory(_)),
        ) => substitute_into(alloc, source, &mut output, &map));
    Ok(())
}

fn fill_in_bytes(
    rt: &HostRuntime,
    name: &str,
    source: &[u8],
    capacity: usize,
) -> Result<(), Error> {
    let alloc = rt.alloc();
    let map = variables::byte_values(alloc, bytes::NAME)?;
    let mut output = byte_output(alloc, capacity)?;
    again!(rt, name, [map, output],
        Err(
            SubstituteIntoError::Parse(ParseError::OutOfMemory(_))
            | SubstituteIntoError::Expand(ExpandIntoError::OutOfMemory(_)),
        ) => substitute_bytes_into(alloc, source, &mut output, &map));
    Ok(())
}

fn escape(rt: &HostRuntime, name: &str, capacity: usize) -> Result<(), AllocError> {
    let text = "a$b{c}:\\";
    let mut output = text_output(rt.alloc(), capacity)?;
    again!(rt, name, [text, output], Err(_) => escape::escape_into(text, &mut output));
    Ok(())
}

fn owned_error(alloc: Global, fault: ExpandIntoError<'_>) -> Result<(), ExpandError> {
    Err(fault.into_owned(alloc))
}

fn owned_refusal(alloc: Global, fault: SubstituteIntoError<'_>) -> Result<(), Error> {
    Err(fault.into_owned(alloc))
}

/// Converts errors that borrow a name into ones that own it.
fn own(rt: &HostRuntime) {
    let alloc = rt.alloc();
    let position = 3;
    let missing = NoSuchVariableRef {
        position,
        name: "absent",
    };
    let in_expansion = ExpandIntoError::NoSuchVariable(missing);
    let fault = SubstituteIntoError::Expand(in_expansion);
    let name = "NoSuchVariableRef::into_owned";
    again!(rt, name, [position], Err(_) => missing.into_owned(alloc));
    let name = "ExpandIntoError::into_owned";
    again!(rt, name, [in_expansion],
        Err(ExpandError::OutOfMemory(_)) => owned_error(alloc, in_expansion));
    let name = "SubstituteIntoError::into_owned";
    again!(rt, name, [fault], Err(Error::OutOfMemory(_)) => owned_refusal(alloc, fault));
}

fn without_capacity(rt: &HostRuntime) -> Result<(), Error> {
    let (sentence, missing) = (texts::SENTENCE, texts::MISSING);
    expand_text(rt, "Template::expand_into", sentence, NONE)?;
    let name = "Template::expand_into of a missing variable";
    expand_text(rt, name, missing, NONE)?;
    expand_text_owner(rt, "TemplateBuf::expand_into", NONE)?;
    fill_in_text(rt, "substitute_into", sentence, NONE)?;
    let name = "substitute_into of a missing variable";
    fill_in_text(rt, name, missing, NONE)?;
    let name = "substitute_into of a bad escape";
    fill_in_text(rt, name, texts::BAD_ESCAPE, NONE)?;
    let (sentence, missing) = (bytes::SENTENCE, bytes::MISSING);
    expand_bytes(rt, "ByteTemplate::expand_into", sentence, NONE)?;
    let name = "ByteTemplate::expand_into of a missing variable";
    expand_bytes(rt, name, missing, NONE)?;
    expand_bytes_owner(rt, "ByteTemplateBuf::expand_into", NONE)?;
    fill_in_bytes(rt, "substitute_bytes_into", sentence, NONE)?;
    Ok(escape(rt, "escape::escape_into", NONE)?)
}

fn with_capacity(rt: &HostRuntime) -> Result<(), Error> {
    let (sentence, missing) = (texts::SENTENCE, texts::MISSING);
    expand_text(rt, "Template::expand_into with room", sentence, ENOUGH)?;
    let name = "Template::expand_into with room, of a missing variable";
    expand_text(rt, name, missing, ENOUGH)?;
    expand_text_owner(rt, "TemplateBuf::expand_into with room", ENOUGH)?;
    fill_in_text(rt, "substitute_into with room", sentence, ENOUGH)?;
    let (sentence, missing) = (bytes::SENTENCE, bytes::MISSING);
    expand_bytes(rt, "ByteTemplate::expand_into with room", sentence, ENOUGH)?;
    let name = "ByteTemplate::expand_into with room, of a missing variable";
    expand_bytes(rt, name, missing, ENOUGH)?;
    expand_bytes_owner(rt, "ByteTemplateBuf::expand_into with room", ENOUGH)?;
    let name = "substitute_bytes_into with room, of a missing variable";
    fill_in_bytes(rt, name, missing, ENOUGH)?;
    expand_slice(rt, "ByteTemplate::expand_into_slice", sentence)?;
    let name = "ByteTemplate::expand_into_slice of a missing variable";
    expand_slice(rt, name, missing)?;
    Ok(escape(rt, "escape::escape_into with room", ENOUGH)?)
}

pub fn calls(rt: &HostRuntime) -> Result<(), Error> {
    without_capacity(rt)?;
    with_capacity(rt)?;
    own(rt);
    Ok(())
}
