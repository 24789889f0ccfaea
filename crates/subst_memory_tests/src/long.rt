//! Calls over sources and documents of 10 KiB. With enough capacity for the output, the calls over sources
//! allocate no more than those over short sources. Only the length of each output is printed.

use crate::calls::{Show, again, print_end};
use crate::{bytes, texts};
use std::alloc::Global;
use subst::error::{ExpandIntoError, ParseError, SubstituteIntoError};
use subst::{ByteTemplate, Error, Template, substitute_bytes_into, substitute_into, yaml};
use subst_testing::variables;

/// How often `texts::SENTENCE` is repeated in a source, and `ITEM` in a document.
const TIMES: usize = 300;

/// The part of a document that is repeated.
const ITEM: &str = "- image: shop/server # of the shop\n";

/// More capacity than any of the calls needs.
const ENOUGH: usize = 65536;

/// Prints the length of an output in bytes.
fn print_len(rt: &HostRuntime, len: usize) {
    let _ = rt.println(format_args!("{len} bytes"));
    print_end(rt);
}

fn expand_text(rt: &HostRuntime, source: &str) -> Result<(), Error> {
    let alloc = rt.alloc();
    let template = Template::from_str(alloc, source)?;
    let map = variables::texts(alloc, texts::NAME)?;
    let mut output = String::with_capacity(alloc, ENOUGH)?;
    again!(rt, "Template::expand_into with room, of 10 KiB", [map],
        Err(ExpandIntoError::OutOfMemory(_)) => template.expand_into(&mut output, &map));
    print_len(rt, output.len());
    Ok(())
}

fn expand_bytes(rt: &HostRuntime, source: &[u8]) -> Result<(), Error> {
    let alloc = rt.alloc();
    let template = ByteTemplate::from_slice(alloc, source)?;
    let map = variables::byte_values(alloc, bytes::NAME)?;
    let mut output = Vec::with_capacity(alloc, ENOUGH)?;
    again!(rt, "ByteTemplate::expand_into with room, of 10 KiB", [map],
        Err(ExpandIntoError::OutOfMemory(_)) => template.expand_into(&mut output, &map));
    print_len(rt, output.len());
    Ok(())
}

fn fill_in_text(rt: &HostRuntime, source: &str) -> Result<(), Error> {
    let alloc = rt.alloc();
    let map = variables::texts(alloc, texts::NAME)?;
    let mut output = String::with_capacity(alloc, ENOUGH)?;
    again!(rt, "substitute_into with room, of 10 KiB", [map],
        Err(
            SubstituteIntoError::Parse(ParseError::OutOfMemory(_))
            | SubstituteIntoError::Expand(ExpandIntoError::OutOfMemory(_)),
        ) => substitute_into(alloc, source, &mut output, &map));
    print_len(rt, output.len());
    Ok(())
}

fn fill_in_bytes(rt: &HostRuntime, source: &[u8]) -> Result<(), Error> {
    let alloc = rt.alloc();
    let map = variables::byte_values(alloc, bytes::NAME)?;
    let mut output = Vec::with_capacity(alloc, ENOUGH)?;
    again!(rt, "substitute_bytes_into with room, of 10 KiB", [map],
        Err(
            SubstituteIntoError::Parse(ParseError::OutOfMemory(_))
            | SubstituteIntoError::Expand(ExpandIntoError::OutOfMemory(_)),
        ) => substitute_bytes_into(alloc, source, &mut output, &map));
    print_len(rt, output.len());
    Ok(())
}

fn fill_in_yaml(rt: &HostRuntime) -> Result<(), Error> {
    let alloc = rt.alloc();
    let items = ITEM.repeat(alloc, TIMES)?;
    let source = format!(in alloc; "{items}- $name\n")?;
    let map = variables::texts(alloc, texts::NAME)?;
    again!(rt, "yaml::fill_in of 10 KiB", [map],
        Err(yaml::Error::OutOfMemory(_)) => yaml::fill_in(alloc, &source, &map)
            .map(|output| output.map(|text| 0..text.len())));
    Ok(())
}

pub fn calls(rt: &HostRuntime) -> Result<(), Error> {
    let text = texts::SENTENCE.repeat(rt.alloc(), TIMES)?;
    expand_text(rt, &text)?;
    expand_bytes(rt, text.as_bytes())?;
    fill_in_text(rt, &text)?;
    fill_in_bytes(rt, text.as_bytes())?;
    fill_in_yaml(rt)
}
