//! Printing of a document's events.

use std::alloc::{AllocError, Global};
use subst_yaml_reader::{Bracket, Error, Event, Span, Style, read, value_of};

/// Returns a line for each event of a document, and then the line `end`. If the document is refused, the
/// result is one line with the refusal.
pub(crate) fn shown(alloc: Global, document: &str) -> Result<String, AllocError> {
    let mut lines = String::new(alloc);
    match read(alloc, document) {
        Ok(events) => {
            for event in &events {
                append(alloc, &mut lines, event, document)?;
            }
            lines.push_str("end\n")?;
        }
        Err(Error::Refused(fault)) => {
            let (reason, Span { start, end }, line) = (fault.reason, fault.span, fault.line);
            let text = format!(in alloc; "refused {start} {end} {line} {reason}\n")?;
            lines.push_str(text.as_str())?;
        }
        Err(Error::OutOfMemory) => lines.push_str("out of memory\n")?,
    }
    Ok(lines)
}

/// Appends an event as a line.
fn append(
    alloc: Global,
    lines: &mut String,
    event: &Event,
    document: &str,
) -> Result<(), AllocError> {
    match *event {
        Event::Document => lines.push_str("document\n"),
        Event::Item { depth } => write!(lines, "item {depth}\n"),
        Event::Key { depth, style, span } => {
            let (style, Span { start, end }) = (style_name(style), span);
            write!(lines, "key {depth} {style} {start} {end}\n")
        }
        Event::Value {
            style,
            span,
            in_flow,
            indent,
        } => {
            let Span { start, end } = span;
            let token = document.as_bytes().get(start..end).unwrap_or(b"");
            let name = style_name(style);
            write!(lines, "value {name} {start} {end} {in_flow} {indent} ")?;
            append_value(lines, value_of(alloc, style, indent, token)?)
        }
        Event::Open(bracket) => {
            let bracket = bracket_name(bracket);
            write!(lines, "open {bracket}\n")
        }
        Event::FlowKey { style, span } => {
            let (style, Span { start, end }) = (style_name(style), span);
            write!(lines, "flow-key {style} {start} {end}\n")
        }
        Event::Null => lines.push_str("null\n"),
        Event::Close => lines.push_str("close\n"),
    }
}

/// Appends the bytes of a value in hexadecimal digits, or `-` for `None`, and a line end.
fn append_value(lines: &mut String, value: Option<Vec<u8>>) -> Result<(), AllocError> {
    match value {
        Some(value) => {
            for byte in &value {
                write!(lines, "{byte:02x}")?;
            }
        }
        None => lines.push_str("-")?,
    }
    lines.push_str("\n")
}

/// Returns the name of a style.
fn style_name(style: Style) -> &'static str {
    match style {
        Style::Plain => "plain",
        Style::Single => "single",
        Style::Double => "double",
        Style::Literal => "literal",
        Style::Folded => "folded",
        Style::Alias => "alias",
    }
}

/// Returns the name of a kind of collection in brackets.
fn bracket_name(bracket: Bracket) -> &'static str {
    match bracket {
        Bracket::Sequence => "sequence",
        Bracket::Mapping => "mapping",
        Bracket::Pair => "pair",
    }
}
