//! Defaults and braces that nest 100,000 deep.

use crate::expect::{Testing, expect};
use std::alloc::{AllocError, Global};
use std::test::Fail;
use subst::steps::{Reads, Turns};
use subst::{ByteTemplate, Error, NoSubstitution, Template, substitute, substitute_bytes};
use subst_testing::answers::{bytes_or_fault, text_or_fault};

/// The number of repetitions of a text, and the text.
type Part<'a> = (usize, &'a str);

const DEPTH: usize = 100_000;

const UNCLOSED: &str = "1..2: MissingClosingBrace";

/// Concatenates the texts of the parts, each repeated as often as its part states.
fn repeated(alloc: Global, parts: &[Part<'_>]) -> Result<String, AllocError> {
    let mut all = String::new(alloc);
    for &(count, text) in parts {
        all.push_str(&text.repeat(alloc, count)?)?;
    }
    Ok(all)
}

fn by_template(alloc: Global, source: &str) -> Result<String, Error> {
    Ok(Template::from_str(alloc, source)?.expand(alloc, &NoSubstitution)?)
}

fn by_byte_template(alloc: Global, source: &[u8]) -> Result<Vec<u8>, Error> {
    Ok(ByteTemplate::from_slice(alloc, source)?.expand(alloc, &NoSubstitution)?)
}

fn by_counted_calls(alloc: Global, source: &[u8]) -> Result<Vec<u8>, Error> {
    let template = ByteTemplate::from_slice_counted(alloc, source, &mut Reads::new())?;
    Ok(template.expand_counted(alloc, &NoSubstitution, &mut Turns::new())?)
}

/// Expects the answer `want` from each call that expands the concatenated parts, without variables.
fn expect_answer(rt: &impl Testing, parts: &[Part<'_>], want: &str) -> Result<(), AllocError> {
    let alloc = rt.alloc();
    let source = repeated(alloc, parts)?;
    let bytes = source.as_bytes();
    let text = substitute(alloc, &source, &NoSubstitution);
    expect(rt, "substitute", text_or_fault(alloc, text), want);
    let given = substitute_bytes(alloc, bytes, &NoSubstitution);
    expect(rt, "substitute_bytes", bytes_or_fault(alloc, given), want);
    let text = by_template(alloc, &source);
    expect(rt, "Template", text_or_fault(alloc, text), want);
    let given = by_byte_template(alloc, bytes);
    expect(rt, "ByteTemplate", bytes_or_fault(alloc, given), want);
    let given = by_counted_calls(alloc, bytes);
    expect(rt, "from_slice_counted", bytes_or_fault(alloc, given), want);
    Ok(())
}

#[test]
fn deep_defaults(rt: HostRuntime) -> Result<(), Fail> {
    let (opened, escape) = ((DEPTH, "${a:"), (1, "\\x"));
    let (closed, one_fewer) = ((DEPTH, "}"), (DEPTH - 1, "}"));
    let refused = "400000..400002: InvalidEscapeSequence \\x";
    expect_answer(&rt, &[opened, closed], "gives ")?;
    expect_answer(&rt, &[opened, one_fewer], UNCLOSED)?;
    expect_answer(&rt, &[opened, escape, closed], refused)?;
    expect_answer(&rt, &[opened, escape, one_fewer], UNCLOSED)?;
    expect_answer(&rt, &[(DEPTH, "${a:\\x")], UNCLOSED)?;
    Ok(())
}

#[test]
fn deep_braces_in_a_default(rt: HostRuntime) -> Result<(), Fail> {
    let (default, opened, closed) = ((1, "${a:"), (DEPTH, "{"), (DEPTH, "}"));
    let given = repeated(rt.alloc(), &[(1, "gives "), opened, closed])?;
    expect_answer(&rt, &[default, opened, closed, (1, "}")], &given)?;
    expect_answer(&rt, &[default, opened, closed], UNCLOSED)?;
    Ok(())
}
