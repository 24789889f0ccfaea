//! A template expanded with each of two maps, owned templates that are taken apart, expansion into slices,
//! `{:?}` of templates, and escaped texts. Rows of `subst_vectors` test other outputs, among them those of
//! borrowed and of copied templates.

use crate::expect::expect;
use std::alloc::{AllocError, Global};
use std::test::Fail;
use subst::{
    ByteTemplate, ByteTemplateBuf, Error, NoSubstitution, Template, TemplateBuf, escape, laws,
};
use subst_testing::variables::{byte_values, texts};

type TextResult = Result<String, Error>;

fn text(bytes: &[u8]) -> &str {
    str::from_utf8(bytes).unwrap_or("no text")
}

const LETTER: &str = "Welcome to our hair salon, $name!";

/// Returns two texts, joined by `; `.
fn two(alloc: Global, first: TextResult, second: TextResult) -> TextResult {
    let first = first?;
    let second = second?;
    Ok(format!(in alloc; "{first}; {second}")?)
}

fn letter(alloc: Global, template: &Template<'_>, pairs: &str) -> TextResult {
    Ok(template.expand(alloc, &texts(alloc, pairs)?)?)
}

fn letters(alloc: Global) -> TextResult {
    let template = Template::from_str(alloc, LETTER)?;
    let first = letter(alloc, &template, "name=Scrappy");
    two(alloc, first, letter(alloc, &template, "name=Coco"))
}

fn letter_of_bytes(alloc: Global, template: &ByteTemplate<'_>, pairs: &str) -> TextResult {
    let given = template.expand(alloc, &byte_values(alloc, pairs)?)?;
    Ok(String::from_str(alloc, text(&given))?)
}

fn letters_of_bytes(alloc: Global) -> TextResult {
    let template = ByteTemplate::from_slice(alloc, LETTER.as_bytes())?;
    let first = letter_of_bytes(alloc, &template, "name=Scrappy");
    two(alloc, first, letter_of_bytes(alloc, &template, "name=Coco"))
}

#[test]
fn one_template_serves_two_maps(rt: HostRuntime) {
    let want = "Welcome to our hair salon, Scrappy!; Welcome to our hair salon, Coco!";
    expect(&rt, "a text", letters(rt.alloc()), want);
    expect(&rt, "bytes", letters_of_bytes(rt.alloc()), want);
}

const GREETING: &str = "Hello ${name}!";

/// Returns the output of a template and its source, joined by ` of `.
fn expanded(alloc: Global, template: &TemplateBuf) -> TextResult {
    let given = template.expand(alloc, &texts(alloc, "name=world")?)?;
    Ok(format!(in alloc; "{given} of {}", template.source())?)
}

fn expanded_of_bytes(alloc: Global, template: &ByteTemplateBuf) -> TextResult {
    let given = template.expand(alloc, &byte_values(alloc, "name=world")?)?;
    Ok(format!(in alloc; "{} of {}", text(&given), text(template.source()))?)
}

/// Returns the result of `expanded`, and after a comma the source from `into_source` in upper case.
fn taken_apart(alloc: Global, template: TemplateBuf) -> TextResult {
    let output = expanded(alloc, &template)?;
    let mut source = template.into_source();
    source.make_ascii_uppercase();
    Ok(format!(in alloc; "{output}, {source}")?)
}

fn taken_apart_as_bytes(alloc: Global, template: ByteTemplateBuf) -> TextResult {
    let output = expanded_of_bytes(alloc, &template)?;
    let mut source = template.into_source();
    source.make_ascii_uppercase();
    Ok(format!(in alloc; "{output}, {}", text(&source))?)
}

fn owner(alloc: Global) -> Result<TemplateBuf, Error> {
    Ok(TemplateBuf::from_string(String::from_str(alloc, GREETING)?)?)
}

fn owner_of_bytes(alloc: Global) -> Result<ByteTemplateBuf, Error> {
    let source = Vec::from_slice(alloc, GREETING.as_bytes())?;
    Ok(ByteTemplateBuf::from_vec(source)?)
}

/// Returns the results of `taken_apart` for a template and of `expanded` for its clone, joined by `; `.
fn with_clone(alloc: Global) -> TextResult {
    let original = owner(alloc)?;
    let clone = original.clone()?;
    two(alloc, taken_apart(alloc, original), expanded(alloc, &clone))
}

fn with_clone_of_bytes(alloc: Global) -> TextResult {
    let original = owner_of_bytes(alloc)?;
    let clone = original.clone()?;
    let first = taken_apart_as_bytes(alloc, original);
    two(alloc, first, expanded_of_bytes(alloc, &clone))
}

#[test]
fn clone_outlives_what_is_handed_over_and_taken_apart(rt: HostRuntime) {
    let want = "Hello world! of Hello ${name}!, HELLO ${NAME}!; Hello world! of Hello ${name}!";
    expect(&rt, "a text", with_clone(rt.alloc()), want);
    expect(&rt, "bytes", with_clone_of_bytes(rt.alloc()), want);
}

/// Writes the output of a template to a slice of `length` dots. Returns the length of the output and, if the
/// slice suffices, the slice.
fn in_slice(alloc: Global, length: usize) -> TextResult {
    let template = ByteTemplate::from_slice(alloc, b"Hello ${name:you}!")?;
    let mut dots = *b"..............";
    let slice = &mut dots[..length.min(14)];
    match template.expand_into_slice(slice, &NoSubstitution) {
        Ok(needed) if needed <= length => Ok(format!(in alloc; "{needed}: {}", text(slice))?),
        Ok(needed) => Ok(format!(in alloc; "{needed}")?),
        Err(e) => Err(e.into_owned(alloc).into()),
    }
}

#[test]
fn bytes_are_written_in_slices(rt: HostRuntime) {
    let rows = [
        (0, "10"),
        (5, "10"),
        (10, "10: Hello you!"),
        (12, "10: Hello you!.."),
    ];
    for (length, want) in rows {
        expect(&rt, "a slice", in_slice(rt.alloc(), length), want);
    }
}

/// Returns the `{:?}` of a borrowed template and of its owner.
fn debug_text(alloc: Global, source: &str) -> TextResult {
    let owner = TemplateBuf::from_string(String::from_str(alloc, source)?)?;
    Ok(format!(in alloc; "{:?} {owner:?}", owner.as_template())?)
}

fn debug_text_of_bytes(alloc: Global, source: &[u8]) -> TextResult {
    let owner = ByteTemplateBuf::from_vec(Vec::from_slice(alloc, source)?)?;
    Ok(format!(in alloc; "{:?} {owner:?}", owner.as_template())?)
}

#[test]
fn debug_texts_of_templates_are_their_sources(rt: HostRuntime) {
    let alloc = rt.alloc();
    let want = "Template(\"a\\\"❤\") TemplateBuf(\"a\\\"❤\")";
    expect(&rt, "a text", debug_text(alloc, "a\"❤"), want);
    let want = "ByteTemplate(b\"a\") ByteTemplateBuf(b\"a\")";
    expect(&rt, "bytes", debug_text_of_bytes(alloc, b"a"), want);
    let want = "ByteTemplate([97, 255]) ByteTemplateBuf([97, 255])";
    expect(&rt, "no text", debug_text_of_bytes(alloc, b"a\xFF"), want);
}

/// Returns the text `before`, followed by `text` escaped.
fn escaped_after(alloc: Global, before: &str, text: &str) -> Result<String, AllocError> {
    let mut output = String::from_str(alloc, before)?;
    escape::escape_into(text, &mut output)?;
    Ok(output)
}

#[test]
fn special_bytes_are_escaped(rt: HostRuntime) -> Result<(), Fail> {
    let rows = [
        ("", ""),
        ("a$b{c}:\\", "a\\$b\\{c\\}\\:\\\\"),
        ("é?\"", "é?\""),
        ("::", "\\:\\:"),
    ];
    for (text, want) in rows {
        expect(&rt, text, laws::escaped(rt.alloc(), text), want);
        let want = format!(in rt.alloc(); "a${want}")?;
        expect(&rt, text, escaped_after(rt.alloc(), "a$", text), &want);
    }
    Ok(())
}
