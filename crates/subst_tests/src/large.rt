//! Large trees, and a long text to escape.

use crate::expect::expect;
use serde_json::Value;
use std::alloc::{AllocError, Global};
use subst::{Error, NoSubstitution, json, laws, toml};
use subst_testing::variables::texts;

/// The number of strings in one array.
const COUNT: usize = 100_000;

fn json_output(alloc: Global, source: &str) -> Result<String, json::Error> {
    let tree = json::value_from_str(alloc, source, &texts(alloc, "a=1")?)?;
    Ok(tree.to_string(alloc)?)
}

fn toml_output(alloc: Global, source: &str) -> Result<String, toml::Error> {
    let tree = toml::value_from_str(alloc, source, &texts(alloc, "a=1")?)?;
    Ok(format!(in alloc; "{tree}")?)
}

/// Returns `start`, then `part` repeated, then `end`.
fn repeated(
    alloc: Global,
    start: &str,
    part: &str,
    times: usize,
    end: &str,
) -> Result<String, AllocError> {
    let parts = part.repeat(alloc, times)?;
    [start, parts.as_str(), end].concat(alloc)
}

/// Returns `start`, then `inner` in `depth` nested arrays, then `end`.
fn nested(
    alloc: Global,
    start: &str,
    depth: usize,
    inner: &str,
    end: &str,
) -> Result<String, AllocError> {
    let open = repeated(alloc, start, "[", depth, inner)?;
    repeated(alloc, open.as_str(), "]", depth, end)
}

#[test]
fn many_strings_in_one_array(rt: HostRuntime) -> Result<(), AllocError> {
    let alloc = rt.alloc();
    let source = repeated(alloc, "[", "\"x${a}y\",", COUNT, "0]")?;
    let want = repeated(alloc, "[", "\"x1y\",", COUNT, "0]")?;
    expect(&rt, "JSON", json_output(alloc, &source), &want);
    Ok(())
}

#[test]
fn many_strings_in_one_array_of_toml(rt: HostRuntime) -> Result<(), AllocError> {
    let alloc = rt.alloc();
    let source = repeated(alloc, "k = [", "\"x${a}y\",", COUNT, "0]")?;
    let want = repeated(alloc, "{ k = [", "\"x1y\", ", COUNT, "0] }")?;
    expect(&rt, "TOML", toml_output(alloc, &source), &want);
    Ok(())
}

#[test]
fn as_deep_as_the_reader_goes(rt: HostRuntime) -> Result<(), AllocError> {
    let alloc = rt.alloc();
    let source = nested(alloc, "", 127, "\"$a\"", "")?;
    let want = nested(alloc, "", 127, "\"1\"", "")?;
    expect(&rt, "JSON", json_output(alloc, &source), &want);
    Ok(())
}

#[test]
fn as_deep_as_the_reader_of_toml_goes(rt: HostRuntime) -> Result<(), AllocError> {
    let alloc = rt.alloc();
    let source = nested(alloc, "k = ", 80, "\"$a\"", "")?;
    let want = nested(alloc, "{ k = ", 80, "\"1\"", " }")?;
    expect(&rt, "TOML", toml_output(alloc, &source), &want);
    Ok(())
}

/// Returns a TOML text with a string in `tables` nested inline tables. The string and each table have a key
/// of 80 parts.
fn under_long_keys(alloc: Global, tables: usize) -> Result<String, AllocError> {
    let key = repeated(alloc, "", "k.", 79, "k = ")?;
    let open = repeated(
        alloc,
        "",
        [key.as_str(), "{"].concat(alloc)?.as_str(),
        tables,
        &key,
    )?;
    repeated(
        alloc,
        [open.as_str(), "'$a'"].concat(alloc)?.as_str(),
        "}",
        tables,
        "",
    )
}

#[test]
fn as_deep_as_long_keys_make_a_tree_of_toml(rt: HostRuntime) -> Result<(), AllocError> {
    let alloc = rt.alloc();
    let source = under_long_keys(alloc, 12)?;
    let open = repeated(alloc, "", "{ k = ", 13 * 80, "\"1\"")?;
    let want = repeated(alloc, &open, " }", 13 * 80, "")?;
    expect(&rt, "TOML", toml_output(alloc, &source), &want);
    Ok(())
}

fn is_no_json(alloc: Global, source: &str) -> bool {
    let read = json::value_from_str(alloc, source, &NoSubstitution);
    matches!(read, Err(json::Error::Json(_)))
}

fn is_no_toml(alloc: Global, source: &str) -> bool {
    let read = toml::value_from_str(alloc, source, &NoSubstitution);
    matches!(read, Err(toml::Error::Toml(_)))
}

#[test]
fn nested_deeper_than_the_reader_goes(rt: HostRuntime) -> Result<(), AllocError> {
    let source = nested(rt.alloc(), "", 128, "\"${a?}\"", "")?;
    assert!(rt; is_no_json(rt.alloc(), &source));
    let source = nested(rt.alloc(), "k = ", 81, "\"${a?}\"", "")?;
    assert!(rt; is_no_toml(rt.alloc(), &source));
    Ok(())
}

/// Returns the string `text` in `depth` nested arrays.
fn deep(alloc: Global, depth: usize, text: &str) -> Result<Value, AllocError> {
    let mut tree = Value::String(String::from_str(alloc, text)?);
    for _ in 0..depth {
        let mut items = Vec::new(alloc);
        items.push(tree)?;
        tree = Value::Array(items);
    }
    Ok(tree)
}

fn output_in_place(alloc: Global, mut tree: Value) -> Result<String, Error> {
    json::substitute_string_values(alloc, &mut tree, &texts(alloc, "a=1")?)?;
    Ok(tree.to_string(alloc)?)
}

#[test]
fn deeper_trees_of_a_caller_are_filled_in(rt: HostRuntime) -> Result<(), AllocError> {
    let alloc = rt.alloc();
    let want = nested(alloc, "", 1_000, "\"1\"", "")?;
    let output = output_in_place(alloc, deep(alloc, 1_000, "$a")?);
    expect(&rt, "in place", output, &want);
    Ok(())
}

/// The number of dollars to escape: enough that a test wouldn't end if the time grew quadratically.
const DOLLARS: usize = 1 << 20;

#[test]
fn a_long_text_is_escaped(rt: HostRuntime) -> Result<(), AllocError> {
    let alloc = rt.alloc();
    let text = "$".repeat(alloc, DOLLARS)?;
    let want = "\\$".repeat(alloc, DOLLARS)?;
    expect(&rt, "dollars", laws::escaped(alloc, &text), &want);
    Ok(())
}
