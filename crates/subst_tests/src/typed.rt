//! Types that are read from a filled-in tree.

use crate::expect::expect;
use serde::Deserialize;
use std::alloc::{AllocError, Global};
use std::collections::BTreeMap;
use std::fmt::Debug;
use subst::{NoSubstitution, json, toml as filled};
use subst_testing::answers::fault_text;
use subst_testing::variables::texts;
use toml::value::{Datetime, Value};

#[derive(Debug, Drop, Deserialize)]
struct Config {
    bar: String,
    baz: String,
    #[serde(default)]
    ports: Vec<u16>,
}

/// Variables as pairs. Some values would change or be refused if they were read as templates.
const PAIRS: &str = "bar=aap,baz=noot,port=80,verbatim=$bar${a:x}\\\",\
    short=$bar,braces=${a:x},escaped=\\$bar,two=\\\\,one=\\,open={,close=}";

/// Returns the `{:?}` of a value read from JSON, the text of a string's fault, or `no JSON` for an error of
/// the reader.
fn of_json<T: Debug + Drop>(
    alloc: Global,
    read: Result<T, json::Error>,
) -> Result<String, AllocError> {
    match read {
        Ok(value) => format!(in alloc; "{value:?}"),
        Err(json::Error::Json(_)) => String::from_str(alloc, "no JSON"),
        Err(json::Error::Subst(fault)) => fault_text(alloc, &fault),
        Err(json::Error::OutOfMemory(e)) => Err(e),
    }
}

/// Returns the `{:?}` of a value read from TOML, the text of a string's fault, or `no TOML` for an error of
/// the reader. For bytes that aren't UTF-8, returns `no text`.
fn of_toml<T: Debug + Drop>(
    alloc: Global,
    read: Result<T, filled::Error>,
) -> Result<String, AllocError> {
    match read {
        Ok(value) => format!(in alloc; "{value:?}"),
        Err(filled::Error::InvalidUtf8(_)) => String::from_str(alloc, "no text"),
        Err(filled::Error::Toml(_)) => String::from_str(alloc, "no TOML"),
        Err(filled::Error::Subst(fault)) => fault_text(alloc, &fault),
        Err(filled::Error::OutOfMemory(e)) => Err(e),
    }
}

/// Returns the result of a text, and also that of the text's bytes if the two differ.
fn both(alloc: Global, of_text: String, of_bytes: String) -> Result<String, AllocError> {
    if of_text == of_bytes {
        Ok(of_text)
    } else {
        format!(in alloc; "{of_text}, and of bytes {of_bytes}")
    }
}

fn json_config(alloc: Global, source: &str) -> Result<String, AllocError> {
    let variables = texts(alloc, PAIRS)?;
    let of_text = json::from_str::<Config, _>(alloc, source, &variables);
    let of_bytes = json::from_slice::<Config, _>(alloc, source.as_bytes(), &variables);
    both(alloc, of_json(alloc, of_text)?, of_json(alloc, of_bytes)?)
}

#[test]
fn a_struct_of_json(rt: HostRuntime) {
    let rows: &[(&str, &str)] = &[
        (
            "{\"bar\":\"$bar\",\"baz\":\"$baz/with/stuff\",\"ports\":[80,8080]}",
            "Config { bar: \"aap\", baz: \"noot/with/stuff\", ports: [80, 8080] }",
        ),
        // The value of a variable is never read as a template.
        (
            "{\"bar\":\"$verbatim\",\"baz\":\"${x:$verbatim}\",\"more\":1}",
            "Config { bar: \"$bar${a:x}\\\\\\\"\", baz: \"$bar${a:x}\\\\\\\"\", ports: [] }",
        ),
        ("{\"bar\":1}", "no JSON"),
        ("{\"bar\":\"\",\"baz\":null}", "no JSON"),
        ("[]", "no JSON"),
        ("{}", "no JSON"),
        // A refused string is reported before an error of the type, and invalid JSON before both.
        ("{\"bar\":\"$x\"}", "1..2: NoSuchVariable x"),
        ("{\"bar\":\"$x\"", "no JSON"),
        // A filled-in string is no number.
        (
            "{\"bar\":\"\",\"baz\":\"\",\"ports\":[\"$port\"]}",
            "no JSON",
        ),
    ];
    for &(source, want) in rows {
        expect(&rt, source, json_config(rt.alloc(), source), want);
    }
}

#[test]
fn a_value_of_json_is_not_filled_in_again(rt: HostRuntime) {
    let rows: &[(&str, &str)] = &[
        (
            "{\"bar\":\"$short\",\"baz\":\"\"}",
            "Config { bar: \"$bar\", baz: \"\", ports: [] }",
        ),
        (
            "{\"bar\":\"\",\"baz\":\"$braces\"}",
            "Config { bar: \"\", baz: \"${a:x}\", ports: [] }",
        ),
        (
            "{\"bar\":\"$escaped\",\"baz\":\"${a:$two}\"}",
            "Config { bar: \"\\\\$bar\", baz: \"\\\\\\\\\", ports: [] }",
        ),
        (
            "{\"bar\":\"$one\",\"baz\":\"$open$close\"}",
            "Config { bar: \"\\\\\", baz: \"{}\", ports: [] }",
        ),
    ];
    for &(source, want) in rows {
        expect(&rt, source, json_config(rt.alloc(), source), want);
    }
}

fn toml_config(alloc: Global, source: &str) -> Result<String, AllocError> {
    let variables = texts(alloc, PAIRS)?;
    let of_text = filled::from_str::<Config, _>(alloc, source, &variables);
    let of_bytes = filled::from_slice::<Config, _>(alloc, source.as_bytes(), &variables);
    both(alloc, of_toml(alloc, of_text)?, of_toml(alloc, of_bytes)?)
}

#[test]
fn a_struct_of_toml(rt: HostRuntime) {
    let rows: &[(&str, &str)] = &[
        (
            "bar = \"$bar\"\nbaz = \"$baz/with/stuff\"\nports = [80, 8080]\n",
            "Config { bar: \"aap\", baz: \"noot/with/stuff\", ports: [80, 8080] }",
        ),
        (
            "bar = '$verbatim'\nbaz = '${x:$verbatim}'\nmore = 1",
            "Config { bar: \"$bar${a:x}\\\\\\\"\", baz: \"$bar${a:x}\\\\\\\"\", ports: [] }",
        ),
        ("bar = 1", "no TOML"),
        ("bar = ''\nbaz = 1979-05-27", "no TOML"),
        ("", "no TOML"),
        ("bar = '$x'", "1..2: NoSuchVariable x"),
        ("bar = '$x'\nports =", "no TOML"),
        ("bar = ''\nbaz = ''\nports = ['$port']", "no TOML"),
    ];
    for &(source, want) in rows {
        expect(&rt, source, toml_config(rt.alloc(), source), want);
    }
}

#[test]
fn a_value_of_toml_is_not_filled_in_again(rt: HostRuntime) {
    let rows: &[(&str, &str)] = &[
        (
            "bar = '$short'\nbaz = ''",
            "Config { bar: \"$bar\", baz: \"\", ports: [] }",
        ),
        (
            "bar = ''\nbaz = '$braces'",
            "Config { bar: \"\", baz: \"${a:x}\", ports: [] }",
        ),
        (
            "bar = '$escaped'\nbaz = '${a:$two}'",
            "Config { bar: \"\\\\$bar\", baz: \"\\\\\\\\\", ports: [] }",
        ),
        (
            "bar = '$one'\nbaz = '$open$close'",
            "Config { bar: \"\\\\\", baz: \"{}\", ports: [] }",
        ),
    ];
    for &(source, want) in rows {
        expect(&rt, source, toml_config(rt.alloc(), source), want);
    }
}

fn unfilled(alloc: Global, source: &str) -> Result<String, AllocError> {
    let of_json = of_json::<Config>(alloc, json::from_str(alloc, source, &NoSubstitution))?;
    let of_toml = of_toml::<Config>(alloc, filled::from_str(alloc, source, &NoSubstitution))?;
    format!(in alloc; "{of_json}; {of_toml}")
}

#[test]
fn a_struct_without_substitution(rt: HostRuntime) {
    let rows: &[(&str, &str)] = &[
        (
            "{\"bar\":\"aap\",\"baz\":\"noot/with/stuff\"}",
            "Config { bar: \"aap\", baz: \"noot/with/stuff\", ports: [] }; no TOML",
        ),
        (
            "bar = \"aap\"\nbaz = \"noot/with/stuff\"\n",
            "no JSON; Config { bar: \"aap\", baz: \"noot/with/stuff\", ports: [] }",
        ),
        ("{\"bar\":1}", "no JSON; no TOML"),
        ("bar = 1", "no JSON; no TOML"),
    ];
    for &(source, want) in rows {
        expect(&rt, source, unfilled(rt.alloc(), source), want);
    }
}

fn is_no_text(alloc: Global, source: &[u8]) -> bool {
    let read = filled::from_slice::<Config, _>(alloc, source, &NoSubstitution);
    matches!(read, Err(filled::Error::InvalidUtf8(_)))
}

#[test]
fn bytes_that_are_no_text_come_before_the_strings(rt: HostRuntime) {
    assert!(rt; is_no_text(rt.alloc(), b"bar = '$x'\nbaz = \xFF"));
}

#[derive(Debug, Drop, Deserialize)]
#[serde(rename_all = "lowercase")]
enum Level {
    Quiet,
    Loud,
    Custom(String),
}

fn json_level(alloc: Global, source: &str) -> Result<String, AllocError> {
    let variables = texts(alloc, "level=loud,user=noot")?;
    of_json(alloc, json::from_str::<Level, _>(alloc, source, &variables))
}

#[test]
fn variants_by_name_and_with_a_text(rt: HostRuntime) {
    let rows: &[(&str, &str)] = &[
        ("\"quiet\"", "Quiet"),
        ("\"$level\"", "Loud"),
        ("{\"custom\":\"${name:$user}\"}", "Custom(\"noot\")"),
        ("\"$user\"", "no JSON"),
    ];
    for &(source, want) in rows {
        expect(&rt, source, json_level(rt.alloc(), source), want);
    }
}

type Owners = BTreeMap<String, Option<String>>;

fn json_owners(alloc: Global, source: &str) -> Result<String, AllocError> {
    of_json(
        alloc,
        json::from_str::<Owners, _>(alloc, source, &NoSubstitution),
    )
}

#[test]
fn a_map_of_json_without_substitution(rt: HostRuntime) {
    let source = "{\"$user\":\"${user:ann}\",\"b\":null}";
    let want = "{\"$user\": Some(\"ann\"), \"b\": None}";
    expect(&rt, source, json_owners(rt.alloc(), source), want);
}

/// Reads a `Value` from a TOML text in which `key` is under a header of 80 parts. Returns `a tree`, or the
/// text that `of_toml` returns for the error.
fn toml_under_a_long_header(alloc: Global, key: &str) -> Result<String, AllocError> {
    let header = "k.".repeat(alloc, 79)?;
    let source = ["[", header.as_str(), "k]\n", key, " = 'x'\n"].concat(alloc)?;
    match filled::from_str::<Value, _>(alloc, &source, &NoSubstitution) {
        Ok(_) => String::from_str(alloc, "a tree"),
        Err(e) => of_toml::<Value>(alloc, Err(e)),
    }
}

#[test]
fn a_type_is_read_from_80_levels_of_toml(rt: HostRuntime) {
    // If the key has two parts, the source can still be read as a tree. But the type is read from the printed
    // tree, whose header has 81 parts, and the reader refuses that header.
    let rows: &[(&str, &str)] = &[("k", "a tree"), ("k.k", "no TOML")];
    for &(key, want) in rows {
        expect(&rt, key, toml_under_a_long_header(rt.alloc(), key), want);
    }
}

type Times = BTreeMap<String, Datetime>;

fn toml_times(alloc: Global, source: &str) -> Result<String, AllocError> {
    of_toml(
        alloc,
        filled::from_str::<Times, _>(alloc, source, &NoSubstitution),
    )
}

#[test]
fn a_map_of_toml_without_substitution(rt: HostRuntime) {
    let rows: &[(&str, &str)] = &[
        (
            "'$start' = 07:30:00",
            "{\"$start\": Datetime { date: None, time: \
             Some(Time { hour: 7, minute: 30, second: Some(0), nanosecond: None }), offset: None }}",
        ),
        (
            "end = 2024-05-01T08:00:00Z",
            "{\"end\": Datetime { date: Some(Date { year: 2024, month: 5, day: 1 }), time: \
             Some(Time { hour: 8, minute: 0, second: Some(0), nanosecond: None }), offset: Some(Z) }}",
        ),
        // A filled-in string is no date.
        ("day = '${day:2024-05-01}'", "no TOML"),
    ];
    for &(source, want) in rows {
        expect(&rt, source, toml_times(rt.alloc(), source), want);
    }
}
