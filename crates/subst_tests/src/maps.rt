//! Each kind of map of variables.

use crate::expect::{Testing, expect, expect_bytes, expect_debug};
use indexmap::IndexMap;
use std::alloc::{AllocError, Global};
use std::collections::{BTreeMap, HashMap};
use std::convert::{AsSlice, AsStr};
use std::test::Fail;
use subst::{
    Env, Layered, NoEmpty, NoSubstitution, ShellMap, VariableMap, substitute, substitute_bytes,
};
use subst_testing::answers::{bytes_or_fault, text_or_fault};
use subst_testing::variables::owned_pairs;
use subst_uses::maps::{bytes, texts};

/// Expects the answer `want` of a source, expanded as a text and as bytes.
fn expect_answer<'a, M: VariableMap<'a>>(
    rt: &impl Testing,
    source: &str,
    variables: &'a M,
    want: &str,
)
where
    M::Value: AsStr + AsSlice<u8> + Drop,
{
    let text = substitute(rt.alloc(), source, variables);
    expect(rt, source, text_or_fault(rt.alloc(), text), want);
    let bytes = substitute_bytes(rt.alloc(), source.as_bytes(), variables);
    expect(rt, source, bytes_or_fault(rt.alloc(), bytes), want);
}

/// Sources with the output `Hello world!`, if `name` is `world` and no other variable is set.
const SOURCES: [&str; 4] = [
    "Hello $name!",
    "Hello ${name}!",
    "Hello ${name:not-world}!",
    "Hello ${not_name:world}!",
];

fn expect_world<'a, M: VariableMap<'a>>(rt: &impl Testing, variables: &'a M)
where
    M::Value: AsStr + AsSlice<u8> + Drop,
{
    for source in SOURCES {
        expect_answer(rt, source, variables, "gives Hello world!");
    }
}

fn key(alloc: Global) -> Result<String, AllocError> {
    String::from_str(alloc, "name")
}

/// Expects `Hello world!` for each of `SOURCES` with a map in which `name` is `world`. With the first source,
/// the callers in `subst_uses` for this kind of map are tested too.
macro_rules! expect_map {
    ($rt:ident, $map:ident, $key:expr, $caller:ident) => {
        let mut variables = $map::new($rt.alloc());
        variables.insert($key, "world")?;
        expect_world(&$rt, &variables);
        let text = texts::$caller($rt.alloc(), SOURCES[0], &variables);
        expect(&$rt, "a text", text, "Hello world!");
        let bytes = bytes::$caller($rt.alloc(), SOURCES[0].as_bytes(), &variables);
        expect_bytes(&$rt, "bytes", bytes, "Hello world!");
    };
}

#[test]
fn btree_maps(rt: HostRuntime) -> Result<(), Fail> {
    expect_map!(rt, BTreeMap, "name", btree_map_of_borrowed);
    let mut variables = BTreeMap::new(rt.alloc());
    variables.insert(key(rt.alloc())?, "world")?;
    expect_world(&rt, &variables);
    let text = texts::btree_map(rt.alloc(), SOURCES[0], &variables);
    expect(&rt, "a text", text, "Hello world!");
    Ok(())
}

#[test]
fn hash_maps(rt: HostRuntime) -> Result<(), Fail> {
    expect_map!(rt, HashMap, key(rt.alloc())?, hash_map);
    expect_map!(rt, HashMap, "name", hash_map_of_borrowed);
    Ok(())
}

#[test]
fn index_maps(rt: HostRuntime) -> Result<(), Fail> {
    expect_map!(rt, IndexMap, key(rt.alloc())?, index_map);
    expect_map!(rt, IndexMap, "name", index_map_of_borrowed);
    Ok(())
}

fn env_of(alloc: Global, texts: &[(&str, &str)]) -> Result<Env, AllocError> {
    Ok(Env::from_pairs(owned_pairs(alloc, texts)?))
}

#[test]
fn the_first_pair_of_a_name_counts_in_an_environment(rt: HostRuntime) -> Result<(), Fail> {
    let env = env_of(rt.alloc(), &[("A", "1"), ("A", "2")])?;
    expect_answer(&rt, "$A", &env, "gives 1");
    expect_debug(&rt, &env, r#"Env { pairs: [("A", "1"), ("A", "2")] }"#);
    expect(&rt, "a text", texts::env(rt.alloc(), "$A", &env), "1");
    expect_bytes(&rt, "bytes", bytes::env(rt.alloc(), b"$A", &env), "1");
    Ok(())
}

#[test]
fn no_substitution_has_no_value(rt: HostRuntime) {
    expect_answer(&rt, "${a:x}", &NoSubstitution, "gives x");
    expect_debug(&rt, &NoSubstitution, "NoSubstitution");
    expect(
        &rt,
        "a text",
        texts::no_substitution(rt.alloc(), "${a:x}"),
        "x",
    );
    expect_bytes(
        &rt,
        "bytes",
        bytes::no_substitution(rt.alloc(), b"${a:x}"),
        "x",
    );
}

#[test]
fn the_first_of_two_maps_counts(rt: HostRuntime) -> Result<(), Fail> {
    let (source, want) = ("$greeting $name!", "Hello world!");
    let first = env_of(rt.alloc(), &[("name", "world")])?;
    let mut second = BTreeMap::new(rt.alloc());
    second.insert(String::from_str(rt.alloc(), "greeting")?, "Hello")?;
    let layers = Layered {
        first: &first,
        second: &second,
    };
    expect_answer(&rt, source, &layers, "gives Hello world!");
    expect_debug(&rt, &layers.get("name"), r#"Some(First("world"))"#);
    expect(
        &rt,
        "a text",
        texts::layered(rt.alloc(), source, &first, &second),
        want,
    );
    let bytes = bytes::layered(rt.alloc(), source.as_bytes(), &first, &second);
    expect_bytes(&rt, "bytes", bytes, want);
    Ok(())
}

#[test]
fn an_empty_value_counts_as_none(rt: HostRuntime) -> Result<(), Fail> {
    let env = env_of(rt.alloc(), &[("name", "")])?;
    let source = "Hello ${name:world}!";
    expect_answer(&rt, source, &NoEmpty { map: &env }, "gives Hello world!");
    expect(
        &rt,
        "a text",
        texts::no_empty(rt.alloc(), source, &env),
        "Hello world!",
    );
    let bytes = bytes::no_empty(rt.alloc(), source.as_bytes(), &env);
    expect_bytes(&rt, "bytes", bytes, "Hello world!");
    Ok(())
}

/// Sources with their outputs. Each source asks a `ShellMap` about a set, an empty and an unset variable.
const QUESTIONS: [(&str, &str); 4] = [
    ("${1full:d} ${1empty:d} ${1absent:d}", "text  d"),
    ("${2full:d} ${2empty:d} ${2absent:d}", "d d "),
    ("${3full:d} ${3empty:d} ${3absent:d}", "d  "),
    ("${full:d} ${empty:d} ${absent:d}", "text d d"),
];

#[test]
fn digits_before_names_ask_what_they_have(rt: HostRuntime) -> Result<(), Fail> {
    let env = env_of(rt.alloc(), &[("full", "text"), ("empty", "")])?;
    let shell = ShellMap { map: &env };
    for (source, want) in QUESTIONS {
        expect(
            &rt,
            source,
            texts::shell_map(rt.alloc(), source, &env),
            want,
        );
        let bytes = bytes::shell_map(rt.alloc(), source.as_bytes(), &env);
        expect_bytes(&rt, source, bytes, want);
    }
    expect_answer(&rt, "a${1empty}b", &shell, "gives ab");
    expect_debug(&rt, &shell.get("1full"), r#"Some(First("text"))"#);
    expect_debug(&rt, &shell.get("2absent"), r#"Some(Second(""))"#);
    expect_debug(&rt, &shell.get("4full"), "None");
    Ok(())
}

/// A map in which every name is set.
struct Stars;

impl<'a> VariableMap<'a> for Stars {
    ghost use Rattle.std.specs.Prelude.{ℕ, List, Some, codes};

    type Value = &'static str;

    ghost Seen = { List ℕ };

    ghost see = { λ v. v.now };

    ghost look_up = { λ _ _. Some (codes "*") };

    fn get(&'a self, _key: &str) -> Option<&'static str> {
        Some("*")
    }
}

#[test]
fn no_default_is_used_where_every_name_has_a_value(rt: HostRuntime) {
    expect_answer(&rt, "$a-${b:c}", &Stars, "gives *-*");
}
