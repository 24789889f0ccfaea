//! Runs of the callers in `subst_uses`, with enough memory. A contract states a caller's output, but a body
//! that always fails would satisfy the contract too. The callers for each kind of map are run in `maps`, and
//! the loaders in `loaders`.

use crate::expect::{expect, expect_bytes};
use std::alloc::{AllocError, Global};
use std::collections::BTreeMap;
use subst::steps::Turns;
use subst::{ByteTemplate, Env, Error, NoSubstitution, Template};
use subst_testing::variables::owned_pairs;
use subst_uses::cache::Cached;
use subst_uses::compose::ComposeError;
use subst_uses::greeting::{Guest, greet};
use subst_uses::launcher::command_line;
use subst_uses::log_line::{Fields, LINE, ROOM, append_line};
use subst_uses::missing::{Prompt, expanded_or_none, expanded_or_prompted};
use subst_uses::own_map::{Colours, coloured, warning};
use subst_uses::report::Outcome;
use subst_uses::{all_missing, any_map, any_template, compose, filled, lines, plain, texts, words};

const SOURCE: &str = "Hello $name!";

const DEFAULT: &[u8] = b"Hello ${name:world}!";

/// Returns a map in which the variable `name` has the value `value`.
fn named<V: Drop>(alloc: Global, value: V) -> Result<BTreeMap<String, V>, AllocError> {
    let mut variables = BTreeMap::new(alloc);
    let _ = variables.insert(String::from_str(alloc, "name")?, value)?;
    Ok(variables)
}

fn world(alloc: Global) -> Result<BTreeMap<String, String>, AllocError> {
    named(alloc, String::from_str(alloc, "world")?)
}

fn by_texts(alloc: Global) -> Result<Vec<u8>, Error> {
    filled::by_texts(alloc, SOURCE.as_bytes(), &named(alloc, "world")?)
}

fn by_slices(alloc: Global) -> Result<Vec<u8>, Error> {
    filled::by_slices(
        alloc,
        SOURCE.as_bytes(),
        &named(alloc, b"world".as_slice())?,
    )
}

fn by_arrays(alloc: Global) -> Result<Vec<u8>, Error> {
    filled::by_arrays(alloc, SOURCE.as_bytes(), &named(alloc, *b"world")?)
}

fn by_vectors(alloc: Global) -> Result<Vec<u8>, Error> {
    let value = Vec::from_slice(alloc, b"world")?;
    filled::by_vectors(alloc, SOURCE.as_bytes(), &named(alloc, value)?)
}

fn by_any_template(alloc: Global) -> Result<Vec<u8>, Error> {
    let template = ByteTemplate::from_slice(alloc, DEFAULT)?;
    Ok(any_template::expanded(alloc, &template, &NoSubstitution)?)
}

fn in_few_turns(alloc: Global) -> Result<Vec<u8>, Error> {
    let template = ByteTemplate::from_slice(alloc, DEFAULT)?;
    let turns = &mut Turns::new();
    Ok(any_template::expanded_in_few_turns(alloc, &template, &NoSubstitution, turns)?)
}

/// Returns the output of a cache whose template is expanded without `name`, and then with `name` set.
fn by_cache(alloc: Global) -> Result<Vec<u8>, Error> {
    let template = ByteTemplate::from_slice(alloc, b"Hello ${name:you}!")?;
    let mut cached = Cached::new(alloc, template, BTreeMap::new(alloc))?;
    cached.fill(alloc, world(alloc)?)?;
    Ok(Vec::from_slice(alloc, cached.output())?)
}

#[test]
fn callers_that_give_bytes(rt: HostRuntime) {
    let alloc = rt.alloc();
    let runs = [
        ("texts", by_texts(alloc)),
        ("slices", by_slices(alloc)),
        ("arrays", by_arrays(alloc)),
        ("vectors", by_vectors(alloc)),
        ("any template", by_any_template(alloc)),
        ("few turns", in_few_turns(alloc)),
        ("a cache", by_cache(alloc)),
    ];
    for (name, given) in runs {
        expect_bytes(&rt, name, given, "Hello world!");
    }
}

#[test]
fn callers_of_a_map(rt: HostRuntime) -> Result<(), AllocError> {
    let (alloc, source, variables) = (rt.alloc(), SOURCE.as_bytes(), world(rt.alloc())?);
    let given = filled::by_values(alloc, source, &variables);
    expect_bytes(&rt, "values", given, "Hello world!");
    let given = any_map::filled_in(alloc, source, &variables);
    expect_bytes(&rt, "a map of bytes", given, "Hello world!");
    let given = any_map::filled_or_refused(alloc, source, &variables);
    expect_bytes(&rt, "any map", given, "Hello world!");
    Ok(())
}

/// A prompt whose answer is always `world`.
#[derive(Drop)]
struct WorldPrompt;

impl Prompt for WorldPrompt {
    fn ask(&mut self, alloc: Global, _name: &str) -> Result<String, AllocError> {
        String::from_str(alloc, "world")
    }
}

fn by_prompt(alloc: Global) -> Result<String, Error> {
    expanded_or_prompted(alloc, SOURCE, &mut BTreeMap::new(alloc), &mut WorldPrompt)
}

fn or_none(alloc: Global) -> Result<String, Error> {
    let template = Template::from_str(alloc, SOURCE)?;
    let given = expanded_or_none(alloc, &template, &world(alloc)?)?;
    Ok(given.unwrap_or(String::new(alloc)))
}

fn by_a_copy(alloc: Global) -> Result<String, Error> {
    let copy = texts::copied(alloc, &texts::kept(alloc, SOURCE)?)?;
    Ok(texts::by_owner(alloc, &copy, &world(alloc)?)?)
}

fn page(alloc: Global) -> Result<String, Error> {
    let source = texts::checked(String::from_str(alloc, SOURCE)?)?;
    plain::page(alloc, source, &world(alloc)?)
}

fn not_missing(alloc: Global) -> Result<String, Error> {
    match all_missing::filled(alloc, "web.conf", SOURCE, &world(alloc)?)? {
        Outcome::Output(text) | Outcome::Report(text) => Ok(text),
    }
}

#[test]
fn callers_that_give_a_text(rt: HostRuntime) {
    let alloc = rt.alloc();
    let runs = [
        ("a guest", greet(alloc, &Guest { name: "world" })),
        ("asked for", by_prompt(alloc)),
        ("given", or_none(alloc)),
        ("a copy", by_a_copy(alloc)),
        ("a page", page(alloc)),
        ("all there", not_missing(alloc)),
    ];
    for (name, given) in runs {
        expect(&rt, name, given, "Hello world!");
    }
}

/// Returns the report of a missing variable.
fn reported(alloc: Global) -> Result<String, AllocError> {
    match all_missing::filled(alloc, "web.conf", "host = $host", &BTreeMap::new(alloc))? {
        Outcome::Output(_) => Ok(String::new(alloc)),
        Outcome::Report(text) => Ok(text),
    }
}

fn last_word(alloc: Global) -> Result<Vec<u8>, Error> {
    let mut line = command_line(alloc, &["${editor:vi}", "to $name"], &world(alloc)?)?;
    Ok(line.pop().unwrap_or(Vec::new(alloc)))
}

fn around_word(alloc: Global) -> Result<String, Error> {
    words::around_word(alloc, "vi $name", "${line}", "${file:a}", &world(alloc)?)
}

fn logged(alloc: Global) -> Result<Vec<u8>, Error> {
    let line = ByteTemplate::from_slice(alloc, LINE)?;
    let mut log = Vec::with_capacity(alloc, ROOM)?;
    if let Some(fields) = Fields::new("info", "$level") {
        let _ = append_line(&line, &fields, &mut log);
    }
    Ok(log)
}

fn is_early(alloc: Global) -> bool {
    matches!(lines::early_fault(alloc, "${a)"), Ok(Some(_)))
}

#[test]
fn other_callers(rt: HostRuntime) {
    let alloc = rt.alloc();
    let actual = reported(alloc).map(|text| {
        text.starts_with("web.conf:1:9: ") && text.ends_with("\n  host = $host\n          ^^^^\n")
    });
    assert_eq!(rt; actual, Ok(true));
    expect_bytes(&rt, "the last word", last_word(alloc), "to world");
    let actual = around_word(alloc);
    expect(&rt, "around a word", actual, "vi world ${line} a");
    expect_bytes(&rt, "a log", logged(alloc), "info $level\n");
    let color = coloured(alloc, b"${bold}a", &Colours { on: true });
    expect_bytes(&rt, "a color", color, "\x1B[1ma");
    let red = warning(alloc, &Colours { on: true });
    expect_bytes(&rt, "a warning", red, "\x1B[31mWarning: \x1B[0m");
    assert!(rt; is_early(alloc));
}

#[test]
fn texts_of_docker_compose(rt: HostRuntime) -> Result<(), AllocError> {
    let pairs = owned_pairs(rt.alloc(), &[("name", "world"), ("empty", "")])?;
    let (alloc, env) = (rt.alloc(), Env::from_pairs(pairs));
    let source = "Hello ${empty-big }${name:?no name}${name:+!}$absent";
    expect(
        &rt,
        source,
        compose::filled_in(alloc, source, &env),
        "Hello world!",
    );
    let refused = compose::filled_in(alloc, "${name:=you}", &env);
    assert!(rt; matches!(refused, Err(ComposeError::Text(_))));
    let missing = compose::filled_in(alloc, "${empty:?no value}", &env);
    assert!(rt; matches!(missing, Err(ComposeError::Variable(_))));
    Ok(())
}

fn handed_back(alloc: Global) -> Result<Vec<u8>, AllocError> {
    let source = Vec::from_slice(alloc, b"{a: b}")?;
    Ok(plain::handed_back(alloc, source, &NoSubstitution))
}

#[test]
fn callers_that_change_nothing(rt: HostRuntime) {
    let alloc = rt.alloc();
    let unchanged = plain::unchanged(alloc, b"{a: b}", &NoSubstitution);
    expect_bytes(&rt, "unchanged", unchanged, "{a: b}");
    expect_bytes(&rt, "handed back", handed_back(alloc), "{a: b}");
    let actual = words::escaped_and_filled_in(alloc, "a$b{c}:\\", &NoSubstitution);
    expect(&rt, "escaped", actual, "a$b{c}:\\");
}
