//! The loaders of `subst_uses`, and the positions in their reports, which no contract states.

use crate::expect::expect;
use serde::Deserialize;
use std::alloc::{AllocError, Global};
use std::collections::BTreeMap;
use std::fmt::Display;
use subst::error::{MissingVariableName, NoSuchVariable};
use subst::{Env, NoSubstitution, toml as filled};
use subst_testing::variables::owned_pairs;
use subst_uses::config::Loaded;
use subst_uses::{config, settings};
use toml::{Value, table_to_string};

type Texts = BTreeMap<String, String>;

fn named(alloc: Global, name: &str, value: &str) -> Result<Texts, AllocError> {
    let mut variables = BTreeMap::new(alloc);
    let value = String::from_str(alloc, value)?;
    let _ = variables.insert(String::from_str(alloc, name)?, value)?;
    Ok(variables)
}

fn one_pair(alloc: Global, name: &str, value: &str) -> Result<Env, AllocError> {
    Ok(Env::from_pairs(owned_pairs(alloc, &[(name, value)])?))
}

/// Returns the report of a fault at `place`, such as `web.json:1:4`, with the highlighted `lines`.
fn reported<F: Display + Drop>(
    alloc: Global,
    place: &str,
    fault: F,
    lines: &str,
) -> Result<String, AllocError> {
    format!(in alloc; "{place}: {fault}\n{lines}")
}

fn absent(alloc: Global, name: &str) -> Result<NoSuchVariable, AllocError> {
    let name = String::from_str(alloc, name)?;
    Ok(NoSuchVariable { position: 1, name })
}

fn loaded_json(alloc: Global, source: &str) -> Result<String, AllocError> {
    let environment = one_pair(alloc, "user", "ann \"a\"")?;
    let defaults = named(alloc, "user", "nobody")?;
    match config::load(alloc, "web.json", source, &environment, &defaults)? {
        Loaded::Configuration(tree) => tree.to_string(alloc),
        Loaded::Refused(_, report) => Ok(report),
    }
}

#[test]
fn a_configuration(rt: HostRuntime) {
    let rows = [
        (
            "{\"home\":\"/home/$user\",\"port\":80}",
            "{\"home\":\"/home/ann \\\"a\\\"\",\"port\":80}",
        ),
        ("[1,]", "web.json:1:4: invalid JSON\n  [1,]\n     ^\n"),
        ("[1,\n", "web.json:1:4: EOF while parsing\n  [1,\n     ^\n"),
    ];
    for (source, want) in rows {
        expect(&rt, source, loaded_json(rt.alloc(), source), want);
    }
}

#[test]
fn a_configuration_without_a_name(rt: HostRuntime) -> Result<(), AllocError> {
    let rows = [
        (
            "[\"$user\",\"${name}\"]",
            "web.json:1:13: /1",
            "  [\"$user\",\"${name}\"]\n              ^^^^\n",
        ),
        (
            "{\n  \"$name\": \"x\",\n  \"a/b\": \"\\u00e9\\u0024name\",\n  \"c\": \"$user\"\n}",
            "web.json:3:23: /a~1b",
            "    \"a/b\": \"\\u00e9\\u0024name\",\n                        ^^^^\n",
        ),
        ("\"$name\"", "web.json:1:3", "  \"$name\"\n    ^^^^\n"),
    ];
    for (source, place, lines) in rows {
        let want = reported(rt.alloc(), place, absent(rt.alloc(), "name")?, lines)?;
        expect(&rt, source, loaded_json(rt.alloc(), source), &want);
    }
    Ok(())
}

/// Returns the reports of two faults, concatenated.
fn both(
    alloc: Global,
    first: Result<String, AllocError>,
    second: Result<String, AllocError>,
) -> Result<String, AllocError> {
    format!(in alloc; "{}{}", first?, second?)
}

#[test]
fn all_faults_of_a_file(rt: HostRuntime) -> Result<(), AllocError> {
    let alloc = rt.alloc();
    let first = reported(
        alloc,
        "web.json:1:4: /0",
        absent(alloc, "a")?,
        "  [\"$a\", 1,\n     ^\n",
    );
    let second = reported(
        alloc,
        "web.json:2:4: /2",
        absent(alloc, "b")?,
        "   \"$b\"]\n     ^\n",
    );
    let want = both(alloc, first, second)?;
    let source = "[\"$a\", 1,\n \"$b\"]";
    expect(&rt, source, loaded_json(alloc, source), &want);
    Ok(())
}

fn loaded_toml(alloc: Global, source: &str) -> Result<String, AllocError> {
    let environment = one_pair(alloc, "HOST", "db \"1\"")?;
    let defaults = BTreeMap::new(alloc);
    match settings::load(alloc, "app.toml", source, &environment, &defaults)? {
        Loaded::Configuration(Value::Table(table)) => {
            table_to_string(alloc, &table).map_err(|_| AllocError)
        }
        Loaded::Configuration(tree) => tree.to_string(alloc),
        Loaded::Refused(_, report) => Ok(report),
    }
}

#[test]
fn settings_of_a_file(rt: HostRuntime) {
    let rows = [
        (
            "[db]\nurl = \"http://${HOST}/\"\nport = 80\n",
            "[db]\nport = 80\nurl = 'http://db \"1\"/'\n",
        ),
        (
            "a = 1\nb =]\n",
            "app.toml:2:4: invalid value, expected a string, number, boolean, date-time, array or inline table\n\
             \x20 b =]\n     ^\n",
        ),
        (
            "a = 1\na = 2\n",
            "app.toml:2:1: duplicate key\n  a = 2\n  ^^^^^\n",
        ),
    ];
    for (source, want) in rows {
        expect(&rt, source, loaded_toml(rt.alloc(), source), want);
    }
}

#[test]
fn settings_without_a_port(rt: HostRuntime) -> Result<(), AllocError> {
    let rows = [
        (
            "# $PORT\n[db]\nurl = \"http://$HOST:${PORT}/\"\n",
            "app.toml:3:23: db.url",
            "  url = \"http://$HOST:${PORT}/\"\n                        ^^^^\n",
        ),
        (
            "a = 1 # see $PORT below\nurl = \"http://$PORT/\"\n",
            "app.toml:2:16: url",
            "  url = \"http://$PORT/\"\n                 ^^^^\n",
        ),
        (
            "\"$PORT\" = 1\n'a b' = [\"x\", \"\"\"\n$PORT\"\"\"]\n",
            "app.toml:3:2: \"a b\"[1]",
            "  $PORT\"\"\"]\n   ^^^^\n",
        ),
    ];
    for (source, place, lines) in rows {
        let want = reported(rt.alloc(), place, absent(rt.alloc(), "PORT")?, lines)?;
        expect(&rt, source, loaded_toml(rt.alloc(), source), &want);
    }
    Ok(())
}

#[test]
fn a_dollar_that_is_written_as_an_escape(rt: HostRuntime) -> Result<(), AllocError> {
    let (position, len) = (0, 1);
    let fault = MissingVariableName { position, len };
    let lines = "  a = \"\\u0024\"\n       ^^^^^^\n";
    let want = reported(rt.alloc(), "app.toml:1:6: a", fault, lines)?;
    expect(
        &rt,
        "an escape",
        loaded_toml(rt.alloc(), "a = \"\\u0024\"\n"),
        &want,
    );
    Ok(())
}

fn bytes_report(alloc: Global, source: &[u8]) -> Result<String, AllocError> {
    match filled::from_slice::<Texts, _>(alloc, source, &NoSubstitution) {
        Ok(_) => Ok(String::new(alloc)),
        Err(e) => filled::report(alloc, "app.toml", "", &NoSubstitution, &e),
    }
}

#[test]
fn settings_that_are_no_text(rt: HostRuntime) {
    let want = "app.toml: invalid utf-8 sequence of 1 bytes from index 5\n";
    expect(&rt, "bytes", bytes_report(rt.alloc(), b"a = '\xFF'"), want);
}

#[derive(Debug, Deserialize, Drop)]
struct Server {
    host: String,
    port: u16,
}

fn loaded_server(alloc: Global, file: &str, source: &str) -> Result<String, AllocError> {
    let environment = one_pair(alloc, "HOST", "db")?;
    let defaults = named(alloc, "DOMAIN", "example.org")?;
    if file.ends_with(".json") {
        shown(
            alloc,
            config::load_as(alloc, file, source, &environment, &defaults)?,
        )
    } else {
        shown(
            alloc,
            settings::load_as(alloc, file, source, &environment, &defaults)?,
        )
    }
}

fn shown<E: Drop>(alloc: Global, loaded: Loaded<Server, E>) -> Result<String, AllocError> {
    match loaded {
        Loaded::Configuration(server) => format!(in alloc; "{server:?}"),
        Loaded::Refused(_, report) => Ok(report),
    }
}

#[test]
fn a_server(rt: HostRuntime) {
    let want = "Server { host: \"db.example.org\", port: 80 }";
    let rows = [
        (
            "web.json",
            "{\"host\": \"$HOST.$DOMAIN\", \"port\": 80}",
            want,
        ),
        ("web.toml", "host = '$HOST.$DOMAIN'\nport = 80\n", want),
        (
            "web.json",
            "{\"host\": 1, \"port\": 80}",
            "web.json: invalid type\n",
        ),
        (
            "web.toml",
            "host = '$HOST'\nport = '80'\n",
            "web.toml: invalid type: string \"80\", expected an integer in `port`\n",
        ),
    ];
    for (file, source, want) in rows {
        expect(&rt, source, loaded_server(rt.alloc(), file, source), want);
    }
}
