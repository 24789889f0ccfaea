//! Calls over JSON and TOML.

use crate::calls::{Show, again, print};
use std::alloc::{AllocError, Global};
use subst::{Error, json, toml as filled};
use subst_testing::variables::texts;

/// A JSON tree with strings, a number, `null`, an array and objects, in compact form.
const JSON: &str = "{\"k\":[\"$name\",1,null,{\"$name\":\"${b:x}\"}],\"l\":\"${c:$name}/y\"}";

/// A JSON tree whose second string has a missing variable.
const MISSING_IN_JSON: &str = "[\"$name\",[\"é$absent\"],\"$\"]";

/// A TOML document with a date, strings, an integer, a boolean, an array and tables.
const TOML: &str =
    "d = 1979-05-27\nk = ['$name', 1, true, { '$name' = '${b:x}' }]\n[t]\nl = '${c:$name}/y'\n";

/// A TOML document whose second string has a missing variable.
const MISSING_IN_TOML: &str = "k = ['$name', ['é$absent'], '$']";

pub const VARIABLES: &str = "name=the whole round world,a=1";

impl Show for serde_json::Value {
    fn show(&self, rt: &HostRuntime, word: &str) {
        let _ = rt.println(format_args!("{word} {self}"));
    }
}

impl Show for json::Error {
    fn show(&self, rt: &HostRuntime, word: &str) {
        match self {
            json::Error::Subst(fault) => fault.show(rt, "refused in a string"),
            _ => print(rt, word, "by another error"),
        }
    }
}

fn json_tree(alloc: Global, source: &str) -> Result<serde_json::Value, AllocError> {
    serde_json::Value::from_str(alloc, source).map_err(|_| AllocError)
}

fn fill_in_json(rt: &HostRuntime, name: &str, source: &str) -> Result<(), AllocError> {
    let alloc = rt.alloc();
    let mut tree = json_tree(alloc, source)?;
    let map = texts(alloc, VARIABLES)?;
    again!(rt, name, [tree, map],
        Err(Error::OutOfMemory(_)) => json::substitute_string_values(alloc, &mut tree, &map));
    Ok(())
}

fn read_json(rt: &HostRuntime, name: &str, source: &str) -> Result<(), AllocError> {
    let alloc = rt.alloc();
    let map = texts(alloc, VARIABLES)?;
    again!(rt, name, [source, map],
        Err(json::Error::OutOfMemory(_)) => json::value_from_str(alloc, source, &map));
    Ok(())
}

fn read_json_of_bytes(rt: &HostRuntime) -> Result<(), AllocError> {
    let alloc = rt.alloc();
    let map = texts(alloc, VARIABLES)?;
    again!(rt, "json::value_from_slice of each kind", [map],
        Err(json::Error::OutOfMemory(_)) => json::value_from_slice(alloc, JSON.as_bytes(), &map));
    Ok(())
}

impl Show for toml::Value {
    fn show(&self, rt: &HostRuntime, word: &str) {
        let _ = rt.println(format_args!("{word} {self:?}"));
    }
}

impl Show for filled::Error {
    fn show(&self, rt: &HostRuntime, word: &str) {
        match self {
            filled::Error::Subst(fault) => fault.show(rt, "refused in a string"),
            _ => print(rt, word, "by another error"),
        }
    }
}

/// A tree, and a copy of it from before a call.
#[derive(Drop)]
struct Compared {
    tree: toml::Value,
    before: toml::Value,
}

impl Show for Compared {
    fn show(&self, rt: &HostRuntime, word: &str) {
        let is_as_before = self.tree == self.before;
        print(rt, word, if is_as_before { "as before" } else { "changed" });
        self.tree.show(rt, word);
    }
}

fn toml_tree(alloc: Global, source: &str) -> Result<toml::Value, AllocError> {
    match toml::table_from_str(alloc, source) {
        Ok(table) => Ok(toml::Value::Table(table)),
        Err(_) => Err(AllocError),
    }
}

fn fill_in_toml(rt: &HostRuntime, name: &str, source: &str) -> Result<(), AllocError> {
    let alloc = rt.alloc();
    let tree = toml_tree(alloc, source)?;
    let before = toml_tree(alloc, source)?;
    let mut trees = Compared { tree, before };
    let map = texts(alloc, VARIABLES)?;
    again!(rt, name, [trees, map],
        Err(Error::OutOfMemory(_)) => filled::substitute_string_values(alloc, &mut trees.tree, &map));
    Ok(())
}

fn read_toml(rt: &HostRuntime, name: &str, source: &str) -> Result<(), AllocError> {
    let alloc = rt.alloc();
    let map = texts(alloc, VARIABLES)?;
    again!(rt, name, [source, map],
        Err(filled::Error::OutOfMemory(_)) => filled::value_from_str(alloc, source, &map));
    Ok(())
}

fn read_toml_of_bytes(rt: &HostRuntime) -> Result<(), AllocError> {
    let alloc = rt.alloc();
    let map = texts(alloc, VARIABLES)?;
    again!(rt, "toml::value_from_slice of each kind", [map],
        Err(filled::Error::OutOfMemory(_)) => filled::value_from_slice(alloc, TOML.as_bytes(), &map));
    Ok(())
}

pub fn json_calls(rt: &HostRuntime) -> Result<(), AllocError> {
    let array = "[\"$a\",\"${b:x}\"]";
    let name = "json::substitute_string_values of [\"$a\",\"${b:x}\"]";
    fill_in_json(rt, name, array)?;
    let name = "json::substitute_string_values of a missing variable";
    fill_in_json(rt, name, MISSING_IN_JSON)?;
    fill_in_json(rt, "json::substitute_string_values of each kind", JSON)?;
    read_json_of_bytes(rt)?;
    read_json(rt, "json::value_from_str of [\"$a\"]", "[\"$a\"]")?;
    let name = "json::value_from_str of a missing variable";
    read_json(rt, name, MISSING_IN_JSON)?;
    read_json(rt, "json::value_from_str of each kind", JSON)
}

pub fn toml_calls(rt: &HostRuntime) -> Result<(), AllocError> {
    let name = "toml::substitute_string_values of a missing variable";
    fill_in_toml(rt, name, MISSING_IN_TOML)?;
    fill_in_toml(rt, "toml::substitute_string_values of each kind", TOML)?;
    let array = "k = ['$a', '${b:x}']";
    let name = "toml::substitute_string_values of k = ['$a', '${b:x}']";
    fill_in_toml(rt, name, array)?;
    read_toml_of_bytes(rt)?;
    let name = "toml::value_from_str of a missing variable";
    read_toml(rt, name, MISSING_IN_TOML)?;
    read_toml(rt, "toml::value_from_str of each kind", TOML)?;
    read_toml(rt, "toml::value_from_str of k = '$a'", "k = '$a'")
}
