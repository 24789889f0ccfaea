//! Formats of documents, and the calls of `subst` for each.

use crate::answer::Answer;
use crate::row::Texts;
use crate::toml_tree;
use serde_json::Value;
use std::alloc::{AllocError, Global};
use subst::{Error, json, toml as filled};
use toml::Value as TomlValue;

/// The result of filling in a text in place.
type Filled<E> = Result<Option<String>, E>;

/// A format of documents.
pub trait Format {
    /// The prefix of the names of calls, such as `json::`.
    const MODULE: &'static str;

    /// Whether the format allows several members with the same key. A tree keeps only the last of them, and
    /// the tree's strings are visited in the order of its keys. In a text, each member is filled in, in
    /// document order.
    const HAS_EQUAL_KEYS: bool;

    type Tree: Drop;

    type Error: Drop;

    /// Returns the answer of a call that failed with `e`.
    fn refusal(e: Self::Error) -> Result<Answer, AllocError>;

    /// Reads a tree without filling in its strings.
    fn tree(alloc: Global, source: &str) -> Result<Self::Tree, Self::Error>;

    /// Returns a tree as JSON without spaces, with keys in byte order.
    fn text_of(alloc: Global, tree: &Self::Tree) -> Result<String, AllocError>;

    /// Calls `value_from_slice`.
    fn from_slice(alloc: Global, source: &[u8], map: &Texts) -> Result<Self::Tree, Self::Error>;

    /// Calls `value_from_str`.
    fn from_str(alloc: Global, source: &str, map: &Texts) -> Result<Self::Tree, Self::Error>;

    /// Calls `substitute_string_values`.
    fn fill_tree(alloc: Global, tree: &mut Self::Tree, map: &Texts) -> Result<(), Error>;

    /// Calls `fill_in_slice`.
    fn fill_in_slice(alloc: Global, source: &[u8], map: &Texts) -> Filled<Self::Error>;

    /// Calls `fill_in`.
    fn fill_in(alloc: Global, source: &str, map: &Texts) -> Filled<Self::Error>;

    /// Calls `refusals_in`, and returns only the faults of its result. Returns `None` if `refusals_in` does.
    fn refusals(
        alloc: Global,
        source: &str,
        map: &Texts,
    ) -> Result<Option<Vec<Error>>, Self::Error>;
}

/// The format JSON.
pub struct Json;

impl Format for Json {
    const MODULE: &'static str = "json::";

    const HAS_EQUAL_KEYS: bool = true;

    type Tree = Value;

    type Error = json::Error;

    fn refusal(e: json::Error) -> Result<Answer, AllocError> {
        match e {
            json::Error::Json(_) => Ok(Answer::IsNot("Json")),
            json::Error::Subst(fault) => Ok(Answer::Refuses(fault)),
            json::Error::OutOfMemory(e) => Err(e),
        }
    }

    fn tree(alloc: Global, source: &str) -> Result<Value, json::Error> {
        Ok(Value::from_str(alloc, source)?)
    }

    fn text_of(alloc: Global, tree: &Value) -> Result<String, AllocError> {
        tree.to_string(alloc)
    }

    fn from_slice(alloc: Global, source: &[u8], map: &Texts) -> Result<Value, json::Error> {
        json::value_from_slice(alloc, source, map)
    }

    fn from_str(alloc: Global, source: &str, map: &Texts) -> Result<Value, json::Error> {
        json::value_from_str(alloc, source, map)
    }

    fn fill_tree(alloc: Global, tree: &mut Value, map: &Texts) -> Result<(), Error> {
        json::substitute_string_values(alloc, tree, map)
    }

    fn fill_in_slice(alloc: Global, source: &[u8], map: &Texts) -> Filled<json::Error> {
        json::fill_in_slice(alloc, source, map)
    }

    fn fill_in(alloc: Global, source: &str, map: &Texts) -> Filled<json::Error> {
        json::fill_in(alloc, source, map)
    }

    fn refusals(
        alloc: Global,
        source: &str,
        map: &Texts,
    ) -> Result<Option<Vec<Error>>, json::Error> {
        let Some(all) = json::refusals_in(alloc, source, map)? else {
            return Ok(None);
        };
        Ok(Some(all.into_iter().map(|it| it.error).collect(alloc)?))
    }
}

/// The format TOML.
pub struct Toml;

impl Format for Toml {
    const MODULE: &'static str = "toml::";

    const HAS_EQUAL_KEYS: bool = false;

    type Tree = TomlValue;

    type Error = filled::Error;

    fn refusal(e: filled::Error) -> Result<Answer, AllocError> {
        match e {
            filled::Error::Toml(_) => Ok(Answer::IsNot("Toml")),
            filled::Error::InvalidUtf8(_) => Ok(Answer::IsNot("InvalidUtf8")),
            filled::Error::Subst(fault) => Ok(Answer::Refuses(fault)),
            filled::Error::OutOfMemory(e) => Err(e),
        }
    }

    fn tree(alloc: Global, source: &str) -> Result<TomlValue, filled::Error> {
        Ok(TomlValue::Table(toml::table_from_str(alloc, source)?))
    }

    fn text_of(alloc: Global, tree: &TomlValue) -> Result<String, AllocError> {
        toml_tree::text_of(alloc, tree)
    }

    fn from_slice(alloc: Global, source: &[u8], map: &Texts) -> Result<TomlValue, filled::Error> {
        filled::value_from_slice(alloc, source, map)
    }

    fn from_str(alloc: Global, source: &str, map: &Texts) -> Result<TomlValue, filled::Error> {
        filled::value_from_str(alloc, source, map)
    }

    fn fill_tree(alloc: Global, tree: &mut TomlValue, map: &Texts) -> Result<(), Error> {
        filled::substitute_string_values(alloc, tree, map)
    }

    fn fill_in_slice(alloc: Global, source: &[u8], map: &Texts) -> Filled<filled::Error> {
        filled::fill_in_slice(alloc, source, map)
    }

    fn fill_in(alloc: Global, source: &str, map: &Texts) -> Filled<filled::Error> {
        filled::fill_in(alloc, source, map)
    }

    fn refusals(
        alloc: Global,
        source: &str,
        map: &Texts,
    ) -> Result<Option<Vec<Error>>, filled::Error> {
        let Some(all) = filled::refusals_in(alloc, source, map)? else {
            return Ok(None);
        };
        Ok(Some(all.into_iter().map(|it| it.error).collect(alloc)?))
    }
}
