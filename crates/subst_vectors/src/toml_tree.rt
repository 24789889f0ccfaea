//! Trees of TOML documents as JSON.

use serde_json::{Map, Value};
use std::alloc::{AllocError, Global};
use toml::Table;
use toml::value::Datetime;

/// Returns a tree as JSON without spaces, with keys in byte order.
pub fn text_of(alloc: Global, tree: &toml::Value) -> Result<String, AllocError> {
    as_json(alloc, tree)?.to_string(alloc)
}

#[cycle(walk)]
fn as_json(alloc: Global, value: &toml::Value) -> Result<Value, AllocError> {
    match value {
        toml::Value::String(text) => Ok(Value::String(text.clone()?)),
        toml::Value::Integer(number) => Ok(Value::from(*number)),
        toml::Value::Float(number) => Ok(Value::from(*number)),
        toml::Value::Boolean(b) => Ok(Value::Bool(*b)),
        toml::Value::Datetime(date) => date_as_json(alloc, date),
        toml::Value::Array(items) => Ok(Value::Array(items_as_json(alloc, items)?)),
        toml::Value::Table(members) => Ok(Value::Object(members_as_json(alloc, members)?)),
    }
}

#[cycle(walk)]
fn items_as_json(alloc: Global, items: &Vec<toml::Value>) -> Result<Vec<Value>, AllocError> {
    let mut trees = Vec::with_capacity(alloc, items.len())?;
    for item in items {
        trees.push(as_json(alloc, item)?)?;
    }
    Ok(trees)
}

#[cycle(walk)]
fn members_as_json(alloc: Global, members: &Table) -> Result<Map<String, Value>, AllocError> {
    let mut trees = Map::new(alloc);
    for (key, member) in members.iter() {
        let name = key.clone()?;
        let tree = as_json(alloc, member)?;
        drop(trees.insert(name, tree)?);
    }
    Ok(trees)
}

/// Returns a date as an array of three items: the text `"date"`, null, and the text of the date.
fn date_as_json(alloc: Global, date: &Datetime) -> Result<Value, AllocError> {
    let text = format!(in alloc; "{date}")?;
    let mut items = Vec::with_capacity(alloc, 3)?;
    items.push(Value::String(String::from_str(alloc, "date")?))?;
    items.push(Value::Null)?;
    items.push(Value::String(text))?;
    Ok(Value::Array(items))
}
