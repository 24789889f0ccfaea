//! Rows: a kind, a source, values of variables, and the expected answer.

use crate::encoding::{IN_LIST, IN_TEXT, read};
use std::alloc::{AllocError, Global};
use std::collections::BTreeMap;
use std::str::from_utf8;

/// The kind of a row.
#[derive(Clone, Copy, Debug, PartialEq, Eq)]
pub enum Kind {
    /// The source is expanded.
    Bytes,
    /// The source is read as a JSON tree, whose strings are filled in.
    Json,
    /// The source is read as a TOML tree, whose strings are filled in.
    Toml,
    /// The source is a JSON text that is filled in in place.
    JsonText,
    /// The source is a TOML text that is filled in in place.
    TomlText,
    /// The variables of the source are listed, and the missing ones.
    Lists,
}

impl Kind {
    fn named(name: &str) -> Option<Kind> {
        match name {
            "bytes" => Some(Kind::Bytes),
            "json" => Some(Kind::Json),
            "toml" => Some(Kind::Toml),
            "json_text" => Some(Kind::JsonText),
            "toml_text" => Some(Kind::TomlText),
            "lists" => Some(Kind::Lists),
            _ => None,
        }
    }
}

/// A map of values by name.
pub type Values = BTreeMap<String, Vec<u8>>;

/// A map of texts by name.
pub type Texts<'v> = BTreeMap<&'v str, &'v str>;

/// A row of a file.
#[derive(Drop)]
pub struct Row<'l> {
    /// The kind of the row.
    pub kind: Kind,
    /// The bytes of the source.
    pub source: Vec<u8>,
    /// The values of variables, by name.
    pub values: Values,
    /// The columns of the expected answer.
    pub expected: &'l str,
}

/// Reads the row of a line, or returns `None` if it is malformed.
pub fn read_row(alloc: Global, line: &str) -> Result<Option<Row<'_>>, AllocError> {
    let Some((kind, rest)) = line.split_once('\t') else {
        return Ok(None);
    };
    let (Some(kind), Some((source, rest))) = (Kind::named(kind), rest.split_once('\t')) else {
        return Ok(None);
    };
    let Some((pairs, expected)) = rest.split_once('\t') else {
        return Ok(None);
    };
    let (Some(source), Some(values)) = (read(alloc, source, IN_TEXT)?, values(alloc, pairs)?) else {
        return Ok(None);
    };
    Ok(Some(Row {
        kind,
        source,
        values,
        expected,
    }))
}

/// Reads the variables of a column, or returns `None` if it is malformed or sets a name twice.
fn values(alloc: Global, column: &str) -> Result<Option<Values>, AllocError> {
    let mut values = BTreeMap::new(alloc);
    if column == "-" {
        return Ok(Some(values));
    }
    for pair in column.split(',') {
        let Some((name, value)) = entry(alloc, pair)? else {
            return Ok(None);
        };
        if values.insert(name, value)?.is_some() {
            return Ok(None);
        }
    }
    Ok(Some(values))
}

fn entry(alloc: Global, pair: &str) -> Result<Option<(String, Vec<u8>)>, AllocError> {
    let Some((name, value)) = pair.split_once('=') else {
        return Ok(None);
    };
    let Some(name) = read(alloc, name, IN_LIST)? else {
        return Ok(None);
    };
    let Some(value) = read(alloc, value, IN_LIST)? else {
        return Ok(None);
    };
    Ok(String::from_utf8(name).ok().map(|name| (name, value)))
}

/// Returns the variables as texts, or `None` if a value isn't UTF-8.
pub fn texts(alloc: Global, values: &Values) -> Result<Option<Texts<'_>>, AllocError> {
    let mut texts = BTreeMap::new(alloc);
    for (name, value) in values.iter() {
        let Ok(value) = from_utf8(value) else {
            return Ok(None);
        };
        let _ = texts.insert(name.as_str(), value)?;
    }
    Ok(Some(texts))
}
