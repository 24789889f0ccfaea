//! Variables from pairs such as `a=1,b=2`.

use std::alloc::{AllocError, Global};
use std::collections::BTreeMap;

/// A map of texts by name.
pub type Texts<'a> = BTreeMap<&'a str, &'a str>;

/// A map of bytes by name.
pub type ByteValues<'a> = BTreeMap<&'a str, &'a [u8]>;

/// Returns an owned copy of pairs of names and values.
pub fn owned_pairs(
    alloc: Global,
    texts: &[(&str, &str)],
) -> Result<Vec<(String, String)>, AllocError> {
    let mut pairs = Vec::with_capacity(alloc, texts.len())?;
    for &(name, value) in texts {
        let name = String::from_str(alloc, name)?;
        pairs.push((name, String::from_str(alloc, value)?))?;
    }
    Ok(pairs)
}

/// Returns a map of the variables in `pairs`, such as `a=1,b=2`. A piece between commas is left out if it has
/// no `=`. If a name has several values, the last one wins.
pub fn texts<'a>(alloc: Global, pairs: &'a str) -> Result<Texts<'a>, AllocError> {
    let mut variables = BTreeMap::new(alloc);
    for pair in pairs.split(',') {
        if let Some((name, value)) = pair.split_once('=') {
            let _ = variables.insert(name, value)?;
        }
    }
    Ok(variables)
}

/// Returns a map of the variables in `pairs`, as `texts` does, with bytes as values.
pub fn byte_values<'a>(alloc: Global, pairs: &'a str) -> Result<ByteValues<'a>, AllocError> {
    let mut variables = BTreeMap::new(alloc);
    for pair in pairs.split(',') {
        if let Some((name, value)) = pair.split_once('=') {
            let _ = variables.insert(name, value.as_bytes())?;
        }
    }
    Ok(variables)
}
