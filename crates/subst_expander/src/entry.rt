//! Variables as names with values.

ghost use Rattle.std.specs.Prelude.{◌≡◌, ◌==◌, ◌<◌, IfOk, MatchOption, length, option_map, string_bytes};
ghost use Rattle.std.specs.List.{after_first, before_first, position_or_len};
ghost use Rattle.subst_expander.specs.Layers as layers;
ghost use Rattle.subst_expander.specs.Layers.{entry_of};

use std::alloc::{AllocError, Global};
use subst::is_name;

/// A variable: a name and its value.
#[derive(Drop)]
pub struct Entry {
    /// The name.
    pub name: String,
    /// The value, or `None` if it isn't UTF-8.
    pub value: Option<String>,
}

impl Entry {
    /// Returns whether the value is empty, or `false` if it isn't UTF-8.
    pub fn is_empty(&self) -> bool
        ensures { result ≡ layers.is_empty (entry_of self.now) }
    {
        match &self.value {
            Some(value) => value.is_empty(),
            None => false,
        }
    }
}

/// Parses `NAME=VALUE`, split at its first `=`. Returns `None` if there is no `=`, or if the name isn't a
/// variable name.
pub fn entry_in(alloc: Global, bytes: &[u8]) -> Result<Option<Entry>, AllocError>
    ensures { IfOk result (λ entry. option_map entry_of entry ≡ layers.entry_in bytes.now) }
{
    let Some((name, value)) = split_once(bytes, b'=') else {
        return Ok(None);
    };
    if !is_name(name) {
        return Ok(None);
    }
    let Ok(name) = str::from_utf8(name) else {
        return Ok(None);
    };
    let name = String::from_str(alloc, name)?;
    let value = text_in(alloc, value)?;
    Ok(Some(Entry { name, value }))
}

/// Returns bytes as a text, or `None` if they aren't UTF-8.
fn text_in(alloc: Global, bytes: &[u8]) -> Result<Option<String>, AllocError>
    ensures { IfOk result (λ text. option_map string_bytes text ≡ layers.text_in bytes.now) }
{
    let Ok(text) = str::from_utf8(bytes) else {
        return Ok(None);
    };
    Ok(Some(String::from_str(alloc, text)?))
}

/// Splits bytes at the first separator, or returns `None` if there is none.
pub fn split_once(bytes: &[u8], separator: u8) -> Option<(&[u8], &[u8])>
    ensures { MatchOption result
        (position_or_len (λ b. b == separator) bytes.now ≡ length bytes.now)
        (λ parts. (position_or_len (λ b. b == separator) bytes.now < length bytes.now)
        × (parts.0.now ≡ before_first (λ b. b == separator) bytes.now)
        × (parts.1.now ≡ after_first (λ b. b == separator) bytes.now)) }
{
    let at = index_of(bytes, separator);
    if at < bytes.len() {
        Some((&bytes[..at], &bytes[at + 1..]))
    } else {
        None
    }
}

/// Returns the index of the first `byte`, or `bytes.len()` if there is none.
fn index_of(bytes: &[u8], byte: u8) -> usize
    ensures { result ≡ position_or_len (λ b. b == byte) bytes.now }
{
    let found = bytes.iter().position(|b| *b == byte);
    found.unwrap_or(bytes.len())
}
