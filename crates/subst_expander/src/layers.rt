//! The variables of a run, in order of precedence.

ghost use Rattle.std.specs.Prelude.{◌≡◌, ◌==◌, ◌||◌, ◌&&◌, ◌++◌, ℕ, IfOk, IsTrue, List, false, None, OnOk, Some, filter, if◌then◌else◌, is_none, is_some, map, not, option_map, string_bytes};
ghost use Rattle.std.specs.Option.{option_or};
ghost use Rattle.std.specs.Str.{bytes_eq};
ghost use Rattle.subst_expander.specs.Layers as layers;
ghost use Rattle.subst_expander.specs.Layers.{AreVariablesOf, entries_of, entry_of, escaped_by, entries_of_pairs, has_unreadable, is_empty};
ghost use Rattle.subst_filter_lib.specs.Arguments.{value_under};

use crate::entry::Entry;
use crate::escape::escaped;
use crate::kinds::Escape;
use std::alloc::{AllocError, Global};
use std::collections::HashMap;
use subst_filter_lib::values::Values;

/// A name and its value.
pub type Pair = (String, String);

/// The variables that a run takes from files and the environment, by origin.
#[derive(Drop)]
pub struct Layers {
    /// The variables of values files, in the order of files and lines.
    pub lines: Vec<Entry>,
    /// The variables of `--set-file`, in the order of the arguments.
    pub named: Vec<Entry>,
    /// The entries of the environment, `NAME=VALUE`, in order.
    pub environment: Vec<Vec<u8>>,
    /// The settings of `.env` files, in the order of files and lines.
    pub dotenv: Vec<Entry>,
    /// The variables of defaults files, in the order of files and lines.
    pub defaults: Vec<Entry>,
}

/// The variables of a run, by name.
#[derive(Drop)]
pub struct Variables<'v> {
    /// The values that are UTF-8.
    pub values: Values<'v>,
    /// The names whose values aren't UTF-8. Each is mapped to itself.
    pub unreadable: Values<'v>,
}

impl<'v> Variables<'v> {
    /// Returns the variables of entries. If several entries have the same name, the first one wins.
    ///
    /// # Errors
    ///
    /// If allocation fails.
    pub fn of(alloc: Global, entries: &'v [Entry]) -> Result<Variables<'v>, AllocError>
        ensures variables { IfOk result
            (λ variables. AreVariablesOf variables (entries_of entries.now)) }
    {
        let mut values = HashMap::new(alloc);
        values.reserve(entries.len())?;
        let mut variables = Variables {
            values,
            unreadable: HashMap::new(alloc),
        };
        for entry in entries {
            variables.add(entry)?;
        }
        Ok(variables)
    }

    /// Adds the variable of an entry, unless a variable of this name has been added.
    fn add(&mut self, entry: &'v Entry) -> Result<(), AllocError>
        ensures values { OnOk result ((name : List ℕ) → value_under self.new.values name
            ≡ option_or (value_under self.old.values name)
            (if bytes_eq name (string_bytes entry.now.name) && not (has_unreadable self.old name)
            then option_map string_bytes entry.now.value else None)) }
        ensures unreadable { OnOk result ((name : List ℕ) → has_unreadable self.new name
            ≡ (has_unreadable self.old name || (bytes_eq name (string_bytes entry.now.name)
            && (not (is_some (value_under self.old.values name)) && is_none entry.now.value)))) }
    {
        let name = entry.name.as_str();
        if self.has(name) {
            return Ok(());
        }
        let Some(value) = &entry.value else {
            return put(&mut self.unreadable, name, name);
        };
        put(&mut self.values, name, value.as_str())
    }

    /// Returns whether a name is set, even to a value that isn't UTF-8.
    pub fn has(&self, name: &str) -> bool
        ensures known { result ≡ (is_some (value_under self.now.values name.now)
            || has_unreadable self.now name.now) }
    {
        has(&self.values, name) || has(&self.unreadable, name)
    }

    /// Returns whether all values are UTF-8.
    pub fn are_readable(&self) -> bool
        ensures readable { IsTrue result → (name : List ℕ) → has_unreadable self.now name ≡ false }
    {
        self.unreadable.is_empty()
    }

    /// Returns whether the value of a name isn't UTF-8.
    pub fn is_unreadable(&self, name: &str) -> bool
        ensures unreadable { result ≡ has_unreadable self.now name.now }
    {
        has(&self.unreadable, name)
    }
}

/// Returns whether a map has a value under a name.
fn has(values: &Values<'_>, name: &str) -> bool
    ensures { result ≡ is_some (value_under values.now name.now) }
{
    values.contains_key(name)
}

/// Inserts a value under a name.
#[tactic(auto, using(std::proofs::lemmas::Map::Text::text_keys))]
fn put<'v>(values: &mut Values<'v>, name: &'v str, value: &'v str) -> Result<(), AllocError>
    ensures { OnOk result ((other : List ℕ) → value_under values.new other
        ≡ (if bytes_eq other name.now then Some value.now else value_under values.old other)) }
{
    values.insert(name, value)?;
    Ok(())
}

/// Converts pairs of a name and a value into entries, in the same order.
pub fn from_pairs(alloc: Global, pairs: &[Pair]) -> Result<Vec<Entry>, AllocError>
    ensures { IfOk result (λ entries. entries_of entries.items ≡ entries_of_pairs pairs.now) }
{
    let mut entries = Vec::new(alloc);
    for (name, value) in pairs {
        let name = String::from_str(alloc, name)?;
        let value = Some(String::from_str(alloc, value)?);
        entries.push(Entry { name, value })?;
    }
    Ok(entries)
}

/// Returns the entries that take precedence over `.env` files, the highest precedence first. The entries of
/// `--set` come first, then those of values files, both from the last to the first. The environment's entries
/// follow, in their own order.
pub fn above(
    mut set: Vec<Entry>,
    lines: Vec<Entry>,
    mut environment: Vec<Entry>,
) -> Result<Vec<Entry>, AllocError>
    ensures { IfOk result (λ entries. entries_of entries.items
        ≡ layers.above (entries_of set.items) (entries_of lines.items)
        (entries_of environment.items)) }
{
    let mut entries = lines;
    entries.append(&mut set)?;
    entries.reverse();
    entries.append(&mut environment)?;
    Ok(entries)
}

/// Returns all entries, the highest precedence first. After `above` come `dotenv` and then `defaults`, both
/// from the last entry to the first.
pub fn in_order(
    above: Vec<Entry>,
    mut dotenv: Vec<Entry>,
    mut defaults: Vec<Entry>,
) -> Result<Vec<Entry>, AllocError>
    ensures { IfOk result (λ entries. entries_of entries.items
        ≡ layers.in_order (entries_of above.items) (entries_of dotenv.items)
        (entries_of defaults.items)) }
{
    let mut entries = above;
    dotenv.reverse();
    entries.append(&mut dotenv)?;
    defaults.reverse();
    entries.append(&mut defaults)?;
    Ok(entries)
}

/// Removes the entries with an empty value.
pub fn without_empty(mut entries: Vec<Entry>) -> Vec<Entry>
    ensures { entries_of result.items
        ≡ filter (λ entry. not (is_empty entry)) (entries_of entries.items) }
{
    entries.retain(
        |entry|
            ensures { result ≡ not (is_empty (entry_of entry.now)) }
        { !entry.is_empty() },
    );
    entries
}

/// Escapes the values of entries.
///
/// # Errors
///
/// If allocation fails.
pub fn with_escaped_values(
    alloc: Global,
    entries: Vec<Entry>,
    escape: Escape,
) -> Result<Vec<Entry>, AllocError>
    ensures { IfOk result (λ escaped. entries_of escaped.items
        ≡ map (layers.escaped escape) (entries_of entries.items)) }
{
    if let Escape::Nothing = escape {
        return Ok(entries);
    }
    let mut all = Vec::with_capacity(alloc, entries.len())?;
    for entry in &entries {
        all.push(escaped_entry(alloc, entry, escape)?)?;
    }
    Ok(all)
}

/// Returns copies of entries.
///
/// # Errors
///
/// If allocation fails.
pub fn copied(alloc: Global, entries: &[Entry]) -> Result<Vec<Entry>, AllocError>
    ensures { IfOk result (λ copies. entries_of copies.items ≡ entries_of entries.now) }
{
    let mut all = Vec::with_capacity(alloc, entries.len())?;
    for entry in entries {
        all.push(escaped_entry(alloc, entry, Escape::Nothing)?)?;
    }
    Ok(all)
}

/// Returns a copy of an entry with its value escaped.
fn escaped_entry(alloc: Global, entry: &Entry, escape: Escape) -> Result<Entry, AllocError>
    ensures { IfOk result (λ it. entry_of it ≡ layers.escaped escape (entry_of entry.now)) }
{
    let name = String::from_str(alloc, &entry.name)?;
    let Some(value) = &entry.value else {
        return Ok(Entry { name, value: None });
    };
    let value = Some(escaped(alloc, value, escape)?);
    Ok(Entry { name, value })
}
