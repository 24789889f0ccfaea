//! Bytes expanded from each kind of map. Contracts state the look-up of the map. For a `BTreeMap` with owned
//! keys, see `filled`.

ghost use Rattle.std.specs.Prelude.{IfSome};
ghost use Rattle.std.specs.Option.{option_map, option_or};
ghost use Rattle.std.specs.BTreeMap.{get_by_text as btree_get_by_text};
ghost use Rattle.std.specs.HashMap.{get_by_text as hash_get_by_text};
ghost use Rattle.subst.specs.Language.Answer.{Answers};
ghost use Rattle.subst.specs.Calls.Maps.{first_value, btree_get_by_borrowed_text, hash_get_by_borrowed_text, without_empty};
ghost use Rattle.subst.specs.Calls.Outcome.{answer_of};
ghost use Rattle.subst.specs.Question.{by_question};

use crate::any_map;
use indexmap::IndexMap;
use std::alloc::Global;
use std::collections::{BTreeMap, HashMap};
use std::convert::AsSlice;
use std::hash::BuildHasher;
use subst::{Env, Error, Layered, NoEmpty, NoSubstitution, ShellMap, substitute_bytes};

/// Expands bytes with the values of a `BTreeMap` with borrowed keys.
pub fn btree_map_of_borrowed<V: AsSlice<u8>>(
    alloc: Global,
    source: &[u8],
    variables: &BTreeMap<&str, V>,
) -> Result<Vec<u8>, Error>
    ensures { IfSome (answer_of (λ output. output.items) result)
        (Answers source.now
        (λ name. option_map V.items (btree_get_by_borrowed_text variables.now name))) }
{
    substitute_bytes(alloc, source, variables)
}

/// Expands bytes with the values of a `HashMap`.
pub fn hash_map<V: AsSlice<u8>, S: BuildHasher>(
    alloc: Global,
    source: &[u8],
    variables: &HashMap<String, V, S>,
) -> Result<Vec<u8>, Error>
    ensures { IfSome (answer_of (λ output. output.items) result)
        (Answers source.now (λ name. option_map V.items (hash_get_by_text variables.now name))) }
{
    substitute_bytes(alloc, source, variables)
}

/// Expands bytes with the values of a `HashMap` with borrowed keys.
pub fn hash_map_of_borrowed<V: AsSlice<u8>, S: BuildHasher>(
    alloc: Global,
    source: &[u8],
    variables: &HashMap<&str, V, S>,
) -> Result<Vec<u8>, Error>
    ensures { IfSome (answer_of (λ output. output.items) result)
        (Answers source.now
        (λ name. option_map V.items (hash_get_by_borrowed_text variables.now name))) }
{
    substitute_bytes(alloc, source, variables)
}

/// Expands bytes with the values of an `IndexMap`.
pub fn index_map<V: AsSlice<u8>, S: BuildHasher>(
    alloc: Global,
    source: &[u8],
    variables: &IndexMap<String, V, S>,
) -> Result<Vec<u8>, Error>
    ensures { IfSome (answer_of (λ output. output.items) result)
        (Answers source.now (λ name. option_map V.items (hash_get_by_text variables.now name))) }
{
    substitute_bytes(alloc, source, variables)
}

/// Expands bytes with the values of an `IndexMap` with borrowed keys.
pub fn index_map_of_borrowed<V: AsSlice<u8>, S: BuildHasher>(
    alloc: Global,
    source: &[u8],
    variables: &IndexMap<&str, V, S>,
) -> Result<Vec<u8>, Error>
    ensures { IfSome (answer_of (λ output. output.items) result)
        (Answers source.now
        (λ name. option_map V.items (hash_get_by_borrowed_text variables.now name))) }
{
    substitute_bytes(alloc, source, variables)
}

/// Expands bytes with every variable unset, so that every default is used.
pub fn no_substitution(alloc: Global, source: &[u8]) -> Result<Vec<u8>, Error>
    ensures { IfSome (answer_of (λ output. output.items) result)
        (Answers source.now (λ _. None)) }
{
    substitute_bytes(alloc, source, &NoSubstitution)
}

/// Expands bytes with the pairs of an `Env`.
pub fn env(alloc: Global, source: &[u8], variables: &Env) -> Result<Vec<u8>, Error>
    ensures { IfSome (answer_of (λ output. output.items) result)
        (Answers source.now (first_value variables.now)) }
{
    substitute_bytes(alloc, source, variables)
}

/// Expands bytes with the pairs of an `Env`. A name that no pair sets is looked up in `defaults`.
pub fn layered<V: AsSlice<u8>>(
    alloc: Global,
    source: &[u8],
    pairs: &Env,
    defaults: &BTreeMap<String, V>,
) -> Result<Vec<u8>, Error>
    ensures { IfSome (answer_of (λ output. output.items) result)
        (Answers source.now (λ name. option_or (first_value pairs.now name)
        (option_map V.items (btree_get_by_text defaults.now name)))) }
{
    let layers = Layered {
        first: pairs,
        second: defaults,
    };
    any_map::filled_in(alloc, source, &layers)
}

/// Expands bytes with the pairs of an `Env`, and treats empty values as unset.
pub fn no_empty(alloc: Global, source: &[u8], variables: &Env) -> Result<Vec<u8>, Error>
    ensures { IfSome (answer_of (λ output. output.items) result)
        (Answers source.now (without_empty (first_value variables.now))) }
{
    any_map::filled_in(alloc, source, &NoEmpty { map: variables })
}

/// Expands bytes with the values of a `ShellMap` over the pairs of an `Env`.
pub fn shell_map(alloc: Global, source: &[u8], variables: &Env) -> Result<Vec<u8>, Error>
    ensures { IfSome (answer_of (λ output. output.items) result)
        (Answers source.now (by_question (first_value variables.now))) }
{
    any_map::filled_in(alloc, source, &ShellMap { map: variables })
}
