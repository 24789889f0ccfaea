//! Texts expanded from each kind of map. Contracts state the look-up of the map.

ghost use Rattle.std.specs.Prelude.{IfSome, string_bytes};
ghost use Rattle.std.specs.Option.{option_map, option_or};
ghost use Rattle.std.specs.BTreeMap.{get_by_text as btree_get_by_text};
ghost use Rattle.std.specs.HashMap.{get_by_text as hash_get_by_text};
ghost use Rattle.subst.specs.Language.Answer.{Answers};
ghost use Rattle.subst.specs.Calls.Maps.{first_value, btree_get_by_borrowed_text, hash_get_by_borrowed_text, without_empty};
ghost use Rattle.subst.specs.Calls.Outcome.{answer_of};
ghost use Rattle.subst.specs.Question.{by_question};

use indexmap::IndexMap;
use std::alloc::Global;
use std::collections::{BTreeMap, HashMap};
use std::convert::AsStr;
use std::hash::BuildHasher;
use subst::{Env, Error, Layered, NoEmpty, NoSubstitution, ShellMap, laws, substitute};

/// Expands a text with the values of a `BTreeMap`.
pub fn btree_map<V: AsStr>(
    alloc: Global,
    source: &str,
    variables: &BTreeMap<String, V>,
) -> Result<String, Error>
    ensures { IfSome (answer_of (λ output. string_bytes output) result)
        (Answers source.now (λ name. option_map V.text (btree_get_by_text variables.now name))) }
{
    substitute(alloc, source, variables)
}

/// Expands a text with the values of a `BTreeMap` with borrowed keys.
pub fn btree_map_of_borrowed<V: AsStr>(
    alloc: Global,
    source: &str,
    variables: &BTreeMap<&str, V>,
) -> Result<String, Error>
    ensures { IfSome (answer_of (λ output. string_bytes output) result)
        (Answers source.now
        (λ name. option_map V.text (btree_get_by_borrowed_text variables.now name))) }
{
    substitute(alloc, source, variables)
}

/// Expands a text with the values of a `HashMap`.
pub fn hash_map<V: AsStr, S: BuildHasher>(
    alloc: Global,
    source: &str,
    variables: &HashMap<String, V, S>,
) -> Result<String, Error>
    ensures { IfSome (answer_of (λ output. string_bytes output) result)
        (Answers source.now (λ name. option_map V.text (hash_get_by_text variables.now name))) }
{
    substitute(alloc, source, variables)
}

/// Expands a text with the values of a `HashMap` with borrowed keys.
pub fn hash_map_of_borrowed<V: AsStr, S: BuildHasher>(
    alloc: Global,
    source: &str,
    variables: &HashMap<&str, V, S>,
) -> Result<String, Error>
    ensures { IfSome (answer_of (λ output. string_bytes output) result)
        (Answers source.now
        (λ name. option_map V.text (hash_get_by_borrowed_text variables.now name))) }
{
    substitute(alloc, source, variables)
}

/// Expands a text with the values of an `IndexMap`.
pub fn index_map<V: AsStr, S: BuildHasher>(
    alloc: Global,
    source: &str,
    variables: &IndexMap<String, V, S>,
) -> Result<String, Error>
    ensures { IfSome (answer_of (λ output. string_bytes output) result)
        (Answers source.now (λ name. option_map V.text (hash_get_by_text variables.now name))) }
{
    substitute(alloc, source, variables)
}

/// Expands a text with the values of an `IndexMap` with borrowed keys.
pub fn index_map_of_borrowed<V: AsStr, S: BuildHasher>(
    alloc: Global,
    source: &str,
    variables: &IndexMap<&str, V, S>,
) -> Result<String, Error>
    ensures { IfSome (answer_of (λ output. string_bytes output) result)
        (Answers source.now
        (λ name. option_map V.text (hash_get_by_borrowed_text variables.now name))) }
{
    substitute(alloc, source, variables)
}

/// Expands a text with every variable unset, so that every default is used.
pub fn no_substitution(alloc: Global, source: &str) -> Result<String, Error>
    ensures { IfSome (answer_of (λ output. string_bytes output) result)
        (Answers source.now (λ _. None)) }
{
    substitute(alloc, source, &NoSubstitution)
}

/// Expands a text with the pairs of an `Env`.
pub fn env(alloc: Global, source: &str, variables: &Env) -> Result<String, Error>
    ensures { IfSome (answer_of (λ output. string_bytes output) result)
        (Answers source.now (first_value variables.now)) }
{
    substitute(alloc, source, variables)
}

/// Expands a text with the pairs of an `Env`. A name that no pair sets is looked up in `defaults`.
pub fn layered<V: AsStr>(
    alloc: Global,
    source: &str,
    pairs: &Env,
    defaults: &BTreeMap<String, V>,
) -> Result<String, Error>
    ensures { IfSome (answer_of (λ output. string_bytes output) result)
        (Answers source.now (λ name. option_or (first_value pairs.now name)
        (option_map V.text (btree_get_by_text defaults.now name)))) }
{
    laws::layers_are_look_ups_of_texts::<Env, BTreeMap<String, V>>();
    let layers = Layered {
        first: pairs,
        second: defaults,
    };
    substitute(alloc, source, &layers)
}

/// Expands a text with the pairs of an `Env`, and treats empty values as unset.
pub fn no_empty(alloc: Global, source: &str, variables: &Env) -> Result<String, Error>
    ensures { IfSome (answer_of (λ output. string_bytes output) result)
        (Answers source.now (without_empty (first_value variables.now))) }
{
    substitute(alloc, source, &NoEmpty { map: variables })
}

/// Expands a text with the values of a `ShellMap` over the pairs of an `Env`.
pub fn shell_map(alloc: Global, source: &str, variables: &Env) -> Result<String, Error>
    ensures { IfSome (answer_of (λ output. string_bytes output) result)
        (Answers source.now (by_question (first_value variables.now))) }
{
    substitute(alloc, source, &ShellMap { map: variables })
}
