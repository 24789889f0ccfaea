//! Laws of the maps' look-ups. Each is the contract of an empty function.

ghost use Rattle.std.specs.Prelude.{◌≡◌};
ghost use Rattle.std.specs.Option.{option_or};
ghost use Rattle.subst_language.specs.Calls.VariableMap.{ReadsAs};
ghost use Rattle.subst_language.specs.Language.LookUp.{LookUp};
ghost use Rattle.subst_language.specs.Maps.{AreReadAs, without_empty};

use crate::{BytesMap, Env, Layered, NeverValue, NoEmpty, NoSubstitution, OneOf, VariableMap};
use indexmap::IndexMap;
use std::collections::{BTreeMap, HashMap};
use std::convert::{AsSlice, AsStr};
use std::hash::BuildHasher;

/// The law of maps of bytes. Contracts identify each value of a map with something that has the same bytes.
/// This holds for `Env`, for `NoSubstitution`, which has no values, and for each `BTreeMap`, `HashMap` or
/// `IndexMap` whose values can be borrowed as bytes.
pub fn maps_are_look_ups<'a, 'k, V: AsSlice<u8> + 'a, S: BuildHasher>()
    ensures btree_map { ReadsAs ⟦<&'a V as AsSlice<u8>>⟧.items
        ⟦<BTreeMap<String, V> as VariableMap<'a>>⟧.see V.items }
    ensures btree_map_of_borrowed { ReadsAs ⟦<&'a V as AsSlice<u8>>⟧.items
        ⟦<BTreeMap<&'k str, V> as VariableMap<'a>>⟧.see V.items }
    ensures hash_map { ReadsAs ⟦<&'a V as AsSlice<u8>>⟧.items
        ⟦<HashMap<String, V, S> as VariableMap<'a>>⟧.see V.items }
    ensures hash_map_of_borrowed { ReadsAs ⟦<&'a V as AsSlice<u8>>⟧.items
        ⟦<HashMap<&'k str, V, S> as VariableMap<'a>>⟧.see V.items }
    ensures index_map { ReadsAs ⟦<&'a V as AsSlice<u8>>⟧.items
        ⟦<IndexMap<String, V, S> as VariableMap<'a>>⟧.see V.items }
    ensures index_map_of_borrowed { ReadsAs ⟦<&'a V as AsSlice<u8>>⟧.items
        ⟦<IndexMap<&'k str, V, S> as VariableMap<'a>>⟧.see V.items }
    ensures no_substitution { ReadsAs ⟦<NeverValue as AsSlice<u8>>⟧.items
        ⟦<NoSubstitution as VariableMap<'a>>⟧.see (λ bytes. bytes) }
    ensures env { ReadsAs ⟦<&'a str as AsSlice<u8>>⟧.items
        ⟦<Env as VariableMap<'a>>⟧.see (λ bytes. bytes) }
{}

/// The law of maps of texts. Contracts identify each value of a map with something that has the same text.
/// This holds for `Env`, for `NoSubstitution`, and for each `BTreeMap`, `HashMap` or `IndexMap` whose values
/// can be borrowed as texts.
pub fn maps_are_look_ups_of_texts<'a, 'k, V: AsStr + 'a, S: BuildHasher>()
    ensures btree_map { ReadsAs ⟦<&'a V as AsStr>⟧.text
        ⟦<BTreeMap<String, V> as VariableMap<'a>>⟧.see V.text }
    ensures btree_map_of_borrowed { ReadsAs ⟦<&'a V as AsStr>⟧.text
        ⟦<BTreeMap<&'k str, V> as VariableMap<'a>>⟧.see V.text }
    ensures hash_map { ReadsAs ⟦<&'a V as AsStr>⟧.text
        ⟦<HashMap<String, V, S> as VariableMap<'a>>⟧.see V.text }
    ensures hash_map_of_borrowed { ReadsAs ⟦<&'a V as AsStr>⟧.text
        ⟦<HashMap<&'k str, V, S> as VariableMap<'a>>⟧.see V.text }
    ensures index_map { ReadsAs ⟦<&'a V as AsStr>⟧.text
        ⟦<IndexMap<String, V, S> as VariableMap<'a>>⟧.see V.text }
    ensures index_map_of_borrowed { ReadsAs ⟦<&'a V as AsStr>⟧.text
        ⟦<IndexMap<&'k str, V, S> as VariableMap<'a>>⟧.see V.text }
    ensures no_substitution { ReadsAs ⟦<NeverValue as AsStr>⟧.text
        ⟦<NoSubstitution as VariableMap<'a>>⟧.see (λ bytes. bytes) }
    ensures env { ReadsAs ⟦<&'a str as AsStr>⟧.text
        ⟦<Env as VariableMap<'a>>⟧.see (λ bytes. bytes) }
{}

/// The law of two maps of bytes in layers. If both maps are look-ups of bytes, so is their [`Layered`] map.
/// The bytes for a name are those of the first map's value, or else of the second's.
pub fn layers_are_look_ups<'a, M: VariableMap<'a> + 'a, N: VariableMap<'a> + 'a>()
where
    M::Value: AsSlice<u8>,
    N::Value: AsSlice<u8>,
    ensures layered { (look : M → LookUp) (other : N → LookUp)
        → AreReadAs M.Value.items M.see M.look_up look
        → AreReadAs N.Value.items N.see N.look_up other
        → AreReadAs ⟦<OneOf<M::Value, N::Value> as AsSlice<u8>>⟧.items
        ⟦<Layered<'a, M, N> as VariableMap<'a>>⟧.see
        ⟦<Layered<'a, M, N> as VariableMap<'a>>⟧.look_up
        (λ map name. option_or (look map.first.now name) (other map.second.now name)) }
{}

/// The law of two maps of texts in layers. If both maps are look-ups of texts, so is their [`Layered`] map.
/// The text for a name is that of the first map's value, or else of the second's.
pub fn layers_are_look_ups_of_texts<'a, M: VariableMap<'a> + 'a, N: VariableMap<'a> + 'a>()
where
    M::Value: AsStr,
    N::Value: AsStr,
    ensures layered { (look : M → LookUp) (other : N → LookUp)
        → AreReadAs M.Value.text M.see M.look_up look
        → AreReadAs N.Value.text N.see N.look_up other
        → AreReadAs ⟦<OneOf<M::Value, N::Value> as AsStr>⟧.text
        ⟦<Layered<'a, M, N> as VariableMap<'a>>⟧.see
        ⟦<Layered<'a, M, N> as VariableMap<'a>>⟧.look_up
        (λ map name. option_or (look map.first.now name) (other map.second.now name)) }
{}

/// The law of maps of bytes without empty values. For each name, `NoEmpty` has the bytes of the value in its
/// map, or `None` if that value is empty.
pub fn filled_maps_are_look_ups<'a, M: BytesMap<'a> + 'a>()
where
    M::Value: AsSlice<u8> + Drop,
    ensures no_empty { AreReadAs M.Value.items ⟦<NoEmpty<'a, M> as VariableMap<'a>>⟧.see
        ⟦<NoEmpty<'a, M> as VariableMap<'a>>⟧.look_up
        (λ map. without_empty (M.look_up_bytes map.map.now)) }
{}

/// The law of maps of texts without empty values. For each name, `NoEmpty` has the text of the value in its
/// map, or `None` if that text is empty. The bytes of each value have to be those of its text.
pub fn filled_maps_are_look_ups_of_texts<'a, M: BytesMap<'a> + 'a>()
where
    M::Value: AsSlice<u8> + AsStr + Drop,
    ensures no_empty { ((v : M.Value) → M.Value.text v ≡ M.Value.items v)
        → AreReadAs M.Value.text ⟦<NoEmpty<'a, M> as VariableMap<'a>>⟧.see
        ⟦<NoEmpty<'a, M> as VariableMap<'a>>⟧.look_up
        (λ map. without_empty (M.look_up_bytes map.map.now)) }
{}
