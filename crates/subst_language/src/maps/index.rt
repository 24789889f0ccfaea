//! `IndexMap` as a map of variables, with owned or borrowed keys.

ghost use Rattle.std.specs.Prelude.{◌≡◌, refl};
ghost use Rattle.subst_language.specs.Calls.VariableMap.{look_up_of};

use crate::{BytesMap, VariableMap};
use indexmap::IndexMap;
use std::convert::AsSlice;
use std::hash::BuildHasher;

/// A variable's value is a reference to the map's value under its name.
impl<'a, V: 'a, S: BuildHasher> VariableMap<'a> for IndexMap<String, V, S> {
    ghost use Rattle.indexmap.specs.IndexMap.{get_by_text};

    type Value = &'a V;

    ghost Seen = { V };

    ghost see = { λ v. v.now };

    ghost look_up = { get_by_text };

    fn get(&'a self, key: &str) -> Option<&'a V> {
        self.get(key)
    }
}

/// A variable's value is a reference to the map's value under its name.
impl<'a, 'k, V: 'a, S: BuildHasher> VariableMap<'a> for IndexMap<&'k str, V, S> {
    ghost use Rattle.subst_language.specs.Maps.{hash_get_by_borrowed_text};

    type Value = &'a V;

    ghost Seen = { V };

    ghost see = { λ v. v.now };

    ghost look_up = { hash_get_by_borrowed_text };

    fn get(&'a self, name: &str) -> Option<&'a V> {
        self.get(name)
    }
}

/// The bytes of a variable's value are those of the map's value under its name.
impl<'a, V: AsSlice<u8> + 'a, S: BuildHasher> BytesMap<'a> for IndexMap<String, V, S> {
    ghost use Rattle.indexmap.specs.IndexMap.{get_by_text};

    ghost look_up_bytes = { λ self. look_up_of V.items (get_by_text self) };

    ghost reads = { (V.items, (λ v. refl), (λ self name. refl)) };
}

/// The bytes of a variable's value are those of the map's value under its name.
impl<'a, 'k, V: AsSlice<u8> + 'a, S: BuildHasher> BytesMap<'a> for IndexMap<&'k str, V, S> {
    ghost use Rattle.subst_language.specs.Maps.{hash_get_by_borrowed_text};

    ghost look_up_bytes = { λ self. look_up_of V.items (hash_get_by_borrowed_text self) };

    ghost reads = { (V.items, (λ v. refl), (λ self name. refl)) };
}
