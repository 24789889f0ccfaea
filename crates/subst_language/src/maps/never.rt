//! `NoSubstitution`: the empty map.

ghost use Rattle.std.specs.Prelude.{◌≡◌};

use crate::{BytesMap, VariableMap};
use std::convert::{AsSlice, AsStr};

/// The empty map: every variable is unset, so every default applies.
#[derive(Clone, Copy, Debug)]
pub struct NoSubstitution;

/// The type of the values of [`NoSubstitution`], which has none. Nothing creates a value of this type.
#[derive(Debug, Drop)]
pub struct NeverValue {
    never_made: (),
}

impl AsStr for NeverValue {
    ghost use Rattle.std.specs.Prelude.{[]};

    ghost text = { λ _. [] };

    fn as_str(&self) -> &str {
        ""
    }
}

impl AsSlice<u8> for NeverValue {
    ghost use Rattle.std.specs.Prelude.{[]};

    ghost items = { λ _. [] };

    fn as_slice(&self) -> &[u8] {
        &[]
    }
}

/// `None` for every name.
impl<'a> VariableMap<'a> for NoSubstitution {
    ghost use Rattle.std.specs.Prelude.{ℕ, List, [], None};

    type Value = NeverValue;

    ghost Seen = { List ℕ };

    ghost see = { λ _. [] };

    ghost look_up = { λ _ _. None };

    fn get(&'a self, _key: &str) -> Option<NeverValue> {
        None
    }
}

/// `None` for every name.
impl<'a> BytesMap<'a> for NoSubstitution {
    ghost use Rattle.std.specs.Prelude.{None, refl};

    ghost look_up_bytes = { λ _ _. None };

    ghost reads = { ((λ bytes. bytes), (λ v. refl), (λ self name. refl)) };
}
