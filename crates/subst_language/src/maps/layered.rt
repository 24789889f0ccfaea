//! `Layered`: two maps as one. The two may have values of different types.

ghost use Rattle.std.specs.Prelude.{◌≡◌};
ghost use Rattle.subst_language.specs.Maps.{of_one};

use crate::{BytesMap, VariableMap};
use std::convert::{AsSlice, AsStr};

/// A value of a [`Layered`] map: of its first map or of its second.
#[derive(Debug, Drop)]
pub enum OneOf<A, B> {
    First(A),
    Second(B),
}

impl<A: AsStr, B: AsStr> AsStr for OneOf<A, B> {
    ghost text = { of_one A.text B.text };

    fn as_str(&self) -> &str {
        match self {
            OneOf::First(value) => value.as_str(),
            OneOf::Second(value) => value.as_str(),
        }
    }
}

impl<A: AsSlice<u8>, B: AsSlice<u8>> AsSlice<u8> for OneOf<A, B> {
    ghost items = { of_one A.items B.items };

    fn as_slice(&self) -> &[u8] {
        match self {
            OneOf::First(value) => value.as_slice(),
            OneOf::Second(value) => value.as_slice(),
        }
    }
}

/// Two maps as one: the first takes precedence over the second.
///
/// ```rust
/// let mut pairs = Vec::new(alloc);
/// pairs.push((String::from_str(alloc, "name")?, String::from_str(alloc, "world")?))?;
/// let given = Env::from_pairs(pairs);
/// let mut defaults = BTreeMap::new(alloc);
/// defaults.insert("greeting", "Hello")?;
/// let layers = Layered { first: &given, second: &defaults };
/// let output = substitute(alloc, "$greeting $name!", &layers)?;
/// // Hello world!
/// ```
#[derive(Debug)]
#[derive_where(Clone, Copy)]
pub struct Layered<'a, M, N> {
    pub first: &'a M,
    pub second: &'a N,
}

/// The first map's value for the name, or else the second's. The second map is searched only if the first has
/// no value.
impl<'a, M: VariableMap<'a>, N: VariableMap<'a>> VariableMap<'a> for Layered<'a, M, N> {
    ghost use Rattle.std.specs.Prelude.{◌⊎◌};
    ghost use Rattle.std.proofs.Common.{inl, inr};
    ghost use Rattle.subst_language.specs.Maps.{layered};

    type Value = OneOf<M::Value, N::Value>;

    ghost Seen = { M.Seen ⊎ N.Seen };

    ghost see = { of_one (λ a. inl (M.see a)) (λ b. inr (N.see b)) };

    ghost look_up = { λ self. layered (M.look_up self.first.now) (N.look_up self.second.now) };

    fn get(&'a self, key: &str) -> Option<OneOf<M::Value, N::Value>> {
        match self.first.get(key) {
            Some(value) => Some(OneOf::First(value)),
            None => match self.second.get(key) {
                Some(value) => Some(OneOf::Second(value)),
                None => None,
            },
        }
    }
}

/// The bytes of the first map's value for the name, or else those of the second's.
impl<'a, M: BytesMap<'a>, N: BytesMap<'a>> BytesMap<'a> for Layered<'a, M, N>
where
    M::Value: AsSlice<u8>,
    N::Value: AsSlice<u8>,
{
    ghost use Rattle.std.specs.Option.{option_or};
    ghost use Rattle.subst_language.specs.LayeredLemmas.{layers_are_read_as};

    ghost look_up_bytes = { λ self name.
        option_or (M.look_up_bytes self.first.now name) (N.look_up_bytes self.second.now name) };

    ghost reads = { layers_are_read_as M.Value.items N.Value.items M.see N.see M.look_up N.look_up
        M.look_up_bytes N.look_up_bytes (λ self. self.first.now) (λ self. self.second.now)
        M.reads N.reads };
}
