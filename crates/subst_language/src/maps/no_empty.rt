//! `NoEmpty`: a map whose empty values are unset.

ghost use Rattle.std.specs.Prelude.{◌≡◌};

use crate::{BytesMap, VariableMap};
use std::convert::AsSlice;

/// A map that treats empty values as unset, so that defaults apply.
///
/// ```rust
/// let mut variables = BTreeMap::new(alloc);
/// variables.insert("name", "")?;
/// let output = substitute(alloc, "Hello ${name:world}!", &NoEmpty { map: &variables })?;
/// // Hello world!
/// ```
#[derive(Debug)]
#[derive_where(Clone, Copy)]
pub struct NoEmpty<'a, M> {
    pub map: &'a M,
}

/// The value that `map` has for the name, or `None` if that value is empty.
impl<'a, M: BytesMap<'a>> VariableMap<'a> for NoEmpty<'a, M>
where
    M::Value: AsSlice<u8> + Drop,
{
    ghost use Rattle.std.specs.Prelude.{ℕ, List};
    ghost use Rattle.subst_language.specs.Maps.{without_empty};

    type Value = M::Value;

    ghost Seen = { List ℕ };

    ghost see = { M.Value.items };

    ghost look_up = { λ self. without_empty (M.look_up_bytes self.map.now) };

    fn get(&'a self, key: &str) -> Option<M::Value> {
        let value = self.map.get(key)?;
        if value.as_slice().is_empty() {
            None
        } else {
            Some(value)
        }
    }
}

/// The bytes of the value that `map` has for the name, or `None` if that value is empty.
impl<'a, M: BytesMap<'a>> BytesMap<'a> for NoEmpty<'a, M>
where
    M::Value: AsSlice<u8> + Drop,
{
    ghost use Rattle.std.proofs.Common.{refl, sym};
    ghost use Rattle.std.proofs.lemmas.Iterator.Adapters.{option_map_id};
    ghost use Rattle.subst_language.specs.Maps.{without_empty};

    ghost look_up_bytes = { λ self. without_empty (M.look_up_bytes self.map.now) };

    ghost reads = { ((λ bytes. bytes), (λ v. refl), (λ self name. sym (option_map_id _))) };
}
