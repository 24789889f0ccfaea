//! `Env`: pairs of names and values, as a map of variables.

ghost use Rattle.std.specs.Prelude.{◌≡◌};

use crate::{BytesMap, VariableMap};
use std::marker::Model;

/// Pairs of names and values, like those of an environment. Of several pairs with the same name, the first
/// takes precedence.
///
/// Contracts see an `Env` as the list of its pairs, in order.
#[derive(Debug, Drop)]
pub struct Env {
    pairs: Vec<(String, String)>,
}

impl Model for Env {
    ghost use Rattle.std.specs.Prelude.{List, String};
    ghost use Rattle.std.specs.Global.{Global};

    ghost Value = { List (String Global × String Global) };

    ghost view = { λ env. env.pairs.items };
}

impl Env {
    /// Creates a map from pairs of names and values, without allocating.
    ///
    /// ```rust
    /// let mut pairs = Vec::new(alloc);
    /// pairs.push((String::from_str(alloc, "name")?, String::from_str(alloc, "world")?))?;
    /// let output = substitute(alloc, "Hello $name!", &Env::from_pairs(pairs))?;
    /// // Hello world!
    /// ```
    pub fn from_pairs(pairs: Vec<(String, String)>) -> Env
        ensures pairs { result ≡ pairs.items }
    {
        Env { pairs }
    }
}

/// The value of the first pair with the name. The search is linear.
impl<'a> VariableMap<'a> for Env {
    ghost use Rattle.std.specs.Prelude.{ℕ, List};
    ghost use Rattle.subst_language.specs.Maps.{first_value};

    type Value = &'a str;

    ghost Seen = { List ℕ };

    ghost see = { λ v. v.now };

    ghost look_up = { first_value };

    fn get(&'a self, key: &str) -> Option<&'a str> {
        let (_, value) = self.pairs.iter().find(|(name, _)| key == name.as_str())?;
        Some(value.as_str())
    }
}

/// The bytes of the value of the first pair with the name.
impl<'a> BytesMap<'a> for Env {
    ghost use Rattle.std.proofs.Common.{refl, sym};
    ghost use Rattle.std.proofs.lemmas.Iterator.Adapters.{option_map_id};
    ghost use Rattle.subst_language.specs.Maps.{first_value};

    ghost look_up_bytes = { first_value };

    ghost reads = { ((λ bytes. bytes), (λ v. refl), (λ self name. sym (option_map_id _))) };
}
