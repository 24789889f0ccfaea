//! Maps from variable names to values: the trait `VariableMap` and its implementations.

ghost use Rattle.std.specs.Prelude.{◌≡◌, ℕ, List, Option};
ghost use Rattle.std.specs.Option.{option_map};

pub use bytes_map::BytesMap;
pub use env::Env;
pub use layered::{Layered, OneOf};
pub use never::{NeverValue, NoSubstitution};
pub use no_empty::NoEmpty;

mod btree;
mod bytes_map;
mod env;
mod hash;
mod index;
pub mod laws;
mod layered;
mod never;
mod no_empty;

/// A map from variable names to values.
///
/// In contracts, each value is identified with something of the type `Seen`. A reference is identified with
/// the value that it points to, as no contract states the reference's address. The map is a look-up: a
/// function from the bytes of a name to what the name's value is identified with, or to `None`. Infinitely
/// many names may have values. An implementation has three ghost members:
///
/// - `Seen`: the type of the things that values are identified with. If the bytes of a value don't follow
///   from what the value is identified with, contracts state no output under the map.
/// - `see`: the function from a value to what it is identified with.
/// - `look_up`: the look-up, as a function of the map and a name.
pub trait VariableMap<'a> {
    /// The type of the values that [`get`](VariableMap::get) returns.
    type Value;

    ghost Seen: { Type 0 };

    ghost see: { Self.Value → Seen };

    ghost look_up: { Self → List ℕ → Option Seen };

    /// Returns the value of the variable `key`, or `None` if the map has no value for this name.
    fn get(&'a self, key: &str) -> Option<Self::Value>
        ensures value { option_map see result ≡ look_up self.now key.now };
}
