//! Conversion of a tree into a type of the caller's. The conversion gets only the tree, so no variable is in
//! its reach.

ghost use Rattle.serde_json.specs.Data.{Data};
ghost use Rattle.serde_json.specs.View.{view};
ghost use Rattle.serde_json.specs.declared.error.Error.{Error};
ghost use Rattle.std.specs.Prelude.{Result};

use serde::DeserializeOwned;
use serde_json::Value;
use std::alloc::Global;

/// A type that a tree can be converted into: any that `serde` deserializes.
pub trait FromTree: Sized + Drop {
    // The relation of a tree and the possible results of its conversion. For the types of `serde`, the
    // relation always holds, since nothing is known about the results. Even so, a contract with this relation
    // states which tree is converted, since the contract is proved for every relation.
    ghost reads: { Data → Result Self Error → Type 0 };

    /// Converts a tree, or returns an error if it doesn't fit this type.
    fn from_tree(alloc: Global, tree: Value) -> Result<Self, serde_json::Error>
        ensures read { reads (view tree) result };
}

impl<T: DeserializeOwned> FromTree for T {
    ghost reads = { λ _ _. Unit {0} };

    fn from_tree(alloc: Global, tree: Value) -> Result<T, serde_json::Error> {
        serde_json::from_value(alloc, tree)
    }
}
