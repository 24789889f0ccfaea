//! A law of the definitions that the contracts cite. The law is the contract of a function that does nothing.

ghost use Rattle.toml.specs.Data.{Data};
ghost use Rattle.subst_language.specs.Language.LookUp.{LookUp};
ghost use Rattle.subst_toml.specs.Laws.{IsMappedOrRefused};

/// The law of one outcome. Under each look-up, a tree is filled in as exactly one tree or refused for exactly
/// one fault, never both. So filling in a tree succeeds exactly if no string is refused, unless memory runs
/// out.
pub fn trees_have_one_outcome()
    ensures outcome { (look : LookUp) (d : Data) → IsMappedOrRefused look d }
{}
