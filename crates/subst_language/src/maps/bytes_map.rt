//! Maps of bytes.

use crate::VariableMap;
use std::convert::AsSlice;

/// A map of bytes: contracts can state the bytes of each value. The trait adds no method.
///
/// In contracts of code that is generic in the map, the map is a look-up of bytes. An implementation has two
/// ghost members:
///
/// - `look_up_bytes`: the look-up of the bytes of each variable's value.
/// - `reads`: a proof that `look_up_bytes` has the bytes of the values of `look_up`.
pub trait BytesMap<'a>: VariableMap<'a>
where
    Self::Value: AsSlice<u8>,
{
    ghost use Rattle.subst_language.specs.Language.LookUp.{LookUp};
    ghost use Rattle.subst_language.specs.Maps.{AreReadAs};

    ghost look_up_bytes: { Self → LookUp };

    ghost reads: { AreReadAs Self.Value.items Self.see Self.look_up look_up_bytes };
}
