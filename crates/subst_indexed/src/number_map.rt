//! Maps from names to their numbers.

ghost use Rattle.std.specs.Prelude.{◌≡◌, IfOk, List, OnOk, Some, ℕ, if◌then◌else◌};
ghost use Rattle.std.specs.Str.{bytes_eq};
ghost use Rattle.subst_indexed.specs.Names.{AreDistinct, HasNumbers, name_bytes, number_in};

use crate::names::{Name, index_as_u32};
use std::alloc::{AllocError, Global};
use std::collections::BTreeMap;

/// The numbers of names, by name. The map is sorted, not hashed, so no set of names makes it slow.
pub(crate) type NumberMap<'s> = BTreeMap<&'s [u8], u32>;

/// Creates the map of names to their indices in the list.
///
/// # Errors
///
/// If allocation fails.
pub(crate) fn map_of<'s>(alloc: Global, names: &[Name<'s>]) -> Result<NumberMap<'s>, AllocError>
    requires { AreDistinct (name_bytes names.now) }
    ensures { IfOk result (λ map. HasNumbers map (name_bytes names.now)) }
{
    let mut map = BTreeMap::new(alloc);
    for (index, name) in names.iter().enumerate() {
        insert(&mut map, name.bytes, index_as_u32(index)?)?;
    }
    Ok(map)
}

/// Inserts a name and its number.
///
/// # Errors
///
/// If allocation fails.
pub(crate) fn insert<'s>(
    map: &mut NumberMap<'s>,
    name: &'s [u8],
    number: u32,
) -> Result<(), AllocError>
    ensures { OnOk result ((other : List ℕ) → number_in map.new other
        ≡ (if bytes_eq name.now other then Some number else number_in map.old other)) }
{
    map.insert(name, number)?;
    Ok(())
}

/// Returns the number of a name, or `None` if the map doesn't have the name.
pub(crate) fn number_in(map: &NumberMap, name: &[u8]) -> Option<usize>
    ensures { result ≡ number_in map.now name.now }
{
    let number = map.get(name)?;
    Some(*number as usize)
}
