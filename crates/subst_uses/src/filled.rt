//! Sources expanded from a `BTreeMap`, with one function for each type of value. Contracts state how the
//! values are read.

ghost use Rattle.std.specs.Prelude.{IfSome, string_bytes};
ghost use Rattle.std.specs.Option.{option_map};
ghost use Rattle.std.specs.BTreeMap.{get_by_text};
ghost use Rattle.subst.specs.Language.Answer.{Answers};
ghost use Rattle.subst.specs.Calls.Outcome.{answer_of};

use std::alloc::Global;
use std::collections::BTreeMap;
use std::convert::AsSlice;
use subst::{Error, substitute_bytes};

/// Expands a source with byte vectors as values.
pub fn by_vectors(
    alloc: Global,
    source: &[u8],
    variables: &BTreeMap<String, Vec<u8>>,
) -> Result<Vec<u8>, Error>
    ensures { IfSome (answer_of (λ output. output.items) result)
        (Answers source.now (λ name. option_map (λ v. v.items) (get_by_text variables.now name))) }
{
    substitute_bytes(alloc, source, variables)
}

/// Expands a source with byte slices as values.
pub fn by_slices(
    alloc: Global,
    source: &[u8],
    variables: &BTreeMap<String, &[u8]>,
) -> Result<Vec<u8>, Error>
    ensures { IfSome (answer_of (λ output. output.items) result)
        (Answers source.now (λ name. option_map (λ v. v.now) (get_by_text variables.now name))) }
{
    substitute_bytes(alloc, source, variables)
}

/// Expands a source with owned texts as values.
pub fn by_strings(
    alloc: Global,
    source: &[u8],
    variables: &BTreeMap<String, String>,
) -> Result<Vec<u8>, Error>
    ensures { IfSome (answer_of (λ output. output.items) result)
        (Answers source.now
        (λ name. option_map (λ v. string_bytes v) (get_by_text variables.now name))) }
{
    substitute_bytes(alloc, source, variables)
}

/// Expands a source with borrowed texts as values.
pub fn by_texts(
    alloc: Global,
    source: &[u8],
    variables: &BTreeMap<String, &str>,
) -> Result<Vec<u8>, Error>
    ensures { IfSome (answer_of (λ output. output.items) result)
        (Answers source.now (λ name. option_map (λ v. v.now) (get_by_text variables.now name))) }
{
    substitute_bytes(alloc, source, variables)
}

/// Expands a source with byte arrays as values.
pub fn by_arrays<const N: usize>(
    alloc: Global,
    source: &[u8],
    variables: &BTreeMap<String, [u8; N]>,
) -> Result<Vec<u8>, Error>
    ensures { IfSome (answer_of (λ output. output.items) result)
        (Answers source.now (get_by_text variables.now)) }
{
    substitute_bytes(alloc, source, variables)
}

/// Expands a source with values of any type that can be borrowed as bytes.
pub fn by_values<V: AsSlice<u8>>(
    alloc: Global,
    source: &[u8],
    variables: &BTreeMap<String, V>,
) -> Result<Vec<u8>, Error>
    ensures { IfSome (answer_of (λ output. output.items) result)
        (Answers source.now (λ name. option_map V.items (get_by_text variables.now name))) }
{
    substitute_bytes(alloc, source, variables)
}
