//! Sources without variables.

ghost use Rattle.std.specs.Prelude.{◌≡◌, IfSome, string_bytes};
ghost use Rattle.std.specs.List.{All};
ghost use Rattle.std.specs.BTreeMap.{get_by_text};
ghost use Rattle.std.specs.Option.{option_map};
ghost use Rattle.subst.specs.Language.Bytes.{IsPlain};
ghost use Rattle.subst.specs.Language.Answer.{Answers, Gives};
ghost use Rattle.subst.specs.Calls.VariableMap.{ByLookUp};
ghost use Rattle.subst.specs.Calls.Outcome.{answer_of};

use std::alloc::Global;
use std::collections::BTreeMap;
use std::convert::AsSlice;
use subst::{Error, VariableMap, laws, substitute_bytes, substitute_bytes_owned, substitute_owned};

/// Expands a source without dollars and backslashes. The output is the source, for every map.
///
/// # Errors
///
/// If allocation fails.
pub fn unchanged<'a, M: VariableMap<'a>>(
    alloc: Global,
    source: &[u8],
    variables: &'a M,
) -> Result<Vec<u8>, Error>
where
    M::Value: AsSlice<u8> + Drop,
    requires { All IsPlain source.now }
    ensures { ByLookUp M.Value.items M.see (M.look_up variables.now)
        (λ _. IfSome (answer_of (λ output. output.items) result)
        (λ answer. answer ≡ Gives source.now)) }
{
    laws::law_8();
    substitute_bytes(alloc, source, variables)
}

/// Expands an owned source without dollars and backslashes, and returns it. This can't fail, so there is no
/// error.
pub fn handed_back<'a, M: VariableMap<'a>>(
    alloc: Global,
    source: Vec<u8>,
    variables: &'a M,
) -> Vec<u8>
where
    M::Value: AsSlice<u8> + Drop,
    requires { All IsPlain source.items }
    ensures { result ≡ source }
{
    match substitute_bytes_owned(alloc, source, variables) {
        Ok(output) => output,
        Err(_) => unreachable!(),
    }
}

/// Expands an owned page. It isn't copied if it has nothing to expand.
///
/// # Errors
///
/// As `substitute`.
pub fn page(
    alloc: Global,
    source: String,
    variables: &BTreeMap<String, String>,
) -> Result<String, Error>
    ensures { IfSome (answer_of (λ output. string_bytes output) result)
        (Answers (string_bytes source)
        (λ name. option_map (λ v. string_bytes v) (get_by_text variables.now name))) }
{
    substitute_owned(alloc, source, variables)
}
