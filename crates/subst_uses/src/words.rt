//! Escapes words that have to stay literal, on their own and between templates.

ghost use Rattle.std.specs.Prelude.{◌≡◌, ◌++◌, ℕ, List, IfOk, IfSome, codes, string_bytes};
ghost use Rattle.subst.specs.Language.Answer.{Answers, Gives};
ghost use Rattle.subst.specs.Calls.VariableMap.{ByLookUp};
ghost use Rattle.subst.specs.Calls.Outcome.{answer_of};
ghost use Rattle.subst_uses.specs.CommandLine.{texts_of};

use std::alloc::{AllocError, Global};
use std::collections::BTreeMap;
use std::convert::AsStr;
use subst::{Error, VariableMap, laws, substitute};

/// Escapes a text, and expands the result. The output is the text, for every map.
///
/// # Errors
///
/// If allocation fails.
pub fn escaped_and_filled_in<'a, M: VariableMap<'a>>(
    alloc: Global,
    text: &str,
    variables: &'a M,
) -> Result<String, Error>
where
    M::Value: AsStr + Drop,
    ensures { ByLookUp M.Value.text M.see (M.look_up variables.now)
        (λ _. IfSome (answer_of (λ output. string_bytes output) result)
        (λ answer. answer ≡ Gives text.now)) }
{
    laws::law_3();
    let source = laws::escaped(alloc, text)?;
    substitute(alloc, source.as_str(), variables)
}

/// Expands two templates, and returns their outputs with a literal word between them, all separated by
/// spaces.
///
/// # Errors
///
/// If a template is refused, its error. `OutOfMemory` if allocation fails.
pub fn around_word(
    alloc: Global,
    before: &str,
    word: &str,
    after: &str,
    variables: &BTreeMap<String, String>,
) -> Result<String, Error>
    ensures { (x y : List ℕ) → Answers before.now (texts_of variables.now) (Gives x)
        → Answers after.now (texts_of variables.now) (Gives y)
        → IfSome (answer_of (λ output. string_bytes output) result)
        (λ answer. answer ≡ Gives (x ++ (codes " " ++ (word.now ++ (codes " " ++ y))))) }
{
    laws::law_2();
    laws::law_3();
    let word = laws::escaped(alloc, word)?;
    let source = spaced(alloc, before, word.as_str(), after)?;
    substitute(alloc, source.as_str(), variables)
}

/// Returns three texts, separated by spaces.
fn spaced(alloc: Global, first: &str, second: &str, third: &str) -> Result<String, AllocError>
    ensures { IfOk result (λ text. string_bytes text
        ≡ first.now ++ (codes " " ++ (second.now ++ (codes " " ++ third.now)))) }
{
    let mut text = String::from_str(alloc, first)?;
    text.push_str(" ")?;
    text.push_str(second)?;
    text.push_str(" ")?;
    text.push_str(third)?;
    Ok(text)
}
