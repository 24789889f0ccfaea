//! `ShellMap`, the map for templates of shell-style texts.

ghost use Rattle.std.specs.Prelude.{◌≡◌};
ghost use Rattle.std.specs.Option.{option_map};
ghost use Rattle.subst_foreign.specs.Question as question;
ghost use Rattle.subst_language.specs.Maps.{of_one, without_empty};

use std::convert::AsSlice;
use subst_language::{BytesMap, OneOf, VariableMap};

/// A map for templates of shell-style texts. A name that begins with the digit 1, 2 or 3 is a question about
/// the variable whose name follows the digit.
///
/// - `1X` is the value of `X`, even if it is empty.
/// - `2X` is empty if `X` is unset, and unset otherwise.
/// - `3X` is empty if `X` is unset or empty, and unset otherwise.
/// - Any other name has its value, but is unset if the value is empty.
///
/// ```rust
/// let mut variables = BTreeMap::new(alloc);
/// variables.insert("name", "")?;
/// let shell = ShellMap { map: &variables };
/// let output = substitute(alloc, "${name:a}, ${1name:b}, ${3name:c}, ${2name:d}", &shell)?;
/// // a, , , d
/// ```
#[derive(Debug)]
#[derive_where(Clone, Copy)]
pub struct ShellMap<'a, M> {
    pub map: &'a M,
}

/// Looks up the answer if the name is a question. Any other name has its value, unless that value is empty.
impl<'a, M: BytesMap<'a>> VariableMap<'a> for ShellMap<'a, M>
where
    M::Value: AsSlice<u8> + Drop,
{
    ghost use Rattle.std.specs.Prelude.{ℕ, List};
    ghost use Rattle.subst_foreign.specs.Question.{by_question};
    ghost use Rattle.subst_language.specs.Maps.{of_one};

    type Value = OneOf<M::Value, &'a str>;

    ghost Seen = { List ℕ };

    ghost see = { of_one M.Value.items (λ text. text.now) };

    ghost look_up = { λ self. by_question (M.look_up_bytes self.map.now) };

    #[tactic(auto, using(crate::proofs::QuestionLemmas::no_question))]
    fn get(&'a self, key: &str) -> Option<OneOf<M::Value, &'a str>> {
        if let Some(name) = key.strip_prefix('1') {
            return Some(OneOf::First(value_of(self.map, name)?));
        }
        if let Some(name) = key.strip_prefix('2') {
            return negated(value_of(self.map, name));
        }
        if let Some(name) = key.strip_prefix('3') {
            return negated(filled_value_of(self.map, name));
        }
        Some(OneOf::First(filled_value_of(self.map, key)?))
    }
}

/// Looks up the bytes of the answer if the name is a question. Any other name has the bytes of its value,
/// unless that value is empty.
impl<'a, M: BytesMap<'a>> BytesMap<'a> for ShellMap<'a, M>
where
    M::Value: AsSlice<u8> + Drop,
{
    ghost use Rattle.std.proofs.Common.{refl, sym};
    ghost use Rattle.std.proofs.lemmas.Iterator.Adapters.{option_map_id};
    ghost use Rattle.subst_foreign.specs.Question.{by_question};

    ghost look_up_bytes = { λ self. by_question (M.look_up_bytes self.map.now) };

    ghost reads = { ((λ bytes. bytes), (λ v. refl), (λ self name. sym (option_map_id _))) };
}

/// Returns the value of a name, or `None` if it is unset.
fn value_of<'a, M: BytesMap<'a>>(map: &'a M, name: &str) -> Option<M::Value>
where
    M::Value: AsSlice<u8> + Drop,
    ensures { option_map M.Value.items result ≡ M.look_up_bytes map.now name.now }
{
    map.get(name)
}

/// Returns the value of a name, or `None` if it is unset or empty.
fn filled_value_of<'a, M: BytesMap<'a>>(map: &'a M, name: &str) -> Option<M::Value>
where
    M::Value: AsSlice<u8> + Drop,
    ensures { option_map M.Value.items result ≡ without_empty (M.look_up_bytes map.now) name.now }
{
    let value = map.get(name)?;
    if value.as_slice().is_empty() {
        None
    } else {
        Some(value)
    }
}

/// Returns the empty text if there is no value, and `None` otherwise.
fn negated<'a, V: AsSlice<u8> + Drop>(value: Option<V>) -> Option<OneOf<V, &'a str>>
    ensures { option_map (of_one V.items (λ text. text.now)) result
        ≡ question.negated (option_map V.items value) }
{
    match value {
        Some(_) => None,
        None => Some(OneOf::Second("")),
    }
}
