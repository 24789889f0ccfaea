//! The choice of names that are variables in texts of other tools.

ghost use Rattle.std.specs.Prelude.{◌≡◌, ◌↔◌, ◌++◌, ℕ, IsTrue, List};
ghost use Rattle.std.specs.List.{All};
ghost use Rattle.subst.specs.Language.Bytes.{dollar};
ghost use Rattle.subst_language.specs.Language.Name.{IsName};
ghost use Rattle.subst_expander.specs.Fill.{BeginsWithOne};
ghost use Rattle.subst_expander.specs.Layers.{IsKnownBy};

use crate::kinds::{Choice, Chosen};
use crate::layers::Variables;
use memchr::memchr;
use subst::foreign::{Names, Style};

/// A choice of names, and the variables on which `Choice::Known` depends.
#[derive(Clone, Copy)]
pub struct ChosenNames<'r, 'w, 'v> {
    pub choice: &'r Choice<'w>,
    /// The variables that are set, or `None` if no name is treated as set.
    pub variables: Option<&'r Variables<'v>>,
}

impl Names for ChosenNames<'_, '_, '_> {
    ghost use Rattle.subst_expander.specs.Fill.{all_of, has_in};

    ghost all = { λ names. all_of names.choice.now };

    ghost counts = { λ names. has_in names.choice.now names.variables };

    fn are_all(&self) -> bool {
        matches!(self.choice, Choice::All)
    }

    fn has(&self, name: &[u8], operated: bool) -> bool {
        match self.choice {
            Choice::All => true,
            Choice::Only(names, starts) => names.has(name, operated)
                || begins_with_one(name, starts),
            Choice::Known => operated || is_known(self.variables, name),
        }
    }
}

/// Returns whether a name begins with one of these starts.
fn begins_with_one(name: &[u8], starts: &[&str]) -> bool
    ensures { IsTrue result ↔ BeginsWithOne starts.now name.now }
{
    for start in starts {
        if begins_with(name, start) {
            return true;
        }
    }
    false
}

/// Returns whether a name begins with `start`.
fn begins_with(name: &[u8], start: &str) -> bool
    ensures { IsTrue result ↔ ((rest : List ℕ) × (name.now ≡ start.now ++ rest)) }
{
    match name.strip_prefix(start.as_bytes()) {
        Some(_) => true,
        None => false,
    }
}

/// Returns whether a name is set in `variables`, or `false` if there are none.
fn is_known(variables: Option<&Variables<'_>>, name: &[u8]) -> bool
    requires { IsName name.now }
    ensures { IsTrue result ↔ IsKnownBy variables.entry name.now }
{
    let Some(variables) = variables else {
        return false;
    };
    let Ok(name) = str::from_utf8(name) else {
        return false;
    };
    variables.has(name)
}

/// Returns a style with these names. Its forms and its expansion of unset variables are those of `chosen`.
pub fn style_of<'n, 'r, 'w, 'v>(
    chosen: &Chosen<'w>,
    names: &'n ChosenNames<'r, 'w, 'v>,
) -> Style<'n, ChosenNames<'r, 'w, 'v>>
    ensures forms { result.forms ≡ chosen.now.forms }
    ensures names { result.names ≡ names.entry }
    ensures missing { result.missing ≡ chosen.now.missing }
{
    Style {
        forms: chosen.forms,
        names,
        missing: chosen.missing,
    }
}

/// Returns whether a text has no dollar, and so no variable.
pub fn has_no_dollar(text: &[u8]) -> bool
    ensures { IsTrue result → All (λ b. ¬ (b ≡ dollar)) text.now }
{
    memchr(b'$', text).is_none()
}
