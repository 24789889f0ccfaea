//! A greeting, expanded from a map with one variable. The contract of `greet` states the output.

ghost use Rattle.std.specs.Prelude.{◌≡◌, ◌++◌, None, codes, IfErr, IfOk, string_bytes};
ghost use Rattle.subst.specs.ErrorFault.{error_fault};

use std::alloc::Global;
use subst::{Error, VariableMap, substitute};

/// A map with the variable `name`.
#[derive(Drop)]
pub struct Guest<'g> {
    pub name: &'g str,
}

impl<'a> VariableMap<'a> for Guest<'a> {
    ghost use Rattle.std.specs.Prelude.{ℕ, List, Some, None, if◌then◌else◌, bytes_eq};

    type Value = &'a str;

    ghost Seen = { List ℕ };

    ghost see = { λ v. v.now };

    ghost look_up = { λ self key.
        if bytes_eq key (codes "name") then Some self.name.now else None };

    fn get(&'a self, key: &str) -> Option<&'a str> {
        if key == "name" { Some(self.name) } else { None }
    }
}

/// Returns `Hello`, a space, the guest's name and an exclamation mark.
///
/// # Errors
///
/// If allocation fails.
pub fn greet(alloc: Global, guest: &Guest<'_>) -> Result<String, Error>
    ensures ok { IfOk result (λ greeting. string_bytes greeting
        ≡ codes "Hello " ++ (guest.now.name.now ++ codes "!")) }
    ensures err { IfErr result (λ e. error_fault e ≡ None) }
{
    substitute(alloc, "Hello $name!", guest)
}
