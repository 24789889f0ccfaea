//! A map that computes its values: the colours of a terminal.

ghost use Rattle.std.specs.Prelude.{◌≡◌, ◌++◌, codes, IfOk, IfSome};
ghost use Rattle.std.specs.Option.{option_map};
ghost use Rattle.subst.specs.Language.Answer.{Answers};
ghost use Rattle.subst.specs.Calls.Outcome.{answer_of};
ghost use Rattle.subst_uses.specs.Colours.{code_of, coded, colours_of};

use crate::memory;
use std::alloc::{AllocError, Global};
use subst::{Error, VariableMap, substitute_bytes};

/// A map with the variables `red`, `bold` and `reset`. Their values are escape codes of a terminal, or empty
/// if colours are off.
pub struct Colours {
    pub on: bool,
}

impl<'a> VariableMap<'a> for Colours {
    ghost use Rattle.std.specs.Prelude.{ℕ, List};

    type Value = &'static [u8];

    ghost Seen = { List ℕ };

    ghost see = { λ v. v.now };

    ghost look_up = { λ self. colours_of self.on };

    fn get(&'a self, key: &str) -> Option<&'static [u8]> {
        let code = code(key)?;
        if self.on { Some(code) } else { Some(b"") }
    }
}

/// Returns the terminal's escape code for a variable, or `None` if there is no such variable.
fn code(name: &str) -> Option<&'static [u8]>
    ensures { option_map (λ v. v.now) result ≡ code_of name.now }
{
    if name == "red" {
        Some(b"\x1B[31m")
    } else if name == "bold" {
        Some(b"\x1B[1m")
    } else if name == "reset" {
        Some(b"\x1B[0m")
    } else {
        None
    }
}

/// Expands a source with the colours as variables.
///
/// # Errors
///
/// As `substitute_bytes`. `NoSuchVariable` for any other variable without a default.
pub fn coloured(alloc: Global, source: &[u8], colours: &Colours) -> Result<Vec<u8>, Error>
    ensures { IfSome (answer_of (λ output. output.items) result)
        (Answers source.now (colours_of colours.now.on)) }
{
    substitute_bytes(alloc, source, colours)
}

/// Returns `Warning: `, in red if colours are on.
///
/// # Errors
///
/// If allocation fails.
pub fn warning(alloc: Global, colours: &Colours) -> Result<Vec<u8>, AllocError>
    ensures { IfOk result (λ output. output.items ≡ coded colours.now.on (codes "[31m")
        ++ (codes "Warning: " ++ coded colours.now.on (codes "[0m"))) }
{
    match coloured(alloc, b"${red}Warning: $reset", colours) {
        Ok(output) => Ok(output),
        Err(e) => Err(memory::of_substituting(e)),
    }
}
