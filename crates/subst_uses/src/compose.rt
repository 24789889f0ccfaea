//! A text in the syntax of Docker Compose, expanded from the environment.

ghost use Rattle.std.specs.Prelude.{◌≡◌, Ok, IfErr, IfOk, string_bytes};
ghost use Rattle.subst.specs.Calls.Maps.{first_value};
ghost use Rattle.subst_uses.specs.Compose.{IsFaultOf, IsValueOf};
ghost use Rattle.subst_uses.specs.declared.compose.ComposeError.TheVariants as fault;

use std::alloc::Global;
use subst::foreign::{AllNames, Forms, Missing, Style, TextError};
use subst::{Env, Error, ShellMap, substitute};

/// The error of a text in the syntax of Docker Compose. Either case may also wrap an allocation failure.
#[derive(Debug, Drop)]
pub enum ComposeError {
    /// A form of the text is refused.
    Text(TextError),
    /// A required variable is missing.
    Variable(Error),
}

impl From<TextError> for ComposeError {
    ghost from_gives = { λ e error. error ≡ fault.Text e };

    fn from(e: TextError) -> ComposeError {
        ComposeError::Text(e)
    }
}

impl From<Error> for ComposeError {
    ghost from_gives = { λ e error. error ≡ fault.Variable e };

    fn from(e: Error) -> ComposeError {
        ComposeError::Variable(e)
    }
}

/// Expands a text in the syntax of Docker Compose from the environment. An unset variable expands to nothing.
///
/// # Errors
///
/// The first refused form. Otherwise the first missing variable with `?` or `:?`.
pub fn filled_in(alloc: Global, text: &str, environment: &Env) -> Result<String, ComposeError>
    ensures value { IfOk result
        (λ output. IsValueOf (first_value environment.now) text.now (Ok (string_bytes output))) }
    ensures fault { IfErr result (IsFaultOf (first_value environment.now) text.now) }
{
    let style = Style {
        forms: Forms::Shell,
        names: &AllNames,
        missing: Missing::Nothing,
    };
    let template = style.template(alloc, text)?;
    let variables = ShellMap { map: environment };
    Ok(substitute(alloc, template.as_str(), &variables)?)
}
