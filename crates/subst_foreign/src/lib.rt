//! Templates for texts written for other tools. Chosen names in certain forms, such as `$NAME`, are
//! variables; all else is literal text or is refused.
#![tactic(auto)]

ghost use Rattle.std.specs.Prelude.{false, string_bytes, true, IfOk};
ghost use Rattle.subst_foreign.specs.Foreign.{IsListed};
ghost use Rattle.subst_foreign.specs.Grammar.{grammar};
ghost use Rattle.subst_foreign.specs.Template.{IsTemplate};
ghost use Rattle.subst_foreign.specs.declared.forms.Forms.TheVariants.{Envsubst};
ghost use Rattle.subst_foreign.specs.declared.forms.Missing.TheVariants.{Fault};

use convert::{convert, text_of};
pub use forms::{Forms, Missing, Operator};
pub use names::{AllNames, KnownNames, Names, OnlyNames};
pub use refused::{FormAt, ShellForm, TextError};
pub use shell_map::ShellMap;
use std::alloc::{AllocError, Global};
pub use style::Style;
pub use variables::TextVariable;

mod convert;
pub mod escape;
mod forms;
pub mod laws;
mod names;
mod refused;
mod shell_map;
mod style;
mod token;
mod variables;

/// Returns a template for a text written for GNU envsubst. Each `$NAME` and `${NAME}` whose name doesn't
/// begin with a digit is a variable; all else is literal text. The template expands to the text with the
/// values of these variables. No text is refused.
///
/// Don't convert a result again: its backslashes would become literal text.
///
/// ```rust
/// let output = foreign::from_envsubst(alloc, "$5 for ${name}")?;
/// // \$5 for ${name}
/// ```
///
/// # Errors
///
/// If allocation fails.
pub fn from_envsubst(alloc: Global, text: &str) -> Result<String, AllocError>
    ensures template { IfOk result (λ template. IsTemplate (grammar Envsubst true
        (λ operated name. Unit {0})) Fault text.now (string_bytes template)) }
{
    unrefused(alloc, text, &AllNames)
}

/// Returns a template for a text in which only the given names are variables, as `$NAME` or `${NAME}`. All
/// else is literal text, including dollars and backslashes. The template expands to the text with the values
/// of these variables. No text is refused. Each call builds a set of the names: for many texts, make an
/// [`OnlyNames`] once, and a [`Style`] with it.
///
/// ```rust
/// let output = foreign::with_only(alloc, "$HOST:$PORT", &["PORT"])?;
/// // \$HOST:$PORT
/// ```
///
/// # Errors
///
/// If allocation fails.
pub fn with_only(alloc: Global, text: &str, names: &[&str]) -> Result<String, AllocError>
    ensures template { IfOk result (λ template. IsTemplate (grammar Envsubst false
        (λ operated. IsListed names.now)) Fault text.now (string_bytes template)) }
{
    let only = OnlyNames::new(alloc, names)?;
    unrefused(alloc, text, &only)
}

/// Returns a template for a text in which envsubst's forms of the chosen names are variables.
///
/// # Errors
///
/// If allocation fails.
fn unrefused<N: Names>(alloc: Global, text: &str, names: &N) -> Result<String, AllocError>
    ensures { IfOk result (λ template. IsTemplate (grammar Envsubst (N.all names.now)
        (N.counts names.now)) Fault text.now (string_bytes template)) }
{
    let style = Style {
        forms: Forms::Envsubst,
        names,
        missing: Missing::Fault,
    };
    Ok(text_of(convert(alloc, text.as_bytes(), style)?.template))
}
