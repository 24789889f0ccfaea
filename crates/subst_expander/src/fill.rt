//! The expansion of one byte string, or its refusal.

ghost use Rattle.std.specs.Prelude.{◌≡◌, ℕ, List, IfOk, IfErr};
ghost use Rattle.subst.specs.Calls.Clauses.{ListsMissing};
ghost use Rattle.subst.specs.Language.Answer.{Answers, Gives};
ghost use Rattle.subst_expander.specs.Faults.{IsRefusalUnder};
ghost use Rattle.subst_expander.specs.Fill.{look_for, look_up_of};
ghost use Rattle.subst_filter_lib.specs.Arguments.{value_under};

use crate::part::no_faults;
use std::alloc::{AllocError, Global};
use std::ops::Range;
use subst::error::NoSuchVariable;
use subst::foreign::Forms;
use subst::{ByteTemplate, Error, NoEmpty, OneOf, ShellMap, VariableMap, substitute_bytes};
use subst_filter_lib::values::Values;

/// The map in which a template looks up its names.
#[derive(Clone, Copy)]
pub enum LookUpValues<'m, 'v> {
    /// The value of each name, even if it is empty.
    ByName(&'m Values<'v>),
    /// The value of each name, unless it is empty.
    NonEmpty(NoEmpty<'m, Values<'v>>),
    /// The values for a shell-style text's template. A name that begins with 1, 2 or 3 is a question about a
    /// variable: see [`ShellMap`].
    ByQuestion(ShellMap<'m, Values<'v>>),
}

impl<'m, 'v> LookUpValues<'m, 'v> {
    /// Returns the map for a template. `forms` are the forms of the text that was converted into the
    /// template, or `None` if the source is a template itself.
    pub fn of(values: &'m Values<'v>, forms: Option<Forms>) -> Self
        ensures { look_up_of result ≡ look_for forms (value_under values.now) }
    {
        match forms {
            Some(Forms::Shell) => LookUpValues::ByQuestion(ShellMap { map: values }),
            Some(Forms::Common) => LookUpValues::NonEmpty(NoEmpty { map: values }),
            Some(Forms::Own | Forms::Envsubst) | None => LookUpValues::ByName(values),
        }
    }
}

impl<'m> VariableMap<'m> for LookUpValues<'m, '_> {
    ghost use Rattle.subst_expander.specs.Fill.{look_up_of};

    type Value = &'m str;

    ghost Seen = { List ℕ };

    ghost see = { λ v. v.now };

    ghost look_up = { look_up_of };

    fn get(&'m self, key: &str) -> Option<&'m str> {
        match self {
            LookUpValues::ByName(values) => Some(*values.get(key)?),
            LookUpValues::NonEmpty(filled) => Some(*filled.get(key)?),
            LookUpValues::ByQuestion(shell) => match shell.get(key)? {
                OneOf::First(value) => Some(*value),
                OneOf::Second(value) => Some(value),
            },
        }
    }
}

/// The refusal of a source.
#[derive(Debug, Drop)]
pub enum Refusal {
    /// The source isn't a template. The error has this range.
    NotATemplate(Range<usize>, Error),
    /// Variables are missing. The list has all of them, in order.
    Missing(Vec<NoSuchVariable>),
}

/// The output of a source, or its refusal.
pub type Filled = Result<Vec<u8>, Refusal>;

/// Expands a source, or returns its refusal.
///
/// # Errors
///
/// If allocation fails.
pub fn bytes(
    alloc: Global,
    source: &[u8],
    values: &LookUpValues<'_, '_>,
) -> Result<Filled, AllocError>
    ensures gives { IfOk result (λ filled. IfOk filled
        (λ output. Answers source.now (look_up_of values.now) (Gives output.items))) }
    ensures refuses { IfOk result (λ filled. IfErr filled
        (IsRefusalUnder (look_up_of values.now) source.now)) }
{
    match substitute_bytes(alloc, source, values) {
        Ok(output) => Ok(Ok(output)),
        Err(e) => match e {
            Error::OutOfMemory(e) => Err(e),
            Error::NoSuchVariable(_) => {
                let missing = missing(alloc, source, values)?;
                Ok(Err(Refusal::Missing(missing)))
            }
            e => {
                let range = e.source_range();
                Ok(Err(Refusal::NotATemplate(range, e)))
            }
        },
    }
}

/// Returns a source's missing variables in order, or none if the source isn't a template.
///
/// # Errors
///
/// If allocation fails.
pub fn missing<'m, M: VariableMap<'m>>(
    alloc: Global,
    source: &[u8],
    values: &'m M,
) -> Result<Vec<NoSuchVariable>, AllocError>
where
    M::Value: Drop,
    ensures { ListsMissing (M.look_up values.now) source.now result }
{
    match ByteTemplate::from_slice(alloc, source) {
        Ok(template) => template.missing(alloc, values),
        Err(e) => {
            no_faults(alloc, e)?;
            Ok(Vec::new(alloc))
        }
    }
}
