//! Maps of variables from the arguments of the command line and from the pairs of the environment.

ghost use Rattle.std.specs.Prelude.{◌≡◌, ℕ, List, Some, None, if◌then◌else◌, OnOk, IfOk, IfSome, is_some};
ghost use Rattle.std.specs.Option.{option_or};
ghost use Rattle.std.specs.Str.{bytes_eq};
ghost use Rattle.subst.specs.Calls.Maps.{first_value};
ghost use Rattle.subst_filter_lib.specs.Arguments.{is_pair, sets_name, name_in, value_in, last_value, value_under};

use std::alloc::{AllocError, Global};
use std::collections::HashMap;

/// A map of values by name. It is built once, so that lookups don't slow down with the number of names.
///
/// A name may be any text, even one that no placeholder can have.
pub type Values<'w> = HashMap<&'w str, &'w str>;

/// Returns the values of arguments of the form NAME=VALUE, by name. If several have the same name, the last
/// one wins. Other arguments are ignored.
///
/// # Errors
///
/// If allocation fails.
pub fn values_of_arguments(alloc: Global, arguments: &[String]) -> Result<Values<'_>, AllocError>
    ensures values { IfOk result (λ values. value_under values ≡ last_value arguments.now) }
{
    let mut values = HashMap::new(alloc);
    values.reserve(arguments.len())?;
    for argument in arguments {
        insert_argument(&mut values, argument.as_str())?;
    }
    Ok(values)
}

/// Returns the values of pairs of a name and a value, by name. If several have the same name, the first one
/// wins, as in an `Env` of these pairs.
///
/// # Errors
///
/// If allocation fails.
pub fn values_of_pairs(alloc: Global, pairs: &[(String, String)]) -> Result<Values<'_>, AllocError>
    ensures values { IfOk result (λ values. value_under values ≡ first_value pairs.now) }
{
    let mut values = HashMap::new(alloc);
    values.reserve(pairs.len())?;
    for (name, value) in pairs {
        insert_if_new(&mut values, name.as_str(), value.as_str())?;
    }
    Ok(values)
}

/// Inserts the value of an argument of the form NAME=VALUE, and replaces an earlier value of the same name.
/// Any other argument is ignored.
#[tactic(auto, using(std::proofs::lemmas::Map::Text::text_keys))]
fn insert_argument<'w>(values: &mut Values<'w>, argument: &'w str) -> Result<(), AllocError>
    ensures { OnOk result ((name : List ℕ) → value_under values.new name
        ≡ (if sets_name name argument.now then Some (value_in argument.now)
        else value_under values.old name)) }
{
    if let Some((name, value)) = pair(argument) {
        values.insert(name, value)?;
    }
    Ok(())
}

/// Inserts a value under a name, unless the map has a value of this name already.
#[tactic(auto, using(std::proofs::lemmas::Map::Text::text_keys))]
fn insert_if_new<'w>(
    values: &mut Values<'w>,
    name: &'w str,
    value: &'w str,
) -> Result<(), AllocError>
    ensures { OnOk result ((other : List ℕ) → value_under values.new other
        ≡ option_or (value_under values.old other)
        (if bytes_eq other name.now then Some value.now else None)) }
{
    values.entry(name)?.or_insert(value);
    Ok(())
}

/// Splits an argument at its first `=` into a name and a value, or returns `None` if it has no `=`.
fn pair(argument: &str) -> Option<(&str, &str)>
    ensures form { is_some result ≡ is_pair argument.now }
    ensures parts { IfSome result (λ p. (p.0.now ≡ name_in argument.now)
        × (p.1.now ≡ value_in argument.now)) }
{
    argument.split_once('=')
}
