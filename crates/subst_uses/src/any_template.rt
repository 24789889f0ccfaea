//! Callers that take a template as a parameter. Contracts state the output, even if the source of the
//! template is unknown.

ghost use Rattle.std.specs.Prelude.{◌≤◌, ◌+◌, length};
ghost use Rattle.subst.specs.Language.Tree.{Tree};
ghost use Rattle.subst.specs.Language.Sentence.{Spells};
ghost use Rattle.subst.specs.Language.Value.{value};
ghost use Rattle.subst.specs.Calls.VariableMap.{ByLookUp};
ghost use Rattle.subst.specs.Calls.Outcome.{Expands};

use std::alloc::Global;
use std::convert::AsSlice;
use subst::error::ExpandError;
use subst::steps::Turns;
use subst::{ByteTemplate, VariableMap, laws};

/// Expands a template. Its source has a tree, and the output is the value of that tree.
///
/// # Errors
///
/// As `expand`.
pub fn expanded<'a, M: VariableMap<'a>>(
    alloc: Global,
    template: &ByteTemplate,
    variables: &'a M,
) -> Result<Vec<u8>, ExpandError>
where
    M::Value: AsSlice<u8> + Drop,
    ensures { ByLookUp M.Value.items M.see (M.look_up variables.now)
        (λ look. (t : Tree) × Spells t template.now
        × Expands (λ output. output.items) result (value 0 t look)) }
{
    template.expand(alloc, variables)
}

/// Expands a template in at most as many turns as its source has bytes.
///
/// # Errors
///
/// As `expand`.
pub fn expanded_in_few_turns<'a, M: VariableMap<'a>>(
    alloc: Global,
    template: &ByteTemplate,
    variables: &'a M,
    turns: &mut Turns,
) -> Result<Vec<u8>, ExpandError>
where
    M::Value: AsSlice<u8> + Drop,
    ensures value { ByLookUp M.Value.items M.see (M.look_up variables.now)
        (λ look. (t : Tree) × Spells t template.now
        × Expands (λ output. output.items) result (value 0 t look)) }
    ensures turns { ByLookUp M.Value.items M.see (M.look_up variables.now)
        (λ _. turns.new ≤ turns.old + length template.now) }
{
    laws::turns_are_bounded();
    template.expand_counted(alloc, variables, turns)
}
